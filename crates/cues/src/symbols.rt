// Levels as symbols: which symbol stands where in the messages of a cue, and numbers as they are read back.
ghost use Rattle.std.specs.Prelude.{◌≡◌, ◌+◌, ◌*◌, ◌/◌, ◌%◌, ◌^◌, ◌<◌, ◌≤◌, length};
ghost use Rattle.cues.specs.Steps.{symbol_in, message_in, carried_byte};

use crate::shape::Shape;

/// What a missing level is recorded as.
const MISSING_LEVEL: u8 = 0;

/// The symbol of a level that has `place` symbols behind it.
fn digit(level: u8, order: u8, place: usize) -> u8
    requires { 2 ≤ order }
    ensures { result ≡ (level / (order ^ place)) % order }
{
    let mut high = level;
    for _ in 0..place {
        high /= order;
    }
    high % order
}

/// The symbol at this place of the levels given and the missing ones; behind the last level a zero.
pub(crate) fn symbol(shape: &Shape, levels: &[u8], place: usize) -> u8
    ensures { result ≡ symbol_in shape.now levels.now place }
{
    let index = place / shape.width;
    if index >= shape.levels {
        return 0;
    }
    let level = levels.get(index).copied().unwrap_or(MISSING_LEVEL);
    digit(level, shape.order, shape.width - 1 - place % shape.width)
}

/// Writes this message of the levels.
pub(crate) fn write_message(shape: &Shape, levels: &[u8], word: usize, message: &mut [u8])
    requires word { word < shape.now.words }
    requires message { length message.old ≡ shape.now.numbers.dimension }
    ensures { message.new ≡ message_in shape.now levels.now word }
{
    let start = word * shape.numbers.dimension;
    for (place, byte) in message.iter_mut().enumerate() {
        *byte = symbol(shape, levels, start + place);
    }
}

/// The number with one more symbol behind it, if both are at most 255.
pub(crate) fn carried(number: Option<u8>, order: u8, symbol: u8) -> Option<u8>
    ensures { result ≡ carried_byte number order symbol }
{
    number?.checked_mul(order)?.checked_add(symbol)
}
