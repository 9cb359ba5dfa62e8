// The pair that a part shows, as the pair of the whole.
ghost use Rattle.std.specs.Prelude.{◌≡◌, ◌+◌, ◌&&◌, nat_le};
ghost use Rattle.codes.specs.Refusals.{outcome};
ghost use Rattle.theory.specs.Padding.{shown_padded};

use crate::asked::numbers_of;
use codes::code::Showing;
use codes::memory::{clear, move_within};
use codes::refusals::Refusal;

/// Shows the pair of a code with `before` zeros in front of each message and `after` behind it, and zeros from there to
/// `end`.
pub fn show_padded<C: Showing>(
    code: &C,
    memory: &mut [u8],
    before: usize,
    after: usize,
    end: usize,
) -> Result<(), Refusal>
    ensures { C.Code.fit code.now → (outcome result, memory.new) ≡ shown_padded (C.Code.meaning code.now) (C.Showing.pair code.now).0 (C.Showing.pair code.now).1 before after end memory.old }
{
    let Some(numbers) = numbers_of(code) else {
        return Err(Refusal::ShortMemory);
    };
    let k = numbers.dimension;
    if end > memory.len() || !has_room(end / 2, before, k, after, numbers.working) {
        return Err(Refusal::ShortMemory);
    }
    let both = 2 * numbers.working;
    code.show(&mut memory[0..both])?;
    let second = before + (k + after) + before;
    move_within(memory, k, k, second);
    move_within(memory, 0, k, before);
    clear(memory, 0, before);
    clear(memory, before + k, after + before);
    clear(memory, second + k, end - (second + k));
    Ok(())
}

/// Whether `half` bytes have room for a message of `k` symbols with the zeros around it, and for `working` bytes.
fn has_room(half: usize, before: usize, k: usize, after: usize, working: usize) -> bool
    ensures { result ≡ (nat_le (before + (k + after)) half && nat_le working half) }
{
    k <= half && after <= half - k && before <= half - k - after && working <= half
}
