// A place more or a place less: what puncturing and shortening do to words, messages and carriers. The numbers of a range stay
// apart, as in the definitions that the contracts cite: a struct of them would be no plainer, as each is used once.
ghost use Rattle.std.specs.Prelude.{◌≡◌};
ghost use Rattle.theory.specs.Gaps.{widens, widened, narrows, narrowed, narrowed_to_front};
ghost use Rattle.theory.specs.Joins.{carrier_without};

use codes::memory::{clear, has_range, move_within};

/// Whether memory of `len` bytes has room for `widen`.
fn has_room_to_widen(len: usize, from: usize, count: usize, place: usize, to: usize) -> bool
    ensures { result ≡ widens len from count place to }
{
    place <= count && from <= to && count < len && to < len - count
}

/// Writes the `count` bytes from `from` on, with `value` put in at `place`, over those from `to` on, which may overlap
/// them. Unchanged unless that place and all bytes are there and `to` is not below `from`.
pub fn widen(memory: &mut [u8], from: usize, count: usize, place: usize, value: u8, to: usize)
    ensures { memory.new ≡ widened memory.old from count place value to }
{
    if has_room_to_widen(memory.len(), from, count, place, to) {
        // From above: no byte is overwritten before it is moved.
        move_within(memory, from + place, count - place, to + place + 1);
        memory[to + place] = value;
        move_within(memory, from, place, to);
    }
}

/// Whether memory of `len` bytes has what `narrow` moves.
fn has_bytes_to_narrow(len: usize, from: usize, count: usize, place: usize, to: usize) -> bool
    ensures { result ≡ narrows len from count place to }
{
    place < count && to <= from && has_range(len, from, count)
}

/// Writes the `count` bytes from `from` on, without the one at `place`, over those from `to` on, which may overlap them.
/// Unchanged unless that place and all bytes are there and `to` is not above `from`.
pub fn narrow(memory: &mut [u8], from: usize, count: usize, place: usize, to: usize)
    ensures { memory.new ≡ narrowed memory.old from count place to }
{
    if has_bytes_to_narrow(memory.len(), from, count, place, to) {
        // From below: no byte is overwritten before it is moved.
        move_within(memory, from, place, to);
        move_within(memory, from + place + 1, count - place - 1, to + place);
    }
}

/// Writes the `count` bytes from `from` on, without the one at `place`, to the front, and zeros behind them up to `end`.
/// Unchanged where they would pass it or have no such place.
pub fn narrow_to_front(memory: &mut [u8], from: usize, count: usize, place: usize, end: usize)
    ensures { memory.new ≡ narrowed_to_front memory.old from count place end }
{
    if place < count && count <= end {
        narrow(memory, from, count, place, 0);
        clear(memory, count - 1, end - (count - 1));
    }
}

/// A carrier once the word has lost the place `gone`.
pub fn carrier_without(carrier: Option<usize>, gone: usize) -> Option<usize>
    ensures { result ≡ carrier_without gone carrier }
{
    let place = carrier?;
    if place < gone {
        Some(place)
    } else if place == gone {
        None
    } else {
        Some(place - 1)
    }
}
