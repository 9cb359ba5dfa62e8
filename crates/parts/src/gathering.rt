// Putting the results of two parts together. The numbers stay apart, as in the definition that the contract cites.
ghost use Rattle.std.specs.Prelude.{◌≡◌};
ghost use Rattle.theory.specs.Memory.{gathered};

use codes::memory::{clear, has_range, move_within};

/// Writes `a` bytes from `left` on and `b` bytes from `right` on to the front, one after the other, and zeros behind them
/// up to `end`.
pub fn gather(memory: &mut [u8], left: usize, a: usize, right: usize, b: usize, end: usize)
    ensures { memory.new ≡ gathered memory.old left a right b end }
{
    if has_range(end, a, b) {
        move_within(memory, left, a, 0);
        move_within(memory, right, b, a);
        clear(memory, a + b, end - (a + b));
    }
}
