// Two words in memory put together place by place: their sum, or the one less the other. The numbers of `combine` stay apart,
// as in the definition that its contract cites: in a struct they would be no plainer.
ghost use Rattle.std.specs.Prelude.{◌≡◌, ℕ, ◌+◌};
ghost use Rattle.parts.specs.Combining.{placewise, PutsTogether};
ghost use Rattle.theory.specs.Combining.{readable, combinable, combined};
ghost use Rattle.theory.specs.Halves.{byte_less};

use crate::combination::Combination;
use alphabets::Alphabet;
use codes::memory::has_range;

/// A byte less another; a mark where either is one.
pub fn subtract<S: Alphabet>(x: u8, y: u8) -> u8
    ensures { result ≡ byte_less S.Alphabet.symbols x y }
{
    S::add(x, S::negate(y))
}

/// The sum of two bytes, or the one less the other; a mark where either is one.
pub fn combine_bytes<S: Alphabet>(combination: Combination, x: u8, y: u8) -> u8
    ensures { result ≡ placewise S.Alphabet.symbols combination x y }
{
    match combination {
        Combination::Sum => S::add(x, y),
        Combination::Difference => subtract::<S>(x, y),
    }
}

/// Whether `count` bytes from `from` on are each read before a write that goes up from `to` reaches them.
pub fn is_readable(from: usize, count: usize, to: usize) -> bool
    ensures { result ≡ readable from count to }
{
    to <= from || count <= to - from
}

/// Whether memory of `len` bytes has all three ranges, and both words can be read while the third is written.
pub fn can_combine(len: usize, left: usize, right: usize, count: usize, to: usize) -> bool
    ensures { result ≡ combinable len left right count to }
{
    has_range(len, left, count)
        && has_range(len, right, count)
        && has_range(len, to, count)
        && is_readable(left, count, to)
        && is_readable(right, count, to)
}

/// Puts the `count` bytes from `left` on and those from `right` on together, and writes them from `to` on; changes
/// nothing where that cannot be.
pub fn combine<S: Alphabet>(
    memory: &mut [u8],
    combination: Combination,
    left: usize,
    right: usize,
    count: usize,
    to: usize,
)
    ensures { memory.new ≡ combined (placewise S.Alphabet.symbols combination) memory.old left right count to }
{
    combine_by(
        memory,
        left,
        right,
        count,
        to,
        |x, y| combine_bytes::<S>(combination, x, y),
    );
}

// For this crate alone: a call of a closure asks that it may be called, and `combine` asks nothing.
/// The same by `put`.
fn combine_by<F: Fn(u8, u8) -> u8>(
    memory: &mut [u8],
    left: usize,
    right: usize,
    count: usize,
    to: usize,
    put: F,
)
    requires { F.IsAlwaysCallable put }
    ensures { (by : ℕ → ℕ → ℕ) → PutsTogether (F.post put) by → memory.new ≡ combined by memory.old left right count to }
{
    if !can_combine(memory.len(), left, right, count, to) {
        return;
    }
    // By index: the bytes that are read and those that are written are of one slice, and may overlap.
    for i in 0..count {
        memory[to + i] = put(memory[left + i], memory[right + i]);
    }
}
