// Bytes in lent memory. A range that is not all there is left as it is. From and count, as in the definitions: the end of a range
// could overflow.
ghost use Rattle.std.specs.Prelude.{◌≡◌, ◌+◌, nat_le};
ghost use Rattle.theory.specs.Memory.{moved, cleared, copied};

/// Whether memory of `len` bytes has all of the `count` bytes from `from` on.
pub fn has_range(len: usize, from: usize, count: usize) -> bool
    ensures { result ≡ nat_le (from + count) len }
{
    count <= len && from <= len - count
}

/// Writes the `count` bytes from `from` on over those from `to` on; the two ranges may overlap.
pub fn move_within(memory: &mut [u8], from: usize, count: usize, to: usize)
    ensures { memory.new ≡ moved memory.old from count to }
{
    let len = memory.len();
    if has_range(len, from, count) && has_range(len, to, count) {
        memory.copy_within(from..from + count, to);
    }
}

/// Writes `count` zeros from `from` on.
pub fn clear(memory: &mut [u8], from: usize, count: usize)
    ensures { memory.new ≡ cleared memory.old from count }
{
    if has_range(memory.len(), from, count) {
        memory[from..from + count].fill(0);
    }
}

/// Writes the `count` bytes of `source` from `from` on over those of `memory` from `to` on.
pub fn copy_between(memory: &mut [u8], to: usize, source: &[u8], from: usize, count: usize)
    ensures { memory.new ≡ copied memory.old to source.now from count }
{
    if has_range(source.len(), from, count) && has_range(memory.len(), to, count) {
        memory[to..to + count].copy_from_slice(&source[from..from + count]);
    }
}
