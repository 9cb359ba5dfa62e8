// Whether a word in two pieces is near enough to what was received.
ghost use Rattle.std.specs.Prelude.{◌≡◌, ◌+◌, ◌*◌, length, is_some, IfSome};
ghost use Rattle.parts.specs.Nearness.{is_placed, placed_toll, both_near};

use crate::placed::Placed;
use alphabets::Alphabet;
use codes::memory::has_range;
use codes::tolls::{Damage, damage_between};

/// The damage of a word against what was received, or None where either is not all there.
pub fn damage_at<S: Alphabet>(memory: &[u8], placed: Placed) -> Option<Damage>
    ensures there { is_some result ≡ is_placed (length memory.now) placed }
    ensures toll { IfSome result (λ d. 2 * d.wrong + d.marked ≡ placed_toll S.Alphabet.symbols.q memory.now placed) }
{
    let Placed {
        word,
        received,
        count,
    } = placed;
    if !has_range(memory.len(), word, count) || !has_range(memory.len(), received, count) {
        return None;
    }
    Some(damage_between::<S>(
        &memory[word..word + count],
        &memory[received..received + count],
    ))
}

/// Whether both pieces are there, and have together a toll below the distance.
pub fn are_near<S: Alphabet>(memory: &[u8], first: Placed, second: Placed, distance: usize) -> bool
    ensures { result ≡ both_near S.Alphabet.symbols.q memory.now first second distance }
{
    let Some(a) = damage_at::<S>(memory, first) else {
        return false;
    };
    let Some(b) = damage_at::<S>(memory, second) else {
        return false;
    };
    a.toll_below(distance) && b.toll_below(distance - 2 * a.wrong - a.marked)
}
