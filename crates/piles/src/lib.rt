// Piles with names: the first-order Reed-Muller codes RM(1,m) over two, and the four-symbol pile.
#![tactic(auto)]

ghost use Rattle.std.specs.Prelude.{◌≡◌, ℕ, suc, ◌+◌, ◌-◌, ◌*◌, ◌^◌, ◌≤◌, IfOk};
ghost use Rattle.codes.specs.Refusals.{making};
ghost use Rattle.piles.specs.Named.{HasNumbers};
ghost use Rattle.theory.specs.Alphabets.{two, four};
ghost use Rattle.theory.specs.NamedPiles.{reed_muller, four_pile};
ghost use Rattle.theory.specs.Piles.{making_of};
ghost use Rattle.theory.specs.Repetition.{repetition_making};

use alphabets::{Four, Two};
use codes::code::Code;
use codes::refusals::MakingRefusal;
use hexacode::Hexacode;
use parity::Parity;
use plotkin::Plotkin;
use repetition::Repetition;

/// A Reed-Muller code RM(1,m): repetition 1 is RM(1,0), and a Plotkin join of RM(1,m) and a repetition is RM(1,m + 1).
pub trait ReedMuller: Code<Symbols = Two> + Drop {
    ghost m: { ℕ };

    /// This code; from RM(1,8) on the repetition would be too long.
    fn make() -> Result<Self, MakingRefusal>
        ensures making { m ≤ 7 → making Self.Code.meaning result ≡ making_of two (reed_muller m) }
        ensures fits { IfOk result Self.Code.fit };
}

impl ReedMuller for Repetition<Two> {
    ghost m = { 0 };

    fn make() -> Result<Repetition<Two>, MakingRefusal> {
        Repetition::new(1)
    }
}

impl<C: ReedMuller> ReedMuller for Plotkin<C, Repetition<Two>> {
    ghost m = { suc C.m };

    fn make() -> Result<Plotkin<C, Repetition<Two>>, MakingRefusal> {
        let left = C::make()?;
        let right = repetition_beside(&left)?;
        Plotkin::new(left, right)
    }
}

// A function of its own, so that what is made is said by the code's length, whichever way that is passed on.
/// The repetition whose words are as long as this code's.
fn repetition_beside<C: Code>(code: &C) -> Result<Repetition<Two>, MakingRefusal>
    ensures { C.Code.fit code.now → making ⟦<Repetition<Two> as Code>⟧.meaning result ≡ repetition_making (C.Code.meaning code.now).n }
{
    let length = code.length();
    Repetition::new(length)
}

/// RM(1,m): length 2 ^ m, dimension m + 1, distance 2 ^ (m - 1), working length 4 * 2 ^ m - 3.
pub fn reed_muller<C: ReedMuller>() -> Result<C, MakingRefusal>
    ensures making { C.m ≤ 7 → making C.Code.meaning result ≡ making_of two (reed_muller C.m) }
    ensures numbers { C.m ≤ 7 → HasNumbers (making_of two (reed_muller C.m)) (2 ^ C.m) (C.m + 1) (2 ^ (C.m - 1)) (4 * 2 ^ C.m - 3) }
    ensures fits { IfOk result C.Code.fit }
{
    C::make()
}

/// RM(1,1): length 2, dimension 2, distance 1, working length 5.
pub type ReedMuller1 = Plotkin<Repetition<Two>, Repetition<Two>>;

/// RM(1,2): length 4, dimension 3, distance 2, working length 13.
pub type ReedMuller2 = Plotkin<ReedMuller1, Repetition<Two>>;

/// RM(1,3): length 8, dimension 4, distance 4, working length 29.
pub type ReedMuller3 = Plotkin<ReedMuller2, Repetition<Two>>;

/// RM(1,4): length 16, dimension 5, distance 8, working length 61.
pub type ReedMuller4 = Plotkin<ReedMuller3, Repetition<Two>>;

/// RM(1,5): length 32, dimension 6, distance 16, working length 125.
pub type ReedMuller5 = Plotkin<ReedMuller4, Repetition<Two>>;

/// Plotkin's join of parity 6 and the hexacode over four symbols.
pub type FourPile = Plotkin<Parity<Four>, Hexacode>;

/// The four-symbol pile: length 12, dimension 8, distance 4, working length 30.
pub fn four_pile() -> Result<FourPile, MakingRefusal>
    ensures making { making ⟦<FourPile as Code>⟧.meaning result ≡ making_of four four_pile }
    ensures numbers { HasNumbers (making_of four four_pile) 12 8 4 30 }
    ensures fits { IfOk result ⟦<FourPile as Code>⟧.fit }
{
    Plotkin::new(Parity::new(6)?, Hexacode)
}
