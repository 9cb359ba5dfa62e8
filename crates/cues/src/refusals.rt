// Why a store refuses. specs/Refusals.antt has the number and the values of each.
ghost use Rattle.std.specs.Prelude.{◌≡◌};
ghost use Rattle.codes.specs.Refusals.{outcome};
ghost use Rattle.cues.specs.Refusals.{store_number, store_outcome};
ghost use Rattle.store_theory.specs.Calls.{fault_of_code};

use codes::refusals::Refusal;

/// What a call of a store, or its making, may answer in place of doing what it is asked.
#[derive(Debug, Clone, Copy, PartialEq, Eq)]
pub enum StoreRefusal {
    /// There are fewer cells, working bytes or bytes for levels than the call needs.
    ShortMemory,
    /// The code refused this word of this cue; its fault is whole inside.
    Code {
        cue: usize,
        word: usize,
        fault: Refusal,
    },
    /// The store would have more cells than any may have.
    TooManyCells,
    /// The number of cues or of levels is outside what a store allows.
    OutOfRange,
    /// There is no such cue.
    NoSuchCue,
    /// There are more levels than a cue has.
    TooManyLevels,
    /// A slip is out for the cue.
    Held,
    /// Nothing is recorded in the cue.
    Empty,
    /// The number of this level passes 255; or, if it is the number of levels, a filling symbol is not 0.
    LevelOutOfRange {
        cue: usize,
        level: usize,
    },
    /// No slip is out for the cue.
    NotHeld,
}

impl StoreRefusal {
    // By a match: a case with values takes no number of its own.
    /// The number by which it is known; that of the code's fault, if it is one.
    pub fn number(&self) -> u8
        ensures { result ≡ store_number self.now }
    {
        match self {
            StoreRefusal::ShortMemory => 1,
            StoreRefusal::Code { fault, .. } => fault.number(),
            StoreRefusal::TooManyCells => 6,
            StoreRefusal::OutOfRange => 11,
            StoreRefusal::NoSuchCue => 12,
            StoreRefusal::TooManyLevels => 13,
            StoreRefusal::Held => 14,
            StoreRefusal::Empty => 15,
            StoreRefusal::LevelOutOfRange { .. } => 16,
            StoreRefusal::NotHeld => 17,
        }
    }
}

/// The code's answer for this word of this cue, as the store's answer.
pub(crate) fn of_word(
    answer: Result<(), Refusal>,
    cue: usize,
    word: usize,
) -> Result<(), StoreRefusal>
    ensures { store_outcome result ≡ fault_of_code cue word (outcome answer) }
{
    answer.map_err(|fault| StoreRefusal::Code { cue, word, fault })
}
