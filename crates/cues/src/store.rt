// The store: a code, its numbers and what it keeps of its cues. Its type says whether it plots or runs.
ghost use Rattle.std.specs.Prelude.{◌≡◌};
ghost use Rattle.cues.specs.Shapes.{plan_in, state_in, StoreNumbers};
ghost use Rattle.store_theory.specs.Layout.{word_count, cell_count};

use crate::kept::Kept;
use crate::shape::Shape;
use codes::code::Code;
use std::marker::PhantomData;

/// How many words a touch up changed, and how many it found beyond reach.
#[derive(Clone, Copy)]
pub struct Touched {
    pub changed: usize,
    pub beyond_reach: usize,
}

/// The state in which cues may be recorded, held, wiped, touched up and recalled.
#[derive(Clone, Copy)]
pub struct WhilePlotting;

/// The state in which cues may be touched up and recalled alone; one stops the store to record.
#[derive(Clone, Copy)]
pub struct WhileRunning;

/// A code, the numbers of the store over it, and what it keeps of its cues, in this state. If the code is fit, the numbers
/// are those that making works out.
#[derive(Drop)]
pub struct Store<C: Code, S> {
    pub(crate) code: C,
    pub(crate) shape: Shape,
    pub(crate) kept: Kept,
    pub(crate) state: PhantomData<S>,
    ghost fits: { C.Code.fit code → StoreNumbers C.Symbols.Alphabet.symbols (C.Code.meaning code) shape },
}

/// A store whose cues may be recorded, held, wiped, touched up and recalled.
pub type Plotting<C> = Store<C, WhilePlotting>;

/// A store whose cues may be touched up and recalled alone; one stops it to record.
pub type Running<C> = Store<C, WhileRunning>;

impl<C: Code + Drop, S> Store<C, S> {
    // Here and not above: the definition names this struct.
    ghost use Rattle.cues.specs.Stores.{of_store};

    /// How many words touching up has changed so far; it stays at 65,535.
    pub fn tally(&self) -> u16
        ensures { result ≡ (state_in self.now.kept).tally }
    {
        self.kept.tally
    }

    /// How many words a cue has.
    pub fn words(&self) -> usize
        ensures number { result ≡ self.now.shape.words }
        ensures answer { C.Code.fit self.now.code → result ≡ of_store self.now word_count }
    {
        self.shape.words
    }

    /// How many cells all cues have together.
    pub fn cells(&self) -> usize
        ensures number { result ≡ self.now.shape.cells }
        ensures answer { C.Code.fit self.now.code → result ≡ of_store self.now cell_count }
    {
        self.shape.cells
    }

    /// How many bytes of working memory a call needs.
    pub fn working_length(&self) -> usize
        ensures number { result ≡ self.now.shape.numbers.working }
        ensures answer { C.Code.fit self.now.code → result ≡ (C.Code.meaning self.now.code).w }
    {
        self.shape.numbers.working
    }
}
