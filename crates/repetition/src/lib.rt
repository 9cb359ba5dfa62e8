// The repetition code over any alphabet: the word is n copies of the one symbol of the message, n from 1 to 64.
#![tactic(auto)]

ghost use Rattle.std.specs.Prelude.{◌≡◌, ℕ, ◌≤◌, List, [], ◌∷◌, length, replicate};
ghost use Rattle.codes.specs.Refusals.{outcome, making};
ghost use Rattle.theory.specs.Pairs.{AtDistance};
ghost use Rattle.theory.specs.Calls.{sent, mended, read_back, shown};
ghost use Rattle.theory.specs.Repetition.{repetition, repetition_making};
ghost use Rattle.theory.specs.Words.{wrong, marked};
ghost use Rattle.repetition.specs.Symbol.{TellsSymbol};
ghost use Rattle.theory.proofs.Repetition.{repetition_keeps, repetition_shows};

use alphabets::Alphabet;
use codes::code::{Code, Showing};
use codes::memory::clear;
use codes::refusals::{MakingRefusal, Refusal};
use codes::tolls::Damage;
use std::marker::PhantomData;

#[derive(Drop)]
pub struct Repetition<S> {
    n: usize,
    symbols: PhantomData<S>,
    ghost least: { 1 ≤ n },
    ghost most: { n ≤ 64 },
}

impl<S: Alphabet> Repetition<S> {
    // Three lines over bounds of its own: a struct for a length in bounds, shared with parity, would be longer.
    /// Repetition of length n, 1 to 64.
    pub fn new(n: usize) -> Result<Repetition<S>, MakingRefusal>
        ensures { making (λ c. repetition c.n) result ≡ repetition_making n }
    {
        if n < 1 || n > 64 {
            return Err(MakingRefusal::OutOfRange);
        }
        Ok(Repetition {
            n,
            symbols: PhantomData,
        })
    }
}

impl<S: Alphabet> Code for Repetition<S> {
    type Symbols = S;

    ghost meaning = { λ c. repetition c.n };

    ghost fit = { λ _. Unit {0} };

    ghost keeps = { λ c fit. repetition_keeps S.Alphabet.symbols c.n c.least c.most };

    fn length(&self) -> usize {
        self.n
    }

    fn dimension(&self) -> usize {
        1
    }

    fn distance(&self) -> usize {
        self.n
    }

    fn working_length(&self) -> usize {
        self.n
    }

    fn carrier(&self, place: usize) -> Option<usize> {
        (place == 0).then_some(0)
    }

    fn send(&self, memory: &mut [u8]) -> Result<(), Refusal> {
        if memory.len() < self.n {
            return Err(Refusal::ShortMemory);
        }
        let symbol = memory[0];
        if symbol >= S::order() {
            return Err(Refusal::MarkInMessage(0));
        }
        memory[0..self.n].fill(symbol);
        Ok(())
    }

    fn mend(&self, memory: &mut [u8]) -> Result<(), Refusal> {
        if memory.len() < self.n {
            return Err(Refusal::ShortMemory);
        }
        let Some(symbol) = symbol_in_reach::<S>(&memory[0..self.n]) else {
            return Err(Refusal::BeyondReach);
        };
        memory[0..self.n].fill(symbol);
        Ok(())
    }

    fn read(&self, memory: &mut [u8]) -> Result<(), Refusal> {
        if memory.len() < self.n {
            return Err(Refusal::ShortMemory);
        }
        // Copies of the first byte without any damage: that is a word, and a mark is none.
        if !copies_damage::<S>(memory[0], &memory[0..self.n]).toll_below(1) {
            return Err(Refusal::NotAWord);
        }
        clear(memory, 1, self.n - 1);
        Ok(())
    }
}

// A check, a clear and one write: a function for all such pairs would take as many numbers as it has lines.
impl<S: Alphabet> Showing for Repetition<S> {
    ghost pair = { λ _. (0 ∷ [], 1 ∷ []) };

    ghost shows = { λ c fit. repetition_shows S.Alphabet.symbols c.n S.Alphabet.lawful.two_symbols };

    fn show(&self, memory: &mut [u8]) -> Result<(), Refusal> {
        let both = 2 * self.n;
        if memory.len() < both {
            return Err(Refusal::ShortMemory);
        }
        clear(memory, 0, both);
        memory[1] = 1;
        Ok(())
    }
}

/// The symbol whose copies have a toll below their number against the received word, if there is one.
fn symbol_in_reach<S: Alphabet>(received: &[u8]) -> Option<u8>
    ensures { TellsSymbol S.Alphabet.symbols.q received.now result }
{
    // A loop: tried as `find` over the range, with a closure that calls `copies_damage`, the proof did not close.
    for symbol in 0..S::order() {
        if copies_damage::<S>(symbol, received).toll_below(received.len()) {
            return Some(symbol);
        }
    }
    None
}

/// The damage between copies of a symbol and what was received.
fn copies_damage<S: Alphabet>(symbol: u8, received: &[u8]) -> Damage
    ensures errors { result.wrong ≡ wrong S.Alphabet.symbols.q (replicate (length received.now) symbol) received.now }
    ensures erasures { result.marked ≡ marked S.Alphabet.symbols.q received.now }
{
    // One pass, as `damage_between`: with a chain each for both counts it took twice the time.
    let mut wrong = 0;
    let mut marked = 0;
    for x in received {
        if *x >= S::order() {
            marked += 1;
        } else if *x != symbol {
            wrong += 1;
        }
    }
    Damage { wrong, marked }
}
