// The parity code over any alphabet: the word is the message and then the symbol that makes the sum 0, n from 2 to 64.
#![tactic(auto)]

ghost use Rattle.std.specs.Prelude.{◌≡◌, ℕ, ◌-◌, ◌≤◌, List, [], ◌∷◌, replicate};
ghost use Rattle.codes.specs.Refusals.{outcome, making};
ghost use Rattle.theory.specs.Pairs.{AtDistance};
ghost use Rattle.theory.specs.Calls.{sent, mended, read_back, shown};
ghost use Rattle.theory.specs.Parity.{parity, parity_making};
ghost use Rattle.parity.specs.Sums.{unmarked_total};
ghost use Rattle.theory.proofs.Parity.{parity_keeps, parity_shows};

use alphabets::Alphabet;
use codes::code::{Code, Showing};
use codes::memory::clear;
use codes::refusals::{MakingRefusal, Refusal};
use codes::tolls::{count_marks, first_mark};
use std::marker::PhantomData;

#[derive(Drop)]
pub struct Parity<S> {
    n: usize,
    symbols: PhantomData<S>,
    ghost least: { 2 ≤ n },
    ghost most: { n ≤ 64 },
}

impl<S: Alphabet> Parity<S> {
    // Three lines over bounds of its own: a struct for a length in bounds, shared with repetition, would be longer.
    /// Parity of length n, 2 to 64.
    pub fn new(n: usize) -> Result<Parity<S>, MakingRefusal>
        ensures { making (λ c. parity S.Alphabet.symbols c.n) result ≡ parity_making S.Alphabet.symbols n }
    {
        if n < 2 || n > 64 {
            return Err(MakingRefusal::OutOfRange);
        }
        Ok(Parity {
            n,
            symbols: PhantomData,
        })
    }
}

impl<S: Alphabet> Code for Parity<S> {
    type Symbols = S;

    ghost meaning = { λ c. parity S.Alphabet.symbols c.n };

    ghost fit = { λ _. Unit {0} };

    ghost keeps = { λ c fit. parity_keeps S.Alphabet.symbols S.Alphabet.lawful c.n c.least c.most };

    fn length(&self) -> usize {
        self.n
    }

    fn dimension(&self) -> usize {
        self.n - 1
    }

    fn distance(&self) -> usize {
        2
    }

    fn working_length(&self) -> usize {
        self.n
    }

    fn carrier(&self, place: usize) -> Option<usize> {
        (place < self.n - 1).then_some(place)
    }

    fn send(&self, memory: &mut [u8]) -> Result<(), Refusal> {
        if memory.len() < self.n {
            return Err(Refusal::ShortMemory);
        }
        let last = self.n - 1;
        if let Some(place) = first_mark::<S>(&memory[0..last]) {
            return Err(Refusal::MarkInMessage(place));
        }
        memory[last] = S::negate(sum_of_unmarked::<S>(&memory[0..last]));
        Ok(())
    }

    fn mend(&self, memory: &mut [u8]) -> Result<(), Refusal> {
        if memory.len() < self.n {
            return Err(Refusal::ShortMemory);
        }
        let sum = sum_of_unmarked::<S>(&memory[0..self.n]);
        let Some(place) = first_mark::<S>(&memory[0..self.n]) else {
            return if sum == 0 {
                Ok(())
            } else {
                Err(Refusal::BeyondReach)
            };
        };
        if count_marks::<S>(&memory[0..self.n]) != 1 {
            return Err(Refusal::BeyondReach);
        }
        memory[place] = S::negate(sum);
        Ok(())
    }

    fn read(&self, memory: &mut [u8]) -> Result<(), Refusal> {
        if memory.len() < self.n {
            return Err(Refusal::ShortMemory);
        }
        if count_marks::<S>(&memory[0..self.n]) != 0
            || sum_of_unmarked::<S>(&memory[0..self.n]) != 0
        {
            return Err(Refusal::NotAWord);
        }
        memory[self.n - 1] = 0;
        Ok(())
    }
}

// A check, a clear and one write: a function for all such pairs would take as many numbers as it has lines.
impl<S: Alphabet> Showing for Parity<S> {
    ghost pair = { λ c. (replicate (c.n - 1) 0, 1 ∷ replicate (c.n - 2) 0) };

    ghost shows = { λ c fit. parity_shows S.Alphabet.symbols S.Alphabet.lawful c.n c.least };

    fn show(&self, memory: &mut [u8]) -> Result<(), Refusal> {
        let both = 2 * self.n;
        if memory.len() < both {
            return Err(Refusal::ShortMemory);
        }
        clear(memory, 0, both);
        memory[self.n - 1] = 1;
        Ok(())
    }
}

/// The sum of the symbols among the bytes, marks left out.
fn sum_of_unmarked<S: Alphabet>(bytes: &[u8]) -> u8
    ensures { result ≡ unmarked_total S.Alphabet.symbols bytes.now }
{
    let mut sum = 0;
    for x in bytes {
        if *x < S::order() {
            sum = S::add(sum, *x);
        }
    }
    sum
}
