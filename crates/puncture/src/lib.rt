// Puncturing: the word of a code loses a place.
#![tactic(auto)]

ghost use Rattle.std.specs.Prelude.{◌≡◌, ◌+◌, ◌-◌, ◌<◌, ◌≤◌, length, IfOk};
ghost use Rattle.std.specs.List.{remove};
ghost use Rattle.codes.specs.Refusals.{making};
ghost use Rattle.theory.specs.Joins.{puncture, puncture_making};
ghost use Rattle.theory.specs.Meanings.{made as madeCode};
ghost use Rattle.theory.specs.Memory.{part};
ghost use Rattle.theory.specs.Piles.{Pile, puncture_at, making_of, EveryPileKeepsItsMeaning};
ghost use Rattle.theory.specs.Reach.{same};
ghost use Rattle.puncture.specs.Ways.{keeps_meaning};

use alphabets::MARK;
use codes::code::Code;
use codes::memory::{clear, move_within};
use codes::refusals::{MakingRefusal, Refusal};
use codes::tolls::first_mark;
use parts::gaps::{carrier_without, narrow_to_front};
use parts::numbers::MOST_WORKING;
use parts::part::Part;

/// A code whose words have lost a place. The code below works behind the first n bytes, n being its own length.
#[derive(Drop)]
pub struct Puncture<C: Code> {
    whole: Part<C>,
    place: usize,
    ghost within: { place < whole.numbers.length },
    ghost apart: { 2 ≤ whole.numbers.distance },
    ghost bounded: { whole.numbers.working + whole.numbers.length ≤ 4096 },
}

impl<C: Code + Drop> Puncture<C> {
    /// The code without this place of its words; a refused making uses it up.
    pub fn new(code: C, place: usize) -> Result<Puncture<C>, MakingRefusal>
        ensures making { C.Code.fit code → making ⟦<Puncture<C> as Code>⟧.meaning result ≡ puncture_making place (C.Code.meaning code) }
        ensures fits { C.Code.fit code → IfOk result ⟦<Puncture<C> as Code>⟧.fit }
        ensures one_step_of_a_pile { C.Code.fit code → (p : Pile) → making_of C.Symbols.Alphabet.symbols p ≡ madeCode (C.Code.meaning code) → making ⟦<Puncture<C> as Code>⟧.meaning result ≡ making_of C.Symbols.Alphabet.symbols (puncture_at place p) }
        ensures every_pile_keeps_its_meaning { EveryPileKeepsItsMeaning }
    {
        let whole = Part::new(code)?;
        if place >= whole.numbers.length {
            return Err(MakingRefusal::NoSuchPlace);
        }
        if whole.numbers.distance < 2 {
            return Err(MakingRefusal::DistanceTooSmall);
        }
        if whole.numbers.working + whole.numbers.length > MOST_WORKING {
            return Err(MakingRefusal::WorkingTooLong);
        }
        Ok(Puncture { whole, place })
    }
}

// What puncturing and shortening share is in `parts::gaps` and `Part::mend_widened`; the rest is a line for each step.
impl<C: Code + Drop> Code for Puncture<C> {
    type Symbols = C::Symbols;

    ghost meaning = { λ c. puncture c.place (C.Code.meaning c.whole.code) };

    ghost fit = { λ c. C.Code.fit c.whole.code };

    ghost keeps = { λ c fit. keeps_meaning C.Symbols.Alphabet.lawful (C.Code.keeps c.whole.code fit) (c.whole.asked fit) c.within c.apart c.bounded };

    fn length(&self) -> usize {
        self.whole.numbers.length - 1
    }

    fn dimension(&self) -> usize {
        self.whole.numbers.dimension
    }

    fn distance(&self) -> usize {
        self.whole.numbers.distance - 1
    }

    fn working_length(&self) -> usize {
        self.whole.numbers.working + self.whole.numbers.length
    }

    fn carrier(&self, place: usize) -> Option<usize> {
        carrier_without(self.whole.code.carrier(place), self.place)
    }

    fn send(&self, memory: &mut [u8]) -> Result<(), Refusal> {
        let n = self.whole.numbers.length;
        let k = self.whole.numbers.dimension;
        let end = self.whole.numbers.working + n;
        if memory.len() < end {
            return Err(Refusal::ShortMemory);
        }
        if let Some(place) = first_mark::<C::Symbols>(&memory[0..k]) {
            return Err(Refusal::MarkInMessage(place));
        }
        self.whole.send(memory, 0, n)?;
        narrow_to_front(memory, n, n, self.place, end);
        Ok(())
    }

    fn mend(&self, memory: &mut [u8]) -> Result<(), Refusal> {
        let n = self.whole.numbers.length;
        let end = self.whole.numbers.working + n;
        if memory.len() < end {
            return Err(Refusal::ShortMemory);
        }
        if self.whole.mend_widened(memory, self.place, MARK).is_err() {
            clear(memory, n - 1, end - (n - 1));
            return Err(Refusal::BeyondReach);
        }
        narrow_to_front(memory, n, n, self.place, end);
        Ok(())
    }

    fn read(&self, memory: &mut [u8]) -> Result<(), Refusal> {
        let n = self.whole.numbers.length;
        let k = self.whole.numbers.dimension;
        let end = self.whole.numbers.working + n;
        if memory.len() < end {
            return Err(Refusal::ShortMemory);
        }
        // A word costs one with the mark put in, so it is in reach below; any other bytes differ from what is found there.
        let mended = self.whole.mend_widened(memory, self.place, MARK);
        if mended.is_err() || !same_without(memory, n, self.place) {
            clear(memory, n - 1, end - (n - 1));
            return Err(Refusal::NotAWord);
        }
        self.whole.read(memory, n, n)?;
        move_within(memory, n, k, 0);
        clear(memory, k, end - k);
        Ok(())
    }
}

/// Whether the word of n bytes behind the first n, without its byte at `place`, is the word in front of it.
fn same_without(memory: &[u8], n: usize, place: usize) -> bool
    requires { (place < n) × (n + n ≤ length memory.now) }
    ensures { result ≡ same (remove (part memory.now n n) place) (part memory.now 0 (n - 1)) }
{
    memory[n..n + place] == memory[0..place] && memory[n + place + 1..n + n] == memory[place..n - 1]
}
