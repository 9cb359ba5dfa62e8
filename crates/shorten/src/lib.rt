// Shortening: the message of a code loses a place, and the word loses that place's carrier.
#![tactic(auto)]

ghost use Rattle.std.specs.Prelude.{◌≡◌, ◌+◌, ◌<◌, ◌≤◌, IfOk, Some};
ghost use Rattle.std.proofs.Props.{props};
ghost use Rattle.codes.specs.Refusals.{making};
ghost use Rattle.theory.specs.Joins.{shorten, shorten_making};
ghost use Rattle.theory.specs.Meanings.{made as madeCode};
ghost use Rattle.theory.specs.Piles.{Pile, shorten_at, making_of, EveryPileKeepsItsMeaning};
ghost use Rattle.shorten.specs.Ways.{keeps_meaning};

use codes::code::Code;
use codes::memory::clear;
use codes::refusals::{MakingRefusal, Refusal};
use codes::tolls::first_mark;
use parts::gaps::{carrier_without, narrow_to_front, widen};
use parts::numbers::MOST_WORKING;
use parts::part::Part;

/// A code of the messages that have a 0 at one place. That 0 is put in again, and the word loses the place that carries
/// it. The code below works behind the first n bytes, n being its own length.
#[derive(Drop)]
pub struct Shorten<C: Code> {
    whole: Part<C>,
    place: usize,
    lost: usize,
    ghost within: { place < whole.numbers.dimension },
    ghost remains: { 2 ≤ whole.numbers.dimension },
    ghost carried: { lost < whole.numbers.length },
    ghost carrier: { C.Code.fit whole.code → (C.Code.meaning whole.code).carrier place ≡ Some lost } by { Prim.hlevel props },
    ghost bounded: { whole.numbers.working + whole.numbers.length ≤ 4096 },
}

impl<C: Code + Drop> Shorten<C> {
    /// The code without this place of its messages; a refused making uses it up.
    pub fn new(code: C, place: usize) -> Result<Shorten<C>, MakingRefusal>
        ensures making { C.Code.fit code → making ⟦<Shorten<C> as Code>⟧.meaning result ≡ shorten_making place (C.Code.meaning code) }
        ensures fits { C.Code.fit code → IfOk result ⟦<Shorten<C> as Code>⟧.fit }
        ensures one_step_of_a_pile { C.Code.fit code → (p : Pile) → making_of C.Symbols.Alphabet.symbols p ≡ madeCode (C.Code.meaning code) → making ⟦<Shorten<C> as Code>⟧.meaning result ≡ making_of C.Symbols.Alphabet.symbols (shorten_at place p) }
        ensures every_pile_keeps_its_meaning { EveryPileKeepsItsMeaning }
    {
        let whole = Part::new(code)?;
        if place >= whole.numbers.dimension {
            return Err(MakingRefusal::NoSuchPlace);
        }
        if whole.numbers.dimension < 2 {
            return Err(MakingRefusal::DimensionTooSmall);
        }
        let Some(lost) = whole.code.carrier(place) else {
            return Err(MakingRefusal::NoCarrier);
        };
        // No fit code answers a carrier beyond its word.
        if lost >= whole.numbers.length {
            return Err(MakingRefusal::NoCarrier);
        }
        if whole.numbers.working + whole.numbers.length > MOST_WORKING {
            return Err(MakingRefusal::WorkingTooLong);
        }
        Ok(Shorten { whole, place, lost })
    }
}

// What puncturing and shortening share is in `parts::gaps` and `Part::mend_widened`; the rest is a line for each step.
impl<C: Code + Drop> Code for Shorten<C> {
    type Symbols = C::Symbols;

    ghost meaning = { λ c. shorten c.place c.lost (C.Code.meaning c.whole.code) };

    ghost fit = { λ c. C.Code.fit c.whole.code };

    ghost keeps = { λ c fit. keeps_meaning C.Symbols.Alphabet.lawful (C.Code.keeps c.whole.code fit) (c.carrier fit) (c.whole.asked fit) c.within c.remains c.bounded };

    fn length(&self) -> usize {
        self.whole.numbers.length - 1
    }

    fn dimension(&self) -> usize {
        self.whole.numbers.dimension - 1
    }

    fn distance(&self) -> usize {
        self.whole.numbers.distance
    }

    fn working_length(&self) -> usize {
        self.whole.numbers.working + self.whole.numbers.length
    }

    fn carrier(&self, place: usize) -> Option<usize> {
        let below = if place < self.place {
            place
        } else {
            place.checked_add(1)?
        };
        carrier_without(self.whole.code.carrier(below), self.lost)
    }

    fn send(&self, memory: &mut [u8]) -> Result<(), Refusal> {
        let n = self.whole.numbers.length;
        let k = self.whole.numbers.dimension;
        let end = self.whole.numbers.working + n;
        if memory.len() < end {
            return Err(Refusal::ShortMemory);
        }
        if let Some(place) = first_mark::<C::Symbols>(&memory[0..k - 1]) {
            return Err(Refusal::MarkInMessage(place));
        }
        widen(memory, 0, k - 1, self.place, 0, n);
        self.whole.send(memory, n, n)?;
        narrow_to_front(memory, n, n, self.lost, end);
        Ok(())
    }

    fn mend(&self, memory: &mut [u8]) -> Result<(), Refusal> {
        let n = self.whole.numbers.length;
        let end = self.whole.numbers.working + n;
        if memory.len() < end {
            return Err(Refusal::ShortMemory);
        }
        let below = self.whole.mend_widened(memory, self.lost, 0);
        // A message found with another symbol at the place is out of reach, and no other is in reach.
        if below.is_err() || memory[n + self.lost] != 0 {
            clear(memory, n - 1, end - (n - 1));
            return Err(Refusal::BeyondReach);
        }
        narrow_to_front(memory, n, n, self.lost, end);
        Ok(())
    }

    fn read(&self, memory: &mut [u8]) -> Result<(), Refusal> {
        let n = self.whole.numbers.length;
        let k = self.whole.numbers.dimension;
        let end = self.whole.numbers.working + n;
        if memory.len() < end {
            return Err(Refusal::ShortMemory);
        }
        widen(memory, 0, n - 1, self.lost, 0, n);
        if self.whole.read(memory, n, n).is_err() {
            clear(memory, n - 1, end - (n - 1));
            return Err(Refusal::NotAWord);
        }
        narrow_to_front(memory, n, k, self.place, end);
        Ok(())
    }
}
