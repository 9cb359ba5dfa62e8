// The direct sum of two codes: messages and words follow one another.
#![tactic(auto)]

ghost use Rattle.std.specs.Prelude.{◌≡◌, ◌+◌, ◌≤◌, min, length, IfOk, nat_lt};
ghost use Rattle.codes.specs.Refusals.{outcome, making};
ghost use Rattle.theory.specs.Calls.{shown};
ghost use Rattle.theory.specs.Joins.{direct_sum, direct_sum_making};
ghost use Rattle.theory.specs.Meanings.{made};
ghost use Rattle.theory.specs.Memory.{part};
ghost use Rattle.theory.specs.Pairs.{AtDistance};
ghost use Rattle.theory.specs.Piles.{Pile, sum_pair, sum_of, ShowingPile, showing_sum, pile_of, pair_of, making_of, EveryPileKeepsItsMeaning, ShownPairIsAtTheDistance};
ghost use Rattle.theory.specs.Words.{toll};
ghost use Rattle.std.proofs.Common.{arith};
ghost use Rattle.theory.proofs.DirectSum.{direct_sum_keeps, direct_sum_shows};

use codes::code::{Code, Showing};
use codes::memory::clear;
use codes::refusals::{MakingRefusal, Refusal};
use codes::tolls::first_mark;
use parts::gathering::gather;
use parts::nearness::are_near;
use parts::numbers::MOST_WORKING;
use parts::part::Part;
use parts::placed::Placed;
use parts::showing::show_padded;

/// The word of U and then that of V. The parts work behind the word: U's working memory, then V's.
#[derive(Drop)]
pub struct DirectSum<U: Code, V: Code> {
    left: Part<U>,
    right: Part<V>,
    ghost bounded: { left.numbers.length + right.numbers.length + left.numbers.working + right.numbers.working ≤ 4096 },
}

impl<U: Code + Drop, V: Code<Symbols = U::Symbols> + Drop> DirectSum<U, V> {
    /// The sum of two codes over one alphabet; a refused making uses them up.
    pub fn new(left: U, right: V) -> Result<DirectSum<U, V>, MakingRefusal>
        ensures making { U.Code.fit left → V.Code.fit right → making ⟦<DirectSum<U, V> as Code>⟧.meaning result ≡ direct_sum_making (U.Code.meaning left) (V.Code.meaning right) }
        ensures fits { U.Code.fit left → V.Code.fit right → IfOk result ⟦<DirectSum<U, V> as Code>⟧.fit }
        ensures one_step_of_a_pile { U.Code.fit left → V.Code.fit right → (p o : Pile) → making_of U.Symbols.Alphabet.symbols p ≡ made (U.Code.meaning left) → making_of U.Symbols.Alphabet.symbols o ≡ made (V.Code.meaning right) → making ⟦<DirectSum<U, V> as Code>⟧.meaning result ≡ making_of U.Symbols.Alphabet.symbols (sum_of p o) }
        ensures every_pile_keeps_its_meaning { EveryPileKeepsItsMeaning }
    {
        let left = Part::new(left)?;
        let right = Part::new(right)?;
        let u = left.numbers;
        let v = right.numbers;
        if u.length + v.length + u.working + v.working > MOST_WORKING {
            return Err(MakingRefusal::WorkingTooLong);
        }
        Ok(DirectSum { left, right })
    }
}

// Each call works out its places in a line for each: a function that answers them would be no plainer, as its contract would
// have the same lines. Mend and read differ in what they ask of the parts, refuse and gather.
impl<U: Code + Drop, V: Code<Symbols = U::Symbols> + Drop> Code for DirectSum<U, V> {
    type Symbols = U::Symbols;

    ghost meaning = { λ c. direct_sum (U.Code.meaning c.left.code) (V.Code.meaning c.right.code) };

    ghost fit = { λ c. U.Code.fit c.left.code × V.Code.fit c.right.code };

    ghost keeps = { λ c fit. direct_sum_keeps U.Symbols.Alphabet.symbols U.Symbols.Alphabet.lawful (U.Code.meaning c.left.code) (V.Code.meaning c.right.code) (U.Code.keeps c.left.code fit.0) (V.Code.keeps c.right.code fit.1) (omega (arith, c.bounded, (c.left.asked fit.0).length, (c.left.asked fit.0).working, (c.right.asked fit.1).length, (c.right.asked fit.1).working)) };

    fn length(&self) -> usize {
        self.left.numbers.length + self.right.numbers.length
    }

    fn dimension(&self) -> usize {
        self.left.numbers.dimension + self.right.numbers.dimension
    }

    fn distance(&self) -> usize {
        self.left.numbers.distance.min(self.right.numbers.distance)
    }

    fn working_length(&self) -> usize {
        self.left.numbers.length
            + self.right.numbers.length
            + self.left.numbers.working
            + self.right.numbers.working
    }

    fn carrier(&self, place: usize) -> Option<usize> {
        if place < self.left.numbers.dimension {
            return self.left.code.carrier(place);
        }
        let place = self
            .right
            .code
            .carrier(place - self.left.numbers.dimension)?;
        self.left.numbers.length.checked_add(place)
    }

    fn send(&self, memory: &mut [u8]) -> Result<(), Refusal> {
        let u = self.left.numbers;
        let v = self.right.numbers;
        let word = u.length + v.length;
        let right = word + u.working;
        let end = right + v.working;
        if memory.len() < end {
            return Err(Refusal::ShortMemory);
        }
        if let Some(place) = first_mark::<U::Symbols>(&memory[0..u.dimension + v.dimension]) {
            return Err(Refusal::MarkInMessage(place));
        }
        // V first: U's working memory may lie over V's message.
        self.right.send(memory, u.dimension, right)?;
        self.left.send(memory, 0, word)?;
        gather(memory, word, u.length, right, v.length, end);
        Ok(())
    }

    fn mend(&self, memory: &mut [u8]) -> Result<(), Refusal> {
        let u = self.left.numbers;
        let v = self.right.numbers;
        let word = u.length + v.length;
        let right = word + u.working;
        let end = right + v.working;
        if memory.len() < end {
            return Err(Refusal::ShortMemory);
        }
        let of_right = self.right.mend(memory, u.length, right);
        let of_left = self.left.mend(memory, 0, word);
        if of_right.is_err() || of_left.is_err() || !self.is_near(memory) {
            clear(memory, word, end - word);
            return Err(Refusal::BeyondReach);
        }
        gather(memory, word, u.length, right, v.length, end);
        Ok(())
    }

    fn read(&self, memory: &mut [u8]) -> Result<(), Refusal> {
        let u = self.left.numbers;
        let v = self.right.numbers;
        let word = u.length + v.length;
        let right = word + u.working;
        let end = right + v.working;
        if memory.len() < end {
            return Err(Refusal::ShortMemory);
        }
        let of_right = self.right.read(memory, u.length, right);
        let of_left = self.left.read(memory, 0, word);
        if of_right.is_err() || of_left.is_err() {
            clear(memory, word, end - word);
            return Err(Refusal::NotAWord);
        }
        gather(memory, word, u.dimension, right, v.dimension, end);
        Ok(())
    }
}

impl<U: Showing + Drop, V: Showing + Code<Symbols = U::Symbols> + Drop> Showing
    for DirectSum<U, V> {
    ghost pair = { λ c. sum_pair (U.Code.meaning c.left.code) (V.Code.meaning c.right.code) (U.Showing.pair c.left.code) (V.Showing.pair c.right.code) };

    ghost shows = { λ c fit. direct_sum_shows U.Symbols.Alphabet.symbols U.Symbols.Alphabet.lawful (U.Code.meaning c.left.code) (V.Code.meaning c.right.code) (U.Code.keeps c.left.code fit.0) (V.Code.keeps c.right.code fit.1) (U.Showing.pair c.left.code) (V.Showing.pair c.right.code) (U.Showing.shows c.left.code fit.0) (V.Showing.shows c.right.code fit.1) };

    fn show(&self, memory: &mut [u8]) -> Result<(), Refusal>
        ensures answer { ⟦<DirectSum<U, V> as Code>⟧.fit self.now → (outcome result, memory.new) ≡ shown (⟦<DirectSum<U, V> as Code>⟧.meaning self.now) (⟦<DirectSum<U, V> as Showing>⟧.pair self.now).0 (⟦<DirectSum<U, V> as Showing>⟧.pair self.now).1 memory.old }
        ensures at_distance { ⟦<DirectSum<U, V> as Code>⟧.fit self.now → AtDistance U.Symbols.Alphabet.symbols (⟦<DirectSum<U, V> as Code>⟧.meaning self.now) (⟦<DirectSum<U, V> as Showing>⟧.pair self.now).0 (⟦<DirectSum<U, V> as Showing>⟧.pair self.now).1 }
        ensures one_step_of_a_pile { (p o : ShowingPile) → making_of U.Symbols.Alphabet.symbols (pile_of p) ≡ made (U.Code.meaning self.now.left.code) → making_of U.Symbols.Alphabet.symbols (pile_of o) ≡ made (V.Code.meaning self.now.right.code) → pair_of U.Symbols.Alphabet.symbols p ≡ U.Showing.pair self.now.left.code → pair_of U.Symbols.Alphabet.symbols o ≡ V.Showing.pair self.now.right.code → pair_of U.Symbols.Alphabet.symbols (showing_sum p o) ≡ ⟦<DirectSum<U, V> as Showing>⟧.pair self.now }
        ensures shown_pair_is_at_the_distance { ShownPairIsAtTheDistance }
    {
        let u = self.left.numbers;
        let v = self.right.numbers;
        let end = 2 * (u.length + v.length + u.working + v.working);
        if u.distance <= v.distance {
            show_padded(&self.left.code, memory, 0, v.dimension, end)
        } else {
            show_padded(&self.right.code, memory, u.dimension, 0, end)
        }
    }
}

impl<U: Code + Drop, V: Code<Symbols = U::Symbols> + Drop> DirectSum<U, V> {
    /// Whether the words of both parts, which stand behind the received word, have together a toll below the distance.
    fn is_near(&self, memory: &[u8]) -> bool
        requires { let u = self.now.left.numbers in let v = self.now.right.numbers in u.length + v.length + u.working + v.working ≤ length memory.now }
        ensures { let u = self.now.left.numbers in let v = self.now.right.numbers in let q = U.Symbols.Alphabet.symbols.q in result ≡ nat_lt (toll q (part memory.now (u.length + v.length) u.length) (part memory.now 0 u.length) + toll q (part memory.now (u.length + v.length + u.working) v.length) (part memory.now u.length v.length)) (min u.distance v.distance) }
    {
        let u = self.left.numbers;
        let v = self.right.numbers;
        let of_left = Placed {
            word: u.length + v.length,
            received: 0,
            count: u.length,
        };
        let of_right = Placed {
            word: u.length + v.length + u.working,
            received: u.length,
            count: v.length,
        };
        are_near::<U::Symbols>(memory, of_left, of_right, u.distance.min(v.distance))
    }
}
