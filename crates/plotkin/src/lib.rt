// Plotkin's join of two codes of one length: the word is u and then u + v.
#![tactic(auto)]

ghost use Rattle.std.specs.Prelude.{◌≡◌, ℕ, ◌+◌, ◌*◌, ◌≤◌, Bool, List, length, IfOk};
ghost use Rattle.std.proofs.Common.{sym, ◌∙◌};
ghost use Rattle.codes.specs.Refusals.{outcome, making};
ghost use Rattle.plotkin.specs.Kept.{kept, keeps_meaning};
ghost use Rattle.theory.specs.Calls.{shown};
ghost use Rattle.theory.specs.Halves.{tried, sought};
ghost use Rattle.theory.specs.Joins.{plotkin, plotkin_making};
ghost use Rattle.theory.specs.Meanings.{made};
ghost use Rattle.theory.specs.Pairs.{AtDistance};
ghost use Rattle.theory.specs.Piles.{Pile, plotkin_pair, plotkin_of, ShowingPile, showing_plotkin, pile_of, pair_of, making_of, EveryPileKeepsItsMeaning, ShownPairIsAtTheDistance};
ghost use Rattle.theory.proofs.Plotkin.{plotkin_shows};

use alphabets::Alphabet;
use codes::code::{Code, Showing};
use codes::memory::clear;
use codes::refusals::{MakingRefusal, Refusal};
use codes::tolls::first_mark;
use parts::combination::Combination;
use parts::combining::combine;
use parts::gathering::gather;
use parts::nearness::are_near;
use parts::numbers::MOST_WORKING;
use parts::part::Part;
use parts::placed::Placed;
use parts::showing::show_padded;

/// Behind the word of 2n bytes come n bytes for one more half, then U's working memory, then V's.
#[derive(Drop)]
pub struct Plotkin<U: Code, V: Code> {
    left: Part<U>,
    right: Part<V>,
    ghost level: { left.numbers.length ≡ right.numbers.length },
    ghost near: { left.numbers.distance ≤ left.numbers.length },
    ghost bounded: { 3 * left.numbers.length + left.numbers.working + right.numbers.working ≤ 4096 },
}

impl<U: Code + Drop, V: Code<Symbols = U::Symbols> + Drop> Plotkin<U, V> {
    /// The join of two codes of one length over one alphabet; a refused making uses them up.
    pub fn new(left: U, right: V) -> Result<Plotkin<U, V>, MakingRefusal>
        ensures making { U.Code.fit left → V.Code.fit right → making ⟦<Plotkin<U, V> as Code>⟧.meaning result ≡ plotkin_making U.Symbols.Alphabet.symbols (U.Code.meaning left) (V.Code.meaning right) }
        ensures fits { U.Code.fit left → V.Code.fit right → IfOk result ⟦<Plotkin<U, V> as Code>⟧.fit }
        ensures one_step_of_a_pile { U.Code.fit left → V.Code.fit right → (p o : Pile) → making_of U.Symbols.Alphabet.symbols p ≡ made (U.Code.meaning left) → making_of U.Symbols.Alphabet.symbols o ≡ made (V.Code.meaning right) → making ⟦<Plotkin<U, V> as Code>⟧.meaning result ≡ making_of U.Symbols.Alphabet.symbols (plotkin_of p o) }
        ensures every_pile_keeps_its_meaning { EveryPileKeepsItsMeaning }
    {
        let left = Part::new(left)?;
        let right = Part::new(right)?;
        let u = left.numbers;
        let v = right.numbers;
        // No fit code has words that are further apart than they are long.
        if u.distance > u.length {
            return Err(MakingRefusal::WorkingTooLong);
        }
        if u.length != v.length {
            return Err(MakingRefusal::LengthsDiffer);
        }
        if 3 * u.length + u.working + v.working > MOST_WORKING {
            return Err(MakingRefusal::WorkingTooLong);
        }
        Ok(Plotkin { left, right })
    }
}

// Each call works out its places in a line for each: a function that answers them would be no plainer, as its contract would
// have the same lines. Mend and read differ in what they ask of the parts, refuse and gather.
impl<U: Code + Drop, V: Code<Symbols = U::Symbols> + Drop> Code for Plotkin<U, V> {
    type Symbols = U::Symbols;

    ghost meaning = { λ c. plotkin U.Symbols.Alphabet.symbols (U.Code.meaning c.left.code) (V.Code.meaning c.right.code) };

    ghost fit = { λ c. U.Code.fit c.left.code × V.Code.fit c.right.code };

    ghost keeps = { λ c fit. keeps_meaning U.Symbols.Alphabet.lawful (U.Code.keeps c.left.code fit.0) (V.Code.keeps c.right.code fit.1) (c.left.asked fit.0) (c.right.asked fit.1) c.level c.bounded };

    fn length(&self) -> usize {
        2 * self.left.numbers.length
    }

    fn dimension(&self) -> usize {
        self.left.numbers.dimension + self.right.numbers.dimension
    }

    fn distance(&self) -> usize {
        (2 * self.left.numbers.distance).min(self.right.numbers.distance)
    }

    fn working_length(&self) -> usize {
        3 * self.left.numbers.length + self.left.numbers.working + self.right.numbers.working
    }

    fn carrier(&self, place: usize) -> Option<usize> {
        if place < self.left.numbers.dimension {
            self.left.code.carrier(place)
        } else {
            None
        }
    }

    fn send(&self, memory: &mut [u8]) -> Result<(), Refusal> {
        let u = self.left.numbers;
        let v = self.right.numbers;
        let n = u.length;
        let left = 3 * n;
        let right = left + u.working;
        let end = right + v.working;
        if memory.len() < end {
            return Err(Refusal::ShortMemory);
        }
        if let Some(place) = first_mark::<U::Symbols>(&memory[0..u.dimension + v.dimension]) {
            return Err(Refusal::MarkInMessage(place));
        }
        // V first: U's working memory may lie over V's message.
        self.right.send(memory, u.dimension, right)?;
        self.left.send(memory, 0, left)?;
        combine::<U::Symbols>(memory, Combination::Sum, left, right, n, 2 * n);
        gather(memory, left, n, 2 * n, n, end);
        Ok(())
    }

    fn mend(&self, memory: &mut [u8]) -> Result<(), Refusal> {
        let u = self.left.numbers;
        let v = self.right.numbers;
        let n = u.length;
        let left = 3 * n;
        let right = left + u.working;
        let end = right + v.working;
        if memory.len() < end {
            return Err(Refusal::ShortMemory);
        }
        combine::<U::Symbols>(memory, Combination::Difference, n, 0, n, 2 * n);
        let of_right = self.right.mend(memory, 2 * n, right);
        if of_right.is_err() || !self.finds_left(memory) {
            clear(memory, 2 * n, end - 2 * n);
            return Err(Refusal::BeyondReach);
        }
        gather(memory, left, n, 2 * n, n, end);
        Ok(())
    }

    fn read(&self, memory: &mut [u8]) -> Result<(), Refusal> {
        let u = self.left.numbers;
        let v = self.right.numbers;
        let n = u.length;
        let left = 3 * n;
        let right = left + u.working;
        let end = right + v.working;
        if memory.len() < end {
            return Err(Refusal::ShortMemory);
        }
        combine::<U::Symbols>(memory, Combination::Difference, n, 0, n, 2 * n);
        let of_right = self.right.read(memory, 2 * n, right);
        let of_left = self.left.read(memory, 0, left);
        if of_right.is_err() || of_left.is_err() {
            clear(memory, 2 * n, end - 2 * n);
            return Err(Refusal::NotAWord);
        }
        gather(memory, left, u.dimension, right, v.dimension, end);
        Ok(())
    }
}

impl<U: Showing + Drop, V: Showing + Code<Symbols = U::Symbols> + Drop> Showing for Plotkin<U, V> {
    ghost pair = { λ c. plotkin_pair (U.Code.meaning c.left.code) (V.Code.meaning c.right.code) (U.Showing.pair c.left.code) (V.Showing.pair c.right.code) };

    ghost shows = { λ c fit. plotkin_shows U.Symbols.Alphabet.symbols U.Symbols.Alphabet.lawful (U.Code.meaning c.left.code) (V.Code.meaning c.right.code) (U.Code.keeps c.left.code fit.0) (V.Code.keeps c.right.code fit.1) (sym (c.left.asked fit.0).length ∙ c.level ∙ (c.right.asked fit.1).length) (U.Showing.pair c.left.code) (V.Showing.pair c.right.code) (U.Showing.shows c.left.code fit.0) (V.Showing.shows c.right.code fit.1) };

    fn show(&self, memory: &mut [u8]) -> Result<(), Refusal>
        ensures answer { ⟦<Plotkin<U, V> as Code>⟧.fit self.now → (outcome result, memory.new) ≡ shown (⟦<Plotkin<U, V> as Code>⟧.meaning self.now) (⟦<Plotkin<U, V> as Showing>⟧.pair self.now).0 (⟦<Plotkin<U, V> as Showing>⟧.pair self.now).1 memory.old }
        ensures at_distance { ⟦<Plotkin<U, V> as Code>⟧.fit self.now → AtDistance U.Symbols.Alphabet.symbols (⟦<Plotkin<U, V> as Code>⟧.meaning self.now) (⟦<Plotkin<U, V> as Showing>⟧.pair self.now).0 (⟦<Plotkin<U, V> as Showing>⟧.pair self.now).1 }
        ensures one_step_of_a_pile { (p o : ShowingPile) → making_of U.Symbols.Alphabet.symbols (pile_of p) ≡ made (U.Code.meaning self.now.left.code) → making_of U.Symbols.Alphabet.symbols (pile_of o) ≡ made (V.Code.meaning self.now.right.code) → pair_of U.Symbols.Alphabet.symbols p ≡ U.Showing.pair self.now.left.code → pair_of U.Symbols.Alphabet.symbols o ≡ V.Showing.pair self.now.right.code → pair_of U.Symbols.Alphabet.symbols (showing_plotkin p o) ≡ ⟦<Plotkin<U, V> as Showing>⟧.pair self.now }
        ensures shown_pair_is_at_the_distance { ShownPairIsAtTheDistance }
    {
        let u = self.left.numbers;
        let v = self.right.numbers;
        let end = 2 * (3 * u.length + u.working + v.working);
        if 2 * u.distance <= v.distance {
            show_padded(&self.left.code, memory, 0, v.dimension, end)
        } else {
            show_padded(&self.right.code, memory, u.dimension, 0, end)
        }
    }
}

impl<U: Code + Drop, V: Code<Symbols = U::Symbols> + Drop> Plotkin<U, V> {
    /// Looks for u once v is known: in the left half, and where that does not do, in the right half less v.
    fn finds_left(&self, memory: &mut [u8]) -> bool
        requires { 3 * self.now.left.numbers.length + self.now.left.numbers.working + self.now.right.numbers.working ≤ length memory.old }
        ensures { U.Code.fit self.now.left.code → ◌≡◌ {A = Bool × List ℕ} (result, memory.new) (sought U.Symbols.Alphabet.symbols (U.Code.meaning self.now.left.code) (kept self.now.left.numbers self.now.right.numbers) memory.old) }
    {
        let n = self.left.numbers.length;
        let v = 3 * n + self.left.numbers.working;
        if self.fits_whole(memory, 0) {
            return true;
        }
        combine::<U::Symbols>(memory, Combination::Difference, n, v, n, 2 * n);
        self.fits_whole(memory, 2 * n)
    }

    /// Mends the half from `from` on as a word of U; whether that gives one, and the whole word that it makes with v is
    /// near enough. The right half of that word then stands behind the received one.
    fn fits_whole(&self, memory: &mut [u8], from: usize) -> bool
        requires { 3 * self.now.left.numbers.length + self.now.left.numbers.working + self.now.right.numbers.working ≤ length memory.old }
        ensures { U.Code.fit self.now.left.code → ◌≡◌ {A = Bool × List ℕ} (result, memory.new) (tried U.Symbols.Alphabet.symbols (U.Code.meaning self.now.left.code) (kept self.now.left.numbers self.now.right.numbers) from memory.old) }
    {
        let n = self.left.numbers.length;
        let left = 3 * n;
        let v = left + self.left.numbers.working;
        if self.left.mend(memory, from, left).is_err() {
            return false;
        }
        combine::<U::Symbols>(memory, Combination::Sum, left, v, n, 2 * n);
        let of_left = Placed {
            word: left,
            received: 0,
            count: n,
        };
        let of_right = Placed {
            word: 2 * n,
            received: n,
            count: n,
        };
        let distance = (2 * self.left.numbers.distance).min(self.right.numbers.distance);
        are_near::<U::Symbols>(memory, of_left, of_right, distance)
    }
}
