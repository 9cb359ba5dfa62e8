// The Hamming code of length 7 over two symbols, which mends one wrong place or two marked ones.
#![tactic(auto)]

ghost use Rattle.std.specs.Prelude.{◌≡◌, ℕ, ◌+◌, ◌%◌, List, [], ◌∷◌, ◌++◌, map, refl};
ghost use Rattle.std.specs.List.{range_with_len};
ghost use Rattle.codes.specs.Refusals.{outcome};
ghost use Rattle.theory.specs.Alphabets.{two};
ghost use Rattle.theory.specs.Calls.{sent, mended, read_back, shown};
ghost use Rattle.theory.specs.Hamming.{hamming, hamming_checks};
ghost use Rattle.theory.specs.Levels.{digits};
ghost use Rattle.theory.specs.Pairs.{AtDistance};
ghost use Rattle.theory.proofs.Hamming.{hamming_keeps, hamming_shows};

use alphabets::Two;
use codes::code::{Code, Showing};
use codes::memory::clear;
use codes::refusals::Refusal;
use systematic::{Systematic, mend, read, send};

const LENGTH: usize = 7;

const DIMENSION: usize = 4;

/// The word is m0 m1 m2 m3, then m0 + m1 + m2, m0 + m1 + m3, m0 + m2 + m3.
#[derive(Clone, Copy)]
pub struct Hamming;

impl Systematic<LENGTH, DIMENSION> for Hamming {
    type Symbols = Two;

    const DISTANCE: usize = 3;

    const MESSAGES: u8 = 16;

    ghost DISTANCE = { 3 };

    ghost MESSAGES = { 16 };

    ghost checks = { hamming_checks };

    ghost keeps = { hamming_keeps };

    ghost all = { refl };

    // Written out: a few digits are plainer than a loop over their places.
    fn message(index: u8) -> [u8; DIMENSION] {
        [index / 8 % 2, index / 4 % 2, index / 2 % 2, index % 2]
    }

    fn word(message: &[u8; DIMENSION]) -> [u8; LENGTH] {
        let [a, b, c, d] = *message;
        [a, b, c, d, sum(a, b, c), sum(a, b, d), sum(a, c, d)]
    }
}

// One line each: the lengths are parameters of Systematic, so a type could be one at two pairs of lengths, and an impl for all
// of them could not tell which.
impl Code for Hamming {
    type Symbols = Two;

    ghost meaning = { λ _. hamming };

    ghost fit = { λ _. Unit {0} };

    ghost keeps = { λ code fit. hamming_keeps };

    fn length(&self) -> usize {
        LENGTH
    }

    fn dimension(&self) -> usize {
        DIMENSION
    }

    fn distance(&self) -> usize {
        Hamming::DISTANCE
    }

    fn working_length(&self) -> usize {
        LENGTH
    }

    fn carrier(&self, place: usize) -> Option<usize> {
        (place < DIMENSION).then_some(place)
    }

    fn send(&self, memory: &mut [u8]) -> Result<(), Refusal> {
        send::<Hamming, LENGTH, DIMENSION>(memory)
    }

    fn mend(&self, memory: &mut [u8]) -> Result<(), Refusal> {
        mend::<Hamming, LENGTH, DIMENSION>(memory)
    }

    fn read(&self, memory: &mut [u8]) -> Result<(), Refusal> {
        read::<Hamming, LENGTH, DIMENSION>(memory)
    }
}

// A check, a clear and one write: a function for all such pairs would take as many numbers as it has lines.
impl Showing for Hamming {
    ghost pair = { λ _. (0 ∷ 0 ∷ 0 ∷ 0 ∷ [], 0 ∷ 1 ∷ 0 ∷ 0 ∷ []) };

    ghost shows = { λ c fit. hamming_shows };

    fn show(&self, memory: &mut [u8]) -> Result<(), Refusal> {
        if memory.len() < 2 * LENGTH {
            return Err(Refusal::ShortMemory);
        }
        clear(memory, 0, 2 * LENGTH);
        memory[DIMENSION + 1] = 1;
        Ok(())
    }
}

/// The sum of three symbols.
fn sum(a: u8, b: u8, c: u8) -> u8
    ensures { result ≡ (a + b + c) % 2 }
{
    // By `as`: 0 or 1; `try_from` would have a case that never is.
    ((u16::from(a) + u16::from(b) + u16::from(c)) % 2) as u8
}
