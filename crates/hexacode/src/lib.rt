// The hexacode over GF(4), which mends one wrong place, or one and a mark, or three marked ones.
#![tactic(auto)]

ghost use Rattle.std.specs.Prelude.{◌≡◌, ℕ, List, [], ◌∷◌, ◌++◌, map, refl};
ghost use Rattle.std.specs.List.{range_with_len};
ghost use Rattle.codes.specs.Refusals.{outcome};
ghost use Rattle.theory.specs.Alphabets.{four};
ghost use Rattle.theory.specs.Calls.{sent, mended, read_back, shown};
ghost use Rattle.theory.specs.Hexacode.{hexacode, hexacode_checks, quadratic};
ghost use Rattle.theory.specs.Levels.{digits};
ghost use Rattle.theory.specs.Pairs.{AtDistance};
ghost use Rattle.theory.proofs.Hexacode.{hexacode_keeps, hexacode_shows};

use alphabets::Four;
use codes::code::{Code, Showing};
use codes::memory::clear;
use codes::refusals::Refusal;
use systematic::{Systematic, mend, read, send};

const LENGTH: usize = 6;

const DIMENSION: usize = 3;

/// The word is a, b, c, f(1), f(2), f(3) with f(y) = a·y·y + b·y + c.
#[derive(Clone, Copy)]
pub struct Hexacode;

impl Systematic<LENGTH, DIMENSION> for Hexacode {
    type Symbols = Four;

    const DISTANCE: usize = 4;

    const MESSAGES: u8 = 64;

    ghost DISTANCE = { 4 };

    ghost MESSAGES = { 64 };

    ghost checks = { hexacode_checks };

    ghost keeps = { hexacode_keeps };

    ghost all = { refl };

    // Written out: a few digits are plainer than a loop over their places.
    fn message(index: u8) -> [u8; DIMENSION] {
        [index / 16 % 4, index / 4 % 4, index % 4]
    }

    fn word(message: &[u8; DIMENSION]) -> [u8; LENGTH] {
        let [a, b, c] = *message;
        [
            a,
            b,
            c,
            value(a, b, c, 1),
            value(a, b, c, 2),
            value(a, b, c, 3),
        ]
    }
}

// One line each: the lengths are parameters of Systematic, so a type could be one at two pairs of lengths, and an impl for all
// of them could not tell which.
impl Code for Hexacode {
    type Symbols = Four;

    ghost meaning = { λ _. hexacode };

    ghost fit = { λ _. Unit {0} };

    ghost keeps = { λ code fit. hexacode_keeps };

    fn length(&self) -> usize {
        LENGTH
    }

    fn dimension(&self) -> usize {
        DIMENSION
    }

    fn distance(&self) -> usize {
        Hexacode::DISTANCE
    }

    fn working_length(&self) -> usize {
        LENGTH
    }

    fn carrier(&self, place: usize) -> Option<usize> {
        (place < DIMENSION).then_some(place)
    }

    fn send(&self, memory: &mut [u8]) -> Result<(), Refusal> {
        send::<Hexacode, LENGTH, DIMENSION>(memory)
    }

    fn mend(&self, memory: &mut [u8]) -> Result<(), Refusal> {
        mend::<Hexacode, LENGTH, DIMENSION>(memory)
    }

    fn read(&self, memory: &mut [u8]) -> Result<(), Refusal> {
        read::<Hexacode, LENGTH, DIMENSION>(memory)
    }
}

// A check, a clear and one write: a function for all such pairs would take as many numbers as it has lines.
impl Showing for Hexacode {
    ghost pair = { λ _. (0 ∷ 0 ∷ 0 ∷ [], 1 ∷ 0 ∷ 0 ∷ []) };

    ghost shows = { λ c fit. hexacode_shows };

    fn show(&self, memory: &mut [u8]) -> Result<(), Refusal> {
        if memory.len() < 2 * LENGTH {
            return Err(Refusal::ShortMemory);
        }
        clear(memory, 0, 2 * LENGTH);
        memory[DIMENSION] = 1;
        Ok(())
    }
}

/// The quadratic a·y·y + b·y + c.
fn value(a: u8, b: u8, c: u8, y: u8) -> u8
    ensures { result ≡ quadratic (a ∷ b ∷ c ∷ []) y }
{
    Four::multiply(a, Four::multiply(y, y)) ^ Four::multiply(b, y) ^ c
}
