// The makings: codes over two that a script asks for by their numbers.
use crate::outcome::write_making;
use alphabets::Two;
use codes::refusals::MakingRefusal;
use direct_sum::DirectSum;
use parity::Parity;
use plotkin::Plotkin;
use puncture::Puncture;
use repetition::Repetition;
use shorten::Shorten;
use std::io;

/// A code to make, over two.
#[derive(Clone, Copy)]
pub enum Making {
    Repetition(usize),
    Parity(usize),
    /// Of two repetitions.
    Plotkin(usize, usize),
    /// Of two repetitions.
    Sum(usize, usize),
    /// At this place, of a repetition.
    Puncture(usize, usize),
    /// At this place of the message, of a parity code.
    Shorten(usize, usize),
}

impl Making {
    /// Makes the code, and writes its numbers or the refusal.
    pub fn make(self, answer: &mut Vec<u8>) -> io::Result<()> {
        // A match and no table: each arm has a code of another type.
        match self {
            Making::Repetition(n) => write_making(answer, Repetition::<Two>::new(n)),
            Making::Parity(n) => write_making(answer, Parity::<Two>::new(n)),
            Making::Plotkin(a, b) => write_making(
                answer,
                repetitions(a, b).and_then(|(left, right)| Plotkin::new(left, right)),
            ),
            Making::Sum(a, b) => write_making(
                answer,
                repetitions(a, b).and_then(|(left, right)| DirectSum::new(left, right)),
            ),
            Making::Puncture(place, n) => write_making(
                answer,
                Repetition::<Two>::new(n).and_then(|code| Puncture::new(code, place)),
            ),
            Making::Shorten(place, n) => write_making(
                answer,
                Parity::<Two>::new(n).and_then(|code| Shorten::new(code, place)),
            ),
        }
    }
}

/// The two parts of a join.
fn repetitions(a: usize, b: usize) -> Result<(Repetition<Two>, Repetition<Two>), MakingRefusal> {
    Ok((Repetition::new(a)?, Repetition::new(b)?))
}
