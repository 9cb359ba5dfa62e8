// What is printed of calls and makings.
use codes::code::Code;
use codes::refusals::{MakingRefusal, Refusal};
use cues::StoreRefusal;
use std::io::Write;
use std::{fmt, io};

/// The outcome of a call, as it is printed.
#[derive(Clone, Copy)]
pub struct Outcome<R>(pub Result<(), R>);

impl<R: Refused> fmt::Display for Outcome<R> {
    fn fmt<W: fmt::Write>(&self, f: &mut fmt::Formatter<W>) -> fmt::Result {
        match &self.0 {
            Ok(()) => f.write_str("accepted"),
            Err(why) => {
                f.write_str("refused ")?;
                why.write(f)
            }
        }
    }
}

/// A refusal that is printed.
pub trait Refused {
    /// Writes its number, and the values that it has.
    fn write<W: fmt::Write>(&self, f: &mut fmt::Formatter<W>) -> fmt::Result;
}

impl Refused for Refusal {
    fn write<W: fmt::Write>(&self, f: &mut fmt::Formatter<W>) -> fmt::Result {
        write!(f, "{}", self.number())?;
        match self {
            Refusal::MarkInMessage(place) => write!(f, " place {place}"),
            Refusal::ShortMemory | Refusal::BeyondReach | Refusal::NotAWord => Ok(()),
        }
    }
}

impl Refused for MakingRefusal {
    fn write<W: fmt::Write>(&self, f: &mut fmt::Formatter<W>) -> fmt::Result {
        write!(f, "{}", self.number())
    }
}

impl Refused for StoreRefusal {
    fn write<W: fmt::Write>(&self, f: &mut fmt::Formatter<W>) -> fmt::Result {
        write!(f, "{}", self.number())?;
        match self {
            StoreRefusal::Code { cue, word, .. } => write!(f, " cue {cue} word {word}"),
            StoreRefusal::LevelOutOfRange { cue, level } => write!(f, " cue {cue} level {level}"),
            _ => Ok(()),
        }
    }
}

/// A code's numbers, as they are printed: its length, dimension, distance and working length.
#[derive(Clone, Copy)]
pub struct CodeNumbers<'a, C>(pub &'a C);

impl<C: Code> fmt::Display for CodeNumbers<'_, C> {
    fn fmt<W: fmt::Write>(&self, f: &mut fmt::Formatter<W>) -> fmt::Result {
        let code = self.0;
        write!(
            f,
            "n {}, k {}, d {}, W {}",
            code.length(),
            code.dimension(),
            code.distance(),
            code.working_length()
        )
    }
}

/// The carrier of each place of a code's message, as it is printed: `-` where there is none.
#[derive(Clone, Copy)]
pub struct Carriers<'a, C>(pub &'a C);

impl<C: Code> fmt::Display for Carriers<'_, C> {
    fn fmt<W: fmt::Write>(&self, f: &mut fmt::Formatter<W>) -> fmt::Result {
        f.write_str("carriers")?;
        for place in 0..self.0.dimension() {
            match self.0.carrier(place) {
                Some(carrier) => write!(f, " {carrier}")?,
                None => f.write_str(" -")?,
            }
        }
        Ok(())
    }
}

/// Writes the numbers of the code that was made, or why none was.
pub fn write_making<C: Code + Drop>(
    answer: &mut Vec<u8>,
    made: Result<C, MakingRefusal>,
) -> io::Result<()> {
    match made {
        Ok(code) => writeln!(answer, "{}", CodeNumbers(&code)),
        Err(why) => writeln!(answer, "{}", Outcome(Err(why))),
    }
}
