// The pieces of a script, and the numbers, bytes and lists that its words stand for.
ghost use Rattle.std.specs.Prelude.{◌≡◌, ◌≤◌, [], length, IfOk, Some};
ghost use Rattle.console.specs.Text.{before, after, number_of, byte_of, run_of, list_on, pieces, to_come, NextPiece, pieces_left};
ghost use Rattle.std.specs.Option.{option_map};
ghost use Rattle.std.specs.Iterator.{at_most};

use crate::fault::{Fault, Reason};
use std::alloc::Global;
use std::fmt;

/// No number of a script is larger.
pub const LARGEST_NUMBER: usize = 1_000_000_000;

/// No list is longer.
pub const LONGEST_LIST: usize = 2_000_000;

/// Equal bytes side by side are printed as a run from this many on.
const SHORTEST_RUN: usize = 4;

/// The pieces of a text between separators: the lines of a script, the words of a line. Where two separators stand side
/// by side, the piece between them is empty.
// The library's `split` has its closure in its type: each function over lines or words would be generic over it.
#[derive(Drop)]
pub struct Pieces<'a> {
    rest: Option<&'a [u8]>,
    separator: u8,
}

impl<'a> Pieces<'a> {
    /// The pieces of a text between the bytes that are this separator.
    fn between(text: &'a [u8], separator: u8) -> Pieces<'a>
        ensures { to_come result ≡ pieces separator text.now }
    {
        Pieces {
            rest: Some(text),
            separator,
        }
    }

    /// The lines of a script.
    pub fn lines(script: &'a [u8]) -> Pieces<'a>
        ensures { to_come result ≡ pieces 10 script.now }
    {
        Pieces::between(script, b'\n')
    }

    /// The words of a line.
    pub fn words(line: &'a [u8]) -> Pieces<'a>
        ensures { to_come result ≡ pieces 32 line.now }
    {
        Pieces::between(line, b' ')
    }

    /// Whether no piece is left.
    pub fn is_ended(&self) -> bool {
        self.rest.is_none()
    }
}

impl<'a> Iterator for Pieces<'a> {
    type Item = &'a [u8];

    ghost remaining = { λ s. at_most (pieces_left s.rest) };

    ghost next_gives = { λ s r t. NextPiece s r t };

    #[tactic(auto, using(crate::proofs::Cutting::pieces_fewer))]
    fn next(&mut self) -> Option<&'a [u8]> {
        let rest = self.rest?;
        let (piece, after) = cut(rest, self.separator);
        self.rest = after;
        Some(piece)
    }
}

/// The bytes before the first separator, and those after it if there is one.
fn cut(bytes: &[u8], separator: u8) -> (&[u8], Option<&[u8]>)
    ensures piece { result.0.now ≡ before separator bytes.now }
    ensures rest { option_map (λ x. x.now) result.1 ≡ after separator bytes.now }
{
    match bytes.iter().position(|b| *b == separator) {
        Some(place) => (&bytes[..place], Some(&bytes[place + 1..])),
        None => (bytes, None),
    }
}

// No `str::parse`: a script is bytes, and it would take a sign too.
/// The number that decimal digits write, if it is not too large.
#[tactic(auto, using(crate::proofs::Reading::number_is, crate::proofs::Reading::read_other, crate::proofs::Reading::read_more, crate::proofs::Reading::read_large))]
pub fn parse_number(word: &[u8]) -> Option<usize>
    ensures { result ≡ number_of word.now }
{
    if word.is_empty() {
        return None;
    }
    let mut value = 0;
    for b in word {
        if !b.is_ascii_digit() {
            return None;
        }
        value = value * 10 + usize::from(*b - b'0');
        if value > LARGEST_NUMBER {
            return None;
        }
    }
    Some(value)
}

/// The byte that decimal digits write.
pub fn parse_byte(word: &[u8]) -> Option<u8>
    ensures { result ≡ byte_of word.now }
{
    u8::try_from(parse_number(word)?).ok()
}

/// Equal bytes side by side.
#[derive(Clone, Copy)]
pub struct Run {
    count: usize,
    byte: u8,
}

impl Run {
    /// The run that equal bytes are, if there are any.
    fn of(bytes: &[u8]) -> Option<Run> {
        let byte = *bytes.first()?;
        Some(Run {
            count: bytes.len(),
            byte,
        })
    }

    /// What a word of a list stands for: `B` for one byte, `N*B` for N bytes B.
    // No `TryFrom`: there is one way to fail, and the contract would name an error for it.
    fn parse(word: &[u8]) -> Option<Run>
        ensures { result ≡ run_of word.now }
    {
        let (first, second) = cut(word, b'*');
        match second {
            None => Some(Run {
                count: 1,
                byte: parse_byte(first)?,
            }),
            Some(repeated) => Some(Run {
                count: parse_number(first)?,
                byte: parse_byte(repeated)?,
            }),
        }
    }
}

/// The bytes that the words of a list stand for.
#[tactic(auto, using(crate::proofs::Reading::list_more))]
pub fn parse_list(heap: Global, words: Pieces) -> Result<Vec<u8>, Fault>
    ensures { IfOk result (λ bytes. list_on [] (to_come words.entry) ≡ Some bytes.items) }
{
    let mut bytes = Vec::new(heap);
    for word in words {
        let run = Run::parse(word).ok_or(Reason::WrongArguments)?;
        let len = bytes.len();
        if run.count > LONGEST_LIST - len {
            return Err(Reason::WrongArguments.into());
        }
        bytes.resize(len + run.count, run.byte)?;
    }
    Ok(bytes)
}

/// A list as it is printed: its runs, or `-` if it is empty.
#[derive(Clone, Copy)]
pub struct List<'a>(pub &'a [u8]);

impl fmt::Display for List<'_> {
    fn fmt<W: fmt::Write>(&self, f: &mut fmt::Formatter<W>) -> fmt::Result {
        let mut runs = self.0.chunk_by(|a, b| a == b).filter_map(Run::of);
        let Some(first) = runs.next() else {
            return f.write_str("-");
        };
        write!(f, "{first}")?;
        for run in runs {
            write!(f, " {run}")?;
        }
        Ok(())
    }
}

impl fmt::Display for Run {
    fn fmt<W: fmt::Write>(&self, f: &mut fmt::Formatter<W>) -> fmt::Result {
        let byte = self.byte;
        if self.count >= SHORTEST_RUN {
            let count = self.count;
            return write!(f, "{count}*{byte}");
        }
        write!(f, "{byte}")?;
        for _ in 1..self.count {
            write!(f, " {byte}")?;
        }
        Ok(())
    }
}
