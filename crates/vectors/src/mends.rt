// What Hamming mends: every received word with few marks.
use crate::answer::Answer;
use crate::symbols::{Symbols, each_counted};
use alphabets::{MARK, Two};
use codes::code::Code;
use codes::tolls::count_marks;
use hamming::Hamming;
use std::alloc::{AllocError, Global};
use std::io;
use std::io::Write;

/// In counting, a place is 0, 1 or a mark.
const PLACE_STATES: u8 = 3;

// A digit: received words are counted, and the digit above the symbols stands for the mark.
/// The digit that counts as a mark.
const MARK_DIGIT: u8 = 2;

/// Received words with more marks are left out.
const MOST_MARKS: usize = 2;

/// Writes every received word with few marks, and what mend makes of it, in counting order.
pub fn write_mends(out: &mut Vec<u8>, heap: Global) -> io::Result<()> {
    each_counted(heap, Hamming.length(), PLACE_STATES, |digits| {
        let received = with_marks(heap, digits)?;
        if count_marks::<Two>(received.as_slice()) > MOST_MARKS {
            return Ok(());
        }
        write_mend(out, heap, received.as_slice())
    })
}

/// The received word that these digits count.
fn with_marks(heap: Global, digits: &[u8]) -> Result<Vec<u8>, AllocError> {
    let mark = |digit: &u8| if *digit == MARK_DIGIT { MARK } else { *digit };
    digits.iter().map(mark).collect(heap)
}

fn write_mend(out: &mut Vec<u8>, heap: Global, received: &[u8]) -> io::Result<()> {
    let found = Symbols(received);
    let mended = Answer::of_mend(heap, &Hamming, received)?;
    writeln!(out, "mend {found}: {mended}")
}
