// Symbols, as they are counted and as they are printed.
use alphabets::MARK;
use std::alloc::Global;
use std::{fmt, io};

/// Symbols as they are printed: a digit for each, M for a mark.
#[derive(Clone, Copy)]
pub struct Symbols<'a>(pub &'a [u8]);

impl fmt::Display for Symbols<'_> {
    fn fmt<W: fmt::Write>(&self, f: &mut fmt::Formatter<W>) -> fmt::Result {
        for symbol in self.0 {
            if *symbol == MARK {
                f.write_str("M")?;
            } else {
                write!(f, "{symbol}")?;
            }
        }
        Ok(())
    }
}

/// Visits each row of so many digits to this base in counting order, the first digit being the most significant.
pub fn each_counted<F: FnMut(&[u8]) -> io::Result<()>>(
    heap: Global,
    places: usize,
    base: u8,
    mut visit: F,
) -> io::Result<()>
    requires { F.IsAlwaysCallable visit }
{
    let mut digits = vec![in heap; 0; places]?;
    for _ in 0..rows(places, base) {
        visit(digits.as_slice())?;
        count_up(digits.as_mut_slice(), base);
    }
    Ok(())
}

/// How many rows of so many digits there are, or the largest usize where there are more.
fn rows(places: usize, base: u8) -> usize {
    (0..places).fold(1usize, |count, _| count.saturating_mul(usize::from(base)))
}

/// Goes on to the digits that come next in counting order. After the last of them come the first again, all zeros.
fn count_up(digits: &mut [u8], base: u8) {
    for digit in digits.iter_mut().rev() {
        let next = digit.saturating_add(1);
        if next < base {
            *digit = next;
            return;
        }
        *digit = 0;
    }
}
