// The shapes of the hexacode's words: each word comes from one of five by three kinds of steps, under which a word of
// the code stays one.
use crate::symbols::Symbols;
use alphabets::Four;
use codes::code::Code;
use hexacode::Hexacode;
use std::alloc::{AllocError, Global};
use std::collections::BTreeSet;
use std::io::Write;
use std::{fmt, io};

/// The symbol ω.
const OMEGA: u8 = 2;

/// The symbol ω·ω.
const OMEGA_SQUARED: u8 = 3;

/// Two symbols that stand side by side.
#[derive(Clone, Copy, PartialEq, Eq, PartialOrd, Ord)]
struct Pair([u8; 2]);

impl Pair {
    fn turned(self) -> Pair {
        let Pair([first, second]) = self;
        Pair([second, first])
    }

    fn times(self, factor: u8) -> Pair {
        Pair(self.0.map(|symbol| Four::multiply(factor, symbol)))
    }
}

/// Six symbols as three pairs.
#[derive(Clone, Copy, PartialEq, Eq, PartialOrd, Ord)]
struct Pairs([Pair; 3]);

/// The shapes, those with most images first.
const SHAPES: [Pairs; 5] = [
    Pairs([Pair([0, 1]), Pair([0, 1]), Pair([2, 3])]),
    Pairs([Pair([2, 3]), Pair([2, 3]), Pair([2, 3])]),
    Pairs([Pair([0, 0]), Pair([1, 1]), Pair([1, 1])]),
    Pairs([Pair([1, 1]), Pair([2, 2]), Pair([3, 3])]),
    Pairs([Pair([0, 0]), Pair([0, 0]), Pair([0, 0])]),
];

impl Pairs {
    /// The pairs in each order.
    fn orders(self) -> [Pairs; 6] {
        let Pairs([a, b, c]) = self;
        [
            Pairs([a, b, c]),
            Pairs([a, c, b]),
            Pairs([b, a, c]),
            Pairs([b, c, a]),
            Pairs([c, a, b]),
            Pairs([c, b, a]),
        ]
    }

    /// The pairs with none of them turned, and with two of them turned.
    fn turnings(self) -> [Pairs; 4] {
        let Pairs([a, b, c]) = self;
        [
            self,
            Pairs([a.turned(), b.turned(), c]),
            Pairs([a.turned(), b, c.turned()]),
            Pairs([a, b.turned(), c.turned()]),
        ]
    }

    fn times(self, factor: u8) -> Pairs {
        Pairs(self.0.map(|pair| pair.times(factor)))
    }

    /// The pairs times each symbol but 0.
    fn multiples(self) -> [Pairs; 3] {
        [self, self.times(OMEGA), self.times(OMEGA_SQUARED)]
    }

    /// Whether the code reads the six symbols as a word.
    fn is_word(self) -> bool {
        let Pairs([Pair([a, b]), Pair([c, d]), Pair([e, f])]) = self;
        Hexacode.read(&mut [a, b, c, d, e, f]).is_ok()
    }
}

impl fmt::Display for Pairs {
    fn fmt<W: fmt::Write>(&self, f: &mut fmt::Formatter<W>) -> fmt::Result {
        let Pairs([Pair(a), Pair(b), Pair(c)]) = self;
        write!(f, "{} {} {}", Symbols(a), Symbols(b), Symbols(c))
    }
}

/// Writes for each shape how many images it has, and how many of them are words.
pub fn write_shapes(out: &mut Vec<u8>, heap: Global) -> io::Result<()> {
    for shape in SHAPES {
        let images = images_of(heap, shape)?;
        let words = images.iter().filter(|image| image.is_word()).count();
        writeln!(
            out,
            "hexacode shape {shape}: {} images, {words} words",
            images.len()
        )?;
    }
    Ok(())
}

/// All that comes from a shape by ordering its pairs, turning two of them and multiplying by a symbol.
fn images_of(heap: Global, shape: Pairs) -> Result<BTreeSet<Pairs>, AllocError> {
    let mut images = BTreeSet::new(heap);
    for ordered in shape.orders() {
        for turned in ordered.turnings() {
            for image in turned.multiples() {
                images.insert(image)?;
            }
        }
    }
    Ok(images)
}
