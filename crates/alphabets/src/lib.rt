// Alphabets: what one is, and the alphabets of two, three and four symbols.
#![tactic(auto)]

ghost use Rattle.std.specs.Prelude.{◌≡◌, ℕ, refl};
ghost use Rattle.theory.specs.Alphabets.{Arithmetic, Lawful, modular, plus, minus, two, three, four, times4};
ghost use Rattle.theory.proofs.Alphabets.{two_lawful, three_lawful, four_lawful};

// A byte and no None: words stand as bytes in lent memory, where every byte that is no symbol is a mark.
/// What the sum, the negative or the product of a mark is.
pub const MARK: u8 = 255;

/// An alphabet of Q symbols, the bytes 0 to Q - 1; every other byte is a mark. B symbols write a level.
pub trait Alphabet {
    const Q: u8;

    const B: usize;

    ghost symbols: { Arithmetic };

    ghost Q: { ℕ };

    ghost B: { ℕ };

    fn add(x: u8, y: u8) -> u8
        ensures { result ≡ plus symbols x y };

    fn negate(x: u8) -> u8
        ensures { result ≡ minus symbols x };

    ghost order_is: { Q ≡ symbols.q };

    ghost width_is: { B ≡ symbols.b };

    ghost lawful: { Lawful symbols };

    /// Q, as the order of the symbols' arithmetic.
    final fn order() -> u8
        ensures { result ≡ symbols.q }
    {
        Self::Q
    }

    /// B, as the width of a level in the symbols' arithmetic.
    final fn width() -> usize
        ensures { result ≡ symbols.b }
    {
        Self::B
    }
}

/// The sum modulo `order` of two bytes below it; a mark where one is not.
pub fn add_modulo(order: u8, x: u8, y: u8) -> u8
    ensures { result ≡ plus (modular order 0) x y }
{
    if x >= order || y >= order {
        return MARK;
    }
    // By `as`: below the order, so a byte; `try_from` would have a case that never is.
    ((u16::from(x) + u16::from(y)) % u16::from(order)) as u8
}

/// The negative modulo `order` of a byte below it; a mark where it is not.
pub fn negate_modulo(order: u8, x: u8) -> u8
    ensures { result ≡ minus (modular order 0) x }
{
    if x < order { (order - x) % order } else { MARK }
}

// An impl each for two and three: with one for every alphabet that is added modulo its order, a struct over any alphabet got no
// proof at four symbols, where two impls fit.
/// Two symbols, added modulo 2.
#[derive(Clone, Copy)]
pub struct Two;

impl Alphabet for Two {
    const Q: u8 = 2;

    const B: usize = 8;

    ghost symbols = { two };

    ghost Q = { 2 };

    ghost B = { 8 };

    ghost order_is = { refl };

    ghost width_is = { refl };

    ghost lawful = { two_lawful };

    fn add(x: u8, y: u8) -> u8 {
        add_modulo(Two::Q, x, y)
    }

    fn negate(x: u8) -> u8 {
        negate_modulo(Two::Q, x)
    }
}

/// Three symbols, added modulo 3.
#[derive(Clone, Copy)]
pub struct Three;

impl Alphabet for Three {
    const Q: u8 = 3;

    const B: usize = 6;

    ghost symbols = { three };

    ghost Q = { 3 };

    ghost B = { 6 };

    ghost order_is = { refl };

    ghost width_is = { refl };

    ghost lawful = { three_lawful };

    fn add(x: u8, y: u8) -> u8 {
        add_modulo(Three::Q, x, y)
    }

    fn negate(x: u8) -> u8 {
        negate_modulo(Three::Q, x)
    }
}

/// The four symbols of GF(4): 2 is ω and 3 is ω + 1; addition is exclusive or.
#[derive(Clone, Copy)]
pub struct Four;

impl Alphabet for Four {
    const Q: u8 = 4;

    const B: usize = 4;

    ghost symbols = { four };

    ghost Q = { 4 };

    ghost B = { 4 };

    ghost order_is = { refl };

    ghost width_is = { refl };

    ghost lawful = { four_lawful };

    fn add(x: u8, y: u8) -> u8 {
        if x < 4 && y < 4 { x ^ y } else { MARK }
    }

    fn negate(x: u8) -> u8 {
        if x < 4 { x } else { MARK }
    }
}

impl Four {
    /// The product in GF(4): a symbol x other than 0 is ω to the power x - 1.
    pub fn multiply(x: u8, y: u8) -> u8
        ensures { result ≡ times4 x y }
    {
        if x >= 4 || y >= 4 {
            return MARK;
        }
        if x == 0 || y == 0 {
            return 0;
        }
        (x - 1 + (y - 1)) % 3 + 1
    }
}
