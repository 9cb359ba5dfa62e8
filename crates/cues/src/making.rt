// Making: the numbers of a store are worked out and checked.
ghost use Rattle.std.specs.Prelude.{◌≡◌, IfOk};
ghost use Rattle.cues.specs.Refusals.{store_outcome};
ghost use Rattle.cues.specs.Shapes.{plan_in, StoreNumbers};
ghost use Rattle.store_theory.specs.Calls.{store_making};
ghost use Rattle.store_theory.specs.Layout.{plan_of};

use crate::refusals::StoreRefusal;
use crate::shape::Shape;
use alphabets::Alphabet;
use codes::code::Code;
use parts::asked::numbers_of;

/// No store has more cues, more levels in a cue or more cells than these.
pub const MOST_CUES: usize = 64;

pub const MOST_LEVELS: usize = 512;

pub const MOST_CELLS: usize = 1_048_576;

// Cues and levels are two numbers, as in `plan_of`: here they become a Shape.
/// The numbers of a store of so many cues and levels over this code. A code without symbols is unfit.
pub(crate) fn shape_of<C: Code>(code: &C, cues: usize, levels: usize) -> Result<Shape, StoreRefusal>
    ensures making { C.Code.fit code.now → store_outcome result ≡ store_making C.Symbols.Alphabet.symbols (C.Code.meaning code.now) (plan_of cues levels) }
    ensures fits { C.Code.fit code.now → IfOk result (λ s. StoreNumbers C.Symbols.Alphabet.symbols (C.Code.meaning code.now) s) }
    ensures plan { IfOk result (λ s. plan_in s ≡ plan_of cues levels) }
{
    if cues < 1 || cues > MOST_CUES || levels < 1 || levels > MOST_LEVELS {
        return Err(StoreRefusal::OutOfRange);
    }
    let Some(numbers) = numbers_of(code) else {
        return Err(StoreRefusal::OutOfRange);
    };
    if numbers.dimension < 1 {
        return Err(StoreRefusal::OutOfRange);
    }
    let order = C::Symbols::order();
    let width = C::Symbols::width();
    let words = (levels * width + (numbers.dimension - 1)) / numbers.dimension;
    let block = words * numbers.length;
    let cells = cues * block;
    if cells > MOST_CELLS {
        return Err(StoreRefusal::TooManyCells);
    }
    Ok(Shape {
        cues,
        levels,
        words,
        order,
        width,
        numbers,
        block,
        cells,
    })
}
