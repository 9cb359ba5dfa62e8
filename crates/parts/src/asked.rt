// Asking a code for its numbers.
ghost use Rattle.parts.specs.Numbers.{Answers};

use crate::numbers::{MOST_WORKING, Numbers};
use codes::code::Code;

/// The numbers of a code, or None where no fit code could have them.
pub fn numbers_of<C: Code>(code: &C) -> Option<Numbers>
    ensures { C.Code.fit code.now → Answers result (C.Code.meaning code.now) }
{
    let length = code.length();
    let dimension = code.dimension();
    let distance = code.distance();
    let working = code.working_length();
    if length > working || dimension > working || working > MOST_WORKING {
        return None;
    }
    Some(Numbers {
        length,
        dimension,
        distance,
        working,
    })
}
