// The slips that a script was given and has not spent.
ghost use Rattle.std.specs.Prelude.{◌<◌, IfSome, vec_len};

use alphabets::Two;
use codes::code::Code;
use cues::{Plotting, Slip, StoreRefusal};
use repetition::Repetition;
use std::alloc::{AllocError, AllocFailed, Global};

/// A slip with the number by which the script knows it. It has to be let go.
pub struct Numbered {
    pub number: usize,
    pub slip: Slip,
}

// A list: a map's insert hands back what stood there, and a slip that never is would have to be let go.
/// The slips that are out, and how many the script was given.
pub struct Slips {
    pub out: Vec<Numbered>,
    given: usize,
}

impl Slips {
    /// No slip is out, and so many were given.
    pub fn new(heap: Global, given: usize) -> Slips {
        Slips {
            out: Vec::new(heap),
            given,
        }
    }

    /// Where the slip of this number is, if it is out.
    pub fn place(&self, number: usize) -> Option<usize>
        ensures { IfSome result (λ place. place < vec_len self.now.out) }
    {
        self.out
            .iter()
            .position(|numbered| numbered.number == number)
    }

    /// Keeps a slip under the next number, and gives that number; where there is no memory for it, it is let go at once.
    pub fn keep<C: Code + Drop>(
        &mut self,
        store: &mut Plotting<C>,
        slip: Slip,
    ) -> Result<usize, AllocError> {
        let number = self.given;
        match self.out.push(Numbered { number, slip }) {
            Ok(()) => {
                self.given = number.saturating_add(1);
                Ok(number)
            }
            Err(refused) => {
                let AllocFailed { value } = refused;
                let Numbered { number: _, slip } = value;
                store.let_go(slip);
                Err(AllocError)
            }
        }
    }

    /// Lets every slip go that is still out, and says how many were given.
    pub fn let_all_go<C: Code + Drop>(self, store: &mut Plotting<C>) -> usize {
        let Slips { out, given } = self;
        let mut out = out;
        while let Some(numbered) = out.pop() {
            let Numbered { number: _, slip } = numbered;
            store.let_go(slip);
        }
        out.destroy_empty();
        given
    }
}

/// A slip that another store gave: one of 64 cues, which ends at once.
pub fn slip_of_another_store(cue: usize) -> Result<Slip, StoreRefusal> {
    let Ok(code) = Repetition::<Two>::new(1) else {
        return Err(StoreRefusal::OutOfRange);
    };
    let mut store = Plotting::new(code, 64, 1)?;
    store.hold(cue)
}
