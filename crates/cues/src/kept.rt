// What a store keeps of its cues: their marks, and the tally of touched-up words.
ghost use Rattle.std.specs.Prelude.{◌≡◌};
ghost use Rattle.cues.specs.Shapes.{state_in};
ghost use Rattle.store_theory.specs.States.{new_state};

use store_theory::CueMark;

// An array for the most cues: the store allocates nothing.
/// A mark for each of the most cues that a store may have, and how many words were changed by touching up.
#[derive(Clone, Copy)]
pub struct Kept {
    pub marks: [CueMark; 64],
    pub tally: u16,
}

impl Kept {
    /// Every cue empty and free, and the tally 0.
    pub(crate) fn new() -> Kept
        ensures { state_in result ≡ new_state }
    {
        let blank = CueMark {
            recorded: false,
            held: false,
        };
        Kept {
            marks: [blank; 64],
            tally: 0,
        }
    }
}
