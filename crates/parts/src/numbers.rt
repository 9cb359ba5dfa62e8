// The numbers of a code, asked once.
ghost use Rattle.std.specs.Prelude.{◌≤◌};

/// No working length passes this.
pub const MOST_WORKING: usize = 4096;

/// A code's length, dimension, distance and working length: the word and the message fit into the working memory.
#[derive(Clone, Copy)]
pub struct Numbers {
    pub length: usize,
    pub dimension: usize,
    pub distance: usize,
    pub working: usize,
    ghost word: { length ≤ working },
    ghost message: { dimension ≤ working },
    ghost bounded: { working ≤ 4096 },
}
