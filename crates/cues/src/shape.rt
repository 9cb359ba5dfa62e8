// The numbers of a store, worked out once when it is made.
ghost use Rattle.std.specs.Prelude.{◌≡◌, ◌+◌, ◌*◌, ◌<◌, ◌≤◌};

use parts::numbers::Numbers;

/// How many cues and levels there are, how many words a cue has, how many symbols the alphabet has and how many of them a
/// level takes, the numbers of the code below, and how many cells one cue and all cues have.
#[derive(Clone, Copy)]
pub struct Shape {
    pub cues: usize,
    pub levels: usize,
    pub words: usize,
    pub order: u8,
    pub width: usize,
    pub numbers: Numbers,
    pub block: usize,
    pub cells: usize,
    ghost some_symbols: { 1 ≤ numbers.dimension },
    ghost two_symbols: { 2 ≤ order },
    ghost few_symbols: { order ≤ 16 },
    ghost some_width: { 1 ≤ width },
    ghost narrow: { width ≤ 8 },
    ghost few_cues: { cues ≤ 64 },
    ghost few_levels: { levels ≤ 512 },
    ghost few_words: { words ≤ 8191 },
    ghost enough_words: { levels * width ≤ words * numbers.dimension },
    ghost of_a_cue: { block ≡ words * numbers.length },
    ghost of_all_cues: { cells ≡ cues * block },
    ghost few_cells: { cells ≤ 1048576 },
}

impl Shape {
    // Cue and word stay two numbers: `Enough` says that the cue is there, and loops go over words alone.
    /// The cell of place 0 of this word of this cue.
    pub(crate) fn word_start(&self, cue: usize, word: usize) -> usize
        requires { (cue < self.now.cues) × (word < self.now.words) }
        ensures { result ≡ cue * self.now.block + word * self.now.numbers.length }
    {
        cue * self.block + word * self.numbers.length
    }
}
