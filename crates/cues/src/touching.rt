// Touching up: each word of a cue is mended in the working memory, and copied back if that changed it.
ghost use Rattle.std.specs.Prelude.{◌≡◌, ◌+◌, ◌<◌, ◌≤◌, min, length};
ghost use Rattle.cues.specs.Refusals.{touch_outcome};
ghost use Rattle.cues.specs.Shapes.{plan_in, state_in, Enough};
ghost use Rattle.cues.specs.Steps.{TouchedOne, TouchedAll};
ghost use Rattle.cues.specs.Stores.{of_store, SameStore};
ghost use Rattle.store_theory.specs.Calls.{touched_up_cue};

use crate::refusals::StoreRefusal;
use crate::store::{Store, Touched};
use codes::code::Code;
use codes::memory::{clear, copy_between};

/// Where the tally stays.
const MOST_TALLY: u16 = 65_535;

/// The tally with so many more words.
pub(crate) fn tally_with(tally: u16, more: usize) -> u16
    ensures { result ≡ min 65535 (tally + more) }
{
    tally.saturating_add(u16::try_from(more).unwrap_or(MOST_TALLY))
}

// Cue, cells and memory go side by side, as in reading.rt.
impl<C: Code + Drop, S> Store<C, S> {
    /// Mends one word in its cells; one beyond reach stays.
    fn touch_word(&self, cue: usize, word: usize, cells: &mut [u8], memory: &mut [u8]) -> Touched
        requires enough { Enough self.now.shape cue (length cells.old) (length memory.old) }
        requires there { word < self.now.shape.words }
        ensures small { (result.changed ≤ 1) × (result.beyond_reach ≤ 1) }
        ensures answer { C.Code.fit self.now.code → of_store self.now TouchedOne cue word cells.old memory.old result.changed result.beyond_reach cells.new memory.new }
    {
        if self.mend_word(cue, word, cells, memory).is_err() {
            return Touched {
                changed: 0,
                beyond_reach: 1,
            };
        }
        let length = self.shape.numbers.length;
        let start = self.shape.word_start(cue, word);
        let same = memory[0..length] == cells[start..start + length];
        copy_between(cells, start, memory, 0, length);
        Touched {
            changed: usize::from(!same),
            beyond_reach: 0,
        }
    }

    /// Mends all words of the cue in their cells, and clears the working memory.
    pub(crate) fn touch_words(&self, cue: usize, cells: &mut [u8], memory: &mut [u8]) -> Touched
        requires { Enough self.now.shape cue (length cells.old) (length memory.old) }
        ensures { C.Code.fit self.now.code → of_store self.now TouchedAll cue cells.old memory.old result.changed result.beyond_reach cells.new memory.new }
    {
        let mut changed = 0;
        let mut beyond_reach = 0;
        for word in 0..self.shape.words {
            let touched = self.touch_word(cue, word, cells, memory);
            changed += touched.changed;
            beyond_reach += touched.beyond_reach;
        }
        clear(memory, 0, self.shape.numbers.working);
        Touched {
            changed,
            beyond_reach,
        }
    }

    /// Mends each word of the cue in its cells (scrubbing); one beyond reach stays. Answers how many words changed and how
    /// many are beyond reach; the tally grows by the changed ones.
    pub fn touch_up(
        &mut self,
        cue: usize,
        cells: &mut [u8],
        memory: &mut [u8],
    ) -> Result<Touched, StoreRefusal>
        ensures answer { C.Code.fit self.old.code → (touch_outcome result, state_in self.new.kept, cells.new, memory.new) ≡ of_store self.old touched_up_cue cue (state_in self.old.kept) cells.old memory.old }
        ensures same { SameStore self.old self.new }
    {
        self.shape.check_reach(cue, cells.len(), memory.len())?;
        if !self.kept.marks[cue].recorded {
            return Err(StoreRefusal::Empty);
        }
        let touched = self.touch_words(cue, cells, memory);
        self.kept.tally = tally_with(self.kept.tally, touched.changed);
        Ok(touched)
    }
}
