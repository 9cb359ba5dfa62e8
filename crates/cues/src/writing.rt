// Writing the words of a cue: each message is sent in the working memory, and its word copied into the cells.
ghost use Rattle.std.specs.Prelude.{◌≡◌, ◌<◌, ◌≤◌, length, None};
ghost use Rattle.cues.specs.Refusals.{store_outcome};
ghost use Rattle.cues.specs.Shapes.{plan_in, state_in, Enough};
ghost use Rattle.cues.specs.Steps.{WroteWord, WroteWords};
ghost use Rattle.cues.specs.Stores.{of_store, SameStore};
ghost use Rattle.store_theory.specs.Calls.{recorded_cue_by};

use crate::refusals::{StoreRefusal, of_word};
use crate::store::Store;
use crate::symbols::write_message;
use codes::code::Code;
use codes::memory::{clear, copy_between};

// Cue, cells and memory go side by side, as in reading.rt. How many levels there may be is checked once, in `check_recording`: a
// slice with that bound would be one more type for three private calls.
impl<C: Code + Drop, S> Store<C, S> {
    /// Writes one word of these levels into its cells. A fit code refuses none, since every message is one of symbols.
    fn write_word(
        &self,
        cue: usize,
        word: usize,
        levels: &[u8],
        cells: &mut [u8],
        memory: &mut [u8],
    ) -> Result<(), StoreRefusal>
        requires enough { Enough self.now.shape cue (length cells.old) (length memory.old) }
        requires there { word < self.now.shape.words }
        requires fewer { length levels.now ≤ self.now.shape.levels }
        ensures { C.Code.fit self.now.code → of_store self.now WroteWord cue word levels.now cells.old memory.old (store_outcome result) cells.new memory.new }
    {
        let dimension = self.shape.numbers.dimension;
        write_message(&self.shape, levels, word, &mut memory[..dimension]);
        of_word(self.code.send(memory), cue, word)?;
        let start = self.shape.word_start(cue, word);
        copy_between(cells, start, memory, 0, self.shape.numbers.length);
        Ok(())
    }

    /// Writes all words of these levels into the cells of the cue, and clears the working memory.
    fn write_words(
        &self,
        cue: usize,
        levels: &[u8],
        cells: &mut [u8],
        memory: &mut [u8],
    ) -> Result<(), StoreRefusal>
        requires enough { Enough self.now.shape cue (length cells.old) (length memory.old) }
        requires fewer { length levels.now ≤ self.now.shape.levels }
        ensures { C.Code.fit self.now.code → of_store self.now WroteWords cue levels.now cells.old memory.old (store_outcome result) cells.new memory.new }
    {
        for word in 0..self.shape.words {
            self.write_word(cue, word, levels, cells, memory)?;
        }
        clear(memory, 0, self.shape.numbers.working);
        Ok(())
    }

    /// Writes these levels into the cells of the cue, and marks it as recorded.
    pub(crate) fn write_cue(
        &mut self,
        cue: usize,
        levels: &[u8],
        cells: &mut [u8],
        memory: &mut [u8],
    ) -> Result<(), StoreRefusal>
        requires enough { Enough self.old.shape cue (length cells.old) (length memory.old) }
        requires fewer { length levels.now ≤ self.old.shape.levels }
        ensures answer { C.Code.fit self.old.code → (store_outcome result, state_in self.new.kept, cells.new, levels.now, memory.new) ≡ of_store self.old recorded_cue_by cue (state_in self.old.kept) cells.old levels.now memory.old None }
        ensures same { SameStore self.old self.new }
    {
        self.write_words(cue, levels, cells, memory)?;
        self.kept.marks[cue].recorded = true;
        Ok(())
    }
}
