// Recalling: the words of a cue are mended in the working memory and read there symbol by symbol.
// The cue, the cells and the working memory go side by side: a recall reads the cells and the other calls write them, so one
// struct for all three would have to be two, and no plainer.
ghost use Rattle.std.specs.Prelude.{◌≡◌, ◌+◌, ◌*◌, ◌<◌, length};
ghost use Rattle.cues.specs.Refusals.{store_outcome};
ghost use Rattle.cues.specs.Shapes.{plan_in, state_in, Enough};
ghost use Rattle.cues.specs.Steps.{mended_in_memory, ReachedAll, AllReached, ReadWord, ReadSymbol, ReadLevel, ShownLevels, CheckedFilling, ReadLevels, Loaded};
ghost use Rattle.cues.specs.Stores.{of_store};
ghost use Rattle.store_theory.specs.Calls.{recalled_cue};
ghost use Rattle.store_theory.specs.Layout.{symbol_count};
ghost use Rattle.store_theory.specs.Statements.{LastRecorded};

use crate::refusals::{StoreRefusal, of_word};
use crate::store::Store;
use crate::symbols::carried;
use codes::code::Code;
use codes::memory::{clear, copy_between};

impl<C: Code + Drop, S> Store<C, S> {
    /// Copies a word into the working memory and mends it there.
    pub(crate) fn mend_word(
        &self,
        cue: usize,
        word: usize,
        cells: &[u8],
        memory: &mut [u8],
    ) -> Result<(), StoreRefusal>
        requires enough { Enough self.now.shape cue (length cells.now) (length memory.old) }
        requires there { word < self.now.shape.words }
        ensures { C.Code.fit self.now.code → (store_outcome result, memory.new) ≡ of_store self.now mended_in_memory cue word cells.now memory.old }
    {
        let start = self.shape.word_start(cue, word);
        copy_between(memory, 0, cells, start, self.shape.numbers.length);
        of_word(self.code.mend(memory), cue, word)
    }

    /// Goes over all words of the cue for the first beyond reach.
    fn mend_words(&self, cue: usize, cells: &[u8], memory: &mut [u8]) -> Result<(), StoreRefusal>
        requires { Enough self.now.shape cue (length cells.now) (length memory.old) }
        ensures { C.Code.fit self.now.code → of_store self.now ReachedAll cue cells.now memory.old (store_outcome result) memory.new }
    {
        for word in 0..self.shape.words {
            self.mend_word(cue, word, cells, memory)?;
        }
        Ok(())
    }

    /// Mends a word in the working memory and reads its message there.
    fn read_word(
        &self,
        cue: usize,
        word: usize,
        cells: &[u8],
        memory: &mut [u8],
    ) -> Result<(), StoreRefusal>
        requires enough { Enough self.now.shape cue (length cells.now) (length memory.old) }
        requires there { word < self.now.shape.words }
        ensures { C.Code.fit self.now.code → of_store self.now AllReached cue cells.now → of_store self.now ReadWord cue word cells.now memory.old (store_outcome result) memory.new }
    {
        self.mend_word(cue, word, cells, memory)?;
        of_word(self.code.read(memory), cue, word)
    }

    /// The symbol at this place of all messages of the cue; a message is read when its first symbol is asked for.
    fn next_symbol(
        &self,
        cue: usize,
        place: usize,
        cells: &[u8],
        memory: &mut [u8],
    ) -> Result<u8, StoreRefusal>
        requires enough { Enough self.now.shape cue (length cells.now) (length memory.old) }
        requires there { place < self.now.shape.words * self.now.shape.numbers.dimension }
        ensures { C.Code.fit self.now.code → of_store self.now AllReached cue cells.now → of_store self.now Loaded cue cells.now place memory.old → of_store self.now ReadSymbol cue place cells.now memory.old result memory.new }
    {
        let dimension = self.shape.numbers.dimension;
        if place % dimension == 0 {
            self.read_word(cue, place / dimension, cells, memory)?;
        }
        Ok(memory[place % dimension])
    }

    /// The number of this level, if it is at most 255.
    fn next_level(
        &self,
        cue: usize,
        level: usize,
        cells: &[u8],
        memory: &mut [u8],
    ) -> Result<Option<u8>, StoreRefusal>
        requires enough { Enough self.now.shape cue (length cells.now) (length memory.old) }
        requires there { level < self.now.shape.levels }
        ensures { C.Code.fit self.now.code → of_store self.now AllReached cue cells.now → of_store self.now Loaded cue cells.now (level * C.Symbols.Alphabet.symbols.b) memory.old → of_store self.now ReadLevel cue level cells.now memory.old result memory.new }
    {
        let start = level * self.shape.width;
        let mut number = Some(0);
        for place in 0..self.shape.width {
            let symbol = self.next_symbol(cue, start + place, cells, memory)?;
            number = carried(number, self.shape.order, symbol);
        }
        Ok(number)
    }

    /// Writes the levels one by one, up to the first above 255.
    fn show_levels(
        &self,
        cue: usize,
        cells: &[u8],
        levels: &mut [u8],
        memory: &mut [u8],
    ) -> Result<(), StoreRefusal>
        requires enough { Enough self.now.shape cue (length cells.now) (length memory.old) }
        requires whole { length levels.old ≡ self.now.shape.levels }
        ensures { C.Code.fit self.now.code → of_store self.now AllReached cue cells.now → of_store self.now ShownLevels cue cells.now memory.old (store_outcome result) levels.new memory.new }
    {
        for (level, shown) in levels.iter_mut().enumerate() {
            let Some(number) = self.next_level(cue, level, cells, memory)? else {
                return Err(StoreRefusal::LevelOutOfRange { cue, level });
            };
            *shown = number;
        }
        Ok(())
    }

    /// Goes over the symbols behind the last level for one that is not 0.
    fn check_filling(&self, cue: usize, cells: &[u8], memory: &mut [u8]) -> Result<(), StoreRefusal>
        requires { Enough self.now.shape cue (length cells.now) (length memory.old) }
        ensures { C.Code.fit self.now.code → of_store self.now AllReached cue cells.now → of_store self.now Loaded cue cells.now (symbol_count C.Symbols.Alphabet.symbols (plan_in self.now.shape)) memory.old → of_store self.now CheckedFilling cue cells.now memory.old (store_outcome result) memory.new }
    {
        let end = self.shape.words * self.shape.numbers.dimension;
        for place in self.shape.levels * self.shape.width..end {
            if self.next_symbol(cue, place, cells, memory)? > 0 {
                let level = self.shape.levels;
                return Err(StoreRefusal::LevelOutOfRange { cue, level });
            }
        }
        Ok(())
    }

    /// First all words, then the levels, then the filling: the first fault is the answer.
    fn read_levels(
        &self,
        cue: usize,
        cells: &[u8],
        levels: &mut [u8],
        memory: &mut [u8],
    ) -> Result<(), StoreRefusal>
        requires enough { Enough self.now.shape cue (length cells.now) (length memory.old) }
        requires whole { length levels.old ≡ self.now.shape.levels }
        ensures { C.Code.fit self.now.code → of_store self.now ReadLevels cue cells.now memory.old (store_outcome result) levels.new memory.new }
    {
        self.mend_words(cue, cells, memory)?;
        self.show_levels(cue, cells, levels, memory)?;
        self.check_filling(cue, cells, memory)
    }

    /// Reads the levels of the cue out of mended copies of its words. A refusal for a word or a level leaves zeros.
    pub fn recall(
        &self,
        cue: usize,
        cells: &[u8],
        levels: &mut [u8],
        memory: &mut [u8],
    ) -> Result<(), StoreRefusal>
        ensures answer { C.Code.fit self.now.code → (store_outcome result, state_in self.now.kept, cells.now, levels.new, memory.new) ≡ of_store self.now recalled_cue cue (state_in self.now.kept) cells.now levels.old memory.old }
        ensures recall_gives_what_was_last_recorded { C.Code.fit self.now.code → of_store self.now LastRecorded cue (state_in self.now.kept) cells.now levels.old memory.old (store_outcome result, state_in self.now.kept, cells.now, levels.new, memory.new) }
    {
        self.shape.check_reach(cue, cells.len(), memory.len())?;
        let count = self.shape.levels;
        if levels.len() < count {
            return Err(StoreRefusal::ShortMemory);
        }
        if !self.kept.marks[cue].recorded {
            return Err(StoreRefusal::Empty);
        }
        let read = self.read_levels(cue, cells, &mut levels[..count], memory);
        if read.is_err() {
            clear(levels, 0, count);
        }
        clear(memory, 0, self.shape.numbers.working);
        read
    }
}
