// The store while cues are plotted: made, recorded, held and wiped.
ghost use Rattle.std.specs.Prelude.{◌≡◌, IfOk};
ghost use Rattle.cues.specs.Refusals.{store_outcome};
ghost use Rattle.cues.specs.Shapes.{plan_in, state_in};
ghost use Rattle.cues.specs.Stores.{of_store, SameStore};
ghost use Rattle.store_theory.specs.Calls.{store_making, recorded_cue, recorded_cue_by_slip, held_cue, let_go_cue, wiped_cue};
ghost use Rattle.store_theory.specs.Layout.{plan_of};
ghost use Rattle.store_theory.specs.States.{new_state};

use crate::kept::Kept;
use crate::making::shape_of;
use crate::refusals::StoreRefusal;
pub use crate::store::Plotting;
use crate::store::{Running, Store};
use codes::code::Code;
use codes::memory::clear;
use std::marker::PhantomData;

/// A token for a held cue (a lock token); it has to be spent by letting go.
pub struct Slip {
    cue: usize,
}

impl<C: Code + Drop> Plotting<C> {
    /// A new store of so many cues and levels over this code; a refused making uses the code up.
    pub fn new(code: C, cues: usize, levels: usize) -> Result<Plotting<C>, StoreRefusal>
        ensures making { C.Code.fit code → store_outcome result ≡ store_making C.Symbols.Alphabet.symbols (C.Code.meaning code) (plan_of cues levels) }
        ensures store { IfOk result (λ s. (s.code ≡ code) × (plan_in s.shape ≡ plan_of cues levels) × (state_in s.kept ≡ new_state)) }
    {
        let shape = shape_of(&code, cues, levels)?;
        Ok(Store {
            code,
            shape,
            kept: Kept::new(),
            state: PhantomData,
        })
    }

    /// Records these levels in the cue; missing ones are recorded as 0.
    pub fn record(
        &mut self,
        cue: usize,
        levels: &[u8],
        cells: &mut [u8],
        memory: &mut [u8],
    ) -> Result<(), StoreRefusal>
        ensures answer { C.Code.fit self.old.code → (store_outcome result, state_in self.new.kept, cells.new, levels.now, memory.new) ≡ of_store self.old recorded_cue cue (state_in self.old.kept) cells.old levels.now memory.old }
        ensures same { SameStore self.old self.new }
    {
        self.shape
            .check_recording(cue, levels.len(), cells.len(), memory.len())?;
        if self.kept.marks[cue].held {
            return Err(StoreRefusal::Held);
        }
        self.write_cue(cue, levels, cells, memory)
    }

    // As `record` but for the mark: what both do is `check_recording` and `write_cue`.
    /// Records these levels in the cue of this slip, which stays held.
    pub fn record_by_slip(
        &mut self,
        slip: &Slip,
        levels: &[u8],
        cells: &mut [u8],
        memory: &mut [u8],
    ) -> Result<(), StoreRefusal>
        ensures answer { C.Code.fit self.old.code → (store_outcome result, state_in self.new.kept, cells.new, levels.now, memory.new) ≡ of_store self.old recorded_cue_by_slip slip.now.cue (state_in self.old.kept) cells.old levels.now memory.old }
        ensures same { SameStore self.old self.new }
    {
        self.shape
            .check_recording(slip.cue, levels.len(), cells.len(), memory.len())?;
        if !self.kept.marks[slip.cue].held {
            return Err(StoreRefusal::NotHeld);
        }
        self.write_cue(slip.cue, levels, cells, memory)
    }

    /// Holds the cue: only this slip records it until it is let go.
    pub fn hold(&mut self, cue: usize) -> Result<Slip, StoreRefusal>
        ensures answer { (store_outcome result, state_in self.new.kept) ≡ held_cue (plan_in self.old.shape) cue (state_in self.old.kept) }
        ensures slip { IfOk result (λ slip. slip.cue ≡ cue) }
        ensures same { SameStore self.old self.new }
    {
        if cue >= self.shape.cues {
            return Err(StoreRefusal::NoSuchCue);
        }
        if self.kept.marks[cue].held {
            return Err(StoreRefusal::Held);
        }
        self.kept.marks[cue].held = true;
        Ok(Slip { cue })
    }

    /// Frees the slip's cue, if there is such a cue here; the slip may be another store's.
    pub fn let_go(&mut self, slip: Slip)
        ensures answer { state_in self.new.kept ≡ let_go_cue (plan_in self.old.shape) slip.cue (state_in self.old.kept) }
        ensures same { SameStore self.old self.new }
    {
        let Slip { cue } = slip;
        if cue < self.shape.cues {
            self.kept.marks[cue].held = false;
        }
    }

    /// Zeroes the cells of the cue, which is then empty.
    pub fn wipe(&mut self, cue: usize, cells: &mut [u8]) -> Result<(), StoreRefusal>
        ensures answer { C.Code.fit self.old.code → (store_outcome result, state_in self.new.kept, cells.new) ≡ of_store self.old wiped_cue cue (state_in self.old.kept) cells.old }
        ensures same { SameStore self.old self.new }
    {
        if cue >= self.shape.cues {
            return Err(StoreRefusal::NoSuchCue);
        }
        if cells.len() < self.shape.cells {
            return Err(StoreRefusal::ShortMemory);
        }
        if self.kept.marks[cue].held {
            return Err(StoreRefusal::Held);
        }
        let block = self.shape.block;
        clear(cells, cue * block, block);
        self.kept.marks[cue].recorded = false;
        Ok(())
    }

    // Field by field, as `stop` does it: a function to any state would be one more with this body.
    /// The same store, running.
    pub fn start(self) -> Running<C>
        ensures kept { result.kept ≡ self.kept }
        ensures same { SameStore self result }
    {
        Store {
            code: self.code,
            shape: self.shape,
            kept: self.kept,
            state: PhantomData,
        }
    }
}
