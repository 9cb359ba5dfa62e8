// What a script works with besides the store itself: the cells, and the bytes that each call is handed.
use crate::fault::{Fault, Reason};
use crate::outcome::Outcome;
use crate::text::List;
use codes::code::Code;
use cues::{Store, StoreRefusal};
use std::alloc::{AllocError, Global};
use std::io::Write;

/// So many bytes, all alike.
#[derive(Clone, Copy)]
pub struct Filled {
    pub count: usize,
    pub byte: u8,
}

impl Filled {
    /// What memory is filled with before a script says otherwise.
    pub const DIRTY: u8 = 170;

    pub fn bytes(&self, heap: Global) -> Result<Vec<u8>, AllocError> {
        let mut bytes = Vec::new(heap);
        bytes.resize(self.count, self.byte)?;
        Ok(bytes)
    }
}

/// A command that any store serves, plotting or running.
#[derive(Drop)]
pub enum Common {
    NewCells(Vec<u8>),
    ShowCells,
    Damage(usize, u8),
    Memory(Filled),
    Levels(Filled),
    TouchUp(usize),
    Recall(usize),
    Tally,
}

#[derive(Drop)]
pub struct Desk {
    pub cells: Vec<u8>,
    pub memory: Filled,
    pub levels: Filled,
}

impl Desk {
    pub fn serve<C: Code + Drop, S>(
        &mut self,
        heap: Global,
        store: &mut Store<C, S>,
        command: Common,
        answer: &mut Vec<u8>,
    ) -> Result<(), Fault> {
        match command {
            Common::NewCells(cells) => {
                let count = cells.len();
                self.cells = cells;
                writeln!(answer, "{count} cells")?;
            }
            Common::ShowCells => {
                let cells = List(self.cells.as_slice());
                writeln!(answer, "cells {cells}")?;
            }
            Common::Damage(cell, byte) => self.damage(cell, byte, answer)?,
            Common::Memory(filled) => {
                self.memory = filled;
                let count = filled.count;
                writeln!(answer, "memory {count}")?;
            }
            Common::Levels(filled) => {
                self.levels = filled;
                let count = filled.count;
                writeln!(answer, "levels {count}")?;
            }
            Common::TouchUp(cue) => self.touch_up(heap, store, cue, answer)?,
            Common::Recall(cue) => self.recall(heap, store, cue, answer)?,
            Common::Tally => {
                let tally = store.tally();
                writeln!(answer, "tally {tally}")?;
            }
        }
        Ok(())
    }

    /// Puts a byte into a cell.
    fn damage(&mut self, cell: usize, byte: u8, answer: &mut Vec<u8>) -> Result<(), Fault> {
        if cell >= self.cells.len() {
            return Err(Fault::Cannot(Reason::NoSuchCell));
        }
        let old = self.cells[cell];
        self.cells[cell] = byte;
        writeln!(answer, "cell {cell}: {old} to {byte}")?;
        Ok(())
    }

    fn touch_up<C: Code + Drop, S>(
        &mut self,
        heap: Global,
        store: &mut Store<C, S>,
        cue: usize,
        answer: &mut Vec<u8>,
    ) -> Result<(), Fault> {
        let mut memory = self.memory.bytes(heap)?;
        match store.touch_up(cue, self.cells.as_mut_slice(), memory.as_mut_slice()) {
            Ok(touched) => {
                let changed = touched.changed;
                let beyond = touched.beyond_reach;
                write!(answer, "changed {changed}, beyond reach {beyond}")?;
            }
            Err(why) => {
                let outcome = Outcome(Err(why));
                write!(answer, "{outcome}")?;
            }
        }
        let after = List(memory.as_slice());
        writeln!(answer, "; memory {after}")?;
        Ok(())
    }

    fn recall<C: Code + Drop, S>(
        &mut self,
        heap: Global,
        store: &Store<C, S>,
        cue: usize,
        answer: &mut Vec<u8>,
    ) -> Result<(), Fault> {
        let mut memory = self.memory.bytes(heap)?;
        let mut levels = self.levels.bytes(heap)?;
        let outcome = Outcome(store.recall(
            cue,
            self.cells.as_slice(),
            levels.as_mut_slice(),
            memory.as_mut_slice(),
        ));
        let given = List(levels.as_slice());
        let after = List(memory.as_slice());
        writeln!(answer, "{outcome}; levels {given}; memory {after}")?;
        Ok(())
    }

    /// Records by this call, which is handed the cells and the working memory.
    pub fn record<F: FnOnce(&mut [u8], &mut [u8]) -> Result<(), StoreRefusal>>(
        &mut self,
        heap: Global,
        call: F,
        answer: &mut Vec<u8>,
    ) -> Result<(), Fault>
        requires { F.IsAlwaysCallable call }
    {
        let mut memory = self.memory.bytes(heap)?;
        let outcome = Outcome(call(self.cells.as_mut_slice(), memory.as_mut_slice()));
        let after = List(memory.as_slice());
        writeln!(answer, "{outcome}; memory {after}")?;
        Ok(())
    }
}
