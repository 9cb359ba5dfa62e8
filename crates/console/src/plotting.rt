// The commands that a plotting store alone serves.
use crate::fault::{Fault, Reason};
use crate::holder::AtPlotting;
use crate::outcome::Outcome;
use crate::slips::{Numbered, slip_of_another_store};
use codes::code::Code;
use cues::{Slip, StoreRefusal};
use std::alloc::Global;
use std::io::Write;

/// A command for a plotting store.
#[derive(Drop)]
pub enum Plot {
    Record(usize, Vec<u8>),
    /// By the number of a slip.
    RecordBySlip(usize, Vec<u8>),
    Hold(usize),
    OtherSlip(usize),
    LetGo(usize),
    Wipe(usize),
}

impl<C: Code + Drop> AtPlotting<C> {
    /// Carries the command out and writes its answer.
    pub fn plot(&mut self, heap: Global, command: Plot, answer: &mut Vec<u8>) -> Result<(), Fault> {
        match command {
            Plot::Record(cue, levels) => {
                let store = &mut self.store;
                self.desk.record(
                    heap,
                    |cells, memory| store.record(cue, levels.as_slice(), cells, memory),
                    answer,
                )
            }
            Plot::RecordBySlip(number, levels) => {
                let place = self.slips.place(number).ok_or(Reason::NoSuchSlip)?;
                let store = &mut self.store;
                let slip = &self.slips.out[place].slip;
                self.desk.record(
                    heap,
                    |cells, memory| store.record_by_slip(slip, levels.as_slice(), cells, memory),
                    answer,
                )
            }
            Plot::Hold(cue) => {
                let held = self.store.hold(cue);
                self.give(held, answer)
            }
            Plot::OtherSlip(cue) => self.give(slip_of_another_store(cue), answer),
            Plot::LetGo(number) => self.let_go(number, answer),
            Plot::Wipe(cue) => {
                let outcome = Outcome(self.store.wipe(cue, self.desk.cells.as_mut_slice()));
                writeln!(answer, "{outcome}")?;
                Ok(())
            }
        }
    }

    /// Keeps a slip that was given, and writes its number.
    fn give(
        &mut self,
        held: Result<Slip, StoreRefusal>,
        answer: &mut Vec<u8>,
    ) -> Result<(), Fault> {
        match held {
            Ok(slip) => {
                let number = self.slips.keep(&mut self.store, slip)?;
                writeln!(answer, "slip {number}")?;
            }
            Err(why) => {
                let outcome = Outcome(Err(why));
                writeln!(answer, "{outcome}")?;
            }
        }
        Ok(())
    }

    /// Lets the slip of this number go.
    fn let_go(&mut self, number: usize, answer: &mut Vec<u8>) -> Result<(), Fault> {
        let place = self.slips.place(number).ok_or(Reason::NoSuchSlip)?;
        let Numbered { number: _, slip } = self.slips.out.swap_remove(place);
        self.store.let_go(slip);
        writeln!(answer, "let go")?;
        Ok(())
    }
}
