// What the commands of a script are put to: no model yet, a code, nothing once a store was refused, a plotting store, or a
// running one.
use crate::command::{Call, Command};
use crate::desk::Desk;
use crate::fault::{Fault, Reason};
use crate::model::Model;
use crate::next::Next;
use crate::outcome::Outcome;
use crate::slips::Slips;
use crate::text::List;
use codes::code::Code;
use codes::refusals::Refusal;
use codes::trips::mend_in_reach;
use cues::{Store, WhilePlotting, WhileRunning};
use std::alloc::Global;
use std::io::Write;

// The heap is a handle that is copied: a struct of it and the answer would be no plainer.
pub trait Holder {
    /// Carries a command out and writes its answer, and says what comes next. It is never one that chooses a model or
    /// makes a code.
    fn carry_out(
        &mut self,
        heap: Global,
        command: Command,
        answer: &mut Vec<u8>,
    ) -> Result<Next, Fault>;
}

/// No model is chosen yet.
#[derive(Clone, Copy)]
pub struct NoModel;

impl Holder for NoModel {
    fn carry_out(
        &mut self,
        _heap: Global,
        _command: Command,
        _answer: &mut Vec<u8>,
    ) -> Result<Next, Fault> {
        Err(Fault::Cannot(Reason::NoModel))
    }
}

/// The model that is chosen.
#[derive(Drop)]
pub struct Chosen<M>(pub M);

impl<M: Model> Holder for Chosen<M> {
    fn carry_out(
        &mut self,
        _heap: Global,
        command: Command,
        answer: &mut Vec<u8>,
    ) -> Result<Next, Fault> {
        match command {
            Command::Perform(call, memory) => {
                let mut memory = memory;
                let outcome = Outcome(perform(&self.0, call, memory.as_mut_slice())?);
                let after = List(memory.as_slice());
                writeln!(answer, "{outcome}; memory {after}")?;
                Ok(Next::Line)
            }
            Command::Store(cues, levels) => Ok(Next::Store(cues, levels)),
            _ => Err(Fault::Cannot(Reason::NoStore)),
        }
    }
}

// The call is read from the script, so it is a value and no closure.
/// What a call of the model's code answers, with the memory as it leaves it.
fn perform<M: Model>(
    model: &M,
    call: Call,
    memory: &mut [u8],
) -> Result<Result<(), Refusal>, Reason> {
    match call {
        Call::Send => Ok(model.code().send(memory)),
        Call::Mend => Ok(mend_in_reach(model.code(), memory)),
        Call::Read => Ok(model.code().read(memory)),
        Call::Show => model.show(memory).ok_or(Reason::ShowsNoPair),
    }
}

/// A refused store has used the model's code up.
#[derive(Clone, Copy)]
pub struct UsedUp;

impl Holder for UsedUp {
    fn carry_out(
        &mut self,
        _heap: Global,
        command: Command,
        _answer: &mut Vec<u8>,
    ) -> Result<Next, Fault> {
        match command {
            Command::Perform(..) | Command::Store(..) => Err(Fault::Cannot(Reason::NoCode)),
            _ => Err(Fault::Cannot(Reason::NoStore)),
        }
    }
}

/// A store with all that a script needs for it. The slips that are out have to be let go.
pub struct AtStore<C: Code, S> {
    pub store: Store<C, S>,
    pub desk: Desk,
    pub slips: Slips,
}

pub type AtPlotting<C> = AtStore<C, WhilePlotting>;

pub type AtRunning<C> = AtStore<C, WhileRunning>;

impl<C: Code + Drop> AtPlotting<C> {
    pub fn start(self) -> AtRunning<C> {
        let AtStore { store, desk, slips } = self;
        AtStore {
            store: store.start(),
            desk,
            slips,
        }
    }

    /// Lets every slip go that is still out, and says how many were given.
    pub fn end(self) -> usize {
        let AtStore {
            store,
            desk: _,
            slips,
        } = self;
        let mut store = store;
        slips.let_all_go(&mut store)
    }
}

impl<C: Code + Drop> Holder for AtPlotting<C> {
    fn carry_out(
        &mut self,
        heap: Global,
        command: Command,
        answer: &mut Vec<u8>,
    ) -> Result<Next, Fault> {
        match command {
            Command::Serve(common) => {
                self.desk.serve(heap, &mut self.store, common, answer)?;
                Ok(Next::Line)
            }
            Command::Plot(plot) => {
                self.plot(heap, plot, answer)?;
                Ok(Next::Line)
            }
            Command::Start => {
                writeln!(answer, "running")?;
                Ok(Next::Start)
            }
            Command::Stop => Err(Fault::Cannot(Reason::StoreIsPlotting)),
            _ => Err(Fault::Cannot(Reason::NoCode)),
        }
    }
}

// `stop` as `start`: what differs is the store's own call.
impl<C: Code + Drop> AtRunning<C> {
    pub fn stop(self) -> AtPlotting<C> {
        let AtStore { store, desk, slips } = self;
        AtStore {
            store: store.stop(),
            desk,
            slips,
        }
    }
}

impl<C: Code + Drop> Holder for AtRunning<C> {
    fn carry_out(
        &mut self,
        heap: Global,
        command: Command,
        answer: &mut Vec<u8>,
    ) -> Result<Next, Fault> {
        match command {
            Command::Serve(common) => {
                self.desk.serve(heap, &mut self.store, common, answer)?;
                Ok(Next::Line)
            }
            Command::Plot(_) | Command::Start => Err(Fault::Cannot(Reason::StoreIsRunning)),
            Command::Stop => {
                writeln!(answer, "plotting")?;
                Ok(Next::Stop)
            }
            _ => Err(Fault::Cannot(Reason::NoCode)),
        }
    }
}
