// The cue store over any code: recording, holding, wiping, touching up and recalling cues whose words stand in lent cells.
#![tactic(auto)]

pub mod kept;
pub mod making;
pub mod plotting_store;
pub mod reading;
pub mod refusals;
pub mod refusing;
pub mod running_store;
pub mod shape;
pub mod store;
pub mod symbols;
pub mod touching;
pub mod writing;

pub use plotting_store::Slip;
pub use refusals::StoreRefusal;
pub use store::{Plotting, Running, Store, Touched, WhilePlotting, WhileRunning};
