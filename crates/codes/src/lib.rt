// The interface of every code, and what codes share: refusals, moving bytes in lent memory, counting damage, calls in a row.
#![tactic(auto)]

pub mod code;
pub mod memory;
pub mod refusals;
pub mod tolls;
pub mod trips;
