// What joins share: the numbers of their parts, calls of the parts in middle parts of the lent memory, and putting the
// parts' results together.
#![tactic(auto)]

pub mod asked;
pub mod calls;
pub mod combination;
pub mod combining;
pub mod gaps;
pub mod gathering;
pub mod nearness;
pub mod numbers;
pub mod part;
pub mod placed;
pub mod showing;
