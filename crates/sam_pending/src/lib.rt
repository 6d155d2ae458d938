//! Edits that wait: a layer over a rasp. What the user does is shown at once, and comes to the rasp once the file is free. Begin with
//! `Pending`; `sam_waiting` says what is true of the cells that its clauses speak of.
#![tactic(auto)]

mod block;
mod blocks;
mod due;
mod fault;
mod frames;
mod marks;
mod part;
mod pending;
mod places;
mod run;
mod runs;
mod sums;
mod told;

pub use fault::PendingFault;
pub use pending::Pending;
pub use told::{Dropped, Filling, Prepared, Removal, Shown};
