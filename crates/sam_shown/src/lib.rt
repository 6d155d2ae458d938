//! A terminal end over whose rasps edits wait, with requests between them, for front ends that keep a copy of what is shown: its changes
//! come out one by one. Begin with `ShownEnd`.
#![tactic(auto)]

mod shown_end;
mod splices;

pub use shown_end::{ShownEnd, ShownStep};
pub use splices::{Splice, SpliceKind, Splices};
