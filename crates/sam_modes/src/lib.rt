//! What the modes of the program `sam_play` need besides scripts: its words and inputs, the mode `bytes`, and the fault that ends a mode.
#![tactic(auto)]

mod bytes;
mod fault;
mod input;
mod law;
mod reading;
mod start;
mod stops;
mod words;

pub use bytes::play_bytes;
pub use fault::{PlayFault, status_of};
pub use input::{read_all, write_or_tell};
pub use law::one_outcome;
pub use reading::{MOST_INPUT, PIECE};
pub use stops::fault_of;
pub use words::{ArgFault, Mode, VERSION, mode_of, usage};
