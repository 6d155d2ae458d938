//! What a session of five threads came to. [`settle`] puts the five ends together: the lines are audited, and both sides are one world, to
//! which one schedule of all events leads. The law that this rests on stands in sam_apart.
#![tactic(auto)]

mod settled;
mod settling;

pub use settled::{SettleFault, Settled};
pub use settling::settle;
