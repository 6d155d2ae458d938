//! The terminal's side of a session, without input, output or clock: a terminal's end with edits and requests that wait, and its line to
//! the host. Begin with `Client`.
#![tactic(auto)]

mod client;
mod event;
mod fault;
mod going;
mod packet;
mod replacement;

pub use client::Client;
pub use event::Event;
pub use fault::GoOnFault;
pub use going::MOST_MOVES;
pub use replacement::{Replaced, Replacement, take_together};
