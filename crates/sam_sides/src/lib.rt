//! Two sides that hand messages to each other, as both the world and the threads speak of them: what each did, and what the terminal of a
//! session writes down of it.
#![tactic(auto)]

mod log;

pub use log::TermLog;
