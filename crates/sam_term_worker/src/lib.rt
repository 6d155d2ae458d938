//! The worker of the terminal: the terminal acts on what comes over the line of events, and its bytes go into the line up.
#![tactic(auto)]

mod logged_terminal;
mod term_side;

pub use term_side::run_terminal;
