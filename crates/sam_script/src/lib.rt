//! Scripts: reading them, replaying them over a world, printing what a world is like, and writing a run down as a script.
//!
//! [`Script::read`] reads the bytes of a script, [`replay`] does its lines on one thread, [`show`] prints a world, and [`run_lines`]
//! writes the script of a run. docs/reference/SCRIPTS.md gives the grammar and the lines that are printed. [`laws`] says how these fit
//! together.
#![tactic(auto)]

mod event;
mod fault;
pub mod laws;
mod line;
mod lines_of_run;
mod replaying;
mod script;
mod showing;
mod user;
mod words;

pub use fault::ScriptFault;
pub use line::{Line, Numbered};
pub use lines_of_run::run_lines;
pub use replaying::{replay, replay_bytes, replay_owned};
pub use script::Script;
pub use showing::show;
pub use user::{Clicks, Keys};
