//! Five threads: what they begin with but for the user's events is made, and the workers are started, and joined.
#![tactic(auto)]

mod run;
mod spawning;
mod tasks;
mod work;

pub use run::{RunFault, run_tasks};
pub use tasks::idle_tasks;
