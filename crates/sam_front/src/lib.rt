//! What a front end calls: a client that knows what its host's program still has to answer, and loads texts by itself. Begin with `Front`.
#![tactic(auto)]

mod fault;
mod front;
mod loader;
mod loading;
mod running;
mod runs;
mod tasks;
mod told;

pub use fault::{BeginFault, RunFault, WriteFault};
pub use front::Front;
pub use loader::{
    BREAK, FIRST_SLICE, LEAST_SLICE, Loader, MOST_HOLES, MOST_SLICE, Next, PAGE, PAUSE, REST,
    SLICE_TIME, Seen, Slice, Stretch,
};
pub use runs::{MOST_KEPT, MOST_LINE, MOST_PRINTED, MOST_RUNS, Ran, Run, RunState, Runs};
pub use tasks::{MOST_TASKS, Task, Tasks};
pub use told::{Order, Refused, Told};
