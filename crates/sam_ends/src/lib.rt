//! What the five workers of a session share, begin with and hand back. Three lines stand between them: the terminal sends bytes up to the
//! host, the host sends bytes down to the host reader, and the keyboard, the mouse and the host reader send events and frames to the
//! terminal.
//!
//! The workers stand in `sam_workers` and `sam_term_worker`. What is said of a worker's end stands here, so that a session is settled
//! without them.
#![tactic(auto)]

mod ends;
mod gate;
mod input;
mod session_lines;
mod stop;
mod tasks;

pub use ends::{Ends, HostEnd, ReaderEnd, TermEnd, UserEnd};
pub use gate::{FlagGate, Gate, HOST, KEYBOARD, MOUSE, OpenGate, READER, TERMINAL};
pub use input::Input;
pub use session_lines::{Lines, Starts};
pub use stop::{Stop, stop_for};
pub use tasks::{HostTask, ReaderTask, Tasks, TermTask, UserTask};
