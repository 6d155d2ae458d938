//! A session of five threads: its workers are run, and their ends are settled. The program `sam_play` by its modes: bytes in and bytes out,
//! over any reader and writer.
#![tactic(auto)]

mod plan;
mod replaying;
mod run;
mod script;
mod session;
mod tasks;
mod threading;
mod users;

pub use plan::{Plan, run_ends};
pub use replaying::play_replay;
pub use run::play;
pub use sam_ends::{
    Ends, FlagGate, Gate, HostEnd, Input, Lines, OpenGate, ReaderEnd, Starts, Stop, TermEnd,
    UserEnd,
};
pub use sam_host::host::Host;
pub use sam_mesg::{HFrame, Tmesg};
pub use sam_modes::{
    ArgFault, MOST_INPUT, Mode, PIECE, PlayFault, VERSION, mode_of, one_outcome, play_bytes,
    status_of, usage,
};
pub use sam_queue::{OutOfMemory, Post, Take};
pub use sam_runes::Runes;
pub use sam_script::{Line, Numbered, Script, ScriptFault};
pub use sam_settle::{SettleFault, Settled, settle};
pub use sam_spawn::RunFault;
pub use sam_term::event::UserEvent;
pub use sam_term::term::Terminal;
pub use sam_workers::{Fed, feed_terminal};
pub use sam_world::{Event, TermLog, World};
pub use script::script_in;
pub use session::{run_threads, run_threads_once};
