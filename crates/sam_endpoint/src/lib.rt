//! The two endpoints of a session as parts of any program: bytes of the other side go in, bytes for the other side come out, and the
//! program carries them. Out of memory loses nothing: an endpoint keeps what it could not do yet, and goes on with it at the next call that
//! feeds it, puts an event or flushes.
#![tactic(auto)]

mod changes;
mod drawing;
mod duplex;
mod fault;
mod host_endpoint;
mod host_steps;
mod incoming;
mod known;
pub mod laws;
mod naming;
mod step;
mod term_endpoint;
mod term_steps;

pub use changes::{Change, Changes, Kept, Touch};
pub use drawing::{GAP, read_rasp};
pub use fault::{AddFault, EndpointFault, FinishFault, HostStop, StreamFault, TermStop};
pub use host_endpoint::HostEndpoint;
pub use naming::name_message;
pub use step::{BringFault, HostStep, NextFrame, TermStep};
pub use term_endpoint::TermEndpoint;
