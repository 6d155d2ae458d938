//! A server: a host and its end of a link, which go on after a crash from records of what they took.
//!
//! [`DurableServer`] takes what it is given, one record a call, and lets nothing go out that a record decides which is not durable. A
//! record is of an input that was taken, so the records alone decide all that a server answers: sam_served has the laws.
//!
//! A record that is read lies in the bytes that it was read from; only one that is written takes memory.
//!
//! ```rust
//! write_record(&mut body, Record::Came(attempt, piece))?;
//! let record = read_record(body.as_slice());
//! ```
#![tactic(auto)]

mod effect;
mod fault;
mod foreseeing;
mod gate;
mod giving;
mod heir;
mod host_link;
mod laws;
mod reading;
mod record;
mod recovery;
mod retaking;
mod server;
mod telling;
mod turn;
mod utf8;
mod writing;

pub use effect::Effect;
pub use fault::{CallFault, GoOnFault, HeirFault, NoEffect};
pub use gate::{Gate, Mark};
pub use laws::{one_is_made, one_record};
pub use reading::read_record;
pub use record::Record;
pub use recovery::{Recovery, RecoveryFault};
pub use server::DurableServer;
pub use turn::Stop;
pub use writing::write_record;
