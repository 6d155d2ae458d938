//! The bytes of a journal: a file that only grows, whose records are found again after a crash.
//!
//! A file is a head and records. Each record says how many bytes of the file were durable when it was made. So damage is told from the torn
//! end that a crash leaves: the disk may lose or turn only what was not durable.
#![tactic(auto)]

mod checksum;
mod finding;
mod heads;
pub mod laws;
mod reading;
mod writing;

pub use checksum::crc_32c;
pub use finding::{FRONT_BYTES, RECORD_BYTES, Record, record_at};
pub use heads::{HEAD_BYTES, head, read_head};
pub use reading::{Journal, Next, ReadFault, next_record, read};
pub use writing::{Frame, append, frame_of};
