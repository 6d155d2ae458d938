//! How a line stands, as C has it, and the words that came on it.

ghost use Rattle.std.specs.Prelude.{◌≡◌, drop};
ghost use Rattle.sam_handles.specs.Buffers.{Takes};
ghost use Rattle.sam_handles.specs.LineDetails.{line_details};

use crate::line_status::{lost_status, state_number};
use sam_line::Line;

/// How a line stands: `sam_line_details` of include/sulgrevad.h.
#[repr(C)]
#[derive(Clone, Copy, Drop)]
pub struct SamLineDetails {
    /// For how many milliseconds nothing has come, though something is due.
    pub silence: u64,
    /// How many milliseconds the answer to the last question took; 0 before the first.
    pub round_trip: u64,
    /// After how many milliseconds of silence the user is to know that an answer is overdue.
    pub overdue_after: u64,
    /// How many connections failed, one after another; 6 stands for more, too.
    pub failures: u64,
    /// The number of the newest connection; 0 before the first.
    pub attempt: u64,
    /// How many bytes were put, heads of packets and questions included.
    pub put_count: u64,
    /// How many of them the host has acknowledged.
    pub acknowledged: u64,
    /// How many bytes of the host's stream have come.
    pub received: u64,
    /// The number of how it stands.
    pub state: u32,
    /// The number of the host's reason, if no connection comes any more; else 0.
    pub why: u32,
    /// Whether a host has welcomed the line.
    pub is_known: bool,
    /// Whether there is no connection, though there was one, or one has failed.
    pub is_broken: bool,
    /// Whether all that was put is acknowledged.
    pub has_all: bool,
}

/// Returns how a line stands.
pub fn details_of(line: &Line, now: u64) -> SamLineDetails
    ensures { result ≡ line_details now line.now }
{
    let link = line.link();
    SamLineDetails {
        silence: line.silence(now),
        round_trip: line.round_trip(),
        overdue_after: line.overdue_after(),
        failures: line.failures(),
        attempt: link.attempt(),
        put_count: link.put_len(),
        acknowledged: link.acknowledged(),
        received: link.received(),
        state: state_number(line.state()),
        why: lost_status(line.state()),
        is_known: link.is_known(),
        is_broken: line.is_broken(),
        has_all: line.has_all(),
    }
}

/// Copies the first of the bytes into the buffer, as many as have room, and returns how many.
pub fn fill(bytes: &[u8], into: &mut [u8]) -> usize
    ensures { Takes bytes.now into.old into.new result (drop result bytes.now) }
{
    let count = bytes.len().min(into.len());
    into[..count].copy_from_slice(&bytes[..count]);
    count
}
