//! What a client tells its program.

use sam_overlay::OverlayStep;
use sam_term::Refusal;

/// What a client tells as it goes on.
#[derive(Drop)]
pub enum Event {
    /// The terminal's end received a frame of the host, or an event of the user acted; what is shown may have changed by it.
    Stepped(OverlayStep),
    /// `(number, why)`: the terminal refused the request of this number, counted from 1 over all events that were taken, edits that were
    /// put among them.
    Refused(u64, Refusal),
    /// A note of the host's program came, which `Client::note` lends. All bytes in front of it are received.
    Note,
    /// Something moved that is not told, and more may: call again.
    Busy,
    /// Nothing moves until the host or the user does something.
    Idle,
}
