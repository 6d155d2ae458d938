//! The fault that a session's stops are.

ghost use Rattle.std.specs.Prelude.{◌≡◌};
ghost use Rattle.sam_modes.specs.Causes.{of_stops};

use crate::fault::PlayFault;
use sam_ends::Stop;

/// Returns the fault of a session with these stops, or `None` if there are none: that of the first stop other than `PeerGone`, and
/// `Side(Stop::PeerGone)` if there is no other.
pub fn fault_of(stops: &[Stop]) -> Option<PlayFault>
    ensures { result ≡ of_stops stops.now }
{
    for stop in stops {
        match stop {
            Stop::PeerGone => {}
            Stop::Memory => return Some(PlayFault::OutOfMemory),
            Stop::Gate => return Some(PlayFault::Threads),
            Stop::Frame(n) => return Some(PlayFault::Side(Stop::Frame(*n))),
            Stop::Host(n) => return Some(PlayFault::Side(Stop::Host(*n))),
            Stop::Term(n) => return Some(PlayFault::Side(Stop::Term(*n))),
        }
    }
    match stops.first() {
        Some(_) => Some(PlayFault::Side(Stop::PeerGone)),
        None => None,
    }
}
