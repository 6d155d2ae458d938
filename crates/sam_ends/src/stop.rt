//! Why a worker of a session stops before its time.

ghost use Rattle.std.specs.Prelude.{◌≡◌, option_map};
ghost use Rattle.sam_ends.specs.Numbers.{of_fault, of_refusal, of_term_fault, of_unfed};

use sam_frame::FeedRefusal;
use sam_host::HostFault;
use sam_mesg::MesgFault;
use sam_term::TermFault;
use thiserror::Error;

/// Why a worker of a session stopped before its time. A number is that of the fault in the type that the variant names, so `Host(1)` is
/// `HostFault::NoFile`. `feed_terminal` of sam_workers and the program's modes report their stops by it, too.
#[derive(Clone, Copy, Debug, PartialEq, Eq, Error)]
pub enum Stop {
    /// The stream to the side is wrong, by a number of `FeedFault`: 1 to 3 for a wrong frame, 4 if the stream ends within a frame, 5 if
    /// the framer had failed before, 7 if the stream is too long to be counted. For the terminal's worker 1 is an event of the user that
    /// the host reader sent, and 2 a frame that doesn't fit in version 2.
    #[error("bad frame ({0})")]
    Frame(u8),
    /// The host refused a message, by a number of `HostFault`. Out of memory is `Memory`.
    #[error("refused by the host ({0})")]
    Host(u8),
    /// The terminal refused a frame, or it could not count the messages that it would compose (8), by a number of `TermFault`. Out of
    /// memory is `Memory`.
    #[error("refused by the terminal ({0})")]
    Term(u8),
    /// The host reader left before the host had ended the session. Only the terminal's worker stops for this.
    #[error("the other side is gone")]
    PeerGone,
    /// The gate did not let the worker begin, or did not let it go on.
    #[error("stopped at its gate")]
    Gate,
    /// A request for memory was refused.
    #[error("out of memory")]
    Memory,
}

impl From<MesgFault> for Stop {
    ghost from_gives = { λ why e. e ≡ of_fault why };

    fn from(why: MesgFault) -> Stop {
        match why {
            MesgFault::OutOfMemory => Stop::Memory,
            wrong => Stop::Frame(wrong.number()),
        }
    }
}

impl From<FeedRefusal> for Stop {
    ghost from_gives = { λ why e. e ≡ of_unfed why };

    fn from(why: FeedRefusal) -> Stop {
        match why {
            FeedRefusal::OutOfMemory => Stop::Memory,
            refused => Stop::Frame(refused.number()),
        }
    }
}

impl From<HostFault> for Stop {
    ghost from_gives = { λ why e. e ≡ of_refusal why };

    fn from(why: HostFault) -> Stop {
        match why {
            HostFault::OutOfMemory => Stop::Memory,
            refused => Stop::Host(refused.number()),
        }
    }
}

impl From<TermFault> for Stop {
    ghost from_gives = { λ why e. e ≡ of_term_fault why };

    fn from(why: TermFault) -> Stop {
        match why {
            TermFault::OutOfMemory => Stop::Memory,
            refused => Stop::Term(refused.number()),
        }
    }
}

/// Returns why a worker stops for the fault after what it was given, if there is one.
pub fn stop_for(fault: Option<MesgFault>) -> Option<Stop>
    ensures { result ≡ option_map of_fault fault }
{
    fault.map(Stop::from)
}
