//! What a single step of an endpoint did, and why a piece is not brought.

ghost use Rattle.std.specs.Prelude.{◌≡◌};
ghost use Rattle.sam_endpoint.specs.Streams.{bring_fault};

use crate::changes::Change;
use crate::fault::EndpointFault;
use sam_term::Refusal;
use thiserror::Error;

/// What a step of a host endpoint did.
#[derive(Clone, Copy, Debug, PartialEq, Eq, Drop)]
pub enum HostStep {
    /// Nothing: no message waits, and no frame is left over.
    Idle,
    /// It wrote the frames of the last answer, whose bytes are pending now.
    Wrote,
    /// The host took messages that follow each other and type or cut in one file, all at once, with the checks (Tcheck) of open files that
    /// stand among them or behind them. The answers to the checks are left over for the next step, if there are any.
    Edited {
        /// The file that is edited.
        tag: u16,
        /// How many messages, with the checks: one at least.
        count: usize,
    },
    /// The host answered the oldest message. Its frames are left over for the next step, if there are any.
    Answered {
        /// The number of the message's kind.
        kind: u8,
        /// The file that the message names, if it names one.
        tag: Option<u16>,
    },
}

/// What a step of a terminal endpoint did. Places and counts are of runes and gaps.
#[derive(Clone, Copy, Debug, PartialEq, Eq, Drop)]
pub enum TermStep {
    /// Nothing: no frame waits, no message is left over, and no event is held.
    Idle,
    /// Nothing: no frame waits, no message is left over, and a lock holds the oldest event back.
    Locked,
    /// It wrote the messages that were composed last, whose bytes are pending now.
    Wrote,
    /// The terminal received the oldest frame. What it composed is left over for the next step, if there is any.
    Received {
        /// The number of the frame's kind.
        kind: u8,
        /// The file that the frame names, if it names one.
        tag: Option<u16>,
        /// What the frame changed in the text of that file; all zeros if nothing.
        change: Change,
    },
    /// The oldest event acted. What it composed is left over for the next step, if there is any.
    Acted {
        /// The number of the event, counted from 1 over all events that were taken.
        number: u64,
        /// The file that the event names, if it names one.
        tag: Option<u16>,
        /// What the event changed in the text of that file; all zeros if nothing.
        change: Change,
    },
    /// The terminal refused the oldest event. `next_refusal` hands the refusal out, too.
    Refused {
        /// The number of the event, counted from 1 over all events that were taken.
        number: u64,
        /// Why it was refused.
        why: Refusal,
    },
}

/// The frame that a terminal endpoint's next step receives, before it does. The place and the count are of runes and gaps.
#[derive(Clone, Copy, Debug, PartialEq, Eq, Drop)]
pub struct NextFrame {
    /// The number of the frame's kind.
    pub kind: u8,
    /// The file that the frame names, if it names one.
    pub tag: Option<u16>,
    /// The place in the text of that file where something will give way or come in; 0 if nothing changes.
    pub start: u32,
    /// How many runes or gaps will give way there.
    pub gone: u32,
}

/// What became of the oldest event of a terminal endpoint.
#[derive(Clone, Copy, Drop)]
pub(crate) enum Decision {
    /// No event is held.
    Idle,
    /// A lock holds it back.
    Locked,
    /// It acted.
    Acted,
    /// It was refused.
    Refused(Refusal),
}

/// Why a piece is not brought to an endpoint, in the order of the tests. The endpoint is then as it was.
#[derive(Clone, Copy, Debug, PartialEq, Eq, Drop, Error)]
pub enum BringFault<S> {
    /// The endpoint has stopped for good before.
    #[error("stopped for good")]
    Stopped(S),
    /// Some of what came before waits: messages or frames, what is not written yet, or a fault of the stream. Go on by steps, and bring the
    /// piece again.
    #[error("some of what came before waits")]
    Waiting,
    /// The stream would be longer than 2^64-1 bytes.
    #[error("a count is full")]
    CountFull,
    /// A request for memory was refused. The piece may be brought again.
    #[error("out of memory")]
    OutOfMemory,
}

impl<S: Copy> BringFault<S> {
    /// Returns the fault of a piece that a framer did not take.
    pub(crate) fn of(why: EndpointFault<S>) -> BringFault<S>
        ensures { result ≡ bring_fault why }
    {
        match why {
            EndpointFault::CountFull => BringFault::CountFull,
            EndpointFault::OutOfMemory => BringFault::OutOfMemory,
            EndpointFault::Unfinished => BringFault::OutOfMemory,
            EndpointFault::Stopped(why) => BringFault::Stopped(why),
        }
    }
}
