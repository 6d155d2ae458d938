//! Why a file is not added, why a call is not done, and why an endpoint has stopped.

ghost use Rattle.std.specs.Prelude.{◌≡◌, ◌≢◌};
ghost use Rattle.sam_mesg.specs.Faults.{mesg_fault_number};
ghost use Rattle.sam_mesg.specs.declared.fault.MesgFault.TheVariants.{OutOfMemory};
ghost use Rattle.sam_endpoint.specs.Streams.{mesg_fault, not_taken};

use sam_host::HostFault;
use sam_mesg::MesgFault;
use sam_term::TermFault;
use thiserror::Error;

/// Why a file is not added to a host, in the order of the tests. The host is then as it was. The C library reports `TooLong` and `NoTag` by
/// their numbers, and has numbers of its own for the other two. Number 1 is not given again: it meant that the host was fed already.
#[derive(Clone, Copy, Debug, PartialEq, Eq, Drop, Error)]
pub enum AddFault {
    /// The name or the text is not UTF-8 (RFC 3629).
    #[error("not UTF-8")]
    NotText = 2,
    /// The name has more than `MOST_IN_NAME` runes, or the text more than `MAX_RUNES`.
    #[error("too long")]
    TooLong = 3,
    /// All tags were given.
    #[error("no tag")]
    NoTag = 4,
    /// A request for memory was refused. The call may be made again.
    #[error("out of memory")]
    OutOfMemory = 5,
}

/// What is wrong with a stream. The endpoint that reads it has stopped for good, since nothing after a fault can be read. The numbers are
/// those of `FeedFault`.
#[derive(Clone, Copy, Debug, PartialEq, Eq, Drop, Error)]
pub enum StreamFault {
    /// The first byte of a frame is no kind of this direction.
    #[error("an unknown kind")]
    BadKind = 1,
    /// The length of a body is none that its kind may have in the version at this place.
    #[error("a wrong length")]
    BadLength = 2,
    /// A body is whole, and is that of no message: its text is not UTF-8, or is too long.
    #[error("a wrong body")]
    BadText = 3,
}

impl StreamFault {
    /// Returns what a framer's fault is for an endpoint. A framer's fault is never `OutOfMemory`.
    pub(crate) fn of(fault: MesgFault) -> StreamFault
        requires { fault ≢ OutOfMemory }
        ensures { mesg_fault result ≡ fault }
    {
        match fault {
            MesgFault::BadKind => StreamFault::BadKind,
            MesgFault::BadLength => StreamFault::BadLength,
            MesgFault::BadText => StreamFault::BadText,
            MesgFault::OutOfMemory => unreachable!(),
        }
    }

    /// Returns the number of the fault: 1, 2 or 3.
    pub fn number(&self) -> u8
        ensures { result ≡ mesg_fault_number (mesg_fault self.now) }
    {
        *self as u8
    }
}

/// Why a host endpoint has stopped for good. What stood in the stream before the cause is answered, and its frames can be taken out.
#[derive(Clone, Copy, Debug, PartialEq, Eq, Drop, Error)]
pub enum HostStop {
    /// The terminal's stream shows this fault after the messages that were answered.
    #[error("the terminal's stream has {0}")]
    Stream(StreamFault),
    /// The host refused a message for this reason, which is never `OutOfMemory`. The messages before it were answered.
    #[error("the host refused a message: {0}")]
    Refused(HostFault),
}

/// Why a terminal endpoint has stopped for good. What stood in the stream before the cause is received, and what it composed can be taken
/// out.
#[derive(Clone, Copy, Debug, PartialEq, Eq, Drop, Error)]
pub enum TermStop {
    /// The host's stream shows this fault after the frames that were received.
    #[error("the host's stream has {0}")]
    Stream(StreamFault),
    /// The terminal refused a frame, or could not count the messages that an event or typed runes would compose (`CountFull`). The reason
    /// is never `OutOfMemory`.
    #[error("the terminal refused: {0}")]
    Refused(TermFault),
}

/// Why a call to an endpoint has not done all that it was asked. Only `Stopped` is for good. After `OutOfMemory` and `CountFull` what the
/// call brought is not taken; after `Unfinished` it is.
#[derive(Clone, Copy, Debug, PartialEq, Eq, Drop, Error)]
pub enum EndpointFault<S> {
    /// Memory was refused before what the call brought was taken: bring it again. What waited before may have gone on.
    #[error("out of memory")]
    OutOfMemory,
    /// Memory was refused after what the call brought was taken. The rest waits, and the next call that feeds, puts an event or flushes
    /// goes on with it; feeding no bytes does just that.
    #[error("out of memory, and some of it waits")]
    Unfinished,
    /// The stream would be longer than 2^64-1 bytes, or 2^64-1 events were taken before. What the call brought was not taken.
    #[error("a count is full")]
    CountFull,
    /// The endpoint has stopped for good, at this call or before. An endpoint that had stopped before is as it was.
    #[error("stopped for good")]
    Stopped(S),
}

/// Why the other side's stream may not end yet, in the order of the tests.
#[derive(Clone, Copy, Debug, PartialEq, Eq, Drop, Error)]
pub enum FinishFault<S> {
    /// The endpoint has stopped for good before.
    #[error("stopped for good")]
    Stopped(S),
    /// Some of what came waits, since memory was refused: feed no bytes until that returns `Ok`, and ask again.
    #[error("some of it waits")]
    Unfinished,
    /// The stream ends inside a message or frame.
    #[error("half a frame at the end")]
    Truncated,
}

impl<S: Copy> EndpointFault<S> {
    /// Returns the fault of a call that could not take what it brought, since what waited before could not go on: `Unfinished` becomes
    /// `OutOfMemory`.
    pub(crate) fn not_taken(self) -> EndpointFault<S>
        ensures { result ≡ not_taken self }
    {
        match self {
            EndpointFault::Unfinished => EndpointFault::OutOfMemory,
            fault => fault,
        }
    }
}
