//! Why something is not asked for.

ghost use Rattle.std.specs.Prelude.{◌≡◌};
ghost use Rattle.sam_front.specs.Fronts.{put_fault, write_fault};

use sam_link::NoteFault;
use sam_note::NoteFault as MessageFault;
use sam_overlay::AskFault;
use thiserror::Error;

/// Why the host's program is not asked. No task is begun, but what was composed may have gone into the line.
#[derive(Clone, Copy, Debug, PartialEq, Eq, Drop, Error)]
pub enum BeginFault {
    /// As many tasks are open as may be.
    #[error("too many tasks are open")]
    TooMany,
    /// The order has no tag, or no path, and one is given.
    #[error("a field that the order has not")]
    BadField,
    /// The message would have more bytes than a message may have.
    #[error("the path is too long")]
    BadLength,
    /// A byte of the path is 0.
    #[error("the path has a zero byte")]
    BadPath,
    /// A count would pass its limit.
    #[error("a count is full")]
    CountFull,
    /// A request for memory was refused.
    #[error("out of memory")]
    OutOfMemory,
}

impl BeginFault {
    /// Returns the fault of a message that is not written. No text is written, so that a text is never why.
    pub(crate) fn of_message(why: MessageFault) -> BeginFault
        ensures { result ≡ write_fault why }
    {
        match why {
            MessageFault::BadField | MessageFault::BadKind | MessageFault::BadText =>
                BeginFault::BadField,
            MessageFault::BadLength => BeginFault::BadLength,
            MessageFault::BadPath => BeginFault::BadPath,
        }
    }

    /// Returns the fault of a message that the line did not take. That it is too long is never why.
    pub(crate) fn of_note(why: NoteFault) -> BeginFault
        ensures { result ≡ put_fault why }
    {
        match why {
            NoteFault::TooLong => BeginFault::BadLength,
            NoteFault::CountFull => BeginFault::CountFull,
            NoteFault::OutOfMemory => BeginFault::OutOfMemory,
        }
    }
}

/// Why a write is not asked for. All is as before.
#[derive(Clone, Copy, Debug, PartialEq, Eq, Drop, Error)]
pub enum WriteFault {
    /// No task is begun.
    #[error("no task is begun")]
    Begin(BeginFault),
    /// The client doesn't take the request.
    #[error("the request is not taken")]
    Ask(AskFault),
}

/// Why a command line is not asked for.
#[derive(Clone, Copy, Debug, PartialEq, Eq, Drop, Error)]
pub enum RunFault {
    /// It has a newline inside.
    #[error("a newline in a command line")]
    NotLine,
    /// The file is not open, a request waits that closes it, it is the command file, or the session is over.
    #[error("the file is not open")]
    NotOpen,
    /// It has more than `MOST_LINE` runes.
    #[error("the command line is too long")]
    TooLong,
    /// The client doesn't take a request of it.
    #[error("a request is not taken")]
    Ask(AskFault),
}
