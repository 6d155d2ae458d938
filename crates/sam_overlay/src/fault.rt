//! Why an overlay refuses an edit of the user, or does not put one.

ghost use Rattle.std.specs.Prelude.{◌≡◌};
ghost use Rattle.sam_overlay.specs.Faults.{put_fault};

use sam_endpoint::{BringFault, TermStop};
use thiserror::Error;

/// Why an edit of the user is refused, in the order of the tests. After each all is as before. No lock is among them.
#[derive(Clone, Copy, Debug, PartialEq, Eq, Error)]
pub enum ReplaceFault {
    /// The session is over.
    #[error("the session is over")]
    Exited = 1,
    /// The terminal end has stopped for good.
    #[error("stopped for good")]
    Stopped = 2,
    /// There is no such file.
    #[error("no such file")]
    NoFile = 3,
    /// The command file's edits don't wait: they are put as events.
    #[error("the command file")]
    CommandFile = 4,
    /// The file is not open.
    #[error("the file is not open")]
    NotOpen = 5,
    /// The edit names a place past the end of what is shown, or a range that ends before it begins.
    #[error("no such place in the text")]
    BadPosition = 6,
    /// The rasp, what waits over it and the new runes would be too many.
    #[error("the text would be too long")]
    TooLong = 7,
    /// A request for memory was refused, now or as an edit of the file was put that has to act first: go on by steps.
    #[error("out of memory")]
    OutOfMemory = 8,
}

/// Why an edit that waits is not put. After each all is as before.
#[derive(Clone, Copy, Debug, PartialEq, Eq, Drop, Error)]
pub enum PutFault {
    /// The terminal end has stopped for good.
    #[error("stopped for good")]
    Stopped(TermStop),
    /// The text would be too long, because the host put more in meanwhile.
    #[error("the text would be too long")]
    TooLong,
    /// 2^64-1 events were taken before.
    #[error("a count is full")]
    CountFull,
    /// A request for memory was refused. The edit may be put again.
    #[error("out of memory")]
    OutOfMemory,
}

/// Why a request is not taken in, in the order of the tests. After each all is as before. No lock is among them.
#[derive(Clone, Copy, Debug, PartialEq, Eq, Drop, Error)]
pub enum AskFault {
    /// An edit that was put has to act first: go on by steps.
    #[error("an edit has to act first")]
    Waiting,
    /// `MOST_WAITING_REQUESTS` wait.
    #[error("too many requests wait")]
    TooMany,
    /// 2^32-1 groups of edits were closed while edits or requests waited.
    #[error("a count is full")]
    CountFull,
    /// A request for memory was refused.
    #[error("out of memory")]
    OutOfMemory,
}

impl PutFault {
    /// Returns the fault of an event that the end did not take.
    pub(crate) fn of(why: BringFault<TermStop>) -> PutFault
        ensures { result ≡ put_fault why }
    {
        match why {
            BringFault::Stopped(why) => PutFault::Stopped(why),
            BringFault::CountFull => PutFault::CountFull,
            BringFault::Waiting | BringFault::OutOfMemory => PutFault::OutOfMemory,
        }
    }
}
