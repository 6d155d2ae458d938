//! Why a server does not take what it is given.

use crate::turn::Stop;
use thiserror::Error;

/// Why a call of a server has not done all that it was asked, in the order of the tests. Only `Stopped` is for good.
#[derive(Clone, Copy, Debug, PartialEq, Eq, Drop, Error)]
pub enum CallFault<F> {
    /// The server has stopped for good, at this call or before.
    #[error("stopped for good")]
    Stopped(Stop),
    /// Something that was taken before is not done to its end, since memory was refused: call `go_on`. What the call brought is not taken.
    #[error("some of what came before waits")]
    Waiting,
    /// Memory was refused before what the call brought was taken. It may be brought again.
    #[error("out of memory")]
    OutOfMemory,
    /// What the call brought is not taken, for this reason.
    #[error("refused")]
    Refused(F),
    /// Memory was refused after what the call brought was taken. The rest waits for `go_on`.
    #[error("out of memory, and some of it waits")]
    Unfinished,
}

/// Why a server has not gone on to the end of what it took.
#[derive(Clone, Copy, Debug, PartialEq, Eq, Drop, Error)]
pub enum GoOnFault {
    /// The server has stopped for good, at this call or before.
    #[error("stopped for good")]
    Stopped(Stop),
    /// Memory was refused. The rest waits for another `go_on`.
    #[error("out of memory, and some of it waits")]
    Unfinished,
}

/// No effect waits to be done. Nothing has changed.
#[derive(Clone, Copy, Debug, PartialEq, Eq, Drop, Error)]
#[error("no effect waits")]
pub struct NoEffect;

/// Why another server doesn't begin with the texts of this one, in the order of the tests. Nothing has changed.
#[derive(Clone, Copy, Debug, PartialEq, Eq, Drop, Error)]
pub enum HeirFault {
    /// Something that was taken is not done to its end, since memory was refused: call `go_on` before.
    #[error("some of what came before waits")]
    Waiting,
    /// An effect waits, and messages may wait behind it: let it be done before.
    #[error("an effect waits")]
    EffectWaits,
    /// Memory was refused.
    #[error("out of memory")]
    OutOfMemory,
}
