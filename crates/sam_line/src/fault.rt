//! Why a line does not take a piece.

use sam_link::{PacketFault, Refusal};
use thiserror::Error;

/// Why a piece of a connection is not taken.
#[derive(Clone, Copy, Debug, PartialEq, Eq, Drop, Error)]
pub enum ReceiveFault {
    /// The connection is over, or is not the newest. Nothing but the time has changed.
    #[error("the connection is over")]
    Over,
    /// A request for memory was refused. The piece counts as not taken: give the same bytes again.
    #[error("out of memory")]
    OutOfMemory,
    /// More than 65,536 bytes came before the host's hello. The connection is over.
    #[error("too many words before the hello")]
    TooManyWords,
    /// The host asks and asks, and takes no answer. The connection is over.
    #[error("too many questions")]
    TooManyAnswers,
    /// What should be the host's hello is none, or does not fit the call. The connection is over.
    #[error("a wrong hello")]
    WrongHello(Refusal),
    /// The host refuses the connection, which is over; the state says whether another is tried.
    #[error("the host refuses")]
    Refused(Refusal),
    /// 2^64-1 bytes would be passed. The connection is over.
    #[error("a count is full")]
    CountFull,
    /// A packet is wrong. The connection is over.
    #[error("a wrong packet")]
    WrongPacket(PacketFault),
    /// Bytes are acknowledged that this connection was not given. It is over.
    #[error("bytes are acknowledged that did not go")]
    AckAhead,
}
