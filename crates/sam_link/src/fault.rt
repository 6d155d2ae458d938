//! Why a call of a link is refused.

use crate::hello::Refusal;
use crate::reading::PacketFault;
use thiserror::Error;

/// Why a terminal does not call. Nothing has changed.
#[derive(Clone, Copy, Debug, PartialEq, Eq, Drop, Error)]
pub enum CallFault {
    /// A host takes connections.
    #[error("a host makes no calls")]
    WrongRole,
    /// There were 2^64-1 connections.
    #[error("a count is full")]
    CountFull,
}

/// Why a host does not take a connection. Nothing has changed.
#[derive(Clone, Copy, Debug, PartialEq, Eq, Drop, Error)]
pub enum AnswerFault {
    /// A terminal makes calls.
    #[error("a terminal answers no calls")]
    WrongRole,
    /// The other side is to be told so.
    #[error("refused")]
    Refused(Refusal),
}

/// Why a terminal does not take a host's hello. Nothing has changed.
#[derive(Clone, Copy, Debug, PartialEq, Eq, Drop, Error)]
pub enum WelcomeFault {
    /// A host takes connections.
    #[error("a host is not welcomed")]
    WrongRole,
    /// No call waits for a welcome.
    #[error("no call is open")]
    NotOpen,
    /// The host refuses the call.
    #[error("the host refuses")]
    ByHost(Refusal),
    /// The hello can't be an answer to the call.
    #[error("a wrong welcome")]
    Here(Refusal),
}

/// The connection is over, or is not the newest. Nothing has changed.
#[derive(Clone, Copy, Debug, PartialEq, Eq, Drop, Error)]
#[error("the connection is over")]
pub struct NotOpen;

/// Why a piece is not taken.
#[derive(Clone, Copy, Debug, PartialEq, Eq, Drop, Error)]
pub enum FeedFault {
    /// The connection is not open, or is not the newest. Nothing has changed.
    #[error("the connection is over")]
    NotOpen,
    /// 2^64-1 bytes would be passed. Nothing has changed.
    #[error("a count is full")]
    CountFull,
    /// A request for memory was refused. Nothing has changed, and the piece may be fed again.
    #[error("out of memory")]
    OutOfMemory,
    /// A packet is wrong. The connection is over, and nothing else has changed.
    #[error("a wrong packet")]
    Wrong(PacketFault),
    /// Bytes are acknowledged that this connection was not given. It is over, and nothing else has changed.
    #[error("bytes are acknowledged that did not go")]
    AckAhead,
}

/// Why a note is not put. Nothing has changed.
#[derive(Clone, Copy, Debug, PartialEq, Eq, Drop, Error)]
pub enum NoteFault {
    /// A note has at most 4,096 bytes.
    #[error("a note of over 4,096 bytes")]
    TooLong,
    /// 2^64-1 bytes would be passed.
    #[error("a count is full")]
    CountFull,
    /// A request for memory was refused.
    #[error("out of memory")]
    OutOfMemory,
}
