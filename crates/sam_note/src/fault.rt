//! Why bytes are no message, and why a message is not written.

use thiserror::Error;

/// Why bytes are no message, or why a message is not written. The reasons are tested in this order. Reading tests all but `BadField`,
/// which no bytes can show, and writing all but `BadKind`, which no [`crate::NoteKind`] has.
#[derive(Clone, Copy, Debug, PartialEq, Eq, Drop, Error)]
pub enum NoteFault {
    /// The first byte is the number of no kind.
    #[error("no such kind of message")]
    BadKind = 1,
    /// A field that the kind has not is not 0, or not empty.
    #[error("a field that the kind has not")]
    BadField = 2,
    /// Read: there are fewer bytes than the fields have, or more, or more than a message may have. Written: the message has more bytes than
    /// it may have, or than there is room for.
    #[error("no such length for this message")]
    BadLength = 3,
    /// A byte of the path or of the copy is 0.
    #[error("a zero byte in a path")]
    BadPath = 4,
    /// The text is not UTF-8 (RFC 3629).
    #[error("the text is not UTF-8")]
    BadText = 5,
}
