//! A message, as it is read and as it is written.

use crate::kind::NoteKind;

/// The most bytes that a message has: those of the longest note of a link.
pub const MOST_BYTES: usize = 4096;

/// The kind of a message, and its numbers. A number that the kind has not is 0.
#[derive(Clone, Copy, Debug, PartialEq, Eq, Drop)]
pub struct Head {
    /// Its kind.
    pub kind: NoteKind,
    /// The number that the terminal gave a request; 0 if no request asked for this.
    pub request: u32,
    /// The tag of a file.
    pub tag: u16,
    /// What happened, or why: docs/reference/SESSION.md lists the codes.
    pub code: u8,
    /// A version, a line, a time, another tag or a status, as the kind says.
    pub number: u64,
}

/// Where bytes stand in those of a message. Of none it says 0 and 0.
#[derive(Clone, Copy, Debug, PartialEq, Eq, Drop)]
pub struct Place {
    /// How many bytes stand before them.
    pub start: usize,
    /// How many there are.
    pub len: usize,
}

/// A message that was read. What its kind has not is 0 or empty.
#[derive(Clone, Copy, Debug, PartialEq, Eq, Drop)]
pub struct Note {
    /// Its kind and its numbers.
    pub head: Head,
    /// Where the path stands.
    pub path: Place,
    /// Where the second path stands.
    pub copy: Place,
    /// Where the text stands.
    pub text: Place,
}
