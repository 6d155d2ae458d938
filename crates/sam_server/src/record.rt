//! What a server was given and took.

use sam_link::Hello;

/// What a server was given and took: the body of a record of its journal.
#[derive(Clone, Copy, Debug, PartialEq, Eq)]
pub enum Record<'a> {
    /// A file of this name and text joined, both in UTF-8.
    Joined(&'a [u8], &'a [u8]),
    /// The file of this tag was marked as dirty.
    Marked(u16),
    /// The link took a connection by this hello.
    Called(Hello),
    /// The connection of this number brought this piece, which was fed at once.
    Came(u64, &'a [u8]),
    /// The program said this message, a note of the link.
    Said(&'a [u8]),
    /// The program had acknowledged what came.
    Acknowledged,
    /// The program had the terminal asked for an acknowledgement.
    Asked,
    /// The oldest effect is done. The number says how it ended.
    Done(u64),
}

/// The first bytes of records, one for each kind.
pub(crate) const JOINED: u8 = 1;

pub(crate) const CALLED: u8 = 2;

pub(crate) const CAME: u8 = 3;

pub(crate) const SAID: u8 = 4;

pub(crate) const ACKNOWLEDGED: u8 = 5;

pub(crate) const ASKED: u8 = 6;

pub(crate) const DONE: u8 = 7;

pub(crate) const MARKED: u8 = 8;
