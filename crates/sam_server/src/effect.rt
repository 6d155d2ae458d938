//! What the program of a server is asked to do.

/// What the program is asked to do.
#[derive(Debug, PartialEq, Eq, Drop)]
pub enum Effect {
    /// The saved text of the file of this tag is to be written (Twrite).
    Write(u16),
    /// The terminal's program said this message, a note of the link.
    Hear(Vec<u8>),
    /// The terminal closed a file that was dirty (Tclose). The host has no file of this tag any more, so this has what it held last.
    Close {
        /// The tag that the file had. No other file gets it.
        tag: u16,
        /// Its name, in UTF-8.
        name: Vec<u8>,
        /// Its text, in UTF-8.
        text: Vec<u8>,
    },
}
