//! The messages of a session: how each is spelled in the bytes of a note of the link.
//!
//! A message is one byte of kind, and then those of seven fields that its kind has, in one order for all kinds: a request, a tag, a code,
//! a number, two paths and a text. Numbers have their highest byte first; a path and a text begin with two bytes of length.
//! `src/kind.rt` says which fields each kind has, and docs/reference/SESSION.md what the messages mean.
//!
//! Nothing here takes memory: what is read says where path, copy and text stand in the bytes, and what is written goes into the bytes of
//! the caller.
//!
//! ```rust
//! let len = write_note(&head, path, copy, text, &mut bytes)?;
//! let note = read_note(&bytes[..len])?;
//! let path = &bytes[note.path.start..note.path.start + note.path.len];
//! ```
#![tactic(auto)]

mod fault;
mod kind;
mod laws;
mod note;
mod reading;
mod writing;

pub use fault::NoteFault;
pub use kind::{Fields, NoteKind};
pub use laws::{one_message, read_is_written, written_is_read};
pub use note::{Head, MOST_BYTES, Note, Place};
pub use reading::read_note;
pub use writing::write_note;
