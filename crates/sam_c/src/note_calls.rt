//! What C calls to read and write a message of a session: include/sulgrevad.h says what each call does. Neither takes a handle. A call
//! returns a number of `sam_status`; after each refusal what its other arguments lead to is as it was.

ghost use Rattle.std.specs.Prelude.{◌≡◌};
ghost use Rattle.sam_c.specs.Notes.{NoteRead, NoteWritten, told_note};

use sam_handles::note_status::fault_status;
use sam_handles::status::OK;
use sam_note::{Head, Note, NoteFault, NoteKind, read_note, write_note};

/// A message: `sam_note` of include/sulgrevad.h.
#[repr(C)]
#[derive(Clone, Copy, Drop)]
pub struct SamNote {
    /// The number of its kind.
    pub kind: u8,
    /// What happened, or why.
    pub code: u8,
    /// The tag of a file.
    pub tag: u16,
    /// The number that the terminal gave a request.
    pub request: u32,
    /// A version, a line, a time, another tag or a status.
    pub number: u64,
    /// How many bytes stand before the path.
    pub path_at: usize,
    /// How many bytes it has.
    pub path_len: usize,
    /// How many bytes stand before the second path.
    pub copy_at: usize,
    /// How many bytes it has.
    pub copy_len: usize,
    /// How many bytes stand before the text.
    pub text_at: usize,
    /// How many bytes it has.
    pub text_len: usize,
}

/// Returns a message that was read, as C has it.
fn told_note(note: &Note) -> SamNote
    ensures { result ≡ told_note note.now }
{
    SamNote {
        kind: note.head.kind.number(),
        code: note.head.code,
        tag: note.head.tag,
        request: note.head.request,
        number: note.head.number,
        path_at: note.path.start,
        path_len: note.path.len,
        copy_at: note.copy.start,
        copy_len: note.copy.len,
        text_at: note.text.start,
        text_len: note.text.len,
    }
}

/// Reads the message that the bytes spell, all of them, and says where its path, copy and text stand among them.
///
/// Errors, in the order of [`read_note`]: `SAM_NOTE_BAD_KIND`, `SAM_NOTE_BAD_LENGTH`, `SAM_NOTE_BAD_PATH`, `SAM_NOTE_BAD_TEXT`.
#[unsafe(no_mangle)]
pub extern "C" fn sam_note_read(bytes: &[u8], note: &mut SamNote) -> u32
    ensures { NoteRead bytes.now result note.old note.new }
{
    match read_note(bytes) {
        Ok(read) => {
            *note = told_note(&read);
            OK
        }
        Err(why) => fault_status(why),
    }
}

/// Writes a message at the front of the buffer, and hands out how many bytes it has. What stands behind them is as it was. Of the note the
/// lengths are not read, nor where path, copy and text stood: these are the bytes that are lent.
///
/// Errors, in this order: `SAM_NOTE_BAD_KIND`; then those of [`write_note`], `SAM_NOTE_BAD_FIELD`, `SAM_NOTE_BAD_LENGTH`,
/// `SAM_NOTE_BAD_PATH`, `SAM_NOTE_BAD_TEXT`.
#[unsafe(no_mangle)]
pub extern "C" fn sam_note_write(
    note: &SamNote,
    path: &[u8],
    copy: &[u8],
    text: &[u8],
    into: &mut [u8],
    len: &mut usize,
) -> u32
    ensures { NoteWritten note.now path.now copy.now text.now result into.old into.new len.old len.new }
{
    let Some(kind) = NoteKind::of_number(note.kind) else {
        return fault_status(NoteFault::BadKind);
    };
    let head = Head {
        kind,
        request: note.request,
        tag: note.tag,
        code: note.code,
        number: note.number,
    };
    match write_note(&head, path, copy, text, into) {
        Ok(count) => {
            *len = count;
            OK
        }
        Err(why) => fault_status(why),
    }
}
