//! The numbers by which C knows why bytes are no message, or why a message is not written: include/sulgrevad.h names them.

ghost use Rattle.std.specs.Prelude.{◌≡◌};
ghost use Rattle.sam_handles.specs.NoteStatus.{fault_status};

use sam_note::NoteFault;

/// Added to the number, from 1, of why bytes are no message, or why a message is not written.
const NOTE: u32 = 224;

/// Returns the number of why bytes are no message, or why a message is not written.
pub fn fault_status(why: NoteFault) -> u32
    ensures { result ≡ fault_status why }
{
    NOTE + why as u32
}
