//! Laws of messages, as functions that do nothing.

ghost use Rattle.std.specs.Prelude.{◌≡◌, List, ℕ};
ghost use Rattle.sam_note.specs.Laws.{ReadIsWritten, WrittenIsRead};
ghost use Rattle.sam_note.specs.Messages.{Message, Spells};

/// States that no bytes are those of two messages, not even if path, copy and text may be any bytes.
#[tactic(auto, using(crate::proofs::Whole::one_message))]
pub fn one_message()
    ensures { (a b : Message) (bytes : List ℕ) → Spells a bytes → Spells b bytes → a ≡ b }
{}

/// States that what `write_note` writes is read by `read_note` as what was written.
#[tactic(auto, using(crate::proofs::BothWays::written_is_read))]
pub fn written_is_read()
    ensures { WrittenIsRead }
{}

/// States that what `read_note` reads is written by `write_note` as the bytes that were read.
#[tactic(auto, using(crate::proofs::BothWays::read_is_written))]
pub fn read_is_written()
    ensures { ReadIsWritten }
{}
