//! A change of what is shown, as C has it, and runes that are taken back.

ghost use Rattle.std.specs.Prelude.{◌≡◌, ◌≤◌, ◌*◌, ◌++◌, drop, length};
ghost use Rattle.std.specs.Str.{encode_utf8_all};
ghost use Rattle.sam_handles.specs.Splices.{FitsWhole, HandsBack, gone_splice, handed, told_splice};

use crate::overlay_status::splice_number;
use crate::status::{NO_MEMORY, NONE, OK};
use crate::utf8::fill_utf8;
use sam_pending::{Dropped, PendingFault};
use sam_shown::{Splice, SpliceKind};

/// A change of the shown text of a file: `sam_splice` of include/sulgrevad.h.
#[repr(C)]
#[derive(Clone, Copy, Drop)]
pub struct SamSplice {
    /// A number of `sam_splice_kind`.
    pub kind: u32,
    /// The place where it begins.
    pub place: u32,
    /// How many runes or gaps it is about.
    pub count: u32,
    /// The file.
    pub tag: u16,
}

/// Returns a splice, as C has it.
pub fn told_splice(splice: Splice) -> SamSplice
    ensures { result ≡ told_splice splice }
{
    SamSplice {
        kind: splice_number(splice.kind),
        place: splice.place,
        count: splice.count,
        tag: splice.tag,
    }
}

/// Puts all runes into the buffer in UTF-8, and returns how many bytes they have. The rest of the buffer stays as it was.
fn put_whole(runes: &[char], into: &mut [u8]) -> usize
    requires { 4 * length runes.now ≤ length into.old }
    ensures count { result ≡ length (encode_utf8_all runes.now) }
    ensures bytes { into.new ≡ encode_utf8_all runes.now ++ drop result into.old }
{
    fill_utf8(runes, into).bytes
}

/// Returns the splice by which runes that were taken back went of the shown text.
fn gone_splice(tag: u16, dropped: &Dropped) -> SamSplice
    ensures { result ≡ gone_splice tag dropped.now }
{
    SamSplice {
        kind: splice_number(SpliceKind::Went),
        place: dropped.place,
        count: dropped.count,
        tag,
    }
}

/// Hands out runes that were taken back, and returns what came of it: `NONE` if there are none, `NO_MEMORY` if memory was refused.
pub fn hand_back(
    tag: u16,
    came: Result<Option<Dropped>, PendingFault>,
    splice: &mut SamSplice,
    into: &mut [u8],
    len: &mut usize,
) -> u32
    requires { FitsWhole came (length into.old) }
    ensures { HandsBack tag came (handed splice.old into.old len.old) result (handed splice.new into.new len.new) }
{
    match came {
        Ok(Some(dropped)) => {
            *splice = gone_splice(tag, &dropped);
            *len = put_whole(dropped.text.as_slice(), into);
            OK
        }
        Ok(None) => NONE,
        Err(_) => NO_MEMORY,
    }
}
