//! What C takes back of an overlay: runes that wait, and for which the host left no room.

ghost use Rattle.std.specs.Prelude.{◌≤◌, ◌*◌, length};
ghost use Rattle.sam_overlay.specs.Calls.{waiting_at};
ghost use Rattle.sam_handles.specs.Splices.{handed};
ghost use Rattle.sam_c.specs.Overlays.{OverlayDropped, TakesBack};

use sam_handles::handle::SamOverlay;
use sam_handles::splice::{SamSplice, hand_back};
use sam_handles::status::{NO_ROOM, WAITING};
use sam_handles::with_end;
use sam_shown::ShownEnd;
use std::alloc::Global;

/// Takes back the next runes that wait over a file, if the host left no room for them, and hands them out.
#[tactic(auto, using(sam_handles::proofs::DropLaws::back_facts))]
fn take_back(
    end: &mut ShownEnd,
    tag: u16,
    splice: &mut SamSplice,
    into: &mut [u8],
    len: &mut usize,
) -> u32
    requires { 4 * waiting_at end.old.ordered.overlay tag ≤ length into.old }
    ensures { TakesBack end.old tag (handed splice.old into.old len.old) result (handed splice.new into.new len.new) end.new }
{
    let came = end.ordered.drop_next(tag);
    hand_back(tag, came, splice, into, len)
}

/// Takes back the next runes that wait over a file, where `sam_overlay_put_next` refuses them as too long, and hands them out in UTF-8 with
/// the splice by which they went of what is shown.
///
/// Returns `SAM_OK`, or in this order `SAM_NO_HANDLE`; `SAM_WAITING` if splices of the last step are left; `SAM_NO_ROOM` if the buffer has
/// less than four bytes for each rune that `sam_overlay_waiting` counts; `SAM_NONE` where `sam_overlay_put_next` answers otherwise;
/// `SAM_NO_MEMORY`. After an error the overlay, and what the other arguments lead to, is as it was.
#[unsafe(no_mangle)]
pub extern "C" fn sam_overlay_drop_next(
    overlay: &mut SamOverlay,
    tag: u16,
    splice: &mut SamSplice,
    into: &mut [u8],
    len: &mut usize,
    alloc: Global,
) -> u32
    ensures { OverlayDropped overlay.old.held.end tag (handed splice.old into.old len.old) result (handed splice.new into.new len.new)
        overlay.new.held.end }
{
    with_end!(overlay alloc mut end {
        if !end.splices.is_empty() {
            WAITING
        } else if into.len() < end.overlay().waiting(tag) as usize * 4 {
            NO_ROOM
        } else {
            take_back(&mut end, tag, splice, into, len)
        }
    })
}
