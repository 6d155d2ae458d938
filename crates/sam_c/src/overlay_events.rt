//! What C says that the user did beside edits, where edits wait, and in the command file: include/sulgrevad.h says of each event what it
//! does.

ghost use Rattle.std.specs.Prelude.{IfSome, IsTrue};
ghost use Rattle.sam_overlay.specs.Overlays.{is_request};
ghost use Rattle.sam_c.specs.Overlays.{AsksOf, OverlayAsked, OverlayAskedOne, OverlayBroughtOne, OverlayEvent};

use sam_handles::event::{SamEvent, event_of};
use sam_handles::handle::SamOverlay;
use sam_handles::overlay_status::ask_status;
use sam_handles::status::{NO_HANDLE, NONE, read_status, term_bring_status};
use sam_handles::with_end;
use sam_runes::read_utf8;
use sam_shown::ShownEnd;
use sam_term::UserEvent;
use std::alloc::Global;

/// Brings the event to the overlay that a handle holds, and returns what came of it: `NONE` if there is none.
fn bring_one(overlay: &mut SamOverlay, event: Option<UserEvent>, alloc: Global) -> u32
    requires { IfSome event (λ x. IsTrue (is_request x)) }
    ensures { OverlayBroughtOne overlay.old.held.end event result overlay.new.held.end }
{
    with_end!(overlay alloc mut end {
        match event {
            Some(event) => term_bring_status(end.ordered.bring_event(event)),
            None => NONE,
        }
    })
}

/// Takes an event of the user that is no edit, or one of the command file, beside the requests that wait, and goes no further: it waits for
/// `sam_overlay_step`.
///
/// Returns `SAM_OK`, or in this order `SAM_NO_HANDLE`; `SAM_NOT_TEXT` if the text is not UTF-8, and `SAM_NO_MEMORY` if there is no memory
/// for its runes; `SAM_NONE` if no event has this number; then what
/// [`OrderedOverlay::bring_event`](sam_overlay::OrderedOverlay::bring_event) answers, in its order: why the terminal has stopped,
/// `SAM_WAITING`, `SAM_COUNT_FULL`, `SAM_NO_MEMORY`. After an error the overlay is as it was.
#[unsafe(no_mangle)]
pub extern "C" fn sam_overlay_bring_event(
    overlay: &mut SamOverlay,
    event: &SamEvent,
    text: &[u8],
    alloc: Global,
) -> u32
    ensures { OverlayEvent overlay.old.held.end event.now text.now result overlay.new.held.end }
{
    if !overlay.is_made() {
        return NO_HANDLE;
    }
    match read_utf8(alloc, text) {
        Ok(runes) => bring_one(overlay, event_of(event, runes), alloc),
        Err(why) => read_status(why),
    }
}

/// Has an overlay take the request, and hands out its number.
fn ask(end: &mut ShownEnd, event: UserEvent, number: &mut u64) -> u32
    requires { IsTrue (is_request event) }
    ensures { AsksOf end.old event number.old result (end.new, number.new) }
{
    let came = end.ask(event);
    if let Ok(taken) = came {
        *number = taken;
    }
    ask_status(came)
}

/// Has the overlay that a handle holds take the request, and returns what came of it: `NONE` if there is none.
fn ask_one(
    overlay: &mut SamOverlay,
    event: Option<UserEvent>,
    number: &mut u64,
    alloc: Global,
) -> u32
    requires { IfSome event (λ x. IsTrue (is_request x)) }
    ensures { OverlayAskedOne overlay.old.held.end event number.old result number.new overlay.new.held.end }
{
    with_end!(overlay alloc mut end {
        match event {
            Some(event) => ask(&mut end, event, number),
            None => NONE,
        }
    })
}

/// Takes an event of the user that is no edit, or one of the command file, in behind the edits and requests that wait. It acts once
/// `sam_overlay_act_next` has its turn, and finds what is shown now. Hands out the number of the request, counted from 1 over those that
/// were taken: `sam_overlay_step` tells once that it acted, or was refused. A write that shares one that waits has the number of that.
///
/// Returns `SAM_OK`, or in this order `SAM_NO_HANDLE`; `SAM_NOT_TEXT` if the text is not UTF-8, and `SAM_NO_MEMORY` if there is no memory
/// for its runes; `SAM_NONE` if no event has this number; what [`ShownEnd::ask`](sam_shown::ShownEnd::ask) answers, in its order:
/// `SAM_COUNT_FULL` if 2^64-1 requests were taken, `SAM_WAITING`, `SAM_TOO_MANY`, `SAM_COUNT_FULL`, `SAM_NO_MEMORY`. After an error the
/// overlay and the number are as they were.
#[unsafe(no_mangle)]
pub extern "C" fn sam_overlay_ask(
    overlay: &mut SamOverlay,
    event: &SamEvent,
    text: &[u8],
    number: &mut u64,
    alloc: Global,
) -> u32
    ensures { OverlayAsked overlay.old.held.end event.now text.now number.old result number.new overlay.new.held.end }
{
    if !overlay.is_made() {
        return NO_HANDLE;
    }
    match read_utf8(alloc, text) {
        Ok(runes) => ask_one(overlay, event_of(event, runes), number, alloc),
        Err(why) => read_status(why),
    }
}
