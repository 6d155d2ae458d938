//! What C calls of an overlay beside its events: include/sulgrevad.h says of each call what it does. A call returns a number of
//! `sam_status`; after `SAM_NO_HANDLE`, `SAM_NONE` and each refusal what its other arguments lead to is as it was.

ghost use Rattle.std.specs.Prelude.{◌≡◌, length, min, take, drop, ◌++◌};
ghost use Rattle.sam_handles.specs.Calls.{Freed};
ghost use Rattle.sam_c.specs.Overlays.{OverlayActed, OverlayBrought, OverlayFinished, OverlayMade, OverlayNextRefusal, OverlayNextSplice, OverlayPut};
ghost use Rattle.sam_c.specs.Overlays.{OverlayReplaced, OverlayReplacedBy, OverlayStepped, OverlayTaken, did_of_shown, over_end};

use sam_handles::did::{SamDid, did_of_term};
use sam_handles::handle::SamOverlay;
use sam_handles::overlay_status::{put_fault, put_number, replace_fault, turn_number};
use sam_handles::splice::{SamSplice, told_splice};
use sam_handles::status::{
    MADE, NO_HANDLE, NO_MEMORY, NONE, OK, WAITING, read_status, refusal_status, term_bring_status,
    term_finish_status, term_status,
};
use sam_handles::with_end;
use sam_runes::read_utf8;
use sam_shown::{ShownEnd, ShownStep};
use std::alloc::Global;

/// Makes an overlay over a terminal that knows no file. Errors, in this order: `SAM_MADE` if the handle is made already; `SAM_NO_MEMORY`.
/// After an error the handle is as it was.
#[unsafe(no_mangle)]
pub extern "C" fn sam_overlay_new(overlay: &mut SamOverlay, alloc: Global) -> u32
    ensures { OverlayMade overlay.old.held.end result overlay.new.held.end }
{
    if overlay.is_made() {
        return MADE;
    }
    let Ok(end) = Box::new(alloc, ShownEnd::new(alloc)) else {
        return NO_MEMORY;
    };
    overlay.put(end);
    OK
}

/// Frees an overlay, with what waits and what is pending. The handle is then empty. `SAM_NO_HANDLE` if it is empty already.
#[unsafe(no_mangle)]
pub extern "C" fn sam_overlay_free(overlay: &mut SamOverlay, alloc: Global) -> u32
    ensures { Freed overlay.old.held.end result overlay.new.held.end }
{
    match overlay.take(alloc) {
        Some(_end) => OK,
        None => NO_HANDLE,
    }
}

/// Takes bytes of the host's frames, in whatever pieces they come: the frames that are whole with them wait for `sam_overlay_step`.
///
/// Returns `SAM_OK`, or in this order `SAM_NO_HANDLE`; what [`OrderedOverlay::bring`](sam_overlay::OrderedOverlay::bring) answers: why the
/// terminal has stopped, `SAM_WAITING`, `SAM_COUNT_FULL`, `SAM_NO_MEMORY`. After an error the overlay is as it was.
#[unsafe(no_mangle)]
pub extern "C" fn sam_overlay_bring(overlay: &mut SamOverlay, bytes: &[u8], alloc: Global) -> u32
    ensures { OverlayBrought overlay.old.held.end bytes.now result overlay.new.held.end }
{
    with_end!(overlay alloc mut end { term_bring_status(end.ordered.bring(bytes)) })
}

/// Returns what a step did, as C has it, with the number of the request that acted or was refused.
fn did_of_shown(shown: ShownStep) -> SamDid
    ensures { result ≡ did_of_shown shown }
{
    SamDid {
        request: shown.request,
        ..did_of_term(shown.step)
    }
}

/// Goes on by one step with what waits, and hands out what the terminal did. `sam_overlay_next_splice` then hands out how what is shown
/// changed.
///
/// Returns `SAM_OK`, or in this order `SAM_NO_HANDLE`; `SAM_WAITING` if splices of an earlier step are left; what
/// [`ShownEnd::step`](sam_shown::ShownEnd::step) answers: why the terminal has stopped, at this call or before, or `SAM_UNFINISHED` if
/// memory was refused and nothing has changed.
#[unsafe(no_mangle)]
pub extern "C" fn sam_overlay_step(overlay: &mut SamOverlay, did: &mut SamDid, alloc: Global) -> u32
    ensures { OverlayStepped overlay.old.held.end did.old result did.new overlay.new.held.end }
{
    with_end!(overlay alloc mut end {
        if end.splices.is_empty() {
            match end.step() {
                Ok(step) => {
                    *did = did_of_shown(step);
                    OK
                }
                Err(why) => term_status(Err(why)),
            }
        } else {
            WAITING
        }
    })
}

/// Hands out the next change of what is shown by the last step. `SAM_NO_HANDLE` if the handle is empty; `SAM_NONE` if none is left.
#[unsafe(no_mangle)]
pub extern "C" fn sam_overlay_next_splice(
    overlay: &mut SamOverlay,
    splice: &mut SamSplice,
    alloc: Global,
) -> u32
    ensures { OverlayNextSplice overlay.old.held.end splice.old result splice.new overlay.new.held.end }
{
    with_end!(overlay alloc mut end {
        match end.splices.next() {
            Some(next) => {
                *splice = told_splice(next);
                OK
            }
            None => NONE,
        }
    })
}

/// Puts the runes in the place of what is shown of a file from the place `start` to the place `end`, in the overlay that a handle holds.
fn replace(
    overlay: &mut SamOverlay,
    tag: u16,
    range: (u32, u32),
    runes: &[char],
    alloc: Global,
) -> u32
    ensures { OverlayReplacedBy overlay.old.held.end tag range runes.now result overlay.new.held.end }
{
    with_end!(overlay alloc mut end {
        if end.splices.is_empty() {
            match end.replace(tag, range.0, range.1, runes) {
                Ok(()) => OK,
                Err(why) => replace_fault(end.overlay().end().stopped(), why),
            }
        } else {
            WAITING
        }
    })
}

/// Puts a text in the place of what is shown of a file from the place `start` to the place `end`. It is shown at once, and waits until
/// `sam_overlay_put_next` puts it.
///
/// Returns `SAM_OK`, or in this order `SAM_NO_HANDLE`; `SAM_NOT_TEXT` if the text is not UTF-8, and `SAM_NO_MEMORY` if there is no memory
/// for its runes; `SAM_WAITING` if splices of the last step are left; what [`ShownEnd::replace`](sam_shown::ShownEnd::replace) answers, by
/// the numbers `SAM_REFUSAL..`. After an error the overlay is as it was.
#[unsafe(no_mangle)]
pub extern "C" fn sam_overlay_replace(
    overlay: &mut SamOverlay,
    tag: u16,
    start: u32,
    end: u32,
    text: &[u8],
    alloc: Global,
) -> u32
    ensures { OverlayReplaced overlay.old.held.end tag (start, end) text.now result overlay.new.held.end }
{
    if !overlay.is_made() {
        return NO_HANDLE;
    }
    match read_utf8(alloc, text) {
        Ok(runes) => replace(overlay, tag, (start, end), runes.as_slice(), alloc),
        Err(why) => read_status(why),
    }
}

/// Has the oldest request act, if all edits before it are put and it can act at once, and hands out what became of it.
///
/// Returns `SAM_OK`, or in this order `SAM_NO_HANDLE`; what [`OrderedOverlay::act_next`](sam_overlay::OrderedOverlay::act_next) answers:
/// why the terminal has stopped, `SAM_COUNT_FULL`, `SAM_NO_MEMORY`. After an error the overlay is as it was.
#[unsafe(no_mangle)]
pub extern "C" fn sam_overlay_act_next(
    overlay: &mut SamOverlay,
    turn: &mut u32,
    alloc: Global,
) -> u32
    ensures { OverlayActed overlay.old.held.end turn.old result turn.new overlay.new.held.end }
{
    with_end!(overlay alloc mut end {
        match end.ordered.act_next() {
            Ok(came) => {
                *turn = turn_number(came);
                OK
            }
            Err(why) => put_fault(why),
        }
    })
}

/// Puts the next edit of what waits over a file as an event, if it can act at once and no request that concerns the file stands before it,
/// and hands out what became of it.
///
/// Returns `SAM_OK`, or in this order `SAM_NO_HANDLE`; what [`OrderedOverlay::put_next`](sam_overlay::OrderedOverlay::put_next) answers:
/// why the terminal has stopped, `SAM_REFUSAL_TOO_LONG`, `SAM_COUNT_FULL`, `SAM_NO_MEMORY`. After an error the overlay is as it was.
#[unsafe(no_mangle)]
pub extern "C" fn sam_overlay_put_next(
    overlay: &mut SamOverlay,
    tag: u16,
    put: &mut u32,
    alloc: Global,
) -> u32
    ensures { OverlayPut overlay.old.held.end tag put.old result put.new overlay.new.held.end }
{
    with_end!(overlay alloc mut end {
        match end.ordered.put_next(tag) {
            Ok(came) => {
                *put = put_number(came);
                OK
            }
            Err(why) => put_fault(why),
        }
    })
}

/// Says whether the host's stream may end here: to be asked where the input of the terminal has ended. It changes nothing. Its errors are
/// those of `sam_term_finish`, in its order.
#[unsafe(no_mangle)]
pub extern "C" fn sam_overlay_finish(overlay: &mut SamOverlay, alloc: Global) -> u32
    ensures told { OverlayFinished overlay.old.held.end result }
    ensures kept { overlay.new.held.end ≡ overlay.old.held.end }
{
    with_end!(overlay alloc end { term_finish_status(end.overlay().end().finish()) })
}

/// Moves the first pending bytes of an end into the buffer, as many as it has room for, and returns how many.
fn take_out(end: &mut ShownEnd, into: &mut [u8]) -> usize
    ensures count { result ≡ min (length end.old.ordered.overlay.end.pending_bytes) (length into.old) }
    ensures bytes { into.new ≡ take result end.old.ordered.overlay.end.pending_bytes ++ drop result into.old }
    ensures rest { end.new ≡ over_end end.old (record end.old.ordered.overlay.end {
      pending_bytes = drop result end.old.ordered.overlay.end.pending_bytes;
    }) }
{
    let pending = end.overlay().end().pending_bytes();
    let count = pending.len().min(into.len());
    into[..count].copy_from_slice(&pending[..count]);
    end.ordered.consume(count);
    count
}

/// Moves the first pending bytes into the buffer, as many as it has room for, and hands out how many. `SAM_NO_HANDLE` if the handle is
/// empty.
#[unsafe(no_mangle)]
pub extern "C" fn sam_overlay_take_out(
    overlay: &mut SamOverlay,
    into: &mut [u8],
    count: &mut usize,
    alloc: Global,
) -> u32
    ensures { OverlayTaken overlay.old.held.end into.old into.new count.old result count.new overlay.new.held.end }
{
    with_end!(overlay alloc mut end { *count = take_out(&mut end, into); OK })
}

/// Hands out the oldest refused event that was not handed out yet: which one, counted from 1 over all events, edits that were put among
/// them, and why (`SAM_REFUSAL..`). `SAM_NO_HANDLE` if the handle is empty; `SAM_NONE` if there is no such event.
#[unsafe(no_mangle)]
pub extern "C" fn sam_overlay_next_refusal(
    overlay: &mut SamOverlay,
    event: &mut u64,
    why: &mut u32,
    alloc: Global,
) -> u32
    ensures { OverlayNextRefusal overlay.old.held.end (event.old, why.old) result (event.new, why.new) overlay.new.held.end }
{
    with_end!(overlay alloc mut end {
        match end.ordered.next_refusal() {
            Some(refused) => {
                *event = refused.0;
                *why = refusal_status(refused.1);
                OK
            }
            None => NONE,
        }
    })
}
