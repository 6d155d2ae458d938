//! What C calls of a terminal beside the user's events: include/sulgrevad.h says of each call what it does. A call returns a number of
//! `sam_status`; after `SAM_NO_HANDLE` and `SAM_NONE` what its other arguments lead to is as it was.

ghost use Rattle.std.specs.Prelude.{◌≡◌, length};
ghost use Rattle.sam_handles.specs.Calls.{Reports, Freed};
ghost use Rattle.sam_c.specs.Terms.{TermChanged, TermFed, TermFinished, TermIdled, TermMade, TermNextRefusal, TermTaken};

use sam_endpoint::TermEndpoint;
use sam_handles::handle::SamTerm;
use sam_handles::status::{
    MADE, NO_HANDLE, NO_MEMORY, NONE, OK, refusal_status, term_finish_status, term_status,
};
use sam_handles::with_end;
use std::alloc::Global;

/// Makes a terminal that knows no file. Errors, in this order: `SAM_MADE` if the handle is made already; `SAM_NO_MEMORY`. After an error
/// the handle is as it was.
#[unsafe(no_mangle)]
pub extern "C" fn sam_term_new(term: &mut SamTerm, alloc: Global) -> u32
    ensures { TermMade term.old.held.end result term.new.held.end }
{
    if term.is_made() {
        return MADE;
    }
    let Ok(end) = Box::new(alloc, TermEndpoint::new(alloc)) else {
        return NO_MEMORY;
    };
    term.put(end);
    OK
}

/// Frees a terminal, with what was pending. The handle is then empty. `SAM_NO_HANDLE` if it is empty already.
#[unsafe(no_mangle)]
pub extern "C" fn sam_term_free(term: &mut SamTerm, alloc: Global) -> u32
    ensures { Freed term.old.held.end result term.new.held.end }
{
    match term.take(alloc) {
        Some(_end) => OK,
        None => NO_HANDLE,
    }
}

/// Takes bytes of the host's frames, in whatever pieces they come, and then lets held events act.
///
/// Returns `SAM_OK`, `SAM_NO_MEMORY`, `SAM_UNFINISHED`, `SAM_COUNT_FULL`, `SAM_NO_HANDLE`, or why the terminal has stopped, at this call
/// or before: `SAM_STREAM..`, `SAM_TERM_REFUSED..`. `SAM_NO_HANDLE` comes first; the order of the others is that of [`TermEndpoint::feed`].
#[tactic(auto, using(crate::proofs::EndCalls::term_feeds))]
#[unsafe(no_mangle)]
pub extern "C" fn sam_term_feed(term: &mut SamTerm, bytes: &[u8], alloc: Global) -> u32
    ensures { TermFed term.old.held.end bytes.now result term.new.held.end }
{
    with_end!(term alloc mut end { term_status(end.feed(bytes)) })
}

/// Says whether the host's stream may end here: to be asked where the input of the terminal has ended. It changes nothing.
///
/// Returns `SAM_OK`, `SAM_NO_HANDLE`, why the terminal has stopped before (`SAM_STREAM..`, `SAM_TERM_REFUSED..`), `SAM_UNFINISHED` if some
/// of what came or was composed waits, since memory was refused, or `SAM_TRUNCATED` if the stream ends inside a frame. `SAM_NO_HANDLE`
/// comes first; the order of the others is that of [`TermEndpoint::finish`].
#[unsafe(no_mangle)]
pub extern "C" fn sam_term_finish(term: &mut SamTerm, alloc: Global) -> u32
    ensures told { TermFinished term.old.held.end result }
    ensures kept { term.new.held.end ≡ term.old.held.end }
{
    with_end!(term alloc end { term_finish_status(end.finish()) })
}

/// Composes the typed runes that are not sent yet. A program calls it when the user pauses, before the program sleeps.
///
/// Returns `SAM_OK`, `SAM_NO_MEMORY`, `SAM_UNFINISHED`, `SAM_NO_HANDLE`, or why the terminal has stopped, at this call or before:
/// `SAM_STREAM..`, `SAM_TERM_REFUSED..`. `SAM_NO_HANDLE` comes first; the order of the others is that of [`TermEndpoint::flush_now`].
#[tactic(auto, using(crate::proofs::EndCalls::term_flushes))]
#[unsafe(no_mangle)]
pub extern "C" fn sam_term_flush_now(term: &mut SamTerm, alloc: Global) -> u32
    ensures { TermIdled term.old.held.end result term.new.held.end }
{
    with_end!(term alloc mut end { term_status(end.flush_now()) })
}

/// Hands out how many bytes are pending. `SAM_NO_HANDLE` if the handle is empty.
#[unsafe(no_mangle)]
pub extern "C" fn sam_term_pending(term: &mut SamTerm, len: &mut usize, alloc: Global) -> u32
    ensures told { Reports term.old.held.end result len.old len.new (λ e. length e.pending_bytes) }
    ensures kept { term.new.held.end ≡ term.old.held.end }
{
    with_end!(term alloc end { *len = end.pending(); OK })
}

/// Moves the first pending bytes into the buffer, as many as it has room for, and hands out how many. `SAM_NO_HANDLE` if the handle is
/// empty.
#[tactic(auto, using(crate::proofs::EndCalls::term_takes_out))]
#[unsafe(no_mangle)]
pub extern "C" fn sam_term_take_out(
    term: &mut SamTerm,
    into: &mut [u8],
    count: &mut usize,
    alloc: Global,
) -> u32
    ensures { TermTaken term.old.held.end into.old into.new count.old result count.new term.new.held.end }
{
    with_end!(term alloc mut end { *count = end.take_out(into); OK })
}

/// Hands out the oldest refused event that was not handed out yet: which one, counted from 1 over all event calls that were taken, and why
/// (`SAM_REFUSAL..`). `SAM_NO_HANDLE` if the handle is empty; `SAM_NONE` if there is no such event.
#[tactic(auto, using(crate::proofs::EndCalls::term_next_refusal))]
#[unsafe(no_mangle)]
pub extern "C" fn sam_term_next_refusal(
    term: &mut SamTerm,
    event: &mut u64,
    why: &mut u32,
    alloc: Global,
) -> u32
    ensures { TermNextRefusal term.old.held.end (event.old, why.old) result (event.new, why.new) term.new.held.end }
{
    with_end!(term alloc mut end {
        match end.next_refusal() {
            Some(refused) => {
                *event = refused.0;
                *why = refusal_status(refused.1);
                OK
            }
            None => NONE,
        }
    })
}

/// Hands out what changed in the text of an open file since this was asked of it last: in the old text `gone` runes or gaps from the place
/// `start` on gave way to `came` of the new one, and all else is as it was. On the first call for a file its text was empty before.
///
/// Errors, in this order: `SAM_NO_HANDLE`; `SAM_NONE` if the file is not open; `SAM_NO_MEMORY`, on the first call for a file. The terminal
/// is then as it was.
#[tactic(auto, using(crate::proofs::EndCalls::term_changed))]
#[unsafe(no_mangle)]
pub extern "C" fn sam_term_changed(
    term: &mut SamTerm,
    tag: u16,
    start: &mut u32,
    gone: &mut u32,
    came: &mut u32,
    alloc: Global,
) -> u32
    ensures { TermChanged term.old.held.end tag (start.old, gone.old, came.old) result (start.new, gone.new, came.new) term.new.held.end }
{
    with_end!(term alloc mut end {
        match end.changed(tag) {
            Ok(Some(change)) => {
                *start = change.start;
                *gone = change.gone;
                *came = change.came;
                OK
            }
            Ok(None) => NONE,
            Err(_) => NO_MEMORY,
        }
    })
}
