//! What C calls to take bytes in and to go on by single steps: include/sulgrevad.h says of each call what it does. A call returns a number
//! of `sam_status`; after `SAM_NO_HANDLE`, `SAM_NONE` and an error of a step what its other arguments lead to is as it was.

ghost use Rattle.std.specs.Prelude.{◌≡◌};
ghost use Rattle.sam_handles.specs.Calls.{ReportsSome};
ghost use Rattle.sam_c.specs.Steps.{HostBrought, HostStepped, TermBrought, TermStepped, next_did, next_of};

use sam_endpoint::name_message;
use sam_handles::did::{
    RECEIVED, SamDid, did_nothing, did_of_host, did_of_term, is_load, tag_or_zero,
};
use sam_handles::handle::{SamHost, SamTerm};
use sam_handles::status::{
    NONE, OK, host_bring_status, host_status, term_bring_status, term_status,
};
use sam_handles::with_end;
use std::alloc::Global;

/// Takes bytes of the terminal's messages, in whatever pieces they come: the messages that are whole with them wait for
/// `sam_host_step`.
///
/// Returns `SAM_OK`, `SAM_NO_HANDLE`, why the host has stopped before (`SAM_STREAM..`, `SAM_HOST_REFUSED..`), `SAM_WAITING` if some of what
/// came before waits, `SAM_COUNT_FULL` or `SAM_NO_MEMORY`. `SAM_NO_HANDLE` comes first; the order of the others is that of
/// [`HostEndpoint::bring`](sam_endpoint::HostEndpoint::bring). After an error the host is as it was.
#[tactic(auto, using(crate::proofs::EndCalls::host_brings))]
#[unsafe(no_mangle)]
pub extern "C" fn sam_host_bring(host: &mut SamHost, bytes: &[u8], alloc: Global) -> u32
    ensures { HostBrought host.old.held.end bytes.now result host.new.held.end }
{
    with_end!(host alloc mut end { host_bring_status(end.bring(bytes)) })
}

/// Hands out the kind of the oldest message that waits, and the file that it names, or 0. `SAM_NO_HANDLE` if the handle is empty;
/// `SAM_NONE` if no message waits.
#[unsafe(no_mangle)]
pub extern "C" fn sam_host_next_message(
    host: &mut SamHost,
    kind: &mut u8,
    tag: &mut u16,
    alloc: Global,
) -> u32
    ensures told { ReportsSome host.old.held.end result (kind.old, tag.old) (kind.new, tag.new) next_of }
    ensures kept { host.new.held.end ≡ host.old.held.end }
{
    with_end!(host alloc end {
        match end.next_message() {
            Some(message) => {
                let named = name_message(message);
                *kind = named.0;
                *tag = tag_or_zero(named.1);
                OK
            }
            None => NONE,
        }
    })
}

/// Goes on by one step with what waits at a host, and hands out what it did.
///
/// Returns `SAM_OK`, `SAM_NO_HANDLE`, `SAM_UNFINISHED` if memory was refused and nothing has changed, or why the host has stopped, at this
/// call or before: `SAM_STREAM..`, `SAM_HOST_REFUSED..`. `SAM_NO_HANDLE` comes first; the order of the others is that of
/// [`HostEndpoint::step`](sam_endpoint::HostEndpoint::step).
#[tactic(auto, using(crate::proofs::EndCalls::host_makes_step))]
#[unsafe(no_mangle)]
pub extern "C" fn sam_host_step(host: &mut SamHost, did: &mut SamDid, alloc: Global) -> u32
    ensures { HostStepped host.old.held.end did.old result did.new host.new.held.end }
{
    with_end!(host alloc mut end {
        match end.step() {
            Ok(step) => {
                *did = did_of_host(step);
                OK
            }
            Err(why) => host_status(Err(why)),
        }
    })
}

/// Takes bytes of the host's frames, in whatever pieces they come: the frames that are whole with them wait for `sam_term_step`.
///
/// Returns `SAM_OK`, `SAM_NO_HANDLE`, why the terminal has stopped before (`SAM_STREAM..`, `SAM_TERM_REFUSED..`), `SAM_WAITING` if some of
/// what came before waits, `SAM_COUNT_FULL` or `SAM_NO_MEMORY`. `SAM_NO_HANDLE` comes first; the order of the others is that of
/// [`TermEndpoint::bring`](sam_endpoint::TermEndpoint::bring). After an error the terminal is as it was.
#[tactic(auto, using(crate::proofs::EndCalls::term_brings))]
#[unsafe(no_mangle)]
pub extern "C" fn sam_term_bring(term: &mut SamTerm, bytes: &[u8], alloc: Global) -> u32
    ensures { TermBrought term.old.held.end bytes.now result term.new.held.end }
{
    with_end!(term alloc mut end { term_bring_status(end.bring(bytes)) })
}

/// Goes on by one step with what waits at a terminal, and hands out what it did.
///
/// Returns `SAM_OK`, `SAM_NO_HANDLE`, `SAM_UNFINISHED` if memory was refused and nothing has changed, or why the terminal has stopped, at
/// this call or before: `SAM_STREAM..`, `SAM_TERM_REFUSED..`. `SAM_NO_HANDLE` comes first; the order of the others is that of
/// [`TermEndpoint::step`](sam_endpoint::TermEndpoint::step).
#[tactic(auto, using(crate::proofs::EndCalls::term_makes_step))]
#[unsafe(no_mangle)]
pub extern "C" fn sam_term_step(term: &mut SamTerm, did: &mut SamDid, alloc: Global) -> u32
    ensures { TermStepped term.old.held.end did.old result did.new term.new.held.end }
{
    with_end!(term alloc mut end {
        match end.step() {
            Ok(step) => {
                *did = did_of_term(step);
                OK
            }
            Err(why) => term_status(Err(why)),
        }
    })
}

/// Hands out what the next frame that a terminal receives will do, before it does: its kind, its file, or 0, and the place where as many
/// runes or gaps of the text will give way. `SAM_NO_HANDLE` if the handle is empty; `SAM_NONE` if no frame waits.
#[unsafe(no_mangle)]
pub extern "C" fn sam_term_next_frame(term: &mut SamTerm, next: &mut SamDid, alloc: Global) -> u32
    ensures told { ReportsSome term.old.held.end result next.old next.new next_did }
    ensures kept { term.new.held.end ≡ term.old.held.end }
{
    with_end!(term alloc end {
        match end.next_frame() {
            Some(frame) => {
                *next = SamDid {
                    kind: frame.kind,
                    tag: tag_or_zero(frame.tag),
                    start: frame.start,
                    gone: frame.gone,
                    loads: is_load(frame.kind),
                    ..did_nothing(RECEIVED)
                };
                OK
            }
            None => NONE,
        }
    })
}
