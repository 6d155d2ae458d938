//! What C calls to have a client go on, and what its user does: include/sulgrevad.h says of each call what it does. A call returns a number
//! of `sam_status`; after `SAM_NO_HANDLE`, `SAM_NONE` and each refusal what its other arguments lead to is as it was. `now` is the time, in
//! milliseconds.

ghost use Rattle.std.specs.Prelude.{◌≡◌, ◌≤◌, ◌*◌, IfSome, IsTrue, length, nat_lt, true};
ghost use Rattle.sam_overlay.specs.Calls.{waiting_at};
ghost use Rattle.sam_overlay.specs.Overlays.{is_request};
ghost use Rattle.sam_handles.specs.Splices.{handed};
ghost use Rattle.sam_c_client.specs.ClientStatus.{event_number};
ghost use Rattle.sam_c_client.specs.Clients.{Asks, ClientAsked, ClientAskedOne, ClientDropped, ClientNextSplice, ClientNote, ClientNotePut};
ghost use Rattle.sam_c_client.specs.Clients.{ClientReplaced, ClientReplacedBy, ClientReplacedEach, ClientReplacedEachBy, ClientWentOn, CopiesNote};
ghost use Rattle.sam_c_client.specs.Clients.{GoesOnOne, TakesBack, did_of_told, heard, overlay_of, splices_after};

use crate::client_end::ClientEnd;
use crate::client_status::{event_number, go_on_fault};
use crate::handle::SamClient;
use sam_client::{Replacement, take_together};
use sam_endpoint::TermStep;
use sam_front::Told;
use sam_handles::did::{IDLE, SamDid, did_nothing, did_of_term};
use sam_handles::event::{SamEvent, event_of};
use sam_handles::link_status::note_status;
use sam_handles::overlay_status::{ask_status, replace_fault};
use sam_handles::splice::{SamSplice, hand_back, told_splice};
use sam_handles::status::{NO_HANDLE, NO_ROOM, NONE, NOT_TEXT, OK, WAITING, read_status};
use sam_handles::with_end;
use sam_runes::read_utf8;
use sam_shown::Splices;
use sam_term::UserEvent;
use std::alloc::Global;

/// Returns what was done, by what is told.
fn did_of_told(told: &Told) -> SamDid
    ensures { result ≡ did_of_told told.now }
{
    match told {
        Told::Idle | Told::Busy | Told::Note => did_nothing(IDLE),
        Told::Answered(task) | Told::Unanswered(task) => SamDid {
            task: *task,
            ..did_nothing(IDLE)
        },
        Told::Ran(ran) => SamDid {
            request: ran.request,
            start: ran.place,
            came: ran.count,
            ..did_nothing(IDLE)
        },
        Told::Lapsed(request) => SamDid {
            request: *request,
            ..did_nothing(IDLE)
        },
        Told::Refused(refused) => SamDid {
            request: refused.request,
            task: refused.task,
            ..did_of_term(TermStep::Refused {
                number: refused.event,
                why: refused.why,
            })
        },
        Told::Stepped(step, request) => SamDid {
            request: *request,
            ..did_of_term(step.step)
        },
    }
}

/// Hands out what is told: its number, what was done, and the splices of a step.
fn tell(told: Told, kind: &mut u32, did: &mut SamDid, splices: &mut Splices)
    ensures kind { kind.new ≡ event_number told }
    ensures did { did.new ≡ did_of_told told }
    ensures splices { splices.new ≡ splices_after splices.old told }
{
    *kind = event_number(&told);
    *did = did_of_told(&told);
    if let Told::Stepped(step, _) = told {
        *splices = Splices::of(step.tag, step.told);
    }
}

/// Has a client of which no splice is left go on, and hands out what is told.
fn go_on(end: &mut ClientEnd, now: u64, kind: &mut u32, did: &mut SamDid) -> u32
    ensures { GoesOnOne end.old true now (heard kind.old did.old) result (heard kind.new did.new) end.new }
{
    match end.front.go_on(now) {
        Ok(told) => {
            tell(told, kind, did, &mut end.splices);
            OK
        }
        Err(why) => go_on_fault(why),
    }
}

/// Goes on until there is something to tell, and hands out what: a number of `sam_client_event`, and what was done, if it says that.
/// `sam_client_next_splice` then hands out how what is shown changed.
///
/// Returns `SAM_OK`, or in this order `SAM_NO_HANDLE`; `SAM_WAITING` if splices of an earlier step are left; what
/// [`Client::go_on`](sam_client::Client::go_on) answers: why the terminal has stopped, at this call or before; `SAM_COUNT_FULL`;
/// `SAM_UNFINISHED` if memory was refused. Nothing is lost by them, but a part of what waited may be done.
#[unsafe(no_mangle)]
pub extern "C" fn sam_client_next_event(
    client: &mut SamClient,
    now: u64,
    kind: &mut u32,
    did: &mut SamDid,
    alloc: Global,
) -> u32
    ensures { ClientWentOn client.old.held.end now (heard kind.old did.old) result (heard kind.new did.new) client.new.held.end }
{
    with_end!(client alloc mut end {
        if end.splices.is_empty() {
            go_on(&mut end, now, kind, did)
        } else {
            WAITING
        }
    })
}

/// Hands out the next change of what is shown by the last step. `SAM_NO_HANDLE` if the handle is empty; `SAM_NONE` if none is left.
#[unsafe(no_mangle)]
pub extern "C" fn sam_client_next_splice(
    client: &mut SamClient,
    splice: &mut SamSplice,
    alloc: Global,
) -> u32
    ensures { ClientNextSplice client.old.held.end splice.old result splice.new client.new.held.end }
{
    with_end!(client alloc mut end {
        match end.splices.next() {
            Some(next) => {
                *splice = told_splice(next);
                OK
            }
            None => NONE,
        }
    })
}

/// Copies a note into the buffer, and hands out its length, if there is room for all of it.
fn copy_note(note: &[u8], into: &mut [u8], len: &mut usize) -> u32
    ensures { CopiesNote note.now (nat_lt (length into.old) (length note.now)) into.old into.new len.old result len.new }
{
    let count = note.len();
    if into.len() < count {
        return NO_ROOM;
    }
    into[..count].copy_from_slice(note);
    *len = count;
    OK
}

/// Copies the note that was told last into the buffer, and hands out its length. Errors, in this order: `SAM_NO_HANDLE`; `SAM_NO_ROOM` if
/// the buffer has less room than the note. The client is as it was.
#[unsafe(no_mangle)]
pub extern "C" fn sam_client_note(
    client: &mut SamClient,
    into: &mut [u8],
    len: &mut usize,
    alloc: Global,
) -> u32
    ensures told { ClientNote client.old.held.end into.old into.new len.old result len.new }
    ensures kept { client.new.held.end ≡ client.old.held.end }
{
    with_end!(client alloc end { copy_note(end.front.client.note(), into, len) })
}

/// Puts a note for the host's program, behind all that the user did and that was composed. Errors, in this order: `SAM_NO_HANDLE`;
/// `SAM_LINK_TOO_LONG`; `SAM_COUNT_FULL`; `SAM_NO_MEMORY`. After an error the note is not put.
#[unsafe(no_mangle)]
pub extern "C" fn sam_client_put_note(
    client: &mut SamClient,
    bytes: &[u8],
    now: u64,
    alloc: Global,
) -> u32
    ensures { ClientNotePut client.old.held.end bytes.now now result client.new.held.end }
{
    with_end!(client alloc mut end { note_status(end.front.client.put_note(bytes, now)) })
}

/// Puts the runes in the place of what is shown of a file from the place `start` to the place `end`, in the client that a handle holds.
fn replace(
    client: &mut SamClient,
    tag: u16,
    range: (u32, u32),
    runes: &[char],
    alloc: Global,
) -> u32
    ensures { ClientReplacedBy client.old.held.end tag range runes.now result client.new.held.end }
{
    with_end!(client alloc mut end {
        if end.splices.is_empty() {
            match end.front.replace(tag, range.0, range.1, runes) {
                Ok(()) => OK,
                Err(why) => replace_fault(end.front.client.overlay().end().stopped(), why),
            }
        } else {
            WAITING
        }
    })
}

/// Puts a text in the place of what is shown of a file from the place `start` to the place `end`. It is shown at once, and goes to the host
/// as the client goes on.
///
/// Returns `SAM_OK`, or in this order `SAM_NO_HANDLE`; `SAM_NOT_TEXT` if the text is not UTF-8, and `SAM_NO_MEMORY` if there is no memory
/// for its runes; `SAM_WAITING` if splices of the last step are left; what [`Client::replace`](sam_client::Client::replace) answers, by the
/// numbers `SAM_REFUSAL..`. After an error the client is as it was.
#[unsafe(no_mangle)]
pub extern "C" fn sam_client_replace(
    client: &mut SamClient,
    tag: u16,
    start: u32,
    end: u32,
    text: &[u8],
    alloc: Global,
) -> u32
    ensures { ClientReplaced client.old.held.end tag (start, end) text.now result client.new.held.end }
{
    if !client.is_made() {
        return NO_HANDLE;
    }
    match read_utf8(alloc, text) {
        Ok(runes) => replace(client, tag, (start, end), runes.as_slice(), alloc),
        Err(why) => read_status(why),
    }
}

/// Makes replacements of what is shown of a file, in the client that a handle holds, and hands out how many were made.
fn replace_each(
    client: &mut SamClient,
    tag: u16,
    replacements: &[Replacement],
    runes: &[char],
    made: &mut usize,
    alloc: Global,
) -> u32
    ensures { ClientReplacedEachBy client.old.held.end tag replacements.now runes.now made.old result made.new client.new.held.end }
{
    with_end!(client alloc mut end {
        if !take_together(replacements, runes.len()) {
            NOT_TEXT
        } else if end.splices.is_empty() {
            let replaced = end.front.replace_each(tag, replacements, runes);
            *made = replaced.made;
            match replaced.result {
                Ok(()) => OK,
                Err(why) => replace_fault(end.front.client.overlay().end().stopped(), why),
            }
        } else {
            WAITING
        }
    })
}

/// Makes replacements of what is shown of a file, one after another, each as `sam_client_replace` does: its places are those of the text
/// that the ones before it have left, and the text has the runes of all of them, in their order. Stops in front of the first one that is
/// refused, and hands out how many were made.
///
/// Returns `SAM_OK`, or in this order `SAM_NO_HANDLE`, after which `made` is as it was; `SAM_NOT_TEXT` if the text is not UTF-8, and
/// `SAM_NO_MEMORY` if there is no memory for its runes; `SAM_NOT_TEXT` if it has not just the runes that they take; `SAM_WAITING` if
/// splices of the last step are left; what [`Client::replace_each`](sam_client::Client::replace_each) answers for the first one that is
/// refused. But for that the client is as it was, and none were made.
#[unsafe(no_mangle)]
pub extern "C" fn sam_client_replace_each(
    client: &mut SamClient,
    tag: u16,
    replacements: &[Replacement],
    text: &[u8],
    made: &mut usize,
    alloc: Global,
) -> u32
    ensures { ClientReplacedEach client.old.held.end tag replacements.now text.now made.old result made.new client.new.held.end }
{
    if !client.is_made() {
        return NO_HANDLE;
    }
    *made = 0;
    match read_utf8(alloc, text) {
        Ok(runes) => replace_each(client, tag, replacements, runes.as_slice(), made, alloc),
        Err(why) => read_status(why),
    }
}

/// Has a client take the request, and hands out its number.
fn ask(end: &mut ClientEnd, event: UserEvent, number: &mut u64) -> u32
    requires { IsTrue (is_request event) }
    ensures { Asks end.old event number.old result (end.new, number.new) }
{
    let came = end.front.ask(event);
    if let Ok(request) = came {
        *number = request;
    }
    ask_status(came)
}

/// Has the client that a handle holds take the request, and returns what came of it: `NONE` if there is none.
fn ask_one(client: &mut SamClient, event: Option<UserEvent>, number: &mut u64, alloc: Global) -> u32
    requires { IfSome event (λ x. IsTrue (is_request x)) }
    ensures { ClientAskedOne client.old.held.end event number.old result number.new client.new.held.end }
{
    with_end!(client alloc mut end {
        match event {
            Some(event) => ask(&mut end, event, number),
            None => NONE,
        }
    })
}

/// Takes an event of the user that is no edit, or one of the command file, in behind the others. It acts as the client goes on, and finds
/// what is shown now. Hands out the number of the request, counted from 1 over those that were taken: `sam_client_next_event` tells once
/// that it acted, or was refused. A write that shares one that waits has the number of that.
///
/// Returns `SAM_OK`, or in this order `SAM_NO_HANDLE`; `SAM_NOT_TEXT` if the text is not UTF-8, and `SAM_NO_MEMORY` if there is no memory
/// for its runes; `SAM_NONE` if no event has this number; `SAM_COUNT_FULL` if 2^64-1 requests were taken; what
/// [`Client::ask`](sam_client::Client::ask) answers, in its order: `SAM_WAITING`, `SAM_TOO_MANY`, `SAM_COUNT_FULL`, `SAM_NO_MEMORY`. After
/// an error the client and the number are as they were.
#[unsafe(no_mangle)]
pub extern "C" fn sam_client_ask(
    client: &mut SamClient,
    event: &SamEvent,
    text: &[u8],
    number: &mut u64,
    alloc: Global,
) -> u32
    ensures { ClientAsked client.old.held.end event.now text.now number.old result number.new client.new.held.end }
{
    if !client.is_made() {
        return NO_HANDLE;
    }
    match read_utf8(alloc, text) {
        Ok(runes) => ask_one(client, event_of(event, runes), number, alloc),
        Err(why) => read_status(why),
    }
}

/// Takes back the next runes that wait over a file, if the host left no room for them, and hands them out.
fn take_back(
    end: &mut ClientEnd,
    tag: u16,
    splice: &mut SamSplice,
    into: &mut [u8],
    len: &mut usize,
) -> u32
    requires { 4 * waiting_at (overlay_of end.old) tag ≤ length into.old }
    ensures { TakesBack end.old tag (handed splice.old into.old len.old) result (handed splice.new into.new len.new) end.new }
{
    let came = end.front.client.drop_next(tag);
    hand_back(tag, came, splice, into, len)
}

/// Takes back the next runes that wait over a file for which the host left no room, and hands them out in UTF-8 with the splice by which
/// they went of what is shown.
///
/// Returns `SAM_OK`, or in this order `SAM_NO_HANDLE`; `SAM_WAITING` if splices of the last step are left; `SAM_NO_ROOM` if the buffer has
/// less than four bytes for each rune that `sam_client_waiting` counts; `SAM_NONE` if nothing is to be taken back; `SAM_NO_MEMORY`. After
/// an error the client, and what the other arguments lead to, is as it was.
#[unsafe(no_mangle)]
pub extern "C" fn sam_client_drop_next(
    client: &mut SamClient,
    tag: u16,
    splice: &mut SamSplice,
    into: &mut [u8],
    len: &mut usize,
    alloc: Global,
) -> u32
    ensures { ClientDropped client.old.held.end tag (handed splice.old into.old len.old) result (handed splice.new into.new len.new)
        client.new.held.end }
{
    with_end!(client alloc mut end {
        if !end.splices.is_empty() {
            WAITING
        } else if into.len() < end.front.client.overlay().waiting(tag) as usize * 4 {
            NO_ROOM
        } else {
            take_back(&mut end, tag, splice, into, len)
        }
    })
}
