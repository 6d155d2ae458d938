//! What C calls of a link: include/sulgrevad.h says of each call what it does. A call returns a number of `sam_status`; after
//! `SAM_NO_HANDLE`, `SAM_NONE` and each refusal what its other arguments lead to is as it was.

ghost use Rattle.std.specs.Prelude.{◌≡◌, ◌≤◌, ◌+◌, ◌-◌, false, length};
ghost use Rattle.sam_link.specs.Calls.Call.{Acknowledge, Ask, Put};
ghost use Rattle.sam_handles.specs.Calls.{Reports, Freed};
ghost use Rattle.sam_handles.specs.LinkStatus.{phase_number};
ghost use Rattle.sam_c.specs.Links.{FedInto, FedPlaces, HelloTold, LinkAnswered, LinkBroken, LinkCalled, LinkFed, LinkFedInto, LinkFedPlaces};
ghost use Rattle.sam_c.specs.Links.{LinkMade, LinkNextNote, LinkNotePut, LinkPut, LinkTakenIn, LinkTakenOut, LinkWelcomed, NextNote, RefusalWritten};
ghost use Rattle.sam_c.specs.Links.{TakesAnswer, TakesWelcome, refusing, told};

use sam_handles::handle::SamLink;
use sam_handles::link_id::SamLinkId;
use sam_handles::link_status::{
    NO_ROOM, WRONG_ROLE, answer_status, call_fault, feed_status, link_refusal, note_status,
    out_fault, phase_number, put_status, refusal_of, role_of, welcome_status, what_number,
};
use sam_handles::status::{MADE, NO_HANDLE, NO_MEMORY, NONE, OK};
use sam_handles::with_end;
use sam_link::{Hello, Id, Link, MOST_BODY, Place, Refusal, What, read_hello};
use std::alloc::Global;

/// The bytes of a hello.
#[repr(C)]
pub struct SamLinkHello {
    /// The bytes.
    pub bytes: [u8; 42],
}

/// Makes the end of the side of this number, with this id. Errors, in this order: `SAM_MADE` if the handle is made already;
/// `SAM_LINK_WRONG_ROLE` if no side has this number; `SAM_NO_MEMORY`. After an error the handle is as it was.
#[unsafe(no_mangle)]
pub extern "C" fn sam_link_new(link: &mut SamLink, role: u32, id: &SamLinkId, alloc: Global) -> u32
    ensures { LinkMade link.old.held.end role id.now.bytes result link.new.held.end }
{
    if link.is_made() {
        return MADE;
    }
    let Some(role) = role_of(role) else {
        return WRONG_ROLE;
    };
    let Ok(end) = Box::new(alloc, Link::new(alloc, role, id.to_id())) else {
        return NO_MEMORY;
    };
    link.put(end);
    OK
}

/// Frees an end, with what it keeps. The handle is then empty. `SAM_NO_HANDLE` if it is empty already.
#[unsafe(no_mangle)]
pub extern "C" fn sam_link_free(link: &mut SamLink, alloc: Global) -> u32
    ensures { Freed link.old.held.end result link.new.held.end }
{
    match link.take(alloc) {
        Some(_end) => OK,
        None => NO_HANDLE,
    }
}

/// Reads the hello at the front of the bytes, and hands out the number of what it says, its id and its connection. `SAM_NONE` means that
/// nothing is wrong so far, and that there are fewer than 42 bytes.
///
/// Errors, in the order of [`read_hello`]: `SAM_LINK_NOT_A_LINK`, `SAM_LINK_OTHER_VERSION`, `SAM_LINK_BAD_HELLO`.
#[unsafe(no_mangle)]
pub extern "C" fn sam_link_read_hello(
    bytes: &[u8],
    what: &mut u32,
    id: &mut SamLinkId,
    attempt: &mut u64,
) -> u32
    ensures { HelloTold bytes.now result (told what.old id.old.bytes attempt.old) (told what.new id.new.bytes attempt.new) }
{
    match read_hello(bytes) {
        Ok(Some(hello)) => {
            *what = what_number(hello.what);
            id.set(hello.id);
            *attempt = hello.attempt;
            OK
        }
        Ok(None) => NONE,
        Err(why) => link_refusal(why),
    }
}

/// Makes the hello by which a host refuses what was read.
fn refusing(why: Refusal, read: Result<Option<Hello>, Refusal>) -> Hello
    ensures { result ≡ refusing why read }
{
    let (id, attempt) = match read {
        Ok(Some(hello)) => (hello.id, hello.attempt),
        _ => (Id { first: 0, last: 0 }, 0),
    };
    Hello {
        what: What::Refused(why),
        id,
        attempt,
        received: 0,
    }
}

/// Writes the hello by which a host refuses what came, with the number of the reason. `SAM_NONE` if no refusal has this number, and the
/// buffer is as it was.
#[unsafe(no_mangle)]
pub extern "C" fn sam_link_write_refusal(why: u32, bytes: &[u8], into: &mut SamLinkHello) -> u32
    ensures { RefusalWritten why bytes.now result into.old.bytes into.new.bytes }
{
    let Some(why) = refusal_of(why) else {
        return NONE;
    };
    into.bytes = refusing(why, read_hello(bytes)).spell();
    OK
}

/// The terminal makes another connection, and hands out its number. The one before is over. Errors, in this order: `SAM_NO_HANDLE`;
/// `SAM_LINK_WRONG_ROLE`; `SAM_COUNT_FULL`.
#[unsafe(no_mangle)]
pub extern "C" fn sam_link_call(
    link: &mut SamLink,
    take_over: bool,
    attempt: &mut u64,
    alloc: Global,
) -> u32
    ensures { LinkCalled link.old.held.end take_over attempt.old result attempt.new link.new.held.end }
{
    with_end!(link alloc mut end {
        match end.call(take_over) {
            Ok(number) => {
                *attempt = number;
                OK
            }
            Err(why) => call_fault(why),
        }
    })
}

/// Takes a host's hello, and returns the number of what came of it.
fn welcome(end: &mut Link, bytes: &[u8]) -> u32
    ensures { TakesWelcome end.old bytes.now result end.new }
{
    match read_hello(bytes) {
        Ok(Some(hello)) => welcome_status(end.welcomed(&hello)),
        Ok(None) => NONE,
        Err(why) => link_refusal(why),
    }
}

/// The terminal takes the host's hello. Errors: `SAM_NO_HANDLE`; those of [`read_hello`], and `SAM_NONE` of fewer than 42 bytes; those of
/// [`Link::welcomed`], where a reason of the host has the number that it has here.
#[unsafe(no_mangle)]
pub extern "C" fn sam_link_welcomed(link: &mut SamLink, bytes: &[u8], alloc: Global) -> u32
    ensures { LinkWelcomed link.old.held.end bytes.now result link.new.held.end }
{
    with_end!(link alloc mut end { welcome(&mut end, bytes) })
}

/// Takes a terminal's hello, and returns the number of what came of it.
fn answer(end: &mut Link, bytes: &[u8]) -> u32
    ensures { TakesAnswer end.old bytes.now result end.new }
{
    match read_hello(bytes) {
        Ok(Some(hello)) => answer_status(end.answer(&hello)),
        Ok(None) => NONE,
        Err(why) => link_refusal(why),
    }
}

/// The host takes the connection of this hello, and the one before is over. Errors: `SAM_NO_HANDLE`; those of [`read_hello`], and
/// `SAM_NONE` of fewer than 42 bytes; those of [`Link::answer`].
#[unsafe(no_mangle)]
pub extern "C" fn sam_link_answer(link: &mut SamLink, bytes: &[u8], alloc: Global) -> u32
    ensures { LinkAnswered link.old.held.end bytes.now result link.new.held.end }
{
    with_end!(link alloc mut end { answer(&mut end, bytes) })
}

/// A connection is over, or broke. One that isn't the newest changes nothing. `SAM_NO_HANDLE` if the handle is empty.
#[unsafe(no_mangle)]
pub extern "C" fn sam_link_broken(link: &mut SamLink, attempt: u64, alloc: Global) -> u32
    ensures { LinkBroken link.old.held.end attempt result link.new.held.end }
{
    with_end!(link alloc mut end { end.broken(attempt); OK })
}

/// Puts bytes for the other side's program, all or none. Errors, in this order: `SAM_NO_HANDLE`; `SAM_COUNT_FULL`; `SAM_NO_MEMORY`.
#[unsafe(no_mangle)]
pub extern "C" fn sam_link_put(link: &mut SamLink, bytes: &[u8], alloc: Global) -> u32
    ensures { LinkPut link.old.held.end (Put bytes.now) result link.new.held.end }
{
    with_end!(link alloc mut end { put_status(end.put(bytes)) })
}

/// Puts a note behind all that was put. Errors, in this order: `SAM_NO_HANDLE`; `SAM_LINK_TOO_LONG`; `SAM_COUNT_FULL`; `SAM_NO_MEMORY`.
#[unsafe(no_mangle)]
pub extern "C" fn sam_link_put_note(link: &mut SamLink, bytes: &[u8], alloc: Global) -> u32
    ensures { LinkNotePut link.old.held.end bytes.now result link.new.held.end }
{
    with_end!(link alloc mut end { note_status(end.put_note(bytes)) })
}

/// Asks the other side to acknowledge now. Errors, in this order: `SAM_NO_HANDLE`; `SAM_COUNT_FULL`; `SAM_NO_MEMORY`.
#[unsafe(no_mangle)]
pub extern "C" fn sam_link_ask(link: &mut SamLink, alloc: Global) -> u32
    ensures { LinkPut link.old.held.end Ask result link.new.held.end }
{
    with_end!(link alloc mut end { put_status(end.ask()) })
}

/// Tells the other side how many of its bytes have come. Errors, in this order: `SAM_NO_HANDLE`; `SAM_COUNT_FULL`; `SAM_NO_MEMORY`.
#[unsafe(no_mangle)]
pub extern "C" fn sam_link_acknowledge(link: &mut SamLink, alloc: Global) -> u32
    ensures { LinkPut link.old.held.end Acknowledge result link.new.held.end }
{
    with_end!(link alloc mut end { put_status(end.acknowledge()) })
}

/// Moves the next bytes for a connection into the buffer, as many as there are and have room, and hands out how many. Errors, in this
/// order: `SAM_NO_HANDLE`; `SAM_LINK_NOT_OPEN`.
#[unsafe(no_mangle)]
pub extern "C" fn sam_link_take_out(
    link: &mut SamLink,
    attempt: u64,
    into: &mut [u8],
    count: &mut usize,
    alloc: Global,
) -> u32
    ensures { LinkTakenOut link.old.held.end attempt into.old into.new count.old result count.new link.new.held.end }
{
    with_end!(link alloc mut end {
        match end.take_out(attempt, into) {
            Ok(number) => {
                *count = number;
                OK
            }
            Err(why) => out_fault(why),
        }
    })
}

/// Takes the next piece of the other side's stream on a connection, all of it or nothing. Errors: `SAM_NO_HANDLE`; then those of
/// [`Link::feed`], in its order.
#[unsafe(no_mangle)]
pub extern "C" fn sam_link_feed(
    link: &mut SamLink,
    attempt: u64,
    bytes: &[u8],
    alloc: Global,
) -> u32
    ensures { LinkFed link.old.held.end attempt bytes.now result link.new.held.end }
{
    with_end!(link alloc mut end { feed_status(end.feed(attempt, bytes)) })
}

/// Feeds a piece, takes in what it brings, and hands out how many bytes that were.
#[tactic(auto, using(crate::proofs::EndCalls::link_feeds_into))]
fn feed_into(end: &mut Link, attempt: u64, bytes: &[u8], into: &mut [u8], count: &mut usize) -> u32
    ensures { FedInto end.old attempt bytes.now into.old into.new count.old result count.new end.new }
{
    match end.feed_into(attempt, bytes, into) {
        Ok(number) => {
            *count = number;
            OK
        }
        Err(why) => feed_status(Err(why)),
    }
}

/// Takes the next piece as [`sam_link_feed`] does, and then moves bytes into the buffer as [`sam_link_take_in`] does, again and again,
/// until it hands out 0. Hands out how many it moved. The errors are those of [`sam_link_feed`].
#[unsafe(no_mangle)]
pub extern "C" fn sam_link_feed_into(
    link: &mut SamLink,
    attempt: u64,
    bytes: &[u8],
    into: &mut [u8],
    count: &mut usize,
    alloc: Global,
) -> u32
    ensures { LinkFedInto link.old.held.end attempt bytes.now into.old into.new count.old result count.new link.new.held.end }
{
    with_end!(link alloc mut end { feed_into(&mut end, attempt, bytes, into, count) })
}

/// Feeds a piece, takes what data it brings, says where that lies, and hands out at how many places.
#[tactic(auto, using(crate::proofs::EndCalls::link_feeds_places))]
fn feed_places(
    end: &mut Link,
    attempt: u64,
    bytes: &[u8],
    places: &mut [Place],
    count: &mut usize,
) -> u32
    ensures { FedPlaces end.old attempt bytes.now places.old places.new count.old result count.new end.new }
{
    match end.feed_places(attempt, bytes, places) {
        Ok(number) => {
            *count = number;
            OK
        }
        Err(why) => feed_status(Err(why)),
    }
}

/// Takes the next piece as [`sam_link_feed`] does. Where nothing waited before, and nothing was held, it then takes the data that is next,
/// packet by packet, until there is no room in `places`, or a note is next, or nothing; each place says where that of one lies in the
/// piece. Hands out how many places it wrote, else 0. The errors are those of [`sam_link_feed`].
#[unsafe(no_mangle)]
pub extern "C" fn sam_link_feed_places(
    link: &mut SamLink,
    attempt: u64,
    bytes: &[u8],
    places: &mut [Place],
    count: &mut usize,
    alloc: Global,
) -> u32
    ensures { LinkFedPlaces link.old.held.end attempt bytes.now places.old places.new count.old result count.new link.new.held.end }
{
    with_end!(link alloc mut end { feed_places(&mut end, attempt, bytes, places, count) })
}

/// Moves the next bytes of the other side's program into the buffer, as many as one packet has left and have room, and hands out how many.
/// `SAM_NO_HANDLE` if the handle is empty.
#[unsafe(no_mangle)]
pub extern "C" fn sam_link_take_in(
    link: &mut SamLink,
    into: &mut [u8],
    count: &mut usize,
    alloc: Global,
) -> u32
    ensures { LinkTakenIn link.old.held.end into.old into.new count.old result count.new link.new.held.end }
{
    with_end!(link alloc mut end { *count = end.take_in(into); OK })
}

/// Moves the note that is next into the buffer, which has room for any.
fn hand_note(end: &mut Link, into: &mut [u8], len: &mut usize) -> u32
    requires { 4096 ≤ length into.old }
    ensures { NextNote end.old false into.old into.new len.old result len.new end.new }
{
    match end.next_note(into) {
        Some(count) => {
            *len = count;
            OK
        }
        None => NONE,
    }
}

/// Moves the note that is next into the buffer, and hands out its length. Errors, in this order: `SAM_NO_HANDLE`; `SAM_LINK_NO_ROOM` if
/// the buffer has less room than the longest note; `SAM_NONE` if no note is next.
#[unsafe(no_mangle)]
pub extern "C" fn sam_link_next_note(
    link: &mut SamLink,
    into: &mut [u8],
    len: &mut usize,
    alloc: Global,
) -> u32
    ensures { LinkNextNote link.old.held.end into.old into.new len.old result len.new link.new.held.end }
{
    with_end!(link alloc mut end {
        if into.len() < MOST_BODY {
            NO_ROOM
        } else {
            hand_note(&mut end, into, len)
        }
    })
}

/// Hands out the number of how the newest connection stands. `SAM_NO_HANDLE` if the handle is empty.
#[unsafe(no_mangle)]
pub extern "C" fn sam_link_phase(link: &mut SamLink, phase: &mut u32, alloc: Global) -> u32
    ensures told { Reports link.old.held.end result phase.old phase.new (λ e. phase_number e.phase) }
    ensures kept { link.new.held.end ≡ link.old.held.end }
{
    with_end!(link alloc end { *phase = phase_number(end.phase()); OK })
}

/// Hands out the number of the newest connection; 0 before the first. `SAM_NO_HANDLE` if the handle is empty.
#[unsafe(no_mangle)]
pub extern "C" fn sam_link_attempt(link: &mut SamLink, attempt: &mut u64, alloc: Global) -> u32
    ensures told { Reports link.old.held.end result attempt.old attempt.new (λ e. e.attempt) }
    ensures kept { link.new.held.end ≡ link.old.held.end }
{
    with_end!(link alloc end { *attempt = end.attempt(); OK })
}

/// Hands out how many bytes were put. `SAM_NO_HANDLE` if the handle is empty.
#[unsafe(no_mangle)]
pub extern "C" fn sam_link_put_count(link: &mut SamLink, count: &mut u64, alloc: Global) -> u32
    ensures told { Reports link.old.held.end result count.old count.new (λ e. e.keeps.base + length e.keeps.kept) }
    ensures kept { link.new.held.end ≡ link.old.held.end }
{
    with_end!(link alloc end { *count = end.put_len(); OK })
}

/// Hands out how many bytes the other side has acknowledged. `SAM_NO_HANDLE` if the handle is empty.
#[unsafe(no_mangle)]
pub extern "C" fn sam_link_acknowledged(link: &mut SamLink, count: &mut u64, alloc: Global) -> u32
    ensures told { Reports link.old.held.end result count.old count.new (λ e. e.keeps.base) }
    ensures kept { link.new.held.end ≡ link.old.held.end }
{
    with_end!(link alloc end { *count = end.acknowledged(); OK })
}

/// Hands out how many bytes of this side's stream the newest connection has not been given. `SAM_NO_HANDLE` if the handle is empty.
#[unsafe(no_mangle)]
pub extern "C" fn sam_link_unsent(link: &mut SamLink, count: &mut usize, alloc: Global) -> u32
    ensures told { Reports link.old.held.end result count.old count.new (λ e. length e.keeps.kept - e.keeps.sent) }
    ensures kept { link.new.held.end ≡ link.old.held.end }
{
    with_end!(link alloc end { *count = end.unsent(); OK })
}

/// Hands out how many bytes of the other side's stream have come. `SAM_NO_HANDLE` if the handle is empty.
#[unsafe(no_mangle)]
pub extern "C" fn sam_link_received(link: &mut SamLink, count: &mut u64, alloc: Global) -> u32
    ensures told { Reports link.old.held.end result count.old count.new (λ e. e.received) }
    ensures kept { link.new.held.end ≡ link.old.held.end }
{
    with_end!(link alloc end { *count = end.received(); OK })
}
