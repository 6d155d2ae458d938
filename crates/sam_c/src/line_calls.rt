//! What C calls of a line: include/sulgrevad.h says of each call what it does. A call returns a number of `sam_status`; after
//! `SAM_NO_HANDLE`, `SAM_NONE` and each refusal what its other arguments lead to is as it was. `now` is the time, in milliseconds.

ghost use Rattle.std.specs.Prelude.{◌≤◌, false, length};
ghost use Rattle.sam_line.specs.Calls.LineCall.{Acknowledge, AddressChanged, Ask, Broken, Expect, NotConnected, Put};
ghost use Rattle.sam_handles.specs.Calls.{Freed};
ghost use Rattle.sam_c.specs.Lines.{LineConnected, LineDone, LineMade, LineNextNote, LineNote, LineNotePut, LinePut, LineReceived, LineTakenIn};
ghost use Rattle.sam_c.specs.Lines.{LineTakenOut, LineTicked};

use sam_handles::handle::SamLine;
use sam_handles::line_status::{receive_status, tick_number};
use sam_handles::link_id::SamLinkId;
use sam_handles::link_status::{NO_ROOM, call_fault, note_status, out_fault, put_status};
use sam_handles::status::{MADE, NO_HANDLE, NO_MEMORY, OK};
use sam_handles::telling::tell_some;
use sam_handles::with_end;
use sam_line::Line;
use sam_link::MOST_BODY;
use std::alloc::Global;

/// Makes a line of the session with this id. Errors, in this order: `SAM_MADE` if the handle is made already; `SAM_NO_MEMORY`. After an
/// error the handle is as it was.
#[unsafe(no_mangle)]
pub extern "C" fn sam_line_new(
    line: &mut SamLine,
    id: &SamLinkId,
    take_over: bool,
    now: u64,
    alloc: Global,
) -> u32
    ensures { LineMade line.old.held.end id.now.bytes take_over now result line.new.held.end }
{
    if line.is_made() {
        return MADE;
    }
    let Ok(end) = Box::new(alloc, Line::new(alloc, id.to_id(), take_over, now)) else {
        return NO_MEMORY;
    };
    line.put(end);
    OK
}

/// Frees a line, with what it keeps. The handle is then empty. `SAM_NO_HANDLE` if it is empty already.
#[unsafe(no_mangle)]
pub extern "C" fn sam_line_free(line: &mut SamLine, alloc: Global) -> u32
    ensures { Freed line.old.held.end result line.new.held.end }
{
    match line.take(alloc) {
        Some(_end) => OK,
        None => NO_HANDLE,
    }
}

/// Hands out the number of what the program is to do at this time. `SAM_NO_HANDLE` if the handle is empty.
#[unsafe(no_mangle)]
pub extern "C" fn sam_line_tick(line: &mut SamLine, now: u64, tick: &mut u32, alloc: Global) -> u32
    ensures { LineTicked line.old.held.end now tick.old result tick.new line.new.held.end }
{
    with_end!(line alloc mut end { *tick = tick_number(end.tick(now)); OK })
}

/// Takes a connection that is open, and hands out its number. Errors, in this order: `SAM_NO_HANDLE`; `SAM_COUNT_FULL`.
#[unsafe(no_mangle)]
pub extern "C" fn sam_line_connected(
    line: &mut SamLine,
    now: u64,
    attempt: &mut u64,
    alloc: Global,
) -> u32
    ensures { LineConnected line.old.held.end now attempt.old result attempt.new line.new.held.end }
{
    with_end!(line alloc mut end {
        match end.connected(now) {
            Ok(number) => {
                *attempt = number;
                OK
            }
            Err(why) => call_fault(why),
        }
    })
}

/// Notes that the connection could not be made for which the line asked. `SAM_NO_HANDLE` if the handle is empty.
#[unsafe(no_mangle)]
pub extern "C" fn sam_line_not_connected(line: &mut SamLine, now: u64, alloc: Global) -> u32
    ensures { LineDone line.old.held.end (NotConnected now) result line.new.held.end }
{
    with_end!(line alloc mut end { end.not_connected(now); OK })
}

/// Notes that a connection is over. One that isn't the newest changes nothing but the time. `SAM_NO_HANDLE` if the handle is empty.
#[unsafe(no_mangle)]
pub extern "C" fn sam_line_broken(line: &mut SamLine, attempt: u64, now: u64, alloc: Global) -> u32
    ensures { LineDone line.old.held.end (Broken attempt now) result line.new.held.end }
{
    with_end!(line alloc mut end { end.broken(attempt, now); OK })
}

/// Notes that an address of the machine came or went. `SAM_NO_HANDLE` if the handle is empty.
#[unsafe(no_mangle)]
pub extern "C" fn sam_line_address_changed(line: &mut SamLine, now: u64, alloc: Global) -> u32
    ensures { LineDone line.old.held.end (AddressChanged now) result line.new.held.end }
{
    with_end!(line alloc mut end { end.address_changed(now); OK })
}

/// Notes whether the program waits for an answer of the host's program. `SAM_NO_HANDLE` if the handle is empty.
#[unsafe(no_mangle)]
pub extern "C" fn sam_line_expect(line: &mut SamLine, expects: bool, now: u64, alloc: Global) -> u32
    ensures { LineDone line.old.held.end (Expect expects now) result line.new.held.end }
{
    with_end!(line alloc mut end { end.expect(expects, now); OK })
}

/// Puts bytes for the host's program, all or none. Errors, in this order: `SAM_NO_HANDLE`; `SAM_COUNT_FULL`; `SAM_NO_MEMORY`.
#[unsafe(no_mangle)]
pub extern "C" fn sam_line_put(line: &mut SamLine, bytes: &[u8], now: u64, alloc: Global) -> u32
    ensures { LinePut line.old.held.end (Put bytes.now now) result line.new.held.end }
{
    with_end!(line alloc mut end { put_status(end.put(bytes, now)) })
}

/// Puts a note behind all that was put. Errors, in this order: `SAM_NO_HANDLE`; `SAM_LINK_TOO_LONG`; `SAM_COUNT_FULL`; `SAM_NO_MEMORY`.
#[unsafe(no_mangle)]
pub extern "C" fn sam_line_put_note(
    line: &mut SamLine,
    bytes: &[u8],
    now: u64,
    alloc: Global,
) -> u32
    ensures { LineNotePut line.old.held.end bytes.now now result line.new.held.end }
{
    with_end!(line alloc mut end { note_status(end.put_note(bytes, now)) })
}

/// Asks the host whether all has come, where that is to be asked. Errors, in this order: `SAM_NO_HANDLE`; `SAM_COUNT_FULL`;
/// `SAM_NO_MEMORY`.
#[unsafe(no_mangle)]
pub extern "C" fn sam_line_ask(line: &mut SamLine, now: u64, alloc: Global) -> u32
    ensures { LinePut line.old.held.end (Ask now) result line.new.held.end }
{
    with_end!(line alloc mut end { put_status(end.ask(now)) })
}

/// Tells the host how many of its bytes have come. Errors, in this order: `SAM_NO_HANDLE`; `SAM_COUNT_FULL`; `SAM_NO_MEMORY`.
#[unsafe(no_mangle)]
pub extern "C" fn sam_line_acknowledge(line: &mut SamLine, alloc: Global) -> u32
    ensures { LinePut line.old.held.end Acknowledge result line.new.held.end }
{
    with_end!(line alloc mut end { put_status(end.acknowledge()) })
}

/// Moves the next bytes for a connection into the buffer, as many as there are and have room, and hands out how many. Errors, in this
/// order: `SAM_NO_HANDLE`; `SAM_LINK_NOT_OPEN`.
#[unsafe(no_mangle)]
pub extern "C" fn sam_line_take_out(
    line: &mut SamLine,
    attempt: u64,
    into: &mut [u8],
    count: &mut usize,
    alloc: Global,
) -> u32
    ensures { LineTakenOut line.old.held.end attempt into.old into.new count.old result count.new line.new.held.end }
{
    with_end!(line alloc mut end {
        match end.take_out(attempt, into) {
            Ok(number) => {
                *count = number;
                OK
            }
            Err(why) => out_fault(why),
        }
    })
}

/// Takes the next piece of a connection, all of it or nothing. Errors: `SAM_NO_HANDLE`; then those of [`Line::receive`], in its order.
#[unsafe(no_mangle)]
pub extern "C" fn sam_line_receive(
    line: &mut SamLine,
    attempt: u64,
    bytes: &[u8],
    now: u64,
    alloc: Global,
) -> u32
    ensures { LineReceived line.old.held.end attempt bytes.now now result line.new.held.end }
{
    with_end!(line alloc mut end { receive_status(end.receive(attempt, bytes, now)) })
}

/// Moves the next bytes of the host's program into the buffer, as many as one packet has left and have room, and hands out how many.
/// `SAM_NO_HANDLE` if the handle is empty.
#[unsafe(no_mangle)]
pub extern "C" fn sam_line_take_in(
    line: &mut SamLine,
    into: &mut [u8],
    count: &mut usize,
    alloc: Global,
) -> u32
    ensures { LineTakenIn line.old.held.end into.old into.new count.old result count.new line.new.held.end }
{
    with_end!(line alloc mut end { *count = end.take_in(into); OK })
}

/// Moves the note that is next into the buffer, which has room for any.
fn hand_note(end: &mut Line, into: &mut [u8], len: &mut usize) -> u32
    requires { 4096 ≤ length into.old }
    ensures { LineNote end.old false into.old into.new len.old result len.new end.new }
{
    tell_some(end.next_note(into), len)
}

/// Moves the note that is next into the buffer, and hands out its length. Errors, in this order: `SAM_NO_HANDLE`; `SAM_LINK_NO_ROOM` if
/// the buffer has less room than the longest note; `SAM_NONE` if no note is next.
#[unsafe(no_mangle)]
pub extern "C" fn sam_line_next_note(
    line: &mut SamLine,
    into: &mut [u8],
    len: &mut usize,
    alloc: Global,
) -> u32
    ensures { LineNextNote line.old.held.end into.old into.new len.old result len.new line.new.held.end }
{
    with_end!(line alloc mut end {
        if into.len() < MOST_BODY {
            NO_ROOM
        } else {
            hand_note(&mut end, into, len)
        }
    })
}
