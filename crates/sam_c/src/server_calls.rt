//! What C calls of a durable server: include/sulgrevad.h says of each call what it does. A call returns a number of `sam_status`; after
//! `SAM_NO_HANDLE`, `SAM_NONE` and each refusal what its other arguments lead to is as it was.

ghost use Rattle.sam_link.specs.End.{broken};
ghost use Rattle.sam_server.specs.DurableServers.{RefusesAcknowledge, RefusesAsk, RefusesMark, RefusesNote, RefusesPiece, new_durable_server, with_link};
ghost use Rattle.sam_server.specs.Records.{Acknowledged, Asked, Came, Marked, Said};
ghost use Rattle.sam_handles.specs.Calls.{Freed};
ghost use Rattle.sam_handles.specs.Status.{mark_status};
ghost use Rattle.sam_c.specs.Servers.{MadeWith, ServerAccepted, ServerAdded, ServerDone, ServerTakenOut, ServerTook, ServerWentOn, TakesHello, Takes};
ghost use Rattle.sam_c.specs.Servers.{feed_refusal, note_refusal, put_refusal};

use crate::server_handle::SamServer;
use crate::server_status::{fault_number, stop_status};
use sam_handles::link_id::SamLinkId;
use sam_handles::link_status::{feed_status, link_refusal, note_status, out_fault, put_status};
use sam_handles::status::{
    MADE, NO_HANDLE, NO_MEMORY, NONE, OK, UNFINISHED, WAITING, add_status, mark_status,
};
use sam_handles::with_end;
use sam_link::read_hello;
use sam_server::{CallFault, DurableServer, GoOnFault};
use std::alloc::Global;

/// Makes a server of the session with this id, without files and before its first connection. Errors, in this order: `SAM_MADE` if the
/// handle is made already; `SAM_NO_MEMORY`. After an error the handle is as it was.
#[unsafe(no_mangle)]
pub extern "C" fn sam_server_new(server: &mut SamServer, id: &SamLinkId, alloc: Global) -> u32
    ensures { MadeWith new_durable_server server.old.held.end id.now.bytes result server.new.held.end }
{
    if server.is_made() {
        return MADE;
    }
    let Ok(end) = DurableServer::new(alloc, id.to_id()) else {
        return NO_MEMORY;
    };
    let Ok(end) = Box::new(alloc, end) else {
        return NO_MEMORY;
    };
    server.put(end);
    OK
}

/// Frees a server, with the records that it has. The handle is then empty. `SAM_NO_HANDLE` if it is empty already.
#[unsafe(no_mangle)]
pub extern "C" fn sam_server_free(server: &mut SamServer, alloc: Global) -> u32
    ensures { Freed server.old.held.end result server.new.held.end }
{
    match server.take(alloc) {
        Some(_end) => OK,
        None => NO_HANDLE,
    }
}

/// Adds a file, and hands out its tag. The name and the text are UTF-8.
///
/// Errors, in this order: `SAM_NO_HANDLE`; why the server has stopped; `SAM_WAITING`; `SAM_NO_MEMORY`; the refusals of `sam_host_add_file`;
/// `SAM_UNFINISHED`, after which the file has joined under the next tag. After an error the tag is as it was, and after all but the last
/// the server too.
#[unsafe(no_mangle)]
pub extern "C" fn sam_server_add_file(
    server: &mut SamServer,
    name: &[u8],
    text: &[u8],
    tag: &mut u16,
    alloc: Global,
) -> u32
    ensures { ServerAdded server.old.held.end name.now text.now tag.old result tag.new server.new.held.end }
{
    with_end!(server alloc mut end {
        match end.add_file(name, text) {
            Ok(given) => {
                *tag = given;
                OK
            }
            Err(why) => fault_number!(why, refusal => add_status(refusal)),
        }
    })
}

/// Takes a terminal's hello, and returns the number of what came of it.
fn accept(end: &mut DurableServer, bytes: &[u8]) -> u32
    ensures { TakesHello end.old bytes.now result end.new }
{
    match read_hello(bytes) {
        Ok(Some(hello)) => match end.accept(hello) {
            Ok(()) => OK,
            Err(why) => fault_number!(why, refusal => link_refusal(refusal)),
        },
        Ok(None) => NONE,
        Err(why) => link_refusal(why),
    }
}

/// Takes the connection of this hello, and the one before is over.
///
/// Errors, in this order: `SAM_NO_HANDLE`; those of [`read_hello`], and `SAM_NONE` of fewer than 42 bytes; why the server has stopped;
/// `SAM_WAITING`; `SAM_NO_MEMORY`; the refusals of a link; `SAM_UNFINISHED`, after which the connection is taken. After all but the last
/// the server is as it was.
#[unsafe(no_mangle)]
pub extern "C" fn sam_server_accept(server: &mut SamServer, bytes: &[u8], alloc: Global) -> u32
    ensures { ServerAccepted server.old.held.end bytes.now result server.new.held.end }
{
    with_end!(server alloc mut end { accept(&mut end, bytes) })
}

/// Takes a piece, and returns the number of what came of it.
fn receive(end: &mut DurableServer, attempt: u64, bytes: &[u8]) -> u32
    ensures { Takes (Came attempt bytes.now) (λ d. RefusesPiece d attempt bytes.now) feed_refusal end.old result end.new }
{
    match end.receive(attempt, bytes) {
        Ok(()) => OK,
        Err(why) => fault_number!(why, refusal => feed_status(Err(refusal))),
    }
}

/// Takes the next piece of what a connection brought behind its hello, all of it or nothing.
///
/// Errors, in this order: `SAM_NO_HANDLE`; why the server has stopped before; `SAM_WAITING`; `SAM_NO_MEMORY`; the refusals of
/// `sam_link_feed`; `SAM_UNFINISHED`, after which the piece is taken, or why the server has stopped at this call.
#[unsafe(no_mangle)]
pub extern "C" fn sam_server_receive(
    server: &mut SamServer,
    attempt: u64,
    bytes: &[u8],
    alloc: Global,
) -> u32
    ensures { ServerTook server.old.held.end (Came attempt bytes.now) (λ d. RefusesPiece d attempt bytes.now) feed_refusal result
        server.new.held.end }
{
    with_end!(server alloc mut end { receive(&mut end, attempt, bytes) })
}

/// A connection is over, or broke. One that isn't the newest changes nothing. `SAM_NO_HANDLE` if the handle is empty.
#[unsafe(no_mangle)]
pub extern "C" fn sam_server_broken(server: &mut SamServer, attempt: u64, alloc: Global) -> u32
    ensures { ServerDone server.old.held.end (λ d. with_link d (broken d.turn.server.link attempt)) result server.new.held.end }
{
    with_end!(server alloc mut end { end.broken(attempt); OK })
}

/// Goes on with what was taken last, where a call returned `SAM_UNFINISHED`; does nothing if nothing is left.
///
/// Errors, in this order: `SAM_NO_HANDLE`; why the server has stopped; `SAM_UNFINISHED`, after which it may be called again.
#[unsafe(no_mangle)]
pub extern "C" fn sam_server_go_on(server: &mut SamServer, alloc: Global) -> u32
    ensures { ServerWentOn server.old.held.end result server.new.held.end }
{
    with_end!(server alloc mut end {
        match end.go_on() {
            Ok(()) => OK,
            Err(GoOnFault::Stopped(why)) => stop_status(why),
            Err(GoOnFault::Unfinished) => UNFINISHED,
        }
    })
}

/// Moves the next bytes for a connection into the buffer, as many as durable records decide and have room, and hands out how many: none
/// while something waits for `sam_server_go_on`. Errors, in this order: `SAM_NO_HANDLE`; `SAM_LINK_NOT_OPEN`.
#[unsafe(no_mangle)]
pub extern "C" fn sam_server_take_out(
    server: &mut SamServer,
    attempt: u64,
    into: &mut [u8],
    count: &mut usize,
    alloc: Global,
) -> u32
    ensures { ServerTakenOut server.old.held.end attempt into.old into.new count.old result count.new server.new.held.end }
{
    with_end!(server alloc mut end {
        match end.take_out(attempt, into) {
            Ok(number) => {
                *count = number;
                OK
            }
            Err(why) => out_fault(why),
        }
    })
}

/// Puts a message for the terminal's program, behind all that was put.
///
/// Errors, in this order: `SAM_NO_HANDLE`; why the server has stopped; `SAM_WAITING`; `SAM_NO_MEMORY`; `SAM_LINK_TOO_LONG`;
/// `SAM_COUNT_FULL`; `SAM_UNFINISHED`, after which the message is put. After all but the last the server is as it was.
#[unsafe(no_mangle)]
pub extern "C" fn sam_server_say(server: &mut SamServer, message: &[u8], alloc: Global) -> u32
    ensures { ServerTook server.old.held.end (Said message.now) (λ d. RefusesNote d message.now) note_refusal result server.new.held.end }
{
    with_end!(server alloc mut end {
        match end.say(message) {
            Ok(()) => OK,
            Err(why) => fault_number!(why, refusal => note_status(Err(refusal))),
        }
    })
}

/// Marks a file as dirty: where its write failed, before `sam_server_effect_done`.
///
/// Errors, in this order: `SAM_NO_HANDLE`; why the server has stopped before; `SAM_WAITING`; `SAM_NO_MEMORY`; the refusals of
/// `sam_host_mark_dirty`; `SAM_UNFINISHED`, after which the file is marked, or why the server has stopped at this call. After a refusal the
/// server is as it was.
#[unsafe(no_mangle)]
pub extern "C" fn sam_server_mark_dirty(server: &mut SamServer, tag: u16, alloc: Global) -> u32
    ensures { ServerTook server.old.held.end (Marked tag) (λ d. RefusesMark d tag) mark_status result server.new.held.end }
{
    with_end!(server alloc mut end {
        match end.mark_dirty(tag) {
            Ok(()) => OK,
            Err(why) => fault_number!(why, refusal => mark_status(refusal)),
        }
    })
}

/// Asks the terminal to acknowledge what it has.
///
/// Errors, in this order: `SAM_NO_HANDLE`; why the server has stopped; `SAM_WAITING`; `SAM_NO_MEMORY`; `SAM_COUNT_FULL`; `SAM_UNFINISHED`,
/// after which it is asked. After all but the last the server is as it was.
#[unsafe(no_mangle)]
pub extern "C" fn sam_server_ask(server: &mut SamServer, alloc: Global) -> u32
    ensures { ServerTook server.old.held.end Asked RefusesAsk put_refusal result server.new.held.end }
{
    with_end!(server alloc mut end {
        match end.ask() {
            Ok(()) => OK,
            Err(why) => fault_number!(why, refusal => put_status(Err(refusal))),
        }
    })
}

/// Tells the terminal how many bytes of its stream have come.
///
/// Errors, in this order: `SAM_NO_HANDLE`; why the server has stopped; `SAM_WAITING`; `SAM_NO_MEMORY`; `SAM_COUNT_FULL`; `SAM_UNFINISHED`,
/// after which it is told. After all but the last the server is as it was.
#[unsafe(no_mangle)]
pub extern "C" fn sam_server_acknowledge(server: &mut SamServer, alloc: Global) -> u32
    ensures { ServerTook server.old.held.end Acknowledged RefusesAcknowledge put_refusal result server.new.held.end }
{
    with_end!(server alloc mut end {
        match end.acknowledge() {
            Ok(()) => OK,
            Err(why) => fault_number!(why, refusal => put_status(Err(refusal))),
        }
    })
}
