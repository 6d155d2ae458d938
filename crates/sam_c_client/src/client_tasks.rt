//! What C asks of a client's host program, and says of its windows: include/sulgrevad.h says of each call what it does. A call returns a
//! number of `sam_status`; after `SAM_NO_HANDLE` and each refusal what its other arguments lead to is as it was. `now` is the time, in
//! milliseconds.

ghost use Rattle.std.specs.Prelude.{Some};
ghost use Rattle.sam_c_client.specs.Clients.{BeginsOne, ClientBegun, ClientForgot, ClientRan, ClientRanOne, ClientRested, ClientSaw, ClientWrote};
ghost use Rattle.sam_c_client.specs.Clients.{RunsOne, WritesOne};

use crate::client_end::ClientEnd;
use crate::client_status::{begin_status, order_of, run_status, write_status};
use crate::handle::SamClient;
use sam_front::{Order, Seen};
use sam_handles::note_status::fault_status;
use sam_handles::status::{NO_HANDLE, NO_MEMORY, OK, read_status};
use sam_handles::with_end;
use sam_note::NoteFault;
use sam_runes::read_utf8;
use std::alloc::Global;

/// Begins a task of a client, and hands out its number.
fn begin(end: &mut ClientEnd, order: Order, tag: u16, path: &[u8], now: u64, task: &mut u32) -> u32
    ensures { BeginsOne end.old (Some order) (tag, path.now) now task.old result (end.new, task.new) }
{
    let came = end.front.begin(order, tag, path, now);
    if let Ok(number) = came {
        *task = number;
    }
    begin_status(came)
}

/// Asks the host's program to do something with the file at a path, or with the file of a tag, and hands out the number of the task:
/// `sam_client_next_event` tells once that it is answered, or that no answer comes.
///
/// Returns `SAM_OK`, or in this order `SAM_NO_HANDLE`; `SAM_NOTE_BAD_KIND` if this kind of message asks for nothing so; what
/// [`Front::begin`](sam_front::Front::begin) answers, in its order: `SAM_TOO_MANY`, `SAM_COUNT_FULL` and `SAM_NO_MEMORY` of the task,
/// `SAM_NOTE_BAD_FIELD`, `SAM_NOTE_BAD_LENGTH`, `SAM_NOTE_BAD_PATH`, `SAM_COUNT_FULL` and `SAM_NO_MEMORY` of the line. After an error no
/// task is begun.
#[unsafe(no_mangle)]
pub extern "C" fn sam_client_begin(
    client: &mut SamClient,
    kind: u32,
    tag: u16,
    path: &[u8],
    now: u64,
    task: &mut u32,
    alloc: Global,
) -> u32
    ensures { ClientBegun client.old.held.end kind (tag, path.now) now task.old result task.new client.new.held.end }
{
    with_end!(client alloc mut end {
        match order_of(kind) {
            Some(order) => begin(&mut end, order, tag, path, now, task),
            None => fault_status(NoteFault::BadKind),
        }
    })
}

/// Asks a client for a write, and hands out the number of its task.
fn write(end: &mut ClientEnd, tag: u16, task: &mut u32) -> u32
    ensures { WritesOne end.old tag task.old result (end.new, task.new) }
{
    let came = end.front.write(tag);
    if let Ok(number) = came {
        *task = number;
    }
    write_status(came)
}

/// Asks for a file to be written as it is shown now, behind what was asked for before, and hands out the number of the task. A write that
/// shares one that waits is that task.
///
/// Returns `SAM_OK`, or in this order `SAM_NO_HANDLE`; what [`Front::write`](sam_front::Front::write) answers, in its order:
/// `SAM_TOO_MANY`, `SAM_COUNT_FULL` and `SAM_NO_MEMORY` of the task, `SAM_COUNT_FULL`, `SAM_WAITING`, `SAM_TOO_MANY`, `SAM_COUNT_FULL` and
/// `SAM_NO_MEMORY` of the request. After an error the client and the number are as they were.
#[unsafe(no_mangle)]
pub extern "C" fn sam_client_write(
    client: &mut SamClient,
    tag: u16,
    task: &mut u32,
    alloc: Global,
) -> u32
    ensures { ClientWrote client.old.held.end tag task.old result task.new client.new.held.end }
{
    with_end!(client alloc mut end { write(&mut end, tag, task) })
}

/// Has a client take a command line, and hands out its number.
fn run(end: &mut ClientEnd, tag: u16, line: &[char], request: &mut u64, alloc: Global) -> u32
    ensures { RunsOne end.old tag line.now request.old result (end.new, request.new) }
{
    let came = end.front.run(tag, line, alloc);
    if let Ok(number) = came {
        *request = number;
    }
    run_status(came)
}

/// Has the client that a handle holds take a command line.
fn run_one(client: &mut SamClient, tag: u16, line: &[char], request: &mut u64, alloc: Global) -> u32
    ensures { ClientRanOne client.old.held.end tag line.now request.old result request.new client.new.held.end }
{
    with_end!(client alloc mut end { run(&mut end, tag, line, request, alloc) })
}

/// Has the host run a command line on an open file, behind what was asked for before, and hands out the number of its request:
/// `sam_client_next_event` tells once that it has run, and what it printed, or that it was refused, or lapsed.
///
/// Returns `SAM_OK`, or in this order `SAM_NO_HANDLE`; `SAM_NOT_TEXT` if the line is not UTF-8, and `SAM_NO_MEMORY` if there is no memory
/// for its runes; what [`Front::run`](sam_front::Front::run) answers, in its order: `SAM_NOT_TEXT` for a newline,
/// `SAM_REFUSAL_NOT_OPEN`, `SAM_REFUSAL_TEXT_TOO_LONG`, `SAM_TOO_MANY`, `SAM_NO_MEMORY` for the line; `SAM_COUNT_FULL`, `SAM_WAITING`,
/// `SAM_NO_MEMORY` for a request. After an error the line doesn't run, and the number is as it was.
#[unsafe(no_mangle)]
pub extern "C" fn sam_client_run(
    client: &mut SamClient,
    tag: u16,
    line: &[u8],
    request: &mut u64,
    alloc: Global,
) -> u32
    ensures { ClientRan client.old.held.end tag line.now request.old result request.new client.new.held.end }
{
    if !client.is_made() {
        return NO_HANDLE;
    }
    match read_utf8(alloc, line) {
        Ok(runes) => run_one(client, tag, runes.as_slice(), request, alloc),
        Err(why) => read_status(why),
    }
}

/// Notes what a window shows of a file: that is loaded first, and the rest of the file while nobody types. Errors, in this order:
/// `SAM_NO_HANDLE`; `SAM_NO_MEMORY`. After an error the client is as it was.
#[unsafe(no_mangle)]
pub extern "C" fn sam_client_see(
    client: &mut SamClient,
    tag: u16,
    start: u32,
    end: u32,
    alloc: Global,
) -> u32
    ensures { ClientSaw client.old.held.end (record { tag = tag; start = start; end = end }) result client.new.held.end }
{
    let seen = Seen { tag, start, end };
    with_end!(client alloc mut end {
        match end.front.see(seen) {
            Ok(()) => OK,
            Err(_) => NO_MEMORY,
        }
    })
}

/// Notes that no window shows a file: nothing of it is loaded by itself from now on. `SAM_NO_HANDLE` if the handle is empty.
#[unsafe(no_mangle)]
pub extern "C" fn sam_client_forget(client: &mut SamClient, tag: u16, alloc: Global) -> u32
    ensures { ClientForgot client.old.held.end tag result client.new.held.end }
{
    with_end!(client alloc mut end { end.front.forget(tag); OK })
}

/// Notes that the user pressed a key which edits nothing: only what windows show is loaded for a second. `SAM_NO_HANDLE` if the handle is
/// empty.
#[unsafe(no_mangle)]
pub extern "C" fn sam_client_rest(client: &mut SamClient, now: u64, alloc: Global) -> u32
    ensures { ClientRested client.old.held.end now result client.new.held.end }
{
    with_end!(client alloc mut end { end.front.rest(now); OK })
}
