//! What C does with the records of a durable server: include/sulgrevad.h says of each call what it does. After `SAM_NO_HANDLE`, `SAM_NONE`
//! and `SAM_NO_ROOM` what the other arguments lead to is as it was.

ghost use Rattle.std.specs.Prelude.{◌≡◌, length, option_map, slice_get};
ghost use Rattle.sam_server.specs.DurableServers.{durable_by};
ghost use Rattle.sam_handles.specs.Calls.{ReportsSome};
ghost use Rattle.sam_c.specs.Servers.{Copies, CopiesSome, ServerDone, ServerNextRecord, copied, is_short, left_after};

use crate::server_handle::SamServer;
use sam_handles::status::{NO_ROOM, NONE, OK};
use sam_handles::telling::tell;
use sam_handles::with_end;
use sam_server::DurableServer;
use std::alloc::Global;

/// Copies all bytes to the front of the buffer and hands out how many they are, or returns `NO_ROOM` if it is too short.
pub(crate) fn copy_whole(bytes: &[u8], into: &mut [u8], len: &mut usize) -> u32
    ensures { Copies bytes.now (is_short (copied into.old len.old) bytes.now) (copied into.old len.old) result (copied into.new len.new) }
{
    if into.len() < bytes.len() {
        return NO_ROOM;
    }
    into[..bytes.len()].copy_from_slice(bytes);
    *len = bytes.len();
    OK
}

/// Hands out how many bytes the oldest record has that was not handed out. `SAM_NO_HANDLE` if the handle is empty; `SAM_NONE` if there is
/// none.
#[unsafe(no_mangle)]
pub extern "C" fn sam_server_record_len(
    server: &mut SamServer,
    len: &mut usize,
    alloc: Global,
) -> u32
    ensures told { ReportsSome server.old.held.end result len.old len.new (λ d. option_map length (slice_get d.records 0)) }
    ensures kept { server.new.held.end ≡ server.old.held.end }
{
    with_end!(server alloc end {
        match end.first_record() {
            Some(body) => tell(body.len(), len),
            None => NONE,
        }
    })
}

/// Copies the oldest record into the buffer, if there is one and it fits.
fn copy_record(end: &DurableServer, into: &mut [u8], len: &mut usize) -> u32
    ensures { CopiesSome (slice_get end.now.records 0) (copied into.old len.old) result (copied into.new len.new) }
{
    match end.first_record() {
        Some(body) => copy_whole(body, into, len),
        None => NONE,
    }
}

/// Moves the oldest record into the buffer, if there is one and it fits.
fn move_record(end: &mut DurableServer, into: &mut [u8], len: &mut usize) -> u32
    ensures copied { CopiesSome (slice_get end.old.records 0) (copied into.old len.old) result (copied into.new len.new) }
    ensures rest { end.new ≡ record end.old { records = left_after result end.old.records } }
{
    let status = copy_record(end, into, len);
    if status == OK {
        drop(end.next_record());
    }
    status
}

/// Hands out the bytes of the oldest record that was not handed out, all of them or nothing, and how many they are.
///
/// Errors, in this order: `SAM_NO_HANDLE`; `SAM_NONE` if there is none; `SAM_NO_ROOM` if the buffer is shorter than the record. After an
/// error all is as it was.
#[unsafe(no_mangle)]
pub extern "C" fn sam_server_next_record(
    server: &mut SamServer,
    into: &mut [u8],
    len: &mut usize,
    alloc: Global,
) -> u32
    ensures { ServerNextRecord server.old.held.end (copied into.old len.old) result (copied into.new len.new) server.new.held.end }
{
    with_end!(server alloc mut end { move_record(&mut end, into, len) })
}

/// Takes note that so many more of the records are durable, the oldest first. They may be no more than were handed out. `SAM_NO_HANDLE` if
/// the handle is empty.
#[unsafe(no_mangle)]
pub extern "C" fn sam_server_durable(server: &mut SamServer, count: usize, alloc: Global) -> u32
    ensures { ServerDone server.old.held.end (λ d. durable_by d count) result server.new.held.end }
{
    with_end!(server alloc mut end { end.durable(count); OK })
}
