//! What C calls to make a durable server again of its records: include/sulgrevad.h says of each call what it does.

ghost use Rattle.std.specs.Prelude.{◌≡◌};
ghost use Rattle.std.specs.Result.{result_map_both};
ghost use Rattle.sam_server.specs.Recovering.{Retakes};
ghost use Rattle.sam_server.specs.Servers.{new_server};
ghost use Rattle.sam_handles.specs.Calls.{Freed};
ghost use Rattle.sam_c.specs.Servers.{MadeWith, RecoveryFinished, RecoveryTook};

use crate::server_handle::{SamRecovery, SamServer};
use crate::server_status::recovery_fault;
use sam_handles::link_id::SamLinkId;
use sam_handles::status::{MADE, NO_HANDLE, NO_MEMORY, OK};
use sam_link::Id;
use sam_server::{DurableServer, Recovery, RecoveryFault};
use std::alloc::Global;

/// The session of a server that only keeps room for another.
const NO_SESSION: Id = Id { first: 0, last: 0 };

/// Begins with the server of this session that has taken nothing. Errors, in this order: `SAM_MADE` if the handle is made already;
/// `SAM_NO_MEMORY`. After an error the handle is as it was.
#[unsafe(no_mangle)]
pub extern "C" fn sam_recovery_new(recovery: &mut SamRecovery, id: &SamLinkId, alloc: Global) -> u32
    ensures { MadeWith new_server recovery.old.held.end id.now.bytes result recovery.new.held.end }
{
    if recovery.is_made() {
        return MADE;
    }
    let Ok(end) = Recovery::new(alloc, id.to_id()) else {
        return NO_MEMORY;
    };
    let Ok(end) = Box::new(alloc, end) else {
        return NO_MEMORY;
    };
    recovery.put(end);
    OK
}

/// Frees a recovery. The handle is then empty. `SAM_NO_HANDLE` if it is empty already.
#[unsafe(no_mangle)]
pub extern "C" fn sam_recovery_free(recovery: &mut SamRecovery, alloc: Global) -> u32
    ensures { Freed recovery.old.held.end result recovery.new.held.end }
{
    match recovery.take(alloc) {
        Some(_end) => OK,
        None => NO_HANDLE,
    }
}

/// Takes a record again, and returns a box with what came of it.
#[tactic(auto, using(crate::proofs::ServerLaws::taken_without_room))]
fn retake(end: Recovery, body: &[u8], alloc: Global) -> Result<Box<Recovery>, RecoveryFault>
    ensures { Retakes end body.now (result_map_both (λ b. b.value) (λ why. why) result) }
{
    let next = end.take(body)?;
    match Box::new(alloc, next) {
        Ok(next) => Ok(next),
        Err(_) => Err(RecoveryFault::OutOfMemory),
    }
}

/// Takes the next record of the journal again.
///
/// Errors, in this order: `SAM_NO_HANDLE`; `SAM_SERVER_NO_RECORD`; then `SAM_SERVER_NOT_TAKEN` or `SAM_NO_MEMORY`, whichever shows first.
/// After an error the handle is empty.
#[unsafe(no_mangle)]
pub extern "C" fn sam_recovery_take(recovery: &mut SamRecovery, body: &[u8], alloc: Global) -> u32
    ensures { RecoveryTook recovery.old.held.end body.now result recovery.new.held.end }
{
    let Some(end) = recovery.take(alloc) else {
        return NO_HANDLE;
    };
    match retake(Box::into_inner(end), body, alloc) {
        Ok(next) => {
            recovery.put(next);
            OK
        }
        Err(why) => recovery_fault(why),
    }
}

/// Puts the value in place of the one in the box, which is dropped.
fn refill<T: Drop>(room: &mut Box<T>, value: T)
    ensures { room.new.value ≡ value }
{
    **room = value;
}

/// Puts the server that goes on into a handle. The recovery's handle is then empty.
///
/// Errors, in this order: `SAM_NO_HANDLE` if the recovery's handle is empty; `SAM_MADE` if the server's is made already; `SAM_NO_MEMORY`.
/// After an error both handles are as they were.
#[tactic(auto, using(crate::proofs::ServerLaws::recovery_finished))]
#[unsafe(no_mangle)]
pub extern "C" fn sam_recovery_finish(
    recovery: &mut SamRecovery,
    server: &mut SamServer,
    alloc: Global,
) -> u32
    ensures { RecoveryFinished recovery.old.held.end server.old.held.end result recovery.new.held.end server.new.held.end }
{
    if !recovery.is_made() {
        return NO_HANDLE;
    }
    if server.is_made() {
        return MADE;
    }
    let Ok(blank) = DurableServer::new(alloc, NO_SESSION) else {
        return NO_MEMORY;
    };
    let Ok(mut end) = Box::new(alloc, blank) else {
        return NO_MEMORY;
    };
    let Some(made) = recovery.take(alloc) else {
        return NO_HANDLE;
    };
    refill(&mut end, Box::into_inner(made).finish());
    server.put(end);
    OK
}
