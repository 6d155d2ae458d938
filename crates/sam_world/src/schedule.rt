//! How a terminal's log becomes a schedule of both sides.

ghost use Rattle.std.specs.Prelude.{◌≡◌, ◌++◌, ◌+◌, ◌≤◌, ◌↔◌, length, IfOk, Err, IsTrue, replicate, not, vec_capacity};
ghost use Rattle.sam_world.specs.Merging.{merged, is_bad_log, events_of, done_after, is_bad_entry, IsRoomForMerge};

use crate::event::{Event, TermLog};
use std::alloc::{AllocError, Global};
use std::marker::Model;
use thiserror::Error;

/// Why no schedule was made of a log. `BadLog` is tested first, for the whole log.
#[derive(Clone, Copy, Debug, PartialEq, Eq, Error)]
pub enum MergeFault {
    /// The log takes a frame that saw more messages than the host took in all.
    #[error("the log takes a frame from the future")]
    BadLog = 1,
    /// A request for memory was refused. The same call may be made again.
    #[error("out of memory")]
    OutOfMemory = 2,
}

/// All memory of a merge: an empty schedule, with room for each event of it. One room serves one merge, by [`merge_within`]. Contracts see
/// the number of events that it has room for.
#[derive(Drop)]
pub struct MergeRoom {
    /// The schedule, still empty.
    events: Vec<Event>,
}

impl Model for MergeRoom {
    ghost use Rattle.std.specs.Prelude.{◌≡◌, ℕ, [], vec_capacity};

    ghost Value = { ℕ };

    ghost view = { λ r. vec_capacity r.events };

    ghost invariant = { λ r. r.events.items ≡ [] };
}

impl MergeRoom {
    /// Makes room for the schedule that [`merge`] makes of this log and count. It has an event for each entry of the log and for each
    /// message that the host took.
    ///
    /// Errors, in this order: `BadLog` as `merge` returns it, whatever memory does; then `OutOfMemory`, also where the number of events
    /// would be above 2^64-1. The cost is one look at each entry and one request for memory.
    #[tactic(auto, using(crate::proofs::MergeRooms::merged_long))]
    pub fn new(alloc: Global, log: &[TermLog], host_taken: u64) -> Result<MergeRoom, MergeFault>
        ensures room { IfOk result (IsRoomForMerge log.now host_taken) }
        ensures exact { IfOk result (λ room. room ≡ length (merged log.now host_taken)) }
        ensures bad { (result ≡ Err MergeFault.BadLog) ↔ IsTrue (is_bad_log log.now host_taken) }
    {
        if is_bad(log, host_taken) {
            return Err(MergeFault::BadLog);
        }
        match room_for(alloc, log.len(), host_taken) {
            Ok(room) => Ok(room),
            Err(_) => Err(MergeFault::OutOfMemory),
        }
    }
}

/// Returns true if and only if some entry of the log takes a frame that saw more than `host_taken` messages.
fn is_bad(log: &[TermLog], host_taken: u64) -> bool
    ensures { result ≡ is_bad_log log.now host_taken }
{
    for entry in log {
        if !fits_entry(entry, host_taken) {
            return true;
        }
    }
    false
}

/// Returns false if and only if the entry takes a frame that saw more than `host_taken` messages.
fn fits_entry(entry: &TermLog, host_taken: u64) -> bool
    ensures { result ≡ not (is_bad_entry entry.now host_taken) }
{
    match entry {
        TermLog::Take(k) => *k <= host_taken,
        _ => true,
    }
}

/// Makes room for as many events as there are entries and messages together.
fn room_for(alloc: Global, entries: usize, host_taken: u64) -> Result<MergeRoom, AllocError>
    ensures { IfOk result (λ room. room ≡ entries + host_taken) }
{
    let Some(count) = entries.checked_add(host_taken as usize) else {
        return Err(AllocError);
    };
    let events = Vec::with_capacity(alloc, count)?;
    Ok(MergeRoom { events })
}

/// Returns the schedule of both sides that a terminal's log stands for, where the host took `host_taken` messages in all. It is the
/// log in its order, with the host's takes put in: before each frame that the terminal takes, as many as are missing to the number of
/// messages that the frame had seen, and at the end those that are left. Whether a world can make these steps is not looked at.
///
/// Errors, in this order: `BadLog` if and only if some frame of the log saw more than `host_taken` messages, whatever memory does;
/// then `OutOfMemory`. The cost goes by the log and `host_taken`, with a copy of each user event.
pub fn merge(alloc: Global, log: &[TermLog], host_taken: u64) -> Result<Vec<Event>, MergeFault>
    ensures merged { IfOk result (λ events. events.items ≡ merged log.now host_taken) }
    ensures bad { (result ≡ Err MergeFault.BadLog) ↔ IsTrue (is_bad_log log.now host_taken) }
{
    let room = MergeRoom::new(alloc, log, host_taken)?;
    match merge_copies(alloc, room, log, host_taken) {
        Ok(events) => Ok(events),
        Err(_) => Err(MergeFault::OutOfMemory),
    }
}

/// Returns the schedule that [`merge`] makes of the log and the count, in room that was made for it. The user events of the log are moved
/// into the schedule, so it takes no memory and is never refused. The cost goes by the log and `host_taken`.
pub fn merge_within(room: MergeRoom, log: Vec<TermLog>, host_taken: u64) -> Vec<Event>
    requires { IsRoomForMerge log.items host_taken room }
    ensures { result.items ≡ merged log.items host_taken }
{
    let MergeRoom { mut events } = room;
    let mut done = 0;
    for entry in log {
        done = push_entry(&mut events, done, entry);
    }
    push_takes(&mut events, host_taken.saturating_sub(done));
    events
}

/// Does the same with a copy of each entry. The only error is out of memory.
fn merge_copies(
    alloc: Global,
    room: MergeRoom,
    log: &[TermLog],
    host_taken: u64,
) -> Result<Vec<Event>, AllocError>
    requires { IsRoomForMerge log.now host_taken room }
    ensures { IfOk result (λ events. events.items ≡ merged log.now host_taken) }
{
    let MergeRoom { mut events } = room;
    let mut done = 0;
    for entry in log {
        done = push_entry(&mut events, done, copied(alloc, entry)?);
    }
    push_takes(&mut events, host_taken.saturating_sub(done));
    Ok(events)
}

/// Returns a copy of the entry. The only error is out of memory.
fn copied(alloc: Global, entry: &TermLog) -> Result<TermLog, AllocError>
    ensures { IfOk result (λ copy. copy ≡ entry.now) }
{
    match entry {
        TermLog::User(event) => Ok(TermLog::User(event.copy(alloc)?)),
        TermLog::Act => Ok(TermLog::Act),
        TermLog::Flush => Ok(TermLog::Flush),
        TermLog::Take(k) => Ok(TermLog::Take(*k)),
    }
}

/// Appends the events of one entry, before which the host has taken `done` messages. Returns how many it has taken after them.
fn push_entry(out: &mut Vec<Event>, done: u64, entry: TermLog) -> u64
    requires room { length out.old.items + length (events_of done entry) ≤ vec_capacity out.old }
    ensures events { out.new.items ≡ out.old.items ++ events_of done entry }
    ensures done { result ≡ done_after done entry }
    ensures room { vec_capacity out.new ≡ vec_capacity out.old }
{
    match entry {
        TermLog::User(event) => {
            out.push_reserved(Event::User(event));
            done
        }
        TermLog::Act => {
            out.push_reserved(Event::Act);
            done
        }
        TermLog::Flush => {
            out.push_reserved(Event::Flush);
            done
        }
        TermLog::Take(k) => {
            push_takes(out, k.saturating_sub(done));
            out.push_reserved(Event::TermTake);
            done.max(k)
        }
    }
}

/// Appends this many takes of the host.
fn push_takes(out: &mut Vec<Event>, count: u64)
    requires room { length out.old.items + count ≤ vec_capacity out.old }
    ensures takes { out.new.items ≡ out.old.items ++ replicate count Event.HostTake }
    ensures room { vec_capacity out.new ≡ vec_capacity out.old }
{
    for _made in 0..count {
        out.push_reserved(Event::HostTake);
    }
}
