//! The numbers by which C knows what came of a call: enum sam_status of include/sulgrevad.h.

ghost use Rattle.std.specs.Prelude.{◌≡◌};
ghost use Rattle.sam_handles.specs.Status.{add_status, bring_status, host_finish_status, host_refusal, host_status, host_stop_status, mark_status};
ghost use Rattle.sam_handles.specs.Status.{refusal_status, read_status, stream_status, term_finish_status, term_refusal, term_status};
ghost use Rattle.sam_handles.specs.Status.{term_stop_status, truncated};

use sam_endpoint::{
    AddFault, BringFault, EndpointFault, FinishFault, HostStop, StreamFault, TermStop,
};
use sam_frame::FeedFault;
use sam_host::{HostFault, MarkFault};
use sam_runes::ReadFault;
use sam_term::{Refusal, TermFault};

/// The call has done what it was asked.
pub const OK: u32 = 0;

/// Memory was refused, and what the call brought was not taken: make it again.
pub const NO_MEMORY: u32 = 1;

/// Memory was refused, but what the call brought was taken: the next call that feeds, brings an event or lets the handle go on does what
/// waits.
pub const UNFINISHED: u32 = 2;

/// The stream would have 2^64 bytes, or there would be 2^64 events. What the call brought was not taken.
pub const COUNT_FULL: u32 = 3;

/// The handle is empty: not made yet, or freed.
pub const NO_HANDLE: u32 = 4;

/// The handle is made already.
pub const MADE: u32 = 5;

/// The bytes are not UTF-8.
pub const NOT_TEXT: u32 = 6;

/// What was asked for is not there: no such file, none that is open, no saved text, no gap, no current file, or nothing more to hand out.
pub const NONE: u32 = 7;

/// Some of what came before waits, and what the call brought was not taken.
pub const WAITING: u32 = 8;

/// The buffer has less room than what is handed out may need.
pub const NO_ROOM: u32 = 9;

/// As many requests wait as may, and this one was not taken.
pub const TOO_MANY: u32 = 10;

/// Added to the number, from 1, of why a file is not added; so too in the families below. Bytes that are no text, a file that isn't there
/// to be marked, and out of memory for a file, a mark or a script are `NOT_TEXT`, `NONE` and `NO_MEMORY` in place of that.
const ADD: u32 = 16;

/// Added to the number of what is wrong with the other side's stream, which has stopped the handle.
const STREAM: u32 = 32;

/// Added to the number of why a file is not marked as dirty.
const MARK: u32 = 48;

/// Added to the number of why the host refused a message, which has stopped the handle.
const HOST_REFUSED: u32 = 64;

/// Added to the number of why the terminal refused a frame, or could not count a message, which has stopped the handle.
const TERM_REFUSED: u32 = 96;

/// Added to the number of why the terminal refused an event. The handle goes on.
const REFUSAL: u32 = 128;

/// Returns the number of why a text is not read.
pub fn read_status(why: ReadFault) -> u32
    ensures { result ≡ read_status why }
{
    match why {
        ReadFault::NotText => NOT_TEXT,
        ReadFault::OutOfMemory => NO_MEMORY,
    }
}

/// Returns the number of why a file is not added.
pub fn add_status(why: AddFault) -> u32
    ensures { result ≡ add_status why }
{
    match why {
        AddFault::NotText => NOT_TEXT,
        AddFault::OutOfMemory => NO_MEMORY,
        AddFault::TooLong | AddFault::NoTag => ADD + why as u32,
    }
}

/// Returns the number of why a file is not marked as dirty.
pub fn mark_status(why: MarkFault) -> u32
    ensures { result ≡ mark_status why }
{
    match why {
        MarkFault::NoFile => NONE,
        MarkFault::OutOfMemory => NO_MEMORY,
        MarkFault::CommandFile | MarkFault::NotAnnounced => MARK + why as u32,
    }
}

/// Returns the number of what is wrong with a stream.
fn stream_status(why: StreamFault) -> u32
    ensures { result ≡ stream_status why }
{
    STREAM + why as u32
}

/// Returns the number by which a stream ends inside a message or frame. Only the calls that ask whether it may end return it, and the
/// handle goes on.
fn truncated() -> u32
    ensures { result ≡ truncated }
{
    STREAM + FeedFault::<()>::Truncated.number() as u32
}

/// Returns the number of why the host refused a message.
fn host_refusal(why: HostFault) -> u32
    ensures { result ≡ host_refusal why }
{
    HOST_REFUSED + why as u32
}

/// Returns the number of why a host has stopped.
pub fn host_stop_status(why: HostStop) -> u32
    ensures { result ≡ host_stop_status why }
{
    match why {
        HostStop::Stream(why) => stream_status(why),
        HostStop::Refused(why) => host_refusal(why),
    }
}

/// Returns the number of why the terminal refused a frame.
fn term_refusal(why: TermFault) -> u32
    ensures { result ≡ term_refusal why }
{
    TERM_REFUSED + why as u32
}

/// Returns the number of why a terminal has stopped.
pub fn term_stop_status(why: TermStop) -> u32
    ensures { result ≡ term_stop_status why }
{
    match why {
        TermStop::Stream(why) => stream_status(why),
        TermStop::Refused(why) => term_refusal(why),
    }
}

/// Returns the number of why an event was refused.
pub fn refusal_status(why: Refusal) -> u32
    ensures { result ≡ refusal_status why }
{
    REFUSAL + why as u32
}

/// Returns the number of what came of a call to a host end.
pub fn host_status(came: Result<(), EndpointFault<HostStop>>) -> u32
    ensures { result ≡ host_status came }
{
    match came {
        Ok(()) => OK,
        Err(EndpointFault::OutOfMemory) => NO_MEMORY,
        Err(EndpointFault::Unfinished) => UNFINISHED,
        Err(EndpointFault::CountFull) => COUNT_FULL,
        Err(EndpointFault::Stopped(why)) => host_stop_status(why),
    }
}

/// Returns the number of what came of a call to a terminal end.
pub fn term_status(came: Result<(), EndpointFault<TermStop>>) -> u32
    ensures { result ≡ term_status came }
{
    match came {
        Ok(()) => OK,
        Err(EndpointFault::OutOfMemory) => NO_MEMORY,
        Err(EndpointFault::Unfinished) => UNFINISHED,
        Err(EndpointFault::CountFull) => COUNT_FULL,
        Err(EndpointFault::Stopped(why)) => term_stop_status(why),
    }
}

/// Returns the number of what came of bytes that were brought to a host end.
pub fn host_bring_status(came: Result<(), BringFault<HostStop>>) -> u32
    ensures { result ≡ bring_status host_stop_status came }
{
    match came {
        Ok(()) => OK,
        Err(BringFault::Waiting) => WAITING,
        Err(BringFault::CountFull) => COUNT_FULL,
        Err(BringFault::OutOfMemory) => NO_MEMORY,
        Err(BringFault::Stopped(why)) => host_stop_status(why),
    }
}

/// Returns the number of what came of bytes that were brought to a terminal end.
pub fn term_bring_status(came: Result<(), BringFault<TermStop>>) -> u32
    ensures { result ≡ bring_status term_stop_status came }
{
    match came {
        Ok(()) => OK,
        Err(BringFault::Waiting) => WAITING,
        Err(BringFault::CountFull) => COUNT_FULL,
        Err(BringFault::OutOfMemory) => NO_MEMORY,
        Err(BringFault::Stopped(why)) => term_stop_status(why),
    }
}

/// Returns the number of why a terminal's stream may not end, or that it may.
pub fn host_finish_status(came: Result<(), FinishFault<HostStop>>) -> u32
    ensures { result ≡ host_finish_status came }
{
    match came {
        Ok(()) => OK,
        Err(FinishFault::Unfinished) => UNFINISHED,
        Err(FinishFault::Truncated) => truncated(),
        Err(FinishFault::Stopped(why)) => host_stop_status(why),
    }
}

/// Returns the number of why a host's stream may not end, or that it may.
pub fn term_finish_status(came: Result<(), FinishFault<TermStop>>) -> u32
    ensures { result ≡ term_finish_status came }
{
    match came {
        Ok(()) => OK,
        Err(FinishFault::Unfinished) => UNFINISHED,
        Err(FinishFault::Truncated) => truncated(),
        Err(FinishFault::Stopped(why)) => term_stop_status(why),
    }
}
