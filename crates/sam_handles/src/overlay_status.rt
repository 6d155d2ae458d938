//! The numbers by which C knows what came of a call of an overlay: include/sulgrevad.h names them.

ghost use Rattle.std.specs.Prelude.{◌≡◌};
ghost use Rattle.sam_handles.specs.OverlayStatus.{ask_status, put_fault, put_number, replace_fault, splice_number, stop_status, turn_number};

use crate::status::{
    COUNT_FULL, NO_MEMORY, OK, TOO_MANY, WAITING, refusal_status, term_stop_status,
};
use sam_endpoint::TermStop;
use sam_overlay::{AskFault, Put, PutFault, ReplaceFault, Turn};
use sam_shown::SpliceKind;
use sam_term::Refusal;

/// Returns the number of why an end has stopped, or `OK` if it goes on.
fn stop_status(stop: Option<TermStop>) -> u32
    ensures { result ≡ stop_status stop }
{
    match stop {
        Some(why) => term_stop_status(why),
        None => OK,
    }
}

/// Returns the number of why an edit is refused, at an end that has stopped so.
pub fn replace_fault(stop: Option<TermStop>, why: ReplaceFault) -> u32
    ensures { result ≡ replace_fault stop why }
{
    match why {
        ReplaceFault::Exited => refusal_status(Refusal::Exited),
        ReplaceFault::Stopped => stop_status(stop),
        ReplaceFault::NoFile => refusal_status(Refusal::NoFile),
        ReplaceFault::CommandFile => refusal_status(Refusal::CommandFile),
        ReplaceFault::NotOpen => refusal_status(Refusal::NotOpen),
        ReplaceFault::BadPosition => refusal_status(Refusal::BadPosition),
        ReplaceFault::TooLong => refusal_status(Refusal::TooLong),
        ReplaceFault::OutOfMemory => NO_MEMORY,
    }
}

/// Returns the number of why an edit that waits is not put.
pub fn put_fault(why: PutFault) -> u32
    ensures { result ≡ put_fault why }
{
    match why {
        PutFault::Stopped(why) => term_stop_status(why),
        PutFault::TooLong => refusal_status(Refusal::TooLong),
        PutFault::CountFull => COUNT_FULL,
        PutFault::OutOfMemory => NO_MEMORY,
    }
}

/// Returns the number of what became of an edit that was to be put.
pub fn put_number(put: Put) -> u32
    ensures { result ≡ put_number put }
{
    match put {
        Put::Nothing => 0,
        Put::NotFree => 1,
        Put::Edit => 2,
    }
}

/// Returns the number of what came of a request.
pub fn ask_status<T: Copy>(came: Result<T, AskFault>) -> u32
    ensures { result ≡ ask_status came }
{
    match came {
        Ok(_) => OK,
        Err(AskFault::Waiting) => WAITING,
        Err(AskFault::TooMany) => TOO_MANY,
        Err(AskFault::CountFull) => COUNT_FULL,
        Err(AskFault::OutOfMemory) => NO_MEMORY,
    }
}

/// Returns the number of what became of the oldest request that was to act.
pub fn turn_number(turn: Turn) -> u32
    ensures { result ≡ turn_number turn }
{
    match turn {
        Turn::Nothing => 0,
        Turn::NotYet => 1,
        Turn::Request => 2,
    }
}

/// Returns the number of what a splice does.
pub fn splice_number(kind: SpliceKind) -> u32
    ensures { result ≡ splice_number kind }
{
    kind as u32
}
