//! What a step did, as C has it.

ghost use Rattle.std.specs.Prelude.{◌≡◌};
ghost use Rattle.sam_handles.specs.Did.{did_nothing, did_of_host, did_of_term, is_load, tag_or_zero};

use crate::status::refusal_status;
use sam_endpoint::{HostStep, TermStep};

/// A step did nothing: nothing waits, and a terminal holds no event.
pub const IDLE: u32 = 0;

/// A step did nothing: a lock holds a terminal's oldest event back.
const LOCKED: u32 = 1;

/// A step wrote what was answered or composed last.
const WROTE: u32 = 2;

/// The host took messages that type or cut in one file.
const EDITED: u32 = 3;

/// The host answered a message.
const ANSWERED: u32 = 4;

/// The terminal received a frame.
pub const RECEIVED: u32 = 5;

/// An event of the terminal acted.
const ACTED: u32 = 6;

/// The terminal refused an event.
const REFUSED: u32 = 7;

/// The kind of `Hdata`, the frame that loads runes.
const DATA: u8 = 73;

/// What a step did: `sam_did` of include/sulgrevad.h. What a step doesn't say is 0.
#[repr(C)]
#[derive(Clone, Copy, Drop)]
pub struct SamDid {
    /// The number of the event, counted from 1.
    pub event: u64,
    /// The number of the request that acted or was refused, counted from 1 over the requests of a client.
    pub request: u64,
    /// How many messages the host took or answered.
    pub count: usize,
    /// A number of `sam_step`.
    pub step: u32,
    /// Why the event was refused, as a number of `sam_status`.
    pub why: u32,
    /// The place of the change.
    pub start: u32,
    /// How many runes or gaps went there.
    pub gone: u32,
    /// How many came.
    pub came: u32,
    /// The number of the task that is answered, or that gets no answer, counted from 1 over the tasks of a client.
    pub task: u32,
    /// The file; 0 also if the message, frame or event names none.
    pub tag: u16,
    /// The number of the kind of the message or frame.
    pub kind: u8,
    /// Whether the frame loads runes in the place of gaps, and so changes no text.
    pub loads: bool,
}

/// Returns what says of a step no more than this number.
pub fn did_nothing(step: u32) -> SamDid
    ensures { result ≡ did_nothing step }
{
    SamDid {
        event: 0,
        request: 0,
        count: 0,
        step,
        why: 0,
        start: 0,
        gone: 0,
        came: 0,
        task: 0,
        tag: 0,
        kind: 0,
        loads: false,
    }
}

/// Returns whether frames of this kind load runes.
pub fn is_load(kind: u8) -> bool
    ensures { result ≡ is_load kind }
{
    kind == DATA
}

/// Returns the tag, or 0 for none.
pub fn tag_or_zero(tag: Option<u16>) -> u16
    ensures { result ≡ tag_or_zero tag }
{
    tag.unwrap_or(0)
}

/// Returns what a host's step did, in numbers.
pub fn did_of_host(step: HostStep) -> SamDid
    ensures { result ≡ did_of_host step }
{
    match step {
        HostStep::Idle => did_nothing(IDLE),
        HostStep::Wrote => did_nothing(WROTE),
        HostStep::Edited { tag, count } => SamDid {
            tag,
            count,
            ..did_nothing(EDITED)
        },
        HostStep::Answered { kind, tag } => SamDid {
            kind,
            tag: tag_or_zero(tag),
            count: 1,
            ..did_nothing(ANSWERED)
        },
    }
}

/// Returns what a terminal's step did, in numbers.
pub fn did_of_term(step: TermStep) -> SamDid
    ensures { result ≡ did_of_term step }
{
    match step {
        TermStep::Idle => did_nothing(IDLE),
        TermStep::Locked => did_nothing(LOCKED),
        TermStep::Wrote => did_nothing(WROTE),
        TermStep::Received { kind, tag, change } => SamDid {
            kind,
            tag: tag_or_zero(tag),
            start: change.start,
            gone: change.gone,
            came: change.came,
            loads: is_load(kind),
            ..did_nothing(RECEIVED)
        },
        TermStep::Acted {
            number,
            tag,
            change,
        } => SamDid {
            event: number,
            tag: tag_or_zero(tag),
            start: change.start,
            gone: change.gone,
            came: change.came,
            ..did_nothing(ACTED)
        },
        TermStep::Refused { number, why } => SamDid {
            event: number,
            why: refusal_status(why),
            ..did_nothing(REFUSED)
        },
    }
}
