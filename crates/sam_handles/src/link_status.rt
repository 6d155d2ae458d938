//! The numbers by which C knows what came of a call of a link, and those of sides, phases and hellos: include/sulgrevad.h names them.

ghost use Rattle.std.specs.Prelude.{◌≡◌};
ghost use Rattle.sam_link.specs.Hellos.{what_number};
ghost use Rattle.sam_mesg.specs.Bounds.{entry};
ghost use Rattle.sam_handles.specs.LinkStatus.{answer_status, call_status, feed_status, link_refusal, link_refusals, note_status, out_status};
ghost use Rattle.sam_handles.specs.LinkStatus.{phase_number, put_status, role_of, welcome_status};

use crate::status::{COUNT_FULL, NO_MEMORY, OK};
use sam_link::{
    AnswerFault, CallFault, FeedFault, NotOpen, NoteFault, PacketFault, Phase, PutFault, Refusal,
    Role, WelcomeFault, What,
};

/// Added to the number, from 1, of why a call of a link is refused. The first seven are the refusals that also go over the line.
const LINK: u32 = 192;

/// The call is one of the other side, or the number is that of no side.
pub const WRONG_ROLE: u32 = LINK + 8;

/// The connection is over, isn't the newest, or has no hello yet.
pub const NOT_OPEN: u32 = LINK + 9;

/// A note of more than 4,096 bytes.
const TOO_LONG: u32 = LINK + 10;

/// A packet of an unknown kind.
pub const BAD_KIND: u32 = LINK + 11;

/// A packet of a length that its kind can't have.
pub const BAD_LENGTH: u32 = LINK + 12;

/// Bytes are acknowledged that did not go.
pub const ACK_AHEAD: u32 = LINK + 13;

/// The buffer has less room than the longest note.
pub const NO_ROOM: u32 = LINK + 14;

/// More than 65,536 bytes before the hello that a line waits for.
pub const TOO_MANY_WORDS: u32 = LINK + 15;

/// More than 65,536 bytes of answers that a line keeps.
pub const TOO_MANY_ANSWERS: u32 = LINK + 16;

/// What should be the host's hello to a line is none, or does not fit the call.
pub const WRONG_HELLO: u32 = LINK + 17;

/// Returns the side of a number, if it has one.
pub fn role_of(number: u32) -> Option<Role>
    ensures { result ≡ role_of number }
{
    match number {
        0 => Some(Role::Terminal),
        1 => Some(Role::Host),
        _ => None,
    }
}

/// Returns the number of a phase.
pub fn phase_number(phase: Phase) -> u32
    ensures { result ≡ phase_number phase }
{
    match phase {
        Phase::Down => 0,
        Phase::Asking => 1,
        Phase::Open => 2,
    }
}

/// Returns the number of what a hello says, on the wire and for C.
pub fn what_number(what: What) -> u32
    ensures { result ≡ what_number what }
{
    match what {
        What::Begin => 1,
        What::Resume => 2,
        What::TakeOver => 3,
        What::Welcome => 4,
        What::Refused(why) => why.number() as u32,
    }
}

/// Returns the number of a refusal.
pub fn link_refusal(why: Refusal) -> u32
    ensures { result ≡ link_refusal why }
{
    match why {
        Refusal::NotALink => LINK + 1,
        Refusal::OtherVersion => LINK + 2,
        Refusal::BadHello => LINK + 3,
        Refusal::NoSession => LINK + 4,
        Refusal::OtherSession => LINK + 5,
        Refusal::OldAttempt => LINK + 6,
        Refusal::WrongCount => LINK + 7,
    }
}

/// Returns the refusal of a number, if it has one.
pub fn refusal_of(status: u32) -> Option<Refusal>
    ensures { result ≡ entry 193 link_refusals status }
{
    match status {
        193 => Some(Refusal::NotALink),
        194 => Some(Refusal::OtherVersion),
        195 => Some(Refusal::BadHello),
        196 => Some(Refusal::NoSession),
        197 => Some(Refusal::OtherSession),
        198 => Some(Refusal::OldAttempt),
        199 => Some(Refusal::WrongCount),
        _ => None,
    }
}

/// Returns the number of why a terminal does not call, or of what else came of it.
pub fn call_fault(why: CallFault) -> u32
    ensures { result ≡ call_status (Err why) }
{
    match why {
        CallFault::WrongRole => WRONG_ROLE,
        CallFault::CountFull => COUNT_FULL,
    }
}

/// Returns the number of what came of a host's answer.
pub fn answer_status(came: Result<(), AnswerFault>) -> u32
    ensures { result ≡ answer_status came }
{
    match came {
        Ok(()) => OK,
        Err(AnswerFault::WrongRole) => WRONG_ROLE,
        Err(AnswerFault::Refused(why)) => link_refusal(why),
    }
}

/// Returns the number of what came of a welcome.
pub fn welcome_status(came: Result<(), WelcomeFault>) -> u32
    ensures { result ≡ welcome_status came }
{
    match came {
        Ok(()) => OK,
        Err(WelcomeFault::WrongRole) => WRONG_ROLE,
        Err(WelcomeFault::NotOpen) => NOT_OPEN,
        Err(WelcomeFault::ByHost(why)) => link_refusal(why),
        Err(WelcomeFault::Here(why)) => link_refusal(why),
    }
}

/// Returns the number of what came of a put.
pub fn put_status(came: Result<(), PutFault>) -> u32
    ensures { result ≡ put_status came }
{
    match came {
        Ok(()) => OK,
        Err(PutFault::CountFull) => COUNT_FULL,
        Err(PutFault::OutOfMemory) => NO_MEMORY,
    }
}

/// Returns the number of what came of the put of a note.
pub fn note_status(came: Result<(), NoteFault>) -> u32
    ensures { result ≡ note_status came }
{
    match came {
        Ok(()) => OK,
        Err(NoteFault::TooLong) => TOO_LONG,
        Err(NoteFault::CountFull) => COUNT_FULL,
        Err(NoteFault::OutOfMemory) => NO_MEMORY,
    }
}

/// Returns the number of a connection from which nothing is taken.
pub fn out_fault(_why: NotOpen) -> u32
    ensures { result ≡ out_status (Err _why) }
{
    NOT_OPEN
}

/// Returns the number of what came of a piece.
pub fn feed_status(came: Result<(), FeedFault>) -> u32
    ensures { result ≡ feed_status came }
{
    match came {
        Ok(()) => OK,
        Err(FeedFault::NotOpen) => NOT_OPEN,
        Err(FeedFault::CountFull) => COUNT_FULL,
        Err(FeedFault::OutOfMemory) => NO_MEMORY,
        Err(FeedFault::Wrong(PacketFault::BadKind)) => BAD_KIND,
        Err(FeedFault::Wrong(PacketFault::BadLength)) => BAD_LENGTH,
        Err(FeedFault::AckAhead) => ACK_AHEAD,
    }
}
