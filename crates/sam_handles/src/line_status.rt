//! The numbers by which C knows what came of a call of a line, and how it stands: include/sulgrevad.h names them.

ghost use Rattle.std.specs.Prelude.{◌≡◌};
ghost use Rattle.sam_handles.specs.LineStatus.{lost_status, receive_status, state_number, tick_number};

use crate::link_status::{
    ACK_AHEAD, BAD_KIND, BAD_LENGTH, NOT_OPEN, TOO_MANY_ANSWERS, TOO_MANY_WORDS, WRONG_HELLO,
    link_refusal,
};
use crate::status::{COUNT_FULL, NO_MEMORY, OK};
use sam_line::{ReceiveFault, State, Tick};
use sam_link::PacketFault;

/// Returns the number of what came of a piece.
pub fn receive_status(came: Result<(), ReceiveFault>) -> u32
    ensures { result ≡ receive_status came }
{
    match came {
        Ok(()) => OK,
        Err(ReceiveFault::Over) => NOT_OPEN,
        Err(ReceiveFault::OutOfMemory) => NO_MEMORY,
        Err(ReceiveFault::TooManyWords) => TOO_MANY_WORDS,
        Err(ReceiveFault::TooManyAnswers) => TOO_MANY_ANSWERS,
        Err(ReceiveFault::WrongHello(_)) => WRONG_HELLO,
        Err(ReceiveFault::Refused(why)) => link_refusal(why),
        Err(ReceiveFault::CountFull) => COUNT_FULL,
        Err(ReceiveFault::WrongPacket(PacketFault::BadKind)) => BAD_KIND,
        Err(ReceiveFault::WrongPacket(PacketFault::BadLength)) => BAD_LENGTH,
        Err(ReceiveFault::AckAhead) => ACK_AHEAD,
    }
}

/// Returns the number of what the program is to do.
pub fn tick_number(tick: Tick) -> u32
    ensures { result ≡ tick_number tick }
{
    match tick {
        Tick::Nothing => 0,
        Tick::Connect => 1,
        Tick::Drop => 2,
        Tick::Ask => 3,
    }
}

/// Returns the number of how a line stands.
pub fn state_number(state: State) -> u32
    ensures { result ≡ state_number state }
{
    match state {
        State::Down(_) => 0,
        State::Connecting(_) => 1,
        State::Open => 2,
        State::Late(_) => 3,
        State::Lost(_) => 4,
    }
}

/// Returns the number of the host's reason for which no connection comes any more; `OK` if one may come.
pub fn lost_status(state: State) -> u32
    ensures { result ≡ lost_status state }
{
    match state {
        State::Down(_) => OK,
        State::Connecting(_) => OK,
        State::Open => OK,
        State::Late(_) => OK,
        State::Lost(why) => link_refusal(why),
    }
}
