//! The numbers by which C knows what a client tells, why it doesn't go on, and why a task is not begun: include/sulgrevad.h names them.

ghost use Rattle.std.specs.Prelude.{◌≡◌};
ghost use Rattle.sam_c_client.specs.ClientStatus.{begin_fault, begin_status, event_number, go_on_fault, order_of, run_status, write_status};

use sam_client::GoOnFault;
use sam_front::{BeginFault, Order, RunFault, Told, WriteFault};
use sam_handles::note_status::fault_status;
use sam_handles::overlay_status::ask_status;
use sam_handles::status::{
    COUNT_FULL, NO_MEMORY, NOT_TEXT, OK, TOO_MANY, UNFINISHED, refusal_status, term_stop_status,
};
use sam_note::NoteFault;
use sam_term::Refusal;

/// Returns the number of what is told.
pub(crate) fn event_number(told: &Told) -> u32
    ensures { result ≡ event_number told.now }
{
    match told {
        Told::Idle => 0,
        Told::Busy => 1,
        Told::Stepped(_, _) => 2,
        Told::Refused(_) => 3,
        Told::Note => 4,
        Told::Answered(_) => 5,
        Told::Unanswered(_) => 6,
        Told::Ran(_) => 7,
        Told::Lapsed(_) => 8,
    }
}

/// Returns the number of why a client doesn't go on.
pub(crate) fn go_on_fault(why: GoOnFault) -> u32
    ensures { result ≡ go_on_fault why }
{
    match why {
        GoOnFault::Stopped(why) => term_stop_status(why),
        GoOnFault::CountFull => COUNT_FULL,
        GoOnFault::OutOfMemory => UNFINISHED,
    }
}

/// Returns what the host's program is to do, by the number of the kind of its message; `None` if it is no such kind.
pub(crate) fn order_of(kind: u32) -> Option<Order>
    ensures { result ≡ order_of kind }
{
    match kind {
        1 => Some(Order::Open),
        2 => Some(Order::Complete),
        3 => Some(Order::Reload),
        _ => None,
    }
}

/// Returns the number of why a task is not begun.
fn begin_fault(why: BeginFault) -> u32
    ensures { result ≡ begin_fault why }
{
    match why {
        BeginFault::TooMany => TOO_MANY,
        BeginFault::CountFull => COUNT_FULL,
        BeginFault::BadField => fault_status(NoteFault::BadField),
        BeginFault::BadLength => fault_status(NoteFault::BadLength),
        BeginFault::BadPath => fault_status(NoteFault::BadPath),
        BeginFault::OutOfMemory => NO_MEMORY,
    }
}

/// Returns the number of what came of a task that was to be begun.
pub(crate) fn begin_status(came: Result<u32, BeginFault>) -> u32
    ensures { result ≡ begin_status came }
{
    match came {
        Ok(_) => OK,
        Err(why) => begin_fault(why),
    }
}

/// Returns the number of what came of a write that was to be asked for.
pub(crate) fn write_status(came: Result<u32, WriteFault>) -> u32
    ensures { result ≡ write_status came }
{
    match came {
        Ok(_) => OK,
        Err(WriteFault::Begin(why)) => begin_fault(why),
        Err(WriteFault::Ask(why)) => ask_status::<u32>(Err(why)),
    }
}

/// Returns the number of what came of a command line that was to be asked for.
pub(crate) fn run_status(came: Result<u64, RunFault>) -> u32
    ensures { result ≡ run_status came }
{
    match came {
        Ok(_) => OK,
        Err(RunFault::NotLine) => NOT_TEXT,
        Err(RunFault::NotOpen) => refusal_status(Refusal::NotOpen),
        Err(RunFault::TooLong) => refusal_status(Refusal::TextTooLong),
        Err(RunFault::Ask(why)) => ask_status::<u32>(Err(why)),
    }
}
