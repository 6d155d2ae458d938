//! The numbers by which C knows what came of a call of a server or of a recovery: include/sulgrevad.h names them.

ghost use Rattle.std.specs.Prelude.{◌≡◌};
ghost use Rattle.sam_c.specs.ServerStatus.{heir_fault, recovery_fault, stop_status};

use sam_handles::status::{NO_MEMORY, WAITING, host_stop_status};
use sam_server::{HeirFault, RecoveryFault, Stop};

/// Added to the number, from 1, of why a server has stopped, a record is not taken again, or another server doesn't begin.
const SERVER: u32 = 288;

/// Returns the number of why a server has stopped for good.
pub(crate) fn stop_status(why: Stop) -> u32
    ensures { result ≡ stop_status why }
{
    match why {
        Stop::Endpoint(why) => host_stop_status(why),
        Stop::CountFull => SERVER + 1,
    }
}

/// Gives the number of why a server has not done a call, where `$number` is that of the refusal `$refusal`.
macro_rules! fault_number {
    ($fault:expr, $refusal:ident => $number:expr) => {
        match $fault {
            CallFault::Stopped(why) => stop_status(why),
            CallFault::Waiting => WAITING,
            CallFault::OutOfMemory => NO_MEMORY,
            CallFault::Refused($refusal) => $number,
            CallFault::Unfinished => UNFINISHED,
        }
    };
}

pub(crate) use fault_number;

/// Returns the number of why a record is not taken again.
pub(crate) fn recovery_fault(why: RecoveryFault) -> u32
    ensures { result ≡ recovery_fault why }
{
    match why {
        RecoveryFault::NoRecord => SERVER + 2,
        RecoveryFault::NotTaken => SERVER + 3,
        RecoveryFault::OutOfMemory => NO_MEMORY,
    }
}

/// Returns the number of why another server doesn't begin with the texts of one.
pub(crate) fn heir_fault(why: HeirFault) -> u32
    ensures { result ≡ heir_fault why }
{
    match why {
        HeirFault::Waiting => WAITING,
        HeirFault::EffectWaits => SERVER + 4,
        HeirFault::OutOfMemory => NO_MEMORY,
    }
}
