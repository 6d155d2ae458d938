//! Why a client doesn't go on.

ghost use Rattle.std.specs.Prelude.{◌≡◌};
ghost use Rattle.sam_client.specs.Faults.{act_fault, bring_fault, put_fault, send_fault, step_fault};

use sam_endpoint::{BringFault, EndpointFault, TermStop};
use sam_link::PutFault as SendFault;
use sam_overlay::PutFault;
use thiserror::Error;

/// Why a client doesn't go on. Nothing is lost by it.
#[derive(Clone, Copy, Debug, PartialEq, Eq, Drop, Error)]
pub enum GoOnFault {
    /// The terminal's end has stopped for good.
    #[error("stopped for good")]
    Stopped(TermStop),
    /// A count would pass 2^64-1.
    #[error("a count is full")]
    CountFull,
    /// A request for memory was refused: go on later.
    #[error("out of memory")]
    OutOfMemory,
}

impl GoOnFault {
    /// Returns the fault of a step.
    pub(crate) fn of_step(why: EndpointFault<TermStop>) -> GoOnFault
        ensures { result ≡ step_fault why }
    {
        match why {
            EndpointFault::Stopped(why) => GoOnFault::Stopped(why),
            EndpointFault::CountFull => GoOnFault::CountFull,
            EndpointFault::Unfinished | EndpointFault::OutOfMemory => GoOnFault::OutOfMemory,
        }
    }

    /// Returns the fault of bytes that the end did not take.
    pub(crate) fn of_bring(why: BringFault<TermStop>) -> GoOnFault
        ensures { result ≡ bring_fault why }
    {
        match why {
            BringFault::Stopped(why) => GoOnFault::Stopped(why),
            BringFault::CountFull => GoOnFault::CountFull,
            BringFault::Waiting | BringFault::OutOfMemory => GoOnFault::OutOfMemory,
        }
    }

    /// Returns the fault of what the line did not take.
    pub(crate) fn of_send(why: SendFault) -> GoOnFault
        ensures { result ≡ send_fault why }
    {
        match why {
            SendFault::CountFull => GoOnFault::CountFull,
            SendFault::OutOfMemory => GoOnFault::OutOfMemory,
        }
    }

    /// Returns the fault of an edit that was not put; `None` if only its text has no room.
    pub(crate) fn of_put(why: PutFault) -> Option<GoOnFault>
        ensures { result ≡ put_fault why }
    {
        match why {
            PutFault::Stopped(why) => Some(GoOnFault::Stopped(why)),
            PutFault::TooLong => None,
            PutFault::CountFull => Some(GoOnFault::CountFull),
            PutFault::OutOfMemory => Some(GoOnFault::OutOfMemory),
        }
    }

    /// Returns the fault of a request that did not act. That its text would be too long is never why.
    pub(crate) fn of_act(why: PutFault) -> GoOnFault
        ensures { result ≡ act_fault why }
    {
        match why {
            PutFault::Stopped(why) => GoOnFault::Stopped(why),
            PutFault::CountFull => GoOnFault::CountFull,
            PutFault::TooLong | PutFault::OutOfMemory => GoOnFault::OutOfMemory,
        }
    }
}
