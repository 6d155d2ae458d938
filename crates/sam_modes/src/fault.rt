//! Why the program did not come to its end, and its exit status.

ghost use Rattle.std.specs.Prelude.{◌≡◌};
ghost use Rattle.sam_modes.specs.Status.{status};

use sam_ends::Stop;
use thiserror::Error;

/// Why the program did not come to its end. Modes `replay` and `threads` write a line that names the fault, and `status_of` gives the exit
/// status.
#[derive(Clone, Copy, Debug, PartialEq, Eq, Error)]
pub enum PlayFault {
    /// The script is wrong at this line, counted from 1; or, in mode `replay`, at this line nothing is under way to the side that is to
    /// take.
    #[error("wrong script at line {0}")]
    Script(usize),
    /// A read failed, or the input has more than `MOST_INPUT` bytes.
    #[error("input cannot be read")]
    Read,
    /// A write failed. How much went out is not known.
    #[error("output cannot be written")]
    Write,
    /// A side stopped: in mode `bytes` the host refused a message or the stream has a fault; in the other modes a count is full, or the
    /// other side is gone.
    #[error("{0}")]
    Side(Stop),
    /// The threads could not be started, or a gate stopped a worker.
    #[error("threads cannot run")]
    Threads,
    /// A request for memory was refused.
    #[error("out of memory")]
    OutOfMemory,
}

/// Returns the exit status of the program: 0 if it came to its end, 1 for `Script`, 3 for `Side` and `Threads`, 4 for `OutOfMemory`, 5 for
/// `Read` and `Write`. Status 2, for wrong words, is not among them.
pub fn status_of(played: &Result<(), PlayFault>) -> u8
    ensures { result ≡ status played.now }
{
    match played {
        Ok(()) => 0,
        Err(PlayFault::Script(_)) => 1,
        Err(PlayFault::Side(_) | PlayFault::Threads) => 3,
        Err(PlayFault::OutOfMemory) => 4,
        Err(PlayFault::Read | PlayFault::Write) => 5,
    }
}
