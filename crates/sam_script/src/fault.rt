//! Why a script could not be read, replayed or written.

ghost use Rattle.std.specs.Prelude.{◌≡◌};
ghost use Rattle.sam_script.specs.Faults.{script_fault_number};
ghost use Rattle.sam_script.specs.declared.fault.LineFault.TheVariants.{OutOfMemory};

use std::alloc::{AllocError, AllocFailed};
use thiserror::Error;

/// Why a script could not be read, replayed or written. Reading returns `Line` and `OutOfMemory`, replaying all three, and the other
/// calls `OutOfMemory` alone.
#[derive(Clone, Copy, Debug, PartialEq, Eq, Error)]
pub enum ScriptFault {
    /// Reading: this line, counted from 1, is the first wrong one. Replaying: it is `host` or `term`, and found nothing to take, or it is
    /// `add`, and no tag was left.
    #[error("wrong script at line {0}")]
    Line(usize),
    /// Replaying: a step would take a count of messages past 2^64-1.
    #[error("too many messages to count")]
    CountFull,
    /// A request for memory was refused. The same call may be made again.
    #[error("out of memory")]
    OutOfMemory,
}

impl ScriptFault {
    /// Returns the number of the fault, from 1 in the order of the variants.
    pub fn number(&self) -> u8
        ensures { result ≡ script_fault_number self.now }
    {
        match self {
            ScriptFault::Line(_) => 1,
            ScriptFault::CountFull => 2,
            ScriptFault::OutOfMemory => 3,
        }
    }
}

impl From<AllocError> for ScriptFault {
    ghost use Rattle.std.specs.Prelude.{◌≡◌};
    ghost use Rattle.sam_script.specs.declared.fault.ScriptFault.{ScriptFault};

    ghost from_gives = { λ _ e. e ≡ ScriptFault.OutOfMemory };

    fn from(_error: AllocError) -> ScriptFault {
        ScriptFault::OutOfMemory
    }
}

impl<T: Drop> From<AllocFailed<T>> for ScriptFault {
    ghost use Rattle.std.specs.Prelude.{◌≡◌};
    ghost use Rattle.sam_script.specs.declared.fault.ScriptFault.{ScriptFault};

    ghost from_gives = { λ _ e. e ≡ ScriptFault.OutOfMemory };

    fn from(_error: AllocFailed<T>) -> ScriptFault {
        ScriptFault::OutOfMemory
    }
}

/// Why a line could not be read or added to a script. `Script::read` turns it into a `ScriptFault`, with the line's number.
#[derive(Clone, Copy, Debug, PartialEq, Eq)]
pub enum LineFault {
    /// The line breaks the grammar, or may not stand where it stands.
    Wrong,
    /// A request for memory was refused.
    OutOfMemory,
}

impl From<AllocError> for LineFault {
    ghost from_gives = { λ _ e. e ≡ OutOfMemory };

    fn from(_error: AllocError) -> LineFault {
        LineFault::OutOfMemory
    }
}

impl<T: Drop> From<AllocFailed<T>> for LineFault {
    ghost from_gives = { λ _ e. e ≡ OutOfMemory };

    fn from(_error: AllocFailed<T>) -> LineFault {
        LineFault::OutOfMemory
    }
}
