//! `PendingFault`: why pending edits refused a change.

ghost use Rattle.std.specs.Prelude.{◌≡◌};
ghost use Rattle.sam_pending.specs.Faults.{pending_fault_number};
ghost use Rattle.sam_pending.specs.declared.fault.PendingFault.TheVariants.{OutOfMemory};

use std::alloc::{AllocError, AllocFailed};
use thiserror::Error;

/// Why pending edits refused a change. The variants stand in the order in which they are tested, and after each all is as before.
#[derive(Clone, Copy, Debug, PartialEq, Eq, Error)]
pub enum PendingFault {
    /// The change names a place past the end, or a range that ends before it begins.
    #[error("no such place in the text")]
    BadPosition = 1,
    /// There would be too many runes.
    #[error("the text would be too long")]
    TooLong = 2,
    /// An allocation was refused.
    #[error("out of memory")]
    OutOfMemory = 3,
}

impl PendingFault {
    /// Returns the number of the fault, from 1 in the order of the variants.
    pub fn number(&self) -> u8
        ensures { result ≡ pending_fault_number self.now }
    {
        *self as u8
    }
}

impl From<AllocError> for PendingFault {
    ghost from_gives = { λ _ e. e ≡ OutOfMemory };

    fn from(_e: AllocError) -> PendingFault {
        PendingFault::OutOfMemory
    }
}

impl<T: Drop> From<AllocFailed<T>> for PendingFault {
    ghost from_gives = { λ _ e. e ≡ OutOfMemory };

    fn from(_e: AllocFailed<T>) -> PendingFault {
        PendingFault::OutOfMemory
    }
}
