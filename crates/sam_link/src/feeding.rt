//! How an end tells the other side how many bytes have come.

ghost use Rattle.std.specs.Prelude.{◌≡◌, IfOk, OnOk, OnErr};
ghost use Rattle.sam_link.specs.Feeding.{tells, told};

use crate::keeping::{Kept, PutFault};
use crate::packet::ACKNOWLEDGEMENT;
use std::alloc::AllocError;

/// Puts an acknowledgement of this count, where one is owed and can be counted, and returns whether it did. The only error is out of
/// memory.
pub fn tell(kept: &mut Kept, owes: bool, count: u64) -> Result<bool, AllocError>
    ensures tells { IfOk result (λ did. did ≡ tells kept.old owes) }
    ensures told { OnOk result (kept.new ≡ told kept.old owes count) }
    ensures unchanged { OnErr result (kept.new ≡ kept.old) }
{
    if !owes {
        return Ok(false);
    }
    match kept.put_packet(ACKNOWLEDGEMENT, &count.to_be_bytes()) {
        Ok(()) => Ok(true),
        Err(PutFault::CountFull) => Ok(false),
        Err(PutFault::OutOfMemory) => Err(AllocError),
    }
}
