//! How records are written.

ghost use Rattle.std.specs.Prelude.{◌≡◌, ◌<◌, ◌^◌, ◌++◌, length, IfOk, OnErr};
ghost use Rattle.sam_journal.specs.Records.{back, front, record_bytes};

use crate::checksum::{sum_of, sum_of_both};
use crate::finding::{FRONT_BYTES, HEADING_BYTES, write_at};
use std::alloc::AllocError;

/// What stands around the body of a record.
#[derive(Clone, Copy, Debug, PartialEq, Eq, Drop)]
pub struct Frame {
    /// The bytes before it.
    pub front: [u8; FRONT_BYTES],
    /// The bytes behind it.
    pub back: [u8; 4],
}

/// Returns what stands around the body of the record of this number, in the file of this random number, of which so many bytes are durable.
/// They may be no more than stand before the record, or it is not read. The body has fewer than 2^32 bytes.
pub fn frame_of(random: u64, number: u64, durable: u64, body: &[u8]) -> Frame
    requires { length body.now < 2 ^ 32 }
    ensures front { result.front ≡ front random number (record { durable = durable; body = body.now }) }
    ensures back { result.back ≡ back random number (record { durable = durable; body = body.now }) }
{
    let mut before = [0; FRONT_BYTES];
    write_at(&mut before, 0, &number.to_be_bytes());
    write_at(&mut before, 8, &(body.len() as u32).to_be_bytes());
    write_at(&mut before, 12, &durable.to_be_bytes());
    let (heading, _) = before.split_at(HEADING_BYTES);
    let sum = sum_of(random, heading);
    write_at(&mut before, HEADING_BYTES, &sum.to_be_bytes());
    Frame {
        back: sum_of_both(random, &before, body).to_be_bytes(),
        front: before,
    }
}

/// Puts a record's bytes behind others. An `Err` changes nothing.
#[tactic(auto, unfolding(crate::specs::Records::record_bytes))]
pub fn append(
    out: &mut Vec<u8>,
    random: u64,
    number: u64,
    durable: u64,
    body: &[u8],
) -> Result<(), AllocError>
    requires { length body.now < 2 ^ 32 }
    ensures written { IfOk result (λ done.
        out.new.items ≡ out.old.items ++ record_bytes random number (record { durable = durable; body = body.now })) }
    ensures unchanged { OnErr result (out.new.items ≡ out.old.items) }
{
    let before = out.len();
    let frame = frame_of(random, number, durable, body);
    out.extend_from_slice(&frame.front)?;
    if out.extend_from_slice(body).is_err() || out.extend_from_slice(&frame.back).is_err() {
        out.truncate(before);
        return Err(AllocError);
    }
    Ok(())
}
