//! How packets are written.

ghost use Rattle.std.specs.Prelude.{◌≡◌, ◌<◌, ◌^◌, ◌++◌, length, OnOk, OnErr};
ghost use Rattle.sam_mesg.specs.Spelling.{frame};
ghost use Rattle.sam_link.specs.Putting.{data_stream, packets_needed};

use crate::packet::{DATA, MOST_BODY};
use std::alloc::AllocError;

/// Puts a packet at the end of `out`, whole or not at all. The only error is out of memory.
pub fn write_packet(out: &mut Vec<u8>, kind: u8, body: &[u8]) -> Result<(), AllocError>
    requires { length body.now < 2 ^ 16 }
    ensures written { OnOk result (out.new.items ≡ out.old.items ++ frame kind body.now) }
    ensures unchanged { OnErr result (out.new.items ≡ out.old.items) }
{
    let before = out.len();
    let [high, low] = (body.len() as u16).to_be_bytes();
    out.extend_from_slice(&[kind, high, low])?;
    if out.extend_from_slice(body).is_err() {
        out.truncate(before);
        return Err(AllocError);
    }
    Ok(())
}

/// Returns how many packets bytes take.
pub fn packets_needed(len: usize) -> usize
    ensures { result ≡ packets_needed len }
{
    len.div_ceil(MOST_BODY)
}

/// Puts the bytes at the end of `out`, as packets that are all full but for the last, all or none. The only error is out of memory.
pub fn write_data(out: &mut Vec<u8>, bytes: &[u8]) -> Result<(), AllocError>
    ensures written { OnOk result (out.new.items ≡ out.old.items ++ data_stream bytes.now) }
    ensures unchanged { OnErr result (out.new.items ≡ out.old.items) }
{
    let before = out.len();
    for number in 0..packets_needed(bytes.len()) {
        let (_, rest) = bytes.split_at(number * MOST_BODY);
        let len = MOST_BODY.min(rest.len());
        if write_packet(out, DATA, &rest[..len]).is_err() {
            out.truncate(before);
            return Err(AllocError);
        }
    }
    Ok(())
}
