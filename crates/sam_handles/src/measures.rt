//! The runes of a partial text from a place on, in UTF-8.

ghost use Rattle.std.specs.Prelude.{◌^◌, ◌<◌, drop, Some};
ghost use Rattle.sam_handles.specs.Buffers.{Fills};
ghost use Rattle.sam_handles.specs.Calls.{Writes, written};
ghost use Rattle.sam_handles.specs.Measures.{front_runes};

use crate::members::Members;
use crate::status::OK;
use crate::utf8::{Filled, put_rune};

/// Puts the loaded runes from a place on, up to the first gap, into the buffer in UTF-8 (RFC 3629), as many as have room whole. Returns how
/// much it put. The rest of the buffer stays as it was.
fn fill_front(mut members: Members<'_>, place: u32, into: &mut [u8]) -> Filled
    ensures fills { Fills (front_runes (drop place members.entry)) into.old into.new result }
    ensures few { result.runes < 2 ^ 32 }
{
    let mut filled = Filled { bytes: 0, runes: 0 };
    let end = members.len().max(place);
    for at in place..end {
        let Some(Some(rune)) = members.at(at) else {
            return filled;
        };
        let Some(next) = put_rune(rune, into, filled.bytes) else {
            return filled;
        };
        filled.bytes = next;
        filled.runes += 1;
    }
    filled
}

/// Puts the loaded runes from a place on, up to the first gap, into the buffer, and hands out how many bytes and runes. Returns `OK`.
pub fn tell_front(
    members: Members<'_>,
    place: u32,
    into: &mut [u8],
    bytes: &mut usize,
    runes: &mut u32,
) -> u32
    ensures { Writes (Some (front_runes (drop place members.entry))) result (written into.old bytes.old runes.old)
        (written into.new bytes.new runes.new) }
{
    let filled = fill_front(members, place, into);
    *bytes = filled.bytes;
    *runes = filled.runes as u32;
    OK
}
