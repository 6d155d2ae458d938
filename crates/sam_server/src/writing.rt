//! How a record is written as bytes.

ghost use Rattle.std.specs.Prelude.{◌≡◌, ◌∷◌, ◌++◌, IfOk, OnErr};
ghost use Rattle.sam_mesg.specs.Spelling.{eight};
ghost use Rattle.sam_server.specs.Records.{plain, record_bytes};

use crate::record::{ACKNOWLEDGED, ASKED, CALLED, CAME, DONE, JOINED, MARKED, Record, SAID};
use std::alloc::AllocError;

/// Puts three stretches of bytes behind others, or none of them.
fn append(out: &mut Vec<u8>, first: &[u8], second: &[u8], third: &[u8]) -> Result<(), AllocError>
    ensures written { IfOk result (λ done. out.new.items ≡ ((out.old.items ++ first.now) ++ second.now) ++ third.now) }
    ensures unchanged { OnErr result (out.new.items ≡ out.old.items) }
{
    let before = out.len();
    out.extend_from_slice(first)?;
    if out.extend_from_slice(second).is_err() || out.extend_from_slice(third).is_err() {
        out.truncate(before);
        return Err(AllocError);
    }
    Ok(())
}

/// Returns the byte, and the number in eight bytes.
fn numbered(kind: u8, number: u64) -> [u8; 9]
    ensures { result ≡ kind ∷ eight number }
{
    let [a, b, c, d, e, f, g, h] = number.to_be_bytes();
    [kind, a, b, c, d, e, f, g, h]
}

/// Puts the record's bytes behind others. Out of memory changes nothing.
pub fn write_record(out: &mut Vec<u8>, taken: Record<'_>) -> Result<(), AllocError>
    ensures written { IfOk result (λ done. out.new.items ≡ out.old.items ++ record_bytes (plain taken.entry)) }
    ensures unchanged { OnErr result (out.new.items ≡ out.old.items) }
{
    match taken {
        Record::Joined(name, text) => append(out, &numbered(JOINED, name.len() as u64), name, text),
        Record::Called(hello) => append(out, &[CALLED], &hello.spell(), &[]),
        Record::Came(attempt, piece) => append(out, &numbered(CAME, attempt), piece, &[]),
        Record::Said(bytes) => append(out, &[SAID], bytes, &[]),
        Record::Acknowledged => append(out, &[ACKNOWLEDGED], &[], &[]),
        Record::Asked => append(out, &[ASKED], &[], &[]),
        Record::Marked(tag) => append(out, &[MARKED], &tag.to_be_bytes(), &[]),
        Record::Done(ending) => append(out, &numbered(DONE, ending), &[], &[]),
    }
}
