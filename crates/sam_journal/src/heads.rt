//! The head of a file.

ghost use Rattle.std.specs.Prelude.{◌≡◌};
ghost use Rattle.sam_journal.specs.Files.{ReadsHead, head};

use crate::checksum::crc_32c;
use crate::finding::{eight_at, four_at, write_at};
use crate::reading::ReadFault;

/// How many bytes the head of a file has: a magic of eight, the version of the format in four, the file's random number in eight, and the
/// sum of these in four.
pub const HEAD_BYTES: usize = 24;

/// How many of them the sum is of.
const SUMMED_BYTES: usize = 20;

/// The first eight bytes of a file: no text begins so.
const MAGIC: [u8; 8] = [0x89, 0x73, 0x61, 0x6d, 0x6a, 0x72, 0x6e, 0x0a];

/// The version of the format. In version 1 no record said what was durable.
const VERSION: u32 = 2;

/// Returns the head of the file of this random number. Choose it anew for each file: a record that stands in a file by chance, as what was
/// left on the disk of an older one, then has a wrong sum.
pub fn head(random: u64) -> [u8; HEAD_BYTES]
    ensures { result ≡ head random }
{
    let mut out = [0; HEAD_BYTES];
    write_at(&mut out, 0, &MAGIC);
    write_at(&mut out, 8, &VERSION.to_be_bytes());
    write_at(&mut out, 12, &random.to_be_bytes());
    let (summed, _) = out.split_at(SUMMED_BYTES);
    let sum = crc_32c(summed);
    write_at(&mut out, SUMMED_BYTES, &sum.to_be_bytes());
    out
}

/// Reads the head at the front of a file's bytes, and returns the file's random number. Errors, in this order: `Short` if there are fewer
/// than 24 bytes; `NotAJournal`; `OtherVersion`; `DamagedHead`.
pub fn read_head(bytes: &[u8]) -> Result<u64, ReadFault>
    ensures { ReadsHead bytes.now result }
{
    if bytes.len() < HEAD_BYTES {
        return Err(ReadFault::Short);
    }
    if bytes[..MAGIC.len()] != MAGIC[..] {
        return Err(ReadFault::NotAJournal);
    }
    if four_at(bytes, 8) != VERSION {
        return Err(ReadFault::OtherVersion);
    }
    let (summed, _) = bytes.split_at(SUMMED_BYTES);
    if crc_32c(summed) != four_at(bytes, SUMMED_BYTES) {
        return Err(ReadFault::DamagedHead);
    }
    Ok(eight_at(bytes, 12))
}
