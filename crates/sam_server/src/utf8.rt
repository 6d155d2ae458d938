//! Runes as bytes.

ghost use Rattle.std.specs.Prelude.{◌≡◌, IfOk};
ghost use Rattle.std.specs.Str.{encode_utf8_all};
ghost use Rattle.sam_runes.specs.Reading.{AreRunes};

use sam_runes::{slice_facts, write_utf8};
use std::alloc::{AllocError, Global};

/// Returns the UTF-8 of the runes (RFC 3629). Its only error is out of memory.
pub(crate) fn utf8_of(alloc: Global, runes: &[char]) -> Result<Vec<u8>, AllocError>
    ensures bytes { IfOk result (λ bytes. bytes.items ≡ encode_utf8_all runes.now) }
    ensures runes { AreRunes runes.now }
{
    slice_facts(runes);
    let mut bytes = Vec::new(alloc);
    write_utf8(&mut bytes, runes)?;
    Ok(bytes)
}
