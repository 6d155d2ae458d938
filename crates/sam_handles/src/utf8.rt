//! Runes as UTF-8 in a buffer of the caller's.

ghost use Rattle.std.specs.Prelude.{◌≡◌, ◌^◌, ◌<◌, ◌≤◌, drop, length, Some};
ghost use Rattle.sam_handles.specs.Buffers.{Fills, Puts, countable};
ghost use Rattle.sam_handles.specs.Calls.{Writes, WritesName, written};

use crate::status::OK;

/// How much of a text was put into a buffer. It counts whole runes alone.
#[derive(Clone, Copy, Debug, PartialEq, Eq, Drop)]
pub struct Filled {
    /// How many bytes of the buffer were written.
    pub bytes: usize,
    /// How many runes they spell.
    pub runes: usize,
}

/// Puts a rune into the buffer at `at`, and returns the place after it. Returns `None` if it has no room, and the buffer is as it was.
pub fn put_rune(rune: char, into: &mut [u8], at: usize) -> Option<usize>
    requires { at ≤ length into.old }
    ensures { Puts rune at into.old into.new result }
{
    let mut four = [0u8; 4];
    let spelt = rune.encode_utf8(&mut four).as_bytes();
    if into.len() - at < spelt.len() {
        return None;
    }
    let end = at + spelt.len();
    into[at..end].copy_from_slice(spelt);
    Some(end)
}

/// Puts the first runes into the buffer in UTF-8 (RFC 3629), as many as have room whole. Returns how much it put. The rest of the buffer
/// stays as it was.
pub fn fill_utf8(runes: &[char], into: &mut [u8]) -> Filled
    ensures { Fills runes.now into.old into.new result }
{
    let mut filled = Filled { bytes: 0, runes: 0 };
    for rune in runes {
        let Some(end) = put_rune(*rune, into, filled.bytes) else {
            return filled;
        };
        filled.bytes = end;
        filled.runes += 1;
    }
    filled
}

/// Returns the runes from a place on: none if the place is at the end or after it.
pub fn runes_from(runes: &[char], place: u32) -> &[char]
    ensures { result.now ≡ drop place runes.now }
{
    let start = (place as usize).min(runes.len());
    &runes[start..]
}

/// Returns the runes that 32 bits count: all, since no text has more than `MAX_RUNES`.
pub fn countable(runes: &[char]) -> &[char]
    ensures runes { result.now ≡ countable runes.now }
    ensures few { length result.now < 2 ^ 32 }
{
    let most = u32::MAX as usize;
    if runes.len() > most {
        &runes[..most]
    } else {
        runes
    }
}

/// Returns how many runes there are.
pub fn count(runes: &[char]) -> u32
    requires { length runes.now < 2 ^ 32 }
    ensures { result ≡ length runes.now }
{
    runes.len() as u32
}

/// Puts the first runes of a text into the buffer, and hands out how many bytes and runes. Returns `OK`.
pub fn tell_text(text: &[char], into: &mut [u8], bytes: &mut usize, runes: &mut u32) -> u32
    requires { length text.now < 2 ^ 32 }
    ensures { Writes (Some text.now) result (written into.old bytes.old runes.old) (written into.new bytes.new runes.new) }
{
    let filled = fill_utf8(text, into);
    *bytes = filled.bytes;
    *runes = filled.runes as u32;
    OK
}

/// Puts the first runes of a name into the buffer, and hands out how many bytes. Returns `OK`.
pub fn tell_name(name: &[char], into: &mut [u8], len: &mut usize) -> u32
    ensures { WritesName (Some name.now) result into.old into.new len.old len.new }
{
    *len = fill_utf8(name, into).bytes;
    OK
}
