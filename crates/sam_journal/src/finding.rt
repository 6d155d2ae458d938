//! The record that stands at a place.

ghost use Rattle.std.specs.Prelude.{◌≡◌, ◌+◌, ◌≤◌, ◌++◌, ℕ, drop, length, take, MatchOption};
ghost use Rattle.sam_journal.specs.Records.{Entry, IsFound, Stands, eight, entry_of, four};

use crate::checksum::{sum_of, sum_of_both};

/// How many bytes of a record stand before its body: its number in eight, the length of its body in four, how many bytes of the file were
/// durable in eight, and the sum of these in four.
pub const FRONT_BYTES: usize = 24;

/// How many bytes a record has beside its body: those before it, and a sum of four bytes behind it.
pub const RECORD_BYTES: usize = 28;

/// How many bytes of the front its sum is of.
pub const HEADING_BYTES: usize = 20;

/// A whole record of a file.
#[derive(Clone, Copy, Debug, PartialEq, Eq, Drop)]
pub struct Record {
    /// The place in the file at which it begins, in bytes from 0.
    pub place: usize,
    /// Its number: the first record of a file has 0.
    pub number: u64,
    /// How many bytes of the file were durable when it was made.
    pub durable: u64,
    /// How many bytes its body has. The body begins 24 bytes behind the place.
    pub len: usize,
}

impl Record {
    /// Returns its body, of the bytes of the file in which it was found.
    pub fn body<'a>(&self, bytes: &'a [u8]) -> &'a [u8]
        requires { self.now.place + 28 + self.now.len ≤ length bytes.now }
        ensures { result.now ≡ (entry_of bytes.now self.now).body }
    {
        let (_, behind) = bytes.split_at(self.place + FRONT_BYTES);
        let (body, _) = behind.split_at(self.len);
        body
    }
}

/// Writes the bytes at this place.
pub fn write_at(out: &mut [u8], at: usize, bytes: &[u8])
    requires { at + length bytes.now ≤ length out.old }
    ensures front { take (at + length bytes.now) out.new ≡ take at out.old ++ bytes.now }
    ensures len { length out.new ≡ length out.old }
{
    let end = at + bytes.len();
    out[at..end].copy_from_slice(bytes);
}

/// Reads the number of four bytes at this place.
#[tactic(auto, unfolding(crate::specs::Records::four))]
pub fn four_at(bytes: &[u8], at: usize) -> u32
    requires { at + 4 ≤ length bytes.now }
    ensures { four result ≡ take 4 (drop at bytes.now) }
{
    let front = &bytes[at..at + 4];
    u32::from_be_bytes([front[0], front[1], front[2], front[3]])
}

/// Reads the number of eight bytes at this place.
#[tactic(auto, unfolding(crate::specs::Records::eight))]
pub fn eight_at(bytes: &[u8], at: usize) -> u64
    requires { at + 8 ≤ length bytes.now }
    ensures { eight result ≡ take 8 (drop at bytes.now) }
{
    let front = &bytes[at..at + 8];
    u64::from_be_bytes([
        front[0], front[1], front[2], front[3], front[4], front[5], front[6], front[7],
    ])
}

/// Returns the whole record that stands at this place in the file of this random number, whatever its number is. `None` if none does: the
/// bytes end before it, or a sum is wrong, or it says that more was durable than stands before it.
pub fn record_at(bytes: &[u8], place: usize, random: u64) -> Option<Record>
    ensures { MatchOption result ((number : ℕ) (e : Entry) → Stands random bytes.now place number e → ⊥)
        (λ found. IsFound random bytes.now place found) }
{
    if bytes.len() < place {
        return None;
    }
    let (_, piece) = bytes.split_at(place);
    if piece.len() < RECORD_BYTES {
        return None;
    }
    let len = four_at(piece, 8) as usize;
    if piece.len() - RECORD_BYTES < len {
        return None;
    }
    let durable = eight_at(piece, 12);
    if durable > place as u64 {
        return None;
    }
    let (heading, _) = piece.split_at(HEADING_BYTES);
    if sum_of(random, heading) != four_at(piece, HEADING_BYTES) {
        return None;
    }
    let (front, rest) = piece.split_at(FRONT_BYTES);
    let (body, _) = rest.split_at(len);
    if sum_of_both(random, front, body) != four_at(rest, len) {
        return None;
    }
    Some(Record {
        place,
        number: eight_at(piece, 0),
        durable,
        len,
    })
}
