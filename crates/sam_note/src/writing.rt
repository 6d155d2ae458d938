//! How a message is written as bytes.

ghost use Rattle.std.specs.Prelude.{◌≡◌, ◌≤◌, ◌<◌, ◌+◌, ◌++◌, ◌^◌, length, take, drop, IsTrue, ◌↔◌};
ghost use Rattle.sam_note.specs.Calls.{Refuses, Writes, message};
ghost use Rattle.sam_note.specs.Kinds.{has};
ghost use Rattle.sam_note.specs.Messages.{piece};
ghost use Rattle.sam_note.specs.Writing.{Puts, fixed, has_only, head_bytes, note_bytes, part, wide};

use crate::fault::NoteFault;
use crate::kind::Fields;
use crate::note::{Head, MOST_BYTES};
use std::str;

/// Returns whether what the kind has not is 0 or empty.
#[tactic(auto, unfolding(crate::specs::Writing::has_only))]
fn is_plain(head: &Head, path: &[u8], copy: &[u8], text: &[u8]) -> bool
    ensures { result ≡ has_only (has head.now.kind) (message head.now path.now copy.now text.now) }
{
    let has = head.kind.fields();
    (has.request || head.request == 0)
        && (has.tag || head.tag == 0)
        && (has.code || head.code == 0)
        && (has.number || head.number == 0)
        && (has.path || path.is_empty())
        && (has.copy || copy.is_empty())
        && (has.text || text.is_empty())
}

/// Returns how many bytes a field takes that has so many, if it is there.
fn width(there: bool, bytes: usize) -> usize
    ensures { result ≡ wide there bytes }
{
    if there { bytes } else { 0 }
}

/// Returns how many bytes the kind, the numbers and the lengths take.
#[tactic(auto, unfolding(crate::specs::Writing::fixed))]
fn fixed_len(has: Fields) -> usize
    ensures len { result ≡ fixed has }
    ensures most { result ≤ 22 }
{
    1 + width(has.request, 4)
        + width(has.tag, 2)
        + width(has.code, 1)
        + width(has.number, 8)
        + width(has.path, 2)
        + width(has.copy, 2)
        + width(has.text, 2)
}

/// Returns whether a message has at most so many bytes.
fn fits(has: Fields, path: &[u8], copy: &[u8], text: &[u8], most: usize) -> bool
    ensures { IsTrue result ↔ fixed has + length path.now + length copy.now + length text.now ≤ most }
{
    let fixed = fixed_len(has);
    fixed <= most
        && path.len() <= most - fixed
        && copy.len() <= most - fixed - path.len()
        && text.len() <= most - fixed - path.len() - copy.len()
}

/// Writes the bytes at a place.
fn write_at(into: &mut [u8], at: usize, bytes: &[u8])
    requires { at + length bytes.now ≤ length into.old }
    ensures front { take (at + length bytes.now) into.new ≡ take at into.old ++ bytes.now }
    ensures behind { drop at into.new ≡ bytes.now ++ drop (at + length bytes.now) into.old }
    ensures len { length into.new ≡ length into.old }
{
    let end = at + bytes.len();
    into[at..end].copy_from_slice(bytes);
}

/// Writes the bytes at a place, if they are there, and returns where they end.
fn put(there: bool, bytes: &[u8], into: &mut [u8], at: usize) -> usize
    requires { at + length (part there bytes.now) ≤ length into.old }
    ensures { Puts at (part there bytes.now) into.old result into.new }
{
    if there {
        write_at(into, at, bytes);
        at + bytes.len()
    } else {
        at
    }
}

/// Writes a path or a text at a place with its length before it, if it is there, and returns where it ends.
fn put_piece(there: bool, bytes: &[u8], into: &mut [u8], at: usize) -> usize
    requires short { length bytes.now < 2 ^ 16 }
    requires within { at + length (part there (piece bytes.now)) ≤ length into.old }
    ensures { Puts at (part there (piece bytes.now)) into.old result into.new }
{
    let len = bytes.len() as u16;
    let at = put(there, &len.to_be_bytes(), into, at);
    put(there, bytes, into, at)
}

/// Writes the kind and the numbers of a message, and returns where they end.
#[tactic(auto, using(crate::proofs::Putting::length_head))]
fn put_head(head: &Head, into: &mut [u8]) -> usize
    requires { length (head_bytes head.now) ≤ length into.old }
    ensures { Puts 0 (head_bytes head.now) into.old result into.new }
{
    let has = head.kind.fields();
    let at = put(true, &[head.kind.number()], into, 0);
    let at = put(has.request, &head.request.to_be_bytes(), into, at);
    let at = put(has.tag, &head.tag.to_be_bytes(), into, at);
    let at = put(has.code, &[head.code], into, at);
    put(has.number, &head.number.to_be_bytes(), into, at)
}

/// Writes a message that fits at the front of `into`, and returns how many bytes it has.
#[tactic(auto, using(crate::proofs::Putting::length_note))]
fn put_note(head: &Head, path: &[u8], copy: &[u8], text: &[u8], into: &mut [u8]) -> usize
    requires path { length path.now < 2 ^ 16 }
    requires copy { length copy.now < 2 ^ 16 }
    requires text { length text.now < 2 ^ 16 }
    requires within { length (note_bytes head.now path.now copy.now text.now) ≤ length into.old }
    ensures { Puts 0 (note_bytes head.now path.now copy.now text.now) into.old result into.new }
{
    let has = head.kind.fields();
    let at = put_head(head, into);
    let at = put_piece(has.path, path, into, at);
    let at = put_piece(has.copy, copy, into, at);
    put_piece(has.text, text, into, at)
}

/// Returns why a message is not written where there is so much room, if it isn't.
#[tactic(auto, using(crate::proofs::Spelling::refusals))]
fn fault_of(head: &Head, path: &[u8], copy: &[u8], text: &[u8], room: usize) -> Option<NoteFault>
    ensures { Refuses (message head.now path.now copy.now text.now) room result }
{
    if !is_plain(head, path, copy, text) {
        return Some(NoteFault::BadField);
    }
    if !fits(head.kind.fields(), path, copy, text, MOST_BYTES.min(room)) {
        return Some(NoteFault::BadLength);
    }
    if path.contains(&0) || copy.contains(&0) {
        return Some(NoteFault::BadPath);
    }
    match str::from_utf8(text) {
        Ok(_) => None,
        Err(_) => Some(NoteFault::BadText),
    }
}

/// Writes the message at the front of `into`, and returns how many bytes it has. What stands after them is as before.
///
/// Errors, in this order, `into` is then as before: `BadField` if a field that the kind has not is not 0 or not empty; `BadLength` if the
/// message has more than `MOST_BYTES` bytes, or more than there is room for; `BadPath` if a byte of the path or of the copy is 0;
/// `BadText` if the text is not UTF-8.
pub fn write_note(
    head: &Head,
    path: &[u8],
    copy: &[u8],
    text: &[u8],
    into: &mut [u8],
) -> Result<usize, NoteFault>
    ensures { Writes (message head.now path.now copy.now text.now) into.old result into.new }
{
    match fault_of(head, path, copy, text, into.len()) {
        Some(fault) => Err(fault),
        None => Ok(put_note(head, path, copy, text, into)),
    }
}
