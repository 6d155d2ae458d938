//! How a message is read from bytes.

ghost use Rattle.std.specs.Prelude.{◌≡◌, ◌≤◌, [], length, drop, IfSome};
ghost use Rattle.std.specs.Int.{from_be_bytes, w8, w16, w32, w64};
ghost use Rattle.sam_note.specs.Kinds.{has};
ghost use Rattle.sam_note.specs.Calls.{IsWithin, Reads, Shapes, at_place, message_in};
ghost use Rattle.sam_note.specs.Reading.{if_there, message_at, numbers_at, piece_at};
ghost use Rattle.sam_mesg.specs.Reading.{Takes, number_at};

use crate::fault::NoteFault;
use crate::kind::NoteKind;
use crate::note::{Head, MOST_BYTES, Note, Place};
use std::str;

/// Reads a number of one byte at a place, if it is there, and says where it ends.
#[tactic(auto, unfolding(crate::specs::Reading::if_there, sam_mesg::specs::Reading::number_at))]
fn byte_at(there: bool, bytes: &[u8], at: usize) -> Option<(u8, usize)>
    requires { at ≤ length bytes.now }
    ensures read { Takes (λ x. (x.0, drop x.1 bytes.now)) result (if_there there 0 (number_at w8) (drop at bytes.now)) }
    ensures within { IfSome result (λ x. x.1 ≤ length bytes.now) }
{
    if !there {
        return Some((0, at));
    }
    if bytes.len() - at < 1 {
        return None;
    }
    Some((bytes[at], at + 1))
}

/// Reads a number of two bytes at a place, if it is there, and says where it ends.
#[tactic(auto, unfolding(crate::specs::Reading::if_there, sam_mesg::specs::Reading::number_at))]
fn short_at(there: bool, bytes: &[u8], at: usize) -> Option<(u16, usize)>
    requires { at ≤ length bytes.now }
    ensures read { Takes (λ x. (x.0, drop x.1 bytes.now)) result (if_there there 0 (number_at w16) (drop at bytes.now)) }
    ensures within { IfSome result (λ x. x.1 ≤ length bytes.now) }
{
    if !there {
        return Some((0, at));
    }
    if bytes.len() - at < 2 {
        return None;
    }
    let front = &bytes[at..at + 2];
    Some((u16::from_be_bytes([front[0], front[1]]), at + 2))
}

/// Reads a number of four bytes at a place, if it is there, and says where it ends.
#[tactic(auto, unfolding(crate::specs::Reading::if_there, sam_mesg::specs::Reading::number_at))]
fn long_at(there: bool, bytes: &[u8], at: usize) -> Option<(u32, usize)>
    requires { at ≤ length bytes.now }
    ensures read { Takes (λ x. (x.0, drop x.1 bytes.now)) result (if_there there 0 (number_at w32) (drop at bytes.now)) }
    ensures within { IfSome result (λ x. x.1 ≤ length bytes.now) }
{
    if !there {
        return Some((0, at));
    }
    if bytes.len() - at < 4 {
        return None;
    }
    let front = &bytes[at..at + 4];
    let number = u32::from_be_bytes([front[0], front[1], front[2], front[3]]);
    Some((number, at + 4))
}

/// Returns the number of eight bytes.
fn wide_of(bytes: &[u8]) -> u64
    requires { length bytes.now ≡ 8 }
    ensures { from_be_bytes w64 bytes.now ≡ result }
{
    u64::from_be_bytes([
        bytes[0], bytes[1], bytes[2], bytes[3], bytes[4], bytes[5], bytes[6], bytes[7],
    ])
}

/// Reads a number of eight bytes at a place, if it is there, and says where it ends.
#[tactic(auto, unfolding(crate::specs::Reading::if_there, sam_mesg::specs::Reading::number_at))]
fn wide_at(there: bool, bytes: &[u8], at: usize) -> Option<(u64, usize)>
    requires { at ≤ length bytes.now }
    ensures read { Takes (λ x. (x.0, drop x.1 bytes.now)) result (if_there there 0 (number_at w64) (drop at bytes.now)) }
    ensures within { IfSome result (λ x. x.1 ≤ length bytes.now) }
{
    if !there {
        return Some((0, at));
    }
    if bytes.len() - at < 8 {
        return None;
    }
    Some((wide_of(&bytes[at..at + 8]), at + 8))
}

/// Reads a path or a text at a place, if it is there, and says where it ends.
#[tactic(auto, unfolding(crate::specs::Reading::if_there, crate::specs::Reading::counted_at, sam_mesg::specs::Reading::number_at))]
fn piece_at(there: bool, bytes: &[u8], at: usize) -> Option<(Place, usize)>
    requires { at ≤ length bytes.now }
    ensures read { Takes (λ x. (at_place bytes.now x.0, drop x.1 bytes.now)) result (if_there there [] piece_at (drop at bytes.now)) }
    ensures within { IfSome result (λ x. x.1 ≤ length bytes.now) }
    ensures place { IfSome result (λ x. IsWithin bytes.now x.0) }
{
    if !there {
        return Some((Place { start: 0, len: 0 }, at));
    }
    let (len, start) = short_at(true, bytes, at)?;
    let len = len as usize;
    if bytes.len() - start < len {
        return None;
    }
    Some((Place { start, len }, start + len))
}

/// Reads the numbers of a message of this kind, and says where they end.
fn head_of(kind: NoteKind, bytes: &[u8]) -> Option<(Head, usize)>
    requires { 1 ≤ length bytes.now }
    ensures read { Takes (λ x. ((x.0.request, (x.0.tag, (x.0.code, x.0.number))), drop x.1 bytes.now)) result
        (numbers_at (has kind) (drop 1 bytes.now)) }
    ensures within { IfSome result (λ x. x.1 ≤ length bytes.now) }
    ensures kind { IfSome result (λ x. x.0.kind ≡ kind) }
{
    let has = kind.fields();
    let (request, at) = long_at(has.request, bytes, 1)?;
    let (tag, at) = short_at(has.tag, bytes, at)?;
    let (code, at) = byte_at(has.code, bytes, at)?;
    let (number, at) = wide_at(has.number, bytes, at)?;
    let head = Head {
        kind,
        request,
        tag,
        code,
        number,
    };
    Some((head, at))
}

/// Reads the fields of a message of this kind, which take up all of the bytes.
fn fields_of(kind: NoteKind, bytes: &[u8]) -> Option<Note>
    requires { 1 ≤ length bytes.now }
    ensures read { Takes (λ x. message_in bytes.now x) result (message_at kind (drop 1 bytes.now)) }
    ensures path { IfSome result (λ x. IsWithin bytes.now x.path) }
    ensures copy { IfSome result (λ x. IsWithin bytes.now x.copy) }
    ensures text { IfSome result (λ x. IsWithin bytes.now x.text) }
{
    let has = kind.fields();
    let (head, at) = head_of(kind, bytes)?;
    let (path, at) = piece_at(has.path, bytes, at)?;
    let (copy, at) = piece_at(has.copy, bytes, at)?;
    let (text, at) = piece_at(has.text, bytes, at)?;
    if at < bytes.len() {
        return None;
    }
    Some(Note {
        head,
        path,
        copy,
        text,
    })
}

/// Returns the bytes at a place.
fn bytes_at(bytes: &[u8], place: Place) -> &[u8]
    requires { IsWithin bytes.now place }
    ensures { result.now ≡ at_place bytes.now place }
{
    &bytes[place.start..place.start + place.len]
}

/// Reads the message that the bytes spell, whatever bytes its path, copy and text have. Errors, in this order: `BadKind`, `BadLength`.
fn shape_of(bytes: &[u8]) -> Result<Note, NoteFault>
    ensures { Shapes bytes.now result }
{
    let Some(number) = bytes.first() else {
        return Err(NoteFault::BadLength);
    };
    let Some(kind) = NoteKind::of_number(*number) else {
        return Err(NoteFault::BadKind);
    };
    if bytes.len() > MOST_BYTES {
        return Err(NoteFault::BadLength);
    }
    match fields_of(kind, bytes) {
        Some(note) => Ok(note),
        None => Err(NoteFault::BadLength),
    }
}

/// Reads the message that the bytes spell, all of them. Where its path, copy and text stand it says in bytes.
///
/// Errors, in this order: `BadKind` if the first byte is the number of no kind; `BadLength` if there is no byte, if there are too few or
/// too many for the fields of that kind, or more than `MOST_BYTES`; `BadPath` if a byte of the path or of the copy is 0; `BadText` if the
/// text is not UTF-8.
pub fn read_note(bytes: &[u8]) -> Result<Note, NoteFault>
    ensures { Reads bytes.now result }
{
    let note = match shape_of(bytes) {
        Ok(note) => note,
        Err(fault) => return Err(fault),
    };
    if bytes_at(bytes, note.path).contains(&0) || bytes_at(bytes, note.copy).contains(&0) {
        return Err(NoteFault::BadPath);
    }
    match str::from_utf8(bytes_at(bytes, note.text)) {
        Ok(_) => Ok(note),
        Err(_) => Err(NoteFault::BadText),
    }
}
