//! What is handed out of a terminal's files, and of what is shown of them. Each call returns `SAM_NONE` if there is no such file.

ghost use Rattle.std.specs.Prelude.{drop, option_map};
ghost use Rattle.sam_handles.specs.Calls.{Writes, WritesCells, WritesName, written};
ghost use Rattle.sam_handles.specs.Measures.{front_runes};
ghost use Rattle.sam_handles.specs.Shown.{text_of};
ghost use Rattle.sam_handles.specs.Snapshots.{known_of};

use crate::measures::tell_front;
use crate::members::{Members, read_members};
use crate::snapshots::known_file;
use crate::status::{NONE, OK};
use crate::utf8::tell_name;
use sam_endpoint::TermEndpoint;
use sam_overlay::Overlay;

/// Puts the name of a file that a terminal knows into the buffer. `NONE` if it knows no file of this tag.
pub fn tell_file_name(end: &TermEndpoint, tag: u16, into: &mut [u8], len: &mut usize) -> u32
    ensures { WritesName (option_map (λ f. f.name) (known_of end.now tag)) result into.old into.new len.old len.new }
{
    match known_file(end, tag) {
        Some(file) => tell_name(file.name.as_slice(), into, len),
        None => NONE,
    }
}

/// Puts what is shown of an open file from a place on, up to the first gap, into the buffer. `NONE` if it is not open.
pub fn tell_shown(
    overlay: &Overlay,
    tag: u16,
    place: u32,
    into: &mut [u8],
    bytes: &mut usize,
    runes: &mut u32,
) -> u32
    ensures { Writes (option_map (λ text. front_runes (drop place text)) (text_of overlay.now tag)) result
        (written into.old bytes.old runes.old) (written into.new bytes.new runes.new) }
{
    match Members::shown(overlay, tag) {
        Some(members) => tell_front(members, place, into, bytes, runes),
        None => NONE,
    }
}

/// Puts what is shown of an open file from a place on into the buffer as numbers. `NONE` if it is not open.
pub fn read_shown(overlay: &Overlay, tag: u16, place: u32, into: &mut [u32], count: &mut u32) -> u32
    ensures { WritesCells (text_of overlay.now tag) place result into.old into.new count.old count.new }
{
    match Members::shown(overlay, tag) {
        Some(members) => {
            *count = read_members(members, place, into);
            OK
        }
        None => NONE,
    }
}
