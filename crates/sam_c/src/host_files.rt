//! What is handed out of the files of a host, whichever handle holds it. Each call returns `SAM_NONE` if the tag has no file.

ghost use Rattle.std.specs.Prelude.{drop, length, option_map};
ghost use Rattle.sam_runes.specs.Slots.{slot};
ghost use Rattle.sam_text.specs.Files.{file_at};
ghost use Rattle.sam_handles.specs.Buffers.{countable};
ghost use Rattle.sam_handles.specs.Calls.{TellsOne, Writes, WritesName, written};

use sam_handles::status::NONE;
use sam_handles::telling::tell;
use sam_handles::utf8::{count, countable, runes_from, tell_name, tell_text};
use sam_host::Host;

/// Puts the first runes of a file's name into the buffer.
pub(crate) fn tell_file_name(host: &Host, tag: u16, into: &mut [u8], len: &mut usize) -> u32
    ensures { WritesName (option_map (λ f. f.name) (slot host.now.files.slots tag)) result into.old into.new len.old len.new }
{
    match host.files().name(tag) {
        Some(name) => tell_name(name.as_slice(), into, len),
        None => NONE,
    }
}

/// Hands out the length of a file's text.
pub(crate) fn tell_file_len(host: &Host, tag: u16, runes: &mut u32) -> u32
    ensures { TellsOne (option_map (λ f. length f.text) (slot host.now.files.slots tag)) result runes.old runes.new }
{
    match host.files().text(tag) {
        Some(text) => tell(text.len(), runes),
        None => NONE,
    }
}

/// Hands out whether a file is dirty.
pub(crate) fn tell_is_dirty(host: &Host, tag: u16, dirty: &mut bool) -> u32
    ensures { TellsOne (option_map (λ f. f.dirty) (slot host.now.files.slots tag)) result dirty.old dirty.new }
{
    if host.files().has(tag) {
        tell(host.files().is_dirty(tag), dirty)
    } else {
        NONE
    }
}

/// Hands out whether the terminal has a window on a file.
pub(crate) fn tell_is_open(host: &Host, tag: u16, open: &mut bool) -> u32
    ensures { TellsOne (option_map (λ f. f.opened) (slot host.now.files.slots tag)) result open.old open.new }
{
    if host.files().has(tag) {
        tell(host.files().is_open(tag), open)
    } else {
        NONE
    }
}

/// Puts the first runes of a file's text from a place on into the buffer.
pub(crate) fn tell_file_text(
    host: &Host,
    tag: u16,
    place: u32,
    into: &mut [u8],
    bytes: &mut usize,
    runes: &mut u32,
) -> u32
    ensures { Writes (option_map (λ f. drop place f.text) (slot host.now.files.slots tag)) result (written into.old bytes.old runes.old)
        (written into.new bytes.new runes.new) }
{
    match host.files().text(tag) {
        Some(text) => tell_text(
            runes_from(text.slice(0, text.len()), place),
            into,
            bytes,
            runes,
        ),
        None => NONE,
    }
}

/// Hands out the length of what a file was when it was written last. It returns `SAM_NONE` also if it never was.
pub(crate) fn tell_saved_len(host: &Host, tag: u16, runes: &mut u32) -> u32
    ensures { TellsOne (option_map (λ s. length (countable s)) (file_at host.now.files tag).saved) result runes.old runes.new }
{
    match host.files().saved(tag) {
        Some(saved) => tell(count(countable(saved.as_slice())), runes),
        None => NONE,
    }
}

/// Puts the first runes of what a file was when it was written last, from a place on, into the buffer. It returns `SAM_NONE` also if it
/// never was.
pub(crate) fn tell_saved(
    host: &Host,
    tag: u16,
    place: u32,
    into: &mut [u8],
    bytes: &mut usize,
    runes: &mut u32,
) -> u32
    ensures { Writes (option_map (λ s. drop place (countable s)) (file_at host.now.files tag).saved) result
        (written into.old bytes.old runes.old) (written into.new bytes.new runes.new) }
{
    match host.files().saved(tag) {
        Some(saved) => tell_text(
            runes_from(countable(saved.as_slice()), place),
            into,
            bytes,
            runes,
        ),
        None => NONE,
    }
}
