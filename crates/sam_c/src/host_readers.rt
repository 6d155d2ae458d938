//! What C reads of a host: include/sulgrevad.h says of each call what it hands out. None of them changes the host. Each returns
//! `SAM_NO_HANDLE` if the handle is empty; after that, and after `SAM_NONE`, what its other arguments lead to is as it was. Places count
//! runes from the beginning of the text.

ghost use Rattle.std.specs.Prelude.{◌≡◌, Some, drop, is_some, length, option_map};
ghost use Rattle.sam_endpoint.specs.HostEndpoints.{fault_place};
ghost use Rattle.sam_handles.specs.Buffers.{countable};
ghost use Rattle.sam_handles.specs.Calls.{Reports, ReportsName, ReportsSome, ReportsText, written};
ghost use Rattle.sam_c.specs.Hosts.{dot_of, file_of, saved_of};

use crate::host_files::{
    tell_file_len, tell_file_name, tell_file_text, tell_is_dirty, tell_saved, tell_saved_len,
};
use sam_handles::handle::SamHost;
use sam_handles::status::OK;
use sam_handles::telling::{tell_some, tell_two};
use sam_handles::utf8::{count, countable, runes_from, tell_text};
use sam_handles::with_end;
use std::alloc::Global;

/// Hands out whether the session is over: the terminal has sent Texit, or a command line was `q`.
#[unsafe(no_mangle)]
pub extern "C" fn sam_host_is_done(host: &mut SamHost, done: &mut bool, alloc: Global) -> u32
    ensures told { Reports host.old.held.end result done.old done.new (λ e. e.host.is_done) }
    ensures kept { host.new.held.end ≡ host.old.held.end }
{
    with_end!(host alloc end { *done = end.host().is_done(); OK })
}

/// Hands out how many messages the host has taken and answered.
#[unsafe(no_mangle)]
pub extern "C" fn sam_host_taken(host: &mut SamHost, taken: &mut u64, alloc: Global) -> u32
    ensures told { Reports host.old.held.end result taken.old taken.new (λ e. e.host.taken) }
    ensures kept { host.new.held.end ≡ host.old.held.end }
{
    with_end!(host alloc end { *taken = end.host().taken(); OK })
}

/// Hands out how many bytes of the terminal's stream stand before the frame that is wrong, where the host has stopped for a fault of the
/// stream. `SAM_NONE` if it goes on, or has stopped at a message that it refused.
#[unsafe(no_mangle)]
pub extern "C" fn sam_host_fault_place(host: &mut SamHost, place: &mut u64, alloc: Global) -> u32
    ensures told { ReportsSome host.old.held.end result place.old place.new fault_place }
    ensures kept { host.new.held.end ≡ host.old.held.end }
{
    with_end!(host alloc end {
        tell_some(end.fault_place(), place)
    })
}

/// Hands out the version of the protocol: 1 or 2.
#[unsafe(no_mangle)]
pub extern "C" fn sam_host_version(host: &mut SamHost, version: &mut u16, alloc: Global) -> u32
    ensures told { Reports host.old.held.end result version.old version.new (λ e. e.host.version) }
    ensures kept { host.new.held.end ≡ host.old.held.end }
{
    with_end!(host alloc end { *version = end.host().version(); OK })
}

/// Hands out how many tags were given, the command file's 0 included: the greatest is one less.
#[unsafe(no_mangle)]
pub extern "C" fn sam_host_tags(host: &mut SamHost, count: &mut usize, alloc: Global) -> u32
    ensures told { Reports host.old.held.end result count.old count.new (λ e. length e.host.files.slots) }
    ensures kept { host.new.held.end ≡ host.old.held.end }
{
    with_end!(host alloc end { *count = end.host().files().tags(); OK })
}

/// Hands out whether the tag has a file now. A file that was closed has none.
#[unsafe(no_mangle)]
pub extern "C" fn sam_host_has_file(
    host: &mut SamHost,
    tag: u16,
    has: &mut bool,
    alloc: Global,
) -> u32
    ensures told { Reports host.old.held.end result has.old has.new (λ e. is_some (file_of e tag)) }
    ensures kept { host.new.held.end ≡ host.old.held.end }
{
    with_end!(host alloc end { *has = end.host().files().has(tag); OK })
}

/// Puts the name of a file into the buffer in UTF-8, as many whole runes as have room, and hands out how many bytes. 256 bytes are always
/// enough. `SAM_NONE` if the tag has no file.
#[unsafe(no_mangle)]
pub extern "C" fn sam_host_name(
    host: &mut SamHost,
    tag: u16,
    into: &mut [u8],
    len: &mut usize,
    alloc: Global,
) -> u32
    ensures told { ReportsName host.old.held.end result into.old into.new len.old len.new (λ e. option_map (λ f. f.name) (file_of e tag)) }
    ensures kept { host.new.held.end ≡ host.old.held.end }
{
    with_end!(host alloc end {
        tell_file_name(end.host(), tag, into, len)
    })
}

/// Hands out the length of a file's text in runes. `SAM_NONE` if the tag has no file.
#[unsafe(no_mangle)]
pub extern "C" fn sam_host_len(host: &mut SamHost, tag: u16, runes: &mut u32, alloc: Global) -> u32
    ensures told { ReportsSome host.old.held.end result runes.old runes.new (λ e. option_map (λ f. length f.text) (file_of e tag)) }
    ensures kept { host.new.held.end ≡ host.old.held.end }
{
    with_end!(host alloc end {
        tell_file_len(end.host(), tag, runes)
    })
}

/// Hands out whether a file was edited since it was made or written; never for the command file, tag 0. `SAM_NONE` if the tag has no file.
#[unsafe(no_mangle)]
pub extern "C" fn sam_host_is_dirty(
    host: &mut SamHost,
    tag: u16,
    dirty: &mut bool,
    alloc: Global,
) -> u32
    ensures told { ReportsSome host.old.held.end result dirty.old dirty.new (λ e. option_map (λ f. f.dirty) (file_of e tag)) }
    ensures kept { host.new.held.end ≡ host.old.held.end }
{
    with_end!(host alloc end {
        tell_is_dirty(end.host(), tag, dirty)
    })
}

/// Hands out the dot of a file: the places where the selection begins and ends. `SAM_NONE` if the tag has no file.
#[unsafe(no_mangle)]
pub extern "C" fn sam_host_dot(
    host: &mut SamHost,
    tag: u16,
    start: &mut u32,
    end: &mut u32,
    alloc: Global,
) -> u32
    ensures told { ReportsSome host.old.held.end result (start.old, end.old) (start.new, end.new) (λ e. dot_of e tag) }
    ensures kept { host.new.held.end ≡ host.old.held.end }
{
    with_end!(host alloc held {
        tell_two(held.host().files().dot(tag), start, end)
    })
}

/// Puts a file's text from a place on into the buffer in UTF-8, as many whole runes as have room. Hands out how many bytes and how many
/// runes: none if the place is at the end or after it. `SAM_NONE` if the tag has no file.
#[unsafe(no_mangle)]
pub extern "C" fn sam_host_text(
    host: &mut SamHost,
    tag: u16,
    place: u32,
    into: &mut [u8],
    bytes: &mut usize,
    runes: &mut u32,
    alloc: Global,
) -> u32
    ensures told { ReportsText host.old.held.end result (written into.old bytes.old runes.old) (written into.new bytes.new runes.new)
        (λ e. option_map (λ f. drop place f.text) (file_of e tag)) }
    ensures kept { host.new.held.end ≡ host.old.held.end }
{
    with_end!(host alloc end {
        tell_file_text(end.host(), tag, place, into, bytes, runes)
    })
}

/// Hands out the length in runes of what a file was when it was written last (Twrite). `SAM_NONE` if it never was, or if the tag has no
/// file.
#[unsafe(no_mangle)]
pub extern "C" fn sam_host_saved_len(
    host: &mut SamHost,
    tag: u16,
    runes: &mut u32,
    alloc: Global,
) -> u32
    ensures told { ReportsSome host.old.held.end result runes.old runes.new (λ e. option_map (λ s. length (countable s)) (saved_of e tag)) }
    ensures kept { host.new.held.end ≡ host.old.held.end }
{
    with_end!(host alloc end {
        tell_saved_len(end.host(), tag, runes)
    })
}

/// Puts what a file was when it was written last (Twrite), from a place on, into the buffer in UTF-8, as many whole runes as have room.
/// Hands out how many bytes and how many runes. `SAM_NONE` if it never was written, or if the tag has no file.
#[unsafe(no_mangle)]
pub extern "C" fn sam_host_saved(
    host: &mut SamHost,
    tag: u16,
    place: u32,
    into: &mut [u8],
    bytes: &mut usize,
    runes: &mut u32,
    alloc: Global,
) -> u32
    ensures told { ReportsText host.old.held.end result (written into.old bytes.old runes.old) (written into.new bytes.new runes.new)
        (λ e. option_map (λ s. drop place (countable s)) (saved_of e tag)) }
    ensures kept { host.new.held.end ≡ host.old.held.end }
{
    with_end!(host alloc end {
        tell_saved(end.host(), tag, place, into, bytes, runes)
    })
}

/// Hands out how many runes the snarf buffer has.
#[unsafe(no_mangle)]
pub extern "C" fn sam_host_snarf_len(host: &mut SamHost, runes: &mut u32, alloc: Global) -> u32
    ensures told { Reports host.old.held.end result runes.old runes.new (λ e. length (countable e.host.files.snarf)) }
    ensures kept { host.new.held.end ≡ host.old.held.end }
{
    with_end!(host alloc end {
        *runes = count(countable(end.host().files().snarf_text().as_slice()));
        OK
    })
}

/// Puts what the snarf buffer has, from a place on, into the buffer in UTF-8, as many whole runes as have room. Hands out how many bytes
/// and how many runes.
#[unsafe(no_mangle)]
pub extern "C" fn sam_host_snarf(
    host: &mut SamHost,
    place: u32,
    into: &mut [u8],
    bytes: &mut usize,
    runes: &mut u32,
    alloc: Global,
) -> u32
    ensures told { ReportsText host.old.held.end result (written into.old bytes.old runes.old) (written into.new bytes.new runes.new)
        (λ e. Some (drop place (countable e.host.files.snarf))) }
    ensures kept { host.new.held.end ≡ host.old.held.end }
{
    with_end!(host alloc end {
        tell_text(runes_from(countable(end.host().files().snarf_text().as_slice()), place), into, bytes, runes)
    })
}
