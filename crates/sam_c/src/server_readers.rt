//! What C reads of the host of a durable server: include/sulgrevad.h says of each call what it hands out. None of them changes the server.
//! Each returns `SAM_NO_HANDLE` if the handle is empty; after that, and after `SAM_NONE`, what its other arguments lead to is as it was.
//! Places count runes from the beginning of the text.

ghost use Rattle.std.specs.Prelude.{◌≡◌, ◌+◌, Some, drop, is_some, length, option_map};
ghost use Rattle.sam_handles.specs.Buffers.{countable};
ghost use Rattle.sam_handles.specs.Calls.{Reports, ReportsName, ReportsSome, ReportsText, written};
ghost use Rattle.sam_c.specs.Hosts.{file_of, saved_of};
ghost use Rattle.sam_c.specs.Servers.{host_of, link_of};

use crate::host_files::{
    tell_file_len, tell_file_name, tell_file_text, tell_is_dirty, tell_is_open, tell_saved,
    tell_saved_len,
};
use crate::server_handle::SamServer;
use sam_handles::status::OK;
use sam_handles::utf8::{count, countable, runes_from, tell_text};
use sam_handles::with_end;
use std::alloc::Global;

/// Hands out whether the session is over: the terminal has sent Texit, or a command line was `q`.
#[unsafe(no_mangle)]
pub extern "C" fn sam_server_is_done(server: &mut SamServer, done: &mut bool, alloc: Global) -> u32
    ensures told { Reports server.old.held.end result done.old done.new (λ d. (host_of d).host.is_done) }
    ensures kept { server.new.held.end ≡ server.old.held.end }
{
    with_end!(server alloc end { *done = end.host().is_done(); OK })
}

/// Hands out how many tags were given, the command file's 0 included: the greatest is one less.
#[unsafe(no_mangle)]
pub extern "C" fn sam_server_tags(server: &mut SamServer, count: &mut usize, alloc: Global) -> u32
    ensures told { Reports server.old.held.end result count.old count.new (λ d. length (host_of d).host.files.slots) }
    ensures kept { server.new.held.end ≡ server.old.held.end }
{
    with_end!(server alloc end { *count = end.host().files().tags(); OK })
}

/// Hands out whether the tag has a file now. A file that was closed has none.
#[unsafe(no_mangle)]
pub extern "C" fn sam_server_has_file(
    server: &mut SamServer,
    tag: u16,
    has: &mut bool,
    alloc: Global,
) -> u32
    ensures told { Reports server.old.held.end result has.old has.new (λ d. is_some (file_of (host_of d) tag)) }
    ensures kept { server.new.held.end ≡ server.old.held.end }
{
    with_end!(server alloc end { *has = end.host().files().has(tag); OK })
}

/// Puts the name of a file into the buffer in UTF-8, as many whole runes as have room, and hands out how many bytes. 256 bytes are always
/// enough. `SAM_NONE` if the tag has no file.
#[unsafe(no_mangle)]
pub extern "C" fn sam_server_name(
    server: &mut SamServer,
    tag: u16,
    into: &mut [u8],
    len: &mut usize,
    alloc: Global,
) -> u32
    ensures told { ReportsName server.old.held.end result into.old into.new len.old len.new
        (λ d. option_map (λ f. f.name) (file_of (host_of d) tag)) }
    ensures kept { server.new.held.end ≡ server.old.held.end }
{
    with_end!(server alloc end {
        tell_file_name(end.host(), tag, into, len)
    })
}

/// Hands out the length of a file's text in runes. `SAM_NONE` if the tag has no file.
#[unsafe(no_mangle)]
pub extern "C" fn sam_server_len(
    server: &mut SamServer,
    tag: u16,
    runes: &mut u32,
    alloc: Global,
) -> u32
    ensures told { ReportsSome server.old.held.end result runes.old runes.new
        (λ d. option_map (λ f. length f.text) (file_of (host_of d) tag)) }
    ensures kept { server.new.held.end ≡ server.old.held.end }
{
    with_end!(server alloc end {
        tell_file_len(end.host(), tag, runes)
    })
}

/// Hands out whether a file was edited since it was made or written; never for the command file, tag 0. `SAM_NONE` if the tag has no file.
#[unsafe(no_mangle)]
pub extern "C" fn sam_server_is_dirty(
    server: &mut SamServer,
    tag: u16,
    dirty: &mut bool,
    alloc: Global,
) -> u32
    ensures told { ReportsSome server.old.held.end result dirty.old dirty.new (λ d. option_map (λ f. f.dirty) (file_of (host_of d) tag)) }
    ensures kept { server.new.held.end ≡ server.old.held.end }
{
    with_end!(server alloc end {
        tell_is_dirty(end.host(), tag, dirty)
    })
}

/// Puts a file's text from a place on into the buffer in UTF-8, as many whole runes as have room. Hands out how many bytes and how many
/// runes: none if the place is at the end or after it. `SAM_NONE` if the tag has no file.
#[unsafe(no_mangle)]
pub extern "C" fn sam_server_text(
    server: &mut SamServer,
    tag: u16,
    place: u32,
    into: &mut [u8],
    bytes: &mut usize,
    runes: &mut u32,
    alloc: Global,
) -> u32
    ensures told { ReportsText server.old.held.end result (written into.old bytes.old runes.old) (written into.new bytes.new runes.new)
        (λ d. option_map (λ f. drop place f.text) (file_of (host_of d) tag)) }
    ensures kept { server.new.held.end ≡ server.old.held.end }
{
    with_end!(server alloc end {
        tell_file_text(end.host(), tag, place, into, bytes, runes)
    })
}

/// Hands out the length in runes of what a file was when it was written last (Twrite). `SAM_NONE` if it never was, or if the tag has no
/// file.
#[unsafe(no_mangle)]
pub extern "C" fn sam_server_saved_len(
    server: &mut SamServer,
    tag: u16,
    runes: &mut u32,
    alloc: Global,
) -> u32
    ensures told { ReportsSome server.old.held.end result runes.old runes.new
        (λ d. option_map (λ s. length (countable s)) (saved_of (host_of d) tag)) }
    ensures kept { server.new.held.end ≡ server.old.held.end }
{
    with_end!(server alloc end {
        tell_saved_len(end.host(), tag, runes)
    })
}

/// Puts what a file was when it was written last (Twrite), from a place on, into the buffer in UTF-8, as many whole runes as have room.
/// Hands out how many bytes and how many runes. `SAM_NONE` if it never was written, or if the tag has no file.
#[unsafe(no_mangle)]
pub extern "C" fn sam_server_saved(
    server: &mut SamServer,
    tag: u16,
    place: u32,
    into: &mut [u8],
    bytes: &mut usize,
    runes: &mut u32,
    alloc: Global,
) -> u32
    ensures told { ReportsText server.old.held.end result (written into.old bytes.old runes.old) (written into.new bytes.new runes.new)
        (λ d. option_map (λ s. drop place (countable s)) (saved_of (host_of d) tag)) }
    ensures kept { server.new.held.end ≡ server.old.held.end }
{
    with_end!(server alloc end {
        tell_saved(end.host(), tag, place, into, bytes, runes)
    })
}

/// Hands out whether the terminal has a window on the file: it has opened it. `SAM_NONE` if the tag has no file.
#[unsafe(no_mangle)]
pub extern "C" fn sam_server_is_open(
    server: &mut SamServer,
    tag: u16,
    open: &mut bool,
    alloc: Global,
) -> u32
    ensures told { ReportsSome server.old.held.end result open.old open.new (λ d. option_map (λ f. f.opened) (file_of (host_of d) tag)) }
    ensures kept { server.new.held.end ≡ server.old.held.end }
{
    with_end!(server alloc end {
        tell_is_open(end.host(), tag, open)
    })
}

/// Hands out how many runes the snarf buffer has.
#[unsafe(no_mangle)]
pub extern "C" fn sam_server_snarf_len(
    server: &mut SamServer,
    runes: &mut u32,
    alloc: Global,
) -> u32
    ensures told { Reports server.old.held.end result runes.old runes.new (λ d. length (countable (host_of d).host.files.snarf)) }
    ensures kept { server.new.held.end ≡ server.old.held.end }
{
    with_end!(server alloc end {
        *runes = count(countable(end.host().files().snarf_text().as_slice()));
        OK
    })
}

/// Puts what the snarf buffer has, from a place on, into the buffer in UTF-8, as many whole runes as have room. Hands out how many bytes
/// and how many runes.
#[unsafe(no_mangle)]
pub extern "C" fn sam_server_snarf(
    server: &mut SamServer,
    place: u32,
    into: &mut [u8],
    bytes: &mut usize,
    runes: &mut u32,
    alloc: Global,
) -> u32
    ensures told { ReportsText server.old.held.end result (written into.old bytes.old runes.old) (written into.new bytes.new runes.new)
        (λ d. Some (drop place (countable (host_of d).host.files.snarf))) }
    ensures kept { server.new.held.end ≡ server.old.held.end }
{
    with_end!(server alloc end {
        tell_text(runes_from(countable(end.host().files().snarf_text().as_slice()), place), into, bytes, runes)
    })
}

/// Hands out the number of the newest connection; 0 before the first.
#[unsafe(no_mangle)]
pub extern "C" fn sam_server_attempt(
    server: &mut SamServer,
    attempt: &mut u64,
    alloc: Global,
) -> u32
    ensures told { Reports server.old.held.end result attempt.old attempt.new (λ d. (link_of d).attempt) }
    ensures kept { server.new.held.end ≡ server.old.held.end }
{
    with_end!(server alloc end { *attempt = end.link().attempt(); OK })
}

/// Hands out how many bytes were put for the terminal, notes and their heads among them.
#[unsafe(no_mangle)]
pub extern "C" fn sam_server_put_count(
    server: &mut SamServer,
    count: &mut u64,
    alloc: Global,
) -> u32
    ensures told { Reports server.old.held.end result count.old count.new
        (λ d. (link_of d).keeps.base + length (link_of d).keeps.kept) }
    ensures kept { server.new.held.end ≡ server.old.held.end }
{
    with_end!(server alloc end { *count = end.link().put_len(); OK })
}

/// Hands out how many bytes the terminal has acknowledged.
#[unsafe(no_mangle)]
pub extern "C" fn sam_server_acknowledged(
    server: &mut SamServer,
    count: &mut u64,
    alloc: Global,
) -> u32
    ensures told { Reports server.old.held.end result count.old count.new (λ d. (link_of d).keeps.base) }
    ensures kept { server.new.held.end ≡ server.old.held.end }
{
    with_end!(server alloc end { *count = end.link().acknowledged(); OK })
}

/// Hands out how many bytes of the terminal's stream have come.
#[unsafe(no_mangle)]
pub extern "C" fn sam_server_received(server: &mut SamServer, count: &mut u64, alloc: Global) -> u32
    ensures told { Reports server.old.held.end result count.old count.new (λ d. (link_of d).received) }
    ensures kept { server.new.held.end ≡ server.old.held.end }
{
    with_end!(server alloc end { *count = end.link().received(); OK })
}
