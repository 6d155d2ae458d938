//! What C calls of a host: include/sulgrevad.h says of each call what it does. A call returns a number of `sam_status`; after
//! `SAM_NO_HANDLE`, `SAM_NONE` and `SAM_NO_MEMORY` what its other arguments lead to is as it was.

ghost use Rattle.std.specs.Prelude.{◌≡◌, length};
ghost use Rattle.sam_handles.specs.Calls.{Reports, Freed};
ghost use Rattle.sam_c.specs.Hosts.{HostAdded, HostFed, HostFinished, HostMade, HostMarked, HostNextWritten, HostTaken};

use sam_endpoint::HostEndpoint;
use sam_handles::handle::SamHost;
use sam_handles::status::{
    MADE, NO_HANDLE, NO_MEMORY, NONE, OK, add_status, host_finish_status, host_status, mark_status,
};
use sam_handles::with_end;
use std::alloc::Global;

/// Makes a host with the command file alone (tag 0). Errors, in this order: `SAM_MADE` if the handle is made already; `SAM_NO_MEMORY`.
/// After an error the handle is as it was.
#[unsafe(no_mangle)]
pub extern "C" fn sam_host_new(host: &mut SamHost, alloc: Global) -> u32
    ensures { HostMade host.old.held.end result host.new.held.end }
{
    if host.is_made() {
        return MADE;
    }
    let Ok(end) = HostEndpoint::new(alloc) else {
        return NO_MEMORY;
    };
    let Ok(end) = Box::new(alloc, end) else {
        return NO_MEMORY;
    };
    host.put(end);
    OK
}

/// Frees a host, with what was pending. The handle is then empty. `SAM_NO_HANDLE` if it is empty already.
#[unsafe(no_mangle)]
pub extern "C" fn sam_host_free(host: &mut SamHost, alloc: Global) -> u32
    ensures { Freed host.old.held.end result host.new.held.end }
{
    match host.take(alloc) {
        Some(_end) => OK,
        None => NO_HANDLE,
    }
}

/// Adds a file, clean and closed, and hands out its tag: 1 for the first, and so on. The name and the text are UTF-8. It may be called at
/// any time: a terminal finds the name in the answer to its next Tversion.
///
/// Errors, in this order: `SAM_NO_HANDLE`; `SAM_NOT_TEXT` if the name or the text is not UTF-8; `SAM_ADD_TOO_LONG` for a name of more than
/// 64 runes or a text of more than 1,000,000; `SAM_ADD_NO_TAG` if all tags were given; `SAM_NO_MEMORY`. After an error the host and the tag
/// are as they were.
#[tactic(auto, using(crate::proofs::EndCalls::host_adds))]
#[unsafe(no_mangle)]
pub extern "C" fn sam_host_add_file(
    host: &mut SamHost,
    name: &[u8],
    text: &[u8],
    tag: &mut u16,
    alloc: Global,
) -> u32
    ensures { HostAdded host.old.held.end name.now text.now tag.old result tag.new host.new.held.end }
{
    with_end!(host alloc mut end {
        match end.add_file(name, text) {
            Ok(given) => {
                *tag = given;
                OK
            }
            Err(why) => add_status(why),
        }
    })
}

/// Marks a file as dirty: for a program whose write of it failed. The frame `Hdirty` is then pending, behind all answers, if the file was
/// clean.
///
/// Errors, in this order: `SAM_NO_HANDLE`; `SAM_NONE` if the tag has no file; `SAM_MARK_COMMAND_FILE` for tag 0; `SAM_MARK_NOT_ANNOUNCED`
/// if the terminal was not told the file's name yet; `SAM_NO_MEMORY`. After an error the host is as it was.
#[tactic(auto, using(crate::proofs::EndCalls::host_marks))]
#[unsafe(no_mangle)]
pub extern "C" fn sam_host_mark_dirty(host: &mut SamHost, tag: u16, alloc: Global) -> u32
    ensures { HostMarked host.old.held.end tag result host.new.held.end }
{
    with_end!(host alloc mut end {
        match end.mark_dirty(tag) {
            Ok(()) => OK,
            Err(why) => mark_status(why),
        }
    })
}

/// Takes bytes of the terminal's messages, in whatever pieces they come, and answers each message that is whole. The answers are then
/// pending.
///
/// Returns `SAM_OK`, `SAM_NO_MEMORY`, `SAM_UNFINISHED`, `SAM_COUNT_FULL`, `SAM_NO_HANDLE`, or why the host has stopped, at this call or
/// before: `SAM_STREAM..`, `SAM_HOST_REFUSED..`. What stood before the fault is answered. `SAM_NO_HANDLE` comes first; the order of the
/// others is that of [`HostEndpoint::feed`].
#[tactic(auto, using(crate::proofs::EndCalls::host_feeds))]
#[unsafe(no_mangle)]
pub extern "C" fn sam_host_feed(host: &mut SamHost, bytes: &[u8], alloc: Global) -> u32
    ensures { HostFed host.old.held.end bytes.now result host.new.held.end }
{
    with_end!(host alloc mut end { host_status(end.feed(bytes)) })
}

/// Says whether the terminal's stream may end here: to be asked where the input of the host has ended. It changes nothing.
///
/// Returns `SAM_OK`, `SAM_NO_HANDLE`, why the host has stopped before (`SAM_STREAM..`, `SAM_HOST_REFUSED..`), `SAM_UNFINISHED` if some of
/// what came waits, since memory was refused, or `SAM_TRUNCATED` if the stream ends inside a message. `SAM_NO_HANDLE` comes first; the
/// order of the others is that of [`HostEndpoint::finish`].
#[unsafe(no_mangle)]
pub extern "C" fn sam_host_finish(host: &mut SamHost, alloc: Global) -> u32
    ensures told { HostFinished host.old.held.end result }
    ensures kept { host.new.held.end ≡ host.old.held.end }
{
    with_end!(host alloc end { host_finish_status(end.finish()) })
}

/// Hands out how many bytes are pending. `SAM_NO_HANDLE` if the handle is empty.
#[unsafe(no_mangle)]
pub extern "C" fn sam_host_pending(host: &mut SamHost, len: &mut usize, alloc: Global) -> u32
    ensures told { Reports host.old.held.end result len.old len.new (λ e. length e.pending_bytes) }
    ensures kept { host.new.held.end ≡ host.old.held.end }
{
    with_end!(host alloc end { *len = end.pending(); OK })
}

/// Moves the first pending bytes into the buffer, as many as it has room for, and hands out how many. `SAM_NO_HANDLE` if the handle is
/// empty.
#[tactic(auto, using(crate::proofs::EndCalls::host_takes_out))]
#[unsafe(no_mangle)]
pub extern "C" fn sam_host_take_out(
    host: &mut SamHost,
    into: &mut [u8],
    count: &mut usize,
    alloc: Global,
) -> u32
    ensures { HostTaken host.old.held.end into.old into.new count.old result count.new host.new.held.end }
{
    with_end!(host alloc mut end { *count = end.take_out(into); OK })
}

/// Hands out the tag of the next file that the terminal had the host write (Twrite) and that this call has not handed out yet: now is
/// the time to write `sam_host_saved` of it to disk. `SAM_NO_HANDLE` if the handle is empty; `SAM_NONE` if there is no such tag.
#[tactic(auto, using(crate::proofs::EndCalls::host_next_written))]
#[unsafe(no_mangle)]
pub extern "C" fn sam_host_next_written(host: &mut SamHost, tag: &mut u16, alloc: Global) -> u32
    ensures { HostNextWritten host.old.held.end tag.old result tag.new host.new.held.end }
{
    with_end!(host alloc mut end {
        match end.next_written() {
            Some(written) => {
                *tag = written;
                OK
            }
            None => NONE,
        }
    })
}
