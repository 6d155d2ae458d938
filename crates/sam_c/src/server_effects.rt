//! What a durable server asks a C program to do: include/sulgrevad.h says of each call what it does. After `SAM_NO_HANDLE`, `SAM_NONE` and
//! `SAM_NO_ROOM` what the other arguments lead to is as it was.

ghost use Rattle.std.specs.Prelude.{◌≡◌, option_map};
ghost use Rattle.sam_server.specs.DurableServers.{RefusesEffect, effect_due};
ghost use Rattle.sam_server.specs.Records.{Done};
ghost use Rattle.sam_server.specs.Turns.{plain_effect};
ghost use Rattle.sam_handles.specs.Calls.{ReportsSome};
ghost use Rattle.sam_handles.specs.Status.{nothing};
ghost use Rattle.sam_c.specs.Servers.{ReportsWhole, ServerTook, closed_name, closed_text, copied, heard, told_effect};

use crate::server_handle::SamServer;
use crate::server_records::copy_whole;
use crate::server_status::{fault_number, stop_status};
use sam_handles::status::{NO_MEMORY, NONE, OK, UNFINISHED, WAITING};
use sam_handles::telling::tell;
use sam_handles::with_end;
use sam_server::{CallFault, Effect};
use std::alloc::Global;

/// The saved text of a file is to be written.
const WRITE: u32 = 1;

/// The terminal's program said a message.
const HEAR: u32 = 2;

/// The terminal closed a file that was dirty.
const CLOSE: u32 = 3;

/// What the program is asked to do: `sam_effect` of include/sulgrevad.h. What a kind doesn't say is 0.
#[repr(C)]
#[derive(Clone, Copy, Drop)]
pub struct SamEffect {
    /// How many bytes the message has, or the text of the file that was closed.
    pub len: usize,
    /// A number of `sam_effect_kind`.
    pub kind: u32,
    /// The file.
    pub tag: u16,
}

/// Returns an effect, as C has it.
fn told_effect(effect: &Effect) -> SamEffect
    ensures { result ≡ told_effect (plain_effect effect.now) }
{
    match effect {
        Effect::Write(tag) => SamEffect {
            kind: WRITE,
            len: 0,
            tag: *tag,
        },
        Effect::Hear(message) => SamEffect {
            kind: HEAR,
            len: message.len(),
            tag: 0,
        },
        Effect::Close { tag, text, .. } => SamEffect {
            kind: CLOSE,
            len: text.len(),
            tag: *tag,
        },
    }
}

/// Hands out the effect that is to be done now. `SAM_NO_HANDLE` if the handle is empty; `SAM_NONE` if there is none, or if its record is
/// not durable yet.
#[unsafe(no_mangle)]
pub extern "C" fn sam_server_next_effect(
    server: &mut SamServer,
    effect: &mut SamEffect,
    alloc: Global,
) -> u32
    ensures told { ReportsSome server.old.held.end result effect.old effect.new (λ d. option_map told_effect (effect_due d)) }
    ensures kept { server.new.held.end ≡ server.old.held.end }
{
    with_end!(server alloc end {
        match end.next_effect() {
            Some(due) => tell(told_effect(due), effect),
            None => NONE,
        }
    })
}

/// Copies the message that is to be heard now into the buffer, all of it or nothing, and hands out how many bytes it has.
///
/// Errors, in this order: `SAM_NO_HANDLE`; `SAM_NONE` if `sam_server_next_effect` hands out no message; `SAM_NO_ROOM` if the buffer is
/// shorter.
#[unsafe(no_mangle)]
pub extern "C" fn sam_server_heard(
    server: &mut SamServer,
    into: &mut [u8],
    len: &mut usize,
    alloc: Global,
) -> u32
    ensures told { ReportsWhole server.old.held.end (copied into.old len.old) result (copied into.new len.new) heard }
    ensures kept { server.new.held.end ≡ server.old.held.end }
{
    with_end!(server alloc end {
        match end.next_effect() {
            Some(Effect::Hear(message)) => copy_whole(message.as_slice(), into, len),
            Some(_) => NONE,
            None => NONE,
        }
    })
}

/// Copies the name of the file that was closed into the buffer, in UTF-8, all of it or nothing, and hands out how many bytes it has.
///
/// Errors, in this order: `SAM_NO_HANDLE`; `SAM_NONE` if `sam_server_next_effect` hands out no file that was closed; `SAM_NO_ROOM` if the
/// buffer is shorter.
#[unsafe(no_mangle)]
pub extern "C" fn sam_server_closed_name(
    server: &mut SamServer,
    into: &mut [u8],
    len: &mut usize,
    alloc: Global,
) -> u32
    ensures told { ReportsWhole server.old.held.end (copied into.old len.old) result (copied into.new len.new) closed_name }
    ensures kept { server.new.held.end ≡ server.old.held.end }
{
    with_end!(server alloc end {
        match end.next_effect() {
            Some(Effect::Close { name, .. }) => copy_whole(name.as_slice(), into, len),
            Some(_) => NONE,
            None => NONE,
        }
    })
}

/// Copies the text of the file that was closed into the buffer, as `sam_server_closed_name` copies its name.
#[unsafe(no_mangle)]
pub extern "C" fn sam_server_closed_text(
    server: &mut SamServer,
    into: &mut [u8],
    len: &mut usize,
    alloc: Global,
) -> u32
    ensures told { ReportsWhole server.old.held.end (copied into.old len.old) result (copied into.new len.new) closed_text }
    ensures kept { server.new.held.end ≡ server.old.held.end }
{
    with_end!(server alloc end {
        match end.next_effect() {
            Some(Effect::Close { text, .. }) => copy_whole(text.as_slice(), into, len),
            Some(_) => NONE,
            None => NONE,
        }
    })
}

/// Takes note that the effect is done, with a number of the program's for how it ended, and handles what waited behind it.
///
/// Errors, in this order: `SAM_NO_HANDLE`; why the server has stopped before; `SAM_WAITING`; `SAM_NO_MEMORY`; `SAM_NONE` if
/// `sam_server_next_effect` hands out none; `SAM_UNFINISHED`, after which it counts as done, or why the server has stopped at this call.
#[unsafe(no_mangle)]
pub extern "C" fn sam_server_effect_done(server: &mut SamServer, ending: u64, alloc: Global) -> u32
    ensures { ServerTook server.old.held.end (Done ending) RefusesEffect (λ why. nothing) result server.new.held.end }
{
    with_end!(server alloc mut end {
        match end.effect_done(ending) {
            Ok(()) => OK,
            Err(why) => fault_number!(why, _refusal => NONE),
        }
    })
}
