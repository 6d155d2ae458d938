//! What C calls to replay a script: include/sulgrevad.h says what the call does.

ghost use Rattle.std.specs.Prelude.{◌≡◌};
ghost use Rattle.sam_c.specs.Scripts.{Replays, filled, handed, line_or, script_status};

use sam_handles::status::{NO_MEMORY, OK};
use sam_script::{ScriptFault, replay_bytes};
use std::alloc::Global;

/// Added to the number of why a script is not replayed.
const SCRIPT: u32 = 160;

/// Returns the number of why a script is not replayed.
fn script_status(why: ScriptFault) -> u32
    ensures { result ≡ script_status why }
{
    match why {
        ScriptFault::OutOfMemory => NO_MEMORY,
        ScriptFault::Line(_) | ScriptFault::CountFull => SCRIPT + why.number() as u32,
    }
}

/// Replays the script that the bytes spell. Puts the first bytes of what it prints into the buffer, as many as have room, and hands out
/// how many bytes it prints in all.
///
/// Errors, in the order of [`replay_bytes`]: `SAM_SCRIPT_LINE`, which hands out the line, counted from 1; `SAM_SCRIPT_COUNT_FULL`;
/// `SAM_NO_MEMORY`. What else the arguments lead to is as it was.
#[unsafe(no_mangle)]
pub extern "C" fn sam_replay(
    script: &[u8],
    out: &mut [u8],
    out_len: &mut usize,
    line: &mut usize,
    alloc: Global,
) -> u32
    ensures { Replays script.now result (handed out.old out_len.old line.old) (handed out.new out_len.new line.new) }
{
    match replay_bytes(alloc, script) {
        Ok(printed) => {
            fill(printed.as_slice(), out);
            *out_len = printed.len();
            OK
        }
        Err(why) => tell_fault(why, line),
    }
}

/// Hands out the line of a fault that has one, and returns the number of the fault.
fn tell_fault(why: ScriptFault, line: &mut usize) -> u32
    ensures status { result ≡ script_status why }
    ensures line { line.new ≡ line_or line.old why }
{
    if let ScriptFault::Line(number) = why {
        *line = number;
    }
    script_status(why)
}

/// Puts the first bytes into the buffer, as many as have room. The rest of the buffer stays as it was.
fn fill(bytes: &[u8], into: &mut [u8])
    ensures { into.new ≡ filled bytes.now into.old }
{
    let count = bytes.len().min(into.len());
    into[..count].copy_from_slice(&bytes[..count]);
}
