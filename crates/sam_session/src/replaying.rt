//! Mode `replay`: a script in, what it prints out.

ghost use Rattle.std.specs.Prelude.{OnOk, IfOk, IfErr, IfSome};
ghost use Rattle.sam_modes.specs.Outcome.{Written};
ghost use Rattle.sam_session.specs.Replaying.{IsReplay, IsReplayFault};
ghost use Rattle.sam_modes.specs.Status.{IsTold};

use crate::script::of_script;
use sam_modes::{PlayFault, read_all, write_or_tell};
use sam_script::replay_bytes;
use std::alloc::Global;
use std::io::{Read, Write};

/// Replays the script that the reader gives, and writes what it prints, or in place of all that the line of the fault. The faults and
/// their order stand at [`play`](crate::play).
#[tactic(auto, using(crate::proofs::Scripts::written, crate::proofs::Scripts::faulted))]
pub fn play_replay<R: Read, W: Write>(
    alloc: Global,
    reader: &mut R,
    writer: &mut W,
) -> Result<(), PlayFault>
    ensures ok { OnOk result (Written (R.remaining reader.old) (W.contents writer.old) (W.contents writer.new) IsReplay) }
    ensures fault { IfErr result (λ fault. IfSome (R.remaining reader.old) (λ input. IsReplayFault input fault)) }
    ensures told { IfErr result (IsTold (W.contents writer.old) (W.contents writer.new)) }
{
    let lines = replay_lines(alloc, reader);
    write_or_tell(writer, lines)
}

/// Returns what the script that the reader gives prints. The input is read whole before it is parsed, and parsed whole before its first
/// line is done.
#[tactic(auto, using(crate::proofs::Scripts::replay_shown, crate::proofs::Scripts::replay_stopped, crate::proofs::Scripts::replay_unread))]
fn replay_lines<R: Read>(alloc: Global, reader: &mut R) -> Result<Vec<u8>, PlayFault>
    ensures ok { IfOk result (λ lines. IfSome (R.remaining reader.old) (λ input. IsReplay input lines.items)) }
    ensures fault { IfErr result (λ fault. IfSome (R.remaining reader.old) (λ input. IsReplayFault input fault)) }
{
    let input = read_all(alloc, reader)?;
    match replay_bytes(alloc, input.as_slice()) {
        Ok(lines) => Ok(lines),
        Err(fault) => Err(of_script(fault)),
    }
}
