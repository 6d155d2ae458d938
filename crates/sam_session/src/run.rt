//! The program, run in one of its modes.

ghost use Rattle.std.specs.Prelude.{◌≤◌, ◌<◌, Some, None, IfErr, IfSome, OnOk, length};
ghost use Rattle.sam_runes.specs.Texts.{max_runes};
ghost use Rattle.sam_modes.specs.Limits.{most_input};
ghost use Rattle.sam_modes.specs.Outcome.{OnSide, IsOfBytes, Plays, Written};
ghost use Rattle.sam_modes.specs.Start.{host_of};
ghost use Rattle.sam_modes.specs.Status.{IsTold};
ghost use Rattle.sam_modes.specs.Words.{OnBytes, OnReplay, OnThreads};
ghost use Rattle.sam_session.specs.Replaying.{IsReplay, IsReplayFault};
ghost use Rattle.sam_session.specs.Threading.{IsThreaded, IsThreadsFault};

use crate::replaying::play_replay;
use crate::threading::play_threads;
use sam_modes::{Mode, PlayFault, play_bytes};
use std::alloc::Global;
use std::io::{Read, Write};
use std::sync::Wait;
use std::thread::Threads;

/// Runs the program in this mode, from the reader to the writer.
///
/// ```rust
/// let mode = mode_of(alloc, words)?;
/// let played = play(rt, alloc, &mut reader, &mut writer, mode);
/// let status = status_of(&played);
/// writer.flush()?; // what was written may stand in the writer's memory still
/// ```
///
/// `Bytes` answers frames, with the faults that stand at [`play_bytes`]. Its text has at most `MAX_RUNES` runes.
///
/// `Replay` and `Threads` read the input whole before they parse it, and parse the script whole before anything is done. They write what
/// the mode prints, or in place of all that the line of the fault. They don't flush the writer, where `Bytes` does after each piece. The
/// numbers of `Threads` are at least 1. The faults, in this order:
///
/// - `Read` if a read failed, or if the input has more than `MOST_INPUT` bytes.
/// - `Script(line)` at the first wrong line. If there is none, `Replay` stops at the first line that can't be done: with `Script(line)` if
///   it finds nothing to take, and with `Side` if it would pass a count.
/// - `Threads` if the threads could not be started.
/// - `Side(stop)` if a side stopped. In `Replay` it is `Stop::Host(6)`, whichever side had counted as many messages as it can. In
///   `Threads` it is the first stop of the session that has a cause of its own, which is a full count; if no stop has one, it is
///   `Stop::PeerGone`.
/// - `Write` if the output, or the line of the fault, could not be written. How much went out is not known.
///
/// `OutOfMemory` may come at any of these places.
pub fn play<T: Threads + Wait + Sync, R: Read, W: Write>(
    rt: &T,
    alloc: Global,
    reader: &mut R,
    writer: &mut W,
    mode: Mode,
) -> Result<(), PlayFault>
    requires text { OnBytes mode (λ text. length text ≤ max_runes) }
    requires numbers { OnThreads mode (λ piece capacity. (0 < piece) × (0 < capacity)) }
    ensures ok { OnBytes mode (λ text. OnOk result (Written (R.remaining reader.old) (W.contents writer.old) (W.contents writer.new)
        (λ input written. (length input ≤ most_input) × Plays (host_of text) input written None))) }
    ensures side { OnBytes mode (λ text. IfErr result (λ e. OnSide e (λ stop. Written (R.remaining reader.old) (W.contents writer.old)
        (W.contents writer.new) (λ input written. Plays (host_of text) input written (Some stop))))) }
    ensures fault { OnBytes mode (λ text. IfErr result IsOfBytes) }
    ensures replay { OnReplay mode (OnOk result (Written (R.remaining reader.old) (W.contents writer.old) (W.contents writer.new)
        IsReplay)) }
    ensures replay_fault { OnReplay mode (IfErr result (λ fault. IfSome (R.remaining reader.old) (λ input. IsReplayFault input fault))) }
    ensures replay_told { OnReplay mode (IfErr result (IsTold (W.contents writer.old) (W.contents writer.new))) }
    ensures threads { OnThreads mode (λ _ _. OnOk result (Written (R.remaining reader.old) (W.contents writer.old) (W.contents writer.new)
        IsThreaded)) }
    ensures threads_fault { OnThreads mode (λ _ _. IfErr result (λ fault. IfSome (R.remaining reader.old)
        (λ input. IsThreadsFault input fault))) }
    ensures threads_told { OnThreads mode (λ _ _. IfErr result (IsTold (W.contents writer.old) (W.contents writer.new))) }
{
    match mode {
        Mode::Bytes(text) => play_bytes(alloc, reader, writer, text.as_slice()),
        Mode::Replay => play_replay(alloc, reader, writer),
        Mode::Threads(piece, capacity) => play_threads(rt, alloc, reader, writer, piece, capacity),
    }
}
