//! Mode `threads`: a script in; the schedule that its threads made, and what the end of that shows, out.

ghost use Rattle.std.specs.Prelude.{◌≡◌, ◌<◌, ◌++◌, ◌⊎◌, OnOk, IfOk, IfErr, IfSome, Some, None};
ghost use Rattle.sam_script.specs.RunLines.{run_lines_of};
ghost use Rattle.sam_script.specs.Show.{show_lines};
ghost use Rattle.sam_modes.specs.Causes.{of_stops};
ghost use Rattle.sam_modes.specs.Outcome.{Written};
ghost use Rattle.sam_modes.specs.Status.{IsTold};
ghost use Rattle.sam_session.specs.Threading.{of_run, IsThreaded, IsThreadsFault, IsSessionFault, PrintsSession};

use crate::script::script_in;
use crate::session::run_threads_once;
use sam_ends::OpenGate;
use sam_modes::{PlayFault, fault_of, write_or_tell};
use sam_script::{Script, run_lines, show};
use sam_settle::Settled;
use sam_spawn::RunFault;
use std::alloc::{AllocError, Global};
use std::io::{Read, Write};
use std::sync::Wait;
use std::thread::Threads;

/// How many bytes [`keep_freed_memory`] asks for.
const KEPT_MEMORY: usize = 16_777_216;

/// Asks for a large piece of memory, and lets go of it untouched. From then on the C library keeps what is freed, in pieces of up to this
/// size, and doesn't hand it back to the system. So what a session frees as it goes on holds its schedule in the end, and fewer pages are
/// touched for the first time. Without memory it does nothing.
fn keep_freed_memory(alloc: Global) {
    let _piece: Result<Vec<u8>, AllocError> = Vec::with_capacity(alloc, KEPT_MEMORY);
}

/// Runs the session of the script that the reader gives on five threads, and writes what it came to, or in place of all that the line of
/// the fault. The faults and their order stand at [`play`](crate::play).
#[tactic(auto, using(crate::proofs::Scripts::written, crate::proofs::Scripts::faulted))]
pub(crate) fn play_threads<T: Threads + Wait + Sync, R: Read, W: Write>(
    rt: &T,
    alloc: Global,
    reader: &mut R,
    writer: &mut W,
    piece: usize,
    capacity: usize,
) -> Result<(), PlayFault>
    requires piece { 0 < piece }
    requires capacity { 0 < capacity }
    ensures ok { OnOk result (Written (R.remaining reader.old) (W.contents writer.old) (W.contents writer.new) IsThreaded) }
    ensures fault { IfErr result (λ fault. IfSome (R.remaining reader.old) (λ input. IsThreadsFault input fault)) }
    ensures told { IfErr result (IsTold (W.contents writer.old) (W.contents writer.new)) }
{
    let lines = threads_lines(rt, alloc, reader, piece, capacity);
    write_or_tell(writer, lines)
}

/// Returns the schedule that five threads made of the script that the reader gives, as a script that replays it, with what its end shows.
/// The input is read whole before it is parsed.
#[tactic(auto, using(crate::proofs::Sessions::session_shown, crate::proofs::Sessions::session_stops, crate::proofs::Sessions::no_session))]
fn threads_lines<T: Threads + Wait + Sync, R: Read>(
    rt: &T,
    alloc: Global,
    reader: &mut R,
    piece: usize,
    capacity: usize,
) -> Result<Vec<u8>, PlayFault>
    requires piece { 0 < piece }
    requires capacity { 0 < capacity }
    ensures ok { IfOk result (λ lines. IfSome (R.remaining reader.old) (λ input. IsThreaded input lines.items)) }
    ensures fault { IfErr result (λ fault. IfSome (R.remaining reader.old) (λ input. IsThreadsFault input fault)) }
{
    keep_freed_memory(alloc);
    let script = script_in(alloc, reader)?;
    session_lines(rt, alloc, script, piece, capacity)
}

/// Runs the session of a script on five threads, and returns what is written of it. The script's events are moved to the threads.
#[tactic(auto, using(crate::proofs::Sessions::not_run, crate::proofs::Sessions::not_printed))]
fn session_lines<T: Threads + Wait + Sync>(
    rt: &T,
    alloc: Global,
    mut script: Script,
    piece: usize,
    capacity: usize,
) -> Result<Vec<u8>, PlayFault>
    requires piece { 0 < piece }
    requires capacity { 0 < capacity }
    ensures ok { IfOk result (λ lines. PrintsSession lines.items script) }
    ensures fault { IfErr result (IsSessionFault script) }
{
    let settled = match run_threads_once(rt, alloc, &mut script, piece, capacity, &OpenGate) {
        Ok(settled) => settled,
        Err(fault) => return Err(of_run(fault)),
    };
    let lines = match lines_of(alloc, &script, &settled) {
        Ok(lines) => lines,
        Err(fault) => return Err(fault),
    };
    Ok(lines)
}

/// Returns what is written of a session that was settled. The errors are the fault of its stops, and then `OutOfMemory`.
fn lines_of(alloc: Global, script: &Script, settled: &Settled) -> Result<Vec<u8>, PlayFault>
    ensures whole { IfOk result (λ _. of_stops settled.now.stops.items ≡ None) }
    ensures lines { IfOk result (λ lines. lines.items
        ≡ run_lines_of script.now.files settled.now.schedule.items ++ show_lines settled.now.world) }
    ensures fault { IfErr result (λ fault. (fault ≡ PlayFault.OutOfMemory) ⊎ (of_stops settled.now.stops.items ≡ Some fault)) }
{
    if let Some(fault) = fault_of(settled.stops.as_slice()) {
        return Err(fault);
    }
    let Ok(mut lines) = run_lines(alloc, script, settled.schedule.as_slice()) else {
        return Err(PlayFault::OutOfMemory);
    };
    let Ok(shown) = show(alloc, &settled.world) else {
        return Err(PlayFault::OutOfMemory);
    };
    match lines.extend_from_slice(shown.as_slice()) {
        Ok(()) => Ok(lines),
        Err(_) => Err(PlayFault::OutOfMemory),
    }
}

/// Returns what it is for the program that no session was run.
fn of_run(fault: RunFault) -> PlayFault
    ensures { result ≡ of_run fault }
{
    match fault {
        RunFault::GateTimedOut | RunFault::NoThread => PlayFault::Threads,
        RunFault::OutOfMemory => PlayFault::OutOfMemory,
    }
}
