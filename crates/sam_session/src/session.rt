//! A whole session of five threads.
ghost use Rattle.std.specs.Prelude.{◌≡◌, ◌<◌, IfOk, IfErr, OnOk, Ok, Err};
ghost use Rattle.sam_script.specs.Script.{without_lines};
ghost use Rattle.sam_session.specs.Session.{IsLeft, IsSession, IsSettled, SessionOf};
ghost use Rattle.sam_ends.specs.Tasks.{AreReady};
ghost use Rattle.sam_ends.specs.WorkerEnds.{AreEnds, RefusesSome};
ghost use Rattle.sam_spawn.specs.declared.run.RunFault.TheVariants.{GateTimedOut, OutOfMemory};

use crate::tasks::{moved_tasks, ready_tasks};
use sam_ends::{Ends, Gate, Lines, Tasks};
use sam_script::Script;
use sam_settle::{Settled, settle};
use sam_spawn::{RunFault, run_tasks};
use std::alloc::Global;
use std::sync::Wait;
use std::thread::Threads;

/// Runs the script on five threads, and settles what the session came to. The lines hold `capacity` entries each, and pieces on them have
/// at most `piece` bytes; both are at least 1. The user does at the keyboard and with the mouse what the script says. The script's steps
/// don't count: the threads go on as they like. The script stays as it is, so each event is copied; [`run_threads_once`] copies none. The
/// call waits for its threads, which may never end.
///
/// ```rust
/// let script = Script::read(alloc, b"file a hello\nk version 1\nk open 1\nk exit\n")?;
/// let settled = run_threads(rt, alloc, &script, 64, 16, &OpenGate)?;
/// if settled.stops.is_empty() { .. } // both sides came to their end
/// ```
///
/// Errors, in this order: `OutOfMemory` if there is no memory for the lines or for what the workers begin with; `NoThread` if a thread
/// could not be started; `GateTimedOut` if the gate did not let a worker begin; `OutOfMemory` if there is no memory for the settling. A
/// worker that stops on its way, when out of memory too, is no error: `Settled::stops` says it.
#[tactic(auto, using(crate::proofs::SessionLaws::settled_session))]
pub fn run_threads<R: Threads + Wait + Sync, G: Gate>(
    rt: &R,
    alloc: Global,
    script: &Script,
    piece: usize,
    capacity: usize,
    gate: &G,
) -> Result<Settled, RunFault>
    requires piece { 0 < piece }
    requires capacity { 0 < capacity }
    ensures session { IfOk result (IsSession script.now (G.may_refuse gate.now) (G.must_refuse gate.now)) }
    ensures timed { result ≡ Err RunFault.GateTimedOut → RefusesSome (G.may_refuse gate.now) }
{
    let Ok((lines, starts)) = Lines::new(alloc, capacity) else {
        return Err(RunFault::OutOfMemory);
    };
    let Ok(tasks) = ready_tasks(alloc, &lines, starts, script) else {
        return Err(RunFault::OutOfMemory);
    };
    play_tasks(rt, alloc, tasks, piece, gate)
}

/// Does what [`run_threads`] does, and uses the script's lines up, so that no event is copied. Its files stay.
///
/// The errors are those of [`run_threads`], in their order. If there is no memory for the lines or for what the workers begin with, the
/// script is unchanged. After every other error, and where there is none, its files are unchanged and its lines are gone.
#[tactic(auto, using(crate::proofs::SessionLaws::settled_session, crate::proofs::SessionLaws::lines_gone))]
pub fn run_threads_once<R: Threads + Wait + Sync, G: Gate>(
    rt: &R,
    alloc: Global,
    script: &mut Script,
    piece: usize,
    capacity: usize,
    gate: &G,
) -> Result<Settled, RunFault>
    requires piece { 0 < piece }
    requires capacity { 0 < capacity }
    ensures session { IfOk result (IsSession script.old (G.may_refuse gate.now) (G.must_refuse gate.now)) }
    ensures timed { result ≡ Err RunFault.GateTimedOut → RefusesSome (G.may_refuse gate.now) }
    ensures used { OnOk result (script.new ≡ without_lines script.old) }
    ensures left { IfErr result (IsLeft script.old script.new) }
{
    let Ok((lines, starts)) = Lines::new(alloc, capacity) else {
        return Err(RunFault::OutOfMemory);
    };
    let Ok(tasks) = moved_tasks(alloc, &lines, starts, script) else {
        return Err(RunFault::OutOfMemory);
    };
    play_tasks(rt, alloc, tasks, piece, gate)
}

/// Runs the workers that begin with these tasks, and settles what the session came to.
fn play_tasks<R: Threads + Wait + Sync, G: Gate>(
    rt: &R,
    alloc: Global,
    tasks: Tasks<'_>,
    piece: usize,
    gate: &G,
) -> Result<Settled, RunFault>
    requires piece { 0 < piece }
    requires ready { AreReady tasks.lines.now tasks }
    ensures session { IfOk result (SessionOf tasks.entry (G.may_refuse gate.now) (G.must_refuse gate.now)) }
    ensures timed { result ≡ Err RunFault.GateTimedOut → RefusesSome (G.may_refuse gate.now) }
{
    let ends = run_tasks(rt, alloc, tasks, piece, gate)?;
    settle_run(rt, alloc, ends)
}

/// Settles the ends that a run left. The only error is `OutOfMemory`.
fn settle_run<'q, R: Wait>(rt: &R, alloc: Global, ends: Ends<'q>) -> Result<Settled, RunFault>
    requires ends { AreEnds ends }
    ensures settled { IfOk result (IsSettled ends.entry) }
    ensures memory { IfErr result (λ why. why ≡ RunFault.OutOfMemory) }
{
    or_no_memory(settle(rt, alloc, ends))
}

/// Returns the value, and else the error `OutOfMemory`. It lets go of another error, which may hold the ends of a run, by one call.
fn or_no_memory<T: Drop, E: Drop>(came: Result<T, E>) -> Result<T, RunFault>
    ensures value { IfOk result (λ it. came ≡ Ok it) }
    ensures memory { IfErr result (λ why. why ≡ RunFault.OutOfMemory) }
{
    match came {
        Ok(it) => Ok(it),
        Err(_) => Err(RunFault::OutOfMemory),
    }
}
