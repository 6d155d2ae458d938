//! Running the five workers.
ghost use Rattle.std.specs.Prelude.{◌≡◌, ◌<◌, true, false, IfOk, IfErr, IfSome, IsSomeAnd, IsTrue, IsFalse, Some, Err};
ghost use Rattle.sam_spawn.specs.Promised.{AreOfKinds, KeepPromises, TasksKept, SomeRefused, fault_of};
ghost use Rattle.sam_ends.specs.Tasks.{AreReady};
ghost use Rattle.sam_ends.specs.Gates.{GatesLetIn, GatesLetOn};
ghost use Rattle.sam_ends.specs.WorkerEnds.{Told, AllPassed, GatesTold, RefusesSome};
ghost use Rattle.sam_spawn.specs.declared.run.RunFault.TheVariants.{GateTimedOut};

use crate::spawning::{Handles, join_all, spawn_all};
use crate::work::Shared;
use sam_ends::{Ends, Gate, Tasks};
use std::alloc::Global;
use std::sync::{OnceLock, Wait};
use std::thread;
use std::thread::{Scope, Threads};
use thiserror::Error;

/// Why a session could not be run. The right to the ends of its lines is spent, so another try needs new lines.
#[derive(Clone, Copy, Debug, PartialEq, Eq, Drop, Error)]
pub enum RunFault {
    /// The gate did not let some worker begin. The other workers may have begun, and have ended.
    #[error("a worker was not let begin")]
    GateTimedOut = 1,
    /// A thread could not be started.
    #[error("no thread could be started")]
    NoThread = 2,
    /// A request for memory was refused: for the lines, for what the workers begin with, or for the settling.
    #[error("out of memory")]
    OutOfMemory = 3,
}

/// Runs the five workers that begin with these tasks in pieces of at most `piece` bytes, and returns their ends.
///
/// The call waits for its threads, which may never end.
///
/// Errors, in this order: `NoThread` if a thread could not be started; `GateTimedOut` if the gate did not let a worker begin. A worker that
/// stops on its way is no error: its end says why.
#[tactic(auto, using(crate::proofs::Kept::kept_let_in))]
pub fn run_tasks<'q, R: Threads + Wait + Sync, G: Gate>(
    rt: &R,
    alloc: Global,
    tasks: Tasks<'q>,
    piece: usize,
    gate: &G,
) -> Result<Ends<'q>, RunFault>
    requires piece { 0 < piece }
    requires ready { AreReady tasks.lines.now tasks }
    ensures ends { IfOk result (Told tasks.entry.keyboard.events.items tasks.entry.mouse.events.items tasks.entry.lines.now) }
    ensures files { IfOk result (λ e. e.host.files.items ≡ tasks.entry.host.files.items) }
    ensures begun { IfOk result AllPassed }
    ensures gates { IfOk result (GatesTold (G.may_refuse gate.now)) }
    ensures let_in { IfOk result (λ _. GatesLetIn (G.must_refuse gate.now)) }
    ensures let_on { IfOk result (GatesLetOn (G.must_refuse gate.now)) }
    ensures timed { result ≡ Err RunFault.GateTimedOut → RefusesSome (G.may_refuse gate.now) }
{
    let start = OnceLock::new();
    let shared = Shared {
        rt,
        alloc,
        start: &start,
        gate,
        piece,
    };
    let shared = &shared;
    thread::scope(
        thread::scope_env(),
        rt,
        move |scope| -> Result<Ends<'_>, RunFault>
            requires { (0 < shared.now.piece) × AreReady tasks.lines.now tasks }
            ensures ends { IfOk result (TasksKept (G.may_refuse shared.entry.now.gate.now) (G.must_refuse shared.entry.now.gate.now)
                tasks.entry) }
            ensures begun { IfOk result AllPassed }
            ensures timed { result ≡ Err RunFault.GateTimedOut → RefusesSome (G.may_refuse shared.entry.now.gate.now) }
        { run_all(scope, shared, tasks) },
    )
}

/// Starts the five threads, lets their workers begin if all could be started, and joins them.
fn run_all<'s, 'e: 's, 'q: 's, R: Threads + Wait + Sync, G: Gate>(
    scope: &'s Scope<'s, &'e ()>,
    shared: &'s Shared<'s, R, G>,
    tasks: Tasks<'q>,
) -> Result<Ends<'q>, RunFault>
    requires piece { 0 < shared.now.piece }
    requires tasks { AreReady tasks.lines.now tasks }
    ensures ends { IfOk result (TasksKept (G.may_refuse shared.now.gate.now) (G.must_refuse shared.now.gate.now) tasks.entry) }
    ensures begun { IfOk result AllPassed }
    ensures timed { result ≡ Err RunFault.GateTimedOut → RefusesSome (G.may_refuse shared.now.gate.now) }
{
    let handles = spawn_all(scope, shared, tasks);
    let _ = shared.start.set(shared.rt, handles.is_some());
    begun(joined(shared.rt, handles))
}

/// Joins the threads, if all could be started.
fn joined<'s, 'q, R: Threads, G: Gate>(
    rt: &R,
    handles: Option<Handles<'s, 'q, G>>,
) -> Option<Ends<'q>>
    requires { IfSome handles AreOfKinds }
    ensures { IfSome result (λ ends. IsSomeAnd handles.entry (λ h. KeepPromises G.may_refuse G.must_refuse h ends)) }
{
    join_all(rt, handles?)
}

/// Returns the ends if each worker was let begin. The errors are `NoThread` if there are no ends, and `GateTimedOut` if a worker was
/// refused.
fn begun(ends: Option<Ends<'_>>) -> Result<Ends<'_>, RunFault>
    ensures ends { IfOk result (λ e. ends.entry ≡ Some e) }
    ensures begun { IfOk result AllPassed }
    ensures timed { result ≡ Err RunFault.GateTimedOut → IsSomeAnd ends.entry SomeRefused }
    ensures fault { IfErr result (λ why. why ≡ fault_of ends.entry) }
{
    let Some(ends) = ends else {
        return Err(RunFault::NoThread);
    };
    let passed = all_passed(&ends);
    if_passed(passed, ends)
}

/// Returns the value if the workers passed, and else the error `GateTimedOut`. It lets go of ends by one call, as of any type.
fn if_passed<T: Drop>(passed: bool, value: T) -> Result<T, RunFault>
    ensures passed { IfOk result (λ it. (passed ≡ true) × (it ≡ value)) }
    ensures refused { IfErr result (λ why. (passed ≡ false) × (why ≡ RunFault.GateTimedOut)) }
{
    if !passed {
        return Err(RunFault::GateTimedOut);
    }
    Ok(value)
}

/// Returns whether the gate let each worker begin.
fn all_passed(ends: &Ends) -> bool
    ensures passed { IsTrue result → AllPassed ends.now }
    ensures refused { IsFalse result → SomeRefused ends.now }
{
    ends.keyboard.passed
        && ends.mouse.passed
        && ends.host.passed
        && ends.reader.passed
        && ends.term.passed
}
