//! A session's workers are run as a plan says.

ghost use Rattle.std.specs.Prelude.{◌≡◌, ◌<◌, IfOk, Err};
ghost use Rattle.sam_script.specs.Script.{keys_of, mouse_of};
ghost use Rattle.sam_ends.specs.Gates.{GatesLetIn, GatesLetOn};
ghost use Rattle.sam_ends.specs.WorkerEnds.{Told, AllPassed, GatesTold, RefusesSome};
ghost use Rattle.sam_spawn.specs.declared.run.RunFault.TheVariants.{GateTimedOut};

use crate::tasks::ready_tasks;
use sam_ends::{Ends, Gate, Lines, Starts};
use sam_script::Script;
use sam_spawn::{RunFault, run_tasks};
use std::alloc::Global;
use std::sync::Wait;
use std::thread::Threads;

/// What the workers of a session are to play, in pieces of which size, and at which gate.
pub struct Plan<'s, G> {
    /// What the user does at the keyboard and with the mouse, and the files with which the host begins.
    pub script: &'s Script,
    /// The most bytes of a piece on the lines: at least 1.
    pub piece: usize,
    /// Each worker asks it as it begins and before each step.
    pub gate: &'s G,
}

impl<'s, G> Drop for Plan<'s, G> {
    fn drop(self) {
        let Plan {
            script: _,
            piece: _,
            gate: _,
        } = self;
    }
}

/// Runs the five workers of a session over its lines, and returns their ends. `starts` came with `lines`, and is spent.
///
/// All memory that they begin with is had before. The call waits for its threads, which may never end.
///
/// Errors, in this order: `OutOfMemory` if there is no memory for what the workers begin with; `NoThread` if a thread could not be
/// started; `GateTimedOut` if the gate did not let a worker begin. A worker that stops on its way is no error: its end says why.
pub fn run_ends<'q, R: Threads + Wait + Sync, G: Gate>(
    rt: &R,
    alloc: Global,
    lines: &'q Lines,
    starts: Starts,
    plan: &Plan<'_, G>,
) -> Result<Ends<'q>, RunFault>
    requires together { starts ≡ lines.now }
    requires piece { 0 < plan.now.piece }
    ensures ends { IfOk result (Told (keys_of plan.now.script.now.lines) (mouse_of plan.now.script.now.lines) lines.now) }
    ensures files { IfOk result (λ e. e.host.files.items ≡ plan.now.script.now.files) }
    ensures begun { IfOk result AllPassed }
    ensures gates { IfOk result (GatesTold (G.may_refuse plan.now.gate.now)) }
    ensures let_in { IfOk result (λ _. GatesLetIn (G.must_refuse plan.now.gate.now)) }
    ensures let_on { IfOk result (GatesLetOn (G.must_refuse plan.now.gate.now)) }
    ensures timed { result ≡ Err RunFault.GateTimedOut → RefusesSome (G.may_refuse plan.now.gate.now) }
{
    let Ok(tasks) = ready_tasks(alloc, lines, starts, plan.script) else {
        return Err(RunFault::OutOfMemory);
    };
    run_tasks(rt, alloc, tasks, plan.piece, plan.gate)
}
