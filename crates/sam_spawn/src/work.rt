//! What one of the five workers begins with, does and hands back, whichever it is: so all five are started and joined in one way.
ghost use Rattle.std.specs.Prelude.{◌≡◌, ◌<◌, IfSome};
ghost use Rattle.sam_spawn.specs.Promised.{IsNew, Keeps};

use sam_ends::{
    Gate, HostEnd, HostTask, ReaderEnd, ReaderTask, TermEnd, TermTask, UserEnd, UserTask,
};
use sam_term_worker::run_terminal;
use sam_workers::{pass_frames, send_events, serve_host};
use std::alloc::Global;
use std::sync::{OnceLock, Wait};

/// What the five workers share.
pub struct Shared<'s, R, G> {
    /// The runtime, by which they wait.
    pub rt: &'s R,
    /// Where their memory comes from.
    pub alloc: Global,
    /// Whether they are to begin. It is set once all five threads were started, or some could not be.
    pub start: &'s OnceLock<bool>,
    /// The gate that they ask.
    pub gate: &'s G,
    /// The most bytes of a piece: at least 1.
    pub piece: usize,
}

impl<'s, R, G> Drop for Shared<'s, R, G> {
    fn drop(self) {
        let Shared {
            rt: _,
            alloc: _,
            start: _,
            gate: _,
            piece: _,
        } = self;
    }
}

/// What a worker begins with.
#[derive(Drop)]
pub enum Task<'q> {
    /// The keyboard's or the mouse's.
    User(UserTask<'q>),
    Host(HostTask<'q>),
    Reader(ReaderTask<'q>),
    Term(TermTask<'q>),
}

/// What a worker hands back.
#[derive(Drop)]
pub enum End<'q> {
    /// The keyboard's or the mouse's.
    User(UserEnd<'q>),
    Host(HostEnd<'q>),
    Reader(ReaderEnd<'q>),
    Term(TermEnd<'q>),
}

/// Runs the worker that begins with this task.
fn work<'q, R: Wait, G: Gate>(shared: &Shared<'_, R, G>, task: Task<'q>) -> End<'q>
    requires piece { 0 < shared.now.piece }
    requires task { IsNew task }
    ensures { Keeps (G.may_refuse shared.now.gate.now) (G.must_refuse shared.now.gate.now) task.entry result }
{
    let (rt, alloc, gate, piece) = (shared.rt, shared.alloc, shared.gate, shared.piece);
    match task {
        Task::User(it) => End::User(send_events(rt, gate, it.worker, it.events, it.post)),
        Task::Host(it) => End::Host(serve_host(rt, alloc, gate, piece, it)),
        Task::Reader(it) => End::Reader(pass_frames(rt, alloc, gate, it.take, it.post)),
        Task::Term(it) => End::Term(run_terminal(rt, alloc, gate, piece, it.take, it.post)),
    }
}

/// Waits for the start, and then runs the worker that begins with this task. Returns `None` if the start was called off.
pub fn begin<'q, R: Wait, G: Gate>(shared: &Shared<'_, R, G>, task: Task<'q>) -> Option<End<'q>>
    requires piece { 0 < shared.now.piece }
    requires task { IsNew task }
    ensures { IfSome result (Keeps (G.may_refuse shared.now.gate.now) (G.must_refuse shared.now.gate.now) task.entry) }
{
    let task = if_started(shared, task)?;
    Some(work(shared, task))
}

/// Waits for the start, and returns the value. Returns `None` if the start was called off. It lets go of a task by one call, as of any
/// type.
fn if_started<R: Wait, G, T: Drop>(shared: &Shared<'_, R, G>, value: T) -> Option<T>
    ensures { IfSome result (λ it. it ≡ value) }
{
    if *shared.start.wait(shared.rt) {
        Some(value)
    } else {
        None
    }
}
