//! Starting the five threads, and joining them.
ghost use Rattle.std.specs.Prelude.{◌≡◌, ◌<◌, IfSome, Some};
ghost use Rattle.sam_spawn.specs.Promised.{AreOfKinds, IsNew, IsOfHost, IsOfReader, IsOfTerm, IsOfUser, KeepPromises, Keeps};
ghost use Rattle.sam_spawn.specs.Promised.{KeepsHost, KeepsReader, KeepsTerm, KeepsUser, Promises, TasksPromised};
ghost use Rattle.sam_ends.specs.Tasks.{AreReady};

use crate::work::{End, Shared, Task, begin};
use sam_ends::{Ends, Gate, HostEnd, ReaderEnd, Tasks, TermEnd, UserEnd};
use std::snapshot::Snapshot;
use std::sync::Wait;
use std::thread::{Promise, PromisedHandle, Scope, Threads};

/// What a worker's thread promises, and its join hands on: an end of the worker that begins with this task. It is kept beside the
/// thread's handle, for clauses alone.
pub struct TaskPromise<'a, 'q, G> {
    /// The gate that the worker asks.
    pub gate: &'a G,
    /// What the worker was given.
    pub task: Snapshot<Task<'q>>,
}

impl<'a, 'q, G> Drop for TaskPromise<'a, 'q, G> {
    fn drop(self) {
        let TaskPromise { gate: _, task: _ } = self;
    }
}

impl<'a, 'q, G: Gate> Promise<Option<End<'q>>> for TaskPromise<'a, 'q, G> {
    ghost use Rattle.std.specs.Prelude.{IfSome};
    ghost use Rattle.sam_spawn.specs.Promised.{KeepsPromise};

    ghost kept_by = { λ p r. IfSome r (KeepsPromise G.may_refuse G.must_refuse p) };
}

/// The handle of a worker's thread, with its promise.
type Handle<'s, 'q, G> = PromisedHandle<Option<End<'q>>, TaskPromise<'s, 'q, G>>;

/// Starts the thread of the worker that begins with this task. Returns `None` if it could not be started.
fn spawn<'s, 'e: 's, 'q: 's, R: Wait + Sync, G: Gate>(
    scope: &'s Scope<'s, &'e ()>,
    shared: &'s Shared<'s, R, G>,
    task: Task<'q>,
) -> Option<Handle<'s, 'q, G>>
    requires piece { 0 < shared.now.piece }
    requires task { IsNew task }
    ensures { IfSome result (λ h. Promises shared.now.gate.now task.entry h.promise) }
{
    let promise = TaskPromise {
        gate: shared.gate,
        task: Snapshot::of(&task),
    };
    let child = scope.spawn_with(
        promise,
        move || -> Option<End<'_>>
            requires { (0 < shared.now.piece) × IsNew task }
            ensures { IfSome result (Keeps (G.may_refuse shared.entry.now.gate.now) (G.must_refuse shared.entry.now.gate.now) task.entry) }
        { begin(shared, task) },
    );
    child.ok()
}

/// The handles of the five threads, all started. `spawn_all` makes them, and `join_all` takes them.
pub struct Handles<'s, 'q, G: Gate> {
    pub keyboard: Handle<'s, 'q, G>,
    pub mouse: Handle<'s, 'q, G>,
    pub host: Handle<'s, 'q, G>,
    pub reader: Handle<'s, 'q, G>,
    pub term: Handle<'s, 'q, G>,
}

/// Starts the five threads, whose workers wait for `start`. Returns `None` if one of them could not be started, and then the caller has
/// to call the start off.
pub fn spawn_all<'s, 'e: 's, 'q: 's, R: Wait + Sync, G: Gate>(
    scope: &'s Scope<'s, &'e ()>,
    shared: &'s Shared<'s, R, G>,
    tasks: Tasks<'q>,
) -> Option<Handles<'s, 'q, G>>
    requires piece { 0 < shared.now.piece }
    requires tasks { AreReady tasks.lines.now tasks }
    ensures { IfSome result (TasksPromised shared.now.gate.now tasks.entry) }
{
    let Tasks {
        lines: _,
        keyboard,
        mouse,
        host,
        reader,
        term,
    } = tasks;
    let users = both(
        spawn(scope, shared, Task::User(keyboard)),
        spawn(scope, shared, Task::User(mouse)),
    );
    let sides = both(
        spawn(scope, shared, Task::Host(host)),
        spawn(scope, shared, Task::Term(term)),
    );
    let reader = spawn(scope, shared, Task::Reader(reader));
    let ((keyboard, mouse), ((host, term), reader)) = both(users, both(sides, reader))?;
    Some(Handles {
        keyboard,
        mouse,
        host,
        reader,
        term,
    })
}

/// Joins the five threads, and returns their ends. Returns `None` if the start was called off, which nobody does who has handles.
pub fn join_all<'s, 'q, R: Threads, G: Gate>(
    rt: &R,
    handles: Handles<'s, 'q, G>,
) -> Option<Ends<'q>>
    requires { AreOfKinds handles }
    ensures { IfSome result (KeepPromises G.may_refuse G.must_refuse handles.entry) }
{
    let Handles {
        keyboard,
        mouse,
        host,
        reader,
        term,
    } = handles;
    let users = both(join_user(rt, keyboard), join_user(rt, mouse));
    let sides = both(join_host(rt, host), join_term(rt, term));
    let reader = join_reader(rt, reader);
    let ((keyboard, mouse), ((host, term), reader)) = both(users, both(sides, reader))?;
    Some(Ends {
        host,
        reader,
        term,
        keyboard,
        mouse,
    })
}

/// Joins the thread of the keyboard or of the mouse.
fn join_user<'s, 'q, R: Threads, G: Gate>(rt: &R, handle: Handle<'s, 'q, G>) -> Option<UserEnd<'q>>
    requires { IsOfUser handle.promise }
    ensures { IfSome result (KeepsUser G.may_refuse G.must_refuse handle.entry.promise) }
{
    let end = handle.join(rt)?;
    let End::User(it) = end else {
        unreachable!();
    };
    Some(it)
}

/// Joins the thread of the host.
fn join_host<'s, 'q, R: Threads, G: Gate>(rt: &R, handle: Handle<'s, 'q, G>) -> Option<HostEnd<'q>>
    requires { IsOfHost handle.promise }
    ensures { IfSome result (KeepsHost G.may_refuse G.must_refuse handle.entry.promise) }
{
    let end = handle.join(rt)?;
    let End::Host(it) = end else {
        unreachable!();
    };
    Some(it)
}

/// Joins the thread of the host reader.
fn join_reader<'s, 'q, R: Threads, G: Gate>(
    rt: &R,
    handle: Handle<'s, 'q, G>,
) -> Option<ReaderEnd<'q>>
    requires { IsOfReader handle.promise }
    ensures { IfSome result (KeepsReader G.may_refuse G.must_refuse handle.entry.promise) }
{
    let end = handle.join(rt)?;
    let End::Reader(it) = end else {
        unreachable!();
    };
    Some(it)
}

/// Joins the thread of the terminal.
fn join_term<'s, 'q, R: Threads, G: Gate>(rt: &R, handle: Handle<'s, 'q, G>) -> Option<TermEnd<'q>>
    requires { IsOfTerm handle.promise }
    ensures { IfSome result (KeepsTerm G.may_refuse G.must_refuse handle.entry.promise) }
{
    let end = handle.join(rt)?;
    let End::Term(it) = end else {
        unreachable!();
    };
    Some(it)
}

/// Pairs two options. With it a caller has one exit in place of five, and each of those would drop what the others hold.
fn both<A: Drop, B: Drop>(first: Option<A>, second: Option<B>) -> Option<(A, B)>
    ensures { IfSome result (λ p. (first ≡ Some p.0) × (second ≡ Some p.1)) }
{
    first.zip(second)
}
