//! What the five workers begin with, as a script says.
ghost use Rattle.std.specs.Prelude.{◌≡◌, IfOk, OnErr, OnOk};
ghost use Rattle.sam_ends.specs.Tasks.{AreReady};
ghost use Rattle.sam_script.specs.Script.{keys_of, mouse_of, without_lines};

use crate::users::{Users, copied_users, room_for, users_of};
use sam_ends::{Lines, Starts, Tasks, UserTask};
use sam_script::Script;
use sam_spawn::idle_tasks;
use sam_term::event::UserEvent;
use std::alloc::{AllocError, Global};

/// Makes the tasks of a session: the ends of the lines, and copies of what the script says that each worker does. `starts` came with
/// `lines`, and is spent. Its only error is out of memory.
pub(crate) fn ready_tasks<'q>(
    alloc: Global,
    lines: &'q Lines,
    starts: Starts,
    script: &Script,
) -> Result<Tasks<'q>, AllocError>
    requires together { starts ≡ lines.now }
    ensures lines { IfOk result (λ s. s.lines.now ≡ lines.now) }
    ensures ready { IfOk result (AreReady lines.now) }
    ensures keys { IfOk result (λ s. s.keyboard.events.items ≡ keys_of script.now.lines) }
    ensures clicks { IfOk result (λ s. s.mouse.events.items ≡ mouse_of script.now.lines) }
    ensures files { IfOk result (λ s. s.host.files.items ≡ script.now.files) }
{
    let users = copied_users(alloc, script)?;
    let tasks = idle_tasks(alloc, lines, starts, script.files())?;
    Ok(with_users(tasks, users))
}

/// Makes what [`ready_tasks`] makes, but moves the events out of the script, which is left without lines. Its files are copied, and stay.
/// At an error the script is unchanged.
pub(crate) fn moved_tasks<'q>(
    alloc: Global,
    lines: &'q Lines,
    starts: Starts,
    script: &mut Script,
) -> Result<Tasks<'q>, AllocError>
    requires together { starts ≡ lines.now }
    ensures lines { IfOk result (λ s. s.lines.now ≡ lines.now) }
    ensures ready { IfOk result (AreReady lines.now) }
    ensures keys { IfOk result (λ s. s.keyboard.events.items ≡ keys_of script.old.lines) }
    ensures clicks { IfOk result (λ s. s.mouse.events.items ≡ mouse_of script.old.lines) }
    ensures files { IfOk result (λ s. s.host.files.items ≡ script.old.files) }
    ensures moved { OnOk result (script.new ≡ without_lines script.old) }
    ensures kept { OnErr result (script.new ≡ script.old) }
{
    let room = room_for(alloc, script.lines())?;
    let tasks = idle_tasks(alloc, lines, starts, script.files())?;
    Ok(with_users(tasks, users_of(script.take_lines(), room)))
}

/// Gives keyboard and mouse what the user does.
fn with_users<'q>(tasks: Tasks<'q>, users: Users) -> Tasks<'q>
    requires idle { AreReady tasks.lines.now tasks }
    ensures lines { result.lines.now ≡ tasks.entry.lines.now }
    ensures ready { AreReady tasks.entry.lines.now result }
    ensures keys { result.keyboard.events.items ≡ users.keys.items }
    ensures clicks { result.mouse.events.items ≡ users.clicks.items }
    ensures files { result.host.files.items ≡ tasks.entry.host.files.items }
{
    let Tasks {
        lines,
        keyboard,
        mouse,
        host,
        reader,
        term,
    } = tasks;
    Tasks {
        lines,
        keyboard: with_events(keyboard, users.keys),
        mouse: with_events(mouse, users.clicks),
        host,
        reader,
        term,
    }
}

/// Gives a worker these events, in place of those that it had.
fn with_events<'q>(task: UserTask<'q>, events: Vec<UserEvent>) -> UserTask<'q>
    ensures worker { result.worker ≡ task.entry.worker }
    ensures post { result.post ≡ task.entry.post }
    ensures events { result.events.items ≡ events.items }
{
    let UserTask {
        worker,
        post,
        events: _,
        held,
    } = task;
    UserTask {
        worker,
        post,
        events,
        held,
    }
}
