//! What the host's program was asked for, and has not answered.

ghost use Rattle.std.specs.Prelude.{◌≡◌, ◌==◌, ◌<◌, IfSome, drop, is_some, length, map, option_map, slice_get};
ghost use Rattle.std.specs.List.{find};
ghost use Rattle.sam_front.specs.Tasks.{Begins, Shares, as_write, closed, is_due, newest, no_tasks, number_of, number_of_write, place_of, said, taken_back};

use crate::fault::BeginFault;
use std::alloc::Global;
use std::marker::Model;

/// So many tasks are open at most.
pub const MOST_TASKS: usize = 1_000;

/// What the host's program was asked for.
#[derive(Clone, Copy, Debug, PartialEq, Eq, Drop)]
pub struct Task {
    /// Its number, counted from 1, which its message and the answer have.
    pub number: u32,
    /// The number of the request that writes; 0 if it is no write.
    pub write: u64,
    /// The file that is written.
    pub tag: u16,
    /// Whether its message was put.
    pub is_said: bool,
}

/// The tasks that are open, the oldest first. Contracts see how many were begun, and a list.
#[derive(Drop)]
pub struct Tasks {
    /// How many were begun.
    begun: u32,
    waiting: Vec<Task>,
}

impl Model for Tasks {
    ghost use Rattle.sam_front.specs.Tasks.{AreTasks, PlainTasks};

    ghost Value = { PlainTasks };

    ghost view = { λ t. record { begun = t.begun; waiting = t.waiting.items } };

    ghost invariant = { λ t. AreTasks t.begun t.waiting.items };
}

/// Returns the number of the task of the write by this request; 0 if none is open, or if it is request 0.
fn number_of_write(tasks: &[Task], request: u64) -> u32
    ensures { result ≡ number_of_write request tasks.now }
{
    if request == 0 {
        return 0;
    }
    for task in tasks {
        if task.write == request {
            return task.number;
        }
    }
    0
}

/// Returns the write that acts next, where requests up to `told` are told, if its message is not put.
fn due_write(tasks: &[Task], told: u64) -> Option<Task>
    ensures { result ≡ find (is_due told) tasks.now }
{
    for task in tasks {
        if !task.is_said && task.write.saturating_sub(1) == told {
            return Some(*task);
        }
    }
    None
}

/// Returns the place, the oldest at 0, of the task of this number; `None` if it is not open.
fn place_of(tasks: &[Task], number: u32) -> Option<usize>
    ensures place { result ≡ place_of number tasks.now }
    ensures within { IfSome result (λ place. place < length tasks.now) }
{
    for place in 0..tasks.len() {
        if tasks[place].number == number {
            return Some(place);
        }
    }
    None
}

/// Returns the task, whose message is put if it has this number.
fn said(task: Task, number: u32) -> Task
    ensures { result ≡ said number task }
{
    if task.number == number {
        Task {
            is_said: true,
            ..task
        }
    } else {
        task
    }
}

/// Notes that the message of the task of this number is put.
#[tactic(auto, using(crate::proofs::TaskLaws::said_more))]
fn note_said(tasks: &mut Vec<Task>, number: u32)
    ensures { tasks.new.items ≡ map (said number) tasks.old.items }
{
    for place in 0..tasks.len() {
        tasks[place] = said(tasks[place], number);
    }
}

/// Makes the newest task the write of a file by this request, whose message is not put yet, and returns its number; 0 if there is none.
#[tactic(auto, using(crate::proofs::TaskLaws::newest_at, crate::proofs::TaskLaws::written_at))]
fn make_write(tasks: &mut Vec<Task>, request: u64, tag: u16) -> u32
    ensures number { result ≡ newest tasks.old.items }
    ensures after { tasks.new.items ≡ as_write request tag tasks.old.items }
{
    if tasks.is_empty() {
        return 0;
    }
    let place = tasks.len() - 1;
    let number = tasks[place].number;
    tasks[place] = Task {
        number,
        write: request,
        tag,
        is_said: false,
    };
    number
}

impl Tasks {
    /// No task. It takes no memory.
    pub fn new(alloc: Global) -> Tasks
        ensures { result ≡ no_tasks }
    {
        Tasks {
            begun: 0,
            waiting: Vec::new(alloc),
        }
    }

    /// Returns whether none is open.
    pub fn is_empty(&self) -> bool
        ensures { result ≡ (length self.now.waiting == 0) }
    {
        self.waiting.is_empty()
    }

    /// Returns how many are open.
    pub fn len(&self) -> usize
        ensures { result ≡ length self.now.waiting }
    {
        self.waiting.len()
    }

    /// Opens a task behind the others, whose message is put by its caller, and returns its number. Errors, in this order, after which all
    /// is as before: `TooMany` if `MOST_TASKS` are open; `CountFull` if 2^32-1 were begun; `OutOfMemory`.
    #[tactic(auto, using(crate::proofs::TaskLaws::more_tasks))]
    pub fn begin(&mut self) -> Result<u32, BeginFault>
        ensures { Begins self.old result self.new }
    {
        if self.waiting.len() >= MOST_TASKS {
            return Err(BeginFault::TooMany);
        }
        if self.begun == u32::MAX {
            return Err(BeginFault::CountFull);
        }
        let number = self.begun + 1;
        let task = Task {
            number,
            write: 0,
            tag: 0,
            is_said: true,
        };
        match self.waiting.push(task) {
            Ok(()) => {
                self.begun = number;
                Ok(number)
            }
            Err(_) => Err(BeginFault::OutOfMemory),
        }
    }

    /// Takes back the newest task, if one is open, as if it had not been begun.
    pub fn take_back(&mut self)
        ensures { self.new ≡ taken_back self.old }
    {
        if let Some(task) = self.waiting.pop() {
            self.begun = task.number - 1;
        }
    }

    /// Makes the newest task that of the write by this request, whose message is not put yet, and returns its number; 0 if none is open.
    /// Where a task of that request is open, the newest one is taken back, and that one's number returned.
    pub fn share(&mut self, request: u64, tag: u16) -> u32
        ensures { Shares self.old request tag result self.new }
    {
        let shared = number_of_write(self.waiting.as_slice(), request);
        if shared != 0 {
            self.take_back();
            return shared;
        }
        make_write(&mut self.waiting, request, tag)
    }

    /// Closes the task of this number, and returns whether there was one.
    #[tactic(auto, using(crate::proofs::TaskLaws::fewer_tasks))]
    pub fn answer(&mut self, number: u32) -> bool
        ensures found { result ≡ is_some (place_of number self.old.waiting) }
        ensures after { self.new ≡ closed number self.old }
    {
        match place_of(self.waiting.as_slice(), number) {
            Some(place) => {
                let _task = self.waiting.remove(place);
                true
            }
            None => false,
        }
    }

    /// Closes the task of a write that was refused, and returns its number; 0 if there is none.
    pub fn refuse(&mut self, request: u64) -> u32
        ensures number { result ≡ number_of_write request self.old.waiting }
        ensures after { self.new ≡ closed (number_of_write request self.old.waiting) self.old }
    {
        let number = number_of_write(self.waiting.as_slice(), request);
        let _was_open = self.answer(number);
        number
    }

    /// Returns the write that acts next, where requests up to `told` are told, if its message is not put.
    pub fn due_write(&self, told: u64) -> Option<Task>
        ensures { result ≡ find (is_due told) self.now.waiting }
    {
        due_write(self.waiting.as_slice(), told)
    }

    /// Notes that the message of the task of this number is put.
    pub fn note_said(&mut self, number: u32)
        ensures { self.new ≡ record self.old { waiting = map (said number) self.old.waiting } }
    {
        note_said(&mut self.waiting, number);
    }

    /// Closes the oldest task, and returns its number; `None` if none is open.
    #[tactic(auto, using(crate::proofs::TaskLaws::first_gone))]
    pub fn drop_first(&mut self) -> Option<u32>
        ensures number { result ≡ option_map number_of (slice_get self.old.waiting 0) }
        ensures after { self.new ≡ record self.old { waiting = drop 1 self.old.waiting } }
    {
        if self.waiting.is_empty() {
            return None;
        }
        Some(self.waiting.remove(0).number)
    }
}
