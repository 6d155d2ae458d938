//! `Front`: what a front end calls.

ghost use Rattle.std.specs.Prelude.{◌≡◌, ◌∷◌, ◌↔◌, IsTrue, OnErr, OnOk, true, option_map, ◌-◌, Ok, Some};
ghost use Rattle.sam_line.specs.Clock as clocks;
ghost use Rattle.sam_line.specs.Line.{is_due};
ghost use Rattle.sam_overlay.specs.Overlays.{is_request};
ghost use Rattle.sam_client.specs.Batches.{ReplacesEach};
ghost use Rattle.sam_client.specs.Clients.Act.{Replace};
ghost use Rattle.sam_front.specs.Fronts.{Asks, BeginsTask, FrontGoesOn, Hears, Idles, Knows, Says, SaysTask, SaysWrite, Tells, Types, Waits, WritesTask, can_be_written, command_len, due_write, ended_run, ends, is_answer, is_lost, lapsed, lapsing, left_run, new_front, request_of, rested, say_fault, sooner, stepping, task_message, telling, told_run, without_left, without_ran};
ghost use Rattle.sam_front.specs.Loader.{later, rest_time, without};
ghost use Rattle.sam_term.specs.Term.{is_any_locked};

use crate::fault::{BeginFault, WriteFault};
use crate::loader::{Loader, Seen};
use crate::runs::{Ran, RunState, Runs};
use crate::tasks::{Task, Tasks};
use crate::told::{Order, Refused, Told};
use sam_client::{Client, Event, GoOnFault, Replaced, Replacement};
use sam_endpoint::TermStep;
use sam_line::State;
use sam_link::Id;
use sam_note::{Head, MOST_BYTES, NoteKind, read_note, write_note};
use sam_overlay::{AskFault, OverlayStep, ReplaceFault, RequestNumbers};
use sam_term::{Refusal, Terminal, UserEvent};
use std::alloc::{AllocError, Global};

/// A client, and what every front end would add to it: the numbers of its requests, what the host's program has still to answer, and the
/// loading of texts. It has no input, output or clock of its own, as the client has none. Times are in milliseconds.
///
/// ```rust
/// let mut front = Front::new(alloc, id, false, now);
/// let task = front.begin(Order::Open, 0, b"/tmp/a", now)?; // a file is to be opened
/// front.client.receive(attempt, piece, now)?;              // a connection brought bytes
/// loop {
///     match front.go_on(now)? {
///         Told::Answered(number) => meet(number, front.client.note()), // it is, with its tag
///         Told::Stepped(step, request) => show(step),
///         Told::Refused(refused) => tell(refused.why),
///         Told::Note => hear(front.client.note()),
///         Told::Unanswered(number) => forget(number),
///         Told::Ran(ran) => print(ran.place, ran.count),
///         Told::Lapsed(request) => tell_lapsed(request),
///         Told::Busy => {}
///         Told::Idle => break,
///     }
/// }
/// ```
#[derive(Drop)]
pub struct Front {
    /// The client, for the calls to which a front adds nothing: those of the line, notes, what is taken back, and readers. It is asked and
    /// edited, and goes on, by the front's calls alone: else numbers and tasks would miss it.
    pub client: Client,
    /// The numbers of its requests.
    numbers: RequestNumbers,
    /// The number of its newest request.
    asked: u64,
    /// What the host's program has to answer.
    tasks: Tasks,
    /// The command lines that are not answered.
    pub(crate) runs: Runs,
    /// What is loaded of texts.
    pub(crate) loader: Loader,
    /// The number of the request that was told last.
    told: u64,
    /// When a slice may be loaded, where one waits for its time.
    pub(crate) loads_at: Option<u64>,
    /// Whether the program waits for an answer by itself.
    expects: bool,
    /// Whether the user typed since this went on.
    has_typed: bool,
    /// Whether a message said that the session is over.
    is_over: bool,
}

/// Returns whether such a message is the answer of a task that has its request's number.
fn is_answer(kind: NoteKind) -> bool
    ensures { result ≡ is_answer kind }
{
    match kind {
        NoteKind::Opened | NoteKind::Refused | NoteKind::Names => true,
        NoteKind::Anew | NoteKind::Saved | NoteKind::NotSaved => true,
        _ => false,
    }
}

/// Returns whether such a message says that the session is over.
fn ends(kind: NoteKind) -> bool
    ensures { result ≡ ends kind }
{
    match kind {
        NoteKind::TakenOver | NoteKind::Ended => true,
        _ => false,
    }
}

/// Returns whether a file is locked.
fn is_any_locked(term: &Terminal) -> bool
    ensures { result ≡ is_any_locked term.now.files }
{
    for file in term.files() {
        if let Some(known) = file {
            if let Some(window) = &known.window {
                if window.locks > 0 {
                    return true;
                }
            }
        }
    }
    false
}

/// Returns the sooner of what is due and a load.
fn sooner(line: Option<u64>, load: Option<u64>) -> Option<u64>
    ensures { result ≡ sooner line load }
{
    match (line, load) {
        (_, None) => line,
        (None, Some(_)) => load,
        (Some(line), Some(load)) => Some(line.min(load)),
    }
}

/// Returns the fault of going on where the message of a write did not go into the line. That it can't be written is never why.
fn say_fault(why: BeginFault) -> GoOnFault
    ensures { result ≡ say_fault why }
{
    match why {
        BeginFault::CountFull => GoOnFault::CountFull,
        BeginFault::TooMany | BeginFault::BadField | BeginFault::BadLength =>
            GoOnFault::OutOfMemory,
        BeginFault::BadPath | BeginFault::OutOfMemory => GoOnFault::OutOfMemory,
    }
}

impl Front {
    /// Makes a client of the session of this name, as `Client::new` does, that was asked for nothing. It takes no memory.
    pub fn new(alloc: Global, id: Id, take_over: bool, now: u64) -> Front
        ensures { result ≡ new_front id take_over now }
    {
        Front {
            client: Client::new(alloc, id, take_over, now),
            numbers: RequestNumbers::new(),
            asked: 0,
            tasks: Tasks::new(alloc),
            runs: Runs::new(alloc),
            loader: Loader::new(alloc),
            told: 0,
            loads_at: None,
            expects: false,
            has_typed: false,
            is_over: false,
        }
    }

    // ---- What the user does

    /// Puts `runes` in the place of what is shown of a file from place `p` to place `q`, as `Client::replace` does, with its errors.
    pub fn replace(&mut self, tag: u16, p: u32, q: u32, runes: &[char]) -> Result<(), ReplaceFault>
        ensures { Types self.old (Replace tag p q runes.now result) self.new }
    {
        self.has_typed = true;
        self.client.replace(tag, p, q, runes)
    }

    /// Makes replacements of what is shown of a file, as `Client::replace_each` does.
    pub fn replace_each(
        &mut self,
        tag: u16,
        replacements: &[Replacement],
        runes: &[char],
    ) -> Replaced
        ensures client { ReplacesEach self.old.client tag replacements.now runes.now result self.new.client }
        ensures after { self.new ≡ record self.old { client = self.new.client; has_typed = true } }
    {
        self.has_typed = true;
        self.client.replace_each(tag, replacements, runes)
    }

    /// Takes a request of the user in behind the others, as `Client::ask` does, and returns its number, counted from 1 over all that were
    /// taken, those of loads by itself among them. A write that shares one that waits has the number of that. Errors are those of
    /// `Client::ask`; `CountFull` comes, too, and first, if 2^64-1 were taken. After each all is as before.
    pub fn ask(&mut self, event: UserEvent) -> Result<u64, AskFault>
        requires { IsTrue (is_request event) }
        ensures { Asks self.old event result self.new }
    {
        if self.numbers.is_full() {
            return Err(AskFault::CountFull);
        }
        match self.client.ask(event) {
            Ok(asked) => {
                let waiting = self.client.requests();
                let number = self.numbers.number(asked, waiting);
                self.asked = self.asked.max(number);
                Ok(number)
            }
            Err(why) => Err(why),
        }
    }

    /// Has the host's program do something with the file at a path, or with the file of a tag, and returns the number of the task: what is
    /// not of the order is to be 0 or empty. Errors, in this order, after which no task is begun: `TooMany` if `MOST_TASKS` are open;
    /// `CountFull` if 2^32-1 were begun; `OutOfMemory`; `BadField` if the order has no such field; `BadLength` if the message would have
    /// more than 4,096 bytes; `BadPath` if a byte of the path is 0; `CountFull`, `OutOfMemory` of the line.
    pub fn begin(
        &mut self,
        order: Order,
        tag: u16,
        path: &[u8],
        now: u64,
    ) -> Result<u32, BeginFault>
        ensures { BeginsTask self.old order tag path.now now result self.new }
    {
        let number = match self.tasks.begin() {
            Ok(number) => number,
            Err(why) => return Err(why),
        };
        match self.say(order.kind(), number, tag, path, now) {
            Ok(()) => Ok(number),
            Err(why) => {
                self.tasks.take_back();
                Err(why)
            }
        }
    }

    /// Has a file be written as it is shown now, and returns the number of the task. A write that shares one that waits is that task,
    /// if it is one. Errors, in this order, after which no task is begun: those of a task (`TooMany`, `CountFull`, `OutOfMemory`), and
    /// those of `Front::ask`.
    pub fn write(&mut self, tag: u16) -> Result<u32, WriteFault>
        ensures { WritesTask self.old tag result self.new }
    {
        if let Err(why) = self.tasks.begin() {
            return Err(WriteFault::Begin(why));
        }
        match self.ask(UserEvent::Write(tag)) {
            Ok(request) => Ok(self.tasks.share(request, tag)),
            Err(why) => {
                self.tasks.take_back();
                Err(WriteFault::Ask(why))
            }
        }
    }

    /// Notes what a window shows of a file: that is loaded first, and the rest of the file while nobody types. The only error is out of
    /// memory, after which all is as before.
    pub fn see(&mut self, seen: Seen) -> Result<(), AllocError>
        ensures ok { OnOk result (self.new ≡ record self.old {
          loader = record self.old.loader { seen = seen ∷ without seen.tag self.old.loader.seen };
        }) }
        ensures err { OnErr result (self.new ≡ self.old) }
    {
        self.loader.see(seen)
    }

    /// Notes that no window shows a file: nothing of it is asked for from now on.
    pub fn forget(&mut self, tag: u16)
        ensures { self.new ≡ record self.old { loader = record self.old.loader { seen = without tag self.old.loader.seen } } }
    {
        self.loader.forget(tag);
    }

    /// Notes that the user pressed a key which edits nothing: for a while only what windows show is loaded.
    pub fn rest(&mut self, now: u64)
        ensures { self.new ≡ record self.old { loader = record self.old.loader { rests_until = later now rest_time } } }
    {
        self.loader.rest(now);
    }

    /// Notes whether the program waits for an answer of the host's program that is none of a task.
    pub fn expect(&mut self, expects: bool, now: u64)
        ensures { Knows (record self.old { expects = expects }) now self.new }
    {
        self.expects = expects;
        self.know(now);
    }

    /// Returns in how many milliseconds there is something to do, if no other call comes before: the line's, or a load.
    pub fn due_in(&self, now: u64) -> Option<u64>
        ensures { result ≡ sooner (clocks.due_in self.now.client.line.clock (is_due self.now.client.line) now)
            (option_map (λ t. t - now) self.now.loads_at) }
    {
        let load = match self.loads_at {
            Some(time) => Some(time.saturating_sub(now)),
            None => None,
        };
        sooner(self.client.due_in(now), load)
    }

    // ---- Messages

    /// Puts a message for the host's program. Errors, in this order: `BadField`, `BadLength`, `BadPath`, after which all is as before;
    /// `CountFull`, `OutOfMemory`.
    fn say(
        &mut self,
        kind: NoteKind,
        number: u32,
        tag: u16,
        path: &[u8],
        now: u64,
    ) -> Result<(), BeginFault>
        ensures { Says self.old (task_message kind number tag path.now) now result self.new }
    {
        let mut bytes = [0; MOST_BYTES];
        let head = Head {
            kind,
            request: number,
            tag,
            code: 0,
            number: 0,
        };
        match write_note(&head, path, &[], &[], &mut bytes) {
            Ok(len) => match self.client.put_note(&bytes[..len], now) {
                Ok(()) => Ok(()),
                Err(why) => Err(BeginFault::of_note(why)),
            },
            Err(why) => Err(BeginFault::of_message(why)),
        }
    }

    /// Puts the message of a task that writes.
    fn say_task(&mut self, task: Task, now: u64) -> Result<(), GoOnFault>
        ensures { SaysTask self.old (Some task) now result self.new }
    {
        match self.say(NoteKind::Write, task.number, task.tag, &[], now) {
            Ok(()) => {
                self.tasks.note_said(task.number);
                Ok(())
            }
            Err(why) => Err(say_fault(why)),
        }
    }

    /// Returns whether the terminal takes a write of a file: else it refuses it, and a message in front of it would find another one.
    pub(crate) fn can_be_written(&self, tag: u16) -> bool
        ensures { result ≡ can_be_written self.now tag }
    {
        let is_open = self.client.overlay().shown_len(tag).is_some();
        tag > 0 && is_open && !self.client.overlay().end().term().exited()
    }

    /// Returns the write that acts next, if the terminal takes it and its message is not put.
    fn due_write(&self) -> Option<Task>
        ensures { result ≡ due_write self.now }
    {
        match self.tasks.due_write(self.told) {
            Some(task) => if self.can_be_written(task.tag) {
                Some(task)
            } else {
                None
            },
            None => None,
        }
    }

    /// Puts the message of the write that acts next, if it has one that is not put: so it stands in front of its write, and behind all that
    /// acted before.
    fn say_write(&mut self, now: u64) -> Result<(), GoOnFault>
        ensures { SaysWrite self.old now result self.new }
    {
        match self.due_write() {
            Some(task) => self.say_task(task, now),
            None => Ok(()),
        }
    }

    // ---- What the client told

    /// Returns the number of the request that a step tells of, which is then the last; 0 if that one was told before.
    fn tell(&mut self, step: TermStep) -> u64
        ensures number { result ≡ request_of self.old step }
        ensures after { self.new ≡ telling self.old step }
    {
        let number = self.numbers.tell(step, self.client.requests());
        if number <= self.told {
            return 0;
        }
        self.told = number;
        number
    }

    /// Notes a step, and returns the number of its request; 0 if it has none.
    fn tell_step(&mut self, step: TermStep, now: u64) -> u64
        ensures number { result ≡ request_of self.old step }
        ensures after { self.new ≡ stepping self.old step now }
    {
        let request = self.tell(step);
        self.loader.note_acted(request);
        self.loader.note_step(now);
        let is_locked = self.client.overlay().end().term().command_locked();
        let len = self.command_len();
        self.runs.note_step(request, len, is_locked);
        request
    }

    /// Returns how many runes and gaps the command file has; 0 if it is not open.
    pub(crate) fn command_len(&self) -> u32
        ensures { result ≡ command_len self.now }
    {
        self.client.overlay().shown_len(0).unwrap_or(0)
    }

    /// Tells a refusal, but of a load by itself.
    fn tell_refusal(&mut self, event: u64, why: Refusal, now: u64) -> Told
        ensures { Tells self.old (Ok (Event.Refused event why)) now (Ok result) self.new }
    {
        let request = self.tell(TermStep::Refused { number: event, why });
        if self.loader.note_refused(request, now) {
            return Told::Busy;
        }
        let task = self.tasks.refuse(request);
        self.runs.close(request);
        Told::Refused(Refused {
            event,
            why,
            request,
            task,
        })
    }

    /// Reads the note that came.
    fn hear(&mut self) -> Told
        ensures { Hears self.old result self.new }
    {
        let Ok(note) = read_note(self.client.note()) else {
            return Told::Note;
        };
        let head = note.head;
        self.is_over = self.is_over || ends(head.kind);
        if is_answer(head.kind) && self.tasks.answer(head.request) {
            return Told::Answered(head.request);
        }
        Told::Note
    }

    /// Returns whether the session is over.
    fn is_lost(&self) -> bool
        ensures { result ≡ is_lost self.now }
    {
        let is_refused = match self.client.line().state() {
            State::Lost(_) => true,
            _ => false,
        };
        self.is_over || is_refused
    }

    /// Returns whether the host has something to answer.
    fn waits(&self) -> bool
        ensures { IsTrue result ↔ Waits self.now }
    {
        let term = self.client.overlay().end().term();
        !self.tasks.is_empty() || term.command_locked() || term.held() > 0 || is_any_locked(term)
    }

    /// Tells the line whether an answer is due.
    fn know(&mut self, now: u64)
        ensures { Knows self.old now self.new }
    {
        let due = self.expects || self.waits();
        self.client.expect(due, now);
    }

    // ---- Going on

    /// Returns what the oldest line printed, if it has run and all that is told of it is loaded.
    fn ended_run(&self) -> Option<Ran>
        ensures { result ≡ ended_run self.now }
    {
        match self.runs.first_ran() {
            Some(ran) => match self.missing_of(ran) {
                Some(_) => None,
                None => Some(ran),
            },
            None => None,
        }
    }

    /// Closes the oldest line of a session that is over, if its newline has acted, and returns its number.
    fn lapse_run(&mut self) -> Option<u64>
        ensures number { result ≡ told_run self.old }
        ensures after { self.new ≡ without_ran self.old }
    {
        match self.runs.first() {
            Some(run) if run.state != RunState::Waits => {
                self.runs.drop_first();
                Some(run.request)
            }
            _ => None,
        }
    }

    /// Closes the oldest task of a session that is over, then the oldest line, then the oldest request that was not told.
    fn lapse(&mut self) -> Told
        ensures told { result ≡ lapsed self.old }
        ensures after { self.new ≡ lapsing self.old }
    {
        if let Some(number) = self.tasks.drop_first() {
            return Told::Unanswered(number);
        }
        if let Some(number) = self.lapse_run() {
            return Told::Lapsed(number);
        }
        if self.told >= self.asked {
            return Told::Idle;
        }
        self.told += 1;
        self.runs.close(self.told);
        Told::Lapsed(self.told)
    }

    /// Closes the oldest line, if its newline has acted and the user has left, and returns its number: no more of what it printed comes.
    fn lapse_left(&mut self) -> Option<u64>
        ensures number { result ≡ left_run self.old }
        ensures after { self.new ≡ without_left self.old }
    {
        if self.client.overlay().end().term().exited() {
            self.lapse_run()
        } else {
            None
        }
    }

    /// Does what is to be done where the client has nothing to do: tells of a line that has run, closes what a session that is over leaves
    /// open, or loads.
    fn go_on_idle(&mut self, now: u64) -> Result<Told, GoOnFault>
        ensures { Idles (ended_run self.old) self.old now result self.new }
    {
        if let Some(ran) = self.ended_run() {
            self.runs.drop_first();
            return Ok(Told::Ran(ran));
        }
        if self.is_lost() {
            return Ok(self.lapse());
        }
        if let Some(number) = self.lapse_left() {
            return Ok(Told::Lapsed(number));
        }
        match self.load(now) {
            Ok(true) => Ok(Told::Busy),
            Ok(false) => {
                self.know(now);
                Ok(Told::Idle)
            }
            Err(why) => Err(why),
        }
    }

    /// Tells what the client told.
    fn tell_event(&mut self, event: Event, now: u64) -> Result<Told, GoOnFault>
        ensures { Tells self.old (Ok event) now result self.new }
    {
        match event {
            Event::Stepped(step) => {
                let request = self.tell_step(step.step, now);
                Ok(Told::Stepped(step, request))
            }
            Event::Refused(number, why) => Ok(self.tell_refusal(number, why, now)),
            Event::Note => Ok(self.hear()),
            Event::Busy => Ok(Told::Busy),
            Event::Idle => self.go_on_idle(now),
        }
    }

    /// Notes that only what windows show is loaded for a while, if the user typed.
    fn rest_from_typing(&mut self, now: u64)
        ensures { self.new ≡ rested self.old now }
    {
        if self.has_typed {
            self.loader.rest(now);
            self.has_typed = false;
        }
    }

    /// Goes on until there is something to tell, as `Client::go_on` does, with its errors. Where the client has nothing to do, what is to
    /// be loaded is asked for, and the line learns whether an answer is due.
    pub fn go_on(&mut self, now: u64) -> Result<Told, GoOnFault>
        ensures { FrontGoesOn self.old now result self.new }
    {
        self.loads_at = None;
        self.rest_from_typing(now);
        if let Err(why) = self.say_write(now) {
            return Err(why);
        }
        match self.client.go_on(now) {
            Ok(event) => self.tell_event(event, now),
            Err(why) => Err(why),
        }
    }
}
