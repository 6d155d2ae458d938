//! `OrderedOverlay`: an overlay whose requests stand in one order with the edits.

ghost use Rattle.std.specs.Prelude.{◌≡◌, ◌≢◌, ◌⊎◌, ◌↔◌, ◌<◌, ◌≤◌, ◌^◌, ◌-◌, ℕ, drop, length, slice_get, IsTrue, is_some, true, Some, None, Err, IfErr, IfOk, IfSome, OnErr, OnOk};
ghost use Rattle.sam_runes.specs.Checks.{first_of_checks};
ghost use Rattle.sam_pending.specs.Cells.{IsTakenBack};
ghost use Rattle.sam_endpoint.specs.TermStepping.{Steps};
ghost use Rattle.sam_overlay.specs.Calls.{Asks, Brings, CellsGo, DropsUpTo, Keeps, KeepsTexts, PutsUpTo, cells_at, shown_at};
ghost use Rattle.sam_overlay.specs.Ordered.{ActsNext, IsAsked, NoneFinds, closing_group, most_waiting_requests, new_ordered, ordered_checks, queue_after, queue_after_drop, shared_with};
ghost use Rattle.sam_overlay.specs.Outcomes.{Leads, Replaces};
ghost use Rattle.sam_overlay.specs.Overlays.{StopsOnly, end_step, is_request, told_at};
ghost use Rattle.sam_overlay.specs.Requests.{is_closing, put_limit};

use crate::fault::{AskFault, PutFault, ReplaceFault};
use crate::layers::Place;
use crate::overlay::Overlay;
use crate::request::{Request, RequestQueue};
use crate::shown_change::{Asked, OverlayStep, Put, Turn};
use crate::steps::is_received;
use sam_endpoint::{BringFault, EndpointFault, TermStop};
use sam_pending::{Dropped, PendingFault};
use sam_term::{Refusal, UserEvent};
use std::alloc::Global;

/// The most requests that wait.
pub const MOST_WAITING_REQUESTS: usize = 1_000;

/// An overlay whose requests stand in one order with the edits. A request is what isn't an edit of a text: a write, a close, a search, a
/// command line. It is taken in at once, also while a file is locked, and finds the text that was shown when it was asked for, with the
/// host's changes since: all edits made before it are put before it acts, and none made after it is.
///
/// Requests act in the order in which they were asked for, over all files. One waits for the edits before it of the file that it names; one
/// that takes the command lock waits for those of all files. Edits wait for no other file, unless a request that concerns theirs stands
/// before them.
///
/// ```rust
/// front.replace(1, 0, 0, &['a'])?;
/// front.ask(UserEvent::Write(1))?; // `Asked::New`: it will write the `a`, though the file is locked
/// front.replace(1, 1, 1, &['b'])?; // `ab` is shown, and the `b` is not written
/// // once the file is free:
/// front.put_next(1)?; // `Put::Edit`: the `a`; it acts by the next step
/// front.put_next(1)?; // `Put::NotFree`: the `b` stands behind the write
/// front.act_next()?; // `Turn::Request`: the write is held, and acts by the next step
/// ```
#[derive(Drop)]
pub struct OrderedOverlay {
    /// What gives the memory.
    alloc: Global,
    /// The edits that wait, and the terminal end.
    overlay: Overlay,
    /// The requests that wait.
    queue: RequestQueue,
}

impl OrderedOverlay {
    /// Makes one over a terminal that knows no file. It takes no memory.
    pub fn new(alloc: Global) -> OrderedOverlay
        ensures { result ≡ new_ordered }
    {
        OrderedOverlay {
            alloc,
            overlay: Overlay::new(alloc),
            queue: RequestQueue::new(alloc),
        }
    }

    /// Returns the overlay, to be read.
    pub fn overlay(&self) -> &Overlay
        ensures { result.now ≡ self.now.overlay }
    {
        &self.overlay
    }

    /// Returns how many requests wait.
    pub fn waiting(&self) -> usize
        ensures { result ≡ length self.now.queue }
    {
        self.queue.len()
    }

    /// Returns whether a request waits that closes a file: until it acts the file is open, and no edit of it is taken any more.
    pub fn is_closing(&self, tag: u16) -> bool
        ensures { result ≡ is_closing self.now.queue tag }
    {
        self.queue.closes(tag)
    }

    /// Puts `runes` in the place of what is shown of a file from place `p` to place `q`, behind all requests that wait. That is shown at
    /// once, as by `Overlay::replace`; none of these requests finds it.
    ///
    /// Errors, in this order, after which all is as before: `Exited` if a request waits that leaves; `NotOpen` if one waits that closes the
    /// file; those of `Overlay::replace`.
    #[tactic(auto, using(crate::proofs::OrderLaws::replace_facts))]
    pub fn replace(&mut self, tag: u16, p: u32, q: u32, runes: &[char]) -> Result<(), ReplaceFault>
        ensures tests { OnOk result (first_of_checks (ordered_checks self.old tag p q runes.now) ≡ None) }
        ensures refused { IfErr result (λ why. (first_of_checks (ordered_checks self.old tag p q runes.now) ≡ Some why)
            ⊎ ((why ≡ ReplaceFault.OutOfMemory) × (first_of_checks (ordered_checks self.old tag p q runes.now) ≡ None))) }
        ensures replaced { OnOk result (Replaces (cells_at self.old.overlay tag) p q runes.now (cells_at self.new.overlay tag)) }
        ensures finds { OnOk result (NoneFinds self.old.queue (cells_at self.old.overlay tag) (cells_at self.new.overlay tag)) }
        ensures others { OnOk result ((f : ℕ) → f ≢ tag → cells_at self.new.overlay f ≡ cells_at self.old.overlay f) }
        ensures end { (self.new.overlay.end ≡ self.old.overlay.end) × (self.new.overlay.putting ≡ self.old.overlay.putting) }
        ensures queue { self.new.queue ≡ self.old.queue }
        ensures err { OnErr result (self.new ≡ self.old) }
    {
        if self.queue.leaves() {
            return Err(ReplaceFault::Exited);
        }
        if self.queue.closes(tag) {
            return Err(ReplaceFault::NotOpen);
        }
        let group = self.queue.next_group();
        self.overlay.replace_at(tag, Place { group, p, q }, runes)
    }

    /// Takes a request in behind the others. It finds what is shown now. Paste, cut and text of files but the command file are no requests
    /// (see `is_request`). A place that it names is one of the text that it finds, and moves with it (see `step`).
    ///
    /// A write shares one that waits, and none is added, where it would find the same text: where of the requests that concern its file the
    /// youngest is a write, and no edit of the file was made behind that. Then the answer is that write's place among the requests that
    /// wait. A program that keeps what it has to answer of each, in their order, finds there whom else to answer once that write is done.
    ///
    /// Errors, in this order, after which all is as before: `Waiting` while an edit that was put has not acted: go on by steps; and, where
    /// no write is shared, `TooMany` if `MOST_WAITING_REQUESTS` wait; `CountFull` if 2^32-1 groups of edits were closed while edits or
    /// requests waited; `OutOfMemory`.
    #[tactic(auto, using(crate::proofs::OrderLaws::ask_facts))]
    pub fn ask(&mut self, event: UserEvent) -> Result<Asked, AskFault>
        requires { IsTrue (is_request event) }
        ensures asked { IfOk result (λ x. IsAsked self.old event x self.new) }
        ensures waiting { (result ≡ Err AskFault.Waiting) ↔ (is_some self.old.overlay.putting ≡ true) }
        ensures many { (result ≡ Err AskFault.TooMany) ↔ ((self.old.overlay.putting ≡ None) × (shared_with self.old event ≡ None)
            × (most_waiting_requests ≤ length self.old.queue)) }
        ensures full { (result ≡ Err AskFault.CountFull) ↔ ((self.old.overlay.putting ≡ None) × (shared_with self.old event ≡ None)
            × (length self.old.queue < most_waiting_requests) × (2 ^ 32 - 1 ≤ closing_group self.old)) }
        ensures err { OnErr result (self.new ≡ self.old) }
    {
        if self.overlay.is_putting() {
            return Err(AskFault::Waiting);
        }
        if let Some(place) = self.shared_with(&event) {
            return Ok(Asked::Shares(place));
        }
        if self.queue.len() >= MOST_WAITING_REQUESTS {
            return Err(AskFault::TooMany);
        }
        let group = self.overlay.newest().max(self.queue.next_group());
        if group == u32::MAX {
            return Err(AskFault::CountFull);
        }
        match self.queue.push(Request { event, group }) {
            Ok(()) => Ok(Asked::New),
            Err(_) => Err(AskFault::OutOfMemory),
        }
    }

    /// Returns the place, among the requests that wait, of the write that an event shares, the oldest at 0; `None` if it shares none.
    fn shared_with(&self, event: &UserEvent) -> Option<usize>
        ensures { result ≡ shared_with self.now event.now }
    {
        match event {
            UserEvent::Write(tag) => self.queue.shared_write(*tag, self.overlay.newest_at(*tag)),
            _ => None,
        }
    }

    /// Has the oldest request act, if all edits before it are put and no lock holds it out: it leaves the queue, and is the one event that
    /// the end holds. So the next `step` has it act, or refuses it, unless a frame is brought before, which moves none of its places; no
    /// edit is put meanwhile. Else it waits on, and the others with it.
    ///
    /// Errors, in this order, after which all is as before: `Stopped`; `CountFull` if 2^64-1 events were taken before; `OutOfMemory`.
    pub fn act_next(&mut self) -> Result<Turn, PutFault>
        ensures { ActsNext self.old result self.new }
    {
        if let Some(why) = self.overlay.end().stopped() {
            return Err(PutFault::Stopped(why));
        }
        let Some(request) = self.queue.first() else {
            return Ok(Turn::Nothing);
        };
        if !self.overlay.can_act(&request.event, request.group) {
            return Ok(Turn::NotYet);
        }
        let Ok(event) = request.event.copy(self.alloc) else {
            return Err(PutFault::OutOfMemory);
        };
        match self.overlay.bring_event(event) {
            Ok(()) => {
                self.queue.drop_first();
                Ok(Turn::Request)
            }
            Err(why) => Err(PutFault::of(why)),
        }
    }

    /// Puts the next edit of what waits over a file as an event, as `Overlay::put_next` does, but none that stands behind a request which
    /// concerns the file: then the answer is `NotFree`.
    ///
    /// Errors are those of that call, in its order.
    pub fn put_next(&mut self, tag: u16) -> Result<Put, PutFault>
        ensures puts { PutsUpTo (put_limit self.old.queue tag) self.old.overlay tag result self.new.overlay }
        ensures queue { self.new.queue ≡ self.old.queue }
    {
        let limit = self.queue.limit(tag);
        self.overlay.put_up_to(tag, limit)
    }

    /// Takes back runes for which the host left no room, as `Overlay::drop_next` does, but none that stand behind a request which concerns
    /// the file. They go from the text of the file that each request comes to, and the places that requests name move with it: those behind
    /// what goes move, and those in it go to where it began.
    ///
    /// The only error is `OutOfMemory`; after it all is as before.
    #[tactic(auto, using(crate::proofs::MarkLaws::drop_facts))]
    pub fn drop_next(&mut self, tag: u16) -> Result<Option<Dropped>, PendingFault>
        ensures drops { DropsUpTo (put_limit self.old.queue tag) self.old.overlay tag result self.new.overlay }
        ensures cells { IfOk result (λ x. IfSome x (λ d.
            IsTakenBack (cells_at self.old.overlay tag) d.place d.count d.text (cells_at self.new.overlay tag))) }
        ensures queue { self.new.queue ≡ queue_after_drop self.old tag result }
    {
        let limit = self.queue.limit(tag);
        let marks = self
            .queue
            .marks_after_drop(self.alloc, &self.overlay, tag, limit)?;
        let Some(dropped) = self.overlay.drop_up_to(tag, limit)? else {
            return Ok(None);
        };
        self.queue.put_marks(marks.as_slice());
        Ok(Some(dropped))
    }

    /// Goes on by one step, as `Overlay::step` does. An edit that was put changes no text that a request behind it comes to. A change of
    /// the host's moves the places that requests name, with the text of their file that they come to: those behind what comes in or goes
    /// move, and a range of which all goes is empty there. How many runes a `View` or a `Load` names stays.
    ///
    /// Errors are those of that call, in its order; after each what waits is as before.
    #[tactic(auto, using(crate::proofs::MarkLaws::step_facts))]
    pub fn step(&mut self) -> Result<OverlayStep, EndpointFault<TermStop>>
        ensures step { Steps self.old.overlay.end (end_step result) self.new.overlay.end }
        ensures cells { IfOk result (λ x. CellsGo self.old.overlay x self.new.overlay) }
        ensures put { OnOk result (self.new.overlay.putting ≡ None) }
        ensures told { IfOk result (λ x. (f : ℕ)
            → Leads (told_at x f) (shown_at self.old.overlay f) (shown_at self.new.overlay f)) }
        ensures texts { OnOk result (KeepsTexts self.old.overlay self.new.overlay) }
        ensures queue { self.new.queue ≡ queue_after self.old result }
        ensures err { OnErr result (Keeps self.old.overlay self.new.overlay × StopsOnly self.old.overlay.end self.new.overlay.end) }
    {
        if let Some(why) = self.overlay.end().stopped() {
            return Err(EndpointFault::Stopped(why));
        }
        if self.overlay.end().first_frame().is_none() {
            return self.overlay.step();
        }
        let Ok(marks) = self.queue.marks_after(self.alloc, &self.overlay) else {
            return Err(EndpointFault::Unfinished);
        };
        let step = self.overlay.step()?;
        if is_received(step.step) {
            self.queue.put_marks(marks.as_slice());
        }
        Ok(step)
    }

    /// Takes a piece of the host's stream, as `Overlay::bring` does. Errors are those of that call, in its order.
    pub fn bring(&mut self, piece: &[u8]) -> Result<(), BringFault<TermStop>>
        ensures brings { Brings self.old.overlay piece.now result self.new.overlay }
        ensures queue { self.new.queue ≡ self.old.queue }
    {
        self.overlay.bring(piece)
    }

    /// Takes an event of the user beside the requests that wait, as `Overlay::bring_event` does: it acts before them, and they stay. Errors
    /// are those of that call, in its order.
    pub fn bring_event(&mut self, event: UserEvent) -> Result<(), BringFault<TermStop>>
        requires { IsTrue (is_request event) }
        ensures asks { Asks self.old.overlay event result self.new.overlay }
        ensures queue { self.new.queue ≡ self.old.queue }
    {
        self.overlay.bring_event(event)
    }

    /// Takes out the first `count` bytes for the host, or all if there are fewer, as `Overlay::consume` does. All else stays.
    pub fn consume(&mut self, count: usize)
        ensures overlay { self.new.overlay ≡ record self.old.overlay {
          end = record self.old.overlay.end { pending_bytes = drop count self.old.overlay.end.pending_bytes };
        } }
        ensures queue { self.new.queue ≡ self.old.queue }
    {
        self.overlay.consume(count);
    }

    /// Hands out the oldest refusal that was not handed out before, as `Overlay::next_refusal` does. All else stays.
    pub fn next_refusal(&mut self) -> Option<(u64, Refusal)>
        ensures told { result ≡ slice_get self.old.overlay.end.refusals 0 }
        ensures rest { self.new.overlay ≡ record self.old.overlay {
          end = record self.old.overlay.end { refusals = drop 1 self.old.overlay.end.refusals };
        } }
        ensures queue { self.new.queue ≡ self.old.queue }
    {
        self.overlay.next_refusal()
    }
}
