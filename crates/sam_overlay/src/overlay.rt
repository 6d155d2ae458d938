//! `Overlay`: a terminal end, and edits of the user that wait over its rasps.

ghost use Rattle.std.specs.Prelude.{◌≡◌, ◌≢◌, ◌⊎◌, ◌↔◌, ◌<◌, ◌≤◌, ℕ, OnErr, OnOk, IfOk, IfErr, IsTrue, MatchOption, Some, None, if◌then◌else◌, is_some, length, false, drop, slice_get, IfSome};
ghost use Rattle.sam_runes.specs.Checks.{first_of_checks};
ghost use Rattle.sam_runes.specs.Slots.{slot};
ghost use Rattle.sam_runes.specs.Texts.{max_runes};
ghost use Rattle.sam_pending.specs.Layers.{next_edit, next_made, rasp_length, runs_of, shown_members};
ghost use Rattle.sam_pending.specs.Cells.{IsTakenBack, rasp_of, resting};
ghost use Rattle.sam_pending.specs.Runs.{has_next};
ghost use Rattle.sam_endpoint.specs.TermEndpoints.{IsDone};
ghost use Rattle.sam_endpoint.specs.TermStepping.{Steps};
ghost use Rattle.sam_overlay.specs.Calls.{Asks, Brings, CanAct, CellsGo, FindsText, IsIdle, IsReady, KeepsTexts, Drops, DropsUpTo, IsFree, IsNotNow, Keeps, is_free, Puts, PutsUpTo, IsShownFrom, cells_at, gap_from, has_edit_at, new_overlay, replace_checks, shown_at, waiting_at};
ghost use Rattle.sam_overlay.specs.Outcomes.{IsNextKept, IsNextWaiting, Leads, Replaces, ReplacesFrom, newest_in, newest_over};
ghost use Rattle.sam_overlay.specs.Effects.{plan_of};
ghost use Rattle.sam_overlay.specs.Marks.{place_after, place_after_drop};
ghost use Rattle.sam_overlay.specs.Overlays.{StopsOnly, end_step, first_effect, is_request, told_at};
ghost use Rattle.sam_term.specs.Term.{is_known, is_open, rasp_at};

use crate::fault::{PutFault, ReplaceFault};
use crate::frame_plan::FilePlan;
use crate::gaps::{pending_from, pending_gap, rasp_from, rasp_gap};
use crate::layers::{Layers, Place};
use crate::marks::{place_after_drop, place_in_pending, place_in_rasp};
use crate::request::concerns;
use crate::shown_change::{OverlayStep, Put};
use crate::steps::{quiet, step_edit, step_over};
use sam_endpoint::{BringFault, EndpointFault, FinishFault, TermEndpoint, TermStop};
use sam_pending::{Dropped, Pending, PendingFault, Shown};
use sam_rasp::Rasp;
use sam_runes::{ALL_TAGS, Edit, MAX_RUNES};
use sam_term::{Refusal, Terminal, UserEvent};
use std::alloc::Global;
use std::marker::Model;

/// A terminal end, and edits of the user that wait over its rasps. What the user does is shown at once, also while a file is locked; the
/// host's changes go through it; and once a file is free it is put as events, one edit at a time. Of the other events those are taken that
/// leave each text but that of the command file, over which nothing waits.
///
/// ```rust
/// overlay.replace(1, 5, 5, &['!'])?; // `hello!` is shown, though a paste has locked file 1
/// overlay.bring(piece)?; // what came from the host
/// let step = overlay.step()?; // ` world` came in at place 5 of the rasp: `Told::Came(5, 6)`, and `hello world!` is shown
/// let step = overlay.step()?; // the file is free
/// let put = overlay.put_next(1)?; // `Put::Edit`: the `!` is put at place 11
/// let step = overlay.step()?; // it acts: the rasp is what was shown
/// ```
#[derive(Drop)]
pub struct Overlay {
    /// What gives the memory.
    alloc: Global,
    /// The terminal end. It holds requests alone, which leave each text, or the one edit that was put.
    end: TermEndpoint,
    /// What waits over its rasps.
    layers: Layers,
    /// The file whose next edit was put and has not acted yet: memory was refused, or no step was made since.
    putting: Option<u16>,
    /// Of that edit, the newest group of which it could be.
    limit: Option<u32>,
}

impl Model for Overlay {
    ghost use Rattle.sam_overlay.specs.Calls.{IsSound, PlainOverlay, seen};

    ghost Value = { PlainOverlay };

    ghost view = { seen };

    ghost invariant = { λ a. IsSound (seen a) };
}

impl Overlay {
    /// Makes an overlay over a terminal that knows no file. It takes no memory.
    pub fn new(alloc: Global) -> Overlay
        ensures { result ≡ new_overlay }
    {
        Overlay {
            alloc,
            end: TermEndpoint::new(alloc),
            layers: Layers::new(alloc),
            putting: None,
            limit: None,
        }
    }

    /// Returns the terminal end, to be read.
    pub fn end(&self) -> &TermEndpoint
        ensures { result.now ≡ self.now.end }
    {
        &self.end
    }

    /// Returns how many runes and gaps are shown of a file; `None` if it is not open.
    #[tactic(auto, using(crate::proofs::CallLaws::shown_facts))]
    pub fn shown_len(&self, tag: u16) -> Option<u32>
        ensures { result ≡ (if is_open self.now.end.term tag then Some (length (shown_at self.now tag)) else None) }
    {
        let rasp = self.end.term().rasp(tag)?;
        match self.layers.at(tag) {
            Some(pending) => Some(pending.shown_len()),
            None => Some(rasp.len()),
        }
    }

    /// Returns how many runes of a file wait, those that a later edit removes among them.
    pub fn waiting(&self, tag: u16) -> u32
        ensures { result ≡ waiting_at self.now tag }
    {
        match self.layers.at(tag) {
            Some(pending) => pending.waiting(),
            None => 0,
        }
    }

    /// Returns what stands from that place of the shown text of a file on: so many members of its rasp, or runes that wait; `None` from the
    /// end on, or if the file is not open. The next call is for the place after these, so what is shown can be read piece by piece.
    #[tactic(auto, using(crate::proofs::CallLaws::reading_facts))]
    pub fn shown_at(&self, tag: u16, place: u32) -> Option<Shown<'_>>
        ensures { MatchOption result ((is_open self.now.end.term tag ≡ false) ⊎ (length (shown_at self.now tag) ≤ place))
            (λ x. IsShownFrom place (shown_at self.now tag) (shown_members (rasp_at self.now.end.term tag) x)) }
    {
        let rasp = self.end.term().rasp(tag)?;
        match self.layers.at(tag) {
            Some(pending) => pending_from(pending, place),
            None => rasp_from(rasp, place),
        }
    }

    /// Returns the first place of the shown text of a file, at or after `place`, whose rune is not loaded; `None` if the file is not open,
    /// or if all runes are loaded from there on. Runes that wait are loaded.
    #[tactic(auto, using(crate::proofs::GapLaws::gap_facts))]
    pub fn first_gap(&self, tag: u16, place: u32) -> Option<u32>
        ensures { result ≡ (if is_open self.now.end.term tag then gap_from place (shown_at self.now tag) else None) }
    {
        let rasp = self.end.term().rasp(tag)?;
        match self.layers.at(tag) {
            Some(pending) => pending_gap(pending, rasp, place),
            None => rasp_gap(rasp, place),
        }
    }

    /// Returns whether an edit waits over a file: one that only removes has no runes that `waiting` counts.
    #[tactic(auto, using(crate::proofs::CallLaws::rests_cells))]
    pub fn is_waiting(&self, tag: u16) -> bool
        ensures value { result ≡ has_edit_at self.now tag }
        ensures rests { result ≡ false → cells_at self.now tag ≡ resting (rasp_at self.now.end.term tag) }
    {
        self.layers.is_waiting(tag)
    }

    /// Returns the first file from tag `from` on over which an edit waits; `None` if there is none. To find all, go on behind each.
    pub fn next_waiting(&self, from: u16) -> Option<u16>
        ensures { IsNextWaiting self.now.layers from result }
    {
        self.layers.next_waiting(from)
    }

    /// Returns the first file from tag `from` on for which a list of edits is kept; `None` if there is none. One of which all edits have
    /// acted is kept until `put_next` is called, which lets it go. To find all, go on behind each.
    pub fn next_kept(&self, from: u16) -> Option<u16>
        ensures { IsNextKept self.now.layers from result }
    {
        self.layers.next_kept(from)
    }

    /// Takes out the first `count` bytes for the host, or all if there are fewer, as `TermEndpoint::consume` does. All else stays.
    pub fn consume(&mut self, count: usize)
        ensures { self.new ≡ record self.old { end = record self.old.end { pending_bytes = drop count self.old.end.pending_bytes } } }
    {
        self.end.consume(count);
    }

    /// Hands out the oldest request that was refused and was not handed out before, as `TermEndpoint::next_refusal` does: its number among
    /// all events, edits that were put among them, and why. All else stays.
    pub fn next_refusal(&mut self) -> Option<(u64, Refusal)>
        ensures told { result ≡ slice_get self.old.end.refusals 0 }
        ensures rest { self.new ≡ record self.old { end = record self.old.end { refusals = drop 1 self.old.end.refusals } } }
    {
        self.end.next_refusal()
    }

    /// States what is true of every overlay: the cells of a file that no edit which waits put in are its rasp, and all of them where none
    /// waits; and nothing waits over the command file. It does nothing when the program runs.
    #[tactic(auto, using(crate::proofs::CallLaws::fact_laws))]
    pub fn facts(&self)
        ensures command { cells_at self.now 0 ≡ resting (rasp_at self.now.end.term 0) }
        ensures rasp { (f : ℕ) → rasp_of (cells_at self.now f) ≡ rasp_at self.now.end.term f }
        ensures rests { (f : ℕ) → has_edit_at self.now f ≡ false → cells_at self.now f ≡ resting (rasp_at self.now.end.term f) }
    {
        let _ = &self.alloc;
    }

    /// Finds whether no edit was put that has not acted. Errors, in this order: `Stopped` if the end has stopped; `Waiting`.
    fn check_put(&self) -> Result<(), BringFault<TermStop>>
        ensures ok { OnOk result (self.now.putting ≡ None) }
        ensures put { OnErr result (IsTrue (is_some self.now.putting)) }
        ensures err { IfErr result (λ why. IsNotNow self.now.end why) }
    {
        match self.putting {
            None => Ok(()),
            Some(_) => Err(not_now(&self.end)),
        }
    }

    /// Takes a piece of the host's stream, of any length, by framing alone, as `TermEndpoint::bring` does.
    ///
    /// Errors are those of that call, in its order. `Waiting` is also returned while an edit that was put has not acted: go on by steps.
    pub fn bring(&mut self, piece: &[u8]) -> Result<(), BringFault<TermStop>>
        ensures { Brings self.old piece.now result self.new }
    {
        self.check_put()?;
        self.end.bring(piece)
    }

    /// Takes an event of the user that leaves each text but that of the command file (see `is_request`), and goes no further, as
    /// `TermEndpoint::bring_event` does. Edits of other files come by `replace`. What is typed into the command file is shown once it acts.
    ///
    /// Errors are those of that call, in its order. `Waiting` is also returned while an edit that was put has not acted: go on by steps.
    #[tactic(auto, using(crate::proofs::CallLaws::asked_sound))]
    pub fn bring_event(&mut self, event: UserEvent) -> Result<(), BringFault<TermStop>>
        requires { IsTrue (is_request event) }
        ensures { Asks self.old event result self.new }
    {
        self.check_put()?;
        self.end.bring_event(event)
    }

    /// Goes on by one step, and says what it did and how what is shown changed. All memory is had before the end's own step.
    ///
    /// Errors are those of `TermEndpoint::step`, in its order. After each what is shown, and what waits, is as before.
    #[tactic(auto, using(crate::proofs::CallLaws::brought_told))]
    pub fn step(&mut self) -> Result<OverlayStep, EndpointFault<TermStop>>
        ensures step { Steps self.old.end (end_step result) self.new.end }
        ensures cells { IfOk result (λ x. CellsGo self.old x self.new) }
        ensures put { OnOk result (self.new.putting ≡ None) }
        ensures told { IfOk result (λ x. (f : ℕ) → Leads (told_at x f) (shown_at self.old f) (shown_at self.new f)) }
        ensures texts { OnOk result (KeepsTexts self.old self.new) }
        ensures err { OnErr result (Keeps self.old self.new × StopsOnly self.old.end self.new.end) }
    {
        if let Some(why) = self.end.stopped() {
            return Err(EndpointFault::Stopped(why));
        }
        match self.putting {
            None => step_over(&mut self.end, &mut self.layers, self.alloc),
            Some(tag) => {
                let step = step_edit(&mut self.end, &mut self.layers, tag, self.limit)?;
                self.putting = None;
                Ok(quiet(step))
            }
        }
    }

    /// Puts `runes` in the place of what is shown of a file from place `p` to place `q`. That is shown at once, and waits until `put_next`
    /// puts it. The runes stand behind what is shown before `p`.
    ///
    /// Errors, in this order, after which all is as before: `Exited` if the session is over; `Stopped`; `NoFile`; `CommandFile`; `NotOpen`;
    /// `BadPosition` if `q` is less than `p` or past the end of what is shown; `TooLong` if there are runes, and these, the rasp and all
    /// that waits over it (with what goes) are more than `MAX_RUNES`; `OutOfMemory`, also while an edit of the file was put that has not
    /// acted: go on by steps. No lock is an error.
    #[tactic(auto, using(crate::proofs::CallLaws::any_replaces))]
    pub fn replace(&mut self, tag: u16, p: u32, q: u32, runes: &[char]) -> Result<(), ReplaceFault>
        ensures tests { OnOk result (first_of_checks (replace_checks self.old tag p q runes.now) ≡ None) }
        ensures refused { IfErr result (λ why. (first_of_checks (replace_checks self.old tag p q runes.now) ≡ Some why)
            ⊎ ((why ≡ ReplaceFault.OutOfMemory) × (first_of_checks (replace_checks self.old tag p q runes.now) ≡ None))) }
        ensures replaced { OnOk result (Replaces (cells_at self.old tag) p q runes.now (cells_at self.new tag)) }
        ensures others { OnOk result ((f : ℕ) → f ≢ tag → cells_at self.new f ≡ cells_at self.old f) }
        ensures end { (self.new.end ≡ self.old.end) × (self.new.putting ≡ self.old.putting) }
        ensures err { OnErr result (self.new ≡ self.old) }
    {
        let at = Place { group: 0, p, q };
        self.replace_at(tag, at, runes)
    }

    /// As `replace`, where the place says into which group the edit is put, if no newer one waits.
    #[tactic(auto, using(crate::proofs::CallLaws::replace_facts))]
    pub(crate) fn replace_at(
        &mut self,
        tag: u16,
        at: Place,
        runes: &[char],
    ) -> Result<(), ReplaceFault>
        ensures tests { OnOk result (first_of_checks (replace_checks self.old tag at.p at.q runes.now) ≡ None) }
        ensures refused { IfErr result (λ why. (first_of_checks (replace_checks self.old tag at.p at.q runes.now) ≡ Some why)
            ⊎ ((why ≡ ReplaceFault.OutOfMemory)
            × (first_of_checks (replace_checks self.old tag at.p at.q runes.now) ≡ None))) }
        ensures replaced { OnOk result
            (ReplacesFrom at.group (cells_at self.old tag) at.p at.q runes.now (cells_at self.new tag)) }
        ensures others { OnOk result ((f : ℕ) → f ≢ tag → cells_at self.new f ≡ cells_at self.old f) }
        ensures end { (self.new.end ≡ self.old.end) × (self.new.putting ≡ self.old.putting) }
        ensures err { OnErr result (self.new ≡ self.old) }
    {
        if let Some(why) = self.refusal(tag, at.p, at.q, runes) {
            return Err(why);
        }
        if self.putting == Some(tag) {
            return Err(ReplaceFault::OutOfMemory);
        }
        let len = rasp_len(self.end.term(), tag);
        match self.layers.replace(tag, len, at, runes) {
            Ok(()) => Ok(()),
            Err(_) => Err(ReplaceFault::OutOfMemory),
        }
    }

    /// Returns what stands against an edit, if something does.
    #[tactic(auto, using(crate::proofs::CallLaws::refusal_facts))]
    fn refusal(&self, tag: u16, p: u32, q: u32, runes: &[char]) -> Option<ReplaceFault>
        ensures { result ≡ first_of_checks (replace_checks self.now tag p q runes.now) }
    {
        if self.end.term().exited() {
            return Some(ReplaceFault::Exited);
        }
        if self.end.stopped().is_some() {
            return Some(ReplaceFault::Stopped);
        }
        if !knows(self.end.term(), tag) {
            return Some(ReplaceFault::NoFile);
        }
        if tag == 0 {
            return Some(ReplaceFault::CommandFile);
        }
        let Some(len) = self.shown_len(tag) else {
            return Some(ReplaceFault::NotOpen);
        };
        if p > q || q > len {
            return Some(ReplaceFault::BadPosition);
        }
        let kept = rasp_len(self.end.term(), tag) as usize + self.waiting(tag) as usize;
        let room = (MAX_RUNES as usize).saturating_sub(kept);
        if !runes.is_empty() && runes.len() > room {
            return Some(ReplaceFault::TooLong);
        }
        None
    }

    /// Returns whether an edit was put that has not acted.
    pub(crate) fn is_putting(&self) -> bool
        ensures { result ≡ is_some self.now.putting }
    {
        self.putting.is_some()
    }

    /// Returns the newest group that waits over any file; 0 if none does.
    pub(crate) fn newest(&self) -> u32
        ensures { result ≡ newest_over self.now.layers }
    {
        self.layers.newest()
    }

    /// Returns the newest group that waits over a file; 0 if none does.
    pub(crate) fn newest_at(&self, tag: u16) -> u32
        ensures { result ≡ newest_in (slot self.now.layers tag) }
    {
        self.layers.newest_at(tag)
    }

    /// Returns where a place, of the text of a file that a request of the group comes to, goes as the end takes the oldest frame that
    /// waits; it stays if none does.
    #[tactic(auto, using(crate::proofs::MarkLaws::begin_stays))]
    pub(crate) fn place_after(&self, tag: u16, group: u32, place: u32) -> u32
        ensures { result ≡ place_after group (plan_of (first_effect self.now.end.waiting tag)) (cells_at self.now tag) place }
    {
        if place == 0 {
            return 0;
        }
        let Some(frame) = self.end.first_frame() else {
            return place;
        };
        let file = FilePlan::of(&frame.msg);
        if file.tag != tag {
            return place;
        }
        match self.layers.at(tag) {
            Some(pending) => place_in_pending(pending, group, file.plan, place),
            None => place_in_rasp(rasp_len(self.end.term(), tag), file.plan, place),
        }
    }

    /// Returns where a place, of the text of a file that a request of the group comes to, goes as `drop_up_to` takes runes back.
    #[tactic(auto, using(crate::proofs::MarkLaws::place_drop_facts))]
    pub(crate) fn place_after_drop(
        &self,
        tag: u16,
        up_to: Option<u32>,
        group: u32,
        place: u32,
    ) -> u32
        ensures { result ≡ place_after_drop up_to group (slot self.now.layers tag) (cells_at self.now tag) place }
    {
        if place == 0 {
            return 0;
        }
        match self.layers.at(tag) {
            Some(pending) => place_after_drop(pending, up_to, group, place),
            None => place,
        }
    }

    /// Returns whether an event that stands behind the edits up to a group can act at once; then it finds the text that a request of that
    /// group comes to. The cost goes by the number of files.
    #[tactic(auto)]
    pub(crate) fn can_act(&self, event: &UserEvent, group: u32) -> bool
        ensures can { IsTrue result ↔ CanAct self.now event.now group }
        ensures finds { IsTrue result → FindsText self.now event.now group }
    {
        if !self.is_idle() || self.end.term().command_locked() {
            return false;
        }
        let count = self.end.term().files().len().max(self.layers.len());
        for index in 0..count.min(ALL_TAGS) {
            let tag = index as u16;
            if concerns(event, tag) && !self.is_ready(tag, group) {
                return false;
            }
        }
        true
    }

    /// Returns whether the end has nothing else to do.
    #[tactic(auto, using(crate::proofs::CallLaws::held_none))]
    fn is_idle(&self) -> bool
        ensures { IsTrue result ↔ IsIdle self.now }
    {
        self.putting.is_none() && is_done(&self.end) && self.end.term().held() == 0
    }

    /// Returns whether no edit up to a group is left to put over a file, and no lock holds the user out of it.
    #[tactic(auto)]
    fn is_ready(&self, tag: u16, group: u32) -> bool
        ensures { IsTrue result ↔ IsReady self.now tag group }
    {
        !self.layers.is_left(tag, group) && !self.end.term().locked(tag)
    }

    /// Puts the next edit of what waits over a file as an event, if it can act at once: the next `step` has it act. All that waits over a
    /// file comes to the rasp so, one edit at a time, and nothing that is shown moves by it.
    ///
    /// Errors, in this order, after which all is as before: `Stopped`; `TooLong` if the rasp would have more than `MAX_RUNES` members,
    /// because the host put more in meanwhile; `CountFull` if 2^64-1 events were taken before; `OutOfMemory`.
    pub fn put_next(&mut self, tag: u16) -> Result<Put, PutFault>
        ensures { Puts self.old tag result self.new }
    {
        self.put_up_to(tag, None)
    }

    /// As `put_next`, of the edits of the groups up to a limit. `NotFree` also says that all that waits stands behind it.
    #[tactic(auto, using(crate::proofs::CallLaws::put_facts))]
    pub(crate) fn put_up_to(&mut self, tag: u16, up_to: Option<u32>) -> Result<Put, PutFault>
        ensures { PutsUpTo up_to self.old tag result self.new }
    {
        if let Some(why) = self.end.stopped() {
            return Err(PutFault::Stopped(why));
        }
        let Some(pending) = self.layers.at(tag) else {
            return Ok(Put::Nothing);
        };
        if self.putting.is_some() || !is_free(&self.end, tag) {
            return Ok(Put::NotFree);
        }
        if pending.is_resting() {
            self.layers.free(tag);
            return Ok(Put::Nothing);
        }
        if !pending.has_next(up_to) {
            return Ok(Put::NotFree);
        }
        let edit = next_edit(pending, up_to)?;
        match self
            .end
            .bring_event(UserEvent::Edit(tag, edit.p, edit.q, edit.text))
        {
            Ok(()) => {
                self.putting = Some(tag);
                self.limit = up_to;
                Ok(Put::Edit)
            }
            Err(why) => Err(PutFault::of(why)),
        }
    }

    /// Takes back runes for which the host left no room: the next insertion that waits over a file, where `put_next` answers `TooLong`.
    /// Returns the runes, and which part of the shown text went. `None` wherever `put_next` answers otherwise; then all is as before.
    ///
    /// The only error is `OutOfMemory`; after it all is as before.
    pub fn drop_next(&mut self, tag: u16) -> Result<Option<Dropped>, PendingFault>
        ensures drops { Drops self.old tag result self.new }
        ensures cells { IfOk result (λ x. IfSome x (λ d.
            IsTakenBack (cells_at self.old tag) d.place d.count d.text (cells_at self.new tag))) }
    {
        self.drop_up_to(tag, None)
    }

    /// As `drop_next`, of the edits of the groups up to a limit.
    #[tactic(auto, using(crate::proofs::CallLaws::drop_facts))]
    pub(crate) fn drop_up_to(
        &mut self,
        tag: u16,
        up_to: Option<u32>,
    ) -> Result<Option<Dropped>, PendingFault>
        ensures drops { DropsUpTo up_to self.old tag result self.new }
        ensures cells { IfOk result (λ x. IfSome x (λ d.
            IsTakenBack (cells_at self.old tag) d.place d.count d.text (cells_at self.new tag))) }
    {
        if self.putting.is_some() || !is_free(&self.end, tag) {
            return Ok(None);
        }
        self.layers.drop_next(tag, up_to)
    }
}

/// Returns whether `Overlay::bring_event` takes an event: it leaves each text as it is, but for that of the command file. So typing,
/// cutting and pasting are taken there alone, and no `Edit` is, since the command file takes none.
pub fn is_request(event: &UserEvent) -> bool
    ensures { result ≡ is_request event.now }
{
    match event {
        UserEvent::Typed(tag, _) => *tag == 0,
        UserEvent::Cut(tag) => *tag == 0,
        UserEvent::Paste(tag) => *tag == 0,
        UserEvent::Edit(_, _, _, _) => false,
        _ => true,
    }
}

/// Returns why nothing is brought while an edit that was put has not acted.
fn not_now(end: &TermEndpoint) -> BringFault<TermStop>
    ensures { IsNotNow end.now result }
{
    match end.stopped() {
        Some(why) => BringFault::Stopped(why),
        None => BringFault::Waiting,
    }
}

/// Returns whether the terminal knows a file.
#[tactic(auto, using(crate::proofs::SlotSteps::slot_facts))]
fn knows(term: &Terminal, tag: u16) -> bool
    ensures { result ≡ is_known term.now tag }
{
    let files = term.files();
    let index = tag as usize;
    index < files.len() && files[index].is_some()
}

/// Returns how many members the rasp of a file has; 0 if it is not open.
fn rasp_len(term: &Terminal, tag: u16) -> u32
    ensures { result ≡ length (rasp_at term.now tag) }
{
    match term.rasp(tag) {
        Some(rasp) => rasp.len(),
        None => 0,
    }
}

/// Returns whether an edit of a file can act at once.
#[tactic(auto, using(crate::proofs::CallLaws::held_none))]
fn is_free(end: &TermEndpoint, tag: u16) -> bool
    ensures { IsTrue result ↔ IsFree end.now tag }
{
    if !is_done(end) || end.term().held() != 0 {
        return false;
    }
    is_unlocked(end.term(), tag)
}

/// Returns whether the end goes on, with no frame, no message and no fault that waits.
fn is_done(end: &TermEndpoint) -> bool
    ensures { IsTrue result ↔ ((end.now.stop ≡ None) × IsDone end.now) }
{
    match end.finish() {
        Ok(()) => true,
        Err(FinishFault::Truncated) => true,
        Err(FinishFault::Unfinished) => false,
        Err(FinishFault::Stopped(_)) => false,
    }
}

/// Returns whether a file is open, is not the command file, and no lock holds the user out of it.
#[tactic(auto, using(crate::proofs::CallLaws::free_by))]
fn is_unlocked(term: &Terminal, tag: u16) -> bool
    ensures { result ≡ is_free term.now tag }
{
    if term.exited() || term.locked(tag) || tag == 0 {
        return false;
    }
    term.rasp(tag).is_some()
}

/// Returns the next edit of what waits, of the groups up to a limit, where there is one.
fn next_edit(pending: &Pending, up_to: Option<u32>) -> Result<Edit, PutFault>
    requires { IsTrue (has_next up_to (runs_of pending.now)) }
    ensures edit { IfOk result (λ e. next_edit up_to pending.now ≡ Some e) }
    ensures room { OnOk result (rasp_length (next_made up_to pending.now) ≤ max_runes) }
    ensures err { IfErr result (λ why. ((why ≡ PutFault.TooLong) × (max_runes < rasp_length (next_made up_to pending.now)))
        ⊎ (why ≡ PutFault.OutOfMemory)) }
{
    match pending.next_edit(up_to) {
        Ok(Some(edit)) => Ok(edit),
        Ok(None) => unreachable!(),
        Err(PendingFault::TooLong) => Err(PutFault::TooLong),
        Err(_) => Err(PutFault::OutOfMemory),
    }
}
