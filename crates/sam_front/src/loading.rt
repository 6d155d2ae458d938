//! What a front loads: what lines printed, and then what windows show and the rest of these files.

ghost use Rattle.std.specs.Prelude.{◌≡◌};
ghost use Rattle.sam_overlay.specs.Calls.{has_edit_at};
ghost use Rattle.sam_front.specs.Fronts.{AsksView, BeginsLoad, BeginsSlice, EmptiesView, EndsSlice, Loads, LoadsNext, LoadsStretch, has_come, is_open_state, may_load, missing_of, next_load};
ghost use Rattle.sam_term.specs.Term.{is_open};

use crate::front::Front;
use crate::loader::{Next, Slice, Stretch, loaded_at_once, not_before};
use crate::runs::Ran;
use sam_client::GoOnFault;
use sam_line::State;
use sam_overlay::AskFault;
use sam_term::UserEvent;

impl Front {
    /// Asks for a stretch of a file from a place on, and returns whether it did.
    fn begin_load(
        &mut self,
        tag: u16,
        place: u32,
        stretch: Stretch,
        now: u64,
    ) -> Result<bool, GoOnFault>
        ensures { BeginsLoad self.old tag place stretch now result self.new }
    {
        match self.ask(UserEvent::Load(tag, place, stretch.count)) {
            Ok(request) => {
                self.loader.begin(Slice {
                    request,
                    tag,
                    count: stretch.gaps,
                    since: now,
                    has_acted: false,
                });
                Ok(true)
            }
            Err(AskFault::OutOfMemory) => Err(GoOnFault::OutOfMemory),
            Err(_) => Ok(false),
        }
    }

    /// Asks for as much of a stretch of an open file as is loaded at once, and returns whether it did.
    fn load_stretch(
        &mut self,
        tag: u16,
        place: u32,
        count: u32,
        now: u64,
    ) -> Result<bool, GoOnFault>
        ensures { LoadsStretch (is_open self.old.client.ordered.overlay.end.term tag) self.old tag place count now result self.new }
    {
        let stretch = match self.client.overlay().end().term().rasp(tag) {
            Some(rasp) => loaded_at_once(rasp, place, count),
            None => return Ok(false),
        };
        self.begin_load(tag, place, stretch, now)
    }

    /// Returns whether a load may begin: no request waits, the session goes on, and the line is open.
    fn may_load(&self) -> bool
        ensures { result ≡ may_load self.now }
    {
        self.client.requests() == 0
            && !self.client.overlay().end().term().exited()
            && self.is_line_open()
    }

    /// Returns whether the line is open.
    fn is_line_open(&self) -> bool
        ensures { result ≡ is_open_state self.now.client.line.clock.state }
    {
        match self.client.line().state() {
            State::Open => true,
            _ => false,
        }
    }

    /// Asks for what is to be loaded next, or notes when it may be asked for, and returns whether it asked.
    fn load_next(&mut self, next: Next, now: u64) -> Result<bool, GoOnFault>
        ensures { LoadsNext self.old next now result self.new }
    {
        match next {
            Next::Nothing => Ok(false),
            Next::Wait(time) => {
                self.loads_at = Some(time);
                Ok(false)
            }
            Next::Load(tag, place, count) => self.load_stretch(tag, place, count, now),
        }
    }

    /// Returns the first place of what a line printed whose rune is not loaded; `None` if all of it is loaded.
    pub(crate) fn missing_of(&self, ran: Ran) -> Option<u32>
        ensures { result ≡ missing_of self.now ran }
    {
        match self.client.overlay().first_gap(0, ran.place) {
            Some(gap) if gap < ran.place.saturating_add(ran.count) => Some(gap),
            _ => None,
        }
    }

    /// Returns what is to be loaded of what the oldest line printed, while the command file is free; else what the loader says.
    fn next_load(&self, now: u64) -> Next
        ensures { result ≡ next_load self.now now }
    {
        if let Some(ran) = self.runs.first_ran() {
            if let Some(gap) = self.missing_of(ran) {
                if !self.client.overlay().end().term().locked(0) {
                    let count = ran.place.saturating_add(ran.count).saturating_sub(gap);
                    let count = count.min(self.loader.at_once());
                    return not_before(Next::Load(0, gap, count), self.loader.pauses_until(), now);
                }
            }
        }
        self.loader.next(self.client.overlay(), now)
    }

    /// Asks for what is to be loaded next, if a load may begin, and returns whether it did.
    fn begin_slice(&mut self, now: u64) -> Result<bool, GoOnFault>
        ensures { BeginsSlice (may_load self.old) self.old now result self.new }
    {
        if !self.may_load() {
            if !self.is_line_open() {
                self.loader.note_break();
            }
            return Ok(false);
        }
        let next = self.next_load(now);
        self.load_next(next, now)
    }

    /// Asks for the view of a file to be emptied.
    fn ask_view(&mut self, tag: u16) -> Result<(), GoOnFault>
        ensures { AsksView self.old tag result self.new }
    {
        match self.ask(UserEvent::View(tag, 0, 0)) {
            Ok(request) => {
                self.loader.note_view(request);
                Ok(())
            }
            Err(AskFault::OutOfMemory) => Err(GoOnFault::OutOfMemory),
            Err(_) => Ok(()),
        }
    }

    /// Empties the view of a file, so that the terminal asks for nothing of it by itself; not where an edit waits over it, behind which the
    /// request, and all others, would wait.
    fn empty_view(&mut self, tag: u16) -> Result<(), GoOnFault>
        ensures { EmptiesView (has_edit_at self.old.client.ordered.overlay tag) self.old tag result self.new }
    {
        if self.client.overlay().is_waiting(tag) {
            return Ok(());
        }
        self.ask_view(tag)
    }

    /// Empties the view of what was being loaded, and notes that it has come, if it has. Returns whether it has.
    fn end_slice(&mut self, slice: Slice, now: u64) -> Result<bool, GoOnFault>
        ensures { EndsSlice (has_come self.old slice) self.old slice now result self.new }
    {
        if !slice.has_acted || self.client.overlay().end().term().locked(slice.tag) {
            return Ok(false);
        }
        match self.empty_view(slice.tag) {
            Ok(()) => {
                let round_trip = self.client.line().round_trip();
                self.loader.end(round_trip, now);
                Ok(true)
            }
            Err(why) => Err(why),
        }
    }

    /// Goes on with what is loaded, and returns whether it did something.
    pub(crate) fn load(&mut self, now: u64) -> Result<bool, GoOnFault>
        ensures { Loads self.old now result self.new }
    {
        match self.loader.slice() {
            Some(slice) => self.end_slice(slice, now),
            None => self.begin_slice(now),
        }
    }
}
