//! What `act` does with the oldest held event: the tests that may stand against it, and the deed that it calls for.

ghost use Rattle.std.specs.Prelude.{◌≡◌, ◌∷◌, [], IsTrue, None, drop};
ghost use Rattle.sam_runes.specs.Checks.{first_of_checks};
ghost use Rattle.sam_term.specs.Acting.{deed_of, made_first, free_first, first_event};
ghost use Rattle.sam_term.specs.Locking.{is_lockable};
ghost use Rattle.sam_term.specs.Events.{lock_of};
ghost use Rattle.sam_term.specs.Taking.{IsAnswer, done, not_done};
ghost use Rattle.sam_term.specs.Term.{act_of, event_checks, is_unknown, is_closed, is_file_locked, has_bad_place, has_long_text, makes_too_long, sends, unchanged};

use crate::event::{
    Acted, Deed, UserEvent, Verdict, file_of, is_bad_version, is_for_command_file, needs_open,
    waits_for_all,
};
use crate::fault::{Refusal, TermFault};
use crate::term::Terminal;
use sam_mesg::Tmesg;
use sam_runes::{MOST_IN_MESSAGE, snarf_limit, utf8_within};

impl Terminal {
    /// Tries the oldest held event, as `Terminal::act` says. Errors, in this order: `CountFull`; `OutOfMemory`. The terminal is then
    /// unchanged.
    #[tactic(auto, using(crate::proofs::Acts::acts_on_first))]
    pub(crate) fn try_oldest(&mut self) -> Result<Acted, TermFault>
        ensures { IsAnswer self.old self.new result (act_of self.old) }
    {
        let Some(event) = self.held.first() else {
            return Ok(Acted::Idle);
        };
        match self.verdict(event) {
            Some(verdict) => Ok(self.not_done(verdict)),
            None => {
                let deed = self.deed_of(event);
                self.perform(deed)
            }
        }
    }

    /// Returns what stands against an event: the first test that holds, in the order that `Refusal` says, or `None`.
    #[tactic(auto, using(crate::proofs::FileSteps::waits_facts))]
    pub(crate) fn verdict(&self, event: &UserEvent) -> Option<Verdict>
        ensures { result ≡ first_of_checks (event_checks self.now event.now) }
    {
        if self.exited {
            return Some(Verdict::Refuses(Refusal::Exited));
        }
        if self.command_lock {
            return Some(Verdict::Waits);
        }
        if is_bad_version(event) {
            return Some(Verdict::Refuses(Refusal::BadVersion));
        }
        if self.is_unknown(file_of(event)) {
            return Some(Verdict::Refuses(Refusal::NoFile));
        }
        if is_for_command_file(event) {
            return Some(Verdict::Refuses(Refusal::CommandFile));
        }
        if needs_open(event) && self.is_closed(file_of(event)) {
            return Some(Verdict::Refuses(Refusal::NotOpen));
        }
        if self.is_file_locked(file_of(event)) || (waits_for_all(event) && 0 < self.file_locks) {
            return Some(Verdict::Waits);
        }
        if self.has_bad_place(event) {
            return Some(Verdict::Refuses(Refusal::BadPosition));
        }
        if self.has_long_text(event) {
            return Some(Verdict::Refuses(Refusal::TextTooLong));
        }
        if self.makes_too_long(event) {
            return Some(Verdict::Refuses(Refusal::TooLong));
        }
        None
    }

    /// Returns whether the file that an event names, if any, is not known.
    fn is_unknown(&self, file: Option<u16>) -> bool
        ensures { result ≡ is_unknown self.now file }
    {
        match file {
            Some(tag) => !self.knows(tag),
            None => false,
        }
    }

    /// Returns whether the file that an event names, if any, is not open.
    fn is_closed(&self, file: Option<u16>) -> bool
        ensures { result ≡ is_closed self.now file }
    {
        match file {
            Some(tag) => !self.has_open(tag),
            None => false,
        }
    }

    /// Returns whether the file that an event names, if any, has a lock. The command lock does not count.
    fn is_file_locked(&self, file: Option<u16>) -> bool
        ensures { result ≡ is_file_locked self.now file }
    {
        match file {
            Some(tag) => 0 < self.locks(tag),
            None => false,
        }
    }

    /// Returns whether an event names a place past the end of the rasp, or a range that ends before it begins.
    fn has_bad_place(&self, event: &UserEvent) -> bool
        ensures { result ≡ has_bad_place self.now event.now }
    {
        match event {
            UserEvent::Select(tag, p, q) => q < p || self.rasp_len(*tag) < *q as usize,
            UserEvent::Dclick(tag, p) => self.rasp_len(*tag) < *p as usize,
            UserEvent::View(tag, p, _) => self.rasp_len(*tag) < *p as usize,
            UserEvent::Load(tag, p, _) => self.rasp_len(*tag) < *p as usize,
            UserEvent::Edit(tag, p, q, _) => q < p || self.rasp_len(*tag) < *q as usize,
            _ => false,
        }
    }

    /// Returns whether the text of an event is too long for its message.
    fn has_long_text(&self, event: &UserEvent) -> bool
        ensures { result ≡ has_long_text self.now event.now }
    {
        match event {
            UserEvent::Typed(_, text) => MOST_IN_MESSAGE < text.len(),
            UserEvent::SetSnarf(text) => !utf8_within(text.as_slice(), snarf_limit(self.version)),
            _ => false,
        }
    }

    /// Returns whether an event would put so many runes in that the file has more than `MAX_RUNES`.
    fn makes_too_long(&self, event: &UserEvent) -> bool
        ensures { result ≡ makes_too_long self.now event.now }
    {
        match event {
            UserEvent::Typed(tag, text) => self.room_beside_dot(*tag) < text.len(),
            UserEvent::Edit(tag, p, q, text) => self.room_beside(*tag, *p, *q) < text.len(),
            _ => false,
        }
    }

    /// Returns what the terminal has to do for an event that nothing stands against.
    pub(crate) fn deed_of(&self, event: &UserEvent) -> Deed
        ensures { result ≡ deed_of self.now event.now }
    {
        match event {
            UserEvent::Look(tag) => {
                let dot = self.dot_of(*tag);
                Deed::Sends(Tmesg::Tlook(*tag, dot.0, dot.1))
            }
            UserEvent::Search(tag) => {
                let dot = self.dot_of(*tag);
                Deed::Sends(Tmesg::Tsearch(*tag, dot.0, dot.1))
            }
            UserEvent::Send(tag) => {
                let dot = self.dot_of(*tag);
                Deed::Sends(Tmesg::Tsend(*tag, dot.0, dot.1))
            }
            UserEvent::Dclick(tag, p) => Deed::Sends(Tmesg::Tdclick(*tag, *p)),
            UserEvent::Scroll(tag, n) => Deed::Sends(Tmesg::Torigin(
                *tag,
                self.view_start(*tag),
                *n,
            )),
            UserEvent::Open(tag) => Deed::Sends(Tmesg::Tstartfile(*tag)),
            UserEvent::Close(tag) => Deed::Sends(Tmesg::Tclose(*tag)),
            UserEvent::Write(tag) => Deed::Sends(Tmesg::Twrite(*tag)),
            UserEvent::Work(tag) => {
                let dot = self.dot_of(*tag);
                Deed::Sends(Tmesg::Tworkfile(*tag, dot.0, dot.1))
            }
            UserEvent::OpenCmd => Deed::Sends(Tmesg::Tstartcmdfile),
            UserEvent::New => Deed::Sends(Tmesg::Tstartnewfile),
            UserEvent::Exit => Deed::Sends(Tmesg::Texit),
            UserEvent::Check(tag) => Deed::Sends(Tmesg::Tcheck(*tag)),
            UserEvent::GetSnarf => Deed::Sends(Tmesg::Tstartsnarf),
            UserEvent::Version(version) => Deed::Sends(Tmesg::Tversion(*version)),
            UserEvent::Typed(_, _) => Deed::Types,
            UserEvent::Select(tag, p, q) => Deed::Selects(*tag, *p, *q),
            UserEvent::Cut(tag) => Deed::Cuts(*tag),
            UserEvent::Paste(tag) => Deed::Pastes(*tag),
            UserEvent::Snarf(tag) => Deed::Snarfs(*tag),
            UserEvent::View(tag, p, n) => Deed::Views(*tag, *p, *n),
            UserEvent::Load(tag, p, n) => Deed::Loads(*tag, *p, *n),
            UserEvent::Edit(_, _, _, _) => Deed::Edits,
            UserEvent::SetSnarf(_) => Deed::SetsSnarf,
            UserEvent::Flush => Deed::Flushes,
        }
    }

    /// Drops the oldest held event if it is refused, or leaves it if it waits, and returns what became of it.
    fn not_done(&mut self, verdict: Verdict) -> Acted
        ensures { not_done verdict self.old ≡ (self.new, result) }
    {
        match verdict {
            Verdict::Waits => Acted::Locked,
            Verdict::Refuses(why) => {
                self.drop_first();
                Acted::Refused(why)
            }
        }
    }

    /// Does the deed of the oldest held event, and drops the event. Errors, in this order: `CountFull`; `OutOfMemory`. The terminal is
    /// then unchanged.
    #[tactic(auto, using(crate::proofs::Acts::deeds))]
    fn perform(&mut self, deed: Deed) -> Result<Acted, TermFault>
        requires free { free_first self.old ≡ None }
        requires deed { deed ≡ deed_of self.old (first_event self.old.held) }
        ensures { IsAnswer self.old self.new result (done (made_first self.old)) }
    {
        match deed {
            Deed::Sends(message) => self.send_for_event(message),
            Deed::Types => self.make_typed(),
            Deed::Selects(tag, p, q) => self.make_select(tag, p, q),
            Deed::Cuts(tag) => self.make_cut(tag),
            Deed::Pastes(tag) => self.make_paste(tag),
            Deed::Snarfs(tag) => self.make_snarf(tag),
            Deed::Views(tag, p, n) => self.make_view(tag, p, n),
            Deed::Loads(tag, p, n) => self.make_load(tag, p, n),
            Deed::Edits => self.make_edit(),
            Deed::SetsSnarf => self.make_set_snarf(),
            Deed::Flushes => self.make_flush(),
        }
    }

    /// Composes the unsent runes and then the message of the oldest event, which is dropped. Errors, in this order: `CountFull`;
    /// `OutOfMemory`. The terminal is then unchanged.
    #[tactic(auto, using(crate::proofs::Edits::held_facts), unfolding(crate::specs::Taking::done, crate::specs::Taking::countable))]
    pub(crate) fn send_for_event(&mut self, message: Tmesg) -> Result<Acted, TermFault>
        requires opened { IsTrue (is_lockable self.old (lock_of message)) }
        ensures { IsAnswer self.old self.new result
            (done (sends (record self.old { held = drop 1 self.old.held }) unchanged (message ∷ []))) }
    {
        let batch = self.send(message)?;
        self.drop_first();
        Ok(Acted::Done(batch))
    }
}
