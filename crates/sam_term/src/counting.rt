//! Whether a call would do anything, and whether it would compose more messages than can be counted. A caller that needs memory of its own
//! before a call tells a full count from want of memory by these. They take no memory.

ghost use Rattle.std.specs.Prelude.{◌≡◌, ◌+◌, length, nat_lt, None};
ghost use Rattle.sam_runes.specs.Texts.{most_count};
ghost use Rattle.sam_term.specs.Acting.{deed_of, made_first, free_first, first_event};
ghost use Rattle.sam_term.specs.Taking.{acts, frame_fault, is_term_full};
ghost use Rattle.sam_term.specs.Term.{act_of, flush_of, take_of, frame_outcome, requested};
ghost use Rattle.sam_term.specs.declared.event.UserEvent.{UserEvent};

use crate::event::{Deed, Verdict};
use crate::fault::TermFault;
use crate::term::Terminal;
use sam_mesg::{HFrame, Hmesg};

impl Terminal {
    /// Returns whether `act` would do or refuse the oldest held event: one is held, and no lock holds it back. A full count or want of
    /// memory may still keep `act` from it.
    #[tactic(auto, using(crate::proofs::FullCounts::acting_facts))]
    pub fn can_act(&self) -> bool
        ensures { result ≡ acts (act_of self.now) }
    {
        let Some(event) = self.held.first() else {
            return false;
        };
        match self.verdict(event) {
            Some(Verdict::Waits) => false,
            Some(Verdict::Refuses(_)) => true,
            None => true,
        }
    }

    /// Returns whether `act` would answer `CountFull`. The cost is that of `act` without its change.
    #[tactic(auto, using(crate::proofs::Acts::free, crate::proofs::Acts::first_is, crate::proofs::FullCounts::act_full_facts))]
    pub fn act_is_full(&self) -> bool
        ensures { result ≡ is_term_full (act_of self.now) }
    {
        let Some(event) = self.held.first() else {
            return false;
        };
        match self.verdict(event) {
            Some(_) => false,
            None => {
                let deed = self.deed_of(event);
                self.is_past_count(self.deed_count(&deed))
            }
        }
    }

    /// Returns whether `flush` would answer `CountFull`. The cost is constant.
    #[tactic(auto, using(crate::proofs::FullCounts::flush_full))]
    pub fn flush_is_full(&self) -> bool
        ensures { result ≡ is_term_full (flush_of self.now) }
    {
        self.is_past_count(self.unsent_count())
    }

    /// Returns whether `receive` would answer `CountFull` to this frame. The cost is that of finding the request that its file wants.
    #[tactic(auto, using(crate::proofs::FullCounts::frame_full), unfolding(crate::specs::Term::take_of, crate::specs::Taking::countable))]
    pub fn receive_is_full(&self, frame: &HFrame) -> bool
        ensures { result ≡ is_term_full (take_of self.now frame.now) }
    {
        if self.sent < frame.seen {
            return false;
        }
        match self.refusal(&frame.msg) {
            Some(TermFault::CountFull) => true,
            Some(_) => false,
            None => self.is_past_count(self.frame_count(&frame.msg)),
        }
    }

    /// Returns whether so many messages more would take the count of composed messages past 2^64-1.
    fn is_past_count(&self, count: usize) -> bool
        ensures { result ≡ nat_lt most_count (self.now.sent + count) }
    {
        u64::MAX - self.sent < count as u64
    }

    /// Returns how many messages the deed of the oldest held event composes, where nothing stands against that event.
    #[tactic(auto, using(crate::proofs::Acts::deeds, crate::proofs::FullCounts::kind_facts))]
    fn deed_count(&self, deed: &Deed) -> usize
        requires free { free_first self.now ≡ None }
        requires deed { deed.now ≡ deed_of self.now (first_event self.now.held) }
        ensures { result ≡ length (made_first self.now).1 }
    {
        match deed {
            Deed::Sends(_) => 1 + self.unsent_count(),
            Deed::Types => self.typed_count(),
            Deed::Selects(_, _, _) => 0,
            Deed::Cuts(tag) => self.cut_and_snarfed_count(*tag),
            Deed::Pastes(tag) => self.pasted_count(*tag),
            Deed::Snarfs(tag) => self.snarfed_count(*tag),
            Deed::Views(tag, p, n) => self.viewed_count(*tag, *p, *n),
            Deed::Loads(tag, p, n) => self.loaded_count(*tag, *p, *n),
            Deed::Edits => self.edited_count(),
            Deed::SetsSnarf => 1 + self.unsent_count(),
            Deed::Flushes => self.unsent_count(),
        }
    }

    /// Returns how many messages a `Cut` composes, the oldest held event.
    #[tactic(auto, using(crate::proofs::FullCounts::deed_facts, crate::proofs::Acts::opened_by), unfolding(crate::proofs::Edits::makes_opened))]
    fn cut_and_snarfed_count(&self, tag: u16) -> usize
        requires free { free_first self.now ≡ None }
        requires first { first_event self.now.held ≡ UserEvent.Cut tag }
        ensures { result ≡ length (made_first self.now).1 }
    {
        let dot = self.dot_of(tag);
        if dot.0 == dot.1 {
            0
        } else {
            2 + self.unsent_count()
        }
    }

    /// Returns how many messages a `Paste` composes, the oldest held event.
    #[tactic(auto, using(crate::proofs::FullCounts::paste_none_count, crate::proofs::FullCounts::paste_some_count, crate::proofs::Acts::opened_by))]
    fn pasted_count(&self, tag: u16) -> usize
        requires free { free_first self.now ≡ None }
        requires first { first_event self.now.held ≡ UserEvent.Paste tag }
        ensures { result ≡ length (made_first self.now).1 }
    {
        let dot = self.dot_of(tag);
        if dot.0 == dot.1 {
            1 + self.unsent_count()
        } else {
            2 + self.unsent_count()
        }
    }

    /// Returns how many messages a `Snarf` composes, the oldest held event.
    #[tactic(auto, using(crate::proofs::FullCounts::deed_facts, crate::proofs::Acts::opened_by), unfolding(crate::proofs::Edits::makes_opened))]
    fn snarfed_count(&self, tag: u16) -> usize
        requires free { free_first self.now ≡ None }
        requires first { first_event self.now.held ≡ UserEvent.Snarf tag }
        ensures { result ≡ length (made_first self.now).1 }
    {
        let dot = self.dot_of(tag);
        if dot.0 == dot.1 {
            0
        } else {
            1 + self.unsent_count()
        }
    }

    /// Returns how many messages a `View` composes, the oldest held event.
    #[tactic(auto, using(crate::proofs::FullCounts::view_facts, crate::proofs::Edits::views_within, crate::proofs::Acts::opened_by))]
    fn viewed_count(&self, tag: u16, p: u32, n: u32) -> usize
        requires free { free_first self.now ≡ None }
        requires first { first_event self.now.held ≡ UserEvent.View tag p n }
        ensures { result ≡ length (made_first self.now).1 }
    {
        let Some(_message) = self.wanted_from(tag, p, n) else {
            return 0;
        };
        1 + self.unsent_count()
    }

    /// Returns how many messages a frame composes that nothing stands against.
    #[tactic(auto, using(crate::proofs::FullCounts::frame_facts))]
    fn frame_count(&self, message: &Hmesg) -> usize
        requires { frame_fault self.now message.now ≡ None }
        ensures { result ≡ length (frame_outcome self.now message.now).1 }
    {
        match message {
            Hmesg::Hcheck(tag) => self.requested_count(*tag),
            Hmesg::Hunlockfile(tag) => self.requested_count(*tag),
            Hmesg::Hack => {
                if self.exited {
                    0
                } else {
                    1 + self.unsent_count()
                }
            }
            _ => 0,
        }
    }

    /// Returns how many messages the request that a file wants makes, with the unsent runes before it; 0 if it wants none.
    #[tactic(auto, using(crate::proofs::FullCounts::frame_facts))]
    fn requested_count(&self, tag: u16) -> usize
        ensures { result ≡ length (requested self.now tag).1 }
    {
        match self.wanted(tag) {
            Some(_) => 1 + self.unsent_count(),
            None => 0,
        }
    }
}
