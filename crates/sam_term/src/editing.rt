//! What the events `Select`, `Cut`, `Paste`, `Snarf`, `View`, `SetSnarf` and `Flush` do. (`typing` has `Typed`; each of the others only
//! composes a message, by `send_for_event` in `acting`.) A `make_` method does the oldest held event and drops it. Its errors, in this
//! order: `CountFull`; `OutOfMemory`. The terminal is then unchanged.

ghost use Rattle.std.specs.Prelude.{◌≡◌, ◌+◌, ◌≤◌, ◌++◌, [], length, IsOk, IsTrue, None, drop};
ghost use Rattle.sam_runes.specs.Texts.{most_count};
ghost use Rattle.sam_term.specs.Acting.{made_first, free_first, first_event, is_snarfing};
ghost use Rattle.sam_term.specs.Editing.{shown_from};
ghost use Rattle.sam_term.specs.Taking.{IsAnswer, done};
ghost use Rattle.sam_term.specs.Term.{is_open, is_known, window_at, cut_rasp, edited, flushed, unsent_message};

use crate::event::{Acted, UserEvent};
use crate::fault::TermFault;
use crate::outbox::Outbox;
use crate::term::Terminal;
use sam_mesg::{Batch, Tmesg};
use sam_runes::Runes;

impl Terminal {
    /// Does a `Select`: sets the dot. It composes nothing and has no error.
    #[tactic(auto, using(crate::proofs::Edits::select_facts), unfolding(crate::proofs::Edits::makes_opened))]
    pub(crate) fn make_select(&mut self, tag: u16, p: u32, q: u32) -> Result<Acted, TermFault>
        requires free { free_first self.old ≡ None }
        requires first { first_event self.old.held ≡ UserEvent.Select tag p q }
        ensures answer { IsAnswer self.old self.new result (done (made_first self.old)) }
        ensures no_error { IsOk result }
    {
        self.drop_first();
        self.set_dot(tag, p, q);
        Ok(self.done_quietly())
    }

    /// Does a `Cut`: composes `Tsnarf` and `Tcut` of the dot, which goes out of the rasp. An empty dot is left alone.
    #[tactic(auto, using(crate::proofs::Edits::make_facts), unfolding(crate::proofs::Edits::makes_opened))]
    pub(crate) fn make_cut(&mut self, tag: u16) -> Result<Acted, TermFault>
        requires free { free_first self.old ≡ None }
        requires first { first_event self.old.held ≡ UserEvent.Cut tag }
        ensures { IsAnswer self.old self.new result (done (made_first self.old)) }
    {
        let dot = self.dot_of(tag);
        if dot.0 == dot.1 {
            self.drop_first();
            return Ok(self.done_quietly());
        }
        let count = 2 + self.unsent_count();
        let mut out = self.prepare(count)?;
        self.drop_first();
        self.cut_selected(tag, dot, &mut out);
        self.compose(Tmesg::Tsnarf(tag, dot.0, dot.1), &mut out);
        self.compose(Tmesg::Tcut(tag, dot.0, dot.1), &mut out);
        Ok(self.done_with(out))
    }

    /// Does a `Paste`: composes `Tcut` of the dot, which goes out of the rasp, unless it is empty, and then `Tpaste` in its place. What
    /// is pasted comes with the host's answer, and a lock of the file is held until then.
    #[tactic(auto, using(crate::proofs::Edits::paste_facts), unfolding(crate::proofs::Edits::makes_opened))]
    pub(crate) fn make_paste(&mut self, tag: u16) -> Result<Acted, TermFault>
        requires free { free_first self.old ≡ None }
        requires first { first_event self.old.held ≡ UserEvent.Paste tag }
        ensures { IsAnswer self.old self.new result (done (made_first self.old)) }
    {
        let selected = self.dot_of(tag);
        if selected.0 == selected.1 {
            return self.send_for_event(Tmesg::Tpaste(tag, selected.0));
        }
        let count = 2 + self.unsent_count();
        let mut out = self.prepare(count)?;
        self.drop_first();
        self.cut_selected(tag, selected, &mut out);
        self.compose(Tmesg::Tcut(tag, selected.0, selected.1), &mut out);
        self.compose(Tmesg::Tpaste(tag, selected.0), &mut out);
        Ok(self.done_with(out))
    }

    /// Does a `Snarf`: composes `Tsnarf` of the dot, unless it is empty.
    #[tactic(auto, using(crate::proofs::Edits::make_facts), unfolding(crate::proofs::Edits::makes_opened))]
    pub(crate) fn make_snarf(&mut self, tag: u16) -> Result<Acted, TermFault>
        requires free { free_first self.old ≡ None }
        requires first { first_event self.old.held ≡ UserEvent.Snarf tag }
        ensures { IsAnswer self.old self.new result (done (made_first self.old)) }
    {
        let dot = self.dot_of(tag);
        if dot.0 == dot.1 {
            self.drop_first();
            return Ok(self.done_quietly());
        }
        self.send_for_event(Tmesg::Tsnarf(tag, dot.0, dot.1))
    }

    /// Does a `View`: shows a file from `p` on, `n` runes and gaps at most, and composes the request that it then wants, if any.
    #[tactic(auto, using(crate::proofs::Edits::view_facts), unfolding(crate::proofs::Edits::makes_opened))]
    pub(crate) fn make_view(&mut self, tag: u16, p: u32, n: u32) -> Result<Acted, TermFault>
        requires free { free_first self.old ≡ None }
        requires first { first_event self.old.held ≡ UserEvent.View tag p n }
        ensures { IsAnswer self.old self.new result (done (made_first self.old)) }
    {
        let Some(message) = self.wanted_from(tag, p, n) else {
            self.drop_first();
            self.set_view(tag, p, n);
            return Ok(self.done_quietly());
        };
        let count = 1 + self.unsent_count();
        let mut out = self.prepare(count)?;
        self.drop_first();
        self.set_view(tag, p, n);
        self.send_prepared(message, &mut out);
        Ok(self.done_with(out))
    }

    /// Does a `SetSnarf`: composes its runes as `Tsetsnarf`.
    #[tactic(auto, using(crate::proofs::Edits::make_facts), unfolding(crate::specs::Taking::done, crate::specs::Acting::made_first))]
    pub(crate) fn make_set_snarf(&mut self) -> Result<Acted, TermFault>
        requires free { free_first self.old ≡ None }
        requires first { IsTrue (is_snarfing (first_event self.old.held)) }
        ensures { IsAnswer self.old self.new result (done (made_first self.old)) }
    {
        let count = 1 + self.unsent_count();
        let mut out = self.prepare(count)?;
        let text = self.take_snarf();
        self.send_prepared(Tmesg::Tsetsnarf(text), &mut out);
        Ok(self.done_with(out))
    }

    /// Does a `Flush`: composes the unsent runes, if there are any.
    #[tactic(auto, using(crate::proofs::Edits::held_facts), unfolding(crate::proofs::Edits::made_opened))]
    pub(crate) fn make_flush(&mut self) -> Result<Acted, TermFault>
        requires free { free_first self.old ≡ None }
        requires first { first_event self.old.held ≡ UserEvent.Flush }
        ensures { IsAnswer self.old self.new result (done (made_first self.old)) }
    {
        let batch = self.flush_now()?;
        self.drop_first();
        Ok(Acted::Done(batch))
    }

    /// Marks a file that is known as changed by the user. It takes no memory.
    #[tactic(auto, using(crate::proofs::FileSteps::file_puts), unfolding(crate::specs::Sound::FitsUnsent))]
    pub(crate) fn mark_changed(&mut self, tag: u16)
        requires { IsTrue (is_known self.old tag) }
        ensures { self.new ≡ edited self.old tag }
    {
        self.files.file_mut(tag).changed = true;
    }

    /// Composes the unsent runes, and then takes the dot of a file out of its rasp, which marks the file as changed. The caller composes
    /// the cut.
    #[tactic(auto, using(crate::proofs::Composes::flush_facts, crate::proofs::Marks::mark_facts, crate::proofs::SlotSteps::open_known))]
    pub(crate) fn cut_selected(&mut self, tag: u16, dot: (u32, u32), out: &mut Outbox)
        requires opened { IsTrue (is_open self.old tag) }
        requires dot { dot ≡ (window_at self.old tag).dot }
        requires counts { self.old.sent + length (unsent_message self.old.unsent) ≤ most_count }
        requires room { length (unsent_message self.old.unsent) ≤ out.old.room }
        ensures cut { self.new ≡ cut_rasp (flushed self.old).0 tag dot.0 dot.1 }
        ensures messages { out.new.messages ≡ out.old.messages ++ (flushed self.old).1 }
        ensures room { out.old.room ≤ out.new.room + length (unsent_message self.old.unsent) }
    {
        self.window_facts(tag);
        self.compose_unsent(out);
        self.mark_changed(tag);
        self.cut_file(tag, dot.0, dot.1 - dot.0);
    }

    /// Shows an open file from `p` on, `n` runes and gaps at most.
    #[tactic(auto, using(crate::proofs::FileSteps::file_puts), unfolding(crate::specs::Sound::FitsUnsent))]
    pub(crate) fn set_view(&mut self, tag: u16, p: u32, n: u32)
        requires opened { IsTrue (is_open self.old tag) }
        requires within { p ≤ length (window_at self.old tag).rasp }
        ensures { self.new ≡ shown_from self.old tag p n }
    {
        let window = self.files.window_mut(tag);
        window.view_start = p;
        window.view_length = n;
    }

    /// Takes the oldest event, a `SetSnarf`, out of the held ones and returns its runes.
    fn take_snarf(&mut self) -> Runes
        requires { IsTrue (is_snarfing (first_event self.old.held)) }
        ensures runes { first_event self.old.held ≡ UserEvent.SetSnarf result }
        ensures dropped { self.new ≡ record self.old { held = drop 1 self.old.held } }
    {
        let Some(event) = self.held.take_first() else {
            unreachable!()
        };
        snarf_of(event)
    }

    /// Drops the oldest held event.
    pub(crate) fn drop_first(&mut self)
        ensures { self.new ≡ record self.old { held = drop 1 self.old.held } }
    {
        let _ = self.held.take_first();
    }

    /// Returns `Done` with the messages that an event composed.
    pub(crate) fn done_with(&self, out: Outbox) -> Acted
        ensures done { result ≡ Acted.Done out.messages }
        ensures countable { self.now.sent ≤ most_count }
    {
        let _ = &self.alloc;
        Acted::Done(out.into_batch())
    }

    /// Returns `Done` with no messages. No memory is asked for.
    pub(crate) fn done_quietly(&self) -> Acted
        ensures done { result ≡ Acted.Done [] }
        ensures countable { self.now.sent ≤ most_count }
    {
        Acted::Done(Batch::from_vec(Vec::new(self.alloc)))
    }
}

/// Returns the runes of a `SetSnarf`, which is used up.
fn snarf_of(event: UserEvent) -> Runes
    requires { IsTrue (is_snarfing event) }
    ensures { event ≡ UserEvent.SetSnarf result }
{
    match event {
        UserEvent::SetSnarf(text) => text,
        _ => unreachable!(),
    }
}
