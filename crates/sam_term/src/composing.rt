//! Composing messages: each is counted and takes its lock, and the unsent runes go first. It also finds the request that a file wants.

ghost use Rattle.std.specs.Prelude.{◌≡◌, ◌⊎◌, ◌++◌, ◌∷◌, ◌+◌, ◌<◌, ◌≤◌, [], length, min, IfOk, IfErr, IsOk, OnOk, IsTrue};
ghost use Rattle.sam_rasp.specs.Rasp.{hole_within};
ghost use Rattle.sam_runes.specs.Texts.{most_count};
ghost use Rattle.sam_term.specs.Editing.{shown_from};
ghost use Rattle.sam_term.specs.Locking.{is_lockable, lock_added};
ghost use Rattle.sam_term.specs.Events.{lock_of};
ghost use Rattle.sam_term.specs.Taking.{IsAnswer, countable};
ghost use Rattle.sam_term.specs.Term.{flush_of, is_open, window_at, composed, unsent_message, flushed, sends, unchanged, wanted, view_end, request_for};

use crate::event::lock_of;
use crate::fault::TermFault;
use crate::loading::first_stretch;
use crate::lock::{Lock, is_request};
use crate::outbox::Outbox;
use crate::records::Window;
use crate::term::Terminal;
use sam_mesg::{Batch, Tmesg};

impl Terminal {
    /// Composes the unsent runes, if there are any. Errors, in this order: `CountFull`; `OutOfMemory`. The terminal is then unchanged.
    #[tactic(auto, using(crate::proofs::Composes::flush_facts), unfolding(crate::specs::Term::flush_of, crate::specs::Taking::countable))]
    pub(crate) fn flush_now(&mut self) -> Result<Batch, TermFault>
        ensures { IsAnswer self.old self.new result (flush_of self.old) }
    {
        let mut out = self.prepare(self.unsent_count())?;
        self.compose_unsent(&mut out);
        Ok(out.into_batch())
    }

    /// Counts a message and takes its lock. `asks` says that it is a request, so that its file awaits one more.
    fn take_lock(&mut self, lock: Lock, asks: bool)
        requires counts { self.old.sent < most_count }
        requires opened { IsTrue (is_lockable self.old lock) }
        ensures { self.new ≡ lock_added lock asks self.old }
    {
        match lock {
            Lock::NoLock => self.sent += 1,
            Lock::CommandLock => {
                self.sent += 1;
                self.command_lock = true;
            }
            Lock::FileLock(tag) => self.lock_file(tag, asks),
        }
    }

    /// Counts a message and takes a lock of an open file. `asks` says that it is a request.
    #[tactic(auto, using(crate::proofs::FileSteps::file_puts), unfolding(crate::specs::Sound::FitsUnsent))]
    fn lock_file(&mut self, tag: u16, asks: bool)
        requires counts { self.old.sent < most_count }
        requires opened { IsTrue (is_open self.old tag) }
        ensures { self.new ≡ lock_added (Lock.FileLock tag) asks self.old }
    {
        let window = self.files.window_mut(tag);
        window.locks += 1;
        if asks {
            window.awaited += 1;
        }
        self.file_locks += 1;
        self.sent += 1;
    }

    /// Composes a message: it is counted, takes its lock, and goes after the others of the outbox. The caller makes sure of all that
    /// could stand against it, so it cannot fail.
    #[tactic(auto, using(crate::proofs::Composes::composed_by))]
    pub(crate) fn compose(&mut self, message: Tmesg, out: &mut Outbox)
        requires counts { self.old.sent < most_count }
        requires opened { IsTrue (is_lockable self.old (lock_of message)) }
        requires room { 0 < out.old.room }
        ensures composed { self.new ≡ composed self.old message }
        ensures messages { out.new.messages ≡ out.old.messages ++ message ∷ [] }
        ensures room { out.old.room ≤ out.new.room + 1 }
    {
        self.take_lock(lock_of(&message), is_request(&message));
        out.put(message);
    }

    /// Returns how many messages the unsent runes make: 1, or 0 if there are none.
    pub(crate) fn unsent_count(&self) -> usize
        ensures { result ≡ length (unsent_message self.now.unsent) }
    {
        if self.unsent.is_some() { 1 } else { 0 }
    }

    /// Composes the unsent runes, if there are any. Nothing is unsent afterwards.
    #[tactic(auto, unfolding(crate::specs::Sound::FitsUnsent, crate::specs::Sound::IsShort, crate::specs::Term::flushed))]
    pub(crate) fn compose_unsent(&mut self, out: &mut Outbox)
        requires counts { self.old.sent + length (unsent_message self.old.unsent) ≤ most_count }
        requires room { length (unsent_message self.old.unsent) ≤ out.old.room }
        ensures flushed { self.new ≡ (flushed self.old).0 }
        ensures messages { out.new.messages ≡ out.old.messages ++ (flushed self.old).1 }
        ensures room { out.old.room ≤ out.new.room + length (unsent_message self.old.unsent) }
    {
        if let Some(unsent) = self.unsent.take() {
            self.compose(Tmesg::Ttype(unsent.file, unsent.place, unsent.runes), out);
        }
    }

    /// Composes the unsent runes and then the message. Errors, in this order: `CountFull`; `OutOfMemory`. The terminal is then unchanged.
    #[tactic(auto, using(crate::proofs::Composes::flush_facts), unfolding(crate::specs::Taking::countable))]
    pub(crate) fn send(&mut self, message: Tmesg) -> Result<Batch, TermFault>
        requires opened { IsTrue (is_lockable self.old (lock_of message)) }
        ensures { IsAnswer self.old self.new result (countable (sends self.old unchanged (message ∷ []))) }
    {
        let count = 1 + self.unsent_count();
        let mut out = self.prepare(count)?;
        self.send_prepared(message, &mut out);
        Ok(out.into_batch())
    }

    /// Makes an outbox with room for `count` messages, after a test that so many more can be counted. It comes before the first change of
    /// a call, and asks for no memory if `count` is 0. Errors, in this order: `CountFull`; `OutOfMemory`.
    pub(crate) fn prepare(&self, count: usize) -> Result<Outbox, TermFault>
        ensures ok { IfOk result (λ out. out ≡ record { messages = []; room = count }) }
        ensures counts { OnOk result (self.now.sent + count ≤ most_count) }
        ensures full { IfErr result (λ why. ((why ≡ TermFault.OutOfMemory) × (self.now.sent + count ≤ most_count))
            ⊎ ((why ≡ TermFault.CountFull) × (most_count < self.now.sent + count))) }
        ensures nothing { count ≡ 0 → IsOk result }
    {
        if u64::MAX - self.sent < count as u64 {
            return Err(TermFault::CountFull);
        }
        let out = Outbox::with_room(self.alloc, count)?;
        Ok(out)
    }

    /// Composes the unsent runes and then the message into an outbox that has room for both.
    #[tactic(auto, using(crate::proofs::Composes::flush_facts, std::proofs::Common::append_assoc))]
    pub(crate) fn send_prepared(&mut self, message: Tmesg, out: &mut Outbox)
        requires counts { self.old.sent + length (unsent_message self.old.unsent) < most_count }
        requires opened { IsTrue (is_lockable self.old (lock_of message)) }
        requires room { length (unsent_message self.old.unsent) < out.old.room }
        ensures sent { self.new ≡ (sends self.old unchanged (message ∷ [])).0 }
        ensures messages { out.new.messages ≡ out.old.messages ++ (sends self.old unchanged (message ∷ [])).1 }
    {
        self.compose_unsent(out);
        self.compose(message, out);
    }

    /// Returns the request that a file wants: for the first stretch of gaps in its view, at most `MOST_IN_MESSAGE` of them. `None` if
    /// there is no gap, the file is not open, the session is over, or a request is awaited already. The cost is that of
    /// `Rasp::first_hole`.
    #[tactic(auto, using(crate::proofs::Requests::shown_same))]
    pub(crate) fn wanted(&self, tag: u16) -> Option<Tmesg>
        ensures { result ≡ wanted self.now tag }
    {
        self.window_facts(tag);
        match self.files.window(tag) {
            Some(window) => self.wanted_from(tag, window.view_start, window.view_length),
            None => None,
        }
    }

    /// Returns the request that an open file will want once it is shown from `p` on, `n` runes and gaps at most. Its view is still the
    /// old one.
    #[tactic(auto, using(crate::proofs::Edits::or_right, crate::proofs::Composes::put_facts))]
    pub(crate) fn wanted_from(&self, tag: u16, p: u32, n: u32) -> Option<Tmesg>
        requires opened { IsTrue (is_open self.now tag) }
        requires within { p ≤ length (window_at self.now tag).rasp }
        ensures { result ≡ wanted (shown_from self.now tag p n) tag }
    {
        let Some(window) = self.files.window(tag) else {
            unreachable!()
        };
        if self.exited || 0 < window.awaited {
            return None;
        }
        request_from(window, tag, p, n)
    }
}

/// Returns the request for the first stretch of gaps from `p` on, among `n` runes and gaps, if there is one.
fn request_from(window: &Window, tag: u16, p: u32, n: u32) -> Option<Tmesg>
    requires { p ≤ length window.now.rasp }
    ensures { result ≡ request_for tag (hole_within window.now.rasp p (min (p + n) (length window.now.rasp))) }
{
    let end = p + n.min(window.rasp.len() - p);
    let (start, asked) = first_stretch(&window.rasp, p, end)?;
    Some(Tmesg::Trequest(tag, start, asked))
}

/// Returns the place where the view of a window ends: its start plus the wished length, or the end of the rasp if that comes first.
pub fn end_of_view(window: &Window) -> u32
    requires { window.now.view_start ≤ length window.now.rasp }
    ensures { result ≡ view_end window.now }
{
    let left = window.rasp.len() - window.view_start;
    window.view_start + window.view_length.min(left)
}
