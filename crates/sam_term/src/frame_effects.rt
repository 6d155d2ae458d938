//! What each frame of the host does to the terminal, once nothing stands against it. `frame_refusals` has the tests.

ghost use Rattle.std.specs.Prelude.{◌≡◌, ◌+◌, ◌<◌, ◌≤◌, [], length, IsTrue, None, false, true};
ghost use Rattle.sam_runes.specs.Slots.{free_slot};
ghost use Rattle.sam_runes.specs.Texts.{agreed, most_count, max_runes};
ghost use Rattle.sam_term.specs.Taking.{IsAnswer, countable, frame_fault};
ghost use Rattle.sam_term.specs.Term.{take_of, is_open, is_known, window_at, known_at, frame_outcome, took_bindname, took_unlockfile, took_close, took_exit, put_known};

use crate::fault::TermFault;
use crate::moving::drop_unsent;
use crate::records::{KnownFile, Window};
use crate::term::Terminal;
use sam_mesg::{Batch, HFrame, Hmesg, Tmesg};
use sam_rasp::Rasp;
use sam_runes::{Runes, agreed};

impl Terminal {
    /// Takes a frame, as `Terminal::receive` says: its stamp is tested first, then what stands against its message. The terminal is
    /// unchanged after an error.
    #[tactic(auto, unfolding(crate::specs::Term::take_of, crate::specs::Taking::countable))]
    pub(crate) fn take_frame(&mut self, frame: &HFrame) -> Result<Batch, TermFault>
        ensures { IsAnswer self.old self.new result (take_of self.old frame.now) }
    {
        if self.sent < frame.seen {
            return Err(TermFault::FromTheFuture);
        }
        match self.refusal(&frame.msg) {
            Some(why) => Err(why),
            None => self.take(&frame.msg),
        }
    }

    /// Takes a message that nothing stands against. Errors, in this order: `CountFull`; `OutOfMemory`. The terminal is then unchanged.
    #[tactic(auto, using(crate::proofs::Sounds::quiet), unfolding(crate::specs::Term::took_cut))]
    fn take(&mut self, message: &Hmesg) -> Result<Batch, TermFault>
        requires { frame_fault self.old message.now ≡ None }
        ensures { IsAnswer self.old self.new result (countable (frame_outcome self.old message.now)) }
    {
        match message {
            Hmesg::Hversion(version) => {
                self.set_version(*version);
                Ok(self.nothing())
            }
            Hmesg::Hcurrent(tag) => {
                self.current = Some(*tag);
                Ok(self.nothing())
            }
            Hmesg::Hunlock => {
                self.command_lock = false;
                Ok(self.nothing())
            }
            Hmesg::Horigin(tag, p) => {
                self.set_view_start(*tag, *p);
                Ok(self.nothing())
            }
            Hmesg::Hsetdot(tag, p, q) => {
                self.set_dot(*tag, *p, *q);
                Ok(self.nothing())
            }
            Hmesg::Hmoveto(tag, p) => {
                self.set_view_start(*tag, *p);
                Ok(self.nothing())
            }
            Hmesg::Hsetpat(pattern) => self.take_setpat(pattern),
            Hmesg::Hsetsnarf(text) => self.take_setsnarf(text),
            Hmesg::Hack => self.take_ack(),
            Hmesg::Hsnarflen(length) => {
                self.snarf_length = *length;
                Ok(self.nothing())
            }
            Hmesg::Hbindname(tag) => {
                self.open_file(*tag);
                Ok(self.nothing())
            }
            Hmesg::Hnewname(tag) => self.take_newname(*tag),
            Hmesg::Hmovname(tag, name) => self.rename_file(*tag, name),
            Hmesg::Hgrow(tag, p, n) => self.take_grow(*tag, *p, *n),
            Hmesg::Hdata(tag, p, text) => self.take_data(*tag, *p, text),
            Hmesg::Hgrowdata(tag, p, text) => self.take_growdata(*tag, *p, text),
            Hmesg::Hclean(tag) => {
                self.mark_clean(*tag);
                Ok(self.nothing())
            }
            Hmesg::Hdirty(tag) => {
                self.mark_dirty(*tag);
                Ok(self.nothing())
            }
            Hmesg::Hcut(tag, p, n) => {
                self.cut_file(*tag, *p, *n);
                Ok(self.nothing())
            }
            Hmesg::Hdelname(tag) => {
                self.drop_file(*tag);
                Ok(self.nothing())
            }
            Hmesg::Hclose(tag) => {
                self.close_file(*tag);
                Ok(self.nothing())
            }
            Hmesg::Hexit => {
                self.take_exit();
                Ok(self.nothing())
            }
            Hmesg::Hcheck(tag) => self.take_check(*tag),
            Hmesg::Hunlockfile(tag) => self.take_unlockfile(*tag),
        }
    }

    /// Returns no messages. No memory is asked for.
    fn nothing(&self) -> Batch
        ensures nothing { result ≡ [] }
        ensures countable { self.now.sent ≤ most_count }
    {
        Batch::from_vec(Vec::new(self.alloc))
    }

    /// Takes `Hsetpat`: this is the pattern now.
    #[tactic(auto, using(crate::proofs::Sounds::quiet), unfolding(crate::specs::Taking::countable))]
    fn take_setpat(&mut self, pattern: &Runes) -> Result<Batch, TermFault>
        ensures { IsAnswer self.old self.new result (countable (frame_outcome self.old (Hmesg.Hsetpat pattern.now))) }
    {
        let copy = pattern.copy(self.alloc)?;
        self.pattern = copy;
        Ok(self.nothing())
    }

    /// Takes `Hsetsnarf`: this is the snarfed text now.
    #[tactic(auto, using(crate::proofs::Sounds::quiet), unfolding(crate::specs::Taking::countable))]
    fn take_setsnarf(&mut self, text: &Runes) -> Result<Batch, TermFault>
        ensures { IsAnswer self.old self.new result (countable (frame_outcome self.old (Hmesg.Hsetsnarf text.now))) }
    {
        let copy = text.copy(self.alloc)?;
        self.snarf = copy;
        Ok(self.nothing())
    }

    /// Takes the version that both sides speak. Version 0 changes nothing.
    fn set_version(&mut self, version: u16)
        ensures { self.new ≡ record self.old { version = agreed self.old.version version } }
    {
        self.version = agreed(self.version, version);
    }

    /// Takes `Hack`: composes the unsent runes and a `Tack`, unless the session is over.
    #[tactic(auto, using(crate::proofs::Sounds::quiet))]
    fn take_ack(&mut self) -> Result<Batch, TermFault>
        ensures { IsAnswer self.old self.new result (countable (frame_outcome self.old Hmesg.Hack)) }
    {
        if self.exited {
            return Ok(self.nothing());
        }
        self.send(Tmesg::Tack)
    }

    /// Takes `Hcheck`: composes the request that the file wants, if any, with the unsent runes before it.
    #[tactic(auto, using(crate::proofs::Requests::lockable_wanted, crate::proofs::Sounds::quiet), unfolding(crate::specs::Term::requested))]
    fn take_check(&mut self, tag: u16) -> Result<Batch, TermFault>
        ensures { IsAnswer self.old self.new result (countable (frame_outcome self.old (Hmesg.Hcheck tag))) }
    {
        match self.wanted(tag) {
            Some(message) => self.send(message),
            None => Ok(self.nothing()),
        }
    }

    /// Takes `Hunlockfile`: frees one lock of the file, and composes the request that it wants, if any, with the unsent runes before it.
    /// Count and memory are tested before the lock is freed.
    #[tactic(auto, using(crate::proofs::Requests::unlock_facts), unfolding(crate::specs::Taking::countable))]
    fn take_unlockfile(&mut self, tag: u16) -> Result<Batch, TermFault>
        requires opened { IsTrue (is_open self.old tag) }
        requires locked { 0 < (window_at self.old tag).locks }
        ensures { IsAnswer self.old self.new result (countable (frame_outcome self.old (Hmesg.Hunlockfile tag))) }
    {
        let Some(message) = self.wanted(tag) else {
            self.free_lock(tag);
            return Ok(self.nothing());
        };
        let count = 1 + self.unsent_count();
        let mut out = self.prepare(count)?;
        self.free_lock(tag);
        self.send_prepared(message, &mut out);
        Ok(out.into_batch())
    }

    /// Frees one lock of a file, which is open and has one.
    fn free_lock(&mut self, tag: u16)
        requires opened { IsTrue (is_open self.old tag) }
        requires locked { 0 < (window_at self.old tag).locks }
        ensures { self.new ≡ took_unlockfile self.old tag }
    {
        let window = self.files.window_mut(tag);
        window.locks -= 1;
        self.file_locks -= 1;
    }

    /// Takes `Hbindname`: opens a file that is known, with an empty rasp.
    #[tactic(auto, using(crate::proofs::FileSteps::file_puts), unfolding(crate::proofs::FileSteps::unsent_opened))]
    fn open_file(&mut self, tag: u16)
        requires known { IsTrue (is_known self.old tag) }
        requires shut { is_open self.old tag ≡ false }
        ensures { self.new ≡ took_bindname self.old tag }
    {
        let window = Window {
            rasp: Rasp::new(self.alloc),
            dot: (0, 0),
            view_start: 0,
            view_length: 0,
            locks: 0,
            awaited: 0,
        };
        self.files.file_mut(tag).window = Some(window);
    }

    /// Takes `Hnewname`: makes the tag known, as a file that has no name yet and is not open.
    #[tactic(auto, using(crate::proofs::FileSteps::file_puts), unfolding(crate::specs::Sound::FitsUnsent, crate::specs::Taking::countable))]
    fn take_newname(&mut self, tag: u16) -> Result<Batch, TermFault>
        requires { is_known self.old tag ≡ false }
        ensures { IsAnswer self.old self.new result (countable (frame_outcome self.old (Hmesg.Hnewname tag))) }
    {
        let file = KnownFile {
            name: Runes::from_vec(Vec::new(self.alloc)),
            dirty: false,
            changed: false,
            window: None,
        };
        self.files.put_new(tag, file)?;
        Ok(self.nothing())
    }

    /// Takes `Hmovname`: gives a file that is known another name.
    #[tactic(auto, using(crate::proofs::FileSteps::file_puts), unfolding(crate::specs::Sound::FitsUnsent, crate::specs::Taking::countable))]
    fn rename_file(&mut self, tag: u16, name: &Runes) -> Result<Batch, TermFault>
        requires { IsTrue (is_known self.old tag) }
        ensures { IsAnswer self.old self.new result (countable (frame_outcome self.old (Hmesg.Hmovname tag name.now))) }
    {
        let copy = name.copy(self.alloc)?;
        self.files.file_mut(tag).name = copy;
        Ok(self.nothing())
    }

    /// Takes `Hdirty`: marks a file that is known as dirty. Whether the user changed it here stays as it is.
    #[tactic(auto, using(crate::proofs::FileSteps::file_puts), unfolding(crate::specs::Sound::FitsUnsent))]
    fn mark_dirty(&mut self, tag: u16)
        requires { IsTrue (is_known self.old tag) }
        ensures { self.new ≡ put_known self.old tag (record (known_at self.old tag) { dirty = true }) }
    {
        self.files.file_mut(tag).dirty = true;
    }

    /// Takes `Hclean`: a file that is known was written, so it is neither dirty nor changed here any more.
    #[tactic(auto, using(crate::proofs::FileSteps::file_puts), unfolding(crate::specs::Sound::FitsUnsent))]
    fn mark_clean(&mut self, tag: u16)
        requires { IsTrue (is_known self.old tag) }
        ensures { self.new ≡ put_known self.old tag (record (known_at self.old tag) { dirty = false; changed = false }) }
    {
        let file = self.files.file_mut(tag);
        file.dirty = false;
        file.changed = false;
    }

    /// Takes `Hdelname`: drops a file that is not open, whose tag is not known afterwards.
    #[tactic(auto, using(crate::proofs::FileSteps::file_puts), unfolding(crate::specs::Sound::FitsUnsent))]
    fn drop_file(&mut self, tag: u16)
        requires known { IsTrue (is_known self.old tag) }
        requires shut { is_open self.old tag ≡ false }
        ensures { self.new ≡ record self.old { files = free_slot self.old.files tag } }
    {
        let _ = self.files.take_known(tag);
    }

    /// Takes `Hgrow`: puts `n` gaps into the rasp at `p`.
    #[tactic(auto, unfolding(crate::specs::Term::took_grow, crate::specs::Taking::countable))]
    fn take_grow(&mut self, tag: u16, p: u32, n: u32) -> Result<Batch, TermFault>
        requires opened { IsTrue (is_open self.old tag) }
        requires place { p ≤ length (window_at self.old tag).rasp }
        requires size { length (window_at self.old tag).rasp + n ≤ max_runes }
        ensures { IsAnswer self.old self.new result (countable (frame_outcome self.old (Hmesg.Hgrow tag p n))) }
    {
        self.facts();
        if self.grow_file(tag, p, n).is_err() {
            return Err(TermFault::OutOfMemory);
        }
        Ok(self.nothing())
    }

    /// Takes `Hdata`: loads runes into places that are there.
    #[tactic(auto, unfolding(crate::specs::Term::took_data, crate::specs::Taking::countable))]
    fn take_data(&mut self, tag: u16, p: u32, text: &Runes) -> Result<Batch, TermFault>
        requires opened { IsTrue (is_open self.old tag) }
        requires place { p + length text.now ≤ length (window_at self.old tag).rasp }
        ensures { IsAnswer self.old self.new result (countable (frame_outcome self.old (Hmesg.Hdata tag p text.now))) }
    {
        self.facts();
        if self.load_file(tag, p, text.as_slice()).is_err() {
            return Err(TermFault::OutOfMemory);
        }
        Ok(self.nothing())
    }

    /// Takes `Hgrowdata`: puts runes into the rasp at `p`.
    #[tactic(auto, unfolding(crate::specs::Term::took_growdata, crate::specs::Taking::countable))]
    fn take_growdata(&mut self, tag: u16, p: u32, text: &Runes) -> Result<Batch, TermFault>
        requires opened { IsTrue (is_open self.old tag) }
        requires place { p ≤ length (window_at self.old tag).rasp }
        requires size { length (window_at self.old tag).rasp + length text.now ≤ max_runes }
        ensures { IsAnswer self.old self.new result (countable (frame_outcome self.old (Hmesg.Hgrowdata tag p text.now))) }
    {
        self.facts();
        if self.fill_file(tag, p, text.as_slice()).is_err() {
            return Err(TermFault::OutOfMemory);
        }
        Ok(self.nothing())
    }

    /// Takes `Hclose`: drops the window of a file with its locks, and what was typed into it and is unsent.
    #[tactic(auto, using(crate::proofs::FileSteps::lock_freed), unfolding(crate::proofs::FileSteps::unsent_opened))]
    fn close_file(&mut self, tag: u16)
        requires { IsTrue (is_known self.old tag) }
        ensures { self.new ≡ took_close self.old tag }
    {
        self.file_locks -= self.locks(tag);
        self.files.file_mut(tag).window = None;
        drop_unsent(&mut self.unsent, tag);
    }

    /// Takes `Hexit`: the session is over, every lock is free and nothing is awaited.
    #[tactic(auto, using(crate::proofs::FileSteps::exit_facts), unfolding(crate::specs::Sound::FitsUnsent, crate::specs::Term::took_exit))]
    fn take_exit(&mut self)
        ensures { self.new ≡ took_exit self.old }
    {
        self.exited = true;
        self.command_lock = false;
        self.file_locks = 0;
        self.files.free_all();
    }
}
