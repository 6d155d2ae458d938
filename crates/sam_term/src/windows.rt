//! The methods of `Terminal` that read or change the window of one file. The list in `known_files` lends the window, and
//! `moving` changes it; as runes or gaps come or go, the place of the unsent runes moves along. `records` has the records, and
//! `known_files` knows only the list.

ghost use Rattle.std.specs.Prelude.{◌≡◌, ◌+◌, ◌-◌, ◌≤◌, length, OnErr, OnOk, IsTrue, Some, None, map, replicate};
ghost use Rattle.sam_runes.specs.Texts.{max_runes};
ghost use Rattle.sam_term.specs.Sound.{FitsWindow};
ghost use Rattle.sam_term.specs.Term.{is_open, is_known, window_at, set_view_start, set_dot_of, took_data, ins_rasp, del_rasp};

use crate::moving::{cut_window, fill_window, grow_window, load_window, move_by_del, move_by_ins};
use crate::term::Terminal;
use sam_runes::MAX_RUNES;
use std::alloc::AllocError;

impl Terminal {
    pub(crate) fn knows(&self, tag: u16) -> bool
        ensures { result ≡ is_known self.now tag }
    {
        self.files.known(tag).is_some()
    }

    pub(crate) fn has_open(&self, tag: u16) -> bool
        ensures { result ≡ is_open self.now tag }
    {
        self.files.window(tag).is_some()
    }

    /// Returns how many runes and gaps the rasp of the file has; 0 if it is not open.
    pub(crate) fn rasp_len(&self, tag: u16) -> usize
        ensures { result ≡ length (window_at self.now tag).rasp }
    {
        match self.files.window(tag) {
            Some(window) => window.rasp.len() as usize,
            None => 0,
        }
    }

    /// Returns how many locks of a file are held, the command lock aside; 0 if it is not open.
    pub fn locks(&self, tag: u16) -> u64
        ensures { result ≡ (window_at self.now tag).locks }
    {
        match self.files.window(tag) {
            Some(window) => window.locks,
            None => 0,
        }
    }

    /// Returns the dot of a file; (0, 0) if it is not open.
    pub(crate) fn dot_of(&self, tag: u16) -> (u32, u32)
        ensures { result ≡ (window_at self.now tag).dot }
    {
        match self.files.window(tag) {
            Some(window) => window.dot,
            None => (0, 0),
        }
    }

    /// Returns the place where the view of a file begins; 0 if it is not open.
    pub(crate) fn view_start(&self, tag: u16) -> u32
        ensures { result ≡ (window_at self.now tag).view_start }
    {
        match self.files.window(tag) {
            Some(window) => window.view_start,
            None => 0,
        }
    }

    /// States what is true of each window: dot and view lie within the rasp, which has at most `MAX_RUNES` runes and gaps, and it has no
    /// more locks, nor awaits more requests, than messages were composed. It does nothing when the program runs.
    pub(crate) fn window_facts(&self, tag: u16)
        ensures { FitsWindow self.now.sent (window_at self.now tag) }
    {
        let _ = &self.alloc;
    }

    /// Returns the most runes that may be typed in the place of a file's dot. The file then has `MAX_RUNES`.
    pub(crate) fn room_beside_dot(&self, tag: u16) -> usize
        ensures room { result + length (window_at self.now tag).rasp
            ≡ max_runes + ((window_at self.now tag).dot.1 - (window_at self.now tag).dot.0) }
        ensures within { (window_at self.now tag).dot.1 - (window_at self.now tag).dot.0 ≤ length (window_at self.now tag).rasp }
    {
        self.window_facts(tag);
        let dot = self.dot_of(tag);
        MAX_RUNES as usize - self.rasp_len(tag) + (dot.1 - dot.0) as usize
    }

    /// Returns how many more runes a file may have once what stands from `p` to `q` is gone. If `q` is less than `p`, nothing goes.
    pub(crate) fn room_beside(&self, tag: u16, p: u32, q: u32) -> usize
        ensures { result + (length (window_at self.now tag).rasp - (q - p)) ≡ max_runes }
    {
        self.window_facts(tag);
        let left = self
            .rasp_len(tag)
            .saturating_sub(q.saturating_sub(p) as usize);
        MAX_RUNES as usize - left
    }

    /// Has the view of an open file begin at `p`.
    #[tactic(auto, using(crate::proofs::FileSteps::file_puts), unfolding(crate::specs::Sound::FitsUnsent))]
    pub(crate) fn set_view_start(&mut self, tag: u16, p: u32)
        requires opened { IsTrue (is_open self.old tag) }
        requires within { p ≤ length (window_at self.old tag).rasp }
        ensures { self.new ≡ set_view_start self.old tag p }
    {
        self.files.window_mut(tag).view_start = p;
    }

    /// Sets the dot of an open file, from `p` to `q`.
    #[tactic(auto, using(crate::proofs::FileSteps::file_puts), unfolding(crate::specs::Sound::FitsUnsent))]
    pub(crate) fn set_dot(&mut self, tag: u16, p: u32, q: u32)
        requires opened { IsTrue (is_open self.old tag) }
        requires ordered { p ≤ q }
        requires within { q ≤ length (window_at self.old tag).rasp }
        ensures { self.new ≡ set_dot_of self.old tag (p, q) }
    {
        self.files.window_mut(tag).dot = (p, q);
    }

    /// Puts `n` gaps into the rasp of an open file at `p`; dot, view and unsent runes move along. The only error is out of memory, and
    /// the terminal is then unchanged.
    #[tactic(auto, using(crate::proofs::FileSteps::changed_facts), unfolding(crate::proofs::FileSteps::unsent_opened))]
    pub(crate) fn grow_file(&mut self, tag: u16, p: u32, n: u32) -> Result<(), AllocError>
        requires opened { IsTrue (is_open self.old tag) }
        requires place { p ≤ length (window_at self.old tag).rasp }
        requires size { length (window_at self.old tag).rasp + n ≤ max_runes }
        ensures ok { OnOk result (self.new ≡ ins_rasp self.old tag p (replicate n None)) }
        ensures err { OnErr result (self.new ≡ self.old) }
    {
        grow_window(self.files.window_mut(tag), p, n)?;
        move_by_ins(&mut self.unsent, tag, p, n);
        Ok(())
    }

    /// Puts runes into the rasp of an open file at `p`; dot, view and unsent runes move along. The only error is out of memory, and the
    /// terminal is then unchanged.
    #[tactic(auto, using(crate::proofs::FileSteps::changed_facts), unfolding(crate::proofs::FileSteps::unsent_opened))]
    pub(crate) fn fill_file(&mut self, tag: u16, p: u32, runes: &[char]) -> Result<(), AllocError>
        requires opened { IsTrue (is_open self.old tag) }
        requires place { p ≤ length (window_at self.old tag).rasp }
        requires size { length (window_at self.old tag).rasp + length runes.now ≤ max_runes }
        ensures ok { OnOk result (self.new ≡ ins_rasp self.old tag p (map Some runes.now)) }
        ensures err { OnErr result (self.new ≡ self.old) }
    {
        fill_window(self.files.window_mut(tag), p, runes)?;
        move_by_ins(&mut self.unsent, tag, p, runes.len() as u32);
        Ok(())
    }

    /// Loads runes into the places of an open file from `p` on, whatever stood there. The file awaits one request less, and no place moves.
    /// The only error is out of memory, and the terminal is then unchanged.
    #[tactic(auto, using(crate::proofs::FileSteps::changed_facts), unfolding(crate::proofs::FileSteps::unsent_opened))]
    pub(crate) fn load_file(&mut self, tag: u16, p: u32, runes: &[char]) -> Result<(), AllocError>
        requires opened { IsTrue (is_open self.old tag) }
        requires place { p + length runes.now ≤ length (window_at self.old tag).rasp }
        ensures ok { OnOk result (self.new ≡ took_data self.old tag p runes.now) }
        ensures err { OnErr result (self.new ≡ self.old) }
    {
        load_window(self.files.window_mut(tag), p, runes)?;
        Ok(())
    }

    /// Takes the `n` runes and gaps from `p` on out of the rasp of an open file; dot, view and unsent runes move along. It takes no
    /// memory.
    #[tactic(auto, using(crate::proofs::FileSteps::changed_facts), unfolding(crate::proofs::FileSteps::unsent_opened))]
    pub(crate) fn cut_file(&mut self, tag: u16, p: u32, n: u32)
        requires opened { IsTrue (is_open self.old tag) }
        requires place { p + n ≤ length (window_at self.old tag).rasp }
        ensures { self.new ≡ del_rasp self.old tag p (p + n) }
    {
        cut_window(self.files.window_mut(tag), p, n);
        move_by_del(&mut self.unsent, tag, p, n);
    }
}
