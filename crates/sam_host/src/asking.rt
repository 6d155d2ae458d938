//! The answers to what the terminal asks of a file: a check, a stretch of its text, the start of a line, a word, an occurrence. A method
//! for a kind leaves the count of messages to its caller, and after an error the host is unchanged.

ghost use Rattle.std.specs.Prelude.{◌≡◌, ◌<◌, ◌≤◌, ◌+◌, ◌-◌, ◌^◌, [], true, min, is_some, IfOk, IfSome, OnErr, Err, Some, length, vec_len, vec_capacity};
ghost use Rattle.sam_host.specs.Host.{Replies, Appends, told_found};
ghost use Rattle.sam_runes.specs.Texts.{lines_before, most_in_pattern};
ghost use Rattle.sam_text.specs.Files.{file_at};

use crate::fault::HostFault;
use crate::host::Host;
use sam_mesg::{HFrame, Hmesg, Tmesg};
use sam_runes::{MOST_IN_MESSAGE, MOST_IN_PATTERN, Runes};

impl Host {
    /// Answers `Tcheck` with `Hcheck`, which reaches the terminal after all that the host has said of the file. Errors, in this order:
    /// `NoFile`; `NotOpen`; `OutOfMemory`.
    #[tactic(auto, unfolding(crate::specs::Host::reply_check))]
    pub(crate) fn check(&mut self, tag: u16) -> Result<Vec<HFrame>, HostFault>
        requires { self.old.taken + 1 < 2 ^ 64 }
        ensures replied { Replies self.old (Tmesg.Tcheck tag) result self.new }
    {
        self.wants_open(tag)?;
        let mut frames = Vec::new(self.alloc);
        self.say(&mut frames, Hmesg::Hcheck(tag))?;
        Ok(frames)
    }

    /// Answers `Trequest`: `Hdata` with the runes from `p` on, at most `n` and at most `MOST_IN_MESSAGE`, and `Hunlockfile`. A request
    /// that reaches past the end gets what there is. One for a file that was closed gets no frame, since `Hclose` has freed the lock.
    /// Errors, in this order: `NoFile` if the tag was never given; `NotOpen`; `OutOfMemory`.
    #[tactic(auto, unfolding(crate::specs::Host::reply_request, crate::specs::Host::when))]
    pub(crate) fn request(&mut self, tag: u16, p: u32, n: u16) -> Result<Vec<HFrame>, HostFault>
        requires { self.old.taken + 1 < 2 ^ 64 }
        ensures replied { Replies self.old (Tmesg.Trequest tag p n) result self.new }
    {
        if self.files.tags() <= tag as usize {
            return Err(HostFault::NoFile);
        }
        let mut frames = Vec::new(self.alloc);
        if !self.files.has(tag) {
            return Ok(frames);
        }
        if !self.files.is_open(tag) {
            return Err(HostFault::NotOpen);
        }
        let len = self.text_len(tag);
        let start = p.min(len);
        let wanted = (n as u32).min(MOST_IN_MESSAGE as u32);
        let end = if p < len { (p + wanted).min(len) } else { len };
        let runes = self.part(tag, start, end)?;
        self.say(&mut frames, Hmesg::Hdata(tag, start, runes))?;
        self.say(&mut frames, Hmesg::Hunlockfile(tag))?;
        Ok(frames)
    }

    /// Returns the start of the line that stands `n` lines before the line of `p`; 0 if there are fewer.
    fn line_start_before(&self, tag: u16, p: u32, n: u32) -> u32
        requires { p ≤ length (file_at self.now.files tag).text }
        ensures { result ≡ lines_before (file_at self.now.files tag).text p n }
    {
        let Some(file) = self.files.file(tag) else {
            return 0;
        };
        file.text().lines_before(p, n)
    }

    /// Answers `Torigin`: `Horigin` with the start of the line that stands `n` lines before the line of `p`, or 0 if there are fewer, and
    /// `Hunlockfile`. Errors, in this order: `NoFile`; `NotOpen`; `BadPosition` if `p` is past the end; `OutOfMemory`.
    #[tactic(auto, unfolding(crate::specs::Host::reply_origin))]
    pub(crate) fn origin(&mut self, tag: u16, p: u32, n: u32) -> Result<Vec<HFrame>, HostFault>
        requires { self.old.taken + 1 < 2 ^ 64 }
        ensures replied { Replies self.old (Tmesg.Torigin tag p n) result self.new }
    {
        self.wants_place(tag, p)?;
        let start = self.line_start_before(tag, p, n);
        let mut frames = Vec::new(self.alloc);
        self.say(&mut frames, Hmesg::Horigin(tag, start))?;
        self.say(&mut frames, Hmesg::Hunlockfile(tag))?;
        Ok(frames)
    }

    /// Answers `Tdclick` with `Hsetdot` and `Hunlockfile`: selects the word that has `p` inside it or at an edge, or the empty range at
    /// `p`. Errors, in this order: `NoFile`; `NotOpen`; `BadPosition` if `p` is past the end; `OutOfMemory`.
    #[tactic(auto, unfolding(crate::specs::Host::reply_dclick))]
    pub(crate) fn double_click(&mut self, tag: u16, p: u32) -> Result<Vec<HFrame>, HostFault>
        requires { self.old.taken + 1 < 2 ^ 64 }
        ensures replied { Replies self.old (Tmesg.Tdclick tag p) result self.new }
    {
        self.wants_open(tag)?;
        let Ok(mut frames) = Vec::with_capacity(self.alloc, 2) else {
            return Err(self.without_memory(tag, p, p));
        };
        let (start, end) = self.files.double_click(tag, p)?;
        self.put(&mut frames, Hmesg::Hsetdot(tag, start, end));
        self.put(&mut frames, Hmesg::Hunlockfile(tag));
        Ok(frames)
    }

    /// Adds the frames for an occurrence: it is the dot, the window has to show it, the terminal is to look for gaps, and the file is free.
    /// There is room for these four.
    fn put_found(&self, frames: &mut Vec<HFrame>, tag: u16, p: u32, q: u32)
        requires count { self.now.taken + 1 < 2 ^ 64 }
        requires room { vec_len frames.old + 4 ≤ vec_capacity frames.old }
        ensures { Appends self.now frames.old.items frames.new.items (told_found tag (p, q)) }
    {
        self.put(frames, Hmesg::Hsetdot(tag, p, q));
        self.put(frames, Hmesg::Hmoveto(tag, p));
        self.put(frames, Hmesg::Hcheck(tag));
        self.put(frames, Hmesg::Hunlockfile(tag));
    }

    /// Returns room for the frames of an answer to `Tlook`, and for the pattern in one of them: what stands from `p` to `q`, if a pattern
    /// may be as long.
    fn room_for_look(&self, p: u32, q: u32) -> Result<(Vec<HFrame>, Vec<char>), HostFault>
        ensures frames { IfOk result (λ r. (r.0.items ≡ []) × (5 ≤ vec_capacity r.0)) }
        ensures pattern { IfOk result (λ r. (r.1.items ≡ []) × (min (q - p) most_in_pattern ≤ vec_capacity r.1)) }
        ensures memory { OnErr result (result ≡ Err HostFault.OutOfMemory) }
    {
        let frames = Vec::with_capacity(self.alloc, 5)?;
        let len = q.saturating_sub(p) as usize;
        let pattern = Vec::with_capacity(self.alloc, len.min(MOST_IN_PATTERN))?;
        Ok((frames, pattern))
    }

    /// Copies the pattern, for which there is room in `room`.
    fn pattern_within(&self, room: Vec<char>) -> Runes
        requires empty { room.items ≡ [] }
        requires room { IfSome self.now.files.pattern (λ lit. length lit ≤ vec_capacity room) }
        requires some { is_some self.now.files.pattern ≡ true }
        ensures { Some result ≡ self.now.files.pattern }
    {
        let mut runes = room;
        let Some(pattern) = self.files.pattern() else {
            unreachable!()
        };
        if runes.extend_from_slice(pattern.as_slice()).is_err() {
            unreachable!()
        }
        Runes::from_vec(runes)
    }

    /// Answers `Tlook`: what stands from `p` to `q` becomes the pattern, and its first occurrence from `q` on, else from the start,
    /// becomes the dot. The selected text itself counts, so there always is one. If the range is empty or has more than `MOST_IN_PATTERN`
    /// runes, nothing changes, and `Hunlockfile` is the one frame. Errors, in this order: `NoFile`; `NotOpen`; `BadPosition` if the text
    /// has no such range; `OutOfMemory`.
    #[tactic(auto, unfolding(crate::specs::Host::reply_look))]
    pub(crate) fn look(&mut self, tag: u16, p: u32, q: u32) -> Result<Vec<HFrame>, HostFault>
        requires { self.old.taken + 1 < 2 ^ 64 }
        ensures replied { Replies self.old (Tmesg.Tlook tag p q) result self.new }
    {
        self.wants_open(tag)?;
        let Ok((mut frames, pattern)) = self.room_for_look(p, q) else {
            return Err(self.without_memory(tag, p, q));
        };
        match self.files.look(tag, p, q)? {
            None => self.put(&mut frames, Hmesg::Hunlockfile(tag)),
            Some((start, end)) => {
                self.put(&mut frames, Hmesg::Hsetpat(self.pattern_within(pattern)));
                self.put_found(&mut frames, tag, start, end);
            }
        }
        Ok(frames)
    }

    /// Answers `Tsearch`: the first occurrence of the pattern from `q` on, else from the start, becomes the dot. If there is no pattern
    /// or no occurrence, nothing changes, and `Hunlockfile` is the one frame. Errors, in this order: `NoFile`; `NotOpen`; `BadPosition`
    /// if the text has no range from `p` to `q`; `OutOfMemory`.
    #[tactic(auto, unfolding(crate::specs::Host::reply_search))]
    pub(crate) fn search(&mut self, tag: u16, p: u32, q: u32) -> Result<Vec<HFrame>, HostFault>
        requires { self.old.taken + 1 < 2 ^ 64 }
        ensures replied { Replies self.old (Tmesg.Tsearch tag p q) result self.new }
    {
        self.wants_open(tag)?;
        let Ok(mut frames) = Vec::with_capacity(self.alloc, 4) else {
            return Err(self.without_memory(tag, p, q));
        };
        match self.files.search(tag, p, q)? {
            None => self.put(&mut frames, Hmesg::Hunlockfile(tag)),
            Some((start, end)) => self.put_found(&mut frames, tag, start, end),
        }
        Ok(frames)
    }
}
