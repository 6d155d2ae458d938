//! The answers to what changes a file or the snarf buffer: cutting, pasting, snarfing and writing. A method for a kind
//! leaves the count of messages to its caller, and after an error the host is unchanged.

ghost use Rattle.std.specs.Prelude.{◌≡◌, ◌<◌, ◌≤◌, ◌+◌, ◌∷◌, [], ◌^◌, IfOk, IfErr, OnOk, OnErr, Err, Some, IsTrue, length};
ghost use Rattle.sam_host.specs.Host.{host_checks, Replies, Appends, stamped, told_paste};
ghost use Rattle.sam_runes.specs.Texts.{max_runes};
ghost use Rattle.sam_runes.specs.Checks.{first_of_checks};
ghost use Rattle.sam_mesg.specs.TerminalKinds.{fits_t};

use crate::fault::HostFault;
use crate::host::Host;
use sam_mesg::{HFrame, Hmesg, Tmesg};
use sam_runes::places::prefix_in_bytes;
use sam_runes::{Runes, snarf_limit};
use sam_text::FilesFault;

impl Host {
    /// Answers `Tcut` with no frame: takes out what stands from `p` to `q`, as the terminal has done already. The dot is then empty, at
    /// `p`, and any file but the command file is dirty. It takes no memory. Errors, in this order: `NoFile`; `NotOpen`; `BadPosition` if
    /// the text has no such range.
    #[tactic(auto, unfolding(crate::specs::Host::reply_cut))]
    pub(crate) fn cut(&mut self, tag: u16, p: u32, q: u32) -> Result<Vec<HFrame>, HostFault>
        requires { self.old.taken + 1 < 2 ^ 64 }
        ensures replied { Replies self.old (Tmesg.Tcut tag p q) result self.new }
        // It takes no memory.
        ensures memory { IfErr result (λ why. first_of_checks (host_checks self.old (Tmesg.Tcut tag p q)) ≡ Some why) }
    {
        self.wants_open(tag)?;
        self.files.delete(tag, p, q)?;
        Ok(Vec::new(self.alloc))
    }

    /// Adds the end of a paste: the dot is what was pasted, from `p` to `q`, the terminal is to look for gaps, and the file is free.
    fn end_paste(&self, frames: &mut Vec<HFrame>, tag: u16, p: u32, q: u32) -> Result<(), HostFault>
        requires count { self.now.taken + 1 < 2 ^ 64 }
        ensures ok { OnOk result (Appends self.now frames.old.items frames.new.items
            (Hmesg.Hsetdot tag p q ∷ Hmesg.Hcheck tag ∷ Hmesg.Hunlockfile tag ∷ [])) }
        ensures memory { OnErr result (result ≡ Err HostFault.OutOfMemory) }
    {
        self.say(frames, Hmesg::Hsetdot(tag, p, q))?;
        self.say(frames, Hmesg::Hcheck(tag))?;
        self.say(frames, Hmesg::Hunlockfile(tag))
    }

    /// Returns the frames for a paste of these runes at `p`, if the text has that place. They are made before the paste, since it changes
    /// the dirty mark that they go by.
    #[tactic(auto, using(crate::proofs::FrameLaws::stamped_append))]
    fn paste_frames(&self, tag: u16, p: u32, runes: &[char]) -> Result<Vec<HFrame>, HostFault>
        requires count { self.now.taken + 1 < 2 ^ 64 }
        requires limit { length runes.now ≤ max_runes }
        ensures ok { p ≤ max_runes → IfOk result
            (λ frames. frames.items ≡ stamped (self.now.taken + 1) (told_paste self.now.files tag p runes.now)) }
        ensures memory { OnErr result (result ≡ Err HostFault.OutOfMemory) }
    {
        let mut frames = Vec::new(self.alloc);
        self.grown(&mut frames, tag, p, runes)?;
        self.tell_dirty(&mut frames, tag)?;
        self.end_paste(&mut frames, tag, p, p.saturating_add(runes.len() as u32))?;
        Ok(frames)
    }

    /// Returns the frames for a paste that puts nothing in: the file is free.
    fn nothing_pasted(&self, tag: u16) -> Result<Vec<HFrame>, HostFault>
        requires { self.now.taken + 1 < 2 ^ 64 }
        ensures ok { IfOk result (λ frames. frames.items ≡ stamped (self.now.taken + 1) (Hmesg.Hunlockfile tag ∷ [])) }
        ensures memory { OnErr result (result ≡ Err HostFault.OutOfMemory) }
    {
        let mut frames = Vec::new(self.alloc);
        self.say(&mut frames, Hmesg::Hunlockfile(tag))?;
        Ok(frames)
    }

    /// Answers `Tpaste`: puts the snarf buffer in at `p`, selects it, and reports what came in to the terminal. Any file but the command
    /// file is then dirty. If the buffer is empty, or the text would have more than `MAX_RUNES` runes, nothing changes, and `Hunlockfile`
    /// is the one frame. Errors, in this order: `NoFile`; `NotOpen`; `BadPosition` if `p` is past the end; `OutOfMemory`.
    #[tactic(auto, unfolding(crate::specs::Host::reply_paste))]
    pub(crate) fn paste(&mut self, tag: u16, p: u32) -> Result<Vec<HFrame>, HostFault>
        requires { self.old.taken + 1 < 2 ^ 64 }
        ensures replied { Replies self.old (Tmesg.Tpaste tag p) result self.new }
    {
        self.wants_open(tag)?;
        if self.files.snarf_text().len() == 0 {
            self.files.wants_place(tag, p)?;
            return self.nothing_pasted(tag);
        }
        let Ok(frames) = self.paste_frames(tag, p, self.files.snarf_text().as_slice()) else {
            return Err(self.without_memory(tag, p, p));
        };
        match self.files.paste(tag, p) {
            Ok(()) => Ok(frames),
            Err(FilesFault::TooLong) => self.nothing_pasted(tag),
            Err(fault) => Err(fault.into()),
        }
    }

    /// Answers `Tsnarf`: copies what stands from `p` to `q` into the snarf buffer, and reports its length in runes. Errors, in this order:
    /// `NoFile`; `NotOpen`; `BadPosition` if the text has no such range; `OutOfMemory`.
    #[tactic(auto, using(crate::proofs::FileLaws::part_length), unfolding(crate::specs::Host::reply_snarf))]
    pub(crate) fn snarf(&mut self, tag: u16, p: u32, q: u32) -> Result<Vec<HFrame>, HostFault>
        requires { self.old.taken + 1 < 2 ^ 64 }
        ensures replied { Replies self.old (Tmesg.Tsnarf tag p q) result self.new }
    {
        self.wants_open(tag)?;
        let Ok(mut frames) = Vec::with_capacity(self.alloc, 1) else {
            return Err(self.without_memory(tag, p, q));
        };
        let len = self.files.snarf(tag, p, q)?;
        self.put(&mut frames, Hmesg::Hsnarflen(len));
        Ok(frames)
    }

    /// Answers `Tsetsnarf`: these runes become the snarf buffer, and their number is reported. The only error is `OutOfMemory`.
    #[tactic(auto, using(crate::proofs::FileLaws::snarf_short), unfolding(crate::specs::Host::reply_setsnarf))]
    pub(crate) fn set_snarf(&mut self, runes: &Runes) -> Result<Vec<HFrame>, HostFault>
        requires count { self.old.taken + 1 < 2 ^ 64 }
        requires fits { IsTrue (fits_t 2 (Tmesg.Tsetsnarf runes.now)) }
        ensures replied { Replies self.old (Tmesg.Tsetsnarf runes.now) result self.new }
    {
        let mut frames = Vec::new(self.alloc);
        self.say(&mut frames, Hmesg::Hsnarflen(runes.len() as u32))?;
        self.files.set_snarf(runes.as_slice())?;
        Ok(frames)
    }

    /// Answers `Tstartsnarf`: `Hsetsnarf` with the longest front of the snarf buffer, in whole runes, that fits in a message of the
    /// version. The only error is `OutOfMemory`.
    #[tactic(auto, unfolding(crate::specs::Host::reply_startsnarf))]
    pub(crate) fn start_snarf(&mut self) -> Result<Vec<HFrame>, HostFault>
        requires { self.old.taken + 1 < 2 ^ 64 }
        ensures replied { Replies self.old Tmesg.Tstartsnarf result self.new }
    {
        let snarf = self.files.snarf_text().as_slice();
        let len = prefix_in_bytes(snarf, snarf_limit(self.version));
        let runes = Runes::from_slice(self.alloc, &snarf[..len])?;
        let mut frames = Vec::new(self.alloc);
        self.say(&mut frames, Hmesg::Hsetsnarf(runes))?;
        Ok(frames)
    }

    /// Answers `Twrite`: a copy of the text becomes the saved copy, and the file is clean. The host touches no disk. Errors, in this
    /// order: `NoFile`; `CommandFile`; `NotOpen`; `OutOfMemory`.
    #[tactic(auto, unfolding(crate::specs::Host::reply_write))]
    pub(crate) fn write(&mut self, tag: u16) -> Result<Vec<HFrame>, HostFault>
        requires { self.old.taken + 1 < 2 ^ 64 }
        ensures replied { Replies self.old (Tmesg.Twrite tag) result self.new }
    {
        self.wants_other(tag)?;
        self.wants_open(tag)?;
        let mut frames = Vec::new(self.alloc);
        self.say(&mut frames, Hmesg::Hclean(tag))?;
        self.say(&mut frames, Hmesg::Hunlockfile(tag))?;
        self.files.write(tag)?;
        Ok(frames)
    }
}
