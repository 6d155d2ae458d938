//! The frames that several answers share. Each function adds its frames to those of the answer, stamped with the count that the message
//! will have. The only error of each is `OutOfMemory`, and the caller then drops the frames.

ghost use Rattle.std.specs.Prelude.{◌≡◌, ◌<◌, ◌≤◌, ◌+◌, ◌++◌, ◌∷◌, [], ◌^◌, OnOk, OnErr, Ok, Err, length, vec_len, vec_capacity};
ghost use Rattle.sam_host.specs.Host.{Appends, grown, told_dirty, told_length, printed, told_at};
ghost use Rattle.sam_host.specs.Typing.{printed_at};
ghost use Rattle.sam_runes.specs.Texts.{max_runes};
ghost use Rattle.sam_runes.specs.Slots.{slot};
ghost use Rattle.sam_text.specs.Files.{file_at};

use crate::fault::HostFault;
use crate::host::Host;
use sam_mesg::{HFrame, Hmesg};
use sam_runes::{MAX_RUNES, MOST_IN_MESSAGE, Runes};

impl Host {
    /// Adds one frame of the message that is being answered.
    pub(crate) fn say(&self, frames: &mut Vec<HFrame>, msg: Hmesg) -> Result<(), HostFault>
        requires { self.now.taken + 1 < 2 ^ 64 }
        ensures ok { OnOk result (frames.new.items ≡ frames.old.items ++ record { seen = self.now.taken + 1; msg = msg } ∷ []) }
        ensures memory { OnErr result (result ≡ Err HostFault.OutOfMemory) }
        // Where the frames have room for one more, it takes no memory.
        ensures room { vec_len frames.old < vec_capacity frames.old → result ≡ Ok tt }
    {
        let seen = self.taken + 1;
        frames.push(HFrame { seen, msg })?;
        Ok(())
    }

    /// Adds one frame for which there is room already, so that no memory is asked for.
    pub(crate) fn put(&self, frames: &mut Vec<HFrame>, msg: Hmesg)
        requires count { self.now.taken + 1 < 2 ^ 64 }
        requires room { vec_len frames.old < vec_capacity frames.old }
        ensures frames { Appends self.now frames.old.items frames.new.items (msg ∷ []) }
        ensures room { vec_capacity frames.old ≤ vec_capacity frames.new }
    {
        let seen = self.taken + 1;
        if frames.push(HFrame { seen, msg }).is_err() {
            unreachable!()
        }
    }

    /// Adds the frame for `runes` that come in at `p`: `Hgrowdata` with the runes if there are at most `MOST_IN_MESSAGE`, else `Hgrow` with
    /// their number alone. Nothing is added if the file is not open or there are no runes.
    #[tactic(auto, unfolding(crate::specs::Host::grown, crate::specs::Host::when))]
    pub(crate) fn grown(
        &self,
        frames: &mut Vec<HFrame>,
        tag: u16,
        p: u32,
        runes: &[char],
    ) -> Result<(), HostFault>
        requires count { self.now.taken + 1 < 2 ^ 64 }
        requires limit { length runes.now ≤ max_runes }
        ensures ok { OnOk result (Appends self.now frames.old.items frames.new.items (grown self.now.files tag p runes.now)) }
        ensures memory { OnErr result (result ≡ Err HostFault.OutOfMemory) }
    {
        if !self.files.is_open(tag) || runes.is_empty() {
            return Ok(());
        }
        if runes.len() > MOST_IN_MESSAGE {
            return self.say(frames, Hmesg::Hgrow(tag, p, runes.len() as u32));
        }
        let copy = Runes::from_slice(self.alloc, runes)?;
        self.say(frames, Hmesg::Hgrowdata(tag, p, copy))
    }

    /// Adds what `grown` adds, and puts the runes themselves in the frame, so that no memory is asked for a copy of them. They are dropped
    /// if the frame doesn't carry them.
    #[tactic(auto, unfolding(crate::specs::Host::grown, crate::specs::Host::when))]
    pub(crate) fn grown_with(
        &self,
        frames: &mut Vec<HFrame>,
        tag: u16,
        p: u32,
        runes: Runes,
    ) -> Result<(), HostFault>
        requires count { self.now.taken + 1 < 2 ^ 64 }
        requires limit { length runes ≤ max_runes }
        ensures ok { OnOk result (Appends self.now frames.old.items frames.new.items (grown self.now.files tag p runes)) }
        ensures memory { OnErr result (result ≡ Err HostFault.OutOfMemory) }
        // Where the frames have room for one more, it takes no memory.
        ensures room { vec_len frames.old < vec_capacity frames.old → result ≡ Ok tt }
    {
        let len = runes.len();
        if !self.files.is_open(tag) || len == 0 {
            return Ok(());
        }
        if len > MOST_IN_MESSAGE {
            return self.say(frames, Hmesg::Hgrow(tag, p, len as u32));
        }
        self.say(frames, Hmesg::Hgrowdata(tag, p, runes))
    }

    /// Adds `Hdirty` if the file was clean and is not the command file.
    #[tactic(auto, unfolding(crate::specs::Host::when))]
    pub(crate) fn tell_dirty(&self, frames: &mut Vec<HFrame>, tag: u16) -> Result<(), HostFault>
        requires count { self.now.taken + 1 < 2 ^ 64 }
        ensures ok { OnOk result (Appends self.now frames.old.items frames.new.items (told_dirty self.now.files tag)) }
        ensures memory { OnErr result (result ≡ Err HostFault.OutOfMemory) }
    {
        if self.files.is_dirty(tag) || tag == 0 {
            return Ok(());
        }
        self.say(frames, Hmesg::Hdirty(tag))
    }

    /// Adds `Hgrow` by the length of a file that is being opened; nothing if it is empty.
    #[tactic(auto, unfolding(crate::specs::Host::told_length, crate::specs::Host::when))]
    pub(crate) fn tell_length(&self, frames: &mut Vec<HFrame>, tag: u16) -> Result<(), HostFault>
        requires count { self.now.taken + 1 < 2 ^ 64 }
        ensures ok { OnOk result (Appends self.now frames.old.items frames.new.items (told_length tag (file_at self.now.files tag))) }
        ensures memory { OnErr result (result ≡ Err HostFault.OutOfMemory) }
    {
        let len = self.text_len(tag);
        if len == 0 {
            return Ok(());
        }
        self.say(frames, Hmesg::Hgrow(tag, 0, len))
    }

    /// Adds the end of a print: the command file's dot is empty at its new end, and the terminal is to look for gaps.
    fn end_print(&self, frames: &mut Vec<HFrame>, end: u32) -> Result<(), HostFault>
        requires count { self.now.taken + 1 < 2 ^ 64 }
        ensures ok { OnOk result (Appends self.now frames.old.items frames.new.items (Hmesg.Hsetdot 0 end end ∷ Hmesg.Hcheck 0 ∷ [])) }
        ensures memory { OnErr result (result ≡ Err HostFault.OutOfMemory) }
    {
        self.say(frames, Hmesg::Hsetdot(0, end, end))?;
        self.say(frames, Hmesg::Hcheck(0))
    }

    /// Adds what is about to be printed at the end of the command file, whose text has `len` runes by then. Nothing is added if there are
    /// no runes, if the command file has no room for them, or if it is not open.
    #[tactic(auto, using(crate::proofs::FrameLaws::told_both), unfolding(crate::specs::Typing::printed_at, crate::specs::Host::when))]
    pub(crate) fn tell_print_at(
        &self,
        frames: &mut Vec<HFrame>,
        len: u32,
        runes: &[char],
    ) -> Result<(), HostFault>
        requires count { self.now.taken + 1 < 2 ^ 64 }
        requires len { len ≤ max_runes }
        ensures ok { OnOk result (Appends self.now frames.old.items frames.new.items (printed_at self.now.files len runes.now)) }
        ensures memory { OnErr result (result ≡ Err HostFault.OutOfMemory) }
    {
        if runes.len() == 0 || runes.len() > (MAX_RUNES - len) as usize {
            return Ok(());
        }
        if !self.files.is_open(0) {
            return Ok(());
        }
        self.grown(frames, 0, len, runes)?;
        self.end_print(frames, len + runes.len() as u32)
    }

    /// Adds what is about to be printed at the end of the command file as it is. Nothing is added if there are no runes, if the command
    /// file has no room for them, or if it is not open.
    #[tactic(auto, unfolding(crate::specs::Typing::printed_at, crate::specs::Host::printed))]
    pub(crate) fn tell_print(
        &self,
        frames: &mut Vec<HFrame>,
        runes: &[char],
    ) -> Result<(), HostFault>
        requires count { self.now.taken + 1 < 2 ^ 64 }
        ensures ok { OnOk result (Appends self.now frames.old.items frames.new.items (printed self.now.files runes.now)) }
        ensures memory { OnErr result (result ≡ Err HostFault.OutOfMemory) }
    {
        self.tell_print_at(frames, self.text_len(0), runes)
    }

    /// Adds the tag and the name of a file, if there is a file and it was not announced.
    #[tactic(auto, unfolding(crate::specs::Host::when))]
    pub(crate) fn tell_name(&self, frames: &mut Vec<HFrame>, tag: u16) -> Result<(), HostFault>
        requires count { self.now.taken + 1 < 2 ^ 64 }
        ensures ok { OnOk result (Appends self.now frames.old.items frames.new.items (told_at tag (slot self.now.files.slots tag))) }
        ensures memory { OnErr result (result ≡ Err HostFault.OutOfMemory) }
    {
        let Some(file) = self.files.file(tag) else {
            return Ok(());
        };
        if file.is_announced() {
            return Ok(());
        }
        let name = file.name().copy(self.alloc)?;
        self.say(frames, Hmesg::Hnewname(tag))?;
        self.say(frames, Hmesg::Hmovname(tag, name))
    }
}
