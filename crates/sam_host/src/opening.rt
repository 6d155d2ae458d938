//! The answers to the version, to what makes, opens, chooses or closes a file, and to the end of the session. A method for a kind leaves
//! the count of messages to its caller, and after an error the host is unchanged.

ghost use Rattle.std.specs.Prelude.{◌≡◌, ◌<◌, ◌+◌, ◌++◌, ◌∷◌, [], ◌^◌, IfOk, OnOk, OnErr, Err, not, drop};
ghost use Rattle.sam_host.specs.Host.{Replies, Appends, stamped, when, told_length, told_names, with_files, printed, no_tag_left};
ghost use Rattle.sam_text.specs.Files.{file_at, after_print};

use crate::fault::HostFault;
use crate::host::Host;
use sam_mesg::{HFrame, Hmesg, Tmesg};
use sam_runes::{ALL_TAGS, Runes, common_version};

impl Host {
    /// Adds the end of the answer to `Tversion`: the terminal is asked for a `Tack`, and the command lock is free.
    fn tell_ready(&self, frames: &mut Vec<HFrame>) -> Result<(), HostFault>
        requires count { self.now.taken + 1 < 2 ^ 64 }
        ensures ok { OnOk result (Appends self.now frames.old.items frames.new.items (Hmesg.Hack ∷ Hmesg.Hunlock ∷ [])) }
        ensures memory { OnErr result (result ≡ Err HostFault.OutOfMemory) }
    {
        self.say(frames, Hmesg::Hack)?;
        self.say(frames, Hmesg::Hunlock)
    }

    /// Adds the tag and the name of each file that was not announced, tags ascending. The command file is left out: the answer to
    /// `Tstartcmdfile` has its name.
    #[tactic(auto, using(crate::proofs::NameLaws::names_done, crate::proofs::NameLaws::name_told, crate::proofs::NameLaws::names_new))]
    fn tell_names(&self, frames: &mut Vec<HFrame>) -> Result<(), HostFault>
        requires count { self.now.taken + 1 < 2 ^ 64 }
        ensures ok { OnOk result (Appends self.now frames.old.items frames.new.items (told_names 1 (drop 1 self.now.files.slots))) }
        ensures memory { OnErr result (result ≡ Err HostFault.OutOfMemory) }
    {
        let tags = self.files.tags();
        let mut tag = self.files.first_unannounced();
        while tag < tags {
            self.tell_name(frames, tag as u16)?;
            tag += 1;
        }
        Ok(())
    }

    /// Answers `Tversion`: the smaller of `offered` and 2 becomes the version, the names that were not announced are sent, and all files
    /// but the command file are then announced. Errors, in this order: `BadVersion` if 0 is offered; `OutOfMemory`.
    #[tactic(auto, using(crate::proofs::FrameLaws::stamped_append), unfolding(crate::specs::Host::reply_version))]
    pub(crate) fn agree(&mut self, offered: u16) -> Result<Vec<HFrame>, HostFault>
        requires { self.old.taken + 1 < 2 ^ 64 }
        ensures replied { Replies self.old (Tmesg.Tversion offered) result self.new }
    {
        if offered == 0 {
            return Err(HostFault::BadVersion);
        }
        let mut frames = Vec::new(self.alloc);
        self.say(&mut frames, Hmesg::Hversion(common_version(offered)))?;
        self.tell_names(&mut frames)?;
        self.tell_ready(&mut frames)?;
        self.version = common_version(offered);
        self.files.announce_all();
        Ok(frames)
    }

    /// Answers `Tstartcmdfile`: opens the command file, and sends its name, its window and its length. If it is open already, nothing
    /// changes, and `Hunlock` is the one frame. The only error is `OutOfMemory`.
    #[tactic(auto, using(crate::proofs::FrameLaws::stamped_append), unfolding(crate::specs::Host::reply_startcmdfile))]
    pub(crate) fn start_command_file(&mut self) -> Result<Vec<HFrame>, HostFault>
        requires { self.old.taken + 1 < 2 ^ 64 }
        ensures replied { Replies self.old Tmesg.Tstartcmdfile result self.new }
    {
        self.files.facts();
        let mut frames = Vec::new(self.alloc);
        if self.files.is_open(0) {
            self.say(&mut frames, Hmesg::Hunlock)?;
            return Ok(frames);
        }
        let name = Runes::from_slice(self.alloc, &['~', '~', 's', 'a', 'm', '~', '~'])?;
        self.say(&mut frames, Hmesg::Hnewname(0))?;
        self.say(&mut frames, Hmesg::Hmovname(0, name))?;
        self.say(&mut frames, Hmesg::Hbindname(0))?;
        self.tell_length(&mut frames, 0)?;
        self.say(&mut frames, Hmesg::Hunlock)?;
        self.files.open(0)?;
        Ok(frames)
    }

    /// Adds the window and the length of a file that is being opened; nothing if it is open already.
    #[tactic(auto, unfolding(crate::specs::Host::when))]
    fn tell_opening(&self, frames: &mut Vec<HFrame>, tag: u16) -> Result<(), HostFault>
        requires count { self.now.taken + 1 < 2 ^ 64 }
        ensures ok { OnOk result (Appends self.now frames.old.items frames.new.items
            (when (not (file_at self.now.files tag).opened) (Hmesg.Hbindname tag ∷ told_length tag (file_at self.now.files tag)))) }
        ensures memory { OnErr result (result ≡ Err HostFault.OutOfMemory) }
    {
        if self.files.is_open(tag) {
            return Ok(());
        }
        self.say(frames, Hmesg::Hbindname(tag))?;
        self.tell_length(frames, tag)
    }

    /// Answers `Tstartfile`: opens a file and makes it the work file. Its window and its length are sent only if it was not open before.
    /// Errors, in this order: `NoFile`; `CommandFile`; `OutOfMemory`.
    #[tactic(auto, using(crate::proofs::FrameLaws::stamped_append), unfolding(crate::specs::Host::reply_startfile))]
    pub(crate) fn start_file(&mut self, tag: u16) -> Result<Vec<HFrame>, HostFault>
        requires { self.old.taken + 1 < 2 ^ 64 }
        ensures replied { Replies self.old (Tmesg.Tstartfile tag) result self.new }
    {
        self.wants_other(tag)?;
        let mut frames = Vec::new(self.alloc);
        self.tell_opening(&mut frames, tag)?;
        self.say(&mut frames, Hmesg::Hunlock)?;
        self.files.open_work(tag)?;
        Ok(frames)
    }

    /// Answers a `Tstartnewfile` after all tags were given: prints `? no tag`, and frees the command lock.
    #[tactic(auto, using(crate::proofs::FrameLaws::stamped_append))]
    fn no_tag_left(&mut self) -> Result<Vec<HFrame>, HostFault>
        requires count { self.old.taken + 1 < 2 ^ 64 }
        ensures host { OnOk result (self.new ≡ with_files self.old (after_print self.old.files no_tag_left)) }
        ensures frames { IfOk result (λ frames. frames.items
            ≡ stamped (self.old.taken + 1) (printed self.old.files no_tag_left ++ Hmesg.Hunlock ∷ [])) }
        ensures memory { OnErr result (result ≡ Err HostFault.OutOfMemory) }
        ensures unchanged { OnErr result (self.new ≡ self.old) }
    {
        let words = ['?', ' ', 'n', 'o', ' ', 't', 'a', 'g', '\n'];
        let mut frames = Vec::new(self.alloc);
        self.tell_print(&mut frames, &words)?;
        self.say(&mut frames, Hmesg::Hunlock)?;
        self.files.print(&words)?;
        Ok(frames)
    }

    /// Answers `Tstartnewfile`: makes an empty, clean file with no name under the next tag, opens it, and makes it the work file. If all
    /// tags were given, `? no tag` is printed instead. The only error is `OutOfMemory`, and the host is then unchanged. The caller
    /// counts the message.
    #[tactic(auto, unfolding(crate::specs::Host::reply_startnewfile))]
    pub(crate) fn start_new_file(&mut self) -> Result<Vec<HFrame>, HostFault>
        requires { self.old.taken + 1 < 2 ^ 64 }
        ensures replied { Replies self.old Tmesg.Tstartnewfile result self.new }
    {
        let tags = self.files.tags();
        if tags >= ALL_TAGS {
            return self.no_tag_left();
        }
        let tag = tags as u16;
        let mut frames = Vec::new(self.alloc);
        self.say(&mut frames, Hmesg::Hnewname(tag))?;
        self.say(&mut frames, Hmesg::Hbindname(tag))?;
        self.say(&mut frames, Hmesg::Hcurrent(tag))?;
        self.say(&mut frames, Hmesg::Hunlock)?;
        self.files.start_file()?;
        Ok(frames)
    }

    /// Answers `Tworkfile`: makes an open file the work file, with the dot from `p` to `q`. Errors, in this order: `NoFile`;
    /// `CommandFile`; `NotOpen`; `BadPosition` if the text has no such range; `OutOfMemory`.
    #[tactic(auto, unfolding(crate::specs::Host::reply_workfile))]
    pub(crate) fn work_file(&mut self, tag: u16, p: u32, q: u32) -> Result<Vec<HFrame>, HostFault>
        requires { self.old.taken + 1 < 2 ^ 64 }
        ensures replied { Replies self.old (Tmesg.Tworkfile tag p q) result self.new }
    {
        self.wants_other(tag)?;
        self.wants_open(tag)?;
        let Ok(mut frames) = Vec::with_capacity(self.alloc, 1) else {
            return Err(self.without_memory(tag, p, q));
        };
        self.files.set_work(tag, p, q)?;
        self.put(&mut frames, Hmesg::Hcurrent(tag));
        Ok(frames)
    }

    /// Answers `Tclose`: the file goes, with its text and its saved copy, and its tag is not given again. If it was the work file, there
    /// is none afterwards. Errors, in this order: `NoFile`; `CommandFile`; `NotOpen`; `OutOfMemory`.
    #[tactic(auto, unfolding(crate::specs::Host::reply_close))]
    pub(crate) fn close(&mut self, tag: u16) -> Result<Vec<HFrame>, HostFault>
        requires { self.old.taken + 1 < 2 ^ 64 }
        ensures replied { Replies self.old (Tmesg.Tclose tag) result self.new }
    {
        self.wants_other(tag)?;
        self.wants_open(tag)?;
        let mut frames = Vec::new(self.alloc);
        self.say(&mut frames, Hmesg::Hclose(tag))?;
        self.say(&mut frames, Hmesg::Hdelname(tag))?;
        self.say(&mut frames, Hmesg::Hunlock)?;
        self.files.close(tag)?;
        Ok(frames)
    }

    /// Answers `Texit` with `Hexit`, after which the host is done. The only error is `OutOfMemory`.
    #[tactic(auto, unfolding(crate::specs::Host::reply_exit))]
    pub(crate) fn exit(&mut self) -> Result<Vec<HFrame>, HostFault>
        requires { self.old.taken + 1 < 2 ^ 64 }
        ensures replied { Replies self.old Tmesg.Texit result self.new }
    {
        let mut frames = Vec::new(self.alloc);
        self.say(&mut frames, Hmesg::Hexit)?;
        self.done = true;
        Ok(frames)
    }
}
