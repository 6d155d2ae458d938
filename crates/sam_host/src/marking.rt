//! Marking a file as dirty, where no message asks for it.

ghost use Rattle.std.specs.Prelude.{◌≡◌, option_to_list};
ghost use Rattle.sam_host.specs.Marking.{mark_checks, mark_frames, Marks};
ghost use Rattle.sam_runes.specs.Checks.{first_of_checks};

use crate::fault::MarkFault;
use crate::host::Host;
use sam_mesg::{HFrame, Hmesg};

impl Host {
    /// Returns the first test of `MarkFault` that stands against marking the file of a tag; `None` if none does.
    pub fn refusal_of_mark(&self, tag: u16) -> Option<MarkFault>
        ensures { result ≡ first_of_checks (mark_checks self.now tag) }
    {
        if !self.files.has(tag) {
            return Some(MarkFault::NoFile);
        }
        if tag == 0 {
            return Some(MarkFault::CommandFile);
        }
        if !self.files.is_announced(tag) {
            return Some(MarkFault::NotAnnounced);
        }
        None
    }

    /// Returns the frame that tells a mark of the file: `Hdirty` if it is clean, else none.
    #[tactic(auto, unfolding(crate::specs::Host::when))]
    pub fn frame_of_mark(&self, tag: u16) -> Option<HFrame>
        ensures { option_to_list result ≡ mark_frames self.now tag }
    {
        if self.files.is_dirty(tag) || tag == 0 {
            return None;
        }
        Some(HFrame {
            seen: self.taken,
            msg: Hmesg::Hdirty(tag),
        })
    }

    /// Marks a file as dirty, open or not: for a program whose write of it failed, or that has another text on disk. Returns the frame
    /// `Hdirty` for the terminal if the file was clean, and `None` if it was dirty already. The frame carries the count of messages that
    /// the host has taken, frees no lock, and belongs behind the frames that were answered before. It takes no memory, and may be called at
    /// any time, also on a host that is done.
    ///
    /// Errors, in this order: `NoFile` if the tag was never given or its file was closed; `CommandFile` for tag 0; `NotAnnounced` if the
    /// terminal was not told the name yet. After an error the host is unchanged; else only that file's mark changes.
    pub fn mark_dirty(&mut self, tag: u16) -> Result<Option<HFrame>, MarkFault>
        ensures { Marks self.old tag result self.new }
    {
        if let Some(fault) = self.refusal_of_mark(tag) {
            return Err(fault);
        }
        let frame = self.frame_of_mark(tag);
        match self.files.mark_dirty(tag) {
            Ok(()) => Ok(frame),
            Err(_) => Err(MarkFault::NoFile),
        }
    }
}
