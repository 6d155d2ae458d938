//! How a session is taken over: another server begins with the texts of this one.

ghost use Rattle.std.specs.Prelude.{◌≡◌, ◌<◌, None, OnOk, length, option_to_list};
ghost use Rattle.sam_runes.specs.Checks.{first_of_checks};
ghost use Rattle.sam_runes.specs.Slots.{slot};
ghost use Rattle.sam_runes.specs.Texts.{all_tags};
ghost use Rattle.sam_endpoint.specs.HostEndpoints.{add_checks};
ghost use Rattle.sam_server.specs.Heirs.{Adopts, AdoptsAll, HasTaken, Inherits, Rests, host_of};
ghost use Rattle.sam_server.specs.Records.{Joined};
ghost use Rattle.sam_server.specs.declared.server.Stage.TheVariants.{Settled};

use crate::fault::{CallFault, HeirFault};
use crate::server::{DurableServer, Stage};
use crate::utf8::utf8_of;
use sam_endpoint::AddFault;
use sam_link::Id;
use sam_text::{File, Files};
use std::alloc::AllocError;

impl DurableServer {
    /// Adds a file against which nothing stands. Its only error is out of memory.
    #[tactic(auto, using(crate::proofs::Heirs::join_facts))]
    fn join(&mut self, name: &[u8], text: &[u8]) -> Result<(), AllocError>
        requires settled { self.old.stage ≡ Settled }
        requires allowed { first_of_checks (add_checks self.old.turn.server.host name.now text.now) ≡ None }
        ensures { OnOk result (HasTaken self.old (Joined name.now text.now) self.new) }
    {
        match self.add_file(name, text) {
            Ok(_) => Ok(()),
            Err(CallFault::OutOfMemory) => Err(AllocError),
            Err(CallFault::Unfinished) => Err(AllocError),
            Err(CallFault::Refused(AddFault::OutOfMemory)) => Err(AllocError),
            Err(CallFault::Refused(AddFault::NotText)) => unreachable!(),
            Err(CallFault::Refused(AddFault::TooLong)) => unreachable!(),
            Err(CallFault::Refused(AddFault::NoTag)) => unreachable!(),
            Err(CallFault::Stopped(_)) => unreachable!(),
            Err(CallFault::Waiting) => unreachable!(),
        }
    }

    /// Adds a file of another server, with its name and its text. Its only error is out of memory.
    #[tactic(auto, using(crate::proofs::Heirs::adopt_facts))]
    fn adopt(&mut self, file: &File) -> Result<(), AllocError>
        requires settled { self.old.stage ≡ Settled }
        requires tag { length (host_of self.old).files.slots < all_tags }
        ensures { OnOk result (Adopts self.old file.now.plain self.new) }
    {
        file.facts();
        let text = file.text();
        let name = utf8_of(self.alloc(), file.name().as_slice())?;
        let text = utf8_of(self.alloc(), text.slice(0, text.len()))?;
        self.join(name.as_slice(), text.as_slice())
    }

    /// Adds the file that has this tag, if one has it. Its only error is out of memory.
    fn adopt_tag(&mut self, files: &Files, tag: u16) -> Result<(), AllocError>
        requires settled { self.old.stage ≡ Settled }
        requires tag { length (host_of self.old).files.slots < all_tags }
        ensures { OnOk result (AdoptsAll self.old (option_to_list (slot files.now.plain.slots tag)) self.new) }
    {
        match files.file(tag) {
            Some(file) => self.adopt(file),
            None => Ok(()),
        }
    }

    /// Tests that nothing is under way.
    fn check_rest(&self) -> Result<(), HeirFault>
        ensures { Rests self.now result }
    {
        match self.stage {
            Stage::Answering | Stage::Recording => Err(HeirFault::Waiting),
            Stage::Settled if self.turn.effect().is_some() => Err(HeirFault::EffectWaits),
            Stage::Settled | Stage::Stopped(_) => Ok(()),
        }
    }

    /// Makes a server of another session that begins with the texts of this one, for a terminal that takes it over.
    ///
    /// All files but the command file join it, with the names and the texts that they have, in the order of their tags: from tag 1 on, with
    /// no gap. It has a record for each, which begin a journal of its own, and lets nothing out before they are durable. So the takeover is
    /// done once that journal has the name of the old one. Until then this server can go on: it is not changed.
    ///
    /// Which files are dirty, what was written last, dots, snarf buffer, pattern and command file don't go over: the program marks a file
    /// as dirty behind the answer to the terminal's first Tversion, by `mark_dirty`.
    ///
    /// Errors, in this order: `Waiting`; `EffectWaits`; `OutOfMemory`. So nothing that the old terminal sent is left behind, unless the
    /// server has stopped for good.
    #[tactic(auto, using(crate::proofs::Heirs::heir_facts))]
    pub fn heir(&self, id: Id) -> Result<DurableServer, HeirFault>
        ensures { Inherits self.now id result }
    {
        self.check_rest()?;
        let Ok(mut heir) = DurableServer::new(self.alloc(), id) else {
            return Err(HeirFault::OutOfMemory);
        };
        let files = self.host().files();
        let mut tag = 1;
        while tag < files.tags() {
            if heir.adopt_tag(files, tag as u16).is_err() {
                return Err(HeirFault::OutOfMemory);
            }
            tag += 1;
        }
        Ok(heir)
    }
}
