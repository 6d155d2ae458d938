//! What a server's program gives it: files, messages, and how effects ended.

ghost use Rattle.std.specs.Prelude.{◌≡◌, IfOk, length, option_copied, option_map};
ghost use Rattle.sam_server.specs.DurableServers.{RefusesEffect, RefusesFile, RefusesNote, TakesRecord, effect_due, is_due};
ghost use Rattle.sam_server.specs.Records.{Done, Joined, Said};
ghost use Rattle.sam_server.specs.Turns.{plain_effect};

use crate::effect::Effect;
use crate::fault::{CallFault, NoEffect};
use crate::record::Record;
use crate::server::{DurableServer, Stage};
use sam_endpoint::AddFault;
use sam_host::Host;
use sam_link::{Link, NoteFault};

impl DurableServer {
    /// Adds a file under the next tag, and returns the tag, as `HostEndpoint::add_file` does.
    ///
    /// Errors, in this order: `Stopped`; `Waiting`; `OutOfMemory`; `Refused` as the endpoint refuses it; `Unfinished`, after which the file
    /// has joined under the next tag. After all but the last it is as it was.
    #[tactic(auto, using(crate::proofs::DurableServers::joined_well))]
    pub fn add_file(&mut self, name: &[u8], text: &[u8]) -> Result<u16, CallFault<AddFault>>
        ensures takes { TakesRecord self.old (Joined name.now text.now) (RefusesFile self.old name.now text.now) result self.new }
        ensures tag { IfOk result (λ tag. tag ≡ length self.old.turn.server.host.host.files.slots) }
    {
        let body = self.prepare(Record::Joined(name, text))?;
        let tag = match self.turn.add_file(name, text) {
            Ok(tag) => tag,
            Err(AddFault::OutOfMemory) => return Err(CallFault::OutOfMemory),
            Err(why) => return Err(CallFault::Refused(why)),
        };
        self.owed = body;
        self.stage = Stage::Recording;
        match self.go_on_now() {
            Ok(()) => Ok(tag),
            Err(why) => Err(why),
        }
    }

    /// Puts a message for the terminal's program, behind all that was put.
    ///
    /// Errors, in this order: `Stopped`; `Waiting`; `OutOfMemory`; `Refused` with `TooLong` or `CountFull`; `Unfinished`, after which the
    /// message is put. After all but the last it is as it was.
    #[tactic(auto, using(crate::proofs::DurableServers::said_well))]
    pub fn say(&mut self, message: &[u8]) -> Result<(), CallFault<NoteFault>>
        ensures { TakesRecord self.old (Said message.now) (RefusesNote self.old message.now) result self.new }
    {
        let body = self.prepare(Record::Said(message))?;
        match self.turn.put_note(message) {
            Ok(()) => {}
            Err(NoteFault::OutOfMemory) => return Err(CallFault::OutOfMemory),
            Err(why) => return Err(CallFault::Refused(why)),
        }
        self.owed = body;
        self.stage = Stage::Recording;
        self.go_on_now()
    }

    /// Returns whether the first record that has the effect is durable.
    fn is_due(&self) -> bool
        ensures { result ≡ is_due self.now.due }
    {
        match self.due {
            Some(left) => left == 0,
            None => false,
        }
    }

    /// Lends the effect that is to be done now: nothing behind it is handled before; `None` if there is none. One whose record is not
    /// durable is not lent, because a crash would forget why it was done. Then `effect_done` says how it ended. Until then the answer to a
    /// write waits: what is said meanwhile goes out in front of it, and a mark of a file behind it, with it. After a crash it is asked for
    /// again, unless the record of `effect_done` is durable.
    pub fn next_effect(&self) -> Option<&Effect>
        ensures { option_map plain_effect (option_copied result) ≡ effect_due self.now }
    {
        if self.is_due() {
            return self.turn.effect();
        }
        None
    }

    /// Lends the host, to be read: a write is of the saved text of its file.
    pub fn host(&self) -> &Host
        ensures { result.now ≡ self.now.turn.server.host.host }
    {
        self.turn.host.host()
    }

    /// Lends the host's end of the link, to be read.
    pub fn link(&self) -> &Link
        ensures { result.now ≡ self.now.turn.server.link }
    {
        self.turn.link.link()
    }

    /// Takes note that the effect is done, with a number of the program's for how it ended, and handles what waited behind it.
    ///
    /// Errors, in this order: `Stopped`; `Waiting`; `OutOfMemory`; `Refused` if `next_effect` lends none; `Unfinished`, after which it
    /// counts as done, or `Stopped` where the terminal breaks the protocol behind it. After `Waiting`, `OutOfMemory` and `Refused` it is as
    /// it was.
    pub fn effect_done(&mut self, ending: u64) -> Result<(), CallFault<NoEffect>>
        ensures { TakesRecord self.old (Done ending) (RefusesEffect self.old) result self.new }
    {
        let body = self.prepare(Record::Done(ending))?;
        if self.is_due() && self.turn.drop_effect() {
            self.due = None;
            self.owed = body;
            self.stage = Stage::Answering;
            return self.go_on_now();
        }
        Err(CallFault::Refused(NoEffect))
    }
}
