//! What a server's program has it tell the terminal: that a file is dirty, and how much has come.

ghost use Rattle.sam_server.specs.DurableServers.{RefusesAcknowledge, RefusesAsk, RefusesMark, TakesRecord};
ghost use Rattle.sam_server.specs.Records.{Acknowledged, Asked, Marked};

use crate::fault::CallFault;
use crate::record::Record;
use crate::server::{DurableServer, Stage};
use sam_host::MarkFault;
use sam_link::PutFault;

impl DurableServer {
    /// Marks the file as dirty, as `HostEndpoint::mark_dirty` does: where its write failed, before `effect_done`.
    ///
    /// Errors, in this order: `Stopped`; `Waiting`; `OutOfMemory`; `Refused` as the endpoint refuses it; `Unfinished`, after which the file
    /// is marked. After `Waiting`, `OutOfMemory` and `Refused` it is as it was.
    pub fn mark_dirty(&mut self, tag: u16) -> Result<(), CallFault<MarkFault>>
        ensures { TakesRecord self.old (Marked tag) (RefusesMark self.old tag) result self.new }
    {
        let body = self.prepare(Record::Marked(tag))?;
        match self.turn.mark_dirty(tag) {
            Ok(()) => {}
            Err(MarkFault::OutOfMemory) => return Err(CallFault::OutOfMemory),
            Err(why) => return Err(CallFault::Refused(why)),
        }
        self.owed = body;
        self.stage = Stage::Answering;
        self.go_on_now()
    }

    /// Asks the terminal to acknowledge what it has.
    ///
    /// Errors, in this order: `Stopped`; `Waiting`; `OutOfMemory`; `Refused` with `CountFull`; `Unfinished`, after which it is asked. After
    /// all but the last it is as it was.
    #[tactic(auto, using(crate::proofs::DurableServers::asked_well))]
    pub fn ask(&mut self) -> Result<(), CallFault<PutFault>>
        ensures { TakesRecord self.old Asked (RefusesAsk self.old) result self.new }
    {
        let body = self.prepare(Record::Asked)?;
        match self.turn.ask() {
            Ok(()) => {}
            Err(PutFault::OutOfMemory) => return Err(CallFault::OutOfMemory),
            Err(PutFault::CountFull) => return Err(CallFault::Refused(PutFault::CountFull)),
        }
        self.owed = body;
        self.stage = Stage::Recording;
        self.go_on_now()
    }

    /// Acknowledges what came of the terminal's stream.
    ///
    /// Errors, in this order: `Stopped`; `Waiting`; `OutOfMemory`; `Refused` with `CountFull`; `Unfinished`, after which it is
    /// acknowledged. After all but the last it is as it was.
    #[tactic(auto, using(crate::proofs::DurableServers::acknowledged_well))]
    pub fn acknowledge(&mut self) -> Result<(), CallFault<PutFault>>
        ensures { TakesRecord self.old Acknowledged (RefusesAcknowledge self.old) result self.new }
    {
        let body = self.prepare(Record::Acknowledged)?;
        match self.turn.acknowledge() {
            Ok(()) => {}
            Err(PutFault::OutOfMemory) => return Err(CallFault::OutOfMemory),
            Err(PutFault::CountFull) => return Err(CallFault::Refused(PutFault::CountFull)),
        }
        self.owed = body;
        self.stage = Stage::Recording;
        self.go_on_now()
    }
}
