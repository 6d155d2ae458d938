//! A host that goes on by single steps, each of which says what it did.

ghost use Rattle.std.specs.Prelude.{◌≡◌, ◌↔◌, ◌<◌, ℕ, IsTrue, Ok, length, option_copied, slice_get};
ghost use Rattle.sam_endpoint.specs.HostStepping.{BringsIn, Steps, StepsWaiting};
ghost use Rattle.sam_endpoint.specs.declared.step.HostStep.TheVariants.{Edited};

use crate::fault::{EndpointFault, HostStop};
use crate::host_endpoint::{HostEndpoint, oldest};
use crate::naming::name_message;
use crate::step::{BringFault, HostStep};
use sam_mesg::Tmesg;

impl HostEndpoint {
    /// Takes a piece of the terminal's stream, of any length, by framing alone: the messages that are whole with it wait, in order, for
    /// `step` to answer them.
    ///
    /// Errors, in this order: `Stopped` if the endpoint has stopped before; `Waiting` if something of before waits, which is so until
    /// `step` has returned `Idle`; `CountFull` if the stream would be longer than 2^64-1 bytes; `OutOfMemory`. After an error the piece is
    /// not taken, and the endpoint is as it was.
    #[tactic(auto, using(crate::proofs::HostEndpointStepping::not_brought))]
    pub fn bring(&mut self, piece: &[u8]) -> Result<(), BringFault<HostStop>>
        ensures { BringsIn self.old piece.now result self.new }
    {
        self.duplex.check_ready()?;
        match self.take_in(piece) {
            Ok(()) => Ok(()),
            Err(why) => Err(BringFault::of(why)),
        }
    }

    /// Lends the oldest message that waits: the next step that answers begins with it. `None` if none waits.
    pub fn next_message(&self) -> Option<&Tmesg>
        ensures { option_copied result ≡ slice_get self.now.waiting 0 }
    {
        self.duplex.first()
    }

    /// Goes on by one step with what waits, and says what it did. It writes the frames of the last answer, if some are left over. Else it
    /// has the host take what waits first: messages that type or cut in one file and follow each other, at once, or the oldest message.
    /// Checks (Tcheck) of open files that stand among the edits or behind them are answered with them. `feed` does these steps until one
    /// is `Idle`.
    ///
    /// Errors, in this order:
    ///
    /// - `Stopped` if the endpoint had stopped before. It is as it was.
    /// - `Unfinished` if memory was refused. Nothing has changed: make the step again.
    /// - `Stopped` if the host refuses the oldest message, which waits on; or if no message waits, and the stream has a fault after those
    ///   that came.
    #[tactic(auto, using(crate::proofs::HostEndpointStepping::waiting_stepped))]
    pub fn step(&mut self) -> Result<HostStep, EndpointFault<HostStop>>
        ensures { Steps self.old result self.new }
    {
        if let Some(why) = self.stopped() {
            return Err(EndpointFault::Stopped(why));
        }
        if self.has_unwritten() {
            self.write_answer()?;
            return Ok(HostStep::Wrote);
        }
        if self.is_waiting() {
            return self.answer_step();
        }
        self.end()?;
        Ok(HostStep::Idle)
    }

    /// Goes on by one step, as `step` does, but has the host take one message where `step` would take several edits at once: for a caller
    /// who asks before each message whether to go on. Its errors are those of `step`.
    #[tactic(auto, using(crate::proofs::HostEndpointStepping::waiting_stepped, crate::proofs::HostEndpointStepping::edits_wait))]
    pub fn step_message(&mut self) -> Result<HostStep, EndpointFault<HostStop>>
        ensures steps { Steps self.old result self.new }
        ensures one { (tag count : ℕ) → result ≡ Ok (Edited tag count) → ⊥ }
    {
        if self.stopped().is_none() && !self.has_unwritten() && self.is_waiting() {
            return self.answer_message();
        }
        self.step()
    }

    /// Returns whether frames of the last answer are left over to be written, which the next step does. If none are, the next step has the
    /// host take what waits first.
    pub fn has_unwritten(&self) -> bool
        ensures { IsTrue result ↔ (0 < length self.now.unwritten) }
    {
        self.duplex.has_unwritten()
    }

    /// Has the host take what waits first, and says what that was.
    fn answer_step(&mut self) -> Result<HostStep, EndpointFault<HostStop>>
        requires { 0 < length self.old.waiting }
        ensures { StepsWaiting self.old result self.new }
    {
        let (kind, tag) = name_message(oldest(&self.duplex));
        if let Some(tag) = tag {
            let count = self.take_edits();
            if count > 0 {
                return Ok(HostStep::Edited { tag, count });
            }
        }
        self.answer_first()?;
        Ok(HostStep::Answered { kind, tag })
    }

    /// Has the host answer the oldest message, and says which that was.
    fn answer_message(&mut self) -> Result<HostStep, EndpointFault<HostStop>>
        requires { 0 < length self.old.waiting }
        ensures steps { StepsWaiting self.old result self.new }
        ensures one { (tag count : ℕ) → result ≡ Ok (Edited tag count) → ⊥ }
    {
        let (kind, tag) = name_message(oldest(&self.duplex));
        self.answer_first()?;
        Ok(HostStep::Answered { kind, tag })
    }
}
