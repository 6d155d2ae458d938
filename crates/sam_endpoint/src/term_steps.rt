//! A terminal that goes on by single steps, each of which says what it did.

ghost use Rattle.std.specs.Prelude.{◌≡◌, ◌↔◌, ◌<◌, [], IfErr, IsTrue, OnOk, length, option_copied, option_map, slice_get};
ghost use Rattle.sam_endpoint.specs.TermSteps.{Ends};
ghost use Rattle.sam_endpoint.specs.TermStepping.{BringsEvent, BringsFrame, BringsIn, ComposesIn, DecidesStep, IsNotReady, IsReady, ReceivesStep, Steps, next_frame};
ghost use Rattle.sam_mesg.specs.HostKinds.{fits_h};

use crate::changes::{change_by, frame_touch, oldest_touch, touched_len};
use crate::fault::{EndpointFault, TermStop};
use crate::naming::{name_frame, oldest_file};
use crate::step::{BringFault, Decision, NextFrame, TermStep};
use crate::term_endpoint::TermEndpoint;
use sam_mesg::HFrame;
use sam_term::UserEvent;

impl TermEndpoint {
    /// Takes a piece of the host's stream, of any length, by framing alone: the frames that are whole with it wait, in order, for `step` to
    /// have the terminal receive them.
    ///
    /// Errors, in this order: `Stopped` if the endpoint has stopped before; `Waiting` if something of before waits, which is so until
    /// `step` has returned `Idle` or `Locked`; `CountFull` if the stream would be longer than 2^64-1 bytes; `OutOfMemory`. After an error
    /// the piece is not taken, and the endpoint is as it was.
    #[tactic(auto, using(crate::proofs::TermEndpointStepping::not_ready_in, crate::proofs::TermEndpointStepping::not_brought))]
    pub fn bring(&mut self, piece: &[u8]) -> Result<(), BringFault<TermStop>>
        ensures { BringsIn self.old piece.now result self.new }
    {
        self.check_ready()?;
        match self.take_in(piece) {
            Ok(()) => Ok(()),
            Err(why) => Err(BringFault::of(why)),
        }
    }

    /// Takes a frame of the host's that is decoded already, instead of its bytes: it waits for `step` to have the terminal receive it. The
    /// law of two endpoints (sam_joined) speaks of endpoints that get bytes.
    ///
    /// Errors, in this order: `Stopped` and `Waiting`, as of `bring`; `OutOfMemory`. After an error the frame is not taken, and the
    /// endpoint is as it was.
    #[tactic(auto, using(crate::proofs::TermEndpointStepping::not_ready_frame))]
    pub fn bring_frame(&mut self, frame: HFrame) -> Result<(), BringFault<TermStop>>
        requires fits { IsTrue (fits_h 2 frame.msg) }
        ensures { BringsFrame self.old frame result self.new }
    {
        self.check_ready()?;
        if self.duplex.put_waiting(frame).is_err() {
            return Err(BringFault::OutOfMemory);
        }
        Ok(())
    }

    /// Takes an event of the user and goes no further: it is held after the others, for `step` to have it act.
    ///
    /// Errors, in this order: `Stopped` if the endpoint has stopped before; `CountFull` if 2^64-1 events were taken before; `OutOfMemory`.
    /// After an error the event is dropped, and the endpoint is as it was.
    #[tactic(auto, using(crate::proofs::TermEndpointStepping::not_held))]
    pub fn bring_event(&mut self, event: UserEvent) -> Result<(), BringFault<TermStop>>
        ensures { BringsEvent self.old event result self.new }
    {
        if let Some(why) = self.stopped() {
            return Err(BringFault::Stopped(why));
        }
        match self.hold(event) {
            Ok(()) => Ok(()),
            Err(why) => Err(BringFault::of(why)),
        }
    }

    /// Composes the runes that were typed and are in no message yet, and goes no further: the next `step` writes their message.
    ///
    /// Errors, in this order: `Stopped` and `Waiting`, as of `bring`; `Stopped` if more than 2^64-1 messages would be composed, and then
    /// for good; `OutOfMemory`. After an error the runes are as they were.
    #[tactic(auto, using(crate::proofs::TermEndpointStepping::not_ready_unsent, crate::proofs::TermEndpointStepping::not_composed))]
    pub fn compose(&mut self) -> Result<(), BringFault<TermStop>>
        ensures { ComposesIn self.old result self.new }
    {
        self.check_ready()?;
        match self.compose_unsent() {
            Ok(()) => Ok(()),
            Err(why) => Err(BringFault::of(why)),
        }
    }

    /// Finds whether a piece or a frame can be brought. Errors, in this order: `Stopped` if the endpoint has stopped before; `Waiting` if
    /// something of before waits.
    fn check_ready(&self) -> Result<(), BringFault<TermStop>>
        ensures ready { OnOk result (IsReady self.now) }
        ensures not { IfErr result (IsNotReady self.now) }
    {
        self.duplex.check_ready()
    }

    /// Lends the oldest frame that waits, which the next step that receives one takes. `None` if none waits.
    pub fn first_frame(&self) -> Option<&HFrame>
        ensures { option_copied result ≡ slice_get self.now.waiting 0 }
    {
        self.duplex.first()
    }

    /// Returns what the next step that receives a frame begins with: the oldest frame that waits, and the part of its file's text that will
    /// give way. `None` if none waits.
    pub fn next_frame(&self) -> Option<NextFrame>
        ensures { result ≡ option_map (next_frame self.now.term) (slice_get self.now.waiting 0) }
    {
        let Some(frame) = self.duplex.first() else {
            return None;
        };
        let (kind, tag) = name_frame(&frame.msg);
        let touch = frame_touch(&self.term, &frame.msg);
        let change = change_by(touch, touched_len(&self.term, touch), 0);
        Some(NextFrame {
            kind,
            tag,
            start: change.start,
            gone: change.gone,
        })
    }

    /// Goes on by one step with what waits, and says what it did. It writes the messages that were composed last, if some are left over.
    /// Else it has the terminal receive the oldest frame that waits. Where none does, it has the oldest held event act. `feed` does these
    /// steps until one is `Idle` or `Locked`.
    ///
    /// Errors, in this order:
    ///
    /// - `Stopped` if the endpoint had stopped before. It is as it was.
    /// - `Unfinished` if memory was refused. Nothing has changed: make the step again.
    /// - `Stopped` if the terminal refuses the oldest frame, which waits on; or if no frame waits, and the stream has a fault after those
    ///   that came, or more than 2^64-1 messages would be composed.
    #[tactic(auto, using(crate::proofs::TermEndpointStepping::stepped_facts))]
    pub fn step(&mut self) -> Result<TermStep, EndpointFault<TermStop>>
        ensures { Steps self.old result self.new }
    {
        if let Some(why) = self.stopped() {
            return Err(EndpointFault::Stopped(why));
        }
        if self.has_unwritten() {
            self.write_composed()?;
            return Ok(TermStep::Wrote);
        }
        if self.is_waiting() {
            return self.receive_step();
        }
        self.end()?;
        self.decide_step()
    }

    /// Returns whether messages that were composed are not written yet.
    fn has_unwritten(&self) -> bool
        ensures { IsTrue result ↔ (0 < length self.now.unwritten) }
    {
        self.duplex.has_unwritten()
    }

    /// Returns whether a frame waits to be received.
    fn is_waiting(&self) -> bool
        ensures { IsTrue result ↔ (0 < length self.now.waiting) }
    {
        self.duplex.is_waiting()
    }

    /// Stops the endpoint for good if the stream shows a fault, once all frames before it are received.
    fn end(&mut self) -> Result<(), EndpointFault<TermStop>>
        ensures { Ends self.old result self.new }
    {
        match self.duplex.broken_by() {
            None => Ok(()),
            Some(why) => Err(self.stop_by(EndpointFault::Stopped(TermStop::Stream(why)))),
        }
    }

    /// Has the terminal receive the oldest frame, and says which it was.
    fn receive_step(&mut self) -> Result<TermStep, EndpointFault<TermStop>>
        requires { 0 < length self.old.waiting }
        ensures { ReceivesStep self.old result self.new }
    {
        let Some(frame) = self.duplex.first() else {
            return Ok(TermStep::Idle);
        };
        let (kind, tag) = name_frame(&frame.msg);
        let touch = frame_touch(&self.term, &frame.msg);
        let before = touched_len(&self.term, touch);
        self.receive_first()?;
        let change = change_by(touch, before, touched_len(&self.term, touch));
        Ok(TermStep::Received { kind, tag, change })
    }

    /// Has the oldest held event act, and says what became of it.
    #[tactic(auto, using(crate::proofs::TermEndpointStepping::acted_told))]
    fn decide_step(&mut self) -> Result<TermStep, EndpointFault<TermStop>>
        requires { self.old.unwritten ≡ [] }
        ensures { DecidesStep self.old result self.new }
    {
        let tag = oldest_file(&self.term);
        let touch = oldest_touch(&self.term);
        let before = touched_len(&self.term, touch);
        match self.decide_first() {
            Ok(Decision::Idle) => Ok(TermStep::Idle),
            Ok(Decision::Locked) => Ok(TermStep::Locked),
            Ok(Decision::Acted) => {
                let change = change_by(touch, before, touched_len(&self.term, touch));
                Ok(TermStep::Acted {
                    number: self.decided(),
                    tag,
                    change,
                })
            }
            Ok(Decision::Refused(why)) => Ok(TermStep::Refused {
                number: self.decided(),
                why,
            }),
            Err(why) => Err(why),
        }
    }
}
