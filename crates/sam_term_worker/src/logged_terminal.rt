//! The terminal at its end of the stream, with its log.

ghost use Rattle.std.specs.Prelude.{◌≡◌, ◌⊎◌, ◌<◌, [], ◌∷◌, IsTrue, IfOk, IfErr, OnErr, OnOk, Ok, is_some, false, true};
ghost use Rattle.std.specs.Bool.{OnFalse};
ghost use Rattle.sam_mesg.specs.HostKinds.{fits_h};
ghost use Rattle.sam_endpoint.specs.TermEndpoints.{new_term_endpoint};
ghost use Rattle.sam_ends.specs.Cutting.{PutSome};
ghost use Rattle.sam_term_worker.specs.TermMoments.{CanGoOn, Did, Handled, IsLocked, IsNextPiece, IsPutOn, Took, WentOn, bytes_left, of_bring_fault, of_end_fault, of_stop};

use sam_endpoint::{BringFault, EndpointFault, TermEndpoint, TermStep, TermStop};
use sam_ends::{Input, Stop};
use sam_mesg::{HFrame, fits_h};
use sam_queue::Post;
use sam_sides::TermLog;
use sam_term::event::UserEvent;
use std::alloc::{AllocError, Global};
use std::marker::Model;
use std::sync::Wait;

/// How many entries a log has room for at first, if memory is at hand: what no entry has reached takes none of the machine's, and a log
/// that grows is copied.
const FIRST_ROOM: usize = 65_536;

/// Returns why the worker stops where its endpoint has stopped.
fn stop_by(why: TermStop) -> Stop
    ensures { result ≡ of_stop why }
{
    match why {
        TermStop::Refused(fault) => Stop::from(fault),
        TermStop::Stream(fault) => Stop::Frame(fault.number()),
    }
}

/// Returns why the worker stops where its endpoint's step answers this.
fn stop_for(fault: EndpointFault<TermStop>) -> Stop
    ensures { result ≡ of_end_fault fault }
{
    match fault {
        EndpointFault::Stopped(why) => stop_by(why),
        EndpointFault::Unfinished => Stop::Memory,
        EndpointFault::OutOfMemory => Stop::Memory,
        EndpointFault::CountFull => Stop::Memory,
    }
}

/// Returns why the worker stops where its endpoint doesn't take what it was brought.
fn stop_unbrought(fault: BringFault<TermStop>) -> Stop
    ensures { result ≡ of_bring_fault fault }
{
    match fault {
        BringFault::Stopped(why) => stop_by(why),
        BringFault::Waiting => Stop::Memory,
        BringFault::CountFull => Stop::Memory,
        BringFault::OutOfMemory => Stop::Memory,
    }
}

/// The terminal at its end of the stream, and a log of what its steps said. Room for an entry of the log is made before the step, so that
/// the log misses no step. The bytes of composed messages stand in the endpoint until they are put, so that the terminal never waits in a
/// send.
#[derive(Drop)]
pub(crate) struct LoggedTerminal {
    /// Where the log, the copies of events in it and the pieces take their memory from.
    pub(crate) alloc: Global,
    /// The most bytes of a piece: at least 1.
    pub(crate) most: usize,
    /// The terminal, as the steps of the log left it, and the bytes that are not put.
    pub(crate) end: TermEndpoint,
    /// The steps made since it began, in order.
    pub(crate) log: Vec<TermLog>,
}

impl Model for LoggedTerminal {
    ghost use Rattle.std.specs.Prelude.{◌<◌};
    ghost use Rattle.sam_term_worker.specs.TermMoments.{LoggedView};

    ghost Value = { LoggedView };

    ghost view = { λ d. record { end = d.end; log = d.log.items; most = d.most } };

    ghost invariant = { λ d. 0 < d.most };
}

impl LoggedTerminal {
    /// Begins with a new terminal, for pieces of at most `most` bytes. Where memory is refused, the log has no room yet.
    pub(crate) fn new(alloc: Global, most: usize) -> LoggedTerminal
        requires { 0 < most }
        ensures { result ≡ record { end = new_term_endpoint; log = []; most = most } }
    {
        let log = match Vec::with_capacity(alloc, FIRST_ROOM) {
            Ok(log) => log,
            Err(_) => Vec::new(alloc),
        };
        LoggedTerminal {
            alloc,
            most,
            end: TermEndpoint::new(alloc),
            log,
        }
    }

    /// Returns whether the host has ended the session.
    pub(crate) fn exited(&self) -> bool
        ensures { result ≡ self.now.end.term.has_exited }
    {
        self.end.term().exited()
    }

    /// Returns whether some typed runes are in no message yet.
    pub(crate) fn has_unsent(&self) -> bool
        ensures { result ≡ is_some self.now.end.term.unsent }
    {
        self.end.term().has_unsent()
    }

    /// Returns whether no event is held.
    pub(crate) fn holds_none(&self) -> bool
        ensures { IsTrue result → self.now.end.term.held ≡ [] }
    {
        self.end.term().held() == 0
    }

    /// Returns whether all that was composed is put.
    pub(crate) fn is_all_put(&self) -> bool
        ensures { IsTrue result → bytes_left self.now ≡ [] }
    {
        self.end.is_idle() && self.end.pending() == 0
    }

    /// Puts an event of the user after the held ones. Its only error is `Memory`, and leaves terminal and log as they were; it comes also
    /// once 2^64-1 events were taken.
    #[tactic(auto, using(crate::proofs::TermSteps::users_kept))]
    pub(crate) fn user(&mut self, event: UserEvent) -> Result<(), Stop>
        requires { CanGoOn self.old.end }
        ensures held { OnOk result (Did self.old self.new (event ∷ []) []) }
        ensures goes_on { OnOk result (CanGoOn self.new.end) }
        ensures refused { IfErr result (λ why. why ≡ Stop.Memory) }
        ensures unchanged { OnErr result (self.new ≡ self.old) }
    {
        let Ok(copy) = event.copy(self.alloc) else {
            return Err(Stop::Memory);
        };
        if self.log.reserve(1).is_err() {
            return Err(Stop::Memory);
        }
        match self.end.bring_event(copy) {
            Ok(()) => {
                self.log.push_reserved(TermLog::User(event));
                Ok(())
            }
            Err(_) => Err(Stop::Memory),
        }
    }

    /// Lets the terminal take a frame. What it composes is left over for the next step. The errors are `Term` with the number of the
    /// terminal's fault, and `Memory`, which may come before it; they leave terminal, log and bytes as they were.
    #[tactic(auto, using(crate::proofs::TermSteps::takes_kept))]
    pub(crate) fn receive(&mut self, frame: HFrame) -> Result<(), Stop>
        requires fits { IsTrue (fits_h 2 frame.msg) }
        ensures { Took self.old frame result self.new }
    {
        if self.log.reserve(1).is_err() {
            return Err(Stop::Memory);
        }
        let seen = frame.seen;
        match self.end.bring_frame(frame) {
            Ok(()) => {}
            Err(_) => return Err(Stop::Memory),
        }
        match self.end.step() {
            Ok(_) => {
                self.log.push_reserved(TermLog::Take(seen));
                Ok(())
            }
            Err(fault) => Err(stop_for(fault)),
        }
    }

    /// Makes the next step, if there is something to do: it writes what was composed last, or tries the oldest held event. Returns whether
    /// it did something; else none is held, or a lock holds the oldest back. The errors are `Term(8)` for a full count, and `Memory`, which
    /// may come before it; they leave terminal, log and bytes as they were.
    #[tactic(auto, using(crate::proofs::TermSteps::acts_kept))]
    pub(crate) fn act(&mut self) -> Result<bool, Stop>
        requires { CanGoOn self.old.end }
        ensures went { WentOn self.old result self.new }
        ensures quiet { result ≡ Ok false → (self.new.end.term.held ≡ []) ⊎ IsLocked self.new.end.term }
    {
        if self.end.is_idle() && self.end.term().held() == 0 {
            return Ok(false);
        }
        if self.log.reserve(1).is_err() {
            return Err(Stop::Memory);
        }
        match self.end.step() {
            Ok(TermStep::Wrote) => Ok(true),
            Ok(TermStep::Acted { .. }) => {
                self.log.push_reserved(TermLog::Act);
                Ok(true)
            }
            Ok(TermStep::Refused { .. }) => {
                self.log.push_reserved(TermLog::Act);
                Ok(true)
            }
            Ok(TermStep::Idle) => Ok(false),
            Ok(TermStep::Locked) => Ok(false),
            Ok(TermStep::Received { .. }) => unreachable!(),
            Err(fault) => Err(stop_for(fault)),
        }
    }

    /// Composes the unsent runes. Their message is left over for the next step. The errors are `Term(8)` for a full count, and `Memory`,
    /// which may come before it; they leave terminal, log and bytes as they were.
    #[tactic(auto, using(crate::proofs::TermSteps::flushes_kept))]
    pub(crate) fn flush(&mut self) -> Result<(), Stop>
        requires goes_on { CanGoOn self.old.end }
        requires unsent { is_some self.old.end.term.unsent ≡ true }
        ensures { WentOn self.old result self.new }
    {
        if self.log.reserve(1).is_err() {
            return Err(Stop::Memory);
        }
        match self.end.compose() {
            Ok(()) => {
                self.log.push_reserved(TermLog::Flush);
                Ok(())
            }
            Err(fault) => Err(stop_unbrought(fault)),
        }
    }

    /// Handles an item of the line of events: an event is held, and a frame is taken. `sender` is 0 for the keyboard, 1 for the mouse and 2
    /// for the host reader.
    ///
    /// Errors, which leave terminal, log and bytes as they were: `Frame(1)` for an event of the user from the host reader; `Frame(2)` for a
    /// frame that doesn't fit in version 2; else those of `user` or `receive`.
    #[tactic(auto, using(crate::proofs::TermSteps::handles_kept))]
    pub(crate) fn handle(&mut self, sender: usize, input: Input) -> Result<(), Stop>
        requires sender { sender < 3 }
        requires goes_on { CanGoOn self.old.end }
        ensures { Handled self.old sender input result self.new }
    {
        match input {
            Input::User(event) => {
                // The host reader sends no event of the user.
                if sender >= 2 {
                    return Err(Stop::Frame(1));
                }
                self.user(event)
            }
            Input::Host(frame) => {
                // The host reader sends no frame that is too long.
                if !fits_h(2, &frame.msg) {
                    return Err(Stop::Frame(2));
                }
                self.receive(frame)
            }
        }
    }

    /// Copies the first of the written bytes, at most `most` of them, as the next piece. Returns `None` if there are none. The only error
    /// is out of memory.
    fn next_piece(&self) -> Result<Option<Vec<u8>>, AllocError>
        ensures { IfOk result (IsNextPiece self.now) }
    {
        let bytes = self.end.pending_bytes();
        if bytes.is_empty() {
            return Ok(None);
        }
        let count = self.most.min(bytes.len());
        let piece = bytes[..count].to_vec(self.alloc)?;
        Ok(Some(piece))
    }

    /// Puts the next piece if the line has room for it, without waiting. Returns whether it put one. After an error, which is want of
    /// memory, all is as it was.
    #[tactic(auto, using(crate::proofs::TermSteps::piece_put, sam_ends::proofs::Cutting::none_put))]
    pub(crate) fn put<R: Wait>(
        &mut self,
        rt: &R,
        post: &mut Post<Vec<u8>>,
    ) -> Result<bool, AllocError>
        ensures puts { PutSome self.old.most post.old post.new (bytes_left self.old) (bytes_left self.new) }
        ensures on { IsPutOn self.old self.new }
        ensures nothing { IfOk result (λ put. OnFalse put (post.new ≡ post.old)) }
        ensures unchanged { OnErr result (self.new ≡ self.old) }
    {
        let Some(piece) = self.next_piece()? else {
            return Ok(false);
        };
        let count = piece.len();
        match post.try_send(rt, piece) {
            Ok(()) => {
                self.end.consume(count);
                Ok(true)
            }
            Err(_) => Ok(false),
        }
    }
}
