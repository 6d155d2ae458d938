//! A terminal at one end of a stream of bytes each way.

ghost use Rattle.std.specs.Prelude.{◌≡◌, ◌↔◌, IfErr, IfOk, IsOk, IsTrue, None, [], ◌<◌, ◌≤◌, true, false, drop, length, min, take, slice_get, ◌++◌};
ghost use Rattle.sam_endpoint.specs.Streams.{FitMessages};
ghost use Rattle.sam_endpoint.specs.TermEndpoints.{Asks, Feeds, Finishes, Flushes, GoesOn, IsIdle, Puts, decided, fault_place, new_term_endpoint, under_way};
ghost use Rattle.sam_endpoint.specs.TermSteps.{Acts, ActsAll, Composes, Decides, Gains, Holds, Receives, ReceivesAll, Resumes, Tries, Writes, end_fault, stopped_by};
ghost use Rattle.sam_mesg.specs.HostKinds.{fits_h};
ghost use Rattle.sam_term.specs.Fitting.{AllFit, composed_in};
ghost use Rattle.sam_term.specs.Term.{act_of, flush_of, take_of};

use crate::changes::{Change, Changes, frame_touch, len_if_open};
use crate::duplex::Duplex;
use crate::fault::{EndpointFault, FinishFault, TermStop};
use crate::known::know_messages;
use crate::step::Decision;
use sam_mesg::{Batch, HFrame, Tmesg};
use sam_term::{Acted, Refusal, TermFault, Terminal, UserEvent};
use std::alloc::{AllocError, Global};
use std::collections::VecDeque;
use std::marker::Model;

/// A terminal that takes the bytes of a host's frames and the user's events, and keeps the bytes of its messages until they are taken out.
///
/// At each `feed`, `put` and `flush_now` frames are received in order, and then events act for as long as no lock holds the oldest back.
/// Out of memory loses nothing: what could not be received, done or written waits, and the next of these calls goes on with it. A fault of
/// the stream, or a frame that the terminal refuses, stops the endpoint for good, once the frames before it are received. An event that the
/// terminal refuses stops nothing: `next_refusal` reports it.
///
/// ```rust
/// let mut endpoint = TermEndpoint::new(alloc);
/// endpoint.put(UserEvent::Version(2))?;        // the user does something
/// let count = endpoint.take_out(&mut buffer);  // bytes that go to the host
/// endpoint.feed(piece)?;                       // bytes that came from the host
/// let rasp = endpoint.term().rasp(1);          // what can be drawn of file 1, if it is open
/// ```
#[derive(Drop)]
pub struct TermEndpoint {
    /// The host's stream of frames, which wait until they are received, and the terminal's of messages. Nothing waits after a `feed`, `put`
    /// or `flush_now` that returned `Ok`. The framer has not failed while no fault is known.
    pub(crate) duplex: Duplex<HFrame, Tmesg, TermStop>,
    /// The terminal, as the frames and events so far left it. It holds at most as many events as `events` counts.
    pub(crate) term: Terminal,
    /// The stamp of the last frame that was received: how many messages the host had taken when it made it; 0 before the first. It is at
    /// most the count of the messages that the terminal composed.
    seen: u64,
    /// How many events were taken: the number of the last of them.
    events: u64,
    /// The events that were refused and `next_refusal` has not handed out, the oldest first: the number of each, from 1, and why.
    refusals: VecDeque<(u64, Refusal)>,
    /// How much of each text is as it was when `changed` was asked of it last.
    changes: Changes,
}

impl Model for TermEndpoint {
    ghost use Rattle.sam_endpoint.specs.TermEndpoints.{PlainTermEndpoint};
    ghost use Rattle.sam_endpoint.specs.TermEndpoints.{shown};
    ghost use Rattle.sam_endpoint.specs.TermSteps.{IsSound};

    ghost Value = { PlainTermEndpoint };

    ghost view = { shown };

    ghost invariant = { λ a. IsSound (shown a) };
}

impl TermEndpoint {
    /// Makes a terminal that knows no file, to which nothing was fed or put. It takes no memory.
    pub fn new(alloc: Global) -> TermEndpoint
        ensures { result ≡ new_term_endpoint }
    {
        TermEndpoint {
            duplex: Duplex::new(alloc),
            term: Terminal::new(alloc),
            seen: 0,
            events: 0,
            refusals: VecDeque::new(alloc),
            changes: Changes::new(alloc),
        }
    }

    /// Writes what was composed into the pending bytes, all or none. Its only error is `Unfinished`.
    #[tactic(auto, using(crate::proofs::TermEndpointMoves::none_written))]
    pub(crate) fn write_composed(&mut self) -> Result<(), EndpointFault<TermStop>>
        ensures { Writes self.old result self.new }
    {
        self.duplex.write()
    }

    /// Stops the endpoint for good if the fault is `Stopped`, and returns the fault.
    pub(crate) fn stop_by(&mut self, fault: EndpointFault<TermStop>) -> EndpointFault<TermStop>
        ensures answer { result ≡ fault }
        ensures stopped { self.new ≡ stopped_by self.old fault }
    {
        self.duplex.stop_by(fault)
    }

    /// Has the terminal receive the oldest frame that waits. Returns whether one waited.
    pub(crate) fn receive_first(&mut self) -> Result<bool, EndpointFault<TermStop>>
        ensures { Receives self.old result self.new }
    {
        let Some(frame) = self.duplex.first() else {
            return Ok(false);
        };
        let stamp = frame.seen;
        let touch = frame_touch(&self.term, &frame.msg);
        match receive_now(&mut self.term, frame) {
            Ok(composed) => {
                self.duplex.drop_oldest(1);
                self.duplex.leave_over(composed.into_vec());
                self.seen = stamp;
                self.changes.note(touch);
                Ok(true)
            }
            Err(fault) => Err(self.stop_by(fault)),
        }
    }

    /// Has the oldest held event act, and returns what became of it. Memory to report a refusal is had first.
    pub(crate) fn decide_first(&mut self) -> Result<Decision, EndpointFault<TermStop>>
        requires { self.old.unwritten ≡ [] }
        ensures { Decides self.old result self.new }
    {
        if holds_no_event(&self.term) {
            return Ok(Decision::Idle);
        }
        if self.refusals.reserve(1).is_err() {
            return Err(EndpointFault::Unfinished);
        }
        let touch = self.changes.oldest_noted(&self.term);
        match act_now(&mut self.term) {
            Ok(Acted::Idle) => Ok(Decision::Idle),
            Ok(Acted::Locked) => Ok(Decision::Locked),
            Ok(Acted::Done(composed)) => {
                self.duplex.leave_over(composed.into_vec());
                self.changes.note(touch);
                Ok(Decision::Acted)
            }
            Ok(Acted::Refused(why)) => {
                let number = self.events - self.term.held() as u64;
                self.refusals.push_back_reserved((number, why));
                Ok(Decision::Refused(why))
            }
            Err(fault) => Err(self.stop_by(fault)),
        }
    }

    /// Has the oldest held event act. Returns whether it could.
    fn act_first(&mut self) -> Result<bool, EndpointFault<TermStop>>
        requires { self.old.unwritten ≡ [] }
        ensures { Acts self.old result self.new }
    {
        match self.decide_first() {
            Ok(Decision::Idle) => Ok(false),
            Ok(Decision::Locked) => Ok(false),
            Ok(Decision::Acted) => Ok(true),
            Ok(Decision::Refused(_)) => Ok(true),
            Err(why) => Err(why),
        }
    }

    /// Receives the frames that wait, and writes what they compose.
    fn receive_all(&mut self) -> Result<(), EndpointFault<TermStop>>
        requires { self.old.stop ≡ None }
        ensures { ReceivesAll self.old result self.new }
    {
        self.write_composed()?;
        while self.receive_first()? {
            self.write_composed()?;
        }
        Ok(())
    }

    /// Has events act while one can, and writes what they compose.
    fn act_all(&mut self) -> Result<(), EndpointFault<TermStop>>
        requires idle { IsIdle self.old }
        requires running { self.old.stop ≡ None }
        ensures { ActsAll self.old result self.new }
    {
        while self.act_first()? {
            self.write_composed()?;
        }
        Ok(())
    }

    /// Goes on with what waits: it writes, receives, stops at a fault of the stream, and then has events act.
    #[tactic(auto, using(crate::proofs::TermEndpointCalls::going_acts))]
    fn go_on(&mut self) -> Result<(), EndpointFault<TermStop>>
        requires { self.old.stop ≡ None }
        ensures { GoesOn self.old result self.new }
    {
        self.receive_all()?;
        if let Some(why) = self.duplex.broken_by() {
            return Err(self.stop_by(EndpointFault::Stopped(TermStop::Stream(why))));
        }
        self.act_all()
    }

    /// Goes on with what waits, before the call's own work. An endpoint that has stopped answers why.
    fn resume(&mut self) -> Result<(), EndpointFault<TermStop>>
        ensures { Resumes self.old result self.new }
    {
        if let Some(why) = self.duplex.stopped() {
            return Err(EndpointFault::Stopped(why));
        }
        match self.go_on() {
            Ok(()) => Ok(()),
            Err(why) => Err(why.not_taken()),
        }
    }

    /// Feeds the piece to the framer when nothing waits. Then its frames wait, and perhaps a fault after them.
    pub(crate) fn take_in(&mut self, piece: &[u8]) -> Result<(), EndpointFault<TermStop>>
        requires { self.old.broken_by ≡ None }
        ensures { Gains self.old piece.now result self.new }
    {
        self.duplex.take_in(piece)
    }

    /// Holds an event after the others, and counts it. The errors are `CountFull` and then `OutOfMemory`.
    pub(crate) fn hold(&mut self, event: UserEvent) -> Result<(), EndpointFault<TermStop>>
        ensures { Holds self.old event result self.new }
    {
        if self.events == u64::MAX {
            return Err(EndpointFault::CountFull);
        }
        if self.term.user(event).is_err() {
            return Err(EndpointFault::OutOfMemory);
        }
        self.events += 1;
        Ok(())
    }

    /// Composes the runes that were typed and are in no message yet. The errors are `Stopped` for a full count and then `OutOfMemory`.
    pub(crate) fn compose_unsent(&mut self) -> Result<(), EndpointFault<TermStop>>
        requires { self.old.unwritten ≡ [] }
        ensures { Composes self.old result self.new }
    {
        match flush_now(&mut self.term) {
            Ok(composed) => {
                self.duplex.leave_over(composed.into_vec());
                Ok(())
            }
            Err(fault) => Err(self.stop_by(fault).not_taken()),
        }
    }

    /// Takes an event of the user. It goes on with what waits, holds the event after the others, and then has events act while one can.
    /// An event that is refused is no error: `next_refusal` reports it by its number.
    ///
    /// Errors, in this order:
    ///
    /// - `Stopped` if the endpoint had stopped before. It is as it was.
    /// - `OutOfMemory`, or `Stopped`, as what waited goes on.
    /// - `CountFull` if 2^64-1 events were taken before, and then `OutOfMemory` if there is no room for the event.
    /// - `Unfinished` or `Stopped`, as events act. The event is taken, and after `Unfinished` the next call goes on.
    ///
    /// In all but the last case the event is dropped; after `OutOfMemory` it is to be put again.
    pub fn put(&mut self, event: UserEvent) -> Result<(), EndpointFault<TermStop>>
        ensures { Puts self.old event result self.new }
    {
        self.resume()?;
        self.hold(event)?;
        self.go_on()
    }

    /// Takes a piece of the host's stream, of any length. The terminal receives the frames that are whole with it, and then events act
    /// while one can. Before that it goes on with what waited; with an empty piece it does just that.
    ///
    /// Errors, in this order:
    ///
    /// - `Stopped` if the endpoint had stopped before. It is as it was.
    /// - `OutOfMemory`, or `Stopped`, as what waited goes on. The piece is not taken.
    /// - `CountFull` if the stream would be longer than 2^64-1 bytes, and then `OutOfMemory`. The piece is not taken.
    /// - `Unfinished` or `Stopped`, as frames are received and events act. The piece is taken, and after `Unfinished` the next call goes
    ///   on.
    ///
    /// It stops at a frame that the terminal refuses, at a fault of the stream after all frames, or at an event whose messages can't be
    /// counted.
    pub fn feed(&mut self, piece: &[u8]) -> Result<(), EndpointFault<TermStop>>
        ensures { Feeds self.old piece.now result self.new }
    {
        self.resume()?;
        self.take_in(piece)?;
        self.go_on()
    }

    /// Sends the runes that were typed and are in no message yet. A program calls it when there is nothing else to do, as when the user
    /// pauses.
    ///
    /// Errors, in this order:
    ///
    /// - `Stopped` if the endpoint had stopped before. It is as it was.
    /// - `OutOfMemory`, or `Stopped`, as what waited goes on.
    /// - `Stopped` if more than 2^64-1 messages would be composed, and then `OutOfMemory`. The runes are as they were, so after
    ///   `OutOfMemory` it is to be called again.
    /// - `Unfinished` or `Stopped`, as the message is written and events act. After `Unfinished` the next call goes on.
    pub fn flush_now(&mut self) -> Result<(), EndpointFault<TermStop>>
        ensures { Flushes self.old result self.new }
    {
        self.resume()?;
        self.compose_unsent()?;
        self.go_on()
    }

    /// Says whether the host's stream may end here. Errors, in this order: `Stopped` if the endpoint has stopped before; `Unfinished` if
    /// some of what came or was composed waits, since memory was refused; `Truncated` if the stream ends inside a frame. A program asks it
    /// where its input has ended.
    pub fn finish(&self) -> Result<(), FinishFault<TermStop>>
        ensures { Finishes self.now result }
    {
        self.duplex.finish()
    }

    /// Returns how many bytes for the host wait to be taken out.
    pub fn pending(&self) -> usize
        ensures { result ≡ length self.now.pending_bytes }
    {
        self.duplex.pending()
    }

    /// Moves the first bytes for the host into the buffer, as many as wait and have room there, and returns how many. The rest of the
    /// buffer stays as it was, and so does everything else of the endpoint. It works on an endpoint that has stopped, too. The cost is that
    /// of the bytes it moves.
    pub fn take_out(&mut self, into: &mut [u8]) -> usize
        ensures count { result ≡ min (length self.old.pending_bytes) (length into.old) }
        ensures bytes { into.new ≡ take result self.old.pending_bytes ++ drop result into.old }
        ensures rest { self.new ≡ record self.old { pending_bytes = drop result self.old.pending_bytes } }
    {
        self.duplex.take_out(into)
    }

    /// Lends the bytes for the host that wait to be taken out, in order.
    pub fn pending_bytes(&self) -> &[u8]
        ensures { result.now ≡ self.now.pending_bytes }
    {
        self.duplex.pending_bytes()
    }

    /// Takes out the first `count` bytes for the host without moving them, or all if there are fewer. Everything else of the endpoint stays
    /// as it was.
    pub fn consume(&mut self, count: usize)
        ensures { self.new ≡ record self.old { pending_bytes = drop count self.old.pending_bytes } }
    {
        self.duplex.consume(count);
    }

    /// Hands out the oldest event that was refused and was not handed out before: its number, counted from 1 over all events that were
    /// taken, and why. Returns `None` if there is none.
    pub fn next_refusal(&mut self) -> Option<(u64, Refusal)>
        ensures told { result ≡ slice_get self.old.refusals 0 }
        ensures rest { self.new ≡ record self.old { refusals = drop 1 self.old.refusals } }
    {
        self.refusals.pop_front()
    }

    /// Returns the smallest stretch of an open file's text that is known to have changed since this was asked of it last: on the first call
    /// the text was empty before. Loaded runes count as changed. `None` if the file is not open. Its only error is out of memory, on the
    /// first call for a tag; the endpoint is then as it was.
    ///
    /// Each frame and each event narrows what stays by its own range, so a caller that asks after each of them gets each edit. The cost is
    /// constant.
    pub fn changed(&mut self, tag: u16) -> Result<Option<Change>, AllocError>
        ensures { Asks self.old tag result self.new }
    {
        let Some(len) = len_if_open(&self.term, tag) else {
            return Ok(None);
        };
        match self.changes.ask(tag, len) {
            Ok(change) => Ok(Some(change)),
            Err(why) => Err(why),
        }
    }

    /// Returns the terminal, to be read and drawn.
    pub fn term(&self) -> &Terminal
        ensures { result.now ≡ self.now.term }
    {
        &self.term
    }

    /// Returns why the endpoint has stopped for good; `None` while it goes on.
    pub fn stopped(&self) -> Option<TermStop>
        ensures { result ≡ self.now.stop }
    {
        self.duplex.stopped()
    }

    /// Returns where the fault of the host's stream is at which the endpoint has stopped: how many bytes of the stream stand before the
    /// frame that is wrong. `None` if it goes on, or has stopped since the terminal refused.
    pub fn fault_place(&self) -> Option<u64>
        ensures { result ≡ fault_place self.now }
    {
        match self.duplex.stopped() {
            Some(TermStop::Stream(_)) => Some(self.duplex.place()),
            Some(TermStop::Refused(_)) | None => None,
        }
    }

    /// Returns whether no frame waits to be received and no message waits to be written. Only a lock, out of memory or a stop can then
    /// hold an event back. It is so whenever `put`, `feed` or `flush_now` has returned `Ok`.
    pub fn is_idle(&self) -> bool
        ensures { IsTrue result ↔ IsIdle self.now }
    {
        self.duplex.is_idle()
    }

    /// Returns the stamp of the last frame that was received: how many messages the host had taken when it made that frame; 0 before the
    /// first. It never goes down where the host keeps to the protocol, and it is at most the count of composed messages.
    pub fn seen(&self) -> u64
        ensures stamp { result ≡ self.now.seen }
        ensures most { result ≤ self.now.term.sent }
    {
        self.seen
    }

    /// Returns how many of the composed messages the host has not taken, as far as its frames say: those above the stamp of the last
    /// frame that was received. It is an upper bound, and 0 means that the host has taken them all.
    ///
    /// The host answers a `Tcut`, a `Tack`, a `Ttype` that ends no command line, and a `Trequest` for a file that is gone, by no frame, and
    /// answers nothing once it is done. Such a message counts until the host answers a later one. To learn that it arrived, compose one
    /// that is answered at once and changes no text: `UserEvent::Check`. Once the session is over, what is under way counts for good.
    pub fn under_way(&self) -> u64
        ensures { result ≡ under_way self.now }
    {
        self.term.sent() - self.seen
    }

    /// Returns how many events were taken: right after a call that took one, the number of this event.
    pub fn events(&self) -> u64
        ensures { result ≡ self.now.events }
    {
        self.events
    }

    /// Returns how many of the events that were taken have acted or were refused. Events are done in order: that of number `n`, counted
    /// from 1, is held if and only if this is below `n`.
    pub fn decided(&self) -> u64
        ensures { result ≡ decided self.now }
    {
        self.events - self.term.held() as u64
    }

    /// Takes the endpoint apart, and returns its terminal. What waits and what is pending is dropped.
    pub fn into_terminal(self) -> Terminal
        ensures { result ≡ self.term }
    {
        let TermEndpoint {
            duplex: _,
            term,
            seen: _,
            events: _,
            refusals: _,
            changes: _,
        } = self;
        term
    }
}

/// Returns what a fault of the terminal is for the endpoint: out of memory leaves work unfinished, and any other fault stops it.
fn end_fault(why: TermFault) -> EndpointFault<TermStop>
    ensures { result ≡ end_fault why }
{
    match why {
        TermFault::OutOfMemory => EndpointFault::Unfinished,
        _ => EndpointFault::Stopped(TermStop::Refused(why)),
    }
}

/// Returns whether no event is held.
#[tactic(auto, using(crate::proofs::TermEndpointSteps::none_acts))]
fn holds_no_event(term: &Terminal) -> bool
    ensures idle { result ≡ true → act_of term.now ≡ Ok (term.now, Acted.Idle) }
    ensures held { result ≡ false → 0 < length term.now.held }
{
    term.held() == 0
}

/// Has the terminal receive a frame, and returns what it composes. After an error the terminal is as it was.
fn receive_now(term: &mut Terminal, frame: &HFrame) -> Result<Batch, EndpointFault<TermStop>>
    requires { IsTrue (fits_h 2 frame.now.msg) }
    ensures tries { Tries term.old (take_of term.old frame.now) result term.new }
    ensures fit { IfOk result AllFit }
    ensures known { IfOk result FitMessages }
{
    match term.receive_lent(frame) {
        Ok(composed) => {
            know_messages(composed.as_slice());
            Ok(composed)
        }
        Err(why) => Err(end_fault(why)),
    }
}

/// Has the terminal's oldest event act, and returns what became of it. After an error the terminal is as it was.
fn act_now(term: &mut Terminal) -> Result<Acted, EndpointFault<TermStop>>
    ensures tries { Tries term.old (act_of term.old) result term.new }
    ensures fit { IfOk result (λ acted. AllFit (composed_in acted)) }
    ensures known { IfOk result (λ acted. FitMessages (composed_in acted)) }
{
    match term.act() {
        Ok(Acted::Done(composed)) => {
            know_messages(composed.as_slice());
            Ok(Acted::Done(composed))
        }
        Ok(acted) => Ok(acted),
        Err(why) => Err(end_fault(why)),
    }
}

/// Has the terminal compose its unsent runes, and returns their message. After an error the terminal is as it was.
fn flush_now(term: &mut Terminal) -> Result<Batch, EndpointFault<TermStop>>
    ensures tries { Tries term.old (flush_of term.old) result term.new }
    ensures counted { IfErr result (λ why. why ≡ EndpointFault.Unfinished → IsOk (flush_of term.old)) }
    ensures fit { IfOk result AllFit }
    ensures known { IfOk result FitMessages }
{
    match term.flush() {
        Ok(composed) => {
            know_messages(composed.as_slice());
            Ok(composed)
        }
        Err(why) => Err(end_fault(why)),
    }
}
