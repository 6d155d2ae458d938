//! The two streams of an endpoint: the other side's, whose messages come in and wait, and its own, whose bytes go out.

ghost use Rattle.std.specs.Prelude.{◌≡◌, ◌↔◌, ◌<◌, ◌++◌, ◌∷◌, [], IsTrue, None, OnOk, OnErr, false, drop, length, min, option_copied, slice_get, take};
ghost use Rattle.sam_frame.specs.Stream.{CanEncode};
ghost use Rattle.sam_endpoint.specs.Duplexes.{Finishes, IsDone, IsIdle, MayBring, TakesPiece, WritesAll, all_written, new_duplex, stopped_by};

use crate::fault::{EndpointFault, FinishFault, StreamFault};
use crate::incoming::{drop_oldest, feed_framer};
use crate::step::BringFault;
use sam_frame::{Framer, PendingBytes, Wire};
use std::alloc::{AllocError, Global};
use std::collections::VecDeque;
use std::marker::Model;

/// The two streams of an endpoint. Messages of the other side wait here until the endpoint handles them, and what it makes of them is left
/// over until it is written. Who holds one keeps the order: nothing is fed while something waits.
#[derive(Drop)]
pub(crate) struct Duplex<In: Wire, Out: Wire, Stop> {
    /// Cuts the other side's stream into messages.
    framer: Framer<In>,
    /// The messages that came and are not handled yet, the oldest first.
    waiting: VecDeque<In>,
    /// What is wrong with the stream after these messages; `None` if nothing is.
    broken_by: Option<StreamFault>,
    /// What was made last, while its bytes are not pending.
    unwritten: Vec<Out>,
    /// The bytes for the other side that were not taken out yet.
    pending_bytes: PendingBytes,
    /// Why the endpoint has stopped for good; `None` while it goes on.
    stop: Option<Stop>,
}

impl<In: Wire, Out: Wire, Stop> Model for Duplex<In, Out, Stop> {
    ghost use Rattle.sam_endpoint.specs.Duplexes.{PlainDuplex};

    ghost Value = { PlainDuplex In Out Stop };

    ghost view = { λ a. record {
      framer = a.framer;
      waiting = a.waiting.items;
      broken_by = a.broken_by;
      unwritten = a.unwritten.items;
      pending_bytes = a.pending_bytes;
      stop = a.stop;
    } };
}

impl<In: Wire, Out: Wire, Stop: Copy> Duplex<In, Out, Stop> {
    /// Makes streams on which nothing came or went. It takes no memory.
    pub(crate) fn new(alloc: Global) -> Duplex<In, Out, Stop>
        ensures { result ≡ new_duplex }
    {
        Duplex {
            framer: Framer::new(alloc),
            waiting: VecDeque::new(alloc),
            broken_by: None,
            unwritten: Vec::new(alloc),
            pending_bytes: PendingBytes::new(alloc),
            stop: None,
        }
    }

    /// Feeds the piece to the framer when nothing waits. Then its messages wait, and perhaps a fault after them. The errors are `CountFull`
    /// and then `OutOfMemory`, and leave all as it was.
    pub(crate) fn take_in(&mut self, piece: &[u8]) -> Result<(), EndpointFault<Stop>>
        requires { self.old.framer.failed ≡ false }
        ensures { TakesPiece In.direction self.old piece.now result self.new }
    {
        let (messages, broken_by) = feed_framer(&mut self.framer, piece)?;
        self.waiting = VecDeque::from_vec(messages);
        self.broken_by = broken_by;
        Ok(())
    }

    /// Puts one message behind those that wait, instead of its bytes. Its only error is out of memory, which leaves all as it was.
    pub(crate) fn put_waiting(&mut self, message: In) -> Result<(), AllocError>
        ensures put { OnOk result (self.new ≡ record self.old { waiting = self.old.waiting ++ message ∷ [] }) }
        ensures unchanged { OnErr result (self.new ≡ self.old) }
    {
        self.waiting.reserve(1)?;
        self.waiting.push_back_reserved(message);
        Ok(())
    }

    /// Lends the messages that wait.
    pub(crate) fn waiting(&self) -> &VecDeque<In>
        ensures { result.now.items ≡ self.now.waiting }
    {
        &self.waiting
    }

    /// Lends the oldest message that waits; `None` if none waits.
    pub(crate) fn first(&self) -> Option<&In>
        ensures { option_copied result ≡ slice_get self.now.waiting 0 }
    {
        self.waiting.front()
    }

    /// Drops the oldest messages that wait, so many, or all if there are fewer.
    pub(crate) fn drop_oldest(&mut self, count: usize)
        ensures { self.new ≡ record self.old { waiting = drop count self.old.waiting } }
    {
        drop_oldest(&mut self.waiting, count);
    }

    /// Returns whether a message waits to be handled.
    pub(crate) fn is_waiting(&self) -> bool
        ensures { IsTrue result ↔ (0 < length self.now.waiting) }
    {
        !self.waiting.is_empty()
    }

    /// Returns what is wrong with the other side's stream after the messages that wait; `None` if nothing is.
    pub(crate) fn broken_by(&self) -> Option<StreamFault>
        ensures { result ≡ self.now.broken_by }
    {
        self.broken_by
    }

    /// Leaves messages over to be written, in the place of what was left over.
    pub(crate) fn leave_over(&mut self, made: Vec<Out>)
        ensures { self.new ≡ record self.old { unwritten = made.items } }
    {
        self.unwritten = made;
    }

    /// Returns whether something is left over to be written.
    pub(crate) fn has_unwritten(&self) -> bool
        ensures { IsTrue result ↔ (0 < length self.now.unwritten) }
    {
        !self.unwritten.is_empty()
    }

    /// Writes what is left over into the pending bytes, all or none. Its only error is `Unfinished`.
    #[tactic(auto, using(crate::proofs::Duplexes::none_written))]
    pub(crate) fn write(&mut self) -> Result<(), EndpointFault<Stop>>
        requires { CanEncode Out.direction self.old.unwritten }
        ensures { WritesAll Out.direction self.old result self.new }
    {
        if self.unwritten.is_empty() {
            return Ok(());
        }
        let written = self.pending_bytes.put_messages(self.unwritten.as_slice());
        if written.is_err() {
            return Err(EndpointFault::Unfinished);
        }
        self.unwritten.clear();
        Ok(())
    }

    /// Writes what is left over and then this message into the pending bytes, all or none. Its only error is out of memory, which leaves
    /// all as it was.
    #[tactic(auto, using(crate::proofs::Duplexes::one_put))]
    pub(crate) fn write_behind(&mut self, message: Out) -> Result<(), AllocError>
        requires { CanEncode Out.direction (self.old.unwritten ++ message ∷ []) }
        ensures written { OnOk result (self.new ≡ all_written Out.direction self.old (message ∷ [])) }
        ensures unchanged { OnErr result (self.new ≡ self.old) }
    {
        if self.unwritten.push(message).is_err() {
            return Err(AllocError);
        }
        if self.write().is_err() {
            self.unwritten.pop();
            return Err(AllocError);
        }
        Ok(())
    }

    /// Returns whether nothing waits to be handled and nothing is left over to be written.
    pub(crate) fn is_idle(&self) -> bool
        ensures { IsTrue result ↔ IsIdle self.now }
    {
        self.waiting.is_empty() && self.unwritten.is_empty()
    }

    /// Returns whether it is idle, and no fault stands after what came.
    fn is_done(&self) -> bool
        ensures { IsTrue result ↔ IsDone self.now }
    {
        self.broken_by.is_none() && self.is_idle()
    }

    /// Says whether the other side's stream may end here. Errors, in this order: `Stopped` if the endpoint has stopped before;
    /// `Unfinished` if some of what came or was made waits; `Truncated` if the stream ends inside a message.
    pub(crate) fn finish(&self) -> Result<(), FinishFault<Stop>>
        requires { self.now.broken_by ≡ None → self.now.framer.failed ≡ false }
        ensures { Finishes self.now result }
    {
        if let Some(why) = self.stop {
            return Err(FinishFault::Stopped(why));
        }
        if !self.is_done() {
            return Err(FinishFault::Unfinished);
        }
        if self.framer.finish().is_err() {
            return Err(FinishFault::Truncated);
        }
        Ok(())
    }

    /// Finds whether a piece or a message can be brought. Errors, in this order: `Stopped` if the endpoint has stopped before; `Waiting` if
    /// something of before waits.
    pub(crate) fn check_ready(&self) -> Result<(), BringFault<Stop>>
        ensures { MayBring self.now result }
    {
        if let Some(why) = self.stop {
            return Err(BringFault::Stopped(why));
        }
        if !self.is_done() {
            return Err(BringFault::Waiting);
        }
        Ok(())
    }

    /// Returns how many bytes wait to be taken out.
    pub(crate) fn pending(&self) -> usize
        ensures { result ≡ length self.now.pending_bytes }
    {
        self.pending_bytes.len()
    }

    /// Moves the first bytes into the buffer, as many as wait and have room there, and returns how many. The rest of the buffer stays as
    /// it was.
    pub(crate) fn take_out(&mut self, into: &mut [u8]) -> usize
        ensures count { result ≡ min (length self.old.pending_bytes) (length into.old) }
        ensures bytes { into.new ≡ take result self.old.pending_bytes ++ drop result into.old }
        ensures rest { self.new ≡ record self.old { pending_bytes = drop result self.old.pending_bytes } }
    {
        self.pending_bytes.take_into(into)
    }

    /// Lends the bytes that wait to be taken out, in order.
    pub(crate) fn pending_bytes(&self) -> &[u8]
        ensures { result.now ≡ self.now.pending_bytes }
    {
        self.pending_bytes.as_slice()
    }

    /// Takes out the first `count` bytes without moving them, or all if fewer wait.
    pub(crate) fn consume(&mut self, count: usize)
        ensures { self.new ≡ record self.old { pending_bytes = drop count self.old.pending_bytes } }
    {
        self.pending_bytes.consume(count);
    }

    /// Stops the endpoint for good if the fault is `Stopped`, and returns the fault.
    pub(crate) fn stop_by(&mut self, fault: EndpointFault<Stop>) -> EndpointFault<Stop>
        ensures answer { result ≡ fault }
        ensures stopped { self.new ≡ stopped_by self.old fault }
    {
        if let EndpointFault::Stopped(why) = &fault {
            self.stop = Some(*why);
        }
        fault
    }

    /// Returns why the endpoint has stopped for good; `None` while it goes on.
    pub(crate) fn stopped(&self) -> Option<Stop>
        ensures { result ≡ self.now.stop }
    {
        self.stop
    }

    /// Returns how many bytes of the other side's stream stand before what the framer holds. After a fault the wrong frame begins there.
    pub(crate) fn place(&self) -> u64
        ensures { result ≡ self.now.framer.offset }
    {
        self.framer.place()
    }
}
