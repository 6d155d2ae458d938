//! The worker of the host.

ghost use Rattle.std.specs.Prelude.{◌≡◌, ◌<◌, ◌≤◌, ◌++◌, [], List, ℕ, All, IsTrue, IsFalse, OnErr, OnOk, Some, None, true, false, length};
ghost use Rattle.std.specs.Global.{Vec};
ghost use Rattle.sam_runes.specs.Texts.{most_files};
ghost use Rattle.sam_host.specs.Host.{new_host};
ghost use Rattle.sam_endpoint.specs.HostStepping.{IsReady};
ghost use Rattle.sam_queue.specs.declared.rule.Entry.{Entry};
ghost use Rattle.sam_queue.specs.History.{IsEnded};
ghost use Rattle.sam_queue.specs.Views.{new_take, new_post};
ghost use Rattle.sam_sides.specs.Given.{IsFile};
ghost use Rattle.sam_ends.specs.Cutting.{Puts};
ghost use Rattle.sam_ends.specs.Gates.{LetOn, HostKeptOut};
ghost use Rattle.sam_workers.specs.Handling.{Brings, IsGoing, IsQuiet, Serves, StepsDown, TakesPiece, stop_of};
ghost use Rattle.sam_ends.specs.WorkerEnds.{HostTold};
ghost use Rattle.sam_ends.specs.declared.stop.Stop.TheVariants.{Gate as GateStop};

use crate::drain::drop_rest;
use crate::pieces::send_pieces;
use sam_endpoint::{BringFault, EndpointFault, HostEndpoint, HostStep, HostStop};
use sam_ends::{Gate, HOST, HostEnd, HostTask, Stop};
use sam_frame::FeedRefusal;
use sam_queue::{Got, Post, Take};
use std::alloc::{AllocError, Global};
use std::sync::Wait;

/// Returns why the worker stops where the endpoint could not make a step.
fn stop_of(fault: EndpointFault<HostStop>) -> Stop
    ensures { result ≡ stop_of fault }
{
    match fault {
        EndpointFault::OutOfMemory | EndpointFault::Unfinished => Stop::Memory,
        EndpointFault::CountFull => Stop::from(FeedRefusal::CountFull),
        EndpointFault::Stopped(HostStop::Stream(why)) => Stop::Frame(why.number()),
        EndpointFault::Stopped(HostStop::Refused(why)) => Stop::from(why),
    }
}

/// The host's endpoint between its two lines. Bytes go from the line up into the endpoint, and its bytes into the post.
#[derive(Drop)]
struct HostSide<'q> {
    /// Where pieces take their memory from.
    alloc: Global,
    /// The most bytes of a piece: at least 1.
    piece: usize,
    /// The endpoint, as its steps so far left it.
    end: HostEndpoint,
    /// The worker's post to the line down, open until the worker has come to its end.
    post: Post<'q, Vec<u8>>,
}

impl HostSide<'_> {
    /// Puts the bytes that are pending into the line down, and waits while it is full. Its only error is out of memory; the first of the
    /// bytes may then have been put, and all are still pending.
    fn send<R: Wait>(&mut self, rt: &R) -> Result<(), AllocError>
        requires piece { 0 < self.old.piece }
        requires open { self.old.post.closed ≡ false }
        ensures piece { self.new.piece ≡ self.old.piece }
        ensures puts { Puts self.old.piece self.old.post self.new.post self.old.end.pending_bytes result }
        ensures sent { OnOk result (self.new.end ≡ record self.old.end { pending_bytes = [] }) }
        ensures pending { OnErr result (self.new.end ≡ self.old.end) }
    {
        let bytes = self.end.pending_bytes();
        let count = bytes.len();
        send_pieces(rt, self.alloc, &mut self.post, bytes, self.piece)?;
        self.end.consume(count);
        Ok(())
    }

    /// Returns whether the gate lets the worker make the endpoint's next step. It is asked only where the host would take a message.
    fn may_step<G: Gate>(&self, gate: &G) -> bool
        ensures refused { IsFalse result → G.may_refuse gate.now 2 }
        ensures let_on { IsTrue result → self.now.end.unwritten ≡ [] → 0 < length self.now.end.waiting
            → G.must_refuse gate.now 2 (Some self.now.end.host.taken) → ⊥ }
    {
        if self.end.has_unwritten() || self.end.next_message().is_none() {
            return true;
        }
        gate.go_on(HOST, self.end.host().taken())
    }

    /// Makes the endpoint's next step, if the gate lets it, and puts the bytes that are then pending. Returns whether the step did
    /// something; if not, nothing waits. The error is why it stopped.
    #[tactic(auto, using(sam_ends::proofs::GateLaws::let_on_none))]
    fn step<R: Wait, G: Gate>(&mut self, rt: &R, gate: &G) -> Result<bool, Stop>
        requires piece { 0 < self.old.piece }
        requires open { self.old.post.closed ≡ false }
        requires going { IsGoing self.old.end }
        ensures piece { self.new.piece ≡ self.old.piece }
        ensures steps { StepsDown (G.may_refuse gate.now 2) self.old.end self.new.end self.old.post self.new.post result }
        ensures let_on { LetOn (G.must_refuse gate.now 2) self.old.end.host.taken self.new.end.host.taken }
    {
        if !self.may_step(gate) {
            return Err(Stop::Gate);
        }
        let step = match self.end.step_message() {
            Ok(step) => step,
            Err(fault) => return Err(stop_of(fault)),
        };
        if let HostStep::Idle = step {
            return Ok(false);
        }
        match self.send(rt) {
            Ok(()) => Ok(true),
            Err(_) => Err(Stop::Memory),
        }
    }

    /// Brings the piece to the endpoint, which waits for nothing. The error is why it did not take it.
    fn bring(&mut self, piece: &[u8]) -> Result<(), Stop>
        requires { IsReady self.old.end }
        ensures piece { self.new.piece ≡ self.old.piece }
        ensures post { self.new.post ≡ self.old.post }
        ensures brings { Brings self.old.end self.new.end piece.now result }
    {
        match self.end.bring(piece) {
            Ok(()) => Ok(()),
            Err(BringFault::CountFull) => Err(Stop::from(FeedRefusal::CountFull)),
            Err(BringFault::OutOfMemory) => Err(Stop::Memory),
            Err(BringFault::Stopped(_) | BringFault::Waiting) => unreachable!(),
        }
    }

    /// Has the host answer the messages that are whole with this piece, also those before a fault of the stream.
    #[tactic(auto, using(sam_ends::proofs::GateLaws::let_on_none))]
    fn take_piece<R: Wait, G: Gate>(&mut self, rt: &R, gate: &G, piece: &[u8]) -> Result<(), Stop>
        requires piece { 0 < self.old.piece }
        requires open { self.old.post.closed ≡ false }
        requires quiet { IsQuiet self.old.end }
        ensures piece { self.new.piece ≡ self.old.piece }
        ensures takes { TakesPiece (G.may_refuse gate.now 2) self.old.end self.new.end self.old.post self.new.post piece.now result }
        ensures let_on { LetOn (G.must_refuse gate.now 2) self.old.end.host.taken self.new.end.host.taken }
    {
        self.bring(piece)?;
        while self.step(rt, gate)? {}
        Ok(())
    }

    /// Handles what comes until the end mark. Returns what stopped it before that.
    #[tactic(auto, using(sam_queue::proofs::Laws::items_of_mark, sam_ends::proofs::GateLaws::let_on_none))]
    fn serve<R: Wait, G: Gate>(
        &mut self,
        rt: &R,
        gate: &G,
        take: &mut Take<Vec<u8>>,
    ) -> Option<Stop>
        requires piece { 0 < self.old.piece }
        requires open { self.old.post.closed ≡ false }
        requires quiet { IsQuiet self.old.end }
        requires take { take.old ≡ new_take take.old.line }
        requires one { take.old.line.senders ≡ 1 }
        ensures line { take.new.line ≡ take.old.line }
        ensures serves { Serves (G.may_refuse gate.now 2) self.old.end self.new.end self.old.post self.new.post take.new.taken result }
        ensures let_on { LetOn (G.must_refuse gate.now 2) self.old.end.host.taken self.new.end.host.taken }
    {
        for _ in rt.forever() {
            match take.recv(rt) {
                Got::Item(_, piece) => match self.take_piece(rt, gate, piece.as_slice()) {
                    Ok(()) => {}
                    Err(stop) => return Some(stop),
                },
                Got::Left(_) => {}
                Got::Ended => return None,
                Got::Empty => unreachable!(),
            }
        }
        unreachable!()
    }

    /// Serves if the gate lets the worker begin. Returns whether it did, and what stopped it.
    #[tactic(auto, using(crate::proofs::HostWhole::serves_nothing, sam_ends::proofs::GateLaws::let_on_none))]
    fn run<R: Wait, G: Gate>(
        &mut self,
        rt: &R,
        gate: &G,
        take: &mut Take<Vec<u8>>,
    ) -> (bool, Option<Stop>)
        requires piece { 0 < self.old.piece }
        requires open { self.old.post.closed ≡ false }
        requires quiet { IsQuiet self.old.end }
        requires take { take.old ≡ new_take take.old.line }
        requires one { take.old.line.senders ≡ 1 }
        ensures line { take.new.line ≡ take.old.line }
        ensures begins { result.0 ≡ false → G.may_refuse gate.now 2 }
        ensures kept_out { result.0 ≡ false →
            (result.1 ≡ Some GateStop) × (self.new.post ≡ self.old.post) × (self.new.end ≡ self.old.end) }
        ensures serves { Serves (G.may_refuse gate.now 2) self.old.end self.new.end self.old.post self.new.post take.new.taken result.1 }
        ensures let_in { result.0 ≡ true → G.must_refuse gate.now 2 None → ⊥ }
        ensures let_on { LetOn (G.must_refuse gate.now 2) self.old.end.host.taken self.new.end.host.taken }
    {
        if !gate.pass(HOST) {
            return (false, Some(Stop::Gate));
        }
        (true, self.serve(rt, gate, take))
    }
}

/// Takes and drops the rest if something stopped the worker. If nothing did, the end mark was taken already.
fn drop_after<R: Wait>(rt: &R, take: &mut Take<Vec<u8>>, stop: Option<Stop>)
    requires { stop ≡ None → IsEnded take.old.line.senders take.old.taken }
    ensures line { take.new.line ≡ take.old.line }
    ensures taken { (more : List (Entry (Vec ℕ))) × (take.new.taken ≡ take.old.taken ++ more) × (stop ≡ None → more ≡ []) }
    ensures ended { IsEnded take.new.line.senders take.new.taken }
{
    if stop.is_none() {
        return;
    }
    drop_rest(rt, take);
}

/// Handles the messages that come up, sends the frames of the answers down in pieces of at most `piece` bytes, and returns the worker's
/// end. It is worker 2, the host. It waits while the line up is empty or the line down is full.
///
/// The end's `stop` says why it stopped before the end mark: `Gate` if the gate refused it; `Host` if the host refused a message;
/// `Frame(1)`, `Frame(2)` or `Frame(3)` for a fault of the stream, once the messages before the fault are handled; `Frame(7)` if the
/// stream is longer than 2^64-1 bytes; `Memory` when out of memory, and then the end of the last answer may be missing. Once stopped it
/// closes its post, and takes and drops until the end mark, so that the terminal's bytes always find room.
pub fn serve_host<'q, R: Wait, G: Gate>(
    rt: &R,
    alloc: Global,
    gate: &G,
    piece: usize,
    task: HostTask<'q>,
) -> HostEnd<'q>
    requires piece { 0 < piece }
    requires take { task.take ≡ new_take task.take.line }
    requires one { task.take.line.senders ≡ 1 }
    requires post { task.post ≡ new_post task.post.line 0 }
    requires files { (length task.files.items ≤ most_files) × All IsFile task.files.items }
    requires host { task.host ≡ new_host task.files.items }
    ensures told { HostTold task.entry.take.line task.entry.post.line result }
    ensures files { result.files.items ≡ task.entry.files.items }
    ensures begins { result.passed ≡ false → G.may_refuse gate.now 2 }
    ensures kept_out { result.passed ≡ false → HostKeptOut result }
    ensures way { result.stop ≡ Some GateStop → G.may_refuse gate.now 2 }
    ensures let_in { result.passed ≡ true → G.must_refuse gate.now 2 None → ⊥ }
    ensures let_on { LetOn (G.must_refuse gate.now 2) 0 result.host.taken }
{
    let HostTask {
        mut take,
        post,
        files,
        host,
        held: _,
    } = task;
    let mut side = HostSide {
        alloc,
        piece,
        end: HostEndpoint::with_host(alloc, host),
        post,
    };
    let (passed, stop) = side.run(rt, gate, &mut take);
    side.post.close(rt);
    drop_after(rt, &mut take, stop);
    HostEnd {
        take,
        post: side.post,
        files,
        host: side.end.into_host(),
        passed,
        stop,
    }
}
