//! The worker of the host reader, which cuts the host's stream into frames.

ghost use Rattle.std.specs.Prelude.{◌≡◌, true, false, length, None, Some};
ghost use Rattle.sam_queue.specs.Views.{new_post, new_take};
ghost use Rattle.sam_ends.specs.Gates.{IsCount, LetOn, ReaderKeptOut};
ghost use Rattle.sam_workers.specs.Passing.{Sends, PassesPiece, Passes};
ghost use Rattle.sam_ends.specs.WorkerEnds.{ReaderTold};

use crate::drain::drop_rest;
use sam_ends::{Gate, Input, READER, ReaderEnd, Stop, stop_for};
use sam_frame::FramerH;
use sam_mesg::HFrame;
use sam_queue::{Got, Post, Take};
use std::alloc::Global;
use std::sync::Wait;

/// Takes the pieces of the host's stream, sends each frame on to the terminal, and returns the worker's end. It is worker 3, the host
/// reader. It waits while the line down is empty or the line of events is full.
///
/// The end's `stop` says why it stopped before the host had left: `Gate` if the gate refused it; `Frame(1)`, `Frame(2)` or `Frame(3)` for
/// a fault of the stream, once the frames before the fault are sent on; `Frame(7)` if the stream is longer than 2^64-1 bytes; `Memory` for
/// out of memory. Once stopped it closes its post, and takes and drops until the host has left, so that the host never waits forever for
/// room.
pub fn pass_frames<'q, R: Wait, G: Gate>(
    rt: &R,
    alloc: Global,
    gate: &G,
    mut take: Take<'q, Vec<u8>>,
    mut post: Post<'q, Input>,
) -> ReaderEnd<'q>
    requires take { take ≡ new_take take.line }
    requires one { take.line.senders ≡ 1 }
    requires post { post ≡ new_post post.line 2 }
    ensures told { ReaderTold take.entry.line post.entry.line result }
    ensures begins { result.passed ≡ false → G.may_refuse gate.now 3 }
    ensures kept_out { result.passed ≡ false → ReaderKeptOut result }
    ensures way { result.stop ≡ Some Stop.Gate → G.may_refuse gate.now 3 }
    ensures let_in { result.passed ≡ true → G.must_refuse gate.now 3 None → ⊥ }
    ensures let_on { LetOn (G.must_refuse gate.now 3) 0 (length result.post.put) }
{
    if !gate.pass(READER) {
        return leave(rt, take, post, false, Stop::Gate);
    }
    match pass_pieces(rt, alloc, gate, &mut take, &mut post) {
        Some(stop) => leave(rt, take, post, true, stop),
        None => {
            post.close(rt);
            ReaderEnd {
                take,
                post,
                passed: true,
                stop: None,
            }
        }
    }
}

/// Closes the post, takes and drops until the host has left, and returns the worker's end.
fn leave<'q, R: Wait>(
    rt: &R,
    mut take: Take<'q, Vec<u8>>,
    mut post: Post<'q, Input>,
    passed: bool,
    stop: Stop,
) -> ReaderEnd<'q>
    requires one { take.line.senders ≡ 1 }
    requires so_far { Passes (new_take take.line) take (new_post post.line 2) post (Some stop) }
    ensures told { ReaderTold take.entry.line post.entry.line result }
    ensures passed { result.passed ≡ passed }
    ensures stop { result.stop ≡ Some stop }
    ensures put { result.post.put ≡ post.entry.put }
{
    post.close(rt);
    drop_rest(rt, &mut take);
    ReaderEnd {
        take,
        post,
        passed,
        stop: Some(stop),
    }
}

/// Sends on the frames of the pieces that come, until the host has left. Returns what stopped it before that.
#[tactic(auto, using(crate::proofs::Passes::goes_on, crate::proofs::Passes::leaves))]
fn pass_pieces<R: Wait, G: Gate>(
    rt: &R,
    alloc: Global,
    gate: &G,
    take: &mut Take<Vec<u8>>,
    post: &mut Post<Input>,
) -> Option<Stop>
    requires take { take.old ≡ new_take take.old.line }
    requires one { take.old.line.senders ≡ 1 }
    requires post { post.old ≡ new_post post.old.line 2 }
    ensures passes { Passes take.old take.new post.old post.new result }
    ensures way { result ≡ Some Stop.Gate → G.may_refuse gate.now 3 }
    ensures let_on { LetOn (G.must_refuse gate.now 3) 0 (length post.new.put) }
{
    let mut framer = FramerH::new(alloc);
    let mut handled: u64 = 0;
    for _turn in rt.forever() {
        match take.recv(rt) {
            Got::Item(_, piece) => {
                if let Some(stop) = pass_piece(rt, gate, &mut framer, &piece, post, &mut handled) {
                    return Some(stop);
                }
            }
            Got::Left(_) => {}
            Got::Ended => return None,
            Got::Empty => unreachable!(),
        }
    }
    unreachable!()
}

/// Sends on the frames that are whole with this piece, also those before a fault of the stream. Returns what stopped it.
fn pass_piece<R: Wait, G: Gate>(
    rt: &R,
    gate: &G,
    framer: &mut FramerH,
    piece: &[u8],
    post: &mut Post<Input>,
    handled: &mut u64,
) -> Option<Stop>
    requires sound { framer.old.failed ≡ false }
    requires opened { post.old.closed ≡ false }
    requires counted { IsCount handled.old (length post.old.put) }
    ensures passes { PassesPiece framer.old piece.now framer.new post.old post.new result }
    ensures way { result ≡ Some Stop.Gate → G.may_refuse gate.now 3 }
    ensures counted { IsCount handled.new (length post.new.put) }
    ensures let_on { LetOn (G.must_refuse gate.now 3) (length post.old.put) (length post.new.put) }
{
    match framer.give(piece) {
        Ok(given) => send_on(rt, gate, given.messages, post, handled).or(stop_for(given.fault)),
        Err(why) => Some(Stop::from(why)),
    }
}

/// Sends the frames on for as long as the gate lets the worker go on, and counts them in `handled`. Returns `Gate` if it was refused.
fn send_on<R: Wait, G: Gate>(
    rt: &R,
    gate: &G,
    frames: Vec<HFrame>,
    post: &mut Post<Input>,
    handled: &mut u64,
) -> Option<Stop>
    requires opened { post.old.closed ≡ false }
    requires counted { IsCount handled.old (length post.old.put) }
    ensures sends { Sends frames.items post.old post.new result }
    ensures way { result ≡ Some Stop.Gate → G.may_refuse gate.now 3 }
    ensures counted { IsCount handled.new (length post.new.put) }
    ensures let_on { LetOn (G.must_refuse gate.now 3) (length post.old.put) (length post.new.put) }
{
    for frame in frames {
        if !gate.go_on(READER, *handled) {
            return Some(Stop::Gate);
        }
        if post.send(rt, Input::Host(frame)).is_err() {
            unreachable!()
        }
        *handled = handled.saturating_add(1);
    }
    None
}
