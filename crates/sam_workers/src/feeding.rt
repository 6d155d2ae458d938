//! A terminal that is fed the host's stream in pieces.

ghost use Rattle.std.specs.Prelude.{IsTrue, All};
ghost use Rattle.sam_mesg.specs.HostKinds.{fits_h};
ghost use Rattle.sam_workers.specs.Feeding.{FeedsTerminal, TakesOne, TakesUpTo};

use sam_ends::{Stop, stop_for};
use sam_frame::FramerH;
use sam_mesg::{HFrame, Tmesg};
use sam_term::term::Terminal;
use std::alloc::Global;

/// The most messages that a terminal composes for one frame: its unsent runes, and then a request or an acknowledgement.
const MOST: usize = 2;

/// What came of a piece of the host's stream that was fed to a terminal. If something stopped it, `composed` still has the messages for
/// the frames before that.
#[derive(Drop)]
pub struct Fed {
    /// The messages that the terminal composed for the frames that it took, in order.
    pub composed: Vec<Tmesg>,
    /// What stopped it: `Frame` for a fault of the stream, `Term` for a frame that the terminal refused, `Memory` when out of memory.
    /// `None` if nothing did: then every frame that is whole with the piece was taken.
    pub stop: Option<Stop>,
}

/// Feeds a piece of the host's stream to the framer, and lets the terminal take the frames that are whole with it, in order, up to the
/// first that stops it.
///
/// ```rust
/// let mut framer = FramerH::new(alloc);
/// let fed = feed_terminal(alloc, &mut terminal, &mut framer, piece);
/// for message in fed.composed { .. } // goes to the host
/// ```
///
/// Stops, in this order:
///
/// - `Frame(5)` if the framer had failed before, `Frame(7)` if the stream would be longer than 2^64-1 bytes, `Memory` if there is no
///   memory for the piece. Nothing has changed.
/// - For each frame: `Memory` if there is no memory for it, `Term` if the terminal refuses it. The frame is lost, and so are those after
///   it. This `Memory` looks like the one above, so after either nothing more is to be fed.
/// - `Frame(1)`, `Frame(2)` or `Frame(3)` if the stream shows a fault after the frames.
///
/// The terminal is where the frames that it took leave it, and the framer is where its `feed` leaves it.
#[tactic(auto, using(crate::proofs::Feeds::all_fit))]
pub fn feed_terminal(
    alloc: Global,
    terminal: &mut Terminal,
    framer: &mut FramerH,
    piece: &[u8],
) -> Fed
    ensures { FeedsTerminal framer.old piece.now framer.new terminal.old terminal.new result.composed.items result.stop }
{
    match framer.give(piece) {
        Ok(given) => take_all(alloc, terminal, given.messages, stop_for(given.fault)),
        Err(why) => Fed {
            composed: Vec::new(alloc),
            stop: Some(Stop::from(why)),
        },
    }
}

/// Lets the terminal take the frames in order, up to the first that stops it. `last_stop` is what stops it after the last frame.
fn take_all(
    alloc: Global,
    terminal: &mut Terminal,
    frames: Vec<HFrame>,
    last_stop: Option<Stop>,
) -> Fed
    requires { All (λ frame. IsTrue (fits_h 2 frame.msg)) frames.items }
    ensures { TakesUpTo frames.items last_stop terminal.old terminal.new result.composed.items result.stop }
{
    let mut composed = Vec::new(alloc);
    for frame in frames {
        if let Some(stop) = take_one(terminal, frame, &mut composed) {
            return Fed {
                composed,
                stop: Some(stop),
            };
        }
    }
    Fed {
        composed,
        stop: last_stop,
    }
}

/// Lets the terminal take a frame, and returns what stopped it. Room for the messages is made first, so that none is lost.
#[tactic(auto, using(crate::proofs::Feeds::takes_few))]
fn take_one(terminal: &mut Terminal, frame: HFrame, composed: &mut Vec<Tmesg>) -> Option<Stop>
    requires { IsTrue (fits_h 2 frame.msg) }
    ensures { TakesOne frame terminal.old terminal.new composed.old.items composed.new.items result }
{
    if composed.reserve(MOST).is_err() {
        return Some(Stop::Memory);
    }
    match terminal.receive(frame) {
        Ok(messages) => {
            if composed.append(&mut messages.into_vec()).is_err() {
                unreachable!()
            }
            None
        }
        Err(why) => Some(Stop::from(why)),
    }
}
