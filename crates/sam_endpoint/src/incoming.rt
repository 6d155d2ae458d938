//! What came of the other side's stream.

ghost use Rattle.std.specs.Prelude.{◌≡◌, drop, false};
ghost use Rattle.sam_endpoint.specs.Streams.{GivesAs};

use crate::fault::{EndpointFault, StreamFault};
use sam_frame::{FeedRefusal, Framer, Wire};
use std::collections::VecDeque;

/// Feeds a piece to a framer that has not failed. Returns the messages that are whole now, in order, and what is wrong with the stream
/// after them; `None` if nothing is. The errors are `CountFull` and then `OutOfMemory`, and leave the framer as it was.
pub(crate) fn feed_framer<M: Wire, S>(
    framer: &mut Framer<M>,
    piece: &[u8],
) -> Result<(Vec<M>, Option<StreamFault>), EndpointFault<S>>
    requires { framer.old.failed ≡ false }
    ensures { GivesAs M.direction framer.old piece.now result framer.new }
{
    match framer.give(piece) {
        Ok(given) => Ok((given.messages, given.fault.map(StreamFault::of))),
        Err(FeedRefusal::CountFull) => Err(EndpointFault::CountFull),
        Err(FeedRefusal::OutOfMemory) => Err(EndpointFault::OutOfMemory),
        Err(FeedRefusal::Failed) => unreachable!(),
    }
}

/// Drops the oldest of what waits.
pub(crate) fn drop_first<M: Drop>(waiting: &mut VecDeque<M>)
    ensures { waiting.new.items ≡ drop 1 waiting.old.items }
{
    let _first = waiting.pop_front();
}

/// Drops the oldest of what waits, so many, or all if there are fewer.
pub(crate) fn drop_oldest<M: Drop>(waiting: &mut VecDeque<M>, count: usize)
    ensures { waiting.new.items ≡ drop count waiting.old.items }
{
    let mut dropped = 0;
    while dropped < count {
        drop_first(waiting);
        dropped += 1;
    }
}
