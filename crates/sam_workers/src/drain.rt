//! Emptying a line whose items nobody wants any more.

ghost use Rattle.std.specs.Prelude.{◌≡◌};
ghost use Rattle.sam_queue.specs.History.{IsEnded, StartsWith};

use sam_queue::{Got, Take};
use std::sync::Wait;

/// Takes entries and drops them until each sender has left, and waits while the line is empty. So no sender waits forever for room.
pub(crate) fn drop_rest<T: Drop, R: Wait>(rt: &R, take: &mut Take<T>)
    ensures line { take.new.line ≡ take.old.line }
    ensures taken { StartsWith take.new.taken take.old.taken }
    ensures ended { IsEnded take.new.line.senders take.new.taken }
{
    for _turn in rt.forever() {
        if let Got::Ended = take.recv(rt) {
            return;
        }
    }
    unreachable!()
}
