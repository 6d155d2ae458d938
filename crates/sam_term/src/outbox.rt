//! The messages that one call composes, in memory that was had before the first change.

ghost use Rattle.std.specs.Prelude.{◌≡◌, ◌++◌, ◌∷◌, ◌+◌, ◌<◌, ◌≤◌, [], IfOk, IsOk};

use sam_mesg::{Batch, Tmesg};
use std::alloc::{AllocError, Global};
use std::marker::Model;

/// Messages in the order in which one call composes them. It gets its memory as it is made, before the terminal changes, so that composing
/// a message never fails halfway. Contracts see the messages and the room that is left.
#[derive(Drop)]
pub struct Outbox {
    /// It never grows past the memory that it was made with.
    messages: Vec<Tmesg>,
}

impl Model for Outbox {
    ghost use Rattle.std.specs.Prelude.{◌-◌, vec_len, vec_capacity};
    ghost use Rattle.sam_term.specs.Outbox.{RoomyMessages};

    ghost Value = { RoomyMessages };

    ghost view = { λ a. record { messages = a.messages.items; room = vec_capacity a.messages - vec_len a.messages } };
}

impl Outbox {
    /// Returns an outbox with no messages and room for `n`. The only error is out of memory. If `n` is 0 no memory is asked for.
    pub fn with_room(alloc: Global, n: usize) -> Result<Outbox, AllocError>
        ensures ok { IfOk result (λ out. out ≡ record { messages = []; room = n }) }
        ensures nothing { n ≡ 0 → IsOk result }
    {
        Ok(Outbox {
            messages: Vec::with_capacity(alloc, n)?,
        })
    }

    /// Puts a message after the others. The caller makes sure that there is room, so no memory is asked for.
    pub fn put(&mut self, message: Tmesg)
        requires { 0 < self.old.room }
        ensures messages { self.new.messages ≡ self.old.messages ++ message ∷ [] }
        ensures room { self.old.room ≤ self.new.room + 1 }
    {
        if self.messages.push(message).is_err() {
            unreachable!()
        }
    }

    /// Returns the messages in order, without asking for memory.
    pub fn into_batch(self) -> Batch
        ensures { result ≡ self.messages }
    {
        Batch::from_vec(self.messages)
    }
}
