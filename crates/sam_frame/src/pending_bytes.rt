//! Bytes that a side has written and that were not taken yet.

ghost use Rattle.std.specs.Prelude.{◌≡◌, ◌↔◌, ◌++◌, [], IsTrue, IfOk, OnOk, OnErr, drop, length, min, take};
ghost use Rattle.sam_frame.specs.Stream.{CanEncode, stream_of};

use crate::wire::Wire;
use crate::writing::encode_all;
use std::alloc::{AllocError, Global};
use std::marker::Model;

/// The bytes that a side has for the other side, in the order in which they were written. Contracts see them as a list. Taking bytes
/// costs by how many are taken, and not by how many are left. What was taken leaves memory as more is put: that moves at most one byte
/// for each byte that was taken.
///
/// ```rust
/// pending_bytes.put_messages(composed.as_slice())?; // all of them, or none
/// let count = pending_bytes.take_into(&mut buffer); // the first bytes, as many as have room
/// ```
#[derive(Drop)]
pub struct PendingBytes {
    /// What was written, with bytes in front that were taken since.
    bytes: Vec<u8>,
    /// How many bytes at the front of `bytes` were taken: at most all.
    taken: usize,
}

impl Model for PendingBytes {
    ghost use Rattle.std.specs.Prelude.{List, ℕ, drop, length, ◌≤◌};

    ghost Value = { List ℕ };

    ghost view = { λ a. drop a.taken a.bytes.items };

    ghost invariant = { λ a. a.taken ≤ length a.bytes.items };
}

impl PendingBytes {
    /// Makes a queue of no bytes. It takes no memory.
    pub fn new(alloc: Global) -> PendingBytes
        ensures { result ≡ [] }
    {
        PendingBytes {
            bytes: Vec::new(alloc),
            taken: 0,
        }
    }

    /// Returns how many bytes wait to be taken.
    pub fn len(&self) -> usize
        ensures { result ≡ length self.now }
    {
        self.bytes.len() - self.taken
    }

    /// Returns whether no byte waits to be taken.
    pub fn is_empty(&self) -> bool
        ensures { IsTrue result ↔ (self.now ≡ []) }
    {
        self.len() == 0
    }

    /// Moves the first bytes into the buffer, as many as wait and have room there, and returns how many. The rest of the buffer stays as
    /// it was.
    pub fn take_into(&mut self, into: &mut [u8]) -> usize
        ensures count { result ≡ min (length self.old) (length into.old) }
        ensures bytes { into.new ≡ take result self.old ++ drop result into.old }
        ensures rest { self.new ≡ drop result self.old }
    {
        let count = self.len().min(into.len());
        let end = self.taken + count;
        into[..count].copy_from_slice(&self.bytes[self.taken..end]);
        self.taken = end;
        count
    }

    /// Lends the bytes, in order.
    pub fn as_slice(&self) -> &[u8]
        ensures { result.now ≡ self.now }
    {
        &self.bytes[self.taken..]
    }

    /// Takes the first `count` bytes without moving them, or all if there are fewer.
    pub fn consume(&mut self, count: usize)
        ensures { self.new ≡ drop count self.old }
    {
        self.taken += count.min(self.len());
    }

    /// Takes the first bytes into memory of their own: `most` bytes, or all if there are fewer. Its only error is out of memory, which
    /// leaves the bytes as they were. The cost is that of the bytes it takes.
    pub fn take_piece(&mut self, alloc: Global, most: usize) -> Result<Vec<u8>, AllocError>
        ensures piece { IfOk result (λ piece. piece.items ≡ take most self.old) }
        ensures rest { OnOk result (self.new ≡ drop most self.old) }
        ensures unchanged { OnErr result (self.new ≡ self.old) }
    {
        let count = most.min(self.len());
        let piece = self.as_slice()[..count].to_vec(alloc)?;
        self.consume(count);
        Ok(piece)
    }

    /// Forgets the bytes that were taken, once they are half of all. So a byte is moved at most once for each byte that is taken.
    fn compact(&mut self)
        ensures { self.new ≡ self.old }
    {
        let rest = self.bytes.len() - self.taken;
        if self.taken >= rest && self.taken > 0 {
            self.bytes.copy_within(self.taken.., 0);
            self.bytes.truncate(rest);
            self.taken = 0;
        }
    }

    /// Puts the bytes of the messages after the others, all or none. Each message has to fit in version 2, as `can_encode` says. The only
    /// error is out of memory, which leaves the bytes as they were.
    pub fn put_messages<M: Wire>(&mut self, messages: &[M]) -> Result<(), AllocError>
        requires { CanEncode M.direction messages.now }
        ensures written { OnOk result (self.new ≡ self.old ++ stream_of M.direction messages.now) }
        ensures unchanged { OnErr result (self.new ≡ self.old) }
    {
        self.compact();
        match encode_all(messages, &mut self.bytes) {
            Ok(()) => Ok(()),
            Err(_) => Err(AllocError),
        }
    }
}
