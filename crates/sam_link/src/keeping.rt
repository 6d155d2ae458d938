//! What one end keeps of what it puts.

ghost use Rattle.std.specs.Prelude.{◌≡◌, ◌≤◌, ◌<◌, ◌+◌, ◌-◌, ◌^◌, ◌++◌, [], length, take, drop, min, Decides};
ghost use Rattle.sam_mesg.specs.Spelling.{frame};
ghost use Rattle.sam_link.specs.Keeping.{HasRoom, MayHave, Puts, may_have, acknowledged, begun};
ghost use Rattle.sam_link.specs.Putting.{data_stream};

use crate::writing::{packets_needed, write_data, write_packet};
use std::alloc::Global;
use std::marker::Model;
use thiserror::Error;

/// Why bytes are not put.
#[derive(Clone, Copy, Debug, PartialEq, Eq, Drop, Error)]
pub enum PutFault {
    /// 2^64-1 bytes would be passed.
    #[error("a count is full")]
    CountFull,
    /// A request for memory was refused.
    #[error("out of memory")]
    OutOfMemory,
}

/// What an end keeps: all that the other side has not acknowledged. Contracts see how many bytes were acknowledged (`base`), the bytes
/// after these (`kept`), and how many of them this connection has been given (`sent`).
///
/// What was acknowledged leaves memory once it is half of all: that moves at most one byte for each byte that was acknowledged.
#[derive(Drop)]
pub struct Kept {
    /// What was put, with bytes in front that were acknowledged since.
    bytes: Vec<u8>,
    /// How many bytes at the front of `bytes` were acknowledged.
    gone: usize,
    base: u64,
    sent: usize,
}

impl Model for Kept {
    ghost use Rattle.std.specs.Prelude.{drop, length, ◌≤◌};
    ghost use Rattle.sam_link.specs.Keeping.{Keeps, IsKept};

    ghost Value = { Keeps };

    ghost view = { λ a. record { base = a.base; kept = drop a.gone a.bytes.items; sent = a.sent } };

    ghost invariant = { λ a. (a.gone ≤ length a.bytes.items)
        × IsKept (record { base = a.base; kept = drop a.gone a.bytes.items; sent = a.sent }) };
}

impl Kept {
    /// Nothing is kept of so many bytes that were put. It takes no memory.
    pub fn after(alloc: Global, base: u64) -> Kept
        ensures { result ≡ record { base = base; kept = []; sent = 0 } }
    {
        Kept {
            bytes: Vec::new(alloc),
            gone: 0,
            base,
            sent: 0,
        }
    }

    /// Returns how many bytes the other side has acknowledged.
    pub fn base(&self) -> u64
        ensures { result ≡ self.now.base }
    {
        self.base
    }

    /// Returns how many bytes are kept.
    pub fn len(&self) -> usize
        ensures { result ≡ length self.now.kept }
    {
        self.bytes.len() - self.gone
    }

    /// Returns how many of the kept bytes this connection has been given.
    pub fn sent(&self) -> usize
        ensures { result ≡ self.now.sent }
    {
        self.sent
    }

    /// Returns how many bytes were put.
    pub fn put_len(&self) -> u64
        ensures { result ≡ self.now.base + length self.now.kept }
    {
        self.base + self.len() as u64
    }

    /// Returns how many of the kept bytes this connection has not been given.
    pub fn unsent(&self) -> usize
        ensures { result ≡ length self.now.kept - self.now.sent }
    {
        self.len() - self.sent
    }

    /// Returns whether so many bytes more can be counted.
    fn has_room(&self, len: u64) -> bool
        ensures { Decides result (HasRoom self.now len) }
    {
        let room = u64::MAX - self.base - self.len() as u64;
        len <= room
    }

    /// Puts a packet, if its bytes can be counted. The errors are `CountFull` and `OutOfMemory`, after which all is as before.
    pub fn put_packet(&mut self, kind: u8, body: &[u8]) -> Result<(), PutFault>
        requires { length body.now < 2 ^ 16 }
        ensures { Puts self.old (frame kind body.now) result self.new }
    {
        if !self.has_room(body.len() as u64 + 3) {
            return Err(PutFault::CountFull);
        }
        match write_packet(&mut self.bytes, kind, body) {
            Ok(()) => Ok(()),
            Err(_) => Err(PutFault::OutOfMemory),
        }
    }

    /// Puts bytes as packets, if all can be counted, all or none. The errors are `CountFull` and `OutOfMemory`, after which all is as
    /// before.
    pub fn put_data(&mut self, bytes: &[u8]) -> Result<(), PutFault>
        ensures { Puts self.old (data_stream bytes.now) result self.new }
    {
        let heads = packets_needed(bytes.len()) as u64 * 3;
        if !self.has_room(bytes.len() as u64 + heads) {
            return Err(PutFault::CountFull);
        }
        match write_data(&mut self.bytes, bytes) {
            Ok(()) => Ok(()),
            Err(_) => Err(PutFault::OutOfMemory),
        }
    }

    /// What this connection has been given is given to another.
    pub fn rewind(&mut self)
        ensures { self.new ≡ record self.old { sent = 0 } }
    {
        self.sent = 0;
    }

    /// Returns whether the other side can have got so many bytes, over all connections.
    pub fn may_have(&self, count: u64) -> bool
        ensures { result ≡ may_have self.now count }
    {
        self.base <= count && count <= self.base + self.len() as u64
    }

    /// Returns whether this connection has been given fewer bytes than this count.
    pub fn is_ahead(&self, count: u64) -> bool
        ensures { Decides result (self.now.base + self.now.sent < count) }
    {
        count > self.base && count - self.base > self.sent as u64
    }

    /// Moves the next bytes for this connection into the buffer, as many as there are and have room, and returns how many. The rest of
    /// the buffer stays as it was.
    pub fn take_into(&mut self, into: &mut [u8]) -> usize
        ensures count { result ≡ min (length self.old.kept - self.old.sent) (length into.old) }
        ensures bytes { into.new ≡ take result (drop self.old.sent self.old.kept) ++ drop result into.old }
        ensures rest { self.new ≡ record self.old { sent = self.old.sent + result } }
    {
        let start = self.gone + self.sent;
        let count = (self.bytes.len() - start).min(into.len());
        let end = start + count;
        into[..count].copy_from_slice(&self.bytes[start..end]);
        self.sent += count;
        count
    }

    /// Forgets in memory what was acknowledged, once it is half of all.
    fn compact(&mut self)
        ensures { self.new ≡ self.old }
    {
        let rest = self.bytes.len() - self.gone;
        if self.gone >= rest && self.gone > 0 {
            self.bytes.copy_within(self.gone.., 0);
            self.bytes.truncate(rest);
            self.gone = 0;
        }
    }

    /// Another connection begins, whose hello tells how many bytes have come. So many are acknowledged, and it is given those after them.
    pub fn begin(&mut self, count: u64)
        requires { MayHave self.old count }
        ensures { self.new ≡ begun self.old count }
    {
        self.gone += (count - self.base) as usize;
        self.base = count;
        self.sent = 0;
        self.compact();
    }

    /// An acknowledgement has come on this connection, of which an older count changes nothing.
    pub fn acknowledge(&mut self, count: u64)
        requires { count ≤ self.old.base + self.old.sent }
        ensures { self.new ≡ acknowledged self.old count }
    {
        if count > self.base {
            let gone = (count - self.base) as usize;
            self.gone += gone;
            self.sent -= gone;
            self.base = count;
            self.compact();
        }
    }
}
