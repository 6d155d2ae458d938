//! What may go out before all records are durable.

ghost use Rattle.std.specs.Prelude.{◌≡◌, ◌<◌, ◌∷◌, ◌++◌, [], OnErr, OnOk, length, min};
ghost use Rattle.sam_server.specs.Gates.{allowed, new_gate, passed};

use std::alloc::{AllocError, Global};
use std::collections::VecDeque;
use std::marker::Model;

/// How a server stands behind a record.
#[derive(Clone, Copy, Debug, PartialEq, Eq, Drop)]
pub struct Mark {
    /// The number of the link's newest connection; 0 before the first.
    pub attempt: u64,
    /// How many bytes the link has put into its stream.
    pub put: u64,
}

/// What keeps bytes back which records decide that a crash could lose.
///
/// ```rust
/// gate.record(Mark { attempt, put })?;                 // once a record is taken
/// gate.durable(count);                                 // once so many more of the records are
/// let room = gate.room(attempt, hello, gone, into.len());
/// let count = link.take_out(attempt, &mut into[..room])?;
/// ```
#[derive(Drop)]
pub struct Gate {
    base: Mark,
    waiting: VecDeque<Mark>,
}

impl Model for Gate {
    ghost use Rattle.sam_server.specs.Gates.{PlainGate};

    ghost Value = { PlainGate };

    ghost view = { λ a. record { base = a.base; waiting = a.waiting.items } };
}

impl Gate {
    /// Makes a gate of a journal without records. It takes no memory.
    pub fn new(alloc: Global) -> Gate
        ensures { result ≡ new_gate }
    {
        Gate {
            base: Mark { attempt: 0, put: 0 },
            waiting: VecDeque::new(alloc),
        }
    }

    /// Makes a gate of a journal that is durable up to this record.
    pub fn after(alloc: Global, base: Mark) -> Gate
        ensures { result ≡ record { base = base; waiting = [] } }
    {
        Gate {
            base,
            waiting: VecDeque::new(alloc),
        }
    }

    /// Puts the mark of a record behind the others. Out of memory changes nothing.
    pub fn record(&mut self, mark: Mark) -> Result<(), AllocError>
        ensures done { OnOk result (self.new ≡ record self.old { waiting = self.old.waiting ++ mark ∷ [] }) }
        ensures unchanged { OnErr result (self.new ≡ self.old) }
    {
        self.waiting.reserve(1)?;
        self.waiting.push_back_reserved(mark);
        Ok(())
    }

    /// Returns how many records wait.
    pub(crate) fn waiting_count(&self) -> usize
        ensures { result ≡ length self.now.waiting }
    {
        self.waiting.len()
    }

    /// Takes the oldest record that waits as durable.
    fn pass(&mut self)
        requires { 0 < length self.old.waiting }
        ensures { self.old.waiting ≡ self.new.base ∷ self.new.waiting }
    {
        if let Some(mark) = self.waiting.pop_front() {
            self.base = mark;
        }
    }

    /// Takes note that so many more of the records are durable, the oldest first; all, if fewer wait.
    #[tactic(auto, using(crate::proofs::Gates::passed_facts))]
    pub fn durable(&mut self, count: usize)
        ensures { self.new ≡ passed count self.old.base self.old.waiting }
    {
        let mut left = count;
        while left > 0 && !self.waiting.is_empty() {
            self.pass();
            left -= 1;
        }
    }

    /// Returns how many bytes may go out into a buffer of this room, on a connection of whose hello so many bytes are left, where so many
    /// of the stream's bytes have gone.
    pub fn room(&self, attempt: u64, hello: usize, gone: u64, room: usize) -> usize
        ensures { result ≡ min (allowed self.now attempt hello gone) room }
    {
        if self.base.attempt != attempt {
            return 0;
        }
        let stream = self.base.put.saturating_sub(gone);
        let most = stream.saturating_add(hello as u64);
        most.min(room as u64) as usize
    }
}
