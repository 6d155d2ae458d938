//! What is under way in one direction, in the order in which it was composed.

ghost use Rattle.std.specs.Prelude.{◌≡◌, ◌≤◌, ◌<◌, ◌-◌, ◌^◌, ◌++◌, [], OnOk, drop, length, min, option_copied};
ghost use Rattle.sam_runes.specs.Texts.{is_empty};
ghost use Rattle.sam_world.specs.UnderWay.{head};

use std::alloc::{AllocError, Global};
use std::collections::VecDeque;
use std::marker::Model;

/// The messages that are under way in one direction, the oldest first. What one event composed is kept together as one batch. So
/// `reserve` can make room for a batch before anyone knows how many messages it will have, and `join` then needs no memory.
#[derive(Drop)]
pub struct UnderWay<M: Drop> {
    /// What is left of the oldest batch. It is empty if and only if nothing is under way.
    first: VecDeque<M>,
    /// The batches after `first`, the oldest first. None of them is empty, and where `first` is empty there are none.
    rest: VecDeque<VecDeque<M>>,
}

impl<M: Drop> Model for UnderWay<M> {
    ghost use Rattle.std.specs.Prelude.{◌≡◌, ◌++◌, ◌-◌, [], map};
    ghost use Rattle.std.specs.VecDeque.{deque_len, deque_capacity};
    ghost use Rattle.sam_world.specs.UnderWay.{RoomyMessages, AreFilled, joined};

    ghost Value = { RoomyMessages M };

    ghost view = { λ a. record {
      messages = a.first.items ++ joined (map (λ batch. batch.items) a.rest.items);
      room = deque_capacity a.rest - deque_len a.rest;
    } };

    ghost invariant = { λ a. (a.first.items ≡ [] → a.rest.items ≡ []) × AreFilled (map (λ batch. batch.items) a.rest.items) };
}

impl<M: Drop> UnderWay<M> {
    /// Returns a list with nothing under way.
    pub fn new(alloc: Global) -> UnderWay<M>
        ensures { result.messages ≡ [] }
    {
        UnderWay {
            first: VecDeque::new(alloc),
            rest: VecDeque::new(alloc),
        }
    }

    /// Makes room for one more batch, of any length. The messages stay as they are, also at the only error, out of memory.
    pub fn reserve(&mut self) -> Result<(), AllocError>
        ensures messages { self.new.messages ≡ self.old.messages }
        ensures room { OnOk result (0 < self.new.room) }
    {
        self.rest.reserve(1)
    }

    /// Returns the oldest message, or `None` if nothing is under way.
    pub fn first(&self) -> Option<&M>
        ensures { option_copied result ≡ head self.now.messages }
    {
        self.first.front()
    }

    /// Returns true if and only if nothing is under way.
    pub fn is_empty(&self) -> bool
        ensures { result ≡ is_empty self.now.messages }
    {
        match self.first() {
            None => true,
            Some(_) => false,
        }
    }

    /// Returns the number of messages, or the greatest `usize` where there are more. It looks at each batch once.
    pub fn count(&self) -> usize
        ensures { result ≡ min (length self.now.messages) (2 ^ 64 - 1) }
    {
        let mut count = self.first.len();
        for at in 0..self.rest.len() {
            if let Some(batch) = self.rest.get(at) {
                count = count.saturating_add(batch.len());
            }
        }
        count
    }

    /// Drops the oldest message, if there is one. The room for batches doesn't shrink.
    pub fn drop_first(&mut self)
        ensures messages { self.new.messages ≡ drop 1 self.old.messages }
        ensures room { self.old.room ≤ self.new.room }
    {
        let _taken = self.first.pop_front();
        if self.first.is_empty() {
            if let Some(batch) = self.rest.pop_front() {
                self.first = batch;
            }
        }
    }

    /// Puts a batch after the others, in room that `reserve` has made. It takes no memory. An empty batch changes nothing.
    #[tactic(auto, using(std::proofs::Common::append_assoc, crate::proofs::UnderWayLaws::join_facts))]
    pub fn join(&mut self, batch: Vec<M>)
        requires { 0 < self.old.room }
        ensures { self.new.messages ≡ self.old.messages ++ batch.items }
    {
        if batch.is_empty() {
            return;
        }
        let batch = VecDeque::from_vec(batch);
        if self.first.is_empty() {
            self.first = batch;
        } else {
            self.rest.push_back_reserved(batch);
        }
    }
}
