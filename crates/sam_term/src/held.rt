//! The events that wait until the terminal can do them.

ghost use Rattle.std.specs.Prelude.{◌≡◌, ◌++◌, ◌∷◌, [], OnErr, OnOk, drop, length, option_copied, slice_get};

use crate::event::UserEvent;
use std::alloc::{AllocError, Global};
use std::collections::VecDeque;
use std::marker::Model;

/// The held events in the order in which the user made them. They leave only at the front, so none acts before those in front of it.
/// Contracts see a list with the oldest first.
#[derive(Drop)]
pub struct HeldEvents {
    events: VecDeque<UserEvent>,
}

impl Model for HeldEvents {
    ghost use Rattle.std.specs.Prelude.{List};
    ghost use Rattle.sam_term.specs.declared.event.UserEvent.{UserEvent};

    ghost Value = { List UserEvent };

    ghost view = { λ a. a.events.items };
}

impl HeldEvents {
    /// Returns a queue with no events. No memory is asked for.
    pub fn new(alloc: Global) -> HeldEvents
        ensures { result ≡ [] }
    {
        HeldEvents {
            events: VecDeque::new(alloc),
        }
    }

    /// Returns how many events there are.
    pub fn len(&self) -> usize
        ensures { result ≡ length self.now }
    {
        self.events.len()
    }

    /// Puts an event after the others. The only error is out of memory, and nothing has changed then.
    pub fn put(&mut self, event: UserEvent) -> Result<(), AllocError>
        ensures ok { OnOk result (self.new ≡ self.old ++ event ∷ []) }
        ensures err { OnErr result (self.new ≡ self.old) }
    {
        self.events.push_back(event)?;
        Ok(())
    }

    /// Returns the oldest event, or `None` if there is none.
    pub fn first(&self) -> Option<&UserEvent>
        ensures { option_copied result ≡ slice_get self.now 0 }
    {
        self.events.front()
    }

    /// Takes the oldest event out and returns it, or returns `None` if there is none.
    pub fn take_first(&mut self) -> Option<UserEvent>
        ensures event { result ≡ slice_get self.old 0 }
        ensures others { self.new ≡ drop 1 self.old }
    {
        self.events.pop_front()
    }
}
