//! The events of a world.

ghost use Rattle.std.specs.Prelude.{◌≡◌, IfOk};

use sam_runes::Runes;
use sam_term::event::UserEvent;
use std::alloc::{AllocError, Global};

/// What happens next in a world. Each event is one step, and a run of a world is a list of them. `World::step` of sam_world makes one
/// happen.
#[derive(Drop)]
pub enum Event {
    /// The user does something: the terminal holds this after the events that it holds already, and does nothing else yet.
    User(UserEvent),
    /// A file of this name and this text joins the session: the host has it under its next tag, clean, not open and not announced. No
    /// message, frame or count comes of it. The terminal learns of it by the answer to its next `Tversion`. Not a step if all tags were
    /// given, if the name has more than `MOST_IN_NAME` runes, or the text more than `MAX_RUNES`.
    Add(Runes, Runes),
    /// The host marks the file of this tag as dirty. Where it was clean, the frame `Hdirty` goes under way behind all others. No message
    /// comes of it, and no lock is freed by it. Not a step if there is no such file, for the command file, or if the terminal was not told
    /// the file's name.
    Mark(u16),
    /// The terminal tries its oldest held event. Where it holds none, or a lock holds the oldest back, this changes nothing.
    Act,
    /// The terminal composes its unsent runes as one message. Where nothing is unsent, this changes nothing.
    Flush,
    /// The host handles the oldest message that is under way to it, and its answer goes under way. Not a step if there is none.
    HostTake,
    /// The terminal handles the oldest frame that is under way to it, and may compose messages for it. Not a step if there is none.
    TermTake,
}

impl Event {
    /// Returns a copy of the event. The only error is out of memory.
    pub fn copy(&self, alloc: Global) -> Result<Event, AllocError>
        ensures { IfOk result (λ e. e ≡ self.now) }
    {
        match self {
            Event::User(e) => Ok(Event::User(e.copy(alloc)?)),
            Event::Add(name, text) => Ok(Event::Add(name.copy(alloc)?, text.copy(alloc)?)),
            Event::Mark(tag) => Ok(Event::Mark(*tag)),
            Event::Act => Ok(Event::Act),
            Event::Flush => Ok(Event::Flush),
            Event::HostTake => Ok(Event::HostTake),
            Event::TermTake => Ok(Event::TermTake),
        }
    }
}
