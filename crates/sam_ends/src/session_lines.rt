//! The three lines of a session.
ghost use Rattle.std.specs.Prelude.{◌≡◌, ◌<◌, IfOk};

use crate::input::Input;
use sam_queue::{Line, OutOfMemory, Start};
use std::alloc::Global;
use std::marker::Model;

/// The three lines of one session. Up carries pieces of bytes from the terminal to the host, and down from the host to the host reader.
/// The line of events carries to the terminal what comes from the keyboard, the mouse and the host reader.
///
/// ```rust
/// let (lines, starts) = Lines::new(alloc, 16)?;
/// let plan = Plan { script: &script, piece: 64, gate: &OpenGate };
/// let ends = run_ends(rt, alloc, &lines, starts, &plan)?;
/// ```
#[derive(Drop)]
pub struct Lines {
    /// From the terminal to the host. It has one sender.
    up: Line<Vec<u8>>,
    /// From the host to the host reader. It has one sender.
    down: Line<Vec<u8>>,
    /// To the terminal. It has three senders: keyboard 0, mouse 1, host reader 2.
    events: Line<Input>,
}

impl Model for Lines {
    ghost use Rattle.std.specs.Prelude.{◌≡◌};
    ghost use Rattle.sam_ends.specs.Lines.{LinesView};

    ghost Value = { LinesView };

    ghost view = { λ l. record { up = l.up; down = l.down; events = l.events } };

    ghost invariant = { λ l. (l.up.senders ≡ 1) × (l.down.senders ≡ 1) × (l.events.senders ≡ 3) };
}

/// The right to make the ends of one session's lines, once. `Lines::new` hands it out with the lines, and running the session spends it.
/// Contracts see it as its lines.
#[derive(Drop)]
pub struct Starts {
    /// The right to the ends of the line up.
    up: Start<Vec<u8>>,
    /// The right to the ends of the line down.
    down: Start<Vec<u8>>,
    /// The right to the ends of the line of events.
    events: Start<Input>,
}

impl Model for Starts {
    ghost use Rattle.sam_ends.specs.Lines.{LinesView};

    ghost Value = { LinesView };

    ghost view = { λ s. record { up = s.up; down = s.down; events = s.events } };
}

impl Lines {
    /// Makes three empty lines, with the right to their ends. Each line holds up to `capacity` entries, items and end marks alike;
    /// `capacity` is at least 1. All slots are made here: sending and taking have no error of memory. Its only error is out of memory.
    pub fn new(alloc: Global, capacity: usize) -> Result<(Lines, Starts), OutOfMemory>
        requires { 0 < capacity }
        ensures together { IfOk result (λ r. r.1 ≡ r.0) }
        ensures capacity { IfOk result (λ r.
            (r.0.up.capacity ≡ capacity) × (r.0.down.capacity ≡ capacity) × (r.0.events.capacity ≡ capacity)) }
    {
        let (up, up_start) = Line::new(alloc, capacity, 1)?;
        let (down, down_start) = Line::new(alloc, capacity, 1)?;
        let (events, events_start) = Line::new(alloc, capacity, 3)?;
        let lines = Lines { up, down, events };
        let starts = Starts {
            up: up_start,
            down: down_start,
            events: events_start,
        };
        Ok((lines, starts))
    }

    /// Returns the line from the terminal to the host. It has one sender.
    pub fn up(&self) -> &Line<Vec<u8>>
        ensures line { result.now ≡ self.now.up }
        ensures senders { self.now.up.senders ≡ 1 }
    {
        &self.up
    }

    /// Returns the line from the host to the host reader. It has one sender.
    pub fn down(&self) -> &Line<Vec<u8>>
        ensures line { result.now ≡ self.now.down }
        ensures senders { self.now.down.senders ≡ 1 }
    {
        &self.down
    }

    /// Returns the line of events, which leads to the terminal. It has three senders.
    pub fn events(&self) -> &Line<Input>
        ensures line { result.now ≡ self.now.events }
        ensures senders { self.now.events.senders ≡ 3 }
    {
        &self.events
    }
}

impl Starts {
    /// Returns the rights to the ends of the line up, of the line down and of the line of events, in this order.
    pub fn parts(self) -> (Start<Vec<u8>>, Start<Vec<u8>>, Start<Input>)
        ensures up { result.0 ≡ self.up }
        ensures down { result.1 ≡ self.down }
        ensures events { result.2 ≡ self.events }
    {
        let Starts { up, down, events } = self;
        (up, down, events)
    }
}
