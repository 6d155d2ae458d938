//! What a session came to, and why it may not be settled.

ghost use Rattle.std.specs.Prelude.{◌≡◌};

use sam_ends::{Ends, Stop};
use sam_host::host::Host;
use sam_term::term::Terminal;
use sam_world::event::Event;
use sam_world::world::World;

/// What a session of five threads came to: its two sides as one world, and the one run that leads to it. `settle` makes it of the five
/// ends, and `run_threads` of sam_session hands it out. The schedule can be run again:
///
/// ```rust
/// let mut world = first_world(alloc, script.files())?;
/// world.run(settled.schedule.as_slice())?; // world is now what settled.world is
/// ```
#[derive(Drop)]
pub struct Settled {
    /// One order of all events of the session, which leads from the first world of the host's files to `world`.
    pub schedule: Vec<Event>,
    /// The world where the schedule leads: host and terminal as the session left them, and what is still under way between them.
    pub world: World,
    /// How many items of the line up, of the line down and of the line of events were put and not taken, in this order. Each worker takes
    /// its line to the end, so these are zeros.
    pub left: Vec<usize>,
    /// Why workers stopped before their time, in the order keyboard, mouse, host, host reader, terminal. A worker that did not stop has no
    /// entry; if there is none at all, the session is over and nothing is under way.
    pub stops: Vec<Stop>,
}

impl Settled {
    /// Returns the host, as the session left it.
    pub fn host(&self) -> &Host
        ensures { result.now ≡ self.now.world.host }
    {
        self.world.host()
    }

    /// Returns the terminal, as the session left it.
    pub fn term(&self) -> &Terminal
        ensures { result.now ≡ self.now.world.term }
    {
        self.world.term()
    }
}

/// Why a session was not settled. The ends come back with it.
#[derive(Drop)]
pub enum SettleFault<'q> {
    /// A request for memory was refused. The ends are as they were, and can be settled again with the same result.
    OutOfMemory(Ends<'q>),
}
