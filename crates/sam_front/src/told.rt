//! What a front end asks of the host's program, and what it is told.

ghost use Rattle.std.specs.Prelude.{◌≡◌};
ghost use Rattle.sam_front.specs.Fronts.{kind_of};

use crate::runs::Ran;
use sam_note::NoteKind;
use sam_overlay::OverlayStep;
use sam_term::Refusal;

/// What the host's program is to do, but for writing a file (`Front::write`).
#[derive(Clone, Copy, Debug, PartialEq, Eq, Drop)]
pub enum Order {
    /// To join the file, or the folder, at a path.
    Open,
    /// To tell the names that complete a path.
    Complete,
    /// To read a file anew from its disk.
    Reload,
}

impl Order {
    /// Returns the kind of its message.
    pub fn kind(self) -> NoteKind
        ensures { result ≡ kind_of self }
    {
        match self {
            Order::Open => NoteKind::Open,
            Order::Complete => NoteKind::Complete,
            Order::Reload => NoteKind::Reload,
        }
    }
}

/// What is told as a front goes on.
#[derive(Drop)]
pub enum Told {
    /// `(step, request)`: the terminal's end received a frame of the host, or an event of the user acted: that of the request of this
    /// number, if it is not 0. What is shown may have changed by it.
    Stepped(OverlayStep, u64),
    /// An event of the user was refused.
    Refused(Refused),
    /// A note of the host's program came, which is the answer of no task; `Client::note` lends it.
    Note,
    /// The note that came answers the task of this number.
    Answered(u32),
    /// The session is over, and no answer comes to the task of this number.
    Unanswered(u32),
    /// A command line has run, and all that is told of what it printed is loaded.
    Ran(Ran),
    /// The session is over, and the request of this number never acts; or it is that of a command line that ran, and no answer comes.
    Lapsed(u64),
    /// Something moved that is not told, and more may: call again.
    Busy,
    /// Nothing moves until the host or the user does something, or the time comes.
    Idle,
}

/// Which event was refused, and why.
#[derive(Clone, Copy, Debug, PartialEq, Eq, Drop)]
pub struct Refused {
    /// Its number, counted from 1 over all events that were taken, edits that were put among them.
    pub event: u64,
    /// Why.
    pub why: Refusal,
    /// The number of its request; 0 if it was an edit.
    pub request: u64,
    /// The number of its task, to which no other answer comes; 0 if it has none.
    pub task: u32,
}
