//! What calls of `Overlay` tell their caller.

use sam_endpoint::TermStep;
use sam_pending::{Filling, Removal};

/// How the shown text of a file changed. Places and counts are of runes and gaps.
#[derive(Drop)]
pub enum Told {
    /// It is as it was.
    Nothing,
    /// `(place, count)`: so many runes or gaps came in at the place.
    Came(u32, u32),
    /// These stretches went, in ascending places: they are removed one after another, the last one of the list first. What waits between
    /// them stays.
    Went(Vec<Removal>),
    /// The runes of these stretches came in the place of what stood there, in ascending places. Nothing moved.
    Filled(Vec<Filling>),
    /// `(place, gone, came)`: so many runes or gaps from the place on gave way to so many others. An event did this to the command file,
    /// over which nothing waits.
    Changed(u32, u32, u32),
    /// It is empty now, since the file was opened or closed, and with a file that is closed goes what waited.
    Emptied,
}

/// What a step of `Overlay` did.
#[derive(Drop)]
pub struct OverlayStep {
    /// What the terminal end did. Its changes are those of the rasp.
    pub step: TermStep,
    /// The file whose shown text changed; of no meaning if none did.
    pub tag: u16,
    /// How that text changed.
    pub told: Told,
}

/// What became of an edit that waits as it was to be put.
#[derive(Clone, Copy, Debug, PartialEq, Eq, Drop)]
pub enum Put {
    /// Nothing waits over the file.
    Nothing,
    /// It waits on: the end has something else to do, or a lock holds the user out, or it stands behind a request of an `OrderedOverlay`.
    NotFree,
    /// It was put as an event, and the next step has it act.
    Edit,
}

/// How a request was taken in.
#[derive(Clone, Copy, Debug, PartialEq, Eq, Drop)]
pub enum Asked {
    /// It waits behind all others.
    New,
    /// `(place)`: it is a write, and one that waits will write the same text for it: that at this place among the requests that wait, the
    /// oldest at 0.
    Shares(usize),
}

/// What became of the oldest request as it was to act.
#[derive(Clone, Copy, Debug, PartialEq, Eq, Drop)]
pub enum Turn {
    /// None waits.
    Nothing,
    /// It waits on: edits before it are left to put, the end has something else to do, or a lock is in its way.
    NotYet,
    /// The end holds it, and the next step has it act or refuses it.
    Request,
}
