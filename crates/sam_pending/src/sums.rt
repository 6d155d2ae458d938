//! `Sums`: what a walk has to know of runs over which it passes.

ghost use Rattle.std.specs.Prelude.{◌≡◌, ◌<◌, ◌+◌, ◌^◌, []};
ghost use Rattle.sam_pending.specs.Blocks.{older, reaches};
ghost use Rattle.sam_pending.specs.Marks.{plus, sums_of, sums_due, side_len};

use crate::run::{Deed, Side};

/// What a walk has to know of runs over which it passes.
#[derive(Clone, Copy)]
pub struct Sums {
    /// How many members of the rasp they hold.
    pub rasp_len: u32,
    /// How many of their runes wait.
    pub waiting_len: u32,
    /// How many of their cells are shown.
    pub shown_len: u32,
    /// Their newest group; 0 if none waits.
    pub newest: u32,
    /// The oldest group that takes members out.
    pub removing: Option<u32>,
    /// The oldest group whose runes wait.
    pub inserting: Option<u32>,
}

/// Returns whether there is such a group, and it is within the limit, if there is a limit.
fn reaches(limit: Option<u32>, group: Option<u32>) -> bool
    ensures { result ≡ reaches limit group }
{
    match group {
        None => false,
        Some(oldest) => match limit {
            None => true,
            Some(last) => oldest <= last,
        },
    }
}

/// Returns the older of two groups, where there are two.
pub fn older(one: Option<u32>, other: Option<u32>) -> Option<u32>
    ensures { result ≡ older one other }
{
    match one {
        None => other,
        Some(group) => match other {
            None => Some(group),
            Some(next) => Some(group.min(next)),
        },
    }
}

impl Sums {
    /// Returns those of no runs.
    pub fn none() -> Sums
        ensures { result ≡ sums_of [] }
    {
        Sums {
            rasp_len: 0,
            waiting_len: 0,
            shown_len: 0,
            newest: 0,
            removing: None,
            inserting: None,
        }
    }

    /// Returns those of the runs and of others behind them.
    pub fn plus(self, other: Sums) -> Sums
        requires rasp { self.rasp_len + other.rasp_len < 2 ^ 32 }
        requires waiting { self.waiting_len + other.waiting_len < 2 ^ 32 }
        requires shown { self.shown_len + other.shown_len < 2 ^ 32 }
        ensures { result ≡ plus self other }
    {
        Sums {
            rasp_len: self.rasp_len + other.rasp_len,
            waiting_len: self.waiting_len + other.waiting_len,
            shown_len: self.shown_len + other.shown_len,
            newest: self.newest.max(other.newest),
            removing: older(self.removing, other.removing),
            inserting: older(self.inserting, other.inserting),
        }
    }

    /// Returns how many cells count on a side.
    pub fn len(self, side: Side) -> u32
        ensures { result ≡ side_len side self }
    {
        match side {
            Side::Below => self.rasp_len,
            Side::Above => self.shown_len,
        }
    }

    /// Returns whether such an edit is due at some run.
    pub fn has_due(self, deed: Deed) -> bool
        ensures { result ≡ sums_due deed self }
    {
        match deed {
            Deed::Removes(limit) => reaches(limit, self.removing),
            Deed::Inserts(limit) => reaches(limit, self.inserting),
        }
    }
}
