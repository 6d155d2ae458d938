//! The numbers of requests.

ghost use Rattle.std.specs.Prelude.{◌≡◌, ◌<◌, ◌^◌, ◌-◌, ◌==◌, false};
ghost use Rattle.sam_overlay.specs.Numbers.{after_asking, after_telling, is_due, is_outcome, no_numbers, number_of, told_number};

use crate::shown_change::Asked;
use sam_endpoint::TermStep;

/// Numbers the requests of an `OrderedOverlay`, from 1 on as they are taken, and says of which one a step tells. Requests act in their
/// order, so each is told of once, in the order of the numbers.
#[derive(Clone, Copy, Debug, PartialEq, Eq, Drop)]
pub struct RequestNumbers {
    /// How many requests were taken.
    taken: u64,
    /// Of how many it was told that they acted or were refused.
    told: u64,
}

/// Returns whether an event of the user acted by the step, or was refused.
fn is_outcome(step: TermStep) -> bool
    ensures { result ≡ is_outcome step }
{
    match step {
        TermStep::Idle | TermStep::Locked | TermStep::Wrote => false,
        TermStep::Received { .. } => false,
        TermStep::Acted { .. } | TermStep::Refused { .. } => true,
    }
}

impl RequestNumbers {
    /// Makes the numbers of an overlay that was asked for nothing.
    pub fn new() -> RequestNumbers
        ensures { result ≡ no_numbers }
    {
        RequestNumbers { taken: 0, told: 0 }
    }

    /// Returns whether 2^64-1 requests were taken, so that no other gets a number.
    pub fn is_full(&self) -> bool
        ensures full { result ≡ (self.now.taken == 2 ^ 64 - 1) }
        ensures room { result ≡ false → self.now.taken < 2 ^ 64 - 1 }
    {
        self.taken == u64::MAX
    }

    /// Numbers a request as `OrderedOverlay::ask` has taken it, where `waiting` requests wait by then, and returns the number. A write that
    /// shares one that waits has the number of that.
    pub fn number(&mut self, asked: Asked, waiting: usize) -> u64
        requires { self.old.taken < 2 ^ 64 - 1 }
        ensures number { result ≡ number_of self.old waiting asked }
        ensures after { self.new ≡ after_asking self.old asked }
    {
        match asked {
            Asked::New => {
                self.taken += 1;
                self.taken
            }
            Asked::Shares(place) => {
                let behind = waiting.saturating_sub(place).saturating_sub(1);
                self.taken.saturating_sub(behind as u64)
            }
        }
    }

    /// Returns whether a request has left those that wait, of which there are `waiting`, and was not told of.
    fn is_due(&self, waiting: usize) -> bool
        ensures { result ≡ is_due self.now waiting }
    {
        self.told < self.taken.saturating_sub(waiting as u64)
    }

    /// Returns the number of the request of which a step tells that it acted or was refused, where `waiting` requests wait behind it; 0 if
    /// it tells of none, but of an edit, say. Each step is to be given once, as it comes.
    pub fn tell(&mut self, step: TermStep, waiting: usize) -> u64
        ensures number { result ≡ told_number self.old waiting step }
        ensures after { self.new ≡ after_telling self.old waiting step }
    {
        if !is_outcome(step) || !self.is_due(waiting) {
            return 0;
        }
        self.told += 1;
        self.told
    }
}
