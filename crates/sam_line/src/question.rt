//! What of this side's stream the other side is to acknowledge.

ghost use Rattle.std.specs.Prelude.{◌≡◌};
ghost use Rattle.sam_line.specs.Question.{asked_at, measured, owing_to, unmeasured};

/// What an acknowledgement is wanted for, and how long one took. Bytes are counted from the begin of the stream, times are in milliseconds.
#[derive(Clone, Copy, Debug, PartialEq, Eq, Drop)]
pub struct Question {
    /// So many bytes are to be acknowledged.
    due: u64,
    /// Where the last question ends.
    asked: u64,
    /// When it was put; `None` if its answer has come, or a connection was made since.
    since: Option<u64>,
    /// How long the last answer took.
    round_trip: u64,
}

impl Question {
    /// Nothing was put.
    pub fn new() -> Question
        ensures { result ≡ record { due = 0; asked = 0; since = None; round_trip = 0 } }
    {
        Question {
            due: 0,
            asked: 0,
            since: None,
            round_trip: 0,
        }
    }

    /// Returns how many bytes are to be acknowledged.
    pub fn due(&self) -> u64
        ensures { result ≡ self.now.due }
    {
        self.due
    }

    /// Returns where the last question ends.
    pub fn asked(&self) -> u64
        ensures { result ≡ self.now.asked }
    {
        self.asked
    }

    /// Returns how long the last answer took.
    pub fn round_trip(&self) -> u64
        ensures { result ≡ self.now.round_trip }
    {
        self.round_trip
    }

    /// So many bytes are to be acknowledged.
    pub fn owe(&mut self, count: u64)
        ensures { self.new ≡ owing_to self.old count }
    {
        self.due = count;
    }

    /// A question was put, which ends there.
    pub fn ask(&mut self, count: u64, now: u64)
        ensures { self.new ≡ asked_at self.old count now }
    {
        self.due = count;
        self.asked = count;
        self.since = Some(now);
    }

    /// Bytes have come, and so many are acknowledged.
    pub fn measure(&mut self, acknowledged: u64, now: u64)
        ensures { self.new ≡ measured self.old acknowledged now }
    {
        if let Some(since) = self.since {
            if self.asked <= acknowledged {
                self.since = None;
                self.round_trip = now.saturating_sub(since);
            }
        }
    }

    /// A connection is made: the answer to a question before it measures nothing.
    pub fn forget(&mut self)
        ensures { self.new ≡ unmeasured self.old }
    {
        self.since = None;
    }
}
