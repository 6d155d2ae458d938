//! When a connection is to be tried, and when it is to be given up. Times are in milliseconds, of any clock.

ghost use Rattle.std.specs.Prelude.{◌≡◌};
ghost use Rattle.sam_line.specs.Clock.{at, begun, connecting, deadline, due_in, failed, failures_before, heard, is_final, is_open};
ghost use Rattle.sam_line.specs.Clock.{is_welcome, late, left, may_come_back, missing_after, missing_since, moved, moved_in, owed, pause};
ghost use Rattle.sam_line.specs.Clock.{quiet_from, refused, says, says_in, silence, sooner, welcomed};

use sam_link::Refusal;

/// After so much silence with an answer due the line is late, and the host is asked.
pub const ASK_AFTER: u64 = 15_000;

/// After so much more the connection is given up.
pub const DROP_AFTER: u64 = 15_000;

/// The same where an address of the machine came or went.
pub const DROP_AFTER_MOVE: u64 = 2_000;

/// A connection that no host has welcomed is given up after so long.
pub const WELCOME_WITHIN: u64 = 30_000;

/// How long it is until the next connection is tried, after none, one, two .. that failed before.
pub const PAUSES: [u64; 7] = [0, 1_000, 2_000, 4_000, 8_000, 16_000, 30_000];

/// The last of the pauses.
const LAST_PAUSE: usize = 6;

/// At most so long it is where an address of the machine came or went.
pub const RETRY_AFTER_MOVE: u64 = 1_000;

/// The pauses begin anew after a connection that stood for so long.
pub const STEADY_AFTER: u64 = 1_000;

/// After so much silence, and two round trips, an answer is overdue: the user is to know.
pub const OVERDUE_AFTER: u64 = 1_000;

/// For so long a session that was there may come back, which the host does not find.
pub const MISSING_FOR: u64 = 60_000;

/// A time that something may take.
#[derive(Clone, Copy, Debug, PartialEq, Eq, Drop)]
pub struct Deadline {
    /// When it began, in milliseconds.
    pub since: u64,
    /// How many milliseconds it may take.
    pub within: u64,
}

/// How a line stands.
#[derive(Clone, Copy, Debug, PartialEq, Eq, Drop)]
pub enum State {
    /// There is no connection. The next one is tried when this is over.
    Down(Deadline),
    /// One is being made. It is given up when this is over.
    Connecting(Deadline),
    /// A host has welcomed the newest connection.
    Open,
    /// It has, but nothing has come for long, though an answer is due. The connection is given up when this is over.
    Late(Deadline),
    /// The host has refused for good: no connection is tried any more.
    Lost(Refusal),
}

/// What the program is to do now.
#[derive(Clone, Copy, Debug, PartialEq, Eq, Drop)]
pub enum Tick {
    /// Nothing.
    Nothing,
    /// Make a connection.
    Connect,
    /// Close the connection, or end the attempt to make one.
    Drop,
    /// Ask whether all has come.
    Ask,
}

/// The clock of one line. Its time is the greatest that was handed in.
#[derive(Clone, Copy, Debug, PartialEq, Eq, Drop)]
pub struct Clock {
    /// The greatest time that was handed in.
    time: u64,
    /// How the line stands.
    state: State,
    /// Since when nothing has come, though something is due.
    quiet: u64,
    /// How many connections failed, one after another; 6 at most.
    failures: u64,
    /// When a host has welcomed a connection last.
    opened: u64,
    /// Since when no host finds the session.
    missing: Option<u64>,
}

impl Deadline {
    /// Returns how much is left of it.
    fn left(self, now: u64) -> u64
        ensures { result ≡ left self now }
    {
        self.within.saturating_sub(now.saturating_sub(self.since))
    }

    /// Returns the one that is over so soon, or this one, if it is over sooner.
    fn sooner(self, now: u64, within: u64) -> Deadline
        ensures { result ≡ sooner self now within }
    {
        if within < self.left(now) {
            Deadline { since: now, within }
        } else {
            self
        }
    }
}

impl State {
    /// Returns whether a host has welcomed the newest connection, which is not over.
    pub(crate) fn is_welcome(self) -> bool
        ensures { result ≡ is_welcome self }
    {
        match self {
            State::Down(_) => false,
            State::Connecting(_) => false,
            State::Open => true,
            State::Late(_) => true,
            State::Lost(_) => false,
        }
    }

    /// Returns whether there is such a connection, and it is not late.
    fn is_open(self) -> bool
        ensures { result ≡ is_open self }
    {
        match self {
            State::Down(_) => false,
            State::Connecting(_) => false,
            State::Open => true,
            State::Late(_) => false,
            State::Lost(_) => false,
        }
    }

    /// Returns what is to be done once it is over.
    fn tick(self) -> Tick
        ensures { result ≡ says_in self }
    {
        match self {
            State::Down(_) => Tick::Connect,
            State::Connecting(_) => Tick::Drop,
            State::Open => Tick::Ask,
            State::Late(_) => Tick::Drop,
            State::Lost(_) => Tick::Nothing,
        }
    }

    /// Returns how the line stands once an address of the machine came or went.
    fn moved(self, now: u64) -> State
        ensures { result ≡ moved_in self now }
    {
        match self {
            State::Down(deadline) => State::Down(deadline.sooner(now, RETRY_AFTER_MOVE)),
            State::Connecting(deadline) => State::Connecting(deadline),
            State::Open => State::Late(Deadline {
                since: now,
                within: DROP_AFTER_MOVE,
            }),
            State::Late(deadline) => State::Late(deadline.sooner(now, DROP_AFTER_MOVE)),
            State::Lost(why) => State::Lost(why),
        }
    }
}

impl Clock {
    /// Begins at this time. The first connection is due at once.
    pub fn new(now: u64) -> Clock
        ensures { result ≡ begun now }
    {
        Clock {
            time: now,
            state: State::Down(Deadline {
                since: now,
                within: 0,
            }),
            quiet: now,
            failures: 0,
            opened: now,
            missing: None,
        }
    }

    /// Goes on to this time, and never back.
    pub fn set(&mut self, now: u64)
        ensures { self.new ≡ at self.old now }
    {
        self.time = self.time.max(now);
    }

    /// Returns the time.
    pub fn time(&self) -> u64
        ensures { result ≡ self.now.time }
    {
        self.time
    }

    /// Returns how the line stands.
    pub fn state(&self) -> State
        ensures { result ≡ self.now.state }
    {
        self.state
    }

    /// Returns how many connections failed, one after another.
    pub fn failures(&self) -> u64
        ensures { result ≡ self.now.failures }
    {
        self.failures
    }

    /// Returns a deadline that begins now.
    fn deadline_of(&self, within: u64) -> Deadline
        ensures { result ≡ record { since = self.now.time; within = within } }
    {
        Deadline {
            since: self.time,
            within,
        }
    }

    /// Returns what is waited for, if anything comes by time.
    fn deadline(&self, due: bool) -> Option<Deadline>
        ensures { result ≡ deadline self.now due }
    {
        match self.state {
            State::Down(deadline) => Some(deadline),
            State::Connecting(deadline) => Some(deadline),
            State::Open => {
                if due {
                    Some(Deadline {
                        since: self.quiet,
                        within: ASK_AFTER,
                    })
                } else {
                    None
                }
            }
            State::Late(deadline) => Some(deadline),
            State::Lost(_) => None,
        }
    }

    /// Returns how long it is until there is something to do; `None` if nothing comes by time.
    pub fn due_in(&self, due: bool, now: u64) -> Option<u64>
        ensures { result ≡ due_in self.now due now }
    {
        match self.deadline(due) {
            Some(deadline) => Some(deadline.left(self.time.max(now))),
            None => None,
        }
    }

    /// Returns for how long nothing has come, though something is due.
    pub fn silence(&self, due: bool, now: u64) -> u64
        ensures { result ≡ silence self.now due now }
    {
        if self.state.is_open() && !due {
            0
        } else {
            self.time.max(now).saturating_sub(self.quiet)
        }
    }

    /// Returns what is to be done now.
    pub fn tick(&self, due: bool) -> Tick
        ensures { result ≡ says self.now due }
    {
        match self.deadline(due) {
            Some(deadline) => {
                if deadline.left(self.time) == 0 {
                    self.state.tick()
                } else {
                    Tick::Nothing
                }
            }
            None => Tick::Nothing,
        }
    }

    /// A connection is being made.
    pub fn connect(&mut self)
        ensures { self.new ≡ connecting self.old }
    {
        self.state = State::Connecting(self.deadline_of(WELCOME_WITHIN));
    }

    /// No answer has come.
    pub fn be_late(&mut self)
        ensures { self.new ≡ late self.old }
    {
        self.state = State::Late(self.deadline_of(DROP_AFTER));
    }

    /// The host has welcomed the newest connection.
    pub fn welcome(&mut self)
        ensures { self.new ≡ welcomed self.old }
    {
        self.state = State::Open;
        self.quiet = self.time;
        self.opened = self.time;
        self.missing = None;
    }

    /// Bytes have come on a connection that the host has welcomed.
    pub fn hear(&mut self)
        ensures { self.new ≡ heard self.old }
    {
        self.state = State::Open;
        self.quiet = self.time;
    }

    /// Returns since when nothing has come, though something is due.
    fn quiet_from(&self, due: bool) -> u64
        ensures { result ≡ quiet_from self.now due }
    {
        if self.state.is_open() && !due {
            self.time
        } else {
            self.quiet
        }
    }

    /// An answer becomes due.
    pub fn owe(&mut self, due: bool)
        ensures { self.new ≡ owed self.old due }
    {
        self.quiet = self.quiet_from(due);
    }

    /// Returns how many connections failed before the newest, one after another.
    fn failures_before(&self) -> u64
        ensures { result ≡ failures_before self.now }
    {
        if self.state.is_welcome() && self.time.saturating_sub(self.opened) >= STEADY_AFTER {
            0
        } else {
            self.failures
        }
    }

    /// The newest connection is over, or none could be made.
    pub fn fail(&mut self, due: bool)
        ensures { self.new ≡ failed self.old due }
    {
        let failures = self.failures_before();
        self.quiet = self.quiet_from(due);
        self.state = State::Down(self.deadline_of(pause(failures)));
        self.failures = failures.min(5) + 1;
    }

    /// Returns since when no host finds the session.
    fn missing_since(&self) -> u64
        ensures { result ≡ missing_since self.now }
    {
        self.missing.unwrap_or(self.time)
    }

    /// Returns whether a session that the host does not find may come back.
    fn may_come_back(&self, known: bool) -> bool
        ensures { result ≡ may_come_back self.now known }
    {
        known && self.time.saturating_sub(self.missing_since()) < MISSING_FOR
    }

    /// Returns whether the line is lost by such a refusal.
    fn is_final(&self, known: bool, why: Refusal) -> bool
        ensures { result ≡ is_final self.now known why }
    {
        match why {
            Refusal::NotALink => false,
            Refusal::OtherVersion => true,
            Refusal::BadHello => false,
            Refusal::NoSession => !self.may_come_back(known),
            Refusal::OtherSession => true,
            Refusal::OldAttempt => false,
            Refusal::WrongCount => true,
        }
    }

    /// Returns since when no host finds the session, once it refuses so.
    fn missing_after(&self, why: Refusal) -> Option<u64>
        ensures { result ≡ missing_after self.now why }
    {
        match why {
            Refusal::NoSession => Some(self.missing_since()),
            _ => self.missing,
        }
    }

    /// The host has refused the newest connection, which is over. `known` says whether the session was there.
    pub fn refuse(&mut self, known: bool, due: bool, why: Refusal)
        ensures { self.new ≡ refused self.old known due why }
    {
        if self.is_final(known, why) {
            self.quiet = self.quiet_from(due);
            self.state = State::Lost(why);
        } else {
            let missing = self.missing_after(why);
            self.fail(due);
            self.missing = missing;
        }
    }

    /// An address of the machine came or went.
    pub fn shift(&mut self, due: bool)
        ensures { self.new ≡ moved self.old due }
    {
        self.quiet = self.quiet_from(due);
        self.state = self.state.moved(self.time);
    }
}

/// Returns how long it is until the next connection is tried, after so many that failed before.
fn pause(failures: u64) -> u64
    ensures { result ≡ pause failures }
{
    let number = failures.min(LAST_PAUSE as u64) as usize;
    PAUSES[number]
}
