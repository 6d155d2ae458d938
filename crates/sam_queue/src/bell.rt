//! How an end of a line waits: it tries again after short pauses, and then sleeps until the other side of the line acts.
//! No contract speaks of it: what an end has put or taken is said of its tries alone.

use std::sync::Wait;
use std::sync::atomic::{AtomicU64, Ordering};
use std::time::Duration;

/// How often a wait pauses before it sleeps. All these pauses take about as long as to wake a thread, so that ends of a busy line
/// seldom sleep. None gives way to other threads: on a busy machine these keep the processor for milliseconds each time.
const PAUSES: u32 = 200;

/// How often a pause looks at its bell: some 200 nanoseconds in all.
const LOOKS: u32 = 300;

/// How many pauses an end takes together at most, where it waits for several steps of the other.
const MOST_AT_ONCE: usize = 10;

/// How often a short wait pauses before it sleeps.
const FEW_PAUSES: u32 = 5;

/// How many more waits than before are short, each time that one which isn't sleeps.
const MORE_SHORT: u64 = 4;

/// How many waits in a row are short at most.
const MOST_SHORT: u64 = 16;

/// The first sleep of a wait, in microseconds. Each further one may take twice as long.
const FIRST_SLEEP: u64 = 100;

/// How often the time of a sleep doubles: the longest takes 25.6 milliseconds.
const DOUBLINGS: u32 = 8;

/// The state of a bell that nobody waits for.
const QUIET: u64 = 0;

/// The state of a bell that somebody waits for.
const AWAITED: u32 = 1;

/// How often an end has tried in vain, so that it waits longer each time. A wait begins with a new one.
#[derive(Clone, Copy, Debug, Default)]
pub struct Backoff {
    /// The tries in vain; once at 2^32-1 they stay there.
    tries: u32,
    /// How many waits are to be short once this one sleeps; `None` if it is short itself, or that is noted.
    then_short: Option<u64>,
}

impl Backoff {
    /// Makes the backoff of a wait that begins.
    pub fn new() -> Backoff {
        Backoff::default()
    }

    /// Returns whether the wait has paused often enough: after one more call, which sets the bell, it sleeps. What is worth doing only
    /// while nothing else comes is done then.
    pub fn sleeps_next(&self) -> bool {
        self.tries >= PAUSES
    }
}

/// What the waiting ends of one side of a line sleep on. The other side rings it after each step that can let them go on.
#[derive(Drop)]
pub(crate) struct Bell {
    /// `QUIET` or `AWAITED`. Whoever waits sets it to `AWAITED`, tries once more, and sleeps only while it stays so.
    state: AtomicU64,
    /// How many of the next waits are short: pauses are in vain where the other side has no processor meanwhile.
    short: AtomicU64,
    /// How many waits are to be short once one sleeps that isn't: none until two in a row do.
    then_short: AtomicU64,
    /// How many pauses an end takes together.
    at_once: u32,
}

impl Bell {
    /// Makes a bell that nobody waits for. Who waits there pauses for as long as so many steps of the other side take, since each try
    /// disturbs that.
    pub(crate) fn new(steps: usize) -> Bell {
        Bell {
            state: AtomicU64::new(QUIET),
            short: AtomicU64::new(0),
            then_short: AtomicU64::new(0),
            at_once: steps.min(MOST_AT_ONCE) as u32,
        }
    }

    /// Wakes all who wait. While nobody does it only looks.
    pub(crate) fn ring(&self) {
        if self.state.load(Ordering::SeqCst) == QUIET {
            return;
        }
        self.state.store(QUIET, Ordering::SeqCst);
        self.state.wake_all();
    }

    /// Lets a moment pass, and keeps the processor. What it sees says nothing: `hint::spin_loop` would do, but takes no time in this kit.
    fn pause(&self) {
        for _ in 0..LOOKS.saturating_mul(self.at_once) {
            self.state.load(Ordering::SeqCst);
        }
    }

    /// Begins a wait, which is short if pauses have been in vain.
    fn begin(&self, backoff: &mut Backoff) {
        let short = self.short.load(Ordering::SeqCst);
        if short > 0 {
            self.short.store(short - 1, Ordering::SeqCst);
            backoff.tries = PAUSES - FEW_PAUSES;
            return;
        }
        backoff.then_short = Some(self.then_short.load(Ordering::SeqCst));
        self.then_short.store(0, Ordering::SeqCst);
    }

    /// Notes that a wait is about to sleep.
    fn note_sleep(&self, backoff: &mut Backoff) {
        if let Some(short) = backoff.then_short {
            let more = short.saturating_add(MORE_SHORT).min(MOST_SHORT);
            self.short.store(short, Ordering::SeqCst);
            self.then_short.store(more, Ordering::SeqCst);
            backoff.then_short = None;
        }
    }

    /// Waits after a try in vain. It may return though nothing has changed, so the caller tries again each time. Between the
    /// call that sets `AWAITED` and the one that sleeps lies such a try, so no ring is lost; if one were, a sleep is short.
    pub(crate) fn wait<R: Wait>(&self, rt: &R, backoff: &mut Backoff) {
        if backoff.tries == 0 {
            self.begin(backoff);
        }
        let tries = backoff.tries;
        if tries < PAUSES {
            backoff.tries = tries.saturating_add(self.at_once).min(PAUSES);
            self.pause();
            return;
        }
        backoff.tries = tries.saturating_add(1);
        if tries > PAUSES {
            let longest = FIRST_SLEEP << (tries - PAUSES - 1).min(DOUBLINGS);
            self.state
                .park_timeout(rt, AWAITED, Duration::from_micros(longest));
        }
        self.note_sleep(backoff);
        self.state.store(AWAITED as u64, Ordering::SeqCst);
    }
}
