//! Gates, which let the workers of a session begin and go on, or stop them.
ghost use Rattle.std.specs.Prelude.{ℕ, ◌<◌, IsFalse, IsTrue, Option, None, Some};

use std::sync::atomic::{AtomicU64, Ordering};

/// The keyboard's number among the workers.
pub const KEYBOARD: usize = 0;
/// The mouse's number among the workers.
pub const MOUSE: usize = 1;
/// The host's number among the workers.
pub const HOST: usize = 2;
/// The host reader's number among the workers.
pub const READER: usize = 3;
/// The terminal's number among the workers.
pub const TERMINAL: usize = 4;
/// How many workers a session has.
const WORKERS: usize = 5;

/// Lets the workers of a session begin and go on, or stops them. All five ask the same gate, each from its own thread: keyboard 0, mouse
/// 1, host 2, host reader 3, terminal 4. A test can use a gate of its own to stop a worker where it likes.
pub trait Gate: Sync {
    /// The workers that the gate may refuse: it returns false for no other.
    ghost may_refuse: { Self → ℕ → Type 0 };

    /// Where the gate never lets a worker pass: `None` as it begins, and `Some` once it has done so much.
    ghost must_refuse: { Self → ℕ → Option ℕ → Type 0 };

    /// Returns whether the worker may begin. It is asked once, as the worker begins. A worker that is refused does no work, and the
    /// session counts as not run.
    fn pass(&self, worker: usize) -> bool
        requires { worker < 5 }
        ensures refused { IsFalse result → may_refuse self.now worker }
        ensures let_in { IsTrue result → must_refuse self.now worker None → ⊥ };

    /// Returns whether the worker may go on. It is asked before each event that a worker sends (workers 0 and 1), message that it handles
    /// (2), frame that it sends on (3), or item that it handles (4). `handled` is how many of these the worker has done; once it is 2^64-1
    /// it stays there. A worker that is refused stops with [`Stop::Gate`](crate::Stop::Gate).
    fn go_on(&self, worker: usize, handled: u64) -> bool
        requires { worker < 5 }
        ensures refused { IsFalse result → may_refuse self.now worker }
        ensures let_on { IsTrue result → must_refuse self.now worker (Some handled) → ⊥ };
}

/// A gate that refuses nobody. It is the one to use outside of tests.
#[derive(Drop)]
pub struct OpenGate;

impl Gate for OpenGate {
    ghost may_refuse = { λ _ _. ⊥ };

    ghost must_refuse = { λ _ _ _. ⊥ };

    fn pass(&self, _worker: usize) -> bool {
        true
    }

    fn go_on(&self, _worker: usize, _handled: u64) -> bool {
        true
    }
}

/// A gate that lets workers begin only once all five have come to it. A worker raises its flag and then looks at all five flags; it is
/// refused if it has looked `turns` times and never saw all of them up. Flags stay up, so a gate serves one session.
#[derive(Drop)]
pub struct FlagGate {
    /// A flag for each worker, by its number: 0 until the worker has come to the gate, and 1 from then on.
    flags: [AtomicU64; WORKERS],
    /// How often a worker looks at the flags before it is refused.
    turns: u64,
}

impl FlagGate {
    /// Makes a gate with all flags down. A worker looks at the flags at most `turns` times, so with 0 each worker is refused.
    pub fn new(turns: u64) -> FlagGate {
        FlagGate {
            flags: [
                AtomicU64::new(0),
                AtomicU64::new(0),
                AtomicU64::new(0),
                AtomicU64::new(0),
                AtomicU64::new(0),
            ],
            turns,
        }
    }

    /// Returns whether all five flags are up.
    fn all_up(&self) -> bool {
        for flag in &self.flags {
            if flag.load(Ordering::SeqCst) == 0 {
                return false;
            }
        }
        true
    }
}

impl Gate for FlagGate {
    ghost use Rattle.std.specs.Prelude.{◌≡◌, None};

    ghost may_refuse = { λ _ _. Unit {0} };

    // Whether the others come to the gate no contract can say. A worker that may not look at the flags is refused.
    ghost must_refuse = { λ gate _ when. (when ≡ None) × (gate.turns ≡ 0) };

    /// Raises the worker's flag, and returns true once it sees all five up. It returns false if it has looked `turns` times.
    fn pass(&self, worker: usize) -> bool {
        self.flags[worker].store(1, Ordering::SeqCst);
        for _ in 0..self.turns {
            if self.all_up() {
                return true;
            }
        }
        false
    }

    /// A worker that has begun goes on.
    fn go_on(&self, _worker: usize, _handled: u64) -> bool
        ensures goes_on { IsTrue result }
    {
        // It has passed, so all five flags are up, and they stay up.
        true
    }
}
