//! The command lines that were asked for, and are not answered.

ghost use Rattle.std.specs.Prelude.{◌≡◌, ◌≤◌, ◌++◌, ◌==◌, ◌∷◌, [], OnErr, OnOk, drop, length, map, slice_get};
ghost use Rattle.sam_front.specs.Runs.{behind_of, first_ran, has_newline, new_run, numbered, piece_of, ran_of, run_after, taken_back, without_run};

use std::alloc::{AllocError, Global};
use std::marker::Model;

/// So many lines are open at most.
pub const MOST_RUNS: usize = 1_000;

/// The most runes of a line.
pub const MOST_LINE: usize = 400_000;

/// So many runes of what a line printed are told at most.
pub const MOST_PRINTED: u32 = 65_536;

/// Where the command file has so many runes, and no line is open, it is emptied by the next line.
pub const MOST_KEPT: u32 = 100_000;

/// The most runes of one event.
pub(crate) const MOST_TYPED: usize = 512;

/// The fewest runes of an event that begins a line of several.
const LEAST_TYPED: usize = 2;

/// How far a line is.
#[derive(Clone, Copy, Debug, PartialEq, Eq, Drop)]
pub enum RunState {
    /// Its newline has not acted.
    Waits,
    /// It is under way: what it prints stands from this place of the command file on.
    Begun(u32),
    /// It has printed what stands from the first place to the second one.
    Ended(u32, u32),
}

/// A line that is not answered.
#[derive(Clone, Copy, Debug, PartialEq, Eq, Drop)]
pub struct Run {
    /// The number of the request that types its newline.
    pub request: u64,
    /// How far it is.
    pub state: RunState,
}

/// A line that has run, and what it printed.
#[derive(Clone, Copy, Debug, PartialEq, Eq, Drop)]
pub struct Ran {
    /// The number of the request that typed its newline.
    pub request: u64,
    /// The place in the command file where it begins.
    pub place: u32,
    /// How many runes it has.
    pub count: u32,
}

/// The lines, the oldest first. Contracts see a list.
#[derive(Drop)]
pub struct Runs {
    waiting: Vec<Run>,
}

impl Model for Runs {
    ghost use Rattle.std.specs.Prelude.{List};
    ghost use Rattle.sam_front.specs.declared.runs.Run.{Run};

    ghost Value = { List Run };

    ghost view = { λ r. r.waiting.items };
}

/// Returns whether one of the runes is a newline.
pub(crate) fn has_newline(runes: &[char]) -> bool
    ensures { result ≡ has_newline runes.now }
{
    for rune in runes {
        if *rune == '\n' {
            return true;
        }
    }
    false
}

/// Returns how many pieces of `MOST_TYPED` runes stand behind the first one, which has as many or fewer.
pub(crate) fn pieces_behind(runes: usize) -> usize
    ensures { result ≡ behind_of runes }
{
    runes.saturating_sub(1) / MOST_TYPED
}

/// Returns how many of so many runes the next piece has, where so many pieces stand behind it: as many as leave whole pieces. It is no lone
/// newline, which would run what stands before it.
pub(crate) fn next_piece(runes: usize, left: usize) -> usize
    requires { left ≤ 1_000 }
    ensures piece { result ≡ piece_of runes left }
    ensures within { result ≤ runes }
{
    runes
        .saturating_sub(left * MOST_TYPED)
        .max(LEAST_TYPED)
        .min(runes)
}

/// Returns the line after a step by which a request acted, if it is not 0. The command file has so many runes then.
fn run_after(run: Run, request: u64, len: u32, is_locked: bool) -> Run
    ensures { result ≡ run_after request len is_locked run }
{
    let state = match run.state {
        RunState::Waits if run.request == request => RunState::Begun(len),
        RunState::Begun(start) if !is_locked => RunState::Ended(start, len),
        state => state,
    };
    Run {
        request: run.request,
        state,
    }
}

/// Returns what a line printed, if it has run.
fn ran_of(run: Run) -> Option<Ran>
    ensures { result ≡ ran_of run }
{
    match run.state {
        RunState::Waits | RunState::Begun(_) => None,
        RunState::Ended(start, end) => Some(Ran {
            request: run.request,
            place: start,
            count: end.saturating_sub(start).min(MOST_PRINTED),
        }),
    }
}

/// Takes a step in.
#[tactic(auto, using(crate::proofs::RunLaws::step_more))]
fn note_step(runs: &mut Vec<Run>, request: u64, len: u32, is_locked: bool)
    ensures { runs.new.items ≡ map (run_after request len is_locked) runs.old.items }
{
    for place in 0..runs.len() {
        runs[place] = run_after(runs[place], request, len, is_locked);
    }
}

/// Gives the newest line its number, if there is one.
#[tactic(auto, using(crate::proofs::RunLaws::numbered_at))]
fn number_newest(runs: &mut Vec<Run>, request: u64)
    ensures { runs.new.items ≡ numbered request runs.old.items }
{
    if runs.is_empty() {
        return;
    }
    let place = runs.len() - 1;
    runs[place] = Run {
        request,
        state: RunState::Waits,
    };
}

/// Removes the line of this number, if there is one.
fn remove_run(runs: &mut Vec<Run>, request: u64)
    ensures { runs.new.items ≡ without_run request runs.old.items }
{
    runs.retain(|run| run.request != request);
}

impl Runs {
    /// No line. It takes no memory.
    pub fn new(alloc: Global) -> Runs
        ensures { result ≡ [] }
    {
        Runs {
            waiting: Vec::new(alloc),
        }
    }

    /// Returns how many are open.
    pub fn len(&self) -> usize
        ensures { result ≡ length self.now }
    {
        self.waiting.len()
    }

    /// Returns whether none is open.
    pub fn is_empty(&self) -> bool
        ensures { result ≡ (length self.now == 0) }
    {
        self.waiting.is_empty()
    }

    /// Opens a line behind the others that has no number yet. The only error is out of memory, after which all is as before.
    pub fn begin(&mut self) -> Result<(), AllocError>
        ensures ok { OnOk result (self.new ≡ self.old ++ new_run 0 ∷ []) }
        ensures err { OnErr result (self.new ≡ self.old) }
    {
        self.waiting.push(Run {
            request: 0,
            state: RunState::Waits,
        })?;
        Ok(())
    }

    /// Gives the newest line its number, if there is one.
    pub fn number(&mut self, request: u64)
        ensures { self.new ≡ numbered request self.old }
    {
        number_newest(&mut self.waiting, request);
    }

    /// Takes the newest line back, if there is one.
    pub fn take_back(&mut self)
        ensures { self.new ≡ taken_back self.old }
    {
        if let Some(newest) = self.waiting.pop() {
            let _ = newest;
        }
    }

    /// Takes a step in, by which a request acted, if it is not 0. The command file has so many runes then.
    pub fn note_step(&mut self, request: u64, len: u32, is_locked: bool)
        ensures { self.new ≡ map (run_after request len is_locked) self.old }
    {
        note_step(&mut self.waiting, request, len, is_locked);
    }

    /// Closes the line of this number, if there is one.
    pub fn close(&mut self, request: u64)
        ensures { self.new ≡ without_run request self.old }
    {
        remove_run(&mut self.waiting, request);
    }

    /// Returns the oldest line; `None` if none is open.
    pub fn first(&self) -> Option<Run>
        ensures { result ≡ slice_get self.now 0 }
    {
        self.waiting.as_slice().first().copied()
    }

    /// Returns what the oldest line printed, if it has run.
    pub fn first_ran(&self) -> Option<Ran>
        ensures { result ≡ first_ran self.now }
    {
        match self.first() {
            Some(run) => ran_of(run),
            None => None,
        }
    }

    /// Closes the oldest line, if there is one.
    pub fn drop_first(&mut self)
        ensures { self.new ≡ drop 1 self.old }
    {
        if !self.waiting.is_empty() {
            let _oldest = self.waiting.remove(0);
        }
    }
}
