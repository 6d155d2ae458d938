//! `Block`: some runs in order, with their sums.

ghost use Rattle.std.specs.Prelude.{◌≡◌, ◌<◌, ◌+◌, ◌^◌};
ghost use Rattle.sam_pending.specs.Blocks.{inserting_run, measure, oldest_inserting, oldest_removing, removing_run};
ghost use Rattle.sam_pending.specs.Marks.{sums_of};
ghost use Rattle.sam_pending.specs.Runs.{above, has_due, made_first, newest_of, rooms, taken_first, waits};

use crate::run::{Deed, Run, Side};
use crate::sums::{Sums, older};
use crate::{due, runs};
use std::marker::Model;

/// Some runs in order, with their sums.
#[derive(Drop)]
pub struct Block {
    /// The runs.
    runs: Vec<Run>,
    /// Their sums.
    sums: Sums,
}

impl Model for Block {
    ghost use Rattle.std.specs.Prelude.{◌≡◌, List};
    ghost use Rattle.sam_pending.specs.declared.run.Run.{Run};
    ghost use Rattle.sam_pending.specs.Marks.{sums_of};

    ghost Value = { List Run };

    ghost view = { λ b. b.runs.items };

    ghost invariant = { λ b. b.sums ≡ sums_of b.runs.items };
}

impl Block {
    /// Returns the block of these runs.
    pub fn new(runs: Vec<Run>) -> Block
        requires { rooms runs.items + waits runs.items < 2 ^ 32 }
        ensures { result ≡ runs.items }
    {
        let sums = sums_of(runs.as_slice());
        Block { runs, sums }
    }

    /// Returns its runs.
    pub fn runs(&self) -> &[Run]
        ensures { result.now ≡ self.now }
    {
        self.runs.as_slice()
    }

    /// Returns their sums.
    pub fn sums(&self) -> Sums
        ensures { result ≡ sums_of self.now }
    {
        self.sums
    }

    /// Returns how many members of the rasp it holds.
    pub fn rasp_len(&self) -> u32
        ensures { result ≡ rooms self.now }
    {
        self.sums.rasp_len
    }

    /// Returns how many of its cells are shown.
    pub fn shown_len(&self) -> u32
        ensures { result ≡ above self.now }
    {
        self.sums.shown_len
    }

    /// Returns how many of its cells count on a side.
    pub fn len(&self, side: Side) -> u32
        ensures { result ≡ measure side self.now }
    {
        match side {
            Side::Below => self.rasp_len(),
            Side::Above => self.shown_len(),
        }
    }

    /// Returns its newest group; 0 if none waits.
    pub fn newest(&self) -> u32
        ensures { result ≡ newest_of self.now }
    {
        self.sums.newest
    }

    /// Returns whether such an edit is due at some run of it.
    #[tactic(auto, using(crate::proofs::BlockLaws::removes_reach, crate::proofs::BlockLaws::inserts_reach))]
    pub fn has_due(&self, deed: Deed) -> bool
        ensures { result ≡ has_due deed self.now }
    {
        self.sums.has_due(deed)
    }

    /// Makes the edit at the first run at which such an edit is due; all stays if it is due at none.
    #[tactic(auto, using(crate::proofs::BlockLaws::make_facts))]
    pub fn make_first(&mut self, deed: Deed)
        requires { rooms self.old + waits self.old < 2 ^ 32 }
        ensures { self.new ≡ made_first deed self.old }
    {
        due::make_first(&mut self.runs, deed);
        self.sums = sums_of(self.runs.as_slice());
    }

    /// Puts an empty run in place of the first one whose runes are due, of the groups up to a limit; all stays if none are.
    #[tactic(auto, using(crate::proofs::DropLaws::take_facts))]
    pub fn take_first(&mut self, up_to: Option<u32>)
        requires { rooms self.old + waits self.old < 2 ^ 32 }
        ensures { self.new ≡ taken_first up_to self.old }
    {
        due::take_first(&mut self.runs, up_to);
        self.sums = sums_of(self.runs.as_slice());
    }
}

/// Returns the sums of the runs.
#[tactic(auto, using(crate::proofs::BlockLaws::new_facts))]
fn sums_of(runs: &[Run]) -> Sums
    requires { rooms runs.now + waits runs.now < 2 ^ 32 }
    ensures { result ≡ sums_of runs.now }
{
    Sums {
        rasp_len: runs::rasp_len(runs),
        waiting_len: runs::waiting_len(runs),
        shown_len: runs::shown_len(runs),
        newest: runs::newest(runs),
        removing: oldest_removing(runs),
        inserting: oldest_inserting(runs),
    }
}

/// Returns the group that takes members of the rasp out at the run, if one does.
fn removing(run: Run) -> Option<u32>
    ensures { result ≡ removing_run run }
{
    match run {
        Run::Held(count, died) => { if count > 0 { died } else { None } }
        Run::Typed(_, _, _) => None,
    }
}

/// Returns the group whose runes wait in the run, if some do.
fn inserting(run: Run) -> Option<u32>
    ensures { result ≡ inserting_run run }
{
    match run {
        Run::Held(_, _) => None,
        Run::Typed(runes, born, _) => { if runes.count > 0 { Some(born) } else { None } }
    }
}

/// Returns the oldest group that takes members of the rasp out.
#[tactic(auto, using(crate::proofs::BlockLaws::older_facts))]
fn oldest_removing(runs: &[Run]) -> Option<u32>
    ensures { result ≡ oldest_removing runs.now }
{
    let mut oldest = None;
    for run in runs {
        oldest = older(oldest, removing(*run));
    }
    oldest
}

/// Returns the oldest group whose runes wait.
#[tactic(auto, using(crate::proofs::BlockLaws::older_facts))]
fn oldest_inserting(runs: &[Run]) -> Option<u32>
    ensures { result ≡ oldest_inserting runs.now }
{
    let mut oldest = None;
    for run in runs {
        oldest = older(oldest, inserting(*run));
    }
    oldest
}
