//! The next edit by which what waits comes to the rasp.

ghost use Rattle.std.specs.Prelude.{◌≡◌, ◌≤◌, ◌<◌, ◌+◌, ◌^◌, length, IfOk};
ghost use Rattle.sam_pending.specs.Runs.{rooms, room, reach, above, first_due, first_typed, edit_at, made_first, taken_first};

use crate::run::{Deed, Run};
use sam_runes::{Edit, Runes};
use std::alloc::{AllocError, Global};

/// Returns the first run at which such an edit is due, and how many members of the rasp stand before it, where `start` stand before the
/// runs; `None` if it is due at none.
pub(crate) fn first_due(runs: &[Run], deed: Deed, start: u32) -> Option<(Run, u32)>
    requires { start + rooms runs.now < 2 ^ 32 }
    ensures { result ≡ first_due deed start runs.now }
{
    let mut at = start;
    for run in runs {
        if run.is_due(deed) {
            return Some((*run, at));
        }
        at += run.room();
    }
    None
}

/// Returns the edit at a run, before which so many members of the rasp stand. The only error is out of memory.
pub(crate) fn edit_at(alloc: Global, text: &[char], run: Run, at: u32) -> Result<Edit, AllocError>
    requires within { reach run ≤ length text.now }
    requires text { length text.now < 2 ^ 32 }
    requires fits { at + room run < 2 ^ 32 }
    ensures { IfOk result (λ edit. edit ≡ edit_at text.now at run) }
{
    match run {
        Run::Held(count, _) => Ok(Edit {
            p: at,
            q: at + count,
            text: Runes::from_vec(Vec::new(alloc)),
        }),
        Run::Typed(runes, _, _) => {
            let end = (runes.start + runes.count) as usize;
            let text = Runes::from_slice(alloc, &text[runes.start as usize..end])?;
            Ok(Edit { p: at, q: at, text })
        }
    }
}

/// Returns the first run whose runes are due, of the groups up to a limit, and how many shown cells stand before it, where `start` stand
/// before the runs; `None` if none are.
#[tactic(auto, using(crate::proofs::DropLaws::above_one))]
pub(crate) fn first_typed(runs: &[Run], up_to: Option<u32>, start: u32) -> Option<(Run, u32)>
    requires { start + above runs.now < 2 ^ 32 }
    ensures { result ≡ first_typed up_to start runs.now }
{
    let mut at = start;
    for run in runs {
        if run.is_due(Deed::Inserts(up_to)) {
            return Some((*run, at));
        }
        at += run.shown();
    }
    None
}

/// Puts an empty run in place of the first one whose runes are due, of the groups up to a limit; all stays if none are.
pub(crate) fn take_first(runs: &mut Vec<Run>, up_to: Option<u32>)
    ensures { runs.new.items ≡ taken_first up_to runs.old.items }
{
    for at in 0..runs.len() {
        if runs[at].is_due(Deed::Inserts(up_to)) {
            runs[at] = Run::Held(0, None);
            return;
        }
    }
}

/// Makes the edit at the first run at which such an edit is due; all stays if it is due at none.
pub(crate) fn make_first(runs: &mut Vec<Run>, deed: Deed)
    ensures { runs.new.items ≡ made_first deed runs.old.items }
{
    for at in 0..runs.len() {
        let run = runs[at];
        if run.is_due(deed) {
            runs[at] = run.made();
            return;
        }
    }
}
