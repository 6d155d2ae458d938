//! Lists of runs: what the user does, and what a frame of the host does.

ghost use Rattle.std.specs.Prelude.{◌≡◌, ◌≤◌, ◌<◌, ◌+◌, ◌^◌, ◌++◌, [], ◌∷◌, List, length, IfOk, OnOk, None};
ghost use Rattle.sam_pending.specs.Runs.{front, back, rooms, waits, waiting_runs, dying_run, dying_runs, above, gone_run, gone_runs, filled_run, filled_runs, newest_of, reach, Within, IsSame, kept_run, kept_runs, kept_text, spot};
ghost use Rattle.sam_pending.specs.Cells.{PartialText};
ghost use Rattle.sam_pending.specs.Layers.{most_kept, shown_members, part_members};
ghost use Rattle.sam_pending.specs.declared.run.Run.{Run};
ghost use Rattle.sam_pending.specs.declared.run.Run.TheVariants.{Held, Typed};
ghost use Rattle.sam_pending.specs.declared.run.Side.TheVariants.{Below, Above};

use crate::run::{Run, Side, Stretch};
use crate::told::{Filling, Removal, Shown};
use std::alloc::{AllocError, Global};

/// Puts the run before the place that is `left` further on, or behind it, or its two parts. Returns how far the place is from its end.
#[tactic(auto, using(crate::proofs::RunLaws::sort_facts))]
fn sort(
    before: &mut Vec<Run>,
    behind: &mut Vec<Run>,
    side: Side,
    left: u32,
    run: Run,
) -> Result<u32, AllocError>
    requires { reach run ≤ most_kept }
    ensures front { IfOk result (λ n. (rest : List Run) →
        before.new.items ++ front side n rest ≡ before.old.items ++ front side left (run ∷ rest)) }
    ensures back { IfOk result (λ n. (rest : List Run) →
        behind.new.items ++ back side n rest ≡ behind.old.items ++ back side left (run ∷ rest)) }
{
    if left == 0 {
        behind.push(run)?;
        return Ok(0);
    }
    if !run.counts(side) {
        before.push(run)?;
        return Ok(left);
    }
    let size = run.size();
    if size <= left {
        before.push(run)?;
        return Ok(left - size);
    }
    before.push(run.head(left))?;
    behind.push(run.tail(left))?;
    Ok(0)
}

/// Parts the runs at a place of that side. The only error is out of memory.
#[tactic(auto, using(crate::proofs::RunLaws::split_facts))]
pub(crate) fn split(
    alloc: Global,
    runs: &[Run],
    side: Side,
    place: u32,
) -> Result<(Vec<Run>, Vec<Run>), AllocError>
    requires { Within most_kept runs.now }
    ensures { IfOk result (λ parts. (parts.0.items ≡ front side place runs.now) × (parts.1.items ≡ back side place runs.now)) }
{
    let mut before = Vec::new(alloc);
    let mut behind = Vec::new(alloc);
    let mut left = place;
    for run in runs {
        left = sort(&mut before, &mut behind, side, left, *run)?;
    }
    Ok((before, behind))
}

/// Returns how many members of the rasp the runs hold.
pub(crate) fn rasp_len(runs: &[Run]) -> u32
    requires { rooms runs.now < 2 ^ 32 }
    ensures { result ≡ rooms runs.now }
{
    let mut count = 0;
    for run in runs {
        count += run.room();
    }
    count
}

/// Returns how many runes of the runs wait.
pub(crate) fn waiting_len(runs: &[Run]) -> u32
    requires { waits runs.now < 2 ^ 32 }
    ensures { result ≡ waits runs.now }
{
    let mut count = 0;
    for run in runs {
        count += run.wait();
    }
    count
}

/// Returns how many cells of the runs are shown.
pub(crate) fn shown_len(runs: &[Run]) -> u32
    requires { above runs.now < 2 ^ 32 }
    ensures { result ≡ above runs.now }
{
    let mut count = 0;
    for run in runs {
        if run.counts(Side::Above) {
            count += run.size();
        }
    }
    count
}

/// Returns the newest group of the runs; 0 if none waits.
pub(crate) fn newest(runs: &[Run]) -> u32
    ensures { result ≡ newest_of runs.now }
{
    let mut group = 0;
    for run in runs {
        if run.size() > 0 {
            group = run.newest().max(group);
        }
    }
    group
}

/// Tells what is shown of the run as its members leave the rasp, where `at` shown cells stand before it. Returns how many stand behind it.
fn push_gone(told: &mut Vec<Removal>, at: u32, run: Run) -> Result<u32, AllocError>
    requires { at + above (run ∷ []) < 2 ^ 32 }
    ensures told { OnOk result (told.new.items ≡ told.old.items ++ gone_run at run) }
    ensures place { IfOk result (λ n. n ≡ at + above (run ∷ [])) }
{
    match run {
        Run::Held(count, died) => match died {
            None => {
                told.push(Removal {
                    p: at,
                    q: at + count,
                })?;
                Ok(at + count)
            }
            Some(_) => Ok(at),
        },
        Run::Typed(runes, _, died) => match died {
            None => Ok(at + runes.count),
            Some(_) => Ok(at),
        },
    }
}

/// Tells what is shown of the runs as their members leave the rasp, where `start` shown cells stand before them. The only error is out of
/// memory.
#[tactic(auto, using(crate::proofs::RunLaws::gone_facts))]
pub(crate) fn gone(alloc: Global, start: u32, runs: &[Run]) -> Result<Vec<Removal>, AllocError>
    requires { start + above runs.now < 2 ^ 32 }
    ensures { IfOk result (λ told. told.items ≡ gone_runs start runs.now) }
{
    let mut told = Vec::new(alloc);
    let mut at = start;
    for run in runs {
        at = push_gone(&mut told, at, *run)?;
    }
    Ok(told)
}

/// Tells where the run is shown as its members are loaded, where `at` shown cells and `from` loaded members stand before it. Returns how
/// many shown cells stand behind it.
fn push_filled(told: &mut Vec<Filling>, at: u32, from: u32, run: Run) -> Result<u32, AllocError>
    requires { at + above (run ∷ []) < 2 ^ 32 }
    ensures told { OnOk result (told.new.items ≡ told.old.items ++ filled_run at from run) }
    ensures place { IfOk result (λ n. n ≡ at + above (run ∷ [])) }
{
    match run {
        Run::Held(count, died) => match died {
            None => {
                told.push(Filling {
                    place: at,
                    from,
                    count,
                })?;
                Ok(at + count)
            }
            Some(_) => Ok(at),
        },
        Run::Typed(runes, _, died) => match died {
            None => Ok(at + runes.count),
            Some(_) => Ok(at),
        },
    }
}

/// Tells where the runs are shown as their members are loaded, where `start` shown cells stand before them. The only error is out of
/// memory.
#[tactic(auto, using(crate::proofs::RunLaws::gone_facts))]
pub(crate) fn filled(alloc: Global, start: u32, runs: &[Run]) -> Result<Vec<Filling>, AllocError>
    requires shown { start + above runs.now < 2 ^ 32 }
    requires held { rooms runs.now < 2 ^ 32 }
    ensures { IfOk result (λ told. told.items ≡ filled_runs start 0 runs.now) }
{
    let mut told = Vec::new(alloc);
    let mut at = start;
    let mut from = 0;
    for run in runs {
        at = push_filled(&mut told, at, from, *run)?;
        from += run.room();
    }
    Ok(told)
}

/// The runs that wait. The only error is out of memory.
#[tactic(auto, using(crate::proofs::RunLaws::gone_facts))]
pub(crate) fn waiting(alloc: Global, runs: &[Run]) -> Result<Vec<Run>, AllocError>
    ensures { IfOk result (λ after. after.items ≡ waiting_runs runs.now) }
{
    let mut kept = Vec::new(alloc);
    for run in runs {
        match *run {
            Run::Held(_, _) => {}
            Run::Typed(runes, born, died) => kept.push(Run::Typed(runes, born, died))?,
        }
    }
    Ok(kept)
}

/// Puts the run at the end of others, as the group removes what is shown of it.
fn push_dying(to: &mut Vec<Run>, group: u32, run: Run) -> Result<(), AllocError>
    ensures { OnOk result (to.new.items ≡ to.old.items ++ dying_run group run) }
{
    match run {
        Run::Held(count, died) => match died {
            None => to.push(Run::Held(count, Some(group)))?,
            Some(other) => to.push(Run::Held(count, Some(other)))?,
        },
        Run::Typed(runes, born, died) => match died {
            None => {
                if group != born {
                    to.push(Run::Typed(runes, born, Some(group)))?;
                }
            }
            Some(other) => to.push(Run::Typed(runes, born, Some(other)))?,
        },
    }
    Ok(())
}

/// Puts the runs at the end of others, as the group removes what is shown of them. The only error is out of memory.
#[tactic(auto, using(crate::proofs::RunLaws::gone_facts))]
pub(crate) fn append_dying(to: &mut Vec<Run>, group: u32, runs: &[Run]) -> Result<(), AllocError>
    ensures { OnOk result (to.new.items ≡ to.old.items ++ dying_runs group runs.now) }
{
    for run in runs {
        push_dying(to, group, *run)?;
    }
    Ok(())
}

/// The runs with neighbours joined that are of one sort, and without empty ones. The only error is out of memory.
#[tactic(auto, using(crate::proofs::JoinLaws::joined_facts))]
pub(crate) fn joined(alloc: Global, runs: &[Run]) -> Result<Vec<Run>, AllocError>
    ensures { IfOk result (λ after. IsSame after.items runs.now) }
{
    let mut after = Vec::with_capacity(alloc, runs.len())?;
    let mut last = Run::Held(0, None);
    for run in runs {
        match last.joined(*run) {
            Some(one) => last = one,
            None => {
                after.push(last)?;
                last = *run;
            }
        }
    }
    after.push(last)?;
    Ok(after)
}

/// Puts the run at the end of others, and its runes, if they wait, at the end of that text.
fn push_kept(
    text: &[char],
    kept: &mut Vec<char>,
    to: &mut Vec<Run>,
    run: Run,
) -> Result<(), AllocError>
    requires within { reach run ≤ length text.now }
    requires text { length text.now < 2 ^ 32 }
    requires kept { length kept.old.items < 2 ^ 32 }
    ensures text { OnOk result (kept.new.items ≡ kept.old.items ++ kept_text text.now (run ∷ [])) }
    ensures runs { OnOk result (to.new.items ≡ to.old.items ++ kept_run (length kept.old.items) run ∷ []) }
{
    match run {
        Run::Held(_, _) => to.push(run)?,
        Run::Typed(runes, born, died) => {
            let start = kept.len() as u32;
            let end = (runes.start + runes.count) as usize;
            kept.extend_from_slice(&text[runes.start as usize..end])?;
            let stretch = Stretch {
                start,
                count: runes.count,
            };
            to.push(Run::Typed(stretch, born, died))?;
        }
    }
    Ok(())
}

/// The runes that wait as a text of their own, and the runs over it. The only error is out of memory.
#[tactic(auto, using(crate::proofs::KeptLaws::kept_facts))]
pub(crate) fn kept(
    alloc: Global,
    text: &[char],
    runs: &[Run],
) -> Result<(Vec<char>, Vec<Run>), AllocError>
    requires within { Within (length text.now) runs.now }
    requires text { length text.now < 2 ^ 32 }
    requires waits { waits runs.now < 2 ^ 32 }
    ensures { IfOk result (λ parts. (parts.0.items ≡ kept_text text.now runs.now) × (parts.1.items ≡ kept_runs 0 runs.now)) }
{
    let mut kept = Vec::new(alloc);
    let mut after = Vec::with_capacity(alloc, runs.len())?;
    for run in runs {
        push_kept(text, &mut kept, &mut after, *run)?;
    }
    Ok((kept, after))
}

/// Returns the rest of the run that stands at that place of what is shown, and where in the rasp it begins, where the runs begin at place
/// `start`; `None` from the end on.
pub(crate) fn shown_run(runs: &[Run], place: u32, start: u32) -> Option<(Run, u32)>
    requires within { Within most_kept runs.now }
    requires held { start + rooms runs.now < 2 ^ 32 }
    ensures { result ≡ spot place start runs.now }
{
    let mut left = place;
    let mut at = start;
    for run in runs {
        if run.counts(Side::Above) {
            if left < run.size() {
                return Some((run.tail(left), at + run.head(left).room()));
            }
            left -= run.size();
        }
        at += run.room();
    }
    None
}

/// Returns what the run shows: members of the rasp from place `at` on, or runes of the text.
pub(crate) fn part_of(text: &[char], run: Run, at: u32) -> Shown<'_>
    requires within { reach run ≤ length text.now }
    requires text { length text.now < 2 ^ 32 }
    ensures { (r : PartialText) → shown_members r result ≡ part_members text.now r run at }
{
    match run {
        Run::Held(count, _) => Shown::Rasp(at, count),
        Run::Typed(runes, _, _) => {
            let end = (runes.start + runes.count) as usize;
            Shown::Waiting(&text[runes.start as usize..end])
        }
    }
}

/// The runs after the group puts the runes of a stretch of the text in place of what is shown from place `p` on, so many cells. The only
/// error is out of memory.
pub(crate) fn replaced(
    alloc: Global,
    runs: &[Run],
    stretch: Stretch,
    group: u32,
    p: u32,
    count: u32,
) -> Result<Vec<Run>, AllocError>
    requires { Within most_kept runs.now }
    ensures { IfOk result (λ after. let rest = back Above p runs.now in
        IsSame after.items (front Above p runs.now ++ Typed stretch group None ∷ []
        ++ dying_runs group (front Above count rest) ++ back Above count rest)) }
{
    let (mut before, rest) = split(alloc, runs, Side::Above, p)?;
    let (middle, behind) = split(alloc, rest.as_slice(), Side::Above, count)?;
    before.push(Run::Typed(stretch, group, None))?;
    append_dying(&mut before, group, middle.as_slice())?;
    before.extend_from_slice(behind.as_slice())?;
    let after = joined(alloc, before.as_slice())?;
    Ok(after)
}

/// The runs after so many members come in at place `p` of the rasp, and the place of what is shown where they do. The only error is out of
/// memory.
pub(crate) fn inserted(
    alloc: Global,
    runs: &[Run],
    p: u32,
    count: u32,
) -> Result<(u32, Vec<Run>), AllocError>
    requires within { Within most_kept runs.now }
    requires shown { above runs.now < 2 ^ 32 }
    ensures place { IfOk result (λ told. told.0 ≡ above (front Below p runs.now)) }
    ensures runs { IfOk result (λ told. IsSame told.1.items (front Below p runs.now ++ Held count None ∷ [] ++ back Below p runs.now)) }
{
    let (mut before, behind) = split(alloc, runs, Side::Below, p)?;
    let place = shown_len(before.as_slice());
    before.push(Run::Held(count, None))?;
    before.extend_from_slice(behind.as_slice())?;
    let after = joined(alloc, before.as_slice())?;
    Ok((place, after))
}

/// The runs after so many members go from place `p` of the rasp on, and the removals of what is shown, in ascending places, where `start`
/// shown cells stand before the runs. The only error is out of memory.
pub(crate) fn removed(
    alloc: Global,
    start: u32,
    runs: &[Run],
    p: u32,
    count: u32,
) -> Result<(Vec<Removal>, Vec<Run>), AllocError>
    requires within { Within most_kept runs.now }
    requires shown { start + above runs.now < 2 ^ 32 }
    ensures told { IfOk result (λ told.
        told.0.items ≡ gone_runs (start + above (front Below p runs.now)) (front Below count (back Below p runs.now))) }
    ensures runs { IfOk result (λ told. let rest = back Below p runs.now in
        IsSame told.1.items (front Below p runs.now ++ waiting_runs (front Below count rest) ++ back Below count rest)) }
{
    let (mut before, rest) = split(alloc, runs, Side::Below, p)?;
    let (middle, behind) = split(alloc, rest.as_slice(), Side::Below, count)?;
    let told = gone(
        alloc,
        start + shown_len(before.as_slice()),
        middle.as_slice(),
    )?;
    let kept = waiting(alloc, middle.as_slice())?;
    before.extend_from_slice(kept.as_slice())?;
    before.extend_from_slice(behind.as_slice())?;
    let after = joined(alloc, before.as_slice())?;
    Ok((told, after))
}

/// Where members that are loaded from place `p` of the rasp on are shown, so many of them, in ascending places, where `start` shown cells
/// stand before the runs. The only error is out of memory.
pub(crate) fn loaded(
    alloc: Global,
    start: u32,
    runs: &[Run],
    p: u32,
    count: u32,
) -> Result<Vec<Filling>, AllocError>
    requires within { Within most_kept runs.now }
    requires shown { start + above runs.now < 2 ^ 32 }
    requires held { rooms runs.now < 2 ^ 32 }
    ensures { IfOk result (λ told.
        told.items ≡ filled_runs (start + above (front Below p runs.now)) 0 (front Below count (back Below p runs.now))) }
{
    let (before, rest) = split(alloc, runs, Side::Below, p)?;
    let (middle, _) = split(alloc, rest.as_slice(), Side::Below, count)?;
    filled(
        alloc,
        start + shown_len(before.as_slice()),
        middle.as_slice(),
    )
}
