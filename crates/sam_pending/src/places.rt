//! Places of the text that a request of a group comes to.

ghost use Rattle.std.specs.Prelude.{◌≡◌, ◌≤◌, ◌<◌, ◌+◌, ◌-◌, ◌^◌};
ghost use Rattle.sam_pending.specs.Blocks.{flat};
ghost use Rattle.sam_pending.specs.Runs.{before_place, gone_in, lost_in, passed, place_in, room, rooms, wait, waits};

use crate::block::Block;
use crate::blocks::Blocks;
use crate::marks::Stop;
use crate::run::{Deed, Run};

/// Returns the place of that text at a place of the rasp.
pub(crate) fn place_at(blocks: &Blocks, group: u32, place: u32) -> u32
    requires { rooms (flat blocks.now) + waits (flat blocks.now) < 2 ^ 32 }
    ensures { result ≡ place_in group place (flat blocks.now) }
{
    let (start, sums) = blocks.pass(Stop::Kept(group, place));
    let others = &blocks.as_slice()[start..];
    sums.shown_len + place_behind(others, group, place - sums.rasp_len)
}

/// Returns how many cells of the blocks stand in that text before a place of the rasp which is so many members further on.
#[tactic(auto, using(crate::proofs::PassLaws::place_facts))]
fn place_behind(blocks: &[Block], group: u32, place: u32) -> u32
    requires { rooms (flat blocks.now) + waits (flat blocks.now) < 2 ^ 32 }
    ensures before { result ≡ place_in group place (flat blocks.now) }
    ensures most { result ≤ rooms (flat blocks.now) + waits (flat blocks.now) }
{
    let mut left = place;
    let mut before = 0;
    for block in blocks {
        if left == 0 {
            return before;
        }
        before += place_in(block, group, left);
        left = left.saturating_sub(block.rasp_len());
    }
    before
}

/// Returns how many cells of the block stand in that text before a place of the rasp which is `left` members further on.
#[tactic(auto, using(crate::proofs::PassLaws::place_facts))]
fn place_in(block: &Block, group: u32, left: u32) -> u32
    requires { rooms block.now + waits block.now < 2 ^ 32 }
    ensures before { result ≡ place_in group left block.now }
    ensures most { result ≤ rooms block.now + waits block.now }
{
    if left == 0 {
        return 0;
    }
    if block.newest() <= group && block.rasp_len() < left {
        return block.shown_len();
    }
    place_in_runs(block.runs(), group, left)
}

/// Returns how many cells of the runs stand in that text before a place of the rasp which is so many members further on.
fn place_in_runs(runs: &[Run], group: u32, place: u32) -> u32
    requires { rooms runs.now + waits runs.now < 2 ^ 32 }
    ensures before { result ≡ place_in group place runs.now }
    ensures most { result ≤ rooms runs.now + waits runs.now }
{
    let mut left = place;
    let mut before = 0;
    for run in runs {
        before += before_place(*run, group, left);
        left = left.saturating_sub(run.room());
    }
    before
}

/// Returns how many cells of the run stand in that text before a place of the rasp which is `left` members further on.
fn before_place(run: Run, group: u32, left: u32) -> u32
    ensures before { result ≡ before_place group left run }
    ensures most { result ≤ room run + wait run }
{
    if !run.stands_at(group) {
        return 0;
    }
    match run {
        Run::Held(count, _) => count.min(left),
        Run::Typed(runes, _, _) => { if left > 0 { runes.count } else { 0 } }
    }
}

/// Returns where a place of that text goes as `count` members of the rasp are removed, from place `p` on.
pub(crate) fn place_after_removal(
    blocks: &Blocks,
    group: u32,
    place: u32,
    p: u32,
    count: usize,
) -> u32
    requires { rooms (flat blocks.now) + waits (flat blocks.now) < 2 ^ 32 }
    ensures { result ≡ place - gone_in group p count place (flat blocks.now) }
{
    let (start, sums) = blocks.pass(Stop::Gone(group, place, p));
    let others = &blocks.as_slice()[start..];
    let left = place - sums.shown_len;
    sums.shown_len + behind_removal(others, group, left, p - sums.rasp_len, count)
}

/// As `place_after_removal`, block by block.
#[tactic(auto, using(crate::proofs::PassLaws::gone_facts))]
fn behind_removal(blocks: &[Block], group: u32, place: u32, p: u32, count: usize) -> u32
    ensures { result ≡ place - gone_in group p count place (flat blocks.now) }
{
    let mut after = place;
    let mut left = place;
    let mut skipped = p;
    let mut range = count;
    for block in blocks {
        if range == 0 || left == 0 {
            return after;
        }
        if block.newest() <= group && block.rasp_len() <= skipped && block.shown_len() <= left {
            left -= block.shown_len();
            skipped -= block.rasp_len();
            continue;
        }
        let runs = block.runs();
        for run in runs {
            let passed = passed(*run, group, left);
            let held = run.held_of(passed).saturating_sub(skipped);
            after = after.saturating_sub(range.min(held as usize) as u32);
            left -= passed;
            range = range.saturating_sub(run.room().saturating_sub(skipped) as usize);
            skipped = skipped.saturating_sub(run.room());
        }
    }
    after
}

/// Returns where a place of that text goes as the first run is taken back whose runes are due, of the groups up to a limit.
pub(crate) fn place_after_drop(blocks: &Blocks, up_to: Option<u32>, group: u32, place: u32) -> u32
    requires { rooms (flat blocks.now) + waits (flat blocks.now) < 2 ^ 32 }
    ensures { result ≡ place - lost_in up_to group place (flat blocks.now) }
{
    let (start, sums) = blocks.pass(Stop::Lost(up_to, group, place));
    let others = &blocks.as_slice()[start..];
    sums.shown_len + behind_drop(others, up_to, group, place - sums.shown_len)
}

/// As `place_after_drop`, block by block.
#[tactic(auto, using(crate::proofs::PassLaws::lost_facts))]
fn behind_drop(blocks: &[Block], up_to: Option<u32>, group: u32, place: u32) -> u32
    ensures { result ≡ place - lost_in up_to group place (flat blocks.now) }
{
    let mut left = place;
    for block in blocks {
        if left == 0 {
            return place;
        }
        if !block.has_due(Deed::Inserts(up_to))
            && block.newest() <= group
            && block.shown_len() <= left
        {
            left -= block.shown_len();
            continue;
        }
        let runs = block.runs();
        for run in runs {
            let passed = passed(*run, group, left);
            if run.is_due(Deed::Inserts(up_to)) {
                return place - passed;
            }
            left -= passed;
        }
    }
    place
}

/// Returns how many cells of the run stand in that text before its place that is `left` further on.
fn passed(run: Run, group: u32, left: u32) -> u32
    ensures passed { result ≡ passed group left run }
    ensures most { result ≤ left }
{
    if run.stands_at(group) {
        run.size().min(left)
    } else {
        0
    }
}
