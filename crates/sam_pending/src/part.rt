//! `Part`: the blocks in which places lie.

ghost use Rattle.std.specs.Prelude.{◌≤◌, ◌<◌, ◌+◌, ◌^◌, length, take, IfOk};
ghost use Rattle.sam_pending.specs.Blocks.{flat, IsPart, measure, StandsBehind};
ghost use Rattle.sam_pending.specs.Runs.{rooms, waits};

use crate::block::Block;
use crate::blocks::{Blocks, gathered};
use crate::marks::Stop;
use crate::run::{Run, Side};
use std::alloc::{AllocError, Global};

/// The blocks in which places lie, and their runs.
#[derive(Drop)]
pub(crate) struct Part {
    /// How many blocks stand before them.
    pub first: usize,
    /// How many there are.
    pub count: usize,
    /// The first place, counted from where they begin.
    pub at: u32,
    /// Their runs.
    pub runs: Vec<Run>,
}

/// Returns how many blocks stand before that place of a side, and how far into the others it is.
fn skipped(blocks: &Blocks, side: Side, place: u32) -> (usize, u32)
    requires { rooms (flat blocks.now) + waits (flat blocks.now) < 2 ^ 32 }
    ensures { StandsBehind side blocks.now place result.0 result.1 }
{
    let (start, sums) = blocks.pass(Stop::Place(side, place));
    let (more, left) = skipped_in(&blocks.as_slice()[start..], side, place - sums.len(side));
    (start + more, left)
}

/// As `skipped`, block by block.
#[tactic(auto, using(crate::proofs::PartLaws::walk_facts))]
fn skipped_in(blocks: &[Block], side: Side, place: u32) -> (usize, u32)
    ensures { StandsBehind side blocks.now place result.0 result.1 }
{
    let mut index = 0;
    let mut left = place;
    while index < blocks.len() && blocks[index].len(side) < left {
        left -= blocks[index].len(side);
        index += 1;
    }
    (index, left)
}

/// Returns how many of the first blocks are needed, at least one if there is one, to come to that place of a side.
#[tactic(auto, using(crate::proofs::PartLaws::walk_facts))]
fn needed(blocks: &[Block], side: Side, place: u32) -> usize
    requires there { place ≤ measure side (flat blocks.now) }
    requires fits { measure side (flat blocks.now) < 2 ^ 32 }
    ensures count { result ≤ length blocks.now }
    ensures there { place ≤ measure side (flat (take result blocks.now)) }
{
    let mut count = 0;
    let mut reach = 0;
    while count < blocks.len() {
        reach += blocks[count].len(side);
        count += 1;
        if place <= reach {
            return count;
        }
    }
    count
}

/// Returns the part in which place `p` and place `q` of a side lie. The only error is out of memory.
pub(crate) fn part_of(
    alloc: Global,
    blocks: &Blocks,
    side: Side,
    p: u32,
    q: u32,
) -> Result<Part, AllocError>
    requires ascending { p ≤ q }
    requires there { q ≤ measure side (flat blocks.now) }
    requires fits { rooms (flat blocks.now) + waits (flat blocks.now) < 2 ^ 32 }
    ensures { IfOk result (λ part. IsPart side blocks.now p q part.first part.count part.at part.runs.items) }
{
    let (first, at) = skipped(blocks, side, p);
    let others = &blocks.as_slice()[first..];
    let count = needed(others, side, at + (q - p));
    let runs = gathered(alloc, &others[..count])?;
    Ok(Part {
        first,
        count,
        at,
        runs,
    })
}
