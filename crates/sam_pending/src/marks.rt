//! Marks: the sums of stretches of blocks, so that a walk passes over many blocks at once.

ghost use Rattle.std.specs.Prelude.{◌≡◌, ◌≤◌, ◌<◌, ◌+◌, ◌^◌, length, take, drop};
ghost use Rattle.sam_pending.specs.Blocks.{flat};
ghost use Rattle.sam_pending.specs.Marks.{allows, spans, sums_of, IsBehind, IsMarked, Passes};
ghost use Rattle.sam_pending.specs.Runs.{rooms, waits};

use crate::block::Block;
use crate::run::{Deed, Side};
use crate::sums::Sums;

/// How many blocks a stretch has as it is marked first. With more of them a walk passes over more blocks one by one, with fewer over more
/// marks.
const STRETCH: usize = 64;

/// How many blocks a stretch has at most. If one would have more, it is marked first again, with all stretches behind it.
const MOST_IN_STRETCH: usize = 128;

/// Returns how many marks so many blocks have as they are marked first, at most.
pub fn most_marks(blocks: usize) -> usize {
    blocks / STRETCH + 1
}

/// What is known of a stretch of blocks together.
#[derive(Clone, Copy)]
pub struct Mark {
    /// How many blocks the stretch has.
    pub count: usize,
    /// Their sums.
    pub sums: Sums,
}

/// How far a walk passes over whole stretches of blocks.
#[derive(Clone, Copy)]
pub enum Stop {
    /// To the end.
    AtEnd,
    /// To where such an edit is due.
    Due(Deed),
    /// To a place of a side, so that some cells before the place are left.
    Place(Side, u32),
    /// To where an edit of a group after this one waits, or to a place of the rasp, so that some members before the place are left.
    Kept(u32, u32),
    /// To where an edit of a group after this one waits, or so many cells are shown, or so many members of the rasp stand before.
    Gone(u32, u32, u32),
    /// To where runes are due, of the groups up to a limit, or an edit of a group after this one waits, or so many cells are shown.
    Lost(Option<u32>, u32, u32),
}

impl Stop {
    /// Returns whether the walk may pass over what has these sums.
    fn allows(self, sums: Sums) -> bool
        ensures { result ≡ allows self sums }
    {
        match self {
            Stop::AtEnd => true,
            Stop::Due(deed) => !sums.has_due(deed),
            Stop::Place(side, place) => sums.len(side) < place,
            Stop::Kept(group, place) => sums.newest <= group && sums.rasp_len < place,
            Stop::Gone(group, shown, held) => {
                sums.newest <= group && sums.rasp_len <= held && sums.shown_len <= shown
            }
            Stop::Lost(limit, group, shown) => {
                !sums.has_due(Deed::Inserts(limit))
                    && sums.newest <= group
                    && sums.shown_len <= shown
            }
        }
    }
}

/// Passes over whole stretches of the first blocks, `limit` of them at most. Returns how many blocks these are, and their sums together.
pub fn pass(marks: &[Mark], blocks: &[Block], stop: Stop, limit: usize) -> (usize, Sums)
    requires marked { IsMarked marks.now blocks.now }
    requires limit { limit ≤ length blocks.now }
    requires fits { rooms (flat blocks.now) + waits (flat blocks.now) < 2 ^ 32 }
    ensures limit { result.0 ≤ limit }
    ensures passes { Passes stop blocks.now result.0 result.1 }
{
    let mut index = 0;
    let mut sums = Sums::none();
    for mark in marks {
        if limit - index < mark.count {
            return (index, sums);
        }
        let next = sums.plus(mark.sums);
        if !stop.allows(next) {
            return (index, sums);
        }
        index += mark.count;
        sums = next;
    }
    (index, sums)
}

/// Returns the sums of the blocks.
pub fn sums_in(blocks: &[Block]) -> Sums
    requires { rooms (flat blocks.now) + waits (flat blocks.now) < 2 ^ 32 }
    ensures { result ≡ sums_of (flat blocks.now) }
{
    let mut sums = Sums::none();
    for block in blocks {
        sums = sums.plus(block.sums());
    }
    sums
}

/// Returns the number of the stretch in which this block stands, and the block with which it begins. If the block stands in none, it is the
/// number of all stretches, and the first block in none.
pub fn stretch_of(marks: &[Mark], index: usize) -> (usize, usize)
    ensures number { result.0 ≤ length marks.now }
    ensures start { result.1 ≡ spans (take result.0 marks.now) }
    ensures before { result.1 ≤ index }
{
    let mut number = 0;
    let mut start = 0;
    for mark in marks {
        if index - start < mark.count {
            return (number, start);
        }
        start += mark.count;
        number += 1;
    }
    (number, start)
}

/// Returns the mark of a stretch of so many blocks from block `start` on.
#[tactic(auto, using(crate::proofs::MarkLaws::piece_fits))]
fn mark_of(blocks: &[Block], start: usize, count: usize) -> Mark
    requires there { start + count ≤ length blocks.now }
    requires fits { rooms (flat blocks.now) + waits (flat blocks.now) < 2 ^ 32 }
    ensures count { result.count ≡ count }
    ensures sums { result.sums ≡ sums_of (flat (take result.count (drop start blocks.now))) }
{
    Mark {
        count,
        sums: sums_in(&blocks[start..start + count]),
    }
}

/// Marks the blocks from block `start` on, with which stretch `number` begins, as far as the list of marks has room.
pub fn mark_from(marks: &mut Vec<Mark>, blocks: &[Block], number: usize, start: usize)
    requires before { IsMarked (take number marks.old.items) blocks.now }
    requires start { start ≡ spans (take number marks.old.items) }
    requires there { start ≤ length blocks.now }
    requires fits { rooms (flat blocks.now) + waits (flat blocks.now) < 2 ^ 32 }
    ensures { IsMarked marks.new.items blocks.now }
{
    marks.truncate(number);
    let mut at = start;
    while at < blocks.len() && marks.len() < marks.capacity() {
        let count = STRETCH.min(blocks.len() - at);
        if marks.push(mark_of(blocks, at, count)).is_err() {
            return;
        }
        at += count;
    }
}

/// Marks anew after a change in stretch `number`, which begins with block `start`: what stood from block `before` on stands from block
/// `after` on now.
pub fn mark_change(
    marks: &mut Vec<Mark>,
    blocks: &[Block],
    number: usize,
    start: usize,
    before: usize,
    after: usize,
)
    requires front { IsMarked (take number marks.old.items) blocks.now }
    requires start { start ≡ spans (take number marks.old.items) }
    requires there { start ≤ length blocks.now }
    requires after { start ≤ after }
    requires behind { IsBehind (drop number marks.old.items) start before after blocks.now }
    requires fits { rooms (flat blocks.now) + waits (flat blocks.now) < 2 ^ 32 }
    ensures { IsMarked marks.new.items blocks.now }
{
    if number < marks.len() {
        let end = start + marks[number].count;
        if before <= end {
            let count = after - start + (end - before);
            if 0 < count && count <= MOST_IN_STRETCH {
                marks[number] = mark_of(blocks, start, count);
                return;
            }
        }
    }
    mark_from(marks, blocks, number, start);
}
