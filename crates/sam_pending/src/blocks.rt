//! `Blocks`: what `runs` and `due` do with runs, but past whole blocks by their sums, and past many blocks at once by marks.

ghost use Rattle.std.specs.Prelude.{◌≡◌, ℕ, ◌≤◌, ◌<◌, ◌+◌, ◌-◌, ◌^◌, ◌++◌, [], ◌∷◌, length, take, drop, false, vec_capacity, vec_len, IfOk, OnOk, OnErr, None};
ghost use Rattle.sam_pending.specs.Blocks.{flat, made_in, taken_in};
ghost use Rattle.sam_pending.specs.Layers.{most_kept};
ghost use Rattle.sam_pending.specs.Marks.{spans, sums_of, IsBehind, IsMarked, Passes};
ghost use Rattle.sam_pending.specs.Runs.{above, back, dying_runs, first_due, first_typed, front, has_due, has_next, IsSame, kept_runs, kept_text, newest_of, next_deed, rests, rooms, spot, waits, Within};
ghost use Rattle.sam_pending.specs.declared.run.Deed.TheVariants.{Inserts};
ghost use Rattle.sam_pending.specs.declared.run.Run.TheVariants.{Typed};
ghost use Rattle.sam_pending.specs.declared.run.Side.TheVariants.{Above};

use crate::block::Block;
use crate::marks::{self, Mark, Stop};
use crate::part::part_of;
use crate::run::{Deed, Run, Side, Stretch};
use crate::sums::Sums;
use crate::{due, frames, runs};
use std::alloc::{AllocError, Global};
use std::marker::Model;

/// How many runs a block has at most. With more of them a change copies more, with fewer a walk passes over more blocks.
const MOST_IN_BLOCK: usize = 128;

/// Blocks in order. A clause sees the runs of each.
#[derive(Drop)]
pub(crate) struct Blocks {
    /// The blocks.
    blocks: Vec<Block>,
    /// The marks of stretches of them, from the first one on.
    marks: Vec<Mark>,
}

impl Model for Blocks {
    ghost use Rattle.std.specs.Prelude.{List};
    ghost use Rattle.sam_pending.specs.Marks.{IsMarked};
    ghost use Rattle.sam_pending.specs.declared.run.Run.{Run};

    ghost Value = { List (List Run) };

    ghost view = { λ s. s.blocks.items };

    ghost invariant = { λ s. IsMarked s.marks.items s.blocks.items };
}

impl Blocks {
    /// Returns these blocks, with marks if there is memory for them.
    pub fn new(alloc: Global, blocks: Vec<Block>) -> Blocks
        requires { rooms (flat blocks.items) + waits (flat blocks.items) < 2 ^ 32 }
        ensures { result ≡ blocks.items }
    {
        let mut list = Vec::new(alloc);
        if list.reserve(marks::most_marks(blocks.len())).is_ok() {
            marks::mark_from(&mut list, blocks.as_slice(), 0, 0);
        }
        Blocks {
            blocks,
            marks: list,
        }
    }

    /// Returns the blocks.
    pub fn as_slice(&self) -> &[Block]
        ensures { result.now ≡ self.now }
    {
        self.blocks.as_slice()
    }

    /// Passes over whole stretches of the first blocks. Returns how many blocks these are, and their sums together.
    pub fn pass(&self, stop: Stop) -> (usize, Sums)
        requires { rooms (flat self.now) + waits (flat self.now) < 2 ^ 32 }
        ensures limit { result.0 ≤ length self.now }
        ensures passes { Passes stop self.now result.0 result.1 }
    {
        let blocks = self.blocks.as_slice();
        marks::pass(self.marks.as_slice(), blocks, stop, blocks.len())
    }

    /// Returns the sums of the first blocks, so many of them.
    pub fn sums_to(&self, end: usize) -> Sums
        requires there { end ≤ length self.now }
        requires fits { rooms (flat self.now) + waits (flat self.now) < 2 ^ 32 }
        ensures { result ≡ sums_of (flat (take end self.now)) }
    {
        let blocks = self.blocks.as_slice();
        let (start, sums) = marks::pass(self.marks.as_slice(), blocks, Stop::AtEnd, end);
        sums.plus(marks::sums_in(&blocks[start..end]))
    }

    /// Returns the sums of all blocks.
    pub fn sums(&self) -> Sums
        requires { rooms (flat self.now) + waits (flat self.now) < 2 ^ 32 }
        ensures { result ≡ sums_of (flat self.now) }
    {
        let end = self.blocks.len();
        self.sums_to(end)
    }

    /// Makes the edit at the first run at which such an edit is due; all stays if it is due at none.
    pub fn make_first(&mut self, deed: Deed)
        requires { rooms (flat self.old) + waits (flat self.old) < 2 ^ 32 }
        ensures { self.new ≡ made_in deed self.old }
    {
        let blocks = self.blocks.as_slice();
        let (start, _) = marks::pass(self.marks.as_slice(), blocks, Stop::Due(deed), blocks.len());
        let at = make_from(&mut self.blocks, start, deed);
        mark_one(&mut self.marks, self.blocks.as_slice(), at);
    }

    /// Puts an empty run in place of the first one whose runes are due, of the groups up to a limit; all stays if none are.
    pub fn take_first(&mut self, up_to: Option<u32>)
        requires { rooms (flat self.old) + waits (flat self.old) < 2 ^ 32 }
        ensures { self.new ≡ taken_in up_to self.old }
    {
        let blocks = self.blocks.as_slice();
        let stop = Stop::Due(Deed::Inserts(up_to));
        let (start, _) = marks::pass(self.marks.as_slice(), blocks, stop, blocks.len());
        let at = take_from(&mut self.blocks, start, up_to);
        mark_one(&mut self.marks, self.blocks.as_slice(), at);
    }

    /// Puts others in the place of as many blocks from block `first` on.
    pub fn exchange(&mut self, first: usize, made: Vec<Block>)
        requires there { first + vec_len made ≤ length self.old }
        requires fits { rooms (flat (take first self.old ++ made.items ++ drop (first + vec_len made) self.old))
            + waits (flat (take first self.old ++ made.items ++ drop (first + vec_len made) self.old)) < 2 ^ 32 }
        ensures { self.new ≡ take first self.old ++ made.items ++ drop (first + vec_len made) self.old }
    {
        let (number, start) = marks::stretch_of(self.marks.as_slice(), first);
        let end = first + made.len();
        exchange(&mut self.blocks, first, made);
        let blocks = self.blocks.as_slice();
        marks::mark_change(&mut self.marks, blocks, number, start, end, end);
    }

    /// Puts others in the place of so many blocks from block `first` on. It moves all blocks and marks into lists that have room for them.
    pub fn put(
        &mut self,
        first: usize,
        count: usize,
        made: Vec<Block>,
        mut room: Vec<Block>,
        mark_room: Vec<Mark>,
    )
        requires there { first + count ≤ length self.old }
        requires empty { (vec_len room ≡ 0) × (vec_len mark_room ≡ 0) }
        requires room { length self.old + vec_len made ≤ vec_capacity room }
        requires fits { rooms (flat (take first self.old ++ made.items ++ drop (first + count) self.old))
            + waits (flat (take first self.old ++ made.items ++ drop (first + count) self.old)) < 2 ^ 32 }
        ensures { self.new ≡ take first self.old ++ made.items ++ drop (first + count) self.old }
    {
        let (number, start) = marks::stretch_of(self.marks.as_slice(), first);
        let (before, after) = (first + count, first + made.len());
        append(&mut room, &mut self.blocks);
        put(&mut room, first, count, made);
        self.blocks = room;
        move_marks(&mut self.marks, mark_room);
        let blocks = self.blocks.as_slice();
        marks::mark_change(&mut self.marks, blocks, number, start, before, after);
    }
}

/// Marks anew after a change of the block of this index; of none, if there is no such block.
fn mark_one(marks: &mut Vec<Mark>, blocks: &[Block], index: usize)
    requires front { (n : ℕ) → spans (take n marks.old.items) ≤ index → IsMarked (take n marks.old.items) blocks.now }
    requires behind { (n : ℕ) → IsBehind (drop n marks.old.items) (spans (take n marks.old.items)) (index + 1) (index + 1) blocks.now }
    requires there { index ≤ length blocks.now }
    requires fits { rooms (flat blocks.now) + waits (flat blocks.now) < 2 ^ 32 }
    ensures { IsMarked marks.new.items blocks.now }
{
    let (number, start) = marks::stretch_of(marks.as_slice(), index);
    marks::mark_change(marks, blocks, number, start, index + 1, index + 1);
}

/// Moves marks into a list that has room for more of them.
fn move_marks(marks: &mut Vec<Mark>, mut room: Vec<Mark>)
    requires { vec_len room ≡ 0 }
    ensures { marks.new.items ≡ marks.old.items }
{
    if room.append(marks).is_ok() {
        *marks = room;
    }
}

/// Returns how many members of the rasp the runs hold.
pub(crate) fn rasp_len(blocks: &Blocks) -> u32
    requires { rooms (flat blocks.now) + waits (flat blocks.now) < 2 ^ 32 }
    ensures { result ≡ rooms (flat blocks.now) }
{
    blocks.sums().rasp_len
}

/// Returns how many runes of the runs wait.
pub(crate) fn waiting_len(blocks: &Blocks) -> u32
    requires { rooms (flat blocks.now) + waits (flat blocks.now) < 2 ^ 32 }
    ensures { result ≡ waits (flat blocks.now) }
{
    blocks.sums().waiting_len
}

/// Returns how many cells of the runs are shown.
pub(crate) fn shown_len(blocks: &Blocks) -> u32
    requires { rooms (flat blocks.now) + waits (flat blocks.now) < 2 ^ 32 }
    ensures { result ≡ above (flat blocks.now) }
{
    blocks.sums().shown_len
}

/// Returns the newest group of the runs; 0 if none waits.
pub(crate) fn newest(blocks: &Blocks) -> u32
    requires { rooms (flat blocks.now) + waits (flat blocks.now) < 2 ^ 32 }
    ensures { result ≡ newest_of (flat blocks.now) }
{
    blocks.sums().newest
}

/// Returns whether such an edit is due at some run.
#[tactic(auto, using(crate::proofs::BlockLaws::removes_reach, crate::proofs::BlockLaws::inserts_reach))]
pub(crate) fn has_due(blocks: &Blocks, deed: Deed) -> bool
    requires { rooms (flat blocks.now) + waits (flat blocks.now) < 2 ^ 32 }
    ensures { result ≡ has_due deed (flat blocks.now) }
{
    blocks.sums().has_due(deed)
}

/// Returns what the next edit of the groups up to a limit does: it inserts only if nothing is to be removed.
pub(crate) fn next_deed(blocks: &Blocks, up_to: Option<u32>) -> Deed
    requires { rooms (flat blocks.now) + waits (flat blocks.now) < 2 ^ 32 }
    ensures { result ≡ next_deed up_to (flat blocks.now) }
{
    if has_due(blocks, Deed::Removes(up_to)) {
        Deed::Removes(up_to)
    } else {
        Deed::Inserts(up_to)
    }
}

/// Returns whether an edit of the groups up to a limit is due.
pub(crate) fn has_next(blocks: &Blocks, up_to: Option<u32>) -> bool
    requires { rooms (flat blocks.now) + waits (flat blocks.now) < 2 ^ 32 }
    ensures { result ≡ has_next up_to (flat blocks.now) }
{
    has_due(blocks, Deed::Removes(up_to)) || has_due(blocks, Deed::Inserts(up_to))
}

/// Returns whether nothing of the runs waits.
#[tactic(auto, using(crate::proofs::DueLaws::rest_facts))]
pub(crate) fn rest(blocks: &Blocks) -> bool
    requires { rooms (flat blocks.now) + waits (flat blocks.now) < 2 ^ 32 }
    ensures { result ≡ rests (flat blocks.now) }
{
    !has_next(blocks, None)
}

/// Returns the first run at which such an edit is due, and how many members of the rasp stand before it; `None` if it is due at none.
pub(crate) fn first_due(blocks: &Blocks, deed: Deed) -> Option<(Run, u32)>
    requires { rooms (flat blocks.now) + waits (flat blocks.now) < 2 ^ 32 }
    ensures { result ≡ first_due deed 0 (flat blocks.now) }
{
    let (start, sums) = blocks.pass(Stop::Due(deed));
    first_due_in(&blocks.as_slice()[start..], deed, sums.rasp_len)
}

/// As `first_due`, where so many members of the rasp stand before the blocks.
fn first_due_in(blocks: &[Block], deed: Deed, start: u32) -> Option<(Run, u32)>
    requires { start + rooms (flat blocks.now) < 2 ^ 32 }
    ensures { result ≡ first_due deed start (flat blocks.now) }
{
    let mut at = start;
    for block in blocks {
        if block.has_due(deed) {
            return due::first_due(block.runs(), deed, at);
        }
        at += block.rasp_len();
    }
    None
}

/// Returns the first run whose runes are due, of the groups up to a limit, and how many shown cells stand before it; `None` if none are.
pub(crate) fn first_typed(blocks: &Blocks, up_to: Option<u32>) -> Option<(Run, u32)>
    requires { rooms (flat blocks.now) + waits (flat blocks.now) < 2 ^ 32 }
    ensures { result ≡ first_typed up_to 0 (flat blocks.now) }
{
    let (start, sums) = blocks.pass(Stop::Due(Deed::Inserts(up_to)));
    first_typed_in(&blocks.as_slice()[start..], up_to, sums.shown_len)
}

/// As `first_typed`, where so many shown cells stand before the blocks.
fn first_typed_in(blocks: &[Block], up_to: Option<u32>, start: u32) -> Option<(Run, u32)>
    requires { start + above (flat blocks.now) < 2 ^ 32 }
    ensures { result ≡ first_typed up_to start (flat blocks.now) }
{
    let mut at = start;
    for block in blocks {
        if block.has_due(Deed::Inserts(up_to)) {
            return due::first_typed(block.runs(), up_to, at);
        }
        at += block.shown_len();
    }
    None
}

/// Returns how many members of the rasp the runs hold once the edit at the first run is made at which it is due.
#[tactic(auto, using(crate::proofs::BlockLaws::made_room, crate::proofs::BlockLaws::made_none, crate::proofs::FirstLaws::flat_made))]
pub(crate) fn made_len(blocks: &Blocks, deed: Deed) -> u32
    requires { rooms (flat blocks.now) + waits (flat blocks.now) < 2 ^ 32 }
    ensures { result ≡ rooms (flat (made_in deed blocks.now)) }
{
    let len = rasp_len(blocks);
    match first_due(blocks, deed) {
        None => len,
        Some((run, _)) => len - run.room() + run.made().room(),
    }
}

/// Puts an empty run in place of the first one whose runes are due, of the groups up to a limit; all stays if none are. None are due in the
/// blocks before block `start`. Returns which block it is, or how many there are.
fn take_from(blocks: &mut Vec<Block>, start: usize, up_to: Option<u32>) -> usize
    requires there { start ≤ vec_len blocks.old }
    requires before { has_due (Inserts up_to) (flat (take start blocks.old.items)) ≡ false }
    requires fits { rooms (flat blocks.old.items) + waits (flat blocks.old.items) < 2 ^ 32 }
    ensures taken { blocks.new.items ≡ taken_in up_to blocks.old.items }
    ensures len { vec_len blocks.new ≡ vec_len blocks.old }
    ensures there { result ≤ vec_len blocks.new }
    ensures before { take result blocks.new.items ≡ take result blocks.old.items }
    ensures behind { drop (result + 1) blocks.new.items ≡ drop (result + 1) blocks.old.items }
{
    for at in start..blocks.len() {
        let block = &blocks[at];
        if block.has_due(Deed::Inserts(up_to)) {
            let found = &mut blocks[at];
            found.take_first(up_to);
            return at;
        }
    }
    blocks.len()
}

/// Makes the edit at the first run at which such an edit is due; all stays if it is due at none. It is due at none in the blocks before
/// block `start`. Returns which block it is, or how many there are.
fn make_from(blocks: &mut Vec<Block>, start: usize, deed: Deed) -> usize
    requires there { start ≤ vec_len blocks.old }
    requires before { has_due deed (flat (take start blocks.old.items)) ≡ false }
    requires fits { rooms (flat blocks.old.items) + waits (flat blocks.old.items) < 2 ^ 32 }
    ensures made { blocks.new.items ≡ made_in deed blocks.old.items }
    ensures len { vec_len blocks.new ≡ vec_len blocks.old }
    ensures there { result ≤ vec_len blocks.new }
    ensures before { take result blocks.new.items ≡ take result blocks.old.items }
    ensures behind { drop (result + 1) blocks.new.items ≡ drop (result + 1) blocks.old.items }
{
    for at in start..blocks.len() {
        let block = &blocks[at];
        if block.has_due(deed) {
            let found = &mut blocks[at];
            found.make_first(deed);
            return at;
        }
    }
    blocks.len()
}

/// Returns the rest of the run that stands at that place of what is shown, and where in the rasp it begins; `None` from the end on.
pub(crate) fn shown_run(blocks: &Blocks, place: u32) -> Option<(Run, u32)>
    requires within { Within most_kept (flat blocks.now) }
    requires fits { rooms (flat blocks.now) + waits (flat blocks.now) < 2 ^ 32 }
    ensures { result ≡ spot place 0 (flat blocks.now) }
{
    let (start, sums) = blocks.pass(Stop::Place(Side::Above, place));
    let others = &blocks.as_slice()[start..];
    shown_run_in(others, place - sums.shown_len, sums.rasp_len)
}

/// As `shown_run`, where so many members of the rasp stand before the blocks.
#[tactic(auto, using(crate::proofs::BlockLaws::spot_facts))]
fn shown_run_in(blocks: &[Block], place: u32, start: u32) -> Option<(Run, u32)>
    requires within { Within most_kept (flat blocks.now) }
    requires held { start + rooms (flat blocks.now) < 2 ^ 32 }
    ensures { result ≡ spot place start (flat blocks.now) }
{
    let mut left = place;
    let mut at = start;
    for block in blocks {
        if left < block.shown_len() {
            return runs::shown_run(block.runs(), left, at);
        }
        left -= block.shown_len();
        at += block.rasp_len();
    }
    None
}

/// Returns the runs of the blocks in one list. The only error is out of memory.
#[tactic(auto, using(crate::proofs::RunLaws::gone_facts))]
pub(crate) fn gathered(alloc: Global, blocks: &[Block]) -> Result<Vec<Run>, AllocError>
    ensures { IfOk result (λ all. all.items ≡ flat blocks.now) }
{
    let mut all = Vec::new(alloc);
    for block in blocks {
        all.extend_from_slice(block.runs())?;
    }
    Ok(all)
}

/// Returns blocks of the runs, all of one size. The only error is out of memory.
#[tactic(auto, using(crate::proofs::BlockLaws::cut_facts))]
pub(crate) fn cut(alloc: Global, runs: &[Run]) -> Result<Vec<Block>, AllocError>
    requires { rooms runs.now + waits runs.now < 2 ^ 32 }
    ensures { IfOk result (λ blocks. flat blocks.items ≡ runs.now) }
{
    let count = runs.len() / MOST_IN_BLOCK + 1;
    let most = runs.len() / count + 1;
    let mut blocks = Vec::new(alloc);
    let mut done = 0;
    while done < runs.len() {
        let end = done + most.min(runs.len() - done);
        let part = Vec::from_slice(alloc, &runs[done..end])?;
        blocks.push(Block::new(part))?;
        done = end;
    }
    Ok(blocks)
}

/// The runes that wait as a text of their own, and the blocks over it. It goes over all runs. The only error is out of memory.
#[tactic(auto, using(crate::proofs::KeptLaws::kept_fits))]
pub(crate) fn kept(
    alloc: Global,
    text: &[char],
    blocks: &[Block],
) -> Result<(Vec<char>, Vec<Block>), AllocError>
    requires within { Within (length text.now) (flat blocks.now) }
    requires text { length text.now < 2 ^ 32 }
    requires fits { rooms (flat blocks.now) + waits (flat blocks.now) < 2 ^ 32 }
    ensures { IfOk result (λ parts.
        (parts.0.items ≡ kept_text text.now (flat blocks.now)) × (flat parts.1.items ≡ kept_runs 0 (flat blocks.now))) }
{
    let all = gathered(alloc, blocks)?;
    let (kept, after) = runs::kept(alloc, text, all.as_slice())?;
    let made = cut(alloc, after.as_slice())?;
    Ok((kept, made))
}

/// Moves others to the end of the blocks, which have room for them.
fn append(blocks: &mut Vec<Block>, others: &mut Vec<Block>)
    requires { vec_len blocks.old + vec_len others.old ≤ vec_capacity blocks.old }
    ensures items { blocks.new.items ≡ blocks.old.items ++ others.old.items }
    ensures len { vec_len blocks.new ≡ vec_len blocks.old + vec_len others.old }
    ensures capacity { vec_capacity blocks.old ≤ vec_capacity blocks.new }
{
    if blocks.append(others).is_err() {
        unreachable!();
    }
}

/// Puts others, for which there is room, in the place of so many blocks from block `first` on.
#[tactic(auto, using(crate::proofs::PartLaws::put_facts))]
fn put(blocks: &mut Vec<Block>, first: usize, count: usize, mut made: Vec<Block>)
    requires there { first + count ≤ vec_len blocks.old }
    requires room { vec_len blocks.old + vec_len made ≤ vec_capacity blocks.old }
    ensures { blocks.new.items ≡ take first blocks.old.items ++ made.items ++ drop (first + count) blocks.old.items }
{
    let behind = blocks.len() - (first + count);
    blocks.rotate_left(first + count);
    blocks.truncate(behind + first);
    append(blocks, &mut made);
    blocks.rotate_left(behind);
}

/// Puts others in the place of as many blocks from block `first` on.
fn exchange(blocks: &mut Vec<Block>, first: usize, mut made: Vec<Block>)
    requires there { first + vec_len made ≤ vec_len blocks.old }
    ensures { blocks.new.items ≡ take first blocks.old.items ++ made.items ++ drop (first + vec_len made) blocks.old.items }
{
    let end = first + made.len();
    blocks.as_mut_slice()[first..end].swap_with_slice(made.as_mut_slice());
}

/// Puts the runes of a stretch of the text in place of what is shown from place `p` to place `q`, for a group. The only error is out of
/// memory; after it all is unchanged.
pub(crate) fn replace(
    alloc: Global,
    blocks: &mut Blocks,
    stretch: Stretch,
    group: u32,
    p: u32,
    q: u32,
) -> Result<(), AllocError>
    requires ascending { p ≤ q }
    requires there { q ≤ above (flat blocks.old) }
    requires within { Within most_kept (flat blocks.old) }
    requires fits { rooms (flat blocks.old) + waits (flat blocks.old) + stretch.count < 2 ^ 32 }
    ensures ok { OnOk result (let rest = back Above p (flat blocks.old) in
        IsSame (flat blocks.new) (front Above p (flat blocks.old) ++ Typed stretch group None ∷ []
        ++ dying_runs group (front Above (q - p) rest) ++ back Above (q - p) rest)) }
    ensures err { OnErr result (blocks.new ≡ blocks.old) }
{
    let part = part_of(alloc, blocks, Side::Above, p, q)?;
    let runs = part.runs.as_slice();
    let after = runs::replaced(alloc, runs, stretch, group, part.at, q - p)?;
    let change = frames::prepared(alloc, blocks, part.first, part.count, after.as_slice())?;
    frames::take_on(blocks, change);
    Ok(())
}
