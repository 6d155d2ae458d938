//! What a frame of the host does, past whole blocks. A change is prepared first, and made without memory later.

ghost use Rattle.std.specs.Prelude.{◌≡◌, ◌≤◌, ◌<◌, ◌+◌, ◌-◌, ◌^◌, ◌++◌, [], ◌∷◌, length, IfOk, None};
ghost use Rattle.sam_pending.specs.Blocks.{changed, flat, IsChange};
ghost use Rattle.sam_pending.specs.Layers.{most_kept};
ghost use Rattle.sam_pending.specs.Runs.{above, back, filled_runs, front, gone_runs, IsSame, rooms, waiting_runs, waits, Within};
ghost use Rattle.sam_pending.specs.declared.run.Run.TheVariants.{Held};
ghost use Rattle.sam_pending.specs.declared.run.Side.TheVariants.{Below};

use crate::blocks::{Blocks, cut};
use crate::marks::most_marks;
use crate::part::part_of;
use crate::run::{Run, Side};
use crate::runs;
use crate::told::{Filling, Prepared, Removal};
use std::alloc::{AllocError, Global};

/// Prepares that blocks of these runs take the place of so many blocks from block `first` on. The only error is out of memory.
pub(crate) fn prepared(
    alloc: Global,
    blocks: &Blocks,
    first: usize,
    count: usize,
    after: &[Run],
) -> Result<Prepared, AllocError>
    requires there { first + count ≤ length blocks.now }
    requires fits { rooms after.now + waits after.now < 2 ^ 32 }
    ensures first { IfOk result (λ change. change.first ≡ first) }
    ensures count { IfOk result (λ change. change.count ≡ count) }
    ensures made { IfOk result (λ change. flat change.made ≡ after.now) }
    ensures change { IfOk result (λ change. IsChange change blocks.now) }
{
    let made = cut(alloc, after)?;
    let most = blocks.as_slice().len() + made.len();
    let mut room = Vec::new(alloc);
    let mut marks = Vec::new(alloc);
    if made.len() != count {
        room.reserve(most)?;
        marks.reserve(most_marks(most))?;
    }
    Ok(Prepared {
        first,
        count,
        made,
        most,
        room,
        marks,
    })
}

/// Prepares that so many members come in at place `p` of the rasp. Returns the place of what is shown where they do. The only error is out
/// of memory.
pub(crate) fn inserted(
    alloc: Global,
    blocks: &Blocks,
    p: u32,
    count: u32,
) -> Result<(u32, Prepared), AllocError>
    requires there { p ≤ rooms (flat blocks.now) }
    requires within { Within most_kept (flat blocks.now) }
    requires fits { rooms (flat blocks.now) + waits (flat blocks.now) + count < 2 ^ 32 }
    ensures place { IfOk result (λ told. told.0 ≡ above (front Below p (flat blocks.now))) }
    ensures runs { IfOk result (λ told. IsSame (flat (changed told.1 blocks.now))
        (front Below p (flat blocks.now) ++ Held count None ∷ [] ++ back Below p (flat blocks.now))) }
    ensures change { IfOk result (λ told. IsChange told.1 blocks.now) }
{
    let part = part_of(alloc, blocks, Side::Below, p, p)?;
    let before = blocks.sums_to(part.first).shown_len;
    let (place, after) = runs::inserted(alloc, part.runs.as_slice(), part.at, count)?;
    let change = prepared(alloc, blocks, part.first, part.count, after.as_slice())?;
    Ok((before + place, change))
}

/// Prepares that what stands from place `p` to place `q` of the rasp goes. Returns the removals of what is shown, in ascending places. The
/// only error is out of memory.
pub(crate) fn removed(
    alloc: Global,
    blocks: &Blocks,
    p: u32,
    q: u32,
) -> Result<(Vec<Removal>, Prepared), AllocError>
    requires ascending { p ≤ q }
    requires there { q ≤ rooms (flat blocks.now) }
    requires within { Within most_kept (flat blocks.now) }
    requires fits { rooms (flat blocks.now) + waits (flat blocks.now) < 2 ^ 32 }
    ensures told { IfOk result (λ told. told.0.items
        ≡ gone_runs (above (front Below p (flat blocks.now))) (front Below (q - p) (back Below p (flat blocks.now)))) }
    ensures runs { IfOk result (λ told. let rest = back Below p (flat blocks.now) in IsSame (flat (changed told.1 blocks.now))
        (front Below p (flat blocks.now) ++ waiting_runs (front Below (q - p) rest) ++ back Below (q - p) rest)) }
    ensures change { IfOk result (λ told. IsChange told.1 blocks.now) }
{
    let part = part_of(alloc, blocks, Side::Below, p, q)?;
    let before = blocks.sums_to(part.first).shown_len;
    let (told, after) = runs::removed(alloc, before, part.runs.as_slice(), part.at, q - p)?;
    let change = prepared(alloc, blocks, part.first, part.count, after.as_slice())?;
    Ok((told, change))
}

/// Where members that are loaded from place `p` of the rasp on are shown, so many of them, in ascending places. The only error is out of
/// memory.
pub(crate) fn loaded(
    alloc: Global,
    blocks: &Blocks,
    p: u32,
    count: u32,
) -> Result<Vec<Filling>, AllocError>
    requires there { p + count ≤ rooms (flat blocks.now) }
    requires within { Within most_kept (flat blocks.now) }
    requires fits { rooms (flat blocks.now) + waits (flat blocks.now) < 2 ^ 32 }
    ensures { IfOk result (λ told. told.items
        ≡ filled_runs (above (front Below p (flat blocks.now))) 0 (front Below count (back Below p (flat blocks.now)))) }
{
    let part = part_of(alloc, blocks, Side::Below, p, p + count)?;
    let before = blocks.sums_to(part.first).shown_len;
    runs::loaded(alloc, before, part.runs.as_slice(), part.at, count)
}

/// Makes a change that was prepared of these blocks.
pub(crate) fn take_on(blocks: &mut Blocks, change: Prepared)
    requires change { IsChange change blocks.old }
    requires fits { rooms (flat (changed change blocks.old)) + waits (flat (changed change blocks.old)) < 2 ^ 32 }
    ensures { blocks.new ≡ changed change blocks.old }
{
    let Prepared {
        first,
        count,
        made,
        most: _,
        room,
        marks,
    } = change;
    if made.len() == count {
        blocks.exchange(first, made);
    } else {
        blocks.put(first, count, made, room, marks);
    }
}
