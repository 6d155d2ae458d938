//! Changes of a list of sections. `index` is the number of a section, counted from 0, and `at` a place in it.

ghost use Rattle.std.specs.Prelude.{◌≡◌, ◌≢◌, ◌<◌, ◌≤◌, ◌+◌, ◌-◌, IfOk, OnOk, OnErr, MatchOption, Ok, length, take, vec_capacity, vec_len, true};
ghost use Rattle.sam_runes.specs.Texts.{del, ins, part};
ghost use Rattle.sam_rasp.specs.Rasp.{put_cells};
ghost use Rattle.sam_rasp.specs.Counting.{CanComeIn};
ghost use Rattle.sam_rasp.specs.Rows.{incoming_cells, most_kept, NoneEmpty};
ghost use Rattle.sam_rasp.specs.Sections.{cells, cells_of};
ghost use Rattle.sam_rasp.specs.Tallies.{tally_of};

use crate::part::Part;
use crate::section::{Incoming, Section};
use crate::tally::Tally;
use std::alloc::{AllocError, Global};

/// Puts a section in before section `index`, or after the last one. There is room for it, so no memory is asked for.
#[tactic(auto, using(crate::proofs::SectionLists::insert_facts))]
fn insert(sections: &mut Vec<Section>, index: usize, section: Section)
    requires index { index ≤ vec_len sections.old }
    requires room { vec_len sections.old < vec_capacity sections.old }
    requires some { NoneEmpty cells sections.old.items × (0 < length (cells section)) }
    ensures cells { cells_of sections.new.items
        ≡ ins (cells_of sections.old.items) (length (cells_of (take index sections.old.items))) (cells section) }
    ensures some { NoneEmpty cells sections.new.items }
    ensures before { take index sections.new.items ≡ take index sections.old.items }
    ensures len { vec_len sections.new ≡ vec_len sections.old + 1 }
    ensures capacity { vec_capacity sections.old ≤ vec_capacity sections.new }
{
    if sections.insert(index, section).is_err() {
        unreachable!();
    }
}

/// Takes out what stands in section `index` from place `at` to place `end` of it, but not all of the section.
#[tactic(auto, using(crate::proofs::SectionLists::cut_in_facts))]
fn cut_in(sections: &mut Vec<Section>, index: usize, at: u32, end: u32)
    requires index { index < vec_len sections.old }
    requires ascending { at ≤ end }
    requires within { length (cells_of (take index sections.old.items)) + end ≤ length (cells_of (take (index + 1) sections.old.items)) }
    requires left { length (cells_of (take index sections.old.items)) + (end - at)
        < length (cells_of (take (index + 1) sections.old.items)) }
    requires some { NoneEmpty cells sections.old.items }
    ensures cells { cells_of sections.new.items ≡ del (cells_of sections.old.items)
        (length (cells_of (take index sections.old.items)) + at) (length (cells_of (take index sections.old.items)) + end) }
    ensures some { NoneEmpty cells sections.new.items }
    ensures before { take index sections.new.items ≡ take index sections.old.items }
    ensures end { length (cells_of (take (index + 1) sections.new.items)) + (end - at)
        ≡ length (cells_of (take (index + 1) sections.old.items)) }
    ensures room { (vec_len sections.new ≡ vec_len sections.old) × (vec_capacity sections.new ≡ vec_capacity sections.old) }
{
    sections[index].cut(at, end - at);
}

/// Cuts section `index` in two at place `at`, which stands inside. The only error is out of memory for runes; nothing is changed then.
/// There is room for the second part.
#[tactic(auto, using(crate::proofs::SectionLists::split_facts))]
fn split(
    alloc: Global,
    sections: &mut Vec<Section>,
    index: usize,
    at: u32,
) -> Result<(), AllocError>
    requires index { index < vec_len sections.old }
    requires inside { (0 < at) × (length (cells_of (take index sections.old.items)) + at
        < length (cells_of (take (index + 1) sections.old.items))) }
    requires room { vec_len sections.old < vec_capacity sections.old }
    requires some { NoneEmpty cells sections.old.items }
    ensures cells { cells_of sections.new.items ≡ cells_of sections.old.items }
    ensures some { NoneEmpty cells sections.new.items }
    ensures before { take index sections.new.items ≡ take index sections.old.items }
    ensures end { OnOk result (length (cells_of (take (index + 1) sections.new.items))
        ≡ length (cells_of (take index sections.old.items)) + at) }
    ensures room { (vec_len sections.new ≤ vec_len sections.old + 1) × (vec_len sections.old ≤ vec_len sections.new)
        × (vec_capacity sections.old ≤ vec_capacity sections.new) }
{
    let back = sections[index].split(alloc, at)?;
    insert(sections, index + 1, back);
    Ok(())
}

/// Puts what comes in in section `index`, in the place of what stands there from place `at` to place `end` of it, if it is of that sort,
/// and a loaded section has at most `MOST_IN_MESSAGE` runes then. Returns whether it did. The only error is out of memory. If it didn't,
/// nothing is changed.
#[tactic(auto, using(crate::proofs::SectionLists::take_in_facts))]
fn take_in(
    sections: &mut Vec<Section>,
    index: usize,
    at: u32,
    end: u32,
    incoming: Incoming<'_>,
) -> Result<bool, AllocError>
    requires index { index < vec_len sections.old }
    requires ascending { at ≤ end }
    requires within { length (cells_of (take index sections.old.items)) + end ≤ length (cells_of (take (index + 1) sections.old.items)) }
    requires incoming { CanComeIn incoming }
    requires limit { length (cells_of sections.old.items) + length (incoming_cells incoming) ≤ most_kept }
    requires some { NoneEmpty cells sections.old.items }
    ensures done { result ≡ Ok true → cells_of sections.new.items ≡ put_cells (cells_of sections.old.items)
        (length (cells_of (take index sections.old.items)) + at) (length (cells_of (take index sections.old.items)) + end)
        (incoming_cells incoming.entry) }
    ensures refused { result ≢ Ok true → sections.new.items ≡ sections.old.items }
    ensures some { NoneEmpty cells sections.new.items }
{
    sections[index].take_in(at, end, incoming)
}

/// Puts what comes in in a section of its own in the place of what stands in section `index` from place `at` to place `end` of it. The only
/// error is out of memory; what the sections stand for is then unchanged.
#[tactic(auto, using(crate::proofs::SectionLists::apart_facts))]
fn put_apart(
    alloc: Global,
    sections: &mut Vec<Section>,
    index: usize,
    at: u32,
    end: u32,
    incoming: Incoming<'_>,
) -> Result<(), AllocError>
    requires index { index < vec_len sections.old }
    requires ascending { at ≤ end }
    requires within { length (cells_of (take index sections.old.items)) + end ≤ length (cells_of (take (index + 1) sections.old.items)) }
    requires incoming { CanComeIn incoming }
    requires some { NoneEmpty cells sections.old.items }
    requires limit { length (cells_of sections.old.items) ≤ most_kept }
    ensures ok { OnOk result (cells_of sections.new.items ≡ put_cells (cells_of sections.old.items)
        (length (cells_of (take index sections.old.items)) + at) (length (cells_of (take index sections.old.items)) + end)
        (incoming_cells incoming.entry)) }
    ensures err { OnErr result (cells_of sections.new.items ≡ cells_of sections.old.items) }
    ensures some { NoneEmpty cells sections.new.items }
{
    sections.reserve(2)?;
    let section = incoming.section(alloc)?;
    let len = sections[index].len();
    if end - at == len {
        sections[index] = section;
        return Ok(());
    }
    if at > 0 && end < len {
        split(alloc, sections, index, end)?;
    }
    if at < end {
        cut_in(sections, index, at, end);
    }
    insert(sections, if at == 0 { index } else { index + 1 }, section);
    Ok(())
}

/// Puts what comes in in the place of what stands in section `index` from place `at` to place `end` of it: in that section or the next one
/// where it is of that sort and has room, else in a section of its own, but not in the place of loaded runes. Returns the tally of what
/// went, or `None` if it put nothing in. The only error is out of memory. If it put nothing in, what the sections stand for is unchanged.
#[tactic(auto, using(crate::proofs::SectionLists::put_facts))]
pub fn put(
    alloc: Global,
    sections: &mut Vec<Section>,
    index: usize,
    at: u32,
    end: u32,
    incoming: Incoming<'_>,
) -> Result<Option<Tally>, AllocError>
    requires index { index < vec_len sections.old }
    requires ascending { at ≤ end }
    requires within { length (cells_of (take index sections.old.items)) + end ≤ length (cells_of (take (index + 1) sections.old.items)) }
    requires incoming { CanComeIn incoming }
    requires some { NoneEmpty cells sections.old.items }
    requires limit { length (cells_of sections.old.items) + length (incoming_cells incoming) ≤ most_kept }
    ensures ok { IfOk result (λ r. MatchOption r (cells_of sections.new.items ≡ cells_of sections.old.items)
        (λ went. (cells_of sections.new.items ≡ put_cells (cells_of sections.old.items)
        (length (cells_of (take index sections.old.items)) + at) (length (cells_of (take index sections.old.items)) + end)
        (incoming_cells incoming.entry))
        × (went ≡ tally_of (part (cells_of sections.old.items)
        (length (cells_of (take index sections.old.items)) + at) (length (cells_of (take index sections.old.items)) + end))))) }
    ensures always { at ≡ end → IfOk result (λ r. r ≢ None) }
    ensures err { OnErr result (cells_of sections.new.items ≡ cells_of sections.old.items) }
    ensures some { NoneEmpty cells sections.new.items }
{
    let section = &sections[index];
    let len = section.len();
    let loaded = section.is_loaded();
    let went = section.tally_within(at, end);
    if take_in(sections, index, at, end, incoming)? {
        return Ok(Some(went));
    }
    if at == len && index + 1 < sections.len() && take_in(sections, index + 1, 0, 0, incoming)? {
        return Ok(Some(went));
    }
    if loaded && at < end {
        return Ok(None);
    }
    put_apart(alloc, sections, index, at, end, incoming)?;
    Ok(Some(went))
}

/// Joins section `index` with the next one if there is one, both are of one sort, and memory is at hand.
#[tactic(auto, using(crate::proofs::SectionLists::join_facts))]
fn join_next(sections: &mut Vec<Section>, index: usize)
    requires some { NoneEmpty cells sections.old.items }
    requires limit { length (cells_of sections.old.items) ≤ most_kept }
    ensures cells { cells_of sections.new.items ≡ cells_of sections.old.items }
    ensures some { NoneEmpty cells sections.new.items }
{
    if index >= sections.len() || index + 1 == sections.len() {
        return;
    }
    let (front, back) = sections.split_at_mut(index + 1);
    if front[index].absorb(&back[0]) {
        sections.remove(index + 1);
    }
}

/// Joins section `index` with those beside it where they can be one.
pub fn join(sections: &mut Vec<Section>, index: usize)
    requires some { NoneEmpty cells sections.old.items }
    requires limit { length (cells_of sections.old.items) ≤ most_kept }
    ensures cells { cells_of sections.new.items ≡ cells_of sections.old.items }
    ensures some { NoneEmpty cells sections.new.items }
{
    join_next(sections, index);
    if index > 0 {
        join_next(sections, index - 1);
    }
}
