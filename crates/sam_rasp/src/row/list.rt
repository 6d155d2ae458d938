//! Changes of a list of parts. `index` is the number of a part, counted from 0, and `at` a place in it.

ghost use Rattle.std.specs.Prelude.{◌≡◌, ◌<◌, ◌≤◌, ◌+◌, ◌-◌, IfOk, length, take, vec_capacity, vec_len};
ghost use Rattle.sam_runes.specs.Texts.{del, ins, part};
ghost use Rattle.sam_rasp.specs.Rows.{members_of, most_kept, NoneEmpty};
ghost use Rattle.sam_rasp.specs.Tallies.{tally_of};

use crate::part::Part;
use crate::tally::Tally;
use std::alloc::AllocError;

/// Returns the number of the first part that ends at or after place `q`, and the place at which it begins. The parts have `len` runes and
/// gaps together. It looks from both ends, since the next change is often near one.
#[tactic(auto, using(crate::proofs::Rows::find_facts))]
pub fn find<P: Part>(parts: &[P], len: u32, q: u32) -> (usize, u32)
    requires some { 0 < length parts.now }
    requires len { len ≡ length (members_of P.members parts.now) }
    requires within { q ≤ len }
    requires limit { len ≤ most_kept }
    ensures index { result.0 < length parts.now }
    ensures start { result.1 ≡ length (members_of P.members (take result.0 parts.now)) }
    ensures place { (result.1 ≤ q - 1) × (q ≤ length (members_of P.members (take (result.0 + 1) parts.now))) }
{
    let mut index = 0;
    let mut start = 0;
    let mut last = parts.len() - 1;
    let mut end = len;
    while index < last {
        let next = start + parts[index].len();
        if q <= next {
            return (index, start);
        }
        index += 1;
        start = next;
        let back = end - parts[last].len();
        if q > back {
            return (last, back);
        }
        if index < last {
            last -= 1;
            end = back;
        }
    }
    (index, start)
}

/// Returns how many runes and gaps the parts have together, and their tally.
#[tactic(auto, using(crate::proofs::Rows::count_facts))]
pub fn counts<P: Part>(parts: &[P]) -> (u32, Tally)
    requires { length (members_of P.members parts.now) ≤ most_kept }
    ensures { (result.0 ≡ length (members_of P.members parts.now)) × (result.1 ≡ tally_of (members_of P.members parts.now)) }
{
    let Some((first, others)) = parts.split_first() else {
        return (0, Tally::NONE);
    };
    let (len, tally) = counts(others);
    (first.len() + len, first.tally().plus(tally))
}

/// Puts a part in before part `index`, or after the last one. There is room for it, so no memory is asked for.
#[tactic(auto, using(crate::proofs::Rows::insert_facts))]
fn insert<P: Part>(parts: &mut Vec<P>, index: usize, part: P)
    requires index { index ≤ vec_len parts.old }
    requires room { vec_len parts.old < vec_capacity parts.old }
    requires some { NoneEmpty P.members parts.old.items × (0 < length (P.members part)) }
    ensures members { members_of P.members parts.new.items
        ≡ ins (members_of P.members parts.old.items) (length (members_of P.members (take index parts.old.items))) (P.members part) }
    ensures some { NoneEmpty P.members parts.new.items }
{
    if parts.insert(index, part).is_err() {
        unreachable!();
    }
}

/// Cuts part `index` in two, if it has two sections or parts at least. The next change comes at place `at` of it. The only error is out of
/// memory; what the parts stand for is then unchanged.
#[tactic(auto, using(crate::proofs::Rows::halve_facts))]
fn halve<P: Part>(parts: &mut Vec<P>, index: usize, at: u32) -> Result<(), AllocError>
    requires index { index < vec_len parts.old }
    requires within { length (members_of P.members (take index parts.old.items)) + at
        ≤ length (members_of P.members (take (index + 1) parts.old.items)) }
    requires some { NoneEmpty P.members parts.old.items }
    ensures members { members_of P.members parts.new.items ≡ members_of P.members parts.old.items }
    ensures some { NoneEmpty P.members parts.new.items }
{
    parts.reserve(1)?;
    if let Some(back) = parts[index].split_off(at)? {
        insert(parts, index + 1, back);
    }
    Ok(())
}

/// As `find`, but cuts that part in two first if it is full. The only error is out of memory; what the parts stand for is unchanged.
#[tactic(auto, using(crate::proofs::Rows::find_room_facts))]
pub fn find_room<P: Part>(parts: &mut Vec<P>, len: u32, q: u32) -> Result<(usize, u32), AllocError>
    requires some { 0 < length (members_of P.members parts.old.items) }
    requires parts { NoneEmpty P.members parts.old.items }
    requires len { len ≡ length (members_of P.members parts.old.items) }
    requires within { q ≤ len }
    requires limit { len ≤ most_kept }
    ensures members { members_of P.members parts.new.items ≡ members_of P.members parts.old.items }
    ensures parts { NoneEmpty P.members parts.new.items }
    ensures ok { IfOk result (λ r. (r.0 < vec_len parts.new) × (r.1 ≡ length (members_of P.members (take r.0 parts.new.items)))
        × (r.1 ≤ q - 1) × (q ≤ length (members_of P.members (take (r.0 + 1) parts.new.items)))) }
{
    let (index, start) = find(parts.as_slice(), len, q);
    if !parts[index].is_full() {
        return Ok((index, start));
    }
    halve(parts, index, q - start)?;
    Ok(find(parts.as_slice(), len, q))
}

/// Takes out what stands in part `index` from place `at` to place `end` of it, but not all of the part. Returns the tally
/// of what went.
#[tactic(auto, using(crate::proofs::Rows::cut_in_facts))]
fn cut_in<P: Part>(parts: &mut Vec<P>, index: usize, at: u32, end: u32) -> Tally
    requires index { index < vec_len parts.old }
    requires ascending { at ≤ end }
    requires within { length (members_of P.members (take index parts.old.items)) + end
        ≤ length (members_of P.members (take (index + 1) parts.old.items)) }
    requires left { length (members_of P.members (take index parts.old.items)) + (end - at)
        < length (members_of P.members (take (index + 1) parts.old.items)) }
    requires some { NoneEmpty P.members parts.old.items }
    ensures members { members_of P.members parts.new.items ≡ del (members_of P.members parts.old.items)
        (length (members_of P.members (take index parts.old.items)) + at)
        (length (members_of P.members (take index parts.old.items)) + end) }
    ensures went { result ≡ tally_of (part (members_of P.members parts.old.items)
        (length (members_of P.members (take index parts.old.items)) + at)
        (length (members_of P.members (take index parts.old.items)) + end)) }
    ensures some { NoneEmpty P.members parts.new.items }
{
    let part = &mut parts[index];
    let before = part.tally();
    part.cut(at, end - at);
    before.minus(part.tally())
}

/// Takes what stands from place `at` to place `end` of part `index` out, and the part if nothing of it is left. Returns the
/// tally of what went.
#[tactic(auto, using(crate::proofs::Rows::take_out_facts))]
pub fn take_out<P: Part>(parts: &mut Vec<P>, index: usize, at: u32, end: u32) -> Tally
    requires index { index < vec_len parts.old }
    requires ascending { at ≤ end }
    requires within { length (members_of P.members (take index parts.old.items)) + end
        ≤ length (members_of P.members (take (index + 1) parts.old.items)) }
    requires some { NoneEmpty P.members parts.old.items }
    ensures members { members_of P.members parts.new.items ≡ del (members_of P.members parts.old.items)
        (length (members_of P.members (take index parts.old.items)) + at)
        (length (members_of P.members (take index parts.old.items)) + end) }
    ensures went { result ≡ tally_of (part (members_of P.members parts.old.items)
        (length (members_of P.members (take index parts.old.items)) + at)
        (length (members_of P.members (take index parts.old.items)) + end)) }
    ensures some { NoneEmpty P.members parts.new.items }
{
    let part = &parts[index];
    let all = part.tally();
    if end - at == part.len() {
        parts.remove(index);
        return all;
    }
    cut_in(parts, index, at, end)
}
