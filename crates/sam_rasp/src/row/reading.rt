//! What is read off a list of parts.

ghost use Rattle.std.specs.Prelude.{◌≡◌, ◌≤◌, ◌+◌, ◌↔◌, IsTrue, length, take, true, false};
ghost use Rattle.sam_rasp.specs.Counting.{reached};
ghost use Rattle.sam_rasp.specs.Rasp.{sort_before, sort_from, Agrees};
ghost use Rattle.sam_rasp.specs.Rows.{members_of, most_kept};
ghost use Rattle.sam_rasp.specs.Tallies.{tally_of};

use crate::part::Part;
use crate::tally::{Measure, Tally};

/// Returns whether the parts have the length of `text`, and each of their runes is the rune of `text` at the same place.
#[tactic(auto, using(crate::proofs::Rows::agrees_facts))]
pub fn agrees<P: Part>(parts: &[P], text: &[char]) -> bool
    ensures { IsTrue result ↔ Agrees (members_of P.members parts.now) text.now }
{
    let Some((first, others)) = parts.split_first() else {
        return text.is_empty();
    };
    let len = first.len() as usize;
    if text.len() < len {
        return false;
    }
    first.agrees(&text[..len]) && agrees(others, &text[len..])
}

/// Returns how many runes (if `loaded`) or gaps stand from place `p` on before the other sort begins.
#[tactic(auto, using(crate::proofs::Rows::from_facts))]
pub fn sort_from<P: Part>(parts: &[P], loaded: bool, p: u32) -> u32
    requires { length (members_of P.members parts.now) ≤ most_kept }
    ensures count { result ≡ sort_from loaded (members_of P.members parts.now) p }
    ensures limit { result ≤ length (members_of P.members parts.now) }
{
    let mut rest = parts;
    let mut at = p;
    let mut found = 0;
    while let Some((first, others)) = rest.split_first() {
        let len = first.len();
        let more = first.sort_from(loaded, at);
        found += more;
        if at + more < len {
            return found;
        }
        at = at.saturating_sub(len);
        rest = others;
    }
    found
}

/// Returns how many runes stand from place `p` on before the first gap, and how many gaps stand there before the next rune.
#[tactic(auto, using(crate::proofs::Rows::hole_facts))]
pub fn hole_from<P: Part>(parts: &[P], p: u32) -> (u32, u32)
    requires { length (members_of P.members parts.now) ≤ most_kept }
    ensures runes { result.0 ≡ sort_from true (members_of P.members parts.now) p }
    ensures gaps { result.1 ≡ sort_from false (members_of P.members parts.now) (p + result.0) }
    ensures limit { result.0 + result.1 ≤ length (members_of P.members parts.now) }
{
    let mut rest = parts;
    let mut at = p;
    let mut runes = 0;
    while let Some((first, others)) = rest.split_first() {
        let len = first.len();
        let (more, gaps) = first.hole_from(at);
        runes += more;
        if at + more + gaps < len {
            return (runes, gaps);
        }
        if gaps > 0 {
            return (runes, gaps + sort_from(others, false, 0));
        }
        at = at.saturating_sub(len);
        rest = others;
    }
    (runes, 0)
}

/// Returns how many runes (if `loaded`) or gaps stand at once before place `p` after the last of the other sort. The parts have `len` runes
/// and gaps together.
#[tactic(auto, using(crate::proofs::Rows::before_facts))]
pub fn sort_before<P: Part>(parts: &[P], len: u32, loaded: bool, p: u32) -> u32
    requires len { len ≡ length (members_of P.members parts.now) }
    requires within { p ≤ len }
    ensures count { result ≡ sort_before loaded (members_of P.members parts.now) p }
    ensures limit { result ≤ p }
{
    let mut rest = parts;
    let mut start = len;
    let mut at = p;
    let mut found = 0;
    while let Some((last, others)) = rest.split_last() {
        start -= last.len();
        let more = last.sort_before(loaded, at.max(start) - start);
        found += more;
        if at > start + more {
            return found;
        }
        at = at.min(start);
        rest = others;
    }
    found
}

/// Returns the tally of what stands before place `p`: of all of it from the end on.
#[tactic(auto, using(crate::proofs::Tallies::before_facts))]
pub fn tally_before<P: Part>(parts: &[P], p: u32) -> Tally
    requires { length (members_of P.members parts.now) ≤ most_kept }
    ensures { result ≡ tally_of (take p (members_of P.members parts.now)) }
{
    let mut rest = parts;
    let mut at = p;
    let mut tally = Tally::NONE;
    while let Some((first, others)) = rest.split_first() {
        let len = first.len();
        if at <= len {
            return tally.plus(first.tally_before(at));
        }
        tally = tally.plus(first.tally());
        at -= len;
        rest = others;
    }
    tally
}

/// Returns how many of the first runes and gaps take at most `count`.
#[tactic(auto, using(crate::proofs::Tallies::reached_facts))]
pub fn reached<P: Part>(parts: &[P], measure: Measure, count: u32) -> u32
    requires { length (members_of P.members parts.now) ≤ most_kept }
    ensures count { result ≡ reached measure (members_of P.members parts.now) count }
    ensures limit { result ≤ length (members_of P.members parts.now) }
{
    let mut rest = parts;
    let mut left = count;
    let mut found = 0;
    while let Some((first, others)) = rest.split_first() {
        let taken = first.tally().count(measure);
        if taken > left {
            return found + first.reached(measure, left);
        }
        left -= taken;
        found += first.len();
        rest = others;
    }
    found
}
