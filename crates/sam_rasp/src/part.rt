//! `Part`: what a row is made of.

ghost use Rattle.std.specs.Prelude.{◌≡◌, ◌≢◌, ◌<◌, ◌≤◌, ◌+◌, ◌++◌, ◌↔◌, IsTrue, IfOk, OnErr, MatchOption, length, take, drop, vec_len, true, false};
ghost use Rattle.sam_runes.specs.Texts.{del, part};
ghost use Rattle.sam_rasp.specs.Counting.{reached, CanComeIn};
ghost use Rattle.sam_rasp.specs.Rasp.{Agrees, PartialText, put_cells, sort_before, sort_from};
ghost use Rattle.sam_rasp.specs.Rows.{incoming_cells, members_of, most_kept, NoneEmpty};
ghost use Rattle.sam_rasp.specs.Sections.{cells, size};
ghost use Rattle.sam_rasp.specs.Tallies.{tally_of};

use crate::section::{Incoming, Section};
use crate::tally::{Measure, Tally};
use std::alloc::{AllocError, Global};

/// A section, or a row of parts, which stands for a part of a partial text.
pub trait Part: Drop {
    ghost members: { Self → PartialText };

    /// How many such parts a row has at most when a change comes to it. With more of them a change moves more, with fewer a place is found
    /// through more rows.
    const MOST_IN_ROW: usize;

    /// Returns a part with what comes in alone. The only error is out of memory.
    fn of(alloc: Global, incoming: Incoming<'_>) -> Result<Self, AllocError>
        requires { CanComeIn incoming }
        ensures { IfOk result (λ part. members part ≡ incoming_cells incoming.entry) };

    /// Returns how many runes and gaps it has.
    fn len(&self) -> u32
        ensures { result ≡ length (members self.now) };

    /// Returns its tally.
    fn tally(&self) -> Tally
        ensures { result ≡ tally_of (members self.now) };

    /// Returns whether it has so many parts that it is to be cut in two.
    fn is_full(&self) -> bool;

    /// Leaves some of its parts, and returns those after them, or `None` if it has one at most. The next change comes at place `p`. The
    /// only error is out of memory. If it returns none, it is unchanged.
    fn split_off(&mut self, p: u32) -> Result<Option<Self>, AllocError>
        requires { p ≤ length (members self.old) }
        ensures ok { IfOk result (λ r. MatchOption r (members self.new ≡ members self.old)
            (λ back. (members self.new ++ members back ≡ members self.old)
            × (0 < length (members self.new)) × (0 < length (members back)))) }
        ensures err { OnErr result (members self.new ≡ members self.old) };

    /// Puts what comes in in the place of what stands from place `at` to place `end` of the part of this index: there, where it can be, or
    /// in parts next to it. Returns the tally of what went, or `None` if it put nothing in, as it may only where something was to go. The
    /// only error is out of memory. If it put nothing in, what the parts stand for is unchanged.
    fn put_in(
        alloc: Global,
        parts: &mut Vec<Self>,
        index: usize,
        at: u32,
        end: u32,
        incoming: Incoming<'_>,
    ) -> Result<Option<Tally>, AllocError>
        requires index { index < vec_len parts.old }
        requires ascending { at ≤ end }
        requires within { length (members_of members (take index parts.old.items)) + end
            ≤ length (members_of members (take (index + 1) parts.old.items)) }
        requires incoming { CanComeIn incoming }
        requires some { NoneEmpty members parts.old.items }
        requires limit { length (members_of members parts.old.items) + length (incoming_cells incoming) ≤ most_kept }
        ensures ok { IfOk result (λ r. MatchOption r (members_of members parts.new.items ≡ members_of members parts.old.items)
            (λ went. (members_of members parts.new.items ≡ put_cells (members_of members parts.old.items)
            (length (members_of members (take index parts.old.items)) + at)
            (length (members_of members (take index parts.old.items)) + end)
            (incoming_cells incoming.entry))
            × (went ≡ tally_of (part (members_of members parts.old.items)
            (length (members_of members (take index parts.old.items)) + at)
            (length (members_of members (take index parts.old.items)) + end))))) }
        ensures always { at ≡ end → IfOk result (λ r. r ≢ None) }
        ensures err { OnErr result (members_of members parts.new.items ≡ members_of members parts.old.items) }
        ensures some { NoneEmpty members parts.new.items };

    /// Takes `n` runes and gaps out from place `p` on, but not all. No memory is asked for.
    fn cut(&mut self, p: u32, n: u32)
        requires within { p + n ≤ length (members self.old) }
        requires some { n < length (members self.old) }
        ensures { members self.new ≡ del (members self.old) p (p + n) };

    /// Joins the part of this index with those beside it where they can be one.
    fn join(parts: &mut Vec<Self>, index: usize)
        requires some { NoneEmpty members parts.old.items }
        requires limit { length (members_of members parts.old.items) ≤ most_kept }
        ensures members { members_of members parts.new.items ≡ members_of members parts.old.items }
        ensures some { NoneEmpty members parts.new.items };

    /// Returns the section in which place `p` stands, and the place at which it begins.
    fn section_at(&self, p: u32) -> (&Section, u32)
        requires { p < length (members self.now) }
        ensures place { (result.1 ≤ p) × (p < result.1 + size result.0.now) }
        ensures section { take (size result.0.now) (drop result.1 (members self.now)) ≡ cells result.0.now };

    /// Returns whether it has the length of `text`, and each of its runes is the rune of `text` at the same place.
    fn agrees(&self, text: &[char]) -> bool
        ensures { IsTrue result ↔ Agrees (members self.now) text.now };

    /// Returns how many runes (if `loaded`) or gaps stand from place `p` on before the other sort begins.
    fn sort_from(&self, loaded: bool, p: u32) -> u32
        ensures count { result ≡ sort_from loaded (members self.now) p }
        ensures limit { result ≤ length (members self.now) };

    /// Returns how many runes stand from place `p` on before the first gap, and how many gaps stand there before the next rune.
    fn hole_from(&self, p: u32) -> (u32, u32)
        ensures runes { result.0 ≡ sort_from true (members self.now) p }
        ensures gaps { result.1 ≡ sort_from false (members self.now) (p + result.0) }
        ensures limit { result.0 + result.1 ≤ length (members self.now) };

    /// Returns how many runes (if `loaded`) or gaps stand at once before place `p` after the last of the other sort.
    fn sort_before(&self, loaded: bool, p: u32) -> u32
        requires { p ≤ length (members self.now) }
        ensures count { result ≡ sort_before loaded (members self.now) p }
        ensures limit { result ≤ p };

    /// Returns the tally of what stands before place `p`: of all of it from the end on.
    fn tally_before(&self, p: u32) -> Tally
        ensures { result ≡ tally_of (take p (members self.now)) };

    /// Returns how many of its first runes and gaps take at most `count`.
    fn reached(&self, measure: Measure, count: u32) -> u32
        ensures count { result ≡ reached measure (members self.now) count }
        ensures limit { result ≤ length (members self.now) };
}
