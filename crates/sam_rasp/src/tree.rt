//! `Tree`: sections in order, in rows that stand in rows, so that a place is found in few steps.

ghost use Rattle.std.specs.Prelude.{◌≡◌, ◌≢◌, ◌<◌, ◌≤◌, ◌+◌, ◌↔◌, [], IsTrue, MatchOption, Ok, length, take, drop, true, false};
ghost use Rattle.sam_runes.specs.Texts.{del};
ghost use Rattle.sam_rasp.specs.Counting.{reached, CanComeIn};
ghost use Rattle.sam_rasp.specs.Rasp.{put_cells, sort_before, sort_from, Agrees};
ghost use Rattle.sam_rasp.specs.Rows.{incoming_cells, most_kept};
ghost use Rattle.sam_rasp.specs.Sections.{cells, size};
ghost use Rattle.sam_rasp.specs.Tallies.{tally_of};

use crate::part::Part;
use crate::row::Row;
use crate::section::{Incoming, Section};
use crate::tally::{Measure, Tally};
use std::alloc::{AllocError, Global};
use std::marker::Model;

/// Sections in order. The outermost row alone has no limit. `MAX_RUNES` sections make at most 500 parts of it, or more where cuts have
/// thinned the rows. Each call is that of the outermost row: a call of the nested type itself takes the prover seconds, wherever it stands.
#[derive(Drop)]
pub struct Tree {
    /// The sections, in five rows one in the other.
    rows: Row<Row<Row<Row<Row<Section>>>>>,
}

impl Model for Tree {
    ghost use Rattle.sam_rasp.specs.Rasp.{PartialText};

    ghost Value = { PartialText };

    ghost view = { λ t. t.rows };
}

impl Tree {
    /// Returns an empty list. No memory is asked for.
    pub fn new(alloc: Global) -> Tree
        ensures { result ≡ [] }
    {
        Tree {
            rows: Row::new(alloc),
        }
    }

    /// Returns how many runes and gaps all sections have together.
    pub fn len(&self) -> u32
        ensures len { result ≡ length self.now }
        ensures limit { length self.now ≤ most_kept }
    {
        self.rows.len()
    }

    /// Puts what comes in in the place of `n` runes or gaps from place `p` on, if they stand in one section, and that is a hole or has
    /// room. Returns whether it did, which it always does where `n` is 0; if not, nothing is changed. The only error is out of memory.
    pub fn put(
        &mut self,
        alloc: Global,
        p: u32,
        n: u32,
        incoming: Incoming<'_>,
    ) -> Result<bool, AllocError>
        requires within { p + n ≤ length self.old }
        requires incoming { CanComeIn incoming }
        requires limit { length self.old + length (incoming_cells incoming) ≤ most_kept }
        ensures done { result ≡ Ok true → self.new ≡ put_cells self.old p (p + n) (incoming_cells incoming.entry) }
        ensures refused { result ≢ Ok true → self.new ≡ self.old }
        ensures always { n ≡ 0 → result ≢ Ok false }
    {
        Ok(self.rows.put(alloc, p, n, incoming)?.is_some())
    }

    /// Takes `n` runes and gaps out from place `p` on. No memory is asked for.
    pub fn cut(&mut self, p: u32, n: u32)
        requires { p + n ≤ length self.old }
        ensures { self.new ≡ del self.old p (p + n) }
    {
        self.rows.remove(p, n);
    }

    /// Returns the section in which place `p` stands, and the place at which it begins, or `None` from the end on.
    pub fn section_at(&self, p: u32) -> Option<(&Section, u32)>
        ensures limit { length self.now ≤ most_kept }
        ensures section { MatchOption result (length self.now ≤ p) (λ r. (r.1 ≤ p) × (p < r.1 + size r.0.now)
            × (take (size r.0.now) (drop r.1 self.now) ≡ cells r.0.now)) }
    {
        self.rows.section(p)
    }

    /// Returns whether the sections have the length of `text`, and each of their runes is the rune of `text` at the same place.
    pub fn agrees(&self, text: &[char]) -> bool
        ensures { IsTrue result ↔ Agrees self.now text.now }
    {
        self.rows.agrees(text)
    }

    /// Returns how many runes (if `loaded`) or gaps stand from place `p` on before the other sort begins.
    pub fn sort_from(&self, loaded: bool, p: u32) -> u32
        ensures count { result ≡ sort_from loaded self.now p }
        ensures limit { result ≤ length self.now }
    {
        self.rows.sort_from(loaded, p)
    }

    /// Returns how many runes stand from place `p` on before the first gap, and how many gaps stand there before the next rune.
    pub fn hole_from(&self, p: u32) -> (u32, u32)
        ensures runes { result.0 ≡ sort_from true self.now p }
        ensures gaps { result.1 ≡ sort_from false self.now (p + result.0) }
        ensures limit { result.0 + result.1 ≤ length self.now }
    {
        self.rows.hole_from(p)
    }

    /// Returns how many runes (if `loaded`) or gaps stand at once before place `p` after the last of the other sort.
    pub fn sort_before(&self, loaded: bool, p: u32) -> u32
        requires { p ≤ length self.now }
        ensures count { result ≡ sort_before loaded self.now p }
        ensures limit { result ≤ p }
    {
        self.rows.sort_before(loaded, p)
    }

    /// Returns its tally.
    pub fn tally(&self) -> Tally
        ensures { result ≡ tally_of self.now }
    {
        self.rows.tally()
    }

    /// Returns the tally of what stands before place `p`: of all of it from the end on.
    pub fn tally_before(&self, p: u32) -> Tally
        ensures { result ≡ tally_of (take p self.now) }
    {
        self.rows.tally_before(p)
    }

    /// Returns how many of its first runes and gaps take at most `count`.
    pub fn reached(&self, measure: Measure, count: u32) -> u32
        ensures count { result ≡ reached measure self.now count }
        ensures limit { result ≤ length self.now }
    {
        self.rows.reached(measure, count)
    }
}
