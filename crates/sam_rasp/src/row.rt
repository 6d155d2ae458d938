//! `Row`: parts in order, next to each other in memory.

ghost use Rattle.std.specs.Prelude.{◌≡◌, ◌≢◌, ◌<◌, ◌≤◌, ◌+◌, IfOk, MatchOption, OnErr, Ok, None, length, take, drop};
ghost use Rattle.sam_runes.specs.Texts.{del, part};
ghost use Rattle.sam_rasp.specs.Counting.{CanComeIn};
ghost use Rattle.sam_rasp.specs.Rasp.{put_cells};
ghost use Rattle.sam_rasp.specs.Rows.{incoming_cells, most_kept};
ghost use Rattle.sam_rasp.specs.Sections.{cells, size};
ghost use Rattle.sam_rasp.specs.Tallies.{tally_of};

mod list;
mod reading;

use crate::part::Part;
use crate::section::{Incoming, Section};
use crate::tally::{Measure, Tally};
use std::alloc::{AllocError, Global};
use std::marker::Model;

/// Parts in order, none of them empty, in one piece of memory.
#[derive(Drop)]
pub struct Row<P: Part> {
    /// The parts. Where they are more than `P::MOST_IN_ROW`, the next change that comes by cuts the row in two.
    parts: Vec<P>,
    /// How many runes and gaps they have together.
    len: u32,
    /// Their tally together.
    tally: Tally,
}

impl<P: Part> Model for Row<P> {
    ghost use Rattle.std.specs.Prelude.{◌≡◌, ◌≤◌, length};
    ghost use Rattle.sam_rasp.specs.Rasp.{PartialText};
    ghost use Rattle.sam_rasp.specs.Rows.{members_of, most_kept, NoneEmpty};
    ghost use Rattle.sam_rasp.specs.Tallies.{tally_of};

    ghost Value = { PartialText };

    ghost view = { λ r. members_of P.members r.parts.items };

    ghost invariant = { λ r. NoneEmpty P.members r.parts.items × (r.len ≡ length (members_of P.members r.parts.items))
        × (r.len ≤ most_kept) × (r.tally ≡ tally_of (members_of P.members r.parts.items)) };
}

/// Returns how many of `count` parts stay where they are cut in two, and the next change comes in the part of this index: half of them, but
/// a quarter where that is the first, since the edits of a command line come from the last to the first.
fn kept_of(count: usize, index: usize) -> usize
    requires { 2 ≤ count }
    ensures { (0 < result) × (result < count) }
{
    if index == 0 {
        (count / 4).max(1)
    } else {
        count / 2
    }
}

impl<P: Part> Row<P> {
    /// Returns a row without parts. No memory is asked for.
    pub fn new(alloc: Global) -> Row<P>
        ensures { length result ≡ 0 }
    {
        Row {
            parts: Vec::new(alloc),
            len: 0,
            tally: Tally::NONE,
        }
    }

    /// Returns how many runes and gaps it has.
    pub fn len(&self) -> u32
        ensures len { result ≡ length self.now }
        ensures limit { length self.now ≤ most_kept }
    {
        self.len
    }

    /// Puts what comes in in the place of `n` runes or gaps from place `p` on, if they stand in one section, and that is a hole or has
    /// room. Returns the tally of what went, or `None` if it put nothing in, as it may only where `n` is not 0; then nothing is changed.
    /// The only error is out of memory.
    #[tactic(auto, using(crate::proofs::Rows::row_put_facts))]
    pub fn put(
        &mut self,
        alloc: Global,
        p: u32,
        n: u32,
        incoming: Incoming<'_>,
    ) -> Result<Option<Tally>, AllocError>
        requires within { p + n ≤ length self.old }
        requires incoming { CanComeIn incoming }
        requires limit { length self.old + length (incoming_cells incoming) ≤ most_kept }
        ensures ok { IfOk result (λ r. MatchOption r (self.new ≡ self.old)
            (λ went. (self.new ≡ put_cells self.old p (p + n) (incoming_cells incoming.entry))
            × (went ≡ tally_of (part self.old p (p + n))))) }
        ensures err { OnErr result (self.new ≡ self.old) }
        ensures always { n ≡ 0 → result ≢ Ok None }
    {
        if self.len == 0 {
            *self = Row::of(alloc, incoming)?;
            return Ok(Some(Tally::NONE));
        }
        let (index, start) = list::find_room(&mut self.parts, self.len, p + n)?;
        if p < start {
            return Ok(None);
        }
        let at = p - start;
        let Some(went) = P::put_in(alloc, &mut self.parts, index, at, at + n, incoming)? else {
            return Ok(None);
        };
        self.len = self.len - n + incoming.len();
        self.tally = self.tally.minus(went).plus(incoming.tally());
        Ok(Some(went))
    }

    /// Takes `n` runes and gaps out from place `p` on. No memory is asked for.
    #[tactic(auto, using(crate::proofs::Changes::del_facts))]
    pub fn remove(&mut self, p: u32, n: u32)
        requires { p + n ≤ length self.old }
        ensures { self.new ≡ del self.old p (p + n) }
    {
        if n < self.len {
            self.cut(p, n);
            return;
        }
        self.parts.clear();
        self.len = 0;
        self.tally = Tally::NONE;
    }

    /// Returns the section in which place `p` stands, and the place at which it begins, or `None` from the end on.
    pub fn section(&self, p: u32) -> Option<(&Section, u32)>
        ensures limit { length self.now ≤ most_kept }
        ensures section { MatchOption result (length self.now ≤ p) (λ r. (r.1 ≤ p) × (p < r.1 + size r.0.now)
            × (take (size r.0.now) (drop r.1 self.now) ≡ cells r.0.now)) }
    {
        if p >= self.len {
            return None;
        }
        Some(self.section_at(p))
    }
}

impl<P: Part> Part for Row<P> {
    ghost members = { λ r. r };

    const MOST_IN_ROW: usize = 32;

    #[tactic(auto, using(crate::proofs::Rows::one_facts))]
    fn of(alloc: Global, incoming: Incoming<'_>) -> Result<Row<P>, AllocError> {
        let part = P::of(alloc, incoming)?;
        let mut parts = Vec::new(alloc);
        parts.push(part)?;
        Ok(Row {
            parts,
            len: incoming.len(),
            tally: incoming.tally(),
        })
    }

    fn len(&self) -> u32 {
        self.len
    }

    fn tally(&self) -> Tally {
        self.tally
    }

    fn is_full(&self) -> bool {
        self.parts.len() > P::MOST_IN_ROW
    }

    #[tactic(auto, using(crate::proofs::Rows::half_facts))]
    fn split_off(&mut self, p: u32) -> Result<Option<Row<P>>, AllocError> {
        let count = self.parts.len();
        if count < 2 {
            return Ok(None);
        }
        let (index, _) = list::find(self.parts.as_slice(), self.len, p);
        let parts = self.parts.split_off(kept_of(count, index))?;
        let (len, tally) = list::counts(parts.as_slice());
        self.len -= len;
        self.tally = self.tally.minus(tally);
        Ok(Some(Row { parts, len, tally }))
    }

    #[tactic(auto, using(crate::proofs::Rows::put_facts))]
    fn put_in(
        alloc: Global,
        parts: &mut Vec<Row<P>>,
        index: usize,
        at: u32,
        end: u32,
        incoming: Incoming<'_>,
    ) -> Result<Option<Tally>, AllocError> {
        parts[index].put(alloc, at, end - at, incoming)
    }

    #[tactic(auto, using(crate::proofs::Rows::row_cut_facts))]
    fn cut(&mut self, p: u32, n: u32) {
        if n == 0 {
            return;
        }
        let (index, start) = list::find(self.parts.as_slice(), self.len, p + 1);
        let at = p - start;
        let len = self.parts[index].len();
        let count = n.min(len - at);
        let went = list::take_out(&mut self.parts, index, at, at + count);
        self.len -= count;
        self.tally = self.tally.minus(went);
        if at == 0 || at + count == len {
            P::join(&mut self.parts, index);
        }
        self.cut(p, n - count);
    }

    /// Two rows are never one.
    fn join(_parts: &mut Vec<Row<P>>, _index: usize) {}

    #[tactic(auto, using(crate::proofs::Rows::section_at_facts))]
    fn section_at(&self, p: u32) -> (&Section, u32) {
        let (index, start) = list::find(self.parts.as_slice(), self.len, p + 1);
        let (section, place) = self.parts[index].section_at(p - start);
        (section, start + place)
    }

    fn agrees(&self, text: &[char]) -> bool {
        reading::agrees(self.parts.as_slice(), text)
    }

    #[tactic(auto, using(crate::proofs::Runs::from_facts))]
    fn sort_from(&self, loaded: bool, p: u32) -> u32 {
        if p >= self.len {
            return 0;
        }
        if loaded && self.tally.gaps == 0 {
            return self.len - p;
        }
        reading::sort_from(self.parts.as_slice(), loaded, p)
    }

    #[tactic(auto, using(crate::proofs::Rows::row_hole_facts))]
    fn hole_from(&self, p: u32) -> (u32, u32) {
        if p >= self.len {
            return (0, 0);
        }
        if self.tally.gaps == 0 {
            return (self.len - p, 0);
        }
        let (index, start) = list::find(self.parts.as_slice(), self.len, p + 1);
        reading::hole_from(&self.parts.as_slice()[index..], p - start)
    }

    #[tactic(auto, using(crate::proofs::Rows::row_before_facts))]
    fn sort_before(&self, loaded: bool, p: u32) -> u32 {
        if p == 0 || loaded && self.tally.gaps == 0 {
            return p;
        }
        reading::sort_before(self.parts.as_slice(), self.len, loaded, p)
    }

    #[tactic(auto, using(crate::proofs::Tallies::before_facts))]
    fn tally_before(&self, p: u32) -> Tally {
        if p >= self.len {
            return self.tally;
        }
        reading::tally_before(self.parts.as_slice(), p)
    }

    fn reached(&self, measure: Measure, count: u32) -> u32 {
        reading::reached(self.parts.as_slice(), measure, count)
    }
}
