//! `Section`: a stretch of a rasp, either a loaded text or a hole.

ghost use Rattle.std.specs.Prelude.{◌≡◌, ◌≢◌, ◌<◌, ◌≤◌, ◌+◌, ◌++◌, ◌↔◌, IsTrue, IfOk, OnErr, Ok, length, slice_get, take, drop, true, false, Some};
ghost use Rattle.sam_runes.specs.Texts.{max_runes, part};
ghost use Rattle.sam_rasp.specs.Rasp.{put_cells, Agrees};
ghost use Rattle.sam_rasp.specs.Counting.{CanComeIn};
ghost use Rattle.sam_rasp.specs.Rows.{incoming_cells, most_kept};
ghost use Rattle.sam_rasp.specs.Sections.{cells, size, is_loaded, IsShort};
ghost use Rattle.sam_rasp.specs.Tallies.{tally_of};

mod list;

use crate::part::Part;
use crate::piece::Piece;
use crate::tally::{Measure, Tally};
use sam_runes::MOST_IN_MESSAGE;
use std::alloc::{AllocError, Global};

/// A stretch of a rasp: either runes that are loaded, or a hole, which keeps only how many gaps it has. In a rasp no section is
/// empty, and a loaded one has at most `MOST_IN_MESSAGE` runes. Neighbours that could be one section are joined where memory is at hand.
///
/// `Rasp::section_at` returns the section at a place, and where it begins, so a rasp is read section by section:
///
/// ```rust
/// let mut place = 0;
/// while let Some((section, start)) = rasp.section_at(place) {
///     match section {
///         Section::Loaded(text) => put_runes(&text.as_slice()[(place - start) as usize..]),
///         Section::Hole(count) => put_gaps(*count - (place - start)),
///     }
///     place = start + section.len();
/// }
/// ```
#[derive(Drop)]
pub enum Section {
    /// Runes that are loaded.
    Loaded(Piece),
    /// A hole with this many gaps.
    Hole(u32),
}

/// What comes into a rasp as one section, or into one that is there.
#[derive(Clone, Copy)]
pub enum Incoming<'a> {
    /// Runes, 1 to `MOST_IN_MESSAGE`, and their tally.
    Runes(&'a [char], Tally),
    /// So many gaps: at least 1.
    Gaps(u32),
}

impl<'a> Incoming<'a> {
    /// Returns how many runes or gaps come in.
    pub fn len(self) -> u32
        requires { CanComeIn self }
        ensures len { result ≡ length (incoming_cells self.entry) }
        ensures some { 0 < result }
        ensures limit { result ≤ max_runes }
    {
        match self {
            Incoming::Runes(runes, _) => runes.len() as u32,
            Incoming::Gaps(count) => count,
        }
    }

    /// Returns the tally of what comes in.
    pub fn tally(self) -> Tally
        requires { CanComeIn self }
        ensures { result ≡ tally_of (incoming_cells self.entry) }
    {
        match self {
            Incoming::Runes(_, tally) => tally,
            Incoming::Gaps(count) => Tally::of_gaps(count),
        }
    }

    /// Returns what comes in as a section. The only error is out of memory.
    pub fn section(self, alloc: Global) -> Result<Section, AllocError>
        requires { CanComeIn self }
        ensures { IfOk result (λ s. cells s ≡ incoming_cells self.entry) }
    {
        match self {
            Incoming::Runes(runes, tally) => {
                Ok(Section::Loaded(Piece::with_tally(alloc, runes, tally)?))
            }
            Incoming::Gaps(count) => Ok(Section::Hole(count)),
        }
    }
}

impl Section {
    /// Returns how many runes or gaps it has. A loaded section has at most `MOST_IN_MESSAGE`.
    pub fn len(&self) -> u32
        ensures len { result ≡ size self.now }
        ensures limit { IsShort self.now }
    {
        match self {
            Section::Loaded(text) => text.len() as u32,
            Section::Hole(count) => *count,
        }
    }

    /// Returns the rune at `place`, which is counted from the start of the section and below its length, or `None` if a gap stands there.
    #[tactic(auto, using(crate::proofs::SectionLaws::read_loaded, crate::proofs::SectionLaws::read_hole))]
    pub fn get(&self, place: u32) -> Option<char>
        requires { place < size self.now }
        ensures { slice_get (cells self.now) place ≡ Some result }
    {
        match self {
            Section::Loaded(text) => text.get(place as usize),
            Section::Hole(_) => None,
        }
    }

    /// Returns whether each of its runes is the rune of `text` at the same place. The text has the length of the section; a hole
    /// agrees with every text of its length.
    #[tactic(auto, using(crate::proofs::Agreeing::runes_same, crate::proofs::RaspLaws::agrees_facts))]
    pub fn agrees(&self, text: &[char]) -> bool
        requires { length text.now ≡ size self.now }
        ensures { IsTrue result ↔ Agrees (cells self.now) text.now }
    {
        match self {
            Section::Loaded(runes) => runes.is(text),
            Section::Hole(_) => true,
        }
    }

    /// Returns whether it is a loaded text and not a hole.
    pub fn is_loaded(&self) -> bool
        ensures { result ≡ is_loaded self.now }
    {
        match self {
            Section::Loaded(_) => true,
            Section::Hole(_) => false,
        }
    }

    /// Returns the tally of what stands from place `p` to place `q`.
    #[tactic(auto, using(crate::proofs::Tallies::within_facts))]
    pub(crate) fn tally_within(&self, p: u32, q: u32) -> Tally
        requires ascending { p ≤ q }
        requires within { q ≤ size self.now }
        ensures { result ≡ tally_of (part (cells self.now) p q) }
    {
        match self {
            Section::Loaded(text) => text.tally_within(p as usize, q as usize),
            Section::Hole(_) => Tally::of_gaps(q - p),
        }
    }

    /// Puts the runes or gaps of `next` at its end if both are of one sort and memory is at hand. A loaded section has at most
    /// `MOST_IN_MESSAGE` runes then. Returns whether it did; if not, nothing is changed. The caller makes sure that the two have at most
    /// `most_kept` runes or gaps together.
    #[tactic(auto, using(crate::proofs::SectionLaws::absorbed))]
    pub(crate) fn absorb(&mut self, next: &Section) -> bool
        requires { size self.old + size next.now ≤ most_kept }
        ensures done { result ≡ true → cells self.new ≡ cells self.old ++ cells next.now }
        ensures refused { result ≡ false → self.new ≡ self.old }
    {
        match self {
            Section::Loaded(text) => match next {
                Section::Loaded(more) => text.append(more.as_slice()),
                Section::Hole(_) => false,
            },
            Section::Hole(count) => match next {
                Section::Loaded(_) => false,
                Section::Hole(more) => {
                    *count += *more;
                    true
                }
            },
        }
    }

    /// Puts what comes in in the place of what stands from place `p` to place `q`, if it is of the sort of the section, and a loaded one
    /// has at most `MOST_IN_MESSAGE` runes then. Returns whether it did. The only error is out of memory. If it didn't, nothing is changed.
    #[tactic(auto, using(crate::proofs::SectionLaws::takes))]
    pub(crate) fn take_in(
        &mut self,
        p: u32,
        q: u32,
        incoming: Incoming<'_>,
    ) -> Result<bool, AllocError>
        requires ascending { p ≤ q }
        requires within { q ≤ size self.old }
        requires incoming { CanComeIn incoming }
        requires some { 0 < size self.old }
        requires limit { size self.old + length (incoming_cells incoming) ≤ most_kept }
        ensures done { result ≡ Ok true → cells self.new ≡ put_cells (cells self.old) p q (incoming_cells incoming.entry) }
        ensures some { 0 < size self.new }
        ensures refused { result ≢ Ok true → self.new ≡ self.old }
    {
        match self {
            Section::Loaded(text) => match incoming {
                Incoming::Runes(runes, _) => {
                    if text.len() - (q - p) as usize + runes.len() > MOST_IN_MESSAGE {
                        return Ok(false);
                    }
                    text.replace(p as usize, q as usize, runes)?;
                    Ok(true)
                }
                Incoming::Gaps(_) => Ok(false),
            },
            Section::Hole(count) => match incoming {
                Incoming::Runes(_, _) => Ok(false),
                Incoming::Gaps(more) => {
                    *count = *count - (q - p) + more;
                    Ok(true)
                }
            },
        }
    }

    /// Cuts the section in two at place `p`, which stands inside: it keeps what stands before `p`, and what stands from `p` on is returned.
    /// The only error is out of memory; the section is then unchanged.
    #[tactic(auto, using(crate::proofs::SectionLaws::halves))]
    pub(crate) fn split(&mut self, alloc: Global, p: u32) -> Result<Section, AllocError>
        requires { (0 < p) × (p < size self.old) }
        ensures ok { IfOk result (λ s. (cells self.new ≡ take p (cells self.old)) × (cells s ≡ drop p (cells self.old))) }
        ensures err { OnErr result (self.new ≡ self.old) }
    {
        match self {
            Section::Loaded(text) => Ok(Section::Loaded(text.split_off(alloc, p as usize)?)),
            Section::Hole(count) => {
                let back = *count - p;
                *count = p;
                Ok(Section::Hole(back))
            }
        }
    }
}

impl Part for Section {
    ghost members = { cells };

    const MOST_IN_ROW: usize = 16;

    fn of(alloc: Global, incoming: Incoming<'_>) -> Result<Section, AllocError> {
        incoming.section(alloc)
    }

    #[tactic(auto, using(crate::proofs::SectionLaws::part_facts))]
    fn len(&self) -> u32 {
        self.len()
    }

    fn tally(&self) -> Tally {
        match self {
            Section::Loaded(text) => text.tally(),
            Section::Hole(count) => Tally::of_gaps(*count),
        }
    }

    fn is_full(&self) -> bool {
        false
    }

    fn split_off(&mut self, _p: u32) -> Result<Option<Section>, AllocError> {
        Ok(None)
    }

    fn put_in(
        alloc: Global,
        sections: &mut Vec<Section>,
        index: usize,
        at: u32,
        end: u32,
        incoming: Incoming<'_>,
    ) -> Result<Option<Tally>, AllocError> {
        list::put(alloc, sections, index, at, end, incoming)
    }

    #[tactic(auto, using(crate::proofs::SectionLaws::cuts))]
    fn cut(&mut self, p: u32, n: u32) {
        match self {
            Section::Loaded(text) => text.cut(p as usize, p as usize + n as usize),
            Section::Hole(count) => *count -= n,
        }
    }

    fn join(sections: &mut Vec<Section>, index: usize) {
        list::join(sections, index)
    }

    #[tactic(auto, using(crate::proofs::SectionLaws::part_facts))]
    fn section_at(&self, _p: u32) -> (&Section, u32) {
        (self, 0)
    }

    #[tactic(auto, using(crate::proofs::SectionLaws::part_facts))]
    fn agrees(&self, text: &[char]) -> bool {
        text.len() == self.len() as usize && self.agrees(text)
    }

    #[tactic(auto, using(crate::proofs::Runs::section_from_facts))]
    fn sort_from(&self, loaded: bool, p: u32) -> u32 {
        if p >= self.len() || self.is_loaded() != loaded {
            return 0;
        }
        self.len() - p
    }

    #[tactic(auto, using(crate::proofs::Runs::section_from_facts))]
    fn hole_from(&self, p: u32) -> (u32, u32) {
        if p >= self.len() {
            return (0, 0);
        }
        let left = self.len() - p;
        if self.is_loaded() {
            (left, 0)
        } else {
            (0, left)
        }
    }

    #[tactic(auto, using(crate::proofs::Runs::section_before_facts))]
    fn sort_before(&self, loaded: bool, p: u32) -> u32 {
        if self.is_loaded() == loaded { p } else { 0 }
    }

    #[tactic(auto, using(crate::proofs::Tallies::before_facts))]
    fn tally_before(&self, p: u32) -> Tally {
        let len = self.len();
        if p >= len {
            return self.tally();
        }
        self.tally_within(0, p)
    }

    #[tactic(auto, using(crate::proofs::Tallies::reached_facts))]
    fn reached(&self, measure: Measure, count: u32) -> u32 {
        match self {
            Section::Loaded(text) => text.reached(measure, count) as u32,
            Section::Hole(gaps) => *gaps,
        }
    }
}
