//! The changes of a shown text, one by one.

ghost use Rattle.std.specs.Prelude.{◌≡◌, [], drop, slice_get};
ghost use Rattle.sam_runes.specs.Texts.{is_empty};
ghost use Rattle.sam_shown.specs.Splices.{filled, splices_of, went};

use sam_overlay::Told;
use sam_pending::{Filling, Removal};
use std::marker::Model;

/// What a splice does to the shown text of a file.
#[derive(Clone, Copy, Debug, PartialEq, Eq, Drop)]
pub enum SpliceKind {
    /// Runes or gaps came in at the place.
    Came = 1,
    /// Runes or gaps from the place on went.
    Went = 2,
    /// The runes from the place on are loaded now. Nothing moved.
    Filled = 3,
    /// The text is empty now: the file was opened or closed. Place and count are 0.
    Emptied = 4,
}

/// A change of the shown text of a file. Place and count are of runes and gaps.
#[derive(Clone, Copy, Debug, PartialEq, Eq, Drop)]
pub struct Splice {
    /// What it does.
    pub kind: SpliceKind,
    /// The file.
    pub tag: u16,
    /// The place where it begins.
    pub place: u32,
    /// How many runes or gaps it is about.
    pub count: u32,
}

/// The splices that lead from a shown text to the next one, and were not handed out yet. A clause sees them as a list, the first one first.
#[derive(Drop)]
pub struct Splices {
    /// The file.
    tag: u16,
    /// What is left of what was told of it.
    told: Told,
}

impl Model for Splices {
    ghost use Rattle.std.specs.Prelude.{List};
    ghost use Rattle.sam_shown.specs.Splices.{splices_of};
    ghost use Rattle.sam_shown.specs.declared.splices.Splice.{Splice};

    ghost Value = { List Splice };

    ghost view = { λ s. splices_of s.tag s.told };
}

/// Returns the splice of a removal.
fn went(tag: u16, removal: Removal) -> Splice
    ensures { result ≡ went tag removal }
{
    Splice {
        kind: SpliceKind::Went,
        tag,
        place: removal.p,
        count: removal.q.saturating_sub(removal.p),
    }
}

/// Returns the splice of a stretch whose runes were loaded.
fn filled(tag: u16, filling: Filling) -> Splice
    ensures { result ≡ filled tag filling }
{
    Splice {
        kind: SpliceKind::Filled,
        tag,
        place: filling.place,
        count: filling.count,
    }
}

impl Splices {
    /// Makes a list of no splices.
    pub fn none() -> Splices
        ensures { result ≡ [] }
    {
        Splices {
            tag: 0,
            told: Told::Nothing,
        }
    }

    /// Makes the list of those by which the shown text of a file changed as was told.
    pub fn of(tag: u16, told: Told) -> Splices
        ensures { result ≡ splices_of tag told }
    {
        Splices { tag, told }
    }

    /// Returns whether all were handed out.
    #[tactic(auto, using(crate::proofs::SpliceLaws::empty_facts))]
    pub fn is_empty(&self) -> bool
        ensures { result ≡ is_empty self.now }
    {
        match &self.told {
            Told::Nothing => true,
            Told::Came(_, _) => false,
            Told::Went(removals) => removals.is_empty(),
            Told::Filled(fillings) => fillings.is_empty(),
            Told::Changed(_, _, _) => false,
            Told::Emptied => false,
        }
    }

    /// Hands out the next one; `None` if all were handed out.
    #[tactic(auto, using(crate::proofs::SpliceLaws::next_facts))]
    pub fn next(&mut self) -> Option<Splice>
        ensures told { result ≡ slice_get self.old 0 }
        ensures rest { self.new ≡ drop 1 self.old }
    {
        let tag = self.tag;
        match std::mem::replace(&mut self.told, Told::Nothing) {
            Told::Nothing => None,
            Told::Came(place, count) => Some(Splice {
                kind: SpliceKind::Came,
                tag,
                place,
                count,
            }),
            Told::Went(mut removals) => {
                let removal = removals.pop();
                self.told = Told::Went(removals);
                Some(went(tag, removal?))
            }
            Told::Filled(mut fillings) => {
                let filling = fillings.pop();
                self.told = Told::Filled(fillings);
                Some(filled(tag, filling?))
            }
            Told::Changed(place, gone, came) => {
                self.told = Told::Came(place, came);
                Some(Splice {
                    kind: SpliceKind::Went,
                    tag,
                    place,
                    count: gone,
                })
            }
            Told::Emptied => Some(Splice {
                kind: SpliceKind::Emptied,
                tag,
                place: 0,
                count: 0,
            }),
        }
    }
}
