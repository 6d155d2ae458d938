//! Many replacements of what is shown of a file.

ghost use Rattle.std.specs.Prelude.{◌≡◌, ◌↔◌, IsTrue};
ghost use Rattle.sam_client.specs.Batches.{count_in};

use sam_overlay::ReplaceFault;

/// One of several: what is shown from place `p` to place `q` gives way to the next `count` runes of a text.
#[repr(C)]
#[derive(Clone, Copy, Debug, PartialEq, Eq, Drop)]
pub struct Replacement {
    /// The place where it begins.
    pub p: u32,
    /// The place behind what goes.
    pub q: u32,
    /// How many runes come.
    pub count: u32,
}

/// How several were made.
#[derive(Drop)]
pub struct Replaced {
    /// How many were.
    pub made: usize,
    /// Whether all were, or why the next one was not.
    pub result: Result<(), ReplaceFault>,
}

/// Returns whether all of them together take so many runes.
#[tactic(auto, using(crate::proofs::BatchLaws::count_first))]
pub fn take_together(replacements: &[Replacement], runes: usize) -> bool
    ensures { IsTrue result ↔ (count_in replacements.now ≡ runes) }
{
    let mut left = replacements;
    let mut rest = runes;
    'left: while !left.is_empty() {
        let count = left[0].count as usize;
        if count > rest {
            return false;
        }
        rest -= count;
        left = &left[1..];
    }
    rest == 0
}
