//! What calls of `Pending` tell their caller.

use crate::block::Block;
use crate::marks::Mark;
use sam_runes::Runes;
use std::marker::Model;

/// A change of the host's to the rasp, prepared: `Pending::take_on` makes it, and can't fail. It fits the layer that prepared it, as it was
/// then. A clause sees the blocks that come, and in whose place.
#[derive(Drop)]
pub struct Prepared {
    /// How many blocks stand before those that go.
    pub(crate) first: usize,
    /// How many blocks go.
    pub(crate) count: usize,
    /// The blocks that come in their place.
    pub(crate) made: Vec<Block>,
    /// For how many blocks there is room where others come than go.
    pub(crate) most: usize,
    /// An empty list, which has that room.
    pub(crate) room: Vec<Block>,
    /// An empty list, which has room for the marks of so many blocks.
    pub(crate) marks: Vec<Mark>,
}

impl Model for Prepared {
    ghost use Rattle.std.specs.Prelude.{◌≡◌, ◌≤◌, ◌⊎◌, vec_capacity, vec_len};
    ghost use Rattle.sam_pending.specs.Blocks.{BlockChange};

    ghost Value = { BlockChange };

    ghost view = { λ s. record { first = s.first; count = s.count; made = s.made.items; room = s.most } };

    ghost invariant = { λ s. (vec_len s.room ≡ 0) × (vec_len s.marks ≡ 0) × ((vec_len s.made ≡ s.count) ⊎ (s.most ≤ vec_capacity s.room)) };
}

/// A removal: what stands from place `p` to place `q` goes.
#[derive(Clone, Copy, Debug, PartialEq, Eq)]
pub struct Removal {
    /// The place where it begins.
    pub p: u32,
    /// The place where it ends.
    pub q: u32,
}

/// A stretch of the shown text whose runes came in.
#[derive(Clone, Copy, Debug, PartialEq, Eq)]
pub struct Filling {
    /// The place of the shown text where it begins.
    pub place: u32,
    /// Which of the runes that came in stands there, counted from 0.
    pub from: u32,
    /// How many runes it has.
    pub count: u32,
}

/// Runes that were taken back, since the rasp has no room for them.
#[derive(Drop)]
pub struct Dropped {
    /// The place of the shown text where they stood.
    pub place: u32,
    /// How many members of the shown text went there: one for each rune, or none if a later edit had removed the runes.
    pub count: u32,
    /// The runes.
    pub text: Runes,
}

/// What stands from a place of the shown text on.
#[derive(Clone, Copy, Debug)]
pub enum Shown<'a> {
    /// Members of the rasp: from this place of the rasp on, so many of them.
    Rasp(u32, u32),
    /// Runes that wait.
    Waiting(&'a [char]),
}
