//! What waits over the rasps of files, by tag.

ghost use Rattle.std.specs.Prelude.{◌≡◌, ◌++◌, ◌+◌, ◌<◌, ◌≤◌, ℕ, [], length, OnErr, OnOk, IfOk, Ok, Some, None, IsTrue, ◌≢◌, is_some, option_copied, option_map, replicate, vec_len, vec_capacity};
ghost use Rattle.sam_runes.specs.Slots.{slot};
ghost use Rattle.sam_pending.specs.Layers.{Layer, IsPrepared, with_change, next_made, rasp_length};
ghost use Rattle.sam_overlay.specs.Outcomes.{IsNextKept, IsNextMade, IsNextWaiting, LayerDrops, LayerReplaces, IsNextMadeBy, SaysLeft, has_edit, layer_after, newest_in, newest_over};
ghost use Rattle.sam_overlay.specs.Setting.{Sets};
ghost use Rattle.sam_pending.specs.Blocks.{BlockChange};
ghost use Rattle.sam_runes.specs.Texts.{max_runes};

use crate::outcome::LayerChange;
use sam_pending::{Dropped, Pending, PendingFault, Prepared};
use std::alloc::{AllocError, Global};
use std::marker::Model;

/// How many tags there are.
const TAGS: usize = 65_536;

/// Where an edit of the user stands: in the place of what is shown from place `p` to place `q`.
#[derive(Clone, Copy)]
pub(crate) struct Place {
    /// The oldest group that the edit may be put into.
    pub group: u32,
    /// The place where what goes begins.
    pub p: u32,
    /// The place where it ends.
    pub q: u32,
}

/// What waits over the rasps of files, by tag: nothing over most. Contracts see a list of slots, whose index is the tag.
#[derive(Drop)]
pub(crate) struct Layers {
    /// What gives the memory.
    alloc: Global,
    /// What waits over the file of each tag. A tag after the end has nothing that waits.
    slots: Vec<Option<Pending>>,
}

impl Model for Layers {
    ghost use Rattle.std.specs.Prelude.{List, Option};
    ghost use Rattle.sam_pending.specs.Layers.{Layer};

    ghost Value = { List (Option Layer) };

    ghost view = { λ a. a.slots.items };
}

impl Layers {
    /// Returns a list in which nothing waits over any file. It takes no memory.
    pub fn new(alloc: Global) -> Layers
        ensures { result ≡ [] }
    {
        Layers {
            alloc,
            slots: Vec::new(alloc),
        }
    }

    /// Returns what waits over a file; `None` if nothing does.
    #[tactic(auto, using(crate::proofs::SlotSteps::slot_facts))]
    pub fn at(&self, tag: u16) -> Option<&Pending>
        ensures { option_copied result ≡ slot self.now tag }
    {
        let index = tag as usize;
        if index < self.slots.len() {
            self.slots[index].as_ref()
        } else {
            None
        }
    }

    /// Returns whether an edit waits over a file.
    pub fn is_waiting(&self, tag: u16) -> bool
        ensures { result ≡ has_edit (slot self.now tag) }
    {
        match self.at(tag) {
            Some(pending) => !pending.is_resting(),
            None => false,
        }
    }

    /// Returns how many slots there are.
    pub fn len(&self) -> usize
        ensures { result ≡ length self.now }
    {
        self.slots.len()
    }

    /// Returns whether an edit of the group `up_to`, or of one before it, waits over a file.
    #[tactic(auto, using(crate::proofs::QueueLaws::none_left))]
    pub fn is_left(&self, tag: u16, up_to: u32) -> bool
        ensures { SaysLeft up_to (slot self.now tag) result }
    {
        match self.at(tag) {
            Some(pending) => pending.has_next(Some(up_to)),
            None => false,
        }
    }

    /// Returns the newest group that waits over any file; 0 if none does.
    pub fn newest(&self) -> u32
        ensures { result ≡ newest_over self.now }
    {
        newest_over(self.slots.as_slice())
    }

    /// Returns the newest group that waits over a file; 0 if none does.
    pub fn newest_at(&self, tag: u16) -> u32
        ensures { result ≡ newest_in (slot self.now tag) }
    {
        match self.at(tag) {
            Some(pending) => pending.newest(),
            None => 0,
        }
    }

    /// Returns the first file from that tag on over which an edit waits; `None` if there is none.
    #[tactic(auto, using(crate::proofs::SlotSteps::waiting_facts))]
    pub fn next_waiting(&self, from: u16) -> Option<u16>
        ensures { IsNextWaiting self.now from result }
    {
        let end = self.slots.len().min(TAGS);
        for index in from as usize..end {
            let tag = index as u16;
            if self.is_waiting(tag) {
                return Some(tag);
            }
        }
        None
    }

    /// Returns whether a list of edits is kept for a file, with edits that wait or with none left.
    fn is_kept(&self, tag: u16) -> bool
        ensures { result ≡ is_some (slot self.now tag) }
    {
        match self.at(tag) {
            Some(_) => true,
            None => false,
        }
    }

    /// Returns the first file from that tag on for which a list of edits is kept; `None` if there is none.
    #[tactic(auto, using(crate::proofs::SlotSteps::kept_facts))]
    pub fn next_kept(&self, from: u16) -> Option<u16>
        ensures { IsNextKept self.now from result }
    {
        let end = self.slots.len().min(TAGS);
        for index in from as usize..end {
            let tag = index as u16;
            if self.is_kept(tag) {
                return Some(tag);
            }
        }
        None
    }

    /// Puts `runes` at a place of what is shown of a file whose rasp has `len` members. Errors are those of `Pending::new` and of
    /// `Pending::replace`; after an error all is unchanged.
    #[tactic(auto, using(crate::proofs::SlotSteps::set_facts))]
    pub fn replace(
        &mut self,
        tag: u16,
        len: u32,
        at: Place,
        runes: &[char],
    ) -> Result<(), PendingFault>
        ensures ok { OnOk result (LayerReplaces len (slot self.old tag) at runes.now (slot self.new tag)) }
        ensures others { OnOk result ((f : ℕ) → f ≢ tag → slot self.new f ≡ slot self.old f) }
        ensures err { OnErr result (self.new ≡ self.old) }
    {
        let index = tag as usize;
        if index < self.slots.len() && self.slots[index].is_some() {
            return replace_in(&mut self.slots[index], at, runes);
        }
        let layer = new_layer(self.alloc, len, at, runes)?;
        self.reserve(tag)?;
        self.put(tag, Some(layer));
        Ok(())
    }

    /// Makes room for a file, so that `put` at its tag takes no memory. What waits stays. The only error is out of memory.
    #[tactic(auto, using(crate::proofs::SlotSteps::room_facts))]
    pub fn reserve(&mut self, tag: u16) -> Result<(), AllocError>
        ensures room { OnOk result (tag < length self.new) }
        ensures same { (f : ℕ) → slot self.new f ≡ slot self.old f }
        ensures err { OnErr result (self.new ≡ self.old) }
    {
        let index = tag as usize;
        if index < self.slots.len() {
            return Ok(());
        }
        let more = index + 1 - self.slots.len();
        self.slots.reserve(more)?;
        push_slots(&mut self.slots, more);
        Ok(())
    }

    /// Puts what waits over a file for which there is room. What waited over it before is dropped.
    #[tactic(auto, using(crate::proofs::SlotSteps::set_facts))]
    pub fn put(&mut self, tag: u16, layer: Option<Pending>)
        requires { tag < length self.old }
        ensures { Sets self.old tag layer self.new }
    {
        self.slots[tag as usize] = layer;
    }

    /// Lets go what waits over a file.
    #[tactic(auto, using(crate::proofs::SlotSteps::free_facts))]
    pub fn free(&mut self, tag: u16)
        ensures { Sets self.old tag None self.new }
    {
        let index = tag as usize;
        if index < self.slots.len() {
            self.slots[index] = None;
        }
    }

    /// Makes a change of the host's that was prepared, of what waits over a file now. Nothing is done if nothing waits.
    #[tactic(auto, using(crate::proofs::SlotSteps::set_facts))]
    pub fn take_on(&mut self, tag: u16, change: Prepared)
        requires { (l : Layer) → slot self.old tag ≡ Some l → IsPrepared l change }
        ensures { Sets self.old tag (option_map (λ l. with_change l change) (slot self.old tag)) self.new }
    {
        let index = tag as usize;
        if index < self.slots.len() {
            take_on(&mut self.slots[index], change);
        }
    }

    /// Makes of what waits over a file what a change of the host's leaves of it.
    pub fn follow(&mut self, tag: u16, change: LayerChange)
        requires { (l : Layer) (made : BlockChange) → slot self.old tag ≡ Some l → change ≡ LayerChange.Runs made
            → IsPrepared l made }
        ensures { Sets self.old tag (layer_after change (slot self.old tag)) self.new }
    {
        match change {
            LayerChange::Stays => {}
            LayerChange::Runs(prepared) => self.take_on(tag, prepared),
            LayerChange::Ends => self.free(tag),
        }
    }

    /// Takes back the runes of the next edit of what waits over a file, of the groups up to a limit, if its rasp has no room for them. The
    /// only error is `OutOfMemory`; after it all is unchanged.
    #[tactic(auto, using(crate::proofs::SlotSteps::set_facts))]
    pub fn drop_next(
        &mut self,
        tag: u16,
        up_to: Option<u32>,
    ) -> Result<Option<Dropped>, PendingFault>
        ensures dropped { LayerDrops up_to (slot self.old tag) result (slot self.new tag) }
        ensures others { (f : ℕ) → f ≢ tag → slot self.new f ≡ slot self.old f }
        ensures none { result ≡ Ok None → self.new ≡ self.old }
        ensures err { OnErr result (self.new ≡ self.old) }
    {
        let index = tag as usize;
        if index < self.slots.len() {
            drop_next(&mut self.slots[index], up_to)
        } else {
            Ok(None)
        }
    }

    /// Takes on that the next edit of what waits over a file, of the groups up to a limit, was made in its rasp. Nothing is done if nothing
    /// waits.
    #[tactic(auto, using(crate::proofs::SlotSteps::set_facts))]
    pub fn make_next(&mut self, tag: u16, up_to: Option<u32>)
        requires { (l : Layer) → slot self.old tag ≡ Some l → rasp_length (next_made up_to l) ≤ max_runes }
        ensures layers { Sets self.old tag (option_map (next_made up_to) (slot self.old tag)) self.new }
        ensures made { (l : Layer) → slot self.old tag ≡ Some l → IsNextMade up_to l }
        ensures groups { (l : Layer) → slot self.old tag ≡ Some l → IsNextMadeBy up_to l }
    {
        let index = tag as usize;
        if index < self.slots.len() {
            make_next(&mut self.slots[index], up_to);
        }
    }
}

/// Adds `more` empty slots at the end, for which there is room.
fn push_slots(slots: &mut Vec<Option<Pending>>, more: usize)
    requires { vec_len slots.old + more ≤ vec_capacity slots.old }
    ensures { slots.new.items ≡ slots.old.items ++ replicate more None }
{
    for _ in 0..more {
        if slots.push(None).is_err() {
            unreachable!()
        }
    }
}

/// Returns a layer over a rasp of `len` members, in which the runes are put at that place.
#[tactic(auto, using(crate::proofs::CallLaws::new_replaces))]
fn new_layer(alloc: Global, len: u32, at: Place, runes: &[char]) -> Result<Pending, PendingFault>
    ensures { IfOk result (λ l. LayerReplaces len None at runes.now (Some l)) }
{
    let mut pending = Pending::new(alloc, len)?;
    replace_pending(&mut pending, at, runes)?;
    Ok(pending)
}

/// Puts runes at a place of what is shown, where something waits.
fn replace_in(layer: &mut Option<Pending>, at: Place, runes: &[char]) -> Result<(), PendingFault>
    requires { IsTrue (is_some layer.old) }
    ensures ok { OnOk result ((n : ℕ) → LayerReplaces n layer.old at runes.now layer.new) }
    ensures err { OnErr result (layer.new ≡ layer.old) }
{
    match layer {
        Some(pending) => replace_pending(pending, at, runes),
        None => Ok(()),
    }
}

/// Puts runes at a place of what is shown, by the newest group, or by that of the place if it is newer.
#[tactic(auto, using(crate::proofs::CallLaws::replaces_layer))]
fn replace_pending(pending: &mut Pending, at: Place, runes: &[char]) -> Result<(), PendingFault>
    ensures ok { OnOk result ((n : ℕ) → LayerReplaces n (Some pending.old) at runes.now (Some pending.new)) }
    ensures err { OnErr result (pending.new ≡ pending.old) }
{
    let group = pending.newest().max(at.group);
    pending.replace(group, at.p, at.q, runes)
}

/// Returns the newest group of these slots; 0 if nothing waits.
fn newest_over(slots: &[Option<Pending>]) -> u32
    ensures { result ≡ newest_over slots.now }
{
    let mut newest: u32 = 0;
    for layer in slots {
        newest = newest.max(newest_in(layer));
    }
    newest
}

/// Returns the newest group that waits, where something does; 0 where nothing does.
fn newest_in(layer: &Option<Pending>) -> u32
    ensures { result ≡ newest_in layer.now }
{
    match layer {
        Some(pending) => pending.newest(),
        None => 0,
    }
}

/// Makes a change of the host's that was prepared, if something waits.
fn take_on(layer: &mut Option<Pending>, change: Prepared)
    requires { (l : Layer) → layer.old ≡ Some l → IsPrepared l change }
    ensures { layer.new ≡ option_map (λ l. with_change l change) layer.old }
{
    if let Some(pending) = layer {
        pending.take_on(change);
    }
}

/// Takes back the runes of the next edit, if something waits and the rasp has no room for them.
fn drop_next(
    layer: &mut Option<Pending>,
    up_to: Option<u32>,
) -> Result<Option<Dropped>, PendingFault>
    ensures dropped { LayerDrops up_to layer.old result layer.new }
    ensures none { result ≡ Ok None → layer.new ≡ layer.old }
    ensures err { OnErr result (layer.new ≡ layer.old) }
{
    match layer {
        Some(pending) => pending.drop_next(up_to),
        None => Ok(None),
    }
}

/// Takes on that the next edit was made, if something waits.
fn make_next(layer: &mut Option<Pending>, up_to: Option<u32>)
    requires { (l : Layer) → layer.old ≡ Some l → rasp_length (next_made up_to l) ≤ max_runes }
    ensures layer { layer.new ≡ option_map (next_made up_to) layer.old }
    ensures made { (l : Layer) → layer.old ≡ Some l → IsNextMade up_to l }
    ensures groups { (l : Layer) → layer.old ≡ Some l → IsNextMadeBy up_to l }
{
    if let Some(pending) = layer {
        pending.make_next(up_to);
    }
}
