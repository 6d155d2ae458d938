//! `Pending`: edits of one file that wait, over its rasp.

ghost use Rattle.std.specs.Prelude.{◌≡◌, ◌⊎◌, ◌<◌, ◌≤◌, ◌+◌, ◌-◌, ◌++◌, ◌↔◌, IsTrue, ℕ, List, false, length, take, drop, map, reverse, Some, None, Ok, Err, IfOk, IfSome, OnOk, OnErr, MatchOption, All, vec_capacity, vec_len};
ghost use Rattle.sam_runes.specs.Texts.{max_runes};
ghost use Rattle.sam_pending.specs.Cells.{PartialText, IsMade, all_put, place_at, put, shown_of, shown_place, waiting_of, IsNewest, resting, replaced, inserted, removed, filled};
ghost use Rattle.sam_pending.specs.Groups.{IsMadeBy, place_after_removal};
ghost use Rattle.sam_pending.specs.Runs.{lost_in, rests, has_next, edit_change, removal_changes, filling_changes};
ghost use Rattle.sam_pending.specs.Layers.{cells_over, rasp_length, waiting_length, shown_length, newest_group, shown_members, next_edit, next_made, DropsNext, first_dropped, runs_of, with_change, IsPrepared, IsOver, IsTidied, SaysLeft};
ghost use Rattle.sam_runes.specs.declared.edit.Edit.{Edit};

use crate::blocks::Blocks;
use crate::fault::PendingFault;
use crate::run::{Run, Stretch};
use crate::told::{Dropped, Filling, Prepared, Removal, Shown};
use crate::{blocks, due, frames, places, runs};
use sam_runes::{Edit, MAX_RUNES};
use std::alloc::Global;
use std::marker::Model;

/// The most runes that the text keeps, those that wait no more among them.
const MOST_KEPT: usize = 4_000_000;

/// How many runes that wait no more may stand in the text besides as many as wait.
const SPARE: usize = 1_024;

/// Edits of one file that wait, over its rasp.
///
/// A user changes the text that is shown, at once, also while the host has locked the file. Each change belongs to a *group*. It waits
/// until the edits that `next_edit` returns bring it to the rasp. Frames of the host change the rasp, and through it what is shown. What a
/// user put in before stays, wherever the host changes the text round it.
///
/// The rasp stands elsewhere: here is how many members (runes and gaps) it has, and what waits between them. A clause sees the cells of
/// both: `cells_over r self` over a rasp `r` of that length.
///
/// ```rust
/// let mut pending = Pending::new(alloc, 5)?; // `hello`, and nothing waits
/// pending.replace(1, 5, 5, &['!'])?; // `hello!` is shown
/// let place = pending.insert_by_host(5, 6)?; // the host put ` world` in at place 5 of the rasp: it is shown at 5, before the `!`
/// let edit = pending.next_edit(Some(1))?; // of group 1 and those before it: `!` comes in at place 11 of the rasp
/// pending.make_next(Some(1)); // the caller made that edit there, and nothing waits any more
/// ```
///
/// Runs, which are stretches of cells of one sort, stand in blocks of some hundred, each with its sums, and some hundred blocks have their
/// sums together. So each call passes over a hundred blocks at once, then over some blocks one by one, and looks into those in which
/// something changes or stands, mostly one or two. A place of a request also looks into blocks in which a later group waits. Each change makes at most three
/// runs more, and in the blocks that it changes those that can be one are joined: runes that are typed one after another are one run. All
/// blocks move as a block becomes two, or two become one. At times the runes that wait are copied, when as many came to the rasp or went
/// since the last time.
#[derive(Drop)]
pub struct Pending {
    /// The runes that wait, and some that wait no more.
    text: Vec<char>,
    /// The cells in order.
    runs: Blocks,
    /// What gives the memory.
    alloc: Global,
}

impl Model for Pending {
    ghost use Rattle.sam_pending.specs.Layers.{Layer, IsLayer};

    ghost Value = { Layer };

    ghost view = { λ s. record { text = s.text.items; blocks = s.runs } };

    ghost invariant = { λ s. IsLayer (record { text = s.text.items; blocks = s.runs }) };
}

impl Pending {
    /// Returns the layer over a rasp of `len` members, in which nothing waits.
    ///
    /// Errors, in this order: `TooLong` if `len` is above `MAX_RUNES`; `OutOfMemory`.
    #[tactic(auto, using(crate::proofs::LayerLaws::new_facts))]
    pub fn new(alloc: Global, len: u32) -> Result<Pending, PendingFault>
        ensures len { IfOk result (λ l. rasp_length l ≡ len) }
        ensures rests { IfOk result (λ l. (r : PartialText) → IsOver r l → cells_over r l ≡ resting r) }
        ensures long { (result ≡ Err PendingFault.TooLong) ↔ (max_runes < len) }
        ensures err { OnErr result ((result ≡ Err PendingFault.TooLong) ⊎ (result ≡ Err PendingFault.OutOfMemory)) }
    {
        if len > MAX_RUNES {
            return Err(PendingFault::TooLong);
        }
        let runs = blocks::cut(alloc, &[Run::Held(len, None)])?;
        Ok(Pending {
            text: Vec::new(alloc),
            runs: Blocks::new(alloc, runs),
            alloc,
        })
    }

    /// Returns how many members the rasp has.
    #[tactic(auto, using(crate::proofs::LayerLaws::length_facts))]
    pub fn rasp_len(&self) -> u32
        ensures len { result ≡ rasp_length self.now }
        ensures limit { result ≤ max_runes }
    {
        blocks::rasp_len(&self.runs)
    }

    /// Returns how many members (runes and gaps) are shown.
    #[tactic(auto, using(crate::proofs::LayerLaws::length_facts))]
    pub fn shown_len(&self) -> u32
        ensures len { result ≡ shown_length self.now }
        ensures cells { (r : PartialText) → IsOver r self.now → length (shown_of (cells_over r self.now)) ≡ result }
    {
        blocks::shown_len(&self.runs)
    }

    /// Returns how many runes wait, those that a later group removes among them.
    #[tactic(auto, using(crate::proofs::LayerLaws::waiting_facts))]
    pub fn waiting(&self) -> u32
        ensures len { result ≡ waiting_length self.now }
        ensures cells { (r : PartialText) → length (waiting_of (cells_over r self.now)) ≡ result }
        ensures limit { result ≤ max_runes }
    {
        blocks::waiting_len(&self.runs)
    }

    /// Returns whether nothing waits: then the rasp is shown.
    #[tactic(auto, using(crate::proofs::LayerLaws::rests_facts))]
    pub fn is_resting(&self) -> bool
        ensures value { result ≡ rests (runs_of self.now) }
        ensures rests { IsTrue result → (r : PartialText) → IsOver r self.now → cells_over r self.now ≡ resting r }
    {
        blocks::rest(&self.runs)
    }

    /// Returns the newest group that waits; 0 if none does.
    #[tactic(auto, using(crate::proofs::LayerLaws::newest_cells))]
    pub fn newest(&self) -> u32
        ensures value { result ≡ newest_group self.now }
        ensures cells { (r : PartialText) → All (IsNewest result) (cells_over r self.now) }
    {
        blocks::newest(&self.runs)
    }

    /// Puts `runes` in the place of what is shown from place `p` to place `q`, in that group, which is not older than `newest`. They stand
    /// behind what is shown before `p`. Runes that the group itself put in go for good; others go once that edit comes to the rasp.
    ///
    /// Errors, in this order: `BadPosition` if `q` is less than `p` or past the end of what is shown; `TooLong` if there are runes and the
    /// rasp, the runes that wait (with what goes) and these are more than `MAX_RUNES` together; `OutOfMemory`. After an error all is
    /// unchanged. No lock is an error.
    #[tactic(auto, using(crate::proofs::LayerLaws::replace_facts))]
    pub fn replace(
        &mut self,
        group: u32,
        p: u32,
        q: u32,
        runes: &[char],
    ) -> Result<(), PendingFault>
        requires { newest_group self.old ≤ group }
        ensures ok { OnOk result ((r : PartialText) → IsOver r self.old
            → cells_over r self.new ≡ replaced group p q runes.now (cells_over r self.old)) }
        ensures rasp { OnOk result (rasp_length self.new ≡ rasp_length self.old) }
        ensures position { (result ≡ Err PendingFault.BadPosition) ↔ ((q < p) ⊎ (shown_length self.old < q)) }
        ensures long { (result ≡ Err PendingFault.TooLong) ↔ ((p ≤ q) × (q ≤ shown_length self.old) × (0 < length runes.now)
            × (max_runes < rasp_length self.old + waiting_length self.old + length runes.now)) }
        ensures err { OnErr result (self.new ≡ self.old) }
    {
        if p > q || q > self.shown_len() {
            return Err(PendingFault::BadPosition);
        }
        let kept = (self.rasp_len() + self.waiting()) as usize;
        let room = (MAX_RUNES as usize).saturating_sub(kept);
        if !runes.is_empty() && runes.len() > room {
            return Err(PendingFault::TooLong);
        }
        self.put(group, p, q, runes)?;
        self.tidy();
        Ok(())
    }

    /// As `replace`, where the places are good and there is room.
    #[tactic(auto, using(crate::proofs::LayerLaws::put_facts))]
    fn put(&mut self, group: u32, p: u32, q: u32, runes: &[char]) -> Result<(), PendingFault>
        requires ascending { p ≤ q }
        requires there { q ≤ shown_length self.old }
        requires waiting { waiting_length self.old + length runes.now ≤ max_runes }
        ensures ok { OnOk result ((r : PartialText) → IsOver r self.old
            → cells_over r self.new ≡ replaced group p q runes.now (cells_over r self.old)) }
        ensures rasp { OnOk result (rasp_length self.new ≡ rasp_length self.old) }
        ensures err { OnErr result ((self.new ≡ self.old) × (result ≡ Err PendingFault.OutOfMemory)) }
    {
        if runes.len() > MOST_KEPT - self.text.len() {
            return Err(PendingFault::OutOfMemory);
        }
        let stretch = Stretch {
            start: self.text.len() as u32,
            count: runes.len() as u32,
        };
        self.text.reserve(runes.len())?;
        blocks::replace(self.alloc, &mut self.runs, stretch, group, p, q)?;
        append(&mut self.text, runes);
        Ok(())
    }

    /// Writes the text anew without the runes that wait no more, if these are many and there is memory. The cells stay.
    #[tactic(auto, using(crate::proofs::LayerLaws::tidy_facts))]
    fn tidy(&mut self)
        ensures { IsTidied self.old self.new }
    {
        let waiting = blocks::waiting_len(&self.runs) as usize;
        if self.text.len() <= 2 * waiting + SPARE {
            return;
        }
        let made = blocks::kept(self.alloc, self.text.as_slice(), self.runs.as_slice());
        if let Ok((text, runs)) = made {
            self.text = text;
            self.runs = Blocks::new(self.alloc, runs);
        }
    }

    /// Prepares that the host puts `count` members in at place `p` of the rasp: `take_on` then makes it so. Returns the place of what is
    /// shown where they will stand, before what waits there.
    ///
    /// Errors, in this order: `BadPosition` if `p` is past the end of the rasp; `TooLong` if the rasp would have more than `MAX_RUNES`
    /// members; `OutOfMemory`.
    #[tactic(auto, using(crate::proofs::LayerLaws::insert_facts))]
    pub fn prepare_insert(&self, p: u32, count: u32) -> Result<(u32, Prepared), PendingFault>
        ensures layer { IfOk result (λ x. IsPrepared self.now x.1) }
        ensures cells { IfOk result (λ x. (r new : PartialText) → IsOver r self.now → length new ≡ count
            → cells_over (take p r ++ new ++ drop p r) (with_change self.now x.1) ≡ inserted p new (cells_over r self.now)) }
        ensures place { IfOk result (λ x. (r : PartialText) → IsOver r self.now → x.0 ≡ shown_place p (cells_over r self.now)) }
        ensures rasp { IfOk result (λ x. rasp_length (with_change self.now x.1) ≡ rasp_length self.now + count) }
        ensures position { (result ≡ Err PendingFault.BadPosition) ↔ (rasp_length self.now < p) }
        ensures long { (result ≡ Err PendingFault.TooLong) ↔ ((p ≤ rasp_length self.now) × (max_runes < rasp_length self.now + count)) }
    {
        let len = blocks::rasp_len(&self.runs);
        if p > len {
            return Err(PendingFault::BadPosition);
        }
        if count > MAX_RUNES - len {
            return Err(PendingFault::TooLong);
        }
        let (place, change) = frames::inserted(self.alloc, &self.runs, p, count)?;
        Ok((place, change))
    }

    /// Prepares that the host removes what stands from place `p` to place `q` of the rasp: `take_on` then makes it so. Returns what will go
    /// of what is shown, as removals in ascending places: they are made one after another, the last one first. What waits between stays.
    ///
    /// Errors, in this order: `BadPosition` if `q` is less than `p` or past the end of the rasp; `OutOfMemory`.
    #[tactic(auto, using(crate::proofs::LayerLaws::remove_facts))]
    pub fn prepare_remove(&self, p: u32, q: u32) -> Result<(Vec<Removal>, Prepared), PendingFault>
        ensures layer { IfOk result (λ x. IsPrepared self.now x.1) }
        ensures cells { IfOk result (λ x. (r : PartialText) → IsOver r self.now
            → cells_over (take p r ++ drop q r) (with_change self.now x.1) ≡ removed p q (cells_over r self.now)) }
        ensures told { IfOk result (λ x. (r : PartialText) → IsOver r self.now
            → all_put (shown_of (cells_over r self.now)) (reverse (removal_changes x.0.items))
            ≡ shown_of (removed p q (cells_over r self.now))) }
        ensures rasp { IfOk result (λ x. rasp_length (with_change self.now x.1) + (q - p) ≡ rasp_length self.now) }
        ensures position { (result ≡ Err PendingFault.BadPosition) ↔ ((q < p) ⊎ (rasp_length self.now < q)) }
        ensures err { OnErr result ((result ≡ Err PendingFault.BadPosition) ⊎ (result ≡ Err PendingFault.OutOfMemory)) }
    {
        if p > q || q > blocks::rasp_len(&self.runs) {
            return Err(PendingFault::BadPosition);
        }
        let (told, change) = frames::removed(self.alloc, &self.runs, p, q)?;
        Ok((told, change))
    }

    /// Returns the place, of the text that a request of the group comes to, at place `p` of the rasp.
    #[tactic(auto, using(crate::proofs::PlaceLaws::place_facts))]
    pub fn place_at(&self, group: u32, p: u32) -> u32
        ensures { (r : PartialText) → IsOver r self.now → result ≡ place_at group p (cells_over r self.now) }
    {
        places::place_at(&self.runs, group, p)
    }

    /// Returns where a place, of the text that a request of the group comes to, goes as the host removes `count` members of the rasp from
    /// place `p` on: as many to the front as stand before it in that text and go.
    #[tactic(auto, using(crate::proofs::PlaceLaws::removal_facts))]
    pub fn place_after_removal(&self, group: u32, place: u32, p: u32, count: usize) -> u32
        ensures { (r : PartialText) → IsOver r self.now
            → result ≡ place_after_removal group p (p + count) place (cells_over r self.now) }
    {
        places::place_after_removal(&self.runs, group, place, p, count)
    }

    /// Returns where a place, of the text that a request of the group comes to, goes as `drop_next` takes runes back: as many to the front
    /// as stand before it in that text and go. `DropsNext` says of what is taken back that this is so.
    pub fn place_after_drop(&self, up_to: Option<u32>, group: u32, place: u32) -> u32
        ensures { result ≡ place - lost_in up_to group place (runs_of self.now) }
    {
        places::place_after_drop(&self.runs, up_to, group, place)
    }

    /// Makes a change of the host's that was prepared, of this layer as it is now. It takes no memory.
    pub fn take_on(&mut self, change: Prepared)
        requires { IsPrepared self.old change }
        ensures { self.new ≡ with_change self.old change }
    {
        frames::take_on(&mut self.runs, change);
    }

    /// Takes on that the host put `count` members in at place `p` of the rasp. Returns the place of what is shown where they stand: before
    /// what waits there. The errors are those of `prepare_insert`; after an error all is unchanged.
    pub fn insert_by_host(&mut self, p: u32, count: u32) -> Result<u32, PendingFault>
        ensures cells { OnOk result ((r new : PartialText) → IsOver r self.old → length new ≡ count
            → cells_over (take p r ++ new ++ drop p r) self.new ≡ inserted p new (cells_over r self.old)) }
        ensures place { IfOk result (λ place. (r : PartialText) → IsOver r self.old → place ≡ shown_place p (cells_over r self.old)) }
        ensures rasp { OnOk result (rasp_length self.new ≡ rasp_length self.old + count) }
        ensures position { (result ≡ Err PendingFault.BadPosition) ↔ (rasp_length self.old < p) }
        ensures long { (result ≡ Err PendingFault.TooLong) ↔ ((p ≤ rasp_length self.old) × (max_runes < rasp_length self.old + count)) }
        ensures err { OnErr result (self.new ≡ self.old) }
    {
        let (place, change) = self.prepare_insert(p, count)?;
        self.take_on(change);
        Ok(place)
    }

    /// Takes on that the host removed what stood from place `p` to place `q` of the rasp. Returns what goes of what is shown, as removals
    /// in ascending places: they are made one after another, the last one first. What waits between stays. The errors are those of
    /// `prepare_remove`; after an error all is unchanged.
    pub fn remove_by_host(&mut self, p: u32, q: u32) -> Result<Vec<Removal>, PendingFault>
        ensures cells { OnOk result ((r : PartialText) → IsOver r self.old
            → cells_over (take p r ++ drop q r) self.new ≡ removed p q (cells_over r self.old)) }
        ensures told { IfOk result (λ told. (r : PartialText) → IsOver r self.old
            → all_put (shown_of (cells_over r self.old)) (reverse (removal_changes told.items))
            ≡ shown_of (removed p q (cells_over r self.old))) }
        ensures rasp { OnOk result (rasp_length self.new + (q - p) ≡ rasp_length self.old) }
        ensures position { (result ≡ Err PendingFault.BadPosition) ↔ ((q < p) ⊎ (rasp_length self.old < q)) }
        ensures err { OnErr result ((self.new ≡ self.old)
            × ((result ≡ Err PendingFault.BadPosition) ⊎ (result ≡ Err PendingFault.OutOfMemory))) }
    {
        let (told, change) = self.prepare_remove(p, q)?;
        self.take_on(change);
        Ok(told)
    }

    /// Tells what becomes of what is shown as `count` runes are stored in the rasp from place `p` on: the stretches whose runes came in, in
    /// ascending places. Nothing moves, and nothing here changes.
    ///
    /// Errors, in this order: `BadPosition` if `p + count` is past the end of the rasp; `OutOfMemory`.
    #[tactic(auto, using(crate::proofs::LayerLaws::fill_facts))]
    pub fn fill_by_host(&self, p: u32, count: u32) -> Result<Vec<Filling>, PendingFault>
        ensures cells { OnOk result ((r : PartialText) (s : List ℕ) → IsOver r self.now → length s ≡ count
            → cells_over (take p r ++ map Some s ++ drop (p + count) r) self.now ≡ filled p s (cells_over r self.now)) }
        ensures told { IfOk result (λ told. (r : PartialText) (s : List ℕ) → IsOver r self.now → length s ≡ count
            → all_put (shown_of (cells_over r self.now)) (reverse (filling_changes s told.items))
            ≡ shown_of (filled p s (cells_over r self.now))) }
        ensures position { (result ≡ Err PendingFault.BadPosition) ↔ (rasp_length self.now < p + count) }
        ensures err { OnErr result ((result ≡ Err PendingFault.BadPosition) ⊎ (result ≡ Err PendingFault.OutOfMemory)) }
    {
        let len = blocks::rasp_len(&self.runs);
        if p > len || count > len - p {
            return Err(PendingFault::BadPosition);
        }
        let told = frames::loaded(self.alloc, &self.runs, p, count)?;
        Ok(told)
    }

    /// Returns whether an edit is left to bring to the rasp, of the groups up to a limit, or of any group. While none is left the rasp is
    /// the text that a request of the group at the limit comes to (`requests_find_what_was_shown` of `sam_waiting`).
    #[tactic(auto, using(crate::proofs::DueLaws::next_facts, crate::proofs::PutUpToLaws::left_facts))]
    pub fn has_next(&self, up_to: Option<u32>) -> bool
        ensures value { result ≡ has_next up_to (runs_of self.now) }
        ensures all { (up_to ≡ None) → (result ≡ false) ↔ IsTrue (rests (runs_of self.now)) }
        ensures cells { (g : ℕ) → up_to ≡ Some g → SaysLeft g self.now result }
    {
        blocks::has_next(&self.runs, up_to)
    }

    /// Returns the next edit by which what waits comes to the rasp, of the groups up to a limit, or of any group; `None` if none of them
    /// waits. It takes members out that edits remove, or puts runes in that wait; it puts none in while members are to be taken out, so no
    /// rasp is longer than it has to be. Groups within the limit aren't told apart.
    ///
    /// Errors, in this order: `TooLong` if the rasp would have more than `MAX_RUNES` members, because the host put more in meanwhile;
    /// `OutOfMemory`.
    #[tactic(auto, using(crate::proofs::DueLaws::next_facts))]
    pub fn next_edit(&self, up_to: Option<u32>) -> Result<Option<Edit>, PendingFault>
        ensures edit { IfOk result (λ x. x ≡ next_edit up_to self.now) }
        ensures none { IfOk result (λ x. (x ≡ None) ↔ (has_next up_to (runs_of self.now) ≡ false)) }
        ensures room { OnOk result (rasp_length (next_made up_to self.now) ≤ max_runes) }
        ensures long { (result ≡ Err PendingFault.TooLong) ↔ (max_runes < rasp_length (next_made up_to self.now)) }
        ensures err { OnErr result ((result ≡ Err PendingFault.TooLong) ⊎ (result ≡ Err PendingFault.OutOfMemory)) }
    {
        if self.made_len(up_to) > MAX_RUNES {
            return Err(PendingFault::TooLong);
        }
        let runs = &self.runs;
        let deed = blocks::next_deed(runs, up_to);
        let Some((run, at)) = blocks::first_due(runs, deed) else {
            return Ok(None);
        };
        let edit = due::edit_at(self.alloc, self.text.as_slice(), run, at)?;
        Ok(Some(edit))
    }

    /// Returns how many members the rasp has once the next edit of the groups up to a limit is made.
    #[tactic(auto, using(crate::proofs::LayerLaws::length_facts))]
    fn made_len(&self, up_to: Option<u32>) -> u32
        ensures { result ≡ rasp_length (next_made up_to self.now) }
    {
        let runs = &self.runs;
        blocks::made_len(runs, blocks::next_deed(runs, up_to))
    }

    /// Takes on that the next edit of the groups up to that limit was made in the rasp. What is shown stays. It takes no memory.
    #[tactic(auto, using(crate::proofs::DueLaws::make_facts))]
    pub fn make_next(&mut self, up_to: Option<u32>)
        requires { rasp_length (next_made up_to self.old) ≤ max_runes }
        ensures made { self.new ≡ next_made up_to self.old }
        ensures cells { (r : PartialText) (e : Edit) → IsOver r self.old → next_edit up_to self.old ≡ Some e
            → IsMade (cells_over r self.old) (edit_change e) (cells_over (put r (edit_change e)) self.new)
            × IsOver (put r (edit_change e)) self.new }
        ensures groups { (g : ℕ) (r : PartialText) (e : Edit) → up_to ≡ Some g → IsOver r self.old → next_edit up_to self.old ≡ Some e
            → IsMadeBy g (cells_over r self.old) (edit_change e) (cells_over (put r (edit_change e)) self.new) }
    {
        let deed = blocks::next_deed(&self.runs, up_to);
        self.runs.make_first(deed);
    }

    /// Takes back the runes of the next edit of the groups up to that limit, for which the host left no room in the rasp: they are in no
    /// cell any more. Returns them, and where they stood in what is shown; `None` if that edit has room, or if none waits.
    ///
    /// The only error is `OutOfMemory`; after it all is unchanged.
    #[tactic(auto, using(crate::proofs::DropLaws::drop_facts))]
    pub fn drop_next(&mut self, up_to: Option<u32>) -> Result<Option<Dropped>, PendingFault>
        ensures none { (result ≡ Ok None) ↔ (rasp_length (next_made up_to self.old) ≤ max_runes) }
        ensures same { result ≡ Ok None → self.new ≡ self.old }
        ensures dropped { IfOk result (λ x. IfSome x (λ d.
            (self.new ≡ first_dropped up_to self.old) × DropsNext up_to self.old d)) }
        ensures err { OnErr result ((self.new ≡ self.old) × (result ≡ Err PendingFault.OutOfMemory)) }
    {
        if self.made_len(up_to) <= MAX_RUNES {
            return Ok(None);
        }
        let runs = &self.runs;
        let Some((run, place)) = blocks::first_typed(runs, up_to) else {
            unreachable!()
        };
        let edit = due::edit_at(self.alloc, self.text.as_slice(), run, 0)?;
        self.runs.take_first(up_to);
        Ok(Some(Dropped {
            place,
            count: run.shown(),
            text: edit.text,
        }))
    }

    /// Returns what stands from that place of what is shown on: so many members of the rasp, or runes that wait; `None` from the end on.
    /// The next call is for the place after these, so what is shown can be read piece by piece.
    #[tactic(auto, using(crate::proofs::LayerLaws::shown_facts))]
    pub fn shown_at(&self, place: u32) -> Option<Shown<'_>>
        ensures { MatchOption result (shown_length self.now ≤ place) (λ x. (r : PartialText) → IsOver r self.now
            → (0 < length (shown_members r x))
            × (take (length (shown_members r x)) (drop place (shown_of (cells_over r self.now))) ≡ shown_members r x)) }
    {
        let (run, at) = blocks::shown_run(&self.runs, place)?;
        Some(runs::part_of(self.text.as_slice(), run, at))
    }
}

/// Puts the runes at the end of the text, which has room for them.
fn append(text: &mut Vec<char>, runes: &[char])
    requires { vec_len text.old + length runes.now ≤ vec_capacity text.old }
    ensures { text.new.items ≡ text.old.items ++ runes.now }
{
    if text.extend_from_slice(runes).is_err() {
        unreachable!();
    }
}
