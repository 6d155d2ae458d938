//! `Piece`: the text of a loaded section.

ghost use Rattle.std.specs.Prelude.{◌≡◌, ◌≤◌, ◌+◌, ◌-◌, ◌++◌, ◌↔◌, length, map, Some, IsTrue, IsOk, IfOk, OnOk, OnErr, slice_get, take, drop, vec_capacity, vec_len, true, false};
ghost use Rattle.sam_runes.specs.Texts.{del, most_in_message, part};
ghost use Rattle.sam_rasp.specs.Counting.{reached};
ghost use Rattle.sam_rasp.specs.Pieces.{most_inside, runes_of, IsCounted, IsTallied};
ghost use Rattle.sam_rasp.specs.Tallies.{tally_of};

use crate::tally::{Measure, Tally};
use sam_runes::{MOST_IN_MESSAGE, insert_runes, remove_runes};
use std::alloc::{AllocError, Global};
use std::marker::Model;

/// How many runes a piece holds without a block of memory. With so many a section is as small as it can be.
const MOST_INSIDE: usize = 3;

/// How many runes a new block has room for at least, so that the next keys find some.
const LEAST_ROOM: usize = 10;

/// Runes in memory of their own, and their tally.
#[derive(Drop)]
struct Block {
    runes: Vec<char>,
    tally: Tally,
}

/// Where the runes of a piece stand. Each has their count first, so that it is read without a look into memory.
#[derive(Drop)]
enum Store {
    /// In the piece: so many, at the front of the array.
    Inside(u16, [char; MOST_INSIDE]),
    /// In a block of memory: so many, all that the block has.
    Outside(u16, Box<Block>),
}

/// The text of a loaded section: at most `MOST_IN_MESSAGE` runes. Up to three of them take no block of memory.
#[derive(Drop)]
pub struct Piece {
    /// What a block of memory comes from.
    alloc: Global,
    /// The runes: at most `MOST_IN_MESSAGE`.
    runes: Store,
}

impl Model for Piece {
    ghost use Rattle.std.specs.Prelude.{ℕ, List};
    ghost use Rattle.sam_rasp.specs.Pieces.{runes_of, IsCounted};

    ghost Value = { List ℕ };

    ghost view = { λ a. runes_of a.runes };

    ghost invariant = { λ a. IsCounted a.runes };
}

/// Writes the runes at `dest`. They take the place of as many that stood there.
fn put(items: &mut [char], dest: usize, runes: &[char])
    requires within { dest + length runes.now ≤ length items.old }
    ensures len { length items.new ≡ length items.old }
    ensures done { take (dest + length runes.now) items.new ≡ take dest items.old ++ runes.now }
{
    let part = &mut items[dest..dest + runes.len()];
    part.copy_from_slice(runes);
}

/// Returns the runes of three texts, one after another, without a block of memory.
fn inside(front: &[char], middle: &[char], back: &[char]) -> Store
    requires { length front.now + length middle.now + length back.now ≤ most_inside }
    ensures runes { runes_of result ≡ front.now ++ middle.now ++ back.now }
    ensures counted { IsCounted result }
{
    let mut runes = ['\0'; MOST_INSIDE];
    let p = front.len();
    let q = p + middle.len();
    put(&mut runes, 0, front);
    put(&mut runes, p, middle);
    put(&mut runes, q, back);
    Store::Inside((q + back.len()) as u16, runes)
}

/// Returns these runes, of this tally, in a block of memory. The only error is out of memory.
fn in_block(alloc: Global, runes: Vec<char>, tally: Tally) -> Result<Store, AllocError>
    requires limit { vec_len runes ≤ most_in_message }
    requires tally { tally ≡ tally_of (map Some runes.items) }
    ensures { IfOk result (λ a. IsCounted a × (runes_of a ≡ runes.items)) }
{
    let count = runes.len() as u16;
    let block = Box::new(alloc, Block { runes, tally })?;
    Ok(Store::Outside(count, block))
}

/// Returns the runes of three texts, one after another, in a block of memory. The only error is out of memory.
fn outside(
    alloc: Global,
    front: &[char],
    middle: &[char],
    back: &[char],
) -> Result<Store, AllocError>
    requires { length front.now + length middle.now + length back.now ≤ most_in_message }
    ensures { IfOk result (λ a. IsCounted a × (runes_of a ≡ front.now ++ middle.now ++ back.now)) }
{
    let count = front.len() + middle.len() + back.len();
    let mut own = Vec::with_capacity(alloc, count.max(LEAST_ROOM))?;
    own.extend_from_slice(front)?;
    own.extend_from_slice(middle)?;
    own.extend_from_slice(back)?;
    let tally = Tally::of(own.as_slice());
    in_block(alloc, own, tally)
}

/// Returns the runes of three texts, one after another, in a block of memory if they are more than `MOST_INSIDE`. The only error is out of
/// memory.
fn joined(
    alloc: Global,
    front: &[char],
    middle: &[char],
    back: &[char],
) -> Result<Store, AllocError>
    requires { length front.now + length middle.now + length back.now ≤ most_in_message }
    ensures runes { IfOk result (λ a. IsCounted a × (runes_of a ≡ front.now ++ middle.now ++ back.now)) }
    ensures few { length front.now + length middle.now + length back.now ≤ most_inside → IsOk result }
{
    if front.len() + middle.len() + back.len() > MOST_INSIDE {
        return outside(alloc, front, middle, back);
    }
    Ok(inside(front, middle, back))
}

/// Puts `more` at the end of `runes`, which has room for it, so no memory is asked for.
fn put_within(runes: &mut Vec<char>, more: &[char])
    requires room { vec_len runes.old + length more.now ≤ vec_capacity runes.old }
    ensures items { runes.new.items ≡ runes.old.items ++ more.now }
{
    if runes.extend_from_slice(more).is_err() {
        unreachable!();
    }
}

impl Block {
    /// Puts `more` at the end. There is room for it, so no memory is asked for.
    fn append(&mut self, more: &[char])
        requires tallied { IsTallied self.old }
        requires limit { vec_len self.old.runes + length more.now ≤ most_in_message }
        requires room { vec_len self.old.runes + length more.now ≤ vec_capacity self.old.runes }
        ensures runes { self.new.runes.items ≡ self.old.runes.items ++ more.now }
        ensures tallied { IsTallied self.new }
    {
        put_within(&mut self.runes, more);
        self.tally = self.tally.plus(Tally::of(more));
    }

    /// As `Piece::replace`.
    fn replace(&mut self, p: usize, q: usize, runes: &[char]) -> Result<(), AllocError>
        requires tallied { IsTallied self.old }
        requires ascending { p ≤ q }
        requires within { q ≤ vec_len self.old.runes }
        requires most { vec_len self.old.runes + length runes.now ≤ most_in_message + (q - p) }
        ensures ok { OnOk result (self.new.runes.items ≡ take p self.old.runes.items ++ runes.now ++ drop q self.old.runes.items) }
        ensures err { OnErr result (self.new.runes.items ≡ self.old.runes.items) }
        ensures tallied { IsTallied self.new }
    {
        let gone = Tally::of(&self.runes[p..q]);
        insert_runes(&mut self.runes, q, runes)?;
        remove_runes(&mut self.runes, p, q);
        self.tally = self.tally.minus(gone).plus(Tally::of(runes));
        Ok(())
    }

    /// As `Piece::cut`.
    fn cut(&mut self, p: usize, q: usize)
        requires tallied { IsTallied self.old }
        requires ascending { p ≤ q }
        requires within { q ≤ vec_len self.old.runes }
        ensures cut { self.new.runes.items ≡ del self.old.runes.items p q }
        ensures tallied { IsTallied self.new }
    {
        let gone = Tally::of(&self.runes[p..q]);
        remove_runes(&mut self.runes, p, q);
        self.tally = self.tally.minus(gone);
    }
}

impl Store {
    /// As `Piece::len`.
    fn len(&self) -> usize
        requires { IsCounted self.now }
        ensures len { result ≡ length (runes_of self.now) }
        ensures limit { result ≤ most_in_message }
    {
        match self {
            Store::Inside(count, _) => *count as usize,
            Store::Outside(count, _) => *count as usize,
        }
    }

    /// As `Piece::as_slice`.
    fn as_slice(&self) -> &[char]
        requires { IsCounted self.now }
        ensures { result.now ≡ runes_of self.now }
    {
        match self {
            Store::Inside(count, runes) => &runes[..*count as usize],
            Store::Outside(_, block) => block.runes.as_slice(),
        }
    }

    /// As `Piece::append`.
    fn append(&mut self, more: &[char]) -> bool
        requires { IsCounted self.old }
        ensures done { result ≡ true → runes_of self.new ≡ runes_of self.old ++ more.now }
        ensures refused { result ≡ false → self.new ≡ self.old }
        ensures counted { IsCounted self.new }
    {
        match self {
            Store::Inside(count, _) => {
                let len = *count as usize;
                if more.len() > MOST_INSIDE - len {
                    return false;
                }
                let new = inside(self.as_slice(), more, &[]);
                *self = new;
                true
            }
            Store::Outside(count, block) => {
                let len = *count as usize;
                if more.len() > MOST_IN_MESSAGE - len || more.len() > block.runes.capacity() - len {
                    return false;
                }
                block.append(more);
                *count = block.runes.len() as u16;
                true
            }
        }
    }

    /// As `Piece::replace`.
    fn replace(
        &mut self,
        alloc: Global,
        p: usize,
        q: usize,
        runes: &[char],
    ) -> Result<(), AllocError>
        requires counted { IsCounted self.old }
        requires ascending { p ≤ q }
        requires within { q ≤ length (runes_of self.old) }
        requires most { length (runes_of self.old) + length runes.now ≤ most_in_message + (q - p) }
        ensures ok { OnOk result (runes_of self.new ≡ take p (runes_of self.old) ++ runes.now ++ drop q (runes_of self.old)) }
        ensures err { OnErr result (runes_of self.new ≡ runes_of self.old) }
        ensures counted { IsCounted self.new }
    {
        match self {
            Store::Inside(_, _) => {
                let held = self.as_slice();
                let new = joined(alloc, &held[..p], runes, &held[q..])?;
                *self = new;
            }
            Store::Outside(count, block) => {
                block.replace(p, q, runes)?;
                *count = block.runes.len() as u16;
            }
        }
        Ok(())
    }

    /// As `Piece::cut`.
    fn cut(&mut self, p: usize, q: usize)
        requires counted { IsCounted self.old }
        requires ascending { p ≤ q }
        requires within { q ≤ length (runes_of self.old) }
        ensures cut { runes_of self.new ≡ del (runes_of self.old) p q }
        ensures counted { IsCounted self.new }
    {
        match self {
            Store::Inside(_, _) => {
                let held = self.as_slice();
                let new = inside(&held[..p], &[], &held[q..]);
                *self = new;
            }
            Store::Outside(count, block) => {
                block.cut(p, q);
                *count = block.runes.len() as u16;
            }
        }
    }

    /// As `Piece::tally`.
    fn tally(&self) -> Tally
        requires { IsCounted self.now }
        ensures { result ≡ tally_of (map Some (runes_of self.now)) }
    {
        match self {
            Store::Inside(_, _) => Tally::of(self.as_slice()),
            Store::Outside(_, block) => block.tally,
        }
    }
}

impl Piece {
    /// Returns a piece of these runes: at most `MOST_IN_MESSAGE`. The only error is out of memory, which up to three runes never meet.
    pub fn of(alloc: Global, runes: &[char]) -> Result<Piece, AllocError>
        requires { length runes.now ≤ most_in_message }
        ensures runes { IfOk result (λ a. a ≡ runes.now) }
        ensures few { length runes.now ≤ most_inside → IsOk result }
    {
        Ok(Piece {
            alloc,
            runes: joined(alloc, &[], runes, &[])?,
        })
    }

    /// As `of`, where the tally of the runes is known.
    pub(crate) fn with_tally(
        alloc: Global,
        runes: &[char],
        tally: Tally,
    ) -> Result<Piece, AllocError>
        requires limit { length runes.now ≤ most_in_message }
        requires tally { tally ≡ tally_of (map Some runes.now) }
        ensures { IfOk result (λ a. a ≡ runes.now) }
    {
        if runes.len() <= MOST_INSIDE {
            return Piece::of(alloc, runes);
        }
        let mut own = Vec::with_capacity(alloc, runes.len().max(LEAST_ROOM))?;
        own.extend_from_slice(runes)?;
        Ok(Piece {
            alloc,
            runes: in_block(alloc, own, tally)?,
        })
    }

    /// Returns how many runes it has: at most `MOST_IN_MESSAGE`.
    pub fn len(&self) -> usize
        ensures len { result ≡ length self.now }
        ensures limit { length self.now ≤ most_in_message }
    {
        self.runes.len()
    }

    /// Returns the runes.
    pub fn as_slice(&self) -> &[char]
        ensures { result.now ≡ self.now }
    {
        self.runes.as_slice()
    }

    /// Returns its tally. The cost is constant.
    pub fn tally(&self) -> Tally
        ensures { result ≡ tally_of (map Some self.now) }
    {
        self.runes.tally()
    }

    /// Returns the tally of its runes from place `p` to place `q`. The cost is linear in these, or constant for all of them.
    #[tactic(auto, using(crate::proofs::Tallies::within_facts))]
    pub(crate) fn tally_within(&self, p: usize, q: usize) -> Tally
        requires ascending { p ≤ q }
        requires within { q ≤ length self.now }
        ensures { result ≡ tally_of (map Some (part self.now p q)) }
    {
        if q - p == self.len() {
            return self.tally();
        }
        Tally::of(&self.as_slice()[p..q])
    }

    /// Returns how many of its first runes take at most `count`. The cost is linear in these.
    #[tactic(auto, using(crate::proofs::Tallies::reached_facts))]
    pub(crate) fn reached(&self, measure: Measure, count: u32) -> usize
        ensures count { result ≡ reached measure (map Some self.now) count }
        ensures limit { result ≤ length self.now }
        ensures most { result ≤ most_in_message }
    {
        let runes = self.runes.as_slice();
        let len = self.runes.len();
        let mut left = count;
        let mut place = 0;
        while place < len {
            let taken = measure.of(runes[place]);
            if taken > left {
                return place;
            }
            left -= taken;
            place += 1;
        }
        place
    }

    /// Returns the rune at `place`, or `None` from the end on.
    pub fn get(&self, place: usize) -> Option<char>
        ensures { result ≡ slice_get self.now place }
    {
        self.runes.as_slice().get(place).copied()
    }

    /// Returns whether its runes are exactly `runes`.
    pub fn is(&self, runes: &[char]) -> bool
        ensures { IsTrue result ↔ (self.now ≡ runes.now) }
    {
        self.runes.as_slice() == runes
    }

    /// Puts `runes` at the end if there is room for them, and it has at most `MOST_IN_MESSAGE` then. Returns whether it did; if not,
    /// nothing is changed. No memory is asked for.
    pub fn append(&mut self, runes: &[char]) -> bool
        ensures done { result ≡ true → self.new ≡ self.old ++ runes.now }
        ensures refused { result ≡ false → self.new ≡ self.old }
        ensures limit { (length self.old ≤ length self.new) × (length self.new ≤ most_in_message) }
    {
        self.runes.append(runes)
    }

    /// Puts `runes` in the place of those from place `p` to place `q`. The caller makes sure that it has at most `MOST_IN_MESSAGE` then.
    /// The only error is out of memory; the piece is then unchanged.
    pub fn replace(&mut self, p: usize, q: usize, runes: &[char]) -> Result<(), AllocError>
        requires ascending { p ≤ q }
        requires within { q ≤ length self.old }
        requires most { length self.old + length runes.now ≤ most_in_message + (q - p) }
        ensures ok { OnOk result (self.new ≡ take p self.old ++ runes.now ++ drop q self.old) }
        ensures err { OnErr result (self.new ≡ self.old) }
    {
        self.runes.replace(self.alloc, p, q, runes)
    }

    /// Takes out the runes from place `p` to place `q`.
    pub fn cut(&mut self, p: usize, q: usize)
        requires ascending { p ≤ q }
        requires within { q ≤ length self.old }
        ensures { self.new ≡ del self.old p q }
    {
        self.runes.cut(p, q);
    }

    /// Takes out the runes from place `p` on, and returns them. The only error is out of memory; the piece is then unchanged.
    pub fn split_off(&mut self, alloc: Global, p: usize) -> Result<Piece, AllocError>
        requires within { p ≤ length self.old }
        ensures ok { IfOk result (λ a. (self.new ≡ take p self.old) × (a ≡ drop p self.old)) }
        ensures err { OnErr result (self.new ≡ self.old) }
    {
        let back = Piece::of(alloc, &self.runes.as_slice()[p..])?;
        let len = self.runes.len();
        self.runes.cut(p, len);
        Ok(back)
    }
}
