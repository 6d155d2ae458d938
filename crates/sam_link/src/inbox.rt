//! What came and was not taken yet.

ghost use Rattle.std.specs.Prelude.{◌≡◌, ◌≤◌, ◌<◌, ◌+◌, ◌-◌, ◌++◌, [], OnOk, OnErr, drop, length, min, slice_index, take};
ghost use Rattle.std.specs.Prelude.{◌⊎◌, true, false, vec_capacity};
ghost use Rattle.sam_link.specs.Inbox.{GivesNote, Finds, IsRow, LiesIn, RestStays, TakesAll, TakesIn, TakesPlaces, items_among, lying};
ghost use Rattle.sam_link.specs.Inbox.{made_ready, note_in, nothing, parted, ready, stretch};

use crate::packet::{DATA, NOTE};
use crate::reading::head_of;
use std::alloc::{AllocError, Global};
use std::marker::Model;
use std::mem;

/// Where a packet's data lies in a piece.
#[repr(C)]
#[derive(Clone, Copy, Debug, PartialEq, Eq, Drop)]
pub struct Place {
    /// How many bytes of the piece stand before it.
    pub start: usize,
    /// How many bytes it has.
    pub len: usize,
}

/// Where what came and was not taken yet lies in some bytes.
#[derive(Clone, Copy, Drop)]
pub struct Marks {
    /// Where the rest of the data begins that was begun.
    gone: usize,
    /// Where it ends, and the packets begin.
    next: usize,
    /// Where these end, and what is held begins.
    whole: usize,
    /// How many packets there are, those counted that are not for the program.
    count: usize,
}

/// The bytes that came, up to those that were taken. Contracts see those that are no whole packet yet (`held`) and what waits for the
/// program: the rest of the data whose first bytes were taken (`part`), and the data and notes after it (`packets`).
///
/// The bytes stay where they came until they are taken: packets are found by their heads. What was taken leaves memory once it is half of
/// all: that moves at most one byte for each that was taken.
#[derive(Drop)]
pub struct Inbox {
    bytes: Vec<u8>,
    marks: Marks,
}

impl Model for Inbox {
    ghost use Rattle.sam_link.specs.Inbox.{Arrived, IsInbox, arrived};

    ghost Value = { Arrived };

    ghost view = { λ a. arrived a.bytes.items a.marks.gone a.marks.next a.marks.whole a.marks.count };

    ghost invariant = { λ a. IsInbox a.bytes.items a.marks.gone a.marks.next a.marks.whole a.marks.count };
}

/// Of so many packets that take so many bytes at the front of the bytes, finds the first that is for the program. Returns where it stands,
/// and how many packets there are from it on: none if there is no such packet.
fn pass_others(row: &[u8], count: usize, len: usize) -> (usize, usize)
    requires { IsRow row.now count len }
    ensures inside { result.0 ≤ len }
    ensures row { IsRow (drop result.0 row.now) result.1 (len - result.0) }
    ensures items { items_among result.1 (drop result.0 row.now) ≡ items_among count row.now }
    ensures first { 0 < result.1 → slice_index (drop result.0 row.now) 0 ≤ 2 }
{
    let mut at = 0;
    let mut left = count;
    while left > 0 {
        let (_, rest) = row.split_at(at);
        let head = head_of(rest);
        if head.kind <= NOTE {
            break;
        }
        at += 3 + head.len;
        left -= 1;
    }
    (at, left)
}

/// Where the body of a packet stands in bytes.
#[derive(Clone, Copy, Drop)]
struct Body {
    /// Where it begins.
    start: usize,
    /// How many bytes it has.
    len: usize,
    /// How many packets stand behind it.
    left: usize,
}

/// The first packet for the program.
#[derive(Clone, Copy, Drop)]
enum Found {
    Nothing,
    Data(Body),
    Note(Body),
}

/// Finds the first packet for the program among so many that take so many bytes at the front of the bytes.
fn first_item(row: &[u8], count: usize, len: usize) -> Found
    requires { IsRow row.now count len }
    ensures { Finds row.now count len result }
{
    let (at, left) = pass_others(row, count, len);
    if left == 0 {
        return Found::Nothing;
    }
    let (_, rest) = row.split_at(at);
    let head = head_of(rest);
    let body = Body {
        start: at + 3,
        len: head.len,
        left: left - 1,
    };
    if head.kind == DATA {
        Found::Data(body)
    } else {
        Found::Note(body)
    }
}

/// Copies so many bytes, from there on, to the front of the buffer.
fn copy_part(bytes: &[u8], start: usize, len: usize, into: &mut [u8])
    requires inside { start + len ≤ length bytes.now }
    requires room { len ≤ length into.old }
    ensures { into.new ≡ take len (drop start bytes.now) ++ drop len into.old }
{
    let end = start + len;
    into[..len].copy_from_slice(&bytes[start..end]);
}

impl Marks {
    /// So many packets, which take so many bytes, stand at the front of some bytes.
    pub fn of_row(count: usize, len: usize) -> Marks
        ensures { result ≡ record { gone = 0; next = 0; whole = len; count = count } }
    {
        Marks {
            gone: 0,
            next: 0,
            whole: len,
            count,
        }
    }

    /// Passes packets that are first and not for the program.
    fn pass(&mut self, bytes: &[u8])
        requires { LiesIn self.old bytes.now }
        ensures lies { LiesIn self.new bytes.now }
        ensures same { lying self.new bytes.now ≡ lying self.old bytes.now }
    {
        if self.gone == self.next {
            let (_, row) = bytes.split_at(self.next);
            let (at, left) = pass_others(row, self.count, self.whole - self.next);
            self.next += at;
            self.gone = self.next;
            self.count = left;
        }
    }

    /// Begins the next packet, if it is data and all of the one before was taken.
    fn make_ready(&mut self, bytes: &[u8])
        requires { LiesIn self.old bytes.now }
        ensures lies { LiesIn self.new bytes.now }
        ensures ready { lying self.new bytes.now ≡ made_ready (lying self.old bytes.now) }
    {
        if self.gone < self.next {
            return;
        }
        let (_, row) = bytes.split_at(self.next);
        match first_item(row, self.count, self.whole - self.next) {
            Found::Data(body) => {
                self.gone = self.next + body.start;
                self.next = self.gone + body.len;
                self.count = body.left;
            }
            Found::Note(_) => {}
            Found::Nothing => {}
        }
    }

    /// Moves the next bytes of what was begun into the buffer.
    fn take_part(&mut self, bytes: &[u8], into: &mut [u8]) -> usize
        requires { LiesIn self.old bytes.now }
        ensures lies { LiesIn self.new bytes.now }
        ensures count { result ≡ min (length (lying self.old bytes.now).waiting.part) (length into.old) }
        ensures bytes { into.new ≡ take result (lying self.old bytes.now).waiting.part ++ drop result into.old }
        ensures rest { lying self.new bytes.now ≡ parted (lying self.old bytes.now) result }
    {
        let count = (self.next - self.gone).min(into.len());
        copy_part(bytes, self.gone, count, into);
        self.gone += count;
        count
    }

    /// Moves the next bytes into the buffer, as many as one packet has left and have room there, and returns how many. The rest of the
    /// buffer stays as it was. It is 0 where a note is next, or nothing.
    fn take_next(&mut self, bytes: &[u8], into: &mut [u8]) -> usize
        requires { LiesIn self.old bytes.now }
        ensures lies { LiesIn self.new bytes.now }
        ensures taken { TakesIn (lying self.old bytes.now).waiting into.old result into.new (lying self.new bytes.now).waiting }
        ensures held { (lying self.new bytes.now).held ≡ (lying self.old bytes.now).held }
    {
        self.pass(bytes);
        self.make_ready(bytes);
        self.take_part(bytes, into)
    }

    /// Moves the next bytes into the buffer from there on, as `take_next` does.
    fn take_behind(&mut self, bytes: &[u8], into: &mut [u8], at: usize) -> usize
        requires lies { LiesIn self.old bytes.now }
        requires inside { at ≤ length into.old }
        ensures lies { LiesIn self.new bytes.now }
        ensures taken { TakesIn (lying self.old bytes.now).waiting (drop at into.old) result (drop at into.new)
            (lying self.new bytes.now).waiting }
        ensures held { (lying self.new bytes.now).held ≡ (lying self.old bytes.now).held }
        ensures front { take at into.new ≡ take at into.old }
    {
        let (_, room) = into.split_at_mut(at);
        self.take_next(bytes, room)
    }

    /// Moves the next bytes into the buffer until there is no room, or a note is next, or nothing. Returns how many.
    pub fn take_all(&mut self, bytes: &[u8], into: &mut [u8]) -> usize
        requires { LiesIn self.old bytes.now }
        ensures lies { LiesIn self.new bytes.now }
        ensures taken { TakesAll (lying self.old bytes.now).waiting into.old result into.new (lying self.new bytes.now).waiting }
        ensures held { (lying self.new bytes.now).held ≡ (lying self.old bytes.now).held }
    {
        let mut count = 0;
        'packets: loop {
            let more = self.take_behind(bytes, into, count);
            if more == 0 {
                return count;
            }
            count += more;
        }
    }

    /// Takes all that is left of what was begun, and returns where it lies.
    fn take_rest(&mut self, bytes: &[u8]) -> Place
        requires { LiesIn self.old bytes.now }
        ensures lies { LiesIn self.new bytes.now }
        ensures inside { result.start + result.len ≤ length bytes.now }
        ensures body { stretch bytes.now result ≡ (lying self.old bytes.now).waiting.part }
        ensures rest { lying self.new bytes.now ≡ parted (lying self.old bytes.now) result.len }
    {
        let place = Place {
            start: self.gone,
            len: self.next - self.gone,
        };
        self.gone = self.next;
        place
    }

    /// Takes the data that is next, all that one packet has left, and returns where it lies. There are no bytes of it where a note is next,
    /// or nothing.
    fn take_whole(&mut self, bytes: &[u8]) -> Place
        requires { LiesIn self.old bytes.now }
        ensures lies { LiesIn self.new bytes.now }
        ensures inside { result.start + result.len ≤ length bytes.now }
        ensures body { stretch bytes.now result ≡ (ready (lying self.old bytes.now).waiting).part }
        ensures rest { lying self.new bytes.now ≡ parted (made_ready (lying self.old bytes.now)) result.len }
    {
        self.pass(bytes);
        self.make_ready(bytes);
        self.take_rest(bytes)
    }

    /// Takes the data that is next, one packet after the other, until there is no room in places, or a note is next, or nothing. Returns
    /// how many places it wrote, which say where the data lies.
    pub fn take_places(&mut self, bytes: &[u8], places: &mut [Place]) -> usize
        requires { LiesIn self.old bytes.now }
        ensures lies { LiesIn self.new bytes.now }
        ensures inside { result ≤ length places.old }
        ensures rest { places.new ≡ take result places.new ++ drop result places.old }
        ensures taken { TakesPlaces bytes.now (lying self.old bytes.now).waiting (take result places.new)
            (lying self.new bytes.now).waiting }
        ensures held { (lying self.new bytes.now).held ≡ (lying self.old bytes.now).held }
        ensures end { (result ≡ length places.old) ⊎ ((ready (lying self.new bytes.now).waiting).part ≡ []) }
    {
        let mut count = 0;
        'packets: loop {
            if count == places.len() {
                return count;
            }
            let mut behind = *self;
            let place = behind.take_whole(bytes);
            if place.len == 0 {
                return count;
            }
            *self = behind;
            places[count] = place;
            count += 1;
        }
    }

    /// Returns whether nothing waits, and nothing is held.
    fn is_empty(&self, bytes: &[u8]) -> bool
        requires { LiesIn self.now bytes.now }
        ensures empty { result ≡ true → lying self.now bytes.now ≡ nothing }
        ensures some { result ≡ false → lying self.now bytes.now ≡ nothing → ⊥ }
    {
        if self.gone < self.next {
            return false;
        }
        if self.whole < bytes.len() {
            return false;
        }
        let (_, row) = bytes.split_at(self.next);
        match first_item(row, self.count, self.whole - self.next) {
            Found::Nothing => true,
            Found::Data(_) => false,
            Found::Note(_) => false,
        }
    }
}

impl Inbox {
    /// Nothing came. It takes no memory.
    pub fn new(alloc: Global) -> Inbox
        ensures { result ≡ record { held = []; waiting = record { part = []; packets = [] } } }
    {
        Inbox {
            bytes: Vec::new(alloc),
            marks: Marks::of_row(0, 0),
        }
    }

    /// Passes packets that are first and not for the program.
    fn pass(&mut self)
        ensures { self.new ≡ self.old }
    {
        self.marks.pass(self.bytes.as_slice());
    }

    /// Forgets in memory what was taken, once it is half of all.
    fn compact(&mut self)
        ensures { self.new ≡ self.old }
    {
        let gone = self.marks.gone;
        let rest = self.bytes.len() - gone;
        if gone >= rest && gone > 0 {
            self.bytes.copy_within(gone.., 0);
            self.bytes.truncate(rest);
            self.marks.next -= gone;
            self.marks.whole -= gone;
            self.marks.gone = 0;
        }
    }

    /// Puts the piece behind what is held. The only error is out of memory, after which all is as before.
    pub fn hold(&mut self, piece: &[u8]) -> Result<(), AllocError>
        ensures held { OnOk result (self.new ≡ record self.old { held = self.old.held ++ piece.now }) }
        ensures unchanged { OnErr result (self.new ≡ self.old) }
    {
        self.pass();
        self.compact();
        self.bytes.extend_from_slice(piece)
    }

    /// Lends the bytes that are no whole packet yet.
    pub fn held(&self) -> &[u8]
        ensures { result.now ≡ self.now.held }
    {
        &self.bytes[self.marks.whole..]
    }

    /// Holds the first bytes alone of those that are held, so many.
    pub fn cut_held(&mut self, len: usize)
        requires { len ≤ length self.old.held }
        ensures { self.new ≡ record self.old { held = take len self.old.held } }
    {
        self.bytes.truncate(self.marks.whole + len);
    }

    /// The first bytes that are held are so many whole packets, which now wait.
    pub fn take_whole(&mut self, count: usize, len: usize)
        requires { IsRow self.old.held count len }
        ensures { self.new ≡ record {
          held = drop len self.old.held;
          waiting = record self.old.waiting { packets = self.old.waiting.packets ++ items_among count self.old.held };
        } }
    {
        self.marks.whole += len;
        self.marks.count += count;
    }

    /// Moves the next bytes into the buffer, as many as one packet has left and have room there, and returns how many. The rest of the
    /// buffer stays as it was. It is 0 where a note is next, or nothing.
    pub fn take_into(&mut self, into: &mut [u8]) -> usize
        ensures taken { TakesIn self.old.waiting into.old result into.new self.new.waiting }
        ensures held { self.new.held ≡ self.old.held }
    {
        self.marks.take_next(self.bytes.as_slice(), into)
    }

    /// Moves the next bytes into the buffer until there is no room, or a note is next, or nothing. Returns how many.
    pub fn take_all(&mut self, into: &mut [u8]) -> usize
        ensures taken { TakesAll self.old.waiting into.old result into.new self.new.waiting }
        ensures held { self.new.held ≡ self.old.held }
    {
        self.marks.take_all(self.bytes.as_slice(), into)
    }

    /// Returns whether nothing waits, and nothing is held.
    pub fn is_empty(&mut self) -> bool
        ensures same { self.new ≡ self.old }
        ensures empty { result ≡ true → self.old ≡ nothing }
        ensures some { result ≡ false → self.old ≡ nothing → ⊥ }
    {
        self.pass();
        self.marks.is_empty(self.bytes.as_slice())
    }

    /// Hands out the memory, and keeps nothing of what came. It takes no memory.
    pub fn take_room(&mut self) -> Vec<u8>
        ensures room { result.items ≡ [] }
        ensures empty { self.new ≡ nothing }
    {
        let none = Vec::new(*self.bytes.allocator());
        let mut room = mem::replace(&mut self.bytes, none);
        room.clear();
        self.marks = Marks::of_row(0, 0);
        room
    }

    /// Puts what was not taken of these bytes into the memory, which has room for them.
    pub fn of_rest(room: Vec<u8>, bytes: &[u8], marks: Marks) -> Inbox
        requires empty { room.items ≡ [] }
        requires room { length bytes.now ≤ vec_capacity room }
        requires lies { LiesIn marks bytes.now }
        ensures { result ≡ lying marks bytes.now }
    {
        let mut kept = room;
        let gone = marks.gone;
        let _ = kept.extend_from_slice(&bytes[gone..]);
        Inbox {
            bytes: kept,
            marks: Marks {
                gone: 0,
                next: marks.next - gone,
                whole: marks.whole - gone,
                count: marks.count,
            },
        }
    }

    /// Moves the note that is next into the buffer, which has room for any, and returns its length. The rest of the buffer stays as it was.
    /// There is none where bytes before it are not taken yet.
    pub fn next_note(&mut self, into: &mut [u8]) -> Option<usize>
        requires { 4096 ≤ length into.old }
        ensures note { GivesNote self.old.waiting (note_in result into.new) self.new.waiting }
        ensures rest { RestStays result into.old into.new }
        ensures held { self.new.held ≡ self.old.held }
    {
        self.pass();
        let marks = self.marks;
        if marks.gone < marks.next {
            return None;
        }
        let (_, row) = self.bytes.split_at(marks.next);
        match first_item(row, marks.count, marks.whole - marks.next) {
            Found::Note(body) => {
                let start = marks.next + body.start;
                copy_part(self.bytes.as_slice(), start, body.len, into);
                self.marks.gone = start + body.len;
                self.marks.next = start + body.len;
                self.marks.count = body.left;
                Some(body.len)
            }
            Found::Data(_) => None,
            Found::Nothing => None,
        }
    }
}
