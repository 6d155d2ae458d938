//! One end of a link.

ghost use Rattle.std.specs.Prelude.{◌≡◌, ◌≤◌, ◌<◌, ◌^◌, ◌+◌, ◌-◌, ◌++◌, [], OnOk, OnErr, drop, length, min, take};
ghost use Rattle.std.specs.Prelude.{◌&&◌, ◌==◌, true, if◌then◌else◌, IfOk, vec_capacity};
ghost use Rattle.sam_link.specs.End.{Calls, TakesOut, broken, ended, fresh, is_up, may_send, same_id, says};
ghost use Rattle.sam_link.specs.declared.hello.What.TheVariants as What;
ghost use Rattle.sam_link.specs.declared.phase.Phase.TheVariants as Phase;
ghost use Rattle.sam_link.specs.Feeding.{Feeds, FeedsInto, FeedsPlaces, IsFault, IsRefused, MayFeed, PutsNote, TakesSplit};
ghost use Rattle.sam_link.specs.Feeding.{ended_for, has_come, is_open, read_to, said_to};
ghost use Rattle.sam_link.specs.Inbox.{GivesNote, IsRow, RestStays, note_in, nothing, ready};
ghost use Rattle.sam_link.specs.Keeping.{MayHave, Puts, begun, may_have};
ghost use Rattle.sam_mesg.specs.Spelling.{eight, frame};
ghost use Rattle.sam_link.specs.Packets.{IsSplit};
ghost use Rattle.sam_link.specs.Putting.{data_stream};

use crate::fault::{CallFault, FeedFault, NotOpen, NoteFault};
use crate::feeding::tell;
use crate::hello::{HELLO_BYTES, Hello, Id, What};
use crate::inbox::{Inbox, Marks, Place};
use crate::keeping::{Kept, PutFault};
use crate::packet::{ACKNOWLEDGEMENT, ASK, MOST_BODY, NOTE};
use crate::phase::{Phase, Role};
use crate::reading::{Said, Split, split_packets};
use std::alloc::{AllocError, Global};
use std::marker::Model;

/// So many bytes may come before the other side is told. It has to exceed the 11 bytes of an acknowledgement, or two idle ends would answer
/// each other for ever.
const TELL_AFTER: u64 = 16_384;

/// One end of a link: a machine below any transport, which opens no connection and knows no clock. The program moves the bytes of the
/// newest connection between it and the transport.
#[derive(Drop)]
pub struct Link {
    role: Role,
    id: Id,
    attempt: u64,
    phase: Phase,
    is_known: bool,
    hello: [u8; HELLO_BYTES],
    /// How many bytes of the hello went.
    hello_gone: usize,
    kept: Kept,
    received: u64,
    told: u64,
    inbox: Inbox,
}

impl Model for Link {
    ghost use Rattle.std.specs.Prelude.{◌≡◌, ◌≤◌, drop, length};
    ghost use Rattle.sam_link.specs.End.{End};

    ghost Value = { End };

    ghost view = { λ a. record {
      role = a.role;
      id = a.id;
      attempt = a.attempt;
      phase = a.phase;
      is_known = a.is_known;
      hello = drop a.hello_gone a.hello;
      keeps = a.kept;
      received = a.received;
      told = a.told;
      held = a.inbox.held;
      waiting = a.inbox.waiting;
    } };

    ghost invariant = { λ a. (a.hello_gone ≤ 42) × (length a.hello ≡ 42) × (a.told ≤ a.received) };
}

/// How far an end has come.
#[derive(Clone, Copy, Drop)]
pub struct Counts {
    /// The number of its newest connection.
    pub attempt: u64,
    /// How many bytes it has put.
    pub put: u64,
    /// How many bytes have come to it.
    pub received: u64,
}

/// Returns whether the ids are equal.
pub fn same_id(a: Id, b: Id) -> bool
    ensures { result ≡ same_id a b }
{
    a.first == b.first && a.last == b.last
}

impl Link {
    /// Makes an end with this name of the session, before its first connection. It takes no memory.
    pub fn new(alloc: Global, role: Role, id: Id) -> Link
        ensures { result ≡ fresh role id }
    {
        let counts = Counts {
            attempt: 0,
            put: 0,
            received: 0,
        };
        Link::with_counts(alloc, role, id, counts)
    }

    /// Makes an end that has come so far, between two connections, and of which the other side has got all: for tests of the last counts,
    /// to which no session comes. It takes no memory.
    pub fn with_counts(alloc: Global, role: Role, id: Id, counts: Counts) -> Link
        ensures { result ≡ record (fresh role id) {
          attempt = counts.attempt;
          keeps = record { base = counts.put; kept = []; sent = 0 };
          received = counts.received;
          told = counts.received;
        } }
    {
        Link {
            role,
            id,
            attempt: counts.attempt,
            phase: Phase::Down,
            is_known: false,
            hello: [0; HELLO_BYTES],
            hello_gone: HELLO_BYTES,
            kept: Kept::after(alloc, counts.put),
            received: counts.received,
            told: counts.received,
            inbox: Inbox::new(alloc),
        }
    }

    /// A hello is to be sent on the newest connection.
    fn say(&mut self, what: What)
        ensures { self.new ≡ says self.old what }
    {
        let hello = Hello {
            what,
            id: self.id,
            attempt: self.attempt,
            received: self.received,
        };
        self.hello = hello.spell();
        self.hello_gone = 0;
        self.told = self.received;
    }

    /// The terminal makes another connection, and returns its number. The one before is over. `take_over` asks for a session of the texts
    /// of another, as long as no welcome has come. Errors, in this order: `WrongRole`, `CountFull`.
    pub fn call(&mut self, take_over: bool) -> Result<u64, CallFault>
        ensures { Calls self.old take_over result self.new }
    {
        match self.role {
            Role::Host => return Err(CallFault::WrongRole),
            Role::Terminal => {}
        }
        if self.attempt == u64::MAX {
            return Err(CallFault::CountFull);
        }
        let what = if self.is_known {
            What::Resume
        } else if take_over {
            What::TakeOver
        } else {
            What::Begin
        };
        self.attempt += 1;
        self.phase = Phase::Asking;
        self.kept.rewind();
        self.say(what);
        Ok(self.attempt)
    }

    /// Connection `attempt` is over, or broke. An older one changes nothing.
    pub fn broken(&mut self, attempt: u64)
        ensures { self.new ≡ broken self.old attempt }
    {
        if attempt == self.attempt {
            self.end();
        }
    }

    /// The newest connection is over.
    fn end(&mut self)
        ensures { self.new ≡ ended self.old }
    {
        self.phase = Phase::Down;
        self.hello_gone = HELLO_BYTES;
    }

    /// Puts bytes for the other side, all or none. Errors, in this order: `CountFull`, `OutOfMemory`.
    pub fn put(&mut self, bytes: &[u8]) -> Result<(), PutFault>
        ensures kept { Puts self.old.keeps (data_stream bytes.now) result self.new.keeps }
        ensures others { self.new ≡ record self.old { keeps = self.new.keeps } }
    {
        self.kept.put_data(bytes)
    }

    /// Puts a note for the other side, behind all that was put. Errors, in this order: `TooLong`, `CountFull`, `OutOfMemory`.
    pub fn put_note(&mut self, bytes: &[u8]) -> Result<(), NoteFault>
        ensures note { PutsNote self.old.keeps bytes.now result self.new.keeps }
        ensures others { self.new ≡ record self.old { keeps = self.new.keeps } }
    {
        if bytes.len() > MOST_BODY {
            return Err(NoteFault::TooLong);
        }
        match self.kept.put_packet(NOTE, bytes) {
            Ok(()) => Ok(()),
            Err(PutFault::CountFull) => Err(NoteFault::CountFull),
            Err(PutFault::OutOfMemory) => Err(NoteFault::OutOfMemory),
        }
    }

    /// Asks the other side to acknowledge now. Errors, in this order: `CountFull`, `OutOfMemory`.
    pub fn ask(&mut self) -> Result<(), PutFault>
        ensures asked { Puts self.old.keeps (frame 4 []) result self.new.keeps }
        ensures others { self.new ≡ record self.old { keeps = self.new.keeps } }
    {
        self.kept.put_packet(ASK, &[])
    }

    /// Tells the other side how many of its bytes have come. Errors, in this order: `CountFull`, `OutOfMemory`.
    pub fn acknowledge(&mut self) -> Result<(), PutFault>
        ensures put { Puts self.old.keeps (frame 3 (eight self.old.received)) result self.new.keeps }
        ensures told { OnOk result (self.new ≡ record self.old { keeps = self.new.keeps; told = self.old.received }) }
        ensures unchanged { OnErr result (self.new ≡ self.old) }
    {
        match self.put_count() {
            Ok(()) => {
                self.told = self.received;
                Ok(())
            }
            Err(fault) => Err(fault),
        }
    }

    /// Puts an acknowledgement of all that has come.
    fn put_count(&mut self) -> Result<(), PutFault>
        ensures put { Puts self.old.keeps (frame 3 (eight self.old.received)) result self.new.keeps }
        ensures others { self.new ≡ record self.old { keeps = self.new.keeps } }
    {
        self.kept
            .put_packet(ACKNOWLEDGEMENT, &self.received.to_be_bytes())
    }

    /// Returns whether connection `attempt` is the newest, and both sides have said hello.
    fn is_open(&self, attempt: u64) -> bool
        ensures { result ≡ (is_open self.now.phase && (attempt == self.now.attempt)) }
    {
        match self.phase {
            Phase::Down => false,
            Phase::Asking => false,
            Phase::Open => attempt == self.attempt,
        }
    }

    /// Takes what the packets say that come up to this count of all bytes. The only error is out of memory, after which all is as before.
    fn take_said(&mut self, said: Said, count: u64) -> Result<(), AllocError>
        requires told { self.old.told ≤ count }
        requires sent { said.top ≤ self.old.keeps.base + self.old.keeps.sent }
        ensures taken { OnOk result (self.new ≡ said_to self.old said count) }
        ensures unchanged { OnErr result (self.new ≡ self.old) }
    {
        let owes = said.asked || count - self.told >= TELL_AFTER;
        let did = tell(&mut self.kept, owes, count)?;
        self.kept.acknowledge(said.top);
        self.received = count;
        if did {
            self.told = count;
        }
        Ok(())
    }

    /// Takes the packets of what is held, up to this count of all bytes. The only error is out of memory, after which all is as before.
    fn take_packets(&mut self, split: &Split, count: u64) -> Result<(), AllocError>
        requires told { self.old.told ≤ count }
        requires read { IsRow self.old.held split.now.count split.now.len }
        requires sent { split.now.said.top ≤ self.old.keeps.base + self.old.keeps.sent }
        ensures taken { OnOk result (self.new ≡ read_to self.old split.now count) }
        ensures unchanged { OnErr result (self.new ≡ self.old) }
    {
        self.take_said(split.said, count)?;
        self.inbox.take_whole(split.count, split.len);
        Ok(())
    }

    /// Returns what is wrong with what was read of a piece, if anything is.
    fn fault_of(&self, split: &Split) -> Option<FeedFault>
        ensures { IsFault self.now split.now result }
    {
        if let Some(fault) = split.fault {
            return Some(FeedFault::Wrong(fault));
        }
        if self.kept.is_ahead(split.said.top) {
            return Some(FeedFault::AckAhead);
        }
        None
    }

    /// Takes what was read of a piece, which is held, up to this count of all bytes.
    fn take_split(&mut self, split: &Split, count: u64) -> Result<(), FeedFault>
        requires told { self.old.told ≤ count }
        requires split { IsSplit self.old.held split.now }
        ensures { TakesSplit self.old split.now count result self.new }
    {
        if let Some(fault) = self.fault_of(split) {
            return Err(fault);
        }
        match self.take_packets(split, count) {
            Ok(()) => Ok(()),
            Err(_) => Err(FeedFault::OutOfMemory),
        }
    }

    /// Returns why no piece of this length is taken on connection `attempt`, if none is.
    fn refusal_of_piece(&self, attempt: u64, piece: &[u8]) -> Option<FeedFault>
        ensures { IsRefused self.now attempt piece.now result }
    {
        if !self.is_open(attempt) {
            return Some(FeedFault::NotOpen);
        }
        if piece.len() as u64 > u64::MAX - self.received {
            return Some(FeedFault::CountFull);
        }
        None
    }

    /// Takes the next piece of the other side's stream on connection `attempt`: all of it, or nothing. It may begin and end anywhere in a
    /// packet.
    ///
    /// Errors: `NotOpen`, then `CountFull`; then `OutOfMemory`, after which the piece may be fed again; or `Wrong` or `AckAhead`, after
    /// which the connection is over. Nothing else has changed.
    pub fn feed(&mut self, attempt: u64, piece: &[u8]) -> Result<(), FeedFault>
        ensures { Feeds self.old attempt piece.now result self.new }
    {
        if let Some(fault) = self.refusal_of_piece(attempt, piece) {
            return Err(fault);
        }
        let before = self.inbox.held().len();
        if self.inbox.hold(piece).is_err() {
            return Err(FeedFault::OutOfMemory);
        }
        let split = split_packets(self.inbox.held());
        let count = self.received + piece.len() as u64;
        match self.take_split(&split, count) {
            Ok(()) => Ok(()),
            Err(fault) => {
                self.inbox.cut_held(before);
                self.end_for(fault);
                Err(fault)
            }
        }
    }

    /// The connection is over, where the fault is of the other side.
    fn end_for(&mut self, fault: FeedFault)
        ensures { self.new ≡ ended_for fault self.old }
    {
        match fault {
            FeedFault::Wrong(_) => self.end(),
            FeedFault::AckAhead => self.end(),
            FeedFault::NotOpen => {}
            FeedFault::CountFull => {}
            FeedFault::OutOfMemory => {}
        }
    }

    /// Takes the next piece as `feed` does, and then moves bytes into the buffer as `take_in` does, again and again, until there is no
    /// room, or a note is next, or nothing. Returns how many bytes it moved. The rest of the buffer stays as it was. In the laws of two
    /// ends it is those calls. Where nothing is left of the pieces before, the bytes go straight from the piece into the buffer.
    ///
    /// The errors are those of `feed`, and leave what it leaves, and the buffer as it was.
    pub fn feed_into(
        &mut self,
        attempt: u64,
        piece: &[u8],
        into: &mut [u8],
    ) -> Result<usize, FeedFault>
        ensures { FeedsInto self.old attempt piece.now into.old result into.new self.new }
    {
        if !self.inbox.is_empty() {
            return self.feed_then_take(attempt, piece, into);
        }
        if let Some(fault) = self.refusal_of_piece(attempt, piece) {
            return Err(fault);
        }
        self.pass_on(attempt, piece, into)
    }

    /// `feed`, and then `take_in` again and again.
    fn feed_then_take(
        &mut self,
        attempt: u64,
        piece: &[u8],
        into: &mut [u8],
    ) -> Result<usize, FeedFault>
        ensures { FeedsInto self.old attempt piece.now into.old result into.new self.new }
    {
        match self.feed(attempt, piece) {
            Ok(()) => Ok(self.inbox.take_all(into)),
            Err(fault) => Err(fault),
        }
    }

    /// Takes a piece, where nothing waits and nothing is held, straight into the buffer.
    fn pass_on(&mut self, attempt: u64, piece: &[u8], into: &mut [u8]) -> Result<usize, FeedFault>
        requires may { MayFeed self.old attempt piece.now }
        requires empty { has_come self.old ≡ nothing }
        ensures { FeedsInto self.old attempt piece.now into.old result into.new self.new }
    {
        let split = split_packets(piece);
        if let Some(fault) = self.fault_of(&split) {
            self.end_for(fault);
            return Err(fault);
        }
        let Ok(room) = self.make_room(piece, split.said) else {
            return Err(FeedFault::OutOfMemory);
        };
        let mut marks = Marks::of_row(split.count, split.len);
        let count = marks.take_all(piece, into);
        self.inbox = Inbox::of_rest(room, piece, marks);
        Ok(count)
    }

    /// Takes the next piece as `feed` does. Where nothing waited before, and nothing was held, it then takes the data that is next, whole
    /// packets, one after the other, until there is no room in `places`, or a note is next, or nothing; each place says where the data of
    /// one lies in the piece, in bytes, and has some. Returns how many places it wrote. The others stay as they were. Else it returns 0.
    /// `take_in` and `next_note` hand out what is left, as after `feed`.
    ///
    /// The errors are those of `feed`, and leave what it leaves, and the places as they were.
    pub fn feed_places(
        &mut self,
        attempt: u64,
        piece: &[u8],
        places: &mut [Place],
    ) -> Result<usize, FeedFault>
        ensures { FeedsPlaces self.old attempt piece.now places.old result places.new self.new }
    {
        if !self.inbox.is_empty() {
            return self.feed_alone(attempt, piece, places);
        }
        if let Some(fault) = self.refusal_of_piece(attempt, piece) {
            return Err(fault);
        }
        self.show_places(attempt, piece, places)
    }

    /// `feed`, where something waits or is held: no place is written.
    fn feed_alone(
        &mut self,
        attempt: u64,
        piece: &[u8],
        places: &mut [Place],
    ) -> Result<usize, FeedFault>
        requires { has_come self.old ≡ nothing → ⊥ }
        ensures { FeedsPlaces self.old attempt piece.now places.old result places.new self.new }
    {
        match self.feed(attempt, piece) {
            Ok(()) => Ok(0),
            Err(fault) => Err(fault),
        }
    }

    /// Takes a piece, where nothing waits and nothing is held, and says where its data lies.
    fn show_places(
        &mut self,
        attempt: u64,
        piece: &[u8],
        places: &mut [Place],
    ) -> Result<usize, FeedFault>
        requires may { MayFeed self.old attempt piece.now }
        requires empty { has_come self.old ≡ nothing }
        ensures { FeedsPlaces self.old attempt piece.now places.old result places.new self.new }
    {
        let split = split_packets(piece);
        if let Some(fault) = self.fault_of(&split) {
            self.end_for(fault);
            return Err(fault);
        }
        let Ok(room) = self.make_room(piece, split.said) else {
            return Err(FeedFault::OutOfMemory);
        };
        let mut marks = Marks::of_row(split.count, split.len);
        let count = marks.take_places(piece, places);
        self.inbox = Inbox::of_rest(room, piece, marks);
        Ok(count)
    }

    /// Takes what the packets of a piece say, and hands out memory that has room for all of it. The only error is out of memory, after
    /// which all is as before.
    fn make_room(&mut self, piece: &[u8], said: Said) -> Result<Vec<u8>, AllocError>
        requires count { self.old.received + length piece.now < 2 ^ 64 }
        requires sent { said.top ≤ self.old.keeps.base + self.old.keeps.sent }
        requires empty { has_come self.old ≡ nothing }
        ensures room { IfOk result (λ room. (room.items ≡ []) × (length piece.now ≤ vec_capacity room)) }
        ensures taken { OnOk result (self.new ≡ said_to self.old said (self.old.received + length piece.now)) }
        ensures unchanged { OnErr result (self.new ≡ self.old) }
    {
        let mut room = self.inbox.take_room();
        room.reserve(piece.len())?;
        let count = self.received + piece.len() as u64;
        self.take_said(said, count)?;
        Ok(room)
    }

    /// Moves the next bytes of the other side's program into the buffer, and returns how many: as many as have room there, of one packet
    /// at most. The rest of the buffer stays as it was. It is 0 where a note is next, or nothing.
    pub fn take_in(&mut self, into: &mut [u8]) -> usize
        ensures count { result ≡ min (length (ready self.old.waiting).part) (length into.old) }
        ensures bytes { into.new ≡ take result (ready self.old.waiting).part ++ drop result into.old }
        ensures rest { self.new ≡ record self.old {
          waiting = record {
            part = drop result (ready self.old.waiting).part;
            packets = (ready self.old.waiting).packets;
          };
        } }
    {
        self.inbox.take_into(into)
    }

    /// Moves the note that is next, once all bytes in front of it are taken, into the buffer, which has room for the longest. Returns its
    /// length. The rest of the buffer stays as it was.
    pub fn next_note(&mut self, into: &mut [u8]) -> Option<usize>
        requires { 4096 ≤ length into.old }
        ensures note { GivesNote self.old.waiting (note_in result into.new) self.new.waiting }
        ensures rest { RestStays result into.old into.new }
        ensures others { self.new ≡ record self.old { waiting = self.new.waiting } }
    {
        self.inbox.next_note(into)
    }

    /// Moves the next bytes of the hello into the buffer, and returns how many.
    fn take_hello(&mut self, into: &mut [u8]) -> usize
        ensures count { result ≡ min (length self.old.hello) (length into.old) }
        ensures bytes { into.new ≡ take result self.old.hello ++ drop result into.old }
        ensures rest { self.new ≡ record self.old { hello = drop result self.old.hello } }
    {
        let count = (HELLO_BYTES - self.hello_gone).min(into.len());
        let end = self.hello_gone + count;
        into[..count].copy_from_slice(&self.hello[self.hello_gone..end]);
        self.hello_gone = end;
        count
    }

    /// Returns whether bytes of the stream may go now.
    fn may_send(&self) -> bool
        ensures { result ≡ may_send self.now.phase self.now.attempt }
    {
        match self.phase {
            Phase::Down => false,
            Phase::Asking => self.attempt == 1,
            Phase::Open => true,
        }
    }

    /// Returns whether connection `attempt` is the newest, and not over.
    fn is_up(&self, attempt: u64) -> bool
        ensures { result ≡ (is_up self.now.phase && (attempt == self.now.attempt)) }
    {
        match self.phase {
            Phase::Down => false,
            Phase::Asking => attempt == self.attempt,
            Phase::Open => attempt == self.attempt,
        }
    }

    /// Moves the next bytes for connection `attempt` into the buffer, as many as there are and have room, and returns how many. The rest
    /// of the buffer stays as it was. The error is `NotOpen`.
    pub fn take_out(&mut self, attempt: u64, into: &mut [u8]) -> Result<usize, NotOpen>
        ensures { TakesOut self.old attempt into.old result into.new self.new }
    {
        if !self.is_up(attempt) {
            return Err(NotOpen);
        }
        let first = self.take_hello(into);
        if !self.may_send() {
            return Ok(first);
        }
        let (_, room) = into.split_at_mut(first);
        let second = self.kept.take_into(room);
        Ok(first + second)
    }

    /// A host takes a connection.
    pub fn take_call(&mut self, attempt: u64, received: u64)
        requires { MayHave self.old.keeps received }
        ensures { self.new ≡ says (record self.old {
          attempt = attempt;
          phase = Phase.Open;
          is_known = true;
          keeps = begun self.old.keeps received;
        }) What.Welcome }
    {
        self.attempt = attempt;
        self.phase = Phase::Open;
        self.is_known = true;
        self.kept.begin(received);
        self.say(What::Welcome);
    }

    /// A terminal is welcomed.
    pub fn take_welcome(&mut self, received: u64)
        requires { (self.old.attempt ≡ 1 → ⊥) → MayHave self.old.keeps received }
        ensures { self.new ≡ record self.old {
          phase = Phase.Open;
          is_known = true;
          keeps = if self.old.attempt == 1 then self.old.keeps else begun self.old.keeps received;
        } }
    {
        self.phase = Phase::Open;
        self.is_known = true;
        if self.attempt != 1 {
            self.kept.begin(received);
        }
    }

    /// Returns which side this is.
    pub fn role(&self) -> Role
        ensures { result ≡ self.now.role }
    {
        self.role
    }

    /// Returns the name of the session.
    pub fn id(&self) -> Id
        ensures { result ≡ self.now.id }
    {
        self.id
    }

    /// Returns the number of the newest connection; 0 before the first.
    pub fn attempt(&self) -> u64
        ensures { result ≡ self.now.attempt }
    {
        self.attempt
    }

    /// Returns whether a connection was taken by both sides, as far as this one knows.
    pub fn is_known(&self) -> bool
        ensures { result ≡ self.now.is_known }
    {
        self.is_known
    }

    /// Returns whether the other side may have got so many bytes.
    pub fn may_have(&self, count: u64) -> bool
        ensures { result ≡ may_have self.now.keeps count }
    {
        self.kept.may_have(count)
    }

    /// Returns how the newest connection stands.
    pub fn phase(&self) -> Phase
        ensures { result ≡ self.now.phase }
    {
        self.phase
    }

    /// Returns how many bytes of the other side's stream have come.
    pub fn received(&self) -> u64
        ensures { result ≡ self.now.received }
    {
        self.received
    }

    /// Returns how many bytes this side's stream has, heads of packets included.
    pub fn put_len(&self) -> u64
        ensures { result ≡ self.now.keeps.base + length self.now.keeps.kept }
    {
        self.kept.put_len()
    }

    /// Returns how many bytes of this side's stream the newest connection has not been given. They go out by `take_out`, as far as the
    /// other side's hello doesn't tell that they have come.
    pub fn unsent(&self) -> usize
        ensures { result ≡ length self.now.keeps.kept - self.now.keeps.sent }
    {
        self.kept.unsent()
    }

    /// Returns how many bytes of this side's stream the other side has acknowledged.
    pub fn acknowledged(&self) -> u64
        ensures { result ≡ self.now.keeps.base }
    {
        self.kept.base()
    }
}
