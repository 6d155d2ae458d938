//! The terminal's end of a link, with the clock of its connections.

ghost use Rattle.std.specs.Prelude.{◌≡◌, ◌≤◌, length, take};
ghost use Rattle.sam_link.specs.End.{is_up};
ghost use Rattle.sam_line.specs.Clock as clocks;
ghost use Rattle.sam_line.specs.Greeting.{IsBefore, IsFront};
ghost use Rattle.sam_line.specs.Line.{Acknowledges, Asks, Connects, GivesNote, PutsBytes, PutsNote, TakesIn, TakesOut, Ticks};
ghost use Rattle.sam_line.specs.Line.{asking, at, begun, broken, expecting, failed, has_all, is_broken, is_due, is_newest, is_opening};
ghost use Rattle.sam_line.specs.Line.{is_to_ask, is_unacknowledged, moved, not_connected, opened, overdue_after, owing, refused};
ghost use Rattle.sam_line.specs.Receiving.{BeginsBy, Feeds, Greets, Meets, MeetsBy, Receives, failed_by, fed_fault, heard, welcomed};

use crate::clock::{Clock, OVERDUE_AFTER, State, Tick};
use crate::fault::ReceiveFault;
use crate::greeting::Greeting;
use crate::question::Question;
use sam_link::{
    CallFault, FeedFault, HELLO_BYTES, Hello, Id, Link, NotOpen, NoteFault, Phase, PutFault,
    Refusal, Role, WelcomeFault, read_hello,
};
use std::alloc::Global;

/// At most so many bytes may come before the host's hello.
pub const MOST_WORDS: usize = 65_536;

/// No more is taken while so many bytes are kept that answer the host's questions.
pub const MOST_ANSWERS: u64 = 65_536;

/// The terminal's end of a link, over connections that the program makes and breaks as it says. It moves no bytes itself and has no clock:
/// the program hands in the time, in milliseconds of any clock. A time below the greatest that was handed in counts as the greatest.
#[derive(Drop)]
pub struct Line {
    link: Link,
    clock: Clock,
    question: Question,
    greeting: Greeting,
    /// At most so many of the bytes that are kept answer the host's questions.
    answers: u64,
    take_over: bool,
    /// Whether the program waits for an answer of the host's program.
    expects: bool,
}

/// How many bytes of a greeting there are, and how many of them are words.
#[derive(Clone, Copy, Drop)]
struct Mark {
    len: usize,
    words: usize,
}

impl Line {
    /// Makes a line of the session of this name, at this time. The first connection is due at once. `take_over` asks for a session of the
    /// texts of another, as long as no welcome has come. It takes no memory.
    pub fn new(alloc: Global, id: Id, take_over: bool, now: u64) -> Line
        ensures { result ≡ begun id take_over now }
    {
        Line {
            link: Link::new(alloc, Role::Terminal, id),
            clock: Clock::new(now),
            question: Question::new(),
            greeting: Greeting::new(alloc),
            answers: 0,
            take_over,
            expects: false,
        }
    }

    /// Returns whether something that was put is not acknowledged.
    fn is_unacknowledged(&self) -> bool
        ensures { result ≡ is_unacknowledged self.now }
    {
        self.link.acknowledged() < self.question.due()
    }

    /// Returns whether an answer is due: to what was put, or one for which the program waits.
    fn is_due(&self) -> bool
        ensures { result ≡ is_due self.now }
    {
        self.is_unacknowledged() || self.expects
    }

    /// Returns whether the newest connection is not over.
    fn is_up(&self) -> bool
        ensures { result ≡ is_up self.now.link.phase }
    {
        match self.link.phase() {
            Phase::Down => false,
            Phase::Asking => true,
            Phase::Open => true,
        }
    }

    /// Returns whether the connection is the newest, and not over.
    fn is_newest(&self, attempt: u64) -> bool
        ensures { result ≡ is_newest self.now attempt }
    {
        self.is_up() && attempt == self.link.attempt()
    }

    // ---- Connections

    /// The newest connection is over, or none could be made.
    fn fail(&mut self)
        ensures { self.new ≡ failed self.old }
    {
        let due = self.is_due();
        let attempt = self.link.attempt();
        self.link.broken(attempt);
        self.clock.fail(due);
    }

    /// The host refuses the newest connection.
    fn refuse(&mut self, why: Refusal)
        ensures { self.new ≡ refused self.old why }
    {
        let due = self.is_due();
        let known = self.link.is_known();
        let attempt = self.link.attempt();
        self.link.broken(attempt);
        self.clock.refuse(known, due, why);
    }

    /// Says what the program is to do at this time: make a connection, close it, ask, or nothing. Call it once what `due_in` says is over.
    /// What it says counts as begun: another call at the same time says something else.
    pub fn tick(&mut self, now: u64) -> Tick
        ensures { Ticks self.old now result self.new }
    {
        self.clock.set(now);
        let tick = self.clock.tick(self.is_due());
        match tick {
            Tick::Nothing => {}
            Tick::Connect => self.clock.connect(),
            Tick::Drop => self.fail(),
            Tick::Ask => self.clock.be_late(),
        }
        tick
    }

    /// Returns how many milliseconds it is until `tick` has something to say, if no other call comes before; `None` if it never has.
    pub fn due_in(&self, now: u64) -> Option<u64>
        ensures { result ≡ clocks.due_in self.now.clock (is_due self.now) now }
    {
        self.clock.due_in(self.is_due(), now)
    }

    /// Takes a connection that is open, and returns its number. The one before is over. `take_out` hands out its hello. The only error that
    /// comes is `CountFull`, after 2^64-1 connections.
    pub fn connected(&mut self, now: u64) -> Result<u64, CallFault>
        ensures { Connects self.old now result self.new }
    {
        self.clock.set(now);
        let attempt = self.link.call(self.take_over)?;
        self.open();
        Ok(attempt)
    }

    /// A connection is open.
    fn open(&mut self)
        ensures { self.new ≡ opened self.old }
    {
        self.clock.connect();
        self.question.forget();
        self.greeting.clear();
    }

    /// Returns whether a connection is to be made that is not open yet.
    fn is_opening(&self) -> bool
        ensures { result ≡ is_opening self.now }
    {
        let connecting = match self.clock.state() {
            State::Down(_) => false,
            State::Connecting(_) => true,
            State::Open => false,
            State::Late(_) => false,
            State::Lost(_) => false,
        };
        connecting && !self.is_up()
    }

    /// Notes that the connection could not be made for which `tick` asked: another is tried after a pause. Otherwise it changes nothing but
    /// the time.
    pub fn not_connected(&mut self, now: u64)
        ensures { self.new ≡ not_connected (at self.old now) }
    {
        self.clock.set(now);
        if self.is_opening() {
            self.fail();
        }
    }

    /// Notes that the connection of this number is over: another is tried after a pause. An older one, or one that is over, changes nothing
    /// but the time.
    pub fn broken(&mut self, attempt: u64, now: u64)
        ensures { self.new ≡ broken (at self.old now) attempt }
    {
        self.clock.set(now);
        if self.is_newest(attempt) {
            self.fail();
        }
    }

    /// Notes that an address of the machine came or went. A connection on which nothing comes is then given up after 2 seconds, and one
    /// that is to be made is tried after 1 second at most.
    pub fn address_changed(&mut self, now: u64)
        ensures { self.new ≡ moved (at self.old now) }
    {
        self.clock.set(now);
        let due = self.is_due();
        self.clock.shift(due);
    }

    /// Notes whether the program waits for an answer of the host's program, as to a request: until another call says otherwise, over all
    /// connections. While it does an answer is due, though all that was put is acknowledged: a connection on which nothing comes for 15
    /// seconds is late, `ask` then asks, and after 15 more it is given up.
    pub fn expect(&mut self, expects: bool, now: u64)
        ensures { self.new ≡ expecting (at self.old now) expects }
    {
        self.clock.set(now);
        let due = self.is_due();
        self.clock.owe(due);
        self.expects = expects;
    }

    // ---- What the program puts

    /// Notes that more was put, which is to be acknowledged.
    fn owe(&mut self)
        ensures { self.new ≡ owing self.old }
    {
        let due = self.is_due();
        self.clock.owe(due);
        self.question.owe(self.link.put_len());
    }

    /// Puts bytes for the host, all or none, with or without a connection. Errors, in this order: `CountFull`, `OutOfMemory`, after which
    /// nothing but the time has changed.
    pub fn put(&mut self, bytes: &[u8], now: u64) -> Result<(), PutFault>
        ensures { PutsBytes self.old bytes.now now result self.new }
    {
        self.clock.set(now);
        self.link.put(bytes)?;
        self.owe();
        Ok(())
    }

    /// Puts a note for the host, behind all that was put. Errors, in this order: `TooLong`, `CountFull`, `OutOfMemory`, after which nothing
    /// but the time has changed.
    pub fn put_note(&mut self, bytes: &[u8], now: u64) -> Result<(), NoteFault>
        ensures { PutsNote self.old bytes.now now result self.new }
    {
        self.clock.set(now);
        self.link.put_note(bytes)?;
        self.owe();
        Ok(())
    }

    /// Returns whether the host is to be asked.
    fn is_to_ask(&self) -> bool
        ensures { result ≡ is_to_ask self.now }
    {
        let late = match self.clock.state() {
            State::Down(_) => false,
            State::Connecting(_) => false,
            State::Open => false,
            State::Late(_) => true,
            State::Lost(_) => false,
        };
        self.question.asked() <= self.link.acknowledged() && (self.is_unacknowledged() || late)
    }

    /// Notes that a question was put.
    fn note_question(&mut self)
        ensures { self.new ≡ asking self.old }
    {
        let due = self.is_due();
        self.clock.owe(due);
        self.question.ask(self.link.put_len(), self.clock.time());
    }

    /// Asks the host whether all has come, if something that was put is not acknowledged, or the line is late; unless a question is under
    /// way. So it may be called after each call. Errors, in this order: `CountFull`, `OutOfMemory`, after which nothing but the time has
    /// changed.
    pub fn ask(&mut self, now: u64) -> Result<(), PutFault>
        ensures { Asks self.old now result self.new }
    {
        self.clock.set(now);
        if !self.is_to_ask() {
            return Ok(());
        }
        self.link.ask()?;
        self.note_question();
        Ok(())
    }

    /// Tells the host how many of its bytes have come. Errors, in this order: `CountFull`, `OutOfMemory`, after which all is as before.
    pub fn acknowledge(&mut self) -> Result<(), PutFault>
        ensures { Acknowledges self.old result self.new }
    {
        self.link.acknowledge()
    }

    // ---- What goes out and in

    /// Moves the next bytes for the connection of this number into the buffer, as many as there are and have room, and returns how many.
    /// The rest of the buffer stays as it was. The error is `NotOpen`. It takes no memory.
    pub fn take_out(&mut self, attempt: u64, into: &mut [u8]) -> Result<usize, NotOpen>
        ensures { TakesOut self.old attempt into.old result into.new self.new }
    {
        self.link.take_out(attempt, into)
    }

    /// Moves the next bytes of the host's program into the buffer, and returns how many: as many as have room there, of one packet at most.
    /// The rest of the buffer stays as it was. It is 0 where a note is next, or nothing. It takes no memory.
    pub fn take_in(&mut self, into: &mut [u8]) -> usize
        ensures { TakesIn self.old into.old result into.new self.new }
    {
        self.link.take_in(into)
    }

    /// Moves the note that is next, once all bytes in front of it are taken, into the buffer, which has room for the longest, and returns
    /// its length. The rest of the buffer stays as it was. It takes no memory.
    pub fn next_note(&mut self, into: &mut [u8]) -> Option<usize>
        requires { 4096 ≤ length into.old }
        ensures { GivesNote self.old into.old result into.new self.new }
    {
        self.link.next_note(into)
    }

    // ---- A piece

    /// Takes the next piece of the connection of this number: all of it, or nothing. It may begin and end anywhere, in words of a login, in
    /// the host's hello, or in a packet.
    ///
    /// Errors, in this order: `Over`; `TooManyAnswers`; before the welcome `TooManyWords`, `WrongHello`, `Refused`; then `CountFull`,
    /// `WrongPacket`, `AckAhead`. After each but `Over` the connection is over, and the state says when another is tried. `OutOfMemory` may
    /// come at any place: the connection stays, and the same bytes are to be given again.
    pub fn receive(&mut self, attempt: u64, piece: &[u8], now: u64) -> Result<(), ReceiveFault>
        ensures { Receives self.old attempt piece.now now result self.new }
    {
        self.clock.set(now);
        if !self.is_newest(attempt) {
            return Err(ReceiveFault::Over);
        }
        if self.answers >= MOST_ANSWERS {
            self.fail();
            return Err(ReceiveFault::TooManyAnswers);
        }
        match self.clock.state() {
            State::Down(_) => Err(ReceiveFault::Over),
            State::Connecting(_) => self.greet(attempt, piece),
            State::Open => self.feed(attempt, piece),
            State::Late(_) => self.feed(attempt, piece),
            State::Lost(_) => Err(ReceiveFault::Over),
        }
    }

    /// Notes that bytes have come, before which this side's stream had so many.
    fn hear(&mut self, before: u64)
        ensures { self.new ≡ heard self.old before }
    {
        let put = self.link.put_len();
        let acknowledged = self.link.acknowledged();
        self.clock.hear();
        self.question.measure(acknowledged, self.clock.time());
        let answers = self.answers.saturating_add(put.saturating_sub(before));
        self.answers = answers.min(put - acknowledged);
    }

    /// Ends the connection, where the fault is of the other side, and returns what the fault is called here.
    fn end_for(&mut self, fault: FeedFault) -> ReceiveFault
        ensures fault { result ≡ fed_fault fault }
        ensures ended { self.new ≡ failed_by fault self.old }
    {
        match fault {
            FeedFault::NotOpen => ReceiveFault::Over,
            FeedFault::OutOfMemory => ReceiveFault::OutOfMemory,
            FeedFault::CountFull => {
                self.fail();
                ReceiveFault::CountFull
            }
            FeedFault::Wrong(why) => {
                self.fail();
                ReceiveFault::WrongPacket(why)
            }
            FeedFault::AckAhead => {
                self.fail();
                ReceiveFault::AckAhead
            }
        }
    }

    /// Takes a piece of a connection that the host has welcomed.
    fn feed(&mut self, attempt: u64, piece: &[u8]) -> Result<(), ReceiveFault>
        ensures { Feeds self.old attempt piece.now result self.new }
    {
        let before = self.link.put_len();
        match self.link.feed(attempt, piece) {
            Ok(()) => {
                self.hear(before);
                Ok(())
            }
            Err(fault) => Err(self.end_for(fault)),
        }
    }

    /// Takes a piece of a connection that the host has not welcomed.
    fn greet(&mut self, attempt: u64, piece: &[u8]) -> Result<(), ReceiveFault>
        ensures { Greets self.old attempt piece.now result self.new }
    {
        let mark = Mark {
            len: self.greeting.len(),
            words: self.greeting.words(),
        };
        if self.greeting.hold(piece).is_err() {
            return Err(ReceiveFault::OutOfMemory);
        }
        let words = self.greeting.words();
        if words > MOST_WORDS {
            self.fail();
            return Err(ReceiveFault::TooManyWords);
        }
        match read_hello(self.greeting.rest(words)) {
            Ok(None) => Ok(()),
            Err(why) => {
                self.fail();
                Err(ReceiveFault::WrongHello(why))
            }
            Ok(Some(hello)) => self.meet(attempt, &hello, words + HELLO_BYTES, mark),
        }
    }

    /// The link takes the hello, unless it has.
    fn take_hello(&mut self, hello: &Hello) -> Result<(), WelcomeFault>
        ensures met { Meets self.old.link hello.now result self.new.link }
        ensures others { self.new ≡ record self.old { link = self.new.link } }
    {
        match self.link.phase() {
            Phase::Down => self.link.welcomed(hello),
            Phase::Asking => self.link.welcomed(hello),
            Phase::Open => Ok(()),
        }
    }

    /// Takes the piece back from what came before the hello.
    fn take_back(&mut self, mark: Mark)
        requires { IsBefore (take mark.len self.old.greeting) mark.words }
        ensures { self.new ≡ record self.old { greeting = take mark.len self.old.greeting } }
    {
        self.greeting.restore(mark.len, mark.words);
    }

    /// Takes the host's hello, and what stands behind it.
    fn meet(
        &mut self,
        attempt: u64,
        hello: &Hello,
        start: usize,
        mark: Mark,
    ) -> Result<(), ReceiveFault>
        requires start { start ≤ length self.old.greeting }
        requires mark { IsBefore (take mark.len self.old.greeting) mark.words }
        ensures { MeetsBy self.old attempt hello.now (take mark.len self.old.greeting) start result self.new }
    {
        match self.take_hello(hello) {
            Ok(()) => self.begin(attempt, start, mark),
            Err(WelcomeFault::ByHost(why)) => {
                self.refuse(why);
                Err(ReceiveFault::Refused(why))
            }
            Err(WelcomeFault::Here(why)) => {
                self.fail();
                Err(ReceiveFault::WrongHello(why))
            }
            Err(WelcomeFault::NotOpen) => {
                self.take_back(mark);
                Err(ReceiveFault::Over)
            }
            Err(WelcomeFault::WrongRole) => {
                self.take_back(mark);
                Err(ReceiveFault::Over)
            }
        }
    }

    /// The host has welcomed the newest connection.
    fn take_welcome(&mut self)
        ensures { self.new ≡ welcomed self.old }
    {
        self.clock.welcome();
        self.question.forget();
    }

    /// Takes the bytes behind the hello.
    fn begin(&mut self, attempt: u64, start: usize, mark: Mark) -> Result<(), ReceiveFault>
        requires start { start ≤ length self.old.greeting }
        requires mark { IsBefore (take mark.len self.old.greeting) mark.words }
        ensures { BeginsBy self.old attempt (take mark.len self.old.greeting) start result self.new }
    {
        let before = self.link.put_len();
        match self.link.feed(attempt, self.greeting.rest(start)) {
            Ok(()) => {
                self.take_welcome();
                self.hear(before);
                Ok(())
            }
            Err(FeedFault::OutOfMemory) => {
                self.take_back(mark);
                Err(ReceiveFault::OutOfMemory)
            }
            Err(fault) => {
                self.take_welcome();
                Err(self.end_for(fault))
            }
        }
    }

    // ---- Readers

    /// Returns how the line stands.
    pub fn state(&self) -> State
        ensures { result ≡ self.now.clock.state }
    {
        self.clock.state()
    }

    /// Returns for how many milliseconds nothing has come, though something is due.
    pub fn silence(&self, now: u64) -> u64
        ensures { result ≡ clocks.silence self.now.clock (is_due self.now) now }
    {
        self.clock.silence(self.is_due(), now)
    }

    /// Returns how many connections failed, one after another; 6 stands for more, too.
    pub fn failures(&self) -> u64
        ensures { result ≡ self.now.clock.failures }
    {
        self.clock.failures()
    }

    /// Returns how many milliseconds the answer to the last question took; 0 before the first.
    pub fn round_trip(&self) -> u64
        ensures { result ≡ self.now.question.round_trip }
    {
        self.question.round_trip()
    }

    /// Returns after how many milliseconds of silence the user is to know that an answer is overdue: a second, and two round trips.
    pub fn overdue_after(&self) -> u64
        ensures { result ≡ overdue_after self.now }
    {
        let round_trip = self.question.round_trip();
        round_trip
            .saturating_add(round_trip)
            .saturating_add(OVERDUE_AFTER)
    }

    /// Returns whether there is no connection, though there was one, or one has failed.
    pub fn is_broken(&self) -> bool
        ensures { result ≡ is_broken self.now }
    {
        !self.clock.state().is_welcome() && (self.link.is_known() || self.clock.failures() > 0)
    }

    /// Returns whether all that was put is acknowledged.
    pub fn has_all(&self) -> bool
        ensures { result ≡ has_all self.now }
    {
        self.question.due() <= self.link.acknowledged()
    }

    /// Lends the words that came before the host's hello on the newest connection: bytes, perhaps of a login.
    pub fn words(&self) -> &[u8]
        ensures { IsFront self.now.greeting result.now }
    {
        self.greeting.front()
    }

    /// Lends the link, which has more counts.
    pub fn link(&self) -> &Link
        ensures { result.now ≡ self.now.link }
    {
        &self.link
    }
}
