//! The host's end of a link, with what a gate has to know of it.

ghost use Rattle.std.specs.Prelude.{◌≡◌, ◌<◌, ◌≤◌, ◌&&◌, ◌==◌, length};
ghost use Rattle.sam_link.specs.Calls.{Does};
ghost use Rattle.sam_link.specs.Calls.Call.{Acknowledge, Ask, Feed, Put, PutNote, TakeOut};
ghost use Rattle.sam_link.specs.End.{broken, fresh, is_up};
ghost use Rattle.sam_link.specs.declared.phase.Role.TheVariants.{Host};
ghost use Rattle.sam_server.specs.Gates.{gone_count, put_count};
ghost use Rattle.sam_link.specs.declared.phase.Phase.TheVariants.{Open};
ghost use Rattle.sam_server.specs.HostLinks.{Answered, DropsSome, HandsOut};
ghost use Rattle.sam_server.specs.Servers.{all_given};

use sam_link::{
    AnswerFault, FeedFault, HELLO_BYTES, Hello, Id, Link, NotOpen, NoteFault, Phase, PutFault,
    Refusal, Role,
};
use std::alloc::Global;
use std::marker::Model;

/// So many bytes are dropped at once.
const SCRAP: usize = 512;

/// What the link hands out next.
#[derive(Clone, Copy, Debug, PartialEq, Eq, Drop)]
pub(crate) enum Next {
    /// So many bytes for the endpoint, those of one packet.
    Data(usize),
    /// A message of so many bytes for the program.
    Note(usize),
    /// Nothing.
    Nothing,
}

/// The host's end of a link, of which nothing is ever taken in by halves.
#[derive(Drop)]
pub(crate) struct HostLink {
    link: Link,
    /// How many bytes of the hello are left to go.
    hello_left: usize,
}

impl Model for HostLink {
    ghost use Rattle.sam_link.specs.End.{End};
    ghost use Rattle.sam_server.specs.HostLinks.{IsHostEnd};

    ghost Value = { End };

    ghost view = { λ a. a.link };

    ghost invariant = { λ a. IsHostEnd a.link a.hello_left };
}

impl HostLink {
    /// Makes the end of this session, before its first connection. It takes no memory.
    pub(crate) fn new(alloc: Global, id: Id) -> HostLink
        ensures { result ≡ fresh Host id }
    {
        HostLink {
            link: Link::new(alloc, Role::Host, id),
            hello_left: 0,
        }
    }

    /// Lends the end, to be read.
    pub(crate) fn link(&self) -> &Link
        ensures { result.now ≡ self.now }
    {
        &self.link
    }

    /// Takes the connection of this hello, or returns why it is refused.
    pub(crate) fn answer(&mut self, hello: &Hello) -> Result<(), Refusal>
        ensures { Answered self.old hello.now result self.new }
    {
        match self.link.answer(hello) {
            Ok(()) => {
                self.hello_left = HELLO_BYTES;
                Ok(())
            }
            Err(AnswerFault::Refused(why)) => Err(why),
            Err(AnswerFault::WrongRole) => unreachable!(),
        }
    }

    /// The connection is over.
    pub(crate) fn broken(&mut self, attempt: u64)
        ensures { self.new ≡ broken self.old attempt }
    {
        self.link.broken(attempt);
        if attempt == self.link.attempt() {
            self.hello_left = 0;
        }
    }

    /// Takes a piece that a connection brought.
    pub(crate) fn feed(&mut self, attempt: u64, piece: &[u8]) -> Result<(), FeedFault>
        ensures { Does self.old (Feed attempt piece.now result) self.new }
    {
        let fed = self.link.feed(attempt, piece);
        match fed {
            Err(FeedFault::Wrong(_)) => self.hello_left = 0,
            Err(FeedFault::AckAhead) => self.hello_left = 0,
            Err(FeedFault::NotOpen) => {}
            Err(FeedFault::CountFull) => {}
            Err(FeedFault::OutOfMemory) => {}
            Ok(()) => {}
        }
        fed
    }

    /// Moves the packet that is next into the buffer.
    pub(crate) fn next_packet(&mut self, into: &mut [u8]) -> Next
        requires { 4096 ≤ length into.old }
        ensures packet { HandsOut self.old result into.new self.new }
        ensures room { length into.new ≡ length into.old }
    {
        let count = self.link.take_in(into);
        if count > 0 {
            return Next::Data(count);
        }
        let Some(count) = self.link.next_note(into) else {
            return Next::Nothing;
        };
        Next::Note(count)
    }

    /// Puts bytes for the terminal's endpoint.
    pub(crate) fn put(&mut self, bytes: &[u8]) -> Result<(), PutFault>
        ensures { Does self.old (Put bytes.now result) self.new }
    {
        self.link.put(bytes)
    }

    /// Puts a message for the terminal's program.
    pub(crate) fn put_note(&mut self, bytes: &[u8]) -> Result<(), NoteFault>
        ensures { Does self.old (PutNote bytes.now result) self.new }
    {
        self.link.put_note(bytes)
    }

    /// Asks the terminal to acknowledge.
    pub(crate) fn ask(&mut self) -> Result<(), PutFault>
        ensures { Does self.old (Ask result) self.new }
    {
        self.link.ask()
    }

    /// Tells the terminal how much has come.
    pub(crate) fn acknowledge(&mut self) -> Result<(), PutFault>
        ensures { Does self.old (Acknowledge result) self.new }
    {
        self.link.acknowledge()
    }

    /// Moves the next bytes for a connection into the buffer.
    pub(crate) fn take_out(&mut self, attempt: u64, into: &mut [u8]) -> Result<usize, NotOpen>
        ensures { Does self.old (TakeOut attempt into.old result into.new) self.new }
    {
        let count = self.link.take_out(attempt, into)?;
        self.hello_left -= count.min(self.hello_left);
        Ok(count)
    }

    /// Takes out some of what is to go on the newest connection, and returns whether there was something.
    fn drop_some(&mut self, scrap: &mut [u8]) -> bool
        requires room { 0 < length scrap.old }
        requires open { self.old.phase ≡ Open }
        ensures { DropsSome self.old result self.new }
    {
        let attempt = self.link.attempt();
        match self.take_out(attempt, scrap) {
            Ok(count) => count > 0,
            Err(_) => unreachable!(),
        }
    }

    /// Takes out all that is to go on the newest connection.
    fn drop_all(&mut self)
        requires { self.old.phase ≡ Open }
        ensures { self.new ≡ all_given self.old }
    {
        let mut scrap = [0; SCRAP];
        while self.drop_some(&mut scrap) {}
    }

    /// Where a connection is up, counts all that was put as given.
    pub(crate) fn give_all(&mut self)
        ensures { self.new ≡ all_given self.old }
    {
        match self.link.phase() {
            Phase::Down => {}
            Phase::Asking => {}
            Phase::Open => self.drop_all(),
        }
    }

    /// Returns whether this connection is the newest, and not over.
    pub(crate) fn is_up(&self, attempt: u64) -> bool
        ensures { result ≡ (is_up self.now.phase && (attempt == self.now.attempt)) }
    {
        match self.link.phase() {
            Phase::Down => false,
            Phase::Asking => attempt == self.link.attempt(),
            Phase::Open => attempt == self.link.attempt(),
        }
    }

    /// Returns the number of the newest connection; 0 before the first.
    pub(crate) fn attempt(&self) -> u64
        ensures { result ≡ self.now.attempt }
    {
        self.link.attempt()
    }

    /// Returns how many bytes of the hello are left to go.
    pub(crate) fn hello_left(&self) -> usize
        ensures { result ≡ length self.now.hello }
    {
        self.hello_left
    }

    /// Returns how many bytes its stream has.
    pub(crate) fn put_count(&self) -> u64
        ensures { result ≡ put_count self.now }
    {
        self.link.put_len()
    }

    /// Returns how many bytes of its stream have gone.
    pub(crate) fn gone_count(&self) -> u64
        ensures { result ≡ gone_count self.now }
    {
        self.link.put_len() - self.link.unsent() as u64
    }
}
