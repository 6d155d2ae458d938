//! A turn of a server: what came is handed to the endpoint and to the program, and then all answers are put at once.

ghost use Rattle.std.specs.Prelude.{◌≡◌, [], IfOk, option_copied, option_map};
ghost use Rattle.sam_link.specs.Calls.{Does};
ghost use Rattle.sam_link.specs.Calls.Call.{Acknowledge, Ask, Feed, PutNote};
ghost use Rattle.sam_endpoint.specs.HostEndpoints.{Adds, Marks};
ghost use Rattle.sam_server.specs.DurableServers.{mark_of};
ghost use Rattle.sam_server.specs.HostLinks.{Answered};
ghost use Rattle.sam_server.specs.Servers.{all_given, new_server};
ghost use Rattle.sam_server.specs.Turns.{Brought, DroppedEffect, Fetched, Finished, Handed, HandedNext, Heard, Idled, IsHanded, IsHolding, Stepped, hosted, linked, plain_effect, told_of_bring, told_of_step};

use crate::effect::Effect;
use crate::foreseeing::foresee;
use crate::gate::Mark;
use crate::host_link::{HostLink, Next};
use sam_endpoint::{AddFault, BringFault, EndpointFault, HostEndpoint, HostStep, HostStop};
use sam_host::MarkFault;
use sam_link::{FeedFault, Hello, Id, MOST_BODY, NoteFault, PutFault, Refusal};
use std::alloc::{AllocError, Global};
use std::marker::Model;
use thiserror::Error;

/// Why a server has stopped for good.
#[derive(Clone, Copy, Debug, PartialEq, Eq, Drop, Error)]
pub enum Stop {
    /// The endpoint has stopped: the terminal's stream has a fault, or the host refused a message.
    #[error("{0}")]
    Endpoint(HostStop),
    /// The link's stream or the terminal's would have more than 2^64-1 bytes.
    #[error("a count is full")]
    CountFull,
}

/// Why a turn is not done.
#[derive(Clone, Copy, Debug, PartialEq, Eq, Drop)]
pub(crate) enum TurnFault {
    /// Memory was refused: go on later.
    OutOfMemory,
    /// The server has stopped.
    Stopped(Stop),
}

/// A host endpoint, its end of a link, and what the program is asked to do.
#[derive(Drop)]
pub(crate) struct Turn {
    alloc: Global,
    pub(crate) link: HostLink,
    pub(crate) host: HostEndpoint,
    /// What is to be done before anything behind it is handled.
    effect: Option<Effect>,
    /// What left the link last, and neither the endpoint nor the program has got yet: its first bytes stand in `packet`.
    held: Next,
    packet: [u8; MOST_BODY],
}

impl Model for Turn {
    ghost use Rattle.std.specs.Prelude.{◌≡◌, [], length, option_map};
    ghost use Rattle.sam_server.specs.Turns.{Fits, MayHold, PlainTurn, held_in, plain_effect};

    ghost Value = { PlainTurn };

    ghost view = { λ a. record {
      server = record { link = a.link; host = a.host; effect = option_map plain_effect a.effect };
      held = held_in a.held a.packet;
    } };

    ghost invariant = { λ a. (length a.packet ≡ 4096) × Fits a.held × MayHold a.held a.host a.effect × (a.host.writes ≡ []) };
}

/// Returns what a step of the endpoint says of a turn: whether something was done.
fn told_of_step(step: Result<HostStep, EndpointFault<HostStop>>) -> Result<bool, TurnFault>
    ensures { result ≡ told_of_step step }
{
    match step {
        Ok(HostStep::Idle) => Ok(false),
        Ok(_) => Ok(true),
        Err(EndpointFault::Stopped(why)) => Err(TurnFault::Stopped(Stop::Endpoint(why))),
        Err(_) => Err(TurnFault::OutOfMemory),
    }
}

/// Returns what bringing a piece says of a turn.
fn told_of_bring(brought: Result<(), BringFault<HostStop>>) -> Result<(), TurnFault>
    ensures { result ≡ told_of_bring brought }
{
    match brought {
        Ok(()) => Ok(()),
        Err(BringFault::Stopped(why)) => Err(TurnFault::Stopped(Stop::Endpoint(why))),
        Err(BringFault::CountFull) => Err(TurnFault::Stopped(Stop::CountFull)),
        Err(_) => Err(TurnFault::OutOfMemory),
    }
}

/// Brings the endpoint a piece, of which its messages wait then.
#[tactic(auto, using(crate::proofs::Turns::brought_told))]
fn bring(host: &mut HostEndpoint, piece: &[u8]) -> Result<(), TurnFault>
    ensures { Brought host.old piece.now result host.new }
{
    told_of_bring(host.bring(piece))
}

/// Puts the value in place of another, which is dropped.
fn set<T: Drop>(slot: &mut T, value: T)
    ensures { slot.new ≡ value }
{
    *slot = value;
}

/// Makes an effect of a message that the terminal's program said.
fn hear(alloc: Global, bytes: &[u8]) -> Result<Effect, TurnFault>
    ensures { Heard bytes.now result }
{
    let mut message = Vec::new(alloc);
    match message.extend_from_slice(bytes) {
        Ok(()) => Ok(Effect::Hear(message)),
        Err(_) => Err(TurnFault::OutOfMemory),
    }
}

impl Turn {
    /// Makes a server of this session, without files. Its only error is out of memory.
    pub(crate) fn new(alloc: Global, id: Id) -> Result<Turn, AllocError>
        ensures { IfOk result (λ t. t ≡ record { server = new_server id; held = [] }) }
    {
        Ok(Turn {
            alloc,
            link: HostLink::new(alloc, id),
            host: HostEndpoint::new(alloc)?,
            effect: None,
            held: Next::Nothing,
            packet: [0; MOST_BODY],
        })
    }

    /// Takes the connection of this hello, or returns why it is refused.
    pub(crate) fn answer(&mut self, hello: &Hello) -> Result<(), Refusal>
        ensures link { Answered self.old.server.link hello.now result self.new.server.link }
        ensures others { self.new ≡ linked self.old self.new.server.link }
    {
        self.link.answer(hello)
    }

    /// Where a connection is up, counts all that was put as given.
    pub(crate) fn give_all(&mut self)
        ensures { self.new ≡ linked self.old (all_given self.old.server.link) }
    {
        self.link.give_all()
    }

    /// Returns how the link stands.
    pub(crate) fn mark(&self) -> Mark
        ensures { result ≡ mark_of self.now.server.link }
    {
        Mark {
            attempt: self.link.attempt(),
            put: self.link.put_count(),
        }
    }

    /// Feeds the link a piece that a connection brought.
    pub(crate) fn feed(&mut self, attempt: u64, piece: &[u8]) -> Result<(), FeedFault>
        ensures link { Does self.old.server.link (Feed attempt piece.now result) self.new.server.link }
        ensures others { self.new ≡ linked self.old self.new.server.link }
    {
        self.link.feed(attempt, piece)
    }

    /// Puts a message for the terminal's program.
    pub(crate) fn put_note(&mut self, message: &[u8]) -> Result<(), NoteFault>
        ensures link { Does self.old.server.link (PutNote message.now result) self.new.server.link }
        ensures others { self.new ≡ linked self.old self.new.server.link }
    {
        self.link.put_note(message)
    }

    /// Asks the terminal to acknowledge.
    pub(crate) fn ask(&mut self) -> Result<(), PutFault>
        ensures link { Does self.old.server.link (Ask result) self.new.server.link }
        ensures others { self.new ≡ linked self.old self.new.server.link }
    {
        self.link.ask()
    }

    /// Acknowledges what came.
    pub(crate) fn acknowledge(&mut self) -> Result<(), PutFault>
        ensures link { Does self.old.server.link (Acknowledge result) self.new.server.link }
        ensures others { self.new ≡ linked self.old self.new.server.link }
    {
        self.link.acknowledge()
    }

    /// Adds a file to the endpoint.
    pub(crate) fn add_file(&mut self, name: &[u8], text: &[u8]) -> Result<u16, AddFault>
        ensures host { Adds self.old.server.host name.now text.now result self.new.server.host }
        ensures others { self.new ≡ hosted self.old self.new.server.host }
    {
        self.host.add_file(name, text)
    }

    /// Marks a file of the endpoint as dirty.
    pub(crate) fn mark_dirty(&mut self, tag: u16) -> Result<(), MarkFault>
        ensures host { Marks self.old.server.host tag result self.new.server.host }
        ensures others { self.new ≡ hosted self.old self.new.server.host }
    {
        self.host.mark_dirty(tag)
    }

    /// Lends the effect that waits, if one does.
    pub(crate) fn effect(&self) -> Option<&Effect>
        ensures { option_map plain_effect (option_copied result) ≡ self.now.server.effect }
    {
        self.effect.as_ref()
    }

    /// Drops the effect that waits, and returns whether there was one.
    pub(crate) fn drop_effect(&mut self) -> bool
        ensures { DroppedEffect self.old result self.new }
    {
        if self.effect.is_none() {
            return false;
        }
        set(&mut self.effect, None);
        true
    }

    /// Has the endpoint go on by one step while no effect waits, and returns whether it did something. Where that has the program do
    /// something, an effect waits.
    fn step(&mut self) -> Result<bool, TurnFault>
        requires { self.old.held ≡ [] }
        ensures { Stepped self.old result self.new }
    {
        match self.effect {
            Some(_) => return Ok(false),
            None => {}
        }
        let Ok(effect) = foresee(self.alloc, &self.host) else {
            return Err(TurnFault::OutOfMemory);
        };
        let did = told_of_step(self.host.step())?;
        self.host.next_written();
        set(&mut self.effect, effect);
        Ok(did)
    }

    /// Has the endpoint go on until an effect waits, or nothing is left to answer.
    #[tactic(auto, using(crate::proofs::Turns::goes_facts))]
    fn idle(&mut self) -> Result<(), TurnFault>
        requires { self.old.held ≡ [] }
        ensures { Idled self.old result self.new }
    {
        while self.step()? {}
        Ok(())
    }

    /// Has the endpoint go on, and then the packet that is next leave the link; returns whether there was one that may be handed on.
    fn fetch_next(&mut self) -> Result<bool, TurnFault>
        requires { self.old.held ≡ [] }
        ensures { Fetched self.old result self.new }
    {
        self.idle()?;
        if self.effect.is_some() {
            return Ok(false);
        }
        self.held = self.link.next_packet(&mut self.packet);
        match self.held {
            Next::Nothing => Ok(false),
            Next::Data(_) => Ok(true),
            Next::Note(_) => Ok(true),
        }
    }

    /// Has a packet leave the link, if none has, and returns whether one is held.
    fn fetch(&mut self) -> Result<bool, TurnFault>
        ensures { Fetched self.old result self.new }
    {
        match self.held {
            Next::Nothing => self.fetch_next(),
            Next::Data(_) => Ok(true),
            Next::Note(_) => Ok(true),
        }
    }

    /// Hands on the packet that is held.
    #[tactic(auto, using(crate::proofs::Turns::bring_broke))]
    fn hand(&mut self) -> Result<(), TurnFault>
        requires { IsHolding self.old }
        ensures { Handed self.old result self.new }
    {
        match self.held {
            Next::Nothing => unreachable!(),
            Next::Data(count) => {
                bring(&mut self.host, &self.packet[..count])?;
                self.held = Next::Nothing;
                Ok(())
            }
            Next::Note(count) => {
                let effect = hear(self.alloc, &self.packet[..count])?;
                set(&mut self.effect, Some(effect));
                self.held = Next::Nothing;
                Ok(())
            }
        }
    }

    /// Hands on the packet that is next, and returns whether there was one that may be.
    #[tactic(auto, using(crate::proofs::Turns::next_facts))]
    fn hand_next(&mut self) -> Result<bool, TurnFault>
        ensures { HandedNext self.old result self.new }
    {
        if !self.fetch()? {
            return Ok(false);
        }
        self.hand()?;
        Ok(true)
    }

    /// Puts all that the endpoint answered at once.
    fn put_answers(&mut self) -> Result<(), TurnFault>
        requires { IsHanded self.old }
        ensures { Finished self.old result self.new }
    {
        match self.link.put(self.host.pending_bytes()) {
            Ok(()) => {
                let count = self.host.pending();
                self.host.consume(count);
                Ok(())
            }
            Err(PutFault::OutOfMemory) => Err(TurnFault::OutOfMemory),
            Err(PutFault::CountFull) => Err(TurnFault::Stopped(Stop::CountFull)),
        }
    }

    /// Does the rest of a turn, which ends where an effect waits. After `OutOfMemory` it goes on where it was.
    #[tactic(auto, using(crate::proofs::Turns::finish_facts))]
    pub(crate) fn finish(&mut self) -> Result<(), TurnFault>
        ensures { Finished self.old result self.new }
    {
        while self.hand_next()? {}
        self.put_answers()
    }
}
