//! A server that goes on after a crash.

ghost use Rattle.std.specs.Prelude.{◌≡◌, IfOk, drop, min, option_copied, option_map, slice_get};
ghost use Rattle.sam_link.specs.End.{broken};
ghost use Rattle.sam_server.specs.DurableServers.{Finishing, GoesOn, GoesOnNow, Prepares, RefusesHello, RefusesPiece, TakesOutDurable, TakesRecord, bytes_in, due_behind, durable_by, new_durable_server, out_room, settled, told_of_feed, with_link};
ghost use Rattle.sam_server.specs.Records.{Called, Came, plain, record_bytes};
ghost use Rattle.sam_server.specs.declared.server.Stage.TheVariants.{Answering, Recording};
ghost use Rattle.sam_server.specs.Turns.{IsResting};

use crate::fault::{CallFault, GoOnFault};
use crate::gate::Gate;
use crate::record::Record;
use crate::turn::{Stop, Turn, TurnFault};
use crate::writing::write_record;
use sam_link::{FeedFault, Hello, Id, NotOpen, Refusal};
use std::alloc::{AllocError, Global};
use std::collections::VecDeque;
use std::marker::Model;
use std::mem;

/// How far a server has come with what it took last.
#[derive(Clone, Copy, Debug, PartialEq, Eq, Drop)]
pub(crate) enum Stage {
    /// It is done, and its record waits for the journal.
    Settled,
    /// The endpoint has not answered all of it, or the answers are not put.
    Answering,
    /// It is done but for its record.
    Recording,
    /// The server has stopped for good.
    Stopped(Stop),
}

/// A server: a host endpoint and its end of a link, which goes on after a crash from the records of what it took.
///
/// The program writes the records to a journal, and says how many are durable. Until then nothing goes out that they decide. Each call that
/// takes something makes one record, in the order of the calls. Out of memory loses nothing.
///
/// ```rust
/// let mut server = DurableServer::new(alloc, id)?;
/// server.add_file(b"notes", b"hello\n")?;
/// server.accept(hello)?;                                   // of a new connection
/// server.receive(attempt, piece)?;                         // bytes that it brought
/// while let Some(body) = server.next_record() { .. }       // into the journal
/// server.durable(count);                                   // once so many more of them are safe
/// let count = server.take_out(attempt, &mut buffer)?;      // bytes for the connection
/// ```
#[derive(Drop)]
pub struct DurableServer {
    alloc: Global,
    pub(crate) turn: Turn,
    pub(crate) stage: Stage,
    /// The record of what was taken last, until it is done.
    pub(crate) owed: Vec<u8>,
    /// The records that the program has not got, the oldest first.
    records: VecDeque<Vec<u8>>,
    gate: Gate,
    /// Once a record has the effect that waits, how many records have to become durable until that one is.
    pub(crate) due: Option<usize>,
}

impl Model for DurableServer {
    ghost use Rattle.std.specs.Prelude.{map};
    ghost use Rattle.sam_server.specs.DurableServers.{IsWell, PlainDurableServer, bytes_in};

    ghost Value = { PlainDurableServer };

    ghost view = { λ a. record {
      turn = a.turn;
      stage = a.stage;
      owed = a.owed.items;
      records = map bytes_in a.records.items;
      gate = a.gate;
      due = a.due;
    } };

    ghost invariant = { λ a. IsWell a.stage a.turn };
}

/// Returns what a call says of a piece that the link has not taken.
fn told_of_feed(why: FeedFault) -> CallFault<FeedFault>
    ensures { result ≡ told_of_feed why }
{
    match why {
        FeedFault::OutOfMemory => CallFault::OutOfMemory,
        why => CallFault::Refused(why),
    }
}

/// Returns how many records have to become durable until that is which has the effect: so many, if no record before had it.
fn due_behind(due: Option<usize>, turn: &Turn, count: usize) -> Option<usize>
    ensures { result ≡ due_behind due turn.now.server.effect count }
{
    match due {
        Some(before) => Some(before),
        None if turn.effect().is_some() => Some(count),
        None => None,
    }
}

impl DurableServer {
    /// Makes a server of this session, without files and before its first connection. Its only error is out of memory.
    #[tactic(auto, using(crate::proofs::DurableServers::new_rests))]
    pub fn new(alloc: Global, id: Id) -> Result<DurableServer, AllocError>
        ensures { IfOk result (λ d. d ≡ new_durable_server id) }
    {
        Ok(DurableServer {
            alloc,
            turn: Turn::new(alloc, id)?,
            stage: Stage::Settled,
            owed: Vec::new(alloc),
            records: VecDeque::new(alloc),
            gate: Gate::new(alloc),
            due: None,
        })
    }

    /// Makes a server of a turn that is done, all of whose records are durable, and of the gate behind them.
    pub(crate) fn of_turn(alloc: Global, turn: Turn, gate: Gate) -> DurableServer
        requires { IsResting turn }
        ensures { result ≡ settled turn gate }
    {
        let due = due_behind(None, &turn, 0);
        DurableServer {
            alloc,
            turn,
            stage: Stage::Settled,
            owed: Vec::new(alloc),
            records: VecDeque::new(alloc),
            gate,
            due,
        }
    }

    /// Returns the allocator that the server was made with.
    pub(crate) fn alloc(&self) -> Global {
        self.alloc
    }

    /// Returns the bytes of a record that may be taken now.
    pub(crate) fn prepare<F>(&self, taken: Record<'_>) -> Result<Vec<u8>, CallFault<F>>
        ensures { Prepares self.now.stage (record_bytes (plain taken.entry)) result }
    {
        match self.stage {
            Stage::Stopped(why) => return Err(CallFault::Stopped(why)),
            Stage::Answering | Stage::Recording => return Err(CallFault::Waiting),
            Stage::Settled => {}
        }
        let mut body = Vec::new(self.alloc);
        match write_record(&mut body, taken) {
            Ok(()) => Ok(body),
            Err(_) => Err(CallFault::OutOfMemory),
        }
    }

    /// Puts the record of what was taken last behind the others, with its mark.
    #[tactic(auto, using(crate::proofs::DurableServers::record_facts))]
    fn record(&mut self) -> Result<(), GoOnFault>
        requires { self.old.stage ≡ Recording }
        ensures { GoesOn self.old result self.new }
    {
        if self.records.reserve(1).is_err() {
            return Err(GoOnFault::Unfinished);
        }
        if self.gate.record(self.turn.mark()).is_err() {
            return Err(GoOnFault::Unfinished);
        }
        self.due = due_behind(self.due, &self.turn, self.gate.waiting_count());
        let body = mem::replace(&mut self.owed, Vec::new(self.alloc));
        self.records.push_back_reserved(body);
        self.stage = Stage::Settled;
        Ok(())
    }

    /// Does the rest of the turn.
    #[tactic(auto, using(crate::proofs::DurableServers::finish_facts))]
    fn finish(&mut self) -> Result<(), GoOnFault>
        requires { self.old.stage ≡ Answering }
        ensures { Finishing self.old result self.new }
    {
        match self.turn.finish() {
            Ok(()) => {
                self.stage = Stage::Recording;
                Ok(())
            }
            Err(TurnFault::OutOfMemory) => Err(GoOnFault::Unfinished),
            Err(TurnFault::Stopped(why)) => {
                self.stage = Stage::Stopped(why);
                Err(GoOnFault::Stopped(why))
            }
        }
    }

    /// Does the rest of the turn, and then records it.
    #[tactic(auto, using(crate::proofs::DurableServers::finished_facts))]
    fn finish_and_record(&mut self) -> Result<(), GoOnFault>
        requires { self.old.stage ≡ Answering }
        ensures { GoesOn self.old result self.new }
    {
        self.finish()?;
        self.record()
    }

    /// Goes on with what was taken last, after memory was refused; does nothing if nothing is left.
    ///
    /// Errors, in this order: `Stopped`; `Unfinished`, after which it may be called again.
    #[tactic(auto, using(crate::proofs::DurableServers::nothing_facts))]
    pub fn go_on(&mut self) -> Result<(), GoOnFault>
        ensures { GoesOn self.old result self.new }
    {
        match self.stage {
            Stage::Settled => Ok(()),
            Stage::Stopped(why) => Err(GoOnFault::Stopped(why)),
            Stage::Recording => self.record(),
            Stage::Answering => self.finish_and_record(),
        }
    }

    /// Goes on with what was taken now.
    pub(crate) fn go_on_now<F>(&mut self) -> Result<(), CallFault<F>>
        ensures { GoesOnNow self.old result self.new }
    {
        match self.go_on() {
            Ok(()) => Ok(()),
            Err(GoOnFault::Unfinished) => Err(CallFault::Unfinished),
            Err(GoOnFault::Stopped(why)) => Err(CallFault::Stopped(why)),
        }
    }

    /// Takes the connection of this hello, and the one before is over.
    ///
    /// Errors, in this order: `Stopped`; `Waiting`; `OutOfMemory`; `Refused` as a link refuses it, which the terminal is to be told;
    /// `Unfinished`. After all but the last it is as it was.
    #[tactic(auto, using(crate::proofs::DurableServers::accept_well))]
    pub fn accept(&mut self, hello: Hello) -> Result<(), CallFault<Refusal>>
        ensures { TakesRecord self.old (Called hello) (RefusesHello self.old hello) result self.new }
    {
        let body = self.prepare(Record::Called(hello))?;
        if let Err(why) = self.turn.answer(&hello) {
            return Err(CallFault::Refused(why));
        }
        self.owed = body;
        self.stage = Stage::Recording;
        self.go_on_now()
    }

    /// Takes the next piece of what connection `attempt` brought behind its hello: all of it, or nothing. It may begin and end anywhere.
    ///
    /// Errors, in this order: `Stopped`; `Waiting`; `OutOfMemory`; `Refused`, as a link refuses it, after which the connection may be over;
    /// `Unfinished`, or `Stopped` where the terminal breaks the protocol. After the first three it is as it was.
    pub fn receive(&mut self, attempt: u64, piece: &[u8]) -> Result<(), CallFault<FeedFault>>
        ensures { TakesRecord self.old (Came attempt piece.now) (RefusesPiece self.old attempt piece.now) result self.new }
    {
        let body = self.prepare(Record::Came(attempt, piece))?;
        match self.turn.feed(attempt, piece) {
            Ok(()) => {}
            Err(why) => return Err(told_of_feed(why)),
        }
        self.owed = body;
        self.stage = Stage::Answering;
        self.go_on_now()
    }

    /// Connection `attempt` is over, or broke. An older one changes nothing.
    #[tactic(auto, using(crate::proofs::DurableServers::broken_well))]
    pub fn broken(&mut self, attempt: u64)
        ensures { self.new ≡ with_link self.old (broken self.old.turn.server.link attempt) }
    {
        self.turn.link.broken(attempt);
    }

    /// Takes note that so many more of the records are durable, the oldest first. They may be no more than the program got.
    pub fn durable(&mut self, count: usize)
        ensures { self.new ≡ durable_by self.old count }
    {
        self.gate.durable(count);
        if let Some(left) = self.due {
            self.due = Some(left.saturating_sub(count));
        }
    }

    /// Lends the bytes of the record that `next_record` hands out; `None` if there is none.
    pub fn first_record(&self) -> Option<&[u8]>
        ensures { option_copied result ≡ slice_get self.now.records 0 }
    {
        match self.records.front() {
            Some(body) => Some(body.as_slice()),
            None => None,
        }
    }

    /// Hands out the bytes of the oldest record that was not handed out; `None` if there is none. The program puts them into its journal.
    pub fn next_record(&mut self) -> Option<Vec<u8>>
        ensures body { option_map bytes_in result ≡ slice_get self.old.records 0 }
        ensures rest { self.new ≡ record self.old { records = drop 1 self.old.records } }
    {
        self.records.pop_front()
    }

    /// Returns how many bytes may go out on this connection into a buffer of this room.
    fn out_room(&self, attempt: u64, room: usize) -> usize
        ensures { result ≡ min (out_room self.now attempt) room }
    {
        match self.stage {
            Stage::Settled => {
                let link = &self.turn.link;
                self.gate
                    .room(attempt, link.hello_left(), link.gone_count(), room)
            }
            _ => 0,
        }
    }

    /// Moves the next bytes for connection `attempt` into the buffer, as many as durable records decide and have room, and returns how
    /// many. The rest of the buffer stays as it was. Nothing goes out while something waits for `go_on`. The error is `NotOpen`.
    pub fn take_out(&mut self, attempt: u64, into: &mut [u8]) -> Result<usize, NotOpen>
        ensures { TakesOutDurable self.old attempt into.old result into.new self.new }
    {
        let room = self.out_room(attempt, into.len());
        let (front, _) = into.split_at_mut(room);
        self.turn.link.take_out(attempt, front)
    }
}
