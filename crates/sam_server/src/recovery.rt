//! A server that is made again of the records of its journal.

ghost use Rattle.std.specs.Prelude.{◌≡◌, IfOk};
ghost use Rattle.sam_server.specs.Recovering.{Retakes, recovered};
ghost use Rattle.sam_server.specs.Servers.{new_server};

use crate::gate::Gate;
use crate::reading::read_record;
use crate::server::DurableServer;
use crate::turn::Turn;
use sam_link::Id;
use std::alloc::{AllocError, Global};
use std::marker::Model;
use thiserror::Error;

/// Why a record is not taken again, in the order of the tests. What was made of the records before it is dropped: make another.
#[derive(Clone, Copy, Debug, PartialEq, Eq, Drop, Error)]
pub enum RecoveryFault {
    /// The bytes are those of no record.
    #[error("no record")]
    NoRecord,
    /// The records before it lead to no server that takes it.
    #[error("a record of another server")]
    NotTaken,
    /// A request for memory was refused.
    #[error("out of memory")]
    OutOfMemory,
}

/// What is made of the first records of a journal.
///
/// ```rust
/// let mut recovery = Recovery::new(alloc, id)?;
/// for body in journal {
///     recovery = recovery.take(body)?;
/// }
/// let server = recovery.finish();
/// ```
#[derive(Drop)]
pub struct Recovery {
    alloc: Global,
    turn: Turn,
}

impl Model for Recovery {
    ghost use Rattle.sam_server.specs.Servers.{Server};
    ghost use Rattle.sam_server.specs.Turns.{IsResting};

    ghost Value = { Server };

    ghost view = { λ a. a.turn.server };

    ghost invariant = { λ a. IsResting a.turn };
}

impl Recovery {
    /// Makes the server of this session that has taken nothing. Its only error is out of memory.
    #[tactic(auto, using(crate::proofs::DurableServers::new_rests))]
    pub fn new(alloc: Global, id: Id) -> Result<Recovery, AllocError>
        ensures { IfOk result (λ r. r ≡ new_server id) }
    {
        Ok(Recovery {
            alloc,
            turn: Turn::new(alloc, id)?,
        })
    }

    /// Takes the next record of the journal again. All that was put before counts as given, since no record says what went out.
    ///
    /// Errors, in this order: `NoRecord`; then `NotTaken` or `OutOfMemory`, whichever shows first.
    pub fn take(self, body: &[u8]) -> Result<Recovery, RecoveryFault>
        ensures { Retakes self body.now result }
    {
        let Some(record) = read_record(body) else {
            return Err(RecoveryFault::NoRecord);
        };
        let Recovery { alloc, mut turn } = self;
        turn.give_all();
        match turn.retake(record) {
            Ok(()) => Ok(Recovery { alloc, turn }),
            Err(why) => Err(why),
        }
    }

    /// Returns the server, whose connection is over and all of whose records are durable.
    pub fn finish(self) -> DurableServer
        ensures { result ≡ recovered self }
    {
        let Recovery { alloc, turn } = self;
        let mark = turn.mark();
        let mut server = DurableServer::of_turn(alloc, turn, Gate::after(alloc, mark));
        server.broken(mark.attempt);
        server
    }
}
