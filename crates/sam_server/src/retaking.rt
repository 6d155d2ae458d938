//! How a turn takes a record again: each kind by the call that took it first.

ghost use Rattle.std.specs.Prelude.{◌≡◌};
ghost use Rattle.sam_server.specs.Recovering.{Refinished, Retaken, told_of_add, told_of_feed, told_of_mark, told_of_note, told_of_put, told_of_turn};
ghost use Rattle.sam_server.specs.Records.{Acknowledged, Asked, Called, Came, Done, Joined, Marked, Said, plain};
ghost use Rattle.sam_server.specs.Turns.{IsResting};

use crate::record::Record;
use crate::recovery::RecoveryFault;
use crate::turn::{Turn, TurnFault};
use sam_endpoint::AddFault;
use sam_host::MarkFault;
use sam_link::{FeedFault, Hello, NoteFault, PutFault};

/// Returns what a turn that is not done says of its record.
fn told_of_turn(why: TurnFault) -> RecoveryFault
    ensures { result ≡ told_of_turn why }
{
    match why {
        TurnFault::OutOfMemory => RecoveryFault::OutOfMemory,
        TurnFault::Stopped(_) => RecoveryFault::NotTaken,
    }
}

/// Returns what the refusal of a file says of its record.
fn told_of_add(why: AddFault) -> RecoveryFault
    ensures { result ≡ told_of_add why }
{
    match why {
        AddFault::OutOfMemory => RecoveryFault::OutOfMemory,
        _ => RecoveryFault::NotTaken,
    }
}

/// Returns what the refusal of a mark says of its record.
fn told_of_mark(why: MarkFault) -> RecoveryFault
    ensures { result ≡ told_of_mark why }
{
    match why {
        MarkFault::OutOfMemory => RecoveryFault::OutOfMemory,
        _ => RecoveryFault::NotTaken,
    }
}

/// Returns what the refusal of a piece says of its record.
fn told_of_feed(why: FeedFault) -> RecoveryFault
    ensures { result ≡ told_of_feed why }
{
    match why {
        FeedFault::OutOfMemory => RecoveryFault::OutOfMemory,
        _ => RecoveryFault::NotTaken,
    }
}

/// Returns what the refusal of a message says of its record.
fn told_of_note(why: NoteFault) -> RecoveryFault
    ensures { result ≡ told_of_note why }
{
    match why {
        NoteFault::OutOfMemory => RecoveryFault::OutOfMemory,
        _ => RecoveryFault::NotTaken,
    }
}

/// Returns what the refusal of a packet says of its record.
fn told_of_put(why: PutFault) -> RecoveryFault
    ensures { result ≡ told_of_put why }
{
    match why {
        PutFault::OutOfMemory => RecoveryFault::OutOfMemory,
        PutFault::CountFull => RecoveryFault::NotTaken,
    }
}

impl Turn {
    /// Does the rest of the turn.
    #[tactic(auto, using(crate::proofs::Recovering::refinished))]
    fn refinish(&mut self) -> Result<(), RecoveryFault>
        ensures { Refinished self.old result self.new }
    {
        match self.finish() {
            Ok(()) => Ok(()),
            Err(why) => Err(told_of_turn(why)),
        }
    }

    /// Adds the file of a record.
    #[tactic(auto, using(crate::proofs::Recovering::joined_again, crate::proofs::Recovering::joined_not))]
    fn retake_file(&mut self, name: &[u8], text: &[u8]) -> Result<(), RecoveryFault>
        requires { IsResting self.old }
        ensures { Retaken self.old (Joined name.now text.now) result self.new }
    {
        match self.add_file(name, text) {
            Ok(_) => Ok(()),
            Err(why) => Err(told_of_add(why)),
        }
    }

    /// Marks the file of a record.
    #[tactic(auto, using(crate::proofs::Recovering::marked_again, crate::proofs::Recovering::marked_not))]
    fn retake_mark(&mut self, tag: u16) -> Result<(), RecoveryFault>
        requires { IsResting self.old }
        ensures { Retaken self.old (Marked tag) result self.new }
    {
        match self.mark_dirty(tag) {
            Ok(()) => self.refinish(),
            Err(why) => Err(told_of_mark(why)),
        }
    }

    /// Takes the connection of a record.
    #[tactic(auto, using(crate::proofs::Recovering::called_again, crate::proofs::Recovering::called_not))]
    fn retake_call(&mut self, hello: Hello) -> Result<(), RecoveryFault>
        requires { IsResting self.old }
        ensures { Retaken self.old (Called hello) result self.new }
    {
        match self.answer(&hello) {
            Ok(()) => Ok(()),
            Err(_) => Err(RecoveryFault::NotTaken),
        }
    }

    /// Feeds the link the piece of a record, and does what follows.
    #[tactic(auto, using(crate::proofs::Recovering::came_again, crate::proofs::Recovering::came_not))]
    fn retake_piece(&mut self, attempt: u64, piece: &[u8]) -> Result<(), RecoveryFault>
        requires { IsResting self.old }
        ensures { Retaken self.old (Came attempt piece.now) result self.new }
    {
        match self.feed(attempt, piece) {
            Ok(()) => self.refinish(),
            Err(why) => Err(told_of_feed(why)),
        }
    }

    /// Puts the message of a record.
    #[tactic(auto, using(crate::proofs::Recovering::said_again, crate::proofs::Recovering::said_not))]
    fn retake_note(&mut self, message: &[u8]) -> Result<(), RecoveryFault>
        requires { IsResting self.old }
        ensures { Retaken self.old (Said message.now) result self.new }
    {
        match self.put_note(message) {
            Ok(()) => Ok(()),
            Err(why) => Err(told_of_note(why)),
        }
    }

    /// Acknowledges what came.
    #[tactic(auto, using(crate::proofs::Recovering::acknowledged_again, crate::proofs::Recovering::acknowledged_not))]
    fn retake_acknowledgement(&mut self) -> Result<(), RecoveryFault>
        requires { IsResting self.old }
        ensures { Retaken self.old Acknowledged result self.new }
    {
        match self.acknowledge() {
            Ok(()) => Ok(()),
            Err(why) => Err(told_of_put(why)),
        }
    }

    /// Asks the terminal to acknowledge.
    #[tactic(auto, using(crate::proofs::Recovering::asked_again, crate::proofs::Recovering::asked_not))]
    fn retake_question(&mut self) -> Result<(), RecoveryFault>
        requires { IsResting self.old }
        ensures { Retaken self.old Asked result self.new }
    {
        match self.ask() {
            Ok(()) => Ok(()),
            Err(why) => Err(told_of_put(why)),
        }
    }

    /// Drops the effect that is done, and does what follows.
    #[tactic(auto, using(crate::proofs::Recovering::done_again, crate::proofs::Recovering::done_not))]
    fn retake_ending(&mut self, ending: u64) -> Result<(), RecoveryFault>
        requires { IsResting self.old }
        ensures { Retaken self.old (Done ending) result self.new }
    {
        if self.drop_effect() {
            return self.refinish();
        }
        Err(RecoveryFault::NotTaken)
    }

    /// Takes the record, to the end of its turn. After an error the turn is of no use.
    pub(crate) fn retake(&mut self, taken: Record<'_>) -> Result<(), RecoveryFault>
        requires { IsResting self.old }
        ensures { Retaken self.old (plain taken.entry) result self.new }
    {
        match taken {
            Record::Joined(name, text) => self.retake_file(name, text),
            Record::Marked(tag) => self.retake_mark(tag),
            Record::Called(hello) => self.retake_call(hello),
            Record::Came(attempt, piece) => self.retake_piece(attempt, piece),
            Record::Said(message) => self.retake_note(message),
            Record::Acknowledged => self.retake_acknowledgement(),
            Record::Asked => self.retake_question(),
            Record::Done(ending) => self.retake_ending(ending),
        }
    }
}
