//! The laws of a client and of a durable server, stated by the clauses of functions that do nothing.
ghost use Rattle.sam_end_to_end.specs.Delivery.{HasAllIsTrue};
ghost use Rattle.sam_end_to_end.specs.Heirs.{HeirsAreSessions};
ghost use Rattle.sam_end_to_end.specs.Journals.{JournalsAreCrashes};
ghost use Rattle.sam_end_to_end.specs.Sessions.{SessionsAreOneRun};
ghost use Rattle.sam_end_to_end.specs.Stopping.{ClientsStopForFullCounts};

/// States that whatever a client does, as long as its end doesn't stop, and whatever a program does with a durable server, over any
/// connections and with any crashes, client and server are where one run of a world leaves them, neither stops but for a full count, and
/// what the client's end shows is what the editor without a network shows. And that no act stops the client's end but for a full count.
pub fn sessions_are_one_run()
    ensures one_run { SessionsAreOneRun }
    ensures stops { ClientsStopForFullCounts }
{}

/// States that where a client says that the host has all, each message that its end composed and each note came out at the server's end of
/// the link, or waits there, in their order; and so it is after each crash.
pub fn has_all_is_true()
    ensures { HasAllIsTrue }
{}

/// States that a session which begins with an heir, the server of a program for another terminal that takes the texts over, is one of these
/// sessions, in which the program adds the files first.
pub fn heirs_are_sessions()
    ensures { HeirsAreSessions }
{}

/// States that a crash of a session whose program keeps its records in a file of sam_journal is one of these events: of whatever front the
/// crash leaves, with all that was durable, `read` answers the first so many records, and their bodies lead on.
pub fn journals_are_crashes()
    ensures { JournalsAreCrashes }
{}
