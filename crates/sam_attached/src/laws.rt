//! The laws of a client, stated by the clauses of functions that do nothing.
ghost use Rattle.sam_attached.specs.Delivery.{HasAllIsTrue};
ghost use Rattle.sam_attached.specs.Runs.{ClientsAreCalls, NotesComeBehind};
ghost use Rattle.sam_attached.specs.Sessions.{ClientsAreLinked, ClientsAreOneRun};
ghost use Rattle.sam_attached.specs.Resting.{RestingClientsAreDone};
ghost use Rattle.sam_attached.specs.Times.{ClientsAreNeverStuck, ClientsAreTimely};

/// States that what a client does is calls of its terminal's end and of its line, between which each byte goes once and in order, with each
/// note at its place; and that a note is handed on only once the end has received all bytes in front of it.
pub fn clients_are_calls()
    ensures calls { ClientsAreCalls }
    ensures notes { NotesComeBehind }
{}

/// States that in a session whose terminal is a client the terminal's half of what links suppose of programs holds: of what its end
/// composed the first went into the link, and of what came out of the link the end took the first.
pub fn clients_are_linked()
    ensures { ClientsAreLinked }
{}

/// States that a client and a host endpoint at its end of the link, over any connections, are where one run of a world leaves them.
pub fn clients_are_one_run()
    ensures { ClientsAreOneRun }
{}

/// States that where a client says that the host has all, each message that its end composed and each note came out at the host's end of
/// the link, or waits there, in their order; and that its end composed all that its events and edits led to.
pub fn has_all_is_true()
    ensures { HasAllIsTrue }
{}

/// States that each client waits only for what has begun, and for 30 seconds at most. So its `due_in` is exact, as that of a line is.
pub fn clients_are_timely()
    ensures { ClientsAreTimely }
{}

/// States that no client is stuck: where an answer is due, three ticks that are 30 seconds apart say "drop" and "connect". And where
/// nothing moves any more at a client (`Client::go_on` answers `Idle`) and nothing is under way, no lock is held, and neither a request nor
/// an edit waits, unless the session is over, a count is full, or a text has no room for what waits over it.
pub fn clients_are_never_stuck()
    ensures lines { ClientsAreNeverStuck }
    ensures requests { RestingClientsAreDone }
{}
