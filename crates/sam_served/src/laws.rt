//! The laws of a session whose host may crash, stated by the clauses of functions that do nothing.
//!
//! The first four speak of the calls of a link, the others of a server: a host endpoint with its end of a link, and with records of what it
//! was given. The last two speak of the calls of a program.
ghost use Rattle.sam_served.specs.Crashes.{CrashesAreBreaks, EndsAreMade};
ghost use Rattle.sam_served.specs.Gates.{GateIsCounted};
ghost use Rattle.sam_served.specs.Heirs.{HeirsAreServed};
ghost use Rattle.sam_served.specs.Journals.{JournalsAreCrashes};
ghost use Rattle.sam_served.specs.Marks.{GatesKeepTheRule, MarksAreRight};
ghost use Rattle.sam_served.specs.Programs.{ProgramsAreServed};
ghost use Rattle.sam_served.specs.Recoveries.{RecoveriesAreCrashes, RecoveriesGoOn};
ghost use Rattle.sam_served.specs.Serving.{ServedAreMade, ServedAreSessions};
ghost use Rattle.sam_served.specs.Sessions.{CrashedAreOneRun, CrashesCarry, ServedAreOneRun, ServedFindNoFault};
ghost use Rattle.sam_served.specs.Turns.{TurnsAreCalls};

/// States that a crash is a break: a session whose host may crash at any moment, and then goes on from a front of its calls, is a session
/// without crashes, for the terminal call by call. The calls of its host are those that the crashes left, and a break for each crash. And
/// of whatever front a crash may leave, an end is made.
pub fn crashes_are_breaks()
    ensures breaks { CrashesAreBreaks }
    ensures made { EndsAreMade }
{}

/// States that over any calls, breaks and crashes what came out at each end is the first of what was put at the other, and neither finds a
/// fault in what the other sends: so no hello after a crash is refused for a wrong count.
pub fn crashes_carry()
    ensures { CrashesCarry }
{}

/// States that two endpoints over a link, whose connections may break and whose host may crash, are where one run of a world leaves them.
pub fn crashed_are_one_run()
    ensures { CrashedAreOneRun }
{}

/// States that what may go out can be counted: of the durable calls it is enough to know how many bytes were put by then, and that the
/// connection was taken by then.
pub fn gate_is_counted()
    ensures { GateIsCounted }
{}

/// States that a gate of sam_server keeps the rule: where a server stands, there stands the one that is made of its records, so the mark
/// that it has behind a record is that record's; and where the base of a gate is the mark of the durable records, what the gate allows may
/// go out.
pub fn gates_keep_the_rule()
    ensures marks { MarksAreRight }
    ensures gates { GatesKeepTheRule }
{}

/// States that what a server does with a record is calls of its link and of its endpoint, between which all bytes were moved.
pub fn turns_are_calls()
    ensures { TurnsAreCalls }
{}

/// States that a session whose host is a server, which may crash at any moment and is then made of a front of its records, is a session
/// without crashes; and that of whatever front a crash may leave a server is made.
pub fn served_are_sessions()
    ensures sessions { ServedAreSessions }
    ensures made { ServedAreMade }
{}

/// States that a server which `Recovery` makes of the bodies of the first records of such a session, all durable ones among them, is the
/// server of the definition after that crash; and that none of these bodies is refused but for memory.
pub fn recoveries_are_crashes()
    ensures crashes { RecoveriesAreCrashes }
    ensures go_on { RecoveriesGoOn }
{}

/// States that no hello is refused for a wrong count, and that two ends of such a session are where one run of a world leaves them.
pub fn served_are_one_run()
    ensures hellos { ServedFindNoFault }
    ensures one_run { ServedAreOneRun }
{}

/// States that a program whose calls are those of `DurableServer` and `Recovery`, in any order, over connections that break, and which may
/// be killed at any moment, is a server of the definition: so all that the laws say of its sessions holds of the program's.
pub fn programs_are_served()
    ensures { ProgramsAreServed }
{}

/// States that a program whose server begins with the texts of another, as `heir` makes it, is one that took a record for each file: so
/// whatever calls follow, with any crashes, are a session of the definition too.
pub fn heirs_are_served()
    ensures { HeirsAreServed }
{}

/// States that a crash of a program that keeps its records in a file of sam_journal is a crash of the program: of whatever front the crash
/// leaves, with all that was durable, `read` answers the first so many records, and their bodies lead on.
pub fn journals_are_crashes()
    ensures { JournalsAreCrashes }
{}
