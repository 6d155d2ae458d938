//! Laws of a line, as functions that do nothing.

ghost use Rattle.sam_line.specs.Calls.{LinesAreLinks};
ghost use Rattle.sam_line.specs.Laws.{AllPausesGrow, DueInIsExact, JumpsSayOnce, LinesAreTimely, MissingForAMinute, NeverStuck, PiecesComeAgain, WordsAreFew};
ghost use Rattle.sam_line.specs.Sessions.{HasAllIsTrue, LinesCarry};

/// States that whatever calls a line gets, its link is an end that gets calls: what the program puts goes into the link once and in order,
/// each note at its place, and what comes goes to the program so. So the laws of links hold of lines.
pub fn lines_are_links()
    ensures { LinesAreLinks }
{}

/// States that each line waits only for what has begun, and for 30 seconds at most.
pub fn lines_are_timely()
    ensures { LinesAreTimely }
{}

/// States that `due_in` is exact: until then `tick` says nothing, and from then on something.
pub fn due_in_is_exact()
    ensures { DueInIsExact }
{}

/// States that no line is stuck: where an answer is due, three ticks that are 30 seconds apart say "drop" and "connect".
pub fn never_stuck()
    ensures { NeverStuck }
{}

/// States that after a jump of the clock there is one "drop" at most, and one "connect", however many ticks come.
pub fn jumps_say_once()
    ensures { JumpsSayOnce }
{}

/// States that pauses grow, up to 30 seconds.
pub fn pauses_grow()
    ensures { AllPausesGrow }
{}

/// States that a line whose session was there is lost only once it was missing for a minute.
pub fn missing_for_a_minute()
    ensures { MissingForAMinute }
{}

/// States that what comes before the host's hello takes a bounded room.
pub fn words_are_few()
    ensures { WordsAreFew }
{}

/// States that a piece which was refused memory, given again, does what it would have done at once.
pub fn pieces_come_again()
    ensures { PiecesComeAgain }
{}

/// States that whatever calls a line and a host's end of its session get, over any connections, broken anywhere, what comes out at each is
/// the first of what was put at the other: each byte and each note once, in their order. Each connection may bring words first.
pub fn lines_carry()
    ensures { LinesCarry }
{}

/// States that where a line says that all is acknowledged, the host has received all of the stream up to the last that was put: each byte
/// and each note that was put came out there, or waits there, in their order.
pub fn has_all_is_true()
    ensures { HasAllIsTrue }
{}
