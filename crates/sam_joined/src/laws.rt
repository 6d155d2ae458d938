//! The laws of two endpoints, stated by the clauses of functions that do nothing.
//!
//! Each but the first and the last speaks of two endpoints between which bytes were carried (`AreCarried`), and of all files that joined
//! the host endpoint or were marked as dirty there, whenever they were. The first says that all calls come to this. The last speaks of a
//! terminal endpoint alone.
ghost use Rattle.sam_joined.specs.Calls.{CallsAreCarried, NoCallStopsTheHost, NoCallStopsTheTerminal};
ghost use Rattle.sam_joined.specs.ChangesOverCalls.{CallsKeep, ChangesAreExact, FirstChangeIsExact, TerminalsStaySound};
ghost use Rattle.sam_joined.specs.Linked.{GoodLineCarries, LinkedAreOneRun, LinksAreOneLine, MovedIsCarried, TypedIsInTheText};
ghost use Rattle.sam_joined.specs.Linked.{NoCallStopsTheLinkedHost, NoCallStopsTheLinkedTerminal};
ghost use Rattle.sam_joined.specs.Joined.{CarriedAgree, EndpointsJoin, JoinedAreAsIfLocal, NeitherStops, NeverStuck};

/// States that whatever calls two endpoints get, steps among them, in whatever pieces and whenever memory is refused, bytes were carried
/// between them, as long as what came in at each is the first of what the other handed out or has pending; and files may join or be
/// marked at any time. So it is, too, where a last call stops one of them, and then a count is full.
pub fn calls_are_carried()
    ensures carried { CallsAreCarried }
    ensures host { NoCallStopsTheHost }
    ensures terminal { NoCallStopsTheTerminal }
{}

/// States that two endpoints, each of which took in the first of the bytes that the other handed out or has pending, are where one run of a
/// world of the host's first files leaves them. Each other file joins there once the host has taken as many messages as it had answered
/// when the file was added, and so with files that are marked as dirty. What is under way is what stands between them: the bytes on their
/// way, and what either endpoint keeps.
pub fn endpoints_join()
    ensures { EndpointsJoin }
{}

/// States that neither endpoint reads a fault in the other's stream or is refused by the other: it stops only where a count would pass
/// 2^64-1.
pub fn neither_endpoint_stops()
    ensures { NeitherStops }
{}

/// States that where all bytes were carried, nothing waits and no rune is unsent, no lock is held, each loaded rune of an open file is the
/// host's there, and both endpoints have the same files open. Neither holds half a frame.
pub fn carried_endpoints_agree()
    ensures { CarriedAgree }
{}

/// States that at any moment an open file that is not locked is shown as all that was done, in its order, leaves it in the editor without a
/// network: the events that have acted, which are all that the user put but those that are still held, and the files that joined. A file
/// joins there just before the first event whose message the host had not answered when it was added, as far as any answer can tell: it is
/// there for that event and all later ones, and for none that was answered. Where all was carried, host and terminal are where this leads
/// that editor, but for runes that are not loaded and for counts of messages. A file that was marked as dirty, and not written or closed
/// since, may be dirty though it is clean there; then host and terminal both have it so. So it is whichever run led to them.
pub fn endpoints_are_as_if_local()
    ensures { JoinedAreAsIfLocal }
{}

/// States that no order of calls leaves two endpoints stuck. Where all was carried and the terminal can't act, as after each call that ends
/// well, nothing is held or locked and no request awaits its data, unless a count is full.
pub fn endpoints_are_never_stuck()
    ensures { NeverStuck }
{}

/// States that two endpoints over a link, whose connections may break anywhere, are two endpoints over one unbroken line: so every law here
/// holds of them. What each took in is the first of what the other handed out or has pending; it is all of that once a connection has
/// carried all and both programs have moved all. So they are where one run of a world leaves them, neither stops but for a full count, and
/// an unlocked open file shows what the editor without a network shows, but for the host's mark of a file that was marked as dirty. Where a
/// last call stops one of them, a count is full, and of what it brought all was taken or nothing.
pub fn endpoints_are_linked()
    ensures line { LinksAreOneLine }
    ensures all { MovedIsCarried }
    ensures one_run { LinkedAreOneRun }
    ensures host { NoCallStopsTheLinkedHost }
    ensures terminal { NoCallStopsTheLinkedTerminal }
{}

/// States that what was typed is in the host's text once a line is good. After any calls of two endpoints over a link, whatever broke, both
/// ends have met on a connection, as any new one leads to (`connections_are_made` of sam_link); each takes a turn, and each program moves
/// all between its endpoint and the link. Then nothing is on its way. Where neither endpoint has anything left to do, and no count is full,
/// nothing is held, locked or awaited; all that the user did was done, in its order, and the host's files are those of the editor without a
/// network after that. If no file was marked as dirty, so it is with their marks, too.
///
/// How many turns this takes is not said: each answer of the host may let held events act, whose messages want another turn.
pub fn typed_is_in_the_text()
    ensures carries { GoodLineCarries }
    ensures typed { TypedIsInTheText }
{}

/// States that between two answers of `TermEndpoint::changed` about one file, its text changed by just what the second says, whatever calls
/// stand between. It may be asked of other files there, and a call may stop the endpoint. The first answer about a file says by what its
/// text differs from an empty one. So it is because what is kept of a text stays kept over each call.
pub fn changes_are_exact()
    ensures sound { TerminalsStaySound }
    ensures keep { CallsKeep }
    ensures between { ChangesAreExact }
    ensures first { FirstChangeIsExact }
{}
