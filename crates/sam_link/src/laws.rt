//! Laws of a link, as functions that do nothing.

ghost use Rattle.std.specs.Prelude.{◌≡◌, List, Option, Result, ℕ};
ghost use Rattle.sam_link.specs.Feeding.{OneFeed};
ghost use Rattle.sam_link.specs.Hellos.{IsHello, ReadsHello, spelled};
ghost use Rattle.sam_link.specs.declared.hello.Hello.{Hello};
ghost use Rattle.sam_link.specs.declared.hello.Refusal.{Refusal};
ghost use Rattle.sam_link.specs.Meeting.{CarriedIsAll, ConnectionsAreMade, GoodLineDelivers, HonestMeet, LacksAreKept};
ghost use Rattle.sam_link.specs.Sessions.{LinksCarry};
ghost use Rattle.sam_link.specs.Turns.{HellosAreTaken, NewConnectionsMeet, TurnsDeliver};

/// States that no two hellos have the same bytes: so a hello is read as the one that was written.
#[tactic(auto, using(crate::proofs::HelloLaws::one_hello))]
pub fn one_hello()
    ensures { (g h : Hello) → IsHello g → IsHello h → spelled g ≡ spelled h → g ≡ h }
{}

/// States that no bytes are read in two ways: `read_hello` has one answer to them.
#[tactic(auto, using(crate::proofs::HelloLaws::one_reading))]
pub fn one_reading()
    ensures { (bytes : List ℕ) (a b : Result (Option Hello) Refusal) → ReadsHello bytes a → ReadsHello bytes b → a ≡ b }
{}

/// States that but for memory there is one answer to a piece, and one end that it leaves.
pub fn one_feed()
    ensures { OneFeed }
{}

/// States that whatever calls two ends of a session get, over any connections, broken anywhere, what comes out at each is the first of
/// what was put at the other: each byte and each note once, in their order.
pub fn links_carry()
    ensures { LinksCarry }
{}

/// States that two such ends find no fault in what the other sends. Of each other's hellos they refuse only one of a connection that is
/// not newer than the newest (`OldAttempt`), and no piece is `Wrong` or `AckAhead`.
pub fn honest_meet()
    ensures { HonestMeet }
{}

/// States that at any moment what each of two such ends keeps is its stream from the acknowledged count on, and holds all that the other
/// has not received; and that once a connection has carried all, all that was put came out or waits there, and each keeps fewer than 16,384
/// bytes, unless the other can't count an acknowledgement more.
pub fn carried_is_all()
    ensures kept { LacksAreKept }
    ensures carried { CarriedIsAll }
{}

/// States that a line which breaks no more delivers everything. Once two such ends have said hello on one connection, an end may take out
/// what it has, and the other takes what comes, unless memory is refused or a count is full. After one turn all that the first had put came
/// out, or waits there.
pub fn good_line_delivers()
    ensures { GoodLineDelivers }
{}

/// States that such ends come together: the terminal's next connection is newer than any that the host has taken, the host takes its
/// hello, and the terminal the host's. Whoever reads the bytes that went there reads just these hellos; and once the terminal has taken
/// the host's, both have said hello on one connection.
pub fn connections_are_made()
    ensures made { ConnectionsAreMade }
    ensures taken { HellosAreTaken }
    ensures met { NewConnectionsMeet }
{}

/// States that where two such ends have said hello on one connection, a turn up and a turn down bring all: what was put at either end came
/// out at the other, or waits there. Before, between and after the turns there may be any calls, if the end whose turn it was puts nothing
/// more.
pub fn turns_deliver()
    ensures { TurnsDeliver }
{}
