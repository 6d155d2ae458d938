//! What holds of a host and a terminal that work apart from each other, joined only by streams of bytes.
ghost use Rattle.sam_apart.specs.Apart.{ApartSidesJoin, ApartSidesUnderstand};

/// States that a host and a terminal that worked apart, each at its own pace, are one run of the world. The terminal's log, merged with
/// the number of messages that the host took, is a schedule that leads from the first world to the states of both sides. What was composed
/// and not handled, and what was answered and not taken, is then under way.
///
/// Neither side refuses the other's next message, unless a count of messages would pass 2^64-1. Neither stream shows a fault, and a side
/// that comes to the end of a stream has read all its messages. The function does nothing; its clauses are the laws.
pub fn apart_sides_join()
    ensures joined { ApartSidesJoin }
    ensures understood { ApartSidesUnderstand }
{}
