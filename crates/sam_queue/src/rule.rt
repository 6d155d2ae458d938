//! What the passes of a line know, the line's rule, and what each step of a pass reports. A pass is what one end knows of the
//! queue; it has no bytes. So of the types below only `Entry` has values when the program runs: the others are for proofs.
use crossbeam_queue::protocol::{Join, Lesson, Outcome, Protocol, Split};
use std::collections::LinkedList;

/// An entry of a line's history: an item of a sender, or its end mark. The line's queue holds the entries that were not taken yet.
#[derive(Drop)]
pub struct Entry<T> {
    /// The number of the sender, counted from 0. It is less than the line's number of senders.
    pub sender: usize,
    /// The item, or `None` for the end mark.
    pub load: Option<T>,
}

/// What a post knows: its number, the number of senders, and what it has put. No value of it is made.
pub struct Sent<T> {
    /// The number of its sender, less than `senders`.
    pub number: usize,
    /// How many senders the line has.
    pub senders: usize,
    /// The items that it has put, in order.
    pub put: LinkedList<T>,
    /// Whether it has put its end mark.
    pub closed: bool,
}

/// What the take knows: how many posts were made, what was taken, how far the history was seen, and what the posts that it has taken
/// in had put. No value of it is made.
pub struct Received<T> {
    /// How many senders the line has.
    pub senders: usize,
    /// How many posts were made, at most `senders`.
    pub made: usize,
    /// All that was taken, in order.
    pub taken: LinkedList<Entry<T>>,
    /// The history as it stood when an entry was last taken. It begins with `taken`.
    pub seen: LinkedList<Entry<T>>,
    /// What the posts had put that an audit has taken in, by their numbers. These posts are gone.
    pub gathered: LinkedList<Sent<T>>,
}

/// What a pass knows, with a variant for each kind of pass. No value of it is made.
pub enum Port<T> {
    /// The pass of a post.
    Sends(Sent<T>),
    /// The pass of the take, and before the ends are made, that of the start.
    Receives(Received<T>),
    /// A pass that knows nothing any more.
    Spent,
}

/// The rule of a line: what was taken and what it holds is one history, in which each sender's part is what it put. Each step
/// below keeps it, which proofs/Steps.antt shows.
pub struct OneHistory;

impl<T> Protocol<Entry<T>, Port<T>> for OneHistory {
    ghost use Rattle.sam_queue.specs.Rule.{Ruled, first_port};

    ghost holds = { Ruled };

    ghost first = { first_port };
}

/// The step that gives the first pass one sender more. It comes before any post is made.
pub struct Widen;

impl<T> Split<Port<T>> for Widen {
    ghost use Rattle.sam_queue.specs.declared.rule.Port.TheVariants.{Spent};
    ghost use Rattle.sam_queue.specs.Rule.{with_sender};

    ghost left = { with_sender };

    ghost right = { λ v. Spent };
}

/// The step that makes the pass of the next post. That post has put nothing.
pub struct NextPost;

impl<T> Split<Port<T>> for NextPost {
    ghost use Rattle.sam_queue.specs.Rule.{with_made, next_post};

    ghost left = { with_made };

    ghost right = { next_post };
}

/// The step by which an audit takes a post in: the take then knows what the post has put in all. The post's pass is spent.
pub struct Gather;

impl<T> Join<Port<T>> for Gather {
    ghost use Rattle.sam_queue.specs.declared.rule.Port.TheVariants.{Spent};
    ghost use Rattle.sam_queue.specs.Rule.{with_post};

    ghost both = { with_post };

    ghost spent = { Spent };
}

/// A post's push, of an item or of its end mark. If it finds the line full, the post learns `Stands` of what the line held then: a line
/// of one sender holds no more than its post has put.
pub struct Sending;

impl<T> Outcome<Entry<T>, Port<T>> for Sending {
    ghost use Rattle.std.specs.Prelude.{◌≡◌};
    ghost use Rattle.sam_queue.specs.Rule.{with_entry};

    ghost then = { λ v e w. w ≡ with_entry v e };
}

impl<T> Lesson<Entry<T>, Port<T>> for Sending {
    ghost use Rattle.sam_queue.specs.Rule.{Stands};

    ghost fact = { Stands };
}

/// A pop by the take or by an audit. If it finds the line empty, the take learns `Whole`: what the line held then is all of the history
/// that was not taken.
pub struct Taking;

impl<T> Outcome<Entry<T>, Port<T>> for Taking {
    ghost use Rattle.sam_queue.specs.Rule.{Takes};

    ghost then = { Takes };
}

impl<T> Lesson<Entry<T>, Port<T>> for Taking {
    ghost use Rattle.sam_queue.specs.Rule.{Whole};

    ghost fact = { Whole };
}
