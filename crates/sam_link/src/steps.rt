//! Each call of an end is a step of a session: what the laws of two ends suppose of a call is what its own clauses say.

ghost use Rattle.std.specs.Prelude.{◌≤◌, length};
ghost use Rattle.sam_link.specs.Calls.{Does, DoesInto, DoesPlaces};
ghost use Rattle.sam_link.specs.Calls.Call.{Acknowledge, Answer, Ask, Break, Dial, Feed, NextNote, Put, PutNote, TakeIn, TakeOut, Welcome};
ghost use Rattle.sam_link.specs.Inbox.{note_in};

use crate::fault::{AnswerFault, CallFault, FeedFault, NotOpen, NoteFault, WelcomeFault};
use crate::hello::Hello;
use crate::inbox::Place;
use crate::keeping::PutFault;
use crate::link::Link;

/// `Link::call`.
pub fn call(link: &mut Link, take_over: bool) -> Result<u64, CallFault>
    ensures { Does link.old (Dial take_over result) link.new }
{
    link.call(take_over)
}

/// `Link::answer`.
pub fn answer(link: &mut Link, hello: &Hello) -> Result<(), AnswerFault>
    ensures { Does link.old (Answer hello.now result) link.new }
{
    link.answer(hello)
}

/// `Link::welcomed`.
pub fn welcomed(link: &mut Link, hello: &Hello) -> Result<(), WelcomeFault>
    ensures { Does link.old (Welcome hello.now result) link.new }
{
    link.welcomed(hello)
}

/// `Link::broken`.
pub fn broken(link: &mut Link, attempt: u64)
    ensures { Does link.old (Break attempt) link.new }
{
    link.broken(attempt);
}

/// `Link::put`.
pub fn put(link: &mut Link, bytes: &[u8]) -> Result<(), PutFault>
    ensures { Does link.old (Put bytes.now result) link.new }
{
    link.put(bytes)
}

/// `Link::put_note`.
pub fn put_note(link: &mut Link, bytes: &[u8]) -> Result<(), NoteFault>
    ensures { Does link.old (PutNote bytes.now result) link.new }
{
    link.put_note(bytes)
}

/// `Link::ask`.
pub fn ask(link: &mut Link) -> Result<(), PutFault>
    ensures { Does link.old (Ask result) link.new }
{
    link.ask()
}

/// `Link::acknowledge`.
pub fn acknowledge(link: &mut Link) -> Result<(), PutFault>
    ensures { Does link.old (Acknowledge result) link.new }
{
    link.acknowledge()
}

/// `Link::take_out`.
pub fn take_out(link: &mut Link, attempt: u64, into: &mut [u8]) -> Result<usize, NotOpen>
    ensures { Does link.old (TakeOut attempt into.old result into.new) link.new }
{
    link.take_out(attempt, into)
}

/// `Link::feed`.
pub fn feed(link: &mut Link, attempt: u64, piece: &[u8]) -> Result<(), FeedFault>
    ensures { Does link.old (Feed attempt piece.now result) link.new }
{
    link.feed(attempt, piece)
}

/// `Link::feed_into`: it is a feed, and if that is well, calls of `take_in`.
#[tactic(auto, using(crate::proofs::TakingCalls::as_calls))]
pub fn feed_into(
    link: &mut Link,
    attempt: u64,
    piece: &[u8],
    into: &mut [u8],
) -> Result<usize, FeedFault>
    ensures { DoesInto link.old attempt piece.now result into.new link.new }
{
    link.feed_into(attempt, piece, into)
}

/// `Link::feed_places`: it is a feed, and if that is well, calls of `take_in` that move the bytes which lie at the places.
#[tactic(auto, using(crate::proofs::TakingCalls::places_as_calls))]
pub fn feed_places(
    link: &mut Link,
    attempt: u64,
    piece: &[u8],
    places: &mut [Place],
) -> Result<usize, FeedFault>
    ensures { DoesPlaces link.old attempt piece.now result places.new link.new }
{
    link.feed_places(attempt, piece, places)
}

/// `Link::take_in`.
pub fn take_in(link: &mut Link, into: &mut [u8]) -> usize
    ensures { Does link.old (TakeIn into.old result into.new) link.new }
{
    link.take_in(into)
}

/// `Link::next_note`.
pub fn next_note(link: &mut Link, into: &mut [u8]) -> Option<usize>
    requires { 4096 ≤ length into.old }
    ensures { Does link.old (NextNote (note_in result into.new)) link.new }
{
    link.next_note(into)
}
