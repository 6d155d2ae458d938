//! Ends of a link whose counts are near 2^64-1, where no session comes: what each call answers there, and what stays as it was.
use sam_link::{
    AnswerFault, CallFault, Counts, FeedFault, Hello, Id, Link, NoteFault, PacketFault, Phase,
    PutFault, Refusal, Role, What,
};
use sam_test_support::lent;
use std::alloc::Global;

const LAST: u64 = u64::MAX;

const ID: Id = Id { first: 1, last: 2 };

/// An end that has come so far.
fn end(alloc: Global, role: Role, attempt: u64, put: u64, received: u64) -> Link {
    let counts = Counts {
        attempt,
        put,
        received,
    };
    Link::with_counts(alloc, role, ID, counts)
}

/// What a side says at this attempt, to which so many bytes have come.
fn hello(what: What, attempt: u64, received: u64) -> Hello {
    Hello {
        what,
        id: ID,
        attempt,
        received,
    }
}

#[test]
fn last_attempt(rt: HostRuntime) {
    let called = lent(end(rt.alloc(), Role::Terminal, LAST - 1, 0, 0), |link| {
        (
            link.call(false),
            link.call(true),
            link.attempt(),
            link.phase(),
        )
    });
    let full = Err(CallFault::CountFull);
    assert_eq!(rt; called, (Ok(LAST), full, LAST, Phase::Asking));
}

#[test]
fn last_attempt_of_a_host(rt: HostRuntime) {
    let last = hello(What::Resume, LAST, 0);
    let first = hello(What::Begin, LAST - 1, 0);
    let answered = lent(end(rt.alloc(), Role::Host, LAST - 2, 0, 0), |link| {
        (
            link.answer(&first),
            link.answer(&last),
            link.answer(&last),
            link.attempt(),
        )
    });
    let old = Err(AnswerFault::Refused(Refusal::OldAttempt));
    assert_eq!(rt; answered, (Ok(()), Ok(()), old, LAST));
}

#[test]
fn no_room_to_put(rt: HostRuntime) {
    let refused = lent(end(rt.alloc(), Role::Terminal, 0, LAST - 10, 0), |link| {
        (
            (link.put(&[7; 8]), link.acknowledge()),
            (link.put_note(&[7; 8]), link.put_note(&[7; 4097])),
            (link.put_len(), link.unsent()),
        )
    });
    let full = Err(PutFault::CountFull);
    let notes = (Err(NoteFault::CountFull), Err(NoteFault::TooLong));
    assert_eq!(rt; refused, ((full, full), notes, (LAST - 10, 0)));
}

#[test]
fn last_byte_put(rt: HostRuntime) {
    let put = lent(end(rt.alloc(), Role::Terminal, 0, LAST - 10, 0), |link| {
        (
            (link.ask(), link.put(&[7; 4])),
            (link.ask(), link.put(&[])),
            (link.put_len(), link.unsent()),
        )
    });
    let full = Err(PutFault::CountFull);
    assert_eq!(rt; put, ((Ok(()), Ok(())), (full, Ok(())), (LAST, 10)));
}

#[test]
fn no_room_to_receive(rt: HostRuntime) {
    let begin = hello(What::Begin, 1, 0);
    let refused = lent(end(rt.alloc(), Role::Host, 0, 0, LAST - 4), |link| {
        (
            (link.answer(&begin).is_ok(), link.feed(1, &[9; 5])),
            (link.feed(2, &[9; 5]), link.received(), link.phase()),
        )
    });
    let full = Err(FeedFault::CountFull);
    let other = Err(FeedFault::NotOpen);
    assert_eq!(rt; refused, ((true, full), (other, LAST - 4, Phase::Open)));
}

#[test]
fn last_byte_received(rt: HostRuntime) {
    let begin = hello(What::Begin, 1, LAST - 10);
    let fed = lent(
        end(rt.alloc(), Role::Host, 0, LAST - 10, LAST - 4),
        |link| {
            (
                (link.answer(&begin).is_ok(), link.feed(1, &[4, 0, 0])),
                // The acknowledgement that is asked for has no room, and is left out.
                (link.put_len(), link.feed(1, &[1]), link.received()),
                (link.feed(1, &[]), link.feed(1, &[0])),
            )
        },
    );
    let taken = (LAST - 10, Ok(()), LAST);
    let full = Err(FeedFault::CountFull);
    assert_eq!(rt; fed, ((true, Ok(())), taken, (Ok(()), full)));
}

#[test]
fn wrong_at_the_last_byte(rt: HostRuntime) {
    let begin = hello(What::Begin, 1, 0);
    let fed = lent(end(rt.alloc(), Role::Host, 0, 0, LAST - 1), |link| {
        (
            (link.answer(&begin).is_ok(), link.feed(1, &[9])),
            (link.received(), link.phase()),
        )
    });
    let wrong = Err(FeedFault::Wrong(PacketFault::BadKind));
    assert_eq!(rt; fed, ((true, wrong), (LAST - 1, Phase::Down)));
}

#[test]
fn count_above_all(rt: HostRuntime) {
    let above = hello(What::Begin, 1, LAST);
    let refused = lent(end(rt.alloc(), Role::Host, 0, LAST - 1, 0), |link| {
        (link.answer(&above), link.acknowledged(), link.phase())
    });
    let wrong = Err(AnswerFault::Refused(Refusal::WrongCount));
    assert_eq!(rt; refused, (wrong, LAST - 1, Phase::Down));
}
