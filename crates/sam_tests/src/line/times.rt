//! When a line says what, by the times that the pages tell.
use sam_line::{Deadline, Line, ReceiveFault, State, Tick};
use sam_link::{Id, Refusal};
use sam_test_support::lent;
use std::alloc::Global;

const ID: Id = Id {
    first: 0x0001_0203_0405_0607,
    last: 0x0809_0a0b_0c0d_0e0f,
};

/// The host's hello on a connection, with this word.
fn hello(what: u8, attempt: u8) -> [u8; 42] {
    let mut bytes = [0; 42];
    bytes[..8].copy_from_slice(b"\x89samlink");
    bytes[8] = 1;
    bytes[9] = what;
    bytes[10..26].copy_from_slice(
        b"\x00\x01\x02\x03\x04\x05\x06\x07\x08\x09\x0a\x0b\x0c\x0d\x0e\x0f",
    );
    bytes[33] = attempt;
    bytes
}

/// A line that begins at 0.
fn line(alloc: Global) -> Line {
    Line::new(alloc, ID, false, 0)
}

/// The first connection is made and welcomed at this time.
fn open(line: &mut Line, now: u64) -> bool {
    line.tick(now);
    let attempt = line.connected(now);
    let welcomed = line.receive(1, &hello(4, 1), now);
    attempt.is_ok() && welcomed.is_ok()
}

#[test]
fn first_connection_is_due_at_once(rt: HostRuntime) {
    let told = lent(line(rt.alloc()), |line| {
        (
            (line.due_in(0), line.tick(0), line.tick(0)),
            (line.due_in(0), line.tick(29_999), line.tick(30_000)),
        )
    });
    let first = (Some(0), Tick::Connect, Tick::Nothing);
    assert_eq!(rt; told, (first, (Some(30_000), Tick::Nothing, Tick::Drop)));
}

#[test]
fn pauses_grow_up_to_thirty_seconds(rt: HostRuntime) {
    let pauses = lent(line(rt.alloc()), |line| {
        let mut pauses = [0; 9];
        let mut now = 0u64;
        for pause in pauses.iter_mut() {
            *pause = line.due_in(now).unwrap_or(u64::MAX);
            now = now.saturating_add(*pause);
            line.tick(now);
            line.not_connected(now);
        }
        pauses
    });
    assert_eq!(rt;
        pauses,
        [0, 0, 1_000, 2_000, 4_000, 8_000, 16_000, 30_000, 30_000]
    );
}

#[test]
fn silence_is_asked_and_then_dropped(rt: HostRuntime) {
    let told = lent(line(rt.alloc()), |line| {
        (
            (open(line, 0), line.due_in(0), line.put(b"hi", 100)),
            (line.due_in(100), line.tick(15_099), line.tick(15_100)),
            (line.ask(15_100), line.silence(15_100), line.tick(30_099)),
            (line.tick(30_100), line.tick(30_100), line.tick(30_100)),
        )
    });
    let opened = (true, None, Ok(()));
    let asked = (Some(15_000), Tick::Nothing, Tick::Ask);
    let waits = (Ok(()), 15_000, Tick::Nothing);
    assert_eq!(rt;
        told,
        (
            opened,
            asked,
            waits,
            (Tick::Drop, Tick::Connect, Tick::Nothing)
        )
    );
}

#[test]
fn address_that_goes_leaves_two_seconds(rt: HostRuntime) {
    let told = lent(line(rt.alloc()), |line| {
        let opened = open(line, 0);
        line.address_changed(5_000);
        (
            (opened, line.due_in(5_000), line.ask(5_000)),
            (line.state(), line.tick(6_999), line.tick(7_000)),
        )
    });
    let late = State::Late(Deadline {
        since: 5_000,
        within: 2_000,
    });
    assert_eq!(rt;
        told,
        (
            (true, Some(2_000), Ok(())),
            (late, Tick::Nothing, Tick::Drop)
        )
    );
}

#[test]
fn session_that_was_there_is_missing_for_a_minute(rt: HostRuntime) {
    let told = lent(line(rt.alloc()), |line| {
        let opened = open(line, 0);
        line.broken(1, 500);
        let second = line.connected(1_000);
        let missing = line.receive(2, &hello(20, 2), 1_000);
        let third = line.connected(60_999);
        let still = line.receive(3, &hello(20, 3), 60_999);
        let paused = line.due_in(60_999);
        let fourth = line.connected(61_000);
        let over = line.receive(4, &hello(20, 4), 61_000);
        (
            (opened, second, third, fourth),
            (missing, still, over),
            (paused, line.due_in(61_000), line.state()),
        )
    });
    let gone = Err(ReceiveFault::Refused(Refusal::NoSession));
    let ends = (Some(2_000), None, State::Lost(Refusal::NoSession));
    assert_eq!(rt;
        told,
        ((true, Ok(2), Ok(3), Ok(4)), (gone, gone, gone), ends)
    );
}

#[test]
fn session_that_never_was_is_lost_at_once(rt: HostRuntime) {
    let told = lent(line(rt.alloc()), |line| {
        (
            line.connected(0),
            line.receive(1, &hello(20, 1), 0),
            line.state(),
        )
    });
    let gone = Err(ReceiveFault::Refused(Refusal::NoSession));
    assert_eq!(rt; told, (Ok(1), gone, State::Lost(Refusal::NoSession)));
}
