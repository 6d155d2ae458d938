//! What goes over connections, as docs/reference/LINK.md has it.
use sam_line::{Line, ReceiveFault, State};
use sam_link::Id;
use sam_test_support::lent;
use std::alloc::Global;

const ID: Id = Id {
    first: 0x0001_0203_0405_0607,
    last: 0x0809_0a0b_0c0d_0e0f,
};

/// The terminal's hello on the first connection, and `hi`.
const OUT: [u8; 47] =
    *b"\x89samlink\x01\x01\x00\x01\x02\x03\x04\x05\x06\x07\x08\x09\x0a\x0b\x0c\x0d\x0e\x0f\x00\x00\x00\x00\x00\x00\x00\x01\x00\x00\x00\x00\x00\x00\x00\x00\x01\x00\x02hi";

/// Words of a login, which begin as a hello does, the host's hello, and the note `ok`.
const IN: [u8; 56] =
    *b"\x89sam: hi\n\x89samlink\x01\x04\x00\x01\x02\x03\x04\x05\x06\x07\x08\x09\x0a\x0b\x0c\x0d\x0e\x0f\x00\x00\x00\x00\x00\x00\x00\x01\x00\x00\x00\x00\x00\x00\x00\x00\x02\x00\x02ok";

/// The host has taken eight bytes.
const TAKEN: [u8; 11] = *b"\x03\x00\x08\x00\x00\x00\x00\x00\x00\x00\x08";

/// A line that begins at 0.
fn line(alloc: Global) -> Line {
    Line::new(alloc, ID, false, 0)
}

#[test]
fn hello_and_bytes_go_out(rt: HostRuntime) {
    let told = lent(line(rt.alloc()), |line| {
        let mut out = [0; 47];
        let put = line.put(b"hi", 0);
        let attempt = line.connected(0);
        let count = line.take_out(1, &mut out);
        (put, attempt, count, out)
    });
    assert_eq!(rt; told, (Ok(()), Ok(1), Ok(47), OUT));
}

#[test]
fn words_are_skipped_whole(rt: HostRuntime) {
    let told = lent(line(rt.alloc()), |line| {
        let mut note = [0; 4096];
        let attempt = line.connected(0);
        let taken = line.receive(1, &IN, 0);
        let len = line.next_note(&mut note);
        let words = line.words().len();
        (attempt, taken, words, (len, note[0], note[1], line.state()))
    });
    assert_eq!(rt; told, (Ok(1), Ok(()), 9, (Some(2), 111, 107, State::Open)));
}

#[test]
fn words_are_skipped_byte_by_byte(rt: HostRuntime) {
    let told = lent(line(rt.alloc()), |line| {
        let mut note = [0; 4096];
        let mut count = 0u32;
        let attempt = line.connected(0);
        for byte in IN {
            if line.receive(1, &[byte], 0).is_ok() {
                count = count.saturating_add(1);
            }
        }
        let len = line.next_note(&mut note);
        let words = line.words().len();
        (attempt, count, words, (len, note[0], note[1], line.state()))
    });
    assert_eq!(rt; told, (Ok(1), 56, 9, (Some(2), 111, 107, State::Open)));
}

#[test]
fn all_that_was_put_is_acknowledged(rt: HostRuntime) {
    let told = lent(line(rt.alloc()), |line| {
        let mut out = [0; 64];
        let opened = line.connected(0).is_ok() && line.receive(1, &IN, 0).is_ok();
        let put = line.put(b"hi", 10);
        let asked = line.ask(20);
        let again = line.ask(25);
        let count = line.take_out(1, &mut out);
        let before = line.has_all();
        let taken = line.receive(1, &TAKEN, 140);
        (
            (opened, put, asked, again),
            (count, before, taken),
            (line.has_all(), line.round_trip()),
        )
    });
    let asked = (true, Ok(()), Ok(()), Ok(()));
    assert_eq!(rt; told, (asked, (Ok(50), false, Ok(())), (true, 120)));
}

#[test]
fn words_have_a_bound(rt: HostRuntime) {
    let told = lent(line(rt.alloc()), |line| {
        let opened = line.connected(0).is_ok();
        let mut all = opened;
        for _ in 0..16 {
            all = all && line.receive(1, &[32; 4096], 0).is_ok();
        }
        (all, line.receive(1, b" ", 0), line.receive(1, b" ", 0))
    });
    let many = Err(ReceiveFault::TooManyWords);
    assert_eq!(rt; told, (true, many, Err(ReceiveFault::Over)));
}

#[test]
fn answers_have_a_bound(rt: HostRuntime) {
    let told = lent(line(rt.alloc()), |line| {
        let opened = line.connected(0).is_ok() && line.receive(1, &IN, 0).is_ok();
        let mut count = 0u32;
        for _ in 0..6_000 {
            if line.receive(1, b"\x04\x00\x00", 0).is_ok() {
                count = count.saturating_add(1);
            }
        }
        (opened, count, line.state() == State::Open)
    });
    assert_eq!(rt; told, (true, 5_958, false));
}
