//! A client, call by call.
mod requests;

use sam_client::{Client, Event, GoOnFault};
use sam_endpoint::TermStep;
use sam_link::{Id, NoteFault};
use sam_overlay::ReplaceFault;
use sam_term::{Refusal, UserEvent};
use sam_test_support::lent;
use std::alloc::Global;

const ID: Id = Id {
    first: 0x0001_0203_0405_0607,
    last: 0x0809_0a0b_0c0d_0e0f,
};

/// The host's hello on the first connection.
const WELCOME: [u8; 42] =
    *b"\x89samlink\x01\x04\x00\x01\x02\x03\x04\x05\x06\x07\x08\x09\x0a\x0b\x0c\x0d\x0e\x0f\x00\x00\x00\x00\x00\x00\x00\x01\x00\x00\x00\x00\x00\x00\x00\x00";

/// Hversion(2) and Hunlock, seen 1, in a packet of bytes, and the note `ok`.
const ANSWER: [u8; 32] =
    *b"\x01\x00\x18\x41\x00\x0a\x00\x00\x00\x00\x00\x00\x00\x01\x00\x02\x48\x00\x08\x00\x00\x00\x00\x00\x00\x00\x01\x02\x00\x02ok";

/// What goes out behind the terminal's hello: Tversion(2) in a packet of bytes, the question whether all has come, and the note `hi`.
const OUT: [u8; 16] = *b"\x01\x00\x05\x01\x00\x02\x00\x02\x04\x00\x00\x02\x00\x02hi";

/// That 11 bytes have come: Tversion(2) in a packet of bytes, and the question.
const ACKNOWLEDGED: [u8; 11] = *b"\x03\x00\x08\x00\x00\x00\x00\x00\x00\x00\x0b";

/// What was told, as numbers.
fn told(event: Result<Event, GoOnFault>) -> (u8, u64) {
    match event {
        Ok(Event::Stepped(step)) => match step.step {
            TermStep::Received { kind, .. } => (1, kind as u64),
            TermStep::Acted { number, .. } => (2, number),
            _ => (0, 0),
        },
        Ok(Event::Refused(number, Refusal::NoFile)) => (3, number),
        Ok(Event::Refused(_, _)) => (0, 3),
        Ok(Event::Note) => (4, 0),
        Ok(Event::Busy) => (5, 0),
        Ok(Event::Idle) => (6, 0),
        Err(_) => (7, 0),
    }
}

/// A client that begins at 0.
fn client(alloc: Global) -> Client {
    Client::new(alloc, ID, false, 0)
}

#[test]
fn new_client_is_idle(rt: HostRuntime) {
    let seen = lent(client(rt.alloc()), |client| told(client.go_on(0)));
    assert_eq!(rt; seen, (6, 0));
}

#[test]
fn event_goes_out_before_a_later_note(rt: HostRuntime) {
    let seen = lent(client(rt.alloc()), |client| {
        let mut out = [0; 64];
        let opened = client.connected(0).is_ok() && client.receive(1, &WELCOME, 0).is_ok();
        let taken = client.ask(UserEvent::Version(2)).is_ok();
        let acted = told(client.go_on(0));
        let rests = told(client.go_on(0));
        let put = client.put_note(b"hi", 0).is_ok();
        let again = told(client.go_on(0));
        let count = client.take_out(1, &mut out);
        (
            (opened, taken, put),
            (acted, rests, again),
            (count, out[42..58] == OUT[..]),
        )
    });
    assert_eq!(rt;
        seen,
        ((true, true, true), ((2, 1), (6, 0), (6, 0)), (Ok(58), true))
    );
}

#[test]
fn note_comes_behind_the_frames_in_front(rt: HostRuntime) {
    let seen = lent(client(rt.alloc()), |client| {
        let opened = client.connected(0).is_ok() && client.receive(1, &WELCOME, 0).is_ok();
        let taken = client.ask(UserEvent::Version(2)).is_ok();
        let acted = told(client.go_on(0));
        let rests = told(client.go_on(0));
        let came = client.receive(1, &ANSWER, 0).is_ok();
        let first = told(client.go_on(0));
        let second = told(client.go_on(0));
        let third = told(client.go_on(0));
        let note = client.note().len();
        let last = told(client.go_on(0));
        (
            (opened, taken, came),
            (acted, rests),
            (first, second, third),
            (note, last),
        )
    });
    let frames = ((1, 65), (1, 72), (4, 0));
    assert_eq!(rt;
        seen,
        ((true, true, true), ((2, 1), (6, 0)), frames, (2, (6, 0)))
    );
}

#[test]
fn host_has_all_once_it_says_so(rt: HostRuntime) {
    let seen = lent(client(rt.alloc()), |client| {
        let first = (client.has_all(), client.is_unsaved(7));
        let opened = client.connected(0).is_ok() && client.receive(1, &WELCOME, 0).is_ok();
        let taken = client.ask(UserEvent::Version(2)).is_ok();
        let held = client.has_all();
        let acted = told(client.go_on(0));
        let rests = told(client.go_on(0));
        let composed = client.has_all();
        let count = client.take_out(1, &mut [0; 64]);
        let went = client.has_all();
        let came = client.receive(1, &ACKNOWLEDGED, 0).is_ok();
        (
            (opened, taken, came),
            (acted, rests, count),
            first,
            (held, composed, went, client.has_all()),
        )
    });
    let answers = ((2, 1), (6, 0), Ok(53));
    assert_eq!(rt;
        seen,
        (
            (true, true, true),
            answers,
            (true, false),
            (false, false, false, true)
        )
    );
}

#[test]
fn refusals_are_told_once(rt: HostRuntime) {
    let seen = lent(client(rt.alloc()), |client| {
        let taken = client.ask(UserEvent::Close(7)).is_ok();
        let edit = client.replace(8, 0, 0, &['x']);
        let long = client.put_note(&[0; 4097], 0);
        let first = told(client.go_on(0));
        let second = told(client.go_on(0));
        (taken, edit, long, (first, second))
    });
    let refused = (Err(ReplaceFault::NoFile), Err(NoteFault::TooLong));
    assert_eq!(rt; seen, (true, refused.0, refused.1, ((3, 1), (6, 0))));
}
