//! Requests of a client in one order with its edits, before a host whose answers come when a test says so: what a write saves, and when.
use sam_client::{Client, Event};
use sam_endpoint::HostEndpoint;
use sam_link::{Id, Link, Role, read_hello};
use sam_overlay::{AskFault, MOST_WAITING_REQUESTS, ReplaceFault, is_request};
use sam_term::{Refusal, UserEvent};
use sam_test_support::lent;
use std::alloc::Global;

const ID: Id = Id { first: 1, last: 2 };

/// So many bytes are moved at once.
const MOST_BYTES: usize = 4096;

/// How many calls a test makes at most until a client is idle.
const MOST_CALLS: u32 = 100;

/// A client, and the host of its files at its end of a link.
#[derive(Drop)]
struct Session {
    client: Client,
    link: Link,
    host: HostEndpoint,
    /// Why the client's last refused request was refused.
    refused: Option<Refusal>,
}

/// What a test asks for.
#[derive(Clone, Copy)]
enum Wish {
    Version,
    Open(u16),
    Load(u16),
    Search(u16),
    Write(u16),
    Close(u16),
    Command,
}

/// A call, or a look with its answer.
#[derive(Clone, Copy)]
enum Step<'a> {
    /// A request is taken in.
    Ask(Wish),
    /// One is not, and this is why.
    Unasked(Wish, AskFault),
    /// So many requests are taken in.
    AskMany(Wish, usize),
    /// The client goes on until it is idle.
    GoOn,
    /// All bytes go to the host, all of its answers come back, and the client goes on until it is idle.
    Travel,
    /// A request is taken in, acts, and is answered.
    Do(Wish),
    /// The runes in place of what is shown of a file between two places.
    Replace(u16, u32, u32, &'a [char]),
    /// A rune at the begin of a file is refused for this reason.
    Refused(u16, ReplaceFault),
    /// A request that acted was refused for this reason.
    WasRefused(Refusal),
    /// So many requests wait.
    Waiting(usize),
    /// How many members are shown of a file.
    Shows(u16, u32),
    /// How many runes the host has of a file.
    Has(u16, u32),
    /// How many runes the host saved of a file at its last write; `None` if it wrote none.
    Saved(u16, Option<usize>),
    /// Whether the host has all.
    HasAll(bool),
    /// Whether a file may differ from what was written last.
    Unsaved(u16, bool),
}

fn event_of(wish: Wish) -> UserEvent {
    match wish {
        Wish::Version => UserEvent::Version(2),
        Wish::Open(tag) => UserEvent::Open(tag),
        Wish::Load(tag) => UserEvent::Load(tag, 0, 5),
        Wish::Search(tag) => UserEvent::Search(tag),
        Wish::Write(tag) => UserEvent::Write(tag),
        Wish::Close(tag) => UserEvent::Close(tag),
        Wish::Command => UserEvent::OpenCmd,
    }
}

fn ask(client: &mut Client, wish: Wish) -> Option<AskFault> {
    let event = event_of(wish);
    if !is_request(&event) {
        return Some(AskFault::OutOfMemory);
    }
    match client.ask(event) {
        Ok(_) => None,
        Err(why) => Some(why),
    }
}

fn ask_many(client: &mut Client, wish: Wish, count: usize) -> bool {
    for _ in 0..count {
        if ask(client, wish).is_some() {
            return false;
        }
    }
    true
}

/// Goes on until nothing moves, and keeps why a request was refused.
fn go_on(session: &mut Session) -> bool {
    for _ in 0..MOST_CALLS {
        match session.client.go_on(0) {
            Ok(Event::Idle) => return true,
            Ok(Event::Refused(_, why)) => session.refused = Some(why),
            Ok(_) => {}
            Err(_) => return false,
        }
    }
    false
}

/// The first `len` bytes of a buffer.
fn front(buffer: &[u8], len: usize) -> &[u8] {
    &buffer[..len.min(buffer.len())]
}

/// Makes the one connection of a session.
fn connect(session: &mut Session) -> bool {
    let mut buffer = [0; MOST_BYTES];
    if session.client.connected(0).is_err() {
        return false;
    }
    let Ok(len) = session.client.take_out(1, &mut buffer) else {
        return false;
    };
    let Ok(Some(hello)) = read_hello(front(&buffer, len)) else {
        return false;
    };
    if session.link.answer(&hello).is_err() {
        return false;
    }
    let Ok(len) = session.link.take_out(1, &mut buffer) else {
        return false;
    };
    session.client.receive(1, front(&buffer, len), 0).is_ok()
}

/// All bytes of the client go to the host.
fn carry_up(session: &mut Session) -> bool {
    let mut buffer = [0; MOST_BYTES];
    let Ok(len) = session.client.take_out(1, &mut buffer) else {
        return false;
    };
    if session.link.feed(1, front(&buffer, len)).is_err() {
        return false;
    }
    for _ in 0..MOST_CALLS {
        let len = session.link.take_in(&mut buffer);
        if len == 0 {
            return true;
        }
        if session.host.feed(front(&buffer, len)).is_err() {
            return false;
        }
    }
    false
}

/// The host's answers come to the client, and that the host has all that came.
fn carry_down(session: &mut Session) -> bool {
    let mut buffer = [0; MOST_BYTES];
    let count = session.host.pending();
    if session.link.put(session.host.pending_bytes()).is_err() {
        return false;
    }
    session.host.consume(count);
    if session.link.acknowledge().is_err() {
        return false;
    }
    let Ok(len) = session.link.take_out(1, &mut buffer) else {
        return false;
    };
    session.client.receive(1, front(&buffer, len), 0).is_ok()
}

fn travel(session: &mut Session) -> bool {
    carry_up(session) && carry_down(session) && go_on(session)
}

fn has(host: &HostEndpoint, tag: u16) -> Option<u32> {
    let file = host.host().files().file(tag)?;
    Some(file.text().len())
}

fn saved(host: &HostEndpoint, tag: u16) -> Option<usize> {
    let file = host.host().files().file(tag)?;
    let runes = file.saved()?;
    Some(runes.len())
}

/// Whether a call is taken on, or a look has its answer.
fn is_right(session: &mut Session, step: Step<'_>) -> bool {
    let client = &mut session.client;
    match step {
        Step::Ask(wish) => ask(client, wish).is_none(),
        Step::Unasked(wish, why) => ask(client, wish) == Some(why),
        Step::AskMany(wish, count) => ask_many(client, wish, count),
        Step::GoOn => go_on(session),
        Step::Travel => travel(session),
        Step::Do(wish) => ask(client, wish).is_none() && go_on(session) && travel(session),
        Step::Replace(tag, p, q, runes) => client.replace(tag, p, q, runes).is_ok(),
        Step::Refused(tag, why) => client.replace(tag, 0, 0, &['x']) == Err(why),
        Step::WasRefused(why) => session.refused == Some(why),
        Step::Waiting(count) => client.requests() == count,
        Step::Shows(tag, len) => client.overlay().shown_len(tag) == Some(len),
        Step::Has(tag, count) => has(&session.host, tag) == Some(count),
        Step::Saved(tag, count) => saved(&session.host, tag) == count,
        Step::HasAll(all) => client.has_all() == all,
        Step::Unsaved(tag, unsaved) => client.is_unsaved(tag) == unsaved,
    }
}

/// The number of the first step, counted from 0, that is refused or answered otherwise.
fn first_wrong(session: &mut Session, steps: &[Step<'_>]) -> Option<usize> {
    if !connect(session) {
        return Some(steps.len());
    }
    for (at, step) in steps.iter().enumerate() {
        if !is_right(session, *step) {
            return Some(at);
        }
    }
    None
}

/// A session of two files, `hello` and `again`.
fn session_of(alloc: Global) -> Option<Session> {
    let mut host = HostEndpoint::new(alloc).ok()?;
    host.add_file(b"one", b"hello").ok()?;
    host.add_file(b"two", b"again").ok()?;
    Some(Session {
        client: Client::new(alloc, ID, false, 0),
        link: Link::new(alloc, Role::Host, ID),
        host,
        refused: None,
    })
}

/// While a load has locked `hello` the user types `!`, writes, and types `?`: the write saves `hello!`, and the `?` comes behind it.
const WRITE_UNDER_A_LOCK: [Step<'_>; 24] = [
    Step::Do(Wish::Version),
    Step::Do(Wish::Open(1)),
    Step::Ask(Wish::Load(1)),
    Step::GoOn,
    Step::Replace(1, 5, 5, &['!']),
    Step::Ask(Wish::Write(1)),
    Step::Replace(1, 6, 6, &['?']),
    Step::Shows(1, 7),
    Step::GoOn,
    Step::Waiting(1),
    Step::HasAll(false),
    Step::Travel,
    Step::Waiting(0),
    Step::HasAll(false),
    Step::Has(1, 5),
    Step::Unsaved(1, true),
    Step::Travel,
    Step::Saved(1, Some(6)),
    Step::HasAll(false),
    Step::Travel,
    Step::Has(1, 7),
    Step::Saved(1, Some(6)),
    Step::HasAll(true),
    Step::Unsaved(1, true),
];

/// A write of a file that a load has locked holds back what is asked for behind it, also a write of a file that is free; edits of that file
/// wait for nothing.
const REQUESTS_IN_ORDER: [Step<'_>; 20] = [
    Step::Do(Wish::Version),
    Step::Do(Wish::Open(1)),
    Step::Do(Wish::Open(2)),
    Step::Ask(Wish::Load(1)),
    Step::GoOn,
    Step::Ask(Wish::Write(1)),
    Step::Replace(2, 0, 0, &['a']),
    Step::Ask(Wish::Write(2)),
    Step::Replace(2, 0, 0, &['b']),
    Step::GoOn,
    Step::Waiting(2),
    Step::Travel,
    Step::Has(2, 6),
    Step::Saved(2, None),
    Step::Waiting(0),
    Step::Travel,
    Step::Saved(1, Some(5)),
    Step::Saved(2, Some(6)),
    Step::Travel,
    Step::Has(2, 7),
];

/// From a close no edit of the file is taken; the close acts behind what was typed. A write behind it finds no file.
const WRITE_BEHIND_A_CLOSE: [Step<'_>; 12] = [
    Step::Do(Wish::Version),
    Step::Do(Wish::Open(1)),
    Step::Replace(1, 5, 5, &['!']),
    Step::Ask(Wish::Close(1)),
    Step::Refused(1, ReplaceFault::NotOpen),
    Step::Ask(Wish::Write(1)),
    Step::GoOn,
    Step::Waiting(1),
    Step::Travel,
    Step::Waiting(0),
    Step::WasRefused(Refusal::NoFile),
    Step::HasAll(true),
];

/// So many requests wait and not one more. Once the lock is free they act, and what the host answers lets others in.
const TOO_MANY: [Step<'_>; 10] = [
    Step::Do(Wish::Version),
    Step::Do(Wish::Open(1)),
    Step::Ask(Wish::Command),
    Step::GoOn,
    Step::AskMany(Wish::Search(1), MOST_WAITING_REQUESTS),
    Step::Waiting(MOST_WAITING_REQUESTS),
    Step::Unasked(Wish::Search(1), AskFault::TooMany),
    Step::Unasked(Wish::Write(1), AskFault::TooMany),
    Step::Travel,
    Step::Ask(Wish::Search(1)),
];

#[test]
fn requests_and_edits_have_one_order(rt: HostRuntime) {
    for steps in [
        WRITE_UNDER_A_LOCK.as_slice(),
        REQUESTS_IN_ORDER.as_slice(),
        WRITE_BEHIND_A_CLOSE.as_slice(),
        TOO_MANY.as_slice(),
    ] {
        let wrong = match session_of(rt.alloc()) {
            Some(session) => lent(session, |session| first_wrong(session, steps)),
            None => Some(0),
        };
        assert_eq!(rt; wrong, None);
    }
}
