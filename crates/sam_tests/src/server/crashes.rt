//! A server that crashes at each record and goes on from its journal, for a terminal that has got each count of what went out.
ghost use Rattle.std.specs.Prelude.{◌≤◌};

use crate::server::piece::{
    BEFORE_WRITTEN, BEFORE_WRITTEN_AGAIN, ID, PIECE, STREAM, WELCOME, add_file, begin, goes_out,
    hello,
};
use sam_link::What;
use sam_server::{DurableServer, Effect, Recovery, RecoveryFault};
use sam_test_support::lent;
use std::alloc::Global;

/// A record of a write that is done.
const DONE: [u8; 9] = [0x07, 0x00, 0x00, 0x00, 0x00, 0x00, 0x00, 0x00, 0x00];

/// So many records were durable, and the crash left so many: each pair that may be.
const CUTS: [(usize, usize); 14] = [
    (0, 0),
    (0, 1),
    (0, 2),
    (0, 3),
    (1, 1),
    (1, 2),
    (1, 3),
    (2, 2),
    (2, 3),
    (3, 3),
    (3, 4),
    (4, 4),
    (4, 5),
    (5, 5),
];

/// Returns how many bytes of the stream so many records put: the third has the piece, the fourth and the fifth a write that is done.
fn put_by(records: usize) -> usize
    ensures { result ≤ 168 }
{
    match records {
        0..=2 => 0,
        3 => BEFORE_WRITTEN,
        4 => BEFORE_WRITTEN_AGAIN,
        _ => STREAM.len(),
    }
}

/// Returns how many writes so many records leave to be done.
fn writes_behind(records: usize) -> usize {
    match records {
        0..=3 => 2,
        4 => 1,
        _ => 0,
    }
}

/// Returns the welcome to connection 2 of a server that has got the piece, or has not.
fn welcome_again(has_piece: bool) -> [u8; 42] {
    let mut bytes = WELCOME;
    bytes[33] = 2;
    if has_piece {
        bytes[41] = 43;
    }
    bytes
}

/// Begins, makes so many records durable one by one, and does each write as soon as it may. Returns the records, if all went well and what
/// went out is what the durable records put.
fn journal_of(alloc: Global, server: &mut DurableServer, durable: usize) -> Option<Vec<Vec<u8>>> {
    if !begin(server) {
        return None;
    }
    for _ in 0..durable {
        server.durable(1);
        if server.next_effect().is_some() && server.effect_done(0).is_err() {
            return None;
        }
    }
    let welcome: &[u8] = if durable < 2 { &[] } else { &WELCOME };
    let put = put_by(durable);
    if !goes_out(server, 1, welcome, &STREAM[..put]) {
        return None;
    }
    let mut journal = Vec::new(alloc);
    for _ in 0..5 {
        if let Some(body) = server.next_record() {
            journal.push(body).ok()?;
        }
    }
    Some(journal)
}

/// Runs a server until so many records are durable, and returns its records.
fn journal_when(alloc: Global, durable: usize) -> Option<Vec<Vec<u8>>> {
    match DurableServer::new(alloc, ID) {
        Ok(server) => lent(server, |server| journal_of(alloc, server, durable)),
        Err(_) => None,
    }
}

/// Takes the records again.
fn take_all(recovery: Recovery, journal: &[Vec<u8>]) -> Option<Recovery> {
    let mut so_far = recovery;
    for body in journal {
        so_far = so_far.take(body.as_slice()).ok()?;
    }
    Some(so_far)
}

/// Makes a server of the records.
fn recovered(alloc: Global, journal: &[Vec<u8>]) -> Option<DurableServer> {
    let recovery = Recovery::new(alloc, ID).ok()?;
    match take_all(recovery, journal) {
        Some(recovery) => Some(recovery.finish()),
        None => None,
    }
}

/// Returns whether the server, made of so many records, takes a new connection of a terminal that has so much of the stream, and lets go
/// what comes behind that.
fn takes_again(server: &mut DurableServer, records: usize, received: usize) -> bool {
    if records < 1 && !add_file(server) {
        return false;
    }
    let what = if received > 0 {
        What::Resume
    } else {
        What::Begin
    };
    if server.accept(hello(what, 2, received as u64)).is_err() {
        return false;
    }
    server.durable(2);
    let welcome = welcome_again(records > 2);
    let put = put_by(records);
    if received > put {
        return false;
    }
    goes_out(server, 2, &welcome, &STREAM[received..put])
}

/// Returns whether the server asks for the writes that are left, and for no others, each once all before it is durable, and lets go what
/// follows.
fn does_the_rest(server: &mut DurableServer, records: usize) -> bool {
    if records < 3 && server.receive(2, &PIECE).is_err() {
        return false;
    }
    server.durable(1);
    for _ in 0..writes_behind(records) {
        if server.next_effect() != Some(&Effect::Write(1)) || server.effect_done(0).is_err() {
            return false;
        }
        server.durable(1);
    }
    let put = put_by(records);
    server.next_effect().is_none() && goes_out(server, 2, &[], &STREAM[put..])
}

/// Returns whether a server that is made of these records goes on for a terminal that has so much of the stream.
fn goes_on(alloc: Global, journal: &[Vec<u8>], received: usize) -> bool {
    let records = journal.len();
    match recovered(alloc, journal) {
        Some(server) => lent(
            server,
            |server| takes_again(server, records, received) && does_the_rest(server, records),
        ),
        None => false,
    }
}

/// Returns whether a crash that leaves so many records is a break, for a terminal that has any count of what went out.
fn crash_is_break(alloc: Global, durable: usize, left: usize) -> bool {
    let Some(journal) = journal_when(alloc, durable) else {
        return false;
    };
    if journal.len() < left {
        return false;
    }
    for received in 0..=put_by(durable) {
        if !goes_on(alloc, &journal.as_slice()[..left], received) {
            return false;
        }
    }
    true
}

/// Returns why the body is not taken again behind these.
fn refused(alloc: Global, journal: &[Vec<u8>], body: &[u8]) -> Option<RecoveryFault> {
    let recovery = Recovery::new(alloc, ID).ok()?;
    match take_all(recovery, journal) {
        Some(recovery) => recovery.take(body).err(),
        None => None,
    }
}

#[test]
fn crashes_are_breaks(rt: HostRuntime) {
    for (durable, left) in CUTS {
        assert!(rt; crash_is_break(rt.alloc(), durable, left));
    }
}

#[test]
fn records_of_another_server_are_refused(rt: HostRuntime) {
    let alloc = rt.alloc();
    assert_eq!(rt; refused(alloc, &[], &[0x09]), Some(RecoveryFault::NoRecord));
    assert_eq!(rt; refused(alloc, &[], &DONE), Some(RecoveryFault::NotTaken));
    assert_eq!(rt;
        refused(alloc, &[], &[0x08, 0x00, 0x01]),
        Some(RecoveryFault::NotTaken)
    );
    let piece = [0x03, 0x00, 0x00, 0x00, 0x00, 0x00, 0x00, 0x00, 0x01, 0x01];
    assert_eq!(rt; refused(alloc, &[], &piece), Some(RecoveryFault::NotTaken));
}
