//! A server of another session that begins with the texts of one, and its journal.
use crate::server::piece::{ID, begin, goes_out, hello};
use sam_link::{Hello, Id, What};
use sam_server::{DurableServer, HeirFault, Recovery};
use sam_test_support::lent;
use std::alloc::Global;

/// The session of the terminal that takes over.
const OTHER: Id = Id { first: 3, last: 4 };

/// Version 2, file 2 is opened and closed, file 1 is opened, and a rune is typed there.
const CLOSING: [u8; 33] = [
    0x01, 0x00, 0x1e, 0x01, 0x00, 0x02, 0x00, 0x02, 0x06, 0x00, 0x02, 0x00, 0x02, 0x0e, 0x00, 0x02,
    0x00, 0x02, 0x06, 0x00, 0x02, 0x00, 0x01, 0x08, 0x00, 0x07, 0x00, 0x01, 0x00, 0x00, 0x00, 0x00,
    0x62,
];

/// A message of a kind that there is not.
const WRONG: [u8; 6] = [0x01, 0x00, 0x03, 0xff, 0x00, 0x00];

/// File 1 joins with what was typed into it.
const TYPED: [u8; 13] = [
    0x01, 0x00, 0x00, 0x00, 0x00, 0x00, 0x00, 0x00, 0x01, 0x6e, 0x62, 0x61, 0x0a,
];

/// File 3 joins, of the runes U+E9 and U+FC.
const BEHIND: [u8; 13] = [
    0x01, 0x00, 0x00, 0x00, 0x00, 0x00, 0x00, 0x00, 0x02, 0xc3, 0xa9, 0xc3, 0xbc,
];

/// File 1 joins with what was typed into it before and behind a write.
const TYPED_TWICE: [u8; 14] = [
    0x01, 0x00, 0x00, 0x00, 0x00, 0x00, 0x00, 0x00, 0x01, 0x6e, 0x63, 0x62, 0x61, 0x0a,
];

/// The welcome to connection 1 of the other session.
const WELCOME_OTHER: [u8; 42] = [
    0x89, 0x73, 0x61, 0x6d, 0x6c, 0x69, 0x6e, 0x6b, 0x01, 0x04, 0x00, 0x00, 0x00, 0x00, 0x00, 0x00,
    0x00, 0x03, 0x00, 0x00, 0x00, 0x00, 0x00, 0x00, 0x00, 0x04, 0x00, 0x00, 0x00, 0x00, 0x00, 0x00,
    0x00, 0x01, 0x00, 0x00, 0x00, 0x00, 0x00, 0x00, 0x00, 0x00,
];

/// Returns whether this is the next record.
fn records(server: &mut DurableServer, body: &[u8]) -> bool {
    match server.next_record() {
        Some(next) => next.as_slice() == body,
        None => false,
    }
}

/// Adds three files and takes what the terminal sends, which closes the second.
fn close_one(server: &mut DurableServer) -> bool {
    server.add_file(b"n", b"a\n").is_ok()
        && server.add_file(b"m", b"z").is_ok()
        && server.add_file(b"\xc3\xa9", b"\xc3\xbc").is_ok()
        && server.accept(hello(What::Begin, 1, 0)).is_ok()
        && server.receive(1, &CLOSING).is_ok()
}

/// Returns whether the server has records of the two files that were left, and no others.
fn has_both(server: &mut DurableServer) -> bool {
    records(server, &TYPED) && records(server, &BEHIND) && server.next_record().is_none()
}

/// Returns whether the server welcomes the terminal that takes over once its three records are durable, and not before.
fn welcomes(server: &mut DurableServer) -> bool {
    let caller = Hello {
        what: What::TakeOver,
        id: OTHER,
        attempt: 1,
        received: 0,
    };
    if server.accept(caller).is_err() {
        return false;
    }
    server.durable(2);
    if !goes_out(server, 1, &[], &[]) {
        return false;
    }
    server.durable(1);
    goes_out(server, 1, &WELCOME_OTHER, &[])
}

/// Returns whether another server begins with the two files that are left.
fn leaves_both(server: &mut DurableServer) -> bool {
    if !close_one(server) {
        return false;
    }
    match server.heir(OTHER) {
        Ok(heir) => lent(heir, |heir| has_both(heir)),
        Err(_) => false,
    }
}

/// Returns whether another server lets nothing out before its own records are durable.
fn waits_for_its_own(server: &mut DurableServer) -> bool {
    if !close_one(server) {
        return false;
    }
    server.durable(5);
    match server.heir(OTHER) {
        Ok(heir) => lent(heir, |heir| welcomes(heir)),
        Err(_) => false,
    }
}

/// Returns whether an effect is in the way of another server.
fn waits_for_effect(server: &DurableServer) -> bool {
    match server.heir(OTHER) {
        Ok(_) => false,
        Err(why) => why == HeirFault::EffectWaits,
    }
}

/// Returns whether the effect that waits is in the way, and not once it is done.
fn does_effect(server: &mut DurableServer) -> bool {
    waits_for_effect(server) && server.effect_done(0).is_ok()
}

/// Returns whether another server begins with what came behind the first write, once both are done.
fn has_all_that_came(server: &mut DurableServer) -> bool {
    if !begin(server) {
        return false;
    }
    server.durable(3);
    if !does_effect(server) {
        return false;
    }
    server.durable(1);
    if !does_effect(server) {
        return false;
    }
    match server.heir(OTHER) {
        Ok(heir) => lent(heir, |heir| records(heir, &TYPED_TWICE)),
        Err(_) => false,
    }
}

/// Returns whether another server begins with the texts of one that has stopped.
fn outlives_a_stop(server: &mut DurableServer) -> bool {
    if !close_one(server) || server.receive(1, &WRONG).is_ok() || server.say(b"more").is_ok() {
        return false;
    }
    match server.heir(OTHER) {
        Ok(heir) => lent(heir, |heir| has_both(heir)),
        Err(_) => false,
    }
}

/// Makes a server of the two records.
fn made_of_both(alloc: Global) -> Option<DurableServer> {
    let recovery = Recovery::new(alloc, OTHER).ok()?;
    match recovery.take(&TYPED) {
        Ok(recovery) => match recovery.take(&BEHIND) {
            Ok(recovery) => Some(recovery.finish()),
            Err(_) => None,
        },
        Err(_) => None,
    }
}

/// Returns whether another server begins with the two files.
fn hands_on_both(server: &DurableServer) -> bool {
    match server.heir(ID) {
        Ok(heir) => lent(heir, |heir| has_both(heir)),
        Err(_) => false,
    }
}

#[test]
fn open_files_are_taken_over(rt: HostRuntime) {
    let passes = match DurableServer::new(rt.alloc(), ID) {
        Ok(server) => lent(server, |server| leaves_both(server)),
        Err(_) => false,
    };
    assert!(rt; passes);
}

#[test]
fn takeover_waits_for_its_own_journal(rt: HostRuntime) {
    let passes = match DurableServer::new(rt.alloc(), ID) {
        Ok(server) => lent(server, |server| waits_for_its_own(server)),
        Err(_) => false,
    };
    assert!(rt; passes);
}

#[test]
fn takeover_has_all_that_came(rt: HostRuntime) {
    let passes = match DurableServer::new(rt.alloc(), ID) {
        Ok(server) => lent(server, |server| has_all_that_came(server)),
        Err(_) => false,
    };
    assert!(rt; passes);
}

#[test]
fn stopped_server_is_taken_over(rt: HostRuntime) {
    let passes = match DurableServer::new(rt.alloc(), ID) {
        Ok(server) => lent(server, |server| outlives_a_stop(server)),
        Err(_) => false,
    };
    assert!(rt; passes);
}

#[test]
fn journal_of_a_takeover_is_taken_over(rt: HostRuntime) {
    let passes = match made_of_both(rt.alloc()) {
        Some(server) => lent(server, |server| hands_on_both(server)),
        None => false,
    };
    assert!(rt; passes);
}
