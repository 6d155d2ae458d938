//! A server is asked to write a file, and tells of one that was closed, once a crash can't forget why.
use crate::server::piece::{
    BEFORE_WRITTEN, BEFORE_WRITTEN_AGAIN, CLOSING, ID, STREAM, WELCOME, begin, begin_with, goes_out,
};
use sam_server::{DurableServer, Effect};
use sam_test_support::lent;

/// Returns whether the server asks for the write, and then notes that it is done.
fn writes(server: &mut DurableServer) -> bool {
    server.next_effect() == Some(&Effect::Write(1)) && server.effect_done(0).is_ok()
}

/// Returns whether the server asks for nothing, and takes no note.
fn asks_nothing(server: &mut DurableServer) -> bool {
    server.next_effect().is_none() && server.effect_done(0).is_err()
}

fn second_waits(server: &mut DurableServer) -> bool {
    if !begin(server) {
        return false;
    }
    server.durable(3);
    if !writes(server) || !asks_nothing(server) {
        return false;
    }
    server.durable(1);
    writes(server) && asks_nothing(server)
}

fn record_comes_first(server: &mut DurableServer) -> bool {
    if !begin(server) || !asks_nothing(server) {
        return false;
    }
    server.durable(2);
    if !asks_nothing(server) || server.say(b"later").is_err() {
        return false;
    }
    server.durable(1);
    writes(server)
}

fn answer_comes_behind(server: &mut DurableServer) -> bool {
    if !begin(server) {
        return false;
    }
    server.durable(3);
    if !goes_out(server, 1, &WELCOME, &STREAM[..BEFORE_WRITTEN]) || !writes(server) {
        return false;
    }
    if !goes_out(server, 1, &[], &[]) {
        return false;
    }
    server.durable(1);
    let first = &STREAM[BEFORE_WRITTEN..BEFORE_WRITTEN_AGAIN];
    if !goes_out(server, 1, &[], first) || !writes(server) {
        return false;
    }
    server.durable(1);
    goes_out(server, 1, &[], &STREAM[BEFORE_WRITTEN_AGAIN..])
}

/// Returns whether the server tells of the closed file, with what it held.
fn tells_of_closed(server: &DurableServer) -> bool {
    match server.next_effect() {
        Some(Effect::Close { tag, name, text }) => {
            *tag == 1 && name.as_slice() == b"n".as_slice() && text.as_slice() == b"ba\n".as_slice()
        }
        _ => false,
    }
}

/// Returns whether the snarf buffer has so many runes, which come behind the close.
fn has_snarfed(server: &DurableServer, count: usize) -> bool {
    server.host().files().snarf_text().len() == count
}

fn closed_is_told(server: &mut DurableServer) -> bool {
    if !begin_with(server, &CLOSING) || !asks_nothing(server) {
        return false;
    }
    server.durable(3);
    if !tells_of_closed(server) || !has_snarfed(server, 0) {
        return false;
    }
    server.effect_done(0).is_ok() && asks_nothing(server) && has_snarfed(server, 1)
}

#[test]
fn closed_file_is_told_of(rt: HostRuntime) {
    let passes = match DurableServer::new(rt.alloc(), ID) {
        Ok(server) => lent(server, |server| closed_is_told(server)),
        Err(_) => false,
    };
    assert!(rt; passes);
}

#[test]
fn second_write_waits_for_the_first(rt: HostRuntime) {
    let passes = match DurableServer::new(rt.alloc(), ID) {
        Ok(server) => lent(server, |server| second_waits(server)),
        Err(_) => false,
    };
    assert!(rt; passes);
}

#[test]
fn effect_waits_for_its_record(rt: HostRuntime) {
    let passes = match DurableServer::new(rt.alloc(), ID) {
        Ok(server) => lent(server, |server| record_comes_first(server)),
        Err(_) => false,
    };
    assert!(rt; passes);
}

#[test]
fn answer_to_a_write_goes_out_behind_it(rt: HostRuntime) {
    let passes = match DurableServer::new(rt.alloc(), ID) {
        Ok(server) => lent(server, |server| answer_comes_behind(server)),
        Err(_) => false,
    };
    assert!(rt; passes);
}
