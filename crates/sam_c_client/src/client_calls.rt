//! What C calls of a client that is made, freed and connected: include/sulgrevad.h says of each call what it does. A call returns a number
//! of `sam_status`; after `SAM_NO_HANDLE`, `SAM_NONE` and each refusal what its other arguments lead to is as it was. `now` is the time, in
//! milliseconds.

ghost use Rattle.sam_line.specs.Calls.LineCall.{AddressChanged, Broken, NotConnected};
ghost use Rattle.sam_handles.specs.Calls.{Freed};
ghost use Rattle.sam_c_client.specs.Clients.{ClientAcknowledged, ClientConnected, ClientDone, ClientExpected, ClientMade, ClientReceived};
ghost use Rattle.sam_c_client.specs.Clients.{ClientTakenOut, ClientTicked};

use crate::client_end::ClientEnd;
use crate::handle::SamClient;
use sam_front::Front;
use sam_handles::line_status::{receive_status, tick_number};
use sam_handles::link_id::SamLinkId;
use sam_handles::link_status::{call_fault, out_fault, put_status};
use sam_handles::status::{MADE, NO_HANDLE, NO_MEMORY, OK};
use sam_handles::with_end;
use sam_shown::Splices;
use std::alloc::Global;

/// Makes a client of the session with this id. Errors, in this order: `SAM_MADE` if the handle is made already; `SAM_NO_MEMORY`. After an
/// error the handle is as it was.
#[unsafe(no_mangle)]
pub extern "C" fn sam_client_new(
    client: &mut SamClient,
    id: &SamLinkId,
    take_over: bool,
    now: u64,
    alloc: Global,
) -> u32
    ensures { ClientMade client.old.held.end id.now.bytes take_over now result client.new.held.end }
{
    if client.is_made() {
        return MADE;
    }
    let made = ClientEnd {
        front: Front::new(alloc, id.to_id(), take_over, now),
        splices: Splices::none(),
    };
    let Ok(end) = Box::new(alloc, made) else {
        return NO_MEMORY;
    };
    client.put(end);
    OK
}

/// Frees a client, with what waits and what it keeps. The handle is then empty. `SAM_NO_HANDLE` if it is empty already.
#[unsafe(no_mangle)]
pub extern "C" fn sam_client_free(client: &mut SamClient, alloc: Global) -> u32
    ensures { Freed client.old.held.end result client.new.held.end }
{
    match client.take(alloc) {
        Some(_end) => OK,
        None => NO_HANDLE,
    }
}

/// Hands out the number of what the program is to do at this time. `SAM_NO_HANDLE` if the handle is empty.
#[unsafe(no_mangle)]
pub extern "C" fn sam_client_tick(
    client: &mut SamClient,
    now: u64,
    tick: &mut u32,
    alloc: Global,
) -> u32
    ensures { ClientTicked client.old.held.end now tick.old result tick.new client.new.held.end }
{
    with_end!(client alloc mut end { *tick = tick_number(end.front.client.tick(now)); OK })
}

/// Takes a connection that is open, and hands out its number. Errors, in this order: `SAM_NO_HANDLE`; `SAM_COUNT_FULL`.
#[unsafe(no_mangle)]
pub extern "C" fn sam_client_connected(
    client: &mut SamClient,
    now: u64,
    attempt: &mut u64,
    alloc: Global,
) -> u32
    ensures { ClientConnected client.old.held.end now attempt.old result attempt.new client.new.held.end }
{
    with_end!(client alloc mut end {
        match end.front.client.connected(now) {
            Ok(number) => {
                *attempt = number;
                OK
            }
            Err(why) => call_fault(why),
        }
    })
}

/// Notes that the connection could not be made for which the client asked. `SAM_NO_HANDLE` if the handle is empty.
#[unsafe(no_mangle)]
pub extern "C" fn sam_client_not_connected(client: &mut SamClient, now: u64, alloc: Global) -> u32
    ensures { ClientDone client.old.held.end (NotConnected now) result client.new.held.end }
{
    with_end!(client alloc mut end { end.front.client.not_connected(now); OK })
}

/// Notes that a connection is over. One that isn't the newest changes nothing but the time. `SAM_NO_HANDLE` if the handle is empty.
#[unsafe(no_mangle)]
pub extern "C" fn sam_client_broken(
    client: &mut SamClient,
    attempt: u64,
    now: u64,
    alloc: Global,
) -> u32
    ensures { ClientDone client.old.held.end (Broken attempt now) result client.new.held.end }
{
    with_end!(client alloc mut end { end.front.client.broken(attempt, now); OK })
}

/// Notes that an address of the machine came or went. `SAM_NO_HANDLE` if the handle is empty.
#[unsafe(no_mangle)]
pub extern "C" fn sam_client_address_changed(client: &mut SamClient, now: u64, alloc: Global) -> u32
    ensures { ClientDone client.old.held.end (AddressChanged now) result client.new.held.end }
{
    with_end!(client alloc mut end { end.front.client.address_changed(now); OK })
}

/// Notes whether the program waits for an answer to a note of its own. `SAM_NO_HANDLE` if the handle is empty.
#[unsafe(no_mangle)]
pub extern "C" fn sam_client_expect(
    client: &mut SamClient,
    expects: bool,
    now: u64,
    alloc: Global,
) -> u32
    ensures { ClientExpected client.old.held.end expects now result client.new.held.end }
{
    with_end!(client alloc mut end { end.front.expect(expects, now); OK })
}

/// Takes the next piece of a connection, all of it or nothing. Errors: `SAM_NO_HANDLE`; then those of
/// [`Client::receive`](sam_client::Client::receive), in its order.
#[unsafe(no_mangle)]
pub extern "C" fn sam_client_receive(
    client: &mut SamClient,
    attempt: u64,
    bytes: &[u8],
    now: u64,
    alloc: Global,
) -> u32
    ensures { ClientReceived client.old.held.end attempt bytes.now now result client.new.held.end }
{
    with_end!(client alloc mut end { receive_status(end.front.client.receive(attempt, bytes, now)) })
}

/// Moves the next bytes for a connection into the buffer, as many as there are and have room, and hands out how many. Errors, in this
/// order: `SAM_NO_HANDLE`; `SAM_LINK_NOT_OPEN`.
#[unsafe(no_mangle)]
pub extern "C" fn sam_client_take_out(
    client: &mut SamClient,
    attempt: u64,
    into: &mut [u8],
    count: &mut usize,
    alloc: Global,
) -> u32
    ensures { ClientTakenOut client.old.held.end attempt into.old into.new count.old result count.new client.new.held.end }
{
    with_end!(client alloc mut end {
        match end.front.client.take_out(attempt, into) {
            Ok(number) => {
                *count = number;
                OK
            }
            Err(why) => out_fault(why),
        }
    })
}

/// Tells the host how many of its bytes have come. Errors, in this order: `SAM_NO_HANDLE`; `SAM_COUNT_FULL`; `SAM_NO_MEMORY`.
#[unsafe(no_mangle)]
pub extern "C" fn sam_client_acknowledge(client: &mut SamClient, alloc: Global) -> u32
    ensures { ClientAcknowledged client.old.held.end result client.new.held.end }
{
    with_end!(client alloc mut end { put_status(end.front.client.acknowledge()) })
}
