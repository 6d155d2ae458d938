//! A host that answers bytes.

use crate::link::hex;
use anyhow::Result;
use sam_endpoint::HostEndpoint;
use std::alloc::Global;

/// Takes out the bytes that wait for the terminal.
pub fn bytes_down(alloc: Global, host: &mut HostEndpoint) -> Result<Vec<u8>> {
    let mut bytes = vec![in alloc; 0; host.pending()]?;
    host.take_out(bytes.as_mut_slice());
    Ok(bytes)
}

/// What a terminal sends. A frame is one byte of kind, two of length, and the message's fields.
const FROM_TERMINAL: [&[u8]; 4] = [
    // Tstartfile(1): the user opens file 1
    b"\x06\x00\x02\x00\x01",
    // Trequest(1, 0, 5): the terminal wants five runes of it, from place 0 on
    b"\x04\x00\x08\x00\x01\x00\x00\x00\x00\x00\x05",
    // Ttype(1, 5, "!"): the user typed at place 5; the terminal shows it already
    b"\x08\x00\x07\x00\x01\x00\x00\x00\x05!",
    // Texit: the user leaves
    b"\x16\x00\x00",
];

/// Prints a frame and what the host answers to it.
fn turn(rt: &(impl Print + AllocGlobal), host: &mut HostEndpoint, frame: &[u8]) -> Result<()> {
    host.feed(frame)?;
    let question = hex(rt.alloc(), frame)?;
    println!(rt; "terminal:{question}")?;
    let answer = hex(rt.alloc(), bytes_down(rt.alloc(), host)?.as_slice())?;
    println!(rt; "    host:{answer}")?;
    Ok(())
}

/// Prints what a host answers to each frame, and what it holds at the end.
fn answer_all(rt: &(impl Print + AllocGlobal), host: &mut HostEndpoint) -> Result<()> {
    for frame in FROM_TERMINAL {
        turn(rt, host, frame)?;
    }
    let taken = host.host().taken();
    let length = match host.host().files().text(1) {
        Some(text) => text.len(),
        None => 0,
    };
    println!(rt; "the host took {taken} messages, and file 1 has {length} runes")?;
    Ok(())
}

/// Runs a host with one file.
pub fn run(rt: &(impl Print + AllocGlobal)) -> Result<()> {
    let mut host = HostEndpoint::new(rt.alloc())?;
    host.add_file(b"notes", b"hello world")?;
    answer_all(rt, &mut host)
}
