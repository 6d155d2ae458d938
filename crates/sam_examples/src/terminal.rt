//! A terminal that types into a file of which it has only a part, and sends.

use crate::link::hex;
use anyhow::{Result, bail};
use sam_endpoint::TermEndpoint;
use sam_runes::Runes;
use sam_term::UserEvent;
use std::alloc::Global;

/// Takes out the bytes that wait for the host.
pub fn bytes_up(alloc: Global, terminal: &mut TermEndpoint) -> Result<Vec<u8>> {
    let mut bytes = vec![in alloc; 0; terminal.pending()]?;
    terminal.take_out(bytes.as_mut_slice());
    Ok(bytes)
}

/// The user types a text in the place of what is selected.
pub fn type_text(alloc: Global, terminal: &mut TermEndpoint, tag: u16, text: &str) -> Result<()> {
    let runes = Runes::from_str(alloc, text)?;
    terminal.put(UserEvent::Typed(tag, runes))?;
    Ok(())
}

/// What the terminal has of a file, with a dot for each rune that it has not loaded.
fn text_of(alloc: Global, terminal: &TermEndpoint, tag: u16) -> Result<String> {
    let mut text = String::new(alloc);
    let Some(rasp) = terminal.term().rasp(tag) else {
        bail!("the file is not open");
    };
    for place in 0..rasp.len() {
        match rasp.loaded(place) {
            Some(Some(rune)) => text.push(rune)?,
            _ => text.push('.')?,
        }
    }
    Ok(text)
}

/// What a host answers to `Tversion(2)`. A frame is one byte of kind, two of length, eight that count the messages which
/// the host has taken, and the message's fields.
const VERSION_ANSWER: [&[u8]; 5] = [
    // Hversion(2): both speak version 2
    b"\x41\x00\x0a\x00\x00\x00\x00\x00\x00\x00\x01\x00\x02",
    // Hnewname(1): there is a file 1
    b"\x44\x00\x0a\x00\x00\x00\x00\x00\x00\x00\x01\x00\x01",
    // Hmovname(1, "notes"): its name
    b"\x45\x00\x0f\x00\x00\x00\x00\x00\x00\x00\x01\x00\x01notes",
    // Hack: asks for a Tack
    b"\x57\x00\x08\x00\x00\x00\x00\x00\x00\x00\x01",
    // Hunlock: that is all
    b"\x48\x00\x08\x00\x00\x00\x00\x00\x00\x00\x01",
];

/// What it answers to `Tstartfile(1)`.
const OPEN_ANSWER: [&[u8]; 3] = [
    // Hbindname(1): the file is open
    b"\x42\x00\x0a\x00\x00\x00\x00\x00\x00\x00\x03\x00\x01",
    // Hgrow(1, 0, 11): it has 11 runes, none of them loaded yet
    b"\x46\x00\x12\x00\x00\x00\x00\x00\x00\x00\x03\x00\x01\x00\x00\x00\x00\x00\x00\x00\x0b",
    // Hunlock: that is all
    b"\x48\x00\x08\x00\x00\x00\x00\x00\x00\x00\x03",
];

/// What it answers to `Trequest(1, 0, 5)`.
const REQUEST_ANSWER: [&[u8]; 2] = [
    // Hdata(1, 0, "hello"): the first five runes
    b"\x49\x00\x13\x00\x00\x00\x00\x00\x00\x00\x04\x00\x01\x00\x00\x00\x00hello",
    // Hunlockfile(1): that is all
    b"\x4b\x00\x0a\x00\x00\x00\x00\x00\x00\x00\x04\x00\x01",
];

/// Prints what the terminal sends, has it take the answer, and prints what it has of file 1.
fn turn(
    rt: &(impl Print + AllocGlobal),
    terminal: &mut TermEndpoint,
    answer: &[&[u8]],
) -> Result<()> {
    let sent = hex(rt.alloc(), bytes_up(rt.alloc(), terminal)?.as_slice())?;
    println!(rt; "terminal:{sent}")?;
    for frame in answer {
        terminal.feed(frame)?;
    }
    if terminal.term().rasp(1).is_some() {
        let text = text_of(rt.alloc(), terminal, 1)?;
        println!(rt; "  file 1: {text}")?;
    }
    Ok(())
}

/// Opens file 1, looks at its first five runes, types after them, and sends.
fn edit(rt: &(impl Print + AllocGlobal), terminal: &mut TermEndpoint) -> Result<()> {
    terminal.put(UserEvent::Version(2))?;
    turn(rt, terminal, &VERSION_ANSWER)?;
    terminal.put(UserEvent::Open(1))?;
    turn(rt, terminal, &OPEN_ANSWER)?;
    terminal.put(UserEvent::View(1, 0, 5))?;
    turn(rt, terminal, &REQUEST_ANSWER)?;
    // What is typed stands in the text at once; its runes wait to be sent together.
    terminal.put(UserEvent::Select(1, 5, 5))?;
    type_text(rt.alloc(), terminal, 1, " new")?;
    turn(rt, terminal, &[])?;
    terminal.flush_now()?;
    turn(rt, terminal, &[])
}

/// Prints what a terminal sends and shows while its user edits a file.
pub fn run(rt: &(impl Print + AllocGlobal)) -> Result<()> {
    let mut terminal = TermEndpoint::new(rt.alloc());
    edit(rt, &mut terminal)
}
