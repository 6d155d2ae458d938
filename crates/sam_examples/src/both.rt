//! A host and a terminal exchange bytes, cut in two at every place, until both agree.

use crate::host::bytes_down;
use crate::terminal::{bytes_up, type_text};
use anyhow::{Result, bail, ensure};
use sam_endpoint::{HostEndpoint, TermEndpoint};
use sam_term::UserEvent;
use std::alloc::Global;

/// The user opens file 1, looks at its first five runes, and types after them. What needs an answer of the host first waits in the
/// terminal.
fn edit(alloc: Global, terminal: &mut TermEndpoint) -> Result<()> {
    terminal.put(UserEvent::Version(2))?;
    terminal.put(UserEvent::Open(1))?;
    terminal.put(UserEvent::View(1, 0, 5))?;
    terminal.put(UserEvent::Select(1, 5, 5))?;
    type_text(alloc, terminal, 1, " new")?;
    terminal.put(UserEvent::Flush)?;
    Ok(())
}

/// Carries bytes up to the host and answers down, each time in two pieces, until none are left. Returns the most bytes that went at a
/// time.
fn carry(
    alloc: Global,
    host: &mut HostEndpoint,
    terminal: &mut TermEndpoint,
    cut: usize,
) -> Result<usize> {
    let mut most = 0;
    // A loop has to have an end in Rattle; this one breaks off long before.
    for _ in 0..u64::MAX {
        let up = bytes_up(alloc, terminal)?;
        if up.is_empty() {
            break;
        }
        let (front, back) = up.split_at(cut.min(up.len()));
        host.feed(front)?;
        host.feed(back)?;
        let down = bytes_down(alloc, host)?;
        let (front, back) = down.split_at(cut.min(down.len()));
        terminal.feed(front)?;
        terminal.feed(back)?;
        most = most.max(up.len()).max(down.len());
    }
    Ok(most)
}

/// Each rune that the terminal has of the file is the host's rune at that place.
fn agree(host: &HostEndpoint, terminal: &TermEndpoint, tag: u16) -> Result<()> {
    let Some(text) = host.host().files().text(tag) else {
        bail!("the host has no such file");
    };
    let Some(rasp) = terminal.term().rasp(tag) else {
        bail!("the file is not open");
    };
    ensure!(
        rasp.agrees(text.slice(0, text.len())),
        "host and terminal differ"
    );
    Ok(())
}

/// The user edits a file of the host's, until both sides agree. Returns the most bytes that went at a time.
fn session(
    alloc: Global,
    host: &mut HostEndpoint,
    terminal: &mut TermEndpoint,
    cut: usize,
) -> Result<usize> {
    host.add_file(b"notes", b"hello world")?;
    edit(alloc, terminal)?;
    let most = carry(alloc, host, terminal, cut)?;
    agree(host, terminal, 1)?;
    Ok(most)
}

/// A session of a new host and a new terminal, whose bytes are cut at one place.
fn new_session(alloc: Global, cut: usize) -> Result<usize> {
    let mut host = HostEndpoint::new(alloc)?;
    let mut terminal = TermEndpoint::new(alloc);
    session(alloc, &mut host, &mut terminal, cut)
}

/// Runs a session for each place where its bytes can be cut.
pub fn run(rt: &(impl Print + AllocGlobal)) -> Result<()> {
    let most = new_session(rt.alloc(), 0)?;
    for cut in 1..=most {
        new_session(rt.alloc(), cut)?;
    }
    println!(rt; "host and terminal agree, cut at each place from 0 to {most}")?;
    Ok(())
}
