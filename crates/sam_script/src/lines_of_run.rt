//! Writes the script that makes the events of a run happen again.

ghost use Rattle.std.specs.Prelude.{◌≡◌, ◌++◌, IfOk, OnOk, IfErr, string_bytes, flat_map, encode_utf8};
ghost use Rattle.sam_script.specs.RunLines.{event_line, file_line, named_line, run_lines_of};

use crate::event::{push_number, push_user};
use crate::fault::ScriptFault;
use crate::script::Script;
use crate::showing::{push, push_text};
use sam_runes::Runes;
use sam_term::event::UserEvent;
use sam_world::event::Event;
use std::alloc::{AllocError, Global};

/// As many bytes as the line of an event has as a rule: more for an event of the user, fewer for another.
const EVENT_LINE: usize = 8;

/// Returns the script that makes just these events happen, as bytes: a `file` line for each file of `script`, a line for each event, and a
/// line `show`. Each event of the user is a `k` line, also where it was the mouse's, a file that joins is an `add` line, and one that is
/// marked a `dirty` line. If the events are a run from these files, a replay of the bytes shows the world to which they lead. The only
/// error is `OutOfMemory`.
pub fn run_lines(alloc: Global, script: &Script, events: &[Event]) -> Result<Vec<u8>, ScriptFault>
    ensures lines { IfOk result (λ out. out.items ≡ run_lines_of script.now.files events.now) }
    ensures memory { IfErr result (λ why. why ≡ ScriptFault.OutOfMemory) }
{
    let Ok(mut out) = String::with_capacity(alloc, events.len().saturating_mul(EVENT_LINE)) else {
        return Err(ScriptFault::OutOfMemory);
    };
    match push_run(&mut out, script.files(), events) {
        Ok(()) => Ok(out.into_bytes()),
        Err(_) => Err(ScriptFault::OutOfMemory),
    }
}

/// Appends the lines of a run. After an error a part of them may stand there, as with each function below.
fn push_run(out: &mut String, files: &[(Runes, Runes)], events: &[Event]) -> Result<(), AllocError>
    ensures { OnOk result (string_bytes out.new ≡ string_bytes out.old ++ run_lines_of files.now events.now) }
{
    push_files(out, files)?;
    push_events(out, events)?;
    push(out, "show\n")
}

/// Appends a line for each file.
fn push_files(out: &mut String, files: &[(Runes, Runes)]) -> Result<(), AllocError>
    ensures { OnOk result (string_bytes out.new ≡ string_bytes out.old ++ flat_map file_line files.now) }
{
    for file in files {
        push_file(out, "file ", file.0.as_slice(), file.1.as_slice())?;
    }
    Ok(())
}

/// Appends the line of a file after this word and its space. Its name needs no escapes, since a script's names have no spaces and no
/// newlines.
fn push_file(out: &mut String, word: &str, name: &[char], text: &[char]) -> Result<(), AllocError>
    ensures { OnOk result (string_bytes out.new ≡ string_bytes out.old ++ named_line word.now (name.now, text.now)) }
{
    push(out, word)?;
    push_plain(out, name)?;
    push(out, " ")?;
    push_text(out, text)?;
    push(out, "\n")
}

/// Appends runes as they stand.
fn push_plain(out: &mut String, runes: &[char]) -> Result<(), AllocError>
    ensures { OnOk result (string_bytes out.new ≡ string_bytes out.old ++ flat_map encode_utf8 runes.now) }
{
    for rune in runes {
        out.push(*rune)?;
    }
    Ok(())
}

/// Appends a line for each event.
fn push_events(out: &mut String, events: &[Event]) -> Result<(), AllocError>
    ensures { OnOk result (string_bytes out.new ≡ string_bytes out.old ++ flat_map event_line events.now) }
{
    for event in events {
        push_event(out, event)?;
    }
    Ok(())
}

/// Appends the line of an event.
fn push_event(out: &mut String, event: &Event) -> Result<(), AllocError>
    ensures { OnOk result (string_bytes out.new ≡ string_bytes out.old ++ event_line event.now) }
{
    match event {
        Event::User(event) => push_user_line(out, event),
        Event::Add(name, text) => push_file(out, "add ", name.as_slice(), text.as_slice()),
        Event::Mark(tag) => push_mark(out, *tag),
        Event::Act => push(out, "act\n"),
        Event::Flush => push(out, "flush\n"),
        Event::HostTake => push(out, "host\n"),
        Event::TermTake => push(out, "term\n"),
    }
}

/// Appends the line that marks a file as dirty.
fn push_mark(out: &mut String, tag: u16) -> Result<(), AllocError>
    ensures { OnOk result (string_bytes out.new ≡ string_bytes out.old ++ event_line (Event.Mark tag)) }
{
    push_number(out, "dirty", tag)?;
    push(out, "\n")
}

/// Appends the line of an event of the user.
fn push_user_line(out: &mut String, event: &UserEvent) -> Result<(), AllocError>
    ensures { OnOk result (string_bytes out.new ≡ string_bytes out.old ++ event_line (Event.User event.now)) }
{
    push(out, "k ")?;
    push_user(out, event)?;
    push(out, "\n")
}
