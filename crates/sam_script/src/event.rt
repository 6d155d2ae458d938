//! Reads what the user does from the words of a `k` or `m` line, and writes it in these words.

ghost use Rattle.std.specs.Prelude.{◌≡◌, ◌++◌, ◌∷◌, [], OnOk, string_bytes};
ghost use Rattle.sam_script.specs.Events.{Tag, Place, form, readers, file_readers, edit_at};
ghost use Rattle.sam_script.specs.Events.Part.{Rest};
ghost use Rattle.sam_script.specs.Reading.{event_at, read_by};
ghost use Rattle.sam_script.specs.Spelling.{spelling};
ghost use Rattle.sam_script.specs.Words.{Gives};

use crate::fault::LineFault;
use crate::showing::{push, push_text};
use crate::words::{
    ended, place_at, tag_alone, tag_and_place, tag_and_range, tag_and_text, tag_at, text_at,
    word_at,
};
use sam_term::event::UserEvent;
use std::alloc::{AllocError, Global};
use std::fmt::Write;

/// Reads the event that stands after the first word of a line, from the space in front of it to the end of the line.
#[tactic(auto, unfolding(crate::specs::Reading::event_at))]
pub fn event_at(alloc: Global, text: &str) -> Result<UserEvent, LineFault>
    ensures { Gives (λ e. e) result (event_at text.now) }
{
    let (word, rest) = word_at(text)?;
    read_event(alloc, word, rest)
}

/// Reads the event of this word, with `rest` after it.
fn read_event(alloc: Global, word: &str, rest: &str) -> Result<UserEvent, LineFault>
    ensures { Gives (λ e. e) result (read_by readers word.now rest.now) }
{
    match word {
        "type" => {
            let (tag, text) = tag_and_text(alloc, rest)?;
            Ok(UserEvent::Typed(tag, text))
        }
        "setsnarf" => Ok(UserEvent::SetSnarf(text_at(alloc, rest)?)),
        "select" => {
            let (tag, start, end) = tag_and_range(rest)?;
            Ok(UserEvent::Select(tag, start, end))
        }
        "view" => {
            let (tag, place, len) = tag_and_range(rest)?;
            Ok(UserEvent::View(tag, place, len))
        }
        "load" => {
            let (tag, place, len) = tag_and_range(rest)?;
            Ok(UserEvent::Load(tag, place, len))
        }
        "edit" => edit_at(alloc, rest),
        "dclick" => {
            let (tag, place) = tag_and_place(rest)?;
            Ok(UserEvent::Dclick(tag, place))
        }
        "scroll" => {
            let (tag, lines) = tag_and_place(rest)?;
            Ok(UserEvent::Scroll(tag, lines))
        }
        "version" => Ok(UserEvent::Version(tag_alone(rest)?)),
        "opencmd" => ended(UserEvent::OpenCmd, rest),
        "new" => ended(UserEvent::New, rest),
        "getsnarf" => ended(UserEvent::GetSnarf, rest),
        "flush" => ended(UserEvent::Flush, rest),
        "exit" => ended(UserEvent::Exit, rest),
        _ => on_file(word, rest),
    }
}

/// Reads an `edit` event after its word: a tag, two places, and a text that takes the rest of the line.
#[tactic(auto, unfolding(crate::specs::Events::edit_at))]
fn edit_at(alloc: Global, text: &str) -> Result<UserEvent, LineFault>
    ensures { Gives (λ e. e) result (edit_at text.now) }
{
    let (tag, rest) = tag_at(text)?;
    let (start, rest) = place_at(rest)?;
    let (end, rest) = place_at(rest)?;
    let runes = text_at(alloc, rest)?;
    Ok(UserEvent::Edit(tag, start, end, runes))
}

/// Reads an event that has a tag after its word and nothing more.
fn on_file(word: &str, rest: &str) -> Result<UserEvent, LineFault>
    ensures { Gives (λ e. e) result (read_by file_readers word.now rest.now) }
{
    match word {
        "cut" => Ok(UserEvent::Cut(tag_alone(rest)?)),
        "paste" => Ok(UserEvent::Paste(tag_alone(rest)?)),
        "snarf" => Ok(UserEvent::Snarf(tag_alone(rest)?)),
        "look" => Ok(UserEvent::Look(tag_alone(rest)?)),
        "search" => Ok(UserEvent::Search(tag_alone(rest)?)),
        "send" => Ok(UserEvent::Send(tag_alone(rest)?)),
        "open" => Ok(UserEvent::Open(tag_alone(rest)?)),
        "write" => Ok(UserEvent::Write(tag_alone(rest)?)),
        "close" => Ok(UserEvent::Close(tag_alone(rest)?)),
        "work" => Ok(UserEvent::Work(tag_alone(rest)?)),
        "check" => Ok(UserEvent::Check(tag_alone(rest)?)),
        _ => Err(LineFault::Wrong),
    }
}

/// Appends what the user does, in a script's words. After an error a part of them may stand there, as with each function below.
pub fn push_user(out: &mut String, event: &UserEvent) -> Result<(), AllocError>
    ensures { OnOk result (string_bytes out.new ≡ string_bytes out.old ++ spelling (form event.now)) }
{
    match event {
        UserEvent::Typed(tag, text) => push_typed(out, *tag, text.as_slice()),
        UserEvent::Select(tag, p, q) => push_range(out, "select", *tag, *p, *q),
        UserEvent::Cut(tag) => push_number(out, "cut", *tag),
        UserEvent::Paste(tag) => push_number(out, "paste", *tag),
        UserEvent::Snarf(tag) => push_number(out, "snarf", *tag),
        UserEvent::Look(tag) => push_number(out, "look", *tag),
        UserEvent::Search(tag) => push_number(out, "search", *tag),
        UserEvent::Send(tag) => push_number(out, "send", *tag),
        UserEvent::Dclick(tag, p) => push_place(out, "dclick", *tag, *p),
        UserEvent::Scroll(tag, n) => push_place(out, "scroll", *tag, *n),
        UserEvent::View(tag, p, n) => push_range(out, "view", *tag, *p, *n),
        UserEvent::Load(tag, p, n) => push_range(out, "load", *tag, *p, *n),
        UserEvent::Edit(tag, p, q, text) => push_edit(out, *tag, *p, *q, text.as_slice()),
        UserEvent::Open(tag) => push_number(out, "open", *tag),
        UserEvent::Close(tag) => push_number(out, "close", *tag),
        UserEvent::Write(tag) => push_number(out, "write", *tag),
        UserEvent::Work(tag) => push_number(out, "work", *tag),
        UserEvent::OpenCmd => push_bare(out, "opencmd"),
        UserEvent::New => push_bare(out, "new"),
        UserEvent::Exit => push_bare(out, "exit"),
        UserEvent::Check(tag) => push_number(out, "check", *tag),
        UserEvent::GetSnarf => push_bare(out, "getsnarf"),
        UserEvent::SetSnarf(text) => push_with_text(out, "setsnarf", text.as_slice()),
        UserEvent::Version(version) => push_number(out, "version", *version),
        UserEvent::Flush => push_bare(out, "flush"),
    }
}

/// Appends an event that is one word.
fn push_bare(out: &mut String, word: &str) -> Result<(), AllocError>
    ensures { OnOk result (string_bytes out.new ≡ string_bytes out.old ++ spelling (word.now, [])) }
{
    push(out, word)
}

/// Appends a `type` event.
fn push_typed(out: &mut String, tag: u16, text: &[char]) -> Result<(), AllocError>
    ensures { OnOk result (string_bytes out.new ≡ string_bytes out.old ++ spelling (form (UserEvent.Typed tag text.now))) }
{
    push_number(out, "type", tag)?;
    push_with_text(out, "", text)
}

/// Appends an `edit` event.
fn push_edit(out: &mut String, tag: u16, p: u32, q: u32, text: &[char]) -> Result<(), AllocError>
    ensures { OnOk result (string_bytes out.new ≡ string_bytes out.old ++ spelling (form (UserEvent.Edit tag p q text.now))) }
{
    push_range(out, "edit", tag, p, q)?;
    push_with_text(out, "", text)
}

/// Appends a word, which may be empty, and a text.
fn push_with_text(out: &mut String, word: &str, text: &[char]) -> Result<(), AllocError>
    ensures { OnOk result (string_bytes out.new ≡ string_bytes out.old ++ spelling (word.now, Rest text.now ∷ [])) }
{
    push(out, word)?;
    push(out, " ")?;
    push_text(out, text)
}

/// Appends a word and a tag or a version.
pub(crate) fn push_number(out: &mut String, word: &str, number: u16) -> Result<(), AllocError>
    ensures { OnOk result (string_bytes out.new ≡ string_bytes out.old ++ spelling (word.now, Tag number ∷ [])) }
{
    push(out, word)?;
    write!(out, " {number}")
}

/// Appends a word, a tag, and a place or a count of lines.
fn push_place(out: &mut String, word: &str, tag: u16, place: u32) -> Result<(), AllocError>
    ensures { OnOk result (string_bytes out.new ≡ string_bytes out.old ++ spelling (word.now, Tag tag ∷ Place place ∷ [])) }
{
    push_number(out, word, tag)?;
    write!(out, " {place}")
}

/// Appends a word, a tag, and two places, or a place and a length.
fn push_range(
    out: &mut String,
    word: &str,
    tag: u16,
    first: u32,
    second: u32,
) -> Result<(), AllocError>
    ensures { OnOk result (string_bytes out.new ≡ string_bytes out.old ++ spelling (word.now, Tag tag ∷ Place first ∷ Place second ∷ [])) }
{
    push_place(out, word, tag, first)?;
    write!(out, " {second}")
}
