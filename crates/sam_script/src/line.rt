//! Reads one line of a script.

ghost use Rattle.std.specs.Prelude.{◌≡◌, IfOk, IfErr, chars, option_copied};
ghost use Rattle.sam_script.specs.Reading.{IsUnsaid, line_at, file_at, file_text_at, fitting_name, read_by, bare_readers, step_readers};
ghost use Rattle.sam_script.specs.Script.{key_in, click_in};
ghost use Rattle.sam_script.specs.Words.{Gives};
ghost use Rattle.sam_script.specs.Spelling.{Says};

use crate::event::event_at;
use crate::fault::LineFault;
use crate::words::{ended, split_word, tag_alone, text_at, word_at};
use sam_runes::{MAX_RUNES, MOST_IN_NAME, Runes};
use sam_term::event::UserEvent;
use std::alloc::{AllocError, Global};
use std::str;

/// What a line of a script asks for: an event of the user, a file that joins or is marked, or another step. `file` lines and lines that say
/// nothing are not among them. [`replay`](crate::replay) does one after another. A session of threads takes the events of the user alone.
#[derive(Drop)]
pub enum Line {
    /// `k`: the user does this at the keyboard, and the terminal holds it after the events that it holds already.
    Key(UserEvent),
    /// `m`: the user does this with the mouse. A replay treats it as `Key`; in a session it has a thread of its own.
    Mouse(UserEvent),
    /// `add`: a file of this name and text joins the session, both within the limits of a `file` line.
    Add(Runes, Runes),
    /// `dirty`: the host marks the file of this tag as dirty.
    Dirty(u16),
    /// `act`: the terminal tries its oldest held event, if it holds one.
    Act,
    /// `flush`: the terminal composes its unsent runes, if there are any.
    Flush,
    /// `host`: the host takes the oldest message that is under way to it.
    Host,
    /// `term`: the terminal takes the oldest frame that is under way to it.
    Term,
    /// `drain`: all that can happen without the user happens, as `World::drain` says.
    Drain,
    /// `show`: the world is printed, as [`show`](crate::show) says.
    Show,
}

/// A line of a script with its number. A replay that finds nothing to take at the line names it by that number.
#[derive(Drop)]
pub struct Numbered {
    /// The number of the line, counted from 1. `file` lines and lines that say nothing count too.
    pub number: usize,
    /// What the line asks for.
    pub line: Line,
}

impl Line {
    /// Returns the event of a `k` line, and `None` for any other. With it the lines of a script say what the user does at the keyboard.
    pub fn key(&self) -> Option<&UserEvent>
        ensures { option_copied result ≡ key_in self.now }
    {
        match self {
            Line::Key(event) => Some(event),
            _ => None,
        }
    }

    /// Returns the event of an `m` line, and `None` for any other.
    pub fn click(&self) -> Option<&UserEvent>
        ensures { option_copied result ≡ click_in self.now }
    {
        match self {
            Line::Mouse(event) => Some(event),
            _ => None,
        }
    }

    /// Returns a copy, made with `alloc`. The only error is out of memory.
    pub fn copy(&self, alloc: Global) -> Result<Line, AllocError>
        ensures { IfOk result (λ line. line ≡ self.now) }
    {
        Ok(match self {
            Line::Key(event) => Line::Key(event.copy(alloc)?),
            Line::Mouse(event) => Line::Mouse(event.copy(alloc)?),
            Line::Add(name, text) => Line::Add(name.copy(alloc)?, text.copy(alloc)?),
            Line::Dirty(tag) => Line::Dirty(*tag),
            Line::Act => Line::Act,
            Line::Flush => Line::Flush,
            Line::Host => Line::Host,
            Line::Term => Line::Term,
            Line::Drain => Line::Drain,
            Line::Show => Line::Show,
        })
    }
}

/// What a line says by itself, wherever it stands in its script.
#[derive(Drop)]
pub enum Said {
    /// Nothing: it is empty, or it begins with `#` or `=`.
    Nothing,
    /// The host has a file of this name and this text, both within the limits.
    File(Runes, Runes),
    /// It asks for this.
    Line(Line),
}

/// Reads what a line says. The bytes stand without their newline. `Wrong` comes only if they are not UTF-8 or not in the grammar.
pub fn said_by(alloc: Global, bytes: &[u8]) -> Result<Said, LineFault>
    ensures ok { IfOk result (λ it. Says it bytes.now) }
    ensures wrong { IfErr result (IsUnsaid bytes.now) }
{
    match str::from_utf8(bytes) {
        Ok(text) => read_line(alloc, text),
        Err(_) => Err(LineFault::Wrong),
    }
}

/// Reads what a line of text says.
#[tactic(auto, unfolding(crate::specs::Reading::line_at))]
fn read_line(alloc: Global, text: &str) -> Result<Said, LineFault>
    ensures { Gives (λ it. it) result (line_at text.now) }
{
    if text.is_empty() || text.starts_with('#') || text.starts_with('=') {
        return Ok(Said::Nothing);
    }
    let (word, rest) = split_word(text);
    match word {
        "file" => {
            let (name, text) = file_at(alloc, rest)?;
            Ok(Said::File(name, text))
        }
        "add" => {
            let (name, text) = file_at(alloc, rest)?;
            Ok(Said::Line(Line::Add(name, text)))
        }
        "k" => Ok(Said::Line(Line::Key(event_at(alloc, rest)?))),
        "m" => Ok(Said::Line(Line::Mouse(event_at(alloc, rest)?))),
        _ => step_line(word, rest),
    }
}

/// Reads a line that marks a file, or is one word.
fn step_line(word: &str, rest: &str) -> Result<Said, LineFault>
    ensures { Gives (λ it. it) result (read_by step_readers word.now rest.now) }
{
    match word {
        "dirty" => Ok(Said::Line(Line::Dirty(tag_alone(rest)?))),
        _ => bare_line(word, rest),
    }
}

/// Reads a line that is one word.
fn bare_line(word: &str, rest: &str) -> Result<Said, LineFault>
    ensures { Gives (λ it. it) result (read_by bare_readers word.now rest.now) }
{
    match word {
        "act" => ended(Said::Line(Line::Act), rest),
        "flush" => ended(Said::Line(Line::Flush), rest),
        "host" => ended(Said::Line(Line::Host), rest),
        "term" => ended(Said::Line(Line::Term), rest),
        "drain" => ended(Said::Line(Line::Drain), rest),
        "show" => ended(Said::Line(Line::Show), rest),
        _ => Err(LineFault::Wrong),
    }
}

/// Reads the name and the text of a `file` or an `add` line, which stand after its first word.
#[tactic(auto, unfolding(crate::specs::Reading::file_at))]
fn file_at(alloc: Global, text: &str) -> Result<(Runes, Runes), LineFault>
    ensures { Gives (λ x. (x.0, x.1)) result (file_at text.now) }
{
    let (word, rest) = word_at(text)?;
    let name = name_of(alloc, word)?;
    let text = file_text_at(alloc, rest)?;
    Ok((name, text))
}

/// Returns the runes of a name, which are `Wrong` if there are none or more than `MOST_IN_NAME`.
fn name_of(alloc: Global, word: &str) -> Result<Runes, LineFault>
    ensures { Gives (λ name. name) result (fitting_name (chars word.now)) }
{
    let name = runes_of(alloc, word)?;
    if name.is_empty() || name.len() > MOST_IN_NAME {
        return Err(LineFault::Wrong);
    }
    Ok(Runes::from_vec(name))
}

/// Returns the runes of a word, as they stand.
#[tactic(auto, using(std::proofs::lemmas::Str::chars_from_encodes))]
fn runes_of(alloc: Global, word: &str) -> Result<Vec<char>, AllocError>
    ensures { IfOk result (λ runes. runes.items ≡ chars word.now) }
{
    word.chars().collect(alloc)
}

/// Reads the text of a file, which is `Wrong` if it has more than `MAX_RUNES` runes.
#[tactic(auto, unfolding(crate::specs::Reading::file_text_at))]
fn file_text_at(alloc: Global, rest: &str) -> Result<Runes, LineFault>
    ensures { Gives (λ text. text) result (file_text_at rest.now) }
{
    let text = text_at(alloc, rest)?;
    if text.len() > MAX_RUNES as usize {
        return Err(LineFault::Wrong);
    }
    Ok(text)
}
