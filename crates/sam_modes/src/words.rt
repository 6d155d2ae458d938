//! Which mode the program's words ask for.
ghost use Rattle.std.specs.Prelude.{◌≡◌, ◌≤◌, IfOk, Some, map, string_bytes, length, codes, false};
ghost use Rattle.std.specs.Str.{encode_utf8_all};
ghost use Rattle.clap.specs.Words.{app_of, new_app, rule_of, found_of, rows_of, subcommand_rows_of, first_of};
ghost use Rattle.clap.specs.declared.builder.command.Command.TheViews.{out-Command};
ghost use Rattle.sam_runes.specs.Texts.{max_runes};
ghost use Rattle.sam_modes.specs.Words.{IsModeOf, HoldsMode, HoldsNumber, attached, option_of};
ghost use Rattle.sam_modes.specs.Words.{bytes_app, threads_app, bare_program, program};

use clap::error::ErrorKind;
use clap::{Arg, ArgMatches, Command};
use sam_runes::{MAX_RUNES, Runes};
use std::alloc::{AllocError, AllocFailed, Global};
use thiserror::Error;

/// What the program is asked to do. `mode_of` reads it from the program's words, and `play` of sam_session does it.
#[derive(Drop)]
pub enum Mode {
    /// Reads frames of the terminal, and writes those that a host answers whose file 1 holds this text, of at most `MAX_RUNES` runes.
    Bytes(Runes),
    /// Reads a script, runs it, and writes what its `show` lines print.
    Replay,
    /// Reads a script, runs its events on five threads, and writes the schedule that they made and what its end shows. The numbers, each
    /// at least 1, are the most bytes of a piece of the stream and the capacity of a line between threads, in entries. From the words they
    /// are at most 65,536 and 1,024.
    Threads(usize, usize),
}

/// The most bytes that a piece of the stream between threads may have: the greatest number for `--piece`.
pub const MOST_PIECE: usize = 65_536;

/// The greatest capacity of a line between threads, in entries: the greatest number for `--cap`.
pub const MOST_CAPACITY: usize = 1_024;

/// The version of the program, as the file VERSION has it.
pub const VERSION: &str = "0.1.0";

// What help says of the program, its modes and their options, and what is wrong with a value. The ranges in it are those of `MAX_RUNES`,
// `MOST_PIECE` and `MOST_CAPACITY`.
const PROGRAM_HELP: &str = "A host and a terminal after Pike's sam, over standard input and output";

const BYTES_HELP: &str =
    "Reads the frames of a terminal, and writes those that a host with one file answers";

const TEXT_HELP: &str = "The text of the host's file";

const REPLAY_HELP: &str = "Reads a script, runs it, and prints what its show lines ask for";

const THREADS_HELP: &str =
    "Reads a script, runs its events on five threads, and prints the schedule that they made and what its end shows";

const PIECE_HELP: &str = "The most bytes of a piece of the stream between threads, from 1 to 65536";

const CAP_HELP: &str = "The capacity of a line between threads, from 1 to 1024";

const WRONG_TEXT: &str = "the value of --text has more than 1000000 runes";

const WRONG_PIECE: &str = "the value of --piece is no number from 1 to 65536";

const WRONG_CAP: &str = "the value of --cap is no number from 1 to 1024";

/// Why the words name no mode. The program then runs none, and reads nothing. For `Version` it writes its name and `VERSION`, and its exit
/// status is 0. Else it writes the line of the fault, and for `Wrong` the usage on standard error; the status is 2, or 4 when out of
/// memory. If the line can't be written the status is 5.
#[derive(Clone, Copy, Debug, PartialEq, Eq, Error)]
pub enum ArgFault {
    /// The words ask for the program's version.
    #[error("no mode, but the version")]
    Version,
    /// The words are none of the program's, or a value is out of its range. A wish for help is wrong, too.
    #[error("wrong arguments")]
    Wrong,
    /// A request for memory was refused.
    #[error("out of memory")]
    OutOfMemory,
}

impl From<AllocError> for ArgFault {
    fn from(_error: AllocError) -> ArgFault {
        ArgFault::OutOfMemory
    }
}

impl<T: Drop> From<AllocFailed<T>> for ArgFault {
    fn from(_error: AllocFailed<T>) -> ArgFault {
        ArgFault::OutOfMemory
    }
}

impl From<clap::Error> for ArgFault {
    fn from(error: clap::Error) -> ArgFault {
        match error.kind() {
            ErrorKind::OutOfMemory => ArgFault::OutOfMemory,
            ErrorKind::DisplayVersion => ArgFault::Version,
            _ => ArgFault::Wrong,
        }
    }
}

/// Returns the mode that the words name. The first word is the program's name, and is not looked at. The errors are `Version` if the
/// words ask for it, `Wrong` if they name no mode, and `OutOfMemory`, which may come before these.
pub fn mode_of(alloc: Global, words: Vec<String>) -> Result<Mode, ArgFault>
    ensures { IfOk result (IsModeOf (map string_bytes words.items)) }
{
    let words = with_text_attached(alloc, &words)?;
    let matches = command(alloc)?.try_get_matches_from(words.as_slice())?;
    mode_in(alloc, &matches)
}

/// Returns what to say to a person whose words name no mode: the help that they wish for, or what is wrong with them. The first word is the
/// program's name. Its only error is out of memory. What the text says is no promise.
pub fn usage(alloc: Global, words: Vec<String>) -> Result<String, AllocError> {
    let words = with_text_attached(alloc, &words)?;
    let mut command = command(alloc)?;
    let wrong = match command.try_get_matches_from_mut(words.as_slice()) {
        Ok(matches) => matches
            .subcommand()
            .map(|(name, inner)| wrong_value(name, inner)),
        Err(error) => return error.to_string(alloc),
    };
    match wrong {
        Some(wrong) => command
            .error(ErrorKind::ValueValidation, wrong)?
            .to_string(alloc),
        None => command.render_help(),
    }
}

/// Returns which value of a mode's options is out of its range, where one is.
fn wrong_value(mode: &str, matches: &ArgMatches<'_>) -> &'static str {
    if mode == "bytes" {
        return WRONG_TEXT;
    }
    if number_in(matches, "piece", MOST_PIECE).is_err() {
        return WRONG_PIECE;
    }
    WRONG_CAP
}

/// Returns the words with each `--text TEXT` as the one word `--text=TEXT`, so that clap takes TEXT as it stands.
fn with_text_attached(alloc: Global, words: &Vec<String>) -> Result<Vec<String>, AllocError>
    ensures { IfOk result (λ v. map string_bytes v.items ≡ attached (map string_bytes words.now.items)) }
{
    let mut out = Vec::with_capacity(alloc, words.len())?;
    let Some((name, arguments)) = words.as_slice().split_first() else {
        return Ok(out);
    };
    out.push(name.clone()?)?;
    let mut waits = false;
    for word in arguments {
        if waits {
            out.push(format!(in alloc; "--text={word}")?)?;
            waits = false;
        } else if word.as_str() == "--text" {
            waits = true;
        } else {
            out.push(word.clone()?)?;
        }
    }
    if waits {
        out.push(String::from_str(alloc, "--text")?)?;
    }
    Ok(out)
}

/// Makes a command, with what its help says of it.
fn command_named<'a>(alloc: Global, name: &'a str, about: &'a str) -> Command<'a>
    ensures app { app_of result ≡ new_app name.entry.now }
    ensures local { (out-Command result).has_globals ≡ false }
{
    Command::new(alloc, name).about(about)
}

/// Makes an option with one value and a default, and with what its help says of it.
fn option_named<'a>(alloc: Global, name: &'a str, default: &'a str, help: &'a str) -> Arg<'a>
    ensures rule { rule_of result ≡ option_of name.entry.now default.entry.now }
    ensures local { result.global ≡ false }
{
    Arg::new(alloc, name)
        .long(name)
        .default_value(default)
        .help(help)
}

/// Makes the command of mode `bytes`.
fn bytes_command<'a>(alloc: Global) -> Result<Command<'a>, AllocError>
    ensures { IfOk result (λ c. (app_of c ≡ bytes_app) × ((out-Command c).has_globals ≡ false)) }
{
    let text = option_named(alloc, "text", "", TEXT_HELP);
    command_named(alloc, "bytes", BYTES_HELP).arg(text)
}

/// Makes the command of mode `threads`.
fn threads_command<'a>(alloc: Global) -> Result<Command<'a>, AllocError>
    ensures { IfOk result (λ c. (app_of c ≡ threads_app) × ((out-Command c).has_globals ≡ false)) }
{
    let piece = option_named(alloc, "piece", "64", PIECE_HELP);
    let cap = option_named(alloc, "cap", "16", CAP_HELP);
    let cut = command_named(alloc, "threads", THREADS_HELP).arg(piece)?;
    cut.arg(cap)
}

/// Makes the program's command, without its modes.
fn bare_command<'a>(alloc: Global) -> Command<'a>
    ensures app { app_of result ≡ bare_program }
    ensures local { (out-Command result).has_globals ≡ false }
{
    command_named(alloc, "sam_play", PROGRAM_HELP).version(VERSION)
}

/// Makes the program's command line.
fn command<'a>(alloc: Global) -> Result<Command<'a>, AllocError>
    ensures { IfOk result (λ c. app_of c ≡ program) }
{
    let bytes = bytes_command(alloc)?;
    let replay = command_named(alloc, "replay", REPLAY_HELP);
    let threads = threads_command(alloc)?;
    bare_command(alloc)
        .subcommand(bytes)?
        .subcommand(replay)?
        .subcommand(threads)
}

/// Returns the mode that the matches hold.
fn mode_in(alloc: Global, matches: &ArgMatches<'_>) -> Result<Mode, ArgFault>
    ensures { IfOk result (HoldsMode (subcommand_rows_of matches.now)) }
{
    let Some((name, inner)) = matches.subcommand() else {
        return Err(ArgFault::Wrong);
    };
    if name == "bytes" {
        return Ok(Mode::Bytes(text_in(alloc, inner)?));
    }
    if name == "replay" {
        return Ok(Mode::Replay);
    }
    if name == "threads" {
        let piece = number_in(inner, "piece", MOST_PIECE)?;
        let capacity = number_in(inner, "cap", MOST_CAPACITY)?;
        return Ok(Mode::Threads(piece, capacity));
    }
    Err(ArgFault::Wrong)
}

/// Returns the runes of `--text`. The errors are `OutOfMemory`, and then `Wrong` if they are more than `MAX_RUNES`.
fn text_in(alloc: Global, matches: &ArgMatches<'_>) -> Result<Runes, ArgFault>
    ensures value { IfOk result (λ text. first_of (codes "text") (rows_of (found_of matches.now)) ≡ Some (encode_utf8_all text)) }
    ensures limit { IfOk result (λ text. length text ≤ max_runes) }
{
    let Some(text) = matches.get_str("text") else {
        return Err(ArgFault::Wrong);
    };
    let runes = Runes::from_str(alloc, text)?;
    if runes.len() > MAX_RUNES as usize {
        return Err(ArgFault::Wrong);
    }
    Ok(runes)
}

/// Returns the number that an option's value writes in decimal digits alone. It is `Wrong` if it is not from 1 to `most`.
#[tactic(auto, using(crate::proofs::Numbers::plain, crate::proofs::Numbers::parsed, crate::proofs::Numbers::number_in_facts))]
fn number_in(matches: &ArgMatches<'_>, name: &str, most: usize) -> Result<usize, ArgFault>
    ensures { IfOk result (λ n. HoldsNumber (first_of name.now (rows_of (found_of matches.now))) most n) }
{
    let Some(word) = matches.get_str(name) else {
        return Err(ArgFault::Wrong);
    };
    let bytes = word.as_bytes();
    if bytes.is_empty() || bytes[0] == b'+' {
        return Err(ArgFault::Wrong);
    }
    match word.parse::<usize>() {
        Ok(number) if 0 < number && number <= most => Ok(number),
        _ => Err(ArgFault::Wrong),
    }
}
