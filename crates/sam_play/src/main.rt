//! The program: its words name a mode, and the mode reads standard input and writes standard output.
#![tactic(auto)]

use sam_session::{ArgFault, PlayFault, VERSION, mode_of, play, status_of, usage};
use std::alloc::AllocError;
use std::env::Env;
use std::io::{BufWriter, ErrorKind, Write};
use std::process::ExitCode;
use std::sync::Wait;
use std::thread::Threads;
use std::{env, io};

/// The exit status for wrong words. `status_of` has those of the modes.
const WRONG_WORDS: u8 = 2;

/// Why the program ran no mode to its end.
#[derive(Clone, Copy, Debug, PartialEq, Eq)]
enum Fault {
    /// The words ask for the version.
    Version,
    /// The words are wrong.
    Arguments,
    /// Memory was refused before the mode was known.
    Memory,
    /// The mode stopped.
    Play(PlayFault),
}

impl From<ArgFault> for Fault {
    fn from(fault: ArgFault) -> Fault {
        match fault {
            ArgFault::Version => Fault::Version,
            ArgFault::Wrong => Fault::Arguments,
            ArgFault::OutOfMemory => Fault::Memory,
        }
    }
}

impl From<AllocError> for Fault {
    fn from(_error: AllocError) -> Fault {
        Fault::Memory
    }
}

impl From<PlayFault> for Fault {
    fn from(fault: PlayFault) -> Fault {
        Fault::Play(fault)
    }
}

/// Runs the program, and turns a fault into its exit status.
fn main(rt: HostRuntime) -> ExitCode {
    match run(&rt) {
        Ok(()) => ExitCode::SUCCESS,
        Err(fault) => ExitCode::from(say(&rt, fault)),
    }
}

/// Runs the mode that the words name, over standard input and output.
fn run<R: Input + Print + Env + AllocGlobal + Threads + Wait + Sync>(rt: &R) -> Result<(), Fault> {
    let alloc = rt.alloc();
    let Ok(mut writer) = BufWriter::new(alloc, io::writer(rt)) else {
        return Err(Fault::Memory);
    };
    let mode = mode_of(alloc, words(rt)?)?;
    let mut reader = rt.reader();
    let played = play(rt, alloc, &mut reader, &mut writer, mode);
    if writer.flush().is_err() {
        return Err(Fault::Play(PlayFault::Write));
    }
    Ok(played?)
}

/// Returns the program's words. Words that are not UTF-8 are wrong.
fn words<R: Env + AllocGlobal>(rt: &R) -> Result<Vec<String>, Fault> {
    match env::args(rt) {
        Ok(words) => Ok(words.collect(rt.alloc())?),
        Err(error) if error.kind() == ErrorKind::OutOfMemory => Err(Fault::Memory),
        Err(_) => Err(Fault::Arguments),
    }
}

/// Says on standard error, for a person, what is wrong with the words, or which there are, where they are not UTF-8. If it can't, it says
/// nothing: standard output and the exit status report the fault.
fn say_usage<R: Eprint + Env + AllocGlobal>(rt: &R) {
    let alloc = rt.alloc();
    let words = match words(rt) {
        Ok(words) => words,
        Err(_) => Vec::new(alloc),
    };
    if let Ok(text) = usage(alloc, words) {
        let _ = eprint!(rt; "{text}");
    }
}

/// Prints the program's name and its version. Returns the exit status: 0, or that of a failed write.
fn say_version<R: Print>(rt: &R) -> u8 {
    match println!(rt; "sam_play {VERSION}") {
        Ok(()) => 0,
        Err(_) => status_of(&Err(PlayFault::Write)),
    }
}

/// Returns the exit status of a fault. It prints the version, or the line of a fault that came before the mode ran; if that fails, the
/// status is that of a failed write.
fn say<R: Print + Eprint + Env + AllocGlobal>(rt: &R, fault: Fault) -> u8 {
    let (status, line) = match fault {
        Fault::Version => return say_version(rt),
        Fault::Arguments => {
            say_usage(rt);
            (WRONG_WORDS, "= fault arguments")
        }
        Fault::Memory => (status_of(&Err(PlayFault::OutOfMemory)), "= fault memory"),
        Fault::Play(fault) => return status_of(&Err(fault)),
    };
    match rt.println(line) {
        Ok(()) => status,
        Err(_) => status_of(&Err(PlayFault::Write)),
    }
}
