//! Prints the lines that show what a world is like.

ghost use Rattle.std.specs.Prelude.{◌≡◌, ◌++◌, ◌≤◌, drop, IfOk, OnOk, IfErr, None, string_bytes, flat_map, option_map};
ghost use Rattle.std.specs.Prelude.{option_copied, replicate};
ghost use Rattle.sam_rasp.specs.Sections.{cells, size};
ghost use Rattle.sam_text.specs.Views.{plain_file};
ghost use Rattle.sam_script.specs.Show.{host_line, term_line, host_slot, term_slot, slot_lines, state_line, show_lines};
ghost use Rattle.sam_script.specs.Show.{lock_shown, counts_line, text_rune, name_rune, text_shown, name_shown, rasp_shown};

use crate::fault::ScriptFault;
use sam_rasp::{Rasp, Section};
use sam_term::records::{KnownFile, Window};
use sam_text::{File, Files};
use sam_world::world::World;
use std::alloc::{AllocError, Global};
use std::fmt::Write;

/// Returns the lines that show a world, each beginning with `=` and a space: one for each file of the host, one for each file that is
/// open at the terminal, tags ascending, and one for both sides. That one says whether the command lock is held, how many messages were
/// composed and taken, how many runes are unsent, and how much is under way each way. Held events are not shown. A script may hold such
/// lines, which say nothing there. The only error is `OutOfMemory`.
pub fn show(alloc: Global, world: &World) -> Result<Vec<u8>, ScriptFault>
    ensures lines { IfOk result (λ out. out.items ≡ show_lines world.now) }
    ensures memory { IfErr result (λ why. why ≡ ScriptFault.OutOfMemory) }
{
    let mut out = String::new(alloc);
    push_world(&mut out, world)?;
    Ok(out.into_bytes())
}

/// Appends the lines of a world. After an error a part of them may stand there, as with each function below.
pub fn push_world(out: &mut String, world: &World) -> Result<(), AllocError>
    ensures { OnOk result (string_bytes out.new ≡ string_bytes out.old ++ show_lines world.now) }
{
    push_host_files(out, world.host().files())?;
    push_term_files(out, world.term().files())?;
    push_state(out, world)
}

/// What the line for both sides counts: messages composed and taken, runes unsent, and what is under way up and down.
#[derive(Clone, Copy)]
struct Counts {
    sent: u64,
    taken: u64,
    unsent: u32,
    up: usize,
    down: usize,
}

/// Appends the line for both sides.
fn push_state(out: &mut String, world: &World) -> Result<(), AllocError>
    ensures { OnOk result (string_bytes out.new ≡ string_bytes out.old ++ state_line world.now) }
{
    let counts = Counts {
        sent: world.term().sent(),
        taken: world.host().taken(),
        unsent: world.term().unsent(),
        up: world.up(),
        down: world.down(),
    };
    push_counts(out, world.term().command_locked(), counts)
}

/// Appends the line for both sides, from its numbers.
fn push_counts(out: &mut String, locked: bool, counts: Counts) -> Result<(), AllocError>
    ensures { OnOk result (string_bytes out.new ≡ string_bytes out.old
        ++ counts_line locked counts.sent counts.taken counts.unsent counts.up counts.down) }
{
    let Counts {
        sent,
        taken,
        unsent,
        up,
        down,
    } = counts;
    push(out, "= s ")?;
    push_lock(out, locked)?;
    write!(out, "{sent} {taken} {unsent} {up} {down}")?;
    push(out, "\n")
}

/// Appends `1` if the command lock is held, else `0`, and a space.
fn push_lock(out: &mut String, held: bool) -> Result<(), AllocError>
    ensures { OnOk result (string_bytes out.new ≡ string_bytes out.old ++ lock_shown held) }
{
    push(out, if held { "1 " } else { "0 " })
}

/// Appends a line for each file of the host, tags ascending.
fn push_host_files(out: &mut String, files: &Files) -> Result<(), AllocError>
    ensures { OnOk result (string_bytes out.new ≡ string_bytes out.old ++ slot_lines host_slot 0 files.now.plain.slots) }
{
    for tag in 0..files.tags() {
        push_host_slot(out, tag, files.file(tag as u16))?;
    }
    Ok(())
}

/// Appends the line of a file of the host, if the tag has one.
fn push_host_slot(out: &mut String, tag: usize, file: Option<&File>) -> Result<(), AllocError>
    ensures { OnOk result (string_bytes out.new
        ≡ string_bytes out.old ++ host_slot tag (option_map plain_file (option_copied file.entry))) }
{
    match file {
        None => Ok(()),
        Some(file) => push_host_line(out, tag, file),
    }
}

/// Appends a file of the host: its tag, whether it is open (`o`, else `-`) and dirty (`d`, else `c`), its name and its text.
fn push_host_line(out: &mut String, tag: usize, file: &File) -> Result<(), AllocError>
    ensures { OnOk result (string_bytes out.new ≡ string_bytes out.old
        ++ host_line tag file.now.plain.opened file.now.plain.dirty file.now.plain.name file.now.plain.text) }
{
    write!(out, "= h {tag} ")?;
    push(out, if file.is_open() { "o " } else { "- " })?;
    push(out, if file.is_dirty() { "d " } else { "c " })?;
    push_name(out, file.name().as_slice())?;
    push(out, " |")?;
    push_text(out, file.text().slice(0, file.text().len()))?;
    push(out, "|\n")
}

/// Appends a line for each file that is open at the terminal, tags ascending.
fn push_term_files(out: &mut String, files: &[Option<KnownFile>]) -> Result<(), AllocError>
    ensures { OnOk result (string_bytes out.new ≡ string_bytes out.old ++ slot_lines term_slot 0 files.now) }
{
    for tag in 0..files.len() {
        push_term_slot(out, tag, &files[tag])?;
    }
    Ok(())
}

/// Appends the line of a file, if it is open at the terminal.
fn push_term_slot(out: &mut String, tag: usize, file: &Option<KnownFile>) -> Result<(), AllocError>
    ensures { OnOk result (string_bytes out.new ≡ string_bytes out.old ++ term_slot tag file.now) }
{
    match file {
        None => Ok(()),
        Some(known) => match &known.window {
            None => Ok(()),
            Some(window) => push_term_line(out, tag, window),
        },
    }
}

/// Appends a file that is open at the terminal: its tag, the number of its locks, its dot and its rasp.
fn push_term_line(out: &mut String, tag: usize, window: &Window) -> Result<(), AllocError>
    ensures { OnOk result (string_bytes out.new ≡ string_bytes out.old
        ++ term_line tag window.now.locks window.now.dot.0 window.now.dot.1 window.now.rasp) }
{
    let locks = window.locks;
    let start = window.dot.0;
    let end = window.dot.1;
    write!(out, "= t {tag} {locks} {start} {end} |")?;
    push_rasp(out, &window.rasp)?;
    push(out, "|\n")
}

/// Appends a text as it stands.
pub(crate) fn push(out: &mut String, text: &str) -> Result<(), AllocError>
    ensures { OnOk result (string_bytes out.new ≡ string_bytes out.old ++ text.now) }
{
    out.push_str(text)
}

/// Appends runes as a text, in which backslash and newline are escaped.
pub(crate) fn push_text(out: &mut String, text: &[char]) -> Result<(), AllocError>
    ensures { OnOk result (string_bytes out.new ≡ string_bytes out.old ++ text_shown text.now) }
{
    out.reserve(text.len())?;
    for rune in text {
        push_rune(out, *rune)?;
    }
    Ok(())
}

/// Appends one rune of a text, escaped if it is a backslash or a newline.
fn push_rune(out: &mut String, rune: char) -> Result<(), AllocError>
    ensures { OnOk result (string_bytes out.new ≡ string_bytes out.old ++ text_rune rune) }
{
    match rune {
        '\\' => out.push_str("\\\\"),
        '\n' => out.push_str("\\n"),
        _ => out.push(rune),
    }
}

/// Appends a name, in which spaces are escaped too. An empty name is `\e`, so that it can be seen.
fn push_name(out: &mut String, name: &[char]) -> Result<(), AllocError>
    ensures { OnOk result (string_bytes out.new ≡ string_bytes out.old ++ name_shown name.now) }
{
    if name.is_empty() {
        return out.push_str("\\e");
    }
    push_name_runes(out, name)
}

/// Appends the runes of a name.
fn push_name_runes(out: &mut String, name: &[char]) -> Result<(), AllocError>
    ensures { OnOk result (string_bytes out.new ≡ string_bytes out.old ++ flat_map name_rune name.now) }
{
    for rune in name {
        if *rune == ' ' {
            out.push_str("\\s")?;
        } else {
            push_rune(out, *rune)?;
        }
    }
    Ok(())
}

/// Appends a rasp as a text in which each gap is `\_`, section by section.
#[tactic(auto, using(crate::proofs::ShowLaws::rasp_facts))]
fn push_rasp(out: &mut String, rasp: &Rasp) -> Result<(), AllocError>
    ensures { OnOk result (string_bytes out.new ≡ string_bytes out.old ++ rasp_shown rasp.now) }
{
    let mut at = 0;
    while let Some((section, start)) = rasp.section_at(at) {
        push_section(out, section, at - start)?;
        at = start + section.len();
    }
    Ok(())
}

/// Appends what a section has from `place` on: its runes, or its gaps.
#[tactic(auto, using(crate::proofs::ShowLaws::section_facts))]
fn push_section(out: &mut String, section: &Section, place: u32) -> Result<(), AllocError>
    requires { place ≤ size section.now }
    ensures { OnOk result (string_bytes out.new ≡ string_bytes out.old ++ rasp_shown (drop place (cells section.now))) }
{
    match section {
        Section::Loaded(text) => push_text(out, &text.as_slice()[place as usize..]),
        Section::Hole(count) => push_gaps(out, *count - place),
    }
}

/// Appends this many gaps.
fn push_gaps(out: &mut String, count: u32) -> Result<(), AllocError>
    ensures { OnOk result (string_bytes out.new ≡ string_bytes out.old ++ rasp_shown (replicate count None)) }
{
    for _gap in 0..count {
        push(out, "\\_")?;
    }
    Ok(())
}
