//! Reads a script: its files, and then its other lines.

ghost use Rattle.std.specs.Prelude.{◌≡◌, ◌≤◌, IfErr, IfOk, OnOk, length, All};
ghost use Rattle.sam_runes.specs.Texts.{most_files};
ghost use Rattle.sam_script.specs.Reading.{Adds, AddsNone};
ghost use Rattle.sam_world.specs.Given.{IsFile};
ghost use Rattle.sam_script.specs.Script.{keys_of, mouse_of, without_lines};
ghost use Rattle.sam_script.specs.Spelling.{Spells, IsReadFault};

use crate::fault::{LineFault, ScriptFault};
use crate::line::{Line, Numbered, Said, said_by};
use crate::user::{Clicks, Keys};
use sam_runes::{MOST_FILES, Runes};
use std::alloc::Global;
use std::marker::Model;
use std::mem;

/// A script that was read: the names and texts of the host's files, and the lines that follow them. It has at most `MOST_FILES` files,
/// with names of 1 to `MOST_IN_NAME` runes and texts of at most `MAX_RUNES`. Every script comes from [`Script::read`]:
///
/// ```rust
/// let script = Script::read(alloc, b"file a hello\nk version 1\nk open 1\nk type 1 X\ndrain\nshow\n")?;
/// let shown = replay(alloc, &script)?; // the lines that `show` prints, such as `= h 1 o d a |Xhello|`
/// ```
#[derive(Drop)]
pub struct Script {
    /// The names and texts of its `file` lines, in their order: those of tags 1, 2, and so on. All are within the limits.
    files: Vec<(Runes, Runes)>,
    /// Its other lines that say something, in their order.
    lines: Vec<Numbered>,
}

impl Model for Script {
    ghost use Rattle.sam_runes.specs.Texts.{most_files};
    ghost use Rattle.std.specs.Prelude.{◌≤◌, All, length};
    ghost use Rattle.sam_world.specs.Given.{IsFile};
    ghost use Rattle.sam_script.specs.Script.{PlainScript};

    ghost Value = { PlainScript };

    ghost view = { λ a. record { files = a.files.items; lines = a.lines.items } };

    ghost invariant = { λ a. (length a.files.items ≤ most_files) × All IsFile a.files.items };
}

impl Script {
    /// Reads the script that the bytes spell: lines of UTF-8, parted by newlines. So the last newline may be missing, and the empty
    /// input is one empty line.
    ///
    /// The lines are read in their order, up to the first that is wrong or wants memory that is refused. `Line(n)` says that line n,
    /// counted from 1, is wrong: the n-1 lines before it spell a script, and with it they spell none. A line is wrong if it is not in the
    /// grammar, if it is a `file` line after a line that asks for something, or if it is a `file` line after `MOST_FILES` others.
    /// `OutOfMemory` may come at any line.
    pub fn read(alloc: Global, bytes: &[u8]) -> Result<Script, ScriptFault>
        ensures ok { IfOk result (λ script. Spells bytes.now script) }
        ensures fault { IfErr result (IsReadFault bytes.now) }
    {
        let mut script = Script {
            files: Vec::new(alloc),
            lines: Vec::new(alloc),
        };
        let mut number: usize = 0;
        for line in bytes.split(|b| *b == b'\n') {
            number = number.saturating_add(1);
            match script.add(alloc, number, line) {
                Ok(()) => {}
                Err(LineFault::Wrong) => return Err(ScriptFault::Line(number)),
                Err(LineFault::OutOfMemory) => return Err(ScriptFault::OutOfMemory),
            }
        }
        Ok(script)
    }

    /// Adds what the line of this number says, unless it may not stand after what was added before.
    fn add(&mut self, alloc: Global, number: usize, bytes: &[u8]) -> Result<(), LineFault>
        ensures ok { OnOk result (Adds number bytes.now self.old self.new) }
        ensures wrong { IfErr result (AddsNone bytes.now self.old) }
    {
        match said_by(alloc, bytes)? {
            Said::Nothing => Ok(()),
            Said::File(name, text) => {
                if !self.lines.is_empty() || self.files.len() >= MOST_FILES {
                    return Err(LineFault::Wrong);
                }
                self.files.push((name, text))?;
                Ok(())
            }
            Said::Line(line) => {
                self.lines.push(Numbered { number, line })?;
                Ok(())
            }
        }
    }

    /// Returns the names and texts of its files, in order; their tags are 1, 2, and so on.
    pub fn files(&self) -> &[(Runes, Runes)]
        ensures files { result.now ≡ self.now.files }
        ensures count { length result.now ≤ most_files }
        ensures each { All IsFile result.now }
    {
        self.files.as_slice()
    }

    /// Returns its other lines, with their numbers, in order.
    pub fn lines(&self) -> &[Numbered]
        ensures { result.now ≡ self.now.lines }
    {
        self.lines.as_slice()
    }

    /// Hands out its other lines, with their numbers, in order, and lets go of its files.
    pub fn into_lines(self) -> Vec<Numbered>
        ensures { result.items ≡ self.lines }
    {
        self.lines
    }

    /// Takes its other lines out, and hands them out with their numbers, in order. Its files stay.
    pub fn take_lines(&mut self) -> Vec<Numbered>
        ensures lines { result.items ≡ self.old.lines }
        ensures left { self.new ≡ without_lines self.old }
    {
        let none = Vec::new(*self.lines.allocator());
        mem::replace(&mut self.lines, none)
    }

    /// Returns the events of its `k` lines, in order. It lends them.
    pub fn keys(&self) -> Keys<'_>
        ensures { result ≡ keys_of self.now.lines }
    {
        Keys::of(self.lines())
    }

    /// Returns the events of its `m` lines, in order. It lends them.
    pub fn mouse(&self) -> Clicks<'_>
        ensures { result ≡ mouse_of self.now.lines }
    {
        Clicks::of(self.lines())
    }
}
