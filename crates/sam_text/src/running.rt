//! Command lines on the files: what a line does, and how that is put in.

ghost use Rattle.std.specs.Prelude.{◌≡◌, ◌≤◌, ◌+◌, IfOk, OnErr, Err, true, length, option_map};
ghost use Rattle.sam_runes.specs.Texts.{max_runes};
ghost use Rattle.sam_text.specs.Files.{file_at, has_file, typed_files, after_print, committed, IsOutcomeOf};
ghost use Rattle.sam_text.specs.Meaning.{meaning, work_file};
ghost use Rattle.sam_text.specs.Outcomes.{effect, rewritten, work};
ghost use Rattle.sam_text.specs.Views.{KeepRooms, KeepRoomsBut, room_at};

use crate::fault::FilesFault;
use crate::file::{File, FileChange};
use crate::files::Files;
use crate::outcome::Outcome;
use crate::text_lines;
use sam_runes::Runes;

impl Files {
    /// Returns what a command line, given without its newline, does to the work file. Nothing is changed yet: `commit` puts the outcome
    /// in. A wrong line is not an error: its outcome prints a word such as `? search`, and does nothing else.
    ///
    /// The only error is `OutOfMemory`. If there are edits, the outcome holds the whole new text. The cost is linear in the length of the
    /// text, once for each step of a chain, and in what the edits put in.
    pub fn run_line(&self, line: &[char]) -> Result<Outcome, FilesFault>
        ensures value { IfOk result (λ o. effect o ≡ meaning self.now.plain line.now) }
        ensures refused { OnErr result (result ≡ Err FilesFault.OutOfMemory) }
        // The outcome can be committed while the files are as they were.
        ensures fits { IfOk result (λ o. IsOutcomeOf self.now.plain (effect o)) }
    {
        self.facts();
        let outcome = text_lines::run_line(self.alloc(), self.work_file(), line)?;
        Ok(outcome)
    }

    /// Returns the work file with its tag, if there is one.
    fn work_file(&self) -> Option<(u16, &File)>
        ensures { option_map (λ f. work f.0 f.1.now) result ≡ work_file self.now.plain }
    {
        let tag = self.work()?;
        let file = self.file(tag)?;
        Some((tag, file))
    }

    /// Puts the outcome of a line in: the text, dot and name of its file, and the pattern. Returns what the line prints, which is not
    /// printed yet. The file becomes dirty if there were edits. The caller makes sure that the outcome fits the files, as it does while
    /// its file is as `run_line` found it. If `quit` is true, it is also the caller who ends the session.
    ///
    /// No memory is asked for. A new text brings its own room; every other text keeps its room.
    #[tactic(auto, using(crate::proofs::OutcomeLaws::puts_there))]
    pub fn commit(&mut self, outcome: Outcome) -> Runes
        requires { IsOutcomeOf self.old.plain (effect outcome) }
        ensures done { self.new.plain ≡ committed self.old.plain (effect outcome) }
        ensures printed { result ≡ outcome.printed }
        ensures rooms { KeepRoomsBut (rewritten outcome) self.old self.new }
    {
        let Outcome {
            file,
            edits,
            text,
            dot,
            name,
            pattern,
            printed,
            quit: _,
        } = outcome;
        self.facts();
        if let Some(tag) = file {
            let edited = !edits.items.is_empty();
            self.change(
                tag,
                FileChange::Line {
                    text,
                    dot,
                    name,
                    edited,
                },
            );
        }
        if let Some(pattern) = pattern {
            self.put_pattern(pattern);
        }
        printed
    }

    /// Types `runes` into the command file at place `p`. The caller makes sure that it is there, that `p` is in its text, and that the
    /// runes come within its limit and its room. So no memory is asked for.
    fn put_typed(&mut self, p: u32, runes: &[char])
        requires there { has_file self.old.plain 0 ≡ true }
        requires place { p ≤ length (file_at self.old.plain 0).text }
        requires fits { length (file_at self.old.plain 0).text + length runes.now ≤ max_runes }
        requires room { length runes.now ≤ room_at self.old.rooms 0 }
        ensures plain { self.new.plain ≡ typed_files self.old.plain p runes.now }
        ensures room { room_at self.old.rooms 0 ≤ room_at self.new.rooms 0 + length runes.now }
        ensures rooms { KeepRooms self.old self.new }
    {
        let end = p + runes.len() as u32;
        if self.put_in(0, p, runes, (end, end)).is_err() {
            unreachable!()
        }
    }

    /// Prints `runes`. The caller makes sure that there is room for them if they come within the limit of the text. So no memory is asked
    /// for.
    fn put_printed(&mut self, runes: &[char])
        requires room { length (file_at self.old.plain 0).text + length runes.now ≤ max_runes →
            length runes.now ≤ room_at self.old.rooms 0 }
        ensures done { self.new.plain ≡ after_print self.old.plain runes.now }
        ensures rooms { KeepRooms self.old self.new }
    {
        if self.print(runes).is_err() {
            unreachable!()
        }
    }

    /// Lets a command line take effect that is typed now: types `runes`, with which it ends, into the command file at place `p`, prints
    /// what the outcome prints if that comes within the limit of the text, and puts the outcome in as `commit` does.
    ///
    /// The outcome was worked out before the typing. The caller makes sure that it fits the files as they are, that the command file is
    /// there, that `p` is in its text, and that the runes come within its limit and its room; and with them what is printed comes within
    /// its room, too, if it comes within the limit. So no memory is asked for, and nothing can fail. A new text brings its own room.
    pub fn commit_typed(&mut self, p: u32, runes: &[char], outcome: Outcome)
        requires there { has_file self.old.plain 0 ≡ true }
        requires place { p ≤ length (file_at self.old.plain 0).text }
        requires fits { length (file_at self.old.plain 0).text + length runes.now ≤ max_runes }
        requires typed { length runes.now ≤ room_at self.old.rooms 0 }
        requires printed { length (file_at self.old.plain 0).text + length runes.now + length outcome.printed ≤ max_runes →
            length runes.now + length outcome.printed ≤ room_at self.old.rooms 0 }
        requires outcome { IsOutcomeOf self.old.plain (effect outcome) }
        ensures done { self.new.plain ≡ after_print (committed (typed_files self.old.plain p runes.now) (effect outcome)) outcome.printed }
        ensures rooms { KeepRoomsBut (rewritten outcome) self.old self.new }
    {
        self.put_typed(p, runes);
        self.put_printed(outcome.printed.as_slice());
        self.commit(outcome);
    }
}
