//! How a command line is asked for: as requests, of which the last one types its newline.

ghost use Rattle.std.specs.Prelude.{◌≡◌, ◌≤◌, ◌+◌, IfOk, IsTrue, None, length};
ghost use Rattle.sam_overlay.specs.Overlays.{is_request};
ghost use Rattle.sam_front.specs.Running.{AsksIf, AsksLine, RunsFound, RunsLine, TypesIn, TypesOne, can_be_run, is_open, run_fault, to_empty};
ghost use Rattle.sam_front.specs.Runs.{behind_of, most_line, typed_line};

use crate::fault::RunFault;
use crate::front::Front;
use crate::runs::{MOST_KEPT, MOST_LINE, MOST_RUNS, has_newline, next_piece, pieces_behind};
use sam_overlay::{AskFault, MOST_WAITING_REQUESTS};
use sam_runes::Runes;
use sam_term::UserEvent;
use std::alloc::{AllocError, Global};

/// So many requests of a line are its first piece, that for the command file, that for its file, and that by which the command file is
/// emptied.
const MOST_OTHERS: usize = 4;

/// Returns the runes that a line is typed by: between two newlines, of which the first ends what may stand before it.
fn typed_line(alloc: Global, line: &[char]) -> Result<Vec<char>, AllocError>
    ensures runes { IfOk result (λ typed. typed.items ≡ typed_line line.now) }
    ensures len { IfOk result (λ typed. length typed.items ≡ length line.now + 2) }
{
    let mut typed = Vec::new(alloc);
    typed.push('\n')?;
    typed.extend_from_slice(line)?;
    typed.push('\n')?;
    Ok(typed)
}

impl Front {
    /// Returns whether a line may be asked for on a file: the terminal would write it, and no request waits that closes it.
    fn can_be_run(&self, tag: u16) -> bool
        ensures { result ≡ can_be_run self.now tag }
    {
        self.can_be_written(tag) && !self.client.is_closing(tag)
    }

    /// Returns why a line is not asked for, if it is known before memory is taken.
    fn run_fault(&self, tag: u16, line: &[char]) -> Option<RunFault>
        ensures fault { result ≡ run_fault self.now tag line.now }
        ensures few { result ≡ None → length line.now ≤ most_line }
    {
        if has_newline(line) {
            return Some(RunFault::NotLine);
        }
        if !self.can_be_run(tag) {
            return Some(RunFault::NotOpen);
        }
        if line.len() > MOST_LINE {
            return Some(RunFault::TooLong);
        }
        let room = MOST_WAITING_REQUESTS.saturating_sub(
            pieces_behind(line.len() + 2) + MOST_OTHERS,
        );
        if self.runs.len() >= MOST_RUNS || self.client.requests() > room {
            return Some(RunFault::Ask(AskFault::TooMany));
        }
        None
    }

    /// Returns whether a file is open.
    fn is_open(&self, tag: u16) -> bool
        ensures { result ≡ is_open self.now tag }
    {
        self.client.overlay().shown_len(tag).is_some()
    }

    /// Returns how many runes the command file has, if the next line is to empty it.
    fn to_empty(&self) -> Option<u32>
        ensures { result ≡ to_empty self.now }
    {
        let len = self.command_len();
        if self.runs.is_empty() && len >= MOST_KEPT {
            Some(len)
        } else {
            None
        }
    }

    /// Asks for an event, if it is to be asked for.
    fn ask_if(&mut self, is_wanted: bool, event: UserEvent) -> Result<u64, AskFault>
        requires { IsTrue (is_request event) }
        ensures { AsksIf is_wanted self.old event result self.new }
    {
        if is_wanted { self.ask(event) } else { Ok(0) }
    }

    /// Asks for some runes to be typed in the command file, as one event.
    fn type_one(&mut self, piece: &[char], alloc: Global) -> Result<u64, AskFault>
        ensures { TypesOne self.old piece.now result self.new }
    {
        match Runes::from_slice(alloc, piece) {
            Ok(runes) => self.ask(UserEvent::Typed(0, runes)),
            Err(_) => Err(AskFault::OutOfMemory),
        }
    }

    /// Asks for a line to be typed in the command file, piece by piece. The first piece is the shortest, so that where there is no room for
    /// one of them there is none for the last, whose newline would run what came before it.
    #[tactic(auto, using(crate::proofs::RunningLaws::begun))]
    fn type_line(&mut self, typed: &[char], alloc: Global) -> Result<u64, AskFault>
        requires { length typed.now ≤ 500_000 }
        ensures { TypesIn (behind_of (length typed.now)) self.old typed.now result self.new }
    {
        let mut left = pieces_behind(typed.len());
        let mut rest = typed;
        'pieces: while left > 0 {
            let count = next_piece(rest.len(), left);
            let came = self.type_one(&rest[..count], alloc);
            if came.is_err() {
                return came;
            }
            rest = &rest[count..];
            left -= 1;
        }
        self.type_one(rest, alloc)
    }

    /// Asks for a line to be typed, on a file.
    fn ask_line(
        &mut self,
        tag: u16,
        emptied: Option<u32>,
        typed: &[char],
        alloc: Global,
    ) -> Result<u64, AskFault>
        requires { length typed.now ≤ 500_000 }
        ensures { AsksLine self.old tag emptied typed.now result self.new }
    {
        let opens = !self.is_open(0) && self.runs.len() == 1;
        if let Err(why) = self.ask_if(opens, UserEvent::OpenCmd) {
            return Err(why);
        }
        if let Err(why) = self.ask(UserEvent::Work(tag)) {
            return Err(why);
        }
        let all = UserEvent::Select(0, 0, emptied.unwrap_or(0));
        if let Err(why) = self.ask_if(emptied.is_some(), all) {
            return Err(why);
        }
        self.type_line(typed, alloc)
    }

    /// Asks for a line that nothing stands against.
    fn run_typed(&mut self, tag: u16, typed: &[char], alloc: Global) -> Result<u64, RunFault>
        requires { length typed.now ≤ 500_000 }
        ensures { RunsFound self.old tag typed.now result self.new }
    {
        let emptied = self.to_empty();
        if self.runs.begin().is_err() {
            return Err(RunFault::Ask(AskFault::OutOfMemory));
        }
        match self.ask_line(tag, emptied, typed, alloc) {
            Ok(request) => {
                self.runs.number(request);
                Ok(request)
            }
            Err(why) => {
                self.runs.take_back();
                Err(RunFault::Ask(why))
            }
        }
    }

    /// Has the host run a command line on an open file, behind all that was asked for before, and returns its number, which is that of the
    /// request that types its newline. `go_on` tells once that it has run, and what it printed; or that the request was refused or lapsed.
    /// The command file is opened for it, and emptied if it has `MOST_KEPT` runes and no other line is open.
    ///
    /// Errors, in this order: `NotLine` if the line has a newline; `NotOpen` if the terminal would take no write of the file, or if a
    /// request waits that closes it, since the line would find another file; `TooLong` if it has more than `MOST_LINE` runes;
    /// `Ask(TooMany)` if `MOST_RUNS` lines are open, or if its requests would be too many; after these all is as before. `Ask(OutOfMemory)`
    /// for the line itself; and what `Front::ask` answers for one of its requests, after which the line doesn't run, though the first of
    /// them may act.
    pub fn run(&mut self, tag: u16, line: &[char], alloc: Global) -> Result<u64, RunFault>
        ensures { RunsLine self.old tag line.now result self.new }
    {
        if let Some(why) = self.run_fault(tag, line) {
            return Err(why);
        }
        match typed_line(alloc, line) {
            Ok(typed) => self.run_typed(tag, typed.as_slice(), alloc),
            Err(_) => Err(RunFault::Ask(AskFault::OutOfMemory)),
        }
    }
}
