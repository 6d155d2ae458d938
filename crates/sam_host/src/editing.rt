//! Messages that type or cut in one file, many at once, with checks among them.

ghost use Rattle.std.specs.Prelude.{◌≡◌, ℕ, ◌+◌, ◌<◌, ◌≤◌, ◌^◌, [], IfOk, IfSome, OnOk, Some, false, length, option_and_then, slice_get, take};
ghost use Rattle.sam_host.specs.Edits.{edited_file, edits_by, edits_in, message_in, EditFile, IsOpened, MayAnswer, Notes, TakesAll, Tells};
ghost use Rattle.sam_host.specs.Laws.{FitInPlace};

use crate::host::Host;
use sam_mesg::{HFrame, Hmesg, Tmesg};
use sam_text::TextChange;
use std::alloc::{AllocError, Global};
use std::collections::VecDeque;

/// How many changes it takes at least for the text to be taken up for them.
const FEWEST: usize = 2;

/// The messages that a host took at once.
#[derive(Drop)]
pub struct Taken {
    /// How many messages.
    pub count: usize,
    /// The frames that they are answered with, in order.
    pub frames: Vec<HFrame>,
}

/// A message of a run of edits of one file.
#[derive(Clone, Copy, Drop)]
pub(crate) enum Entry<'a> {
    /// It tells this change of the file's text.
    Change(TextChange<'a>),
    /// It is a check of this file.
    Check(u16),
}

/// The messages at the front that a host may take at once.
#[derive(Drop)]
struct Run<'a> {
    /// How many messages.
    count: usize,
    /// The changes that those tell which are no check.
    changes: Vec<TextChange<'a>>,
    /// The answers to the checks.
    frames: Vec<HFrame>,
}

/// Returns 1 if the message types or cuts, else 0.
fn edits_by(message: &Tmesg) -> usize
    ensures count { result ≡ edits_by message.now }
    ensures most { result ≤ 1 }
{
    match message {
        Tmesg::Ttype(_, _, _) | Tmesg::Tcut(_, _, _) => 1,
        _ => 0,
    }
}

/// Returns the file that the first message types or cuts in. The command file is left out: what is typed there may run a command line.
fn first_edited(messages: &VecDeque<Tmesg>) -> Option<u16>
    ensures { IfSome result (λ tag. (0 < tag) × (option_and_then edited_file (slice_get messages.now.items 0) ≡ Some tag)) }
{
    match messages.front()? {
        Tmesg::Ttype(tag, _, _) | Tmesg::Tcut(tag, _, _) if *tag > 0 => Some(*tag),
        _ => None,
    }
}

/// Returns what the message is in a run of edits of this file; `None` if it edits another file, or is of another kind.
fn entry_of(message: &Tmesg, tag: u16) -> Option<Entry<'_>>
    ensures { IfSome result (λ e. message.now ≡ message_in tag e) }
{
    match message {
        Tmesg::Ttype(file, p, runes) if *file == tag => Some(Entry::Change(TextChange::Insert(
            *p,
            runes.as_slice(),
        ))),
        Tmesg::Tcut(file, p, q) if *file == tag => Some(Entry::Change(TextChange::Delete(*p, *q))),
        Tmesg::Tcheck(file) => Some(Entry::Check(*file)),
        _ => None,
    }
}

/// Puts the entry behind the others: a change among the changes, the answer to a check among the frames. The host had taken so many
/// messages before this one. The only error is out of memory.
fn note_entry<'a>(
    changes: &mut Vec<TextChange<'a>>,
    frames: &mut Vec<HFrame>,
    entry: Entry<'a>,
    taken: u64,
) -> Result<(), AllocError>
    requires { taken + 1 < 2 ^ 64 }
    ensures { OnOk result (Notes entry.entry taken changes.old.items frames.old.items changes.new.items frames.new.items) }
{
    match entry {
        Entry::Change(change) => changes.push(change)?,
        Entry::Check(file) => frames.push(HFrame {
            seen: taken + 1,
            msg: Hmesg::Hcheck(file),
        })?,
    }
    Ok(())
}

/// Returns how many of the first `most` messages stand before the edit of this index, counted from 0: all, if they have no more edits
/// than that.
fn before_edit(messages: &VecDeque<Tmesg>, most: usize, index: usize) -> usize
    requires there { most ≤ length messages.now.items }
    requires edits { index ≤ edits_in (take most messages.now.items) }
    ensures count { result ≤ most }
    ensures edits { edits_in (take result messages.now.items) ≡ index }
{
    let mut count = 0;
    let mut left = index;
    while count < most {
        let Some(message) = messages.get(count) else {
            unreachable!()
        };
        let more = edits_by(message);
        if left < more {
            return count;
        }
        left -= more;
        count += 1;
    }
    count
}

impl Host {
    /// Returns what the message of this index is in a run of edits of this file, if there is such a message, it may be answered, and the
    /// count of messages is not full by then.
    fn next_entry<'a>(
        &self,
        messages: &'a VecDeque<Tmesg>,
        index: usize,
        tag: u16,
    ) -> Option<Entry<'a>>
        ensures room { IfSome result (λ e. self.now.taken + index + 1 < 2 ^ 64) }
        ensures within { IfSome result (λ e. index < length messages.now.items) }
        ensures there { IfSome result (λ e. slice_get messages.now.items index ≡ Some (message_in tag e)) }
        ensures may { IfSome result (λ e. MayAnswer self.now.files e) }
    {
        if index as u64 >= u64::MAX - self.taken {
            return None;
        }
        let entry = entry_of(messages.get(index)?, tag)?;
        if let Entry::Check(file) = entry {
            if !self.files.has(file) || !self.files.is_open(file) {
                return None;
            }
        }
        Some(entry)
    }

    /// Returns the run of messages at the front that edit this file, with the checks among them and behind them. The only error is out of
    /// memory.
    fn run_of<'a>(&self, messages: &'a VecDeque<Tmesg>, tag: u16) -> Result<Run<'a>, AllocError>
        ensures room { IfOk result (λ run. self.now.taken + run.count < 2 ^ 64) }
        ensures count { IfOk result (λ run. run.count ≤ length messages.now.items) }
        ensures tells { IfOk result (λ run.
            Tells self.now.files tag self.now.taken (take run.count messages.now.items) run.changes.items run.frames.items) }
    {
        let taken = self.taken;
        let mut count = 0;
        let mut changes = Vec::new(self.alloc);
        let mut frames = Vec::new(self.alloc);
        while let Some(entry) = self.next_entry(messages, count, tag) {
            note_entry(&mut changes, &mut frames, entry, taken + count as u64)?;
            count += 1;
        }
        Ok(Run {
            count,
            changes,
            frames,
        })
    }

    /// Makes the changes of the run in the text of this file, up to the first that is not allowed, or for which memory is refused. Returns
    /// what it took: the messages before that.
    fn make_run(&mut self, messages: &VecDeque<Tmesg>, tag: u16, run: Run<'_>) -> Taken
        requires other { 0 < tag }
        requires opened { IsOpened self.old.files tag }
        requires goes { self.old.is_done ≡ false }
        requires first { option_and_then edited_file (slice_get messages.now.items 0) ≡ Some tag }
        requires room { self.old.taken + run.count < 2 ^ 64 }
        requires count { run.count ≤ length messages.now.items }
        requires tells { Tells self.old.files tag self.old.taken (take run.count messages.now.items) run.changes.items run.frames.items }
        ensures count { result.count ≤ length messages.now.items }
        ensures taken { TakesAll self.old (take result.count messages.now.items) result.frames.items self.new }
        ensures fit { FitInPlace self.old.version result.frames.items }
        ensures one_file { EditFile tag (take result.count messages.now.items) }
    {
        let made = self.files.change_text(tag, run.changes.as_slice());
        let count = before_edit(messages, run.count, made);
        let mut frames = run.frames;
        frames.truncate(count - made);
        self.taken += count as u64;
        Taken { count, frames }
    }

    /// Returns what it took where it took no message.
    fn take_none(&self) -> Taken
        ensures count { result.count ≡ 0 }
        ensures frames { result.frames.items ≡ [] }
    {
        Taken {
            count: 0,
            frames: Vec::new(self.alloc),
        }
    }

    /// Takes the messages at the front that type or cut in one file, which is not the command file, and the checks of open files among
    /// them and behind them. Returns how many it took, and the frames that answer the checks: as `handle_lent` would, one after another.
    /// The cost goes by the messages, and once by the text, however many there are. It takes none if fewer than two of them type or cut,
    /// and stops before a message that it would refuse, or where memory is refused: `handle_lent` is for the next one, whatever it is.
    pub fn handle_edits(&mut self, messages: &VecDeque<Tmesg>) -> Taken
        ensures count { result.count ≤ length messages.now.items }
        ensures taken { TakesAll self.old (take result.count messages.now.items) result.frames.items self.new }
        ensures fit { FitInPlace self.old.version result.frames.items }
        ensures one_file { (f : ℕ) × EditFile f (take result.count messages.now.items) }
    {
        let Some(tag) = first_edited(messages) else {
            return self.take_none();
        };
        if self.done || !self.files.has(tag) || !self.files.is_open(tag) {
            return self.take_none();
        }
        let Ok(run) = self.run_of(messages, tag) else {
            return self.take_none();
        };
        if run.changes.len() < FEWEST {
            return self.take_none();
        }
        self.make_run(messages, tag, run)
    }
}
