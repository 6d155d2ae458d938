//! The list of the terminal's files by tag. It finds, adds and frees what stands at a tag, and lends a file or its window to be
//! changed. It holds no event back, composes no message and moves no unsent runes: the methods of `Terminal` in `windows` stand
//! above it. What it keeps for a file stands in `records`.

ghost use Rattle.std.specs.Prelude.{◌≡◌, ◌++◌, ◌+◌, ◌-◌, ◌<◌, ◌≤◌, ◌^◌, [], length, OnErr, OnOk, IsTrue, is_some, Some, None, option_copied, replicate, vec_len, vec_capacity, option_map, unwrap_or};
ghost use Rattle.sam_runes.specs.Slots.{slot, put_slot, free_slot, map_slots};
ghost use Rattle.std.specs.Borrow.{sem};
ghost use Rattle.sam_term.specs.Lending.{LendsFile, LendsKnown, LendsOpen, LendsWindow};
ghost use Rattle.sam_term.specs.Term.{freed_known};
ghost use Rattle.sam_term.specs.Windows.{blank_known, known_in, window_in};

use crate::records::{KnownFile, Window};
use sam_runes::Runes;
use std::alloc::{AllocError, Global};
use std::marker::Model;

/// The files that the terminal knows, by tag. Contracts see a list of slots, whose index is the tag. A file can be changed only through
/// the calls here, each of which leaves the other tags as they are; `free_all` alone changes all.
#[derive(Drop)]
pub struct KnownFiles {
    /// What is known of each tag: `None` for a tag that is not known. A tag after the end is not known either. It grows up to the
    /// highest tag that came, `ALL_TAGS` slots at most, and never shrinks.
    slots: Vec<Option<KnownFile>>,
}

impl Model for KnownFiles {
    ghost use Rattle.std.specs.Prelude.{List, Option};
    ghost use Rattle.sam_term.specs.declared.records.KnownFile.{KnownFile};

    ghost Value = { List (Option KnownFile) };

    ghost view = { λ a. a.slots.items };
}

impl KnownFiles {
    /// Returns a list with no files. No memory is asked for.
    pub fn new(alloc: Global) -> KnownFiles
        ensures { result ≡ [] }
    {
        KnownFiles {
            slots: Vec::new(alloc),
        }
    }

    /// Returns the slots, first to last: the index is the tag.
    pub fn as_slice(&self) -> &[Option<KnownFile>]
        ensures { result.now ≡ self.now }
    {
        self.slots.as_slice()
    }

    /// Returns the file of a tag, or `None` if the tag is not known.
    pub fn known(&self, tag: u16) -> Option<&KnownFile>
        ensures { option_copied result ≡ slot self.now tag }
    {
        known(&self.slots, tag as usize)
    }

    /// Returns the window of a tag, or `None` if the tag is not known or its file not open.
    pub fn window(&self, tag: u16) -> Option<&Window>
        ensures { option_copied result ≡ (known_in self.now tag).window }
    {
        window(&self.slots, tag as usize)
    }

    /// Lends a file that is known, to be changed.
    #[tactic(auto, using(crate::proofs::SlotSteps::slot_facts))]
    pub fn file_mut(&mut self, tag: u16) -> &mut KnownFile
        requires { IsTrue (is_some (slot self.old tag)) }
        ensures* writes_back { sem 𝓛 (LendsFile self.entry tag result) }
        ensures value { result.now ≡ known_in self.old tag }
    {
        known_mut(&mut self.slots[tag as usize])
    }

    /// Lends the window of an open file, to be changed.
    #[tactic(auto, using(crate::proofs::SlotSteps::open_given, std::proofs::Common::slice_set, crate::proofs::SlotSteps::window_mut_facts))]
    pub fn window_mut(&mut self, tag: u16) -> &mut Window
        requires { IsTrue (is_some (known_in self.old tag).window) }
        ensures* writes_back { sem 𝓛 (LendsWindow self.entry tag result) }
        ensures value { result.now ≡ window_in self.old tag }
    {
        open_window(&mut self.slots[tag as usize])
    }

    /// Puts a file at a tag; what stood there is dropped. All memory is had before the first change: the only error is out of memory,
    /// and nothing has changed then.
    #[tactic(auto, using(crate::proofs::SlotSteps::put_new_facts))]
    pub fn put_new(&mut self, tag: u16, file: KnownFile) -> Result<(), AllocError>
        ensures ok { OnOk result (self.new ≡ put_slot self.old tag file) }
        ensures err { OnErr result (self.new ≡ self.old) }
    {
        let index = tag as usize;
        add_slots(&mut self.slots, index)?;
        self.slots[index] = Some(file);
        Ok(())
    }

    /// Frees every lock of every file, after which no request is awaited either.
    pub fn free_all(&mut self)
        ensures { self.new ≡ map_slots freed_known self.old }
    {
        free_all(&mut self.slots);
    }

    /// Takes a file that is known out of the list and returns it. Its tag is not known afterwards.
    pub fn take_known(&mut self, tag: u16) -> KnownFile
        requires { IsTrue (is_some (slot self.old tag)) }
        ensures known { slot self.old tag ≡ Some result }
        ensures files { self.new ≡ free_slot self.old tag }
    {
        take_known(&mut self.slots, tag as usize)
    }
}

/// Returns the file at an index, if there is one.
#[tactic(auto, using(crate::proofs::SlotSteps::slot_facts))]
fn known(files: &[Option<KnownFile>], index: usize) -> Option<&KnownFile>
    ensures { option_copied result ≡ slot files.now index }
{
    if index < files.len() {
        files[index].as_ref()
    } else {
        None
    }
}

/// Returns the window at an index, if there is one.
fn window(files: &[Option<KnownFile>], index: usize) -> Option<&Window>
    ensures { option_copied result ≡ (known_in files.now index).window }
{
    match known(files, index) {
        Some(file) => file.window.as_ref(),
        None => None,
    }
}

/// Takes a file out of its slot, which stays in the list.
#[tactic(auto, using(crate::proofs::SlotSteps::slot_facts))]
fn take_known(files: &mut [Option<KnownFile>], index: usize) -> KnownFile
    requires { IsTrue (is_some (slot files.old index)) }
    ensures known { slot files.old index ≡ Some result }
    ensures files { files.new ≡ free_slot files.old index }
{
    prove!(index < files.len());
    let Some(file) = files[index].take() else {
        unreachable!()
    };
    file
}

/// Lends the file of a slot that has one.
fn known_mut(slot: &mut Option<KnownFile>) -> &mut KnownFile
    requires { IsTrue (is_some slot.old) }
    ensures* writes_back { sem 𝓛 (LendsKnown slot.entry result) }
    ensures value { slot.old ≡ Some result.now }
{
    match slot {
        Some(file) => file,
        None => unreachable!(),
    }
}

/// Lends the window of a slot whose file is open.
fn open_window(slot: &mut Option<KnownFile>) -> &mut Window
    requires { IsTrue (is_some (unwrap_or slot.old blank_known).window) }
    ensures* writes_back { sem 𝓛 (LendsOpen slot.entry result) }
    ensures value { (unwrap_or slot.old blank_known).window ≡ Some result.now }
{
    match slot {
        Some(file) => match &mut file.window {
            Some(window) => window,
            None => unreachable!(),
        },
        None => unreachable!(),
    }
}

/// Adds empty slots up to that of an index; none if it is there already. All memory is had before the first: the only error is out of
/// memory, and the list is unchanged then.
fn add_slots(files: &mut Vec<Option<KnownFile>>, index: usize) -> Result<(), AllocError>
    requires { index < 2 ^ 32 }
    ensures ok { OnOk result (files.new.items ≡ files.old.items ++ replicate (index + 1 - length files.old.items) None) }
    ensures err { OnErr result (files.new.items ≡ files.old.items) }
{
    if index < files.len() {
        return Ok(());
    }
    let more = index + 1 - files.len();
    files.reserve(more)?;
    push_slots(files, more);
    Ok(())
}

/// Adds `more` empty slots at the end, for which there is room.
fn push_slots(files: &mut Vec<Option<KnownFile>>, more: usize)
    requires { vec_len files.old + more ≤ vec_capacity files.old }
    ensures { files.new.items ≡ files.old.items ++ replicate more None }
{
    for _ in 0..more {
        if files.push(None).is_err() {
            unreachable!()
        }
    }
}

/// Frees every lock of every file, after which no request is awaited either.
#[tactic(auto, using(crate::proofs::SlotSteps::free_all_facts))]
fn free_all(files: &mut [Option<KnownFile>])
    ensures { files.new ≡ map_slots freed_known files.old }
{
    for index in 0..files.len() {
        free_one(&mut files[index]);
    }
}

/// Frees the locks of a file, if there is one and it is open; it then awaits nothing.
fn free_one(file: &mut Option<KnownFile>)
    ensures { file.new ≡ option_map freed_known file.old }
{
    if let Some(known) = file {
        if let Some(window) = &mut known.window {
            window.locks = 0;
            window.awaited = 0;
        }
    }
}
