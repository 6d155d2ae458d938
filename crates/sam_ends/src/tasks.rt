//! What the five workers begin with.

use crate::input::Input;
use crate::session_lines::Lines;
use sam_host::host::Host;
use sam_queue::{Post, Take};
use sam_runes::Runes;
use sam_term::event::UserEvent;
use std::marker::PhantomData;

// Each task has a field `held`, which holds nothing: with it a thread's closure that captures the task keeps its contract.

/// What the worker of the keyboard or of the mouse begins with. Nothing is put yet.
#[derive(Drop)]
pub struct UserTask<'q> {
    /// The worker's number: 0 for the keyboard, 1 for the mouse.
    pub worker: usize,
    /// The post to the line of events: number 0 for the keyboard, 1 for the mouse.
    pub post: Post<'q, Input>,
    /// What the user does there, in order.
    pub events: Vec<UserEvent>,
    /// Ties the task to its lines.
    pub held: PhantomData<&'q Lines>,
}

/// What the host's worker begins with. Nothing is put, taken or handled yet.
#[derive(Drop)]
pub struct HostTask<'q> {
    /// The take of the line up.
    pub take: Take<'q, Vec<u8>>,
    /// The post to the line down.
    pub post: Post<'q, Vec<u8>>,
    /// The names and texts of the host's files, by tags from 1: at most `MOST_FILES`.
    pub files: Vec<(Runes, Runes)>,
    /// A new host of these files.
    pub host: Host,
    /// Ties the task to its lines.
    pub held: PhantomData<&'q Lines>,
}

/// What the host reader begins with. Nothing is put or taken yet.
#[derive(Drop)]
pub struct ReaderTask<'q> {
    /// The take of the line down.
    pub take: Take<'q, Vec<u8>>,
    /// The post to the line of events: number 2.
    pub post: Post<'q, Input>,
    /// Ties the task to its lines.
    pub held: PhantomData<&'q Lines>,
}

/// What the terminal's worker begins with. Nothing is put, taken or handled yet.
#[derive(Drop)]
pub struct TermTask<'q> {
    /// The take of the line of events.
    pub take: Take<'q, Input>,
    /// The post to the line up.
    pub post: Post<'q, Vec<u8>>,
    /// Ties the task to its lines.
    pub held: PhantomData<&'q Lines>,
}

/// What the five workers begin with, and their lines. The posts and takes are all of these lines.
#[derive(Drop)]
pub struct Tasks<'q> {
    pub lines: &'q Lines,
    pub keyboard: UserTask<'q>,
    pub mouse: UserTask<'q>,
    pub host: HostTask<'q>,
    pub reader: ReaderTask<'q>,
    pub term: TermTask<'q>,
}
