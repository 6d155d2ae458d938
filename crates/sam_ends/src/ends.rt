//! What the workers of a session hand back.

use crate::input::Input;
use crate::stop::Stop;
use sam_host::host::Host;
use sam_queue::{Post, Take};
use sam_runes::Runes;
use sam_sides::TermLog;
use sam_term::term::Terminal;

/// What the worker of the keyboard or of the mouse hands back. Its post is closed, and has put the first of the worker's events, in order.
#[derive(Drop)]
pub struct UserEnd<'q> {
    /// The worker's post to the line of events, closed: number 0 for the keyboard, 1 for the mouse.
    pub post: Post<'q, Input>,
    /// Whether the gate let the worker begin. If it did not, nothing was sent.
    pub passed: bool,
    /// Why the worker stopped before its last event: `Gate`, or `None` if all events were sent.
    pub stop: Option<Stop>,
}

/// What the host's worker hands back. Whatever stopped it, it has taken all that the terminal put, up to the end mark, and has closed its
/// post.
#[derive(Drop)]
pub struct HostEnd<'q> {
    /// The worker's take of the line up, with the end mark taken.
    pub take: Take<'q, Vec<u8>>,
    /// The worker's post to the line down, closed. What it put are the first bytes of the host's answers: all of them if `stop` is `None`.
    pub post: Post<'q, Vec<u8>>,
    /// The names and texts of the files that the host began with, by tags from 1. With the number of messages that the host took they are
    /// its log.
    pub files: Vec<(Runes, Runes)>,
    /// The host, as the messages that it handled left it.
    pub host: Host,
    /// Whether the gate let the worker begin. If it did not, no message was handled.
    pub passed: bool,
    /// Why the worker stopped before the end of what came up: `Frame`, `Host`, `Gate` or `Memory`. `None` if all whole messages were
    /// handled.
    pub stop: Option<Stop>,
}

/// What the host reader hands back. Whatever stopped it, it has taken all that the host put, up to the end mark, and has closed its post.
#[derive(Drop)]
pub struct ReaderEnd<'q> {
    /// The worker's take of the line down, with the end mark taken.
    pub take: Take<'q, Vec<u8>>,
    /// The worker's post to the line of events, number 2, closed. What it put are the first frames of the host's stream.
    pub post: Post<'q, Input>,
    /// Whether the gate let the worker begin. If it did not, no frame was sent on.
    pub passed: bool,
    /// Why the worker stopped before the end of what came down: `Frame`, `Gate` or `Memory`. `None` if all whole frames were sent on.
    pub stop: Option<Stop>,
}

/// What the terminal's worker hands back. Whatever stopped it, it has taken all that came to it, up to the last end mark, and has closed
/// its post.
#[derive(Drop)]
pub struct TermEnd<'q> {
    /// The worker's take of the line of events, with all three end marks taken.
    pub take: Take<'q, Input>,
    /// The worker's post to the line up, closed. What it put are the first bytes of the messages that the terminal composed: all of them
    /// if `stop` is `None`.
    pub post: Post<'q, Vec<u8>>,
    /// The terminal, as the steps of `log` left it.
    pub term: Terminal,
    /// What the terminal did, in order, from a new terminal on.
    pub log: Vec<TermLog>,
    /// Whether the gate let the worker begin. If it did not, the terminal did nothing.
    pub passed: bool,
    /// Why the worker stopped handling: `Frame`, `Term`, `PeerGone`, `Gate` or `Memory`. `None` if the host ended the session, everybody
    /// left, and nothing is held, unsent or not put.
    pub stop: Option<Stop>,
}

/// The five ends of a session, all of one set of lines. `run_tasks` of sam_spawn makes them, and `settle` of sam_settle puts
/// them together.
#[derive(Drop)]
pub struct Ends<'q> {
    /// The end of the host's worker.
    pub host: HostEnd<'q>,
    /// The end of the host reader.
    pub reader: ReaderEnd<'q>,
    /// The end of the terminal's worker.
    pub term: TermEnd<'q>,
    /// The end of the keyboard's worker.
    pub keyboard: UserEnd<'q>,
    /// The end of the mouse's worker.
    pub mouse: UserEnd<'q>,
}
