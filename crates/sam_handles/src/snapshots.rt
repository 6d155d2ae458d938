//! What a terminal holds, and what it knows of a tag, each read at once: include/sulgrevad.h says what each field hands out.

ghost use Rattle.std.specs.Prelude.{◌≡◌, ◌&&◌, IsTrue, option_copied};
ghost use Rattle.sam_runes.specs.Texts.{is_empty};
ghost use Rattle.sam_handles.specs.Snapshots.{IsDecidedAtOnce, file_state, is_free, known_of, term_state};

use sam_endpoint::TermEndpoint;
use sam_term::records::KnownFile;

/// What a terminal holds: `sam_term_state` of include/sulgrevad.h.
#[repr(C)]
#[derive(Clone, Copy, Drop)]
pub struct SamTermState {
    /// How many event calls were taken.
    pub events: u64,
    /// How many of them have acted or were refused.
    pub decided: u64,
    /// How many are held.
    pub held: u64,
    /// How many messages were composed.
    pub sent: u64,
    /// How many of these the host has not taken, as far as its frames say.
    pub under_way: u64,
    /// How many bytes are pending.
    pub pending: usize,
    /// How many tags there is room for.
    pub tags: usize,
    /// How many typed runes are not sent yet.
    pub unsent: u32,
    /// How many runes the host's snarf buffer has.
    pub snarf_len: u32,
    /// The version of the protocol.
    pub version: u16,
    /// Whether the command lock is held.
    pub command_locked: bool,
    /// Whether the host has ended the session.
    pub exited: bool,
}

/// What a terminal knows of a tag: `sam_term_file` of include/sulgrevad.h. What is not so, or not there, is false or 0.
#[repr(C)]
#[derive(Clone, Copy, Drop)]
pub struct SamTermFile {
    /// The length of the text, gaps counted.
    pub len: u32,
    /// The place where the dot begins.
    pub dot_start: u32,
    /// The place where it ends.
    pub dot_end: u32,
    /// The place where the view begins.
    pub view_start: u32,
    /// The place where it ends.
    pub view_end: u32,
    /// Whether the terminal knows a file of this tag.
    pub is_known: bool,
    /// Whether the file is open.
    pub is_open: bool,
    /// Whether the host said last that it is dirty.
    pub is_dirty: bool,
    /// Whether it may differ from what was written last.
    pub is_changed: bool,
    /// Whether an edit of it would wait for a lock.
    pub is_locked: bool,
    /// Whether an edit of it would act at once: it is open and not locked, nothing waits or is held before it, and the session goes on.
    pub is_free: bool,
}

/// Returns what the terminal knows of a tag; `None` if it knows no file of it.
pub fn known_file(end: &TermEndpoint, tag: u16) -> Option<&KnownFile>
    ensures { option_copied result ≡ known_of end.now tag }
{
    let files = end.term().files();
    if (tag as usize) < files.len() {
        files[tag as usize].as_ref()
    } else {
        None
    }
}

/// Returns what the terminal holds.
pub fn state_of(end: &TermEndpoint) -> SamTermState
    ensures { result ≡ term_state end.now }
{
    let term = end.term();
    SamTermState {
        events: end.events(),
        decided: end.decided(),
        held: term.held() as u64,
        sent: term.sent(),
        under_way: end.under_way(),
        pending: end.pending(),
        tags: term.files().len(),
        unsent: term.unsent(),
        snarf_len: term.snarf_len(),
        version: term.version(),
        command_locked: term.command_locked(),
        exited: term.exited(),
    }
}

/// Returns whether nothing would come before another event: no event is held, and no frame waits.
#[tactic(auto, using(crate::proofs::Frees::none_held, crate::proofs::Frees::none_next))]
fn is_next(end: &TermEndpoint) -> bool
    ensures { result ≡ is_empty end.now.waiting && is_empty end.now.term.held }
{
    end.next_frame().is_none() && end.term().held() == 0
}

/// Returns whether an edit of this file would act at once.
#[tactic(auto, using(crate::proofs::Frees::decides))]
fn is_free(end: &TermEndpoint, tag: u16) -> bool
    ensures value { result ≡ is_free end.now tag }
    ensures acts { IsTrue result → IsDecidedAtOnce end.now.term tag }
{
    let term = end.term();
    end.stopped().is_none()
        && is_next(end)
        && !term.exited()
        && term.rasp(tag).is_some()
        && !term.locked(tag)
}

/// Returns what the terminal knows of a tag.
pub fn file_of(end: &TermEndpoint, tag: u16) -> SamTermFile
    ensures { result ≡ file_state end.now tag }
{
    let term = end.term();
    let (is_known, is_dirty) = match known_file(end, tag) {
        Some(file) => (true, file.dirty),
        None => (false, false),
    };
    let file = SamTermFile {
        len: 0,
        dot_start: 0,
        dot_end: 0,
        view_start: 0,
        view_end: 0,
        is_known,
        is_open: false,
        is_dirty,
        is_changed: term.is_changed(tag),
        is_locked: term.locked(tag),
        is_free: is_free(end, tag),
    };
    let (Some(rasp), Some(dot), Some(view)) = (term.rasp(tag), term.dot(tag), term.view(tag)) else {
        return file;
    };
    SamTermFile {
        len: rasp.len(),
        dot_start: dot.0,
        dot_end: dot.1,
        view_start: view.0,
        view_end: view.1,
        is_open: true,
        ..file
    }
}
