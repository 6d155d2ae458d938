//! What changed in the texts of a terminal since it was asked last: three numbers for each file, and no copy of a text.

ghost use Rattle.std.specs.Prelude.{◌≡◌, ◌≤◌, ◌-◌, [], length, IfOk, OnErr, OnOk, Some, None, if◌then◌else◌};
ghost use Rattle.sam_term.specs.Term.{is_open, rasp_at, window_at};
ghost use Rattle.sam_endpoint.specs.Changes.{asked, change_by, change_of, edit_touch, event_touch, frame_touch, kept_after, kept_at, oldest_touch, touched_len};

use sam_mesg::Hmesg;
use sam_term::{Terminal, UserEvent};
use std::alloc::{AllocError, Global};
use std::marker::Model;

/// A change of a text: from the place `start` on `gone` runes or gaps of the old text gave way to `came` of the new one. All else is as it
/// was. Both are 0 if nothing changed.
#[derive(Clone, Copy, Debug, PartialEq, Eq, Drop)]
pub struct Change {
    /// The place, which is the same in both texts.
    pub start: u32,
    /// How many runes or gaps of the old text went.
    pub gone: u32,
    /// How many runes or gaps of the new text came.
    pub came: u32,
}

/// How much of a text is as it was when its change was asked for last.
#[derive(Clone, Copy, Debug, PartialEq, Eq, Drop)]
pub struct Kept {
    /// How many runes or gaps at the front.
    pub front: u32,
    /// How many at the end.
    pub back: u32,
    /// How many the text had then.
    pub len: u32,
}

/// What a frame or an event leaves of a text as it was.
#[derive(Clone, Copy, Debug, PartialEq, Eq, Drop)]
pub struct Touch {
    /// The file.
    pub tag: u16,
    /// How many runes or gaps at the front stay.
    pub front: u32,
    /// How many at the end stay.
    pub back: u32,
}

/// What is kept of a file that was never asked for.
const UNASKED: Kept = Kept {
    front: 0,
    back: 0,
    len: 0,
};

/// What is kept of each file, by its tag. Contracts see a list; a tag after its end was never asked for.
#[derive(Drop)]
pub struct Changes {
    kept: Vec<Kept>,
}

impl Model for Changes {
    ghost use Rattle.std.specs.Prelude.{List};
    ghost use Rattle.sam_endpoint.specs.declared.changes.Kept.{Kept};

    ghost Value = { List Kept };

    ghost view = { λ a. a.kept.items };
}

impl Changes {
    /// Returns what is kept where nothing was asked yet. No memory is asked for.
    pub fn new(alloc: Global) -> Changes
        ensures { result ≡ [] }
    {
        Changes {
            kept: Vec::new(alloc),
        }
    }

    /// Takes note of what a frame or an event left of a text. It takes no memory.
    pub fn note(&mut self, touch: Option<Touch>)
        ensures { self.new ≡ kept_after self.old touch }
    {
        let Some(touch) = touch else {
            return;
        };
        let tag = touch.tag as usize;
        if tag < self.kept.len() {
            let was = self.kept[tag];
            self.kept[tag] = Kept {
                front: was.front.min(touch.front),
                back: was.back.min(touch.back),
                len: was.len,
            };
        }
    }

    /// Returns what the oldest held event leaves of the text of a file, before it acts, as far as `note` takes note of it. It is looked for
    /// only where some text was asked for.
    #[tactic(auto, using(crate::proofs::ChangeLaws::none_asked))]
    pub fn oldest_noted(&self, term: &Terminal) -> Option<Touch>
        ensures { kept_after self.now result ≡ kept_after self.now (oldest_touch term.now) }
    {
        if self.kept.is_empty() {
            return None;
        }
        oldest_touch(term)
    }

    /// Returns what changed in the text of a file, which has `len` runes and gaps, since this was asked last, and keeps all of it from now
    /// on. Its only error is out of memory, the first time for a tag alone; nothing has changed then.
    pub fn ask(&mut self, tag: u16, len: u32) -> Result<Change, AllocError>
        ensures change { IfOk result (λ change. change ≡ change_of (kept_at self.old tag) len) }
        ensures asked { OnOk result (self.new ≡ asked self.old tag len) }
        ensures first { OnErr result (length self.old ≤ tag) }
        ensures unchanged { OnErr result (self.new ≡ self.old) }
    {
        let tag = tag as usize;
        if self.kept.len() <= tag {
            self.kept.resize(tag + 1, UNASKED)?;
        }
        let change = change_to(self.kept[tag], len);
        self.kept[tag] = Kept {
            front: len,
            back: len,
            len,
        };
        Ok(change)
    }
}

/// Returns the change to a text that has `len` runes and gaps now.
fn change_to(kept: Kept, len: u32) -> Change
    ensures { result ≡ change_of kept len }
{
    Change {
        start: kept.front,
        gone: kept
            .len
            .saturating_sub(kept.front)
            .saturating_sub(kept.back),
        came: len.saturating_sub(kept.front).saturating_sub(kept.back),
    }
}

/// Returns how many runes and gaps the text has that is touched; 0 if none is.
pub(crate) fn touched_len(term: &Terminal, touch: Option<Touch>) -> u32
    ensures { result ≡ touched_len term.now touch }
{
    match touch {
        Some(touch) => len_of(term, touch.tag),
        None => 0,
    }
}

/// Returns the change of the text that is touched, which had `before` runes and gaps and has `after` now; all zeros if none is.
pub(crate) fn change_by(touch: Option<Touch>, before: u32, after: u32) -> Change
    ensures { result ≡ change_by touch before after }
{
    let Some(touch) = touch else {
        return Change {
            start: 0,
            gone: 0,
            came: 0,
        };
    };
    let kept = Kept {
        front: before.min(touch.front),
        back: before.min(touch.back),
        len: before,
    };
    change_to(kept, after)
}

/// Returns how many runes and gaps the text of a file has; `None` if it is not open.
pub(crate) fn len_if_open(term: &Terminal, tag: u16) -> Option<u32>
    ensures { result ≡ (if is_open term.now tag then Some (length (rasp_at term.now tag)) else None) }
{
    match term.rasp(tag) {
        Some(rasp) => Some(rasp.len()),
        None => None,
    }
}

/// Returns how many runes and gaps the text of a file has; 0 if it is not open.
fn len_of(term: &Terminal, tag: u16) -> u32
    ensures { result ≡ length (rasp_at term.now tag) }
{
    match term.rasp(tag) {
        Some(rasp) => rasp.len(),
        None => 0,
    }
}

/// Returns what an edit leaves, by which `came` runes or gaps come in the place of `gone` from `place` on; `None` if it changes nothing.
fn edit_touch(term: &Terminal, tag: u16, place: u32, gone: usize, came: usize) -> Option<Touch>
    ensures { result ≡ edit_touch tag (length (rasp_at term.now tag)) place gone came }
{
    if gone == 0 && came == 0 {
        return None;
    }
    let rest = len_of(term, tag).saturating_sub(place) as usize;
    Some(Touch {
        tag,
        front: place,
        back: rest.saturating_sub(gone) as u32,
    })
}

/// Returns what a frame leaves of the text of a file, before the terminal takes it; `None` if it touches no text.
pub(crate) fn frame_touch(term: &Terminal, msg: &Hmesg) -> Option<Touch>
    ensures { result ≡ frame_touch term.now msg.now }
{
    match msg {
        Hmesg::Hdata(tag, place, text) => edit_touch(term, *tag, *place, text.len(), text.len()),
        Hmesg::Hgrow(tag, place, count) => edit_touch(term, *tag, *place, 0, *count as usize),
        Hmesg::Hgrowdata(tag, place, text) => edit_touch(term, *tag, *place, 0, text.len()),
        Hmesg::Hcut(tag, place, count) => edit_touch(term, *tag, *place, *count as usize, 0),
        Hmesg::Hbindname(tag) | Hmesg::Hclose(tag) | Hmesg::Hnewname(tag) | Hmesg::Hdelname(tag) =>
            Some(Touch {
                tag: *tag,
                front: 0,
                back: 0,
            }),
        _ => None,
    }
}

/// Returns what an edit of the dot of a file leaves, by which so many runes come in its place.
fn dot_touch(term: &Terminal, tag: u16, came: usize) -> Option<Touch>
    ensures { result ≡ (let d = (window_at term.now tag).dot in edit_touch tag (length (rasp_at term.now tag)) d.0 (d.1 - d.0) came) }
{
    let dot = term.dot(tag).unwrap_or((0, 0));
    let gone = dot.1.saturating_sub(dot.0) as usize;
    edit_touch(term, tag, dot.0, gone, came)
}

/// Returns what an event leaves of the text of a file, before it acts; `None` if it touches no text.
fn event_touch(term: &Terminal, event: &UserEvent) -> Option<Touch>
    ensures { result ≡ event_touch term.now event.now }
{
    match event {
        UserEvent::Typed(tag, text) => dot_touch(term, *tag, text.len()),
        UserEvent::Cut(tag) | UserEvent::Paste(tag) => dot_touch(term, *tag, 0),
        UserEvent::Edit(tag, p, q, text) => {
            let gone = q.saturating_sub(*p) as usize;
            edit_touch(term, *tag, *p, gone, text.len())
        }
        _ => None,
    }
}

/// Returns what the oldest held event leaves of the text of a file, before it acts; `None` if it touches no text.
pub(crate) fn oldest_touch(term: &Terminal) -> Option<Touch>
    ensures { result ≡ oldest_touch term.now }
{
    match term.oldest() {
        Some(event) => event_touch(term, event),
        None => None,
    }
}
