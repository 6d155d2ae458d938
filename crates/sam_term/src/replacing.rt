//! What the event `Edit` does: a range of a file gives way to a text of any length, all or nothing. All that needs memory comes before the
//! first change: the outbox, the pieces of the text, and the change of the rasp itself.

ghost use Rattle.std.specs.Prelude.{◌≡◌, ◌+◌, ◌-◌, ◌≤◌, ◌++◌, ◌==◌, ◌&&◌, length, IfOk, IsTrue, None, OnErr, OnOk, false};
ghost use Rattle.sam_runes.specs.Texts.{is_empty, max_runes, most_count};
ghost use Rattle.sam_term.specs.Acting.{made_first, free_first, first_event, is_editing};
ghost use Rattle.sam_term.specs.Editing.{edit_file, edit_range, edit_runes, replaced_in};
ghost use Rattle.sam_term.specs.Taking.{IsAnswer, done};
ghost use Rattle.sam_term.specs.Term.{is_open, window_at, put_window, all_composed, pieces, typed_pieces};

use crate::event::{Acted, UserEvent};
use crate::fault::TermFault;
use crate::outbox::Outbox;
use crate::records::{Unsent, Window};
use crate::term::Terminal;
use crate::typing::{after_typing, cut_count};
use sam_mesg::Tmesg;
use sam_runes::{MOST_IN_MESSAGE, Runes};
use std::alloc::{AllocError, Global};

/// A piece of a text that one message can have, with the place where it begins.
type Piece = (u32, Runes);

/// Puts runes in the place of what stands from `p` to `q` in a window, whose dot and view move as other places do. The only error is out
/// of memory, and the window is then unchanged.
fn replace_window(window: &mut Window, p: u32, q: u32, runes: &[char]) -> Result<(), AllocError>
    requires ordered { p ≤ q }
    requires within { q ≤ length window.old.rasp }
    requires dot { (window.old.dot.0 ≤ max_runes) × (window.old.dot.1 ≤ max_runes) }
    requires view { window.old.view_start ≤ max_runes }
    requires size { length runes.now ≤ max_runes }
    ensures ok { OnOk result (window.new ≡ replaced_in window.old p q runes.now) }
    ensures err { OnErr result (window.new ≡ window.old) }
{
    if window.rasp.replace(p, q, runes).is_err() {
        return Err(AllocError);
    }
    let n = runes.len() as u32;
    window.dot = (
        after_typing(p, q, n, window.dot.0),
        after_typing(p, q, n, window.dot.1),
    );
    window.view_start = after_typing(p, q, n, window.view_start);
    Ok(())
}

/// Returns the runes of an `Edit`.
fn edit_runes(event: &UserEvent) -> &[char]
    requires { IsTrue (is_editing event.now) }
    ensures { result.now ≡ edit_runes event.now }
{
    match event {
        UserEvent::Edit(_, _, _, text) => text.as_slice(),
        _ => unreachable!(),
    }
}

fn edit_file(event: &UserEvent) -> u16
    requires { IsTrue (is_editing event.now) }
    ensures { result ≡ edit_file event.now }
{
    match event {
        UserEvent::Edit(tag, _, _, _) => *tag,
        _ => unreachable!(),
    }
}

/// Returns the places where the range of an `Edit` begins and ends.
fn edit_range(event: &UserEvent) -> (u32, u32)
    requires { IsTrue (is_editing event.now) }
    ensures { result ≡ edit_range event.now }
{
    match event {
        UserEvent::Edit(_, p, q, _) => (*p, *q),
        _ => unreachable!(),
    }
}

/// Returns in how many pieces a text is typed.
#[tactic(auto, using(crate::proofs::Pieces::count_facts))]
fn count_pieces(p: u32, runes: &[char]) -> usize
    requires { length runes.now ≤ max_runes }
    ensures { result ≡ length (pieces (length runes.now) p runes.now) }
{
    runes.len().div_ceil(MOST_IN_MESSAGE)
}

/// Returns the pieces of a text that is typed at `p`, of which there are `count`. The only error is out of memory.
#[tactic(auto, using(crate::proofs::Pieces::cut_facts))]
fn cut_in_pieces(
    alloc: Global,
    p: u32,
    runes: &[char],
    count: usize,
) -> Result<Vec<Piece>, AllocError>
    requires within { p + length runes.now ≤ max_runes }
    requires all { count ≡ length (pieces (length runes.now) p runes.now) }
    ensures { IfOk result (λ cut. cut.items ≡ pieces (length runes.now) p runes.now) }
{
    let mut cut = Vec::with_capacity(alloc, count)?;
    let mut place = p;
    let mut rest = runes;
    for _ in 0..count {
        let (piece, behind) = rest.split_at(rest.len().min(MOST_IN_MESSAGE));
        cut.push((place, Runes::from_slice(alloc, piece)?))?;
        place += piece.len() as u32;
        rest = behind;
    }
    Ok(cut)
}

impl Terminal {
    /// Does an `Edit`: puts its runes in the place of its range, and composes the cut of the range and then a `Ttype` for each piece of
    /// the runes. Errors, in this order: `CountFull`; `OutOfMemory`. The terminal is then unchanged. The cost is two copies of the runes.
    #[tactic(auto, using(crate::proofs::Replaces::make_edit_facts), unfolding(crate::proofs::Edits::makes_opened))]
    pub(crate) fn make_edit(&mut self) -> Result<Acted, TermFault>
        requires free { free_first self.old ≡ None }
        requires first { IsTrue (is_editing (first_event self.old.held)) }
        ensures { IsAnswer self.old self.new result (done (made_first self.old)) }
    {
        let Some(event) = self.held.first() else {
            unreachable!()
        };
        let tag = edit_file(event);
        let range = edit_range(event);
        let runes = edit_runes(event);
        if range.0 == range.1 && runes.is_empty() {
            self.drop_first();
            return Ok(self.done_quietly());
        }
        let count = count_pieces(range.0, runes);
        self.replace_by(tag, range, count)
    }

    /// Returns how many messages an `Edit` composes, the oldest held event.
    #[tactic(auto, using(crate::proofs::Replaces::make_edit_facts, crate::proofs::FullCounts::edited_facts))]
    pub(crate) fn edited_count(&self) -> usize
        requires free { free_first self.now ≡ None }
        requires first { IsTrue (is_editing (first_event self.now.held)) }
        ensures { result ≡ length (made_first self.now).1 }
    {
        let Some(event) = self.held.first() else {
            unreachable!()
        };
        let range = edit_range(event);
        let runes = edit_runes(event);
        if range.0 == range.1 && runes.is_empty() {
            return 0;
        }
        self.unsent_count() + cut_count(range) + count_pieces(range.0, runes)
    }

    /// Does an `Edit` that changes something, with a text of `count` pieces.
    #[tactic(auto, using(crate::proofs::Replaces::replace_facts), unfolding(crate::specs::Taking::done, crate::specs::Acting::made_first))]
    fn replace_by(&mut self, tag: u16, range: (u32, u32), count: usize) -> Result<Acted, TermFault>
        requires free { free_first self.old ≡ None }
        requires first { first_event self.old.held ≡ UserEvent.Edit tag range.0 range.1 (edit_runes (first_event self.old.held)) }
        requires some { (range.0 == range.1 && is_empty (edit_runes (first_event self.old.held))) ≡ false }
        requires all { count ≡ length (pieces (length (edit_runes (first_event self.old.held))) range.0
            (edit_runes (first_event self.old.held))) }
        ensures { IsAnswer self.old self.new result (done (made_first self.old)) }
    {
        let composed = self.unsent_count() + cut_count(range) + count;
        let mut out = self.prepare(composed)?;
        let cut = self.cut_first(range.0, count)?;
        let before = self.replace_first(tag, range)?;
        self.mark_changed(tag);
        self.drop_first();
        self.compose_runes(before, &mut out);
        self.compose_cut(tag, range, &mut out);
        self.compose_pieces(tag, cut, &mut out);
        Ok(self.done_with(out))
    }

    /// Returns the pieces of the text of the oldest event, an `Edit`. The only error is out of memory.
    #[tactic(auto, using(crate::proofs::Acts::first_is))]
    fn cut_first(&self, p: u32, count: usize) -> Result<Vec<Piece>, AllocError>
        requires first { IsTrue (is_editing (first_event self.now.held)) }
        requires within { p + length (edit_runes (first_event self.now.held)) ≤ max_runes }
        requires all { count ≡ length (pieces (length (edit_runes (first_event self.now.held))) p
            (edit_runes (first_event self.now.held))) }
        ensures { IfOk result (λ cut. cut.items ≡ pieces (length (edit_runes (first_event self.now.held))) p
            (edit_runes (first_event self.now.held))) }
    {
        let Some(event) = self.held.first() else {
            unreachable!()
        };
        cut_in_pieces(self.alloc, p, edit_runes(event), count)
    }

    /// Puts the runes of the oldest event, an `Edit`, in the place of its range in their file, which the caller marks as changed. The
    /// unsent runes are handed over, since the place where they begin may go with the range. The only error is out of memory, and the
    /// terminal is then unchanged.
    #[tactic(auto, using(crate::proofs::FileSteps::typed_in_facts), unfolding(crate::proofs::FileSteps::unsent_opened))]
    fn replace_first(&mut self, tag: u16, range: (u32, u32)) -> Result<Option<Unsent>, AllocError>
        requires opened { IsTrue (is_open self.old tag) }
        requires first { IsTrue (is_editing (first_event self.old.held)) }
        requires ordered { range.0 ≤ range.1 }
        requires within { range.1 ≤ length (window_at self.old tag).rasp }
        requires size { length (window_at self.old tag).rasp + length (edit_runes (first_event self.old.held))
            ≤ max_runes + (range.1 - range.0) }
        ensures unsent { IfOk result (λ before. before ≡ self.old.unsent) }
        ensures ok { OnOk result (self.new ≡ record
            (put_window self.old tag (replaced_in (window_at self.old tag) range.0 range.1 (edit_runes (first_event self.old.held))))
            { unsent = None }) }
        ensures err { OnErr result (self.new ≡ self.old) }
    {
        let Some(event) = self.held.first() else {
            unreachable!()
        };
        replace_window(
            self.files.window_mut(tag),
            range.0,
            range.1,
            edit_runes(event),
        )?;
        Ok(self.unsent.take())
    }

    /// Composes a `Ttype` for each piece.
    fn compose_pieces(&mut self, tag: u16, cut: Vec<Piece>, out: &mut Outbox)
        requires counts { self.old.sent + length cut.items ≤ most_count }
        requires room { length cut.items ≤ out.old.room }
        ensures composed { self.new ≡ all_composed self.old (typed_pieces tag cut.items) }
        ensures messages { out.new.messages ≡ out.old.messages ++ typed_pieces tag cut.items }
    {
        for piece in cut {
            self.compose(Tmesg::Ttype(tag, piece.0, piece.1), out);
        }
    }
}
