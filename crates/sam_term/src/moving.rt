//! How a place moves as a text changes, and the changes of one `Window` with its dot and its view. They know nothing of tags or of the
//! terminal. Only the functions for unsent runes are given a tag, since these may be of another file.

ghost use Rattle.std.specs.Prelude.{◌≡◌, ◌+◌, ◌-◌, ◌<◌, ◌≤◌, ◌^◌, length, OnErr, OnOk, Some, None, map, replicate, IfSome};
ghost use Rattle.sam_rasp.specs.Rasp.{place_after_ins, place_after_del, load_cells};
ghost use Rattle.sam_runes.specs.Texts.{max_runes};
ghost use Rattle.sam_term.specs.Sound.{AreWithin, shifted};
ghost use Rattle.sam_term.specs.Term.{unsent_without, moved_unsent, window_after_ins, window_after_del};

use crate::records::{Unsent, Window};
use std::alloc::AllocError;

/// Returns where a place goes as `n` runes or gaps come in at `p`: one above `p` moves by `n`, the others stay.
fn after_ins(p: u32, n: u32, place: u32) -> u32
    requires { place + n < 2 ^ 32 }
    ensures { result ≡ place_after_ins p n place }
{
    if p < place { place + n } else { place }
}

/// Returns where a place goes as the `n` runes or gaps from `p` on are taken out: one after them moves back by `n`, and one among them
/// goes to `p`.
fn after_del(p: u32, n: u32, place: u32) -> u32
    ensures { result ≡ place_after_del p (p + n) place }
{
    if place < p {
        place
    } else if place - p < n {
        p
    } else {
        place - n
    }
}

/// Moves the place of the unsent runes, if they are of this file, as `n` runes or gaps come in at `p`.
pub fn move_by_ins(unsent: &mut Option<Unsent>, tag: u16, p: u32, n: u32)
    requires within { IfSome unsent.old (λ u. u.place ≤ max_runes) }
    requires size { n ≤ max_runes }
    ensures { unsent.new ≡ moved_unsent tag (place_after_ins p n) unsent.old }
{
    if let Some(unsent) = unsent {
        if unsent.file == tag {
            unsent.place = after_ins(p, n, unsent.place);
        }
    }
}

/// Moves the place of the unsent runes, if they are of this file, as the `n` runes or gaps from `p` on are taken out.
pub fn move_by_del(unsent: &mut Option<Unsent>, tag: u16, p: u32, n: u32)
    ensures { unsent.new ≡ moved_unsent tag (place_after_del p (p + n)) unsent.old }
{
    if let Some(unsent) = unsent {
        if unsent.file == tag {
            unsent.place = after_del(p, n, unsent.place);
        }
    }
}

/// Moves dot and view of a window as `n` runes or gaps come in at `p`.
fn shift_window(window: &mut Window, p: u32, n: u32)
    requires within { AreWithin max_runes window.old }
    requires size { n ≤ max_runes }
    ensures { window.new ≡ shifted window.old p n }
{
    window.dot = (after_ins(p, n, window.dot.0), after_ins(p, n, window.dot.1));
    window.view_start = after_ins(p, n, window.view_start);
}

/// Puts `n` gaps into a window at `p`. The only error is out of memory, and the window is then unchanged.
pub fn grow_window(window: &mut Window, p: u32, n: u32) -> Result<(), AllocError>
    requires place { p ≤ length window.old.rasp }
    requires size { length window.old.rasp + n ≤ max_runes }
    requires within { AreWithin max_runes window.old }
    ensures ok { OnOk result (window.new ≡ window_after_ins window.old p (replicate n None)) }
    ensures err { OnErr result (window.new ≡ window.old) }
{
    if window.rasp.grow(p, n).is_err() {
        return Err(AllocError);
    }
    shift_window(window, p, n);
    Ok(())
}

/// Puts runes into a window at `p`. The only error is out of memory, and the window is then unchanged.
pub fn fill_window(window: &mut Window, p: u32, runes: &[char]) -> Result<(), AllocError>
    requires place { p ≤ length window.old.rasp }
    requires size { length window.old.rasp + length runes.now ≤ max_runes }
    requires within { AreWithin max_runes window.old }
    ensures ok { OnOk result (window.new ≡ window_after_ins window.old p (map Some runes.now)) }
    ensures err { OnErr result (window.new ≡ window.old) }
{
    if window.rasp.type_in(p, runes).is_err() {
        return Err(AllocError);
    }
    shift_window(window, p, runes.len() as u32);
    Ok(())
}

/// Loads runes into the places of a window from `p` on, which then awaits one request less. The only error is out of memory, and the
/// window is then unchanged.
pub fn load_window(window: &mut Window, p: u32, runes: &[char]) -> Result<(), AllocError>
    requires { p + length runes.now ≤ length window.old.rasp }
    ensures ok { OnOk result (window.new
        ≡ record window.old { rasp = load_cells window.old.rasp p runes.now; awaited = window.old.awaited - 1 }) }
    ensures err { OnErr result (window.new ≡ window.old) }
{
    if window.rasp.data(p, runes).is_err() {
        return Err(AllocError);
    }
    window.awaited = window.awaited.saturating_sub(1);
    Ok(())
}

/// Takes the `n` runes and gaps from `p` on out of a window. It takes no memory.
pub fn cut_window(window: &mut Window, p: u32, n: u32)
    requires { p + n ≤ length window.old.rasp }
    ensures { window.new ≡ window_after_del window.old p (p + n) }
{
    if window.rasp.cut(p, n).is_err() {
        unreachable!()
    }
    window.dot = (after_del(p, n, window.dot.0), after_del(p, n, window.dot.1));
    window.view_start = after_del(p, n, window.view_start);
}

/// Drops the unsent runes, if they are of this file.
pub fn drop_unsent(unsent: &mut Option<Unsent>, tag: u16)
    ensures { unsent.new ≡ unsent_without tag unsent.old }
{
    if let Some(kept) = unsent {
        if kept.file == tag {
            *unsent = None;
        }
    }
}
