//! What stands from a place of the shown text on, and its gaps.

ghost use Rattle.std.specs.Prelude.{◌≡◌, ◌<◌, ◌≤◌, ◌^◌, MatchOption, drop, length, take};
ghost use Rattle.sam_pending.specs.Layers.{IsOver, cells_over, shown_members};
ghost use Rattle.sam_pending.specs.Cells.{PartialText, shown_of};
ghost use Rattle.sam_overlay.specs.Calls.{IsShownFrom, gap_from, gap_in};

use sam_pending::{Pending, Shown};
use sam_rasp::Rasp;

/// Returns what stands from a place of the shown text on, where something waits; `None` from its end on.
#[tactic(auto, using(crate::proofs::CallLaws::pending_read))]
pub(crate) fn pending_from(pending: &Pending, place: u32) -> Option<Shown<'_>>
    ensures { (r : PartialText) → IsOver r pending.now → MatchOption result (length (shown_of (cells_over r pending.now)) ≤ place)
        (λ x. IsShownFrom place (shown_of (cells_over r pending.now)) (shown_members r x)) }
{
    if place >= pending.shown_len() {
        return None;
    }
    pending.shown_at(place)
}

/// Returns what stands from a place of a rasp on; `None` from its end on.
#[tactic(auto, using(crate::proofs::CallLaws::rasp_read))]
pub(crate) fn rasp_from(rasp: &Rasp, place: u32) -> Option<Shown<'static>>
    ensures { MatchOption result (length rasp.now ≤ place) (λ x. IsShownFrom place rasp.now (shown_members rasp.now x)) }
{
    let len = rasp.len();
    if place >= len {
        return None;
    }
    Some(Shown::Rasp(place, len - place))
}

/// Returns the first place of a rasp, at or after a place, whose rune is not loaded.
#[tactic(auto, using(crate::proofs::GapLaws::rasp_gap_facts))]
pub(crate) fn rasp_gap(rasp: &Rasp, place: u32) -> Option<u32>
    ensures { result ≡ gap_from place rasp.now }
{
    let len = rasp.len();
    if place > len {
        return None;
    }
    let (gap, _) = rasp.first_hole(place, len)?;
    Some(gap)
}

/// Returns the first place of the shown text, at or after a place, whose rune is not loaded, where something waits.
#[tactic(auto, using(crate::proofs::GapLaws::pending_gap_facts))]
pub(crate) fn pending_gap(pending: &Pending, rasp: &Rasp, place: u32) -> Option<u32>
    requires { IsOver rasp.now pending.now }
    ensures { result ≡ gap_from place (shown_of (cells_over rasp.now pending.now)) }
{
    let len = pending.shown_len();
    let mut at = place;
    while at < len {
        let piece = pending.shown_at(at)?;
        if let Some(gap) = piece_gap(rasp, &piece) {
            return Some(at + gap);
        }
        at += piece_len(rasp, &piece);
    }
    None
}

/// Returns how many members stand in a piece of the shown text before the first that is not loaded; `None` if all are.
#[tactic(auto, using(crate::proofs::GapLaws::piece_facts))]
fn piece_gap(rasp: &Rasp, piece: &Shown<'_>) -> Option<u32>
    ensures { result ≡ gap_in (shown_members rasp.now piece.now) }
{
    match piece {
        Shown::Rasp(place, count) => gap_within(rasp, *place, *count),
        Shown::Waiting(_) => None,
    }
}

/// Returns how many members a piece of the shown text has.
#[tactic(auto, using(crate::proofs::GapLaws::piece_facts))]
fn piece_len(rasp: &Rasp, piece: &Shown<'_>) -> u32
    requires { length (shown_members rasp.now piece.now) < 2 ^ 32 }
    ensures { result ≡ length (shown_members rasp.now piece.now) }
{
    match piece {
        Shown::Rasp(place, count) => count_within(rasp, *place, *count),
        Shown::Waiting(runes) => runes.len() as u32,
    }
}

/// Returns how many members a rasp has from a place on, `most` at most.
#[tactic(auto, using(crate::proofs::GapLaws::piece_facts))]
fn count_within(rasp: &Rasp, place: u32, most: u32) -> u32
    ensures { result ≡ length (take most (drop place rasp.now)) }
{
    rasp.len().saturating_sub(place).min(most)
}

/// Returns how many members stand before the first gap among `most` members of a rasp from a place on; `None` if there is no gap.
#[tactic(auto, using(crate::proofs::GapLaws::piece_facts))]
fn gap_within(rasp: &Rasp, place: u32, most: u32) -> Option<u32>
    ensures { result ≡ gap_in (take most (drop place rasp.now)) }
{
    let len = rasp.len();
    if place > len {
        return None;
    }
    let end = place + (len - place).min(most);
    let (gap, _) = rasp.first_hole(place, end)?;
    Some(gap - place)
}
