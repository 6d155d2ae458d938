//! Places that requests name, and where they go as the host changes the texts that they come to.

ghost use Rattle.std.specs.Prelude.{◌≡◌, ◌^◌, ◌-◌, ℕ, Some, length, min};
ghost use Rattle.sam_rasp.specs.Rasp.{place_after_ins};
ghost use Rattle.sam_pending.specs.Cells.{PartialText, resting, text_at};
ghost use Rattle.sam_pending.specs.Layers.{IsOver, cells_over};
ghost use Rattle.sam_overlay.specs.Marks.{marks_of, moved_place, place_after, place_after_drop, with_marks};

use crate::frame_plan::Plan;
use sam_pending::Pending;
use sam_term::UserEvent;

/// The places that an event names: where a range begins and where it ends. A single place is both; 0 stands for none.
#[derive(Clone, Copy, Drop)]
pub(crate) struct Marks {
    /// Where the range begins.
    pub p: u32,
    /// Where it ends.
    pub q: u32,
}

/// Returns the places that an event names.
pub(crate) fn marks_of(event: &UserEvent) -> Marks
    ensures { result ≡ marks_of event.now }
{
    match event {
        UserEvent::Select(_, p, q) => Marks { p: *p, q: *q },
        UserEvent::Dclick(_, p) | UserEvent::View(_, p, _) | UserEvent::Load(_, p, _) => Marks {
            p: *p,
            q: *p,
        },
        _ => Marks { p: 0, q: 0 },
    }
}

/// Puts other places into an event. One that names none stays.
pub(crate) fn put_marks(event: &mut UserEvent, marks: Marks)
    ensures { event.new ≡ with_marks marks event.old }
{
    match event {
        UserEvent::Select(_, p, q) => {
            *p = marks.p;
            *q = marks.q;
        }
        UserEvent::Dclick(_, p) => *p = marks.p,
        UserEvent::View(_, p, _) => *p = marks.p,
        UserEvent::Load(_, p, _) => *p = marks.p,
        _ => {}
    }
}

/// Returns how long the text is that a request of the group comes to, where something waits.
#[tactic(auto, using(crate::proofs::MarkLaws::length_facts))]
fn text_len(pending: &Pending, group: u32) -> u32
    ensures { (r : PartialText) → IsOver r pending.now → result ≡ length (text_at group (cells_over r pending.now)) }
{
    pending.place_at(group, pending.rasp_len() + 1)
}

/// Returns where a place that a request of the group names goes by such a change of the rasp, where something waits.
#[tactic(auto, using(crate::proofs::MarkLaws::within_facts))]
pub(crate) fn place_in_pending(pending: &Pending, group: u32, plan: Plan, place: u32) -> u32
    ensures { (r : PartialText) → IsOver r pending.now → result ≡ place_after group plan (cells_over r pending.now) place }
{
    if place > text_len(pending, group) {
        return place;
    }
    moved_in_pending(pending, group, plan, place)
}

/// Returns where a place, of the text that a request of the group comes to, goes by such a change of the rasp, where something waits.
#[tactic(auto, using(crate::proofs::MarkLaws::pending_facts))]
fn moved_in_pending(pending: &Pending, group: u32, plan: Plan, place: u32) -> u32
    ensures { (r : PartialText) → IsOver r pending.now → result ≡ moved_place group plan (cells_over r pending.now) place }
{
    match plan {
        Plan::Stays | Plan::Fills(_, _) | Plan::Empties => place,
        Plan::Inserts(p, count) => behind(pending.place_at(group, p), count, place),
        Plan::Removes(p, count) => pending.place_after_removal(group, place, p, count),
    }
}

/// Returns where a place that a request of the group names goes as the next runes are taken back, of the groups up to a limit.
#[tactic(auto, using(crate::proofs::MarkLaws::pending_drop_facts))]
pub(crate) fn place_after_drop(pending: &Pending, up_to: Option<u32>, group: u32, place: u32) -> u32
    ensures { (r : PartialText) → IsOver r pending.now
        → result ≡ place_after_drop up_to group (Some pending.now) (cells_over r pending.now) place }
{
    if text_len(pending, group) < place {
        return place;
    }
    pending.place_after_drop(up_to, group, place)
}

/// Returns where a place that a request names goes by such a change of a rasp of `len` members, where nothing waits.
#[tactic(auto, using(crate::proofs::MarkLaws::rasp_within_facts))]
pub(crate) fn place_in_rasp(len: u32, plan: Plan, place: u32) -> u32
    ensures { (g : ℕ) (r : PartialText) → length r ≡ len → result ≡ place_after g plan (resting r) place }
{
    if place > len {
        return place;
    }
    moved_in_rasp(len, plan, place)
}

/// Returns where a place of a rasp of `len` members goes by such a change of it, where nothing waits.
#[tactic(auto, using(crate::proofs::MarkLaws::rasp_facts))]
fn moved_in_rasp(len: u32, plan: Plan, place: u32) -> u32
    ensures { (g : ℕ) (r : PartialText) → length r ≡ len → result ≡ moved_place g plan (resting r) place }
{
    match plan {
        Plan::Stays | Plan::Fills(_, _) | Plan::Empties => place,
        Plan::Inserts(p, count) => behind(len.min(p), count, place),
        Plan::Removes(p, count) => {
            let before = len.min(place).saturating_sub(p);
            place.saturating_sub(count.min(before as usize) as u32)
        }
    }
}

/// Returns where a place goes as `count` members come in at place `p`; at most to the greatest place that there is.
fn behind(p: u32, count: usize, place: u32) -> u32
    ensures { result ≡ min (2 ^ 32 - 1) (place_after_ins p count place) }
{
    if p >= place {
        return place;
    }
    (place as usize)
        .saturating_add(count)
        .min(u32::MAX as usize) as u32
}
