//! What a change of the host's will do to what waits over a rasp and to what is shown. All memory is had before the terminal makes the
//! change.

ghost use Rattle.std.specs.Prelude.{◌≡◌, Some, None, IfOk, option_copied};
ghost use Rattle.sam_overlay.specs.Outcomes.{Follows, TellsRasp};
ghost use Rattle.sam_overlay.specs.declared.frame_plan.Plan.{Plan};

use crate::frame_plan::Plan;
use crate::shown_change::Told;
use sam_pending::{Filling, Pending, PendingFault, Prepared, Removal};
use sam_runes::MAX_RUNES;
use std::alloc::{AllocError, Global};

/// What becomes of what waits over a rasp.
#[derive(Drop)]
pub(crate) enum LayerChange {
    /// It stays.
    Stays,
    /// Its runs change so.
    Runs(Prepared),
    /// It goes with the text.
    Ends,
}

/// What a change of the host's does to what waits, and what is told of it.
#[derive(Drop)]
pub(crate) struct Outcome {
    /// How the shown text changes.
    pub told: Told,
    /// What becomes of what waits.
    pub change: LayerChange,
}

/// Returns what a change does where nothing changes, or which the terminal will refuse.
pub(crate) fn nothing() -> Outcome
    ensures { result ≡ record { told = Told.Nothing; change = LayerChange.Stays } }
{
    Outcome {
        told: Told::Nothing,
        change: LayerChange::Stays,
    }
}

/// Returns what a change does to what waits over a rasp, if something does. The only error is `OutOfMemory`.
pub(crate) fn outcome_of(
    alloc: Global,
    layer: Option<&Pending>,
    plan: Plan,
) -> Result<Outcome, PendingFault>
    ensures { IfOk result (λ x. Follows (option_copied layer.entry) plan x) }
{
    match layer {
        Some(pending) => over_pending(pending, plan),
        None => over_rasp(alloc, plan),
    }
}

/// Returns what a change does where something waits.
#[tactic(auto, using(crate::proofs::OutcomeLaws::stays_follows, crate::proofs::OutcomeLaws::empties_follows))]
fn over_pending(pending: &Pending, plan: Plan) -> Result<Outcome, PendingFault>
    ensures { IfOk result (λ x. Follows (Some pending.now) plan x) }
{
    match plan {
        Plan::Stays => Ok(nothing()),
        Plan::Inserts(place, count) => insertion(pending, place, count),
        Plan::Fills(place, count) => filling(pending, place, count),
        Plan::Removes(place, count) => removal(pending, place, count),
        Plan::Empties => Ok(Outcome {
            told: Told::Emptied,
            change: LayerChange::Ends,
        }),
    }
}

/// Returns what an insertion does where something waits.
#[tactic(auto, using(crate::proofs::OutcomeLaws::inserts_follow, crate::proofs::OutcomeLaws::unfit_follows))]
fn insertion(pending: &Pending, place: u32, count: usize) -> Result<Outcome, PendingFault>
    ensures { IfOk result (λ x. Follows (Some pending.now) (Plan.Inserts place count) x) }
{
    if count > MAX_RUNES as usize {
        return Ok(nothing());
    }
    match pending.prepare_insert(place, count as u32) {
        Ok((at, change)) => Ok(Outcome {
            told: Told::Came(at, count as u32),
            change: LayerChange::Runs(change),
        }),
        Err(PendingFault::OutOfMemory) => Err(PendingFault::OutOfMemory),
        Err(_) => Ok(nothing()),
    }
}

/// Returns what it does where something waits that runes are stored.
#[tactic(auto, using(crate::proofs::OutcomeLaws::fills_follow, crate::proofs::OutcomeLaws::unfit_fills))]
fn filling(pending: &Pending, place: u32, count: usize) -> Result<Outcome, PendingFault>
    ensures { IfOk result (λ x. Follows (Some pending.now) (Plan.Fills place count) x) }
{
    let len = pending.rasp_len();
    if place > len || count > (len - place) as usize {
        return Ok(nothing());
    }
    match pending.fill_by_host(place, count as u32) {
        Ok(fillings) => Ok(Outcome {
            told: Told::Filled(fillings),
            change: LayerChange::Stays,
        }),
        Err(PendingFault::OutOfMemory) => Err(PendingFault::OutOfMemory),
        Err(_) => Ok(nothing()),
    }
}

/// Returns what a removal does where something waits.
#[tactic(auto, using(crate::proofs::OutcomeLaws::removes_follow, crate::proofs::OutcomeLaws::unfit_removes))]
fn removal(pending: &Pending, place: u32, count: usize) -> Result<Outcome, PendingFault>
    ensures { IfOk result (λ x. Follows (Some pending.now) (Plan.Removes place count) x) }
{
    let len = pending.rasp_len();
    if place > len || count > (len - place) as usize {
        return Ok(nothing());
    }
    match pending.prepare_remove(place, place + count as u32) {
        Ok((removals, change)) => Ok(Outcome {
            told: Told::Went(removals),
            change: LayerChange::Runs(change),
        }),
        Err(PendingFault::OutOfMemory) => Err(PendingFault::OutOfMemory),
        Err(_) => Ok(nothing()),
    }
}

/// Returns what a change does where nothing waits.
#[tactic(auto, using(crate::proofs::OutcomeLaws::over_rasp_facts))]
fn over_rasp(alloc: Global, plan: Plan) -> Result<Outcome, PendingFault>
    ensures { IfOk result (λ x. Follows None plan x) }
{
    let told = match plan {
        Plan::Stays => Told::Nothing,
        Plan::Inserts(place, count) => rasp_insertion(place, count),
        Plan::Fills(place, count) => rasp_filling(alloc, place, count)?,
        Plan::Removes(place, count) => rasp_removal(alloc, place, count)?,
        Plan::Empties => Told::Emptied,
    };
    Ok(Outcome {
        told,
        change: LayerChange::Stays,
    })
}

/// Returns what is told of an insertion where nothing waits.
#[tactic(auto, using(crate::proofs::OutcomeLaws::tells_inserted, crate::proofs::OutcomeLaws::untold_inserts))]
fn rasp_insertion(place: u32, count: usize) -> Told
    ensures { TellsRasp (Plan.Inserts place count) result }
{
    if count > MAX_RUNES as usize {
        return Told::Nothing;
    }
    Told::Came(place, count as u32)
}

/// Returns what is told where nothing waits as runes are stored.
#[tactic(auto, using(crate::proofs::OutcomeLaws::tells_filled, crate::proofs::OutcomeLaws::untold_fills))]
fn rasp_filling(alloc: Global, place: u32, count: usize) -> Result<Told, AllocError>
    ensures { IfOk result (λ x. TellsRasp (Plan.Fills place count) x) }
{
    if count > MAX_RUNES as usize {
        return Ok(Told::Nothing);
    }
    let mut fillings = Vec::new(alloc);
    fillings.push(Filling {
        place,
        from: 0,
        count: count as u32,
    })?;
    Ok(Told::Filled(fillings))
}

/// Returns what is told of a removal where nothing waits.
#[tactic(auto, using(crate::proofs::OutcomeLaws::tells_removed, crate::proofs::OutcomeLaws::untold_removes))]
fn rasp_removal(alloc: Global, place: u32, count: usize) -> Result<Told, AllocError>
    ensures { IfOk result (λ x. TellsRasp (Plan.Removes place count) x) }
{
    if place > MAX_RUNES || count > MAX_RUNES as usize {
        return Ok(Told::Nothing);
    }
    let mut removals = Vec::new(alloc);
    removals.push(Removal {
        p: place,
        q: place + count as u32,
    })?;
    Ok(Told::Went(removals))
}
