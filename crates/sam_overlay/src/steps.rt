//! Steps of a terminal end over whose rasps edits wait. Whatever wants memory comes before the end's own step, and what is left to do after
//! it can't fail.

ghost use Rattle.std.specs.Prelude.{◌≡◌, [], None, OnErr, OnOk, IfOk};
ghost use Rattle.sam_runes.specs.Slots.{slot};
ghost use Rattle.sam_endpoint.specs.TermStepping.{Steps};
ghost use Rattle.sam_overlay.specs.Outcomes.{change_told, event_told};
ghost use Rattle.sam_overlay.specs.Overlays.{AreOver, AreRequests, Brought, IsPutting, Stepped, StopsOnly, end_step, is_received};

use crate::frame_plan::FilePlan;
use crate::layers::Layers;
use crate::outcome::outcome_of;
use crate::shown_change::{OverlayStep, Told};
use sam_endpoint::{Change, EndpointFault, TermEndpoint, TermStep, TermStop};
use std::alloc::Global;

/// Returns whether a step received a frame.
pub(crate) fn is_received(step: TermStep) -> bool
    ensures { result ≡ is_received step }
{
    match step {
        TermStep::Received { .. } => true,
        _ => false,
    }
}

/// Goes on by one step of the end, where no edit was put that has not acted.
#[tactic(auto, using(crate::proofs::StepLaws::step_facts))]
pub(crate) fn step_over(
    end: &mut TermEndpoint,
    layers: &mut Layers,
    alloc: Global,
) -> Result<OverlayStep, EndpointFault<TermStop>>
    requires going { end.old.stop ≡ None }
    requires over { AreOver end.old.term layers.old }
    requires command { slot layers.old 0 ≡ None }
    requires requests { AreRequests end.old.term.held }
    ensures step { Steps end.old (end_step result) end.new }
    ensures stepped { IfOk result (λ x. Stepped end.old layers.old x end.new layers.new) }
    ensures err { OnErr result ((layers.new ≡ layers.old) × StopsOnly end.old end.new) }
{
    end.term().facts();
    let plan = match end.first_frame() {
        Some(frame) => FilePlan::of(&frame.msg),
        None => return quiet_step(end),
    };
    let Ok(outcome) = outcome_of(alloc, layers.at(plan.tag), plan.plan) else {
        return Err(EndpointFault::Unfinished);
    };
    let step = end.step()?;
    if !is_received(step) {
        return Ok(by_event(step));
    }
    layers.follow(plan.tag, outcome.change);
    Ok(OverlayStep {
        step,
        tag: plan.tag,
        told: outcome.told,
    })
}

/// Goes on by one step of the end, where no frame waits.
fn quiet_step(end: &mut TermEndpoint) -> Result<OverlayStep, EndpointFault<TermStop>>
    requires { end.old.waiting ≡ [] }
    ensures step { Steps end.old (end_step result) end.new }
    ensures told { IfOk result (λ x. x ≡ record { step = x.step; tag = 0; told = event_told x.step }) }
{
    let step = end.step()?;
    Ok(by_event(step))
}

/// Returns the step, which received no frame: an event may have changed the command file.
fn by_event(step: TermStep) -> OverlayStep
    ensures { result ≡ record { step = step; tag = 0; told = event_told step } }
{
    let told = match step {
        TermStep::Acted { change, .. } => change_told(change),
        _ => Told::Nothing,
    };
    OverlayStep { step, tag: 0, told }
}

/// Returns what is told of a change to the command file.
fn change_told(change: Change) -> Told
    ensures { result ≡ change_told change }
{
    if change.gone == 0 && change.came == 0 {
        return Told::Nothing;
    }
    Told::Changed(change.start, change.gone, change.came)
}

/// Returns the step, of which nothing is told.
pub(crate) fn quiet(step: TermStep) -> OverlayStep
    ensures { result ≡ record { step = step; tag = 0; told = Told.Nothing } }
{
    OverlayStep {
        step,
        tag: 0,
        told: Told::Nothing,
    }
}

/// Has the edit act that was put, which is the next one of what waits over the file, of the groups up to a limit.
#[tactic(auto, using(crate::proofs::StepLaws::edit_facts))]
pub(crate) fn step_edit(
    end: &mut TermEndpoint,
    layers: &mut Layers,
    tag: u16,
    limit: Option<u32>,
) -> Result<TermStep, EndpointFault<TermStop>>
    requires going { end.old.stop ≡ None }
    requires over { AreOver end.old.term layers.old }
    requires command { slot layers.old 0 ≡ None }
    requires putting { IsPutting end.old layers.old limit tag }
    ensures step { Steps end.old result end.new }
    ensures brought { OnOk result (Brought end.old layers.old limit tag end.new layers.new) }
    ensures err { OnErr result ((layers.new ≡ layers.old) × StopsOnly end.old end.new) }
{
    let step = end.step()?;
    layers.make_next(tag, limit);
    Ok(step)
}
