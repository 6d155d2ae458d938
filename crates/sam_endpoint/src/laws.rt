//! What holds of every run of an endpoint, stated by the clauses of functions that do nothing.

ghost use Rattle.sam_endpoint.specs.Changes.{ActsKeep, AskingBegins, FlushesKeep, FramesKeep, KeptTellsChange, UnaskedIsKept};
ghost use Rattle.sam_endpoint.specs.HostRuns.{OneOutcome, RunsServe, StopsServe};
ghost use Rattle.sam_endpoint.specs.HostStepping.{HostStepsFeed};
ghost use Rattle.sam_endpoint.specs.TermRuns.{EventsAreNumbered, RunsLead, StopsLead};
ghost use Rattle.sam_endpoint.specs.TermStepping.{TermStepsFeed};

use sam_frame::one_reading_t;

/// States what every run of a host endpoint that does not stop comes to, whatever the pieces are, whether they are fed or brought and gone
/// on with by steps, whenever memory is refused and wherever files join. The host has answered the first messages of the stream in order,
/// and the others wait; each file that was added joined between two answers, in order; the frames of its answers are what was taken out,
/// what is pending, and what is not written yet, and each is within its limits; the tags that these messages had it write were handed out,
/// each once, or wait to be.
#[tactic(auto, using(crate::proofs::HostEndpointRuns::runs_serve))]
pub fn host_runs_serve()
    ensures { RunsServe }
{}

/// States what a run of a host endpoint comes to that its last call stops, a piece or a step: the same, with what this call brought or with
/// none of it, and the endpoint shows why it stopped. The stream has the fault after messages that are all answered; or the host refuses
/// the oldest message that waits.
pub fn host_stops_serve()
    ensures { StopsServe }
{}

/// States that two host endpoints to which the same stream came, and the same files, each after the same number of messages, have the same
/// host, the same bytes for the terminal and the same tags to write, once nothing waits, whatever the pieces were and whenever memory was
/// refused. So a program that keeps the stream, and where each file joined, can make the host again.
pub fn host_one_outcome()
    ensures { OneOutcome }
{
    one_reading_t();
}

/// States what every run of a terminal endpoint that does not stop comes to, whatever the pieces are, whether they and the events are taken
/// whole or brought and gone on with by steps, and whenever memory is refused. The terminal has received the first frames of the stream in
/// order, and the others wait; it was given each event, in order; the messages that it composed are what was taken out, what is pending,
/// and what is not written yet, and each is within its limits; and each refusal of an event, with the event's number, was handed out once
/// or waits to be.
#[tactic(auto, using(crate::proofs::TermEndpointRuns::runs_lead))]
pub fn term_runs_lead()
    ensures { RunsLead }
{}

/// States what a run of a terminal endpoint comes to that its last call stops: the same, with what this call brought or with none of it,
/// and the endpoint shows why it stopped. The stream has the fault after frames that are all received; or the terminal refuses the oldest
/// frame that waits; or none waits, and it refuses its oldest event, or to compose its unsent runes.
#[tactic(auto, using(crate::proofs::TermEndpointRuns::stops_lead))]
pub fn term_stops_lead()
    ensures { StopsLead }
{}

/// States that `TermEndpoint::events` hands out how many events were put or brought, and taken. So right after a call that took one it is
/// the number of this event, counted from 1, by which `next_refusal` names it and `decided` counts it.
#[tactic(auto, using(crate::proofs::TermEndpointRuns::events_numbered))]
pub fn term_events_numbered()
    ensures { EventsAreNumbered }
{}

/// States that to bring a piece to a host endpoint, and then to go on by steps to their end, is to feed it: the answer is one of `feed`,
/// and so is the endpoint.
pub fn host_steps_feed()
    ensures { HostStepsFeed }
{}

/// States that to bring a piece to a terminal endpoint none of whose events can act, and then to go on by steps to their end, is to feed
/// it: the answer is one of `feed`, and so is the endpoint.
pub fn term_steps_feed()
    ensures { TermStepsFeed }
{}

/// States what `TermEndpoint::changed` hands out. So much of a text as is kept stands in it as it stood when that was asked last: it is so
/// when it is asked, it stays so at each frame, event and flush, and so all else is the change.
pub fn changes_hold()
    ensures begins { AskingBegins }
    ensures unasked { UnaskedIsKept }
    ensures frames { FramesKeep }
    ensures acts { ActsKeep }
    ensures flushes { FlushesKeep }
    ensures change { KeptTellsChange }
{}
