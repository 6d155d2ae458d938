//! Replays a script: its lines are done one after another, on one thread, over a world of its files.

ghost use Rattle.std.specs.Prelude.{◌≡◌, ◌++◌, Ok, IfOk, IfErr, OnOk, string_bytes};
ghost use Rattle.sam_world.specs.Drain.{drained, drain_limit};
ghost use Rattle.sam_script.specs.Replay.{after_line, after_output, or_full, printed_by, replayed_from, stepped, replayed, IsReplay, IsReplayFault, IsStopOf, ReplaysAsIfLocal};

use crate::fault::ScriptFault;
use crate::line::{Line, Numbered};
use crate::script::Script;
use crate::showing::push_world;
use sam_world::event::{Event, StepFault};
use sam_world::first_world;
use sam_world::world::World;
use std::alloc::Global;

/// Reads the script that the bytes spell, as [`Script::read`] does, and returns what its `show` lines print, as [`replay_owned`] does. All
/// lines are read before the first is done.
///
/// The error is `Line(n)` if line n, counted from 1, is the first wrong line. If no line is wrong, the first line that can't be done
/// decides: `Line(n)` or `CountFull`, as [`replay_owned`] says. `OutOfMemory` may come at any line, and before the first.
#[tactic(auto, using(crate::proofs::Replays::unread, crate::proofs::Replays::stopped))]
pub fn replay_bytes(alloc: Global, bytes: &[u8]) -> Result<Vec<u8>, ScriptFault>
    ensures ok { IfOk result (λ printed. IsReplay bytes.now printed.items) }
    ensures fault { IfErr result (IsReplayFault bytes.now) }
{
    replay_owned(alloc, Script::read(alloc, bytes)?)
}

/// Does the lines of a script one after another, over the first world of its files, and returns all that its `show` lines print. The
/// script stays as it is, so it can be replayed again. Each event is copied before it happens; [`replay_owned`] copies none.
///
/// The first line that can't be done stops it, and then nothing of what was printed is returned. The error is `Line(n)` if line n is `host`
/// or `term` and nothing is under way to that side, `add` and all tags were given, or `dirty` and the file may not be marked; and
/// `CountFull` if the line's step, or an event of its drain, would take a count of messages past 2^64-1. `OutOfMemory` may come at any
/// line, and before the first.
///
/// Wherever the replay stands, what was done by the lines above, but for events that are still held, has done in its order what it does in
/// an editor without a network, with the files that joined. So where a `show` stands with nothing unsent or under way, the host and the
/// terminal that it prints are those of that editor, but for runes that are not loaded and for counts of messages; and files that `dirty`
/// lines marked may be dirty that are clean there.
#[tactic(auto, using(crate::proofs::Replays::replays_as_if_local), unfolding(crate::specs::Replay::replayed))]
pub fn replay(alloc: Global, script: &Script) -> Result<Vec<u8>, ScriptFault>
    ensures ok { IfOk result (λ out. replayed script.now ≡ Ok out.items) }
    ensures local { ReplaysAsIfLocal script.now }
    ensures stopped { IfErr result (λ why. IsStopOf (replayed script.now) why) }
{
    let Ok(mut world) = first_world(alloc, script.files()) else {
        return Err(ScriptFault::OutOfMemory);
    };
    let mut printed = String::new(alloc);
    let done = do_lines(alloc, &mut world, &mut printed, script.lines());
    drop(world);
    match done {
        Ok(()) => Ok(printed.into_bytes()),
        Err(why) => Err(why),
    }
}

/// Does copies of the lines one after another, up to the first that can't be done. What they print stands after what was printed before;
/// at an error a part of that may stand there too.
fn do_lines(
    alloc: Global,
    world: &mut World,
    out: &mut String,
    lines: &[Numbered],
) -> Result<(), ScriptFault>
    ensures done { OnOk result (after_output (string_bytes out.old) (replayed_from world.old lines.now) ≡ Ok (string_bytes out.new)) }
    ensures stopped { IfErr result (λ why. IsStopOf (after_output (string_bytes out.old) (replayed_from world.old lines.now)) why) }
{
    for numbered in lines {
        let line = numbered.line.copy(alloc)?;
        do_line(world, out, numbered.number, line)?;
    }
    Ok(())
}

/// Does what [`replay`] does, and uses the script up, so that no event is copied.
#[tactic(auto, using(crate::proofs::Replays::replays_as_if_local), unfolding(crate::specs::Replay::replayed))]
pub fn replay_owned(alloc: Global, script: Script) -> Result<Vec<u8>, ScriptFault>
    ensures ok { IfOk result (λ out. replayed script ≡ Ok out.items) }
    ensures local { ReplaysAsIfLocal script }
    ensures stopped { IfErr result (λ why. IsStopOf (replayed script) why) }
{
    let Ok(mut world) = first_world(alloc, script.files()) else {
        return Err(ScriptFault::OutOfMemory);
    };
    let mut out = String::new(alloc);
    let done = do_owned_lines(&mut world, &mut out, script.into_lines());
    drop(world);
    match done {
        Ok(()) => Ok(out.into_bytes()),
        Err(why) => Err(why),
    }
}

/// Does what [`do_lines`] does, and uses the lines up.
fn do_owned_lines(
    world: &mut World,
    out: &mut String,
    lines: Vec<Numbered>,
) -> Result<(), ScriptFault>
    ensures done { OnOk result (after_output (string_bytes out.old) (replayed_from world.old lines.items) ≡ Ok (string_bytes out.new)) }
    ensures stopped { IfErr result (λ why. IsStopOf (after_output (string_bytes out.old) (replayed_from world.old lines.items)) why) }
{
    for numbered in lines {
        let Numbered { number, line } = numbered;
        do_line(world, out, number, line)?;
    }
    Ok(())
}

/// Does what a line of this number asks for. What it prints stands after what was printed before; at an error a part of that may stand
/// there too.
fn do_line(
    world: &mut World,
    out: &mut String,
    number: usize,
    line: Line,
) -> Result<(), ScriptFault>
    ensures done { OnOk result (after_line number world.old line ≡ Ok world.new) }
    ensures printed { OnOk result (string_bytes out.new ≡ string_bytes out.old ++ printed_by world.old line) }
    ensures stopped { IfErr result (λ why. IsStopOf (after_line number world.old line) why) }
{
    match line {
        Line::Key(event) | Line::Mouse(event) => do_step(world, number, Event::User(event)),
        Line::Add(name, text) => do_step(world, number, Event::Add(name, text)),
        Line::Dirty(tag) => do_step(world, number, Event::Mark(tag)),
        Line::Act => do_step(world, number, Event::Act),
        Line::Flush => do_step(world, number, Event::Flush),
        Line::Host => do_step(world, number, Event::HostTake),
        Line::Term => do_step(world, number, Event::TermTake),
        Line::Drain => do_drain(world),
        Line::Show => match push_world(out, world) {
            Ok(()) => Ok(()),
            Err(_) => Err(ScriptFault::OutOfMemory),
        },
    }
}

/// Makes the event of the line of this number happen.
#[tactic(auto, using(crate::proofs::Replays::step_is_full))]
fn do_step(world: &mut World, number: usize, event: Event) -> Result<(), ScriptFault>
    ensures done { OnOk result (stepped number world.old event ≡ Ok world.new) }
    ensures stopped { IfErr result (λ why. IsStopOf (stepped number world.old event) why) }
{
    match world.step(event) {
        Ok(()) => Ok(()),
        Err(StepFault::NothingThere | StepFault::Barred) => Err(ScriptFault::Line(number)),
        Err(StepFault::CountFull) => Err(ScriptFault::CountFull),
        Err(StepFault::OutOfMemory) => Err(ScriptFault::OutOfMemory),
    }
}

/// Makes happen what can happen without the user. A drain takes only what is there, and adds no file, so the fault is never `Line`.
fn do_drain(world: &mut World) -> Result<(), ScriptFault>
    ensures done { OnOk result (or_full (drained drain_limit world.old) ≡ Ok world.new) }
    ensures stopped { IfErr result (λ why. IsStopOf (or_full (drained drain_limit world.old)) why) }
{
    match world.drain() {
        Ok(()) => Ok(()),
        Err(StepFault::NothingThere) => unreachable!(),
        Err(StepFault::Barred) => unreachable!(),
        Err(StepFault::CountFull) => Err(ScriptFault::CountFull),
        Err(StepFault::OutOfMemory) => Err(ScriptFault::OutOfMemory),
    }
}
