//! Settling a session: its lines are audited, and its two sides are a world, to which one schedule of all events leads.
ghost use Rattle.std.specs.Prelude.{◌≡◌, ◌+◌, ◌^◌, ◌<◌, ◌≤◌, [], ◌∷◌, ◌++◌, length, All, IfOk, IfErr, Some, vec_capacity, sum_by};
ghost use Rattle.sam_runes.specs.Texts.{most_files};
ghost use Rattle.sam_world.specs.Given.{IsFile};
ghost use Rattle.sam_crossing.specs.World.{new_world, run_of};
ghost use Rattle.sam_world.specs.Merging.{merged};
ghost use Rattle.sam_ends.specs.WorkerEnds.{AreEnds};
ghost use Rattle.sam_settle.specs.Headline.{Gives, Headline};
ghost use Rattle.sam_settle.specs.Settled.{left_in, counts_left, as_list, stops_of, AreFull, HasStreams, HasUsers, IsDrained, IsWhole, MissesHost};
ghost use Rattle.sam_settle.specs.Settling.{IsRoomFor, IsScheduled, IsPrepared, IsReady, ComesTo, schedule_from, world_from};

use crate::settled::{SettleFault, Settled};
use sam_ends::{Ends, Input, Stop};
use sam_host::host::Host;
use sam_queue::{AuditRoom, Post, Take, audit_within};
use sam_runes::Runes;
use sam_term::term::Terminal;
use sam_world::event::{Event, StepFault, TermLog};
use sam_world::world::World;
use sam_world::{MergeFault, MergeRoom, first_world, merge, merge_within};
use std::alloc::{AllocError, Global};
use std::sync::Wait;

/// All memory for the audit of a line.
#[derive(Drop)]
struct LineRoom<'q, T> {
    /// Room for what the audit finds.
    audit: AuditRoom<T>,
    /// An empty list with room for the posts of the line.
    posts: Vec<Post<'q, T>>,
}

/// How the merged schedule and the world where it leads are had.
#[derive(Drop)]
enum Source {
    /// No worker stopped: nothing is under way, and the two sides are the world. There is room to merge the log.
    Sides(MergeRoom),
    /// A worker stopped: the merged schedule, and the world where it leads from the host's first files.
    Run(Vec<Event>, World),
}

/// All memory for settling, had before anything is taken from a line.
#[derive(Drop)]
struct Prepared<'q> {
    /// Room to audit the line up.
    up: LineRoom<'q, Vec<u8>>,
    /// Room to audit the line down.
    down: LineRoom<'q, Vec<u8>>,
    /// Room to audit the line of events.
    events: LineRoom<'q, Input>,
    /// An empty list with room for three counts.
    left: Vec<usize>,
    /// Why workers stopped, as in `Settled::stops`.
    stops: Vec<Stop>,
    /// How the schedule and the world are had; `None` if the schedule is no run, which no session leads to.
    source: Option<Source>,
}

/// Puts the five ends of a session together. Returns one schedule of all its events, which leads one world of the host's first files to
/// the very states of the host and the terminal, with what is left in the lines and why workers stopped.
///
/// The messages that the host handled are the first of those that the terminal composed, and the frames that the terminal handled are the
/// first of those that the host answered. Of the keyboard and of the mouse the terminal handled the first events that each put. The ends
/// are those of one set of lines, as `run_ends` of sam_session returns them.
///
/// It costs by the length of the schedule where no worker stopped; else the whole run is made once more.
///
/// Its only error is `SettleFault::OutOfMemory`, with the ends as they were: nothing is taken from a line before all memory is had.
pub fn settle<'q, R: Wait>(
    rt: &R,
    alloc: Global,
    ends: Ends<'q>,
) -> Result<Settled, SettleFault<'q>>
    requires { AreEnds ends }
    ensures headline { IfOk result (Headline ends.entry) }
    ensures states { IfOk result (λ s. (s.world.host ≡ ends.entry.host.host) × (s.world.term ≡ ends.entry.term.term)) }
    ensures schedule { IfOk result (λ s. s.schedule.items ≡ merged ends.entry.term.log.items ends.entry.host.host.taken) }
    ensures streams { IfOk result (HasStreams ends.entry) }
    ensures users { IfOk result (HasUsers ends.entry) }
    ensures stops { IfOk result (λ s. s.stops.items ≡ stops_of ends.entry) }
    ensures left { IfOk result (λ s. s.left.items ≡ counts_left ends.entry) }
    ensures drained { IfOk result (IsDrained ends.entry) }
    ensures counted { IfOk result AreFull }
    ensures misses { IfOk result (λ s. ends.entry.term.stop ≡ Some Stop.PeerGone → MissesHost ends.entry s) }
    ensures whole { IfOk result (λ s. s.stops.items ≡ [] → IsWhole ends.entry s) }
    ensures refused { IfErr result (λ f. f ≡ SettleFault.OutOfMemory ends.entry) }
{
    match prepare(alloc, &ends) {
        Ok(prepared) => Ok(finish(rt, alloc, prepared, ends)),
        Err(_) => Err(SettleFault::OutOfMemory(ends)),
    }
}

/// Makes all that takes memory.
fn prepare<'q>(alloc: Global, ends: &Ends<'q>) -> Result<Prepared<'q>, AllocError>
    requires many { length ends.now.host.files.items ≤ most_files }
    requires files { All IsFile ends.now.host.files.items }
    ensures { IfOk result (IsPrepared ends.now) }
{
    let up = room_for(alloc, &ends.host.take, 1)?;
    let down = room_for(alloc, &ends.reader.take, 1)?;
    let events = room_for(alloc, &ends.term.take, 3)?;
    let left = Vec::with_capacity(alloc, 3)?;
    let stops = noted(Vec::with_capacity(alloc, 5)?, ends);
    let source = source_of(
        alloc,
        ends.host.files.as_slice(),
        ends.term.log.as_slice(),
        ends.host.host.taken(),
        stops.as_slice(),
    )?;
    Ok(Prepared {
        up,
        down,
        events,
        left,
        stops,
        source,
    })
}

/// Makes room for the audit of the line of a take, with so many posts.
fn room_for<'q, T: Drop>(
    alloc: Global,
    take: &Take<'q, T>,
    posts: usize,
) -> Result<LineRoom<'q, T>, AllocError>
    ensures { IfOk result (IsRoomFor take.now.line posts) }
{
    let audit = AuditRoom::new(alloc, take)?;
    let posts = Vec::with_capacity(alloc, posts)?;
    Ok(LineRoom { audit, posts })
}

/// Makes what the merged schedule of a session with these stops takes: only room for it where there is no stop. Where there is one, the
/// schedule is made, and run from a world of the files. Returns `None` if the schedule is no run.
#[tactic(auto, using(crate::proofs::SettlingLists::nothing_counted))]
fn source_of(
    alloc: Global,
    files: &[(Runes, Runes)],
    log: &[TermLog],
    taken: u64,
    stops: &[Stop],
) -> Result<Option<Source>, AllocError>
    requires many { length files.now ≤ most_files }
    requires files { All IsFile files.now }
    ensures { IfOk result (IsScheduled files.now log.now taken stops.now) }
{
    if stops.is_empty() {
        return match MergeRoom::new(alloc, log, taken) {
            Ok(room) => Ok(Some(Source::Sides(room))),
            Err(MergeFault::OutOfMemory) => Err(AllocError),
            Err(MergeFault::BadLog) => Ok(None),
        };
    }
    let schedule = match merge(alloc, log, taken) {
        Ok(schedule) => schedule,
        Err(MergeFault::OutOfMemory) => return Err(AllocError),
        Err(MergeFault::BadLog) => return Ok(None),
    };
    let Some(world) = world_after(alloc, files, schedule.as_slice())? else {
        return Ok(None);
    };
    Ok(Some(Source::Run(schedule, world)))
}

/// Returns the world where the events lead from the first world of the files, or `None` if they are no run.
#[tactic(auto, using(crate::proofs::SettlingRuns::stopped_first))]
fn world_after(
    alloc: Global,
    files: &[(Runes, Runes)],
    events: &[Event],
) -> Result<Option<World>, AllocError>
    requires many { length files.now ≤ most_files }
    requires files { All IsFile files.now }
    ensures { IfOk result (λ world. world ≡ run_of (new_world files.now) events.now) }
{
    let mut world = first_world(alloc, files)?;
    match world.run(events) {
        Ok(()) => Ok(Some(world)),
        Err(stop) => {
            drop(world);
            match stop.fault {
                StepFault::OutOfMemory => Err(AllocError),
                _ => Ok(None),
            }
        }
    }
}

/// Audits the three lines in the room that was made, and merges the log. A session's schedule always is a run, so there is a source.
#[tactic(auto, using(crate::proofs::SettlingLaws::source_kept))]
fn finish<'q, R: Wait>(rt: &R, alloc: Global, prepared: Prepared<'q>, ends: Ends<'q>) -> Settled
    requires ends { AreEnds ends }
    requires prepared { IsPrepared ends prepared }
    ensures { ComesTo ends.entry result }
{
    let Prepared {
        up,
        down,
        events,
        mut left,
        stops,
        source,
    } = prepared;
    let Ends {
        host,
        reader,
        term,
        keyboard,
        mouse,
    } = ends;
    left.push_reserved(audit_one(rt, up, host.take, term.post));
    left.push_reserved(audit_one(rt, down, reader.take, host.post));
    left.push_reserved(audit_three(
        rt,
        events,
        term.take,
        keyboard.post,
        mouse.post,
        reader.post,
    ));
    let Some(source) = source else { unreachable!() };
    let (schedule, world) = schedule_and_world(alloc, source, host.host, term.term, term.log);
    Settled {
        schedule,
        world,
        left,
        stops,
    }
}

/// Returns the schedule and the world of a session with these sides and this log: the log is merged and the sides are the world, or both
/// are those of the run.
fn schedule_and_world(
    alloc: Global,
    source: Source,
    host: Host,
    term: Terminal,
    log: Vec<TermLog>,
) -> (Vec<Event>, World)
    requires { IsReady host term log.items source }
    ensures schedule { result.0.items ≡ schedule_from source log.items host.taken }
    ensures world { result.1 ≡ world_from source host term }
{
    match source {
        Source::Sides(room) => {
            let schedule = merge_within(room, log, host.taken());
            (schedule, World::of_sides(alloc, host, term))
        }
        Source::Run(schedule, world) => {
            drop(host);
            drop(term);
            drop(log);
            (schedule, world)
        }
    }
}

/// Returns the stops of the workers that stopped, in the order of `Settled::stops`.
fn noted(mut stops: Vec<Stop>, ends: &Ends<'_>) -> Vec<Stop>
    requires none { stops.items ≡ [] }
    requires room { 5 ≤ vec_capacity stops }
    ensures { result.items ≡ stops_of ends.now }
{
    note(&mut stops, ends.keyboard.stop);
    note(&mut stops, ends.mouse.stop);
    note(&mut stops, ends.host.stop);
    note(&mut stops, ends.reader.stop);
    note(&mut stops, ends.term.stop);
    stops
}

/// Adds a stop, if there is one.
fn note(stops: &mut Vec<Stop>, stop: Option<Stop>)
    requires { length stops.old.items < vec_capacity stops.old }
    ensures noted { stops.new.items ≡ stops.old.items ++ as_list stop }
    ensures few { length stops.new.items ≤ length stops.old.items + 1 }
    ensures room { vec_capacity stops.new ≡ vec_capacity stops.old }
{
    if let Some(why) = stop {
        stops.push_reserved(why);
    }
}

/// Audits a line of one sender. Returns how many items are left in it.
fn audit_one<'q, T: Drop, R: Wait>(
    rt: &R,
    room: LineRoom<'q, T>,
    take: Take<'q, T>,
    post: Post<'q, T>,
) -> usize
    requires room { IsRoomFor take.line 1 room }
    requires senders { take.line.senders ≡ 1 }
    requires post { (post.line ≡ take.line) × (post.number ≡ 0) }
    ensures gives { Gives take.entry (post.entry ∷ []) }
    ensures left { result ≡ left_in take.entry (post.entry ∷ []) }
{
    let LineRoom { audit, mut posts } = room;
    posts.push_reserved(post);
    let found = audit_within(rt, audit, take, posts);
    count(found.left.as_slice())
}

/// Audits a line of three senders. Returns how many items are left in it.
fn audit_three<'q, T: Drop, R: Wait>(
    rt: &R,
    room: LineRoom<'q, T>,
    take: Take<'q, T>,
    first: Post<'q, T>,
    second: Post<'q, T>,
    third: Post<'q, T>,
) -> usize
    requires room { IsRoomFor take.line 3 room }
    requires senders { take.line.senders ≡ 3 }
    requires first { (first.line ≡ take.line) × (first.number ≡ 0) }
    requires second { (second.line ≡ take.line) × (second.number ≡ 1) }
    requires third { (third.line ≡ take.line) × (third.number ≡ 2) }
    ensures gives { Gives take.entry (first.entry ∷ second.entry ∷ third.entry ∷ []) }
    ensures left { result ≡ left_in take.entry (first.entry ∷ second.entry ∷ third.entry ∷ []) }
{
    let LineRoom { audit, mut posts } = room;
    posts.push_reserved(first);
    posts.push_reserved(second);
    posts.push_reserved(third);
    let found = audit_within(rt, audit, take, posts);
    count(found.left.as_slice())
}

/// Returns how many items the lists have together.
#[tactic(auto, using(std::proofs::lemmas::List::Sums::sum_by_more, std::proofs::lemmas::List::Sums::sum_by_more_le))]
fn count<T>(lists: &[Vec<T>]) -> usize
    requires { sum_by (λ list. length list.items) lists.now < 2 ^ 64 }
    ensures { result ≡ sum_by (λ list. length list.items) lists.now }
{
    let mut all = 0;
    for list in lists {
        all += list.len();
    }
    all
}
