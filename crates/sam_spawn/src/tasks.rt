//! Makes what the five workers begin with, but for the user's events. All their memory is had before a thread is started.
ghost use Rattle.std.specs.Prelude.{◌≡◌, ◌≤◌, All, IfOk, Ok, [], length};
ghost use Rattle.sam_runes.specs.Texts.{most_files};
ghost use Rattle.sam_ends.specs.Tasks.{AreReady};
ghost use Rattle.sam_queue.specs.Views.{new_post, new_take};
ghost use Rattle.sam_spawn.specs.Making.{AreNewSides, IsHostRole};
ghost use Rattle.sam_world.specs.Given.{IsFile};

use sam_ends::{
    HostTask, Input, KEYBOARD, Lines, MOUSE, ReaderTask, Starts, Tasks, TermTask, UserTask,
};
use sam_host::host::Host;
use sam_queue::{Line, Post, Start, Take};
use sam_runes::Runes;
use sam_world::given_files;
use std::alloc::{AllocError, Global};
use std::marker::PhantomData;

/// The ends of the three lines, with nothing put and nothing taken.
#[derive(Drop)]
struct LineSides<'q> {
    /// The terminal's post to the line up.
    up_post: Post<'q, Vec<u8>>,
    /// The host's take of the line up.
    up_take: Take<'q, Vec<u8>>,
    /// The host's post to the line down.
    down_post: Post<'q, Vec<u8>>,
    /// The host reader's take of the line down.
    down_take: Take<'q, Vec<u8>>,
    /// The keyboard's post to the line of events.
    keyboard: Post<'q, Input>,
    /// The mouse's post to the line of events.
    mouse: Post<'q, Input>,
    /// The host reader's post to the line of events.
    reader: Post<'q, Input>,
    /// The terminal's take of the line of events.
    events_take: Take<'q, Input>,
}

/// What the host begins with.
#[derive(Drop)]
struct HostRole {
    /// The names and texts of the host's files, by tags from 1.
    files: Vec<(Runes, Runes)>,
    /// A new host of these files.
    host: Host,
}

/// Makes the tasks of a session in which the user does nothing: the ends of the lines, and a new host of copies of these files, by tags
/// from 1. `starts` came with `lines`, and is spent. Its only error is out of memory.
pub fn idle_tasks<'q>(
    alloc: Global,
    lines: &'q Lines,
    starts: Starts,
    files: &[(Runes, Runes)],
) -> Result<Tasks<'q>, AllocError>
    requires together { starts ≡ lines.now }
    requires many { length files.now ≤ most_files }
    requires each { All IsFile files.now }
    ensures lines { IfOk result (λ s. s.lines.now ≡ lines.now) }
    ensures ready { IfOk result (AreReady lines.now) }
    ensures keys { IfOk result (λ s. s.keyboard.events.items ≡ []) }
    ensures clicks { IfOk result (λ s. s.mouse.events.items ≡ []) }
    ensures files { IfOk result (λ s. s.host.files.items ≡ files.now) }
{
    let sides = split_lines(alloc, lines, starts);
    let (sides, role) = both(sides, host_role(alloc, files))?;
    Ok(tasks_of(alloc, lines, sides, role))
}

/// Pairs two results. With it a caller has one exit, at which it holds nothing.
fn both<A: Drop, B: Drop>(
    first: Result<A, AllocError>,
    second: Result<B, AllocError>,
) -> Result<(A, B), AllocError>
    ensures { IfOk result (λ p. (first ≡ Ok p.0) × (second ≡ Ok p.1)) }
{
    Ok((first?, second?))
}

/// Gives each worker its ends of the lines, and the host what it begins with.
fn tasks_of<'q>(alloc: Global, lines: &'q Lines, sides: LineSides<'q>, role: HostRole) -> Tasks<'q>
    requires sides { AreNewSides lines.now sides }
    requires host { IsHostRole role }
    ensures lines { result.lines.now ≡ lines.now }
    ensures ready { AreReady lines.now result }
    ensures keys { result.keyboard.events.items ≡ [] }
    ensures clicks { result.mouse.events.items ≡ [] }
    ensures files { result.host.files.items ≡ role.files.items }
{
    Tasks {
        lines,
        keyboard: UserTask {
            worker: KEYBOARD,
            post: sides.keyboard,
            events: Vec::new(alloc),
            held: PhantomData,
        },
        mouse: UserTask {
            worker: MOUSE,
            post: sides.mouse,
            events: Vec::new(alloc),
            held: PhantomData,
        },
        host: HostTask {
            take: sides.up_take,
            post: sides.down_post,
            files: role.files,
            host: role.host,
            held: PhantomData,
        },
        reader: ReaderTask {
            take: sides.down_take,
            post: sides.reader,
            held: PhantomData,
        },
        term: TermTask {
            take: sides.events_take,
            post: sides.up_post,
            held: PhantomData,
        },
    }
}

/// Makes the ends of the three lines, with nothing put and nothing taken.
fn split_lines<'q>(
    alloc: Global,
    lines: &'q Lines,
    starts: Starts,
) -> Result<LineSides<'q>, AllocError>
    requires together { starts ≡ lines.now }
    ensures { IfOk result (AreNewSides lines.now) }
{
    let (up, down, events) = starts.parts();
    let up = split_in_one(alloc, up, lines.up());
    let down = split_in_one(alloc, down, lines.down());
    let (bytes, events) = both(
        both(up, down),
        split_in_three(alloc, events, lines.events()),
    )?;
    let ((up_post, up_take), (down_post, down_take)) = bytes;
    let (keyboard, mouse, reader, events_take) = events;
    // The terminal waits for events alone, also while the line up has no room for its bytes.
    let up_take = up_take.waking(lines.events());
    Ok(LineSides {
        up_post,
        up_take,
        down_post,
        down_take,
        keyboard,
        mouse,
        reader,
        events_take,
    })
}

/// Makes the post and the take of a line of one sender.
fn split_in_one<'q, T>(
    alloc: Global,
    start: Start<T>,
    line: &'q Line<T>,
) -> Result<(Post<'q, T>, Take<'q, T>), AllocError>
    requires together { start ≡ line.now }
    requires one { line.now.senders ≡ 1 }
    ensures post { IfOk result (λ r. r.0 ≡ new_post line.now 0) }
    ensures take { IfOk result (λ r. r.1 ≡ new_take line.now) }
{
    let Ok((mut posts, take)) = start.split(alloc, line) else {
        return Err(AllocError);
    };
    let Some(post) = posts.pop() else {
        unreachable!();
    };
    Ok((post, take))
}

/// Makes the posts, in the order of their numbers, and the take of a line of three senders.
fn split_in_three<'q, T>(
    alloc: Global,
    start: Start<T>,
    line: &'q Line<T>,
) -> Result<(Post<'q, T>, Post<'q, T>, Post<'q, T>, Take<'q, T>), AllocError>
    requires together { start ≡ line.now }
    requires three { line.now.senders ≡ 3 }
    ensures first { IfOk result (λ r. r.0 ≡ new_post line.now 0) }
    ensures second { IfOk result (λ r. r.1 ≡ new_post line.now 1) }
    ensures third { IfOk result (λ r. r.2 ≡ new_post line.now 2) }
    ensures take { IfOk result (λ r. r.3 ≡ new_take line.now) }
{
    let Ok((mut posts, take)) = start.split(alloc, line) else {
        return Err(AllocError);
    };
    let Some(third) = posts.pop() else {
        unreachable!();
    };
    let Some(second) = posts.pop() else {
        unreachable!();
    };
    let Some(first) = posts.pop() else {
        unreachable!();
    };
    Ok((first, second, third, take))
}

/// Copies the names and texts of the files, and makes the host that begins with them.
#[tactic(auto, using(sam_world::proofs::GivenLaws::given_many))]
fn host_role(alloc: Global, names_and_texts: &[(Runes, Runes)]) -> Result<HostRole, AllocError>
    requires many { length names_and_texts.now ≤ most_files }
    requires each { All IsFile names_and_texts.now }
    ensures files { IfOk result (λ r. r.files.items ≡ names_and_texts.now) }
    ensures host { IfOk result IsHostRole }
{
    let files = copied_files(alloc, names_and_texts)?;
    let given = given_files(alloc, names_and_texts)?;
    let Ok(host) = Host::new(alloc, given) else {
        return Err(AllocError);
    };
    Ok(HostRole { files, host })
}

/// Copies names and texts.
fn copied_files(alloc: Global, files: &[(Runes, Runes)]) -> Result<Vec<(Runes, Runes)>, AllocError>
    ensures { IfOk result (λ copies. copies.items ≡ files.now) }
{
    let mut copies = Vec::new(alloc);
    for file in files {
        copies.push((file.0.copy(alloc)?, file.1.copy(alloc)?))?;
    }
    Ok(copies)
}
