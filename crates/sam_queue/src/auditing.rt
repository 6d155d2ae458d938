//! Audits: what is left in a line once all its ends are back in one hand.
ghost use Rattle.std.specs.Prelude.{◌≡◌, ◌^◌, ◌<◌, ◌≤◌, [], length, map, All, IfOk, IfErr, vec_capacity};
ghost use Rattle.crossbeam_queue.specs.Passes.{view, IsSamePass};
ghost use Rattle.sam_queue.specs.History.{IsEnded};
ghost use Rattle.sam_queue.specs.Audits.{AllAccounted, HasHistory, ArePostsOf};
ghost use Rattle.sam_queue.specs.Ports.{sent_of, HasNoPosts, with_posts, HasAllPosts, IsRest};
ghost use Rattle.sam_queue.specs.Sorts.{IsRoom, IsSorted};
ghost use Rattle.sam_queue.specs.Views.{sizes_of};

use crate::account::Audit;
use crate::line::Line;
use crate::post::Post;
use crate::rule::{Entry, Gather, Port, Taking};
use crate::take::Take;
use crossbeam_queue::Pass;
use std::alloc::{AllocError, Global};
use std::marker::Model;
use std::sync::Wait;

/// All memory of an audit of a line. It is had before the audit takes anything, since an entry cannot be put back. One room serves one
/// audit, by [`audit_within`]. Contracts see the sizes of the lines that it serves.
#[derive(Drop)]
pub struct AuditRoom<T> {
    /// Room for all entries that a line can hold. It is empty.
    entries: Vec<Entry<T>>,
    /// For each sender an empty list, with room for all items that a line can hold.
    left: Vec<Vec<T>>,
    /// Room for a flag of each sender. It is empty.
    closed: Vec<bool>,
    /// The number of senders of the lines that it serves.
    senders: usize,
    /// The capacity of the lines that it serves, in entries.
    capacity: usize,
}

impl<T> Model for AuditRoom<T> {
    ghost use Rattle.std.specs.Prelude.{◌≡◌, ◌≤◌, [], length, vec_capacity};
    ghost use Rattle.sam_queue.specs.Views.{LineSizes};
    ghost use Rattle.sam_queue.specs.Sorts.{IsRoom};

    ghost Value = { LineSizes };

    ghost view = { λ r. record { senders = r.senders; capacity = r.capacity } };

    ghost invariant = { λ r. (r.entries.items ≡ []) × (r.capacity ≤ vec_capacity r.entries)
        × (length r.left.items ≡ r.senders) × IsRoom r.capacity r.left.items
        × (r.closed.items ≡ []) × (r.senders ≤ vec_capacity r.closed) };
}

impl<T: Drop> AuditRoom<T> {
    /// Makes room for an audit of the take's line, or of any other line with as many senders and the same capacity. The only error is
    /// out of memory.
    pub fn new(alloc: Global, take: &Take<'_, T>) -> Result<AuditRoom<T>, AllocError>
        ensures sizes { IfOk result (λ r. r ≡ sizes_of take.now.line) }
        ensures bound { IfOk result (λ r. r.capacity < 2 ^ 64) }
    {
        let line = take.line;
        make_room(alloc, line.queue.capacity(), line.senders)
    }
}

/// Takes all ends of one line, the posts in the order of their numbers, and returns what is left of each sender and which have
/// closed. Since no end is elsewhere, what is left is all that was put and not taken; where the take had ended, that is
/// nothing. The only error is out of memory. It comes before anything is taken: the ends come back as they were, and may be
/// audited again.
pub fn audit<'q, T: Drop, R: Wait>(
    rt: &R,
    alloc: Global,
    take: Take<'q, T>,
    posts: Vec<Post<'q, T>>,
) -> Result<Audit<T>, (Take<'q, T>, Vec<Post<'q, T>>)>
    requires { ArePostsOf take.line posts.items }
    ensures left { IfOk result (λ a. AllAccounted take.entry.taken posts.entry.items a.left.items) }
    ensures closed { IfOk result (λ a. a.closed.items ≡ map (λ p. p.closed) posts.entry.items) }
    ensures ended { IfOk result (λ a. IsEnded take.entry.line.senders take.entry.taken → All (λ v. v.items ≡ []) a.left.items) }
    ensures history { IfOk result (λ a. HasHistory take.entry posts.entry.items a.left.items) }
    ensures refused { IfErr result (λ e. (e.0 ≡ take.entry) × (e.1 ≡ posts.entry)) }
{
    match AuditRoom::new(alloc, &take) {
        Ok(room) => Ok(audit_within(rt, room, take, posts)),
        Err(_) => Err((take, posts)),
    }
}

/// Does the same as [`audit`], in room that was made for a line of these sizes. So it is never refused.
pub fn audit_within<'q, T: Drop, R: Wait>(
    rt: &R,
    room: AuditRoom<T>,
    take: Take<'q, T>,
    posts: Vec<Post<'q, T>>,
) -> Audit<T>
    requires room { room ≡ sizes_of take.line }
    requires posts { ArePostsOf take.line posts.items }
    ensures left { AllAccounted take.entry.taken posts.entry.items result.left.items }
    ensures closed { result.closed.items ≡ map (λ p. p.closed) posts.entry.items }
    ensures ended { IsEnded take.entry.line.senders take.entry.taken → All (λ v. v.items ≡ []) result.left.items }
    ensures history { HasHistory take.entry posts.entry.items result.left.items }
{
    let Take {
        line,
        mut pass,
        left: _,
        woken: _,
        unrung: _,
    } = take;
    let AuditRoom {
        entries,
        mut left,
        mut closed,
        senders: _,
        capacity: _,
    } = room;
    gather(line, &mut pass, posts, &mut closed);
    let entries = drain(rt, line, &mut pass, entries);
    sort_out(entries, &mut left);
    Audit { left, closed }
}

// Makes room for what a line of these sizes can hold, once as entries and once more for each sender.
fn make_room<T: Drop>(
    alloc: Global,
    capacity: usize,
    senders: usize,
) -> Result<AuditRoom<T>, AllocError>
    ensures { IfOk result (λ r. r ≡ record { senders = senders; capacity = capacity }) }
{
    let entries = Vec::with_capacity(alloc, capacity)?;
    let closed = Vec::with_capacity(alloc, senders)?;
    let mut left = Vec::with_capacity(alloc, senders)?;
    for _ in 0..senders {
        left.push_reserved(Vec::with_capacity(alloc, capacity)?);
    }
    Ok(AuditRoom {
        entries,
        left,
        closed,
        senders,
        capacity,
    })
}

// Takes the posts in, and notes which have closed. From then on nobody can put more.
fn gather<'q, T: Drop>(
    line: &Line<T>,
    pass: &mut Pass<Entry<T>, Port<T>>,
    posts: Vec<Post<'q, T>>,
    closed: &mut Vec<bool>,
)
    requires queue { (pass.old.table_id ≡ line.now.id) × (pass.old.me.1 ≡ []) }
    requires knows { HasNoPosts line.now.senders (view pass.old) }
    requires posts { ArePostsOf line.now posts.items }
    requires room { length posts.items ≤ vec_capacity closed.old }
    requires none { closed.old.items ≡ [] }
    ensures queue { IsSamePass pass.old pass.new }
    ensures knows { view pass.new ≡ with_posts (view pass.old) (map sent_of posts.entry.items) }
    ensures closed { closed.new.items ≡ map (λ p. p.closed) posts.entry.items }
{
    for post in posts {
        let Post {
            line: _,
            pass: theirs,
            number: _,
            closed: shut,
        } = post;
        line.queue.absorb::<Gather>(pass, theirs);
        closed.push_reserved(shut);
    }
}

// Takes all that the line holds, in room that was made. Nobody can put more by now, so its length, once read, stays right.
fn drain<T, R: Wait>(
    rt: &R,
    line: &Line<T>,
    pass: &mut Pass<Entry<T>, Port<T>>,
    mut entries: Vec<Entry<T>>,
) -> Vec<Entry<T>>
    requires queue { (pass.old.table_id ≡ line.now.id) × (pass.old.me.1 ≡ []) }
    requires knows { HasAllPosts (view pass.old) }
    requires room { line.now.capacity ≤ vec_capacity entries }
    requires none { entries.items ≡ [] }
    ensures all { IsRest (view pass.old) result.items }
    ensures few { length result.items ≤ line.now.capacity }
{
    let held = line.queue.len_as::<Taking, R>(rt, pass);
    for _ in 0..held {
        match line.queue.pop_as::<Taking, R>(rt, pass) {
            Some(entry) => entries.push_reserved(entry),
            None => unreachable!(),
        }
    }
    line.queue.learn_as::<Taking>(pass);
    entries
}

// Moves each item to the list of its sender, in order, and drops the end marks.
fn sort_out<T: Drop>(entries: Vec<Entry<T>>, left: &mut Vec<Vec<T>>)
    requires senders { All (λ e. e.sender < length left.old.items) entries.items }
    requires room { IsRoom (length entries.items) left.old.items }
    ensures many { length left.new.items ≡ length left.old.items }
    ensures sorted { IsSorted entries.items left.new.items }
{
    for entry in entries {
        let Entry { sender, load } = entry;
        if let Some(item) = load {
            left[sender].push_reserved(item);
        }
    }
}
