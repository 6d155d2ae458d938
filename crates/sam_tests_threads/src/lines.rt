//! The lines between threads: what their ends answer one by one, beside a plain list, and from three threads at once.

ghost use Rattle.std.specs.Prelude.{◌<◌, ◌≤◌};

use sam_queue::{Audit, Got, Line, OutOfMemory, Post, Refused, Take, audit};
use sam_test_support::told_of;
use std::alloc::{AllocError, Global};
use std::sync::Wait;
use std::thread;
use std::thread::Threads;

/// Lends the ends of a new line to the body. Then a test has one exit, and not one for each thing that it asserts.
pub(crate) fn tried<A, F: FnOnce(&mut [Post<'_, u32>], &mut Take<'_, u32>) -> A>(
    alloc: Global,
    capacity: usize,
    senders: usize,
    body: F,
) -> Result<A, OutOfMemory>
    requires body { F.IsAlwaysCallable body }
    requires room { 0 < capacity }
    requires some { 0 < senders }
    requires few { senders ≤ 3 }
{
    let (line, start) = Line::<u32>::new(alloc, capacity, senders)?;
    let Ok((mut posts, mut take)) = start.split(alloc, &line) else {
        return Err(OutOfMemory);
    };
    Ok(body(&mut posts, &mut take))
}

/// A call on an end of a line, with its answer, where a sender goes by its number; or how many senders there are.
#[derive(Drop)]
enum Step {
    Senders(usize),
    TrySend(usize, u32, Result<(), Refused<u32>>),
    Send(usize, u32, Result<(), u32>),
    TryClose(usize, bool),
    TryRecv(Got<u32>),
    Recv(Got<u32>),
}

/// Whether the end answers so. A sender that there is none of answers nothing.
fn is_right(
    rt: &impl Wait,
    posts: &mut [Post<'_, u32>],
    take: &mut Take<'_, u32>,
    step: &Step,
) -> bool {
    match step {
        Step::Senders(count) => posts.len() == *count,
        Step::TrySend(sender, item, answer) => {
            *sender < posts.len() && posts[*sender].try_send(rt, *item) == *answer
        }
        Step::Send(sender, item, answer) => {
            *sender < posts.len() && posts[*sender].send(rt, *item) == *answer
        }
        Step::TryClose(sender, answer) => {
            *sender < posts.len() && posts[*sender].try_close(rt) == *answer
        }
        Step::TryRecv(answer) => take.try_recv(rt) == *answer,
        Step::Recv(answer) => take.recv(rt) == *answer,
    }
}

/// The number of the first step that an end answers otherwise, counted from 0.
fn first_wrong(
    rt: &impl Wait,
    posts: &mut [Post<'_, u32>],
    take: &mut Take<'_, u32>,
    steps: &[Step],
) -> Option<usize> {
    for (at, step) in steps.iter().enumerate() {
        if !is_right(rt, posts, take, step) {
            return Some(at);
        }
    }
    None
}

/// The same of the ends of a new line.
fn first_wrong_of_new(
    rt: &impl Wait,
    alloc: Global,
    capacity: usize,
    senders: usize,
    steps: &[Step],
) -> Result<Option<usize>, OutOfMemory>
    requires room { 0 < capacity }
    requires some { 0 < senders }
    requires few { senders ≤ 3 }
{
    tried(
        alloc,
        capacity,
        senders,
        |posts, take| first_wrong(rt, posts, take, steps),
    )
}

const ONE_SLOT: [Step; 8] = [
    Step::Senders(1),
    Step::TrySend(0, 7, Ok(())),
    Step::TrySend(0, 8, Err(Refused::Full(8))),
    Step::TryRecv(Got::Item(0, 7)),
    Step::TrySend(0, 8, Ok(())),
    Step::TryClose(0, false),
    Step::TryRecv(Got::Item(0, 8)),
    Step::TryRecv(Got::Empty),
];

const CLOSED: [Step; 7] = [
    Step::Senders(1),
    Step::TryClose(0, true),
    Step::Send(0, 9, Err(9)),
    Step::TrySend(0, 9, Err(Refused::Closed(9))),
    Step::TryRecv(Got::Left(0)),
    Step::TryRecv(Got::Ended),
    Step::Recv(Got::Ended),
];

const TWO_SLOTS: [Step; 9] = [
    Step::Senders(3),
    Step::TrySend(0, 1, Ok(())),
    Step::TryClose(1, true),
    Step::TrySend(2, 5, Err(Refused::Full(5))),
    Step::TryRecv(Got::Item(0, 1)),
    Step::TrySend(2, 5, Ok(())),
    Step::TryRecv(Got::Left(1)),
    Step::TryRecv(Got::Item(2, 5)),
    Step::TryRecv(Got::Empty),
];

const LEAVING: [Step; 10] = [
    Step::Senders(3),
    Step::TryClose(0, true),
    Step::TryClose(2, true),
    Step::TryClose(1, false),
    Step::TryRecv(Got::Left(0)),
    Step::TryClose(1, true),
    Step::TryRecv(Got::Left(2)),
    Step::TryRecv(Got::Left(1)),
    Step::TryRecv(Got::Ended),
    Step::TryRecv(Got::Ended),
];

#[test]
fn ends_answer_in_turn(rt: HostRuntime) {
    let alloc = rt.alloc();
    let wrong = [
        first_wrong_of_new(&rt, alloc, 1, 1, &ONE_SLOT),
        first_wrong_of_new(&rt, alloc, 1, 1, &CLOSED),
        first_wrong_of_new(&rt, alloc, 2, 3, &TWO_SLOTS),
        first_wrong_of_new(&rt, alloc, 2, 3, &LEAVING),
    ];
    assert_eq!(rt; wrong, [Ok(None); 4]);
}

/// How many senders an audit lists, what the first has left, and whether it has closed.
fn told_of_audit(audit: &Audit<u32>) -> (usize, Option<bool>, bool) {
    let is_seven = match audit.left.first() {
        Some(items) => Some(items.as_slice() == [7].as_slice()),
        None => None,
    };
    let is_open = audit.closed.as_slice() == [false].as_slice();
    (audit.left.len(), is_seven, is_open)
}

/// What two sends and a receive answer, and what an audit after them finds.
fn audited(
    rt: &impl Wait,
    alloc: Global,
) -> Result<([bool; 3], Option<(usize, Option<bool>, bool)>), OutOfMemory> {
    let (line, start) = Line::<u32>::new(alloc, 2, 1)?;
    let Ok((mut posts, mut take)) = start.split(alloc, &line) else {
        return Err(OutOfMemory);
    };
    let answers = [
        posts[0].try_send(rt, 5) == Ok(()),
        posts[0].try_send(rt, 7) == Ok(()),
        take.recv(rt) == Got::Item(0, 5),
    ];
    let told = told_of(audit(rt, alloc, take, posts), |audited| match audited {
        Ok(audit) => Some(told_of_audit(audit)),
        Err(_) => None,
    });
    Ok((answers, told))
}

#[test]
fn an_audit_gives_what_is_left(rt: HostRuntime) {
    let told = audited(&rt, rt.alloc());
    assert_eq!(rt; told, Ok(([true; 3], Some((1, Some(true), true)))));
}

/// A line of which one thread has all ends, as a plain list: all that was put, and how much of it was taken. Its calls answer as the
/// ends of the line have to.
#[derive(Drop)]
struct Plain {
    put: Vec<(usize, Option<u32>)>,
    taken: usize,
    capacity: usize,
    senders: usize,
    closed: [bool; 3],
    left: usize,
}

impl Plain {
    fn is_full(&self) -> bool {
        self.put.len().saturating_sub(self.taken) >= self.capacity
    }

    fn try_send(&mut self, sender: usize, item: u32) -> Result<Result<(), Refused<u32>>, AllocError>
        requires { sender < 3 }
    {
        if self.closed[sender] {
            return Ok(Err(Refused::Closed(item)));
        }
        if self.is_full() {
            return Ok(Err(Refused::Full(item)));
        }
        self.put.push((sender, Some(item)))?;
        Ok(Ok(()))
    }

    fn try_close(&mut self, sender: usize) -> Result<bool, AllocError>
        requires { sender < 3 }
    {
        if self.closed[sender] {
            return Ok(true);
        }
        if self.is_full() {
            return Ok(false);
        }
        self.put.push((sender, None))?;
        self.closed[sender] = true;
        Ok(true)
    }

    fn try_recv(&mut self) -> Got<u32> {
        let Some((sender, load)) = self.put.get(self.taken).copied() else {
            return if self.left == self.senders {
                Got::Ended
            } else {
                Got::Empty
            };
        };
        self.taken = self.taken.saturating_add(1);
        let Some(item) = load else {
            self.left = self.left.saturating_add(1);
            return Got::Left(sender);
        };
        Got::Item(sender, item)
    }
}

/// How many calls are made on each line. They close each sender in the end.
const CALLS: u32 = 10_000;

/// Makes one call, picked by a number, and returns whether it answers as the plain list does.
fn agrees(
    rt: &impl Wait,
    posts: &mut [Post<'_, u32>],
    take: &mut Take<'_, u32>,
    plain: &mut Plain,
    pick: u32,
) -> Result<bool, AllocError> {
    let sender = (pick % 3) as usize;
    let kind = pick / 3 % 1_000;
    if kind < 450 {
        return Ok(take.try_recv(rt) == plain.try_recv());
    }
    let Some(post) = posts.get_mut(sender) else {
        return Ok(true);
    };
    if kind < 996 {
        return Ok(post.try_send(rt, pick) == plain.try_send(sender, pick)?);
    }
    Ok(post.try_close(rt) == plain.try_close(sender)?)
}

/// The number of the first call that answers otherwise than the plain list, counted from 0. The calls are the same in each run.
fn first_other(
    rt: &impl Wait,
    posts: &mut [Post<'_, u32>],
    take: &mut Take<'_, u32>,
    plain: &mut Plain,
) -> Result<Option<u32>, AllocError> {
    let mut random = 1u64;
    for call in 0..CALLS {
        random = random
            .wrapping_mul(6_364_136_223_846_793_005)
            .wrapping_add(1_442_695_040_888_963_407);
        let pick = (random >> 33) as u32;
        if !agrees(rt, posts, take, plain, pick)? {
            return Ok(Some(call));
        }
    }
    Ok(None)
}

/// The same of the ends of a new line, and how many senders have left in the end.
fn first_other_of_new(
    rt: &impl Wait,
    alloc: Global,
    capacity: usize,
    senders: usize,
) -> Result<Result<(Option<u32>, usize), AllocError>, OutOfMemory>
    requires room { 0 < capacity }
    requires some { 0 < senders }
    requires few { senders ≤ 3 }
{
    tried(alloc, capacity, senders, |posts, take| {
        let mut plain = Plain {
            put: Vec::new(alloc),
            taken: 0,
            capacity,
            senders,
            closed: [false; 3],
            left: 0,
        };
        let other = first_other(rt, posts, take, &mut plain)?;
        Ok((other, plain.left))
    })
}

#[test]
fn each_answer_in_one_thread_is_that_of_a_list(rt: HostRuntime) {
    for senders in 1..4 {
        for capacity in 1..6 {
            let got = first_other_of_new(&rt, rt.alloc(), capacity, senders);
            assert_eq!(rt;
                got,
                Ok(Ok((None, senders))),
                "{senders} senders, {capacity} entries"
            );
        }
    }
}

const ITEMS: u32 = 10_000;

// Sends the numbers below `ITEMS`, and closes.
fn send_all(rt: &impl Wait, post: &mut Post<'_, u32>) {
    for item in 0..ITEMS {
        let _ = post.send(rt, item);
    }
    post.close(rt);
}

// Takes until all senders have left. How many items came, whether those of each sender came in order, and how many left.
fn take_all(rt: &impl Wait, take: &mut Take<'_, u32>) -> (u32, bool, u32) {
    let (mut count, mut in_order, mut left) = (0u32, true, 0u32);
    let mut next = [0u32; 3];
    for _ in rt.forever() {
        match take.recv(rt) {
            Got::Item(sender, item) => {
                count = count.wrapping_add(1);
                if sender >= 3 || item != next[sender] {
                    in_order = false;
                } else {
                    next[sender] = next[sender].wrapping_add(1);
                }
            }
            Got::Left(_) => left = left.wrapping_add(1),
            Got::Ended | Got::Empty => break,
        }
    }
    (count, in_order, left)
}

// Three threads send, and a fourth takes.
fn join_four(
    rt: &(impl Wait + Threads + Sync),
    first: &mut Post<'_, u32>,
    second: &mut Post<'_, u32>,
    third: &mut Post<'_, u32>,
    take: &mut Take<'_, u32>,
) -> (u32, bool, u32) {
    let (_, (_, (_, got))) = thread::join(
        rt,
        || send_all(rt, first),
        || {
            thread::join(
                rt,
                || send_all(rt, second),
                || thread::join(rt, || send_all(rt, third), || take_all(rt, take)),
            )
        },
    );
    got
}

// What three threads that send, and a fourth that takes, come to over a new line, where it has three posts.
fn three_threads_send(
    rt: &(impl Wait + Threads + Sync),
    alloc: Global,
    capacity: usize,
) -> Result<Option<(u32, bool, u32)>, OutOfMemory>
    requires { 0 < capacity }
{
    tried(alloc, capacity, 3, |posts, take| {
        let (first, rest) = posts.split_first_mut()?;
        let (second, rest) = rest.split_first_mut()?;
        let (third, _) = rest.split_first_mut()?;
        Some(join_four(rt, first, second, third, take))
    })
}

#[test]
fn three_threads_send_through_one_slot_and_through_many(rt: HostRuntime) {
    for capacity in [1, 64] {
        let got = three_threads_send(&rt, rt.alloc(), capacity);
        assert_eq!(rt; got, Ok(Some((3 * ITEMS, true, 3))), "{capacity} entries");
    }
}
