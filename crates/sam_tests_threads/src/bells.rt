//! How the ends of a line wake each other. A sleep also ends by itself, so a test measures how soon it ended, and asks that most of
//! its wakes came sooner than a sleep ends. The others are left to a machine that has more to do. `tests/core/wakeups` runs these tests
//! too, and looks at the system calls in place of the time.

ghost use Rattle.std.specs.Prelude.{◌<◌};

use crate::lines::tried;
use sam_queue::{Backoff, Line, OutOfMemory, Post, Take};
use std::alloc::Global;
use std::sync::Wait;
use std::sync::atomic::{AtomicU64, Ordering};
use std::thread::Threads;
use std::time::{Clock, Duration, Instant};
use std::{io, thread};

/// How often an end is woken.
const WAKES: u64 = 30;

/// How many of these wakes have to come soon.
const MANY: u64 = 18;

/// Most rounds of wakes of an end that has just begun to sleep. One in which many come soon is enough, since a busy machine can spoil a
/// round. Where nothing wakes that end, hardly any wake of any round comes soon.
const ROUNDS: u32 = 3;

/// Soon, in microseconds: a quarter of the longest sleep of an end.
const SOON: u64 = 6_400;

/// After so many waits each further sleep is as long as the longest; somewhat fewer would do.
const DEEP: u64 = 212;

/// Microseconds between two looks of a test at a count.
const GLANCE: u64 = 100;

/// Looks at a count that doesn't move, before a test gives up: ten seconds or more.
const GLANCES: u32 = 100_000;

/// How many wakes of a round came soon, if it could be made.
type Round = Result<Option<io::Result<u64>>, OutOfMemory>;

// Whether many wakes came soon.
fn are_many(soon: &Round) -> bool {
    matches!(soon, Ok(Some(Ok(MANY..))))
}

// The first round in which many wakes came soon, or else the last.
fn best_of<F: FnMut() -> Round>(mut round: F) -> Round
    requires { F.IsAlwaysCallable round }
{
    for _ in 1..ROUNDS {
        let soon = round();
        if are_many(&soon) {
            return soon;
        }
    }
    round()
}

/// What an end that waits and the thread that wakes it share.
#[derive(Drop)]
struct Watch {
    /// How often the end has tried, or sent.
    tries: AtomicU64,
    /// Not 0 once the end need not wait any longer.
    over: AtomicU64,
}

impl Watch {
    fn new() -> Watch {
        Watch {
            tries: AtomicU64::new(0),
            over: AtomicU64::new(0),
        }
    }

    fn tries(&self) -> u64 {
        self.tries.load(Ordering::SeqCst)
    }

    fn count(&self) {
        self.tries.fetch_add(1, Ordering::SeqCst);
    }

    /// Waits until the end has tried so often, and returns whether that was soon.
    fn until<R: Clock>(&self, rt: &R, tries: u64) -> io::Result<bool> {
        let begin = Instant::now(rt)?;
        for _ in 0..GLANCES {
            if self.tries() >= tries {
                break;
            }
            thread::sleep(rt, Duration::from_micros(GLANCE));
        }
        Ok(begin.elapsed(rt)? < Duration::from_micros(SOON))
    }
}

// Tries a line with a wait after each try, until the watch is over. Its later waits are as long as can be.
fn try_on<R: Wait>(rt: &R, take: &mut Take<'_, u32>, watch: &Watch) {
    let mut backoff = Backoff::new();
    for _ in rt.forever() {
        if watch.over.load(Ordering::SeqCst) > 0 {
            return;
        }
        let _ = take.try_recv(rt);
        watch.count();
        take.wait(rt, &mut backoff);
    }
    unreachable!()
}

// Puts an item each time that the end has just begun to sleep, and counts how often that woke it soon.
fn wake_by_items<R: Wait + Clock>(
    rt: &R,
    post: &mut Post<'_, u32>,
    watch: &Watch,
) -> io::Result<u64> {
    watch.until(rt, DEEP)?;
    let mut soon = 0u64;
    for _ in 0..WAKES {
        let next = watch.tries().saturating_add(1);
        watch.until(rt, next)?;
        let _ = post.try_send(rt, 7);
        if watch.until(rt, next.saturating_add(1))? {
            soon = soon.wrapping_add(1);
        }
    }
    Ok(soon)
}

// An end that waits, and a thread that wakes it by items.
fn join_by_items(
    rt: &(impl Wait + Threads + Clock + Sync),
    post: &mut Post<'_, u32>,
    take: &mut Take<'_, u32>,
    watch: &Watch,
) -> io::Result<u64> {
    let (_, soon) = thread::join(
        rt,
        || try_on(rt, take, watch),
        || {
            let soon = wake_by_items(rt, post, watch);
            watch.over.store(1, Ordering::SeqCst);
            soon
        },
    );
    soon
}

// How often an item woke the take of a new line soon, where it has one post.
fn woken_by_items(rt: &(impl Wait + Threads + Clock + Sync), alloc: Global) -> Round {
    let watch = Watch::new();
    tried(alloc, 1, 1, |posts, take| {
        let [post] = posts else {
            return None;
        };
        Some(join_by_items(rt, post, take, &watch))
    })
}

#[test]
fn what_is_put_wakes_the_taker(rt: HostRuntime) {
    let soon = best_of(|| woken_by_items(&rt, rt.alloc()));
    assert!(rt; are_many(&soon), "{soon:?}");
}

// Takes an entry of another line each time that the end has just begun to sleep, and counts how often that woke it soon.
fn wake_from_afar<R: Wait + Clock>(
    rt: &R,
    post: &mut Post<'_, u32>,
    take: &mut Take<'_, u32>,
    watch: &Watch,
) -> io::Result<u64> {
    watch.until(rt, DEEP)?;
    let mut soon = 0u64;
    for _ in 0..WAKES {
        let _ = post.try_send(rt, 7);
        let next = watch.tries().saturating_add(1);
        watch.until(rt, next)?;
        let _ = take.try_recv(rt);
        if watch.until(rt, next.saturating_add(1))? {
            soon = soon.wrapping_add(1);
        }
    }
    Ok(soon)
}

// An end that waits, and a thread that wakes it by what it takes from another line.
fn join_from_afar(
    rt: &(impl Wait + Threads + Clock + Sync),
    post: &mut Post<'_, u32>,
    take: &mut Take<'_, u32>,
    waits: &mut Take<'_, u32>,
    watch: &Watch,
) -> io::Result<u64> {
    let (_, soon) = thread::join(
        rt,
        || try_on(rt, waits, watch),
        || {
            let soon = wake_from_afar(rt, post, take, watch);
            watch.over.store(1, Ordering::SeqCst);
            soon
        },
    );
    soon
}

// How often what was taken from a line woke the take of another line soon.
fn woken_from_afar(rt: &(impl Wait + Threads + Clock + Sync), alloc: Global) -> Round {
    let watch = Watch::new();
    let (line, start) = Line::<u32>::new(alloc, 1, 1)?;
    let (other, other_start) = Line::<u32>::new(alloc, 1, 1)?;
    let (Ok((mut posts, take)), Ok((_, mut waits))) = (
        start.split(alloc, &line),
        other_start.split(alloc, &other),
    ) else {
        return Err(OutOfMemory);
    };
    let mut take = take.waking(&other);
    let Some(post) = posts.first_mut() else {
        return Ok(None);
    };
    Ok(Some(join_from_afar(rt, post, &mut take, &mut waits, &watch)))
}

#[test]
fn what_is_taken_wakes_the_taker_of_another_line(rt: HostRuntime) {
    let soon = best_of(|| woken_from_afar(&rt, rt.alloc()));
    assert!(rt; are_many(&soon), "{soon:?}");
}

/// Milliseconds. Longer than an end pauses, and than its first sleeps take.
const WHILE: u64 = 60;

/// How room is made in a line whose sender waits for it.
#[derive(Clone, Copy)]
struct Making {
    /// How many entries the line holds.
    room: usize,
    /// How many of these are taken at once each time.
    taken: u64,
    /// Whether the take then waits for more.
    waits: bool,
}

/// Room for one entry, which is taken.
const ONE: Making = Making {
    room: 1,
    taken: 1,
    waits: false,
};

/// Room for some entries, half of which are taken.
const HALF: Making = Making {
    room: 8,
    taken: 4,
    waits: false,
};

/// Room for some entries, of which one is taken.
const ONE_OF_EIGHT: Making = Making {
    room: 8,
    taken: 1,
    waits: false,
};

/// Room for some entries, of which one is taken, and more are waited for.
const ONE_BEFORE_A_WAIT: Making = Making {
    room: 8,
    taken: 1,
    waits: true,
};

// How often the sender has sent once it has filled the room that was made so many times.
fn sent_after(making: Making, times: u64) -> u64 {
    (making.room as u64).saturating_add(making.taken.saturating_mul(times))
}

// Sends one item after another, and counts them. The first find room.
fn send_on(rt: &impl Wait, post: &mut Post<'_, u32>, watch: &Watch, making: Making) {
    for _ in 0..sent_after(making, WAKES) {
        let _ = post.send(rt, 7);
        watch.count();
    }
}

// Makes room.
fn make_room<R: Wait>(rt: &R, take: &mut Take<'_, u32>, making: Making) {
    for _ in 0..making.taken {
        let _ = take.recv(rt);
    }
    if making.waits {
        take.wait(rt, &mut Backoff::new());
    }
}

// Leaves the sender waiting for a while each time before it makes room, and counts how often that woke it soon.
fn wake_by_room<R: Wait + Clock>(
    rt: &R,
    take: &mut Take<'_, u32>,
    watch: &Watch,
    making: Making,
) -> io::Result<u64> {
    let mut soon = 0u64;
    for made in 0..WAKES {
        thread::sleep(rt, Duration::from_millis(WHILE));
        make_room(rt, take, making);
        if watch.until(rt, sent_after(making, made.saturating_add(1)))? {
            soon = soon.wrapping_add(1);
        }
    }
    Ok(soon)
}

// A sender that waits for room, and a thread that makes room.
fn join_by_room(
    rt: &(impl Wait + Threads + Clock + Sync),
    post: &mut Post<'_, u32>,
    take: &mut Take<'_, u32>,
    watch: &Watch,
    making: Making,
) -> io::Result<u64> {
    let (_, soon) = thread::join(
        rt,
        || send_on(rt, post, watch, making),
        || wake_by_room(rt, take, watch, making),
    );
    soon
}

// How often room that was made woke the sender of a new line soon, where it has one post.
fn woken_by_room(rt: &(impl Wait + Threads + Clock + Sync), alloc: Global, making: Making) -> Round
    requires { 0 < making.room }
{
    let watch = Watch::new();
    tried(alloc, making.room, 1, |posts, take| {
        let [post] = posts else {
            return None;
        };
        Some(join_by_room(rt, post, take, &watch, making))
    })
}

#[test]
fn what_is_taken_wakes_the_sender(rt: HostRuntime) {
    // One round: on a busy machine the sender may still pause when room is made, and a round can then pass without a wake. That somebody
    // wakes it `tests/core/wakeups` sees.
    let soon = woken_by_room(&rt, rt.alloc(), ONE);
    assert!(rt; are_many(&soon), "{soon:?}");
}

#[test]
fn half_of_a_line_that_is_taken_wakes_the_sender(rt: HostRuntime) {
    let soon = woken_by_room(&rt, rt.alloc(), HALF);
    assert!(rt; are_many(&soon), "{soon:?}");
}

#[test]
fn one_of_many_that_is_taken_wakes_nobody(rt: HostRuntime) {
    let soon = woken_by_room(&rt, rt.alloc(), ONE_OF_EIGHT);
    assert!(rt; !are_many(&soon), "{soon:?}");
}

#[test]
fn a_take_that_waits_wakes_the_sender(rt: HostRuntime) {
    let soon = woken_by_room(&rt, rt.alloc(), ONE_BEFORE_A_WAIT);
    assert!(rt; are_many(&soon), "{soon:?}");
}

/// Waits of an end in a row, of which some pause and the others sleep.
const WAITS: u32 = 400;

// How often an end of an empty line waits before it says that it sleeps next. One wait more sets its bell.
fn waits_before_sleep(rt: &impl Wait, take: &Take<'_, u32>) -> Option<u32> {
    let mut backoff = Backoff::new();
    for waits in 0..WAITS {
        let sleeps = backoff.sleeps_next();
        take.wait(rt, &mut backoff);
        if sleeps {
            return Some(waits);
        }
    }
    None
}

#[test]
fn an_end_pauses_before_it_says_that_it_sleeps(rt: HostRuntime) {
    let waits = tried(rt.alloc(), 1, 1, |_, take| waits_before_sleep(&rt, take));
    assert!(rt; matches!(waits, Ok(Some(100..))), "{waits:?}");
}

// Whether the first waits of an end before it sleeps are many, and a third time few.
fn are_short_after_two(rt: &impl Wait, take: &Take<'_, u32>) -> bool {
    let first = waits_before_sleep(rt, take);
    let second = waits_before_sleep(rt, take);
    let third = waits_before_sleep(rt, take);
    matches!(first, Some(100..)) && matches!(second, Some(100..)) && matches!(third, Some(1..=20))
}

#[test]
fn waits_are_short_after_two_that_slept(rt: HostRuntime) {
    let are_short = tried(rt.alloc(), 1, 1, |_, take| are_short_after_two(&rt, take));
    assert!(rt; matches!(are_short, Ok(true)), "{are_short:?}");
}
