//! Gates of a session of five threads: whom they let begin and go on, and what a session comes to that one of them stops.
ghost use Rattle.std.specs.Prelude.{◌≡◌};

use sam_ends::{FlagGate, Gate, OpenGate, Stop};
use sam_script::{Script, ScriptFault, show};
use sam_session::{RunFault, Settled, run_threads, run_threads_once};
use sam_test_support::{lent, told_of};
use sam_world::{Event, World, first_world};
use std::alloc::{AllocError, Global};
use std::sync::Wait;
use std::thread::Threads;

/// A session that types into a file and runs a command on it, with a mouse event too.
const HELLO: &str =
    "file a hello\\n\nk version 1\nk opencmd\nk open 1\nk type 1 X\nk type 0 ,x/l/d\\n\nm flush\nk exit\n";

/// A session in which each worker has three steps or more to do, and only the terminal exits.
const LONG: &str =
    "file a hello\\n\nk version 1\nk opencmd\nk open 1\nk type 1 X\nk type 0 ,x/l/d\\n\nm flush\nm flush\nm flush\n";

/// How many events the keyboard of `LONG` has, and how many the mouse.
const KEYS: u64 = 5;

const CLICKS: u64 = 3;

/// It stops one worker once that has handled so many, or doesn't let it begin.
#[derive(Drop)]
struct Refuses {
    worker: usize,
    at: Option<u64>,
}

impl Gate for Refuses {
    ghost may_refuse = { λ gate worker. worker ≡ gate.worker };

    ghost must_refuse = { λ gate worker when. (worker ≡ gate.worker) × (when ≡ gate.at) };

    fn pass(&self, worker: usize) -> bool {
        worker != self.worker || self.at.is_some()
    }

    fn go_on(&self, worker: usize, handled: u64) -> bool {
        worker != self.worker || self.at != Some(handled)
    }
}

/// Whether both worlds show the same lines.
fn shows_the_same(alloc: Global, one: &World, other: &World) -> bool {
    match (show(alloc, one), show(alloc, other)) {
        (Ok(lines), Ok(others)) => lines.as_slice() == others.as_slice(),
        _ => false,
    }
}

/// Whether the schedule leads this world to what the settled world shows.
fn leads(alloc: Global, world: &mut World, settled: &Settled) -> bool {
    world.run(settled.schedule.as_slice()).is_ok() && shows_the_same(alloc, world, &settled.world)
}

/// Whether the schedule, run from the files of the script, shows what the settled world shows.
fn replays(alloc: Global, script: &Script, settled: &Settled) -> bool {
    lent(first_world(alloc, script.files()), |first| match first {
        Ok(world) => leads(alloc, world, settled),
        Err(_) => false,
    })
}

/// How many events of users and how many frames the terminal handled.
fn handled_by_terminal(schedule: &[Event]) -> (u64, u64) {
    let (mut users, mut frames) = (0u64, 0u64);
    for event in schedule {
        match event {
            Event::User(_) => users = users.wrapping_add(1),
            Event::TermTake => frames = frames.wrapping_add(1),
            _ => {}
        }
    }
    (users, frames)
}

/// Whether somebody was stopped at a gate, and the worker had then done so much. An Exit of the terminal's own comes after all events of
/// users.
fn has_stopped_at(settled: &Settled, worker: usize, done: u64) -> bool {
    let (users, frames) = handled_by_terminal(settled.schedule.as_slice());
    let is_done = match worker {
        0 => users == done.wrapping_add(CLICKS + 1),
        1 => users == done.wrapping_add(KEYS + 1),
        2 => settled.world.host().taken() == done,
        3 => frames == done,
        _ => users.wrapping_add(frames) == done,
    };
    is_done && settled.stops.as_slice().contains(&Stop::Gate)
}

/// Whether a session of the script stops where the gate says, and replays; or does not begin.
fn stops<T: Threads + Wait + Sync>(rt: &T, alloc: Global, script: &Script, gate: &Refuses) -> bool {
    told_of(
        run_threads(rt, alloc, script, 1, 1, gate),
        |came_to| match (came_to, gate.at) {
            (Ok(settled), Some(done)) => {
                has_stopped_at(settled, gate.worker, done) && replays(alloc, script, settled)
            }
            (Err(fault), None) => *fault == RunFault::GateTimedOut,
            _ => false,
        },
    )
}

/// The first worker, and the count, at which a session of the script doesn't stop.
fn first_that_goes_on<T: Threads + Wait + Sync>(
    rt: &T,
    alloc: Global,
    script: &Result<Script, ScriptFault>,
) -> Option<(usize, Option<u64>)> {
    const COUNTS: [Option<u64>; 4] = [None, Some(0), Some(1), Some(2)];
    let Ok(script) = script else {
        return Some((0, None));
    };
    for worker in 0..5 {
        for at in COUNTS {
            if !stops(rt, alloc, script, &Refuses { worker, at }) {
                return Some((worker, at));
            }
        }
    }
    None
}

#[test]
fn a_session_stops_where_its_gate_says_and_replays(rt: HostRuntime) {
    let alloc = rt.alloc();
    let wrong = told_of(
        Script::read(alloc, LONG.as_bytes()),
        |script| first_that_goes_on(&rt, alloc, script),
    );
    assert_eq!(rt; wrong, None);
}

/// What a session tells that was stopped before the host took its first message, which is under way.
fn stopped_at_once<T: Threads + Wait + Sync>(
    rt: &T,
    alloc: Global,
    script: &Result<Script, ScriptFault>,
) -> bool {
    const GATE: Refuses = Refuses {
        worker: 2,
        at: Some(0),
    };
    let Ok(script) = script else {
        return false;
    };
    told_of(
        run_threads(rt, alloc, script, 1, 1, &GATE),
        |came_to| match came_to {
            Ok(settled) => {
                matches!(settled.stops.as_slice(), [Stop::Gate, Stop::PeerGone])
                    && matches!(settled.left.as_slice(), [0, 0, 0])
                    && settled.world.host().taken() == 0
                    && settled.world.term().sent() == 1
                    && settled.world.up() == 1
                    && takes_nothing(settled.schedule.as_slice())
            }
            Err(_) => false,
        },
    )
}

/// Whether neither side takes anything.
fn takes_nothing(schedule: &[Event]) -> bool {
    for event in schedule {
        if matches!(event, Event::HostTake | Event::TermTake) {
            return false;
        }
    }
    true
}

#[test]
fn a_host_stopped_at_once_leaves_its_message_under_way(rt: HostRuntime) {
    let alloc = rt.alloc();
    let script = Script::read(alloc, b"file a x\nk version 1\nk exit\n");
    assert!(rt; told_of(script, |script| stopped_at_once(&rt, alloc, script)));
}

/// Whether five workers that begin together are stopped by nobody.
fn go_on_together<T: Threads + Wait + Sync>(
    rt: &T,
    alloc: Global,
    script: &Result<Script, ScriptFault>,
) -> bool {
    let Ok(script) = script else {
        return false;
    };
    let gate = FlagGate::new(100_000_000);
    told_of(
        run_threads(rt, alloc, script, 1, 1, &gate),
        |came_to| match came_to {
            Ok(settled) => settled.stops.is_empty() && settled.world.quiet(),
            Err(_) => false,
        },
    )
}

#[test]
fn five_workers_are_up_together_and_go_on(rt: HostRuntime) {
    let alloc = rt.alloc();
    let script = Script::read(alloc, HELLO.as_bytes());
    assert!(rt; told_of(script, |script| go_on_together(&rt, alloc, script)));
}

#[test]
fn a_gate_of_flags_refuses_until_all_are_up(rt: HostRuntime) {
    let gate = FlagGate::new(10);
    let without_one = [gate.pass(0), gate.pass(2), gate.pass(3), gate.pass(4)];
    assert_eq!(rt; without_one, [false; 4]);
    assert_eq!(rt; [gate.pass(1), gate.pass(0)], [true; 2]);
}

/// Whether a session that nobody stops replays from the files of what is left of its script, and how many files and lines these are.
fn used_up<T: Threads + Wait + Sync>(
    rt: &T,
    alloc: Global,
    script: &mut Result<Script, ScriptFault>,
) -> Option<(bool, usize, usize)> {
    let Ok(script) = script else {
        return None;
    };
    let came_to = run_threads_once(rt, alloc, script, 1, 1, &OpenGate);
    let left: &Script = script;
    let has_replayed = told_of(came_to, |came_to| match came_to {
        Ok(settled) => {
            settled.stops.is_empty() && settled.world.quiet() && replays(alloc, left, settled)
        }
        Err(_) => false,
    });
    Some((has_replayed, left.files().len(), left.lines().len()))
}

#[test]
fn an_open_gate_stops_nobody_and_a_script_that_is_used_up_keeps_its_files(rt: HostRuntime) {
    let alloc = rt.alloc();
    let script = Script::read(alloc, HELLO.as_bytes());
    let told = lent(script, |script| used_up(&rt, alloc, script));
    assert_eq!(rt; told, Some((true, 1, 0)));
}

/// Whether the fault is told so.
fn is_told(alloc: Global, fault: RunFault, text: &str) -> Result<bool, AllocError> {
    let told = format!(in alloc; "{fault}")?;
    Ok(told.as_str() == text)
}

#[test]
fn a_session_that_is_not_run_says_why(rt: HostRuntime) {
    const ROWS: [(RunFault, u8, &str); 3] = [
        (RunFault::GateTimedOut, 1, "a worker was not let begin"),
        (RunFault::NoThread, 2, "no thread could be started"),
        (RunFault::OutOfMemory, 3, "out of memory"),
    ];
    for (fault, number, text) in ROWS {
        assert_eq!(rt; fault as u8, number);
        assert_eq!(rt; is_told(rt.alloc(), fault, text), Ok(true), "{text}");
    }
}
