//! Runs of a world.

use sam_runes::{Runes, Text};
use sam_term::UserEvent;
use sam_test_support::{lent, told_of};
use sam_world::{Event, MergeFault, RunStop, StepFault, TermLog, World, merge};
use std::alloc::{AllocError, Global};
use std::test::Fail;

/// A world whose file 1 is named `a` and holds the text.
fn world_of(alloc: Global, text: &str) -> Result<World, Fail> {
    let name = Runes::from_slice(alloc, &['a'])?;
    let text = Text::from_runes(alloc, Runes::from_str(alloc, text)?.as_slice())?;
    let mut given = Vec::new(alloc);
    given.push((name, text))?;
    Ok(World::new(alloc, given).ok().ok_or("memory")?)
}

/// A letter for each event.
fn letter(event: &Event) -> char {
    match event {
        Event::User(_) => 'u',
        Event::Add(_, _) => 'j',
        Event::Mark(_) => 'd',
        Event::Act => 'a',
        Event::Flush => 'f',
        Event::HostTake => 'h',
        Event::TermTake => 't',
    }
}

/// Runs a version, and two takes of the host.
fn run_two_takes(world: &mut World) -> Result<(), RunStop> {
    let events = [
        Event::User(UserEvent::Version(1)),
        Event::Act,
        Event::HostTake,
        Event::HostTake,
    ];
    world.run(&events)
}

#[test]
fn a_run_stops_where_nothing_is_there(rt: HostRuntime) -> Result<(), Fail> {
    let told = lent(
        world_of(rt.alloc(), "ab")?,
        |world| (run_two_takes(world), (world.up(), world.down())),
    );
    let stop = RunStop {
        at: 3,
        fault: StepFault::NothingThere,
    };
    assert_eq!(rt; told, (Err(stop), (0, 5)));
    Ok(())
}

fn letters(alloc: Global, events: &[Event]) -> Result<Vec<char>, AllocError> {
    events.iter().map(letter).collect(alloc)
}

fn has_letters(
    alloc: Global,
    merged: &Result<Vec<Event>, MergeFault>,
    wanted: &[char],
) -> Result<bool, AllocError> {
    match merged {
        Ok(events) => Ok(letters(alloc, events.as_slice())?.as_slice() == wanted),
        Err(_) => Ok(false),
    }
}

#[test]
fn takes_of_the_host_are_merged_in(rt: HostRuntime) {
    let alloc = rt.alloc();
    let log = [
        TermLog::User(UserEvent::Flush),
        TermLog::Act,
        TermLog::Take(1),
        TermLog::Take(1),
    ];
    let wanted = ['u', 'a', 'h', 't', 't', 'h'];
    let told = (
        told_of(
            merge(alloc, &log, 2),
            |merged| has_letters(alloc, merged, &wanted),
        ),
        told_of(
            merge(alloc, &[TermLog::Take(3)], 2),
            |merged| matches!(merged, Err(MergeFault::BadLog)),
        ),
    );
    assert_eq!(rt; told, (Ok(true), true));
}
