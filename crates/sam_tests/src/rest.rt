//! Worlds that come to rest.

ghost use Rattle.std.specs.Prelude.{◌≡◌, length, IfOk};

use sam_rest::Rest;
use sam_runes::{Runes, Text};
use sam_term::UserEvent;
use sam_test_support::lent;
use sam_world::{Event, StepFault, World};
use std::alloc::{AllocError, Global};
use std::test::Fail;

/// A file of this name and text.
fn file_of(alloc: Global, name: char, text: &str) -> Result<(Runes, Text), Fail>
    ensures { IfOk result (λ file. length file.0 ≡ 1) }
{
    let name = Runes::from_slice(alloc, &[name])?;
    let text = Text::from_runes(alloc, Runes::from_str(alloc, text)?.as_slice())?;
    Ok((name, text))
}

/// A world of file 1, which names ones, and file 2.
fn world_of_two(alloc: Global) -> Result<World, Fail> {
    let mut given = Vec::new(alloc);
    given.push(file_of(alloc, 'a', "one two one\n")?)?;
    given.push(file_of(alloc, 'b', "end\n")?)?;
    Ok(World::new(alloc, given).ok().ok_or("memory")?)
}

/// The events of a user who opens both files, moves the first word of file 1 after a digit, looks for it, types over what is found, and
/// has all of that file loaded. Meanwhile file 2 gets a letter.
fn session(alloc: Global) -> Result<[UserEvent; 12], AllocError> {
    let first = Runes::from_str(alloc, "1")?;
    let last = Runes::from_str(alloc, "2")?;
    let letter = Runes::from_str(alloc, "S")?;
    Ok([
        UserEvent::Version(1),
        UserEvent::Open(1),
        UserEvent::Open(2),
        UserEvent::Select(1, 0, 3),
        UserEvent::Cut(1),
        UserEvent::Typed(1, first),
        UserEvent::Paste(1),
        UserEvent::Select(1, 1, 4),
        UserEvent::Look(1),
        UserEvent::Typed(1, last),
        UserEvent::Typed(2, letter),
        UserEvent::Load(1, 0, 100),
    ])
}

/// Hands the events in. None of them acts yet.
fn hand_in(world: &mut World, events: [UserEvent; 12]) -> Result<(), StepFault> {
    for event in events {
        world.step(Event::User(event))?;
    }
    Ok(())
}

/// Tries the oldest held event twice, and returns how many are held after each.
fn held_after_two_acts(world: &mut World) -> Result<(usize, usize), StepFault> {
    world.step(Event::Act)?;
    let first = world.term().held();
    world.step(Event::Act)?;
    Ok((first, world.term().held()))
}

/// Hands the session in, and returns how many events wait for the lock that the first of them takes.
fn begun(
    alloc: Global,
    world: &mut World,
) -> Result<Result<(usize, usize), StepFault>, AllocError> {
    let events = session(alloc)?;
    if let Err(fault) = hand_in(world, events) {
        return Ok(Err(fault));
    }
    Ok(held_after_two_acts(world))
}

/// Whether the host's file has this text, and the terminal shows it.
fn shows(world: &World, tag: u16, wanted: &[char]) -> bool {
    let Some(rasp) = world.term().rasp(tag) else {
        return false;
    };
    match world.host().files().text(tag) {
        Some(text) => text.slice(0, text.len()) == wanted && rasp.agrees(wanted),
        None => false,
    }
}

/// Whether the terminal has every rune of the file.
fn is_loaded(world: &World, tag: u16) -> bool {
    match world.term().rasp(tag) {
        Some(rasp) => rasp.first_hole(0, rasp.len()).is_none(),
        None => false,
    }
}

/// Whether nothing is unsent, under way, held or locked.
fn is_at_rest(world: &World) -> bool {
    world.quiet()
        && world.term().held() == 0
        && !world.term().command_locked()
        && !world.locked(1)
        && !world.locked(2)
}

/// Whether a world is at rest, whether both sides have the texts of file 1 and of file 2, and how many messages the host took and the
/// terminal composed.
type Seen = (bool, bool, bool, (u64, u64));

/// What a world shows.
fn seen(world: &World) -> Seen {
    (
        is_at_rest(world),
        shows(
            world,
            1,
            &['1', 'o', 'n', 'e', ' ', 't', 'w', 'o', ' ', '2', '\n'],
        ) && is_loaded(world, 1),
        shows(world, 2, &['S', 'e', 'n', 'd', '\n']),
        (world.host().taken(), world.term().sent()),
    )
}

/// What the world shows once it has come to rest, and once it has come to rest again.
fn seen_twice(world: &mut World) -> Result<(Seen, Seen), StepFault> {
    world.rest()?;
    let first = seen(world);
    world.rest()?;
    Ok((first, seen(world)))
}

#[test]
fn held_events_come_to_rest(rt: HostRuntime) -> Result<(), Fail> {
    let alloc = rt.alloc();
    let told = lent(world_of_two(alloc)?, |world| {
        (begun(alloc, world), seen_twice(world))
    });
    let (waits, twice) = told;
    let (first, again) = twice.ok().ok_or("a fault")?;
    assert_eq!(rt; waits, Ok(Ok((11, 11))));
    assert_eq!(rt; first, again);
    let (at_rest, one, two, counts) = first;
    assert_eq!(rt; (at_rest, one, two), (true, true, true));
    assert_eq!(rt; counts.0, counts.1);
    Ok(())
}
