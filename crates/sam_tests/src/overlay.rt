//! An overlay with a host, whose bytes go when a test says so: edits under a lock, of two files, a frame between, and runes without room.
use sam_endpoint::{HostEndpoint, TermStep};
use sam_frame::encode_all;
use sam_mesg::{HFrame, Hmesg};
use sam_overlay::{Overlay, Put, PutFault, ReplaceFault, is_request};
use sam_runes::Runes;
use sam_term::UserEvent;
use sam_test_support::lent;
use std::alloc::Global;

/// An overlay, and the host of its files.
#[derive(Drop)]
struct Ends {
    overlay: Overlay,
    host: HostEndpoint,
}

/// A call, or a look with its answer.
#[derive(Clone, Copy)]
enum Step<'a> {
    /// The terminal offers its version.
    Version,
    /// A file is opened.
    Open(u16),
    /// The command file is opened.
    Command,
    /// A file is viewed from its begin on, so many runes.
    View(u16, u32),
    /// Runes are typed into the command file.
    Type(&'a [char]),
    /// Runes are typed into a file as an event, which is no request.
    Typed(u16),
    /// All bytes go to the host, and all of its answers come back.
    Travel,
    /// The runes in place of what is shown of a file between two places.
    Replace(u16, u32, u32, &'a [char]),
    /// The same, refused for this reason.
    Refused(u16, u32, u32, ReplaceFault),
    /// A frame of the host's brings so many gaps into a file, at a place.
    Grow(u16, u32, u32),
    /// The next edit of a file is put, or this is why not; if it is put it acts.
    Put(u16, Result<Put, PutFault>),
    /// So many runes are taken back, which stood at this place of what is shown; none are if there are 0.
    Drop(u16, u32, usize),
    /// How many members are shown of a file, and how many runes wait.
    Shows(u16, u32, u32),
    /// The first place from that one on that is not loaded.
    Gap(u16, u32, Option<u32>),
    /// The first file from that tag on over which an edit waits.
    Waits(u16, Option<u16>),
}

/// How many steps a test makes at most until nothing is left to do.
const MOST_STEPS: u32 = 100;

/// Goes on until nothing is left to do, or a lock holds an event back.
fn rest(overlay: &mut Overlay) -> bool {
    for _ in 0..MOST_STEPS {
        let Ok(step) = overlay.step() else {
            return false;
        };
        match step.step {
            TermStep::Idle | TermStep::Locked => return true,
            _ => {}
        }
    }
    false
}

fn ask(overlay: &mut Overlay, event: UserEvent) -> bool {
    if !is_request(&event) {
        return false;
    }
    overlay.bring_event(event).is_ok() && rest(overlay)
}

fn type_in(alloc: Global, overlay: &mut Overlay, tag: u16, runes: &[char]) -> bool {
    match Runes::from_slice(alloc, runes) {
        Ok(text) => ask(overlay, UserEvent::Typed(tag, text)),
        Err(_) => false,
    }
}

fn travel(ends: &mut Ends) -> bool {
    let bytes = ends.overlay.end().pending_bytes();
    let count = bytes.len();
    let is_up = ends.host.feed(bytes).is_ok();
    ends.overlay.consume(count);
    let answers = ends.host.pending_bytes();
    let len = answers.len();
    let is_down = ends.overlay.bring(answers).is_ok();
    ends.host.consume(len);
    is_up && is_down && rest(&mut ends.overlay)
}

fn grow(alloc: Global, overlay: &mut Overlay, tag: u16, place: u32, count: u32) -> bool {
    let frame = HFrame {
        seen: overlay.end().seen(),
        msg: Hmesg::Hgrow(tag, place, count),
    };
    let mut bytes = Vec::new(alloc);
    if encode_all(&[frame], &mut bytes).is_err() {
        return false;
    }
    overlay.bring(bytes.as_slice()).is_ok() && rest(overlay)
}

fn taken_back(overlay: &mut Overlay, tag: u16, place: u32, count: usize) -> bool {
    match overlay.drop_next(tag) {
        Ok(Some(dropped)) => dropped.place == place && dropped.text.len() == count,
        Ok(None) => count == 0,
        Err(_) => false,
    }
}

/// Whether a call is taken on, or a look has its answer.
fn is_right(alloc: Global, ends: &mut Ends, step: Step<'_>) -> bool {
    let overlay = &mut ends.overlay;
    match step {
        Step::Version => ask(overlay, UserEvent::Version(2)),
        Step::Open(tag) => ask(overlay, UserEvent::Open(tag)),
        Step::Command => ask(overlay, UserEvent::OpenCmd),
        Step::View(tag, count) => ask(overlay, UserEvent::View(tag, 0, count)),
        Step::Type(runes) => type_in(alloc, overlay, 0, runes),
        Step::Typed(tag) => !type_in(alloc, overlay, tag, &['x']),
        Step::Travel => travel(ends),
        Step::Replace(tag, p, q, runes) => overlay.replace(tag, p, q, runes).is_ok(),
        Step::Refused(tag, p, q, why) => overlay.replace(tag, p, q, &['x']) == Err(why),
        Step::Grow(tag, place, count) => grow(alloc, overlay, tag, place, count),
        Step::Put(tag, answer) => overlay.put_next(tag) == answer && rest(overlay),
        Step::Drop(tag, place, count) => taken_back(overlay, tag, place, count),
        Step::Shows(tag, len, waiting) => {
            overlay.shown_len(tag) == Some(len) && overlay.waiting(tag) == waiting
        }
        Step::Gap(tag, place, gap) => overlay.first_gap(tag, place) == gap,
        Step::Waits(from, tag) => overlay.next_waiting(from) == tag,
    }
}

/// The number of the first step, counted from 0, that is refused or answered otherwise.
fn first_wrong(alloc: Global, ends: &mut Ends, steps: &[Step<'_>]) -> Option<usize> {
    for (at, step) in steps.iter().enumerate() {
        if !is_right(alloc, ends, *step) {
            return Some(at);
        }
    }
    None
}

/// Host and terminal of two files, `hello` and `again`.
fn ends_of(alloc: Global) -> Option<Ends> {
    let mut host = HostEndpoint::new(alloc).ok()?;
    host.add_file(b"one", b"hello").ok()?;
    host.add_file(b"two", b"again").ok()?;
    Some(Ends {
        overlay: Overlay::new(alloc),
        host,
    })
}

/// While a load has locked `hello` a `!` is typed behind it: it is shown, and put once the file is free.
const UNDER_A_LOCK: [Step<'_>; 19] = [
    Step::Version,
    Step::Travel,
    Step::Open(1),
    Step::Travel,
    Step::Shows(1, 5, 0),
    Step::Gap(1, 0, Some(0)),
    Step::View(1, 5),
    Step::Put(1, Ok(Put::Nothing)),
    Step::Replace(1, 5, 5, &['!']),
    Step::Gap(1, 5, None),
    Step::Shows(1, 6, 1),
    Step::Put(1, Ok(Put::NotFree)),
    Step::Waits(0, Some(1)),
    Step::Travel,
    Step::Gap(1, 0, None),
    Step::Put(1, Ok(Put::Edit)),
    Step::Put(1, Ok(Put::Nothing)),
    Step::Waits(0, None),
    Step::Shows(1, 6, 0),
];

/// Edits of two files wait beside one another, and one that only removes waits too. The host's frame comes in before what was typed.
const TWO_FILES: [Step<'_>; 19] = [
    Step::Version,
    Step::Travel,
    Step::Open(1),
    Step::Travel,
    Step::Open(2),
    Step::Travel,
    Step::Replace(1, 5, 5, &['!']),
    Step::Replace(2, 0, 2, &[]),
    Step::Shows(2, 3, 0),
    Step::Waits(0, Some(1)),
    Step::Waits(2, Some(2)),
    Step::Waits(3, None),
    Step::Grow(1, 5, 6),
    Step::Gap(1, 11, None),
    Step::Shows(1, 12, 1),
    Step::Put(1, Ok(Put::Edit)),
    Step::Put(2, Ok(Put::Edit)),
    Step::Shows(2, 3, 0),
    Step::Put(2, Ok(Put::Nothing)),
];

/// The host makes the text full while a rune waits, which is then taken back.
const NO_ROOM: [Step<'_>; 13] = [
    Step::Version,
    Step::Travel,
    Step::Open(1),
    Step::Travel,
    Step::Replace(1, 0, 0, &['a']),
    Step::Drop(1, 0, 0),
    Step::Grow(1, 5, 999_995),
    Step::Put(1, Err(PutFault::TooLong)),
    Step::Refused(1, 0, 0, ReplaceFault::TooLong),
    Step::Drop(1, 0, 1),
    Step::Shows(1, 1_000_000, 0),
    Step::Drop(1, 0, 0),
    Step::Put(1, Ok(Put::Nothing)),
];

/// The command file takes what is typed as events, and no edit that waits. Each refusal of an edit comes before the next.
const COMMAND_FILE: [Step<'_>; 12] = [
    Step::Refused(1, 0, 0, ReplaceFault::NoFile),
    Step::Version,
    Step::Travel,
    Step::Refused(1, 0, 0, ReplaceFault::NotOpen),
    Step::Command,
    Step::Travel,
    Step::Type(&['h', 'i']),
    Step::Shows(0, 2, 0),
    Step::Refused(0, 0, 0, ReplaceFault::CommandFile),
    Step::Open(1),
    Step::Travel,
    Step::Typed(1),
];

#[test]
fn edits_wait_over_an_end(rt: HostRuntime) {
    for steps in [
        UNDER_A_LOCK.as_slice(),
        TWO_FILES.as_slice(),
        NO_ROOM.as_slice(),
        COMMAND_FILE.as_slice(),
    ] {
        let alloc = rt.alloc();
        let wrong = match ends_of(alloc) {
            Some(ends) => lent(ends, |ends| first_wrong(alloc, ends, steps)),
            None => Some(0),
        };
        assert_eq!(rt; wrong, None);
    }
}
