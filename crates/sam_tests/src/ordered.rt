//! Requests in one order with the edits, before a host whose answers come when a test says so: what a write saves, what a close refuses.
use sam_endpoint::{HostEndpoint, TermStep};
use sam_frame::encode_all;
use sam_mesg::{HFrame, Hmesg};
use sam_overlay::{
    AskFault, Asked, MOST_WAITING_REQUESTS, OrderedOverlay, Put, ReplaceFault, Turn, is_request,
};
use sam_runes::Runes;
use sam_term::{Refusal, UserEvent};
use sam_test_support::lent;
use std::alloc::Global;

/// The user's side, and the host of its files.
#[derive(Drop)]
struct Sides {
    alloc: Global,
    front: OrderedOverlay,
    host: HostEndpoint,
}

/// What a test asks for.
#[derive(Clone, Copy)]
enum Wish {
    Version,
    Open(u16),
    Load(u16),
    Write(u16),
    Close(u16),
    Search(u16),
    Select(u16, u32, u32),
    Command,
    /// A command line that puts `ab` at the begin of the work file.
    InsertLine,
    /// One that takes the second and the third rune out of it.
    DeleteLine,
    Leave,
}

/// A call, or a look with its answer.
#[derive(Clone, Copy)]
enum Step<'a> {
    /// A request is taken in behind the others.
    Ask(Wish),
    /// A write shares the one that waits at this place.
    Shares(Wish, usize),
    /// One is not, and this is why.
    Unasked(Wish, AskFault),
    /// So many requests are taken in.
    AskMany(Wish, usize),
    /// The oldest request acts, or doesn't.
    Act(Turn),
    /// So many requests wait.
    Waiting(usize),
    /// A request is taken in, acts, and is answered.
    Do(Wish),
    /// All bytes go to the host, and all of its answers come back.
    Travel,
    /// The runes in place of what is shown of a file between two places.
    Replace(u16, u32, u32, &'a [char]),
    /// A rune at the begin of a file is refused for this reason.
    Refused(u16, ReplaceFault),
    /// The next edit of a file is put, and acts, or this is the answer.
    Put(u16, Put),
    /// The next edit of a file is put, and does not act yet.
    PutAlone(u16),
    /// A frame of the host's brings so many gaps into a file, at a place.
    Grow(u16, u32, u32),
    /// No runes of a file are taken back, since there is room for them.
    NothingToDrop(u16),
    /// So many runes are taken back, which stood at this place of what is shown.
    Drop(u16, u32, usize),
    /// A request that acted was refused for this reason.
    WasRefused(Refusal),
    /// How many members are shown of a file.
    Shows(u16, u32),
    /// How many runes the host saved of a file at its last write.
    Saved(u16, usize),
    /// From where to where the dot of a file is.
    Dot(u16, u32, u32),
}

/// How many steps a test makes at most until nothing is left to do.
const MOST_STEPS: u32 = 100;

fn event_of(alloc: Global, wish: Wish) -> Option<UserEvent> {
    Some(match wish {
        Wish::Version => UserEvent::Version(2),
        Wish::Open(tag) => UserEvent::Open(tag),
        Wish::Load(tag) => UserEvent::Load(tag, 0, 5),
        Wish::Write(tag) => UserEvent::Write(tag),
        Wish::Close(tag) => UserEvent::Close(tag),
        Wish::Search(tag) => UserEvent::Search(tag),
        Wish::Select(tag, p, q) => UserEvent::Select(tag, p, q),
        Wish::Command => UserEvent::OpenCmd,
        Wish::InsertLine => return line(alloc, &['0', 'i', '/', 'a', 'b', '/', '\n']),
        Wish::DeleteLine => return line(alloc, &['#', '1', ',', '#', '3', 'd', '\n']),
        Wish::Leave => UserEvent::Exit,
    })
}

fn line(alloc: Global, runes: &[char]) -> Option<UserEvent> {
    match Runes::from_slice(alloc, runes) {
        Ok(text) => Some(UserEvent::Typed(0, text)),
        Err(_) => None,
    }
}

fn ask(sides: &mut Sides, wish: Wish) -> Result<Asked, AskFault> {
    match event_of(sides.alloc, wish) {
        Some(event) if is_request(&event) => sides.front.ask(event),
        _ => Err(AskFault::OutOfMemory),
    }
}

fn ask_many(sides: &mut Sides, wish: Wish, count: usize) -> bool {
    for _ in 0..count {
        if ask(sides, wish) != Ok(Asked::New) {
            return false;
        }
    }
    true
}

/// Goes on until nothing is left to do.
fn go_on(front: &mut OrderedOverlay) -> bool {
    for _ in 0..MOST_STEPS {
        let Ok(made) = front.step() else {
            return false;
        };
        if made.step == TermStep::Idle {
            return true;
        }
    }
    false
}

fn carry(sides: &mut Sides) -> bool {
    let up = sides.front.overlay().end().pending_bytes();
    let up_len = up.len();
    let is_fed = sides.host.feed(up).is_ok();
    sides.front.consume(up_len);
    let down = sides.host.pending_bytes();
    let down_len = down.len();
    let is_brought = sides.front.bring(down).is_ok();
    sides.host.consume(down_len);
    is_fed && is_brought && go_on(&mut sides.front)
}

fn act(front: &mut OrderedOverlay, turn: Turn) -> bool {
    front.act_next() == Ok(turn) && go_on(front)
}

fn grow(alloc: Global, front: &mut OrderedOverlay, tag: u16, place: u32, count: u32) -> bool {
    let frame = HFrame {
        seen: front.overlay().end().seen(),
        msg: Hmesg::Hgrow(tag, place, count),
    };
    let mut bytes = Vec::new(alloc);
    if encode_all(&[frame], &mut bytes).is_err() {
        return false;
    }
    front.bring(bytes.as_slice()).is_ok() && go_on(front)
}

fn takes_back(front: &mut OrderedOverlay, tag: u16, place: u32, count: usize) -> bool {
    match front.drop_next(tag) {
        Ok(Some(dropped)) => dropped.place == place && dropped.text.len() == count,
        _ => false,
    }
}

fn saved(host: &HostEndpoint, tag: u16) -> Option<usize> {
    let file = host.host().files().file(tag)?;
    let runes = file.saved()?;
    Some(runes.len())
}

/// Whether a call is taken on, or a look has its answer.
fn is_right(sides: &mut Sides, step: Step<'_>) -> bool {
    match step {
        Step::Ask(wish) => ask(sides, wish) == Ok(Asked::New),
        Step::Shares(wish, place) => ask(sides, wish) == Ok(Asked::Shares(place)),
        Step::Unasked(wish, why) => ask(sides, wish) == Err(why),
        Step::AskMany(wish, count) => ask_many(sides, wish, count),
        Step::Do(wish) => {
            ask(sides, wish).is_ok() && act(&mut sides.front, Turn::Request) && carry(sides)
        }
        Step::Travel => carry(sides),
        Step::Grow(tag, place, count) => { grow(sides.alloc, &mut sides.front, tag, place, count) }
        Step::Saved(tag, count) => saved(&sides.host, tag) == Some(count),
        _ => is_right_in_front(&mut sides.front, step),
    }
}

/// The same of a step of the user's side alone.
fn is_right_in_front(front: &mut OrderedOverlay, step: Step<'_>) -> bool {
    match step {
        Step::Act(turn) => act(front, turn),
        Step::Waiting(count) => front.waiting() == count,
        Step::Replace(tag, p, q, runes) => front.replace(tag, p, q, runes).is_ok(),
        Step::Refused(tag, why) => front.replace(tag, 0, 0, &['x']) == Err(why),
        Step::Put(tag, answer) => front.put_next(tag) == Ok(answer) && go_on(front),
        Step::PutAlone(tag) => front.put_next(tag) == Ok(Put::Edit),
        Step::NothingToDrop(tag) => matches!(front.drop_next(tag), Ok(None)),
        Step::Drop(tag, place, count) => takes_back(front, tag, place, count),
        Step::WasRefused(why) => match front.next_refusal() {
            Some((_, refusal)) => refusal == why,
            None => false,
        },
        Step::Shows(tag, len) => front.overlay().shown_len(tag) == Some(len),
        Step::Dot(tag, p, q) => front.overlay().end().term().dot(tag) == Some((p, q)),
        _ => false,
    }
}

/// The number of the first step, counted from 0, that is refused or answered otherwise.
fn first_wrong(sides: &mut Sides, steps: &[Step<'_>]) -> Option<usize> {
    for (at, step) in steps.iter().enumerate() {
        if !is_right(sides, *step) {
            return Some(at);
        }
    }
    None
}

/// Both sides of two files, `hello` and `again`.
fn sides_of(alloc: Global) -> Option<Sides> {
    let mut host = HostEndpoint::new(alloc).ok()?;
    host.add_file(b"one", b"hello").ok()?;
    host.add_file(b"two", b"again").ok()?;
    Some(Sides {
        alloc,
        front: OrderedOverlay::new(alloc),
        host,
    })
}

/// While a load has locked `hello` the user types `!`, writes and types `?`: the write saves `hello!`.
const WRITE_UNDER_A_LOCK: [Step<'_>; 20] = [
    Step::Do(Wish::Version),
    Step::Do(Wish::Open(1)),
    Step::Ask(Wish::Load(1)),
    Step::Act(Turn::Request),
    Step::Replace(1, 5, 5, &['!']),
    Step::Ask(Wish::Write(1)),
    Step::Replace(1, 6, 6, &['?']),
    Step::Shows(1, 7),
    Step::Act(Turn::NotYet),
    Step::Put(1, Put::NotFree),
    Step::Travel,
    Step::Act(Turn::NotYet),
    Step::Put(1, Put::Edit),
    Step::Put(1, Put::NotFree),
    Step::Act(Turn::Request),
    Step::Travel,
    Step::Saved(1, 6),
    Step::Put(1, Put::Edit),
    Step::Put(1, Put::Nothing),
    Step::Act(Turn::Nothing),
];

/// A write of one file holds the edits of another back in no way; a request that takes the command lock does, and waits for older ones.
const TWO_FILES: [Step<'_>; 17] = [
    Step::Do(Wish::Version),
    Step::Do(Wish::Open(1)),
    Step::Do(Wish::Open(2)),
    Step::Replace(1, 0, 0, &['a']),
    Step::Ask(Wish::Write(1)),
    Step::Replace(2, 0, 0, &['b']),
    Step::Put(2, Put::Edit),
    Step::Replace(2, 0, 0, &['c']),
    Step::Ask(Wish::Command),
    Step::Replace(1, 0, 0, &['d']),
    Step::Act(Turn::NotYet),
    Step::Put(1, Put::Edit),
    Step::Act(Turn::Request),
    Step::Travel,
    Step::Act(Turn::NotYet),
    Step::Put(1, Put::NotFree),
    Step::Put(2, Put::Edit),
];

/// From a close no edit of the file is taken, from a leave none at all. What was typed before is there when the close acts.
const CLOSE_AND_LEAVE: [Step<'_>; 12] = [
    Step::Do(Wish::Version),
    Step::Do(Wish::Open(1)),
    Step::Do(Wish::Open(2)),
    Step::Replace(1, 5, 5, &['!']),
    Step::Ask(Wish::Close(1)),
    Step::Refused(1, ReplaceFault::NotOpen),
    Step::Replace(2, 0, 0, &['a']),
    Step::Act(Turn::NotYet),
    Step::Ask(Wish::Leave),
    Step::Refused(1, ReplaceFault::Exited),
    Step::Refused(2, ReplaceFault::Exited),
    Step::Waiting(2),
];

/// A close acts behind what was typed; then the file is gone, and a write that was asked for behind the close is refused as it acts.
const WRITE_BEHIND_A_CLOSE: [Step<'_>; 12] = [
    Step::Do(Wish::Version),
    Step::Do(Wish::Open(1)),
    Step::Replace(1, 5, 5, &['!']),
    Step::NothingToDrop(1),
    Step::Ask(Wish::Close(1)),
    Step::Ask(Wish::Write(1)),
    Step::Put(1, Put::Edit),
    Step::Act(Turn::Request),
    Step::Act(Turn::NotYet),
    Step::Travel,
    Step::Act(Turn::Request),
    Step::WasRefused(Refusal::NoFile),
];

/// Two writes of each file, with no edit of it between them, are one, and a third one behind an edit is not. The first ones save `hello!`.
const WRITES_SHARE: [Step<'_>; 25] = [
    Step::Do(Wish::Version),
    Step::Do(Wish::Open(1)),
    Step::Do(Wish::Open(2)),
    Step::Ask(Wish::Load(1)),
    Step::Act(Turn::Request),
    Step::Replace(1, 5, 5, &['!']),
    Step::Ask(Wish::Write(1)),
    Step::Ask(Wish::Write(2)),
    Step::Shares(Wish::Write(1), 0),
    Step::Replace(1, 6, 6, &['?']),
    Step::Shares(Wish::Write(2), 1),
    Step::Ask(Wish::Write(1)),
    Step::Shares(Wish::Write(1), 2),
    Step::Waiting(3),
    Step::Travel,
    Step::Put(1, Put::Edit),
    Step::Act(Turn::Request),
    Step::Act(Turn::Request),
    Step::Travel,
    Step::Saved(1, 6),
    Step::Put(1, Put::Edit),
    Step::Act(Turn::Request),
    Step::Travel,
    Step::Saved(1, 7),
    Step::Act(Turn::Nothing),
];

/// A write shares none that another request of its file, or a command line, stands behind; nor one that acted. It does share one if the
/// edit behind that came to nothing.
const WRITES_APART: [Step<'_>; 16] = [
    Step::Do(Wish::Version),
    Step::Do(Wish::Open(1)),
    Step::Ask(Wish::Write(1)),
    Step::Replace(1, 0, 0, &['a']),
    Step::Replace(1, 0, 1, &[]),
    Step::Shares(Wish::Write(1), 0),
    Step::Ask(Wish::Search(1)),
    Step::Ask(Wish::Write(1)),
    Step::Ask(Wish::Command),
    Step::Ask(Wish::Write(1)),
    Step::Waiting(5),
    Step::Act(Turn::Request),
    Step::Shares(Wish::Write(1), 3),
    Step::Replace(1, 1, 4, &[]),
    Step::Ask(Wish::Write(1)),
    Step::Waiting(5),
];

/// While a command line puts `ab` before `hello` the user types `!` and selects `ell`: that is selected, two places further on.
const PLACE_BEHIND_AN_INSERTION: [Step<'_>; 15] = [
    Step::Do(Wish::Version),
    Step::Do(Wish::Open(1)),
    Step::Do(Wish::Load(1)),
    Step::Do(Wish::Command),
    Step::Ask(Wish::InsertLine),
    Step::Act(Turn::Request),
    Step::Replace(1, 5, 5, &['!']),
    Step::Ask(Wish::Select(1, 1, 4)),
    Step::Replace(1, 0, 0, &['?']),
    Step::Act(Turn::NotYet),
    Step::Travel,
    Step::Shows(1, 9),
    Step::Put(1, Put::Edit),
    Step::Act(Turn::Request),
    Step::Dot(1, 3, 6),
];

/// While a command line takes `el` out the user types `X` between the two, selects `eXl`, and then `el` of what was there before. Of the
/// first range `X` is left, and the second one is empty where it stood.
const RANGE_THAT_GOES: [Step<'_>; 17] = [
    Step::Do(Wish::Version),
    Step::Do(Wish::Open(1)),
    Step::Do(Wish::Load(1)),
    Step::Do(Wish::Command),
    Step::Ask(Wish::DeleteLine),
    Step::Act(Turn::Request),
    Step::Ask(Wish::Select(1, 1, 3)),
    Step::Replace(1, 2, 2, &['X']),
    Step::Ask(Wish::Select(1, 1, 4)),
    Step::Travel,
    Step::Shows(1, 4),
    Step::Act(Turn::Request),
    Step::Dot(1, 1, 1),
    Step::Act(Turn::NotYet),
    Step::Put(1, Put::Edit),
    Step::Act(Turn::Request),
    Step::Dot(1, 1, 2),
];

/// A file is opened, and at once `ell` of it is selected: that, though the text comes only then.
const PLACE_IN_A_TEXT_TO_COME: [Step<'_>; 8] = [
    Step::Do(Wish::Version),
    Step::Ask(Wish::Open(1)),
    Step::Ask(Wish::Select(1, 1, 4)),
    Step::Act(Turn::Request),
    Step::Act(Turn::NotYet),
    Step::Travel,
    Step::Act(Turn::Request),
    Step::Dot(1, 1, 4),
];

/// Of `hello` the user makes `heXYllo`, selects `Yl`, then `lo`, and then, of another file, `ain`. The host makes the text full, and `XY`
/// is taken back: of the first range `l` is left, the second one still is `lo`, and the third one stays.
const RANGES_BEHIND_WHAT_IS_TAKEN_BACK: [Step<'_>; 15] = [
    Step::Do(Wish::Version),
    Step::Do(Wish::Open(1)),
    Step::Do(Wish::Open(2)),
    Step::Replace(1, 2, 2, &['X', 'Y']),
    Step::Ask(Wish::Select(1, 3, 5)),
    Step::Ask(Wish::Select(1, 5, 7)),
    Step::Ask(Wish::Select(2, 2, 5)),
    Step::Grow(1, 5, 999_995),
    Step::Drop(1, 2, 2),
    Step::Act(Turn::Request),
    Step::Dot(1, 2, 3),
    Step::Act(Turn::Request),
    Step::Dot(1, 3, 5),
    Step::Act(Turn::Request),
    Step::Dot(2, 2, 5),
];

/// So many requests wait and not one more, and none is taken in while an edit has to act. A write that shares one is still taken.
const TOO_MANY: [Step<'_>; 11] = [
    Step::Do(Wish::Version),
    Step::Do(Wish::Open(1)),
    Step::Replace(1, 0, 0, &['a']),
    Step::PutAlone(1),
    Step::Unasked(Wish::Write(1), AskFault::Waiting),
    Step::Put(1, Put::NotFree),
    Step::Ask(Wish::Write(1)),
    Step::AskMany(Wish::Search(2), MOST_WAITING_REQUESTS - 1),
    Step::Unasked(Wish::Write(2), AskFault::TooMany),
    Step::Shares(Wish::Write(1), 0),
    Step::Waiting(MOST_WAITING_REQUESTS),
];

#[test]
fn requests_act_behind_edits(rt: HostRuntime) {
    for steps in [
        WRITE_UNDER_A_LOCK.as_slice(),
        TWO_FILES.as_slice(),
        CLOSE_AND_LEAVE.as_slice(),
        WRITE_BEHIND_A_CLOSE.as_slice(),
        WRITES_SHARE.as_slice(),
        WRITES_APART.as_slice(),
        PLACE_BEHIND_AN_INSERTION.as_slice(),
        RANGE_THAT_GOES.as_slice(),
        PLACE_IN_A_TEXT_TO_COME.as_slice(),
        RANGES_BEHIND_WHAT_IS_TAKEN_BACK.as_slice(),
        TOO_MANY.as_slice(),
    ] {
        let wrong = match sides_of(rt.alloc()) {
            Some(sides) => lent(sides, |sides| first_wrong(sides, steps)),
            None => Some(0),
        };
        assert_eq!(rt; wrong, None);
    }
}
