//! Steps of a layer of edits that wait, and what is shown after them.
use sam_pending::{Pending, PendingFault, Shown};
use sam_test_support::lent;

/// A call, or a look with its answer.
#[derive(Clone, Copy)]
enum Step<'a> {
    /// The runes in place of what is shown between two places, in this group or in the newest.
    Replace(u32, u32, u32, &'a [char]),
    /// So many runes typed one after another, each behind the other, from this place on.
    Keys(u32, u32),
    /// The host puts so many members in at a place, and they are shown at another.
    Insert(u32, u32, u32),
    /// The host removes what stands between two places, and so many stretches of what is shown go.
    Remove(u32, u32, usize),
    /// The host stores so many runes from a place on, and so many stretches of what is shown have them.
    Fill(u32, u32, usize),
    /// The groups up to this one come to the rasp, by so many removals and insertions.
    BringUpTo(u32, usize, usize),
    /// The next edit is between these places of the rasp and has so many runes, and it is made.
    Make(u32, u32, usize),
    /// The same, of the groups up to this one.
    MakeUpTo(u32, u32, u32, usize),
    /// Whether an edit is left of the groups up to this one.
    IsLeft(u32, bool),
    /// The rasp has no room for the next edit.
    Full,
    /// So many runes are taken back, which stood at this place of what is shown; none are if there are 0.
    Drop(u32, usize),
    /// How many pieces what is shown has, and how many members.
    Pieces(u32, u32),
    /// How many runes wait, and how many members the rasp has.
    Waits(u32, u32),
    /// Nothing waits.
    Rests,
}

/// How many pieces a test reads at most.
const MOST_PIECES: u32 = 100;

/// How many edits a test makes by one step at most.
const MOST_EDITS: u32 = 100;

fn pieces(pending: &Pending) -> u32 {
    let mut place: u32 = 0;
    for count in 0..MOST_PIECES {
        let Some(shown) = pending.shown_at(place) else {
            return count;
        };
        let len = match shown {
            Shown::Rasp(_, count) => count,
            Shown::Waiting(runes) => u32::try_from(runes.len()).unwrap_or(u32::MAX),
        };
        place = place.saturating_add(len);
    }
    MOST_PIECES
}

fn keys(pending: &mut Pending, place: u32, count: u32) -> Result<(), PendingFault> {
    for key in 0..count {
        let at = place.saturating_add(key);
        let group = pending.newest();
        pending.replace(group, at, at, ['x'].as_slice())?;
    }
    Ok(())
}

/// Whether the next edit has these places and so many runes; it is made.
fn makes(
    pending: &mut Pending,
    up_to: Option<u32>,
    (p, q, count): (u32, u32, usize),
) -> Result<bool, PendingFault> {
    let Some(edit) = pending.next_edit(up_to)? else {
        return Ok(false);
    };
    pending.make_next(up_to);
    Ok(edit.p == p && edit.q == q && edit.text.len() == count)
}

/// Makes the edits of the groups up to this one, so many as a step has at most. Returns how many of them remove, and how many insert.
fn bring(pending: &mut Pending, group: u32) -> Result<(usize, usize), PendingFault> {
    let mut removals: usize = 0;
    let mut insertions: usize = 0;
    for _ in 0..MOST_EDITS {
        let Some(edit) = pending.next_edit(Some(group))? else {
            return Ok((removals, insertions));
        };
        pending.make_next(Some(group));
        if edit.text.len() == 0 {
            removals = removals.saturating_add(1);
        } else {
            insertions = insertions.saturating_add(1);
        }
    }
    Ok((removals, insertions))
}

/// Whether a call is taken on, or a look has its answer.
fn is_right(pending: &mut Pending, step: Step<'_>) -> Result<bool, PendingFault> {
    match step {
        Step::Replace(group, p, q, runes) => {
            let newest = pending.newest().max(group);
            pending.replace(newest, p, q, runes)?;
            Ok(true)
        }
        Step::Keys(place, count) => {
            keys(pending, place, count)?;
            Ok(true)
        }
        Step::Insert(p, count, place) => Ok(pending.insert_by_host(p, count)? == place),
        Step::Remove(p, q, told) => Ok(pending.remove_by_host(p, q)?.len() == told),
        Step::Fill(p, count, told) => Ok(pending.fill_by_host(p, count)?.len() == told),
        Step::BringUpTo(group, removals, insertions) => {
            Ok(bring(pending, group)? == (removals, insertions))
        }
        Step::Make(p, q, count) => makes(pending, None, (p, q, count)),
        Step::MakeUpTo(group, p, q, count) => makes(pending, Some(group), (p, q, count)),
        Step::IsLeft(group, is_left) => Ok(pending.has_next(Some(group)) == is_left),
        Step::Full => Ok(pending.next_edit(None).err() == Some(PendingFault::TooLong)),
        Step::Drop(place, count) => match pending.drop_next(None)? {
            Some(dropped) => Ok(
                dropped.place == place
                    && dropped.text.len() == count
                    && dropped.count as usize == count,
            ),
            None => Ok(count == 0),
        },
        Step::Pieces(count, len) => Ok(pieces(pending) == count && pending.shown_len() == len),
        Step::Waits(count, len) => Ok(pending.waiting() == count && pending.rasp_len() == len),
        Step::Rests => Ok(pending.is_resting()),
    }
}

/// The number of the first step, counted from 0, that is refused or answered otherwise.
fn first_wrong(pending: &mut Pending, steps: &[Step<'_>]) -> Option<usize> {
    for (at, step) in steps.iter().enumerate() {
        if is_right(pending, *step) != Ok(true) {
            return Some(at);
        }
    }
    None
}

/// `hello` gets a `!`, and the host ` world` before it; `ell` goes, and the host takes `lo w`; all comes to the rasp.
const STORY: [Step<'_>; 9] = [
    Step::Replace(1, 5, 5, &['!']),
    Step::Insert(5, 6, 5),
    Step::Pieces(2, 12),
    Step::Replace(2, 1, 4, &[]),
    Step::Fill(0, 11, 2),
    Step::Remove(3, 7, 1),
    Step::BringUpTo(1, 0, 1),
    Step::BringUpTo(2, 1, 0),
    Step::Rests,
];

/// Runes that are typed one after another are one run, and come to the rasp by one edit. The next change there makes one run of all.
const MANY_KEYS: [Step<'_>; 8] = [
    Step::Replace(1, 2, 2, &['y']),
    Step::Keys(3, 1_000),
    Step::Pieces(3, 1_006),
    Step::Waits(1_001, 5),
    Step::BringUpTo(1, 0, 1),
    Step::Pieces(3, 1_006),
    Step::Insert(0, 1, 0),
    Step::Pieces(1, 1_007),
];

/// `hello` becomes `ho!`, one edit at a time: what goes is first.
const ONE_BY_ONE: [Step<'_>; 6] = [
    Step::Replace(1, 5, 5, &['!']),
    Step::Replace(1, 1, 4, &[]),
    Step::Make(1, 4, 0),
    Step::Make(2, 2, 1),
    Step::Rests,
    Step::Waits(0, 3),
];

/// `hello` gets a `!`, and by a later group `ell` goes: the first group comes to the rasp whole before the later one.
const UP_TO_A_GROUP: [Step<'_>; 9] = [
    Step::Replace(1, 5, 5, &['!']),
    Step::Replace(2, 1, 4, &[]),
    Step::IsLeft(0, false),
    Step::MakeUpTo(1, 5, 5, 1),
    Step::IsLeft(1, false),
    Step::IsLeft(2, true),
    Step::MakeUpTo(2, 1, 4, 0),
    Step::Rests,
    Step::Waits(0, 3),
];

/// Two runes are typed, and then the host makes the text full: they are taken back, and nothing is before or after.
const NO_ROOM: [Step<'_>; 8] = [
    Step::Replace(1, 5, 5, &['!', '?']),
    Step::Drop(0, 0),
    Step::Insert(5, 999_995, 5),
    Step::Full,
    Step::Drop(1_000_000, 2),
    Step::Pieces(1, 1_000_000),
    Step::Drop(0, 0),
    Step::Rests,
];

#[test]
fn edits_wait_and_come_to_the_rasp(rt: HostRuntime) {
    for steps in [
        STORY.as_slice(),
        MANY_KEYS.as_slice(),
        ONE_BY_ONE.as_slice(),
        UP_TO_A_GROUP.as_slice(),
        NO_ROOM.as_slice(),
    ] {
        let wrong = match Pending::new(rt.alloc(), 5) {
            Ok(pending) => lent(pending, |pending| first_wrong(pending, steps)),
            Err(_) => Some(0),
        };
        assert_eq!(rt; wrong, None);
    }
}
