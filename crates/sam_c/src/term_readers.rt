//! What C reads of a terminal: include/sulgrevad.h says of each call what it hands out. None of them changes the terminal. Each returns
//! `SAM_NO_HANDLE` if the handle is empty; after that, and after `SAM_NONE`, what its other arguments lead to is as it was. Places count
//! runes from the beginning of the text.

ghost use Rattle.std.specs.Prelude.{◌≡◌, Some, drop, is_some, length, option_and_then, option_map};
ghost use Rattle.sam_endpoint.specs.Drawing.{Shows};
ghost use Rattle.sam_endpoint.specs.TermEndpoints.{decided, fault_place, under_way};
ghost use Rattle.sam_crossing.specs.World.{is_locked};
ghost use Rattle.sam_rasp.specs.Rasp.{hole_within};
ghost use Rattle.sam_term.specs.Sound.{unsent_length};
ghost use Rattle.sam_term.specs.Term.{is_changed};
ghost use Rattle.sam_handles.specs.Buffers.{countable};
ghost use Rattle.sam_handles.specs.Calls.{Reports, ReportsCells, ReportsName, ReportsSome, ReportsText, written};
ghost use Rattle.sam_handles.specs.Snapshots.{file_state, term_state, known_of, open_of};
ghost use Rattle.sam_c.specs.Terms.{dot_of, gap_from, rasp_of, shown_of};

use sam_endpoint::read_rasp;
use sam_handles::handle::SamTerm;
use sam_handles::snapshots::{SamTermFile, SamTermState, file_of, known_file, state_of};
use sam_handles::status::{NONE, OK};
use sam_handles::telling::{tell, tell_some, tell_two};
use sam_handles::utf8::{countable, runes_from, tell_name, tell_text};
use sam_handles::with_end;
use sam_rasp::Rasp;
use std::alloc::Global;

/// Hands out how many event calls were taken.
#[unsafe(no_mangle)]
pub extern "C" fn sam_term_events(term: &mut SamTerm, events: &mut u64, alloc: Global) -> u32
    ensures told { Reports term.old.held.end result events.old events.new (λ e. e.events) }
    ensures kept { term.new.held.end ≡ term.old.held.end }
{
    with_end!(term alloc end { *events = end.events(); OK })
}

/// Hands out how many of these events have acted or were refused. Events are done in order, so the event of number `n`, counted from 1, is
/// held if and only if this is below `n`.
#[unsafe(no_mangle)]
pub extern "C" fn sam_term_decided(term: &mut SamTerm, events: &mut u64, alloc: Global) -> u32
    ensures told { Reports term.old.held.end result events.old events.new decided }
    ensures kept { term.new.held.end ≡ term.old.held.end }
{
    with_end!(term alloc end { *events = end.decided(); OK })
}

/// Hands out whether the command lock or a lock of this file is held: an edit of the file would wait.
#[unsafe(no_mangle)]
pub extern "C" fn sam_term_locked(
    term: &mut SamTerm,
    tag: u16,
    locked: &mut bool,
    alloc: Global,
) -> u32
    ensures told { Reports term.old.held.end result locked.old locked.new (λ e. is_locked e.term tag) }
    ensures kept { term.new.held.end ≡ term.old.held.end }
{
    with_end!(term alloc end { *locked = end.term().locked(tag); OK })
}

/// Hands out whether the command lock is held.
#[unsafe(no_mangle)]
pub extern "C" fn sam_term_command_locked(
    term: &mut SamTerm,
    locked: &mut bool,
    alloc: Global,
) -> u32
    ensures told { Reports term.old.held.end result locked.old locked.new (λ e. e.term.command_lock) }
    ensures kept { term.new.held.end ≡ term.old.held.end }
{
    with_end!(term alloc end { *locked = end.term().command_locked(); OK })
}

/// Hands out how many events are held.
#[unsafe(no_mangle)]
pub extern "C" fn sam_term_held(term: &mut SamTerm, events: &mut u64, alloc: Global) -> u32
    ensures told { Reports term.old.held.end result events.old events.new (λ e. length e.term.held) }
    ensures kept { term.new.held.end ≡ term.old.held.end }
{
    with_end!(term alloc end { *events = end.term().held() as u64; OK })
}

/// Hands out how many typed runes are not sent yet.
#[unsafe(no_mangle)]
pub extern "C" fn sam_term_unsent(term: &mut SamTerm, runes: &mut u32, alloc: Global) -> u32
    ensures told { Reports term.old.held.end result runes.old runes.new (λ e. unsent_length e.term.unsent) }
    ensures kept { term.new.held.end ≡ term.old.held.end }
{
    with_end!(term alloc end { *runes = end.term().unsent(); OK })
}

/// Hands out how many messages were composed.
#[unsafe(no_mangle)]
pub extern "C" fn sam_term_sent(term: &mut SamTerm, messages: &mut u64, alloc: Global) -> u32
    ensures told { Reports term.old.held.end result messages.old messages.new (λ e. e.term.sent) }
    ensures kept { term.new.held.end ≡ term.old.held.end }
{
    with_end!(term alloc end { *messages = end.term().sent(); OK })
}

/// Hands out how many of the composed messages the host has not taken, as far as its frames say. It is an upper bound: a message that
/// the host answers by no frame counts until a later one is answered, and for good once the session is over. 0 means that the host has
/// taken them all.
#[unsafe(no_mangle)]
pub extern "C" fn sam_term_under_way(term: &mut SamTerm, messages: &mut u64, alloc: Global) -> u32
    ensures told { Reports term.old.held.end result messages.old messages.new under_way }
    ensures kept { term.new.held.end ≡ term.old.held.end }
{
    with_end!(term alloc end { *messages = end.under_way(); OK })
}

/// Hands out how many bytes of the host's stream stand before the frame that is wrong, where the terminal has stopped for a fault of the
/// stream. `SAM_NONE` if it goes on, or has stopped since it refused.
#[unsafe(no_mangle)]
pub extern "C" fn sam_term_fault_place(term: &mut SamTerm, place: &mut u64, alloc: Global) -> u32
    ensures told { ReportsSome term.old.held.end result place.old place.new fault_place }
    ensures kept { term.new.held.end ≡ term.old.held.end }
{
    with_end!(term alloc end {
        tell_some(end.fault_place(), place)
    })
}

/// Hands out how many runes the host's snarf buffer has, as the host said last.
#[unsafe(no_mangle)]
pub extern "C" fn sam_term_snarf_len(term: &mut SamTerm, runes: &mut u32, alloc: Global) -> u32
    ensures told { Reports term.old.held.end result runes.old runes.new (λ e. e.term.snarf_length) }
    ensures kept { term.new.held.end ≡ term.old.held.end }
{
    with_end!(term alloc end { *runes = end.term().snarf_len(); OK })
}

/// Hands out whether the host has ended the session.
#[unsafe(no_mangle)]
pub extern "C" fn sam_term_exited(term: &mut SamTerm, exited: &mut bool, alloc: Global) -> u32
    ensures told { Reports term.old.held.end result exited.old exited.new (λ e. e.term.has_exited) }
    ensures kept { term.new.held.end ≡ term.old.held.end }
{
    with_end!(term alloc end { *exited = end.term().exited(); OK })
}

/// Hands out the version of the protocol that both sides speak: 1 or 2.
#[unsafe(no_mangle)]
pub extern "C" fn sam_term_version(term: &mut SamTerm, version: &mut u16, alloc: Global) -> u32
    ensures told { Reports term.old.held.end result version.old version.new (λ e. e.term.version) }
    ensures kept { term.new.held.end ≡ term.old.held.end }
{
    with_end!(term alloc end { *version = end.term().version(); OK })
}

/// Hands out whether the terminal knows a file of this tag.
#[unsafe(no_mangle)]
pub extern "C" fn sam_term_is_known(
    term: &mut SamTerm,
    tag: u16,
    known: &mut bool,
    alloc: Global,
) -> u32
    ensures told { Reports term.old.held.end result known.old known.new (λ e. is_some (known_of e tag)) }
    ensures kept { term.new.held.end ≡ term.old.held.end }
{
    with_end!(term alloc end { *known = known_file(&end, tag).is_some(); OK })
}

/// Hands out whether a file is open.
#[unsafe(no_mangle)]
pub extern "C" fn sam_term_is_open(
    term: &mut SamTerm,
    tag: u16,
    opened: &mut bool,
    alloc: Global,
) -> u32
    ensures told { Reports term.old.held.end result opened.old opened.new (λ e. is_some (open_of e tag)) }
    ensures kept { term.new.held.end ≡ term.old.held.end }
{
    with_end!(term alloc end { *opened = end.term().rasp(tag).is_some(); OK })
}

/// Hands out the tag of the file that the host named last in its answer to a change of the work file or to a new file. `SAM_NONE` if it
/// named none.
#[unsafe(no_mangle)]
pub extern "C" fn sam_term_current(term: &mut SamTerm, tag: &mut u16, alloc: Global) -> u32
    ensures told { ReportsSome term.old.held.end result tag.old tag.new (λ e. e.term.current) }
    ensures kept { term.new.held.end ≡ term.old.held.end }
{
    with_end!(term alloc end {
        tell_some(end.term().current(), tag)
    })
}

/// Hands out whether a known file is dirty, as the host said last. `SAM_NONE` if the tag is not known.
#[unsafe(no_mangle)]
pub extern "C" fn sam_term_is_dirty(
    term: &mut SamTerm,
    tag: u16,
    dirty: &mut bool,
    alloc: Global,
) -> u32
    ensures told { ReportsSome term.old.held.end result dirty.old dirty.new (λ e. option_map (λ f. f.dirty) (known_of e tag)) }
    ensures kept { term.new.held.end ≡ term.old.held.end }
{
    with_end!(term alloc end {
        match known_file(&end, tag) {
            Some(file) => tell(file.dirty, dirty),
            None => NONE,
        }
    })
}

/// Hands out whether a file may differ from what was written last: the host said that it is dirty, or the user typed into it or cut from
/// it here since. False if the tag is not known.
#[unsafe(no_mangle)]
pub extern "C" fn sam_term_is_changed(
    term: &mut SamTerm,
    tag: u16,
    changed: &mut bool,
    alloc: Global,
) -> u32
    ensures told { Reports term.old.held.end result changed.old changed.new (λ e. is_changed e.term tag) }
    ensures kept { term.new.held.end ≡ term.old.held.end }
{
    with_end!(term alloc end { *changed = end.term().is_changed(tag); OK })
}

/// Hands out the length of an open file in runes, gaps counted. `SAM_NONE` if it is not open.
#[unsafe(no_mangle)]
pub extern "C" fn sam_term_len(term: &mut SamTerm, tag: u16, runes: &mut u32, alloc: Global) -> u32
    ensures told { ReportsSome term.old.held.end result runes.old runes.new (λ e. option_map (λ w. length w.rasp) (open_of e tag)) }
    ensures kept { term.new.held.end ≡ term.old.held.end }
{
    with_end!(term alloc end {
        match end.term().rasp(tag) {
            Some(rasp) => tell(rasp.len(), runes),
            None => NONE,
        }
    })
}

/// Hands out the dot of an open file: the places where the selection begins and ends. `SAM_NONE` if it is not open.
#[unsafe(no_mangle)]
pub extern "C" fn sam_term_dot(
    term: &mut SamTerm,
    tag: u16,
    start: &mut u32,
    end: &mut u32,
    alloc: Global,
) -> u32
    ensures told { ReportsSome term.old.held.end result (start.old, end.old) (start.new, end.new) (λ e. dot_of e tag) }
    ensures kept { term.new.held.end ≡ term.old.held.end }
{
    with_end!(term alloc held {
        tell_two(held.term().dot(tag), start, end)
    })
}

/// Hands out what an open file shows: the places where its view begins and ends. `SAM_NONE` if it is not open.
#[unsafe(no_mangle)]
pub extern "C" fn sam_term_view_of(
    term: &mut SamTerm,
    tag: u16,
    start: &mut u32,
    end: &mut u32,
    alloc: Global,
) -> u32
    ensures told { ReportsSome term.old.held.end result (start.old, end.old) (start.new, end.new)
        (λ e. option_map shown_of (open_of e tag)) }
    ensures kept { term.new.held.end ≡ term.old.held.end }
{
    with_end!(term alloc held {
        tell_two(held.term().view(tag), start, end)
    })
}

/// Hands out how many tags the terminal has room for: each file that it knows has a tag below this.
#[unsafe(no_mangle)]
pub extern "C" fn sam_term_tags(term: &mut SamTerm, count: &mut usize, alloc: Global) -> u32
    ensures told { Reports term.old.held.end result count.old count.new (λ e. length e.term.files) }
    ensures kept { term.new.held.end ≡ term.old.held.end }
{
    with_end!(term alloc end { *count = end.term().files().len(); OK })
}

/// Puts the name of a known file into the buffer in UTF-8, as many whole runes as have room, and hands out how many bytes. `SAM_NONE` if
/// the tag is not known.
#[unsafe(no_mangle)]
pub extern "C" fn sam_term_name(
    term: &mut SamTerm,
    tag: u16,
    into: &mut [u8],
    len: &mut usize,
    alloc: Global,
) -> u32
    ensures told { ReportsName term.old.held.end result into.old into.new len.old len.new (λ e. option_map (λ f. f.name) (known_of e tag)) }
    ensures kept { term.new.held.end ≡ term.old.held.end }
{
    with_end!(term alloc end {
        match known_file(&end, tag) {
            Some(file) => tell_name(file.name.as_slice(), into, len),
            None => NONE,
        }
    })
}

/// Puts the pattern that the host sent last into the buffer in UTF-8, as many whole runes as have room, and hands out how many bytes.
#[unsafe(no_mangle)]
pub extern "C" fn sam_term_pattern(
    term: &mut SamTerm,
    into: &mut [u8],
    len: &mut usize,
    alloc: Global,
) -> u32
    ensures told { ReportsName term.old.held.end result into.old into.new len.old len.new (λ e. Some e.term.pattern) }
    ensures kept { term.new.held.end ≡ term.old.held.end }
{
    with_end!(term alloc end {
        tell_name(end.term().pattern(), into, len)
    })
}

/// Puts the snarfed text that the host sent last (`sam_term_get_snarf`), from a place on, into the buffer in UTF-8, as many whole runes as
/// have room. Hands out how many bytes and how many runes.
#[unsafe(no_mangle)]
pub extern "C" fn sam_term_snarfed(
    term: &mut SamTerm,
    place: u32,
    into: &mut [u8],
    bytes: &mut usize,
    runes: &mut u32,
    alloc: Global,
) -> u32
    ensures told { ReportsText term.old.held.end result (written into.old bytes.old runes.old) (written into.new bytes.new runes.new)
        (λ e. Some (drop place (countable e.term.snarf))) }
    ensures kept { term.new.held.end ≡ term.old.held.end }
{
    with_end!(term alloc end {
        tell_text(runes_from(countable(end.term().snarf()), place), into, bytes, runes)
    })
}

/// Puts the members of a rasp from a place on into the buffer, as many as there are and have room, and returns how many.
fn read_members(rasp: &Rasp, place: u32, into: &mut [u32]) -> u32
    ensures { Shows rasp.now place into.old into.new result }
{
    let most = rasp.len() as usize;
    read_rasp(rasp, place, into).min(most) as u32
}

/// Puts the runes of an open file from a place on into the buffer as numbers, as many as there are and have room, with `SAM_GAP` for each
/// that is not loaded, and hands out how many. `SAM_NONE` if the file is not open.
#[unsafe(no_mangle)]
pub extern "C" fn sam_term_read(
    term: &mut SamTerm,
    tag: u16,
    place: u32,
    into: &mut [u32],
    count: &mut u32,
    alloc: Global,
) -> u32
    ensures told { ReportsCells term.old.held.end result into.old into.new count.old count.new place (λ e. rasp_of e tag) }
    ensures kept { term.new.held.end ≡ term.old.held.end }
{
    with_end!(term alloc end {
        match end.term().rasp(tag) {
            Some(rasp) => {
                *count = read_members(rasp, place, into);
                OK
            }
            None => NONE,
        }
    })
}

/// Returns the first place of a rasp, at or after a place, whose rune is not loaded.
fn gap_in(rasp: &Rasp, place: u32) -> Option<u32>
    ensures { result ≡ option_map (λ hole. hole.0) (hole_within rasp.now place (length rasp.now)) }
{
    if place > rasp.len() {
        return None;
    }
    match rasp.first_hole(place, rasp.len()) {
        Some(hole) => Some(hole.0),
        None => None,
    }
}

/// Hands out the first place of an open file, at or after `place`, whose rune is not loaded. `SAM_NONE` if the file is not open, or if
/// all runes are loaded from there on.
#[unsafe(no_mangle)]
pub extern "C" fn sam_term_first_gap(
    term: &mut SamTerm,
    tag: u16,
    place: u32,
    gap: &mut u32,
    alloc: Global,
) -> u32
    ensures told { ReportsSome term.old.held.end result gap.old gap.new (λ e. option_and_then (gap_from place) (open_of e tag)) }
    ensures kept { term.new.held.end ≡ term.old.held.end }
{
    with_end!(term alloc end {
        let found = match end.term().rasp(tag) {
            Some(rasp) => gap_in(rasp, place),
            None => None,
        };
        tell_some(found, gap)
    })
}

/// Hands out what a terminal holds, in one call.
#[unsafe(no_mangle)]
pub extern "C" fn sam_term_state(term: &mut SamTerm, state: &mut SamTermState, alloc: Global) -> u32
    ensures told { Reports term.old.held.end result state.old state.new term_state }
    ensures kept { term.new.held.end ≡ term.old.held.end }
{
    with_end!(term alloc end { *state = state_of(&end); OK })
}

/// Hands out what a terminal knows of a tag, in one call.
#[unsafe(no_mangle)]
pub extern "C" fn sam_term_file(
    term: &mut SamTerm,
    tag: u16,
    file: &mut SamTermFile,
    alloc: Global,
) -> u32
    ensures told { Reports term.old.held.end result file.old file.new (λ e. file_state e tag) }
    ensures kept { term.new.held.end ≡ term.old.held.end }
{
    with_end!(term alloc end { *file = file_of(&end, tag); OK })
}
