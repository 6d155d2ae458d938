//! What C reads of the text of an open file, in runes, bytes, code units and lines: include/sulgrevad.h says of each call what it hands
//! out. None of them changes the terminal. Each returns `SAM_NO_HANDLE` if the handle is empty, and then `SAM_NONE` if the file is not
//! open; after these what its other arguments lead to is as it was. Places count runes from the beginning of the text.

ghost use Rattle.std.specs.Prelude.{◌≡◌, drop, option_and_then, option_map};
ghost use Rattle.sam_handles.specs.Calls.{ReportsSome, ReportsText, written};
ghost use Rattle.sam_handles.specs.Measures.{front_runes, line_after, line_before, place_after, sizes};
ghost use Rattle.sam_c.specs.Terms.{rasp_of};

use sam_endpoint::TermEndpoint;
use sam_handles::handle::SamTerm;
use sam_handles::measures::tell_front;
use sam_handles::members::Members;
use sam_handles::status::NONE;
use sam_handles::telling::{tell, tell_some, tell_two};
use sam_handles::with_end;
use sam_rasp::Measure;
use std::alloc::Global;

/// Returns what the loaded runes of an open file from the place `start` to the place `end` take by a measure, and how many there are not
/// loaded; `None` if the file is not open.
fn sizes_of(
    held: &TermEndpoint,
    tag: u16,
    measure: Measure,
    start: u32,
    end: u32,
) -> Option<(u32, u32)>
    ensures { result ≡ option_map (λ text. sizes text measure start end) (rasp_of held.now tag) }
{
    match held.term().rasp(tag) {
        Some(rasp) => {
            let all = rasp.tally(start, end);
            Some((all.count(measure), all.gaps))
        }
        None => None,
    }
}

/// Puts the text of an open file from a place on, up to the first gap, into the buffer in UTF-8, as many whole runes as have room. Hands
/// out how many bytes and how many runes.
#[unsafe(no_mangle)]
pub extern "C" fn sam_term_text(
    term: &mut SamTerm,
    tag: u16,
    place: u32,
    into: &mut [u8],
    bytes: &mut usize,
    runes: &mut u32,
    alloc: Global,
) -> u32
    ensures told { ReportsText term.old.held.end result (written into.old bytes.old runes.old) (written into.new bytes.new runes.new)
        (λ e. option_map (λ text. front_runes (drop place text)) (rasp_of e tag)) }
    ensures kept { term.new.held.end ≡ term.old.held.end }
{
    with_end!(term alloc end {
        match end.term().rasp(tag) {
            Some(rasp) => tell_front(Members::of(rasp), place, into, bytes, runes),
            None => NONE,
        }
    })
}

/// Hands out how many bytes the loaded runes of an open file from the place `start` to the place `end` take in UTF-8, and how many there
/// are not loaded.
#[unsafe(no_mangle)]
pub extern "C" fn sam_term_bytes(
    term: &mut SamTerm,
    tag: u16,
    start: u32,
    end: u32,
    bytes: &mut usize,
    gaps: &mut u32,
    alloc: Global,
) -> u32
    ensures told { ReportsSome term.old.held.end result (bytes.old, gaps.old) (bytes.new, gaps.new)
        (λ e. option_map (λ text. sizes text Measure.Bytes start end) (rasp_of e tag)) }
    ensures kept { term.new.held.end ≡ term.old.held.end }
{
    with_end!(term alloc held {
        match sizes_of(&held, tag, Measure::Bytes, start, end) {
            Some(sizes) => tell_two(Some((sizes.0 as usize, sizes.1)), bytes, gaps),
            None => NONE,
        }
    })
}

/// Hands out the place after the loaded runes of an open file from the place `start` on that so many bytes hold whole in UTF-8: it is at a
/// gap or at the end of the text at the latest.
#[unsafe(no_mangle)]
pub extern "C" fn sam_term_place(
    term: &mut SamTerm,
    tag: u16,
    start: u32,
    bytes: usize,
    place: &mut u32,
    alloc: Global,
) -> u32
    ensures told { ReportsSome term.old.held.end result place.old place.new
        (λ e. option_map (λ text. place_after text start Measure.Bytes bytes) (rasp_of e tag)) }
    ensures kept { term.new.held.end ≡ term.old.held.end }
{
    with_end!(term alloc end {
        match end.term().rasp(tag) {
            Some(rasp) => tell(rasp.place_after(start, Measure::Bytes, bytes), place),
            None => NONE,
        }
    })
}

/// Hands out how many code units the loaded runes of an open file from the place `start` to the place `end` take in UTF-16, and how many
/// there are not loaded.
#[unsafe(no_mangle)]
pub extern "C" fn sam_term_units(
    term: &mut SamTerm,
    tag: u16,
    start: u32,
    end: u32,
    units: &mut u32,
    gaps: &mut u32,
    alloc: Global,
) -> u32
    ensures told { ReportsSome term.old.held.end result (units.old, gaps.old) (units.new, gaps.new)
        (λ e. option_map (λ text. sizes text Measure.Units start end) (rasp_of e tag)) }
    ensures kept { term.new.held.end ≡ term.old.held.end }
{
    with_end!(term alloc held {
        tell_two(sizes_of(&held, tag, Measure::Units, start, end), units, gaps)
    })
}

/// Hands out the place after the loaded runes of an open file from the place `start` on that so many code units of UTF-16 hold whole: it is
/// at a gap or at the end of the text at the latest.
#[unsafe(no_mangle)]
pub extern "C" fn sam_term_unit_place(
    term: &mut SamTerm,
    tag: u16,
    start: u32,
    units: u32,
    place: &mut u32,
    alloc: Global,
) -> u32
    ensures told { ReportsSome term.old.held.end result place.old place.new
        (λ e. option_map (λ text. place_after text start Measure.Units units) (rasp_of e tag)) }
    ensures kept { term.new.held.end ≡ term.old.held.end }
{
    with_end!(term alloc end {
        match end.term().rasp(tag) {
            Some(rasp) => tell(rasp.place_after(start, Measure::Units, units as usize), place),
            None => NONE,
        }
    })
}

/// Hands out the place after so many line ends of an open file from the place `start` on: where a line begins, or `start` itself for none.
/// `SAM_NONE` also if a gap or the end of the text comes before.
#[unsafe(no_mangle)]
pub extern "C" fn sam_term_line(
    term: &mut SamTerm,
    tag: u16,
    start: u32,
    lines: u32,
    place: &mut u32,
    alloc: Global,
) -> u32
    ensures told { ReportsSome term.old.held.end result place.old place.new
        (λ e. option_and_then (λ text. line_after text start lines) (rasp_of e tag)) }
    ensures kept { term.new.held.end ≡ term.old.held.end }
{
    with_end!(term alloc end {
        let found = match end.term().rasp(tag) {
            Some(rasp) => rasp.line_after(start, lines),
            None => None,
        };
        tell_some(found, place)
    })
}

/// Hands out where the line of an open file begins that is so many lines before that of the place `start`: the line of `start` itself for
/// none. `SAM_NONE` also if a gap comes before it, if there are fewer lines, or if `start` is after the end of the text.
#[unsafe(no_mangle)]
pub extern "C" fn sam_term_line_before(
    term: &mut SamTerm,
    tag: u16,
    start: u32,
    lines: u32,
    place: &mut u32,
    alloc: Global,
) -> u32
    ensures told { ReportsSome term.old.held.end result place.old place.new
        (λ e. option_and_then (λ text. line_before text start lines) (rasp_of e tag)) }
    ensures kept { term.new.held.end ≡ term.old.held.end }
{
    with_end!(term alloc end {
        let found = match end.term().rasp(tag) {
            Some(rasp) => rasp.line_before(start, lines),
            None => None,
        };
        tell_some(found, place)
    })
}

/// Hands out how many of the loaded runes of an open file from the place `start` to the place `end` end a line, and how many runes there
/// are not loaded.
#[unsafe(no_mangle)]
pub extern "C" fn sam_term_lines(
    term: &mut SamTerm,
    tag: u16,
    start: u32,
    end: u32,
    lines: &mut u32,
    gaps: &mut u32,
    alloc: Global,
) -> u32
    ensures told { ReportsSome term.old.held.end result (lines.old, gaps.old) (lines.new, gaps.new)
        (λ e. option_map (λ text. sizes text Measure.Newlines start end) (rasp_of e tag)) }
    ensures kept { term.new.held.end ≡ term.old.held.end }
{
    with_end!(term alloc held {
        tell_two(sizes_of(&held, tag, Measure::Newlines, start, end), lines, gaps)
    })
}
