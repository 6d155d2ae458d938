//! What C reads of an overlay: include/sulgrevad.h says of each call what it hands out. None of them changes it. Each returns
//! `SAM_NO_HANDLE` if the handle is empty; after that, and after `SAM_NONE`, what its other arguments lead to is as it was. Places count
//! runes and gaps from the beginning of what is shown.

ghost use Rattle.std.specs.Prelude.{◌≡◌, Some, drop, length, option_map};
ghost use Rattle.sam_endpoint.specs.TermEndpoints.{fault_place};
ghost use Rattle.sam_overlay.specs.Calls.{waiting_at};
ghost use Rattle.sam_handles.specs.Buffers.{countable};
ghost use Rattle.sam_handles.specs.Calls.{Reports, ReportsCells, ReportsName, ReportsSome, ReportsText, written};
ghost use Rattle.sam_handles.specs.Measures.{front_runes};
ghost use Rattle.sam_handles.specs.Shown.{gap_of, text_of};
ghost use Rattle.sam_handles.specs.Snapshots.{file_state, term_state, known_of};
ghost use Rattle.sam_c.specs.Overlays.{OverlayNextWaiting};

use sam_handles::handle::SamOverlay;
use sam_handles::shown::{read_shown, tell_file_name, tell_shown};
use sam_handles::snapshots::{SamTermFile, SamTermState, file_of, state_of};
use sam_handles::status::OK;
use sam_handles::telling::tell_some;
use sam_handles::utf8::{countable, runes_from, tell_name, tell_text};
use sam_handles::with_end;
use std::alloc::Global;

/// Hands out what the terminal holds, in one call.
#[unsafe(no_mangle)]
pub extern "C" fn sam_overlay_state(
    overlay: &mut SamOverlay,
    state: &mut SamTermState,
    alloc: Global,
) -> u32
    ensures told { Reports overlay.old.held.end result state.old state.new (λ e. term_state e.ordered.overlay.end) }
    ensures kept { overlay.new.held.end ≡ overlay.old.held.end }
{
    with_end!(overlay alloc end { *state = state_of(end.overlay().end()); OK })
}

/// Hands out what the terminal knows of a tag, in one call. Length, dot and view are those of what is loaded, without the edits that wait.
#[unsafe(no_mangle)]
pub extern "C" fn sam_overlay_file(
    overlay: &mut SamOverlay,
    tag: u16,
    file: &mut SamTermFile,
    alloc: Global,
) -> u32
    ensures told { Reports overlay.old.held.end result file.old file.new (λ e. file_state e.ordered.overlay.end tag) }
    ensures kept { overlay.new.held.end ≡ overlay.old.held.end }
{
    with_end!(overlay alloc end { *file = file_of(end.overlay().end(), tag); OK })
}

/// Puts the name of a known file into the buffer in UTF-8, as many whole runes as have room, and hands out how many bytes. `SAM_NONE` if
/// the tag is not known.
#[unsafe(no_mangle)]
pub extern "C" fn sam_overlay_name(
    overlay: &mut SamOverlay,
    tag: u16,
    into: &mut [u8],
    len: &mut usize,
    alloc: Global,
) -> u32
    ensures told { ReportsName overlay.old.held.end result into.old into.new len.old len.new
        (λ e. option_map (λ f. f.name) (known_of e.ordered.overlay.end tag)) }
    ensures kept { overlay.new.held.end ≡ overlay.old.held.end }
{
    with_end!(overlay alloc end { tell_file_name(end.overlay().end(), tag, into, len) })
}

/// Hands out the tag of the file that the host named last in its answer to a change of the work file or to a new file. `SAM_NONE` if it
/// named none.
#[unsafe(no_mangle)]
pub extern "C" fn sam_overlay_current(overlay: &mut SamOverlay, tag: &mut u16, alloc: Global) -> u32
    ensures told { ReportsSome overlay.old.held.end result tag.old tag.new (λ e. e.ordered.overlay.end.term.current) }
    ensures kept { overlay.new.held.end ≡ overlay.old.held.end }
{
    with_end!(overlay alloc end {
        tell_some(end.overlay().end().term().current(), tag)
    })
}

/// Puts the pattern that the host sent last into the buffer in UTF-8, as many whole runes as have room, and hands out how many bytes.
#[unsafe(no_mangle)]
pub extern "C" fn sam_overlay_pattern(
    overlay: &mut SamOverlay,
    into: &mut [u8],
    len: &mut usize,
    alloc: Global,
) -> u32
    ensures told { ReportsName overlay.old.held.end result into.old into.new len.old len.new
        (λ e. Some e.ordered.overlay.end.term.pattern) }
    ensures kept { overlay.new.held.end ≡ overlay.old.held.end }
{
    with_end!(overlay alloc end {
        tell_name(end.overlay().end().term().pattern(), into, len)
    })
}

/// Puts the snarfed text that the host sent last, from a place on, into the buffer in UTF-8, as many whole runes as have room. Hands out
/// how many bytes and how many runes.
#[unsafe(no_mangle)]
pub extern "C" fn sam_overlay_snarfed(
    overlay: &mut SamOverlay,
    place: u32,
    into: &mut [u8],
    bytes: &mut usize,
    runes: &mut u32,
    alloc: Global,
) -> u32
    ensures told { ReportsText overlay.old.held.end result (written into.old bytes.old runes.old) (written into.new bytes.new runes.new)
        (λ e. Some (drop place (countable e.ordered.overlay.end.term.snarf))) }
    ensures kept { overlay.new.held.end ≡ overlay.old.held.end }
{
    with_end!(overlay alloc end {
        tell_text(runes_from(countable(end.overlay().end().term().snarf()), place), into, bytes, runes)
    })
}

/// Hands out how many bytes of the host's stream stand before the frame that is wrong, where the terminal has stopped for a fault of the
/// stream. `SAM_NONE` if it goes on, or has stopped since it refused.
#[unsafe(no_mangle)]
pub extern "C" fn sam_overlay_fault_place(
    overlay: &mut SamOverlay,
    place: &mut u64,
    alloc: Global,
) -> u32
    ensures told { ReportsSome overlay.old.held.end result place.old place.new (λ e. fault_place e.ordered.overlay.end) }
    ensures kept { overlay.new.held.end ≡ overlay.old.held.end }
{
    with_end!(overlay alloc end {
        tell_some(end.overlay().end().fault_place(), place)
    })
}

/// Hands out how many bytes are pending.
#[unsafe(no_mangle)]
pub extern "C" fn sam_overlay_pending(
    overlay: &mut SamOverlay,
    len: &mut usize,
    alloc: Global,
) -> u32
    ensures told { Reports overlay.old.held.end result len.old len.new (λ e. length e.ordered.overlay.end.pending_bytes) }
    ensures kept { overlay.new.held.end ≡ overlay.old.held.end }
{
    with_end!(overlay alloc end { *len = end.overlay().end().pending(); OK })
}

/// Hands out how many runes of a file wait, those that a later edit removes among them: 0 if the file is not open.
#[unsafe(no_mangle)]
pub extern "C" fn sam_overlay_waiting(
    overlay: &mut SamOverlay,
    tag: u16,
    runes: &mut u32,
    alloc: Global,
) -> u32
    ensures told { Reports overlay.old.held.end result runes.old runes.new (λ e. waiting_at e.ordered.overlay tag) }
    ensures kept { overlay.new.held.end ≡ overlay.old.held.end }
{
    with_end!(overlay alloc end { *runes = end.overlay().waiting(tag); OK })
}

/// Hands out how many runes and gaps are shown of an open file. `SAM_NONE` if it is not open.
#[unsafe(no_mangle)]
pub extern "C" fn sam_overlay_len(
    overlay: &mut SamOverlay,
    tag: u16,
    runes: &mut u32,
    alloc: Global,
) -> u32
    ensures told { ReportsSome overlay.old.held.end result runes.old runes.new (λ e. option_map length (text_of e.ordered.overlay tag)) }
    ensures kept { overlay.new.held.end ≡ overlay.old.held.end }
{
    with_end!(overlay alloc end {
        tell_some(end.overlay().shown_len(tag), runes)
    })
}

/// Puts what is shown of an open file from a place on, up to the first gap, into the buffer in UTF-8, as many whole runes as have room.
/// Hands out how many bytes and how many runes. `SAM_NONE` if it is not open.
#[unsafe(no_mangle)]
pub extern "C" fn sam_overlay_text(
    overlay: &mut SamOverlay,
    tag: u16,
    place: u32,
    into: &mut [u8],
    bytes: &mut usize,
    runes: &mut u32,
    alloc: Global,
) -> u32
    ensures told { ReportsText overlay.old.held.end result (written into.old bytes.old runes.old) (written into.new bytes.new runes.new)
        (λ e. option_map (λ text. front_runes (drop place text)) (text_of e.ordered.overlay tag)) }
    ensures kept { overlay.new.held.end ≡ overlay.old.held.end }
{
    with_end!(overlay alloc end { tell_shown(end.overlay(), tag, place, into, bytes, runes) })
}

/// Puts what is shown of an open file from a place on into the buffer as numbers, as many runes and gaps as there are and have room, with
/// `SAM_GAP` for each that is not loaded, and hands out how many. `SAM_NONE` if it is not open.
#[unsafe(no_mangle)]
pub extern "C" fn sam_overlay_read(
    overlay: &mut SamOverlay,
    tag: u16,
    place: u32,
    into: &mut [u32],
    count: &mut u32,
    alloc: Global,
) -> u32
    ensures told { ReportsCells overlay.old.held.end result into.old into.new count.old count.new place
        (λ e. text_of e.ordered.overlay tag) }
    ensures kept { overlay.new.held.end ≡ overlay.old.held.end }
{
    with_end!(overlay alloc end { read_shown(end.overlay(), tag, place, into, count) })
}

/// Hands out the first place of what is shown of an open file, at or after `place`, whose rune is not loaded. `SAM_NONE` if the file is not
/// open, or if all are loaded from there on.
#[unsafe(no_mangle)]
pub extern "C" fn sam_overlay_first_gap(
    overlay: &mut SamOverlay,
    tag: u16,
    place: u32,
    gap: &mut u32,
    alloc: Global,
) -> u32
    ensures told { ReportsSome overlay.old.held.end result gap.old gap.new (λ e. gap_of e.ordered.overlay tag place) }
    ensures kept { overlay.new.held.end ≡ overlay.old.held.end }
{
    with_end!(overlay alloc end {
        tell_some(end.overlay().first_gap(tag, place), gap)
    })
}

/// Hands out the first file from the tag `from` on over which an edit waits. `SAM_NONE` if there is none.
#[unsafe(no_mangle)]
pub extern "C" fn sam_overlay_next_waiting(
    overlay: &mut SamOverlay,
    from: u16,
    tag: &mut u16,
    alloc: Global,
) -> u32
    ensures told { OverlayNextWaiting overlay.old.held.end from result tag.old tag.new }
    ensures kept { overlay.new.held.end ≡ overlay.old.held.end }
{
    with_end!(overlay alloc end {
        tell_some(end.overlay().next_waiting(from), tag)
    })
}

/// Hands out how many requests wait.
#[unsafe(no_mangle)]
pub extern "C" fn sam_overlay_requests(
    overlay: &mut SamOverlay,
    count: &mut usize,
    alloc: Global,
) -> u32
    ensures told { Reports overlay.old.held.end result count.old count.new (λ e. length e.ordered.queue) }
    ensures kept { overlay.new.held.end ≡ overlay.old.held.end }
{
    with_end!(overlay alloc end { *count = end.ordered.waiting(); OK })
}
