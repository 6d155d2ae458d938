//! What C reads of a client: include/sulgrevad.h says of each call what it hands out. None of them changes it. Each returns
//! `SAM_NO_HANDLE` if the handle is empty; after that, and after `SAM_NONE`, what its other arguments lead to is as it was. Places count
//! runes and gaps from the beginning of what is shown. `now` is the time, in milliseconds.

ghost use Rattle.std.specs.Prelude.{◌≡◌, ◌-◌, Some, drop, length, option_map};
ghost use Rattle.sam_client.specs.Delivery.{is_unsaved};
ghost use Rattle.sam_endpoint.specs.TermEndpoints.{fault_place};
ghost use Rattle.sam_front.specs.Fronts.{sooner};
ghost use Rattle.sam_line.specs.Clock.{due_in};
ghost use Rattle.sam_line.specs.Line.{is_due};
ghost use Rattle.sam_overlay.specs.Calls.{waiting_at};
ghost use Rattle.sam_handles.specs.Buffers.{countable};
ghost use Rattle.sam_handles.specs.Calls.{Reports, ReportsCells, ReportsName, ReportsSome, ReportsText, written};
ghost use Rattle.sam_handles.specs.LineDetails.{line_details};
ghost use Rattle.sam_handles.specs.Measures.{front_runes};
ghost use Rattle.sam_handles.specs.Shown.{gap_of, text_of};
ghost use Rattle.sam_handles.specs.Snapshots.{file_state, term_state, known_of};
ghost use Rattle.sam_c_client.specs.Clients.{ClientHasAll, ClientNextWaiting, ClientWords, line_of, overlay_of, term_of};

use crate::handle::SamClient;
use sam_handles::line_details::{SamLineDetails, details_of, fill};
use sam_handles::shown::{read_shown, tell_file_name, tell_shown};
use sam_handles::snapshots::{SamTermFile, SamTermState, file_of, state_of};
use sam_handles::status::OK;
use sam_handles::telling::tell_some;
use sam_handles::utf8::{countable, runes_from, tell_name, tell_text};
use sam_handles::with_end;
use std::alloc::Global;

/// Hands out how many milliseconds it is until the client has something to do. `SAM_NONE` if it never has, unless another call comes.
#[unsafe(no_mangle)]
pub extern "C" fn sam_client_due_in(
    client: &mut SamClient,
    now: u64,
    left: &mut u64,
    alloc: Global,
) -> u32
    ensures told { ReportsSome client.old.held.end result left.old left.new
        (λ e. sooner (due_in (line_of e).clock (is_due (line_of e)) now) (option_map (λ time. time - now) e.front.loads_at)) }
    ensures kept { client.new.held.end ≡ client.old.held.end }
{
    with_end!(client alloc end { tell_some(end.front.due_in(now), left) })
}

/// Hands out how many requests wait, those not among them that the terminal has.
#[unsafe(no_mangle)]
pub extern "C" fn sam_client_requests(
    client: &mut SamClient,
    count: &mut usize,
    alloc: Global,
) -> u32
    ensures told { Reports client.old.held.end result count.old count.new (λ e. length e.front.client.ordered.queue) }
    ensures kept { client.new.held.end ≡ client.old.held.end }
{
    with_end!(client alloc end { *count = end.front.client.requests(); OK })
}

/// Hands out how the line to the host stands, in one call.
#[unsafe(no_mangle)]
pub extern "C" fn sam_client_describe(
    client: &mut SamClient,
    now: u64,
    details: &mut SamLineDetails,
    alloc: Global,
) -> u32
    ensures told { Reports client.old.held.end result details.old details.new (λ e. line_details now (line_of e)) }
    ensures kept { client.new.held.end ≡ client.old.held.end }
{
    with_end!(client alloc end { *details = details_of(end.front.client.line(), now); OK })
}

/// Copies the words that came before the host's hello on the newest connection, as many bytes as have room, and hands out how many.
#[unsafe(no_mangle)]
pub extern "C" fn sam_client_words(
    client: &mut SamClient,
    into: &mut [u8],
    len: &mut usize,
    alloc: Global,
) -> u32
    ensures told { ClientWords client.old.held.end into.old into.new len.old result len.new }
    ensures kept { client.new.held.end ≡ client.old.held.end }
{
    with_end!(client alloc end { *len = fill(end.front.client.line().words(), into); OK })
}

/// Hands out whether the host has all that the user did, and all notes.
#[unsafe(no_mangle)]
pub extern "C" fn sam_client_has_all(client: &mut SamClient, has: &mut bool, alloc: Global) -> u32
    ensures told { ClientHasAll client.old.held.end result has.old has.new }
    ensures kept { client.new.held.end ≡ client.old.held.end }
{
    with_end!(client alloc end { *has = end.front.client.has_all(); OK })
}

/// Hands out whether what is shown of a file may differ from what was written last. False if the tag is not known.
#[unsafe(no_mangle)]
pub extern "C" fn sam_client_is_unsaved(
    client: &mut SamClient,
    tag: u16,
    unsaved: &mut bool,
    alloc: Global,
) -> u32
    ensures told { Reports client.old.held.end result unsaved.old unsaved.new (λ e. is_unsaved e.front.client tag) }
    ensures kept { client.new.held.end ≡ client.old.held.end }
{
    with_end!(client alloc end { *unsaved = end.front.client.is_unsaved(tag); OK })
}

/// Hands out what the terminal holds, in one call.
#[unsafe(no_mangle)]
pub extern "C" fn sam_client_state(
    client: &mut SamClient,
    state: &mut SamTermState,
    alloc: Global,
) -> u32
    ensures told { Reports client.old.held.end result state.old state.new (λ e. term_state (term_of e)) }
    ensures kept { client.new.held.end ≡ client.old.held.end }
{
    with_end!(client alloc end { *state = state_of(end.front.client.overlay().end()); OK })
}

/// Hands out what the terminal knows of a tag, in one call. Length, dot and view are those of what is loaded, without the edits that wait.
#[unsafe(no_mangle)]
pub extern "C" fn sam_client_file(
    client: &mut SamClient,
    tag: u16,
    file: &mut SamTermFile,
    alloc: Global,
) -> u32
    ensures told { Reports client.old.held.end result file.old file.new (λ e. file_state (term_of e) tag) }
    ensures kept { client.new.held.end ≡ client.old.held.end }
{
    with_end!(client alloc end { *file = file_of(end.front.client.overlay().end(), tag); OK })
}

/// Puts the name of a known file into the buffer in UTF-8, as many whole runes as have room, and hands out how many bytes. `SAM_NONE` if
/// the tag is not known.
#[unsafe(no_mangle)]
pub extern "C" fn sam_client_name(
    client: &mut SamClient,
    tag: u16,
    into: &mut [u8],
    len: &mut usize,
    alloc: Global,
) -> u32
    ensures told { ReportsName client.old.held.end result into.old into.new len.old len.new
        (λ e. option_map (λ f. f.name) (known_of (term_of e) tag)) }
    ensures kept { client.new.held.end ≡ client.old.held.end }
{
    with_end!(client alloc end { tell_file_name(end.front.client.overlay().end(), tag, into, len) })
}

/// Hands out the tag of the file that the host named last in its answer to a change of the work file or to a new file. `SAM_NONE` if it
/// named none.
#[unsafe(no_mangle)]
pub extern "C" fn sam_client_current(client: &mut SamClient, tag: &mut u16, alloc: Global) -> u32
    ensures told { ReportsSome client.old.held.end result tag.old tag.new (λ e. (term_of e).term.current) }
    ensures kept { client.new.held.end ≡ client.old.held.end }
{
    with_end!(client alloc end {
        tell_some(end.front.client.overlay().end().term().current(), tag)
    })
}

/// Puts the pattern that the host sent last into the buffer in UTF-8, as many whole runes as have room, and hands out how many bytes.
#[unsafe(no_mangle)]
pub extern "C" fn sam_client_pattern(
    client: &mut SamClient,
    into: &mut [u8],
    len: &mut usize,
    alloc: Global,
) -> u32
    ensures told { ReportsName client.old.held.end result into.old into.new len.old len.new (λ e. Some (term_of e).term.pattern) }
    ensures kept { client.new.held.end ≡ client.old.held.end }
{
    with_end!(client alloc end {
        tell_name(end.front.client.overlay().end().term().pattern(), into, len)
    })
}

/// Puts the snarfed text that the host sent last, from a place on, into the buffer in UTF-8, as many whole runes as have room. Hands out
/// how many bytes and how many runes.
#[unsafe(no_mangle)]
pub extern "C" fn sam_client_snarfed(
    client: &mut SamClient,
    place: u32,
    into: &mut [u8],
    bytes: &mut usize,
    runes: &mut u32,
    alloc: Global,
) -> u32
    ensures told { ReportsText client.old.held.end result (written into.old bytes.old runes.old) (written into.new bytes.new runes.new)
        (λ e. Some (drop place (countable (term_of e).term.snarf))) }
    ensures kept { client.new.held.end ≡ client.old.held.end }
{
    with_end!(client alloc end {
        tell_text(runes_from(countable(end.front.client.overlay().end().term().snarf()), place), into, bytes, runes)
    })
}

/// Hands out how many bytes of the host's stream stand before the frame that is wrong, where the terminal has stopped for a fault of the
/// stream. `SAM_NONE` if it goes on, or has stopped since it refused.
#[unsafe(no_mangle)]
pub extern "C" fn sam_client_fault_place(
    client: &mut SamClient,
    place: &mut u64,
    alloc: Global,
) -> u32
    ensures told { ReportsSome client.old.held.end result place.old place.new (λ e. fault_place (term_of e)) }
    ensures kept { client.new.held.end ≡ client.old.held.end }
{
    with_end!(client alloc end {
        tell_some(end.front.client.overlay().end().fault_place(), place)
    })
}

/// Hands out how many runes of a file wait, those that a later edit removes among them: 0 if the file is not open.
#[unsafe(no_mangle)]
pub extern "C" fn sam_client_waiting(
    client: &mut SamClient,
    tag: u16,
    runes: &mut u32,
    alloc: Global,
) -> u32
    ensures told { Reports client.old.held.end result runes.old runes.new (λ e. waiting_at (overlay_of e) tag) }
    ensures kept { client.new.held.end ≡ client.old.held.end }
{
    with_end!(client alloc end { *runes = end.front.client.overlay().waiting(tag); OK })
}

/// Hands out how many runes and gaps are shown of an open file. `SAM_NONE` if it is not open.
#[unsafe(no_mangle)]
pub extern "C" fn sam_client_len(
    client: &mut SamClient,
    tag: u16,
    runes: &mut u32,
    alloc: Global,
) -> u32
    ensures told { ReportsSome client.old.held.end result runes.old runes.new (λ e. option_map length (text_of (overlay_of e) tag)) }
    ensures kept { client.new.held.end ≡ client.old.held.end }
{
    with_end!(client alloc end {
        tell_some(end.front.client.overlay().shown_len(tag), runes)
    })
}

/// Puts what is shown of an open file from a place on, up to the first gap, into the buffer in UTF-8, as many whole runes as have room.
/// Hands out how many bytes and how many runes. `SAM_NONE` if it is not open.
#[unsafe(no_mangle)]
pub extern "C" fn sam_client_text(
    client: &mut SamClient,
    tag: u16,
    place: u32,
    into: &mut [u8],
    bytes: &mut usize,
    runes: &mut u32,
    alloc: Global,
) -> u32
    ensures told { ReportsText client.old.held.end result (written into.old bytes.old runes.old) (written into.new bytes.new runes.new)
        (λ e. option_map (λ text. front_runes (drop place text)) (text_of (overlay_of e) tag)) }
    ensures kept { client.new.held.end ≡ client.old.held.end }
{
    with_end!(client alloc end { tell_shown(end.front.client.overlay(), tag, place, into, bytes, runes) })
}

/// Puts what is shown of an open file from a place on into the buffer as numbers, as many runes and gaps as there are and have room, with
/// `SAM_GAP` for each that is not loaded, and hands out how many. `SAM_NONE` if it is not open.
#[unsafe(no_mangle)]
pub extern "C" fn sam_client_read(
    client: &mut SamClient,
    tag: u16,
    place: u32,
    into: &mut [u32],
    count: &mut u32,
    alloc: Global,
) -> u32
    ensures told { ReportsCells client.old.held.end result into.old into.new count.old count.new place (λ e. text_of (overlay_of e) tag) }
    ensures kept { client.new.held.end ≡ client.old.held.end }
{
    with_end!(client alloc end { read_shown(end.front.client.overlay(), tag, place, into, count) })
}

/// Hands out the first place of what is shown of an open file, at or after `place`, whose rune is not loaded. `SAM_NONE` if the file is not
/// open, or if all are loaded from there on.
#[unsafe(no_mangle)]
pub extern "C" fn sam_client_first_gap(
    client: &mut SamClient,
    tag: u16,
    place: u32,
    gap: &mut u32,
    alloc: Global,
) -> u32
    ensures told { ReportsSome client.old.held.end result gap.old gap.new (λ e. gap_of (overlay_of e) tag place) }
    ensures kept { client.new.held.end ≡ client.old.held.end }
{
    with_end!(client alloc end {
        tell_some(end.front.client.overlay().first_gap(tag, place), gap)
    })
}

/// Hands out the first file from the tag `from` on over which an edit waits. `SAM_NONE` if there is none.
#[unsafe(no_mangle)]
pub extern "C" fn sam_client_next_waiting(
    client: &mut SamClient,
    from: u16,
    tag: &mut u16,
    alloc: Global,
) -> u32
    ensures told { ClientNextWaiting client.old.held.end from result tag.old tag.new }
    ensures kept { client.new.held.end ≡ client.old.held.end }
{
    with_end!(client alloc end {
        tell_some(end.front.client.overlay().next_waiting(from), tag)
    })
}
