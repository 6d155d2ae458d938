//! Which stretch of which text is loaded next: what is on the screen at once, and the rest while nobody types, slice by slice. Places and
//! lengths are in runes, times in milliseconds of a clock that never goes back.

ghost use Rattle.std.specs.Prelude.{max, ◌≡◌, ◌∷◌, ◌||◌, OnErr, OnOk, Some};
ghost use Rattle.sam_front.specs.Loader.{acted, ended, first_slice, gaps_of, is_slice, is_view, later, least_trip, new_loader, next_at, next_seen, next_slice, not_before, page, refused, rest_time, size_by, stepped, stretch_of, without};

use sam_overlay::Overlay;
use sam_rasp::Rasp;
use std::alloc::{AllocError, Global};
use std::marker::Model;

/// So long after the last key only what windows show is loaded, in milliseconds.
pub const REST: u64 = 1_000;

/// So long a slice may take the line, in milliseconds.
pub const SLICE_TIME: u64 = 1_000;

/// So long after anything came or acted only what windows show is loaded, in milliseconds: so a program that waits for a file to be free
/// sees it free between two slices.
pub const BREAK: u64 = 50;

/// So long nothing is loaded after a load was refused, in milliseconds.
pub const PAUSE: u64 = 1_000;

/// A slice that took so many milliseconds, or fewer, says no more than that the line is at least so quick.
pub const LEAST_MEASURED: u64 = 50;

/// How many runes the first slice has.
pub const FIRST_SLICE: u32 = 4_096;

/// The fewest runes of a slice.
pub const LEAST_SLICE: u32 = 512;

/// The most runes of a slice.
pub const MOST_SLICE: u32 = 1_000_000;

/// So many runes of what a window shows are asked for at once, also where a slice has fewer.
pub const PAGE: u32 = 4_096;

/// The most holes that are asked for at once: each takes a message, and one load composes `sam_term::MOST_REQUESTS` of them.
pub const MOST_HOLES: u32 = 1_800;

/// What a window shows of a file.
#[derive(Clone, Copy, Debug, PartialEq, Eq, Drop)]
pub struct Seen {
    /// The file.
    pub tag: u16,
    /// The place where it begins.
    pub start: u32,
    /// The place behind it.
    pub end: u32,
}

/// A slice that is being loaded.
#[derive(Clone, Copy, Debug, PartialEq, Eq, Drop)]
pub struct Slice {
    /// The number of the request.
    pub request: u64,
    /// The file.
    pub tag: u16,
    /// How many runes, those that were there before left out.
    pub count: u32,
    /// When it was asked for.
    pub since: u64,
    /// Whether the request has acted.
    pub has_acted: bool,
}

/// A stretch that is loaded at once.
#[derive(Clone, Copy, Debug, PartialEq, Eq, Drop)]
pub struct Stretch {
    /// How many runes and gaps it has.
    pub count: u32,
    /// How many gaps.
    pub gaps: u32,
}

/// What is to be loaded.
#[derive(Clone, Copy, Debug, PartialEq, Eq, Drop)]
pub enum Next {
    /// Nothing: of the files of which windows show something no free one has a gap.
    Nothing,
    /// `(tag, place, count)`: of this file so many runes from this place on, at which one stands that is not loaded.
    Load(u16, u32, u32),
    /// Something, from this time on.
    Wait(u64),
}

/// What is loaded of texts by itself. Contracts see it as a `PlainLoader`.
#[derive(Drop)]
pub struct Loader {
    /// What windows show: of each file the last stretch, those that were told last first.
    seen: Vec<Seen>,
    /// How many runes the next slice has.
    size: u32,
    /// Before this time only what windows show is loaded.
    rests_until: u64,
    /// Before this time nothing is loaded.
    pauses_until: u64,
    /// The least that a round trip took, in milliseconds; 0 while none is known.
    trip: u64,
    /// What is being loaded.
    slice: Option<Slice>,
    /// The number of the request that emptied a view last.
    view: Option<u64>,
}

impl Model for Loader {
    ghost use Rattle.sam_front.specs.Loader.{IsLoader, PlainLoader, view_of};

    ghost Value = { PlainLoader };

    ghost view = { view_of };

    ghost invariant = { λ a. IsLoader (view_of a) };
}

impl Loader {
    /// Makes a loader of which no window shows anything. It takes no memory.
    pub fn new(alloc: Global) -> Loader
        ensures { result ≡ new_loader }
    {
        Loader {
            seen: Vec::new(alloc),
            size: FIRST_SLICE,
            rests_until: 0,
            pauses_until: 0,
            trip: 0,
            slice: None,
            view: None,
        }
    }

    /// Returns what is being loaded; `None` if nothing is.
    pub fn slice(&self) -> Option<Slice>
        ensures { result ≡ self.now.slice }
    {
        self.slice
    }

    /// Returns how many runes of what somebody waits for are asked for at once.
    pub fn at_once(&self) -> u32
        ensures { result ≡ max self.now.size page }
    {
        self.size.max(PAGE)
    }

    /// Returns before which time nothing is to be loaded.
    pub fn pauses_until(&self) -> u64
        ensures { result ≡ self.now.pauses_until }
    {
        self.pauses_until
    }

    /// Notes what a window shows: it comes first from now on, in place of what was shown of the file before. The only error is out of
    /// memory; after it all is unchanged.
    pub fn see(&mut self, seen: Seen) -> Result<(), AllocError>
        ensures ok { OnOk result (self.new ≡ record self.old { seen = seen ∷ without seen.tag self.old.seen }) }
        ensures err { OnErr result (self.new ≡ self.old) }
    {
        put_first(&mut self.seen, seen)
    }

    /// Notes that no window shows a file any more: nothing of it is asked for from now on. All else stays.
    pub fn forget(&mut self, tag: u16)
        ensures { self.new ≡ record self.old { seen = without tag self.old.seen } }
    {
        remove_file(&mut self.seen, tag);
    }

    /// Notes that the user typed: until `REST` later only what windows show is loaded. All else stays.
    pub fn rest(&mut self, now: u64)
        ensures { self.new ≡ record self.old { rests_until = later now rest_time } }
    {
        self.rests_until = now.saturating_add(REST);
    }

    /// Returns what is to be loaded next: the first gap that a window shows; if there is none, and the user rests, a slice of one of these
    /// files, of each what stands behind its window's beginning first. Ask only while nothing is being loaded.
    pub fn next(&self, overlay: &Overlay, now: u64) -> Next
        ensures { result ≡ next_at (gaps_of overlay.now) self.now now }
    {
        match next_seen(self.seen.as_slice(), self.size, overlay) {
            Next::Nothing => {
                let next = next_slice(self.seen.as_slice(), self.size, overlay);
                not_before(next, self.pauses_until.max(self.rests_until), now)
            }
            next => not_before(next, self.pauses_until, now),
        }
    }

    /// Notes that something came or acted: until `BREAK` later only what windows show is loaded. All else stays.
    pub fn note_step(&mut self, now: u64)
        ensures { self.new ≡ stepped self.old now }
    {
        self.rests_until = self.rests_until.max(now.saturating_add(BREAK));
    }

    /// Notes that there is no line: over the next one the size of a slice is found anew. All else stays.
    pub fn note_break(&mut self)
        ensures { self.new ≡ record self.old { size = first_slice } }
    {
        self.size = FIRST_SLICE;
    }

    /// Notes what is being loaded. All else stays.
    pub fn begin(&mut self, slice: Slice)
        ensures { self.new ≡ record self.old { slice = Some slice } }
    {
        self.slice = Some(slice);
    }

    /// Notes that a request has acted. If it is not that of what is being loaded, all is unchanged.
    pub fn note_acted(&mut self, request: u64)
        ensures { self.new ≡ record self.old { slice = acted self.old.slice request } }
    {
        if let Some(slice) = &mut self.slice {
            if slice.request == request {
                slice.has_acted = true;
            }
        }
    }

    /// Notes the number of the request that empties a view, in place of an older one. All else stays.
    pub fn note_view(&mut self, request: u64)
        ensures { self.new ≡ record self.old { view = Some request } }
    {
        self.view = Some(request);
    }

    /// Notes that a request was refused, and returns whether it was one of these: that of what is being loaded, or the last one that
    /// empties a view. If it was the first, nothing is being loaded any more, and until `PAUSE` later nothing is to be; else all is
    /// unchanged.
    pub fn note_refused(&mut self, request: u64, now: u64) -> bool
        ensures own { result ≡ (is_slice self.old.slice request || is_view self.old.view request) }
        ensures after { self.new ≡ refused self.old request now }
    {
        let is_slice = match self.slice {
            Some(slice) => slice.request == request,
            None => false,
        };
        if is_slice {
            self.slice = None;
            self.pauses_until = now.saturating_add(PAUSE);
        }
        is_slice || self.view == Some(request)
    }

    /// Notes that what was being loaded has come, and what the last round trip took: the next slice is as long as the line carries in
    /// `SLICE_TIME`, by what this one took beyond the least round trip, within `LEAST_SLICE` and `MOST_SLICE`.
    pub fn end(&mut self, round_trip: u64, now: u64)
        ensures { self.new ≡ ended self.old round_trip now }
    {
        self.trip = least_trip(self.trip, round_trip);
        if let Some(slice) = self.slice {
            let took = now.saturating_sub(slice.since).saturating_sub(self.trip);
            let size = size_by(slice.count, took);
            if took > LEAST_MEASURED || size > self.size {
                self.size = size;
            }
        }
        self.slice = None;
    }
}

/// Puts a stretch before those of the other files, in place of that of its file. The only error is out of memory; after it all is
/// unchanged.
fn put_first(list: &mut Vec<Seen>, seen: Seen) -> Result<(), AllocError>
    ensures ok { OnOk result (list.new.items ≡ seen ∷ without seen.tag list.old.items) }
    ensures err { OnErr result (list.new.items ≡ list.old.items) }
{
    list.reserve(1)?;
    list.retain(|other| other.tag != seen.tag);
    list.insert(0, seen)?;
    Ok(())
}

/// Removes the stretch of a file, if there is one.
fn remove_file(list: &mut Vec<Seen>, tag: u16)
    ensures { list.new.items ≡ without tag list.old.items }
{
    list.retain(|seen| seen.tag != tag);
}

/// Returns the first place of a file, at or after a place, whose rune is not loaded. There is none while the file is locked or an edit
/// waits over it: a load would wait then, and all other requests behind it.
fn first_gap(overlay: &Overlay, tag: u16, place: u32) -> Option<u32>
    ensures { result ≡ gaps_of overlay.now tag place }
{
    if overlay.end().term().locked(tag) || overlay.is_waiting(tag) {
        return None;
    }
    overlay.first_gap(tag, place)
}

/// Returns the first gap of what windows show, and as many runes from there on as are asked for at once.
fn next_seen(list: &[Seen], size: u32, overlay: &Overlay) -> Next
    ensures { result ≡ next_seen (gaps_of overlay.now) size list.now }
{
    for seen in list {
        if let Some(gap) = first_gap(overlay, seen.tag, seen.start) {
            if gap < seen.end {
                return Next::Load(seen.tag, gap, (seen.end - gap).min(size.max(PAGE)));
            }
        }
    }
    Next::Nothing
}

/// Returns the next slice of the files of which windows show something: of each what stands behind that comes first.
fn next_slice(list: &[Seen], size: u32, overlay: &Overlay) -> Next
    ensures { result ≡ next_slice (gaps_of overlay.now) size list.now }
{
    for seen in list {
        if let Some(gap) = first_gap(overlay, seen.tag, seen.start) {
            return Next::Load(seen.tag, gap, size);
        }
        if let Some(gap) = first_gap(overlay, seen.tag, 0) {
            return Next::Load(seen.tag, gap, size);
        }
    }
    Next::Nothing
}

/// Returns what is to be loaded at that time or later, or that it waits.
pub(crate) fn not_before(next: Next, time: u64, now: u64) -> Next
    ensures { result ≡ not_before time now next }
{
    match next {
        Next::Load(_, _, _) if now < time => Next::Wait(time),
        _ => next,
    }
}

/// Returns how many runes a slice has, by how many came in so many milliseconds.
fn size_by(count: u32, took: u64) -> u32
    ensures { result ≡ size_by count took }
{
    let size = count as u64 * SLICE_TIME / took.max(LEAST_MEASURED);
    size.clamp(LEAST_SLICE as u64, MOST_SLICE as u64) as u32
}

/// Returns the lesser of the least round trip and another one, where 0 is none.
fn least_trip(least: u64, trip: u64) -> u64
    ensures { result ≡ least_trip least trip }
{
    if least == 0 {
        trip
    } else if trip == 0 {
        least
    } else {
        least.min(trip)
    }
}

/// Returns as much of so many runes and gaps of a text, from a place on, as is loaded at once: all up to the end, or what has no more than
/// `MOST_HOLES` holes.
pub fn loaded_at_once(rasp: &Rasp, place: u32, count: u32) -> Stretch
    ensures { result ≡ stretch_of rasp.now place count }
{
    let count = count.min(rasp.len().saturating_sub(place));
    let gaps = rasp.tally(place, place + count).gaps;
    if gaps.min(count.saturating_sub(gaps)) <= MOST_HOLES {
        return Stretch { count, gaps };
    }
    let count = count.min(2 * MOST_HOLES);
    let gaps = rasp.tally(place, place + count).gaps;
    Stretch { count, gaps }
}
