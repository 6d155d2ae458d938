//! A walk over the members of a partial text: of a rasp, or of what is shown over it.

ghost use Rattle.std.specs.Prelude.{◌≡◌, if◌then◌else◌, None, Some, length, slice_get};
ghost use Rattle.sam_endpoint.specs.Drawing.{Shows, drawn};
ghost use Rattle.sam_overlay.specs.Calls.{shown_at};
ghost use Rattle.sam_term.specs.Term.{is_open};

use sam_endpoint::GAP;
use sam_overlay::Overlay;
use sam_pending::Shown;
use sam_rasp::{Rasp, Section};
use std::marker::Model;

/// The members of a rasp, by their places. It keeps the section that it read last, so a walk from one place to the next looks each section
/// up once.
#[derive(Drop)]
struct RaspMembers<'a> {
    rasp: &'a Rasp,
    /// The section that was read last, and where it begins; `None` where none was.
    section: Option<(&'a Section, u32)>,
}

impl<'a> Model for RaspMembers<'a> {
    ghost use Rattle.std.specs.Prelude.{MatchOption, ⊤};
    ghost use Rattle.sam_rasp.specs.Rasp.{PartialText};
    ghost use Rattle.sam_handles.specs.Walking.{StandsAt};

    ghost Value = { PartialText };

    ghost view = { λ a. a.rasp.now };

    ghost invariant = { λ a. MatchOption a.section ⊤ (λ r. StandsAt a.rasp.now r.0.now r.1) };
}

impl<'a> RaspMembers<'a> {
    /// Returns the members of this rasp.
    fn of(rasp: &'a Rasp) -> RaspMembers<'a>
        ensures { result ≡ rasp.now }
    {
        RaspMembers {
            rasp,
            section: None,
        }
    }

    /// Returns how many there are.
    fn len(&self) -> u32
        ensures { result ≡ length self.now }
    {
        self.rasp.len()
    }

    /// Returns the rune at a place, or the gap there (`Some(None)`), or `None` from the end on.
    fn at(&mut self, place: u32) -> Option<Option<char>>
        ensures member { result ≡ slice_get self.old place }
        ensures unchanged { self.new ≡ self.old }
    {
        if let Some((section, start)) = self.section {
            if start <= place && place - start < section.len() {
                return Some(section.get(place - start));
            }
        }
        self.section = self.rasp.section_at(place);
        let (section, start) = self.section?;
        Some(section.get(place - start))
    }
}

/// The members of a partial text, by their places: of a rasp, or of what is shown of a file.
#[derive(Drop)]
pub struct Members<'a> {
    /// Those of the rasp.
    members: RaspMembers<'a>,
    /// The file, and what waits over its rasp; `None` if the rasp is walked alone.
    over: Option<(&'a Overlay, u16)>,
}

impl<'a> Model for Members<'a> {
    ghost use Rattle.std.specs.Prelude.{MatchOption, ⊤, ◌≡◌, true};
    ghost use Rattle.sam_rasp.specs.Rasp.{PartialText};
    ghost use Rattle.sam_overlay.specs.Calls.{shown_at};
    ghost use Rattle.sam_term.specs.Term.{is_open, rasp_at};
    ghost use Rattle.sam_handles.specs.Walking.{walked};

    ghost Value = { PartialText };

    ghost view = { λ a. walked a.members a.over (λ x. shown_at x.0.now x.1) };

    ghost invariant = { λ a. MatchOption a.over ⊤ (λ x.
        (is_open x.0.now.end.term x.1 ≡ true) × (a.members ≡ rasp_at x.0.now.end.term x.1)) };
}

impl<'a> Members<'a> {
    /// Returns the members of this rasp.
    pub fn of(rasp: &'a Rasp) -> Members<'a>
        ensures { result ≡ rasp.now }
    {
        Members {
            members: RaspMembers::of(rasp),
            over: None,
        }
    }

    /// Returns the members of what is shown of a file; `None` if it is not open.
    #[tactic(auto, using(crate::proofs::OverlayLaws::open_rasp))]
    pub fn shown(overlay: &'a Overlay, tag: u16) -> Option<Members<'a>>
        ensures { result ≡ (if is_open overlay.now.end.term tag then Some (shown_at overlay.now tag) else None) }
    {
        let rasp = overlay.end().term().rasp(tag)?;
        Some(Members {
            members: RaspMembers::of(rasp),
            over: Some((overlay, tag)),
        })
    }

    /// Returns how many there are.
    pub fn len(&self) -> u32
        ensures { result ≡ length self.now }
    {
        match self.over {
            Some((overlay, tag)) => overlay.shown_len(tag).unwrap_or(0),
            None => self.members.len(),
        }
    }

    /// Returns the rune at a place, or the gap there (`Some(None)`), or `None` from the end on.
    #[tactic(auto, using(crate::proofs::OverlayLaws::shown_facts))]
    pub fn at(&mut self, place: u32) -> Option<Option<char>>
        ensures member { result ≡ slice_get self.old place }
        ensures unchanged { self.new ≡ self.old }
    {
        let Some((overlay, tag)) = self.over else {
            return self.members.at(place);
        };
        match overlay.shown_at(tag, place)? {
            Shown::Rasp(at, _) => self.members.at(at),
            Shown::Waiting(runes) => Some(Some(runes[0])),
        }
    }
}

/// Returns the number of a member: `GAP` if its rune is not loaded.
fn drawn(member: Option<char>) -> u32
    ensures { result ≡ drawn member }
{
    match member {
        Some(rune) => rune as u32,
        None => GAP,
    }
}

/// Puts the members from a place on into the buffer, as many as there are and have room, and returns how many. The rest of the buffer stays
/// as it was.
pub fn read_members(mut members: Members<'_>, place: u32, into: &mut [u32]) -> u32
    ensures { Shows members.entry place into.old into.new result }
{
    let left = members.len().saturating_sub(place) as usize;
    let count = left.min(into.len());
    for next in 0..count {
        into[next] = drawn(members.at(place + next as u32).flatten());
    }
    count as u32
}
