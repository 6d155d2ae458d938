//! A partial text as it is drawn: its members as numbers in a buffer.

ghost use Rattle.std.specs.Prelude.{◌≡◌, ◌≤◌, length};
ghost use Rattle.sam_endpoint.specs.Drawing.{Copies, Shows, drawn};
ghost use Rattle.sam_rasp.specs.Sections.{cells, size};

use sam_rasp::{Rasp, Section};

/// What stands in the buffer for a rune that is not loaded. No rune has this number.
pub const GAP: u32 = u32::MAX;

/// Returns the number of a rune, or `GAP` for a gap.
fn drawn(member: Option<char>) -> u32
    ensures { result ≡ drawn member }
{
    match member {
        Some(rune) => rune as u32,
        None => GAP,
    }
}

/// Puts the members of a section from `place` on into the buffer at `at`, as many as there are and have room. Returns how many. All else
/// of the buffer stays as it was.
fn copy_section(section: &Section, place: u32, into: &mut [u32], at: usize) -> usize
    requires place { place ≤ size section.now }
    requires at { at ≤ length into.old }
    ensures { Copies (cells section.now) place at into.old into.new result }
{
    let count = ((section.len() - place) as usize).min(into.len() - at);
    for next in 0..count {
        into[at + next] = drawn(section.get(place + next as u32));
    }
    count
}

/// Reads the members of a partial text from a place on into the buffer, as many as there are and have room, and returns how many: none if
/// the place is at the end or past it. A rune is read as its number, and one that is not loaded as `GAP`. The rest of the buffer stays as
/// it was. The cost is that of the members that it reads, and of finding the section of each.
#[tactic(auto, using(crate::proofs::Members::shown_facts))]
pub fn read_rasp(rasp: &Rasp, place: u32, into: &mut [u32]) -> usize
    ensures { Shows rasp.now place into.old into.new result }
{
    let mut at = place;
    let mut count = 0;
    while count < into.len() {
        let Some((section, start)) = rasp.section_at(at) else {
            return count;
        };
        let copied = copy_section(section, at - start, into, count);
        count += copied;
        at += copied as u32;
    }
    count
}
