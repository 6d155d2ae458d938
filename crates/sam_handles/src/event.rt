//! An event of the user that is no edit, or one of the command file, as C has it.

ghost use Rattle.std.specs.Prelude.{◌≡◌, IfSome, IsTrue};
ghost use Rattle.sam_overlay.specs.Overlays.{is_request};
ghost use Rattle.sam_handles.specs.Events.{event_of};

use sam_runes::Runes;
use sam_term::UserEvent;

/// An event of the user that is no edit, or one of the command file: `sam_event` of include/sulgrevad.h.
#[repr(C)]
#[derive(Clone, Copy, Drop)]
pub struct SamEvent {
    /// A number of `sam_event_kind`.
    pub kind: u32,
    /// The place that it names, or where the range begins.
    pub start: u32,
    /// Where the range ends, or how many runes or lines.
    pub number: u32,
    /// The file.
    pub tag: u16,
    /// The version that is offered.
    pub version: u16,
}

/// Returns the event; `None` if no event has this number.
#[tactic(auto, using(crate::proofs::OverlayLaws::no_event))]
pub fn event_of(event: &SamEvent, text: Runes) -> Option<UserEvent>
    ensures named { result ≡ event_of event.now text }
    ensures passes { IfSome result (λ x. IsTrue (is_request x)) }
{
    let tag = event.tag;
    Some(match event.kind {
        1 => UserEvent::Select(tag, event.start, event.number),
        2 => UserEvent::Dclick(tag, event.start),
        3 => UserEvent::Look(tag),
        4 => UserEvent::Search(tag),
        5 => UserEvent::Flush,
        6 => UserEvent::Snarf(tag),
        7 => UserEvent::GetSnarf,
        8 => UserEvent::SetSnarf(text),
        9 => UserEvent::View(tag, event.start, event.number),
        10 => UserEvent::Load(tag, event.start, event.number),
        11 => UserEvent::Scroll(tag, event.number),
        12 => UserEvent::Check(tag),
        13 => UserEvent::Open(tag),
        14 => UserEvent::New,
        15 => UserEvent::Write(tag),
        16 => UserEvent::Close(tag),
        17 => UserEvent::OpenCmd,
        18 => UserEvent::Work(tag),
        19 => UserEvent::Send(tag),
        20 => UserEvent::Version(event.version),
        21 => UserEvent::Exit,
        22 => UserEvent::Typed(0, text),
        23 => UserEvent::Cut(0),
        24 => UserEvent::Paste(0),
        _ => return None,
    })
}
