//! What a message, a frame and an event are called in the report of a step: the number of their kind, and the file that they name.

ghost use Rattle.std.specs.Prelude.{◌≡◌, option_and_then, slice_get};
ghost use Rattle.sam_mesg.specs.HostKinds.{kind_h};
ghost use Rattle.sam_mesg.specs.TerminalKinds.{kind_t};
ghost use Rattle.sam_term.specs.Events.{file_of};
ghost use Rattle.sam_endpoint.specs.Naming.{file_of_h, file_of_t};

use sam_mesg::{Hmesg, Tmesg};
use sam_term::{Terminal, UserEvent};

/// Returns the number of a message's kind, and the file that it names, if it names one.
pub fn name_message(message: &Tmesg) -> (u8, Option<u16>)
    ensures { result ≡ (kind_t message.now, file_of_t message.now) }
{
    match message {
        Tmesg::Tversion(_) => (1, None),
        Tmesg::Tstartcmdfile => (2, None),
        Tmesg::Tcheck(tag) => (3, Some(*tag)),
        Tmesg::Trequest(tag, _, _) => (4, Some(*tag)),
        Tmesg::Torigin(tag, _, _) => (5, Some(*tag)),
        Tmesg::Tstartfile(tag) => (6, Some(*tag)),
        Tmesg::Tworkfile(tag, _, _) => (7, Some(*tag)),
        Tmesg::Ttype(tag, _, _) => (8, Some(*tag)),
        Tmesg::Tcut(tag, _, _) => (9, Some(*tag)),
        Tmesg::Tpaste(tag, _) => (10, Some(*tag)),
        Tmesg::Tsnarf(tag, _, _) => (11, Some(*tag)),
        Tmesg::Tstartnewfile => (12, None),
        Tmesg::Twrite(tag) => (13, Some(*tag)),
        Tmesg::Tclose(tag) => (14, Some(*tag)),
        Tmesg::Tlook(tag, _, _) => (15, Some(*tag)),
        Tmesg::Tsearch(tag, _, _) => (16, Some(*tag)),
        Tmesg::Tsend(tag, _, _) => (17, Some(*tag)),
        Tmesg::Tdclick(tag, _) => (18, Some(*tag)),
        Tmesg::Tstartsnarf => (19, None),
        Tmesg::Tsetsnarf(_) => (20, None),
        Tmesg::Tack => (21, None),
        Tmesg::Texit => (22, None),
    }
}

/// Returns the number of a frame's kind, and the file that it names, if it names one.
pub(crate) fn name_frame(msg: &Hmesg) -> (u8, Option<u16>)
    ensures { result ≡ (kind_h msg.now, file_of_h msg.now) }
{
    match msg {
        Hmesg::Hversion(_) => (65, None),
        Hmesg::Hbindname(tag) => (66, Some(*tag)),
        Hmesg::Hcurrent(tag) => (67, Some(*tag)),
        Hmesg::Hnewname(tag) => (68, Some(*tag)),
        Hmesg::Hmovname(tag, _) => (69, Some(*tag)),
        Hmesg::Hgrow(tag, _, _) => (70, Some(*tag)),
        Hmesg::Hcheck(tag) => (71, Some(*tag)),
        Hmesg::Hunlock => (72, None),
        Hmesg::Hdata(tag, _, _) => (73, Some(*tag)),
        Hmesg::Horigin(tag, _) => (74, Some(*tag)),
        Hmesg::Hunlockfile(tag) => (75, Some(*tag)),
        Hmesg::Hsetdot(tag, _, _) => (76, Some(*tag)),
        Hmesg::Hgrowdata(tag, _, _) => (77, Some(*tag)),
        Hmesg::Hmoveto(tag, _) => (78, Some(*tag)),
        Hmesg::Hclean(tag) => (79, Some(*tag)),
        Hmesg::Hdirty(tag) => (80, Some(*tag)),
        Hmesg::Hcut(tag, _, _) => (81, Some(*tag)),
        Hmesg::Hsetpat(_) => (82, None),
        Hmesg::Hdelname(tag) => (83, Some(*tag)),
        Hmesg::Hclose(tag) => (84, Some(*tag)),
        Hmesg::Hsetsnarf(_) => (85, None),
        Hmesg::Hsnarflen(_) => (86, None),
        Hmesg::Hack => (87, None),
        Hmesg::Hexit => (88, None),
    }
}

/// Returns the file that an event names, if it names one.
fn file_of(event: &UserEvent) -> Option<u16>
    ensures { result ≡ file_of event.now }
{
    match event {
        UserEvent::Typed(tag, _) => Some(*tag),
        UserEvent::Select(tag, _, _) => Some(*tag),
        UserEvent::Cut(tag) => Some(*tag),
        UserEvent::Paste(tag) => Some(*tag),
        UserEvent::Snarf(tag) => Some(*tag),
        UserEvent::Look(tag) => Some(*tag),
        UserEvent::Search(tag) => Some(*tag),
        UserEvent::Send(tag) => Some(*tag),
        UserEvent::Dclick(tag, _) => Some(*tag),
        UserEvent::Scroll(tag, _) => Some(*tag),
        UserEvent::View(tag, _, _) => Some(*tag),
        UserEvent::Load(tag, _, _) => Some(*tag),
        UserEvent::Edit(tag, _, _, _) => Some(*tag),
        UserEvent::Open(tag) => Some(*tag),
        UserEvent::Close(tag) => Some(*tag),
        UserEvent::Write(tag) => Some(*tag),
        UserEvent::Work(tag) => Some(*tag),
        UserEvent::OpenCmd => None,
        UserEvent::New => None,
        UserEvent::Exit => None,
        UserEvent::Check(tag) => Some(*tag),
        UserEvent::GetSnarf => None,
        UserEvent::SetSnarf(_) => None,
        UserEvent::Version(_) => None,
        UserEvent::Flush => None,
    }
}

/// Returns the file that the oldest held event names; `None` if it names none, or none is held.
pub(crate) fn oldest_file(term: &Terminal) -> Option<u16>
    ensures { result ≡ option_and_then file_of (slice_get term.now.held 0) }
{
    match term.oldest() {
        Some(event) => file_of(event),
        None => None,
    }
}
