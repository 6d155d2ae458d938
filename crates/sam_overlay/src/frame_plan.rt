//! What a frame of the host will do to the text of a file, before the terminal receives it.

ghost use Rattle.std.specs.Prelude.{◌≡◌, ℕ};
ghost use Rattle.sam_overlay.specs.Effects.{effect, plan_at, plan_of};

use sam_mesg::Hmesg;

/// What a frame does to the text of a file. Places and counts are of runes and gaps.
#[derive(Clone, Copy, Drop)]
pub(crate) enum Plan {
    /// Nothing.
    Stays,
    /// `(place, count)`: so many runes or gaps come in at the place.
    Inserts(u32, usize),
    /// `(place, count)`: so many runes are stored from the place on, in members that are there.
    Fills(u32, usize),
    /// `(place, count)`: so many runes or gaps from the place on go.
    Removes(u32, usize),
    /// The text begins anew, or ends.
    Empties,
}

/// What a frame does to the text of the file that it names; the texts of all other files stay.
#[derive(Clone, Copy, Drop)]
pub(crate) struct FilePlan {
    /// The file; 0 if the frame does nothing to any text.
    pub tag: u16,
    /// What it does to its text.
    pub plan: Plan,
}

impl FilePlan {
    /// Returns what a frame will do to the text of the file that it names.
    pub(crate) fn of(msg: &Hmesg) -> FilePlan
        ensures { (f : ℕ) → plan_at f result ≡ plan_of (effect f msg.now) }
    {
        match msg {
            Hmesg::Hgrow(tag, place, count) => plan_for(
                *tag,
                Plan::Inserts(*place, *count as usize),
            ),
            Hmesg::Hgrowdata(tag, place, text) => plan_for(*tag, Plan::Inserts(*place, text.len())),
            Hmesg::Hdata(tag, place, text) => plan_for(*tag, Plan::Fills(*place, text.len())),
            Hmesg::Hcut(tag, place, count) => plan_for(
                *tag,
                Plan::Removes(*place, *count as usize),
            ),
            Hmesg::Hbindname(tag)
            | Hmesg::Hnewname(tag)
            | Hmesg::Hdelname(tag)
            | Hmesg::Hclose(tag) => plan_for(*tag, Plan::Empties),
            _ => plan_for(0, Plan::Stays),
        }
    }
}

/// Returns that plan for the file.
fn plan_for(tag: u16, plan: Plan) -> FilePlan
    ensures { result ≡ record { tag = tag; plan = plan } }
{
    FilePlan { tag, plan }
}
