//! The kinds of messages, their numbers, and the fields of each.

ghost use Rattle.std.specs.Prelude.{◌≡◌};
ghost use Rattle.sam_note.specs.Kinds.{IsKindOf, has, number};

/// Makes the `Fields` that have these, and no others.
macro_rules! fields {
    ($($field:ident)*) => { Fields { $($field: true,)* ..NO_FIELDS } };
}

/// A kind of message. Those up to 64 go from the terminal to the host, the others from the host to the terminal.
/// docs/reference/SESSION.md says what each means.
#[derive(Clone, Copy, Debug, PartialEq, Eq, Drop)]
pub enum NoteKind {
    /// Joins the file, or the folder, at a path.
    Open = 1,
    /// Asks for names that complete a path.
    Complete = 2,
    /// Reads a file anew from its disk.
    Reload = 3,
    /// The user's edits now make a file what another has.
    Reloaded = 4,
    /// Asks what becomes of the write that comes next.
    Write = 5,
    /// The first message of a host.
    Session = 65,
    /// Words for people.
    Said = 66,
    /// Another program wants a file shown.
    Shown = 67,
    /// Another terminal has the session now.
    TakenOver = 68,
    /// The session is over.
    Ended = 69,
    /// A file was joined.
    Opened = 70,
    /// A request was refused.
    Refused = 71,
    /// Names that complete a path.
    Names = 72,
    /// What a file has on its disk stands in another now.
    Anew = 73,
    /// A write went to the disk.
    Saved = 74,
    /// A write failed.
    NotSaved = 75,
    /// Another program changed a file, or removed it.
    Changed = 76,
    /// When a file was written last.
    Dated = 77,
    /// An earlier session left a text.
    Earlier = 78,
    /// A text is on the disk, but not under its name.
    Aside = 79,
    /// A text could be saved nowhere.
    Lost = 80,
    /// What is done from now on survives no crash.
    NoJournal = 81,
}

impl NoteKind {
    /// Returns the kind of this number, if there is one.
    pub fn of_number(number: u8) -> Option<NoteKind>
        ensures { IsKindOf number result }
    {
        Some(match number {
            1 => NoteKind::Open,
            2 => NoteKind::Complete,
            3 => NoteKind::Reload,
            4 => NoteKind::Reloaded,
            5 => NoteKind::Write,
            65 => NoteKind::Session,
            66 => NoteKind::Said,
            67 => NoteKind::Shown,
            68 => NoteKind::TakenOver,
            69 => NoteKind::Ended,
            70 => NoteKind::Opened,
            71 => NoteKind::Refused,
            72 => NoteKind::Names,
            73 => NoteKind::Anew,
            74 => NoteKind::Saved,
            75 => NoteKind::NotSaved,
            76 => NoteKind::Changed,
            77 => NoteKind::Dated,
            78 => NoteKind::Earlier,
            79 => NoteKind::Aside,
            80 => NoteKind::Lost,
            81 => NoteKind::NoJournal,
            _ => return None,
        })
    }

    /// Returns its number, the first byte of its messages.
    pub fn number(self) -> u8
        ensures { result ≡ number self }
    {
        self as u8
    }

    /// Returns which fields its messages have.
    pub fn fields(self) -> Fields
        ensures { result ≡ has self }
    {
        match self {
            NoteKind::Open | NoteKind::Complete => fields!(request path),
            NoteKind::Reload | NoteKind::Write | NoteKind::Opened => fields!(request tag),
            NoteKind::Reloaded | NoteKind::Shown => fields!(tag number),
            NoteKind::Session => fields!(number path text),
            NoteKind::Said | NoteKind::TakenOver => fields!(text),
            NoteKind::Ended => fields!(code number),
            NoteKind::Refused => fields!(request code text),
            NoteKind::Names => fields!(request code path),
            NoteKind::Anew => fields!(request number),
            NoteKind::Saved | NoteKind::NotSaved => fields!(request tag code path copy text),
            NoteKind::Changed | NoteKind::Lost => fields!(tag code path text),
            NoteKind::Dated => fields!(tag number path),
            NoteKind::Earlier => fields!(tag code number path copy text),
            NoteKind::Aside => fields!(tag code path copy text),
            NoteKind::NoJournal => fields!(code text),
        }
    }
}

/// Which fields the messages of a kind have. They stand in their bytes in this order.
#[derive(Clone, Copy, Debug, PartialEq, Eq, Drop)]
pub struct Fields {
    /// The number of a request, in 4 bytes.
    pub request: bool,
    /// The tag of a file, in 2 bytes.
    pub tag: bool,
    /// What happened, or why, in 1 byte.
    pub code: bool,
    /// A number, in 8 bytes.
    pub number: bool,
    /// A path: 2 bytes of length, and then so many.
    pub path: bool,
    /// A second path, likewise.
    pub copy: bool,
    /// A text for people, likewise.
    pub text: bool,
}

/// No field.
const NO_FIELDS: Fields = Fields {
    request: false,
    tag: false,
    code: false,
    number: false,
    path: false,
    copy: false,
    text: false,
};
