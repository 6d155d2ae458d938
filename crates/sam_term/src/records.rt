//! The records that the terminal keeps of one file: `KnownFile`, its `Window` while it is open, and `Unsent`. They are plain data without
//! methods. `known_files` keeps them in a list by tag, and `windows` has the methods of `Terminal` that read and change a window.
use sam_rasp::Rasp;
use sam_runes::Runes;

/// What the terminal keeps of an open file. Dot and view lie within the rasp, and move with the text as runes and gaps come and go before
/// them. `Hbindname` makes one with an empty rasp and no lock, and `Hclose` drops it.
#[derive(Drop)]
pub struct Window {
    /// The partial text: as many runes and gaps as the host's text has runes, what is unsent or under way aside. At most `MAX_RUNES`.
    pub rasp: Rasp,
    /// The places where the selection begins and ends: a range of the rasp.
    pub dot: (u32, u32),
    /// The place where the view begins. It is never past the end of the rasp.
    pub view_start: u32,
    /// How many runes and gaps the view may show, as the last `View` or `Load` wished: 0 before that. The rasp may end sooner.
    pub view_length: u32,
    /// How many locks of the file are held, the command lock aside. No event on the file acts unless it is 0, and it is never more than
    /// the number of messages that the terminal has composed.
    pub locks: u64,
    /// How many `Trequest`s of the file were composed whose `Hdata` has not come. The request rule composes none until it is 0. It is never
    /// more than the number of messages that the terminal has composed.
    pub awaited: u64,
}

/// A file that the terminal knows. `Hnewname` makes it, with no name, clean, not changed here and not open, and `Hdelname` drops it.
#[derive(Drop)]
pub struct KnownFile {
    /// The name that the last `Hmovname` gave; empty before that.
    pub name: Runes,
    /// Whether the file is dirty, as the last `Hdirty` or `Hclean` said. What the user types and cuts does not set it, since no frame
    /// reports that.
    pub dirty: bool,
    /// Whether the user typed into the file, cut from it or edited it here since the last `Hclean`, or since it became known. A held event
    /// has not set it yet.
    pub changed: bool,
    /// The window, if and only if the file is open.
    pub window: Option<Window>,
}

/// Runes that were typed and are in no message yet. They go as one `Ttype` before any other message, or when the terminal flushes.
#[derive(Drop)]
pub struct Unsent {
    /// The file that they were typed into. When that is closed they are dropped.
    pub file: u16,
    /// The place of the rasp where they begin, never past its end. It moves with the text.
    pub place: u32,
    /// The runes, 1 to `MOST_IN_MESSAGE`. They came into the rasp as they were typed.
    pub runes: Runes,
}
