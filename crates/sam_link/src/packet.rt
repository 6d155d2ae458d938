//! The packets of a link's stream.

ghost use Rattle.std.specs.Prelude.{◌≡◌};
ghost use Rattle.sam_link.specs.Packets.{bounds};

/// The most bytes that the body of a packet has.
pub const MOST_BODY: usize = 4096;

/// The kind of a packet of bytes that the program puts. Those for the program come first.
pub const DATA: u8 = 1;

/// The kind of a note of the program.
pub const NOTE: u8 = 2;

/// The kind that tells how many bytes of the other side's stream have come.
pub const ACKNOWLEDGEMENT: u8 = 3;

/// The kind that asks for an acknowledgement now.
pub const ASK: u8 = 4;

/// Returns the least and the greatest length of the body of this kind, or `None` if there is no such kind.
pub fn bounds(kind: u8) -> Option<(usize, usize)>
    ensures { result ≡ bounds kind }
{
    match kind {
        DATA => Some((1, MOST_BODY)),
        NOTE => Some((0, MOST_BODY)),
        ACKNOWLEDGEMENT => Some((8, 8)),
        ASK => Some((0, 0)),
        _ => None,
    }
}
