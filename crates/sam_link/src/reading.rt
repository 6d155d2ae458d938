//! How packets are read from bytes. It takes no memory: a packet's body stays where it is.

ghost use Rattle.std.specs.Prelude.{◌≡◌, ◌≤◌, length, slice_index, max, ◌||◌, true};
ghost use Rattle.sam_mesg.specs.Bounds.{may_be};
ghost use Rattle.sam_mesg.specs.Spelling.{eight};
ghost use Rattle.sam_link.specs.Inbox.{body_len};
ghost use Rattle.sam_link.specs.Packets.{FirstIs, IsSplit, Says, bounds};

use crate::packet::{ACKNOWLEDGEMENT, DATA, NOTE, bounds};
use thiserror::Error;

/// Why bytes are no packet.
#[derive(Clone, Copy, Debug, PartialEq, Eq, Drop, Error)]
pub enum PacketFault {
    /// The first byte is the number of no kind. It shows at that byte.
    #[error("no such kind of packet")]
    BadKind,
    /// No body of the kind has this length. It shows at the third byte.
    #[error("no such length for this kind of packet")]
    BadLength,
}

/// What packets say of the other side's stream.
#[derive(Clone, Copy, Drop)]
pub struct Said {
    /// The greatest count that they acknowledge; 0 if they acknowledge none.
    pub top: u64,
    /// Whether one of them asks.
    pub asked: bool,
}

/// What stands at the front of some bytes.
#[derive(Drop)]
pub enum First {
    /// No whole packet as yet.
    Open,
    /// A packet that says so much, and how many bytes it takes with its head.
    Whole(Said, usize),
    /// Bytes that begin no packet.
    Wrong(PacketFault),
}

/// The packets at the front of some bytes, and what stands after them.
#[derive(Drop)]
pub struct Split {
    /// How many packets there are.
    pub count: usize,
    /// How many bytes they take.
    pub len: usize,
    /// What they say.
    pub said: Said,
    /// What is wrong after them; `None` if no whole packet stands there as yet.
    pub fault: Option<PacketFault>,
}

/// Reads the number of eight bytes.
fn number_of(bytes: &[u8]) -> u64
    requires { length bytes.now ≡ 8 }
    ensures { eight result ≡ bytes.now }
{
    u64::from_be_bytes([
        bytes[0], bytes[1], bytes[2], bytes[3], bytes[4], bytes[5], bytes[6], bytes[7],
    ])
}

/// Returns what the packet of this kind with this body says, whose length the kind allows.
fn said_in(kind: u8, body: &[u8]) -> Said
    requires { may_be (bounds kind) (length body.now) ≡ true }
    ensures { Says kind body.now result }
{
    let nothing = Said {
        top: 0,
        asked: false,
    };
    match kind {
        DATA => nothing,
        NOTE => nothing,
        ACKNOWLEDGEMENT => Said {
            top: number_of(body),
            asked: false,
        },
        _ => Said {
            top: 0,
            asked: true,
        },
    }
}

/// Reads the packet at the front of the bytes, if it is whole.
fn first_packet(bytes: &[u8]) -> First
    ensures { FirstIs bytes.now result }
{
    let [kind, behind @ ..] = bytes else {
        return First::Open;
    };
    let Some((least, most)) = bounds(*kind) else {
        return First::Wrong(PacketFault::BadKind);
    };
    let [high, low, rest @ ..] = behind else {
        return First::Open;
    };
    let len = *high as usize * 256 + *low as usize;
    if len < least || most < len {
        return First::Wrong(PacketFault::BadLength);
    }
    if rest.len() < len {
        return First::Open;
    }
    let (body, _) = rest.split_at(len);
    First::Whole(said_in(*kind, body), 3 + len)
}

/// Returns what packets and one more say.
fn both(said: Said, more: Said) -> Said
    ensures { (result.top ≡ max said.top more.top) × (result.asked ≡ (said.asked || more.asked)) }
{
    Said {
        top: said.top.max(more.top),
        asked: said.asked || more.asked,
    }
}

/// Splits bytes into the packets at their front, up to a fault or to a packet that is not whole.
pub fn split_packets(bytes: &[u8]) -> Split
    ensures { IsSplit bytes.now result }
{
    let mut count = 0;
    let mut len = 0;
    let mut said = Said {
        top: 0,
        asked: false,
    };
    'packets: loop {
        let (_, rest) = bytes.split_at(len);
        match first_packet(rest) {
            First::Whole(next, more) => {
                count += 1;
                len += more;
                said = both(said, next);
            }
            First::Open => {
                return Split {
                    count,
                    len,
                    said,
                    fault: None,
                };
            }
            First::Wrong(fault) => {
                return Split {
                    count,
                    len,
                    said,
                    fault: Some(fault),
                };
            }
        }
    }
}

/// The head of a packet.
#[derive(Drop)]
pub struct Head {
    /// Its kind.
    pub kind: u8,
    /// How many bytes its body has.
    pub len: usize,
}

/// Returns the head of the packet that stands first.
pub fn head_of(bytes: &[u8]) -> Head
    requires { 3 ≤ length bytes.now }
    ensures kind { result.kind ≡ slice_index bytes.now 0 }
    ensures len { result.len ≡ body_len bytes.now }
{
    Head {
        kind: bytes[0],
        len: bytes[1] as usize * 256 + bytes[2] as usize,
    }
}
