//! The id of a session, as C has it.

ghost use Rattle.std.specs.Prelude.{◌≡◌, length};
ghost use Rattle.sam_mesg.specs.Spelling.{eight};
ghost use Rattle.sam_link.specs.Sessions.{IsId};
ghost use Rattle.sam_handles.specs.LinkIds.{id_bytes};

use sam_link::Id;

/// The id of a session: 16 bytes.
#[repr(C)]
pub struct SamLinkId {
    /// The bytes.
    pub bytes: [u8; 16],
}

/// Reads the number of eight bytes.
fn number_of(bytes: &[u8]) -> u64
    requires { length bytes.now ≡ 8 }
    ensures { eight result ≡ bytes.now }
{
    u64::from_be_bytes([
        bytes[0], bytes[1], bytes[2], bytes[3], bytes[4], bytes[5], bytes[6], bytes[7],
    ])
}

impl SamLinkId {
    /// Returns the id that the bytes spell.
    pub fn to_id(&self) -> Id
        ensures bytes { id_bytes result ≡ self.now.bytes }
        ensures numbers { IsId result }
    {
        Id {
            first: number_of(&self.bytes[..8]),
            last: number_of(&self.bytes[8..]),
        }
    }

    /// Puts the bytes of an id there.
    pub fn set(&mut self, id: Id)
        ensures { self.new.bytes ≡ id_bytes id }
    {
        self.bytes[..8].copy_from_slice(&id.first.to_be_bytes());
        self.bytes[8..].copy_from_slice(&id.last.to_be_bytes());
    }
}
