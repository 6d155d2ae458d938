//! What left a line: the bytes of one packet.

ghost use Rattle.std.specs.Prelude.{◌≡◌, [], true, false};
ghost use Rattle.sam_client.specs.Packets.{GivesNote, next_bytes, without_bytes};

use sam_line::Line;
use sam_link::MOST_BODY;
use std::marker::Model;

/// The bytes of one packet, or none. Contracts see these bytes.
#[derive(Drop)]
pub(crate) struct Packet {
    buffer: [u8; MOST_BODY],
    len: usize,
}

impl Model for Packet {
    ghost use Rattle.std.specs.Prelude.{◌≡◌, ◌≤◌, List, ℕ, length, take};

    ghost Value = { List ℕ };

    ghost view = { λ a. take a.len a.buffer };

    ghost invariant = { λ a. (length a.buffer ≡ 4096) × (a.len ≤ 4096) };
}

impl Packet {
    /// Has no bytes.
    pub(crate) fn new() -> Packet
        ensures { result ≡ [] }
    {
        Packet {
            buffer: [0; MOST_BODY],
            len: 0,
        }
    }

    /// Lends the bytes.
    pub(crate) fn bytes(&self) -> &[u8]
        ensures { result.now ≡ self.now }
    {
        &self.buffer[..self.len]
    }

    /// Returns whether there is no byte.
    #[tactic(auto, using(crate::proofs::Packets::none_by_length))]
    pub(crate) fn is_empty(&self) -> bool
        ensures some { result ≡ false → self.now ≡ [] → ⊥ }
        ensures none { result ≡ true → self.now ≡ [] }
    {
        self.len == 0
    }

    /// Lets the bytes go.
    pub(crate) fn clear(&mut self)
        ensures { self.new ≡ [] }
    {
        self.len = 0;
    }

    /// Takes the bytes that leave the line next; what it had is gone.
    #[tactic(auto, using(crate::proofs::Packets::taken_in))]
    pub(crate) fn fetch(&mut self, line: &mut Line)
        ensures bytes { self.new ≡ next_bytes line.old }
        ensures line { line.new ≡ without_bytes line.old }
    {
        self.len = line.take_in(&mut self.buffer);
    }

    /// Takes the note that leaves the line next, if one is next, and returns whether one is; what it had is gone then.
    pub(crate) fn fetch_note(&mut self, line: &mut Line) -> bool
        ensures { GivesNote line.old self.old result line.new self.new }
    {
        match line.next_note(&mut self.buffer) {
            Some(len) => {
                self.len = len;
                true
            }
            None => false,
        }
    }
}
