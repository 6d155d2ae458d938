//! What comes on a connection before the host's hello: a login may print words.

ghost use Rattle.std.specs.Prelude.{◌≡◌, ◌≤◌, ◌<◌, ◌++◌, [], true, false, length, take, drop, OnOk, OnErr};
ghost use Rattle.sam_link.specs.Hellos.{HasMark};
ghost use Rattle.sam_line.specs.Greeting.{AreWords, IsBefore, IsFront};

use sam_link::{Refusal, read_hello};
use std::alloc::{AllocError, Global};
use std::marker::Model;

/// What came on a connection up to the host's hello. Contracts see the bytes.
#[derive(Drop)]
pub struct Greeting {
    bytes: Vec<u8>,
    /// How many of them are words.
    words: usize,
}

impl Model for Greeting {
    ghost use Rattle.std.specs.Prelude.{List, ℕ};
    ghost use Rattle.sam_line.specs.Greeting.{IsBefore};

    ghost Value = { List ℕ };

    ghost view = { λ a. a.bytes.items };

    ghost invariant = { λ a. IsBefore a.bytes.items a.words };
}

/// Returns whether no hello can begin with these bytes.
#[tactic(auto, using(crate::proofs::Words::hello_has_mark))]
fn is_word(bytes: &[u8]) -> bool
    ensures word { result ≡ true → HasMark bytes.now → ⊥ }
    ensures some { result ≡ true → 0 < length bytes.now }
    ensures mark { result ≡ false → HasMark bytes.now }
{
    match read_hello(bytes) {
        Err(Refusal::NotALink) => true,
        _ => false,
    }
}

/// Returns how many bytes are words, of which so many are known to be.
#[tactic(auto, using(crate::proofs::Words::one_more))]
fn words_before(bytes: &[u8], from: usize) -> usize
    requires inside { from ≤ length bytes.now }
    requires words { AreWords bytes.now from }
    ensures { IsBefore bytes.now result }
{
    let mut words = from;
    'words: while is_word(&bytes[words..]) {
        words += 1;
    }
    words
}

impl Greeting {
    /// Nothing came. It takes no memory.
    pub fn new(alloc: Global) -> Greeting
        ensures { result ≡ [] }
    {
        Greeting {
            bytes: Vec::new(alloc),
            words: 0,
        }
    }

    /// Another connection begins.
    pub fn clear(&mut self)
        ensures { self.new ≡ [] }
    {
        self.bytes.clear();
        self.words = 0;
    }

    /// Returns how many bytes came.
    pub fn len(&self) -> usize
        ensures { result ≡ length self.now }
    {
        self.bytes.len()
    }

    /// Returns how many of them are words.
    pub fn words(&self) -> usize
        ensures { IsBefore self.now result }
    {
        self.words
    }

    /// Lends the bytes from there on.
    pub fn rest(&self, from: usize) -> &[u8]
        requires { from ≤ length self.now }
        ensures { result.now ≡ drop from self.now }
    {
        &self.bytes[from..]
    }

    /// Lends the words.
    pub fn front(&self) -> &[u8]
        ensures { IsFront self.now result.now }
    {
        &self.bytes[..self.words]
    }

    /// Puts a piece behind what came. The only error is out of memory, after which all is as before.
    #[tactic(auto, using(crate::proofs::Words::still_words))]
    pub fn hold(&mut self, piece: &[u8]) -> Result<(), AllocError>
        ensures held { OnOk result (self.new ≡ self.old ++ piece.now) }
        ensures unchanged { OnErr result (self.new ≡ self.old) }
    {
        self.bytes.extend_from_slice(piece)?;
        self.words = words_before(self.bytes.as_slice(), self.words);
        Ok(())
    }

    /// Takes the piece back: so many bytes came, and so many of them are words.
    pub fn restore(&mut self, len: usize, words: usize)
        requires { IsBefore (take len self.old) words }
        ensures { self.new ≡ take len self.old }
    {
        self.bytes.truncate(len);
        self.words = words;
    }
}
