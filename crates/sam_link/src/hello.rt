//! The hello with which each side of a connection begins.

ghost use Rattle.std.specs.Prelude.{◌≡◌, ◌≤◌, ◌+◌, ◌++◌, drop, length, take};
ghost use Rattle.sam_mesg.specs.Spelling.{eight};
ghost use Rattle.sam_link.specs.Hellos.{ReadsHello, refusal_number, spelled, what_number, what_of};

use thiserror::Error;

/// How many bytes a hello has.
pub const HELLO_BYTES: usize = 42;

/// The first eight bytes of a hello: no line of a shell begins so.
const MARK: [u8; 8] = [0x89, 0x73, 0x61, 0x6d, 0x6c, 0x69, 0x6e, 0x6b];

/// Why a hello is refused. The numbers on the wire are 17 to 23, in this order.
#[derive(Clone, Copy, Debug, PartialEq, Eq, Drop, Error)]
pub enum Refusal {
    /// The bytes are no hello.
    #[error("not a link")]
    NotALink,
    /// A hello of another version.
    #[error("another version of the link")]
    OtherVersion,
    /// A hello that says nothing which this side takes.
    #[error("a wrong hello")]
    BadHello,
    /// The terminal resumes a session, and none is here.
    #[error("no session")]
    NoSession,
    /// The hello is of another session.
    #[error("another session")]
    OtherSession,
    /// The connection is not newer than the newest.
    #[error("an old connection")]
    OldAttempt,
    /// The other side tells of bytes that were not put, or were told to have come before.
    #[error("a count that can't be")]
    WrongCount,
}

impl Refusal {
    /// Returns the number of the refusal on the wire.
    pub fn number(self) -> u8
        ensures { result ≡ refusal_number self }
    {
        match self {
            Refusal::NotALink => 17,
            Refusal::OtherVersion => 18,
            Refusal::BadHello => 19,
            Refusal::NoSession => 20,
            Refusal::OtherSession => 21,
            Refusal::OldAttempt => 22,
            Refusal::WrongCount => 23,
        }
    }
}

/// What a hello says. The terminal says the first three, and the host the others.
#[derive(Clone, Copy, Debug, PartialEq, Eq, Drop)]
pub enum What {
    /// The session begins: no welcome has come as yet.
    Begin,
    /// The session goes on.
    Resume,
    /// A session begins, of the texts of another.
    TakeOver,
    /// The host takes the connection.
    Welcome,
    /// The host refuses it.
    Refused(Refusal),
}

impl What {
    /// Returns its number on the wire.
    fn number(self) -> u8
        ensures { result ≡ what_number self }
    {
        match self {
            What::Begin => 1,
            What::Resume => 2,
            What::TakeOver => 3,
            What::Welcome => 4,
            What::Refused(why) => why.number(),
        }
    }
}

/// The name of a session, 16 bytes that its terminal chose at random.
#[derive(Clone, Copy, Debug, PartialEq, Eq, Drop)]
pub struct Id {
    /// The first eight bytes, the highest first.
    pub first: u64,
    /// The last eight bytes, the highest first.
    pub last: u64,
}

/// A hello.
#[derive(Clone, Copy, Debug, PartialEq, Eq, Drop)]
pub struct Hello {
    /// What it says.
    pub what: What,
    /// The session.
    pub id: Id,
    /// The number of the connection, which the terminal counts from 1. The host repeats it.
    pub attempt: u64,
    /// How many bytes of the other side's stream have come.
    pub received: u64,
}

/// Writes the bytes at this place.
fn write_at(out: &mut [u8], at: usize, bytes: &[u8])
    requires { at + length bytes.now ≤ length out.old }
    ensures front { take (at + length bytes.now) out.new ≡ take at out.old ++ bytes.now }
    ensures len { length out.new ≡ length out.old }
{
    let end = at + bytes.len();
    out[at..end].copy_from_slice(bytes);
}

impl Hello {
    /// Returns the bytes of the hello.
    pub fn spell(&self) -> [u8; HELLO_BYTES]
        ensures { result ≡ spelled self.now }
    {
        let mut out = [0; HELLO_BYTES];
        write_at(&mut out, 0, &MARK);
        write_at(&mut out, 8, &[1, self.what.number()]);
        write_at(&mut out, 10, &self.id.first.to_be_bytes());
        write_at(&mut out, 18, &self.id.last.to_be_bytes());
        write_at(&mut out, 26, &self.attempt.to_be_bytes());
        write_at(&mut out, 34, &self.received.to_be_bytes());
        out
    }
}

/// Returns what this number says, if it says anything.
fn what_of(number: u8) -> Option<What>
    ensures { result ≡ what_of number }
{
    match number {
        1 => Some(What::Begin),
        2 => Some(What::Resume),
        3 => Some(What::TakeOver),
        4 => Some(What::Welcome),
        17 => Some(What::Refused(Refusal::NotALink)),
        18 => Some(What::Refused(Refusal::OtherVersion)),
        19 => Some(What::Refused(Refusal::BadHello)),
        20 => Some(What::Refused(Refusal::NoSession)),
        21 => Some(What::Refused(Refusal::OtherSession)),
        22 => Some(What::Refused(Refusal::OldAttempt)),
        23 => Some(What::Refused(Refusal::WrongCount)),
        _ => None,
    }
}

/// Reads the number of eight bytes at this place.
fn number_at(bytes: &[u8], at: usize) -> u64
    requires { at + 8 ≤ length bytes.now }
    ensures { eight result ≡ take 8 (drop at bytes.now) }
{
    let front = &bytes[at..at + 8];
    u64::from_be_bytes([
        front[0], front[1], front[2], front[3], front[4], front[5], front[6], front[7],
    ])
}

/// Reads the hello at the front of the bytes. `None` means that nothing is wrong so far, and that there are fewer than 42.
///
/// Errors, in this order: `NotALink` as soon as the bytes differ from the mark; `OtherVersion` as soon as the ninth byte is there;
/// `BadHello` as soon as the tenth is, if it says nothing.
pub fn read_hello(bytes: &[u8]) -> Result<Option<Hello>, Refusal>
    ensures { ReadsHello bytes.now result }
{
    let marked = bytes.len().min(MARK.len());
    if bytes[..marked] != MARK[..marked] {
        return Err(Refusal::NotALink);
    }
    let Some(version) = bytes.get(8) else {
        return Ok(None);
    };
    if *version != 1 {
        return Err(Refusal::OtherVersion);
    }
    let Some(number) = bytes.get(9) else {
        return Ok(None);
    };
    let Some(what) = what_of(*number) else {
        return Err(Refusal::BadHello);
    };
    if bytes.len() < HELLO_BYTES {
        return Ok(None);
    }
    let id = Id {
        first: number_at(bytes, 10),
        last: number_at(bytes, 18),
    };
    Ok(Some(Hello {
        what,
        id,
        attempt: number_at(bytes, 26),
        received: number_at(bytes, 34),
    }))
}
