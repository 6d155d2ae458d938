//! How a record is read from bytes.

ghost use Rattle.std.specs.Prelude.{◌≡◌, ◌<◌, ◌∷◌, ◌++◌, MatchOption, length};
ghost use Rattle.sam_mesg.specs.Spelling.{eight};
ghost use Rattle.sam_server.specs.Records.{ReadsRecord};

use crate::record::{ACKNOWLEDGED, ASKED, CALLED, CAME, DONE, JOINED, MARKED, Record, SAID};
use sam_link::{HELLO_BYTES, read_hello};

/// How many bytes a number has.
const NUMBER_BYTES: usize = 8;

/// How many bytes a tag has.
const TAG_BYTES: usize = 2;

/// Returns the number of the first eight bytes, and what stands behind it.
fn first_number(bytes: &[u8]) -> Option<(u64, &[u8])>
    ensures { MatchOption result (length bytes.now < 8) (λ x. eight x.0 ++ x.1.now ≡ bytes.now) }
{
    if bytes.len() < NUMBER_BYTES {
        return None;
    }
    let (front, rest) = bytes.split_at(NUMBER_BYTES);
    let number = u64::from_be_bytes([
        front[0], front[1], front[2], front[3], front[4], front[5], front[6], front[7],
    ]);
    Some((number, rest))
}

/// Reads the file that joined, of the bytes behind the kind.
fn joined_in(bytes: &[u8]) -> Option<Record<'_>>
    ensures { ReadsRecord (1 ∷ bytes.now) result }
{
    let (len, rest) = first_number(bytes)?;
    if (rest.len() as u64) < len {
        return None;
    }
    let (name, text) = rest.split_at(len as usize);
    Some(Record::Joined(name, text))
}

/// Reads the hello of a connection, of the bytes behind the kind.
fn called_in(bytes: &[u8]) -> Option<Record<'_>>
    ensures { ReadsRecord (2 ∷ bytes.now) result }
{
    if bytes.len() != HELLO_BYTES {
        return None;
    }
    match read_hello(bytes) {
        Ok(Some(hello)) => Some(Record::Called(hello)),
        Ok(None) => None,
        Err(_) => None,
    }
}

/// Reads the piece of a connection, of the bytes behind the kind.
fn came_in(bytes: &[u8]) -> Option<Record<'_>>
    ensures { ReadsRecord (3 ∷ bytes.now) result }
{
    let (attempt, piece) = first_number(bytes)?;
    Some(Record::Came(attempt, piece))
}

/// Reads the tag of a file that was marked, of the bytes behind the kind.
fn marked_in(bytes: &[u8]) -> Option<Record<'_>>
    ensures { ReadsRecord (8 ∷ bytes.now) result }
{
    if bytes.len() != TAG_BYTES {
        return None;
    }
    Some(Record::Marked(u16::from_be_bytes([bytes[0], bytes[1]])))
}

/// Reads how an effect ended, of the bytes behind the kind.
fn done_in(bytes: &[u8]) -> Option<Record<'_>>
    ensures { ReadsRecord (7 ∷ bytes.now) result }
{
    match first_number(bytes) {
        Some((ending, [])) => Some(Record::Done(ending)),
        _ => None,
    }
}

/// Reads the record that the bytes spell, all of them; `None` if they spell none.
pub fn read_record(bytes: &[u8]) -> Option<Record<'_>>
    ensures { ReadsRecord bytes.now result }
{
    let (kind, rest) = bytes.split_first()?;
    match *kind {
        JOINED => joined_in(rest),
        CALLED => called_in(rest),
        CAME => came_in(rest),
        SAID => Some(Record::Said(rest)),
        ACKNOWLEDGED if rest.is_empty() => Some(Record::Acknowledged),
        ASKED if rest.is_empty() => Some(Record::Asked),
        DONE => done_in(rest),
        MARKED => marked_in(rest),
        _ => None,
    }
}
