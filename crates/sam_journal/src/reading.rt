//! How a file is read.

ghost use Rattle.std.specs.Prelude.{◌≡◌, ◌↔◌, List, length, IsTrue};
ghost use Rattle.sam_journal.specs.Records.{Entry};
ghost use Rattle.sam_journal.specs.Files.{IsHead, NamesMore, NamesMoreAt, NextIs, Reads, Wholes};

use crate::finding::{RECORD_BYTES, Record, eight_at, record_at};
use crate::heads::{HEAD_BYTES, read_head};
use thiserror::Error;

/// Why a file is not read.
#[derive(Clone, Copy, Debug, PartialEq, Eq, Drop, Error)]
pub enum ReadFault {
    /// It has fewer bytes than a head.
    #[error("it lacks its head")]
    Short,
    /// It begins otherwise.
    #[error("no journal")]
    NotAJournal,
    /// It has another version of the format.
    #[error("a journal of another version")]
    OtherVersion,
    /// The sum of its head is wrong.
    #[error("a damaged head")]
    DamagedHead,
    /// Behind these whole records stands none, and yet a record anywhere behind them says that more was durable.
    #[error("a damaged journal")]
    Damaged(Journal),
}

/// The whole records of a file, from the front on.
#[derive(Clone, Copy, Debug, PartialEq, Eq, Drop)]
pub struct Journal {
    /// The file's random number.
    pub random: u64,
    /// How many there are.
    pub count: u64,
    /// The place at which they end. If the file is not damaged, all behind it is torn, and is to be cut.
    pub end: usize,
}

/// What stands at a place.
#[derive(Clone, Copy, Debug, PartialEq, Eq, Drop)]
pub enum Next {
    /// A whole record.
    Whole(Record),
    /// Nothing: the bytes end there.
    End,
    /// No whole record of the wanted number.
    Torn,
}

/// Returns what stands at a place where the record of this number would, in the file of this random number. The first record has the number
/// 0 and stands behind the head; each other one stands where the one before it ends, 28 bytes and its body behind its place.
pub fn next_record(bytes: &[u8], place: usize, random: u64, number: u64) -> Next
    ensures { NextIs random bytes.now place number result }
{
    if bytes.len() <= place {
        return Next::End;
    }
    match record_at(bytes, place, random) {
        Some(found) if found.number == number => Next::Whole(found),
        _ => Next::Torn,
    }
}

/// Goes over the whole records of a file, and returns how many there are, and where they end.
fn whole_records(bytes: &[u8], random: u64) -> (u64, usize)
    requires { IsHead bytes.now random }
    ensures { (es : List Entry) × Wholes random es bytes.now result.1 × (result.0 ≡ length es) }
{
    let mut count = 0;
    let mut end = HEAD_BYTES;
    while let Next::Whole(found) = next_record(bytes, end, random, count) {
        count += 1;
        end += RECORD_BYTES + found.len;
    }
    (count, end)
}

/// Whether the record that stands at this place, if one does, says that more was durable.
fn names_more_at(bytes: &[u8], place: usize, random: u64, end: usize) -> bool
    ensures { IsTrue result ↔ NamesMoreAt random bytes.now place end }
{
    if bytes.len() < place || bytes.len() - place < RECORD_BYTES {
        return false;
    }
    if eight_at(bytes, place + 12) <= end as u64 {
        return false;
    }
    record_at(bytes, place, random).is_some()
}

/// Whether a whole record behind this place says that more was durable.
fn names_more(bytes: &[u8], random: u64, end: usize) -> bool
    ensures { IsTrue result ↔ NamesMore random bytes.now end }
{
    for place in end..bytes.len() {
        if names_more_at(bytes, place, random, end) {
            return true;
        }
    }
    false
}

/// Reads a whole file. Errors, in this order: those of [`read_head`]; `Damaged`. It takes time linear in the bytes, unless many places
/// behind the end look like a whole heading with a right sum.
pub fn read(bytes: &[u8]) -> Result<Journal, ReadFault>
    ensures { Reads bytes.now result }
{
    let random = read_head(bytes)?;
    let (count, end) = whole_records(bytes, random);
    let journal = Journal { random, count, end };
    if names_more(bytes, random, end) {
        return Err(ReadFault::Damaged(journal));
    }
    Ok(journal)
}
