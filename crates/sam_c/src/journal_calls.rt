//! What C calls to write and read the bytes of a journal: include/sulgrevad.h says what each call does. None takes a handle or memory. A
//! call returns a number of `sam_status`; after `SAM_NONE` and each refusal but `SAM_JOURNAL_DAMAGED` what its other arguments lead to is
//! as it was.

ghost use Rattle.std.specs.Prelude.{◌≡◌, ◌<◌, ◌+◌, ◌^◌};
ghost use Rattle.sam_journal.specs.Files.{head};
ghost use Rattle.sam_handles.specs.Status.{ok};
ghost use Rattle.sam_c.specs.Journals.{JournalRead, NextRecord, RecordFramed, read_status, told, told_record};

use sam_handles::status::{NONE, OK};
use sam_journal::{
    FRONT_BYTES, Frame, Next, RECORD_BYTES, ReadFault, Record, frame_of, head, next_record, read,
};

/// Added to the number, from 1, of why a journal is not read, or a record not framed.
const JOURNAL: u32 = 256;

/// No whole record of the wanted number stands there.
const TORN: u32 = JOURNAL + 6;

/// The body of a record would have 2^32 bytes or more.
const TOO_LONG: u32 = JOURNAL + 7;

/// The head of a file.
#[repr(C)]
pub struct SamJournalHead {
    /// The bytes.
    pub bytes: [u8; 24],
}

/// What stands around the body of a record: `sam_record_frame` of include/sulgrevad.h.
#[repr(C)]
#[derive(Clone, Copy, Drop)]
pub struct SamRecordFrame {
    /// The bytes before it.
    pub front: [u8; 24],
    /// The bytes behind it.
    pub back: [u8; 4],
}

/// A whole record: `sam_record` of include/sulgrevad.h.
#[repr(C)]
#[derive(Clone, Copy, Drop)]
pub struct SamRecord {
    /// How many bytes of the file were durable when it was made.
    pub durable: u64,
    /// The place of its body, in bytes of the file.
    pub body: usize,
    /// How many bytes the body has.
    pub len: usize,
    /// The place behind the record.
    pub next: usize,
}

/// Returns the number of why a journal is not read.
fn read_status(why: ReadFault) -> u32
    ensures { result ≡ read_status why }
{
    match why {
        ReadFault::Short => JOURNAL + 1,
        ReadFault::NotAJournal => JOURNAL + 2,
        ReadFault::OtherVersion => JOURNAL + 3,
        ReadFault::DamagedHead => JOURNAL + 4,
        ReadFault::Damaged(_) => JOURNAL + 5,
    }
}

/// Returns a record that was found, as C has it.
fn told_record(found: Record) -> SamRecord
    requires { found.place + 28 + found.len < 2 ^ 64 }
    ensures { result ≡ told_record found }
{
    SamRecord {
        durable: found.durable,
        body: found.place + FRONT_BYTES,
        len: found.len,
        next: found.place + RECORD_BYTES + found.len,
    }
}

/// Writes the head of the file of this random number. It returns `SAM_OK`.
#[unsafe(no_mangle)]
pub extern "C" fn sam_journal_head(random: u64, into: &mut SamJournalHead) -> u32
    ensures status { result ≡ ok }
    ensures bytes { into.new.bytes ≡ head random }
{
    into.bytes = head(random);
    OK
}

/// Hands out the bytes that stand around the body of a record. Errors: `SAM_JOURNAL_TOO_LONG`.
#[unsafe(no_mangle)]
pub extern "C" fn sam_journal_frame(
    random: u64,
    number: u64,
    durable: u64,
    body: &[u8],
    frame: &mut SamRecordFrame,
) -> u32
    ensures { RecordFramed random number durable body.now result frame.old frame.new }
{
    if body.len() > u32::MAX as usize {
        return TOO_LONG;
    }
    let Frame { front, back } = frame_of(random, number, durable, body);
    *frame = SamRecordFrame { front, back };
    OK
}

/// Reads a whole file, and hands out its random number, how many whole records it has from the front on, and where they end.
///
/// Errors, in the order of [`read`]: `SAM_JOURNAL_SHORT`, `SAM_JOURNAL_NOT_A_JOURNAL`, `SAM_JOURNAL_OTHER_VERSION`,
/// `SAM_JOURNAL_DAMAGED_HEAD`; `SAM_JOURNAL_DAMAGED`, which hands out the same.
#[unsafe(no_mangle)]
pub extern "C" fn sam_journal_read(
    bytes: &[u8],
    random: &mut u64,
    count: &mut u64,
    end: &mut usize,
) -> u32
    ensures { JournalRead bytes.now result (told random.old count.old end.old) (told random.new count.new end.new) }
{
    let (status, journal) = match read(bytes) {
        Ok(journal) => (OK, journal),
        Err(ReadFault::Damaged(journal)) => (read_status(ReadFault::Damaged(journal)), journal),
        Err(why) => return read_status(why),
    };
    *random = journal.random;
    *count = journal.count;
    *end = journal.end;
    status
}

/// Hands out the record of this number that stands at this place. `SAM_NONE` means that the file ends there. Errors: `SAM_JOURNAL_TORN`.
#[unsafe(no_mangle)]
pub extern "C" fn sam_journal_next(
    bytes: &[u8],
    place: usize,
    random: u64,
    number: u64,
    found: &mut SamRecord,
) -> u32
    ensures { NextRecord random bytes.now place number result found.old found.new }
{
    match next_record(bytes, place, random, number) {
        Next::Whole(record) => {
            *found = told_record(record);
            OK
        }
        Next::End => NONE,
        Next::Torn => TORN,
    }
}
