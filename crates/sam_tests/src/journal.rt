//! Sums by the standard's own examples, and a file whose bytes were worked out apart.
ghost use Rattle.std.specs.Prelude.{◌<◌};

use sam_journal::{
    HEAD_BYTES, Journal, Next, ReadFault, Record, append, crc_32c, head, next_record, read,
};
use std::alloc::{AllocError, Global};

const RANDOM: u64 = 0x0123_4567_89ab_cdef;

/// A head, a record of "one" of which nothing was durable, and an empty one, made when all before it was. It is of Python's numbers and of
/// a sum that was worked out bit by bit.
const FILE: [u8; 83] = [
    0x89, 0x73, 0x61, 0x6d, 0x6a, 0x72, 0x6e, 0x0a, 0x00, 0x00, 0x00, 0x02, 0x01, 0x23, 0x45, 0x67,
    0x89, 0xab, 0xcd, 0xef, 0x4d, 0x98, 0x8a, 0xaf, 0x00, 0x00, 0x00, 0x00, 0x00, 0x00, 0x00, 0x00,
    0x00, 0x00, 0x00, 0x03, 0x00, 0x00, 0x00, 0x00, 0x00, 0x00, 0x00, 0x00, 0xcc, 0xf4, 0xe3, 0x93,
    0x6f, 0x6e, 0x65, 0x88, 0x7d, 0x5d, 0x0a, 0x00, 0x00, 0x00, 0x00, 0x00, 0x00, 0x00, 0x01, 0x00,
    0x00, 0x00, 0x00, 0x00, 0x00, 0x00, 0x00, 0x00, 0x00, 0x00, 0x37, 0x01, 0xa0, 0xfa, 0x85, 0x9e,
    0xf3, 0x4a, 0x24,
];

/// Where the second record stands.
const SECOND: usize = 55;

/// The same file, as it is written.
fn written(alloc: Global) -> Result<Vec<u8>, AllocError> {
    let mut file = Vec::new(alloc);
    file.extend_from_slice(&head(RANDOM))?;
    append(&mut file, RANDOM, 0, 0, b"one")?;
    append(&mut file, RANDOM, 1, SECOND as u64, b"")?;
    Ok(file)
}

/// The file with a bit turned in the byte at this place.
fn turned(at: usize) -> [u8; 83]
    requires { at < 83 }
{
    let mut file = FILE;
    file[at] ^= 16;
    file
}

#[test]
fn sums_are_those_of_the_standard(rt: HostRuntime) {
    let mut up = [0u8; 32];
    let mut down = [0u8; 32];
    for at in 0..32u8 {
        up[at as usize] = at;
        down[at as usize] = 31 - at;
    }
    assert_eq!(rt; crc_32c(b"123456789"), 0xe306_9283);
    assert_eq!(rt; crc_32c(&[0; 32]), 0x8a91_36aa);
    assert_eq!(rt; crc_32c(&[255; 32]), 0x62a8_ab43);
    assert_eq!(rt; crc_32c(&up), 0x46dd_794e);
    assert_eq!(rt; crc_32c(&down), 0x113f_db5c);
    assert_eq!(rt; crc_32c(b""), 0);
}

#[test]
fn file_is_written_and_read(rt: HostRuntime) {
    let file = written(rt.alloc()).expect(&rt, "memory");
    assert_eq!(rt; file.as_slice(), FILE.as_slice());
    let whole = Journal {
        random: RANDOM,
        count: 2,
        end: FILE.len(),
    };
    assert_eq!(rt; read(&FILE), Ok(whole));
}

#[test]
fn records_come_in_order(rt: HostRuntime) {
    let first = Record {
        place: HEAD_BYTES,
        number: 0,
        durable: 0,
        len: 3,
    };
    let second = Record {
        place: SECOND,
        number: 1,
        durable: SECOND as u64,
        len: 0,
    };
    assert_eq!(rt;
        next_record(&FILE, HEAD_BYTES, RANDOM, 0),
        Next::Whole(first)
    );
    assert_eq!(rt; next_record(&FILE, SECOND, RANDOM, 1), Next::Whole(second));
    assert_eq!(rt; next_record(&FILE, FILE.len(), RANDOM, 2), Next::End);
    assert_eq!(rt; next_record(&FILE, SECOND, RANDOM, 0), Next::Torn);
    assert_eq!(rt; next_record(&FILE, SECOND, RANDOM + 1, 1), Next::Torn);
    assert_eq!(rt; first.body(&FILE), b"one".as_slice());
}

#[test]
fn torn_end_is_no_damage(rt: HostRuntime) {
    let one = Journal {
        random: RANDOM,
        count: 1,
        end: SECOND,
    };
    assert_eq!(rt; read(&FILE[..82]), Ok(one));
    assert_eq!(rt; read(&turned(SECOND + 1)), Ok(one));
}

#[test]
fn damage_is_told(rt: HostRuntime) {
    let none = Journal {
        random: RANDOM,
        count: 0,
        end: HEAD_BYTES,
    };
    let damaged = Err(ReadFault::Damaged(none));
    assert_eq!(rt; read(&turned(HEAD_BYTES + 1)), damaged);
    assert_eq!(rt; read(&turned(HEAD_BYTES + 25)), damaged);
    assert_eq!(rt; read(&turned(13)), Err(ReadFault::DamagedHead));
    assert_eq!(rt; read(&turned(11)), Err(ReadFault::OtherVersion));
    assert_eq!(rt; read(&turned(1)), Err(ReadFault::NotAJournal));
    assert_eq!(rt; read(&FILE[..23]), Err(ReadFault::Short));
}
