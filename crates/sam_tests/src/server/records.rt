//! Each kind of record, as Python's numbers spell it.
use sam_link::{Hello, Id, What};
use sam_server::{Record, read_record, write_record};
use std::alloc::Global;

/// A file of the name "notes" and a text of 7 bytes.
const JOINED: [u8; 21] = [
    0x01, 0x00, 0x00, 0x00, 0x00, 0x00, 0x00, 0x00, 0x05, 0x6e, 0x6f, 0x74, 0x65, 0x73, 0x68, 0xc3,
    0xa9, 0x6c, 0x6c, 0x6f, 0x0a,
];

/// A hello that begins connection 7, and tells of 300 bytes.
const CALLED: [u8; 43] = [
    0x02, 0x89, 0x73, 0x61, 0x6d, 0x6c, 0x69, 0x6e, 0x6b, 0x01, 0x01, 0x01, 0x02, 0x03, 0x04, 0x05,
    0x06, 0x07, 0x08, 0x09, 0x0a, 0x0b, 0x0c, 0x0d, 0x0e, 0x0f, 0x10, 0x00, 0x00, 0x00, 0x00, 0x00,
    0x00, 0x00, 0x07, 0x00, 0x00, 0x00, 0x00, 0x00, 0x00, 0x01, 0x2c,
];

/// A piece of a connection whose number has each of its bytes.
const CAME: [u8; 14] = [
    0x03, 0x11, 0x22, 0x33, 0x44, 0x55, 0x66, 0x77, 0x88, 0x70, 0x69, 0x65, 0x63, 0x65,
];

/// An effect that ended with 258.
const DONE: [u8; 9] = [0x07, 0x00, 0x00, 0x00, 0x00, 0x00, 0x00, 0x01, 0x02];

fn hello() -> Hello {
    Hello {
        what: What::Begin,
        id: Id {
            first: 0x0102_0304_0506_0708,
            last: 0x090a_0b0c_0d0e_0f10,
        },
        attempt: 7,
        received: 300,
    }
}

/// Whether the record is written behind a byte as these bytes, and read as itself.
fn is_spelled(alloc: Global, record: Record<'_>, bytes: &[u8]) -> bool {
    let mut out = Vec::new(alloc);
    if out.push(0).is_err() || write_record(&mut out, record).is_err() {
        return false;
    }
    let written = out.as_slice();
    &written[1..] == bytes && read_record(bytes) == Some(record)
}

#[test]
fn records_are_written_and_read(rt: HostRuntime) {
    let joined = Record::Joined(b"notes", "h\u{e9}llo\n".as_bytes());
    assert!(rt; is_spelled(rt.alloc(), joined, &JOINED));
    assert!(rt; is_spelled(rt.alloc(), Record::Called(hello()), &CALLED));
    assert!(rt;
        is_spelled(
            rt.alloc(),
            Record::Came(0x1122_3344_5566_7788, b"piece"),
            &CAME
        )
    );
    assert!(rt;
        is_spelled(
            rt.alloc(),
            Record::Said(b"said"),
            &[0x04, 0x73, 0x61, 0x69, 0x64]
        )
    );
    assert!(rt; is_spelled(rt.alloc(), Record::Acknowledged, &[0x05]));
    assert!(rt; is_spelled(rt.alloc(), Record::Asked, &[0x06]));
    assert!(rt; is_spelled(rt.alloc(), Record::Done(258), &DONE));
    assert!(rt; is_spelled(rt.alloc(), Record::Marked(258), &[0x08, 0x01, 0x02]));
}

#[test]
fn other_bytes_are_no_record(rt: HostRuntime) {
    assert!(rt; read_record(&[]).is_none());
    assert!(rt; read_record(&[0x00]).is_none());
    assert!(rt; read_record(&[0x09]).is_none());
    assert!(rt; read_record(&JOINED[..13]).is_none());
    assert!(rt; read_record(&JOINED[..8]).is_none());
    assert!(rt; read_record(&CALLED[..42]).is_none());
    assert!(rt; read_record(&CAME[..8]).is_none());
    assert!(rt; read_record(&[0x05, 0x00]).is_none());
    assert!(rt; read_record(&[0x06, 0x00]).is_none());
    assert!(rt; read_record(&DONE[..8]).is_none());
    assert!(rt; read_record(&[0x08, 0x01]).is_none());
    assert!(rt; read_record(&[0x08, 0x01, 0x02, 0x03]).is_none());
}
