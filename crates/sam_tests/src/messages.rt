//! The places of faults, what a framer that failed answers, copies of messages, what no header lets through, and room.
use sam_frame::{Framer, FramerH, FramerT, Wire, can_encode};
use sam_mesg::{HFrame, Hmesg, MesgFault, Tmesg, decode_h, decode_t};
use sam_runes::{MAX_RUNES, Runes, Text, TextFault};
use sam_test_support::{lent, told_of};
use std::alloc::{AllocError, Global};

/// What the framer gives for the piece: how many messages, the number of the fault after them (0: none), and the place where what it
/// holds begins. If it refuses the piece, no message, the number of the refusal, and 0.
fn given<M: Wire>(framer: &mut Framer<M>, piece: &[u8]) -> (usize, u8, u64) {
    told_of(framer.give(piece), |given| match given {
        Ok(given) => {
            let number = given.fault.map_or(0, |fault| fault as u8);
            (given.messages.len(), number, given.place)
        }
        Err(why) => (0, why.number(), 0),
    })
}

/// What begins a Ttype of the most runes that one may have, and one with a rune more.
const LONGEST: [u8; 9] = [8, 2, 6, 0, 1, 0, 0, 0, 0];

const TOO_LONG: [u8; 9] = [8, 2, 7, 0, 1, 0, 0, 0, 0];

/// The frame of an Hversion of 2, and a byte that begins none.
const BAD_KIND: [u8; 14] = [0x41, 0, 10, 0, 0, 0, 0, 0, 0, 0, 2, 0, 2, 8];

#[test]
fn places_of_faults(rt: HostRuntime) {
    let up = lent(FramerT::new(rt.alloc()), |framer| {
        (
            (given(framer, &LONGEST), given(framer, &[b'a'; 512])),
            (given(framer, &TOO_LONG), given(framer, &[b'a'; 513])),
            (given(framer, &[]), framer.finish().is_ok()),
        )
    });
    let down = lent(FramerH::new(rt.alloc()), |framer| given(framer, &BAD_KIND));
    let longest = ((0, 0, 0), (1, 0, 521));
    let too_long = ((0, 0, 521), (0, 3, 521));
    assert_eq!(rt;
        (up, down),
        ((longest, too_long, ((0, 5, 0), false)), (1, 1, 13))
    );
}

/// Whether a Ttype and an Hgrow are copied as they are.
fn copied(alloc: Global) -> Result<(bool, bool), AllocError> {
    let typed = Tmesg::Ttype(1, 2, Runes::from_str(alloc, "hi")?);
    let grown = HFrame {
        seen: 3,
        msg: Hmesg::Hgrow(1, 2, 4),
    };
    Ok((
        told_of(typed.copy(alloc), |copy| match copy {
            Ok(Tmesg::Ttype(1, 2, text)) => text.as_slice() == ['h', 'i'].as_slice(),
            _ => false,
        }),
        told_of(grown.copy(alloc), |copy| match copy {
            Ok(HFrame { seen, msg }) => *seen == 3 && matches!(msg, Hmesg::Hgrow(1, 2, 4)),
            Err(_) => false,
        }),
    ))
}

#[test]
fn copies_of_messages(rt: HostRuntime) {
    assert_eq!(rt; copied(rt.alloc()), Ok((true, true)));
}

/// Whether a Ttype of so many runes can be written. None where memory for it is refused.
fn can_write(alloc: Global, runes: usize) -> Option<bool> {
    let text = Runes::from_vec(vec![in alloc; 'a'; runes].ok()?);
    let messages = vec![in alloc; Tmesg::Ttype(1, 0, text)].ok()?;
    Some(can_encode(messages.as_slice()))
}

#[test]
fn what_is_no_message(rt: HostRuntime) {
    let alloc = rt.alloc();
    let read = [
        decode_t(alloc, 1, 8, &[0, 1, 0, 0, 0]).err(),
        decode_t(alloc, 1, 0, &[]).err(),
        decode_h(alloc, 1, 22, &[]).err(),
    ];
    let written = [can_write(alloc, 512), can_write(alloc, 513)];
    let bad_kind = Some(MesgFault::BadKind);
    let wanted = [Some(MesgFault::BadLength), bad_kind, bad_kind];
    assert_eq!(rt; (read, written), (wanted, [Some(true), Some(false)]));
}

#[test]
fn room_is_kept(rt: HostRuntime) {
    let told = lent(Text::new(rt.alloc()), |text| {
        (
            text.reserve(1) == Ok(()) && text.room() >= 1 && text.len() == 0,
            text.insert(0, &['z']) == Ok(()) && text.len() == 1,
            text.reserve(MAX_RUNES),
        )
    });
    assert_eq!(rt; told, (true, true, Err(TextFault::TooLong)));
}
