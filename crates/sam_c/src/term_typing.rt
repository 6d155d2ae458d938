//! A text of any length that the user types, as events of 512 runes.

ghost use Rattle.std.specs.Prelude.{◌≡◌};
ghost use Rattle.sam_c.specs.Typing.{TermTypedText, TypesBytes, TypesPiece, TypesText, taken_of};

use sam_endpoint::{EndpointFault, TermEndpoint, TermStop};
use sam_handles::handle::SamTerm;
use sam_handles::status::{NO_MEMORY, read_status, term_status};
use sam_handles::with_end;
use sam_runes::{Runes, read_utf8, utf8_len};
use sam_term::UserEvent;
use std::alloc::Global;

/// The most runes of one event.
const MOST_TYPED: usize = 512;

/// As many runes have no room in any memory.
const TOO_MANY: usize = 1 << 60;

/// What came of typing a text.
#[derive(Drop)]
pub struct TypedText {
    /// How many runes the events have that were taken.
    pub runes: usize,
    /// What the last event answered.
    pub result: Result<(), EndpointFault<TermStop>>,
}

/// Types at most 512 runes, as one event, and returns what it answered; or out of memory if there is none for the runes, and the terminal
/// is then as it was.
#[tactic(auto, using(crate::proofs::EndCalls::term_puts))]
fn type_piece(
    end: &mut TermEndpoint,
    tag: u16,
    piece: &[char],
    alloc: Global,
) -> Result<(), EndpointFault<TermStop>>
    ensures { TypesPiece end.old tag piece.now result end.new }
{
    match Runes::from_slice(alloc, piece) {
        Ok(runes) => end.put(UserEvent::Typed(tag, runes)),
        Err(_) => Err(EndpointFault::OutOfMemory),
    }
}

/// Returns how many of so many runes an event took that was answered so: all or none.
fn taken_of(answer: &Result<(), EndpointFault<TermStop>>, runes: usize) -> usize
    ensures { result ≡ taken_of answer.now runes }
{
    match answer {
        Ok(()) | Err(EndpointFault::Unfinished) => runes,
        Err(EndpointFault::OutOfMemory)
        | Err(EndpointFault::CountFull)
        | Err(EndpointFault::Stopped(_)) => 0,
    }
}

/// Types a text as events of 512 runes, but for the last, in order, until one is not answered by `Ok`. An empty text is one event.
#[tactic(auto, using(crate::proofs::TypingLaws::starts, crate::proofs::TypingLaws::shorter, crate::proofs::TypingLaws::few_taken))]
fn type_pieces(end: &mut TermEndpoint, tag: u16, runes: &[char], alloc: Global) -> TypedText
    ensures { TypesText end.old tag runes.now result end.new }
{
    let len = runes.len();
    let mut rest = runes;
    while rest.len() > MOST_TYPED {
        let answer = type_piece(end, tag, &rest[..MOST_TYPED], alloc);
        if answer.is_err() {
            return TypedText {
                runes: len - rest.len() + taken_of(&answer, MOST_TYPED),
                result: answer,
            };
        }
        rest = &rest[MOST_TYPED..];
    }
    let left = rest.len();
    let answer = type_piece(end, tag, rest, alloc);
    TypedText {
        runes: len - left + taken_of(&answer, left),
        result: answer,
    }
}

/// Types a text in UTF-8, and hands out how many of its bytes were taken.
#[tactic(auto, using(crate::proofs::TypingLaws::typed_within))]
fn type_bytes(
    end: &mut TermEndpoint,
    tag: u16,
    text: &[u8],
    taken: &mut usize,
    alloc: Global,
) -> u32
    ensures { TypesBytes end.old tag text.now result taken.new end.new }
{
    *taken = 0;
    match read_utf8(alloc, text) {
        Ok(runes) => {
            if runes.len() >= TOO_MANY {
                return NO_MEMORY;
            }
            let typed = type_pieces(end, tag, runes.as_slice(), alloc);
            *taken = utf8_len(&runes.as_slice()[..typed.runes]);
            term_status(typed.result)
        }
        Err(why) => read_status(why),
    }
}

/// Types a text of any length, in UTF-8, in the place of the dot: as events of 512 runes, but for the last, in order. Hands out how many
/// bytes of the text the events have that were taken. It ends with the first event that doesn't answer `SAM_OK`; those before it stay. At
/// `SAM_UNFINISHED` that event was taken, too, and its bytes count. An empty text is one event.
///
/// Errors, in this order: `SAM_NO_HANDLE`; `SAM_NOT_TEXT` if the text is not UTF-8; `SAM_NO_MEMORY` if there is no memory for its runes.
/// The terminal is then as it was, and but for the first the count is 0. Then come those of the events.
#[unsafe(no_mangle)]
pub extern "C" fn sam_term_type_text(
    term: &mut SamTerm,
    tag: u16,
    text: &[u8],
    taken: &mut usize,
    alloc: Global,
) -> u32
    ensures { TermTypedText term.old.held.end tag text.now taken.old result taken.new term.new.held.end }
{
    with_end!(term alloc mut end { type_bytes(&mut end, tag, text, taken, alloc) })
}
