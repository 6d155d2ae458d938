//! What C says that the user did at a terminal: include/sulgrevad.h says of each call what it does. An event acts at once if it can, or is
//! held until the events before it have acted and the locks that it waits for are free. Each call also lets held events act, in order.
//! What is composed is then pending. `sam_term_next_refusal` reports an event that is refused, now or later. Places count runes from
//! the beginning of the text.
//!
//! Each returns `SAM_OK`, `SAM_NO_MEMORY`, `SAM_UNFINISHED`, `SAM_COUNT_FULL`, `SAM_NO_HANDLE`, or why the terminal has stopped, at this
//! call or before: `SAM_STREAM..`, `SAM_TERM_REFUSED..`. `SAM_NO_HANDLE` comes first; the order of the others is that of
//! `TermEndpoint::put`.

ghost use Rattle.sam_term.specs.declared.event.UserEvent.TheVariants.{Check, Close, Cut, Dclick, Edit, Exit, Flush, GetSnarf, Load, Look, New, Open, OpenCmd, Paste, Scroll, Search, Select, Send, SetSnarf, Snarf, Typed, Version, View, Work, Write};
ghost use Rattle.sam_c.specs.Terms.{TermPut, TermPutText};

use sam_handles::handle::SamTerm;
use sam_handles::status::{NO_HANDLE, read_status, term_status};
use sam_handles::with_end;
use sam_runes::read_utf8;
use sam_term::UserEvent;
use std::alloc::Global;

/// Puts an event to the terminal that a handle holds, and returns what came of it.
#[tactic(auto, using(crate::proofs::EndCalls::term_puts))]
fn put(term: &mut SamTerm, event: UserEvent, alloc: Global) -> u32
    ensures { TermPut term.old.held.end event result term.new.held.end }
{
    with_end!(term alloc mut end { term_status(end.put(event)) })
}

/// Types a text in the place of the dot: at most 512 runes, in UTF-8; a longer one is an event that is refused. After `SAM_NO_HANDLE`, and
/// before all else, come `SAM_NOT_TEXT` if the text is not UTF-8, and `SAM_NO_MEMORY` if there is no memory for its runes. After these
/// two the terminal is as it was.
#[unsafe(no_mangle)]
pub extern "C" fn sam_term_type(term: &mut SamTerm, tag: u16, text: &[u8], alloc: Global) -> u32
    ensures { TermPutText term.old.held.end text.now (λ runes. Typed tag runes) result term.new.held.end }
{
    if !term.is_made() {
        return NO_HANDLE;
    }
    match read_utf8(alloc, text) {
        Ok(runes) => put(term, UserEvent::Typed(tag, runes), alloc),
        Err(why) => read_status(why),
    }
}

/// Puts a text of any length, in UTF-8, in the place of what stands from the place `start` to the place `end`, all or nothing. The dot
/// moves as other places do. An edit of the command file, of a range that the text doesn't have, or to more than 1,000,000 runes is an
/// event that is refused. After `SAM_NO_HANDLE`, and before all else, come `SAM_NOT_TEXT` if the text is not UTF-8, and `SAM_NO_MEMORY`
/// if there is no memory for its runes. After these two the terminal is as it was.
#[unsafe(no_mangle)]
pub extern "C" fn sam_term_edit(
    term: &mut SamTerm,
    tag: u16,
    start: u32,
    end: u32,
    text: &[u8],
    alloc: Global,
) -> u32
    ensures { TermPutText term.old.held.end text.now (λ runes. Edit tag start end runes) result term.new.held.end }
{
    if !term.is_made() {
        return NO_HANDLE;
    }
    match read_utf8(alloc, text) {
        Ok(runes) => put(term, UserEvent::Edit(tag, start, end, runes), alloc),
        Err(why) => read_status(why),
    }
}

/// Gives the host another snarf buffer, in UTF-8: at most 4,096 bytes, or 32,000 in version 2; a longer one is an event that is refused.
/// After `SAM_NO_HANDLE`, and before all else, come `SAM_NOT_TEXT` if the text is not UTF-8, and `SAM_NO_MEMORY` if there is no memory
/// for its runes. After these two the terminal is as it was.
#[unsafe(no_mangle)]
pub extern "C" fn sam_term_set_snarf(term: &mut SamTerm, text: &[u8], alloc: Global) -> u32
    ensures { TermPutText term.old.held.end text.now (λ runes. SetSnarf runes) result term.new.held.end }
{
    if !term.is_made() {
        return NO_HANDLE;
    }
    match read_utf8(alloc, text) {
        Ok(runes) => put(term, UserEvent::SetSnarf(runes), alloc),
        Err(why) => read_status(why),
    }
}

/// Cuts the dot into the snarf buffer.
#[unsafe(no_mangle)]
pub extern "C" fn sam_term_cut(term: &mut SamTerm, tag: u16, alloc: Global) -> u32
    ensures { TermPut term.old.held.end (Cut tag) result term.new.held.end }
{
    put(term, UserEvent::Cut(tag), alloc)
}

/// Puts the snarf buffer in the place of the dot. If it is empty, or the file would have more than 1,000,000 runes, only the dot goes.
#[unsafe(no_mangle)]
pub extern "C" fn sam_term_paste(term: &mut SamTerm, tag: u16, alloc: Global) -> u32
    ensures { TermPut term.old.held.end (Paste tag) result term.new.held.end }
{
    put(term, UserEvent::Paste(tag), alloc)
}

/// Copies the dot into the snarf buffer.
#[unsafe(no_mangle)]
pub extern "C" fn sam_term_snarf(term: &mut SamTerm, tag: u16, alloc: Global) -> u32
    ensures { TermPut term.old.held.end (Snarf tag) result term.new.held.end }
{
    put(term, UserEvent::Snarf(tag), alloc)
}

/// Selects the next occurrence of the dot's text, which becomes the pattern. Does nothing if it is empty or too long for a pattern.
#[unsafe(no_mangle)]
pub extern "C" fn sam_term_look(term: &mut SamTerm, tag: u16, alloc: Global) -> u32
    ensures { TermPut term.old.held.end (Look tag) result term.new.held.end }
{
    put(term, UserEvent::Look(tag), alloc)
}

/// Selects the next occurrence of the pattern.
#[unsafe(no_mangle)]
pub extern "C" fn sam_term_search(term: &mut SamTerm, tag: u16, alloc: Global) -> u32
    ensures { TermPut term.old.held.end (Search tag) result term.new.held.end }
{
    put(term, UserEvent::Search(tag), alloc)
}

/// Puts the dot's text at the end of the command file as lines, and runs the last of them. Does nothing if the dot is empty or the
/// command file has no room for it.
#[unsafe(no_mangle)]
pub extern "C" fn sam_term_send(term: &mut SamTerm, tag: u16, alloc: Global) -> u32
    ensures { TermPut term.old.held.end (Send tag) result term.new.held.end }
{
    put(term, UserEvent::Send(tag), alloc)
}

/// Opens a file. Command lines work on it then.
#[unsafe(no_mangle)]
pub extern "C" fn sam_term_open(term: &mut SamTerm, tag: u16, alloc: Global) -> u32
    ensures { TermPut term.old.held.end (Open tag) result term.new.held.end }
{
    put(term, UserEvent::Open(tag), alloc)
}

/// Has the host write a file: it keeps the text as the file's saved copy.
#[unsafe(no_mangle)]
pub extern "C" fn sam_term_write(term: &mut SamTerm, tag: u16, alloc: Global) -> u32
    ensures { TermPut term.old.held.end (Write tag) result term.new.held.end }
{
    put(term, UserEvent::Write(tag), alloc)
}

/// Closes a file, which the host then no longer has.
#[unsafe(no_mangle)]
pub extern "C" fn sam_term_close(term: &mut SamTerm, tag: u16, alloc: Global) -> u32
    ensures { TermPut term.old.held.end (Close tag) result term.new.held.end }
{
    put(term, UserEvent::Close(tag), alloc)
}

/// Makes a file the one that command lines work on.
#[unsafe(no_mangle)]
pub extern "C" fn sam_term_work(term: &mut SamTerm, tag: u16, alloc: Global) -> u32
    ensures { TermPut term.old.held.end (Work tag) result term.new.held.end }
{
    put(term, UserEvent::Work(tag), alloc)
}

/// Asks the host for an `Hcheck` of a file. When that comes, the terminal asks for the first gap that the view shows, unless it awaits one
/// already.
#[unsafe(no_mangle)]
pub extern "C" fn sam_term_check(term: &mut SamTerm, tag: u16, alloc: Global) -> u32
    ensures { TermPut term.old.held.end (Check tag) result term.new.held.end }
{
    put(term, UserEvent::Check(tag), alloc)
}

/// Sets the dot, from the place `start` to the place `end`.
#[unsafe(no_mangle)]
pub extern "C" fn sam_term_select(
    term: &mut SamTerm,
    tag: u16,
    start: u32,
    end: u32,
    alloc: Global,
) -> u32
    ensures { TermPut term.old.held.end (Select tag start end) result term.new.held.end }
{
    put(term, UserEvent::Select(tag, start, end), alloc)
}

/// Selects the word round a place.
#[unsafe(no_mangle)]
pub extern "C" fn sam_term_dclick(term: &mut SamTerm, tag: u16, place: u32, alloc: Global) -> u32
    ensures { TermPut term.old.held.end (Dclick tag place) result term.new.held.end }
{
    put(term, UserEvent::Dclick(tag, place), alloc)
}

/// Shows the file from that many lines further up.
#[unsafe(no_mangle)]
pub extern "C" fn sam_term_scroll(term: &mut SamTerm, tag: u16, lines: u32, alloc: Global) -> u32
    ensures { TermPut term.old.held.end (Scroll tag lines) result term.new.held.end }
{
    put(term, UserEvent::Scroll(tag, lines), alloc)
}

/// Shows the file from a place on, `len` runes of it. The first gap there is asked for, and then the next ones.
#[unsafe(no_mangle)]
pub extern "C" fn sam_term_view(
    term: &mut SamTerm,
    tag: u16,
    place: u32,
    len: u32,
    alloc: Global,
) -> u32
    ensures { TermPut term.old.held.end (View tag place len) result term.new.held.end }
{
    put(term, UserEvent::View(tag, place, len), alloc)
}

/// Shows the file from a place on, `len` runes of it, as `sam_term_view` does. All gaps there are asked for at once, in 64 messages of 512
/// runes at most.
#[unsafe(no_mangle)]
pub extern "C" fn sam_term_load(
    term: &mut SamTerm,
    tag: u16,
    place: u32,
    len: u32,
    alloc: Global,
) -> u32
    ensures { TermPut term.old.held.end (Load tag place len) result term.new.held.end }
{
    put(term, UserEvent::Load(tag, place, len), alloc)
}

/// Opens the command file.
#[unsafe(no_mangle)]
pub extern "C" fn sam_term_open_cmd(term: &mut SamTerm, alloc: Global) -> u32
    ensures { TermPut term.old.held.end OpenCmd result term.new.held.end }
{
    put(term, UserEvent::OpenCmd, alloc)
}

/// Makes an empty file, and opens it. Command lines work on it then.
#[unsafe(no_mangle)]
pub extern "C" fn sam_term_new_file(term: &mut SamTerm, alloc: Global) -> u32
    ensures { TermPut term.old.held.end New result term.new.held.end }
{
    put(term, UserEvent::New, alloc)
}

/// Asks for the host's snarf buffer.
#[unsafe(no_mangle)]
pub extern "C" fn sam_term_get_snarf(term: &mut SamTerm, alloc: Global) -> u32
    ensures { TermPut term.old.held.end GetSnarf result term.new.held.end }
{
    put(term, UserEvent::GetSnarf, alloc)
}

/// Sends the typed runes, once the events before it have acted.
#[unsafe(no_mangle)]
pub extern "C" fn sam_term_flush(term: &mut SamTerm, alloc: Global) -> u32
    ensures { TermPut term.old.held.end Flush result term.new.held.end }
{
    put(term, UserEvent::Flush, alloc)
}

/// Ends the session.
#[unsafe(no_mangle)]
pub extern "C" fn sam_term_exit(term: &mut SamTerm, alloc: Global) -> u32
    ensures { TermPut term.old.held.end Exit result term.new.held.end }
{
    put(term, UserEvent::Exit, alloc)
}

/// Offers a version, and asks for the names of the host's files. Version 2 allows longer snarfed texts; there is no version 0.
#[unsafe(no_mangle)]
pub extern "C" fn sam_term_offer_version(term: &mut SamTerm, version: u16, alloc: Global) -> u32
    ensures { TermPut term.old.held.end (Version version) result term.new.held.end }
{
    put(term, UserEvent::Version(version), alloc)
}
