//! What C reads of a line: include/sulgrevad.h says of each call what it hands out. None of them changes the line. Each returns
//! `SAM_NO_HANDLE` if the handle is empty; what its other arguments lead to is then as it was. `now` is the time, in milliseconds.

ghost use Rattle.std.specs.Prelude.{◌≡◌};
ghost use Rattle.sam_line.specs.Clock.{due_in};
ghost use Rattle.sam_line.specs.Line.{is_due};
ghost use Rattle.sam_handles.specs.Calls.{Reports, ReportsSome};
ghost use Rattle.sam_handles.specs.LineDetails.{line_details};
ghost use Rattle.sam_c.specs.Lines.{LineWords};

use sam_handles::handle::SamLine;
use sam_handles::line_details::{SamLineDetails, details_of, fill};
use sam_handles::status::OK;
use sam_handles::telling::tell_some;
use sam_handles::with_end;
use std::alloc::Global;

/// Hands out how many milliseconds it is until the line has something to say. `SAM_NONE` if it never has, unless another call comes.
#[unsafe(no_mangle)]
pub extern "C" fn sam_line_due_in(
    line: &mut SamLine,
    now: u64,
    left: &mut u64,
    alloc: Global,
) -> u32
    ensures told { ReportsSome line.old.held.end result left.old left.new (λ l. due_in l.clock (is_due l) now) }
    ensures kept { line.new.held.end ≡ line.old.held.end }
{
    with_end!(line alloc end { tell_some(end.due_in(now), left) })
}

/// Hands out how a line stands, in one call.
#[unsafe(no_mangle)]
pub extern "C" fn sam_line_describe(
    line: &mut SamLine,
    now: u64,
    details: &mut SamLineDetails,
    alloc: Global,
) -> u32
    ensures told { Reports line.old.held.end result details.old details.new (line_details now) }
    ensures kept { line.new.held.end ≡ line.old.held.end }
{
    with_end!(line alloc end { *details = details_of(&end, now); OK })
}

/// Copies the words that came before the host's hello on the newest connection, as many bytes as have room, and hands out how many.
#[unsafe(no_mangle)]
pub extern "C" fn sam_line_words(
    line: &mut SamLine,
    into: &mut [u8],
    len: &mut usize,
    alloc: Global,
) -> u32
    ensures told { LineWords line.old.held.end into.old into.new len.old result len.new }
    ensures kept { line.new.held.end ≡ line.old.held.end }
{
    with_end!(line alloc end { *len = fill(end.words(), into); OK })
}
