//! Mode `bytes`: frames in, answering frames out, over any reader and writer.

ghost use Rattle.std.specs.Prelude.{◌≡◌, ◌≤◌, [], Ok, Some, None, IfErr, OnOk, length};
ghost use Rattle.std.specs.Io.KnownBytes.{Appends};
ghost use Rattle.sam_runes.specs.Texts.{max_runes};
ghost use Rattle.sam_frame.specs.Framing.{HasRoom};
ghost use Rattle.sam_endpoint.specs.HostEndpoints.{IsDone};
ghost use Rattle.sam_endpoint.specs.HostRuns.{begun_with};
ghost use Rattle.sam_modes.specs.Limits.{most_input};
ghost use Rattle.sam_modes.specs.Start.{host_of};
ghost use Rattle.sam_modes.specs.Outcome.{OnSide, IsOfBytes, Plays, Written};
ghost use Rattle.sam_modes.specs.Pieces.{Answers, MayEnd, StopsAt, of_host_stop};

use crate::fault::PlayFault;
use crate::reading::{MOST_INPUT, PIECE, read_piece};
use crate::start::host_of_text;
use sam_endpoint::{EndpointFault, HostEndpoint, HostStop};
use sam_ends::Stop;
use sam_frame::FeedFault;
use std::alloc::Global;
use std::io::{Read, Write};

/// Answers the frames of the terminal that the reader gives, and writes the answering frames. The host has one file: its tag is 1, its
/// name `file`, and its text `text`, which has at most `MAX_RUNES` runes.
///
/// It goes on to the end of the input. Before that it stops at the first message that the host refuses, or at the first fault of the
/// stream, with the answers to what stands before it written. The answers to a piece are flushed before the next piece is read, since the
/// other side may wait for them.
///
/// Errors, piece by piece: `Read` if a read fails or the input has more than `MOST_INPUT` bytes; `Side(Stop::Host(..))` for a message that
/// the host refuses; `Side(Stop::Frame(..))` for a fault of the stream after the messages, with 4 for half a frame at the end of the
/// input; `Write` if a write fails, or if the flush does, which hides another fault of the piece. `OutOfMemory` may come at any place.
pub fn play_bytes<R: Read, W: Write>(
    alloc: Global,
    reader: &mut R,
    writer: &mut W,
    text: &[char],
) -> Result<(), PlayFault>
    requires { length text.now ≤ max_runes }
    ensures ok { OnOk result (Written (R.remaining reader.old) (W.contents writer.old) (W.contents writer.new)
        (λ input written. (length input ≤ most_input) × Plays (host_of text.now) input written None)) }
    ensures side { IfErr result (λ e. OnSide e (λ stop. Written (R.remaining reader.old) (W.contents writer.old)
        (W.contents writer.new) (λ input written. Plays (host_of text.now) input written (Some stop)))) }
    ensures fault { IfErr result IsOfBytes }
{
    let Ok(host) = host_of_text(alloc, text) else {
        return Err(PlayFault::OutOfMemory);
    };
    answer_input(reader, writer, &mut HostEndpoint::with_host(alloc, host))
}

/// Answers the frames of an input piece by piece, to its end, over an end to which nothing was fed.
fn answer_input<R: Read, W: Write>(
    reader: &mut R,
    writer: &mut W,
    end: &mut HostEndpoint,
) -> Result<(), PlayFault>
    requires { end.old ≡ begun_with end.old.host }
    ensures ok { OnOk result (Written (R.remaining reader.old) (W.contents writer.old) (W.contents writer.new)
        (λ input written. (length input ≤ most_input) × Plays end.old.host input written None)) }
    ensures side { IfErr result (λ e. OnSide e (λ stop. Written (R.remaining reader.old) (W.contents writer.old)
        (W.contents writer.new) (λ input written. Plays end.old.host input written (Some stop)))) }
    ensures fault { IfErr result IsOfBytes }
{
    let mut buffer = [0u8; PIECE];
    let mut left = MOST_INPUT;
    while left > 0 {
        let count = read_piece(reader, &mut buffer, left)?;
        if count == 0 {
            return end_of(end);
        }
        left -= count;
        answer_piece(writer, end, &buffer[..count])?;
    }
    if read_piece(reader, &mut buffer, 1)? > 0 {
        return Err(PlayFault::Read);
    }
    end_of(end)
}

/// Tests whether the stream may end here. The error is `Side(Stop::Frame(..))` with the number of `FeedFault::Truncated` if half a frame is
/// held.
fn end_of(end: &HostEndpoint) -> Result<(), PlayFault>
    requires done { IsDone end.now }
    requires goes { end.now.stop ≡ None }
    ensures { MayEnd end.now.framer result }
{
    match end.finish() {
        Ok(()) => Ok(()),
        Err(_) => Err(PlayFault::Side(Stop::Frame(FeedFault::<()>::Truncated.number()))),
    }
}

/// Answers the messages that are whole with this piece, and writes and flushes what is pending, also before a fault. A write or flush
/// that fails is the error in place of that fault.
fn answer_piece<W: Write>(
    writer: &mut W,
    end: &mut HostEndpoint,
    piece: &[u8],
) -> Result<(), PlayFault>
    requires room { HasRoom end.old.framer piece.now }
    ensures ok { OnOk result (Answers W.contents end.old end.new writer.old writer.new piece.now (Ok tt)) }
    ensures side { IfErr result (λ e. OnSide e (StopsAt W.contents end.old end.new writer.old writer.new piece.now)) }
    ensures fault { IfErr result IsOfBytes }
{
    let fed = end.feed(piece);
    write_out(writer, end)?;
    match fed {
        Ok(()) => Ok(()),
        Err(EndpointFault::Stopped(why)) => Err(PlayFault::Side(stop_of(why))),
        Err(EndpointFault::OutOfMemory) => Err(PlayFault::OutOfMemory),
        Err(EndpointFault::Unfinished) => Err(PlayFault::OutOfMemory),
        // The piece has room.
        Err(EndpointFault::CountFull) => unreachable!(),
    }
}

/// Writes the bytes that are pending, and flushes them. Its only error is `Write`.
fn write_out<W: Write>(writer: &mut W, end: &mut HostEndpoint) -> Result<(), PlayFault>
    ensures written { OnOk result (Appends (W.contents writer.old) (W.contents writer.new) end.old.pending_bytes) }
    ensures rest { OnOk result (end.new ≡ record end.old { pending_bytes = [] }) }
    ensures fault { IfErr result (λ e. e ≡ PlayFault.Write) }
{
    let written = writer.write_all(end.pending_bytes());
    if writer.flush().is_err() || written.is_err() {
        return Err(PlayFault::Write);
    }
    let count = end.pending();
    end.consume(count);
    Ok(())
}

/// Returns what the stop of the host's end is for the program.
fn stop_of(why: HostStop) -> Stop
    ensures { result ≡ of_host_stop why }
{
    match why {
        HostStop::Stream(fault) => Stop::Frame(fault.number()),
        HostStop::Refused(fault) => Stop::Host(fault.number()),
    }
}
