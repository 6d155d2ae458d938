//! Whole inputs, and the lines that name faults.

ghost use Rattle.std.specs.Prelude.{◌≡◌, ◌≤◌, ◌⊎◌, Err, IfOk, IfErr, IsErr, OnOk, IfSome, length};
ghost use Rattle.std.specs.Io.KnownBytes.{Appends};
ghost use Rattle.std.specs.Result.{IsOkAnd};
ghost use Rattle.sam_modes.specs.Limits.{most_input};
ghost use Rattle.sam_modes.specs.Status.{fault_line, IsTold};

use crate::fault::PlayFault;
use crate::reading::{MOST_INPUT, PIECE, read_piece};
use std::alloc::Global;
use std::io::{Read, Write};

/// Reads all that the reader has. Errors: `Read` if a read fails or the input has more than `MOST_INPUT` bytes, and `OutOfMemory`,
/// whichever comes first in the input.
pub fn read_all<R: Read>(alloc: Global, reader: &mut R) -> Result<Vec<u8>, PlayFault>
    ensures ok { IfOk result (λ bytes. (length bytes.items ≤ most_input)
        × IfSome (R.remaining reader.old) (λ input. bytes.items ≡ input)) }
    ensures fault { IfErr result (λ e. (e ≡ PlayFault.Read) ⊎ (e ≡ PlayFault.OutOfMemory)) }
{
    let mut bytes = Vec::new(alloc);
    let mut buffer = [0u8; PIECE];
    let mut left = MOST_INPUT;
    while left > 0 {
        let count = read_piece(reader, &mut buffer, left)?;
        if count == 0 {
            return Ok(bytes);
        }
        left -= count;
        let Ok(()) = bytes.extend_from_slice(&buffer[..count]) else {
            return Err(PlayFault::OutOfMemory);
        };
    }
    match read_piece(reader, &mut buffer, 1) {
        Ok(0) => Ok(bytes),
        _ => Err(PlayFault::Read),
    }
}

/// Writes the lines, or in place of them the line of the fault, which it then returns. If a write fails the error is `Write`; if it was a
/// write of the lines, it tries to write the line of that fault after what went out.
pub fn write_or_tell<W: Write>(
    writer: &mut W,
    lines: Result<Vec<u8>, PlayFault>,
) -> Result<(), PlayFault>
    ensures ok { OnOk result (IsOkAnd lines (λ bytes. Appends (W.contents writer.old) (W.contents writer.new) bytes.items)) }
    ensures fault { IfErr result (λ fault. (fault ≡ PlayFault.Write) ⊎ (lines ≡ Err fault)) }
    ensures told { IfErr result (IsTold (W.contents writer.old) (W.contents writer.new)) }
{
    match lines {
        Ok(lines) => match writer.write_all(lines.as_slice()) {
            Ok(()) => Ok(()),
            Err(_) => tell_write(writer),
        },
        Err(fault) => tell(writer, fault),
    }
}

/// Tries to write the line of a failed write, and returns that fault.
fn tell_write<W: Write>(writer: &mut W) -> Result<(), PlayFault>
    ensures { result ≡ Err PlayFault.Write }
{
    let _ = write_fault(writer, &PlayFault::Write);
    Err(PlayFault::Write)
}

/// Writes the line of a fault, and returns the fault; `Write` if the line can't be written.
#[tactic(auto, using(crate::proofs::Telling::told))]
fn tell<W: Write>(writer: &mut W, fault: PlayFault) -> Result<(), PlayFault>
    ensures stops { IsErr result }
    ensures fault { IfErr result (λ why. (why ≡ PlayFault.Write) ⊎ (why ≡ fault)) }
    ensures told { IfErr result (IsTold (W.contents writer.old) (W.contents writer.new)) }
{
    match write_fault(writer, &fault) {
        Ok(()) => Err(fault),
        Err(unwritten) => Err(unwritten),
    }
}

/// Writes the line that names the fault. It takes no memory.
fn write_fault<W: Write>(writer: &mut W, fault: &PlayFault) -> Result<(), PlayFault>
    ensures ok { OnOk result (Appends (W.contents writer.old) (W.contents writer.new) (fault_line fault.now)) }
    ensures fault { IfErr result (λ e. e ≡ PlayFault.Write) }
{
    match fault {
        PlayFault::Script(line) => write_script_line(writer, *line),
        PlayFault::Side(_) => write_line(writer, b"= fault side\n"),
        PlayFault::Threads => write_line(writer, b"= fault threads\n"),
        PlayFault::OutOfMemory => write_line(writer, b"= fault memory\n"),
        PlayFault::Read | PlayFault::Write => write_line(writer, b"= fault device\n"),
    }
}

/// Writes the line that names a line of the script.
fn write_script_line<W: Write>(writer: &mut W, line: usize) -> Result<(), PlayFault>
    ensures ok { OnOk result (Appends (W.contents writer.old) (W.contents writer.new) (fault_line (PlayFault.Script line))) }
    ensures fault { IfErr result (λ e. e ≡ PlayFault.Write) }
{
    match write!(writer, "= fault script {line}\n") {
        Ok(()) => Ok(()),
        Err(_) => Err(PlayFault::Write),
    }
}

/// Writes a line as it stands, and turns a fault of the writer into `Write`.
fn write_line<W: Write>(writer: &mut W, line: &[u8]) -> Result<(), PlayFault>
    ensures ok { OnOk result (Appends (W.contents writer.old) (W.contents writer.new) line.now) }
    ensures fault { IfErr result (λ e. e ≡ PlayFault.Write) }
{
    match writer.write_all(line) {
        Ok(()) => Ok(()),
        Err(_) => Err(PlayFault::Write),
    }
}
