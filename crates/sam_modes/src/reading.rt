//! Reading an input in pieces.

ghost use Rattle.std.specs.Prelude.{◌≡◌, ◌<◌, ◌≤◌, IfOk, IfErr, take};
ghost use Rattle.std.specs.Io.KnownBytes.{Consumes, IsAtEnd};
ghost use Rattle.sam_modes.specs.Limits.{piece};

use crate::fault::PlayFault;
use std::io::Read;

/// The most bytes of a piece that is read at once.
pub const PIECE: usize = 4_096;

/// The most bytes of an input. A longer one is `PlayFault::Read`.
pub const MOST_INPUT: usize = 16_777_216;

/// Reads at most `most` bytes, and at most `PIECE`, into the front of the buffer. Returns how many it read: none only if the input is at
/// its end. `most` is at least 1. Its only error is `Read`.
pub(crate) fn read_piece<R: Read>(
    reader: &mut R,
    buffer: &mut [u8; PIECE],
    most: usize,
) -> Result<usize, PlayFault>
    requires { 0 < most }
    ensures count { IfOk result (λ n. (n ≤ most) × (n ≤ piece)) }
    ensures bytes { IfOk result (λ n. Consumes (R.remaining reader.old) (R.remaining reader.new) (take n buffer.new)
        × (n ≡ 0 → IsAtEnd (R.remaining reader.new))) }
    ensures fault { IfErr result (λ e. e ≡ PlayFault.Read) }
{
    let end = most.min(PIECE);
    match reader.read(&mut buffer[..end]) {
        Ok(count) => Ok(count),
        Err(_) => Err(PlayFault::Read),
    }
}
