//! Bytes put into a line in pieces.

ghost use Rattle.std.specs.Prelude.{◌≡◌, ◌<◌, false};
ghost use Rattle.sam_queue.specs.Views.{with_item};
ghost use Rattle.sam_ends.specs.Cutting.{Puts};

use sam_queue::Post;
use std::alloc::{AllocError, Global};
use std::sync::Wait;

/// Puts one piece, and waits while the line is full.
fn send_piece<R: Wait>(rt: &R, post: &mut Post<Vec<u8>>, piece: Vec<u8>)
    requires { post.old.closed ≡ false }
    ensures { post.new ≡ with_item post.old piece }
{
    match post.send(rt, piece) {
        Ok(()) => {}
        Err(_) => unreachable!(),
    }
}

/// Puts the bytes in order, in pieces of `piece` bytes; the last piece may be shorter. It waits while the line is full. Its only error is
/// out of memory; the first pieces have then been put, and the rest has not.
pub(crate) fn send_pieces<R: Wait>(
    rt: &R,
    alloc: Global,
    post: &mut Post<Vec<u8>>,
    bytes: &[u8],
    piece: usize,
) -> Result<(), AllocError>
    requires piece { 0 < piece }
    requires open { post.old.closed ≡ false }
    ensures { Puts piece post.old post.new bytes.now result }
{
    let mut rest = bytes;
    while !rest.is_empty() {
        let (front, back) = rest.split_at(piece.min(rest.len()));
        let Ok(front) = front.to_vec(alloc) else {
            return Err(AllocError);
        };
        send_piece(rt, post, front);
        rest = back;
    }
    Ok(())
}
