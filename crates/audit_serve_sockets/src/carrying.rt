ghost use Rattle.std.specs.Prelude.{◌≡◌, ◌≤◌, length, IfOk, OnErr};
ghost use Rattle.audit_serve_sockets.specs.Carrying.{LosesPiece};

use crate::tried::{TriedRead, TriedWrite};

/// A connection failed, or delivered other bytes than were sent.
#[derive(Clone, Copy, Debug, PartialEq, Eq)]
pub struct ConnectionError;

/// Writes a piece to one end of a connection, and reads the same number of bytes at the other end into the start of
/// the buffer. It returns the bytes read. The only error is that the connection fails or delivers other bytes.
pub fn carry<'a, W: TriedWrite, R: TriedRead>(
    from: &mut W,
    to: &mut R,
    piece: &[u8],
    buffer: &'a mut [u8],
) -> Result<&'a [u8], ConnectionError>
    requires room { length piece.now ≤ length buffer.old }
    ensures arrived { IfOk result (λ arrived. arrived.now ≡ piece.now) }
    // An error has a cause: a call that failed, or bytes that weren't sent.
    ensures lost { OnErr result (LosesPiece W.unwritten R.unread R.gave piece.now from.new to.new) }
{
    if from.write_through(piece).is_err() {
        return Err(ConnectionError);
    }
    let arrived = &mut buffer[..piece.len()];
    if to.read_through(arrived).is_err() {
        return Err(ConnectionError);
    }
    if *arrived != *piece {
        return Err(ConnectionError);
    }
    Ok(arrived)
}
