ghost use Rattle.std.specs.Prelude.{◌≡◌, ◌≤◌, length, IfOk, OnErr};
ghost use Rattle.audit_serve_sockets.specs.Carrying.{LosesPiece};

use crate::carrying::{ConnectionError, carry};
use crate::tried::{TriedRead, TriedWrite};

/// A connection with both ends in this process. A piece is written to one end and then read at the other. Neither end
/// blocks if the pieces are short enough for the connection to buffer.
#[derive(Drop)]
pub struct Link<A, B> {
    client: A,
    server: B,
}

impl<A: TriedRead + TriedWrite, B: TriedRead + TriedWrite> Link<A, B> {
    /// Makes a link of the two ends of a connection.
    pub fn new(client: A, server: B) -> Link<A, B> {
        Link { client, server }
    }

    /// Sends a piece from the client's end, and returns the same bytes as they arrived at the server's end. They are
    /// read into the start of the buffer.
    pub fn to_server<'a>(
        &mut self,
        piece: &[u8],
        buffer: &'a mut [u8],
    ) -> Result<&'a [u8], ConnectionError>
        requires room { length piece.now ≤ length buffer.old }
        ensures arrived { IfOk result (λ arrived. arrived.now ≡ piece.now) }
        ensures lost { OnErr result (LosesPiece A.unwritten B.unread B.gave piece.now self.new.client self.new.server) }
    {
        carry(&mut self.client, &mut self.server, piece, buffer)
    }

    /// Sends a piece from the server's end, and returns the same bytes as they arrived at the client's end. They are
    /// read into the start of the buffer.
    pub fn to_client<'a>(
        &mut self,
        piece: &[u8],
        buffer: &'a mut [u8],
    ) -> Result<&'a [u8], ConnectionError>
        requires room { length piece.now ≤ length buffer.old }
        ensures arrived { IfOk result (λ arrived. arrived.now ≡ piece.now) }
        ensures lost { OnErr result (LosesPiece B.unwritten A.unread A.gave piece.now self.new.server self.new.client) }
    {
        carry(&mut self.server, &mut self.client, piece, buffer)
    }
}
