//! The connections of a program to its own socket.
ghost use Rattle.std.specs.Prelude.{◌≡◌, ◌+◌, ℕ, None, Ok, OnOk, OnErr};

use audit_serve_sockets::{SocketFile, SystemSockets, TEXT_LEN, TriedRead, TriedWrite};
use std::io;
use std::os::unix::net::UnixStream;

/// The calls by which a program makes both ends of a connection through its own socket: `E` is an end, and `S` a search for
/// the other one among the connections that arrive. Contracts know of an end what its calls promise, and how many
/// connections of others came before it, each from a call alone. Every system of sockets has these calls.
pub trait OwnConnections<E: TriedRead + TriedWrite + Drop, S: Drop>: SystemSockets {
    /// In a search this many connections of others came.
    ghost met: { S → ℕ → Type 0 };

    /// Connects to the socket at a path.
    fn connect_to_own(&self, path: &str) -> io::Result<E>
        ensures connects { OnOk result ((Self.sockets self.now).connects path.now) }
        ensures failed { OnErr result (Self.call_failed self.now) };

    /// Sends a text from an end.
    fn send_to_own(&self, end: &mut E, text: &[u8; TEXT_LEN]) -> io::Result<()>
        ensures { OnErr result (Self.call_failed self.now) };

    /// Begins a search.
    fn begin_search(&self) -> S
        ensures { met result 0 };

    /// Waits for the next connection at a socket, and accepts it.
    fn accept_own(&self, socket: &SocketFile) -> io::Result<E>
        ensures { OnErr result (Self.call_failed self.now) };

    /// Returns the end if a text arrives there within a second. Otherwise the connection is another client's.
    fn hears_own(&self, end: E, text: &[u8; TEXT_LEN], search: &mut S) -> io::Result<Option<E>>
        ensures failed { OnErr result (Self.call_failed self.now) }
        ensures other { result ≡ Ok None → (others : ℕ) → met search.old others → met search.new (others + 1) };
}

impl<F: SystemSockets> OwnConnections<UnixStream, ()> for F {
    ghost met = { λ _ _. Unit {0} };

    fn connect_to_own(&self, path: &str) -> io::Result<UnixStream> {
        self.connect_to(path)
    }

    fn send_to_own(&self, end: &mut UnixStream, text: &[u8; TEXT_LEN]) -> io::Result<()> {
        self.send_text(end, text)
    }

    fn begin_search(&self) {}

    fn accept_own(&self, socket: &SocketFile) -> io::Result<UnixStream> {
        socket.accept(self)
    }

    fn hears_own(
        &self,
        mut end: UnixStream,
        text: &[u8; TEXT_LEN],
        _search: &mut (),
    ) -> io::Result<Option<UnixStream>> {
        Ok(self.hears_text(&mut end, text)?.then_some(end))
    }
}
