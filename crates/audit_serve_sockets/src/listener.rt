ghost use Rattle.std.specs.Prelude.{OnErr};
ghost use Rattle.audit_serve_sockets.specs.Listening.{ListenerModel, accepted_by, unknown_connections};

use crate::socket_file::SocketFile;
use crate::system_sockets::SystemSockets;
use std::io;
use std::os::unix::net::UnixStream;

/// A socket on which connections arrive.
pub trait Listener<T> {
    /// Which connections the socket has accepted.
    ghost model: { ListenerModel Self T };

    /// Waits for the next connection, and accepts it by a call of the system. On an error that failed, and none was
    /// accepted.
    fn next_connection<R: SystemSockets>(&mut self, rt: &R) -> io::Result<T>
        ensures accepted { model.Accepted self.old self.new (accepted_by result) }
        ensures failed { OnErr result (R.call_failed rt.now) };
}

/// Nothing is known of the system's sockets: the call is the system's.
impl Listener<UnixStream> for SocketFile {
    ghost model = { unknown_connections };

    fn next_connection<R: SystemSockets>(&mut self, rt: &R) -> io::Result<UnixStream> {
        self.accept(rt)
    }
}
