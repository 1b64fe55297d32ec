ghost use Rattle.std.specs.Prelude.{◌≡◌};
ghost use Rattle.audit_serve_door.specs.Accepting.{AcceptModel, connection_of, unknown_accepting};

use mio::net::{UnixListener, UnixStream};
use mio::{Interest, Registry, Token};
use std::io;

/// A socket on which connections come in, and which fails with `WouldBlock` instead of waiting for them.
pub trait Accepts<S> {
    /// Which connections the socket has accepted.
    ghost model: { AcceptModel Self S };

    /// Accepts the next connection. On an error none was accepted.
    fn try_accept(&mut self) -> io::Result<S>
        ensures { model.DidAccept self.old self.new (connection_of result) };
}

/// A value on whose readiness the system reports. That is left as it was.
pub trait Watched {
    /// Has the system report when it becomes ready for one of these.
    fn watch(&mut self, registry: &Registry, token: Token, interest: Interest) -> io::Result<()>
        ensures { self.new ≡ self.old };

    /// Has the system report on others than before.
    fn watch_again(
        &mut self,
        registry: &Registry,
        token: Token,
        interest: Interest,
    ) -> io::Result<()>
        ensures { self.new ≡ self.old };
}

/// Nothing is known of the system's sockets: the call is the system's.
impl Accepts<UnixStream> for UnixListener {
    ghost model = { unknown_accepting };

    fn try_accept(&mut self) -> io::Result<UnixStream> {
        let (stream, _) = self.accept()?;
        Ok(stream)
    }
}

impl Watched for UnixListener {
    fn watch(&mut self, registry: &Registry, token: Token, interest: Interest) -> io::Result<()> {
        registry.register(self, token, interest)
    }

    fn watch_again(
        &mut self,
        registry: &Registry,
        token: Token,
        interest: Interest,
    ) -> io::Result<()> {
        registry.reregister(self, token, interest)
    }
}

impl Watched for UnixStream {
    fn watch(&mut self, registry: &Registry, token: Token, interest: Interest) -> io::Result<()> {
        registry.register(self, token, interest)
    }

    fn watch_again(
        &mut self,
        registry: &Registry,
        token: Token,
        interest: Interest,
    ) -> io::Result<()> {
        registry.reregister(self, token, interest)
    }
}
