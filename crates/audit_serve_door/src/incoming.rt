use crate::accepts::{Accepts, Watched};
use crate::listening::PromptListening;
use mio::net::UnixListener;
use mio::{Interest, Registry, Token};
use std::io::{self, ErrorKind};
use std::os::unix::net;

/// A socket on which connections come in, without waiting for them.
#[derive(Drop)]
pub(crate) struct Incoming<L> {
    listener: L,
    // Whether a connection may be there: the system reports each change once, and not that some are left.
    may_have_some: bool,
}

/// What an attempt to accept a connection gave.
#[derive(Drop)]
pub(crate) enum Accepted<T> {
    /// A connection.
    One(T),
    /// None is there now.
    NoneLeft,
    /// One is there, and can't be accepted: descriptors or memory ran out.
    Failed,
}

impl Incoming<UnixListener> {
    ghost use Rattle.std.specs.Prelude.{◌≡◌, IfOk, OnOk, OnErr};
    ghost use Rattle.std.specs.Net.Unix.{unix_listener_raw_fd};
    ghost use Rattle.mio.specs.Net.{unix_listener_fd};
    ghost use Rattle.audit_serve_door.specs.Entrances.{listener_of};

    /// Takes connections from a socket that listens.
    pub(crate) fn new<P: PromptListening>(
        rt: &P,
        listener: net::UnixListener,
    ) -> io::Result<Incoming<UnixListener>>
        ensures socket { IfOk result (λ incoming. unix_listener_fd (listener_of incoming)
            ≡ unix_listener_raw_fd listener) }
        ensures prompt { OnOk result (P.prompt rt.now (unix_listener_raw_fd listener)) }
        ensures failed { OnErr result (P.unprompted rt.now) }
    {
        rt.accept_promptly(&listener)?;
        Ok(Incoming {
            listener: UnixListener::from_std(listener),
            may_have_some: true,
        })
    }
}

impl<L> Incoming<L> {
    ghost use Rattle.std.specs.Prelude.{◌≡◌, []};
    ghost use Rattle.audit_serve_door.specs.Entrances.{listener_of, arrived_in};

    /// Has the system report on the socket.
    pub(crate) fn register(&mut self, registry: &Registry, token: Token) -> io::Result<()>
    where
        L: Watched,
        ensures { listener_of self.new ≡ listener_of self.old }
    {
        self.listener.watch(registry, token, Interest::READABLE)
    }

    /// Notes that the system has reported a connection.
    pub(crate) fn announce(&mut self)
        ensures { listener_of self.new ≡ listener_of self.old }
    {
        self.may_have_some = true;
    }

    /// Whether a connection may be there.
    pub(crate) fn may_have_some(&self) -> bool {
        self.may_have_some
    }

    /// Accepts a connection, if one is there.
    pub(crate) fn accept<S>(&mut self) -> Accepted<S>
    where
        L: Accepts<S>,
        ensures { L.model.DidAccept (listener_of self.old) (listener_of self.new) (arrived_in result) }
    {
        if !self.may_have_some {
            return Accepted::NoneLeft;
        }
        match self.listener.try_accept() {
            Ok(stream) => Accepted::One(stream),
            Err(error) => self.judge(error.kind()),
        }
    }

    // A connection that was given up before it was accepted, or an interrupted call, isn't a lack.
    fn judge<S>(&mut self, kind: ErrorKind) -> Accepted<S>
        ensures none { arrived_in result ≡ [] }
        ensures same { listener_of self.new ≡ listener_of self.old }
    {
        if kind == ErrorKind::WouldBlock {
            self.may_have_some = false;
        }
        match kind {
            ErrorKind::WouldBlock | ErrorKind::Interrupted | ErrorKind::ConnectionAborted => {
                Accepted::NoneLeft
            }
            _ => Accepted::Failed,
        }
    }
}
