use crate::accepts::{Accepts, Watched};
use crate::incoming::{Accepted, Incoming};
use crate::listening::PromptListening;
use crate::metered::Metered;
use crate::nonblocking::Nonblocking;
use crate::prompt::Prompt;
use audit_serve_passes::Rights;
use audit_serve_ready::Newcomer;
use mio::net::UnixListener;
use mio::{Interest, Registry, Token};
use std::io;
use std::os::unix::net;

/// A socket on which clients come in, what they may ask for, and the permission bits of its file, which say who may
/// come.
#[derive(Drop)]
pub struct Entrance<L> {
    pub(crate) incoming: Incoming<L>,
    rights: Rights,
    mode: u32,
}

/// A connection that came in by an entrance, and what its client may ask for. Only entrances make them.
#[derive(Drop)]
pub(crate) struct Arrival<S> {
    stream: S,
    rights: Rights,
}

impl Entrance<UnixListener> {
    ghost use Rattle.std.specs.Prelude.{◌≡◌, IfOk, OnOk, OnErr};
    ghost use Rattle.std.specs.Net.Unix.{unix_listener_raw_fd};
    ghost use Rattle.audit_serve_door.specs.Entrances.{rights_of, mode_of, descriptor_of};

    /// Makes an entrance of a socket that listens, whose file has these permission bits. Accepting there doesn't wait.
    /// It fails only if a call did.
    pub fn new<P: PromptListening>(
        rt: &P,
        listener: net::UnixListener,
        rights: Rights,
        mode: u32,
    ) -> io::Result<Entrance<UnixListener>>
        ensures rights { IfOk result (λ entrance. rights_of entrance ≡ rights) }
        ensures mode { IfOk result (λ entrance. mode_of entrance ≡ mode) }
        ensures socket { IfOk result (λ entrance. descriptor_of entrance ≡ unix_listener_raw_fd listener) }
        ensures prompt { OnOk result (P.prompt rt.now (unix_listener_raw_fd listener)) }
        ensures failed { OnErr result (P.unprompted rt.now) }
    {
        Ok(Entrance {
            incoming: Incoming::new(rt, listener)?,
            rights,
            mode,
        })
    }
}

impl<L> Entrance<L> {
    ghost use Rattle.std.specs.Prelude.{◌≡◌};
    ghost use Rattle.audit_serve_door.specs.Entrances.{rights_of, IsQuiet, ComesIn, arrived_in};

    /// What the clients that come by the socket may ask for.
    pub(crate) fn rights(&self) -> Rights
        ensures { result ≡ rights_of self.now }
    {
        self.rights
    }

    /// Has the system report on the socket.
    pub(crate) fn register(&mut self, registry: &Registry, token: Token) -> io::Result<()>
    where
        L: Watched,
        ensures { IsQuiet self.old self.new }
    {
        self.incoming.register(registry, token)
    }

    /// Notes that the system has reported a connection.
    pub(crate) fn announce(&mut self)
        ensures { IsQuiet self.old self.new }
    {
        self.incoming.announce();
    }

    /// Accepts a connection, if one is there. Its client has the rights of the entrance.
    pub(crate) fn accept<S>(&mut self) -> Accepted<Arrival<S>>
    where
        L: Accepts<S>,
        ensures { ComesIn L.model (arrived_in result) self.old self.new }
    {
        match self.incoming.accept() {
            Accepted::One(stream) => Accepted::One(Arrival {
                stream,
                rights: self.rights,
            }),
            Accepted::NoneLeft => Accepted::NoneLeft,
            Accepted::Failed => Accepted::Failed,
        }
    }
}

impl<S> Arrival<S> {
    ghost use Rattle.std.specs.Prelude.{◌≡◌};
    ghost use Rattle.audit_serve_door.specs.Entrances.{rights_at_arrival};
    ghost use Rattle.audit_serve_door.specs.Comings.{IsClientOf};

    /// What the client may ask for.
    pub(crate) fn rights(&self) -> Rights
        ensures { result ≡ rights_at_arrival self.now }
    {
        self.rights
    }

    /// Has the system report that the connection has bytes.
    pub(crate) fn register(&mut self, registry: &Registry, token: Token) -> io::Result<()>
    where
        S: Watched,
        ensures { self.new ≡ self.old }
    {
        self.stream.watch(registry, token, Interest::READABLE)
    }

    /// Has the system report also that it takes bytes.
    pub(crate) fn reregister(&mut self, registry: &Registry, token: Token) -> io::Result<()>
    where
        S: Watched,
        ensures { self.new ≡ self.old }
    {
        let both = Interest::READABLE | Interest::WRITABLE;
        self.stream.watch_again(registry, token, both)
    }

    /// The client for a place. It has the rights with which it came.
    pub(crate) fn into_newcomer(self) -> Newcomer<Metered<Nonblocking<S>>>
    where
        S: Prompt,
        ensures { IsClientOf self result }
    {
        Newcomer {
            stream: Metered::new(Nonblocking::new(self.stream)),
            rights: self.rights,
        }
    }
}
