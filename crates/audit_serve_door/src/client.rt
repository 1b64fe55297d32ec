use crate::entrance::Entrance;
use crate::metered::Metered;
use crate::nonblocking::Nonblocking;
use crate::socket_door::SocketDoor;
use mio::net::{UnixListener, UnixStream};

/// The stream of a client, whose bytes are counted.
pub type Client = Metered<Nonblocking<UnixStream>>;

/// A Unix socket on which clients come in.
pub type ClientEntrance = Entrance<UnixListener>;

/// A door with Unix sockets.
pub type ClientDoor<'a, C, J, W> = SocketDoor<'a, C, J, W, UnixListener, UnixStream>;
