use mio::unix::SourceFd;
use mio::{Events, Interest, Poll, Token};
use std::alloc::Global;
use std::io::{self, ErrorKind};
use std::net::Net;
use std::os::fd::RawFd;
use std::time::Duration;

/// How many bytes can be written to a descriptor with room, without waiting: a terminal gives its buffers out by 256,
/// and a line feed may become two bytes there. A pipe with room has some for 4,096.
pub const ROOM: usize = 240;

/// Whether a descriptor has room, so that a short write to it doesn't wait.
#[derive(Drop)]
pub struct Room {
    poll: Poll,
    events: Events,
    descriptor: RawFd,
    // A file never waits, and can't be watched.
    is_file: bool,
}

impl Room {
    /// Watches a descriptor. Errors are those of the system, and `OutOfMemory`.
    pub fn new(net: &impl Net, alloc: Global, descriptor: RawFd) -> io::Result<Room> {
        let Ok(events) = Events::with_capacity(alloc, 1) else {
            return Err(io::Error::from(ErrorKind::OutOfMemory));
        };
        let poll = Poll::new(net)?;
        let mut source = SourceFd(&descriptor);
        let watched = poll
            .registry()
            .register(&mut source, Token(0), Interest::WRITABLE);
        let is_file = match watched {
            Ok(()) => false,
            Err(error) if error.kind() == ErrorKind::PermissionDenied => true,
            Err(error) => return Err(error),
        };
        Ok(Room {
            poll,
            events,
            descriptor,
            is_file,
        })
    }

    /// Whether [`ROOM`] bytes can be written without waiting, now or before this time is over. A descriptor that fails
    /// at once, since nobody reads it any more, counts as one with room.
    pub fn comes_within(&mut self, time: Duration) -> bool {
        if self.is_file {
            return true;
        }
        let mut source = SourceFd(&self.descriptor);
        let registry = self.poll.registry();
        if registry
            .reregister(&mut source, Token(0), Interest::WRITABLE)
            .is_err()
        {
            return false;
        }
        match self.poll.poll(&mut self.events, Some(time)) {
            Ok(()) => !self.events.is_empty(),
            Err(_) => false,
        }
    }
}
