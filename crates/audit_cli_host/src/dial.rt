use std::io::{self, ErrorKind};
use std::os::unix::net::UnixStream;
use std::thread;
use std::time::{Clock, Duration, Instant};

/// Connections that are made at once or not at all, and what is noted of a server.
pub trait Dial {
    /// Connects to a Unix socket, without waiting. If no more clients can wait for the server there, the error is
    /// `WouldBlock`.
    fn dial(&self, path: &str) -> io::Result<UnixStream>;

    /// Notes how many entries the server's log has, for the line that explains a refusal.
    fn note_count(&self, count: u64);
}

/// After which time a socket is tried again at which no more clients can wait, or a file that is locked.
pub fn retry_time() -> Duration {
    Duration::from_millis(20)
}

/// Connects to a Unix socket, whose stream blocks. While no more clients can wait there, it tries again; if none can
/// until the time is over, the error is `WouldBlock`.
pub fn dial_within<F: Dial + Clock>(rt: &F, path: &str, limit: Duration) -> io::Result<UnixStream> {
    let stream = dial_in_time(rt, path, limit)?;
    stream.set_nonblocking(false)?;
    Ok(stream)
}

fn dial_in_time<F: Dial + Clock>(rt: &F, path: &str, limit: Duration) -> io::Result<UnixStream> {
    let begun = Instant::now(rt)?;
    for _ in 0..u64::MAX {
        let dialed = rt.dial(path);
        if !is_full(&dialed) || begun.elapsed(rt)? >= limit {
            return dialed;
        }
        thread::sleep(rt, retry_time());
    }
    Err(io::Error::from(ErrorKind::WouldBlock))
}

fn is_full(dialed: &io::Result<UnixStream>) -> bool {
    match dialed {
        Ok(_) => false,
        Err(error) => error.kind() == ErrorKind::WouldBlock,
    }
}
