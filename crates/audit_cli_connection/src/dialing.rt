//! The calls by which a socket is connected to within a time.
ghost use Rattle.std.specs.Prelude.{IfOk, IfErr, OnOk};
ghost use Rattle.std.specs.IoError.{error_kind};
ghost use Rattle.std.specs.Net.Unix.{unix_stream_raw_fd};
ghost use Rattle.std.specs.Time.{instant_nanos};
ghost use Rattle.audit_cli_connection.specs.Dialing.{DialFacts};

use audit_cli_host::{Dial, retry_time};
use std::os::unix::net::UnixStream;
use std::time::{Clock, Instant};
use std::{io, thread};

/// A system on which sockets are connected to within a time. What its calls showed are facts of these calls alone. Every
/// [`Dial`] with a clock is one.
pub trait Dialing {
    /// What its calls showed.
    ghost dials: { Self → DialFacts };

    /// Connects to a socket without waiting. If no more clients can wait for the server there, the error is
    /// `WouldBlock`.
    fn connect_once(&self, path: &str) -> io::Result<UnixStream>
        ensures connected { IfOk result (λ stream. (dials self.now).connected path.now (unix_stream_raw_fd stream)) }
        ensures failed { IfErr result (λ error. (dials self.now).unconnected path.now (error_kind error)) };

    /// Has the reads and writes of a stream wait.
    fn let_wait(&self, stream: &UnixStream) -> io::Result<()>
        ensures waits { OnOk result ((dials self.now).waits (unix_stream_raw_fd stream.now)) }
        ensures failed { IfErr result (λ error. (dials self.now).failed (error_kind error)) };

    /// Reads the clock.
    fn moment(&self) -> io::Result<Instant>
        ensures read { IfOk result (λ now. (dials self.now).read (instant_nanos now)) }
        ensures failed { IfErr result (λ error. (dials self.now).failed (error_kind error)) };

    /// Waits until a socket is tried again.
    fn wait_for_retry(&self);
}

impl<F: Dial + Clock> Dialing for F {
    ghost use Rattle.audit_cli_connection.specs.Dialing.{DialFacts};

    ghost dials = { λ _. record {
      connected = λ path stream. Unit {0};
      unconnected = λ path kind. Unit {0};
      waits = λ stream. Unit {0};
      read = λ nanos. Unit {0};
      failed = λ kind. Unit {0};
    } };

    fn connect_once(&self, path: &str) -> io::Result<UnixStream> {
        self.dial(path)
    }

    fn let_wait(&self, stream: &UnixStream) -> io::Result<()> {
        stream.set_nonblocking(false)
    }

    fn moment(&self) -> io::Result<Instant> {
        Instant::now(self)
    }

    fn wait_for_retry(&self) {
        thread::sleep(self, retry_time());
    }
}
