ghost use Rattle.std.specs.Prelude.{◌≡◌, ◌<◌, ◌≤◌, [], ◌∷◌, length, IfOk, IfSome};
ghost use Rattle.audit_serve_ready.specs.Ready.{ready_read_call, ready_write_call};
ghost use Rattle.audit_serve_door.specs.Nonblocking.{is_not_ready, nonblocking_calls};

use crate::prompt::Prompt;
use audit_serve_passes::StreamError;
use audit_serve_ready::ReadyStream;
use std::io::ErrorKind;

/// A stream over a value whose calls fail with `WouldBlock` instead of waiting. Each call is one call of the value; if
/// that isn't ready, or was interrupted, nothing is there or taken now.
#[derive(Debug, Drop)]
pub struct Nonblocking<T> {
    inner: T,
}

impl<T: Prompt> Nonblocking<T> {
    /// Makes the stream over this value.
    pub fn new(inner: T) -> Nonblocking<T>
        ensures { result.inner ≡ inner }
    {
        Nonblocking { inner }
    }
}

// Whether a call has to be made again later.
fn is_not_ready(kind: ErrorKind) -> bool
    ensures { result ≡ is_not_ready kind }
{
    match kind {
        ErrorKind::WouldBlock | ErrorKind::Interrupted => true,
        _ => false,
    }
}

impl<T: Prompt> ReadyStream for Nonblocking<T> {
    ghost calls = { nonblocking_calls T.model };

    fn read_ready(&mut self, buffer: &mut [u8]) -> Option<Result<usize, StreamError>> {
        match self.inner.try_read(buffer) {
            Ok(count) => Some(Ok(count)),
            Err(error) if is_not_ready(error.kind()) => None,
            Err(_) => Some(Err(StreamError)),
        }
    }

    fn write_ready(&mut self, bytes: &[u8]) -> Result<usize, StreamError> {
        if bytes.is_empty() {
            return Ok(0);
        }
        match self.inner.try_write(bytes) {
            Ok(count) => Ok(count),
            Err(error) if is_not_ready(error.kind()) => Ok(0),
            Err(_) => Err(StreamError),
        }
    }
}
