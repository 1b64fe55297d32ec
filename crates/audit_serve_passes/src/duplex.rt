ghost use Rattle.std.specs.Prelude.{◌<◌, ◌≤◌, [], ◌∷◌, length, IfOk};
ghost use Rattle.audit_serve_passes.specs.Streams.{CallModel, read_call, write_call};
ghost use Rattle.audit_serve_passes.specs.Pairs.{unknown_calls};

use crate::stream_fault::StreamError;
use std::io::{Read, Write};
use std::os::unix::net::UnixStream;

/// A value that reads and writes, as a socket does.
pub trait Duplex {
    /// What its calls do, and what is known of it.
    ghost calls: { CallModel Self };

    /// Reads available bytes into the start of the buffer and returns their number, which is 0 only at the end. It may
    /// wait for the peer.
    fn receive(&mut self, buffer: &mut [u8]) -> Result<usize, StreamError>
        requires { 0 < length buffer.old }
        ensures within { IfOk result (λ count. count ≤ length buffer.new) }
        ensures did { calls.DidCalls self.old self.new (read_call result buffer.new ∷ []) };

    /// Writes all of the bytes. After an error some of them may have been written.
    fn send(&mut self, bytes: &[u8]) -> Result<(), StreamError>
        ensures { calls.DidCalls self.old self.new (write_call result bytes.now ∷ []) };
}

/// Nothing is known of a socket: each call is the system's.
impl Duplex for UnixStream {
    ghost calls = { unknown_calls };

    fn receive(&mut self, buffer: &mut [u8]) -> Result<usize, StreamError> {
        self.read(buffer).map_err(|_| StreamError)
    }

    fn send(&mut self, bytes: &[u8]) -> Result<(), StreamError> {
        if self.write_all(bytes).is_err() || self.flush().is_err() {
            return Err(StreamError);
        }
        Ok(())
    }
}
