ghost use Rattle.std.specs.Prelude.{◌≡◌, ◌<◌, ◌≤◌, [], ◌∷◌, length, IfOk};
ghost use Rattle.audit_serve_passes.specs.Streams.{StreamModel, read_call, write_call};

use crate::stream_fault::StreamError;

/// The stream between a session and its client.
pub trait SessionStream {
    /// What its calls do, and what is known of it.
    ghost model: { StreamModel Self };

    /// Reads available bytes into the start of the buffer and returns their number, which is 0 only at the end of the
    /// stream. It may wait for the client.
    fn read(&mut self, buffer: &mut [u8]) -> Result<usize, StreamError>
        requires { 0 < length buffer.old }
        ensures within { IfOk result (λ count. count ≤ length buffer.new) }
        ensures did { model.calls.DidCalls self.old self.new (read_call result buffer.new ∷ []) };

    /// Writes all of the bytes. After an error some of them may have been written.
    fn write_all(&mut self, bytes: &[u8]) -> Result<(), StreamError>
        ensures { model.calls.DidCalls self.old self.new (write_call result bytes.now ∷ []) };

    /// Returns whether a write has failed. Nothing is written afterwards.
    fn is_closed(&self) -> bool
        ensures { result ≡ model.closed self.now };
}
