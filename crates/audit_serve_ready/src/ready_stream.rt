ghost use Rattle.std.specs.Prelude.{◌<◌, ◌≤◌, [], ◌∷◌, length, IfOk, IfSome};
ghost use Rattle.audit_serve_passes.specs.Streams.{CallModel};
ghost use Rattle.audit_serve_ready.specs.Ready.{ready_read_call, ready_write_call};

use audit_serve_passes::StreamError;

/// The stream between a client and its session, of which no call waits.
pub trait ReadyStream {
    /// What its calls do, and what is known of it.
    ghost calls: { CallModel Self };

    /// Reads some of the bytes that are there into the front of the buffer, and reports how many: zero only at the end
    /// of the stream. If none is there now, it reports nothing.
    fn read_ready(&mut self, buffer: &mut [u8]) -> Option<Result<usize, StreamError>>
        requires { 0 < length buffer.old }
        ensures within { IfSome result (λ given. IfOk given (λ count. count ≤ length buffer.new)) }
        ensures did { calls.DidCalls self.old self.new (ready_read_call result buffer.new ∷ []) };

    /// Writes the first of these bytes, and reports how many: zero if none can be written now. After a fault some of
    /// them may be written.
    fn write_ready(&mut self, bytes: &[u8]) -> Result<usize, StreamError>
        ensures within { IfOk result (λ count. count ≤ length bytes.now) }
        ensures did { calls.DidCalls self.old self.new (ready_write_call result bytes.now ∷ []) };
}
