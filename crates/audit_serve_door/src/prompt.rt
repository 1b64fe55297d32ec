ghost use Rattle.std.specs.Prelude.{◌≤◌, [], ◌∷◌, length, IfOk};
ghost use Rattle.audit_serve_door.specs.Nonblocking.{PromptModel, attempted_read, attempted_write, unknown_prompt};

use mio::net::UnixStream;
use std::io::{self, Read, Write};

/// A value whose calls fail with `WouldBlock` instead of waiting.
pub trait Prompt {
    /// What its calls do, and what is known of it.
    ghost model: { PromptModel Self };

    /// Reads some of the bytes that are there into the front of the buffer, and returns how many: zero only at the end.
    fn try_read(&mut self, buffer: &mut [u8]) -> io::Result<usize>
        ensures within { IfOk result (λ count. count ≤ length buffer.new) }
        ensures did { model.calls.DidCalls self.old self.new (attempted_read result buffer.new ∷ []) };

    /// Writes the first of these bytes, and returns how many.
    fn try_write(&mut self, bytes: &[u8]) -> io::Result<usize>
        ensures within { IfOk result (λ count. count ≤ length bytes.now) }
        ensures did { model.calls.DidCalls self.old self.new (attempted_write result bytes.now ∷ []) };
}

/// Nothing is known of a socket: each call is the system's.
impl Prompt for UnixStream {
    ghost model = { unknown_prompt };

    fn try_read(&mut self, buffer: &mut [u8]) -> io::Result<usize> {
        self.read(buffer)
    }

    fn try_write(&mut self, bytes: &[u8]) -> io::Result<usize> {
        self.write(bytes)
    }
}
