ghost use Rattle.std.specs.Prelude.{◌≡◌, ◌<◌, ◌≤◌, [], ◌∷◌, length, IfOk, IfSome};
ghost use Rattle.audit_serve_ready.specs.Ready.{ready_read_call, ready_write_call};
ghost use Rattle.audit_serve_door.specs.Metered.{metered_calls, IsNewMetered, inner_of_metered, moves_of_metered};
ghost use Rattle.audit_serve_door.specs.Moves.{count_after};

use audit_serve_passes::StreamError;
use audit_serve_ready::ReadyStream;

/// A stream that counts the calls which moved bytes. Each call is one call of the inner stream, and has its result.
#[derive(Debug, Drop)]
pub struct Metered<S> {
    inner: S,
    moves: u64,
}

impl<S: ReadyStream> Metered<S> {
    /// Makes a stream of which no call has moved bytes.
    pub fn new(inner: S) -> Metered<S>
        ensures { IsNewMetered inner result }
    {
        Metered { inner, moves: 0 }
    }

    /// The inner stream.
    pub fn inner(&self) -> &S
        ensures { result.now ≡ inner_of_metered self.now }
    {
        &self.inner
    }

    /// How many calls have moved bytes, modulo 2^64.
    pub fn moves(&self) -> u64
        ensures { result ≡ moves_of_metered self.now }
    {
        self.moves
    }

    fn count(&mut self, bytes: usize)
        ensures kept { self.new.inner ≡ self.old.inner }
        ensures counted { self.new.moves ≡ count_after self.old.moves bytes }
    {
        if bytes > 0 {
            self.moves = self.moves.wrapping_add(1);
        }
    }
}

impl<S: ReadyStream> ReadyStream for Metered<S> {
    ghost calls = { metered_calls S.calls };

    fn read_ready(&mut self, buffer: &mut [u8]) -> Option<Result<usize, StreamError>> {
        let given = self.inner.read_ready(buffer);
        if let Some(Ok(count)) = given {
            self.count(count);
        }
        given
    }

    fn write_ready(&mut self, bytes: &[u8]) -> Result<usize, StreamError> {
        let taken = self.inner.write_ready(bytes);
        if let Ok(count) = taken {
            self.count(count);
        }
        taken
    }
}
