ghost use Rattle.std.specs.Prelude.{◌≡◌, ◌<◌, ◌≤◌, [], ◌∷◌, length, IfOk};
ghost use Rattle.audit_serve_passes.specs.Streams.{read_call, write_call};
ghost use Rattle.audit_serve_passes.specs.Pairs.{duplex_model, IsNewDuplex};

use crate::duplex::Duplex;
use crate::session_stream::SessionStream;
use crate::stream_fault::StreamError;

/// A session's stream over one value that reads and writes, such as a socket. Each call is one call of the value and
/// has its result. What is known of the value is known of the stream.
#[derive(Debug, Drop)]
pub struct DuplexStream<T> {
    inner: T,
    closed: bool,
}

impl<T: Duplex> DuplexStream<T> {
    /// Makes the stream that reads from this value and writes to it.
    pub fn new(inner: T) -> DuplexStream<T>
        ensures { IsNewDuplex inner result }
    {
        DuplexStream {
            inner,
            closed: false,
        }
    }
}

impl<T: Duplex> SessionStream for DuplexStream<T> {
    ghost model = { duplex_model T.calls };

    fn read(&mut self, buffer: &mut [u8]) -> Result<usize, StreamError> {
        self.inner.receive(buffer)
    }

    fn write_all(&mut self, bytes: &[u8]) -> Result<(), StreamError> {
        let sent = self.inner.send(bytes);
        if sent.is_err() {
            self.closed = true;
        }
        sent
    }

    fn is_closed(&self) -> bool {
        self.closed
    }
}
