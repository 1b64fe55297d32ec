ghost use Rattle.std.specs.Prelude.{◌≡◌, ◌<◌, length, IfOk, ◌≤◌, [], ◌∷◌};
ghost use Rattle.audit_serve_passes.specs.Streams.{read_call, write_call};
ghost use Rattle.audit_serve_passes.specs.Pairs.{pair_model, writer_of, IsNewPair, IsPairCalled};

use crate::session_stream::SessionStream;
use crate::stream_fault::StreamError;
use std::io::{Read, Write};

/// A session's stream made of a reader and a separate writer. What is known of the two is known of the stream:
/// everything if they are in memory, nothing if they are files.
#[derive(Debug, Drop)]
pub struct StreamPair<R, W> {
    reader: R,
    writer: W,
    closed: bool,
}

impl<R: Read, W: Write> StreamPair<R, W> {
    /// Makes the stream that reads from `reader` and writes to `writer`.
    pub fn new(reader: R, writer: W) -> StreamPair<R, W>
        ensures { IsNewPair reader writer result }
    {
        StreamPair {
            reader,
            writer,
            closed: false,
        }
    }

    /// The writer.
    pub fn writer(&self) -> &W
        ensures { result.now ≡ writer_of self.now }
    {
        &self.writer
    }
}

impl<R: Read, W: Write> SessionStream for StreamPair<R, W> {
    ghost model = { pair_model R.remaining W.contents };

    fn read(&mut self, buffer: &mut [u8]) -> Result<usize, StreamError> {
        match self.reader.read(buffer) {
            Ok(count) => Ok(count),
            Err(_) => Err(StreamError),
        }
    }

    fn write_all(&mut self, bytes: &[u8]) -> Result<(), StreamError> {
        if self.writer.write_all(bytes).is_err() || self.writer.flush().is_err() {
            self.closed = true;
            return Err(StreamError);
        }
        Ok(())
    }

    fn is_closed(&self) -> bool {
        self.closed
    }
}
