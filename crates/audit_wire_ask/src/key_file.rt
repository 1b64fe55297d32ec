//! Files of keys.
ghost use Rattle.std.specs.Prelude.{◌≡◌};
ghost use Rattle.audit_wire_ask.specs.EntryKeys.{written_file};

use crate::fallible_write::FallibleWrite;
use crate::key_lines::KeyLines;
use std::io::{self, Write};

/// A file, or another writer, where keys are kept.
#[derive(Drop)]
pub struct KeyFile<W> {
    writer: W,
}

impl<W> KeyFile<W> {
    /// Keeps keys by this writer.
    pub fn new(writer: W) -> KeyFile<W>
        ensures { written_file result ≡ writer }
    {
        KeyFile { writer }
    }
}

impl<W: FallibleWrite> KeyLines for KeyFile<W> {
    fn are_kept(&self) -> bool {
        true
    }
}

/// Its bytes are those of the writer. To write to it is to write to the writer, and to flush it is to flush the writer.
impl<W: FallibleWrite> Write for KeyFile<W> {
    ghost use Rattle.std.specs.Prelude.{OnOk, OnErr};
    ghost use Rattle.std.specs.Io.{WritesAtMost};
    ghost use Rattle.std.specs.Io.KnownBytes.{Keeps, WriteAppends};
    ghost use Rattle.audit_wire_ask.specs.EntryKeys.{written_file};

    ghost contents = { λ keys. W.contents (written_file keys) };

    fn write(&mut self, bytes: &[u8]) -> io::Result<usize>
        ensures bound { WritesAtMost result bytes.now }
        ensures bytes { WriteAppends (W.contents (written_file self.old)) (W.contents (written_file self.new))
            result bytes.now }
        ensures failed { OnErr result (W.failed (written_file self.new)) }
    {
        self.writer.write_once(bytes)
    }

    fn flush(&mut self) -> io::Result<()>
        ensures kept { Keeps (W.contents (written_file self.old)) (W.contents (written_file self.new)) }
        ensures flushed { OnOk result (W.flushed (written_file self.new)) }
        ensures failed { OnErr result (W.failed (written_file self.new)) }
    {
        self.writer.flush_text()
    }
}
