//! Writers whose failed calls are facts.
ghost use Rattle.std.specs.Prelude.{◌≡◌, IfErr, OnOk, OnErr};
ghost use Rattle.std.specs.Io.{WritesAtMost};
ghost use Rattle.std.specs.Io.KnownBytes.{Appends, Keeps, WriteAppends};
ghost use Rattle.audit_wire_ask.specs.Exporting.{WritesFront};
ghost use Rattle.audit_wire_ask.specs.Failing.{IsLost};
ghost use Rattle.audit_text.specs.Writing.{WritesInPart};

use crate::conversation::{send_bytes, send_rest};
use crate::fault::ClientError;
use audit_text::LinesError;
use std::io::{self, Write};

/// A writer of which contracts can say that its last call failed, or was a flush that succeeded. Code that is generic
/// over it can have such a fact from that call alone. Every `Write` is one.
pub trait FallibleWrite: Write {
    /// The last call failed.
    ghost failed: { Self → Type 0 };

    /// The last call was a flush, and it succeeded.
    ghost flushed: { Self → Type 0 };

    /// Writes once, as `Write::write` does.
    fn write_once(&mut self, bytes: &[u8]) -> io::Result<usize>
        ensures bound { WritesAtMost result bytes.now }
        ensures bytes { WriteAppends (Self.contents self.old) (Self.contents self.new) result bytes.now }
        ensures failed { OnErr result (failed self.new) };

    /// Writes a whole text, as `write_whole` does. After an error a prefix of it was written, and not all.
    fn write_text(&mut self, text: &[u8]) -> Result<(), LinesError>
        ensures written { OnOk result (Appends (Self.contents self.old) (Self.contents self.new) text.now) }
        ensures part { OnErr result (WritesInPart (Self.contents self.old) (Self.contents self.new) text.now) }
        ensures lacks { OnErr result (WritesFront (Self.contents self.old) (Self.contents self.new) text.now) }
        ensures fault { IfErr result (λ fault. fault ≡ LinesError.Write) }
        ensures failed { OnErr result (failed self.new) };

    /// Writes all bytes to a connection and flushes it, as `send_bytes` does. After an error a prefix was written.
    fn send_text(&mut self, text: &[u8]) -> Result<(), ClientError>
        ensures sent { OnOk result (Appends (Self.contents self.old) (Self.contents self.new) text.now) }
        ensures part { OnErr result (WritesInPart (Self.contents self.old) (Self.contents self.new) text.now) }
        ensures fault { IfErr result IsLost }
        ensures failed { OnErr result (failed self.new) };

    /// Flushes, as `Write::flush` does.
    fn flush_text(&mut self) -> io::Result<()>
        ensures kept { Keeps (Self.contents self.old) (Self.contents self.new) }
        ensures flushed { OnOk result (flushed self.new) }
        ensures failed { OnErr result (failed self.new) };
}

impl<W: Write> FallibleWrite for W {
    ghost failed = { λ _. Unit {0} };

    ghost flushed = { λ _. Unit {0} };

    fn write_once(&mut self, bytes: &[u8]) -> io::Result<usize> {
        self.write(bytes)
    }

    fn write_text(&mut self, text: &[u8]) -> Result<(), LinesError> {
        match send_rest(self, text) {
            Ok(()) => Ok(()),
            Err(_) => Err(LinesError::Write),
        }
    }

    fn send_text(&mut self, text: &[u8]) -> Result<(), ClientError> {
        send_bytes(self, text)
    }

    fn flush_text(&mut self) -> io::Result<()> {
        self.flush()
    }
}
