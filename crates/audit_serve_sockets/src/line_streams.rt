//! Inputs and outputs of lines whose failed calls are facts.
ghost use Rattle.std.specs.Prelude.{◌≡◌, ℕ, List, Option, IfOk, IfErr, OnOk, OnErr};
ghost use Rattle.std.specs.Io.Buffered.{reader_remaining};
ghost use Rattle.std.specs.Io.KnownBytes.{Appends, Keeps};
ghost use Rattle.audit_text.specs.Writing.{WritesInPart};
ghost use Rattle.audit_serve_sockets.specs.Input.{TakesByte};

use audit_text::LinesError;
use std::io::{BufReader, Read};

/// An input whose bytes are taken one by one, of which contracts can say that a call of it failed. Code that is generic
/// over it can have that fact from such a call alone.
pub trait LineInput {
    /// The bytes that are left, where they are known.
    ghost remaining: { Self → Option (List ℕ) };

    /// The last call failed.
    ghost failed: { Self → Type 0 };

    /// Takes the next byte, or returns none at the end. The only error is `Read`.
    fn next_byte(&mut self) -> Result<Option<u8>, LinesError>
        ensures taken { IfOk result (λ byte. TakesByte (remaining self.old) (remaining self.new) byte) }
        ensures fault { IfErr result (λ cause. cause ≡ LinesError.Read) }
        ensures failed { OnErr result (failed self.new) };
}

/// Of a buffered reader nothing is known of the calls that failed.
impl<R: Read> LineInput for BufReader<R> {
    ghost remaining = { reader_remaining R.remaining };

    ghost failed = { λ _. Unit {0} };

    fn next_byte(&mut self) -> Result<Option<u8>, LinesError> {
        let mut byte = [0];
        match self.read(&mut byte) {
            Ok(0) => Ok(None),
            Ok(_) => Ok(Some(byte[0])),
            Err(_) => Err(LinesError::Read),
        }
    }
}

/// An output of which contracts can say that a call of it failed, or was a flush that succeeded. Code that is generic over
/// it can have such a fact from that call alone.
pub trait LineOutput {
    /// The bytes that were written, where they are known.
    ghost contents: { Self → Option (List ℕ) };

    /// The last call failed.
    ghost failed: { Self → Type 0 };

    /// The last call was a flush, and it succeeded.
    ghost was_flushed: { Self → Type 0 };

    /// Writes a whole text, and doesn't flush. The only error is `Write`. After it a prefix of the text was written.
    fn write_text(&mut self, text: &[u8]) -> Result<(), LinesError>
        ensures written { OnOk result (Appends (contents self.old) (contents self.new) text.now) }
        ensures part { OnErr result (WritesInPart (contents self.old) (contents self.new) text.now) }
        ensures fault { IfErr result (λ fault. fault ≡ LinesError.Write) }
        ensures failed { OnErr result (failed self.new) };

    /// Flushes. The only error is `Write`.
    fn flush_text(&mut self) -> Result<(), LinesError>
        ensures kept { Keeps (contents self.old) (contents self.new) }
        ensures flushed { OnOk result (was_flushed self.new) }
        ensures fault { IfErr result (λ fault. fault ≡ LinesError.Write) }
        ensures failed { OnErr result (failed self.new) };
}
