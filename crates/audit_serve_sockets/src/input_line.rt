ghost use Rattle.std.specs.Prelude.{◌≡◌, ◌⊎◌, ◌≤◌, ◌+◌, true, false, vec_len, IfErr, Ok, Err};
ghost use Rattle.std.specs.Io.KnownBytes.{IsAtEnd};
ghost use Rattle.audit_text.specs.declared.fault.LinesError.TheVariants as fault;
ghost use Rattle.audit_serve_sockets.specs.declared.limits.TheConstants.{MAX_DIGITS};
ghost use Rattle.audit_serve_sockets.specs.Input.{ReadsLine};

use crate::limits::MAX_DIGITS;
use crate::line_streams::LineInput;
use audit_text::LinesError;

/// Reads the next line without its line feed into the buffer, replacing its contents. Returns whether there was a
/// line. Of a line longer than [`MAX_DIGITS`] only the first `MAX_DIGITS` + 1 bytes are read.
///
/// Errors: `Read` and `Memory`. The buffer then holds what was read of the line.
pub fn next_line<R: LineInput>(reader: &mut R, line: &mut Vec<u8>) -> Result<bool, LinesError>
    // On any input. `Read` needs a call of it that failed.
    ensures within { vec_len line.new ≤ MAX_DIGITS + 1 }
    ensures fault { IfErr result (λ cause. (cause ≡ fault.Read) ⊎ (cause ≡ fault.Memory)) }
    ensures unread { result ≡ Err fault.Read → R.failed reader.new }
    // On an input whose bytes are known.
    ensures none { result ≡ Ok false → IsAtEnd (R.remaining reader.old) }
    ensures read { result ≡ Ok true → ReadsLine (R.remaining reader.old) (R.remaining reader.new) line.new.items }
{
    line.clear();
    for _ in 0..MAX_DIGITS + 1 {
        match reader.next_byte()? {
            None => return Ok(!line.is_empty()),
            Some(b'\n') => return Ok(true),
            Some(byte) => line.push(byte)?,
        }
    }
    Ok(true)
}
