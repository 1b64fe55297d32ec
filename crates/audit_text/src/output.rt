ghost use Rattle.std.specs.Prelude.{◌≡◌, ◌+◌, ◌≤◌, ◌++◌, length, take, IfOk, IfErr, OnOk, OnErr};
ghost use Rattle.std.specs.Io.KnownBytes.{Appends, Keeps};
ghost use Rattle.std.specs.Fmt.{decimal};
ghost use Rattle.hex.specs.Hex.{encode_lower};
ghost use Rattle.audit_text.specs.AckLine.{ack_line};
ghost use Rattle.audit_text.specs.NumberedLine.{numbered_line};
ghost use Rattle.audit_text.specs.Writing.{WritesInPart};

use crate::fault::LinesError;
use itoa::Buffer;
use std::alloc::AllocError;
use std::io::{ErrorKind, Write};

/// Replaces the buffer's contents with a line: a word (which ends in a space), a number in decimal, a space, bytes in
/// lower-case hex, and a line feed.
#[tactic(auto, unfolding(crate::specs::NumberedLine::numbered_line))]
pub fn put_line(
    line: &mut Vec<u8>,
    word: &[u8],
    number: u64,
    bytes: &[u8],
) -> Result<(), AllocError>
    ensures { OnOk result (line.new.items ≡ numbered_line word.now number bytes.now) }
{
    line.clear();
    push_number(line, word, number)?;
    line.extend_from_slice(b" ")?;
    push_hex(line, bytes)?;
    line.extend_from_slice(b"\n")?;
    Ok(())
}

/// Appends the line that acknowledges events: the index of the first of them, the count of all events with them, and
/// the root of these.
#[tactic(auto, unfolding(crate::specs::AckLine::ack_line))]
pub fn push_ack(line: &mut Vec<u8>, first: u64, count: u64, root: &[u8]) -> Result<(), AllocError>
    ensures { OnOk result (line.new.items ≡ line.old.items ++ ack_line first count root.now) }
{
    push_number(line, b"ack ", first)?;
    push_number(line, b" ", count)?;
    line.extend_from_slice(b" ")?;
    push_hex(line, root)?;
    line.extend_from_slice(b"\n")?;
    Ok(())
}

/// Appends a word and a number in decimal.
pub fn push_number(line: &mut Vec<u8>, word: &[u8], number: u64) -> Result<(), AllocError>
    ensures { OnOk result (line.new.items ≡ line.old.items ++ word.now ++ decimal number) }
{
    let mut digits = Buffer::new();
    line.extend_from_slice(word)?;
    line.extend_from_slice(digits.format(number).as_bytes())
}

/// Appends two lower-case hex digits for each byte.
pub fn push_hex(line: &mut Vec<u8>, bytes: &[u8]) -> Result<(), AllocError>
    ensures { OnOk result (line.new.items ≡ line.old.items ++ encode_lower bytes.now) }
{
    let start = line.len();
    let Some(len) = bytes.len().checked_mul(2) else {
        return Err(AllocError);
    };
    let Some(end) = start.checked_add(len) else {
        return Err(AllocError);
    };
    line.resize(end, 0)?;
    put_hex(&mut line[start..], bytes);
    Ok(())
}

fn put_hex(digits: &mut [u8], bytes: &[u8])
    requires { length digits.old ≡ length bytes.now + length bytes.now }
    ensures { digits.new ≡ encode_lower bytes.now }
{
    let _ = hex::encode_to_slice(bytes, digits);
}

/// Writes a whole text. After a fault a prefix of it was written.
pub fn write_whole<W: Write>(writer: &mut W, text: &[u8]) -> Result<(), LinesError>
    ensures written { OnOk result (Appends (W.contents writer.old) (W.contents writer.new) text.now) }
    ensures part { OnErr result (WritesInPart (W.contents writer.old) (W.contents writer.new) text.now) }
    ensures fault { IfErr result (λ fault. fault ≡ LinesError.Write) }
{
    let mut rest = text;
    for _ in 0..u64::MAX {
        if rest.is_empty() {
            return Ok(());
        }
        let written = write_once(writer, rest)?;
        let (_, left) = rest.split_at(written);
        rest = left;
    }
    Err(LinesError::Write)
}

// Writes once. An interrupted write counts as no bytes, so the caller tries again; a writer that accepts nothing has
// failed.
fn write_once<W: Write>(writer: &mut W, text: &[u8]) -> Result<usize, LinesError>
    ensures within { IfOk result (λ written. written ≤ length text.now) }
    ensures written { IfOk result (λ written. Appends (W.contents writer.old) (W.contents writer.new)
        (take written text.now)) }
    ensures kept { OnErr result (Keeps (W.contents writer.old) (W.contents writer.new)) }
    ensures fault { IfErr result (λ fault. fault ≡ LinesError.Write) }
{
    match writer.write(text) {
        Ok(0) => Err(LinesError::Write),
        Ok(written) => Ok(written),
        Err(error) => {
            if error.kind() == ErrorKind::Interrupted {
                Ok(0)
            } else {
                Err(LinesError::Write)
            }
        }
    }
}
