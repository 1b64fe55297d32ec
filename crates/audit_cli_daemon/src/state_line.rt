//! The lines by which a daemon reports its state.
ghost use Rattle.std.specs.Prelude.{OnOk, OnErr, IfErr};
ghost use Rattle.std.specs.Io.KnownBytes.{Appends};
ghost use Rattle.audit_text.specs.NumberedLine.{numbered_line};
ghost use Rattle.audit_text.specs.Writing.{WritesInPart};
ghost use Rattle.audit_cli_base.specs.Faults.{IsUnwritten};

use audit_cli_base::CommandError;
use audit_proof::Commitment;
use audit_text::{LinesError, put_line, write_whole};
use std::alloc::Global;
use std::io::Write;

/// Writes a line with a word (which ends in a space), a count and a root, and flushes the writer. Errors: `Lines` if
/// the line wasn't written, and `Refused` if memory for it was refused.
pub fn write_state<W: Write>(
    alloc: Global,
    word: &[u8],
    state: &Commitment,
    writer: &mut W,
) -> Result<(), CommandError>
    ensures written { OnOk result (Appends (W.contents writer.old) (W.contents writer.new)
        (numbered_line word.now state.now.count state.now.root)) }
    ensures part { OnErr result (WritesInPart (W.contents writer.old) (W.contents writer.new)
        (numbered_line word.now state.now.count state.now.root)) }
    ensures fault { IfErr result (IsUnwritten (W.contents writer.old) (W.contents writer.new)) }
{
    let mut line = Vec::new(alloc);
    put_line(&mut line, word, state.count, &state.root)?;
    write_whole(writer, &line)?;
    if writer.flush().is_err() {
        return Err(CommandError::Lines(LinesError::Write));
    }
    Ok(())
}
