ghost use Rattle.std.specs.Prelude.{◌≡◌, ◌⊎◌, OnOk, OnErr, IfOk, IfErr};
ghost use Rattle.std.specs.Io.KnownBytes.{Appends, Keeps};
ghost use Rattle.audit_text.specs.Writing.{WritesInPart};
ghost use Rattle.audit_text.specs.declared.fault.LinesError.TheVariants as fault;
ghost use Rattle.audit_serve_sockets.specs.RoundLine.{round_line};

use crate::line_streams::LineOutput;
use audit_text::{LinesError, push_number};
use std::alloc::{AllocError, Global};

/// Writes the line that reports the number of a round and how many passes it had, and flushes the writer. Errors:
/// `Write`, if a call of the writer failed; a part of the line may then have been written. `Memory`, before that.
pub fn write_round<W: LineOutput>(
    alloc: Global,
    round: u64,
    turns: u64,
    writer: &mut W,
) -> Result<(), LinesError>
    ensures written { OnOk result (Appends (W.contents writer.old) (W.contents writer.new) (round_line round turns)) }
    ensures flushed { OnOk result (W.was_flushed writer.new) }
    ensures part { OnErr result (WritesInPart (W.contents writer.old) (W.contents writer.new)
        (round_line round turns)) }
    ensures fault { IfErr result (λ cause. ((cause ≡ fault.Write) × W.failed writer.new)
        ⊎ ((cause ≡ fault.Memory) × Keeps (W.contents writer.old) (W.contents writer.new))) }
{
    let line = line_of(alloc, round, turns)?;
    writer.write_text(&line)?;
    writer.flush_text()
}

#[tactic(auto, unfolding(crate::specs::RoundLine::round_line))]
fn line_of(alloc: Global, round: u64, turns: u64) -> Result<Vec<u8>, AllocError>
    ensures { IfOk result (λ line. line.items ≡ round_line round turns) }
{
    let mut line = Vec::new(alloc);
    push_number(&mut line, b"round ", round)?;
    push_number(&mut line, b" turns ", turns)?;
    line.extend_from_slice(b"\n")?;
    Ok(line)
}
