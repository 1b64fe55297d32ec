ghost use Rattle.std.specs.Prelude.{◌≡◌, ◌<◌, ◌+◌, ◌^◌, ◌++◌, [], length, codes, Err, IfOk, IfErr, IfSome, OnOk, OnErr};
ghost use Rattle.std.specs.Prelude.{MatchOption};
ghost use Rattle.std.specs.Io.KnownBytes.{Appends};
ghost use Rattle.audit_text.specs.Writing.{WritesInPart};
ghost use Rattle.audit_text.specs.declared.fault.LinesError.TheVariants.{Write as NotWritten};
ghost use Rattle.audit_serve_sockets.specs.declared.loop_fault.RelayError.TheVariants as relay;
ghost use Rattle.audit_serve_sockets.specs.Frames.{frame_line, AreUnfinished, HasLines};
ghost use Rattle.audit_serve_sockets.specs.LoopFaults.{IsRelayError};

use crate::line_streams::LineOutput;
use crate::loop_fault::RelayError;
use audit_text::push_hex;
use audit_wire::{LENGTH_BYTES, first_frame};
use std::alloc::{AllocError, Global};

/// Writes a line of hex digits for each frame in the bytes. Bytes after the last complete frame are an error.
pub fn write_frames<W: LineOutput>(
    alloc: Global,
    bytes: &[u8],
    writer: &mut W,
) -> Result<(), RelayError>
    ensures written { OnOk result (HasLines (W.contents writer.old) (W.contents writer.new) bytes.now) }
    // `Connection` needs bytes that aren't whole frames, and `Write` a call of the writer that failed.
    ensures fault { IfErr result IsRelayError }
    ensures cut_off { result ≡ Err relay.Connection → AreUnfinished bytes.now }
    ensures unwritten { result ≡ Err (relay.Lines NotWritten) → W.failed writer.new }
{
    let mut line = Vec::new(alloc);
    let mut rest = bytes;
    while !rest.is_empty() {
        let Some((body, after)) = first_frame(rest) else {
            return Err(RelayError::Connection);
        };
        put_frame(&mut line, body)?;
        writer.write_text(&line)?;
        rest = after;
    }
    Ok(())
}

// Replaces the contents of the buffer with the line of a frame.
fn put_frame(line: &mut Vec<u8>, body: &[u8]) -> Result<(), AllocError>
    requires { length body.now < 2 ^ 16 }
    ensures { OnOk result (line.new.items ≡ frame_line body.now) }
{
    line.clear();
    push_hex(line, &(body.len() as u16).to_be_bytes())?;
    push_hex(line, body)?;
    line.extend_from_slice(b"\n")
}
