ghost use Rattle.std.specs.Prelude.{◌≡◌, ◌⊎◌, ◌≤◌, ◌^◌, ◌∷◌, [], ◌+◌, List, ℕ, length, IfOk, IfErr, IfSome, OnOk, Err};
ghost use Rattle.audit_text.specs.declared.fault.LinesError.TheVariants.{Write as NotWritten, Read as NotRead};
ghost use Rattle.audit_serve_passes.specs.declared.limits.TheConstants.{MAX_PIECE};
ghost use Rattle.audit_serve_passes.specs.Steps.{a_flush, IsPartOf};
ghost use Rattle.audit_serve_passes.specs.Transition.{CoreTransition};
ghost use Rattle.audit_serve_sockets.specs.declared.loop_fault.LoopError.TheVariants as fault;
ghost use Rattle.audit_serve_sockets.specs.Input.{SpellsInput, SpellsUpToBad};
ghost use Rattle.audit_serve_sockets.specs.Looping.{Brings, BringsFront, BringsLines, AreLinePasses, IsWholeLoop};
ghost use Rattle.audit_serve_sockets.specs.declared.loop_fault.RelayError.TheVariants as relay;
ghost use Rattle.audit_serve_sockets.specs.Carrying.{LosesSome};
ghost use Rattle.audit_serve_sockets.specs.Looping.{LoopTransition, LoopReached, CutsFrameOff};
ghost use Rattle.audit_serve_sockets.specs.LoopFaults.{IsLoopError, IsReplyError, IsSendingError, IsSendingBackError};

use crate::frame_line::bytes_of_line;
use crate::input_line::next_line;
use crate::line_streams::{LineInput, LineOutput};
use crate::link::Link;
use crate::loop_fault::{LoopError, RelayError};
use crate::replying::write_frames;
use crate::tried::{TriedRead, TriedWrite};
use audit_serve_passes::{MAX_PIECE, SessionCore};
use audit_text::LinesError;
use std::alloc::Global;

// The session that the lines belong to.
const SESSION: usize = 0;

/// Serves a session whose bytes are given as lines of hex digits, through a connection. The bytes of each line are
/// sent from the client's end, and what arrives at the server's end is fed to the core. Then the core flushes, its
/// replies are sent back, and each frame that arrives is written as a line. After the last line the session is ended,
/// and the core flushes once more.
///
/// If a line isn't hex digits, the error is `BadLine`. The replies to the earlier lines have then been written.
pub fn run_lines<C, A, B, R, W>(
    alloc: Global,
    core: &mut C,
    link: &mut Link<A, B>,
    reader: &mut R,
    writer: &mut W,
) -> Result<(), LoopError<C::Error>>
where
    C: SessionCore,
    A: TriedRead + TriedWrite + Drop,
    B: TriedRead + TriedWrite + Drop,
    R: LineInput,
    W: LineOutput,
    // Whatever happens, the core did steps that feed a prefix of what the first lines spell, in order.
    ensures reaches { LoopReached C.model core.old core.new (BringsLines (R.remaining reader.old)) }
    // If the core refused a step, what its refusal states holds.
    ensures refused { (error : C.Error) → result ≡ Err (fault.Core error) → C.refuses core.old core.new error }
    // On success each line was fed and flushed in order. Then the session was ended, and the replies were written. If
    // the reader's bytes are known, `lines` is what all their lines spell.
    ensures done { OnOk result ((lines : List (List ℕ)) × LoopTransition C.model core.old core.new
        (W.contents writer.old) (W.contents writer.new) (IsWholeLoop lines)
        × IfSome (R.remaining reader.old) (SpellsInput lines)) }
    // If a line spells no bytes, the replies to all earlier lines were written.
    ensures bad { (number : ℕ) → result ≡ Err (fault.BadLine number)
        → (lines : List (List ℕ)) × (length lines + 1 ≡ number) × LoopTransition C.model core.old core.new
        (W.contents writer.old) (W.contents writer.new) (AreLinePasses lines)
        × IfSome (R.remaining reader.old) (SpellsUpToBad lines) }
    // The writer was flushed after the last reply.
    ensures flushed { OnOk result (W.was_flushed writer.new) }
    // The only errors of lines are `Read`, `Write` and `Memory`.
    ensures fault { IfErr result IsLoopError }
    // `Connection` needs a call that failed at an end of the link, bytes that were read there and weren't sent, or
    // output of the core that isn't whole frames. `Read` needs a call of the reader that failed, or as many lines as are
    // counted; `Write` a call of the writer that failed.
    ensures lost { result ≡ Err fault.Connection
        → LosesSome A.unwritten B.unread B.gave link.new.client link.new.server
        ⊎ (LosesSome B.unwritten A.unread A.gave link.new.server link.new.client
        ⊎ CutsFrameOff C.model core.old core.new) }
    ensures unread { result ≡ Err (fault.Lines NotRead) → R.failed reader.new
        ⊎ ((lines : List (List ℕ)) × (2 ^ 64 ≤ length lines + 2) × LoopTransition C.model core.old core.new
        (W.contents writer.old) (W.contents writer.new) (AreLinePasses lines)) }
    ensures unwritten { result ≡ Err (fault.Lines NotWritten) → W.failed writer.new }
{
    let mut buffer = [0; MAX_PIECE];
    serve_lines(alloc, core, link, &mut buffer, reader, writer)?;
    if let Err(error) = core.end(SESSION) {
        return Err(LoopError::Core(error));
    }
    reply(alloc, core, link, &mut buffer, writer)
}

// Serves the lines up to the end of the input.
fn serve_lines<C, A, B, R, W>(
    alloc: Global,
    core: &mut C,
    link: &mut Link<A, B>,
    buffer: &mut [u8],
    reader: &mut R,
    writer: &mut W,
) -> Result<(), LoopError<C::Error>>
where
    C: SessionCore,
    A: TriedRead + TriedWrite + Drop,
    B: TriedRead + TriedWrite + Drop,
    R: LineInput,
    W: LineOutput,
    requires room { length buffer.old ≡ MAX_PIECE }
    ensures reaches { LoopReached C.model core.old core.new (BringsLines (R.remaining reader.old)) }
    ensures refused { (error : C.Error) → result ≡ Err (fault.Core error) → C.refuses core.old core.new error }
    ensures done { OnOk result ((lines : List (List ℕ)) × LoopTransition C.model core.old core.new
        (W.contents writer.old) (W.contents writer.new) (AreLinePasses lines)
        × IfSome (R.remaining reader.old) (SpellsInput lines)) }
    ensures bad { (number : ℕ) → result ≡ Err (fault.BadLine number)
        → (lines : List (List ℕ)) × (length lines + 1 ≡ number) × LoopTransition C.model core.old core.new
        (W.contents writer.old) (W.contents writer.new) (AreLinePasses lines)
        × IfSome (R.remaining reader.old) (SpellsUpToBad lines) }
    ensures fault { IfErr result IsLoopError }
    ensures lost { result ≡ Err fault.Connection
        → LosesSome A.unwritten B.unread B.gave link.new.client link.new.server
        ⊎ (LosesSome B.unwritten A.unread A.gave link.new.server link.new.client
        ⊎ CutsFrameOff C.model core.old core.new) }
    ensures unread { result ≡ Err (fault.Lines NotRead) → R.failed reader.new
        ⊎ ((lines : List (List ℕ)) × (2 ^ 64 ≤ length lines + 2) × LoopTransition C.model core.old core.new
        (W.contents writer.old) (W.contents writer.new) (AreLinePasses lines)) }
    ensures unwritten { result ≡ Err (fault.Lines NotWritten) → W.failed writer.new }
{
    let mut line = Vec::new(alloc);
    for number in 1..u64::MAX {
        if !next_line(reader, &mut line)? {
            return Ok(());
        }
        let Some(bytes) = bytes_of_line(alloc, &line)? else {
            return Err(LoopError::BadLine(number));
        };
        send(core, link, &bytes, buffer)?;
        reply(alloc, core, link, buffer, writer)?;
    }
    Err(LoopError::Lines(LinesError::Read))
}

// Sends bytes from the client's end in pieces, and feeds what arrives at the server's end.
fn send<C, A, B>(
    core: &mut C,
    link: &mut Link<A, B>,
    bytes: &[u8],
    buffer: &mut [u8],
) -> Result<(), LoopError<C::Error>>
where
    C: SessionCore,
    A: TriedRead + TriedWrite + Drop,
    B: TriedRead + TriedWrite + Drop,
    requires room { length buffer.old ≡ MAX_PIECE }
    ensures reaches { LoopReached C.model core.old core.new (BringsFront bytes.now) }
    ensures refused { (error : C.Error) → result ≡ Err (fault.Core error) → C.refuses core.old core.new error }
    ensures done { OnOk result (CoreTransition C.model core.old core.new (Brings bytes.now [])) }
    ensures fault { IfErr result IsSendingError }
    ensures lost { result ≡ Err fault.Connection
        → LosesSome A.unwritten B.unread B.gave link.new.client link.new.server }
{
    let mut rest = bytes;
    while !rest.is_empty() {
        let (piece, after) = rest.split_at(rest.len().min(MAX_PIECE));
        let arrived = link.to_server(piece, buffer)?;
        if let Err(error) = core.feed(SESSION, arrived) {
            return Err(LoopError::Core(error));
        }
        rest = after;
    }
    Ok(())
}

// Flushes, sends the replies back, and writes the frames that arrive as lines.
fn reply<C, A, B, W>(
    alloc: Global,
    core: &mut C,
    link: &mut Link<A, B>,
    buffer: &mut [u8],
    writer: &mut W,
) -> Result<(), LoopError<C::Error>>
where
    C: SessionCore,
    A: TriedRead + TriedWrite + Drop,
    B: TriedRead + TriedWrite + Drop,
    W: LineOutput,
    requires room { length buffer.old ≡ MAX_PIECE }
    ensures reaches { LoopReached C.model core.old core.new (IsPartOf a_flush) }
    ensures refused { (error : C.Error) → result ≡ Err (fault.Core error) → C.refuses core.old core.new error }
    ensures done { OnOk result (LoopTransition C.model core.old core.new (W.contents writer.old) (W.contents writer.new)
        (λ steps. steps ≡ a_flush ∷ [])) }
    // Each reply is flushed.
    ensures flushed { OnOk result (W.was_flushed writer.new) }
    ensures fault { IfErr result IsReplyError }
    ensures lost { result ≡ Err fault.Connection
        → LosesSome B.unwritten A.unread A.gave link.new.server link.new.client
        ⊎ CutsFrameOff C.model core.old core.new }
    ensures unwritten { result ≡ Err (fault.Lines NotWritten) → W.failed writer.new }
{
    if let Err(error) = core.flush() {
        return Err(LoopError::Core(error));
    }
    let output = core.take_output(SESSION);
    let replies = send_back(alloc, link, &output, buffer)?;
    write_frames(alloc, &replies, writer)?;
    Ok(writer.flush_text()?)
}

// Sends bytes from the server's end in pieces, and returns all that arrive at the client's end.
fn send_back<A: TriedRead + TriedWrite + Drop, B: TriedRead + TriedWrite + Drop>(
    alloc: Global,
    link: &mut Link<A, B>,
    bytes: &[u8],
    buffer: &mut [u8],
) -> Result<Vec<u8>, RelayError>
    requires room { length buffer.old ≡ MAX_PIECE }
    ensures arrived { IfOk result (λ arrived. arrived.items ≡ bytes.now) }
    ensures fault { IfErr result IsSendingBackError }
    ensures lost { result ≡ Err relay.Connection
        → LosesSome B.unwritten A.unread A.gave link.new.server link.new.client }
{
    let mut arrived = Vec::with_capacity(alloc, bytes.len())?;
    let mut rest = bytes;
    while !rest.is_empty() {
        let (piece, after) = rest.split_at(rest.len().min(MAX_PIECE));
        arrived.extend_from_slice(link.to_client(piece, buffer)?)?;
        rest = after;
    }
    Ok(arrived)
}
