//! Requests that are written to a connection, and replies that are read from it.
ghost use Rattle.std.specs.Prelude.{◌≡◌, ◌^◌, ◌<◌, ◌≤◌, ◌⊎◌, ◌∷◌, [], length, take, Some, None};
ghost use Rattle.std.specs.Prelude.{IfOk, IfErr, OnOk, OnErr};
ghost use Rattle.std.specs.Int.{w16, to_be_bytes};
ghost use Rattle.std.specs.Io.KnownBytes.{Appends, Consumes, Keeps};
ghost use Rattle.audit_text.specs.Writing.{WritesInPart};
ghost use Rattle.audit_wire.specs.declared.limits.TheConstants.{LENGTH_BYTES};
ghost use Rattle.audit_wire.specs.Frame.{frame};
ghost use Rattle.audit_wire.specs.Request.{IsDaemonRequest};
ghost use Rattle.audit_wire.specs.Stream.{request_frame};
ghost use Rattle.audit_wire.specs.View.{request_shown};
ghost use Rattle.audit_wire_ask.specs.declared.fault.ClientError.TheVariants.{BadReply};
ghost use Rattle.audit_wire_ask.specs.Conversation.{ReadsReply, ReadsPart, ReadsFewer, Converses};
ghost use Rattle.audit_wire_ask.specs.Exporting.{WritesFront};
ghost use Rattle.audit_wire_ask.specs.Failing.{IsLost, FailsToRead, Exchanges, IsUnanswered};

use crate::fault::ClientError;
use audit_wire::{LENGTH_BYTES, Reply, ReplyError, RequestView, read_reply, write_request};
use std::alloc::Global;
use std::io::{Error, ErrorKind, Read, Write};

/// Writes a request to a connection, and reads the next frame as its reply. The reply isn't judged here.
#[tactic(auto, using(crate::proofs::Conversations::converses_once))]
pub fn ask<W: Write, R: Read>(
    alloc: Global,
    to: &mut W,
    from: &mut R,
    request: RequestView<'_>,
) -> Result<Reply, ClientError>
    requires { IsDaemonRequest (request_shown request) }
    ensures done { IfOk result (λ given. Converses (W.contents to.old) (W.contents to.new)
        (R.remaining from.old) (R.remaining from.new) (request_shown request.entry ∷ []) (given ∷ [])) }
    ensures heard { IfOk result (λ given. Exchanges (W.contents to.old) (W.contents to.new)
        (R.remaining from.old) (R.remaining from.new) (request_shown request.entry ∷ []) [] (Some given)) }
    ensures fault { IfErr result (λ error. IsUnanswered (W.contents to.old) (W.contents to.new)
        (R.remaining from.old) (R.remaining from.new) (request_shown request.entry ∷ []) [] error
        ⊎ ((error ≡ BadReply) × Exchanges (W.contents to.old) (W.contents to.new) (R.remaining from.old)
        (R.remaining from.new) (request_shown request.entry ∷ []) [] None)) }
{
    send_request(alloc, to, request)?;
    let mut body = Vec::new(alloc);
    let given = next_reply(alloc, from, &mut body)?;
    Ok(given)
}

// Writes the frame of a request to a connection.
fn send_request<W: Write>(
    alloc: Global,
    to: &mut W,
    request: RequestView<'_>,
) -> Result<(), ClientError>
    requires { IsDaemonRequest (request_shown request) }
    ensures sent { OnOk result (Appends (W.contents to.old) (W.contents to.new)
        (request_frame (request_shown request.entry))) }
    ensures part { OnErr result (WritesInPart (W.contents to.old) (W.contents to.new)
        (request_frame (request_shown request.entry))) }
    ensures fault { IfErr result IsLost }
{
    let mut frame = Vec::new(alloc);
    write_request(request, &mut frame)?;
    send_bytes(to, &frame)
}

/// Writes all bytes to a connection. After an error a prefix of them was written.
pub fn send_bytes<W: Write>(to: &mut W, bytes: &[u8]) -> Result<(), ClientError>
    ensures sent { OnOk result (Appends (W.contents to.old) (W.contents to.new) bytes.now) }
    ensures part { OnErr result (WritesInPart (W.contents to.old) (W.contents to.new) bytes.now) }
    ensures fault { IfErr result IsLost }
{
    send_rest(to, bytes)?;
    match to.flush() {
        Ok(()) => Ok(()),
        Err(error) => Err(fault_of(&error)),
    }
}

// Writes all bytes. After an error a prefix of them was written, and not all.
pub(crate) fn send_rest<W: Write>(to: &mut W, bytes: &[u8]) -> Result<(), ClientError>
    ensures sent { OnOk result (Appends (W.contents to.old) (W.contents to.new) bytes.now) }
    ensures part { OnErr result (WritesFront (W.contents to.old) (W.contents to.new) bytes.now) }
    ensures fault { IfErr result IsLost }
{
    if bytes.is_empty() {
        return Ok(());
    }
    let mut rest = bytes;
    for _ in 0..u64::MAX {
        let written = send_once(to, rest)?;
        let (_, left) = rest.split_at(written);
        rest = left;
        if rest.is_empty() {
            return Ok(());
        }
    }
    Err(ClientError::Ended)
}

// Writes once. An interrupted write counts as no bytes, so the caller tries again.
fn send_once<W: Write>(to: &mut W, bytes: &[u8]) -> Result<usize, ClientError>
    ensures within { IfOk result (λ written. written ≤ length bytes.now) }
    ensures written { IfOk result (λ written. Appends (W.contents to.old) (W.contents to.new)
        (take written bytes.now)) }
    ensures kept { OnErr result (Keeps (W.contents to.old) (W.contents to.new)) }
    ensures fault { IfErr result IsLost }
{
    match to.write(bytes) {
        Ok(0) => Err(ClientError::Ended),
        Ok(written) => Ok(written),
        Err(error) => {
            if error.kind() == ErrorKind::Interrupted {
                Ok(0)
            } else {
                Err(fault_of(&error))
            }
        }
    }
}

/// Reads the next frame of a connection as a reply. The buffer holds its body; its old content is dropped.
pub fn next_reply<R: Read>(
    alloc: Global,
    from: &mut R,
    body: &mut Vec<u8>,
) -> Result<Reply, ClientError>
    ensures read { IfOk result (ReadsReply (R.remaining from.old) (R.remaining from.new)) }
    ensures fault { IfErr result (FailsToRead (R.remaining from.old) (R.remaining from.new)) }
{
    read_body(from, body)?;
    match read_reply(alloc, body) {
        Ok(given) => Ok(given),
        Err(ReplyError::Malformed) => Err(ClientError::BadReply),
        Err(ReplyError::Memory) => Err(ClientError::Memory),
    }
}

// Reads the next frame, and leaves its body in the buffer.
#[tactic(auto, using(crate::proofs::Conversations::frame_read))]
fn read_body<R: Read>(from: &mut R, body: &mut Vec<u8>) -> Result<(), ClientError>
    ensures read { OnOk result (Consumes (R.remaining from.old) (R.remaining from.new) (frame body.new.items)) }
    ensures fault { IfErr result (λ error. IsLost error × ReadsPart (R.remaining from.old) (R.remaining from.new)) }
{
    let size = read_size(from)?;
    read_sized(from, body, size as usize)
}

// Reads the length field of a frame.
fn read_size<R: Read>(from: &mut R) -> Result<u16, ClientError>
    ensures read { IfOk result (λ size. Consumes (R.remaining from.old) (R.remaining from.new)
        (to_be_bytes w16 size)) }
    ensures fault { IfErr result (λ error. IsLost error
        × ReadsFewer (R.remaining from.old) (R.remaining from.new) LENGTH_BYTES) }
{
    let mut size = [0; LENGTH_BYTES];
    receive(from, &mut size)?;
    Ok(size_in(&size))
}

fn size_in(field: &[u8]) -> u16
    requires { length field.now ≡ LENGTH_BYTES }
    ensures { to_be_bytes w16 result ≡ field.now }
{
    u16::from_be_bytes([field[0], field[1]])
}

// Reads as many bytes, which replace the content of the buffer.
fn read_sized<R: Read>(from: &mut R, body: &mut Vec<u8>, size: usize) -> Result<(), ClientError>
    ensures read { OnOk result (Consumes (R.remaining from.old) (R.remaining from.new) body.new.items) }
    ensures size { OnOk result (length body.new.items ≡ size) }
    ensures fault { IfErr result (λ error. IsLost error
        × ReadsFewer (R.remaining from.old) (R.remaining from.new) size) }
{
    body.clear();
    if size == 0 {
        return Ok(());
    }
    body.resize(size, 0)?;
    receive(from, body)
}

// Reads as many bytes as the buffer has.
fn receive<R: Read>(from: &mut R, buffer: &mut [u8]) -> Result<(), ClientError>
    ensures read { OnOk result (Consumes (R.remaining from.old) (R.remaining from.new) buffer.new) }
    ensures fault { IfErr result (λ error. IsLost error
        × ReadsFewer (R.remaining from.old) (R.remaining from.new) (length buffer.old)) }
{
    if buffer.is_empty() {
        return Ok(());
    }
    let mut filled = 0;
    for _ in 0..u64::MAX {
        let read = receive_once(from, &mut buffer[filled..])?;
        filled += read;
        if filled == buffer.len() {
            return Ok(());
        }
    }
    Err(ClientError::Ended)
}

// Reads once. An interrupted read counts as no bytes, so the caller tries again.
fn receive_once<R: Read>(from: &mut R, buffer: &mut [u8]) -> Result<usize, ClientError>
    ensures within { IfOk result (λ read. read ≤ length buffer.new) }
    ensures read { IfOk result (λ read. Consumes (R.remaining from.old) (R.remaining from.new)
        (take read buffer.new)) }
    ensures kept { OnErr result (Keeps (R.remaining from.old) (R.remaining from.new)) }
    ensures fault { IfErr result IsLost }
{
    match from.read(buffer) {
        Ok(0) => Err(ClientError::Ended),
        Ok(read) => Ok(read),
        Err(error) => {
            if error.kind() == ErrorKind::Interrupted {
                Ok(0)
            } else {
                Err(fault_of(&error))
            }
        }
    }
}

// A socket whose time is over answers with one of two errors.
fn fault_of(error: &Error) -> ClientError
    ensures { IsLost result }
{
    match error.kind() {
        ErrorKind::WouldBlock | ErrorKind::TimedOut => ClientError::TimedOut,
        ErrorKind::OutOfMemory => ClientError::Memory,
        _ => ClientError::Ended,
    }
}
