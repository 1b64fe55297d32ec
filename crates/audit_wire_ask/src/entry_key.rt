//! The lines that are kept of the keys of events' entries.
ghost use Rattle.std.specs.Prelude.{◌≡◌, ◌⊎◌, OnOk, OnErr, IfErr};
ghost use Rattle.std.specs.Io.KnownBytes.{Appends};
ghost use Rattle.audit_text.specs.Writing.{WritesInPart};
ghost use Rattle.audit_wire_ask.specs.EntryKeys.{key_line, log_line, key_kept};

use crate::answering::print_line;
use crate::fault::ClientError;
use crate::key_lines::KeyLines;
use crate::send_error::SendError;
use audit_base::Hash;
use audit_proof::Commitment;
use audit_text::{push_hex, push_number};
use audit_wire::Reply;
use std::alloc::AllocError;

/// Replaces the buffer's contents with `log` and a commitment. It precedes the keys of a log.
#[tactic(auto, unfolding(crate::specs::EntryKeys::log_line))]
pub(crate) fn put_log(line: &mut Vec<u8>, newest: &Commitment) -> Result<(), AllocError>
    ensures { OnOk result (line.new.items ≡ log_line newest.now) }
{
    line.clear();
    push_number(line, b"log ", newest.count)?;
    line.extend_from_slice(b":")?;
    push_hex(line, &newest.root)?;
    line.extend_from_slice(b"\n")
}

// Replaces the buffer's contents with `key`, the index of an event and the key of its entry.
#[tactic(auto, unfolding(crate::specs::EntryKeys::key_line))]
fn put_key(line: &mut Vec<u8>, index: u64, key: &Hash) -> Result<(), AllocError>
    ensures { OnOk result (line.new.items ≡ key_line index key.now) }
{
    line.clear();
    push_number(line, b"key ", index)?;
    line.extend_from_slice(b" ")?;
    push_hex(line, key)?;
    line.extend_from_slice(b"\n")
}

/// Keeps the line of the key in a reply, if it has one.
pub(crate) fn keep_key<K: KeyLines>(
    keys: &mut K,
    line: &mut Vec<u8>,
    given: &Reply,
) -> Result<(), SendError>
    ensures kept { OnOk result (Appends (K.contents keys.old) (K.contents keys.new) (key_kept given.now)) }
    ensures part { OnErr result (WritesInPart (K.contents keys.old) (K.contents keys.new) (key_kept given.now)) }
    ensures fault { IfErr result (λ error. (error ≡ SendError.Client ClientError.Memory)
        ⊎ ((error ≡ SendError.Keys) × K.failed keys.new)) }
{
    let Reply::Placed { index, key, .. } = given else {
        return Ok(());
    };
    if !keys.are_kept() {
        return Ok(());
    }
    if put_key(line, *index, key).is_err() {
        return Err(SendError::Client(ClientError::Memory));
    }
    match print_line(keys, line) {
        Ok(()) => Ok(()),
        Err(_) => Err(SendError::Keys),
    }
}
