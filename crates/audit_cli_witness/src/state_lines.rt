//! The lines at the end of a witness's file: a commitment each, the newest last.
ghost use Rattle.std.specs.Prelude.{◌≡◌, ◌⊎◌, ◌<◌, ◌+◌, ◌++◌, length, codes, true, false, None, IfOk, IfErr, OnOk};
ghost use Rattle.audit_cli_offline.specs.CommitmentWord.{commitment_in_word};
ghost use Rattle.audit_cli_connection.specs.Faults.{no_memory};
ghost use Rattle.audit_cli_witness.specs.State.{ReadsTail, ReadsLastLine, IsTorn, with_colon};
ghost use Rattle.audit_cli_witness.specs.State.{commitment_word, line_after};
ghost use Rattle.audit_cli_witness.specs.StateFaults.{HasLineCause};

use audit_cli_connection::RemoteError;
use audit_cli_offline::commitment_in_word;
use audit_proof::Commitment;
use audit_text::{push_hex, push_number, split_at_first};
use std::alloc::{AllocError, Global};

// The hex digits of a root.
const ROOT_DIGITS: usize = 64;

/// What the end of a witness's file holds.
#[derive(Drop)]
pub struct Tail {
    /// The commitments of its lines.
    pub kept: Vec<Commitment>,
    /// How many bytes at the end are the beginning of a line that a stop cut off. Nothing was printed for it.
    pub torn: usize,
    /// Whether the last line lacks its line feed.
    pub lacks_feed: bool,
}

/// Reads the end of a witness's file, from the start of a line on. The first line that isn't one of a witness is
/// `BadStateLine`, with its number in this text; only the last may be cut off.
pub fn tail_in(alloc: Global, text: &[u8]) -> Result<Tail, RemoteError>
    ensures read { IfOk result (ReadsTail text.now) }
    ensures bad { IfErr result (HasLineCause text.now) }
{
    let mut kept = Vec::new(alloc);
    let mut rest = text;
    while !rest.is_empty() {
        let (line, after) = split_at_first(rest, b'\n');
        if line.len() == rest.len() {
            return last_in(alloc, kept, line);
        }
        let Some(commitment) = commitment_in_word(line) else {
            return Err(RemoteError::BadStateLine(kept.len() as u64 + 1));
        };
        kept.push(commitment)?;
        rest = after;
    }
    Ok(Tail {
        kept,
        torn: 0,
        lacks_feed: false,
    })
}

// Reads a last line without a line feed, after those of which the commitments are kept.
fn last_in(alloc: Global, kept: Vec<Commitment>, line: &[u8]) -> Result<Tail, RemoteError>
    ensures read { IfOk result (ReadsLastLine kept.items line.now) }
    ensures bad { IfErr result (λ fault. (fault ≡ no_memory)
        ⊎ ((fault ≡ RemoteError.BadStateLine (length kept.items + 1)) × (commitment_in_word line.now ≡ None)
        × (0 < length line.now → IsTorn line.now → ⊥))) }
{
    let mut kept = kept;
    if let Some(last) = commitment_in_word(line) {
        kept.push(last)?;
        return Ok(Tail {
            kept,
            torn: 0,
            lacks_feed: true,
        });
    }
    if !is_torn(alloc, line)? {
        return Err(RemoteError::BadStateLine(kept.len() as u64 + 1));
    }
    Ok(Tail {
        kept,
        torn: line.len(),
        lacks_feed: false,
    })
}

// Whether bytes are the beginning of a line: zeros in place of the digits that they lack make them one.
fn is_torn(alloc: Global, part: &[u8]) -> Result<bool, AllocError>
    ensures torn { IfOk result (λ torn. torn ≡ true → IsTorn part.now) }
    ensures other { IfOk result (λ torn. torn ≡ false → 0 < length part.now → IsTorn part.now → ⊥) }
{
    let (_, root) = split_at_first(part, b':');
    let mut line = with_colon(alloc, part)?;
    for digits in root.len()..ROOT_DIGITS {
        line.push(b'0')?;
    }
    Ok(commitment_in_word(&line).is_some())
}

// The bytes, and a colon if they have none.
fn with_colon(alloc: Global, part: &[u8]) -> Result<Vec<u8>, AllocError>
    ensures { IfOk result (λ line. line.items ≡ with_colon part.now) }
{
    let (count, _) = split_at_first(part, b':');
    let mut line = Vec::from_slice(alloc, part)?;
    if count.len() == part.len() {
        line.push(b':')?;
    }
    Ok(line)
}

/// The bytes that add the line of a commitment to a file, whose last line may lack its line feed.
pub fn line_after(alloc: Global, lacks_feed: bool, seen: &Commitment) -> Result<Vec<u8>, AllocError>
    ensures { IfOk result (λ line. line.items ≡ line_after lacks_feed seen.now) }
{
    let mut line = Vec::new(alloc);
    if lacks_feed {
        line.push(b'\n')?;
    }
    push_commitment_line(&mut line, seen)?;
    Ok(line)
}

/// Appends a commitment as COUNT:ROOT, and a line feed.
pub fn push_commitment_line(line: &mut Vec<u8>, seen: &Commitment) -> Result<(), AllocError>
    ensures { OnOk result (line.new.items ≡ line.old.items ++ commitment_word seen.now ++ codes "\n") }
{
    push_commitment(line, seen)?;
    line.extend_from_slice(b"\n")
}

/// Appends a commitment as COUNT:ROOT.
pub fn push_commitment(line: &mut Vec<u8>, seen: &Commitment) -> Result<(), AllocError>
    ensures { OnOk result (line.new.items ≡ line.old.items ++ commitment_word seen.now) }
{
    push_number(line, b"", seen.count)?;
    line.extend_from_slice(b":")?;
    push_hex(line, &seen.root)
}
