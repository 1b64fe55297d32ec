//! Opening the entries of proofs with the keys of their keystreams.
ghost use Rattle.std.specs.Prelude.{◌≡◌, ◌⊎◌, ◌<◌, ◌≤◌, Some, None, Err, IsErr, IfOk, IfErr, IfSome, OnOk, OnErr, MatchResult, codes};
ghost use Rattle.std.specs.Io.KnownBytes.{Appends, Keeps};
ghost use Rattle.audit_cli_offline.specs.CommitmentWord.{commitment_in_word};
ghost use Rattle.audit_cli_base.specs.Arguments.{RefusesWords};
ghost use Rattle.audit_cli_store.specs.Checks.{HasOtherKindAt, IsNotAccepted, IsOfOtherKind, IsNoProof, IsFailure};
ghost use Rattle.audit_cli_store.specs.OpenedProofs.{key_in_word, HasWrongWords, OpensProofAt};
ghost use Rattle.audit_cli_store.specs.OpenedProofs.{IsAcceptedEntry, IsAcceptedOther, IsProofOpened, WritesEvent};
ghost use Rattle.audit_cli_base.specs.Faults.{IsNoWordFault};

use crate::checking::{Judged, judged_in};
use audit_chain::KEY_LEN;
use audit_cli_base::{CommandError, commitment_asked};
use audit_cli_offline::{Proof, ReportForm, open_entry, write_opened};
use audit_disk::{SystemFile, SystemFiles};
use audit_proof::{Commitment, MemberProof};
use audit_text::write_whole;
use hex::FromHex;
use std::alloc::Global;
use std::io::{self, Read, Write};

/// The number of bytes from which on a text is bound to its key: for a shorter one, but for the empty text, another key
/// under which the entry reads as another text can be searched for.
pub const BOUND_TEXT: usize = 16;

/// What is asked of a proof whose entry is opened, with the words of the command line as given.
#[derive(Clone, Copy)]
pub struct Opening<'a> {
    /// The file with the membership proof.
    pub proof: &'a str,
    /// The commitment.
    pub commitment: &'a str,
    /// A newer commitment, under which no membership proof is checked: it is refused.
    pub newer: Option<&'a str>,
    /// The key of the entry's keystream, in 64 hex digits.
    pub key: &'a str,
    /// How the event is written.
    pub form: ReportForm,
}

/// Checks a membership proof under a commitment and, if it is accepted, writes the event that its entry reads as under
/// the key of its keystream. It returns the number of the payload's bytes.
///
/// | The bytes are | Result | Written |
/// |---|---|---|
/// | no proof | `BadProof` | nothing |
/// | an incremental proof | `BadArgument` | nothing |
/// | a membership proof for another count, or one that isn't accepted | `NotAccepted` | `not accepted` |
/// | an accepted proof of something that isn't one entry | `BadProof` | nothing |
/// | any other accepted proof | Ok | the event |
///
/// Other errors occur only if reading, writing or memory failed. If the line couldn't be written completely, a prefix
/// of it has been written. A wrong key isn't noticed: the entry then reads as another text.
pub fn open_proof<R: Read, W: Write>(
    alloc: Global,
    reader: &mut R,
    commitment: &Commitment,
    key: &[u8; KEY_LEN],
    form: ReportForm,
    writer: &mut W,
) -> Result<usize, CommandError>
    ensures found { IfSome (R.remaining reader.old) (λ bytes. IsProofOpened form key.now result bytes commitment.now
        (W.contents writer.old) (W.contents writer.new)) }

    // Conversely, the bytes determine the result, unless reading, writing or memory failed.
    ensures accepted { IfSome (R.remaining reader.old) (λ bytes. IsAcceptedEntry bytes commitment.now
        → IfErr result IsFailure) }
    ensures not_accepted { IfSome (R.remaining reader.old) (λ bytes. IsNotAccepted bytes commitment.now None
        → MatchResult result (λ _. ⊥) (λ fault. (fault ≡ CommandError.NotAccepted) ⊎ IsFailure fault)) }
    ensures other_kind { IfSome (R.remaining reader.old) (λ bytes. IsOfOtherKind bytes None
        → MatchResult result (λ _. ⊥) (λ fault. (fault ≡ CommandError.BadArgument) ⊎ IsFailure fault)) }
    ensures no_proof { IfSome (R.remaining reader.old) (λ bytes. IsNoProof bytes ⊎ IsAcceptedOther bytes commitment.now
        → MatchResult result (λ _. ⊥) (λ fault. (fault ≡ CommandError.BadProof) ⊎ IsFailure fault)) }
{
    let Judged { proof, accepted } = judged_in(alloc, reader, commitment, None)?;
    let Proof::Member(member) = proof else {
        return Err(CommandError::BadArgument);
    };
    if !accepted {
        write_whole(writer, b"not accepted\n")?;
        return Err(CommandError::NotAccepted);
    }
    write_event(alloc, &member, key, form, writer)
}

// Writes the event that the entry of an accepted proof reads as under a key, and returns the number of its payload's
// bytes.
fn write_event<W: Write>(
    alloc: Global,
    proof: &MemberProof,
    key: &[u8; KEY_LEN],
    form: ReportForm,
    writer: &mut W,
) -> Result<usize, CommandError>
    ensures { WritesEvent form key.now proof.now.index proof.now.entry.items result (W.contents writer.old)
        (W.contents writer.new) }
{
    let Some(opened) = open_entry(alloc, &proof.entry, key)? else {
        return Err(CommandError::BadProof);
    };
    write_opened(alloc, form, proof.index, &opened, writer)?;
    let payload: &[u8] = &opened.payload;
    Ok(payload.len())
}

/// Opens the entry of the proof in a file. The words are checked before the file is opened. A warning follows if the
/// text isn't bound to its key.
pub(crate) fn open_file<F: SystemFiles, W: Write, M: Write>(
    rt: &F,
    alloc: Global,
    asked: Opening<'_>,
    output: &mut W,
    messages: &mut M,
) -> Result<(), CommandError>
where
    F::File: SystemFile,
    ensures opened { OnOk result (OpensProofAt F.File.facts F.File.remaining asked.entry (W.contents output.old)
        (W.contents output.new)) }
    ensures words { RefusesWords (λ fault. HasWrongWords asked.entry × (fault ≡ CommandError.BadArgument))
        (W.contents output.old) (W.contents output.new) result }
    ensures only { result ≡ Err CommandError.BadArgument → HasWrongWords asked.entry
        ⊎ HasOtherKindAt F.File.facts F.File.remaining asked.entry.proof.now None }
{
    let (commitment, key) = words_asked(asked)?;
    let mut proof = rt.open_to_read(asked.proof)?;
    let size = open_proof(alloc, &mut proof, &commitment, &key, asked.form, output)?;
    end_opening(size, output.flush(), messages)
}

// The commitment and the key in the words. The only error is `BadArgument`.
fn words_asked(asked: Opening<'_>) -> Result<(Commitment, [u8; KEY_LEN]), CommandError>
    ensures wrong { HasWrongWords asked.entry → result ≡ Err CommandError.BadArgument }
    ensures commitment { IfOk result (λ found. commitment_in_word asked.entry.commitment.now ≡ Some found.0) }
    ensures key { IfOk result (λ found. key_in_word asked.entry.key.now ≡ Some found.1) }
    ensures fault { OnErr result (HasWrongWords asked.entry) }
{
    if asked.newer.is_some() {
        return Err(CommandError::BadArgument);
    }
    Ok((commitment_asked(asked.commitment)?, key_asked(asked.key)?))
}

// The key in a word: 64 hex digits in either case. Any other word is `BadArgument`.
fn key_asked(word: &str) -> Result<[u8; KEY_LEN], CommandError>
    ensures key { IfOk result (λ key. key_in_word word.now ≡ Some key) }
    ensures fault { IfErr result (λ fault. (fault ≡ CommandError.BadArgument) × (key_in_word word.now ≡ None)) }
{
    match <[u8; KEY_LEN]>::from_hex(word.as_bytes()) {
        Ok(key) => Ok(key),
        Err(_) => Err(CommandError::BadArgument),
    }
}

// Ends an opening whose output was flushed: warns of a text that isn't bound to its key.
fn end_opening<M: Write>(
    size: usize,
    flushed: io::Result<()>,
    messages: &mut M,
) -> Result<(), CommandError>
    ensures unflushed { IsErr flushed → (result ≡ Err CommandError.File)
        × Keeps (M.contents messages.old) (M.contents messages.new) }
    ensures short { 0 < size → size < BOUND_TEXT → OnOk result (Appends (M.contents messages.old) (M.contents messages.new)
        (codes "audit: a key is not bound to a text of fewer than 16 bytes: another key can show another text\n")) }
    ensures bound { (size ≡ 0) ⊎ (BOUND_TEXT ≤ size) → Keeps (M.contents messages.old) (M.contents messages.new) }
    ensures words { IfErr result IsNoWordFault }
{
    flushed?;
    if size == 0 || size >= BOUND_TEXT {
        return Ok(());
    }
    write_whole(
        messages,
        b"audit: a key is not bound to a text of fewer than 16 bytes: another key can show another text\n",
    )?;
    Ok(())
}
