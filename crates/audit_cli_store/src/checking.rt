//! Checking proofs in files against commitments.
ghost use Rattle.std.specs.Prelude.{◌≡◌, ◌⊎◌, ℕ, List, IfOk, IfErr, IfSome, MatchResult};
ghost use Rattle.audit_cli_offline.specs.Judgment.{SpellsProof};
ghost use Rattle.audit_cli_store.specs.Checks.{IsAccepted, IsNotAccepted, IsOfOtherKind, IsNoProof, IsUnread};
ghost use Rattle.audit_cli_store.specs.Checks.{IsProofJudged, IsReadAndJudged, IsChecked, IsFailure};

use audit_cli_base::CommandError;
use audit_cli_offline::{CheckForm, Proof, judge_proof, read_proof, write_judgment};
use audit_proof::Commitment;
use audit_text::{LinesError, read_input};
use std::alloc::Global;
use std::io::{Read, Write};

// A proof, and whether it is accepted.
#[derive(Drop)]
pub(crate) struct Judged {
    pub(crate) proof: Proof,
    pub(crate) accepted: bool,
}

/// Checks a proof against one commitment or two, and writes whether it is accepted. In the form `Contents` a second
/// line has what an accepted proof is about, as `write_judgment` says.
///
/// | The bytes are | Result | Written |
/// |---|---|---|
/// | no proof | `BadProof` | nothing |
/// | a membership proof with two commitments, or an incremental proof with one | `BadArgument` | nothing |
/// | a proof for other counts than the commitments', or one that isn't accepted | `NotAccepted` | `not accepted` |
/// | any other proof | Ok | `accepted` |
///
/// Other errors occur only if reading, writing or memory failed. If the lines couldn't be written completely, a prefix
/// of those that were due has been written.
pub fn check_proof<R: Read, W: Write>(
    alloc: Global,
    reader: &mut R,
    older: &Commitment,
    newer: Option<Commitment>,
    form: CheckForm,
    writer: &mut W,
) -> Result<(), CommandError>
    ensures found { IfSome (R.remaining reader.old) (λ bytes. IsChecked form result bytes older.now newer
        (W.contents writer.old) (W.contents writer.new)) }

    // Conversely, the bytes determine the result, unless reading, writing or memory failed.
    ensures accepted { IfSome (R.remaining reader.old) (λ bytes. IsAccepted bytes older.now newer
        → IfErr result IsFailure) }
    ensures not_accepted { IfSome (R.remaining reader.old) (λ bytes. IsNotAccepted bytes older.now newer
        → MatchResult result (λ _. ⊥) (λ fault. (fault ≡ CommandError.NotAccepted) ⊎ IsFailure fault)) }
    ensures other_kind { IfSome (R.remaining reader.old) (λ bytes. IsOfOtherKind bytes newer
        → MatchResult result (λ _. ⊥) (λ fault. (fault ≡ CommandError.BadArgument) ⊎ IsFailure fault)) }
    ensures no_proof { IfSome (R.remaining reader.old) (λ bytes. IsNoProof bytes
        → MatchResult result (λ _. ⊥) (λ fault. (fault ≡ CommandError.BadProof) ⊎ IsFailure fault)) }
{
    let judged = judged_in(alloc, reader, older, newer)?;
    write_judgment(alloc, form, &judged.proof, judged.accepted, writer)?;
    if judged.accepted {
        Ok(())
    } else {
        Err(CommandError::NotAccepted)
    }
}

// The proof in a file, and whether it is accepted.
pub(crate) fn judged_in<R: Read>(
    alloc: Global,
    reader: &mut R,
    older: &Commitment,
    newer: Option<Commitment>,
) -> Result<Judged, CommandError>
    ensures { IfSome (R.remaining reader.old) (λ bytes. IsReadAndJudged result bytes older.now newer) }
{
    let proof = proof_in(alloc, reader)?;
    let accepted = is_accepted(&proof, older, newer)?;
    Ok(Judged { proof, accepted })
}

// Whether a proof is accepted.
fn is_accepted(
    proof: &Proof,
    older: &Commitment,
    newer: Option<Commitment>,
) -> Result<bool, CommandError>
    ensures { (bytes : List ℕ) → SpellsProof bytes proof.now → IsProofJudged result bytes older.now newer }
{
    match judge_proof(proof, older, newer) {
        Some(accepted) => Ok(accepted),
        None => Err(CommandError::BadArgument),
    }
}

// The proof in a file, which contains nothing else. An input that is too long is no proof.
fn proof_in<R: Read>(alloc: Global, reader: &mut R) -> Result<Proof, CommandError>
    ensures spelled { IfOk result (λ proof. IfSome (R.remaining reader.old) (λ bytes. SpellsProof bytes proof)) }
    ensures unread { IfErr result (λ fault. IfSome (R.remaining reader.old) (λ bytes. IsUnread fault bytes)) }
{
    match read_input(alloc, reader) {
        Ok(bytes) => Ok(read_proof(alloc, &bytes)?),
        Err(LinesError::InputTooLong) => Err(CommandError::BadProof),
        Err(fault) => Err(CommandError::Lines(fault)),
    }
}
