//! Proofs, checked under commitments.
ghost use Rattle.std.specs.Prelude.{◌≡◌, ◌↔◌, IsTrue};
ghost use Rattle.audit_proof.specs.ProofBytes.{member_of, increment_of};
ghost use Rattle.audit_c.specs.Given.{given};
ghost use Rattle.audit_c.specs.Judged.{IsProofAnswer, ProvesEntry, ProvesExtension, member_shown, increment_shown};

use crate::answers::{BAD_PROOF, NOT_ACCEPTED, OK};
use crate::commitment::{GivenCommitment, commitment_of};
use crate::proof_views::{IncrementView, MemberView, increment_view, member_view};
use audit_proof::{Commitment, accepts_increment, accepts_member};

/// Checks the bytes of an inclusion proof under a commitment, as `audit check` does. Returns `OK` if it is of the
/// commitment's count and accepted, `NOT_ACCEPTED` if not, and `BAD_PROOF` if the bytes are no inclusion proof.
#[unsafe(no_mangle)]
pub extern "C" fn audit_store_check_inclusion(proof: &[u8], commitment: &GivenCommitment) -> u32
    ensures { IsProofAnswer (λ read. ProvesEntry read (given commitment.now)) (member_of proof.now) result }
{
    match member_view(proof) {
        Some(view) => judged(proves_entry(view, &commitment_of(commitment))),
        None => BAD_PROOF,
    }
}

/// Checks the bytes of a consistency proof under an older and a newer commitment, with the same answers.
#[unsafe(no_mangle)]
pub extern "C" fn audit_store_check_consistency(
    proof: &[u8],
    older: &GivenCommitment,
    newer: &GivenCommitment,
) -> u32
    ensures { IsProofAnswer (λ read. ProvesExtension read (given older.now) (given newer.now))
        (increment_of proof.now) result }
{
    match increment_view(proof) {
        Some(view) => judged(proves_extension(view, &commitment_of(older), &commitment_of(newer))),
        None => BAD_PROOF,
    }
}

/// Whether a proof is of the commitment's count, and accepted.
pub(crate) fn proves_entry(view: MemberView<'_>, commitment: &Commitment) -> bool
    ensures { IsTrue result ↔ ProvesEntry (member_shown view.entry) commitment.now }
{
    view.count == commitment.count
        && accepts_member(commitment, view.index, view.entry, view.hashes)
}

fn proves_extension(view: IncrementView<'_>, older: &Commitment, newer: &Commitment) -> bool
    ensures { IsTrue result ↔ ProvesExtension (increment_shown view.entry) older.now newer.now }
{
    view.older == older.count
        && view.newer == newer.count
        && accepts_increment(older, newer, view.hashes)
}

fn judged(accepted: bool) -> u32
    ensures ok { (result ≡ OK) ↔ IsTrue accepted }
    ensures other { (result ≡ NOT_ACCEPTED) ↔ ¬ IsTrue accepted }
{
    if accepted { OK } else { NOT_ACCEPTED }
}
