//! Proofs checked under commitments.
ghost use Rattle.std.specs.Prelude.{◌≡◌, ◌↔◌, None, Err, true, IfOk, IfErr, OnOk};
ghost use Rattle.std.specs.Io.KnownBytes.{Appends};
ghost use Rattle.audit_proof.specs.ProofBytes.{member_of, increment_of};
ghost use Rattle.audit_cli_offline.specs.Judgment.{SpellsProof, IsJudgment};
ghost use Rattle.audit_cli_offline.specs.ProofLines.{judgment_lines};
ghost use Rattle.audit_cli_offline.specs.TwoPasses.{IsLineUnwritten};

use crate::check_form::CheckForm;
use crate::proof_lines::push_proof;
use audit_proof::{
    Commitment, IncrementProof, MemberProof, ProofError, accepts_increment, accepts_member,
    read_increment, read_member,
};
use audit_text::{LinesError, write_whole};
use std::alloc::Global;
use std::io::Write;

/// A proof about a log's history.
#[derive(Drop)]
pub enum Proof {
    /// A membership (inclusion) proof: an entry is one of a log's.
    Member(MemberProof),
    /// An incremental (consistency) proof: a log extends an older one.
    Increment(IncrementProof),
}

/// Decodes a proof. The error is `BadProof` if the bytes encode none.
pub fn read_proof(alloc: Global, bytes: &[u8]) -> Result<Proof, ProofError>
    ensures read { IfOk result (SpellsProof bytes.now) }
    ensures bad { (result ≡ Err ProofError.BadProof)
        ↔ ((member_of bytes.now ≡ None) × (increment_of bytes.now ≡ None)) }
{
    match read_member(alloc, bytes) {
        Ok(proof) => Ok(Proof::Member(proof)),
        Err(ProofError::Memory) => Err(ProofError::Memory),
        Err(ProofError::BadProof) => match read_increment(alloc, bytes) {
            Ok(proof) => Ok(Proof::Increment(proof)),
            Err(fault) => Err(fault),
        },
    }
}

/// Returns whether a proof is accepted: a membership proof under one commitment, an incremental proof under two.
/// `None` for another number of commitments. It takes no memory.
pub fn judge_proof(proof: &Proof, older: &Commitment, newer: Option<Commitment>) -> Option<bool>
    ensures { IsJudgment proof.now older.now newer result }
{
    match (proof, newer) {
        (Proof::Member(member), None) => Some(
            member.count == older.count
                && accepts_member(older, member.index, &member.entry, &member.hashes),
        ),
        (Proof::Increment(increment), Some(newer)) => Some(
            increment.older == older.count
                && increment.newer == newer.count
                && accepts_increment(older, &newer, &increment.hashes),
        ),
        (Proof::Member(_), Some(_)) | (Proof::Increment(_), None) => None,
    }
}

/// Writes a line that says whether a proof is accepted. In the form `Contents` a second line follows for an accepted
/// one: of a membership proof `index`, `count`, `kind` and `bytes`, of an incremental proof `older` and `newer`, each
/// with its number. The kind and the number of the payload's bytes are those that the proof's entry states, or dashes
/// if its bytes aren't one entry.
///
/// Errors: `Memory` if memory was refused for a second line, and then nothing was written; `Write` if a write failed,
/// and then a prefix of the lines was written.
pub fn write_judgment<W: Write>(
    alloc: Global,
    form: CheckForm,
    proof: &Proof,
    accepted: bool,
    writer: &mut W,
) -> Result<(), LinesError>
    ensures written { OnOk result (Appends (W.contents writer.old) (W.contents writer.new)
        (judgment_lines form proof.now accepted)) }
    ensures fault { IfErr result (λ fault. IsLineUnwritten fault (W.contents writer.old) (W.contents writer.new)
        (judgment_lines form proof.now accepted)) }
    ensures memory { (result ≡ Err LinesError.Memory) → (form ≡ CheckForm.Contents) × (accepted ≡ true) }
{
    if !accepted {
        return write_whole(writer, b"not accepted\n");
    }
    match form {
        CheckForm::Judgment => write_whole(writer, b"accepted\n"),
        CheckForm::Contents => write_contents(alloc, proof, writer),
    }
}

// Writes that a proof is accepted, and what it is about.
fn write_contents<W: Write>(alloc: Global, proof: &Proof, writer: &mut W) -> Result<(), LinesError>
    ensures written { OnOk result (Appends (W.contents writer.old) (W.contents writer.new)
        (judgment_lines CheckForm.Contents proof.now true)) }
    ensures fault { IfErr result (λ fault. IsLineUnwritten fault (W.contents writer.old) (W.contents writer.new)
        (judgment_lines CheckForm.Contents proof.now true)) }
{
    let mut lines = Vec::new(alloc);
    lines.extend_from_slice(b"accepted\n")?;
    push_proof(&mut lines, proof)?;
    write_whole(writer, &lines)
}
