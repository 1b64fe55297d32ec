ghost use Rattle.std.specs.Prelude.{◌≡◌, ◌≤◌, ◌↔◌, Some, None, vec_len, IfOk};
ghost use Rattle.audit_proof.specs.ProofBytes.{member_in, member_bytes, member_of, increment_in, increment_bytes};
ghost use Rattle.audit_proof.specs.ProofBytes.{increment_of};

use crate::bytes::{HEAD_LEN, INCREMENT_MARK, MEMBER_MARK, read_head, write_proof};
use crate::increment_proof::IncrementProof;
use crate::member_proof::MemberProof;
use audit_base::{HASH_LEN, MAX_ENTRY, MAX_INCREMENT_HASHES, MAX_MEMBER_HASHES, read_hashes};
use std::alloc::{AllocError, Global};
use thiserror::Error;

/// Why bytes couldn't be decoded as a proof.
#[derive(Clone, Copy, Debug, PartialEq, Eq, Error)]
pub enum ProofError {
    /// The bytes aren't the encoding of a proof.
    #[error("the bytes are not a proof")]
    BadProof,
    /// Memory was refused.
    #[error("out of memory")]
    Memory,
}

impl From<AllocError> for ProofError {
    ghost use Rattle.std.specs.Prelude.{◌≡◌};
    ghost use Rattle.audit_proof.specs.declared.codec.ProofError.TheVariants.{Memory};

    ghost from_gives = { λ _ fault. fault ≡ Memory };

    fn from(_: AllocError) -> Self {
        ProofError::Memory
    }
}

/// Encodes a membership proof of at most `MAX_MEMBER_HASHES` hashes and an entry of at most `MAX_ENTRY` bytes. The
/// only error is that memory is refused.
pub fn write_member(alloc: Global, proof: &MemberProof) -> Result<Vec<u8>, AllocError>
    requires few { vec_len proof.now.hashes ≤ MAX_MEMBER_HASHES }
    requires short { vec_len proof.now.entry ≤ MAX_ENTRY }
    ensures ok { IfOk result (λ bytes. bytes.items ≡ member_bytes (member_in proof.now)) }

    // Decoding gives this proof back.
    ensures read { member_of (member_bytes (member_in proof.now)) ≡ Some (member_in proof.now) }
{
    write_proof(
        alloc,
        MEMBER_MARK,
        proof.index,
        proof.count,
        &proof.hashes,
        &proof.entry,
    )
}

/// Decodes a membership proof. The index and the count aren't checked here: acceptance checks them. Bytes that encode
/// no proof are refused as `BadProof` before any memory is requested.
pub fn read_member(alloc: Global, bytes: &[u8]) -> Result<MemberProof, ProofError>
    ensures bad { (result ≡ Err ProofError.BadProof) ↔ (member_of bytes.now ≡ None) }
    ensures ok { IfOk result (λ proof. member_of bytes.now ≡ Some (member_in proof)) }

    // The bytes are the encoding of the decoded proof.
    ensures written { IfOk result (λ proof. bytes.now ≡ member_bytes (member_in proof)) }
{
    let Some(head) = read_head(MEMBER_MARK, bytes) else {
        return Err(ProofError::BadProof);
    };
    if MAX_MEMBER_HASHES < head.number {
        return Err(ProofError::BadProof);
    }
    let body = &bytes[HEAD_LEN..];
    let length = HASH_LEN * head.number;
    if body.len() < length || length + MAX_ENTRY < body.len() {
        return Err(ProofError::BadProof);
    }
    let hashes = read_hashes(alloc, body, head.number)?;
    let entry = Vec::from_slice(alloc, &body[length..])?;
    Ok(MemberProof {
        index: head.first,
        count: head.second,
        hashes,
        entry,
    })
}

/// Encodes an incremental proof of at most `MAX_INCREMENT_HASHES` hashes. The only error is that memory is refused.
pub fn write_increment(alloc: Global, proof: &IncrementProof) -> Result<Vec<u8>, AllocError>
    requires { vec_len proof.now.hashes ≤ MAX_INCREMENT_HASHES }
    ensures ok { IfOk result (λ bytes. bytes.items ≡ increment_bytes (increment_in proof.now)) }

    // Decoding gives this proof back.
    ensures read { increment_of (increment_bytes (increment_in proof.now)) ≡ Some (increment_in proof.now) }
{
    write_proof(
        alloc,
        INCREMENT_MARK,
        proof.older,
        proof.newer,
        &proof.hashes,
        &[],
    )
}

/// Decodes an incremental proof. The counts aren't checked here: acceptance checks them. Bytes that encode no proof
/// are refused as `BadProof` before any memory is requested.
pub fn read_increment(alloc: Global, bytes: &[u8]) -> Result<IncrementProof, ProofError>
    ensures bad { (result ≡ Err ProofError.BadProof) ↔ (increment_of bytes.now ≡ None) }
    ensures ok { IfOk result (λ proof. increment_of bytes.now ≡ Some (increment_in proof)) }

    // The bytes are the encoding of the decoded proof.
    ensures written { IfOk result (λ proof. bytes.now ≡ increment_bytes (increment_in proof)) }
{
    let Some(head) = read_head(INCREMENT_MARK, bytes) else {
        return Err(ProofError::BadProof);
    };
    if MAX_INCREMENT_HASHES < head.number {
        return Err(ProofError::BadProof);
    }
    let body = &bytes[HEAD_LEN..];
    if body.len() != HASH_LEN * head.number {
        return Err(ProofError::BadProof);
    }
    let hashes = read_hashes(alloc, body, head.number)?;
    Ok(IncrementProof {
        older: head.first,
        newer: head.second,
        hashes,
    })
}
