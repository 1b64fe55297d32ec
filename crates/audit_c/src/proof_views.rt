//! Proofs in the bytes that encode them. Nothing is copied.
ghost use Rattle.std.specs.Prelude.{◌≡◌, ◌*◌, ◌≤◌, length, option_map};
ghost use Rattle.audit_base.specs.Hashes.{first_hashes};
ghost use Rattle.audit_proof.specs.ProofBytes.{member_of, increment_of};
ghost use Rattle.audit_c.specs.Judged.{member_shown, increment_shown};

use audit_base::{HASH_LEN, Hash, MAX_ENTRY, MAX_INCREMENT_HASHES, MAX_MEMBER_HASHES, u64_at};

// The first byte of an inclusion and of a consistency proof.
const MEMBER_MARK: u8 = 1;

const INCREMENT_MARK: u8 = 2;

// The mark, two numbers, and the number of hashes in one byte.
const HEAD_LEN: usize = 18;

/// An inclusion proof.
#[derive(Clone, Copy)]
pub(crate) struct MemberView<'a> {
    pub index: u64,
    pub count: u64,
    pub hashes: &'a [Hash],
    pub entry: &'a [u8],
}

/// A consistency proof.
#[derive(Clone, Copy)]
pub(crate) struct IncrementView<'a> {
    pub older: u64,
    pub newer: u64,
    pub hashes: &'a [Hash],
}

/// The inclusion proof that these bytes encode, if they do.
#[tactic(auto, unfolding(audit_proof::specs::ProofBytes::head_of, audit_proof::specs::ProofBytes::number_in))]
pub(crate) fn member_view(bytes: &[u8]) -> Option<MemberView<'_>>
    ensures { option_map member_shown result ≡ member_of bytes.now }
{
    if bytes.len() < HEAD_LEN || bytes[0] != MEMBER_MARK {
        return None;
    }
    let number = bytes[17] as usize;
    let (_, body) = bytes.split_at(HEAD_LEN);
    if MAX_MEMBER_HASHES < number || body.len() < HASH_LEN * number {
        return None;
    }
    let (_, entry) = body.split_at(HASH_LEN * number);
    if MAX_ENTRY < entry.len() {
        return None;
    }
    Some(MemberView {
        index: u64_at(bytes, 1),
        count: u64_at(bytes, 9),
        hashes: hashes_at_front(body, number),
        entry,
    })
}

/// The consistency proof that these bytes encode, if they do.
#[tactic(auto, unfolding(audit_proof::specs::ProofBytes::head_of, audit_proof::specs::ProofBytes::number_in))]
pub(crate) fn increment_view(bytes: &[u8]) -> Option<IncrementView<'_>>
    ensures { option_map increment_shown result ≡ increment_of bytes.now }
{
    if bytes.len() < HEAD_LEN || bytes[0] != INCREMENT_MARK {
        return None;
    }
    let number = bytes[17] as usize;
    let (_, body) = bytes.split_at(HEAD_LEN);
    if MAX_INCREMENT_HASHES < number || body.len() != HASH_LEN * number {
        return None;
    }
    Some(IncrementView {
        older: u64_at(bytes, 1),
        newer: u64_at(bytes, 9),
        hashes: hashes_at_front(body, number),
    })
}

// The first hashes of these bytes.
fn hashes_at_front(bytes: &[u8], number: usize) -> &[Hash]
    requires { HASH_LEN * number ≤ length bytes.now }
    ensures { result.now ≡ first_hashes number bytes.now }
{
    let (rows, _) = bytes.as_chunks::<HASH_LEN>();
    &rows[..number]
}
