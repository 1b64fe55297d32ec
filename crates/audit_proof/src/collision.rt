ghost use Rattle.std.specs.Prelude.{◌≡◌, ◌≢◌, ◌↔◌, ◌∷◌, IsTrue, IfOk};
ghost use Rattle.sha2.specs.Sha256.{sha256};
ghost use Rattle.audit_tree.specs.Subtree.{leaf_of};
ghost use Rattle.audit_proof.specs.Acceptance.{AcceptsLeaf, AcceptsBoth};
ghost use Rattle.audit_proof.specs.Collision.{IsCollision};

use crate::accept::accepts_leaf;
use crate::climb::Way;
use crate::commitment::Commitment;
use crate::laws::{Sha256Texts, TextHash};
use crate::meeting::{LeafBranch, Meeting, meet_leaves};
use audit_base::{Hash, are_equal};
use audit_tree::{LEAF_MARK, depth_of, leaf_hash};
use std::alloc::{AllocError, Global};
use thiserror::Error;

/// Two different texts with one hash.
#[derive(Debug, Drop)]
pub struct Collision {
    /// One text.
    pub left: Vec<u8>,
    /// The other text, with the same hash.
    pub right: Vec<u8>,
}

/// Why no collision was found.
#[derive(Clone, Copy, Debug, PartialEq, Eq, Error)]
pub enum CollideFault {
    /// One of the proofs isn't accepted.
    #[error("a proof is not accepted")]
    NotAccepted,
    /// The entries are equal.
    #[error("the entries are equal")]
    NoDisagreement,
    /// Memory was refused.
    #[error("out of memory")]
    Memory,
}

impl From<AllocError> for CollideFault {
    ghost use Rattle.std.specs.Prelude.{◌≡◌};
    ghost use Rattle.audit_proof.specs.declared.collision.CollideFault.TheVariants.{Memory};

    ghost from_gives = { λ _ fault. fault ≡ Memory };

    fn from(_: AllocError) -> Self {
        CollideFault::Memory
    }
}

// The text that is hashed for a leaf.
pub fn leaf_text(alloc: Global, entry: &[u8]) -> Result<Vec<u8>, AllocError>
    ensures { IfOk result (λ text. text.items ≡ 0 ∷ entry.now) }
{
    let mut text = Vec::with_capacity(alloc, entry.len() + 1)?;
    text.push(LEAF_MARK)?;
    text.extend_from_slice(entry)?;
    Ok(text)
}

// The collision shown by two accepted membership proofs of one index whose leaf texts differ.
fn disagreement<T: TextHash>(
    alloc: Global,
    hash: &T,
    commitment: &Commitment,
    index: u64,
    left: &LeafBranch,
    right: &LeafBranch,
) -> Result<Collision, AllocError>
    requires left { AcceptsLeaf T.value_of commitment.now index (T.value_of left.now.text.now) left.now.hashes.now }
    requires right { AcceptsLeaf T.value_of commitment.now index (T.value_of right.now.text.now) right.now.hashes.now }
    requires differ { left.now.text.now ≢ right.now.text.now }
    ensures { IfOk result (λ c. IsCollision T.value_of c.left.items c.right.items) }
{
    let way = Way {
        from: 0,
        height: depth_of(commitment.count),
        place: index,
        count: commitment.count,
    };
    match meet_leaves(alloc, hash, way, left, right)? {
        Meeting::Met(collision) => Ok(collision),
        Meeting::Apart(_, _) => unreachable!(),
        Meeting::Lost => unreachable!(),
    }
}

/// An entry that a membership proof shows: the hash of its leaf, and the proof's hashes.
#[derive(Clone, Copy)]
pub struct Shown<'a> {
    pub entry: &'a [u8],
    pub leaf: Hash,
    pub hashes: &'a [Hash],
}

// The collision shown by two membership proofs of one index, for any hash function.
pub fn collide<T: TextHash>(
    alloc: Global,
    hash: &T,
    commitment: &Commitment,
    index: u64,
    first: &Shown,
    second: &Shown,
) -> Result<Collision, CollideFault>
    requires first { first.now.leaf ≡ leaf_of T.value_of first.now.entry.now }
    requires second { second.now.leaf ≡ leaf_of T.value_of second.now.entry.now }
    ensures not_accepted { (result ≡ Err CollideFault.NotAccepted)
        ↔ ¬ (AcceptsBoth T.value_of commitment.now index first.now.entry.now first.now.hashes.now
        second.now.entry.now second.now.hashes.now) }
    ensures no_disagreement { (result ≡ Err CollideFault.NoDisagreement)
        ↔ (AcceptsBoth T.value_of commitment.now index first.now.entry.now first.now.hashes.now
        second.now.entry.now second.now.hashes.now
        × (first.now.entry.now ≡ second.now.entry.now)) }
    ensures otherwise { (result ≢ Err CollideFault.NotAccepted) → (result ≢ Err CollideFault.NoDisagreement)
        → AcceptsBoth T.value_of commitment.now index first.now.entry.now first.now.hashes.now
        second.now.entry.now second.now.hashes.now
        × (first.now.entry.now ≢ second.now.entry.now) }
    ensures ok { IfOk result (λ c. IsCollision T.value_of c.left.items c.right.items) }
{
    if !accepts_leaf(hash, commitment, index, first.leaf, first.hashes) {
        return Err(CollideFault::NotAccepted);
    }
    if !accepts_leaf(hash, commitment, index, second.leaf, second.hashes) {
        return Err(CollideFault::NotAccepted);
    }
    if are_equal(first.entry, second.entry) {
        return Err(CollideFault::NoDisagreement);
    }
    let first_text = leaf_text(alloc, first.entry)?;
    let second_text = leaf_text(alloc, second.entry)?;
    let left = LeafBranch {
        text: &first_text,
        hashes: first.hashes,
    };
    let right = LeafBranch {
        text: &second_text,
        hashes: second.hashes,
    };
    let collision = disagreement(alloc, hash, commitment, index, &left, &right)?;
    Ok(collision)
}

/// Finds two different texts with one SHA-256 digest, from two accepted membership proofs of one index under one
/// commitment with different entries.
///
/// Errors, in this order: `NotAccepted` if one of the proofs isn't accepted, `NoDisagreement` if the entries are
/// equal, `Memory`.
pub fn collide_two(
    alloc: Global,
    commitment: &Commitment,
    index: u64,
    entry1: &[u8],
    hashes1: &[Hash],
    entry2: &[u8],
    hashes2: &[Hash],
) -> Result<Collision, CollideFault>
    ensures not_accepted { (result ≡ Err CollideFault.NotAccepted)
        ↔ ¬ (AcceptsBoth sha256 commitment.now index entry1.now hashes1.now entry2.now hashes2.now) }
    ensures no_disagreement { (result ≡ Err CollideFault.NoDisagreement)
        ↔ (AcceptsBoth sha256 commitment.now index entry1.now hashes1.now entry2.now hashes2.now
        × (entry1.now ≡ entry2.now)) }
    ensures otherwise { (result ≢ Err CollideFault.NotAccepted) → (result ≢ Err CollideFault.NoDisagreement)
        → AcceptsBoth sha256 commitment.now index entry1.now hashes1.now entry2.now hashes2.now
        × (entry1.now ≢ entry2.now) }
    ensures ok { IfOk result (λ c. IsCollision sha256 c.left.items c.right.items) }
{
    let first = Shown {
        entry: entry1,
        leaf: leaf_hash(entry1),
        hashes: hashes1,
    };
    let second = Shown {
        entry: entry2,
        leaf: leaf_hash(entry2),
        hashes: hashes2,
    };
    collide(alloc, &Sha256Texts, commitment, index, &first, &second)
}
