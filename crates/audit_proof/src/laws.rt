//! The laws of proofs over any hash function of texts.

ghost use Rattle.std.specs.Prelude.{◌≡◌, ◌≢◌, ◌↔◌, ◌+◌, ◌<◌, ◌≤◌, ◌++◌, ℕ, List, Some, IfOk, OnErr};
ghost use Rattle.std.specs.Prelude.{IsTrue, length, take};
ghost use Rattle.sha2.specs.Sha256.{sha256};
ghost use Rattle.audit_tree.specs.Subtree.{leaf_of, commitment_of};
ghost use Rattle.audit_proof.specs.Acceptance.{AcceptsLeaf, AcceptsBoth, AcceptsThree, AcceptsIncrement};
ghost use Rattle.audit_proof.specs.Acceptance.{LeadsUp, commitment_to};
ghost use Rattle.audit_proof.specs.MemoryNeeds.{NeedsMemory};
ghost use Rattle.audit_proof.specs.Collision.{IsCollision};
ghost use Rattle.audit_base.specs.Bytes.{AreBytes};
ghost use Rattle.audit_base.specs.declared.limits.TheConstants.{MAX_ENTRY};
ghost use Rattle.audit_proof.specs.ProofBytes.{Member, Increment, IsMember, IsIncrement, member_bytes, member_of};
ghost use Rattle.audit_proof.specs.ProofBytes.{increment_bytes, increment_of};
ghost use Rattle.audit_proof.specs.declared.bytes.TheConstants.{MEMBER_MARK, INCREMENT_MARK, HEAD_LEN};

use crate::accept::{accepts_leaf, accepts_versions, leads_up};
use crate::collision::{CollideFault, Collision, Shown, collide, leaf_text};
use crate::collision_across::collide_across;
use crate::commitment::Commitment;
use audit_base::{Hash, MAX_ENTRY};
use audit_tree::LEAF_MARK;
use sha2::{Digest, Sha256};
use std::alloc::{AllocError, Global};

/// A hash function of texts.
pub trait TextHash: Drop {
    // The value of a text.
    ghost value_of: { List ℕ → List ℕ };

    /// Returns the value of a text.
    fn hash(&self, text: &[u8]) -> Hash
        ensures { result ≡ value_of text.now };
}

/// SHA-256 of texts.
#[derive(Drop)]
pub struct Sha256Texts;

impl TextHash for Sha256Texts {
    ghost value_of = { sha256 };

    fn hash(&self, text: &[u8]) -> Hash {
        Sha256::digest(text)
    }
}

/// Finds two different texts with one value of a hash function, from two accepted membership proofs of one index under
/// one commitment with different entries.
///
/// The errors are those of `collide_two`, in the same order, if no entry is longer than `MAX_ENTRY` bytes. Judging the
/// proof of a longer entry takes memory for its leaf text, so `Memory` may be returned instead of `NotAccepted` and
/// `NoDisagreement`, but only if the proofs have the right number of hashes.
pub fn collide_two_with<T: TextHash>(
    alloc: Global,
    hash: &T,
    commitment: &Commitment,
    index: u64,
    entry1: &[u8],
    hashes1: &[Hash],
    entry2: &[u8],
    hashes2: &[Hash],
) -> Result<Collision, CollideFault>
    ensures not_accepted { result ≢ Err CollideFault.Memory
        → ((result ≡ Err CollideFault.NotAccepted)
        ↔ ¬ (AcceptsBoth T.value_of commitment.now index entry1.now hashes1.now entry2.now hashes2.now)) }
    ensures no_disagreement { result ≢ Err CollideFault.Memory
        → ((result ≡ Err CollideFault.NoDisagreement)
        ↔ (AcceptsBoth T.value_of commitment.now index entry1.now hashes1.now entry2.now hashes2.now
        × (entry1.now ≡ entry2.now))) }
    ensures memory { (result ≡ Err CollideFault.Memory)
        → NeedsMemory T.value_of commitment.now commitment.now index entry1.now hashes1.now entry2.now hashes2.now }
    ensures ok { IfOk result (λ c.
        AcceptsBoth T.value_of commitment.now index entry1.now hashes1.now entry2.now hashes2.now
        × (entry1.now ≢ entry2.now) × IsCollision T.value_of c.left.items c.right.items) }
{
    if !both_lead_up(hash, commitment, commitment, index, hashes1, hashes2) {
        return Err(CollideFault::NotAccepted);
    }
    let first = Shown {
        entry: entry1,
        leaf: leaf_hash_with(alloc, hash, entry1)?,
        hashes: hashes1,
    };
    if !accepts_leaf(hash, commitment, index, first.leaf, hashes1) {
        return Err(CollideFault::NotAccepted);
    }
    let second = Shown {
        entry: entry2,
        leaf: leaf_hash_with(alloc, hash, entry2)?,
        hashes: hashes2,
    };
    collide(alloc, hash, commitment, index, &first, &second)
}

/// Finds two different texts with one value of a hash function, from an accepted incremental proof and two accepted
/// membership proofs of one index with different entries. The first membership is under the older commitment of the
/// increment, the second under the newer one.
///
/// The errors are those of `collide_three`, in the same order, if no entry is longer than `MAX_ENTRY` bytes. Judging
/// the proof of a longer entry takes memory for its leaf text, so `Memory` may be returned instead of `NotAccepted`
/// and `NoDisagreement`, but only if the increment is accepted and the memberships have the right number of hashes.
pub fn collide_three_with<T: TextHash>(
    alloc: Global,
    hash: &T,
    older: &Commitment,
    newer: &Commitment,
    increment: &[Hash],
    index: u64,
    entry1: &[u8],
    hashes1: &[Hash],
    entry2: &[u8],
    hashes2: &[Hash],
) -> Result<Collision, CollideFault>
    ensures not_accepted { result ≢ Err CollideFault.Memory
        → ((result ≡ Err CollideFault.NotAccepted)
        ↔ ¬ (AcceptsThree T.value_of older.now newer.now increment.now index
        entry1.now hashes1.now entry2.now hashes2.now)) }
    ensures no_disagreement { result ≢ Err CollideFault.Memory
        → ((result ≡ Err CollideFault.NoDisagreement)
        ↔ (AcceptsThree T.value_of older.now newer.now increment.now index
        entry1.now hashes1.now entry2.now hashes2.now
        × (entry1.now ≡ entry2.now))) }
    ensures memory { (result ≡ Err CollideFault.Memory) → AcceptsIncrement T.value_of older.now newer.now increment.now
        × NeedsMemory T.value_of older.now newer.now index entry1.now hashes1.now entry2.now hashes2.now }
    ensures ok { IfOk result (λ c.
        AcceptsThree T.value_of older.now newer.now increment.now index
        entry1.now hashes1.now entry2.now hashes2.now
        × (entry1.now ≢ entry2.now) × IsCollision T.value_of c.left.items c.right.items) }
{
    if !accepts_versions(hash, older, newer, increment) {
        return Err(CollideFault::NotAccepted);
    }
    if !both_lead_up(hash, older, newer, index, hashes1, hashes2) {
        return Err(CollideFault::NotAccepted);
    }
    let older_leaf = leaf_hash_with(alloc, hash, entry1)?;
    if !accepts_leaf(hash, older, index, older_leaf, hashes1) {
        return Err(CollideFault::NotAccepted);
    }
    let newer_leaf = leaf_hash_with(alloc, hash, entry2)?;
    let first = Shown {
        entry: entry1,
        leaf: older_leaf,
        hashes: hashes1,
    };
    let second = Shown {
        entry: entry2,
        leaf: newer_leaf,
        hashes: hashes2,
    };
    collide_across(alloc, hash, older, newer, increment, index, &first, &second)
}

// Whether the hashes of two membership proofs of one index lead to roots, the first under an older commitment and the
// second under a newer one.
fn both_lead_up<T: TextHash>(
    hash: &T,
    older: &Commitment,
    newer: &Commitment,
    index: u64,
    hashes1: &[Hash],
    hashes2: &[Hash],
) -> bool
    ensures exact { IsTrue result ↔ (LeadsUp T.value_of older.now.count index hashes1.now
        × LeadsUp T.value_of newer.now.count index hashes2.now) }
    ensures accepted { (leaf1 leaf2 : List ℕ) → AcceptsLeaf T.value_of older.now index leaf1 hashes1.now
        → AcceptsLeaf T.value_of newer.now index leaf2 hashes2.now → IsTrue result }
{
    leads_up(hash, older, index, hashes1) && leads_up(hash, newer, index, hashes2)
}

// The hash of a leaf's text, by any hash function. It takes memory only for an entry longer than any of a log.
fn leaf_hash_with<T: TextHash>(alloc: Global, hash: &T, entry: &[u8]) -> Result<Hash, AllocError>
    ensures leaf { IfOk result (λ leaf. leaf ≡ leaf_of T.value_of entry.now) }
    ensures long { OnErr result (MAX_ENTRY < length entry.now) }
{
    if entry.len() <= MAX_ENTRY {
        return Ok(short_leaf_hash_with(hash, entry));
    }
    let text = leaf_text(alloc, entry)?;
    Ok(hash.hash(&text))
}

// The hash of the leaf of an entry within the limit.
fn short_leaf_hash_with<T: TextHash>(hash: &T, entry: &[u8]) -> Hash
    requires { length entry.now ≤ MAX_ENTRY }
    ensures { result ≡ leaf_of T.value_of entry.now }
{
    let mut text = [LEAF_MARK; MAX_ENTRY + 1];
    put_after_mark(&mut text, entry);
    hash.hash(&text[..=entry.len()])
}

// Writes an entry after the first byte.
fn put_after_mark(text: &mut [u8], entry: &[u8])
    requires { length entry.now < length text.old }
    ensures { take (length entry.now + 1) text.new ≡ take 1 text.old ++ entry.now }
{
    text[1..=entry.len()].copy_from_slice(entry);
}

/// The commitment to leaf texts is that of the tree, as a `Commitment`: their number and their root. The function
/// does nothing: its contract is the law.
pub fn commitments_are_of_texts()
    ensures { (texts : List (List ℕ))
        → commitment_of texts ≡ ((commitment_to texts).count, (commitment_to texts).root) }
{}

/// The marks of encoded proofs and the length of what precedes the hashes, as numbers. The function does nothing: its
/// contract is the law.
pub fn limits_are_these_numbers()
    ensures member { MEMBER_MARK ≡ 1 }
    ensures increment { INCREMENT_MARK ≡ 2 }
    ensures head { HEAD_LEN ≡ 18 }
{}

/// An encoded proof can be read in only one way: bytes are read as a proof if and only if the proof is within the
/// limits and they are its encoding. The function does nothing: its contract is the law.
pub fn one_reading_of_proof_bytes()
    ensures member { (bytes : List ℕ) (proof : Member) → AreBytes bytes
        → (member_of bytes ≡ Some proof) ↔ (IsMember proof × (bytes ≡ member_bytes proof)) }
    ensures increment { (bytes : List ℕ) (proof : Increment) → AreBytes bytes
        → (increment_of bytes ≡ Some proof) ↔ (IsIncrement proof × (bytes ≡ increment_bytes proof)) }
{}
