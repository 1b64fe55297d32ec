ghost use Rattle.std.specs.Prelude.{◌≡◌, ◌≢◌, ◌↔◌, ◌-◌, ◌<◌, ◌≤◌, [], Some, IfOk};
ghost use Rattle.sha2.specs.Sha256.{sha256};
ghost use Rattle.audit_base.specs.declared.limits.TheConstants.{MAX_COUNT};
ghost use Rattle.audit_tree.specs.Subtree.{depth, leaf_of};
ghost use Rattle.audit_proof.specs.Acceptance.{AcceptsLeaf, AcceptsIncrement, AcceptsThree};
ghost use Rattle.audit_proof.specs.Climb.{climb, one_value};
ghost use Rattle.audit_proof.specs.SharedNode.{IsSharedByBoth};
ghost use Rattle.audit_proof.specs.Collision.{IsCollision};

use crate::accept::{accepts_leaf, accepts_versions, increment_way};
use crate::climb::Way;
use crate::collision::{CollideFault, Collision, Shown, leaf_text};
use crate::commitment::Commitment;
use crate::laws::{Sha256Texts, TextHash};
use crate::meeting::{Branch, LeafBranch, Meeting, meet, meet_leaves};
use crate::shared_node::{SharedNode, shared_node};
use crate::steps::TwoValues;
use audit_base::{Hash, are_equal, is_same_hash};
use audit_tree::{depth_of, leaf_hash};
use std::alloc::{AllocError, Global};

// The collision above a node at which two paths to one root begin with different values.
fn collision_above<T: TextHash>(
    alloc: Global,
    hash: &T,
    commitment: &Commitment,
    index: u64,
    layer: u32,
    left: &Branch,
    right: &Branch,
) -> Result<Collision, AllocError>
    requires layer { layer ≤ depth commitment.now.count }
    requires small { commitment.now.count ≤ MAX_COUNT }
    requires within { index < commitment.now.count }
    requires left { climb (one_value T.value_of) layer (depth commitment.now.count - layer) index commitment.now.count
        left.now.value.now left.now.hashes.now ≡ Some (commitment.now.root, []) }
    requires right { climb (one_value T.value_of) layer (depth commitment.now.count - layer) index commitment.now.count
        right.now.value.now right.now.hashes.now ≡ Some (commitment.now.root, []) }
    requires differ { left.now.value.now ≢ right.now.value.now }
    ensures { IfOk result (λ c. IsCollision T.value_of c.left.items c.right.items) }
{
    let way = Way {
        from: layer,
        height: depth_of(commitment.count) - layer,
        place: index,
        count: commitment.count,
    };
    match meet(alloc, hash, way, left, right)? {
        Meeting::Met(collision) => Ok(collision),
        Meeting::Apart(_, _) => unreachable!(),
        Meeting::Lost => unreachable!(),
    }
}

// The node that holds an index and whose value an increment gives for both trees.
fn shared_by<T: TextHash>(
    alloc: Global,
    hash: &T,
    older: &Commitment,
    newer: &Commitment,
    increment: &[Hash],
    index: u64,
) -> Result<SharedNode, AllocError>
    requires accepted { AcceptsIncrement T.value_of older.now newer.now increment.now }
    requires within { index < older.now.count }
    ensures { IfOk result (IsSharedByBoth T.value_of older.now newer.now index) }
{
    let Some((first, rest)) = increment.split_first() else {
        unreachable!()
    };
    let climber = TwoValues {
        hash,
        older_depth: depth_of(older.count),
    };
    let way = increment_way(older, newer);
    match shared_node(alloc, &climber, way, index, first, rest)? {
        Some(node) => Ok(node),
        None => unreachable!(),
    }
}

// The collision shown by two accepted membership proofs of one index whose leaf texts differ, one under each
// commitment of an accepted increment.
fn disagreement_across<T: TextHash>(
    alloc: Global,
    hash: &T,
    older: &Commitment,
    newer: &Commitment,
    increment: &[Hash],
    index: u64,
    left: &LeafBranch,
    right: &LeafBranch,
) -> Result<Collision, AllocError>
    requires increment { AcceptsIncrement T.value_of older.now newer.now increment.now }
    requires left { AcceptsLeaf T.value_of older.now index (T.value_of left.now.text.now) left.now.hashes.now }
    requires right { AcceptsLeaf T.value_of newer.now index (T.value_of right.now.text.now) right.now.hashes.now }
    requires differ { left.now.text.now ≢ right.now.text.now }
    ensures { IfOk result (λ c. IsCollision T.value_of c.left.items c.right.items) }
{
    let node = shared_by(alloc, hash, older, newer, increment, index)?;
    let width = 1 << node.layer;
    let below = Way {
        from: 0,
        height: node.layer,
        place: index % width,
        count: width,
    };
    match meet_leaves(alloc, hash, below, left, right)? {
        Meeting::Met(collision) => Ok(collision),
        Meeting::Apart(left_top, right_top) => {
            if is_same_hash(&left_top.value, &node.value) {
                let shown = Branch {
                    value: &right_top.value,
                    hashes: &right.hashes[right_top.used..],
                };
                let given = Branch {
                    value: &node.value,
                    hashes: &node.newer_siblings,
                };
                collision_above(alloc, hash, newer, index, node.layer, &shown, &given)
            } else {
                let shown = Branch {
                    value: &left_top.value,
                    hashes: &left.hashes[left_top.used..],
                };
                let given = Branch {
                    value: &node.value,
                    hashes: &node.older_siblings,
                };
                collision_above(alloc, hash, older, index, node.layer, &shown, &given)
            }
        }
        Meeting::Lost => unreachable!(),
    }
}

// The collision shown by two membership proofs of one index, under two commitments that an increment joins, for any
// hash function.
pub fn collide_across<T: TextHash>(
    alloc: Global,
    hash: &T,
    older: &Commitment,
    newer: &Commitment,
    increment: &[Hash],
    index: u64,
    first: &Shown,
    second: &Shown,
) -> Result<Collision, CollideFault>
    requires first { first.now.leaf ≡ leaf_of T.value_of first.now.entry.now }
    requires second { second.now.leaf ≡ leaf_of T.value_of second.now.entry.now }
    ensures not_accepted { (result ≡ Err CollideFault.NotAccepted)
        ↔ ¬ (AcceptsThree T.value_of older.now newer.now increment.now index
        first.now.entry.now first.now.hashes.now second.now.entry.now second.now.hashes.now) }
    ensures no_disagreement { (result ≡ Err CollideFault.NoDisagreement)
        ↔ (AcceptsThree T.value_of older.now newer.now increment.now index
        first.now.entry.now first.now.hashes.now second.now.entry.now second.now.hashes.now
        × (first.now.entry.now ≡ second.now.entry.now)) }
    ensures otherwise { (result ≢ Err CollideFault.NotAccepted) → (result ≢ Err CollideFault.NoDisagreement)
        → AcceptsThree T.value_of older.now newer.now increment.now index
        first.now.entry.now first.now.hashes.now second.now.entry.now second.now.hashes.now
        × (first.now.entry.now ≢ second.now.entry.now) }
    ensures ok { IfOk result (λ c. IsCollision T.value_of c.left.items c.right.items) }
{
    if !accepts_versions(hash, older, newer, increment) {
        return Err(CollideFault::NotAccepted);
    }
    if !accepts_leaf(hash, older, index, first.leaf, first.hashes) {
        return Err(CollideFault::NotAccepted);
    }
    if !accepts_leaf(hash, newer, index, second.leaf, second.hashes) {
        return Err(CollideFault::NotAccepted);
    }
    if are_equal(first.entry, second.entry) {
        return Err(CollideFault::NoDisagreement);
    }
    let first_text = leaf_text(alloc, first.entry)?;
    let second_text = leaf_text(alloc, second.entry)?;
    let left = LeafBranch {
        text: &first_text,
        hashes: first.hashes,
    };
    let right = LeafBranch {
        text: &second_text,
        hashes: second.hashes,
    };
    let collision = disagreement_across(
        alloc, hash, older, newer, increment, index, &left, &right,
    )?;
    Ok(collision)
}

/// Finds two different texts with one SHA-256 digest, from two accepted membership proofs of one index with different
/// entries and an accepted increment. The first proof is under the older commitment of the increment, the second under
/// the newer one.
///
/// Errors, in this order: `NotAccepted` if one of the three proofs isn't accepted, `NoDisagreement` if the entries are
/// equal, `Memory`.
pub fn collide_three(
    alloc: Global,
    older: &Commitment,
    newer: &Commitment,
    increment: &[Hash],
    index: u64,
    entry1: &[u8],
    hashes1: &[Hash],
    entry2: &[u8],
    hashes2: &[Hash],
) -> Result<Collision, CollideFault>
    ensures not_accepted { (result ≡ Err CollideFault.NotAccepted)
        ↔ ¬ (AcceptsThree sha256 older.now newer.now increment.now index
        entry1.now hashes1.now entry2.now hashes2.now) }
    ensures no_disagreement { (result ≡ Err CollideFault.NoDisagreement)
        ↔ (AcceptsThree sha256 older.now newer.now increment.now index
        entry1.now hashes1.now entry2.now hashes2.now
        × (entry1.now ≡ entry2.now)) }
    ensures otherwise { (result ≢ Err CollideFault.NotAccepted) → (result ≢ Err CollideFault.NoDisagreement)
        → AcceptsThree sha256 older.now newer.now increment.now index
        entry1.now hashes1.now entry2.now hashes2.now
        × (entry1.now ≢ entry2.now) }
    ensures ok { IfOk result (λ c. IsCollision sha256 c.left.items c.right.items) }
{
    let first = Shown {
        entry: entry1,
        leaf: leaf_hash(entry1),
        hashes: hashes1,
    };
    let second = Shown {
        entry: entry2,
        leaf: leaf_hash(entry2),
        hashes: hashes2,
    };
    collide_across(
        alloc,
        &Sha256Texts,
        older,
        newer,
        increment,
        index,
        &first,
        &second,
    )
}
