ghost use Rattle.std.specs.Prelude.{◌≡◌, ◌+◌, ◌%◌, ◌^◌, ◌<◌, ◌≤◌, [], IfOk};
ghost use Rattle.audit_proof.specs.Climb.{climb, two_values};
ghost use Rattle.audit_proof.specs.declared.steps.Versions.{Versions};
ghost use Rattle.audit_proof.specs.SharedNode.{Shares, OverLeft, OverRight, LeftHalf, climbed_both};

use crate::climb::{Way, climb_from};
use crate::laws::TextHash;
use crate::steps::{TwoValues, Versions};
use audit_base::Hash;
use std::alloc::{AllocError, Global};

/// A full node of an increment's older tree, whose value the increment gives, with the siblings on its path to the
/// root of either tree.
#[derive(Drop)]
pub struct SharedNode {
    /// The node's layer.
    pub layer: u32,
    /// The node's value in both trees.
    pub value: Hash,
    /// The siblings in the older tree, from the node upwards.
    pub older_siblings: Vec<Hash>,
    /// The siblings in the newer tree, from the node upwards.
    pub newer_siblings: Vec<Hash>,
    /// The number of the increment's hashes that were used.
    pub used: usize,
}

// The node at which the path of an increment begins.
fn first_node(alloc: Global, layer: u32, value: &Hash) -> SharedNode
    ensures layer { result.layer ≡ layer }
    ensures value { result.value ≡ value.now }
    ensures older { result.older_siblings.items ≡ [] }
    ensures newer { result.newer_siblings.items ≡ [] }
    ensures used { result.used ≡ 0 }
{
    SharedNode {
        layer,
        value: *value,
        older_siblings: Vec::new(alloc),
        newer_siblings: Vec::new(alloc),
        used: 0,
    }
}

// The left half of a node whose right half is on the path of an increment. Its value is the next hash, and its sibling
// in either tree is the value that the path has reached there.
fn left_node<T: TextHash>(
    alloc: Global,
    climber: &TwoValues<T>,
    right: Way,
    first: &Hash,
    hashes: &[Hash],
) -> Result<Option<SharedNode>, AllocError>
    requires top { right.from + right.height ≤ 63 }
    requires place { right.place < right.count }
    ensures { IfOk result (LeftHalf (right.from + right.height)
        (climbed_both T.value_of climber.now.older_depth right first.now hashes.now) hashes.now) }
{
    let both = Versions {
        older: *first,
        newer: *first,
    };
    let Some(lower) = climb_from(climber, right, both, hashes) else {
        return Ok(None);
    };
    let Some(value) = hashes.get(lower.used) else {
        return Ok(None);
    };
    let Versions { older, newer } = lower.value;
    let older_siblings = vec![in alloc; older]?;
    let newer_siblings = vec![in alloc; newer]?;
    Ok(Some(SharedNode {
        layer: right.from + right.height,
        value: *value,
        older_siblings,
        newer_siblings,
        used: lower.used + 1,
    }))
}

// One layer up with the next hash on the left, which both trees have.
fn with_left(mut node: SharedNode, hashes: &[Hash]) -> Result<Option<SharedNode>, AllocError>
    ensures { IfOk result (OverLeft hashes.now node) }
{
    let Some(hash) = hashes.get(node.used) else {
        return Ok(None);
    };
    node.older_siblings.push(*hash)?;
    node.newer_siblings.push(*hash)?;
    node.used += 1;
    Ok(Some(node))
}

// One layer up with the next hash on the right, which the newer tree alone has.
fn with_right(mut node: SharedNode, hashes: &[Hash]) -> Result<Option<SharedNode>, AllocError>
    ensures { IfOk result (OverRight hashes.now node) }
{
    let Some(hash) = hashes.get(node.used) else {
        return Ok(None);
    };
    node.newer_siblings.push(*hash)?;
    node.used += 1;
    Ok(Some(node))
}

// The largest full node that holds an index and whose value is among the hashes of an increment, or nothing if a hash
// is missing.
pub fn shared_node<T: TextHash>(
    alloc: Global,
    climber: &TwoValues<T>,
    way: Way,
    index: u64,
    first: &Hash,
    hashes: &[Hash],
) -> Result<Option<SharedNode>, AllocError>
    requires top { way.from + way.height ≤ 64 }
    requires place { way.place < way.count }
    requires room { way.place < 2 ^ (way.from + way.height) }
    requires index { index ≤ way.place }
    requires begun { way.from ≤ climber.now.older_depth }
    requires older { way.place < 2 ^ climber.now.older_depth }
    requires ended { (way.place + 1) % 2 ^ way.from ≡ 0 }
    ensures { IfOk result (Shares T.value_of climber.now.older_depth way index
        (climbed_both T.value_of climber.now.older_depth way first.now hashes.now) hashes.now) }
{
    if way.height == 0 {
        return Ok(Some(first_node(alloc, way.from, first)));
    }
    let height = way.height - 1;
    let half = 1 << (way.from + height);
    if half <= way.place {
        let right = way.in_right_half(half);
        if index < half {
            return left_node(alloc, climber, right, first, hashes);
        }
        return match shared_node(alloc, climber, right, index - half, first, hashes)? {
            None => Ok(None),
            Some(lower) => with_left(lower, hashes),
        };
    }
    match shared_node(alloc, climber, way.in_left_half(), index, first, hashes)? {
        None => Ok(None),
        Some(lower) => {
            if way.count <= half {
                Ok(Some(lower))
            } else {
                with_right(lower, hashes)
            }
        }
    }
}
