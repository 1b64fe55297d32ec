ghost use Rattle.std.specs.Prelude.{◌≡◌, ◌≢◌, ◌+◌, ◌<◌, ◌≤◌, ℕ, List, Some, length, drop, IfOk};
ghost use Rattle.audit_proof.specs.Climb.{climb, one_value, step_with, up_alone, up_with};
ghost use Rattle.audit_proof.specs.Reached.{climbed_of};
ghost use Rattle.audit_proof.specs.Meeting.{IsMeeting};

use crate::climb::{Reached, Way};
use crate::collision::Collision;
use crate::laws::TextHash;
use crate::side::{Side, text_over};
use audit_base::{Hash, is_same_hash};
use audit_tree::lone_text;
use std::alloc::{AllocError, Global};

/// A leaf's text, and the hashes of its membership proof.
#[derive(Clone, Copy)]
pub struct LeafBranch<'a> {
    pub text: &'a [u8],
    pub hashes: &'a [Hash],
}

/// The value of a node, and the hashes on its path upwards.
#[derive(Clone, Copy)]
pub struct Branch<'a> {
    pub value: &'a Hash,
    pub hashes: &'a [Hash],
}

/// The outcome of two climbs on one path that begin with different values.
#[derive(Drop)]
pub enum Meeting {
    /// Two different texts on the path have the same value.
    Met(Collision),
    /// The values are still different.
    Apart(Reached<Hash>, Reached<Hash>),
    /// A hash was missing.
    Lost,
}

// Two different texts: they are a collision if they have the same value.
pub fn meet_texts<T: TextHash>(
    alloc: Global,
    hash: &T,
    left: &[u8],
    left_used: usize,
    right: &[u8],
    right_used: usize,
) -> Result<Meeting, AllocError>
    requires { left.now ≢ right.now }
    ensures { (lefts rights : List (List ℕ)) → left_used ≤ length lefts → right_used ≤ length rights
        → IfOk result (IsMeeting T.value_of lefts rights
        (Some (T.value_of left.now, drop left_used lefts)) (Some (T.value_of right.now, drop right_used rights))) }
{
    let left_value = hash.hash(left);
    let right_value = hash.hash(right);
    if is_same_hash(&left_value, &right_value) {
        let left = Vec::from_slice(alloc, left)?;
        let right = Vec::from_slice(alloc, right)?;
        return Ok(Meeting::Met(Collision { left, right }));
    }
    let left = Reached {
        value: left_value,
        used: left_used,
    };
    let right = Reached {
        value: right_value,
        used: right_used,
    };
    Ok(Meeting::Apart(left, right))
}

// One layer up from a node with no right sibling.
fn meet_alone<T: TextHash>(
    alloc: Global,
    hash: &T,
    left: Reached<Hash>,
    right: Reached<Hash>,
) -> Result<Meeting, AllocError>
    requires { left.value ≢ right.value }
    ensures { (lefts rights : List (List ℕ)) → left.used ≤ length lefts → right.used ≤ length rights
        → IfOk result (IsMeeting T.value_of lefts rights
        (up_alone ((one_value T.value_of).alone 0) (climbed_of lefts (Some left)))
        (up_alone ((one_value T.value_of).alone 0) (climbed_of rights (Some right)))) }
{
    let left_text = lone_text(&left.value);
    let right_text = lone_text(&right.value);
    meet_texts(alloc, hash, &left_text, left.used, &right_text, right.used)
}

// One layer up from a node with a hash on one side.
fn meet_with<T: TextHash>(
    alloc: Global,
    hash: &T,
    side: Side,
    left: Reached<Hash>,
    lefts: &[Hash],
    right: Reached<Hash>,
    rights: &[Hash],
) -> Result<Meeting, AllocError>
    requires left { left.used ≤ length lefts.now }
    requires right { right.used ≤ length rights.now }
    requires differ { left.value ≢ right.value }
    ensures { IfOk result (IsMeeting T.value_of lefts.now rights.now
        (up_with (step_with (one_value T.value_of) side 0) (climbed_of lefts.now (Some left)))
        (up_with (step_with (one_value T.value_of) side 0) (climbed_of rights.now (Some right)))) }
{
    let Some(left_sibling) = lefts.get(left.used) else {
        return Ok(Meeting::Lost);
    };
    let Some(right_sibling) = rights.get(right.used) else {
        return Ok(Meeting::Lost);
    };
    let left_text = text_over(side, &left.value, left_sibling);
    let right_text = text_over(side, &right.value, right_sibling);
    meet_texts(
        alloc,
        hash,
        &left_text,
        left.used + 1,
        &right_text,
        right.used + 1,
    )
}

// The start of a climb: no hash is used yet.
fn start(branch: &Branch) -> Reached<Hash>
    ensures value { result.value ≡ branch.now.value.now }
    ensures used { result.used ≡ 0 }
{
    Reached {
        value: *branch.value,
        used: 0,
    }
}

// The outcome of the climbs of two different values on one path.
pub fn meet<T: TextHash>(
    alloc: Global,
    hash: &T,
    way: Way,
    left: &Branch,
    right: &Branch,
) -> Result<Meeting, AllocError>
    requires top { way.from + way.height ≤ 64 }
    requires place { way.place < way.count }
    requires differ { left.now.value.now ≢ right.now.value.now }
    ensures { IfOk result (IsMeeting T.value_of left.now.hashes.now right.now.hashes.now
        (climb (one_value T.value_of) way.from way.height way.place way.count
        left.now.value.now left.now.hashes.now)
        (climb (one_value T.value_of) way.from way.height way.place way.count
        right.now.value.now right.now.hashes.now)) }
{
    if way.height == 0 {
        return Ok(Meeting::Apart(start(left), start(right)));
    }
    let height = way.height - 1;
    let half = 1 << (way.from + height);
    if half <= way.place {
        return match meet(alloc, hash, way.in_right_half(half), left, right)? {
            Meeting::Apart(over_left, over_right) => meet_with(
                alloc,
                hash,
                Side::Left,
                over_left,
                left.hashes,
                over_right,
                right.hashes,
            ),
            other => Ok(other),
        };
    }
    match meet(alloc, hash, way.in_left_half(), left, right)? {
        Meeting::Apart(over_left, over_right) => {
            if way.count <= half {
                meet_alone(alloc, hash, over_left, over_right)
            } else {
                meet_with(
                    alloc,
                    hash,
                    Side::Right,
                    over_left,
                    left.hashes,
                    over_right,
                    right.hashes,
                )
            }
        }
        other => Ok(other),
    }
}

// The outcome of the climbs of two different leaf texts on one path.
pub fn meet_leaves<T: TextHash>(
    alloc: Global,
    hash: &T,
    way: Way,
    left: &LeafBranch,
    right: &LeafBranch,
) -> Result<Meeting, AllocError>
    requires from { way.from ≡ 0 }
    requires top { way.height ≤ 64 }
    requires place { way.place < way.count }
    requires differ { left.now.text.now ≢ right.now.text.now }
    ensures { IfOk result (IsMeeting T.value_of left.now.hashes.now right.now.hashes.now
        (climb (one_value T.value_of) 0 way.height way.place way.count
        (T.value_of left.now.text.now) left.now.hashes.now)
        (climb (one_value T.value_of) 0 way.height way.place way.count
        (T.value_of right.now.text.now) right.now.hashes.now)) }
{
    match meet_texts(alloc, hash, left.text, 0, right.text, 0)? {
        Meeting::Apart(left_start, right_start) => {
            let left_branch = Branch {
                value: &left_start.value,
                hashes: left.hashes,
            };
            let right_branch = Branch {
                value: &right_start.value,
                hashes: right.hashes,
            };
            meet(alloc, hash, way, &left_branch, &right_branch)
        }
        other => Ok(other),
    }
}
