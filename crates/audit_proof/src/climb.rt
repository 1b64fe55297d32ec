ghost use Rattle.std.specs.Prelude.{◌≡◌, ◌+◌, ◌-◌, ◌<◌, ◌≤◌, length, IfSome};
ghost use Rattle.audit_proof.specs.Climb.{climb, step_with, up_alone, up_with};
ghost use Rattle.audit_proof.specs.Reached.{climbed_of};

use crate::side::Side;
use audit_base::Hash;

/// How a value is carried up a tree, from a node to its parent.
pub trait Climber {
    /// What is carried up: one value, or two.
    type Value: Copy;

    ghost use Rattle.std.specs.Prelude.{◌≡◌, ℕ};
    ghost use Rattle.audit_proof.specs.Climb.{Steps, step_with};

    // What each step makes of a value.
    ghost steps: { Self → Steps Self.Value };

    /// One layer up from a node with no right sibling.
    fn alone(&self, layer: u32, value: &Self::Value) -> Self::Value
        ensures { result ≡ (steps self.now).alone layer value.now };

    /// One layer up from a node with a hash on one side.
    fn with_hash(&self, layer: u32, side: Side, value: &Self::Value, hash: &Hash) -> Self::Value
        ensures { result ≡ step_with (steps self.now) side layer value.now hash.now };
}

/// The path from a node of layer `from` that holds a place, up to the node `height` layers higher. That node holds
/// `count` leaves, counting from its start.
#[derive(Clone, Copy)]
pub struct Way {
    pub from: u32,
    pub height: u32,
    pub place: u64,
    pub count: u64,
}

impl Way {
    ghost use Rattle.std.specs.Prelude.{◌≡◌, ◌-◌, ◌≤◌};

    /// The path without its last step, if that step comes from the left half of the end node.
    pub(crate) fn in_left_half(self) -> Way
        requires { 1 ≤ self.height }
        ensures { result
            ≡ record { from = self.from; height = self.height - 1; place = self.place; count = self.count } }
    {
        Way {
            height: self.height - 1,
            ..self
        }
    }

    /// The path without its last step, if that step comes from the right half, which begins after `leaves` leaves.
    pub(crate) fn in_right_half(self, leaves: u64) -> Way
        requires height { 1 ≤ self.height }
        requires place { leaves ≤ self.place }
        requires count { leaves ≤ self.count }
        ensures { result ≡ record {
          from = self.from;
          height = self.height - 1;
          place = self.place - leaves;
          count = self.count - leaves;
        } }
    {
        Way {
            from: self.from,
            height: self.height - 1,
            place: self.place - leaves,
            count: self.count - leaves,
        }
    }
}

/// What a climb has reached: a value, and the number of hashes used.
#[derive(Clone, Copy)]
pub struct Reached<V> {
    pub value: V,
    pub used: usize,
}

fn reach_alone<C: Climber>(climber: &C, layer: u32, lower: Reached<C::Value>) -> Reached<C::Value>
    ensures value { result.value ≡ (C.steps climber.now).alone layer lower.value }
    ensures used { result.used ≡ lower.used }
{
    Reached {
        value: climber.alone(layer, &lower.value),
        used: lower.used,
    }
}

fn reach_with<C: Climber>(
    climber: &C,
    layer: u32,
    side: Side,
    lower: Reached<C::Value>,
    hashes: &[Hash],
) -> Option<Reached<C::Value>>
    requires { lower.used ≤ length hashes.now }
    ensures reached { climbed_of hashes.now result
        ≡ up_with (step_with (C.steps climber.now) side layer) (climbed_of hashes.now (Some lower)) }
    ensures used { IfSome result (λ top. top.used ≤ length hashes.now) }
{
    match hashes.get(lower.used) {
        None => None,
        Some(hash) => Some(Reached {
            value: climber.with_hash(layer, side, &lower.value, hash),
            used: lower.used + 1,
        }),
    }
}

// The value reached at the end of a path with the first hashes of a list.
pub fn climb_from<C: Climber>(
    climber: &C,
    way: Way,
    value: C::Value,
    hashes: &[Hash],
) -> Option<Reached<C::Value>>
    requires top { way.from + way.height ≤ 64 }
    requires place { way.place < way.count }
    ensures reached { climbed_of hashes.now result
        ≡ climb (C.steps climber.now) way.from way.height way.place way.count value hashes.now }
    ensures used { IfSome result (λ top. top.used ≤ length hashes.now) }
{
    if way.height == 0 {
        return Some(Reached { value, used: 0 });
    }
    let height = way.height - 1;
    let layer = way.from + height;
    let half = 1 << layer;
    if half <= way.place {
        return match climb_from(climber, way.in_right_half(half), value, hashes) {
            None => None,
            Some(lower) => reach_with(climber, layer, Side::Left, lower, hashes),
        };
    }
    match climb_from(climber, way.in_left_half(), value, hashes) {
        None => None,
        Some(lower) => {
            if way.count <= half {
                Some(reach_alone(climber, layer, lower))
            } else {
                reach_with(climber, layer, Side::Right, lower, hashes)
            }
        }
    }
}
