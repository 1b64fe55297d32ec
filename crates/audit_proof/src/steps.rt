ghost use Rattle.std.specs.Prelude.{◌≡◌, [], nat_lt, if◌then◌else◌};
ghost use Rattle.audit_tree.specs.Subtree.{parent_of};
ghost use Rattle.audit_proof.specs.Climb.{one_value, two_values};

use crate::climb::Climber;
use crate::laws::TextHash;
use crate::side::{Side, text_over};
use audit_base::Hash;
use audit_tree::lone_text;

/// Carries one value up: a membership proof.
#[derive(Drop)]
pub struct OneValue<'a, T> {
    pub hash: &'a T,
}

impl<T: TextHash> Climber for OneValue<'_, T> {
    type Value = Hash;

    ghost steps = { λ _. one_value T.value_of };

    fn alone(&self, _layer: u32, value: &Hash) -> Hash {
        self.hash.hash(&lone_text(value))
    }

    fn with_hash(&self, _layer: u32, side: Side, value: &Hash, hash: &Hash) -> Hash {
        self.hash.hash(&text_over(side, value, hash))
    }
}

/// The values of a node in an older and in a newer tree.
#[derive(Clone, Copy)]
pub struct Versions {
    pub older: Hash,
    pub newer: Hash,
}

/// Carries two values up: an incremental proof. The older value stops at the layer of its root.
#[derive(Drop)]
pub struct TwoValues<'a, T> {
    pub hash: &'a T,
    pub older_depth: u32,
}

impl<T: TextHash> TwoValues<'_, T> {
    // The older value of the parent of a node that has no right sibling in the older tree.
    fn older_alone(&self, layer: u32, older: &Hash) -> Hash
        ensures { result
            ≡ (if nat_lt layer self.now.older_depth then parent_of T.value_of older.now [] else older.now) }
    {
        if layer < self.older_depth {
            self.hash.hash(&lone_text(older))
        } else {
            *older
        }
    }
}

impl<T: TextHash> Climber for TwoValues<'_, T> {
    type Value = Versions;

    ghost steps = { λ s. two_values T.value_of s.older_depth };

    fn alone(&self, layer: u32, value: &Versions) -> Versions {
        Versions {
            older: self.older_alone(layer, &value.older),
            newer: self.hash.hash(&lone_text(&value.newer)),
        }
    }

    fn with_hash(&self, layer: u32, side: Side, value: &Versions, hash: &Hash) -> Versions {
        let newer = self.hash.hash(&text_over(side, &value.newer, hash));
        let older = match side {
            Side::Left => self.hash.hash(&text_over(side, &value.older, hash)),
            Side::Right => self.older_alone(layer, &value.older),
        };
        Versions { older, newer }
    }
}
