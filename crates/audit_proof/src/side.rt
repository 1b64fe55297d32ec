ghost use Rattle.std.specs.Prelude.{◌≡◌};
ghost use Rattle.audit_proof.specs.Climb.{text_with};

use audit_base::Hash;
use audit_tree::pair_text;

/// The side of a node on which its sibling is.
#[derive(Clone, Copy)]
pub enum Side {
    /// The sibling is on the left.
    Left,
    /// The sibling is on the right.
    Right,
}

// The text that is hashed for a node's parent, from the node's value and its sibling's hash.
pub fn text_over(side: Side, value: &Hash, sibling: &Hash) -> [u8; 65]
    ensures { result ≡ text_with side value.now sibling.now }
{
    match side {
        Side::Left => pair_text(sibling, value),
        Side::Right => pair_text(value, sibling),
    }
}
