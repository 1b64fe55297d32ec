ghost use Rattle.std.specs.Prelude.{◌≡◌, ◌↔◌, IsTrue};

use crate::limits::HASH_LEN;

/// A SHA-256 digest (FIPS 180-4).
pub type Hash = [u8; HASH_LEN];

/// Returns whether two digests, links or MACs are equal. It always compares all bytes, so the number of its steps
/// doesn't reveal where they differ.
pub fn is_same_hash(left: &Hash, right: &Hash) -> bool
    ensures { IsTrue result ↔ (left.now ≡ right.now) }
{
    let mut difference = 0;
    for place in 0..HASH_LEN {
        difference |= left[place] ^ right[place];
    }
    difference == 0
}
