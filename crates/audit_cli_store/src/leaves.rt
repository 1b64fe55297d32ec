ghost use Rattle.std.specs.Prelude.{◌≡◌, [], ◌∷◌, ◌++◌, OnOk};
ghost use Rattle.audit_tree.specs.Subtree.{leaf_hash_of};

use audit_base::Hash;
use audit_tree::{Tree, leaf_hash};
use std::alloc::AllocError;

/// Adds an entry to a tree. Neither a log nor a salvage has more entries than a tree may have, so the only error is
/// that memory is refused.
pub(crate) fn push_leaf(tree: &mut Tree, entry: &[u8]) -> Result<(), AllocError>
    ensures { OnOk result (tree.new.leaves ≡ tree.old.leaves ++ leaf_hash_of entry.now ∷ []) }
{
    push_hash(tree, leaf_hash(entry))
}

/// Adds an entry to a tree by its leaf hash, as [`push_leaf`] does.
pub(crate) fn push_hash(tree: &mut Tree, leaf: Hash) -> Result<(), AllocError>
    ensures { OnOk result (tree.new.leaves ≡ tree.old.leaves ++ leaf ∷ []) }
{
    match tree.push(leaf) {
        Ok(()) => Ok(()),
        Err(_) => Err(AllocError),
    }
}
