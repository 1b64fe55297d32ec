ghost use Rattle.std.specs.Prelude.{◌≡◌, ◌+◌, ◌-◌, ◌<◌, ◌≤◌, ◌++◌, length, option_to_list, vec_len, vec_capacity};
ghost use Rattle.sha2.specs.Sha256.{sha256};
ghost use Rattle.audit_tree.specs.Paths.{sibling_at, siblings_at};
ghost use Rattle.audit_base.specs.declared.limits.TheConstants.{MAX_COUNT, LAYERS};

use crate::frozen::FrozenHashes;
use crate::nodes::node_of;
use audit_base::Hash;

// The sibling, at `layer`, of the node that contains a leaf, or nothing if the sibling has no leaves under `count`.
fn sibling_of(frozen: &FrozenHashes, leaf: u64, layer: u32, count: u64) -> Option<Hash>
    requires layer { layer < LAYERS }
    requires leaf { leaf < count }
    requires known { count ≤ length frozen.now.leaves }
    requires small { length frozen.now.leaves ≤ MAX_COUNT }
    ensures { option_to_list result ≡ sibling_at sha256 frozen.now.leaves count leaf layer }
{
    let place = leaf >> layer;
    let start = place << layer;
    let width = 1 << layer;
    if place % 2 == 1 {
        return Some(frozen.node(start - width, layer));
    }
    if count <= start + width {
        return None;
    }
    Some(node_of(frozen, start + width, layer, count))
}

// Appends the siblings on the path from a leaf upwards, at the layers from `from` up to, but not including, `to`.
pub fn push_siblings(
    hashes: &mut Vec<Hash>,
    frozen: &FrozenHashes,
    leaf: u64,
    count: u64,
    from: u32,
    to: u32,
)
    requires upward { from ≤ to }
    requires to { to < LAYERS }
    requires leaf { leaf < count }
    requires known { count ≤ length frozen.now.leaves }
    requires small { length frozen.now.leaves ≤ MAX_COUNT }
    requires room { vec_len hashes.old + (to - from) ≤ vec_capacity hashes.old }
    ensures { hashes.new.items
        ≡ hashes.old.items ++ siblings_at sha256 frozen.now.leaves count leaf from (to - from) }
{
    for layer in from..to {
        if let Some(hash) = sibling_of(frozen, leaf, layer, count) {
            hashes.push_reserved(hash);
        }
    }
}
