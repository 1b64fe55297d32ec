//! The frontier of an older tree, which the increment from it contains.
ghost use Rattle.std.specs.Prelude.{◌≡◌, ◌≤◌, ℕ, List, [], length, take, IfSome, MatchOption};
ghost use Rattle.sha2.specs.Sha256.{sha256};
ghost use Rattle.audit_base.specs.declared.limits.TheConstants.{MAX_COUNT};
ghost use Rattle.audit_tree.specs.Subtree.{root_of};
ghost use Rattle.audit_tree.specs.Paths.{increment_path};
ghost use Rattle.audit_tree.specs.Frontier.{IsFrontierOf, IsSized};
ghost use Rattle.audit_tree.specs.Continued.{root_after};
ghost use Rattle.audit_proof.specs.Acceptance.{AcceptsIncrement, IsMadeIncrement};

use audit_base::{Hash, LAYERS, MAX_COUNT};
use audit_proof::{Commitment, accepts_increment};
use audit_tree::{Frontier, depth_of};

// The frontier of the first `older` leaves of a tree, whose hashes are in the increment from these to a newer
// commitment. `None` unless the increment is accepted between the root of that frontier and the newer commitment.
pub(crate) fn older_frontier(older: u64, newer: &Commitment, hashes: &[Hash]) -> Option<Frontier>
    ensures count { IfSome result (λ made. made.count ≡ older) }
    ensures sized { IfSome result (λ made. IsSized made.count made.hashes) }
    ensures accepted { IfSome result (λ made. AcceptsIncrement sha256
        (record { count = older; root = root_after made [] }) newer.now hashes.now) }

    // Of an increment that a tree makes it is the frontier of the tree's first leaves.
    ensures made { (leaves : List (List ℕ)) → IsMadeIncrement leaves
        (record { count = older; root = root_of sha256 (take older leaves) }) newer.now hashes.now
        → MatchOption result ⊥ (λ made. IsFrontierOf made (take older leaves)) }
{
    if older == 0 || newer.count < older || MAX_COUNT < newer.count {
        return None;
    }
    let nodes = nodes_in(older, newer.count, hashes)?;
    let frontier = Frontier::from_hashes(older, &nodes)?;
    let own = Commitment {
        count: older,
        root: frontier.root(),
    };
    if accepts_increment(&own, newer, hashes) {
        Some(frontier)
    } else {
        None
    }
}

// The nodes by layer: the first hash, and those that are on the left of the way up.
fn nodes_in(older: u64, newer: u64, hashes: &[Hash]) -> Option<[Hash; LAYERS]>
    requires some { 1 ≤ older }
    requires order { older ≤ newer }
    requires small { newer ≤ MAX_COUNT }
    ensures { (leaves : List (List ℕ)) → length leaves ≡ newer → hashes.now ≡ increment_path sha256 leaves older
        → MatchOption result ⊥ (λ nodes. IsSized older nodes
        × IsFrontierOf (record { count = older; hashes = nodes }) (take older leaves)) }
{
    let none = Frontier::new();
    let mut nodes = *none.hashes();
    let lowest = older.trailing_zeros();
    let (first, rest) = hashes.split_first()?;
    nodes[lowest as usize] = *first;
    let mut used = 0;
    for layer in lowest..depth_of(newer) {
        let place = (older - 1) >> layer;
        if place % 2 == 1 {
            nodes[layer as usize] = *rest.get(used)?;
            used += 1;
        } else if (place + 1) << layer < newer {
            used += 1;
        }
    }
    Some(nodes)
}
