ghost use Rattle.std.specs.Prelude.{◌≡◌, ◌↔◌, ◌+◌, ◌≤◌, ℕ, List, Some, IsTrue, IfSome};
ghost use Rattle.sha2.specs.Sha256.{sha256};
ghost use Rattle.audit_base.specs.declared.limits.TheConstants.{MAX_COUNT};
ghost use Rattle.audit_tree.specs.Subtree.{depth};
ghost use Rattle.audit_proof.specs.Acceptance.{AcceptsLeaf, AcceptsMembership, AcceptsIncrement, LeadsUp};
ghost use Rattle.audit_proof.specs.Acceptance.{IsMadeMembership, IsMadeIncrement, way_between};

use crate::climb::{Way, climb_from};
use crate::commitment::Commitment;
use crate::laws::{Sha256Texts, TextHash};
use crate::steps::{OneValue, TwoValues, Versions};
use audit_base::{HASH_LEN, Hash, MAX_COUNT, is_same_hash};
use audit_tree::{depth_of, leaf_hash};

// The root to which the hashes of a membership proof lead from a leaf hash. Nothing if the index isn't below the
// count, the count is over `MAX_COUNT`, or a hash is missing or left over.
fn root_of_member<T: TextHash>(
    hash: &T,
    commitment: &Commitment,
    index: u64,
    leaf: Hash,
    hashes: &[Hash],
) -> Option<Hash>
    ensures root { IfSome result (λ root. AcceptsLeaf T.value_of
        (record { count = commitment.now.count; root = root }) index leaf hashes.now) }
    ensures none { (root : List ℕ) → AcceptsLeaf T.value_of
        (record { count = commitment.now.count; root = root }) index leaf hashes.now → result ≡ Some root }
{
    if commitment.count <= index || MAX_COUNT < commitment.count {
        return None;
    }
    let way = Way {
        from: 0,
        height: depth_of(commitment.count),
        place: index,
        count: commitment.count,
    };
    match climb_from(&OneValue { hash }, way, leaf, hashes) {
        Some(top) if top.used == hashes.len() => Some(top.value),
        _ => None,
    }
}

// Whether a membership proof is accepted for a leaf hash.
pub fn accepts_leaf<T: TextHash>(
    hash: &T,
    commitment: &Commitment,
    index: u64,
    leaf: Hash,
    hashes: &[Hash],
) -> bool
    ensures { IsTrue result ↔ AcceptsLeaf T.value_of commitment.now index leaf hashes.now }
{
    match root_of_member(hash, commitment, index, leaf, hashes) {
        Some(root) => is_same_hash(&root, &commitment.root),
        None => false,
    }
}

// Whether the hashes of a membership proof lead from each leaf hash to a root.
pub fn leads_up<T: TextHash>(hash: &T, commitment: &Commitment, index: u64, hashes: &[Hash]) -> bool
    ensures exact { IsTrue result ↔ LeadsUp T.value_of commitment.now.count index hashes.now }

    // Otherwise the proof is accepted for no leaf hash.
    ensures accepted { (leaf : List ℕ) → AcceptsLeaf T.value_of commitment.now index leaf hashes.now → IsTrue result }
{
    root_of_member(hash, commitment, index, [0; HASH_LEN], hashes).is_some()
}

/// Returns whether a membership proof shows that this entry has this index under a commitment. False if the index
/// isn't below the count, the count is over `MAX_COUNT`, or a hash is missing or left over. It takes no memory.
pub fn accepts_member(commitment: &Commitment, index: u64, entry: &[u8], hashes: &[Hash]) -> bool
    ensures exact { IsTrue result ↔ AcceptsMembership sha256 commitment.now index entry.now hashes.now }

    // A proof made by a tree is accepted under its root.
    ensures made { (leaves : List (List ℕ))
        → IsMadeMembership leaves commitment.now index entry.now hashes.now → IsTrue result }
{
    accepts_leaf(&Sha256Texts, commitment, index, leaf_hash(entry), hashes)
}

// Whether these are the roots of two commitments.
fn are_roots(versions: &Versions, older: &Commitment, newer: &Commitment) -> bool
    ensures { IsTrue result ↔ (versions.now ≡ record { older = older.now.root; newer = newer.now.root }) }
{
    is_same_hash(&versions.older, &older.root) && is_same_hash(&versions.newer, &newer.root)
}

// The way of an incremental proof, from the largest full node that ends the older tree up to the newer root.
pub fn increment_way(older: &Commitment, newer: &Commitment) -> Way
    requires some { 1 ≤ older.now.count }
    requires order { older.now.count ≤ newer.now.count }
    requires small { newer.now.count ≤ MAX_COUNT }
    ensures way { result ≡ way_between older.now.count newer.now.count }
    ensures top { result.from + result.height ≡ depth newer.now.count }
{
    let layer = older.count.trailing_zeros();
    let height = depth_of(newer.count) - layer;
    Way {
        from: layer,
        height,
        place: older.count - 1,
        count: newer.count,
    }
}

// The roots to which the hashes of an incremental proof lead. Nothing unless
// `1 <= older.count <= newer.count <= MAX_COUNT`, or if a hash is missing or left over.
fn versions_of<T: TextHash>(
    hash: &T,
    older: &Commitment,
    newer: &Commitment,
    hashes: &[Hash],
) -> Option<Versions>
    ensures roots { IfSome result (λ versions. AcceptsIncrement T.value_of
        (record { count = older.now.count; root = versions.older })
        (record { count = newer.now.count; root = versions.newer }) hashes.now) }
    ensures none { (older_root newer_root : List ℕ) → AcceptsIncrement T.value_of
        (record { count = older.now.count; root = older_root })
        (record { count = newer.now.count; root = newer_root }) hashes.now
        → result ≡ Some (record { older = older_root; newer = newer_root }) }
{
    if older.count == 0 || newer.count < older.count || MAX_COUNT < newer.count {
        return None;
    }
    let (first, rest) = hashes.split_first()?;
    let way = increment_way(older, newer);
    let climber = TwoValues {
        hash,
        older_depth: depth_of(older.count),
    };
    let both = Versions {
        older: *first,
        newer: *first,
    };
    match climb_from(&climber, way, both, rest) {
        Some(top) if top.used == rest.len() => Some(top.value),
        _ => None,
    }
}

// Whether an incremental proof is accepted.
pub fn accepts_versions<T: TextHash>(
    hash: &T,
    older: &Commitment,
    newer: &Commitment,
    hashes: &[Hash],
) -> bool
    ensures { IsTrue result ↔ AcceptsIncrement T.value_of older.now newer.now hashes.now }
{
    match versions_of(hash, older, newer, hashes) {
        Some(versions) => are_roots(&versions, older, newer),
        None => false,
    }
}

/// Returns whether an incremental proof shows that the newer tree extends the older one. False if not
/// `1 <= older.count <= newer.count <= MAX_COUNT`, or if a hash is missing or left over. It takes no memory.
pub fn accepts_increment(older: &Commitment, newer: &Commitment, hashes: &[Hash]) -> bool
    ensures exact { IsTrue result ↔ AcceptsIncrement sha256 older.now newer.now hashes.now }

    // A proof made by a tree is accepted under its roots.
    ensures made { (leaves : List (List ℕ))
        → IsMadeIncrement leaves older.now newer.now hashes.now → IsTrue result }
{
    accepts_versions(&Sha256Texts, older, newer, hashes)
}

/// Returns the one root under which a membership proof of an entry is accepted, for a caller that holds the root of
/// another count. `None` if the index isn't below the count, the count is over `MAX_COUNT`, or a hash is missing or
/// left over. It takes no memory.
pub fn root_of_membership(count: u64, index: u64, entry: &[u8], hashes: &[Hash]) -> Option<Hash>
    ensures root { IfSome result (λ root. AcceptsMembership sha256
        (record { count = count; root = root }) index entry.now hashes.now) }
    ensures only { (root : List ℕ) → AcceptsMembership sha256
        (record { count = count; root = root }) index entry.now hashes.now → result ≡ Some root }
{
    let asked = Commitment {
        count,
        root: [0; HASH_LEN],
    };
    root_of_member(&Sha256Texts, &asked, index, leaf_hash(entry), hashes)
}

/// Returns the older and the newer root under which an incremental proof is accepted, for a caller that holds the root
/// of another count. `None` if not `1 <= older <= newer <= MAX_COUNT`, or if a hash is missing or left over. It takes
/// no memory.
pub fn roots_of_increment(older: u64, newer: u64, hashes: &[Hash]) -> Option<(Hash, Hash)>
    ensures roots { IfSome result (λ roots. AcceptsIncrement sha256
        (record { count = older; root = roots.0 }) (record { count = newer; root = roots.1 }) hashes.now) }
    ensures only { (older_root newer_root : List ℕ) → AcceptsIncrement sha256
        (record { count = older; root = older_root }) (record { count = newer; root = newer_root }) hashes.now
        → result ≡ Some (older_root, newer_root) }
{
    let older = Commitment {
        count: older,
        root: [0; HASH_LEN],
    };
    let newer = Commitment {
        count: newer,
        root: [0; HASH_LEN],
    };
    let versions = versions_of(&Sha256Texts, &older, &newer, hashes)?;
    let older_root = versions.older;
    let newer_root = versions.newer;
    Some((older_root, newer_root))
}
