//! Laws of history trees, stated over lists of leaf hashes. Each function does nothing: its contract is the law.

ghost use Rattle.std.specs.Prelude.{◌≡◌, ℕ, ◌+◌, ◌<◌, ◌≤◌, List, [], ◌++◌, length, take, drop, map};
ghost use Rattle.sha2.specs.Sha256.{sha256};
ghost use Rattle.audit_base.specs.Hashes.{AreHashes};
ghost use Rattle.audit_tree.specs.Subtree.{leaf_hash_of, root_of, node_at, subtree_hash, depth};
ghost use Rattle.audit_tree.specs.Frontier.{FrontierData, IsFrontierOf, IsSized};
ghost use Rattle.audit_tree.specs.Continued.{root_after, frontier_after, empty_frontier};
ghost use Rattle.audit_tree.specs.Paths.{membership_path, membership_at, increment_path, increment_at};

use audit_base::{HASH_LEN, MAX_COUNT};

/// If all leaf hashes have 32 bytes, so have the root, each node, and each hash of both proofs.
pub fn hashes_keep_their_length()
    ensures root { (leaves : List (List ℕ)) → AreHashes leaves → length (root_of sha256 leaves) ≡ HASH_LEN }
    ensures node { (leaves : List (List ℕ)) (count start layer : ℕ)
        → AreHashes leaves → start < count → count ≤ length leaves
        → length (node_at sha256 leaves count start layer) ≡ HASH_LEN }
    ensures membership { (leaves : List (List ℕ)) (place : ℕ) → AreHashes leaves → place < length leaves
        → AreHashes (membership_path sha256 leaves place) }
    ensures increment { (leaves : List (List ℕ)) (older : ℕ) → AreHashes leaves → 1 ≤ older → older ≤ length leaves
        → AreHashes (increment_path sha256 leaves older) }

    // The leaf hashes of texts have 32 bytes.
    ensures texts { (texts : List (List ℕ)) → AreHashes (map leaf_hash_of texts) }
{}

/// The definitions by places (a node, the root, both proofs) agree with those by lists of leaf hashes, for any hash
/// function.
pub fn places_and_leaves_agree()
    ensures node { (H : List ℕ → List ℕ) (leaves : List (List ℕ)) (count start layer : ℕ)
        → start < count → count ≤ length leaves
        → node_at H leaves count start layer ≡ subtree_hash H layer (drop start (take count leaves)) }

    // The root under a count is the node at the layer of its depth that starts at leaf 0.
    ensures root { (H : List ℕ → List ℕ) (leaves : List (List ℕ)) (count : ℕ) → 1 ≤ count → count ≤ length leaves
        → root_of H (take count leaves) ≡ node_at H leaves count 0 (depth count) }
    ensures membership { (H : List ℕ → List ℕ) (leaves : List (List ℕ)) (count place : ℕ)
        → place < count → count ≤ length leaves
        → membership_at H leaves count place ≡ membership_path H (take count leaves) place }
    ensures increment { (H : List ℕ → List ℕ) (leaves : List (List ℕ)) (older newer : ℕ) → 1 ≤ older → older ≤ newer
        → newer ≤ length leaves → newer ≤ MAX_COUNT
        → increment_at H leaves older newer ≡ increment_path H (take newer leaves) older }
{}

/// A tree that continues from a frontier has the root and the frontier that it has from its first leaf on, whatever
/// pieces its leaves come in.
pub fn frontiers_continue()
    // From any frontier, in two pieces as in one.
    ensures root { (frontier : FrontierData) (leaves more : List (List ℕ))
        → frontier.count + length (leaves ++ more) ≤ MAX_COUNT
        → root_after (frontier_after frontier leaves) more ≡ root_after frontier (leaves ++ more) }
    ensures frontier { (frontier : FrontierData) (leaves more : List (List ℕ))
        → frontier_after (frontier_after frontier leaves) more ≡ frontier_after frontier (leaves ++ more) }
    ensures none { (frontier : FrontierData) → IsSized frontier.count frontier.hashes
        → frontier_after frontier [] ≡ frontier }

    // From the frontier of some leaves.
    ensures leaves { (frontier : FrontierData) (leaves more : List (List ℕ)) → IsFrontierOf frontier leaves
        → root_after frontier more ≡ root_of sha256 (leaves ++ more) }
    ensures empty { IsFrontierOf empty_frontier [] }
{}
