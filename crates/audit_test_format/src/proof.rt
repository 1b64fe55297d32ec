use audit_base::Hash;
use audit_proof::laws::{TextHash, collide_two_with};
use audit_proof::*;
use audit_tree::{Tree, leaf_hash};
use hex::FromHex;
use std::alloc::Global;
use std::process::Abort;

mod across;
mod proof_bytes;

// The tree over `count` texts of one byte, each of which is its leaf's index.
fn counted_tree(rt: &impl Abort, alloc: Global, count: u8) -> Tree {
    let mut tree = Tree::new(alloc);
    for place in 0..count {
        tree.push(leaf_hash(&[place])).expect(rt, "memory");
    }
    tree
}

fn hash(rt: &impl Abort, text: &str) -> Hash {
    <[u8; 32] as FromHex>::from_hex(text).expect(rt, "digits")
}

fn commitment(rt: &impl Abort, count: u64, root: &str) -> Commitment {
    Commitment {
        count,
        root: hash(rt, root),
    }
}

// `count` hashes: the first of zero bytes, the next of bytes 1, and so on.
fn counted_hashes(rt: &impl Abort, alloc: Global, count: u8) -> Vec<Hash> {
    let mut hashes = Vec::new(alloc);
    for place in 0..count {
        hashes.push([place; 32]).expect(rt, "memory");
    }
    hashes
}

// The commitments of a tree that grows to `count` texts of one byte.
fn counted_commitments(rt: &impl Abort, alloc: Global, count: u8) -> Vec<Commitment> {
    let mut tree = Tree::new(alloc);
    let mut commitments = Vec::new(alloc);
    for place in 0..count {
        tree.push(leaf_hash(&[place])).expect(rt, "memory");
        commitments.push(commitment_to(&tree)).expect(rt, "memory");
    }
    commitments
}

fn commitment_to(tree: &Tree) -> Commitment {
    Commitment {
        count: tree.count(),
        root: tree.root(),
    }
}

// Whether a membership proof is accepted, but not for another text, nor with one hash more or fewer.
fn is_exact_membership(rt: &impl Abort, tree: &Tree, commitment: &Commitment, place: u8) -> bool {
    let index = u64::from(place);
    let other = place.wrapping_add(1);
    let mut hashes = tree
        .membership(index, commitment.count)
        .expect(rt, "a path");
    let exact = accepts_member(commitment, index, &[place], &hashes)
        && !accepts_member(commitment, index, &[other], &hashes);
    hashes.push([0; 32]).expect(rt, "memory");
    let longer = accepts_member(commitment, index, &[place], &hashes);
    hashes.truncate(hashes.len().saturating_sub(2));
    let shorter = accepts_member(commitment, index, &[place], &hashes);
    exact && !longer && (!shorter || place == 0 && commitment.count == 1)
}

fn assert_memberships(rt: &impl Abort, tree: &Tree, commitment: &Commitment, count: u8) {
    for place in 0..count {
        assert!(rt;
            is_exact_membership(rt, tree, commitment, place),
            "{place} under {count}"
        );
    }
    assert!(rt; !accepts_member(commitment, commitment.count, &[count], &[]));
}

fn assert_all_memberships(rt: &impl Abort, tree: &Tree, commitments: &[Commitment]) {
    let mut count = 0u8;
    for commitment in commitments {
        count = count.saturating_add(1);
        assert_memberships(rt, tree, commitment, count);
    }
}

#[test]
fn made_memberships_are_accepted_as_they_are(rt: HostRuntime) {
    let tree = counted_tree(&rt, rt.alloc(), 33);
    let commitments = counted_commitments(&rt, rt.alloc(), 33);
    assert!(&rt; commitments.len() == 33);
    assert_all_memberships(&rt, &tree, &commitments)
}

// Whether an incremental proof is accepted, but not in reverse, nor with one hash more or fewer.
fn is_exact_increment(
    rt: &impl Abort,
    tree: &Tree,
    older: &Commitment,
    newer: &Commitment,
) -> bool {
    let mut hashes = tree
        .incremental(older.count, newer.count)
        .expect(rt, "a path");
    let exact = accepts_increment(older, newer, &hashes)
        && (older.count == newer.count || !accepts_increment(newer, older, &hashes));
    hashes.push([0; 32]).expect(rt, "memory");
    let longer = accepts_increment(older, newer, &hashes);
    hashes.truncate(hashes.len().saturating_sub(2));
    let shorter = accepts_increment(older, newer, &hashes);
    exact && !longer && !shorter
}

fn assert_increments(rt: &impl Abort, tree: &Tree, commitments: &[Commitment], newer: &Commitment) {
    for older in commitments {
        if older.count <= newer.count {
            assert!(rt; is_exact_increment(rt, tree, older, newer));
        }
    }
}

fn assert_all_increments(rt: &impl Abort, tree: &Tree, commitments: &[Commitment]) {
    for newer in commitments {
        assert_increments(rt, tree, commitments, newer);
    }
}

#[test]
fn made_increments_are_accepted_as_they_are(rt: HostRuntime) {
    let tree = counted_tree(&rt, rt.alloc(), 33);
    let commitments = counted_commitments(&rt, rt.alloc(), 33);
    assert!(&rt; commitments.len() == 33);
    assert_all_increments(&rt, &tree, &commitments)
}

const FULL: u64 = 1 << 24;

// The roots of full trees with `hello` as their first or last text.
const FULL_WITH_FIRST: &str = "303c35d90e830791ae0ec69849ab6df4fef520b3201fd058de4fc2c6634201c3";

const FULL_WITH_LAST: &str = "89a6951c2fd5564dfd50fefa7001470771d5465fc0657b2bcf05346e305fce09";

// Whether `hello` is accepted under a full tree, with `count` hashes.
fn accepts_hello(rt: &impl Abort, alloc: Global, root: &str, index: u64, count: u8) -> bool {
    let full = commitment(rt, FULL, root);
    let hashes = counted_hashes(rt, alloc, count);
    accepts_member(&full, index, b"hello", &hashes)
}

#[test]
fn the_longest_memberships_are_accepted(rt: HostRuntime) {
    for (root, index, count, accepted) in [
        (FULL_WITH_FIRST, 0, 24, true),
        (FULL_WITH_FIRST, 0, 25, false),
        (FULL_WITH_LAST, FULL - 1, 24, true),
        (FULL_WITH_LAST, FULL, 24, false),
    ] {
        assert!(&rt; accepts_hello(&rt, rt.alloc(), root, index, count) == accepted);
    }
}

// Whether the growth of a tree by its last leaf is accepted, with `count` hashes.
fn accepts_last(rt: &impl Abort, alloc: Global, count: u8) -> bool {
    let older = commitment(
        rt,
        FULL - 1,
        "4dded454fddbb4fb3276b135b882959c7bb3d37abc0509340c5696c28170f6a1",
    );
    let newer = commitment(
        rt,
        FULL,
        "398e4ceb2cbb412547202a5db2d7ec1543a03ebd7a8066ef3a4656bdfd65afe6",
    );
    let hashes = counted_hashes(rt, alloc, count);
    accepts_increment(&older, &newer, &hashes)
}

#[test]
fn the_longest_increment_is_accepted(rt: HostRuntime) {
    assert!(&rt; accepts_last(&rt, rt.alloc(), 25));
    assert!(&rt; !accepts_last(&rt, rt.alloc(), 24));
}

// A commitment of this count to a root of zeros.
fn of_zeros(count: u64) -> Commitment {
    Commitment {
        count,
        root: [0; 32],
    }
}

#[test]
fn memberships_outside_the_limits_are_not_accepted(rt: HostRuntime) {
    for (count, index) in [(0, 0), (u64::MAX, 0), (FULL + 1, u64::MAX)] {
        assert!(&rt; !accepts_member(&of_zeros(count), index, b"", &[]));
    }
}

// The last row is a full tree over the limit, whose incremental proof to itself is just its root.
const OUTSIDE: [(u64, u64, &[Hash]); 5] = [
    (0, FULL + 1, &[]),
    (0, 0, &[]),
    (u64::MAX, u64::MAX, &[[0; 32]]),
    (FULL + 1, FULL + 1, &[[0; 32]]),
    (1 << 25, 1 << 25, &[[0; 32]]),
];

#[test]
fn increments_outside_the_limits_are_not_accepted(rt: HostRuntime) {
    for (older, newer, hashes) in OUTSIDE {
        assert!(&rt; !accepts_increment(&of_zeros(older), &of_zeros(newer), hashes));
    }
}

// Why a real proof of leaf 1 of three, for this entry, and another proof of it don't collide.
fn fault_beside(
    rt: &impl Abort,
    alloc: Global,
    entry: &[u8],
    other_entry: &[u8],
    other_hashes: &[Hash],
) -> Option<CollideFault> {
    let tree = counted_tree(rt, alloc, 3);
    let three = commitment_to(&tree);
    let hashes = tree.membership(1, 3).expect(rt, "a path");
    let found = collide_two(alloc, &three, 1, entry, &hashes, other_entry, other_hashes);
    found.err()
}

// The path of leaf 1 of three.
fn path_of_three(rt: &impl Abort, alloc: Global) -> Vec<Hash> {
    counted_tree(rt, alloc, 3)
        .membership(1, 3)
        .expect(rt, "a path")
}

#[test]
fn equal_entries_do_not_collide(rt: HostRuntime) {
    let hashes = path_of_three(&rt, rt.alloc());
    let same = fault_beside(&rt, rt.alloc(), &[1], &[1], &hashes);
    assert!(&rt; same == Some(CollideFault::NoDisagreement));
    let other = fault_beside(&rt, rt.alloc(), &[2], &[1], &hashes);
    assert!(&rt; other == Some(CollideFault::NotAccepted));
}

#[test]
fn a_proof_that_is_not_accepted_does_not_collide(rt: HostRuntime) {
    let mut changed = path_of_three(&rt, rt.alloc());
    changed.pop();
    changed.push([7; 32]).expect(&rt, "memory");
    let unlike = fault_beside(&rt, rt.alloc(), &[1], &[1], &changed);
    assert!(&rt; unlike == Some(CollideFault::NotAccepted));
}

// A weak hash: the length of the text.
#[derive(Drop)]
struct Weak;

impl TextHash for Weak {
    ghost use Rattle.std.specs.Prelude.{length, ◌%◌, ◌∷◌, replicate};

    ghost value_of = { λ text. length text % 256 ∷ replicate 31 0 };

    fn hash(&self, text: &[u8]) -> Hash {
        let mut value = [0; 32];
        value[0] = (text.len() % 256) as u8;
        value
    }
}

// The commitment to a single leaf text of this length, with the weak hash.
fn weak_commitment(len: usize) -> Commitment {
    let mut root = [0; 32];
    root[0] = (len % 256) as u8;
    Commitment { count: 1, root }
}

// The collision that the weak hash yields for two entries, each alone in its log, under a root for this length.
fn weakly(
    alloc: Global,
    len: usize,
    first: &[u8],
    second: &[u8],
) -> Result<Collision, CollideFault> {
    let one = weak_commitment(len);
    collide_two_with(alloc, &Weak, &one, 0, first, &[], second, &[])
}

fn have_one_value(found: &Collision) -> bool {
    found.left.as_slice() != found.right.as_slice()
        && Weak.hash(&found.left) == Weak.hash(&found.right)
}

fn have_length(found: &Collision, len: usize) -> bool {
    found.left.len() == len && found.right.len() == len
}

#[test]
fn texts_of_one_length_collide(rt: HostRuntime) {
    let found = weakly(rt.alloc(), 2, &[0xaa], &[0xbb]).expect(&rt, "a collision");
    assert!(&rt; have_one_value(&found));
}

#[test]
fn texts_that_are_equal_or_longer_do_not_collide(rt: HostRuntime) {
    let same = weakly(rt.alloc(), 2, &[0xaa], &[0xaa]).err();
    assert!(&rt; same == Some(CollideFault::NoDisagreement));
    let longer = weakly(rt.alloc(), 2, &[0xaa], &[0xbb, 0xbb]).err();
    assert!(&rt; longer == Some(CollideFault::NotAccepted));
}

#[test]
fn nodes_of_one_length_collide(rt: HostRuntime) {
    let mut two = weak_commitment(65);
    two.count = 2;
    let above = collide_two_with(
        rt.alloc(),
        &Weak,
        &two,
        1,
        b"long",
        &[[1; 32]],
        b"short",
        &[[2; 32]],
    )
    .expect(&rt, "a collision");
    assert!(&rt; have_length(&above, 65));
}

// Whether two entries of equal length collide.
fn entries_collide(rt: &impl Abort, alloc: Global, first: &[u8], second: &[u8]) -> bool {
    let len = first.len().saturating_add(1);
    let found = weakly(alloc, len, first, second).expect(rt, "a collision");
    have_length(&found, len)
}

fn assert_entries_collide(rt: &impl Abort, alloc: Global, first: &[u8], second: &[u8]) {
    for len in 1..=MAX_ENTRY {
        assert!(rt; len <= first.len() && len <= second.len());
        assert!(rt;
            entries_collide(rt, alloc, &first[..len], &second[..len]),
            "of {len}"
        );
    }
}

#[test]
fn entries_of_each_length_collide(rt: HostRuntime) {
    let first = vec![in rt.alloc(); 1; MAX_ENTRY].expect(&rt, "memory");
    let second = vec![in rt.alloc(); 2; MAX_ENTRY].expect(&rt, "memory");
    assert_entries_collide(&rt, rt.alloc(), &first, &second);
}
