ghost use Rattle.std.specs.Prelude.{◌≡◌, ◌∷◌, replicate, slice_index_or};

use super::*;
use audit_proof::laws::collide_three_with;

// A weak hash: the sum of the first bytes of a text's two sides, after its mark.
#[derive(Drop)]
struct Sums;

impl TextHash for Sums {
    ghost use Rattle.std.specs.Prelude.{◌+◌, ◌%◌, ◌∷◌, replicate, slice_index_or};

    ghost value_of = { λ text. (slice_index_or text 1 0 + slice_index_or text 33 0) % 256 ∷ replicate 31 0 };

    fn hash(&self, text: &[u8]) -> Hash {
        first_byte(byte_at(text, 1).wrapping_add(byte_at(text, 33)))
    }
}

// The byte at a place, or 0 beyond the end.
fn byte_at(text: &[u8], place: usize) -> u8
    ensures { result ≡ slice_index_or text.now place 0 }
{
    if place < text.len() { text[place] } else { 0 }
}

// A hash of one byte followed by zeros.
fn first_byte(byte: u8) -> Hash
    ensures { result ≡ byte ∷ replicate 31 0 }
{
    let mut value = [0; 32];
    value[0] = byte;
    value
}

// Two versions, an index, and how many hashes the incremental proof and the two membership proofs have there.
#[derive(Drop)]
struct Versions {
    older: u64,
    newer: u64,
    index: u64,
    increment: usize,
    first: usize,
    second: usize,
}

fn versions_at(rt: &impl Abort, tree: &Tree, older: u64, newer: u64, index: u64) -> Versions {
    Versions {
        older,
        newer,
        index,
        increment: tree.incremental(older, newer).expect(rt, "a path").len(),
        first: tree.membership(index, older).expect(rt, "a path").len(),
        second: tree.membership(index, newer).expect(rt, "a path").len(),
    }
}

// `count` hashes of zeros, except that the one at `place` cancels what a leaf contributes.
fn zeros_but(rt: &impl Abort, alloc: Global, count: usize, place: usize, leaf: u8) -> Vec<Hash> {
    let mut hashes = Vec::new(alloc);
    for at in 0..count {
        let byte = if at == place {
            0u8.wrapping_sub(leaf)
        } else {
            0
        };
        hashes.push(first_byte(byte)).expect(rt, "memory");
    }
    hashes
}

// The sum of a leaf that some hash cancels, or of a leaf like all others.
fn leaf_at(place: usize, count: usize, sum: u8) -> u8 {
    if place < count { sum } else { 0 }
}

// The result for two entries in trees whose roots and hashes are all zero. Each entry has a nonzero sum, which is
// carried up to the hash at its place, if there is one.
fn found(
    rt: &impl Abort,
    alloc: Global,
    at: &Versions,
    first_place: usize,
    second_place: usize,
) -> Collision {
    let first = leaf_at(first_place, at.first, 1);
    let second = leaf_at(second_place, at.second, 2);
    collide_three_with(
        alloc,
        &Sums,
        &of_zeros(at.older),
        &of_zeros(at.newer),
        &zeros_but(rt, alloc, at.increment, 0, 0),
        at.index,
        &[first, 1],
        &zeros_but(rt, alloc, at.first, first_place, first),
        &[second, 2],
        &zeros_but(rt, alloc, at.second, second_place, second),
    )
    .expect(rt, "a collision")
}

fn have_one_sum(found: &Collision) -> bool {
    found.left.as_slice() != found.right.as_slice()
        && Sums.hash(&found.left) == Sums.hash(&found.right)
}

fn assert_entries_collide_at(rt: &impl Abort, alloc: Global, at: &Versions, first_place: usize) {
    for second_place in 0..=at.second {
        let collision = found(rt, alloc, at, first_place, second_place);
        assert!(rt; have_one_sum(&collision), "{first_place} {second_place}");
    }
}

fn assert_all_entries_collide(rt: &impl Abort, alloc: Global, at: &Versions) {
    for first_place in 0..=at.first {
        assert_entries_collide_at(rt, alloc, at, first_place);
    }
}

fn assert_versions_collide(rt: &impl Abort, alloc: Global, tree: &Tree, older: u64, newer: u64) {
    for index in 0..older {
        let at = versions_at(rt, tree, older, newer, index);
        assert_all_entries_collide(rt, alloc, &at);
    }
}

fn assert_older_versions_collide(rt: &impl Abort, alloc: Global, tree: &Tree, newer: u64) {
    for older in 1..=newer {
        assert_versions_collide(rt, alloc, tree, older, newer);
    }
}

#[test]
fn entries_under_any_two_versions_collide(rt: HostRuntime) {
    let tree = counted_tree(&rt, rt.alloc(), 17);
    for newer in 1..=17 {
        assert_older_versions_collide(&rt, rt.alloc(), &tree, newer);
    }
}

// Entries of the tree without its last leaf: the first, those around its middle and the last, with the numbers of
// their hashes in that tree and in the full one.
const LARGEST: [(u64, usize, usize); 4] = [
    (0, 24, 24),
    (FULL / 2 - 1, 24, 24),
    (FULL / 2, 24, 24),
    (FULL - 2, 23, 24),
];

#[test]
fn entries_under_the_largest_versions_collide(rt: HostRuntime) {
    for (index, first, second) in LARGEST {
        let at = Versions {
            older: FULL - 1,
            newer: FULL,
            index,
            increment: 25,
            first,
            second,
        };
        assert_all_entries_collide(&rt, rt.alloc(), &at);
    }
}

// Whether entries of equal length collide, the first alone in its tree and the second with another.
fn entries_collide_across(rt: &impl Abort, alloc: Global, first: &[u8], second: &[u8]) -> bool {
    let root = weak_commitment(first.len().saturating_add(1));
    let mut pair = weak_commitment(65);
    pair.count = 2;
    let increment = [root.root, [0; 32]];
    let found = collide_three_with(
        alloc,
        &Weak,
        &root,
        &pair,
        &increment,
        0,
        first,
        &[],
        second,
        &[[0; 32]],
    )
    .expect(rt, "a collision");
    have_one_value(&found)
}

fn assert_entries_collide_across(rt: &impl Abort, alloc: Global, first: &[u8], second: &[u8]) {
    for len in 1..=MAX_ENTRY {
        assert!(rt; len <= first.len() && len <= second.len());
        assert!(rt;
            entries_collide_across(rt, alloc, &first[..len], &second[..len]),
            "of {len}"
        );
    }
}

#[test]
fn entries_of_each_length_collide_across_versions(rt: HostRuntime) {
    let first = vec![in rt.alloc(); 1; MAX_ENTRY].expect(&rt, "memory");
    let second = vec![in rt.alloc(); 2; MAX_ENTRY].expect(&rt, "memory");
    assert_entries_collide_across(&rt, rt.alloc(), &first, &second);
}

// The result of the weak hash for `aa` alone in its tree, and another entry followed by one more.
fn weakly_across(
    alloc: Global,
    increment: &[Hash],
    second: &[u8],
) -> Result<Collision, CollideFault> {
    let mut two = weak_commitment(65);
    two.count = 2;
    collide_three_with(
        alloc,
        &Weak,
        &weak_commitment(2),
        &two,
        increment,
        0,
        &[0xaa],
        &[],
        second,
        &[[0; 32]],
    )
}

#[test]
fn a_text_before_and_after_growth_collides(rt: HostRuntime) {
    let increment = [first_byte(2), [0; 32]];
    let found = weakly_across(rt.alloc(), &increment, &[0xbb]).expect(&rt, "a collision");
    assert!(&rt; have_one_value(&found));
    let shorter = weak_fault(rt.alloc(), &increment[..1], &[0xbb]);
    assert!(&rt; shorter == Some(CollideFault::NotAccepted));
    let same = weak_fault(rt.alloc(), &increment, &[0xaa]);
    assert!(&rt; same == Some(CollideFault::NoDisagreement));
}

fn weak_fault(alloc: Global, increment: &[Hash], second: &[u8]) -> Option<CollideFault> {
    weakly_across(alloc, increment, second).err()
}

// Why real proofs of leaf 1 of three and of five, for these entries, and an incremental proof don't collide.
fn fault_across(
    rt: &impl Abort,
    alloc: Global,
    first: &[u8],
    second: &[u8],
    older: u8,
    newer: u8,
) -> Option<CollideFault> {
    let tree = counted_tree(rt, alloc, 5);
    let three = commitment_to(&counted_tree(rt, alloc, 3));
    let found = collide_three(
        alloc,
        &three,
        &commitment_to(&tree),
        &tree
            .incremental(u64::from(older), u64::from(newer))
            .expect(rt, "a path"),
        1,
        first,
        &tree.membership(1, 3).expect(rt, "a path"),
        second,
        &tree.membership(1, 5).expect(rt, "a path"),
    );
    found.err()
}

#[test]
fn made_proofs_across_versions_do_not_collide(rt: HostRuntime) {
    let alloc = rt.alloc();
    let same = fault_across(&rt, alloc, &[1], &[1], 3, 5);
    assert!(&rt; same == Some(CollideFault::NoDisagreement));
    for (first, second, older, newer) in [(2, 1, 3, 5), (1, 2, 3, 5), (1, 1, 3, 4), (1, 1, 2, 5)] {
        let other = fault_across(&rt, alloc, &[first], &[second], older, newer);
        assert!(&rt; other == Some(CollideFault::NotAccepted));
    }
}
