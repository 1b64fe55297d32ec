use audit_tree::*;
use sha2::{Digest, Sha256};
use std::alloc::Global;
use std::process::Abort;

mod growing;
mod plain;

// A digest in hex digits.
fn hex(rt: &impl Abort, alloc: Global, bytes: &[u8]) -> String {
    let mut text = String::new(alloc);
    for byte in bytes {
        let digits = format!(in alloc; "{byte:02x}").expect(rt, "memory");
        text.push_str(digits.as_str()).expect(rt, "memory");
    }
    text
}

fn assert_hex(rt: &impl Abort, alloc: Global, bytes: &[u8], expected: &str) {
    let text = hex(rt, alloc, bytes);
    assert!(rt; text.as_str() == expected, "{text}");
}

// The sample's texts.
const SAMPLE: [&[u8]; 4] = [b"", &[0x00], &[0x10], &[0x20, 0x21]];

// The tree over the sample's texts.
fn sample_tree(rt: &impl Abort, alloc: Global) -> Tree {
    let mut tree = Tree::new(alloc);
    for text in SAMPLE {
        tree.push(leaf_hash(text)).expect(rt, "memory");
    }
    tree
}

// The tree over `count` texts of one byte, each of which is its leaf's index.
fn counted_tree(rt: &impl Abort, alloc: Global, count: u8) -> Tree {
    let mut tree = Tree::new(alloc);
    for place in 0..count {
        tree.push(leaf_hash(&[place])).expect(rt, "memory");
    }
    tree
}

// Asserts the tree's count, and its root over `count` leaves of the sample.
fn assert_sample_root(rt: &impl Abort, alloc: Global, tree: &Tree, count: u64) {
    assert!(rt; tree.count() == count);
    assert_hex(rt, alloc, &tree.root(), sample_root(count))
}

fn sample_root(count: u64) -> &'static str {
    match count {
        0 => "0000000000000000000000000000000000000000000000000000000000000000",
        1 => "6e340b9cffb37a989ca544e6bb780a2c78901d3fb33738768511a30617afa01d",
        2 => "fac54203e7cc696cf0dfcb42c92a1d9dbaf70ad9e621f4bd8d98662f00e3c125",
        3 => "8ce927e8575c4251922503a589ad2fa22b2b56370dde793885e5d7c7baefc6b5",
        _ => "d37ee418976dd95753c1c73862b9398fa2a2cf9b4ff0fdfe8b30cd95209614b7",
    }
}

// Asserts the digests in a list, in order.
fn assert_hex_list(rt: &impl Abort, alloc: Global, hashes: &[Hash], expected: &str) {
    let text = hex_of_list(rt, alloc, hashes);
    assert!(rt; text.as_str() == expected, "{text}");
}

fn hex_of_list(rt: &impl Abort, alloc: Global, hashes: &[Hash]) -> String {
    let mut text = String::new(alloc);
    for hash in hashes {
        push_hex(rt, alloc, &mut text, hash);
    }
    text
}

fn push_hex(rt: &impl Abort, alloc: Global, text: &mut String, hash: &Hash) {
    let digits = hex(rt, alloc, hash);
    text.push_str(digits.as_str()).expect(rt, "memory");
}

#[test]
fn roots_of_the_sample_tree(rt: HostRuntime) {
    let mut tree = Tree::new(rt.alloc());
    assert_sample_root(&rt, rt.alloc(), &tree, 0);
    for (place, text) in SAMPLE.iter().enumerate() {
        tree.push(leaf_hash(text)).expect(&rt, "memory");
        assert_sample_root(&rt, rt.alloc(), &tree, place as u64 + 1);
    }
}

#[test]
fn a_membership_of_the_sample_tree(rt: HostRuntime) {
    let path = sample_tree(&rt, rt.alloc())
        .membership(0, 4)
        .expect(&rt, "a path");
    assert_hex_list(
        &rt,
        rt.alloc(),
        &path,
        "96a296d224f285c67bee93c30f8a309157f0daa35dc5b87e410b78630a09cfc7\
         5f083f0a1a33ca076a95279832580db3e0ef4584bdff1f54c8a360f50de3031e",
    )
}

#[test]
fn an_increment_of_the_sample_tree(rt: HostRuntime) {
    let path = sample_tree(&rt, rt.alloc())
        .incremental(2, 4)
        .expect(&rt, "a path");
    assert_hex_list(
        &rt,
        rt.alloc(),
        &path,
        "fac54203e7cc696cf0dfcb42c92a1d9dbaf70ad9e621f4bd8d98662f00e3c125\
         5f083f0a1a33ca076a95279832580db3e0ef4584bdff1f54c8a360f50de3031e",
    )
}

// Whether a proof is refused because the tree has no such version.
fn is_refused(proof: Result<Vec<Hash>, TreeError>) -> bool {
    proof.err() == Some(TreeError::NoSuchVersion)
}

#[test]
fn versions_outside_the_tree_have_no_membership(rt: HostRuntime) {
    let tree = sample_tree(&rt, rt.alloc());
    for (index, count) in [(3, 3), (0, 0), (0, 5), (u64::MAX, u64::MAX)] {
        assert!(&rt;
            is_refused(tree.membership(index, count)),
            "{index} under {count}"
        );
    }
}

#[test]
fn versions_outside_the_tree_have_no_increment(rt: HostRuntime) {
    let tree = sample_tree(&rt, rt.alloc());
    for (older, newer) in [(0, 1), (2, 1), (4, 5), (u64::MAX, u64::MAX)] {
        assert!(&rt;
            is_refused(tree.incremental(older, newer)),
            "{older} to {newer}"
        );
    }
}

#[test]
fn reserved_room_survives_a_push(rt: HostRuntime) {
    let mut tree = Tree::new(rt.alloc());
    tree.reserve(3).expect(&rt, "memory");
    tree.push(leaf_hash(b"")).expect(&rt, "memory");
    assert!(&rt; tree.spare() == 3);
    tree.push_reserved(leaf_hash(&[0x00]));
    tree.push_reserved(leaf_hash(&[0x10]));
    tree.push_reserved(leaf_hash(&[0x20, 0x21]));
    assert!(&rt; tree.spare() == 0);
    assert_sample_root(&rt, rt.alloc(), &tree, 4)
}

// The digest of the roots under the counts up to 33.
fn digest_of_roots(rt: &impl Abort, alloc: Global) -> Hash {
    let mut hasher = Sha256::new();
    let mut growing = Tree::new(alloc);
    hasher.update(&growing.root());
    for place in 0..33u8 {
        growing.push(leaf_hash(&[place])).expect(rt, "memory");
        hasher.update(&growing.root());
    }
    hasher.finalize()
}

fn add_hashes(hasher: &mut Sha256, hashes: &[Hash]) {
    for hash in hashes {
        hasher.update(hash);
    }
}

fn add_memberships(rt: &impl Abort, hasher: &mut Sha256, tree: &Tree, count: u64) {
    for place in 0..count {
        add_hashes(hasher, &tree.membership(place, count).expect(rt, "a path"));
    }
}

fn add_increments(rt: &impl Abort, hasher: &mut Sha256, tree: &Tree, count: u64) {
    for older in 1..=count {
        add_hashes(hasher, &tree.incremental(older, count).expect(rt, "a path"));
    }
}

fn digest_of_memberships(rt: &impl Abort, tree: &Tree) -> Hash {
    let mut hasher = Sha256::new();
    for count in 1..34 {
        add_memberships(rt, &mut hasher, tree, count);
    }
    hasher.finalize()
}

fn digest_of_increments(rt: &impl Abort, tree: &Tree) -> Hash {
    let mut hasher = Sha256::new();
    for count in 1..34 {
        add_increments(rt, &mut hasher, tree, count);
    }
    hasher.finalize()
}

// The digests are over the hashes that a model of the definitions computes, count by count.
#[test]
fn roots_to_33_match_the_definitions(rt: HostRuntime) {
    assert_hex(
        &rt,
        rt.alloc(),
        &digest_of_roots(&rt, rt.alloc()),
        "2229cd9b506c80d41a1306992b8081aa4f096569e267829aa1100aace9f8b792",
    )
}

#[test]
fn memberships_to_33_match_the_definitions(rt: HostRuntime) {
    assert_hex(
        &rt,
        rt.alloc(),
        &digest_of_memberships(&rt, &counted_tree(&rt, rt.alloc(), 33)),
        "9b8d4146347ac29df12ee7ff2dd097b973389b959f33a91fbe44995925576445",
    )
}

#[test]
fn increments_to_33_match_the_definitions(rt: HostRuntime) {
    assert_hex(
        &rt,
        rt.alloc(),
        &digest_of_increments(&rt, &counted_tree(&rt, rt.alloc(), 33)),
        "de39380807fcb04db18451c26619a477c038f9f85e3528dfe5bb7691548d3412",
    )
}

// The hash of a node, if there is one.
fn node_under(tree: &Tree, start: u64, layer: u32, count: u64) -> Option<Hash> {
    if 8 <= layer || start % (1 << layer) != 0 || count <= start || tree.count() < count {
        return None;
    }
    Some(tree.node(start, layer, count))
}

// The place of a full node, if there is one.
fn place_of(start: u64, layer: u32) -> Option<u64> {
    if LAYERS <= layer as usize || start % (1 << layer) != 0 || MAX_COUNT <= start {
        return None;
    }
    Some(frozen_place(start, layer))
}

// The hash at the place of a full node.
fn frozen_at(tree: &Tree, start: u64, layer: u32) -> Option<Hash> {
    let place = place_of(start, layer)?;
    tree.frozen().get(place as usize).copied()
}

// Asserts the nodes that start at a leaf, under the count of these first texts.
fn assert_plain_nodes(rt: &impl Abort, tree: &Tree, texts: &[u8], start: usize) {
    let rest = texts.get(start..).unwrap_or(&[]);
    for layer in 0..7u32 {
        if let Some(node) = node_under(tree, start as u64, layer, texts.len() as u64) {
            assert_plain_node(rt, tree, node, rest, start, layer);
        }
    }
}

// Asserts a node over the first of these texts: at its place too, if it is full.
fn assert_plain_node(
    rt: &impl Abort,
    tree: &Tree,
    node: Hash,
    rest: &[u8],
    start: usize,
    layer: u32,
) {
    assert!(rt; layer < 7);
    let width = 1usize << layer;
    assert!(rt; node == plain::node(rest, width), "{start}, {layer}");
    if width <= rest.len() {
        assert!(rt;
            frozen_at(tree, start as u64, layer) == Some(node),
            "{start}, {layer}"
        );
    }
}

fn is_plain_membership(
    rt: &impl Abort,
    alloc: Global,
    tree: &Tree,
    texts: &[u8],
    leaf: usize,
) -> bool {
    let made = tree
        .membership(leaf as u64, texts.len() as u64)
        .expect(rt, "a path");
    made == plain::membership(rt, alloc, texts, leaf)
}

fn is_plain_increment(
    rt: &impl Abort,
    alloc: Global,
    tree: &Tree,
    texts: &[u8],
    older: usize,
) -> bool {
    let made = tree
        .incremental(older as u64, texts.len() as u64)
        .expect(rt, "a path");
    made == plain::increment(rt, alloc, texts, older)
}

// Asserts the nodes and the proofs of a tree under the count of these first texts.
fn assert_plain(rt: &impl Abort, alloc: Global, tree: &Tree, texts: &[u8]) {
    for start in 0..texts.len() {
        assert_plain_nodes(rt, tree, texts, start);
        assert!(rt; is_plain_membership(rt, alloc, tree, texts, start));
        assert!(rt; is_plain_increment(rt, alloc, tree, texts, start + 1));
    }
}

// The texts of `count` leaves.
fn counted_texts(rt: &impl Abort, alloc: Global, count: u8) -> Vec<u8> {
    let mut texts = Vec::new(alloc);
    for place in 0..count {
        texts.push(place).expect(rt, "memory");
    }
    texts
}

// Asserts the root, the nodes and the proofs of a tree of `count` leaves.
fn assert_plain_root(rt: &impl Abort, alloc: Global, growing: &Tree, count: u8) {
    let texts = counted_texts(rt, alloc, count);
    assert!(rt; growing.root() == plain::root(&texts), "{count}");
    assert_plain(rt, alloc, growing, &texts)
}

#[test]
fn growing_trees_to_33_match_the_plain_program(rt: HostRuntime) {
    let mut growing = Tree::new(rt.alloc());
    assert_plain_root(&rt, rt.alloc(), &growing, 0);
    for place in 0..33u8 {
        growing.push(leaf_hash(&[place])).expect(&rt, "memory");
        assert_plain_root(&rt, rt.alloc(), &growing, place + 1);
    }
}

#[test]
fn counts_to_33_of_one_tree_match_the_plain_program(rt: HostRuntime) {
    let whole = counted_tree(&rt, rt.alloc(), 33);
    for count in 1..34 {
        let texts = counted_texts(&rt, rt.alloc(), count);
        assert_plain(&rt, rt.alloc(), &whole, &texts);
    }
}

// The start of a full node, its layer and its place.
const PLACES: [(u64, u32, u64); 9] = [
    (0, 0, 0),
    (1, 0, 1),
    (0, 1, 2),
    (2, 0, 3),
    (3, 0, 4),
    (2, 1, 5),
    (0, 2, 6),
    (4, 0, 7),
    (0, 24, 33_554_430),
];

fn assert_places(rt: &impl Abort) {
    for (start, layer, place) in PLACES {
        assert!(rt; place_of(start, layer) == Some(place), "{place}");
    }
}

#[test]
fn five_leaves_freeze_eight_hashes(rt: HostRuntime) {
    assert_places(&rt);
    let tree = counted_tree(&rt, rt.alloc(), 5);
    assert!(&rt; tree.frozen().len() == 8);
}

// Checks a tree with `more` reserved leaves at each count.
fn expect_room(rt: &impl Abort, alloc: Global, more: u64) {
    assert!(rt; more <= MAX_COUNT);
    let mut tree = Tree::new(alloc);
    for place in 0..70u8 {
        tree.push(leaf_hash(&[place])).expect(rt, "memory");
        tree.reserve(more).expect(rt, "memory");
        assert!(rt; tree.spare() == more);
    }
}

#[test]
fn room_is_reserved_at_each_count(rt: HostRuntime) {
    for more in 0..70 {
        expect_room(&rt, rt.alloc(), more);
    }
}

// A tree of `count` leaves, each over the four bytes of its index.
fn tree_of_places(rt: &impl Abort, alloc: Global, count: u32) -> Tree {
    let mut tree = Tree::new(alloc);
    for place in 0..count {
        tree.push(leaf_hash(&place.to_be_bytes()))
            .expect(rt, "memory");
    }
    tree
}

// Fills a tree with leaf hashes of zeros.
fn fill(rt: &impl Abort, tree: &mut Tree) {
    for _ in tree.count()..MAX_COUNT {
        tree.push([0; 32]).expect(rt, "memory");
    }
}

// The root of 2^20 leaves was computed by a model.
#[test]
fn a_tree_of_2_to_the_20_leaves(rt: HostRuntime) {
    let tree = tree_of_places(&rt, rt.alloc(), 1 << 20);
    assert_hex(
        &rt,
        rt.alloc(),
        &tree.root(),
        "d3dee2eed7a7edb0eab7ac020950d679237f01a8de00fcfdea6cb66fea44f9e9",
    );
}

fn largest_tree(rt: &impl Abort, alloc: Global) -> Tree {
    let mut tree = Tree::new(alloc);
    tree.reserve(MAX_COUNT).expect(rt, "memory");
    fill(rt, &mut tree);
    tree
}

// How many hashes prove the membership of leaf 0 in a largest tree, and its growth from count 1.
const LONGEST_MEMBERSHIPS: [(u64, usize); 3] = [
    (MAX_COUNT, 24),
    ((1 << 23) + 1, 24),
    (1 << 23, 23),
];

const LONGEST_INCREMENTS: [(u64, usize); 2] = [(MAX_COUNT, 25), (1 << 23, 24)];

fn assert_memberships(rt: &impl Abort, tree: &Tree) {
    for (count, len) in LONGEST_MEMBERSHIPS {
        assert!(rt;
            tree.membership(0, count).expect(rt, "a path").len() == len,
            "under {count}"
        );
    }
}

fn assert_increments(rt: &impl Abort, tree: &Tree) {
    for (newer, len) in LONGEST_INCREMENTS {
        assert!(rt;
            tree.incremental(1, newer).expect(rt, "a path").len() == len,
            "to {newer}"
        );
    }
}

// Whether it is full, and refuses another leaf.
fn is_full(tree: &mut Tree) -> bool {
    tree.count() == MAX_COUNT
        && tree.push([0; 32]).err() == Some(TreeError::Full)
        && tree.frozen().len() == 33_554_431
        && is_refused(tree.membership(MAX_COUNT, MAX_COUNT + 1))
}

#[test]
fn the_largest_tree(rt: HostRuntime) {
    let mut tree = largest_tree(&rt, rt.alloc());
    assert!(&rt; is_full(&mut tree));
    assert_memberships(&rt, &tree);
    assert_increments(&rt, &tree);
}
