//! The tree as a plain and slow program over leaf texts of one byte. A node is given by the texts from its start on
//! and by its width in leaves. It shares nothing with the tree.

use sha2::{Digest, Sha256};
use std::alloc::Global;
use std::process::Abort;

type Digest32 = [u8; 32];

// The width of a tree with `count` leaves: the least power of two that is at least `count`.
fn width_of(count: usize) -> usize {
    [1, 2, 4, 8, 16, 32]
        .into_iter()
        .find(|width| count <= *width)
        .unwrap_or(64)
}

// The hash of a node. Its right side is omitted if the texts end before it.
pub fn node(texts: &[u8], width: usize) -> Digest32 {
    let mut hasher = Sha256::new();
    if width <= 1 {
        hasher.update(&[0]);
        hasher.update(texts.get(..1).unwrap_or(&[]));
        return hasher.finalize();
    }
    let half = width / 2;
    hasher.update(&[1]);
    hasher.update(&node(texts, half));
    if half < texts.len() {
        hasher.update(&node(&texts[half..], half));
    }
    hasher.finalize()
}

// The root over the texts.
pub fn root(texts: &[u8]) -> Digest32 {
    if texts.is_empty() {
        return [0; 32];
    }
    node(texts, width_of(texts.len()))
}

// Appends the siblings on a leaf's path, from the node of one width up to that of another, over these texts.
fn add_siblings(
    rt: &impl Abort,
    hashes: &mut Vec<Digest32>,
    texts: &[u8],
    leaf: usize,
    from: usize,
    width: usize,
) {
    if width <= from || width <= 1 {
        return;
    }
    let half = width / 2;
    if texts.len() <= half {
        return add_siblings(rt, hashes, texts, leaf, from, half);
    }
    let (left, right) = texts.split_at(half);
    if leaf < half {
        add_siblings(rt, hashes, left, leaf, from, half);
        hashes.push(node(right, half)).expect(rt, "memory");
        return;
    }
    add_siblings(rt, hashes, right, leaf - half, from, half);
    hashes.push(node(left, half)).expect(rt, "memory");
}

// The membership proof of a leaf under the count of these texts.
pub fn membership(rt: &impl Abort, alloc: Global, texts: &[u8], leaf: usize) -> Vec<Digest32> {
    let mut hashes = Vec::new(alloc);
    add_siblings(rt, &mut hashes, texts, leaf, 1, width_of(texts.len()));
    hashes
}

// The incremental proof from an older count (at least one) to the count of these texts.
pub fn increment(rt: &impl Abort, alloc: Global, texts: &[u8], older: usize) -> Vec<Digest32> {
    let width = older & older.wrapping_neg();
    let last = older.saturating_sub(width);
    let first = node(texts.get(last..).unwrap_or(&[]), width);
    let mut hashes = Vec::new(alloc);
    hashes.push(first).expect(rt, "memory");
    add_siblings(
        rt,
        &mut hashes,
        texts,
        older.saturating_sub(1),
        width,
        width_of(texts.len()),
    );
    hashes
}
