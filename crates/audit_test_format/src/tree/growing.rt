// Frontiers to which leaves are added four nodes at a time. Their roots are those of the plain program.
use super::plain;
use audit_base::Hash;
use audit_tree::{Frontier, GrowingFrontier, MAX_COUNT, leaf_hash};

// The texts of one byte, each of which is its leaf's index.
const TEXTS: [u8; 64] = [
    0, 1, 2, 3, 4, 5, 6, 7, 8, 9, 10, 11, 12, 13, 14, 15, 16, 17, 18, 19, 20, 21, 22, 23, 24, 25,
    26, 27, 28, 29, 30, 31, 32, 33, 34, 35, 36, 37, 38, 39, 40, 41, 42, 43, 44, 45, 46, 47, 48, 49,
    50, 51, 52, 53, 54, 55, 56, 57, 58, 59, 60, 61, 62, 63,
];

// The frontier of leaves that are added one by one.
fn pushed(texts: &[u8]) -> Frontier {
    let mut frontier = Frontier::new();
    for text in texts {
        if frontier.count() < MAX_COUNT {
            frontier.push(leaf_hash(&[*text]));
        }
    }
    frontier
}

// The root of a tree that goes on from a frontier.
fn grown(frontier: &Frontier, texts: &[u8]) -> Hash {
    let mut growing = GrowingFrontier::new(frontier);
    for text in texts {
        if growing.count() < MAX_COUNT {
            growing.push(leaf_hash(&[*text]));
        }
    }
    growing.into_frontier().root()
}

#[test]
fn every_count_after_every_frontier(rt: HostRuntime) {
    for first in 0..20_usize {
        let frontier = pushed(&TEXTS[..first]);
        for count in first..64 {
            assert!(&rt;
                grown(&frontier, &TEXTS[first..count]) == plain::root(&TEXTS[..count]),
                "{first} of {count}"
            );
        }
    }
}
