use crate::figures::print_figures;
use crate::times::Stopwatch;
use audit_tree::{Tree, leaf_hash};
use std::rt::Clock;

// How often a root and a proof are requested.
const REPEATS: u64 = 100_000;

/// Times pushing `leaves` leaves of 74 bytes, and roots and membership proofs over them.
pub fn measure(rt: &(impl Clock + Eprint + AllocGlobal), leaves: u32) -> anyhow::Result<()> {
    let mut tree = Tree::new(rt.alloc());
    time_pushes(rt, &mut tree, leaves)?;
    time_roots(rt, &tree)?;
    time_proofs(rt, &tree)
}

fn time_pushes(rt: &(impl Clock + Eprint), tree: &mut Tree, leaves: u32) -> anyhow::Result<()> {
    let watch = Stopwatch::start(rt);
    push_leaves(tree, leaves)?;
    let pushes = watch.nanoseconds(rt)?;
    print_figures(
        rt,
        &[("pushes", u128::from(leaves)), ("nanoseconds", pushes)],
    )
}

fn push_leaves(tree: &mut Tree, leaves: u32) -> anyhow::Result<()> {
    let mut text = [0x5a; 74];
    for number in 0..leaves {
        text[..4].copy_from_slice(&number.to_be_bytes());
        tree.push(leaf_hash(&text))?;
    }
    Ok(())
}

fn time_roots(rt: &(impl Clock + Eprint), tree: &Tree) -> anyhow::Result<()> {
    let watch = Stopwatch::start(rt);
    let mut seen = 0;
    for _ in 0..REPEATS {
        seen ^= tree.root()[0];
    }
    let roots = watch.nanoseconds(rt)?;
    print_requests(rt, "roots", REPEATS, roots, u128::from(seen))
}

fn time_proofs(rt: &(impl Clock + Eprint), tree: &Tree) -> anyhow::Result<()> {
    let repeats = REPEATS.min(tree.count());
    let watch = Stopwatch::start(rt);
    let hashes = make_proofs(tree, repeats)?;
    let proofs = watch.nanoseconds(rt)?;
    print_requests(rt, "proofs", repeats, proofs, hashes as u128)
}

fn print_requests<R: Eprint>(
    rt: &R,
    name: &str,
    repeats: u64,
    nanoseconds: u128,
    seen: u128,
) -> anyhow::Result<()> {
    print_figures(
        rt,
        &[
            (name, u128::from(repeats)),
            ("nanoseconds", nanoseconds),
            ("seen", seen),
        ],
    )
}

// Makes `repeats` proofs, and returns a value that depends on them.
fn make_proofs(tree: &Tree, repeats: u64) -> anyhow::Result<usize> {
    let mut hashes = 0;
    for index in 0..repeats {
        hashes ^= tree.membership(index, tree.count())?.len();
    }
    Ok(hashes)
}
