//! Replies to questions for membership proofs, compared with the proof, the reads of the entry's sectors and its leaf
//! hash.
use crate::figures::print_figures;
use crate::sessions::{ROUNDS, started, time_frames};
use crate::times::{Rounds, Stopwatch, Times};
use anyhow::bail;
use audit_disk::{SECTOR_SIZE, Sectors};
use audit_log::LOG_START;
use audit_server::Core;
use audit_store::Store;
use audit_tree::leaf_hash;
use std::alloc::Global;
use std::rt::Clock;

// The number of questions in a batch.
const QUESTIONS: u32 = 64;

// The distance between the indices of consecutive questions, before they are reduced modulo the count. It is a prime
// number.
const STRIDE: u64 = 7_368_787;

// The frame of a question for a membership proof.
const QUESTION_LEN: usize = 23;

// The first byte of a reply with a membership proof.
const MEMBERSHIP: u8 = 0x83;

// The length of an entry with a payload of two bytes. It occupies one sector.
const ENTRY_LEN: usize = 74;

/// Times replies to questions for membership proofs of entries all over the log, under the full count; and as many
/// proofs, reads and leaf hashes alone, for other entries, through a second handle of the file.
pub fn time_questions<R: AllocGlobal + Clock + Eprint, D: Sectors + Drop, B: Sectors>(
    rt: &R,
    store: Store<D>,
    bare: &mut B,
) -> anyhow::Result<()> {
    let count = store.commitment().count;
    let mut rounds = Rounds::new(rt.alloc());
    time_rounds(rt, store, bare, &mut rounds)?;
    print_rounds(rt, count, rounds)
}

fn time_rounds<R: AllocGlobal + Clock, D: Sectors + Drop, B: Sectors>(
    rt: &R,
    store: Store<D>,
    bare: &mut B,
    rounds: &mut Rounds,
) -> anyhow::Result<()> {
    let mut store = store;
    for round in 0..ROUNDS {
        let alone = time_bare(rt, &store, bare, round.saturating_mul(2))?;
        store = time_core(rt, store, round, alone, rounds)?;
    }
    Ok(())
}

fn print_rounds<R: Eprint>(rt: &R, count: u64, rounds: Rounds) -> anyhow::Result<()> {
    let times = rounds.low()?;
    print_figures(
        rt,
        &[
            ("replies", u128::from(QUESTIONS)),
            ("nanoseconds", times.whole),
            ("bare", times.bare),
            ("events", u128::from(count)),
            ("seen", u128::from(times.seen)),
        ],
    )
}

// Times the work that replies to a batch of questions can't avoid.
fn time_bare<R: AllocGlobal + Clock, D: Sectors, B: Sectors>(
    rt: &R,
    store: &Store<D>,
    bare: &mut B,
    batch: u32,
) -> anyhow::Result<Times> {
    let indices = some_indices(rt.alloc(), batch, store.commitment().count)?;
    let watch = Stopwatch::start(rt);
    let seen = bare_replies(store, bare, &indices)?;
    Ok(Times {
        whole: 0,
        bare: watch.nanoseconds(rt)?,
        seen,
    })
}

// Times the replies of a round, records both of its times, and returns the store.
fn time_core<R: AllocGlobal + Clock, D: Sectors + Drop>(
    rt: &R,
    store: Store<D>,
    round: u32,
    alone: Times,
    rounds: &mut Rounds,
) -> anyhow::Result<Store<D>> {
    let count = store.commitment().count;
    let mut core = started(rt.alloc(), store)?;
    add_round(rt, &mut core, round, count, alone, rounds)?;
    Ok(core.into_store())
}

fn add_round<R: AllocGlobal + Clock, D: Sectors>(
    rt: &R,
    core: &mut Core<D>,
    round: u32,
    count: u64,
    alone: Times,
    rounds: &mut Rounds,
) -> anyhow::Result<()> {
    let batch = round.saturating_mul(2).saturating_add(1);
    let whole = time_replies(rt, core, batch, count)?;
    Ok(rounds.push(Times { whole, ..alone })?)
}

// Times the replies to a batch of questions about this many events.
fn time_replies<R: AllocGlobal + Clock, D: Sectors>(
    rt: &R,
    core: &mut Core<D>,
    batch: u32,
    count: u64,
) -> anyhow::Result<u128> {
    let indices = some_indices(rt.alloc(), batch, count)?;
    let frames = question_frames(rt.alloc(), &indices, count)?;
    time_frames(rt, core, &frames, MEMBERSHIP)
}

// Numbers below the count, spread over its range and different for each batch.
fn some_indices(alloc: Global, batch: u32, count: u64) -> anyhow::Result<Vec<u64>> {
    let mut indices = Vec::new(alloc);
    for place in 0..QUESTIONS {
        let number = u64::from(batch.wrapping_mul(QUESTIONS).wrapping_add(place));
        indices.push(scattered(number, count))?;
    }
    Ok(indices)
}

// A number below the count, far from the one for the next number.
fn scattered(number: u64, count: u64) -> u64 {
    number.wrapping_mul(STRIDE).checked_rem(count).unwrap_or(0)
}

// The frames of questions for membership proofs of these entries under a count.
fn question_frames(
    alloc: Global,
    indices: &[u64],
    count: u64,
) -> anyhow::Result<Vec<[u8; QUESTION_LEN]>> {
    let mut frames = Vec::new(alloc);
    for index in indices {
        let mut frame = *b"\0\x15\x03tag.index...count...";
        frame[7..15].copy_from_slice(&index.to_be_bytes());
        frame[15..].copy_from_slice(&count.to_be_bytes());
        frames.push(frame)?;
    }
    Ok(frames)
}

// Does the work that replies to these questions can't avoid.
fn bare_replies<D: Sectors, B: Sectors>(
    store: &Store<D>,
    bare: &mut B,
    indices: &[u64],
) -> anyhow::Result<u8> {
    let mut seen = 0;
    for index in indices {
        seen ^= bare_reply(store, bare, *index)?;
    }
    Ok(seen)
}

// Makes a proof, reads the entry's one sector, and computes its leaf hash.
fn bare_reply<D: Sectors, B: Sectors>(
    store: &Store<D>,
    bare: &mut B,
    index: u64,
) -> anyhow::Result<u8> {
    let hashes = store.membership(index, store.commitment().count)?;
    let at = LOG_START.saturating_add(index);
    if at >= bare.size() {
        bail!("the file is too short");
    }
    let mut sector = [0; SECTOR_SIZE];
    bare.read(at, &mut sector)?;
    let leaf = leaf_hash(sector.get(..ENTRY_LEN).unwrap_or(&[]));
    Ok(leaf[0] ^ hashes.len() as u8)
}
