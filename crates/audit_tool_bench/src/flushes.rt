//! Group commit of small events from sessions, compared with the file calls and the SHA-256 messages that it can't
//! avoid.
use crate::bare::BareFile;
use crate::figures::print_figures;
use crate::sessions::{ROUNDS, started, time_frames};
use crate::stores::hash_messages;
use crate::times::{Rounds, Stopwatch, Times};
use audit_disk::Sectors;
use audit_log::LOG_START;
use audit_server::Core;
use audit_store::Store;
use std::alloc::Global;
use std::fs::OpenFile;
use std::os::unix::fs::FileExt;
use std::rt::Clock;

// The frame of an append of an event with a payload of two bytes.
const APPEND_LEN: usize = 13;

// The first byte of an acknowledgement.
const ACKNOWLEDGEMENT: u8 = 0x81;

// The lengths of the messages hashed for such an event: entry key, link, the two halves of the MAC, next key, and
// leaf. They have 9 blocks.
const EVENT_LENS: [usize; 6] = [50, 38, 96, 96, 46, 75];

// The messages hashed for the two headers that a batch writes.
const HEADER_LENS: [usize; 2] = [480, 480];

// The message hashed for a node with one side (one block) and for one with two (two blocks).
const LONE_LEN: usize = 33;

const PAIR_LEN: usize = 65;

/// Times flushes of `size` appends. Before each one it times the SHA-256 messages, and the writes and syncs of the
/// same sectors through a second handle of the file. The file already has its sectors. It prints the tenth percentile
/// of both times, and the mean of the flushes'.
pub fn time_flushes<R: AllocGlobal + Clock + Eprint, D: Sectors + Drop, F: FileExt + OpenFile>(
    rt: &R,
    store: Store<D>,
    bare: &BareFile<F>,
    size: u32,
) -> anyhow::Result<Store<D>> {
    let count = store.commitment().count;
    let mut core = started(rt.alloc(), store)?;
    time_core(rt, &mut core, bare, count, size)?;
    Ok(core.into_store())
}

// Times flushes of this many appends to a store of this many events.
fn time_core<R: AllocGlobal + Clock + Eprint, D: Sectors, F: FileExt + OpenFile>(
    rt: &R,
    core: &mut Core<D>,
    bare: &BareFile<F>,
    count: u64,
    size: u32,
) -> anyhow::Result<()> {
    let sectors = u64::from(size).saturating_mul(u64::from(ROUNDS));
    bare.write_batch(LOG_START.saturating_add(count), sectors)?;
    let frames = append_frames(rt.alloc(), size)?;
    let mut rounds = Rounds::new(rt.alloc());
    time_rounds(rt, core, bare, count, &frames, &mut rounds)?;
    print_rounds(rt, size, rounds)
}

fn time_rounds<R: AllocGlobal + Clock, D: Sectors, F: FileExt + OpenFile>(
    rt: &R,
    core: &mut Core<D>,
    bare: &BareFile<F>,
    before: u64,
    frames: &[[u8; APPEND_LEN]],
    rounds: &mut Rounds,
) -> anyhow::Result<()> {
    let mut count = before;
    for _ in 0..ROUNDS {
        rounds.push(time_flush(rt, core, bare, count, frames)?)?;
        count = count.saturating_add(frames.len() as u64);
    }
    Ok(())
}

fn print_rounds<R: Eprint>(rt: &R, size: u32, rounds: Rounds) -> anyhow::Result<()> {
    let mean = rounds.mean();
    let times = rounds.low()?;
    print_figures(
        rt,
        &[
            ("flushes", u128::from(size)),
            ("nanoseconds", times.whole),
            ("bare", times.bare),
            ("mean", mean),
            ("seen", u128::from(times.seen)),
        ],
    )
}

fn time_flush<R: AllocGlobal + Clock, D: Sectors, F: FileExt + OpenFile>(
    rt: &R,
    core: &mut Core<D>,
    bare: &BareFile<F>,
    count: u64,
    frames: &[[u8; APPEND_LEN]],
) -> anyhow::Result<Times> {
    let watch = Stopwatch::start(rt);
    let seen = hash_batch(count, frames.len() as u64);
    bare.write_batch(LOG_START.saturating_add(count), frames.len() as u64)?;
    let alone = watch.nanoseconds(rt)?;
    Ok(Times {
        whole: time_frames(rt, core, frames, ACKNOWLEDGEMENT)?,
        bare: alone,
        seen,
    })
}

// The frames of `size` appends of an event of kind 1 with a payload of two bytes.
fn append_frames(alloc: Global, size: u32) -> anyhow::Result<Vec<[u8; APPEND_LEN]>> {
    let mut frames = Vec::new(alloc);
    for tag in 0..size {
        let mut frame = *b"\0\x0b\x01tag.\0\0\0\x01hi";
        frame[3..7].copy_from_slice(&tag.to_be_bytes());
        frames.push(frame)?;
    }
    Ok(frames)
}

// Hashes what a batch of `size` small events after `count` others requires: the messages of each event, the inner
// nodes that it completes, the root after them, and two headers.
fn hash_batch(count: u64, size: u64) -> u8 {
    let after = count.saturating_add(size);
    let mut seen = hash_messages(&HEADER_LENS, after) ^ hash_root(after);
    for number in count..after {
        seen ^= hash_messages(&EVENT_LENS, number) ^ hash_nodes(number.saturating_add(1));
    }
    seen
}

// Hashes as many inner nodes as the last of `leaves` leaves completes.
fn hash_nodes(leaves: u64) -> u8 {
    let mut seen = 0;
    for layer in 0..leaves.trailing_zeros() {
        seen ^= hash_messages(&[PAIR_LEN], u64::from(layer));
    }
    seen
}

// Hashes what the root of `leaves` leaves requires: a node at each layer above the last full node's.
fn hash_root(leaves: u64) -> u8 {
    let mut seen = 0;
    let lowest = leaves.trailing_zeros();
    let depth = u64::BITS.saturating_sub(leaves.saturating_sub(1).leading_zeros());
    for layer in lowest..depth {
        let has_right_side = layer > lowest && leaves.wrapping_shr(layer) % 2 == 1;
        let len = if has_right_side { PAIR_LEN } else { LONE_LEN };
        seen ^= hash_messages(&[len], u64::from(layer));
    }
    seen
}
