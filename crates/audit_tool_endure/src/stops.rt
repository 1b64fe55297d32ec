//! Stops a store in memory after each call of its device, with each pending write kept or lost. Then opens it, and
//! stops it in the same way after each call of the opening.
use crate::stores::{batch_of, made};
use anyhow::{Context, bail};
use audit_chain::Key;
use audit_disk::{Fuse, MemDisk};
use audit_store::{Failed, Store, StoreError};
use hex::FromHex;
use std::alloc::Global;

// The sectors of the device: two headers, three for each batch, and one after them.
const SECTORS: u64 = 12;

// The device calls of formatting, and of appending a batch of three sectors.
const FORMAT_CALLS: u64 = SECTORS + 5;

const BATCH_CALLS: u64 = 8;

// The roots with none of the batches, the first, the first two, and all. They were computed by an independent model.
const ROOTS: [&str; 4] = [
    "0000000000000000000000000000000000000000000000000000000000000000",
    "c580da10bd644a145393264a9af930551b9ef1fcfc30c8f0b4721fe6b1e3d7fe",
    "3d8e749110e58a8bb43856b2e4c369ee80f1e27af1e5efce9f07eb05d7064363",
    "601e8f4f7de9d35fe83f7538b291a5e8f77b234f8fd66b4e1b13748abd9db890",
];

/// Stops a run of the batches after each call, and prints how many stores were opened. It is an error if one of them
/// couldn't be opened, or doesn't have the expected events.
pub fn try_stops<R: AllocGlobal + Print>(rt: &R) -> anyhow::Result<()> {
    let mut openings = 0;
    for calls in 0..=BATCH_CALLS * 3 {
        openings = sum(openings, stop_run(rt.alloc(), calls)?);
    }
    println!(rt; "{openings} stores opened")?;
    Ok(())
}

fn sum(openings: u64, more: u64) -> u64 {
    openings.saturating_add(more)
}

// A run stopped after `calls` calls. At most three writes are then pending.
fn stop_run(alloc: Global, calls: u64) -> anyhow::Result<u64> {
    let mut openings = 0;
    let (disk, acknowledged) = run_to(alloc, calls)?;
    for mask in 0..8 {
        let left = disk.crash(alloc, &picks(alloc, mask, 2, 3)?)?;
        let held = batches_held(alloc, left.crash(alloc, &[])?)?;
        if held != acknowledged && held != acknowledged.saturating_add(1) {
            bail!("{acknowledged} batches were acknowledged, and {held} are held");
        }
        openings = sum(openings, stop_opening(alloc, &left, held)?);
    }
    Ok(openings)
}

// The device after a run stopped after `calls` calls, and how many batches were acknowledged.
fn run_to(alloc: Global, calls: u64) -> anyhow::Result<(MemDisk, u64)> {
    let fuse = Fuse::new(
        MemDisk::new(alloc, SECTORS)?,
        FORMAT_CALLS.saturating_add(calls),
    );
    let mut store = made(Store::format(alloc, fuse, Key::from_bytes([0; 32])))?;
    let mut batches = Vec::new(alloc);
    for number in 0..3 {
        batches.push(batch_of(alloc, number)?)?;
    }
    let end = store.run(&batches);
    Ok((store.into_disk().into_inner(), end.receipts.len() as u64))
}

// An opening stopped after each of its calls. Whatever is lost of its own writes, the same batches are held. It writes
// zeros from the end of the log on, and then at most one header.
fn stop_opening(alloc: Global, disk: &MemDisk, held: u64) -> anyhow::Result<u64> {
    let end = held.saturating_mul(3).saturating_add(2);
    let mut openings = 0;
    for calls in 0..SECTORS * 2 {
        let (left, is_whole) = open_to(alloc, disk, calls)?;
        for mask in 0..masks(calls, SECTORS.saturating_sub(end)) {
            let again = left.crash(alloc, &picks(alloc, mask, end, SECTORS)?)?;
            let found = batches_held(alloc, again)?;
            if found != held {
                bail!("{held} batches were held, and {found} after a stop inside the opening");
            }
            openings = sum(openings, 1);
        }
        if is_whole {
            return Ok(openings);
        }
    }
    bail!("no opening came to its end");
}

// In how many ways the writes pending after `calls` calls of an opening may be kept or lost. The first call is a sync;
// then there are the zeros, a sync, and a header.
fn masks(calls: u64, zeros: u64) -> u64 {
    let pending = if calls <= zeros.saturating_add(1) {
        calls.saturating_sub(1)
    } else {
        1
    };
    1 << pending.min(SECTORS)
}

// The device after an opening stopped after `calls` calls, and whether the opening completed.
fn open_to(alloc: Global, disk: &MemDisk, calls: u64) -> anyhow::Result<(MemDisk, bool)> {
    match Store::open(alloc, Fuse::new(disk.crash(alloc, &[])?, calls)) {
        Ok(store) => Ok((store.into_disk().into_inner(), true)),
        Err(Failed { disk, error }) => {
            if error != StoreError::Device {
                bail!("an opening was refused: {error}");
            }
            Ok((disk.into_inner(), false))
        }
    }
}

// Which pending writes are kept, by the bits of a mask: the first bit for a header, and one for each of `width`
// sectors from `first` on.
fn picks(alloc: Global, mask: u64, first: u64, width: u64) -> anyhow::Result<Vec<u64>> {
    let mut picks = Vec::new(alloc);
    for sector in 0..SECTORS {
        let place = sector.saturating_sub(first).checked_rem(width).unwrap_or(0);
        picks.push((mask >> place) & 1)?;
    }
    Ok(picks)
}

// How many batches the store on the device holds, determined by its root.
fn batches_held(alloc: Global, disk: MemDisk) -> anyhow::Result<u64> {
    let store = made(Store::open(alloc, disk))?;
    let commitment = store.commitment();
    for (held, root) in (0u64..).zip(ROOTS) {
        let root = <[u8; 32] as FromHex>::from_hex(root).context("no root")?;
        if commitment.count == held.saturating_mul(3) && commitment.root == root {
            return Ok(held);
        }
    }
    bail!("the store holds other events");
}
