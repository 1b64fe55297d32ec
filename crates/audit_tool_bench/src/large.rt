//! The cost of events with the longest payload, compared with the SHA-256, the ChaCha20 and the file calls that they
//! can't avoid.
use crate::bare::{BareFile, open_bare};
use crate::figures::print_figures;
use crate::stores::{BATCH_LENS, hash_messages, new_store};
use crate::streams::keystream_of;
use crate::times::{Stopwatch, Times};
use anyhow::bail;
use audit_base::{MAX_ENTRY, MAX_ENTRY_SECTORS, MAX_PAYLOAD};
use audit_chain::{Event, Key};
use audit_disk::{Sectors, SystemFile, SystemFiles};
use audit_proof::Commitment;
use audit_store::Store;
use audit_verify::verify;
use sha2::{Digest, Sha256};
use std::alloc::{AllocError, Global};
use std::fs::{Files, OpenFile};
use std::os::unix::fs::FileExt;
use std::rt::Clock;

// How often verification is timed, alternating with the work that it can't avoid. The minima are reported.
const ROUNDS: u32 = 7;

// The lengths of the long messages hashed for an event: its link and its leaf.
const LONG_LENS: [usize; 2] = [36 + MAX_PAYLOAD, 1 + MAX_ENTRY];

// The lengths of the short messages: entry key, the two halves of the MAC, next key, and an inner node.
const SHORT_LENS: [usize; 5] = [50, 96, 96, 46, 65];

/// Seals events with the longest payload and appends them to a store in the file, one at a time; then verifies their
/// export in memory, seven times. It prints the times of both, and those of the work that they can't avoid.
pub fn measure<R: SystemFiles + AllocGlobal + Clock + Eprint>(
    rt: &R,
    file: &str,
    events: u32,
) -> anyhow::Result<()>
where
    R::File: SystemFile + FileExt,
{
    let mut store = new_store(rt, file, MAX_ENTRY_SECTORS * u64::from(events) + 2)?;
    time_store(rt, file, &mut store, events)
}

fn time_store<R: Files + AllocGlobal + Clock + Eprint, D: Sectors>(
    rt: &R,
    file: &str,
    store: &mut Store<D>,
    events: u32,
) -> anyhow::Result<()>
where
    R::File: FileExt,
{
    let appending = time_appends(rt, store, &open_bare(rt, file)?, events)?;
    print_times(rt, "appending", events, appending)?;
    let verifying = time_verifying(rt, store)?;
    print_times(rt, "verifying", events, verifying)
}

fn print_times<R: Eprint>(rt: &R, name: &str, events: u32, times: Times) -> anyhow::Result<()> {
    print_figures(
        rt,
        &[
            (name, u128::from(events)),
            ("nanoseconds", times.whole),
            ("bare", times.bare),
            ("seen", u128::from(times.seen)),
        ],
    )
}

// The total time of this many appends.
fn time_appends<R: AllocGlobal + Clock, D: Sectors, F: FileExt + OpenFile>(
    rt: &R,
    store: &mut Store<D>,
    bare: &BareFile<F>,
    events: u32,
) -> anyhow::Result<Times> {
    let mut text = vec![in rt.alloc(); 0x5a; MAX_ENTRY + 1]?;
    let mut sum = Times::ZERO;
    for number in 0..events {
        sum = sum.plus(time_append(rt, store, bare, &mut text, u64::from(number))?);
    }
    Ok(sum)
}

// Times the work that the append of an event can't avoid, with the file calls through a second handle; then times the
// append.
fn time_append<R: AllocGlobal + Clock, D: Sectors, F: FileExt + OpenFile>(
    rt: &R,
    store: &mut Store<D>,
    bare: &BareFile<F>,
    text: &mut [u8],
    number: u64,
) -> anyhow::Result<Times> {
    let batch = large_event(rt.alloc(), number)?;
    let watch = Stopwatch::start(rt);
    let seen = work_of_event(text, number) ^ hash_messages(&BATCH_LENS, number);
    bare.write_batch(store.end(), MAX_ENTRY_SECTORS)?;
    let alone = watch.nanoseconds(rt)?;
    let watch = Stopwatch::start(rt);
    store.append(&batch)?;
    Ok(Times {
        whole: watch.nanoseconds(rt)?,
        bare: alone,
        seen,
    })
}

// An event with the longest payload, which begins with the number.
fn large_event(alloc: Global, number: u64) -> anyhow::Result<Vec<Event>> {
    let mut payload = vec![in alloc; 0x5a; MAX_PAYLOAD]?;
    payload[..8].copy_from_slice(&number.to_be_bytes());
    Ok(vec![in alloc; Event::new(alloc, 1, &payload)?]?)
}

// Does the hashing of an event with the longest payload, and computes its keystream.
fn work_of_event(text: &mut [u8], number: u64) -> u8 {
    let long = hash_long(text, number);
    long ^ hash_messages(&SHORT_LENS, number) ^ keystream_of(number, MAX_PAYLOAD / 4)
}

// Hashes the long messages. They begin with the number, so that no result can be reused.
fn hash_long(text: &mut [u8], number: u64) -> u8 {
    if let Some(front) = text.first_chunk_mut::<8>() {
        *front = number.to_be_bytes();
    }
    let mut seen = 0;
    for len in LONG_LENS {
        seen ^= Sha256::digest(text.get(..len).unwrap_or(&[]))[0];
    }
    seen
}

// The shortest times of verifying all entries, and of the work that this can't avoid.
fn time_verifying<R: AllocGlobal + Clock, D: Sectors>(
    rt: &R,
    store: &mut Store<D>,
) -> anyhow::Result<Times> {
    let commitment = store.commitment();
    let export = export_of(rt.alloc(), store)?;
    let mut least = Times::LONGEST;
    for _ in 0..ROUNDS {
        least = least.least(time_export(rt, &export, &commitment)?);
    }
    Ok(least)
}

// Times the work that verifying an export can't avoid, then the verification.
fn time_export<R: AllocGlobal + Clock>(
    rt: &R,
    export: &[u8],
    commitment: &Commitment,
) -> anyhow::Result<Times> {
    let watch = Stopwatch::start(rt);
    let seen = work_of_events(rt.alloc(), commitment.count)?;
    let bare = watch.nanoseconds(rt)?;
    let watch = Stopwatch::start(rt);
    check_export(rt.alloc(), export, commitment)?;
    Ok(Times {
        whole: watch.nanoseconds(rt)?,
        bare,
        seen,
    })
}

fn export_of<D: Sectors>(alloc: Global, store: &mut Store<D>) -> anyhow::Result<Vec<u8>> {
    let mut export = Vec::new(alloc);
    for index in 0..store.commitment().count {
        export.extend_from_slice(&store.entry(index)?)?;
    }
    Ok(export)
}

fn work_of_events(alloc: Global, count: u64) -> Result<u8, AllocError> {
    let mut text = vec![in alloc; 0x5a; MAX_ENTRY + 1]?;
    let mut seen = 0;
    for number in 0..count {
        seen ^= work_of_event(&mut text, number);
    }
    Ok(seen)
}

fn check_export(alloc: Global, export: &[u8], commitment: &Commitment) -> anyhow::Result<()> {
    let mut reader = export;
    match verify(alloc, &mut reader, &Key::from_bytes([0; 32]), commitment) {
        Ok(_) => Ok(()),
        Err(fault) => bail!("the export is not verified: {fault:?}"),
    }
}
