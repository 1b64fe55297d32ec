//! The large sweep: lists of steps drawn by a cipher, whose stores are reopened, exported, verified and replayed.
use crate::lists::{outputs_of, random_plan, random_streams};
use crate::plan::Plan;
use crate::random::Random;
use crate::replays::is_replayed;
use crate::stores::{made, new_core};
use crate::subject::{Core, Store};
use crate::texts::{digest_text, two_numbers};
use anyhow::{Context, bail};
use audit_chain::{Event, Key};
use audit_disk::Sectors;
use audit_proof::Commitment;
use audit_verify::verify;
use audit_wire::first_frame;
use sha2::{Digest, Sha256};
use std::alloc::Global;

// The groups of four steps in a list.
const GROUPS: usize = 50;

// The first byte of an append, and of its acknowledgement.
const APPEND: u8 = 1;

const ACKNOWLEDGED: u8 = 0x81;

/// How many events were held, how many were acknowledged, the digest of the roots, and how many lists were replayed or
/// were too long for that.
#[derive(Drop)]
struct Sums {
    events: u64,
    acknowledged: u64,
    hasher: Sha256,
    replayed: u64,
    too_long: u64,
}

impl Sums {
    fn add(&mut self, events: &[Event], commitment: &Commitment, is_replayed: bool) {
        if is_replayed {
            self.replayed = self.replayed.saturating_add(1);
        } else {
            self.too_long = self.too_long.saturating_add(1);
        }
        self.events = self.events.saturating_add(events.len() as u64);
        self.hasher.update(&commitment.root);
    }
}

/// Sweeps a range of numbered lists, and prints the sums. It is an error if a call is refused, if `verify` doesn't
/// return the acknowledged events in their order, or if `replay` doesn't write the store's lines for them.
pub fn play_sweep<R: AllocGlobal + Print>(rt: &R, rest: &str) -> anyhow::Result<()> {
    let (first, count) = two_numbers(rest)?;
    let mut sums = Sums {
        events: 0,
        acknowledged: 0,
        hasher: Sha256::new(),
        replayed: 0,
        too_long: 0,
    };
    for place in 0..count {
        sweep_list(rt.alloc(), first.saturating_add(place), &mut sums)?;
    }
    print_sums(rt, first, sums)
}

fn print_sums<R: AllocGlobal + Print>(rt: &R, first: u64, sums: Sums) -> anyhow::Result<()> {
    let (events, acknowledged) = (sums.events, sums.acknowledged);
    let (replayed, too_long) = (sums.replayed, sums.too_long);
    let text = digest_text(rt.alloc(), sums.hasher)?;
    println!(rt; "sweep from {first} events {events} acknowledged {acknowledged} roots {text}")?;
    print_replayed(rt, replayed, too_long)
}

fn print_replayed<R: Print>(rt: &R, replayed: u64, too_long: u64) -> anyhow::Result<()> {
    println!(rt; "replayed {replayed} lists, {too_long} were too long")?;
    Ok(())
}

fn sweep_list(alloc: Global, number: u64, sums: &mut Sums) -> anyhow::Result<()> {
    let mut random = Random::of_cipher(number);
    let sectors = random.below(298).saturating_add(3);
    let streams = random_streams(alloc, &mut random)?;
    let core = new_core(alloc, sectors, u64::MAX)?;
    sweep_core(alloc, core, random_plan(random, &streams), &streams, sums)
}

fn sweep_core<D: Sectors + Drop>(
    alloc: Global,
    core: Core<D>,
    plan: Plan,
    streams: &[Vec<u8>],
    sums: &mut Sums,
) -> anyhow::Result<()> {
    let mut core = core;
    let outputs = outputs_of(alloc, &mut core, plan, GROUPS)?;
    sweep_store(alloc, core.into_store(), streams, &outputs, sums)
}

// Adds a store after reopening it. Its events must be those that were appended.
fn sweep_store<D: Sectors + Drop>(
    alloc: Global,
    store: Store<D>,
    streams: &[Vec<u8>],
    outputs: &[Vec<u8>],
    sums: &mut Sums,
) -> anyhow::Result<()> {
    let commitment = store.commitment();
    let entries = entries_of(alloc, store.into_disk())?;
    let appended = acknowledged_appends(alloc, commitment.count, streams, outputs, sums)?;
    add_entries(alloc, &entries, &commitment, &appended, sums)
}

fn add_entries(
    alloc: Global,
    entries: &[Vec<u8>],
    commitment: &Commitment,
    appended: &[Option<&[u8]>],
    sums: &mut Sums,
) -> anyhow::Result<()> {
    let events = verified_events(alloc, entries, commitment)?;
    check_events(&events, appended)?;
    sums.add(
        &events,
        commitment,
        is_replayed(alloc, &events, entries, commitment)?,
    );
    Ok(())
}

/// The entries of the store on a device.
pub fn entries_of<D: Sectors + Drop>(alloc: Global, disk: D) -> anyhow::Result<Vec<Vec<u8>>> {
    let mut store = made(Store::open(alloc, disk))?;
    read_entries(alloc, &mut store)
}

fn read_entries<D: Sectors>(alloc: Global, store: &mut Store<D>) -> anyhow::Result<Vec<Vec<u8>>> {
    let mut entries = Vec::new(alloc);
    for index in 0..store.commitment().count {
        entries.push(store.entry(index)?)?;
    }
    Ok(entries)
}

/// The events that the verifier finds in an export of these entries.
pub fn verified_events(
    alloc: Global,
    entries: &[Vec<u8>],
    commitment: &Commitment,
) -> anyhow::Result<Vec<Event>> {
    let mut export = Vec::new(alloc);
    for entry in entries {
        export.extend_from_slice(entry)?;
    }
    let mut reader = export.as_slice();
    match verify(alloc, &mut reader, &Key::from_bytes([0; 32]), commitment) {
        Ok(report) => Ok(report.events),
        Err(fault) => bail!("entry {}: {}", fault.index, fault.cause.name()),
    }
}

// For each index, the kind and payload of the append that was acknowledged with it.
fn acknowledged_appends<'a>(
    alloc: Global,
    count: u64,
    streams: &'a [Vec<u8>],
    outputs: &[Vec<u8>],
    sums: &mut Sums,
) -> anyhow::Result<Vec<Option<&'a [u8]>>> {
    let mut appended = vec![in alloc; None; count as usize]?;
    for (stream, output) in streams.iter().zip(outputs) {
        add_session(stream, output, &mut appended, sums)?;
    }
    Ok(appended)
}

// Adds the appends of a session, whose replies are in the same order.
fn add_session<'a>(
    stream: &'a [u8],
    output: &[u8],
    appended: &mut [Option<&'a [u8]>],
    sums: &mut Sums,
) -> anyhow::Result<()> {
    let mut requests = stream;
    let mut replies = output;
    for _ in 0..output.len() {
        let Some((reply, after)) = first_frame(replies) else {
            return Ok(());
        };
        replies = after;
        if reply.first() == Some(&ACKNOWLEDGED) {
            let (append, after) = next_append(requests, reply)?;
            requests = after;
            note(appended, reply, append)?;
            sums.acknowledged = sums.acknowledged.saturating_add(1);
        }
    }
    Ok(())
}

// The kind and payload of the next append with the reply's tag, and the bytes after it.
fn next_append<'a>(requests: &'a [u8], reply: &[u8]) -> anyhow::Result<(&'a [u8], &'a [u8])> {
    let mut left = requests;
    for _ in 0..requests.len() {
        let (body, after) = first_frame(left).context("an append is missing")?;
        left = after;
        if body.first() == Some(&APPEND) && body.get(1..5) == reply.get(1..5) {
            return Ok((body.get(5..).unwrap_or(&[]), after));
        }
    }
    bail!("an append is missing")
}

// Records the append of an acknowledgement at its index.
fn note<'a>(
    appended: &mut [Option<&'a [u8]>],
    reply: &[u8],
    append: &'a [u8],
) -> anyhow::Result<()> {
    let index = index_in(reply).context("an index is missing")?;
    match appended.get_mut(index as usize) {
        Some(place) if place.is_none() => {
            *place = Some(append);
            Ok(())
        }
        _ => bail!("index {index} was acknowledged twice, or of no event"),
    }
}

fn index_in(reply: &[u8]) -> Option<u64> {
    let index = reply.get(5..13)?.first_chunk::<8>()?;
    Some(u64::from_be_bytes(*index))
}

// Each event must be that of the append which was acknowledged with its index.
fn check_events(events: &[Event], appended: &[Option<&[u8]>]) -> anyhow::Result<()> {
    if events.len() != appended.len() {
        bail!("there are other events");
    }
    for (event, append) in events.iter().zip(appended) {
        let append = append.context("an event wasn't acknowledged")?;
        if !is_event_of(event, append) {
            bail!("an event isn't the one that was appended");
        }
    }
    Ok(())
}

// Whether the kind and payload of an append are those of the event.
fn is_event_of(event: &Event, append: &[u8]) -> bool {
    let kind = event.kind().to_be_bytes();
    append.get(..4) == Some(kind.as_slice()) && append.get(4..) == Some(event.payload())
}
