//! A run of clients over devices that fail once, each at a later call.
use crate::clients::{ServedRun, serve_run};
use crate::random::Random;
use crate::stores::{Device, core_over, made, new_core};
use crate::subject::Store;
use crate::sweep::{entries_of, verified_events};
use crate::texts::two_numbers;
use crate::visitor::Visitor;
use anyhow::Context;
use audit_disk::{FailOnce, Sectors};
use audit_proof::Commitment;
use audit_wire::first_frame;
use std::alloc::Global;

// The sectors of a store.
const SECTORS: u64 = 60;

// The first byte of an append's acknowledgement.
const ACKNOWLEDGED: u8 = 0x81;

/// Plays a run over devices whose first call fails, or the second, and so on for this number of calls. It is an error
/// if an event that a client knows to be acknowledged isn't in the store when it is opened again.
pub fn play_failures<R: AllocGlobal + Print>(rt: &R, rest: &str) -> anyhow::Result<()> {
    let (number, count) = two_numbers(rest)?;
    for calls in 0..count {
        play_failing(rt.alloc(), number, calls)?;
    }
    println!(rt; "failures of {number} calls {count} kept")?;
    Ok(())
}

// Plays a run over a store without events whose device fails after `calls` calls, unless opening it fails.
fn play_failing(alloc: Global, number: u64, calls: u64) -> anyhow::Result<()> {
    let store = new_core(alloc, SECTORS, u64::MAX)?.into_store();
    let disk = FailOnce::new(store.into_disk().into_inner(), calls);
    match Store::open(alloc, disk) {
        Ok(store) => play_opened(alloc, number, store),
        Err(_) => Ok(()),
    }
}

// Serves the run, and then opens the store twice on its device, which no longer fails.
fn play_opened(alloc: Global, number: u64, store: Store<Device>) -> anyhow::Result<()> {
    let (run, disk) = served_on(alloc, number, store)?;
    let store = made(Store::open(alloc, disk.into_inner()))?;
    let entries = entries_of(alloc, store.into_disk())?;
    check_served(alloc, &run, &entries)
}

fn served_on<D: Sectors + Drop>(
    alloc: Global,
    number: u64,
    store: Store<D>,
) -> anyhow::Result<(ServedRun, D)> {
    let mut core = core_over(alloc, store)?;
    let run = serve_run(alloc, &mut core, Random::new(number))?;
    Ok((run, core.into_store().into_disk()))
}

fn check_served(alloc: Global, served: &ServedRun, entries: &[Vec<u8>]) -> anyhow::Result<()> {
    for visitor in served.door.gone() {
        check_replies(alloc, visitor, entries)?;
    }
    for slot in &served.slots {
        if let Some(visitor) = slot.client() {
            check_replies(alloc, visitor, entries)?;
        }
    }
    Ok(())
}

// Checks the replies that the client has received whole.
fn check_replies(alloc: Global, visitor: &Visitor, entries: &[Vec<u8>]) -> anyhow::Result<()> {
    let mut replies = visitor.received();
    for _ in 0..replies.len() {
        let Some((reply, after)) = first_frame(replies) else {
            return Ok(());
        };
        replies = after;
        if reply.first() == Some(&ACKNOWLEDGED) {
            check_acknowledgement(alloc, reply, entries)?;
        }
    }
    Ok(())
}

// The commitment of an acknowledgement must be to the first of the entries.
fn check_acknowledgement(alloc: Global, reply: &[u8], entries: &[Vec<u8>]) -> anyhow::Result<()> {
    let commitment = commitment_in(reply).context("a commitment is missing")?;
    let front = entries
        .get(..commitment.count as usize)
        .context("an acknowledged event is lost")?;
    verified_events(alloc, front, &commitment)?;
    Ok(())
}

fn commitment_in(reply: &[u8]) -> Option<Commitment> {
    let count = reply.get(13..21)?.first_chunk::<8>()?;
    let root = reply.get(21..53)?.first_chunk::<32>()?;
    Some(Commitment {
        count: u64::from_be_bytes(*count),
        root: *root,
    })
}
