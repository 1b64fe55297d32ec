//! A first use of the library: a log is made and appended to, its device changes hands, and somebody who has the first
//! key and a commitment verifies what was exported.
//!
//! The device is in memory. `audit_disk::FileDisk::create` makes one in a file, which `FileDisk::open` opens again.
#![tactic(auto)]

use anyhow::{bail, ensure};
use audit_chain::{Event, Key};
use audit_disk::{MemDisk, Sectors};
use audit_store::{Failed, Store};
use audit_verify::{Report, verify};
use std::alloc::Global;

// The size of the device. Two sectors are headers, and each small event takes one.
const SECTORS: u64 = 16;

// What kind of events these are; each program has numbers of its own.
const LOGIN: u32 = 1;

// A real first key is random, and leaves the machine before the first event: it decrypts them all.
const FIRST_KEY: [u8; 32] = [7; 32];

fn main(rt: HostRuntime) -> anyhow::Result<()> {
    let alloc = rt.alloc();

    // Each append is a batch: it is in the log as a whole, or not at all. Once it returns, a crash can't undo it.
    let disk = MemDisk::new(alloc, SECTORS)?;
    let mut store = sound(Store::format(alloc, disk, Key::from_bytes(FIRST_KEY)))?;
    let receipt = store.append(&[login(alloc, "alice")?, login(alloc, "bob")?])?;
    println!(rt; "events {} to {} are kept", receipt.first, receipt.count)?;

    // Whoever opens the device goes on after the last batch.
    let mut store = sound(Store::open(alloc, store.into_disk()))?;
    store.append(&[login(alloc, "carol")?])?;

    // An auditor keeps commitments, and holds exports against them.
    let commitment = store.commitment();
    let export = exported(alloc, &mut store)?;
    let key = Key::from_bytes(FIRST_KEY);
    let Ok(report) = verify(alloc, &mut export.as_slice(), &key, &commitment) else {
        bail!("the export isn't that of the log");
    };
    print_report(&rt, &report)?;

    // An earlier part of the log isn't the log of that commitment.
    let front = export.get(..export.len() / 2).unwrap_or(&[]);
    ensure!(verify(alloc, &mut &*front, &key, &commitment).is_err());
    println!(rt; "half of them aren't accepted")?;
    Ok(())
}

fn login(alloc: Global, user: &str) -> anyhow::Result<Event> {
    Ok(Event::new(alloc, LOGIN, user.as_bytes())?)
}

// The entries of a log, one after another.
fn exported<D: Sectors>(alloc: Global, store: &mut Store<D>) -> anyhow::Result<Vec<u8>> {
    let mut export = Vec::new(alloc);
    for index in 0..store.commitment().count {
        export.extend_from_slice(&store.entry(index)?)?;
    }
    Ok(export)
}

fn print_report<R: AllocGlobal + Print>(rt: &R, report: &Report) -> anyhow::Result<()> {
    for event in &report.events {
        let text = String::from_utf8_lossy(rt.alloc(), event.payload())?;
        println!(rt; "kind {}: {}", event.kind(), text)?;
    }
    println!(rt; "{} events are verified", report.events.len())?;
    Ok(())
}

// The store, or why there is none; the device is handed back beside the cause.
fn sound<D: Sectors + Drop>(given: Result<Store<D>, Failed<D>>) -> anyhow::Result<Store<D>> {
    match given {
        Ok(store) => Ok(store),
        Err(failed) => Err(failed.error.into()),
    }
}
