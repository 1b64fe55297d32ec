//! A store in a file.
use anyhow::Context;
use audit_chain::{Event, Key};
use audit_disk::{FileDisk, Sectors, SystemFile, SystemFiles};
use audit_store::{Failed, Store};
use std::alloc::Global;

// The sectors of the device.
const SECTORS: u64 = 40_000;

// The events of a batch.
const EVENTS: u32 = 3;

/// Makes the file, with a store without events under a key of zeros.
pub fn format<R: SystemFiles + AllocGlobal + Print>(rt: &R, file: &str) -> anyhow::Result<()>
where
    R::File: SystemFile,
{
    let disk = FileDisk::create(rt, rt.alloc(), file, SECTORS)?;
    let key = Key::from_bytes([0; 32]);
    let store = made(Store::format(rt.alloc(), disk, key))?;
    println!(rt; "{}", store.commitment().count)?;
    Ok(())
}

/// Appends `batches` batches, or as many as fit on the device, and prints the count of events after each.
pub fn append<R: SystemFiles + AllocGlobal + Print>(
    rt: &R,
    file: &str,
    batches: u32,
) -> anyhow::Result<()>
where
    R::File: SystemFile,
{
    let mut store = made(Store::open(rt.alloc(), FileDisk::open(rt, rt.alloc(), file)?))?;
    for number in 0..batches {
        let events = batch_of(rt.alloc(), number)?;
        let receipt = store.append(&events)?;
        println!(rt; "{}", receipt.count)?;
    }
    Ok(())
}

// A batch of small events.
pub(crate) fn batch_of(alloc: Global, number: u32) -> anyhow::Result<Vec<Event>> {
    let mut events = Vec::new(alloc);
    for kind in 0..EVENTS {
        events.push(Event::new(alloc, kind, &number.to_be_bytes())?)?;
    }
    Ok(events)
}

/// Opens the store, reads each entry, and prints how many there are.
pub fn count<R: SystemFiles + AllocGlobal + Print>(rt: &R, file: &str) -> anyhow::Result<()>
where
    R::File: SystemFile,
{
    let mut store = made(Store::open(rt.alloc(), FileDisk::open(rt, rt.alloc(), file)?))?;
    let count = store.commitment().count;
    for index in 0..count {
        store.entry(index).context("an entry is missing")?;
    }
    println!(rt; "{count}")?;
    Ok(())
}

// The store, or why there is none.
pub(crate) fn made<D: Sectors + Drop>(
    opened: Result<Store<D>, Failed<D>>,
) -> anyhow::Result<Store<D>> {
    match opened {
        Ok(store) => Ok(store),
        Err(failed) => Err(failed.error.into()),
    }
}
