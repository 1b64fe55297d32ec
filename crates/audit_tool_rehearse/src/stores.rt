//! Stores in memory, and cores over them.
use crate::subject::{Core, Store};
use anyhow::bail;
use audit_chain::Key;
use audit_disk::{FailOnce, MemDisk, SECTOR_SIZE, Sectors};
use audit_log::{FIRST_VERSION, Header, VERSION};
use audit_store::Failed;
use std::alloc::Global;

/// The device of a scene. If it isn't to fail, the failing call is never reached.
pub type Device = FailOnce<MemDisk>;

// The last generation that a header may have.
const LAST_GENERATION: u64 = (1 << 62) - 1;

// How often a call is tried if memory is refused.
pub const TRIES: u64 = 3;

/// How a store without events begins.
#[derive(Clone, Copy)]
pub enum Start {
    /// On a device that fails once, after this many calls.
    Failing(u64),
    /// With generations left for this many commits.
    Worn(u64),
    /// In the first version of the format.
    First,
}

impl Start {
    /// On a device that doesn't fail.
    pub const SOUND: Start = Start::Failing(u64::MAX);
}

/// A core over a store of this many sectors without events.
pub fn start_core(alloc: Global, sectors: u64, start: Start) -> anyhow::Result<Core<Device>> {
    match start {
        Start::Failing(calls) => new_core(alloc, sectors, calls),
        Start::Worn(commits) => worn_core(alloc, sectors, commits),
        Start::First => first_core(alloc, sectors),
    }
}

/// A core over a new store on a device that fails once, after `calls` calls.
pub fn new_core(alloc: Global, sectors: u64, calls: u64) -> anyhow::Result<Core<Device>> {
    let disk = FailOnce::new(MemDisk::new(alloc, sectors)?, calls);
    let key = Key::from_bytes([0; 32]);
    core_of(alloc, Store::format(alloc, disk, key))
}

// A core over a store without events that has generations left for `commits` commits.
fn worn_core(alloc: Global, sectors: u64, commits: u64) -> anyhow::Result<Core<Device>> {
    let last = LAST_GENERATION.saturating_sub(commits.saturating_mul(2));
    core_of_no_events(alloc, sectors, VERSION, [last.saturating_sub(1), last])
}

// A core over a new store of the first version of the format.
fn first_core(alloc: Global, sectors: u64) -> anyhow::Result<Core<Device>> {
    core_of_no_events(alloc, sectors, FIRST_VERSION, [2, 1])
}

// A core over a store without events whose two headers have these generations.
fn core_of_no_events(
    alloc: Global,
    sectors: u64,
    version: u16,
    generations: [u64; 2],
) -> anyhow::Result<Core<Device>> {
    let mut content = vec![in alloc; [0; SECTOR_SIZE]; sectors as usize]?;
    for slot in 0..generations.len() {
        if let Some(sector) = content.get_mut(slot) {
            *sector = header_of(sectors, version, generations[slot])?;
        }
    }
    open_core(alloc, MemDisk::from_sectors(alloc, &content)?)
}

// The header of a log without events.
fn header_of(sectors: u64, version: u16, generation: u64) -> anyhow::Result<[u8; SECTOR_SIZE]> {
    let header = Header {
        version,
        closed: false,
        generation,
        sectors,
        count: 0,
        end: 2,
        root: [0; 32],
        last_link: [0; 32],
        key: Key::from_bytes([0; 32]),
    };
    if !header.meets_rules(header.generation % 2) {
        bail!("there is no such header");
    }
    Ok(header.encode())
}

/// A core over the store on a device, which no longer fails.
pub fn open_core(alloc: Global, disk: MemDisk) -> anyhow::Result<Core<Device>> {
    let disk = FailOnce::new(disk, u64::MAX);
    core_of(alloc, Store::open(alloc, disk))
}

/// The sectors of a device.
pub fn blocks_of<D: Sectors>(
    alloc: Global,
    disk: &mut D,
) -> anyhow::Result<Vec<[u8; SECTOR_SIZE]>> {
    let mut blocks = Vec::new(alloc);
    let mut sector = [0; SECTOR_SIZE];
    for at in 0..disk.size() {
        if at < disk.size() {
            disk.read(at, &mut sector)?;
            blocks.push(sector)?;
        }
    }
    Ok(blocks)
}

// A core over the store that was made, or why there is none.
fn core_of<D: Sectors + Drop>(
    alloc: Global,
    opened: Result<Store<D>, Failed<D>>,
) -> anyhow::Result<Core<D>> {
    core_over(alloc, made(opened)?)
}

/// A core over a store.
pub fn core_over<D: Sectors + Drop>(alloc: Global, store: Store<D>) -> anyhow::Result<Core<D>> {
    let mut left = store;
    for _ in 0..TRIES {
        match Core::new(alloc, left) {
            Ok(core) => return Ok(core),
            Err(store) => left = store,
        }
    }
    bail!("there is no memory for a core")
}

/// The store, or why there is none.
pub fn made<D: Sectors + Drop>(opened: Result<Store<D>, Failed<D>>) -> anyhow::Result<Store<D>> {
    match opened {
        Ok(store) => Ok(store),
        Err(failed) => Err(failed.error.into()),
    }
}
