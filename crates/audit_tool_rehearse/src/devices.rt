//! Randomly damaged devices, and the outcomes of opening them.
use crate::cuts::feed;
use crate::lists::{add_device, random_start};
use crate::random::Random;
use crate::stores::{Device, blocks_of, open_core, start_core};
use crate::streams::stream_of;
use crate::subject::{Core, Store};
use crate::texts::{digest_text, two_numbers};
use audit_base::u64_at;
use audit_chain::Event;
use audit_disk::{MemDisk, SECTOR_SIZE, Sectors};
use audit_log::{FIRST_VERSION, VERSION};
use audit_store::{Failed, StoreError};
use sha2::{Digest, Sha256};
use std::alloc::{AllocError, Global};

type Block = [u8; SECTOR_SIZE];

// The number of header bytes covered by its digest.
const DIGESTED: usize = 480;

/// How many devices were opened, how many were refused with each number, and the digest of all outcomes.
#[derive(Drop)]
struct Outcomes {
    opened: u64,
    refused: [u64; 16],
    hasher: Sha256,
}

/// Damages a range of numbered devices, opens them, and prints the outcomes.
pub fn play_devices<R: AllocGlobal + Print>(rt: &R, rest: &str) -> anyhow::Result<()> {
    let (first, count) = two_numbers(rest)?;
    let mut outcomes = Outcomes {
        opened: 0,
        refused: [0; 16],
        hasher: Sha256::new(),
    };
    for place in 0..count {
        play_device(rt.alloc(), first.saturating_add(place), &mut outcomes)?;
    }
    print_outcomes(rt, first, outcomes)
}

fn print_outcomes<R: AllocGlobal + Print>(
    rt: &R,
    first: u64,
    outcomes: Outcomes,
) -> anyhow::Result<()> {
    println!(rt; "devices from {first} opened {}", outcomes.opened)?;
    print_refused(rt, &outcomes.refused)?;
    let digest = digest_text(rt.alloc(), outcomes.hasher)?;
    println!(rt; "outcomes {digest}")?;
    Ok(())
}

fn print_refused<R: Print>(rt: &R, refused: &[u64; 16]) -> anyhow::Result<()> {
    for number in 0..16 {
        let times = refused[number];
        if times > 0 {
            println!(rt; "refused {number} {times}")?;
        }
    }
    Ok(())
}

fn play_device(alloc: Global, number: u64, outcomes: &mut Outcomes) -> anyhow::Result<()> {
    let mut random = Random::new(number);
    let (sectors, start) = random_start(&mut random);
    let core = start_core(alloc, sectors, start)?;
    let mut disk = with_events(alloc, core, &mut random)?;
    let older = blocks_of(alloc, &mut disk)?;
    let content = hurt_later(alloc, disk, &mut random, &older)?;
    open_hurt(alloc, &content, outcomes)
}

// The blocks of the device after appending more events, damaged once or twice.
fn hurt_later(
    alloc: Global,
    disk: Device,
    random: &mut Random,
    older: &[Block],
) -> anyhow::Result<Vec<Block>> {
    let core = open_core(alloc, disk.into_inner())?;
    let mut disk = with_events(alloc, core, random)?;
    let mut content = blocks_of(alloc, &mut disk)?;
    hurt_repeatedly(random, older, &mut content)?;
    Ok(content)
}

// The device of a core after appending up to four more events.
fn with_events<D: Sectors + Drop>(
    alloc: Global,
    core: Core<D>,
    random: &mut Random,
) -> anyhow::Result<D> {
    let mut core = core;
    append_events(alloc, &mut core, random)?;
    Ok(core.into_store().into_disk())
}

fn append_events<D: Sectors>(
    alloc: Global,
    core: &mut Core<D>,
    random: &mut Random,
) -> anyhow::Result<()> {
    let events = random.below(5);
    let stream = stream_of(alloc, random, events, 20)?;
    feed(core, &[stream.as_slice()])
}

fn hurt_repeatedly(
    random: &mut Random,
    older: &[Block],
    content: &mut Vec<Block>,
) -> Result<(), AllocError> {
    let hurts = random.up_to(2);
    for _ in 0..hurts {
        hurt(random, older, content)?;
    }
    Ok(())
}

// Damages a device in one of several ways.
fn hurt(random: &mut Random, older: &[Block], content: &mut Vec<Block>) -> Result<(), AllocError> {
    match random.below(18) {
        0..=4 => change_numbers(random, content),
        5..=7 => change_parts(random, content),
        8 => bring_older(random, older, content),
        9 => bring_older_contents(random, older, content),
        10 => exchange_headers(content),
        11..=12 => turn_byte(random, content),
        13 => clear_sector(random, content),
        14 => add_noise(random, content),
        15 => return resize(random, content),
        _ => change_versions(random, content),
    }
    Ok(())
}

// Changes generation, sectors, count or end in one header or in both, and recomputes the digest.
fn change_numbers(random: &mut Random, content: &mut [Block]) {
    let at = random.below(4).saturating_mul(8).saturating_add(16) as usize;
    let change = match random.below(4) {
        0 => Change::Becomes(limit(random)),
        _ => Change::Grows(random.below(5).wrapping_sub(2)),
    };
    let slots = random.below(6);
    for slot in 0..2 {
        if slots != slot {
            change_number(content, slot as usize, at, change);
        }
    }
}

/// The new value of a number, or what is added to it.
#[derive(Clone, Copy)]
enum Change {
    Becomes(u64),
    Grows(u64),
}

// Numbers at the limits of the header's rules and beyond.
fn limit(random: &mut Random) -> u64 {
    let least = match random.below(5) {
        0 => 0,
        1 => (1 << 24) - 1,
        2 => (1 << 62) - 2,
        3 => u64::MAX - 3,
        _ => random.next() << 20,
    };
    random.below(4).wrapping_add(least)
}

fn change_number(content: &mut [Block], slot: usize, at: usize, change: Change) {
    let at = at.min(DIGESTED);
    if let Some(sector) = content.get_mut(slot) {
        let number = match change {
            Change::Becomes(number) => number,
            Change::Grows(number) => u64_at(sector, at).wrapping_add(number),
        };
        sector[at..at + 8].copy_from_slice(&number.to_be_bytes());
        make_digest_right(sector);
    }
}

fn make_digest_right(sector: &mut Block) {
    let digest: [u8; 32] = Sha256::digest(&sector[..DIGESTED]);
    sector[DIGESTED..].copy_from_slice(&digest);
}

// Changes a byte of the magic, the version, a zero part, the root, the last link or the key, in one header or in both,
// and recomputes the digest.
fn change_parts(random: &mut Random, content: &mut [Block]) {
    let (start, size) = match random.below(6) {
        0 => (0, 10),
        1 => (10, 6),
        2 => (48, 32),
        3 => (80, 32),
        4 => (112, 32),
        _ => (144, 336),
    };
    let at = random.below(size).saturating_add(start) as usize;
    let turned = random.up_to(255);
    let slots = random.below(6);
    for slot in 0..2 {
        if slots != slot {
            turn(content, slot as usize, at, turned);
            if let Some(sector) = content.get_mut(slot as usize) {
                make_digest_right(sector);
            }
        }
    }
}

// Puts another version into one header or both: the first, the newest, or an invalid one.
fn change_versions(random: &mut Random, content: &mut [Block]) {
    let version = match random.below(6) {
        0..=2 => FIRST_VERSION,
        3 => VERSION,
        4 => FIRST_VERSION - 1,
        _ => VERSION + 1,
    };
    let slots = random.below(4);
    for slot in 0..2 {
        if slots != slot {
            change_version(content, slot as usize, version);
        }
    }
}

fn change_version(content: &mut [Block], slot: usize, version: u16) {
    if let Some(sector) = content.get_mut(slot) {
        sector[8..10].copy_from_slice(&version.to_be_bytes());
        make_digest_right(sector);
    }
}

// Flips bits of a byte.
fn turn(content: &mut [Block], at: usize, place: usize, turned: u64) {
    if let Some(sector) = content.get_mut(at) {
        sector[place % SECTOR_SIZE] ^= (turned & 0xff) as u8;
    }
}

// Replaces a header by one from an older state of the device.
fn bring_older(random: &mut Random, older: &[Block], content: &mut [Block]) {
    let slot = random.below(2) as usize;
    if let (Some(sector), Some(before)) = (content.get_mut(slot), older.get(slot)) {
        *sector = *before;
    }
}

// Replaces a header by an older one, but keeps its generation.
fn bring_older_contents(random: &mut Random, older: &[Block], content: &mut [Block]) {
    let slot = random.below(2) as usize;
    if let (Some(sector), Some(before)) = (content.get_mut(slot), older.get(slot)) {
        let mut mixed = *before;
        mixed[16..24].copy_from_slice(&sector[16..24]);
        make_digest_right(&mut mixed);
        *sector = mixed;
    }
}

fn exchange_headers(content: &mut [Block]) {
    if content.len() >= 2 {
        content.swap(0, 1);
    }
}

// A random sector of the log or the headers.
fn any_sector(random: &mut Random, content: &[Block]) -> usize {
    let most = match random.below(4) {
        0 => 2,
        1..=2 => 12,
        _ => content.len() as u64,
    };
    random.below(most) as usize
}

fn turn_byte(random: &mut Random, content: &mut [Block]) {
    let at = any_sector(random, content);
    let place = match random.below(2) {
        0 => random.below(8),
        _ => random.below(512),
    };
    let turned = random.up_to(255);
    turn(content, at, place as usize, turned);
}

fn clear_sector(random: &mut Random, content: &mut [Block]) {
    let at = any_sector(random, content);
    if let Some(sector) = content.get_mut(at) {
        *sector = [0; SECTOR_SIZE];
    }
}

fn add_noise(random: &mut Random, content: &mut [Block]) {
    let at = any_sector(random, content);
    for place in 0..SECTOR_SIZE {
        let turned = random.below(256);
        turn(content, at, place, turned);
    }
}

// Truncates the device, or extends it with zero sectors.
fn resize(random: &mut Random, content: &mut Vec<Block>) -> Result<(), AllocError> {
    if random.below(2) == 0 {
        let kept = random.below(content.len() as u64);
        content.truncate(kept as usize);
        return Ok(());
    }
    let added = random.up_to(3);
    for _ in 0..added {
        content.push([0; SECTOR_SIZE])?;
    }
    Ok(())
}

// Opens the device and appends an event to its store, and adds the outcomes and the device's resulting contents.
fn open_hurt(alloc: Global, content: &[Block], outcomes: &mut Outcomes) -> anyhow::Result<()> {
    let disk = MemDisk::from_sectors(alloc, content)?;
    add_opening(alloc, Store::open(alloc, disk), outcomes)
}

fn add_opening<D: Sectors + Drop>(
    alloc: Global,
    opened: Result<Store<D>, Failed<D>>,
    outcomes: &mut Outcomes,
) -> anyhow::Result<()> {
    let mut disk = match opened {
        Ok(store) => outcomes.add_store(alloc, store)?,
        Err(failed) => outcomes.add_refused(failed),
    };
    add_device(&mut disk, &mut outcomes.hasher)
}

impl Outcomes {
    // Adds a store and an append to it, and returns the device.
    fn add_store<D: Sectors + Drop>(
        &mut self,
        alloc: Global,
        store: Store<D>,
    ) -> anyhow::Result<D> {
        let mut store = store;
        self.add_opened(&store);
        self.add_append(alloc, &mut store)?;
        Ok(store.into_disk())
    }

    fn add_opened<D: Sectors>(&mut self, store: &Store<D>) {
        let commitment = store.commitment();
        self.opened = self.opened.saturating_add(1);
        self.hasher.update(&[0]);
        self.hasher.update(&commitment.count.to_be_bytes());
        self.hasher.update(&commitment.root);
        self.hasher.update(&store.end().to_be_bytes());
        self.hasher.update(&store.generation().to_be_bytes());
    }

    // Appends an event with the payload `hi`.
    fn add_append<D: Sectors>(
        &mut self,
        alloc: Global,
        store: &mut Store<D>,
    ) -> anyhow::Result<()> {
        let event = Event::new(alloc, 1, b"hi")?;
        self.hasher.update(&store.version().to_be_bytes());
        let number = match store.append(&[event]) {
            Ok(_) => 0,
            Err(error) => error.number(),
        };
        self.hasher.update(&[number]);
        Ok(())
    }

    fn add_refused<D: Sectors>(&mut self, failed: Failed<D>) -> D {
        let Failed { error, disk } = failed;
        let number = error.number();
        let index = match error {
            StoreError::DamagedLog { index } => index,
            _ => 0,
        };
        let refused = &mut self.refused[usize::from(number) % 16];
        *refused = refused.saturating_add(1);
        self.hasher.update(&[number]);
        self.hasher.update(&index.to_be_bytes());
        disk
    }
}
