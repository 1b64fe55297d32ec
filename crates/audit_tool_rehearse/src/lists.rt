//! Random lists of steps, and a digest of everything they produce.
use crate::plan::Plan;
use crate::random::Random;
use crate::stores::{Start, start_core};
use crate::streams::stream_of;
use crate::subject::{Core, Store};
use crate::texts::digest_text;
use anyhow::bail;
use audit_base::SESSIONS;
use audit_disk::{SECTOR_SIZE, Sectors};
use sha2::{Digest, Sha256};
use std::alloc::{AllocError, Global};

// The lists in a digest, each of which has `GROUPS` groups of four steps.
const LISTS: u64 = 20;

const GROUPS: usize = 40;

/// Prints the digest of twenty lists, starting with this number.
pub fn play_lists<R: AllocGlobal + Print>(rt: &R, first: u64) -> anyhow::Result<()> {
    let mut hasher = Sha256::new();
    for place in 0..LISTS {
        play_list(rt.alloc(), first.saturating_add(place), &mut hasher)?;
    }
    let digest = digest_text(rt.alloc(), hasher)?;
    println!(rt; "lists from {first} {digest}")?;
    Ok(())
}

fn play_list(alloc: Global, number: u64, hasher: &mut Sha256) -> anyhow::Result<()> {
    let mut random = Random::new(number);
    let (sectors, start) = random_start(&mut random);
    let streams = random_streams(alloc, &mut random)?;
    let core = start_core(alloc, sectors, start)?;
    play_plan(alloc, core, random_plan(random, &streams), GROUPS, hasher)
}

/// Plays groups of four steps, and adds what the sessions received and what the store then holds to the digest.
pub fn play_plan<D: Sectors + Drop>(
    alloc: Global,
    core: Core<D>,
    plan: Plan,
    groups: usize,
    hasher: &mut Sha256,
) -> anyhow::Result<()> {
    let mut core = core;
    play_sessions(alloc, &mut core, plan, groups, hasher)?;
    add_store(core.into_store(), hasher)
}

fn play_sessions<D: Sectors>(
    alloc: Global,
    core: &mut Core<D>,
    plan: Plan,
    groups: usize,
    hasher: &mut Sha256,
) -> anyhow::Result<()> {
    let outputs = outputs_of(alloc, core, plan, groups)?;
    add_sessions(core, &outputs, hasher);
    Ok(())
}

/// The plan of a list: one step in 4, 12 or 60 is a flush.
pub fn random_plan<'a>(mut random: Random, streams: &'a [Vec<u8>]) -> Plan<'a> {
    let flushes = match random.below(3) {
        0 => 4,
        1 => 12,
        _ => 60,
    };
    Plan::new(random, streams, flushes)
}

/// Drives groups of four steps and flushes the core. Returns the output of each session.
pub fn outputs_of<D: Sectors>(
    alloc: Global,
    core: &mut Core<D>,
    plan: Plan,
    groups: usize,
) -> anyhow::Result<Vec<Vec<u8>>> {
    let mut plan = plan;
    let mut outputs = no_outputs(alloc)?;
    drive_groups(core, &mut plan, groups, &mut outputs)?;
    Ok(outputs)
}

// After each group the output of one session is taken, and at the end the output of each.
fn drive_groups<D: Sectors>(
    core: &mut Core<D>,
    plan: &mut Plan,
    groups: usize,
    outputs: &mut [Vec<u8>],
) -> anyhow::Result<()> {
    for group in 0..groups {
        drive_four(core, plan)?;
        gather(core, outputs, group % SESSIONS)?;
    }
    core.flush()?;
    for session in 0..SESSIONS {
        gather(core, outputs, session)?;
    }
    Ok(())
}

/// The sectors of a store, 3 to 119, and how it begins. One store in eight is worn, one wears out with its first
/// commit, and one is of the first version of the format.
pub fn random_start(random: &mut Random) -> (u64, Start) {
    let sectors = match random.below(3) {
        0 => random.below(6).saturating_add(3),
        1 => random.below(30).saturating_add(10),
        _ => random.below(80).saturating_add(40),
    };
    let start = match random.below(8) {
        0 => Start::Worn(0),
        1 => Start::Worn(1),
        2 => Start::First,
        _ => Start::SOUND,
    };
    (sectors, start)
}

/// The streams of 1 to 16 sessions.
pub fn random_streams(alloc: Global, random: &mut Random) -> Result<Vec<Vec<u8>>, AllocError> {
    let sessions = random.up_to(16);
    let length = random.below(3);
    let appends = match random.below(4) {
        0..=1 => 7,
        2 => 1,
        _ => 0,
    };
    let mut streams = Vec::new(alloc);
    for _ in 0..sessions {
        let frames = match length {
            0 => random.up_to(6),
            1 => random.up_to(16),
            _ => random.below(40).saturating_add(20),
        };
        streams.push(stream_of(alloc, random, frames, appends)?)?;
    }
    Ok(streams)
}

// Empty outputs for all sessions.
fn no_outputs(alloc: Global) -> Result<Vec<Vec<u8>>, AllocError> {
    let mut outputs = Vec::new(alloc);
    for _ in 0..SESSIONS {
        outputs.push(Vec::new(alloc))?;
    }
    Ok(outputs)
}

fn drive_four<D: Sectors>(core: &mut Core<D>, plan: &mut Plan) -> anyhow::Result<()> {
    let steps = [
        plan.next_step(),
        plan.next_step(),
        plan.next_step(),
        plan.next_step(),
    ];
    if let Err(fault) = core.drive(&steps) {
        bail!("step {} was refused: {}", fault.step, fault.error);
    }
    Ok(())
}

// Takes the output of a session.
fn gather<D: Sectors>(
    core: &mut Core<D>,
    outputs: &mut [Vec<u8>],
    session: usize,
) -> Result<(), AllocError> {
    match outputs.get_mut(session) {
        Some(gathered) => gathered.extend_from_slice(&core.take_output(session)),
        None => Ok(()),
    }
}

// Adds the length and the bytes of each session's output, and whether the session has ended.
fn add_sessions<D: Sectors>(core: &Core<D>, outputs: &[Vec<u8>], hasher: &mut Sha256) {
    for session in 0..SESSIONS {
        if let Some(output) = outputs.get(session) {
            hasher.update(&(output.len() as u64).to_be_bytes());
            hasher.update(output);
        }
        hasher.update(&[u8::from(core.ended(session))]);
    }
}

/// Adds the generation, the count, the end, the root and the device.
pub fn add_store<D: Sectors + Drop>(store: Store<D>, hasher: &mut Sha256) -> anyhow::Result<()> {
    let commitment = store.commitment();
    hasher.update(&store.generation().to_be_bytes());
    hasher.update(&commitment.count.to_be_bytes());
    hasher.update(&store.end().to_be_bytes());
    hasher.update(&commitment.root);
    add_device(&mut store.into_disk(), hasher)
}

/// Adds the bytes of each sector.
pub fn add_device<D: Sectors>(disk: &mut D, hasher: &mut Sha256) -> anyhow::Result<()> {
    let mut sector = [0; SECTOR_SIZE];
    for at in 0..disk.size() {
        if at < disk.size() {
            disk.read(at, &mut sector)?;
            hasher.update(&sector);
        }
    }
    Ok(())
}
