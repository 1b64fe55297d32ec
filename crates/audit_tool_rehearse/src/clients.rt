//! Runs of clients that come and go at random, and a digest of everything that they received.
ghost use Rattle.std.specs.Prelude.{◌≤◌, length, IfOk};
ghost use Rattle.audit_base.specs.declared.limits.TheConstants.{SESSIONS};

use crate::lists::add_store;
use crate::random::Random;
use crate::random_door::RandomDoor;
use crate::stores::{Start, start_core};
use crate::subject::Core;
use crate::texts::{digest_text, two_numbers};
use crate::visitor::Visitor;
use anyhow::bail;
use audit_base::SESSIONS;
use audit_disk::Sectors;
use audit_serve_ready::{MAX_BACKLOG, Slot, finish_writing, vacant_slots};
use audit_store::StoreError;
use sha2::{Digest, Sha256};
use std::alloc::{AllocError, Global};

/// Plays a range of numbered runs, and prints the digest.
pub fn play_clients<R: AllocGlobal + Print>(rt: &R, rest: &str) -> anyhow::Result<()> {
    let (first, count) = two_numbers(rest)?;
    let mut hasher = Sha256::new();
    for place in 0..count {
        let digest = play_run(rt.alloc(), first.saturating_add(place))?;
        hasher.update(&digest);
    }
    let digest = digest_text(rt.alloc(), hasher)?;
    println!(rt; "clients from {first} {digest}")?;
    Ok(())
}

// Plays a run over a store of 3 to 82 sectors. Returns the digest of what the door was told, of what the clients that
// were left have received, and of the store.
fn play_run(alloc: Global, number: u64) -> anyhow::Result<[u8; 32]> {
    let mut random = Random::new(number);
    let sectors = random.below(80).saturating_add(3);
    let core = start_core(alloc, sectors, some_start(&mut random))?;
    play_core(alloc, number, core, random)
}

fn play_core<D: Sectors + Drop>(
    alloc: Global,
    number: u64,
    core: Core<D>,
    random: Random,
) -> anyhow::Result<[u8; 32]> {
    let mut core = core;
    let mut hasher = hasher_of(number, serve_run(alloc, &mut core, random)?)?;
    add_store(core.into_store(), &mut hasher)?;
    Ok(hasher.finalize())
}

/// The clients of a run after it was served, and the core's refusal if it stopped the run.
#[derive(Drop)]
pub struct ServedRun {
    pub slots: Vec<Slot<Visitor>>,
    pub door: RandomDoor,
    pub refused: Option<StoreError>,
}

/// Serves the clients of a run. If the core refuses a step, nothing more is written, as in a daemon.
pub fn serve_run<D: Sectors>(
    alloc: Global,
    core: &mut Core<D>,
    random: Random,
) -> Result<ServedRun, AllocError> {
    let mut random = random;
    let mut slots = some_slots(alloc, &mut random)?;
    let backlog = some_backlog(&mut random);
    let mut door = RandomDoor::new(alloc, random);
    let refused = core.serve_clients(&mut slots, &mut door, backlog).err();
    if refused.is_none() {
        finish_writing(&mut slots, &mut door);
    }
    Ok(ServedRun {
        slots,
        door,
        refused,
    })
}

// The digest of what the door was told and of the clients that are in their places. It is an error if the run was
// refused.
fn hasher_of(number: u64, run: ServedRun) -> anyhow::Result<Sha256> {
    if let Some(error) = run.refused {
        bail!("run {number} was refused: {error}");
    }
    let mut hasher = run.door.into_hasher();
    add_left(&run.slots, &mut hasher);
    Ok(hasher)
}

// Adds the clients that are in their places.
fn add_left(slots: &[Slot<Visitor>], hasher: &mut Sha256) {
    for slot in slots {
        if let Some(client) = slot.client() {
            client.add_to(hasher);
        }
    }
}

// How a run's store begins: one in eight has generations left for one commit.
fn some_start(random: &mut Random) -> Start {
    match random.below(8) {
        0 => Start::Worn(1),
        _ => Start::SOUND,
    }
}

// One to sixteen places.
fn some_slots(alloc: Global, random: &mut Random) -> Result<Vec<Slot<Visitor>>, AllocError>
    ensures { IfOk result (λ slots. length slots.items ≤ SESSIONS) }
{
    let places = (random.up_to(SESSIONS as u64) as usize).min(SESSIONS);
    vacant_slots(alloc, places)
}

// A backlog that many clients, some or none exceed.
fn some_backlog(random: &mut Random) -> usize {
    match random.below(3) {
        0 => 60,
        1 => 2_000,
        _ => MAX_BACKLOG,
    }
}
