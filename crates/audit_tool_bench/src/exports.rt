//! The cost of verifying an export in a file, compared with the SHA-256 blocks that it can't avoid.
use crate::blocks::hash_events;
use crate::figures::print_figures;
use crate::times::{Stopwatch, Times};
use anyhow::bail;
use audit_chain::{Event, FIRST_LINK, Key, seal};
use audit_proof::Commitment;
use audit_tree::{Tree, leaf_hash};
use audit_verify::{EntryReader, check, verify};
use std::alloc::Global;
use std::fs::{self, Files};
use std::io::{BufWriter, Read, Write};
use std::rt::Clock;

// How often each is timed. Runs alternate, so that both minima come from the same period.
const ROUNDS: u32 = 7;

// The size in bytes of the buffer for entries.
const ROOM: usize = 1 << 16;

/// Writes the export of `events` small events to the file, and prints the shortest time of verifying it, of going over
/// it twice as the command does, and that of just the events' SHA-256 blocks.
pub fn measure<R: Files + AllocGlobal + Clock + Eprint>(
    rt: &R,
    file: &str,
    events: u32,
) -> anyhow::Result<()> {
    let commitment = write_export(rt, file, events)?;
    let mut least = Times::LONGEST;
    let mut twice = u128::MAX;
    for _ in 0..ROUNDS {
        least = least.least(time_verifying(rt, file, events, &commitment)?);
        twice = twice.min(time_passes(rt, file, &commitment)?);
    }
    print_times(rt, events, least, twice)
}

fn print_times<R: Eprint>(rt: &R, events: u32, times: Times, twice: u128) -> anyhow::Result<()> {
    print_figures(
        rt,
        &[
            ("verifying", u128::from(events)),
            ("nanoseconds", times.whole),
            ("blocks", times.bare),
            ("twice", twice),
            ("seen", u128::from(times.seen)),
        ],
    )
}

fn first_key() -> Key {
    Key::from_bytes([0; 32])
}

// Writes the export of `events` small events, and returns their commitment.
fn write_export<R: Files + AllocGlobal>(
    rt: &R,
    file: &str,
    events: u32,
) -> anyhow::Result<Commitment> {
    let mut export = BufWriter::with_capacity(rt.alloc(), ROOM, fs::create(rt, file)?)?;
    let commitment = write_entries(rt.alloc(), &mut export, events)?;
    export.flush()?;
    Ok(commitment)
}

// Writes the entries of `events` events of kind 1 with a payload of two bytes.
fn write_entries<W: Write>(
    alloc: Global,
    export: &mut W,
    events: u32,
) -> anyhow::Result<Commitment> {
    let event = Event::new(alloc, 1, b"hi")?;
    let mut tree = Tree::new(alloc);
    let (mut key, mut link) = (first_key(), FIRST_LINK);
    for _ in 0..events {
        let sealed = seal(alloc, &key, &link, &event)?;
        export.write_all(&sealed.bytes)?;
        tree.push(leaf_hash(&sealed.bytes))?;
        key = sealed.next;
        link = sealed.link;
    }
    Ok(Commitment {
        count: tree.count(),
        root: tree.root(),
    })
}

// Times the SHA-256 blocks of `events` events, then the verification of the export.
fn time_verifying<R: Files + AllocGlobal + Clock>(
    rt: &R,
    file: &str,
    events: u32,
    commitment: &Commitment,
) -> anyhow::Result<Times> {
    let watch = Stopwatch::start(rt);
    let seen = hash_events(events);
    let bare = watch.nanoseconds(rt)?;
    let mut export = fs::open(rt, file)?;
    let watch = Stopwatch::start(rt);
    let verified = verify_events(rt.alloc(), &mut export, commitment)?;
    let whole = watch.nanoseconds(rt)?;
    if verified.len() as u64 != commitment.count {
        bail!("other events are verified");
    }
    Ok(Times { whole, bare, seen })
}

// Verifies the export, and returns its events.
fn verify_events<R: Read>(
    alloc: Global,
    export: &mut R,
    commitment: &Commitment,
) -> anyhow::Result<Vec<Event>> {
    match verify(alloc, export, &first_key(), commitment) {
        Ok(report) => Ok(report.events),
        Err(fault) => bail!("the export is not verified: {fault:?}"),
    }
}

// Times both passes over the export, without the lines that the command prints in the second.
fn time_passes<R: Files + AllocGlobal + Clock>(
    rt: &R,
    file: &str,
    commitment: &Commitment,
) -> anyhow::Result<u128> {
    let mut first = fs::open(rt, file)?;
    let mut second = fs::open(rt, file)?;
    let watch = Stopwatch::start(rt);
    go_over_twice(rt.alloc(), &mut first, &mut second, commitment)?;
    watch.nanoseconds(rt)
}

// Judges the export, and then reads its events while it judges them again.
fn go_over_twice<R: Read>(
    alloc: Global,
    first: &mut R,
    second: &mut R,
    commitment: &Commitment,
) -> anyhow::Result<()> {
    let Ok(accepted) = check(first, &first_key(), commitment) else {
        bail!("the export is not accepted");
    };
    let mut entries = EntryReader::new(&first_key());
    for _ in 0..accepted.count {
        let Ok(Some(_)) = entries.next_event(alloc, second) else {
            bail!("an entry isn't read again");
        };
    }
    let Ok(None) = entries.next_event(alloc, second) else {
        bail!("the second pass doesn't end");
    };
    if !entries.has_reached(&accepted) {
        bail!("the second pass ends elsewhere");
    }
    Ok(())
}
