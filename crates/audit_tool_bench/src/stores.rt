//! The cost of a store in a file, compared with the file calls, the SHA-256 blocks and the ChaCha20 that it can't
//! avoid.
use crate::bare::{BareFile, open_bare};
use crate::figures::print_figures;
use crate::streams::keystream_of;
use crate::times::{Stopwatch, Times};
use anyhow::{Context, bail};
use audit_chain::{Event, Key};
use audit_disk::{FileDisk, OsFile, SECTOR_SIZE, Sectors, SystemFile, SystemFiles};
use audit_store::{Failed, Store};
use sha2::{Digest, Sha256};
use std::alloc::Global;
use std::fs::{self, Files, OpenFile};
use std::os::unix::fs::FileExt;
use std::rt::Clock;

/// The small events in a large batch. Each occupies one sector, and a store accepts no more sectors at once.
pub const LARGE_BATCH: u32 = 64;

// How many batches of each size are timed. The minimum is reported.
const ROUNDS: u32 = 300;

// How many openings are timed. The minimum is reported.
const OPENINGS: u32 = 7;

// The sectors of a store besides those for the requested events.
const SPARE_SECTORS: u64 = 2 + (LARGE_BATCH as u64 + 1) * ROUNDS as u64 + LARGE_BATCH as u64;

// The lengths of the messages hashed for an event with a payload of two bytes: entry key, link, the two halves of the
// MAC, next key, leaf, and an inner node. They have 11 blocks.
const SEALED_LENS: [usize; 7] = [50, 38, 96, 96, 46, 75, 65];

// The messages hashed when an opening reads the same event: link, leaf, and an inner node. They have 5 blocks.
const READ_LENS: [usize; 3] = [38, 75, 65];

/// The messages hashed for a batch: the digests of two headers, and two roots of some thousand entries.
pub const BATCH_LENS: [usize; 14] = [480, 480, 65, 65, 65, 65, 65, 65, 65, 65, 65, 65, 65, 65];

/// A device in a file of the operating system.
pub type Disk<F> = FileDisk<OsFile<F>>;

/// Makes a store of `events` small events in the file, in large batches, after batches that are timed, and reopens it.
/// It prints the peak memory of the process.
pub fn measure<R: SystemFiles + AllocGlobal + Clock + Eprint>(
    rt: &R,
    file: &str,
    events: u32,
) -> anyhow::Result<()>
where
    R::File: SystemFile + FileExt,
{
    fill_store(rt, file, events)?;
    time_openings(rt, file)?;
    print_memory(rt)
}

fn fill_store<R: SystemFiles + AllocGlobal + Clock + Eprint>(
    rt: &R,
    file: &str,
    events: u32,
) -> anyhow::Result<()>
where
    R::File: SystemFile + FileExt,
{
    let mut store = new_store(rt, file, SPARE_SECTORS + u64::from(events))?;
    time_and_fill(rt, file, &mut store, events)
}

// Times batches of both sizes, then appends large batches of some `events` events.
fn time_and_fill<R: Files + AllocGlobal + Clock + Eprint, D: Sectors>(
    rt: &R,
    file: &str,
    store: &mut Store<D>,
    events: u32,
) -> anyhow::Result<()>
where
    R::File: FileExt,
{
    time_sizes(rt, store, &open_bare(rt, file)?)?;
    append_large(rt.alloc(), store, u64::from(events / LARGE_BATCH))
}

fn time_sizes<R: AllocGlobal + Clock + Eprint, D: Sectors, F: FileExt + OpenFile>(
    rt: &R,
    store: &mut Store<D>,
    bare: &BareFile<F>,
) -> anyhow::Result<()> {
    time_batches(rt, store, bare, 1)?;
    time_batches(rt, store, bare, LARGE_BATCH)
}

/// Opens the file as a device without a lock, beside the open store, which keeps its own.
pub fn bare_disk<R: SystemFiles + AllocGlobal>(rt: &R, file: &str) -> anyhow::Result<Disk<R::File>>
where
    R::File: SystemFile,
{
    Ok(FileDisk::over_whole(rt.alloc(), rt.open_to_write(file)?)?)
}

/// Makes a store of `sectors` sectors in a new file.
pub fn new_store<R: SystemFiles + AllocGlobal>(
    rt: &R,
    file: &str,
    sectors: u64,
) -> anyhow::Result<Store<Disk<R::File>>>
where
    R::File: SystemFile,
{
    let disk = FileDisk::create(rt, rt.alloc(), file, sectors)?;
    made(Store::format(rt.alloc(), disk, Key::from_bytes([0; 32])))
}

// The store, or why there is none.
fn made<D: Sectors + Drop>(opened: Result<Store<D>, Failed<D>>) -> anyhow::Result<Store<D>> {
    match opened {
        Ok(store) => Ok(store),
        Err(failed) => Err(failed.error.into()),
    }
}

/// Appends `batches` large batches of small events.
pub fn append_large<D: Sectors>(
    alloc: Global,
    store: &mut Store<D>,
    batches: u64,
) -> anyhow::Result<()> {
    let batch = small_events(alloc, LARGE_BATCH)?;
    for _ in 0..batches {
        store.append(&batch)?;
    }
    Ok(())
}

/// `count` events of kind 1 with a payload of two bytes.
pub fn small_events(alloc: Global, count: u32) -> anyhow::Result<Vec<Event>> {
    let mut events = Vec::new(alloc);
    for _ in 0..count {
        events.push(Event::new(alloc, 1, b"hi")?)?;
    }
    Ok(events)
}

/// The events of a batch, and a row of bytes as long as their sectors.
#[derive(Drop)]
struct Batch {
    events: Vec<Event>,
    row: Vec<u8>,
}

fn batch_of(alloc: Global, size: u32) -> anyhow::Result<Batch> {
    let row = vec![in alloc; 0x5a; SECTOR_SIZE.saturating_mul(size as usize)]?;
    let events = small_events(alloc, size)?;
    Ok(Batch { events, row })
}

// The times of a batch: its append, the work that it can't avoid if each sector is written by itself, and the same work
// with one write for all sectors and the entries' keystreams.
#[derive(Clone, Copy)]
struct BatchTimes {
    times: Times,
    in_a_row: u128,
}

impl BatchTimes {
    // Longer than any time that is measured.
    const LONGEST: BatchTimes = BatchTimes {
        times: Times::LONGEST,
        in_a_row: u128::MAX,
    };

    // The shorter of each time.
    fn least(self, other: BatchTimes) -> BatchTimes {
        BatchTimes {
            times: self.times.least(other.times),
            in_a_row: self.in_a_row.min(other.in_a_row),
        }
    }
}

// Times the appends of batches of this many events, compared with the work that they can't avoid.
fn time_batches<R: AllocGlobal + Clock + Eprint, D: Sectors, F: FileExt + OpenFile>(
    rt: &R,
    store: &mut Store<D>,
    bare: &BareFile<F>,
    size: u32,
) -> anyhow::Result<()> {
    let batch = batch_of(rt.alloc(), size)?;
    let mut least = BatchTimes::LONGEST;
    for round in 0..ROUNDS {
        least = least.least(time_batch(rt, store, bare, &batch, round)?);
    }
    print_batches(rt, size, least)
}

fn print_batches<R: Eprint>(rt: &R, size: u32, least: BatchTimes) -> anyhow::Result<()> {
    let BatchTimes { times, in_a_row } = least;
    print_figures(
        rt,
        &[
            ("batches", u128::from(size)),
            ("nanoseconds", times.whole),
            ("bare", times.bare),
            ("row", in_a_row),
            ("seen", u128::from(times.seen)),
        ],
    )
}

// Times the work that the append of a batch can't avoid: the SHA-256 blocks, and the writes and syncs of the same
// sectors through a second handle of the file. It times this once with a write for each sector, and once with one for
// all and the keystreams. Then it times the append. The sectors are written before, since a first write allocates them.
fn time_batch<R: Clock, D: Sectors, F: FileExt + OpenFile>(
    rt: &R,
    store: &mut Store<D>,
    bare: &BareFile<F>,
    batch: &Batch,
    round: u32,
) -> anyhow::Result<BatchTimes> {
    let size = batch.events.len() as u64;
    bare.write_row(store.end(), &batch.row)?;
    let watch = Stopwatch::start(rt);
    let hashed = hash_batch(size, round);
    bare.write_batch(store.end(), size)?;
    let alone = watch.nanoseconds(rt)?;
    let watch = Stopwatch::start(rt);
    let encrypted = hash_batch(size, round) ^ small_streams(size);
    bare.write_row(store.end(), &batch.row)?;
    let in_a_row = watch.nanoseconds(rt)?;
    let watch = Stopwatch::start(rt);
    store.append(&batch.events)?;
    let times = Times {
        whole: watch.nanoseconds(rt)?,
        bare: alone,
        seen: hashed ^ encrypted,
    };
    Ok(BatchTimes { times, in_a_row })
}

// Computes the first word of the keystreams of `events` events, which is as long as their payloads need.
fn small_streams(events: u64) -> u8 {
    let mut seen = 0;
    for event in 0..events {
        seen ^= keystream_of(event, 1);
    }
    seen
}

// Hashes the messages of a batch of `size` events.
fn hash_batch(size: u64, round: u32) -> u8 {
    hash_events(&SEALED_LENS, size) ^ hash_messages(&BATCH_LENS, u64::from(round))
}

// Hashes the messages of `events` events.
fn hash_events(lens: &[usize], events: u64) -> u8 {
    let mut seen = 0;
    for event in 0..events {
        seen ^= hash_messages(lens, event);
    }
    seen
}

/// Hashes a message of each of these lengths. They begin with a number, so that no result can be reused.
pub fn hash_messages(lens: &[usize], number: u64) -> u8 {
    let mut message = [0x5a; 480];
    message[..8].copy_from_slice(&number.to_be_bytes());
    let mut seen = 0;
    for len in lens {
        seen ^= Sha256::digest(message.get(..*len).unwrap_or(&[]))[0];
    }
    seen
}

// Times openings of the store in the file, compared with just reading as many sectors and the SHA-256 blocks.
fn time_openings<R: SystemFiles + AllocGlobal + Clock + Eprint>(
    rt: &R,
    file: &str,
) -> anyhow::Result<()>
where
    R::File: SystemFile,
{
    let mut least = time_opening(rt, file)?;
    for _ in 1..OPENINGS {
        least = least.least(time_opening(rt, file)?);
    }
    print_opening(rt, least)
}

fn print_opening<R: Eprint>(rt: &R, times: OpeningTimes) -> anyhow::Result<()> {
    print_figures(
        rt,
        &[
            ("opening", u128::from(times.count)),
            ("nanoseconds", times.opening),
            ("calls", times.calls),
            ("blocks", times.blocks),
            ("seen", u128::from(times.seen)),
        ],
    )
}

// Prints the peak memory of the process.
fn print_memory<R: Files + AllocGlobal + Eprint>(rt: &R) -> anyhow::Result<()> {
    let status = fs::read_to_string(rt, "/proc/self/status").context("no memory figure")?;
    for line in status.lines() {
        if line.starts_with("VmHWM") {
            eprintln!(rt; "{line}")?;
        }
    }
    Ok(())
}

// The time of opening a store with this many events, and of the work that this can't avoid.
#[derive(Clone, Copy)]
struct OpeningTimes {
    count: u64,
    opening: u128,
    calls: u128,
    blocks: u128,
    seen: u8,
}

impl OpeningTimes {
    // The shorter of both times.
    fn least(self, other: OpeningTimes) -> OpeningTimes {
        OpeningTimes {
            count: self.count,
            opening: self.opening.min(other.opening),
            calls: self.calls.min(other.calls),
            blocks: self.blocks.min(other.blocks),
            seen: self.seen ^ other.seen,
        }
    }
}

// A store that was opened in this many nanoseconds: its events, and the end of its log.
#[derive(Clone, Copy)]
struct Opened {
    nanoseconds: u128,
    count: u64,
    end: u64,
}

// Opens the store once, then reads its sectors, then hashes the messages of the opening.
fn time_opening<R: SystemFiles + AllocGlobal + Clock>(
    rt: &R,
    file: &str,
) -> anyhow::Result<OpeningTimes>
where
    R::File: SystemFile,
{
    let opened = open_once(rt, file)?;
    let calls = time_reads(rt, file, opened.end)?;
    let watch = Stopwatch::start(rt);
    let seen = hash_events(&READ_LENS, opened.count);
    Ok(OpeningTimes {
        count: opened.count,
        opening: opened.nanoseconds,
        calls,
        blocks: watch.nanoseconds(rt)?,
        seen,
    })
}

fn open_once<R: SystemFiles + AllocGlobal + Clock>(rt: &R, file: &str) -> anyhow::Result<Opened>
where
    R::File: SystemFile,
{
    let disk = FileDisk::open(rt, rt.alloc(), file)?;
    open_disk(rt, disk)
}

fn open_disk<R: AllocGlobal + Clock, D: Sectors + Drop>(rt: &R, disk: D) -> anyhow::Result<Opened> {
    let watch = Stopwatch::start(rt);
    let store = made(Store::open(rt.alloc(), disk))?;
    Ok(Opened {
        nanoseconds: watch.nanoseconds(rt)?,
        count: store.commitment().count,
        end: store.end(),
    })
}

// Times reading every sector below `end`.
fn time_reads<R: SystemFiles + AllocGlobal + Clock>(
    rt: &R,
    file: &str,
    end: u64,
) -> anyhow::Result<u128>
where
    R::File: SystemFile,
{
    let mut bare = FileDisk::open(rt, rt.alloc(), file)?;
    time_bare_reads(rt, &mut bare, end)
}

fn time_bare_reads<R: Clock, D: Sectors>(rt: &R, disk: &mut D, end: u64) -> anyhow::Result<u128> {
    let watch = Stopwatch::start(rt);
    read_bare(disk, end)?;
    watch.nanoseconds(rt)
}

// Reads every sector below `end`.
fn read_bare<D: Sectors>(disk: &mut D, end: u64) -> anyhow::Result<()> {
    let mut sector = [0; SECTOR_SIZE];
    for at in 0..end {
        if at >= disk.size() {
            bail!("the file is too short");
        }
        disk.read(at, &mut sector)?;
    }
    Ok(())
}
