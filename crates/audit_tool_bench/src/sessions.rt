//! The cost of sessions over a store in a file: group commit of small events, and replies to questions.
use crate::bare::open_bare;
use crate::flushes::time_flushes;
use crate::questions::time_questions;
use crate::stores::{LARGE_BATCH, append_large, bare_disk, new_store, small_events};
use crate::times::Stopwatch;
use anyhow::{Context, bail};
use audit_base::SESSIONS;
use audit_disk::{Sectors, SystemFile, SystemFiles};
use audit_server::Core;
use audit_store::Store;
use audit_wire::first_frame;
use std::alloc::Global;
use std::fs::Files;
use std::os::unix::fs::FileExt;
use std::rt::Clock;

// How many flushes of each size, and how many batches of questions, are timed.
pub const ROUNDS: u32 = 300;

// The number of appends in a flush.
const FLUSH_SIZES: [u32; 4] = [1, 4, 16, 64];

// The sectors of a store besides those for the requested events: the headers, the events of all flushes, and as many
// as a batch may have.
const SPARE_SECTORS: u64 = 2 + (1 + 4 + 16 + 64) * ROUNDS as u64 + LARGE_BATCH as u64;

/// Makes a store in the file, appends small events through sessions with flushes of several sizes, appends more until
/// it holds `events`, and requests membership proofs of them.
pub fn measure<R: SystemFiles + AllocGlobal + Clock + Eprint>(
    rt: &R,
    file: &str,
    events: u32,
) -> anyhow::Result<()>
where
    R::File: SystemFile + FileExt,
{
    let events = u64::from(events);
    let store = new_store(rt, file, SPARE_SECTORS + events)?;
    time_store(rt, file, store, events)
}

fn time_store<R: SystemFiles + AllocGlobal + Clock + Eprint, D: Sectors + Drop>(
    rt: &R,
    file: &str,
    store: Store<D>,
    events: u64,
) -> anyhow::Result<()>
where
    R::File: SystemFile + FileExt,
{
    let store = time_flushes_and_fill(rt, file, store, events)?;
    time_questions(rt, store, &mut bare_disk(rt, file)?)
}

// Times flushes of each size, then appends events until the store holds `events`, and returns it.
fn time_flushes_and_fill<R: Files + AllocGlobal + Clock + Eprint, D: Sectors + Drop>(
    rt: &R,
    file: &str,
    store: Store<D>,
    events: u64,
) -> anyhow::Result<Store<D>>
where
    R::File: FileExt,
{
    let bare = open_bare(rt, file)?;
    let mut store = store;
    for size in FLUSH_SIZES {
        store = time_flushes(rt, store, &bare, size)?;
    }
    fill(rt.alloc(), &mut store, events)?;
    Ok(store)
}

// Appends small events until the store holds `events`.
fn fill<D: Sectors>(alloc: Global, store: &mut Store<D>, events: u64) -> anyhow::Result<()> {
    let missing = events.saturating_sub(store.commitment().count);
    append_large(alloc, store, missing / u64::from(LARGE_BATCH))?;
    let rest = missing % u64::from(LARGE_BATCH);
    store.append(&small_events(alloc, rest as u32)?)?;
    Ok(())
}

/// Makes a core over a store.
pub fn started<D: Sectors + Drop>(alloc: Global, store: Store<D>) -> anyhow::Result<Core<D>> {
    Core::new(alloc, store).ok().context("no memory for a core")
}

/// Times these frames: they are fed to the sessions in turn, then there is a flush, and each session's output is
/// taken. The outputs must contain a reply for each frame that begins with this byte.
pub fn time_frames<R: AllocGlobal + Clock, D: Sectors, const N: usize>(
    rt: &R,
    core: &mut Core<D>,
    frames: &[[u8; N]],
    first: u8,
) -> anyhow::Result<u128> {
    let mut outputs = Vec::with_capacity(rt.alloc(), SESSIONS)?;
    let watch = Stopwatch::start(rt);
    answer_frames(core, frames, &mut outputs)?;
    let time = watch.nanoseconds(rt)?;
    judge_replies(&outputs, first, frames.len())?;
    Ok(time)
}

fn answer_frames<D: Sectors, const N: usize>(
    core: &mut Core<D>,
    frames: &[[u8; N]],
    outputs: &mut Vec<Vec<u8>>,
) -> anyhow::Result<()> {
    feed_frames(core, frames)?;
    core.flush()?;
    take_outputs(core, outputs)
}

fn feed_frames<D: Sectors, const N: usize>(
    core: &mut Core<D>,
    frames: &[[u8; N]],
) -> anyhow::Result<()> {
    for (number, frame) in frames.iter().enumerate() {
        if let Err(fault) = core.feed(number % SESSIONS, frame) {
            return Err(fault.error.into());
        }
    }
    Ok(())
}

fn take_outputs<D: Sectors>(core: &mut Core<D>, outputs: &mut Vec<Vec<u8>>) -> anyhow::Result<()> {
    for session in 0..SESSIONS {
        outputs.push(core.take_output(session))?;
    }
    Ok(())
}

// Checks that the outputs contain `wanted` replies that begin with this byte.
fn judge_replies(outputs: &[Vec<u8>], first: u8, wanted: usize) -> anyhow::Result<()> {
    let mut found = 0usize;
    for output in outputs {
        found = found.saturating_add(count_replies(output, first));
    }
    if found != wanted {
        bail!("{found} replies in place of {wanted}");
    }
    Ok(())
}

// How many replies in an output begin with this byte.
fn count_replies(output: &[u8], first: u8) -> usize {
    let mut count = 0usize;
    let mut rest = output;
    for _ in 0..output.len() {
        let Some((body, after)) = first_frame(rest) else {
            return count;
        };
        if body.first() == Some(&first) {
            count = count.saturating_add(1);
        }
        rest = after;
    }
    count
}
