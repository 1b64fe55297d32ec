//! Computes what a crash leaves from the calls made before it.
ghost use Rattle.std.specs.Prelude.{◌≡◌, ◌≤◌, IfOk, length, map, replicate, take};
ghost use Rattle.audit_disk.specs.Held.{settled, bytes_of_blocks, crashed};
ghost use Rattle.audit_disk.specs.Memory.{after_calls};
ghost use Rattle.audit_disk.specs.Contents.{newest_of, content_after, EndSynced};
ghost use Rattle.audit_disk.specs.Progress.{AreProgress, landed_of, after_effect};

use crate::SECTOR_SIZE;
use crate::block::Block;
use crate::call::{Call, Effect};
use crate::progress::Progress;
use std::alloc::{AllocError, Global};

fn zero_block() -> Block
    ensures { result.bytes ≡ replicate SECTOR_SIZE 0 }
{
    Block {
        bytes: [0; SECTOR_SIZE],
    }
}

pub(crate) fn zero_blocks(alloc: Global, count: u64) -> Result<Vec<Block>, AllocError>
    ensures { IfOk result (λ blocks. bytes_of_blocks blocks.items ≡ replicate count (replicate SECTOR_SIZE 0)) }
{
    let mut blocks = Vec::new(alloc);
    for _ in 0..count {
        blocks.push(zero_block())?;
    }
    Ok(blocks)
}

pub(crate) fn blocks_of(
    alloc: Global,
    sectors: &[[u8; SECTOR_SIZE]],
) -> Result<Vec<Block>, AllocError>
    ensures { IfOk result (λ blocks. bytes_of_blocks blocks.items ≡ sectors.now) }
{
    let mut blocks = Vec::new(alloc);
    for sector in sectors {
        blocks.push(Block { bytes: *sector })?;
    }
    Ok(blocks)
}

/// The sectors before the first call, with their picks.
fn progress_at(alloc: Global, start: &[Block], pick: &[u64]) -> Result<Vec<Progress>, AllocError>
    ensures { IfOk result (λ progress. AreProgress (map settled start.now) pick.now progress.items) }
{
    let mut progress = Vec::new(alloc);
    for (k, block) in start.iter().enumerate() {
        let chosen = pick.get(k).copied().unwrap_or(0);
        progress.push(Progress::new(*block, chosen))?;
    }
    Ok(progress)
}

/// Applies a call to the sectors that it affects.
fn apply(progress: &mut [Progress], call: &Call)
    ensures { progress.new ≡ after_effect call.now.effect progress.old }
{
    match call.effect {
        Effect::Write(at, block) => {
            if at < progress.len() {
                progress[at].write(block);
            }
        }
        Effect::Sync => {
            for sector in progress.iter_mut() {
                sector.sync();
            }
        }
    }
}

/// What the crash leaves.
fn landed_blocks(alloc: Global, progress: &[Progress]) -> Result<Vec<Block>, AllocError>
    ensures { IfOk result (λ blocks. blocks.items ≡ landed_of progress.now) }
{
    progress.iter().map(|sector| sector.landed).collect(alloc)
}

/// What a crash with these picks leaves after these calls on synced sectors, by replaying every call.
fn replayed_blocks(
    alloc: Global,
    start: &[Block],
    calls: &[Call],
    pick: &[u64],
) -> Result<Vec<Block>, AllocError>
    ensures { IfOk result (λ blocks. bytes_of_blocks blocks.items
        ≡ crashed (after_calls calls.now (map settled start.now)) pick.now) }
{
    let mut progress = progress_at(alloc, start, pick)?;
    for call in calls {
        apply(&mut progress, call);
    }
    landed_blocks(alloc, &progress)
}

/// How many calls there are up to and including the last sync.
fn synced_calls(calls: &[Call]) -> usize
    ensures within { result ≤ length calls.now }
    ensures synced { EndSynced (take result calls.now) }
{
    let mut synced = 0;
    for (k, call) in calls.iter().enumerate() {
        if let Effect::Sync = call.effect {
            synced = k + 1;
        }
    }
    synced
}

/// Applies a call's write to the content.
fn put(blocks: &mut [Block], call: &Call)
    ensures { blocks.new ≡ content_after call.now.effect blocks.old }
{
    if let Effect::Write(at, block) = call.effect {
        if at < blocks.len() {
            blocks[at] = block;
        }
    }
}

/// The content after these calls.
fn content_of_calls(
    alloc: Global,
    start: &[Block],
    calls: &[Call],
) -> Result<Vec<Block>, AllocError>
    ensures { IfOk result (λ blocks. blocks.items
        ≡ newest_of (after_calls calls.now (map settled start.now))) }
{
    let mut blocks = Vec::from_slice(alloc, start)?;
    for call in calls {
        put(&mut blocks, call);
    }
    Ok(blocks)
}

/// What a crash with these picks leaves after these calls on synced sectors. Before the last sync only the content
/// matters, so only the calls after it are replayed with picks.
pub(crate) fn crashed_blocks(
    alloc: Global,
    start: &[Block],
    calls: &[Call],
    pick: &[u64],
) -> Result<Vec<Block>, AllocError>
    ensures { IfOk result (λ blocks. bytes_of_blocks blocks.items
        ≡ crashed (after_calls calls.now (map settled start.now)) pick.now) }
{
    let synced = synced_calls(calls);
    let content = content_of_calls(alloc, start, &calls[..synced])?;
    replayed_blocks(alloc, &content, &calls[synced..], pick)
}
