//! A stream cut into pieces: the answers don't depend on the pieces.
use crate::stores::new_core;
use crate::subject::Core;
use crate::texts::text_of;
use anyhow::{anyhow, bail};
use audit_disk::Sectors;
use std::alloc::Global;

// An append of `hi` under kind 1 with tag 7.
const APPEND: &[u8] = b"\x00\x0b\x01\x00\x00\x00\x07\x00\x00\x00\x01hi";

/// Feeds the bytes in every possible two and three pieces, including empty ones, and byte by byte. It prints the
/// number of ways and the answers. It is an error if the answers of two ways differ.
pub fn try_cuts<R: AllocGlobal + Print>(rt: &R, stream: &[u8]) -> anyhow::Result<()> {
    let alloc = rt.alloc();
    let whole = answers(alloc, &[stream])?;
    let ways = try_ways(alloc, stream, &whole)?;
    try_bytes(alloc, stream, &whole)?;
    println!(rt; "{ways} ways {}", text_of(alloc, &whole)?)?;
    Ok(())
}

fn try_bytes(alloc: Global, stream: &[u8], whole: &[u8]) -> anyhow::Result<()> {
    let bytes: Vec<&[u8]> = stream.chunks(1).collect(alloc)?;
    if !is_answered(alloc, &bytes, whole)? {
        bail!("byte by byte it is answered otherwise");
    }
    Ok(())
}

// The number of ways to cut the bytes into two or three pieces.
fn try_ways(alloc: Global, stream: &[u8], whole: &[u8]) -> anyhow::Result<u64> {
    let mut ways = 0u64;
    for first in 0..=stream.len() {
        let (front, rest) = cut(stream, first);
        ways = ways.saturating_add(cuts_after(alloc, front, rest, whole)?);
    }
    Ok(ways)
}

// The bytes before `place`, and the others.
fn cut(stream: &[u8], place: usize) -> (&[u8], &[u8]) {
    stream.split_at_checked(place).unwrap_or((stream, &[]))
}

// The number of ways to cut the rest in two.
fn cuts_after(alloc: Global, front: &[u8], rest: &[u8], whole: &[u8]) -> anyhow::Result<u64> {
    let mut ways = 0u64;
    for second in 0..=rest.len() {
        let (middle, back) = cut(rest, second);
        if !is_answered(alloc, &[front, middle, back], whole)? {
            bail!(
                "cut after {} and {second} bytes it is answered otherwise",
                front.len()
            );
        }
        ways = ways.saturating_add(1);
    }
    Ok(ways)
}

fn is_answered(alloc: Global, pieces: &[&[u8]], whole: &[u8]) -> anyhow::Result<bool> {
    Ok(answers(alloc, pieces)?.as_slice() == whole)
}

// The answers to the pieces, from a store of one event; whether the session has ended; and the number of events
// afterwards.
fn answers(alloc: Global, pieces: &[&[u8]]) -> anyhow::Result<Vec<u8>> {
    let mut outcome = Vec::new(alloc);
    add_answers(new_core(alloc, 16, u64::MAX)?, pieces, &mut outcome)?;
    Ok(outcome)
}

fn add_answers<D: Sectors + Drop>(
    core: Core<D>,
    pieces: &[&[u8]],
    outcome: &mut Vec<u8>,
) -> anyhow::Result<()> {
    let mut core = core;
    add_session(&mut core, pieces, outcome)?;
    let count = core.into_store().commitment().count;
    Ok(outcome.extend_from_slice(&count.to_be_bytes())?)
}

// Appends an event, whose answer is dropped, and adds the answers to the pieces and whether the session has ended.
fn add_session<D: Sectors>(
    core: &mut Core<D>,
    pieces: &[&[u8]],
    outcome: &mut Vec<u8>,
) -> anyhow::Result<()> {
    feed(core, &[APPEND])?;
    core.take_output(0);
    feed(core, pieces)?;
    outcome.extend_from_slice(&core.take_output(0))?;
    Ok(outcome.push(u8::from(core.ended(0)))?)
}

/// Feeds pieces to the first session, and flushes the core.
pub fn feed<D: Sectors>(core: &mut Core<D>, pieces: &[&[u8]]) -> anyhow::Result<()> {
    for piece in pieces {
        if let Err(fault) = core.feed(0, piece) {
            return Err(fault.error.into());
        }
    }
    Ok(core.flush()?)
}
