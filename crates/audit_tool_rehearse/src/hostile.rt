//! Batches of hostile streams, and a digest of everything they produce.
use crate::lists::play_plan;
use crate::plan::Plan;
use crate::random::Random;
use crate::stores::{Start, start_core};
use crate::streams::{add_append, add_head, cut_off};
use crate::texts::{digest_text, two_numbers};
use audit_wire::MAX_BODY;
use sha2::{Digest, Sha256};
use std::alloc::{AllocError, Global};

// The groups of four steps in a batch.
const GROUPS: usize = 16;

// The most bytes of a body, and how many lengths exceed it.
const MOST_BYTES: u64 = MAX_BODY as u64;

const LONGER: u64 = u16::MAX as u64 - MOST_BYTES;

/// How many frames were drawn, and how many of them are malformed.
#[derive(Drop)]
struct Tally {
    frames: u64,
    malformed: u64,
}

/// Plays a range of numbered batches, and prints how many frames they had, how many of them were malformed, and the
/// digest.
pub fn play_hostile<R: AllocGlobal + Print>(rt: &R, rest: &str) -> anyhow::Result<()> {
    let (first, count) = two_numbers(rest)?;
    let mut hasher = Sha256::new();
    let mut tally = Tally {
        frames: 0,
        malformed: 0,
    };
    for place in 0..count {
        play_batch(
            rt.alloc(),
            first.saturating_add(place),
            &mut tally,
            &mut hasher,
        )?;
    }
    let (frames, malformed) = (tally.frames, tally.malformed);
    let text = digest_text(rt.alloc(), hasher)?;
    println!(rt; "hostile from {first} {frames} frames {malformed} malformed {text}")?;
    Ok(())
}

// Plays a batch over a store of 3 to 32 sectors.
fn play_batch(
    alloc: Global,
    number: u64,
    tally: &mut Tally,
    hasher: &mut Sha256,
) -> anyhow::Result<()> {
    let mut random = Random::new(number);
    let sectors = random.below(30).saturating_add(3);
    let start = some_start(&mut random);
    let streams = hostile_streams(alloc, &mut random, tally)?;
    let core = start_core(alloc, sectors, start)?;
    play_plan(alloc, core, Plan::new(random, &streams, 12), GROUPS, hasher)
}

// How a batch's store begins: one in four is of the first version of the format.
fn some_start(random: &mut Random) -> Start {
    match random.below(4) {
        0 => Start::First,
        _ => Start::SOUND,
    }
}

// The streams of 1 to 16 sessions.
fn hostile_streams(
    alloc: Global,
    random: &mut Random,
    tally: &mut Tally,
) -> Result<Vec<Vec<u8>>, AllocError> {
    let sessions = random.up_to(16);
    let mut streams = Vec::new(alloc);
    for _ in 0..sessions {
        streams.push(hostile_stream(alloc, random, tally)?)?;
    }
    Ok(streams)
}

fn hostile_stream(
    alloc: Global,
    random: &mut Random,
    tally: &mut Tally,
) -> Result<Vec<u8>, AllocError> {
    let mut stream = Vec::new(alloc);
    let frames = random.up_to(4);
    for _ in 0..frames {
        add_drawn(random, tally, &mut stream)?;
    }
    cut_off(random, &mut stream);
    Ok(stream)
}

// Of twelve frames two are appends, one is a commitment and three are other questions; the rest are malformed.
fn add_drawn(
    random: &mut Random,
    tally: &mut Tally,
    stream: &mut Vec<u8>,
) -> Result<(), AllocError> {
    tally.frames = tally.frames.saturating_add(1);
    let tag = random.next();
    match random.below(12) {
        0..=1 => add_append(random, tag, stream),
        2 => add_head(stream, 5, 2, tag),
        3..=5 => add_far_question(random, tag, stream),
        pick => {
            tally.malformed = tally.malformed.saturating_add(1);
            add_malformed(random, pick, tag, stream)
        }
    }
}

// A question about indices and counts that may be far out of range.
fn add_far_question(random: &mut Random, tag: u64, stream: &mut Vec<u8>) -> Result<(), AllocError> {
    match random.below(3) {
        0 => add_head(stream, 13, 5, tag)?,
        pick => {
            let kind = if pick == 1 { 3 } else { 4 };
            add_head(stream, 21, kind, tag)?;
            add_place(random, stream)?;
        }
    }
    add_place(random, stream)
}

fn add_place(random: &mut Random, stream: &mut Vec<u8>) -> Result<(), AllocError> {
    let place = match random.below(6) {
        0..=2 => random.below(5),
        3 => u64::MAX.saturating_sub(random.below(3)),
        4 => random.below(3).saturating_add((1 << 24) - 1),
        _ => random.next() << 33,
    };
    stream.extend_from_slice(&place.to_be_bytes())
}

fn add_malformed(
    random: &mut Random,
    pick: u64,
    tag: u64,
    stream: &mut Vec<u8>,
) -> Result<(), AllocError> {
    match pick {
        6 => stream.extend_from_slice(&[0, 0]),
        7 => add_too_long(random, stream),
        8 => add_reserved(random, tag, stream),
        9..=10 => add_wrong_length(random, stream),
        _ => add_unknown(random, stream),
    }
}

// A length over the limit, followed by some bytes of the body.
fn add_too_long(random: &mut Random, stream: &mut Vec<u8>) -> Result<(), AllocError> {
    let length = match random.below(2) {
        0 => MOST_BYTES.saturating_add(1),
        _ => random.below(LONGER).saturating_add(MOST_BYTES + 1),
    };
    let length = (length & 0xffff) as u16;
    stream.extend_from_slice(&length.to_be_bytes())?;
    add_noise(random, 20, stream)
}

// An append of the reserved kind.
fn add_reserved(random: &mut Random, tag: u64, stream: &mut Vec<u8>) -> Result<(), AllocError> {
    let length = random.below(20);
    add_head(stream, length.saturating_add(9), 1, tag)?;
    stream.extend_from_slice(&[0xff; 4])?;
    add_noise(random, length, stream)
}

// A request whose length is wrong for its kind.
fn add_wrong_length(random: &mut Random, stream: &mut Vec<u8>) -> Result<(), AllocError> {
    let kind = random.up_to(5);
    let (most, right) = match kind {
        1 => (8, 0),
        2 => (40, 5),
        3..=4 => (40, 21),
        _ => (40, 13),
    };
    let length = random.up_to(most);
    let length = if length == right { 1 } else { length };
    add_body(random, length, kind, stream)
}

// A body whose first byte isn't a request's.
fn add_unknown(random: &mut Random, stream: &mut Vec<u8>) -> Result<(), AllocError> {
    let first = match random.below(251) {
        0 => 0,
        byte => byte.saturating_add(5),
    };
    let length = match random.below(8) {
        0 => MOST_BYTES,
        _ => random.up_to(60),
    };
    add_body(random, length, first, stream)
}

// A frame of this length, which isn't 0: this first byte, followed by noise.
fn add_body(
    random: &mut Random,
    length: u64,
    first: u64,
    stream: &mut Vec<u8>,
) -> Result<(), AllocError> {
    let size = (length & 0xffff) as u16;
    stream.extend_from_slice(&size.to_be_bytes())?;
    stream.push((first & 0xff) as u8)?;
    add_noise(random, length.saturating_sub(1), stream)
}

fn add_noise(random: &mut Random, length: u64, stream: &mut Vec<u8>) -> Result<(), AllocError> {
    for _ in 0..length {
        stream.push((random.below(256) & 0xff) as u8)?;
    }
    Ok(())
}
