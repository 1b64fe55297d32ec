//! Random streams of sessions: frames of each kind of request. Some are malformed, and the last one is sometimes
//! truncated.
use crate::random::Random;
use audit_base::{FIRST_MAX_PAYLOAD, MAX_PAYLOAD};
use audit_wire::MAX_BODY;
use std::alloc::{AllocError, Global};

/// A stream of `frames` frames, of which `appends` in twenty are appends.
pub fn stream_of(
    alloc: Global,
    random: &mut Random,
    frames: u64,
    appends: u64,
) -> Result<Vec<u8>, AllocError> {
    let mut stream = Vec::new(alloc);
    for _ in 0..frames {
        add_frame(random, appends, &mut stream)?;
    }
    cut_off(random, &mut stream);
    Ok(stream)
}

/// Truncates a stream, one time in four.
pub fn cut_off(random: &mut Random, stream: &mut Vec<u8>) {
    if random.below(4) == 0 {
        let kept = stream.len().saturating_sub(random.up_to(6) as usize);
        stream.truncate(kept);
    }
}

fn add_frame(random: &mut Random, appends: u64, stream: &mut Vec<u8>) -> Result<(), AllocError> {
    let tag = random.next();
    let pick = random.below(20);
    if pick < appends {
        return add_append(random, tag, stream);
    }
    match pick {
        0..=10 => add_head(stream, 5, 2, tag),
        11..=13 => {
            add_head(stream, 21, 3, tag)?;
            add_numbers(random, stream)
        }
        14..=15 => {
            add_head(stream, 21, 4, tag)?;
            add_numbers(random, stream)
        }
        16..=18 => {
            add_head(stream, 13, 5, tag)?;
            stream.extend_from_slice(&random.below(24).to_be_bytes())
        }
        _ => add_odd_frame(random, tag, stream),
    }
}

/// Adds the length of a body, its first byte and its tag.
pub fn add_head(stream: &mut Vec<u8>, length: u64, kind: u8, tag: u64) -> Result<(), AllocError> {
    let length = (length & 0xffff) as u16;
    let tag = (tag & 0xffff_ffff) as u32;
    stream.extend_from_slice(&length.to_be_bytes())?;
    stream.push(kind)?;
    stream.extend_from_slice(&tag.to_be_bytes())
}

fn add_numbers(random: &mut Random, stream: &mut Vec<u8>) -> Result<(), AllocError> {
    stream.extend_from_slice(&random.below(20).to_be_bytes())?;
    stream.extend_from_slice(&random.below(24).to_be_bytes())
}

/// Adds an append, usually with a short payload.
pub fn add_append(random: &mut Random, tag: u64, stream: &mut Vec<u8>) -> Result<(), AllocError> {
    let kind = random.below(5);
    let length = payload_length(random);
    let first = random.below(256);
    add_head(stream, length.saturating_add(9), 1, tag)?;
    let kind = (kind & 0xffff_ffff) as u32;
    stream.extend_from_slice(&kind.to_be_bytes())?;
    for place in 0..length {
        stream.push((first.wrapping_add(place) & 0xff) as u8)?;
    }
    Ok(())
}

// Half of the payloads are short, a quarter fill about a sector, and the others have any length that the format's
// first version allows, or any that the newest version allows.
fn payload_length(random: &mut Random) -> u64 {
    match random.below(8) {
        0..=3 => random.below(40),
        4..=5 => random.below(20).saturating_add(430),
        6 => random.below(FIRST_MAX_PAYLOAD as u64 + 1),
        _ => random.below(MAX_PAYLOAD as u64 + 1),
    }
}

// A body length over the limit.
const TOO_LONG: u16 = MAX_BODY as u16 + 1;

// Adds a malformed frame, of each kind, one time in four, and otherwise a question.
fn add_odd_frame(random: &mut Random, tag: u64, stream: &mut Vec<u8>) -> Result<(), AllocError> {
    match random.below(24) {
        0 => stream.extend_from_slice(&[0, 0]),
        1 => stream.extend_from_slice(&TOO_LONG.to_be_bytes()),
        2 => add_head(stream, 5, 9, tag),
        3 => {
            add_head(stream, 6, 2, tag)?;
            stream.extend_from_slice(&[0])
        }
        4 => {
            add_head(stream, 9, 1, tag)?;
            stream.extend_from_slice(&[0xff; 4])
        }
        5 => {
            add_head(stream, 12, 5, tag)?;
            stream.extend_from_slice(&[0; 7])
        }
        6 => stream.extend_from_slice(&[0, 1, 1]),
        _ => add_head(stream, 5, 2, tag),
    }
}
