use crate::figures::print_figures;
use crate::times::Stopwatch;
use audit_wire::{Decoder, Fed, read_request};
use std::alloc::{AllocError, Global};
use std::rt::Clock;

// The size in bytes of the pieces that a decoder is fed.
const PIECE_LEN: usize = 4096;

// The body of an append: its first byte, a tag, a kind and a payload of 100 bytes.
const BODY_LEN: usize = 109;

/// Times `frames` appends of 100 bytes through a decoder, in pieces.
pub fn measure(rt: &(impl Clock + Eprint + AllocGlobal), frames: u32) -> anyhow::Result<()> {
    let stream = stream_of(rt.alloc(), frames)?;
    let watch = Stopwatch::start(rt);
    let requests = decode(rt.alloc(), &stream)?;
    let nanoseconds = watch.nanoseconds(rt)?;
    print_figures(
        rt,
        &[
            ("frames", u128::from(requests)),
            ("bytes", stream.len() as u128),
            ("nanoseconds", nanoseconds),
        ],
    )
}

// A stream of `frames` appends.
fn stream_of(alloc: Global, frames: u32) -> Result<Vec<u8>, AllocError> {
    let mut stream = Vec::new(alloc);
    for _ in 0..frames {
        stream.extend_from_slice(&[0, BODY_LEN as u8])?;
        stream.extend_from_slice(&[1; BODY_LEN])?;
    }
    Ok(stream)
}

// The number of valid requests in the stream.
fn decode(alloc: Global, stream: &[u8]) -> Result<u64, AllocError> {
    let mut decoder = Decoder::new(alloc)?;
    let mut requests = 0u64;
    for piece in stream.chunks(PIECE_LEN) {
        requests = requests.saturating_add(feed(&mut decoder, piece));
    }
    Ok(requests)
}

// The number of valid requests that end in the piece.
fn feed(decoder: &mut Decoder, piece: &[u8]) -> u64 {
    let mut requests = 0u64;
    let mut rest = piece;
    for _ in 0..piece.len() {
        match decoder.feed(rest) {
            Fed::Body { taken } => {
                rest = rest.get(taken..).unwrap_or(&[]);
                if read_request(decoder.body()).is_ok() {
                    requests = requests.saturating_add(1);
                }
            }
            Fed::More | Fed::Malformed { .. } => break,
        }
    }
    requests
}
