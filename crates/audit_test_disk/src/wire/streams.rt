//! Streams of good and damaged frames, compared with a plain reading of the whole stream.

ghost use Rattle.std.specs.Prelude.{◌<◌};

use audit_wire::{Decoder, Fed, RequestView, read_request};
use std::alloc::Global;
use std::process::Abort;

/// The digest of all readings, which a model of the formats in another language computes for the same streams.
const EXPECTED: u64 = 0xb323_b236_ca1e_5348;

const STREAMS: u64 = 10_000;

/// Pseudorandom numbers: Marsaglia's xorshift.
#[derive(Drop)]
struct Dice {
    state: u64,
}

impl Dice {
    fn below(&mut self, limit: u64) -> u64
        requires { 0 < limit }
        ensures { result < limit }
    {
        self.state ^= self.state << 13;
        self.state ^= self.state >> 7;
        self.state ^= self.state << 17;
        (self.state >> 11) % limit
    }

    fn byte(&mut self) -> u8 {
        self.below(256) as u8
    }
}

/// The result of a reading: a digest of the requests, and how it ended.
#[derive(Clone, Copy, PartialEq, Eq)]
struct Reading {
    digest: u64,
    malformed: bool,
    begun: bool,
}

impl Reading {
    const NOTHING: Reading = Reading {
        digest: 0xcbf2_9ce4_8422_2325,
        malformed: false,
        begun: false,
    };

    fn add(&mut self, number: u64) {
        self.digest = (self.digest ^ number).wrapping_mul(0x100_0000_01b3);
    }

    fn add_all(&mut self, bytes: &[u8]) {
        for byte in bytes {
            self.add(*byte as u64);
        }
    }

    fn add_request(&mut self, request: &RequestView) {
        match request {
            RequestView::Append { tag, kind, payload } => {
                self.add(1);
                self.add(*tag as u64);
                self.add(*kind as u64);
                self.add(payload.len() as u64);
                self.add_all(payload);
            }
            RequestView::Commitment { tag } => {
                self.add(2);
                self.add(*tag as u64);
            }
            RequestView::Membership { tag, index, count } => {
                self.add(3);
                self.add(*tag as u64);
                self.add(*index);
                self.add(*count);
            }
            RequestView::Incremental { tag, older, newer } => {
                self.add(4);
                self.add(*tag as u64);
                self.add(*older);
                self.add(*newer);
            }
            RequestView::Entry { tag, index } => {
                self.add(5);
                self.add(*tag as u64);
                self.add(*index);
            }
            RequestView::Close { tag } => {
                self.add(6);
                self.add(*tag as u64);
            }
            RequestView::State { tag } => {
                self.add(7);
                self.add(*tag as u64);
            }
            RequestView::Place { tag, kind } => {
                self.add(8);
                self.add(*tag as u64);
                self.add(*kind as u64);
            }
            RequestView::PlacedAppend {
                tag,
                kind,
                place,
                payload,
            } => {
                self.add(9);
                self.add(*tag as u64);
                self.add(*kind as u64);
                self.add(*place);
                self.add(payload.len() as u64);
                self.add_all(payload);
            }
        }
    }
}

fn put_random(rt: &impl Abort, stream: &mut Vec<u8>, dice: &mut Dice, count: u64) {
    for _ in 0..count {
        stream.push(dice.byte()).expect(rt, "memory");
    }
}

/// A frame with this first byte, followed by random bytes.
fn put_query(rt: &impl Abort, stream: &mut Vec<u8>, dice: &mut Dice, kind: u8, size: u8) {
    stream
        .extend_from_slice(&[0, size, kind])
        .expect(rt, "memory");
    put_random(rt, stream, dice, (size as u64).saturating_sub(1));
}

fn put_append(rt: &impl Abort, stream: &mut Vec<u8>, dice: &mut Dice) {
    let size = dice.below(24);
    stream
        .extend_from_slice(&[0, 9 + size as u8, 1])
        .expect(rt, "memory");
    put_random(rt, stream, dice, 4);
    if dice.below(16) == 0 {
        stream.extend_from_slice(&[0xff; 4]).expect(rt, "memory");
    } else {
        put_random(rt, stream, dice, 4);
    }
    put_random(rt, stream, dice, size);
}

/// A frame that is hardly ever a request.
fn put_junk(rt: &impl Abort, stream: &mut Vec<u8>, dice: &mut Dice) {
    let size = dice.below(24);
    stream
        .extend_from_slice(&[0, size as u8])
        .expect(rt, "memory");
    for _ in 0..size {
        stream.push(dice.below(8) as u8).expect(rt, "memory");
    }
}

fn put_frame(rt: &impl Abort, stream: &mut Vec<u8>, dice: &mut Dice) {
    match dice.below(9) {
        0..=2 => put_append(rt, stream, dice),
        3 => put_query(rt, stream, dice, 2, 5),
        4 => put_query(rt, stream, dice, 3, 21),
        5 => put_query(rt, stream, dice, 4, 21),
        6 => put_query(rt, stream, dice, 5, 13),
        7 => put_query(rt, stream, dice, 6, 5),
        _ => put_junk(rt, stream, dice),
    }
}

/// One to six frames. Every fourth stream has one byte changed, and every third is truncated.
fn stream_of(rt: &impl Abort, alloc: Global, dice: &mut Dice) -> Vec<u8> {
    let mut stream = Vec::new(alloc);
    for _ in 0..dice.below(6) + 1 {
        put_frame(rt, &mut stream, dice);
    }
    if dice.below(4) == 0 && !stream.is_empty() {
        let at = dice.below(stream.len() as u64) as usize;
        stream[at] = dice.byte();
    }
    if dice.below(3) == 0 {
        let size = dice.below(stream.len() as u64 + 1) as usize;
        stream.truncate(size);
    }
    stream
}

/// Feeds a piece, again and again, until nothing of it is left.
fn hear(decoder: &mut Decoder, piece: &[u8], reading: &mut Reading) {
    let mut rest = piece;
    while !rest.is_empty() && !reading.malformed {
        match decoder.feed(rest) {
            Fed::More => return,
            Fed::Malformed { .. } => {
                reading.malformed = true;
                return;
            }
            Fed::Body { taken } => {
                match read_request(decoder.body()) {
                    Ok(request) => reading.add_request(&request),
                    Err(_) => reading.malformed = true,
                }
                rest = &rest[taken..];
            }
        }
    }
}

/// A decoder's reading of a stream in pieces of up to nine bytes.
fn decoded(rt: &impl Abort, alloc: Global, stream: &[u8], dice: &mut Dice) -> Reading {
    let mut decoder = Decoder::new(alloc).expect(rt, "memory");
    let mut reading = Reading::NOTHING;
    let mut rest = stream;
    while !rest.is_empty() {
        let size = (dice.below(9) as usize + 1).min(rest.len());
        let (piece, after) = rest.split_at(size);
        hear(&mut decoder, piece, &mut reading);
        rest = after;
    }
    reading.begun = !reading.malformed && decoder.pending();
    reading
}

/// The number in the first `size` bytes, and the bytes after it.
fn number_at_front(bytes: &[u8], size: usize) -> Option<(u64, &[u8])> {
    if bytes.len() < size {
        return None;
    }
    let (front, rest) = bytes.split_at(size);
    let mut number = 0u64;
    for byte in front {
        number = number.wrapping_mul(256).wrapping_add(*byte as u64);
    }
    Some((number, rest))
}

/// Reads a body by the formats' table: first byte, size, and the widths of the numbers.
fn plain_request(body: &[u8], reading: &mut Reading) -> Option<()> {
    let (kind, mut rest) = number_at_front(body, 1)?;
    let widths: &[usize] = match (kind, body.len()) {
        (1, 9..=32_705) => &[4, 4],
        (2 | 6, 5) => &[4],
        (3 | 4, 21) => &[4, 8, 8],
        (5, 13) => &[4, 8],
        _ => return None,
    };
    if kind == 1 && body.len() >= 9 && body[5..9] == [0xff; 4] {
        return None;
    }
    reading.add(kind);
    for width in widths {
        let (number, after) = number_at_front(rest, *width)?;
        reading.add(number);
        rest = after;
    }
    if kind == 1 {
        reading.add(rest.len() as u64);
        reading.add_all(rest);
    }
    Some(())
}

/// The first frame's body, and the bytes after it.
fn plain_frame(stream: &[u8]) -> Option<(&[u8], &[u8])> {
    let (size, rest) = number_at_front(stream, 2)?;
    if rest.len() < size as usize {
        return None;
    }
    Some(rest.split_at(size as usize))
}

/// A plain reading of the whole stream.
fn plain(stream: &[u8]) -> Reading {
    let mut reading = Reading::NOTHING;
    let mut rest = stream;
    for _ in 0..=stream.len() {
        match number_at_front(rest, 2) {
            Some((1..=32_705, _)) => {}
            Some(_) => {
                reading.malformed = true;
                return reading;
            }
            None => break,
        }
        let Some((body, after)) = plain_frame(rest) else {
            break;
        };
        if plain_request(body, &mut reading).is_none() {
            reading.malformed = true;
            return reading;
        }
        rest = after;
    }
    reading.begun = !rest.is_empty();
    reading
}

/// The reading of the stream of this number, which the decoder and the plain reader share.
fn read_both_ways(rt: &impl Abort, alloc: Global, number: u64) -> Reading {
    let mut dice = Dice {
        state: number.wrapping_mul(0x9E37_79B9_7F4A_7C15).wrapping_add(1),
    };
    let stream = stream_of(rt, alloc, &mut dice);
    let reading = decoded(rt, alloc, &stream, &mut dice);
    check!(rt; reading == plain(&stream), number);
    reading
}

#[test]
fn ten_thousand_streams_in_any_cuts(rt: HostRuntime) {
    let mut total = Reading::NOTHING;
    for i in 0..STREAMS {
        let reading = read_both_ways(&rt, rt.alloc(), i);
        total.add(reading.digest);
        total.add(reading.malformed as u64);
        total.add(reading.begun as u64);
    }
    check!(&rt; total.digest == EXPECTED);
}
