//! A client of a daemon in memory.
ghost use Rattle.audit_serve_passes.specs.Pairs.{unknown_calls};

use crate::random::Random;
use audit_serve_passes::StreamError;
use audit_serve_ready::ReadyStream;
use sha2::{Digest, Sha256};
use std::alloc::{AllocError, Global};

/// A client, with what it sends and what it has received. Its stream has nothing ready, takes less than it is given,
/// and fails, at random.
#[derive(Drop)]
pub struct Visitor {
    number: u64,
    random: Random,
    bytes: Vec<u8>,
    given: usize,
    received: Vec<u8>,
}

impl Visitor {
    /// Makes a client that sends these bytes, then the end of its stream.
    pub fn new(alloc: Global, number: u64, random: Random, bytes: Vec<u8>) -> Visitor {
        Visitor {
            number,
            random,
            bytes,
            given: 0,
            received: Vec::new(alloc),
        }
    }

    fn piece_size(&mut self) -> usize {
        let most = match self.random.below(4) {
            0 => 4,
            1 => 60,
            _ => 5_000,
        };
        self.random.up_to(most) as usize
    }

    /// What it has received.
    pub fn received(&self) -> &[u8] {
        &self.received
    }

    /// Adds its number, how much it has sent, and what it has received.
    pub fn add_to(&self, hasher: &mut Sha256) {
        hasher.update(&self.number.to_be_bytes());
        hasher.update(&(self.given as u64).to_be_bytes());
        hasher.update(&(self.received.len() as u64).to_be_bytes());
        hasher.update(&self.received);
    }
}

impl ReadyStream for Visitor {
    ghost calls = { unknown_calls };

    // One read in 64 fails, and in three of ten nothing is ready.
    fn read_ready(&mut self, buffer: &mut [u8]) -> Option<Result<usize, StreamError>> {
        match self.random.below(64) {
            0 => return Some(Err(StreamError)),
            1..=20 => return None,
            _ => {}
        }
        let size = self.piece_size();
        let left = self.bytes.get(self.given..).unwrap_or(&[]);
        let count = size.min(left.len()).min(buffer.len());
        buffer[..count].copy_from_slice(&left[..count]);
        self.given = self.given.saturating_add(count);
        Some(Ok(count))
    }

    // One write in 64 fails, in a quarter nothing can be written, and in a quarter only a little.
    fn write_ready(&mut self, bytes: &[u8]) -> Result<usize, StreamError> {
        let most = match self.random.below(64) {
            0 => return Err(StreamError),
            1..=16 => 0,
            17..=32 => self.random.up_to(30) as usize,
            _ => bytes.len(),
        };
        let count = most.min(bytes.len());
        match self.received.extend_from_slice(&bytes[..count]) {
            Ok(()) => Ok(count),
            Err(AllocError) => Err(StreamError),
        }
    }
}
