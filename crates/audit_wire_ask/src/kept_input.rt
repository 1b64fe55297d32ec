//! Reading lines again.
ghost use Rattle.std.specs.Prelude.{◌≤◌, length};

use std::alloc::Global;
use std::io::{self, ErrorKind, Read};

/// An input of which the last lines can be read again: what was given since the start of the line in which the input was
/// read last. [`send_events`](crate::send_events) reads all answers that are due before it reads the input, so these
/// have all lines that aren't answered.
#[derive(Drop)]
pub struct KeptInput<R> {
    inner: R,
    // Bytes of the input, from the start of a line on, and how many of them were given.
    kept: Vec<u8>,
    given: usize,
}

impl<R: Read> KeptInput<R> {
    /// Keeps lines of an input.
    pub fn new(alloc: Global, inner: R) -> KeptInput<R> {
        KeptInput {
            inner,
            kept: Vec::new(alloc),
            given: 0,
        }
    }

    /// Goes back: the last `unread` bytes that were given, and as many lines before them, are given again. Returns whether
    /// they are still there. A last line may lack its line feed.
    pub fn go_back(&mut self, unread: usize, lines: u64) -> bool {
        let read = self.given.saturating_sub(unread).min(self.kept.len());
        match start_of_last(&self.kept[..read], lines) {
            Some(start) => {
                self.given = start;
                true
            }
            None => false,
        }
    }

    // Drops the lines that were given, all but the last, if that isn't whole.
    fn drop_lines(&mut self) {
        let start = after_last_feed(&self.kept);
        self.kept.drain(..start);
    }
}

// Where the last lines of these bytes start, if there are as many.
fn start_of_last(bytes: &[u8], lines: u64) -> Option<usize> {
    let mut start = bytes.len();
    for _ in 0..lines {
        let before = bytes.get(..start)?;
        if before.is_empty() {
            return None;
        }
        let line = before.strip_suffix(b"\n").unwrap_or(before);
        start = after_last_feed(line);
    }
    Some(start)
}

// How many bytes there are up to the last line feed.
fn after_last_feed(bytes: &[u8]) -> usize
    ensures { result ≤ length bytes.now }
{
    match bytes.iter().rposition(|byte| *byte == b'\n') {
        Some(place) => place + 1,
        None => 0,
    }
}

/// Nothing is known of the bytes.
impl<R: Read> Read for KeptInput<R> {
    fn read(&mut self, into: &mut [u8]) -> io::Result<usize> {
        if self.given < self.kept.len() {
            let count = (self.kept.len() - self.given).min(into.len());
            into[..count].copy_from_slice(&self.kept[self.given..self.given + count]);
            self.given += count;
            return Ok(count);
        }
        self.drop_lines();
        if self.kept.reserve(into.len()).is_err() {
            return Err(io::Error::from(ErrorKind::OutOfMemory));
        }
        let taken = self.inner.read(into)?;
        let _ = self.kept.extend_from_slice(&into[..taken]);
        self.given = self.kept.len();
        Ok(taken)
    }
}
