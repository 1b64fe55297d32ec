ghost use Rattle.std.specs.Prelude.{◌≡◌};

use audit_base::{reserve_and_wipe, wipe};
use std::alloc::{AllocError, Global};
use std::marker::Model;

/// Bytes that wait to be written, of which the first are removed as they are written. Removing moves no byte. Among them
/// may be keys of entries, so what is removed is overwritten, and so is a buffer that the bytes leave.
#[derive(Drop)]
pub(crate) struct Backlog {
    bytes: Vec<u8>,
    start: usize,
    alloc: Global,
    // What was read back from the bytes that were overwritten last.
    wiped: u8,
}

impl Model for Backlog {
    ghost use Rattle.std.specs.Prelude.{◌≤◌, ℕ, List, length, drop};

    ghost Value = { List ℕ };

    ghost view = { λ backlog. drop backlog.start backlog.bytes.items };

    ghost invariant = { λ backlog. backlog.start ≤ length backlog.bytes.items };
}

impl Backlog {
    ghost use Rattle.std.specs.Prelude.{◌≡◌, ◌≢◌, ◌≤◌, [], ◌++◌, length, drop, MatchResult, OnErr, IsTrue, ◌↔◌};

    pub(crate) fn new(alloc: Global) -> Backlog
        ensures { result ≡ [] }
    {
        Backlog {
            bytes: Vec::new(alloc),
            start: 0,
            alloc,
            wiped: 0,
        }
    }

    pub(crate) fn len(&self) -> usize
        ensures { result ≡ length self.now }
    {
        self.bytes.len() - self.start
    }

    pub(crate) fn as_slice(&self) -> &[u8]
        ensures { result.now ≡ self.now }
    {
        &self.bytes[self.start..]
    }

    /// Appends bytes. The only error is that memory is refused; then the bytes are as before. None is asked for unless
    /// bytes are to be put behind others.
    pub(crate) fn append(&mut self, more: Vec<u8>) -> Result<(), AllocError>
        ensures appended { MatchResult result (λ done. self.new ≡ self.old ++ more.items)
            (λ error. self.new ≡ self.old) }
        ensures refused { OnErr result ((self.old ≢ []) × (more.items ≢ [])) }
    {
        if more.is_empty() {
            return Ok(());
        }
        if self.len() == 0 {
            self.bytes = more;
            self.start = 0;
            return Ok(());
        }
        self.compact();
        let done = self.extend(&more);
        self.discard(more);
        done
    }

    // Copies bytes behind the others.
    fn extend(&mut self, more: &[u8]) -> Result<(), AllocError>
        ensures { MatchResult result (λ done. self.new ≡ self.old ++ more.now) (λ error. self.new ≡ self.old) }
    {
        self.wiped = reserve_and_wipe(self.alloc, &mut self.bytes, more.len(), self.wiped)?;
        self.bytes.extend_from_slice(more)
    }

    /// Drops bytes that aren't kept.
    pub(crate) fn discard(&mut self, bytes: Vec<u8>)
        ensures { self.new ≡ self.old }
    {
        let mut bytes = bytes;
        self.wiped = wipe(&mut bytes, self.wiped);
    }

    // Moves the bytes to the front of their buffer if more of it was removed than is left.
    fn compact(&mut self)
        ensures { self.new ≡ self.old }
    {
        let left = self.len();
        if self.start > left {
            self.bytes.rotate_left(self.start);
            self.bytes.truncate(left);
            self.start = 0;
        }
    }

    /// Removes the first `count` bytes.
    pub(crate) fn remove(&mut self, count: usize)
        requires { count ≤ length self.old }
        ensures { self.new ≡ drop count self.old }
    {
        let end = self.start + count;
        self.wiped = wipe(&mut self.bytes[self.start..end], self.wiped);
        self.start = end;
    }

    pub(crate) fn clear(&mut self)
        ensures { self.new ≡ [] }
    {
        self.wiped = wipe(&mut self.bytes, self.wiped);
        self.bytes.clear();
        self.start = 0;
    }
}
