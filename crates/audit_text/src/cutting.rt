//! Lines that are longer than a payload may be, cut to one.
ghost use Rattle.std.specs.Prelude.{◌≡◌, ◌≤◌, ◌++◌, length, take, IfOk, OnOk};
ghost use Rattle.audit_text.specs.CutLines.{cut_note, cut_line};

use crate::output::{push_hex, push_number};
use crate::split::split_at_first;
use audit_base::{Hash, MAX_PAYLOAD};
use sha2::{Digest, Sha256};
use std::alloc::{AllocError, Global};
use std::io::{self, ErrorKind, Read};
use std::mem::replace;

// The most bytes that are read at a time.
const PIECE_LEN: usize = 1 << 14;

/// Appends what stands for a line that is longer than a payload may be: the start of the line, and a note of its length
/// in bytes and its SHA-256. It is as long as a payload may be, if the start is.
pub fn push_cut(
    alloc: Global,
    line: &mut Vec<u8>,
    start: &[u8],
    length: u64,
    hash: &Hash,
) -> Result<(), AllocError>
    ensures { OnOk result (line.new.items ≡ line.old.items ++ cut_line start.now length hash.now) }
{
    let note = note_of(alloc, length, hash)?;
    line.extend_from_slice(front_of(start, MAX_PAYLOAD.saturating_sub(note.len())))?;
    line.extend_from_slice(&note)
}

// The first bytes, at most as many as there is room for.
#[tactic(auto, using(std::proofs::lemmas::List::take_all))]
fn front_of(bytes: &[u8], room: usize) -> &[u8]
    ensures { result.now ≡ take room bytes.now }
{
    if bytes.len() <= room {
        bytes
    } else {
        &bytes[..room]
    }
}

#[tactic(auto, unfolding(crate::specs::CutLines::cut_note))]
fn note_of(alloc: Global, length: u64, hash: &Hash) -> Result<Vec<u8>, AllocError>
    ensures { IfOk result (λ note. note.items ≡ cut_note length hash.now) }
{
    let mut note = Vec::new(alloc);
    push_number(&mut note, b" [of ", length)?;
    note.extend_from_slice(b" bytes, SHA-256 ")?;
    push_hex(&mut note, hash)?;
    note.extend_from_slice(b"]")?;
    Ok(note)
}

/// An input whose lines are cut to the length that a payload may have. Others, and their line feeds, are as they are.
/// Memory is taken for one line and what is read at a time, however long a line is.
#[derive(Drop)]
pub struct CutLines<R> {
    inner: R,
    alloc: Global,
    piece: Vec<u8>,
    // The line that is read, or its start.
    start: Vec<u8>,
    // Its length, and its hash if it is too long.
    length: u64,
    hasher: Option<Sha256>,
    // Lines that are whole, of which the first bytes were given.
    whole: Vec<u8>,
    given: usize,
    has_ended: bool,
}

impl<R: Read + Drop> CutLines<R> {
    /// Cuts the lines of an input.
    pub fn new(alloc: Global, inner: R) -> Result<CutLines<R>, AllocError> {
        Ok(CutLines {
            inner,
            alloc,
            piece: vec![in alloc; 0; PIECE_LEN]?,
            start: Vec::new(alloc),
            length: 0,
            hasher: None,
            whole: Vec::new(alloc),
            given: 0,
            has_ended: false,
        })
    }

    // Gives the next bytes of the lines that are whole. Returns their number.
    fn give(&mut self, into: &mut [u8]) -> usize
        ensures { result ≤ length into.new }
    {
        let start = self.given.min(self.whole.len());
        let count = (self.whole.len() - start).min(into.len());
        into[..count].copy_from_slice(&self.whole[start..start + count]);
        self.given = start + count;
        count
    }

    // Reads once, and takes what came.
    fn read_more(&mut self) -> io::Result<()> {
        self.whole.clear();
        self.given = 0;
        let taken = self.inner.read(&mut self.piece)?;
        if taken == 0 {
            self.has_ended = true;
            return memory(self.end_line());
        }
        let piece = replace(&mut self.piece, Vec::new(self.alloc));
        let done = memory(self.take_bytes(&piece[..taken]));
        self.piece = piece;
        done
    }

    fn take_bytes(&mut self, bytes: &[u8]) -> Result<(), AllocError> {
        let mut rest = bytes;
        for _ in 0..bytes.len() {
            if rest.is_empty() {
                return Ok(());
            }
            let (line, after) = split_at_first(rest, b'\n');
            self.take_part(line)?;
            if line.len() < rest.len() {
                self.end_line()?;
                self.whole.push(b'\n')?;
            }
            rest = after;
        }
        Ok(())
    }

    // Takes a part of a line.
    fn take_part(&mut self, part: &[u8]) -> Result<(), AllocError> {
        self.length = self.length.saturating_add(part.len() as u64);
        if self.hasher.is_none() && self.length > MAX_PAYLOAD as u64 {
            let mut hasher = Sha256::new();
            hasher.update(&self.start);
            self.hasher = Some(hasher);
        }
        if let Some(hasher) = &mut self.hasher {
            hasher.update(part);
        }
        let room = MAX_PAYLOAD.saturating_sub(self.start.len()).min(part.len());
        self.start.extend_from_slice(&part[..room])
    }

    // Gives the line that was read, or what stands for it.
    fn end_line(&mut self) -> Result<(), AllocError> {
        match self.hasher.take() {
            Some(hasher) => {
                let hash = hasher.finalize();
                push_cut(self.alloc, &mut self.whole, &self.start, self.length, &hash)?;
            }
            None => self.whole.extend_from_slice(&self.start)?,
        }
        self.start.clear();
        self.length = 0;
        Ok(())
    }
}

fn memory(done: Result<(), AllocError>) -> io::Result<()> {
    match done {
        Ok(()) => Ok(()),
        Err(_) => Err(io::Error::from(ErrorKind::OutOfMemory)),
    }
}

/// Nothing is known of the bytes.
impl<R: Read + Drop> Read for CutLines<R> {
    fn read(&mut self, into: &mut [u8]) -> io::Result<usize> {
        for _ in 0..u64::MAX {
            let count = self.give(into);
            if count > 0 || self.has_ended || into.is_empty() {
                return Ok(count);
            }
            self.read_more()?;
        }
        Err(io::Error::from(ErrorKind::Other))
    }
}
