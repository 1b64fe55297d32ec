//! Serving two streams in memory.
use crate::stores::new_core;
use crate::texts::{bytes_of, number_of, text_of};
use anyhow::Context;
use audit_serve_passes::{ServeEnd, ServeFault, StreamPair};
use audit_store::StoreError;
use std::alloc::Global;
use std::cell::Cell;
use std::io::{self, ErrorKind, Read, Write};

/// A reader that returns some bytes for each read, and fails after a number of reads. If it waits for something, every
/// read but its first fails until that has happened.
#[derive(Drop)]
struct Source<'a> {
    bytes: Vec<u8>,
    given: usize,
    most: usize,
    reads: usize,
    waits_for: Option<&'a Cell<bool>>,
}

impl<'a> Source<'a> {
    fn has_to_wait(&self) -> bool {
        match self.waits_for {
            Some(has_come) => self.given > 0 && !has_come.get(),
            None => false,
        }
    }
}

impl<'a> Read for Source<'a> {
    fn read(&mut self, buffer: &mut [u8]) -> io::Result<usize> {
        if self.reads == 0 || self.has_to_wait() {
            return Err(io::Error::from(ErrorKind::Other));
        }
        self.reads -= 1;
        let most = buffer.len().min(self.most);
        let mut left = self.bytes.get(self.given..).unwrap_or(&[]);
        let size = left.read(&mut buffer[..most])?;
        self.given = self.given.saturating_add(size);
        Ok(size)
    }
}

/// A writer that accepts some bytes for each write, and notes that something arrived.
#[derive(Drop)]
struct Sink<'a> {
    bytes: Vec<u8>,
    most: usize,
    has_come: &'a Cell<bool>,
}

impl<'a> Write for Sink<'a> {
    fn write(&mut self, bytes: &[u8]) -> io::Result<usize> {
        self.has_come.set(true);
        let most = bytes.len().min(self.most);
        self.bytes.write(&bytes[..most])
    }

    fn flush(&mut self) -> io::Result<()> {
        Ok(())
    }
}

type Stream<'a> = StreamPair<Source<'a>, Sink<'a>>;

/// How the streams of a scene behave.
#[derive(Clone, Copy, Drop)]
struct Manner {
    most_read: usize,
    reads: usize,
    most_written: usize,
    waits: bool,
}

/// Serves two streams as the words specify, and prints how serving ended and what was written to each.
pub fn serve_scene<R: AllocGlobal + Print>(rt: &R, rest: &str) -> anyhow::Result<()> {
    let mut words = Words { left: Some(rest) };
    let calls = number_of(words.next_word()?)?;
    let manner = words.next_manner()?;
    let (front, back) = (Cell::new(false), Cell::new(false));
    let alloc = rt.alloc();
    let first = bytes_of(alloc, words.next_word()?)?;
    let second = bytes_of(alloc, words.next_word()?)?;
    let streams = [
        stream(alloc, manner, first, &front, &back),
        stream(alloc, manner, second, &back, &front),
    ];
    serve_streams(rt, calls, streams)
}

fn serve_streams<R: AllocGlobal + Print>(
    rt: &R,
    calls: u64,
    streams: [Stream<'_>; 2],
) -> anyhow::Result<()> {
    let mut streams = streams;
    let served = serve_both(rt.alloc(), calls, &mut streams)?;
    print_served(rt, served, &streams)
}

fn print_served<R: AllocGlobal + Print>(
    rt: &R,
    served: Served,
    streams: &[Stream],
) -> anyhow::Result<()> {
    println!(rt; "turns {} {}", served.turns, served.end)?;
    for stream in streams {
        println!(rt; "written {}", text_of(rt.alloc(), &stream.writer().bytes)?)?;
    }
    println!(rt; "count {}", served.count)?;
    Ok(())
}

/// The remaining words of a line.
#[derive(Drop)]
struct Words<'a> {
    left: Option<&'a str>,
}

impl<'a> Words<'a> {
    fn next_word(&mut self) -> anyhow::Result<&'a str> {
        let left = self.left.context("a word is missing")?;
        let Some((word, rest)) = left.split_once(' ') else {
            self.left = None;
            return Ok(left);
        };
        self.left = Some(rest);
        Ok(word)
    }

    fn next_size(&mut self) -> anyhow::Result<usize> {
        Ok(number_of(self.next_word()?)? as usize)
    }

    fn next_manner(&mut self) -> anyhow::Result<Manner> {
        Ok(Manner {
            most_read: self.next_size()?,
            reads: self.next_size()?,
            most_written: self.next_size()?,
            waits: self.next_size()? > 0,
        })
    }
}

// How the streams were served, and how many events the store then has.
#[derive(Clone, Copy)]
struct Served {
    turns: u64,
    end: &'static str,
    count: u64,
}

// Serves the streams over a device that fails once, after `calls` calls.
fn serve_both(alloc: Global, calls: u64, streams: &mut [Stream; 2]) -> anyhow::Result<Served> {
    let mut core = new_core(alloc, 16, calls)?;
    let end = core.serve(streams);
    Ok(Served {
        turns: end.turns,
        end: name_of(&end),
        count: core.into_store().commitment().count,
    })
}

// A stream of these bytes, with places to note that something was written to it and to the other.
fn stream<'a>(
    alloc: Global,
    manner: Manner,
    bytes: Vec<u8>,
    own: &'a Cell<bool>,
    other: &'a Cell<bool>,
) -> Stream<'a> {
    let source = Source {
        bytes,
        given: 0,
        most: manner.most_read,
        reads: manner.reads,
        waits_for: if manner.waits { Some(other) } else { None },
    };
    let sink = Sink {
        bytes: Vec::new(alloc),
        most: manner.most_written,
        has_come: own,
    };
    StreamPair::new(source, sink)
}

fn name_of(end: &ServeEnd<StoreError>) -> &'static str {
    match end.fault {
        None => "whole",
        Some(ServeFault::ReadFault) => "ReadFault",
        Some(ServeFault::Core(error)) => error.name(),
    }
}
