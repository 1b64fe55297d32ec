// Each test sets what a stream returns and accepts, and compares the steps that the core was asked to do, in order.
ghost use Rattle.std.specs.Prelude.{◌<◌, ◌≤◌, [], ◌∷◌, length, IfOk};
ghost use Rattle.audit_serve_passes.specs.Streams.{read_call, write_call};
ghost use Rattle.audit_serve_passes.specs.Pairs.{unknown_calls};

use crate::recorder::{Asked, Recorder};
use audit_serve_passes::{
    Duplex, DuplexStream, MAX_TURNS, ServeEnd, ServeFault, SessionCore, StreamError, StreamPair,
    serve,
};
use std::alloc::{AllocError, Global};
use std::io::{self, ErrorKind, Read, Write};

/// A reader that returns at most `most` bytes at a time, and fails after `reads` reads.
#[derive(Drop)]
struct Source<'a> {
    bytes: &'a [u8],
    most: usize,
    reads: usize,
}

impl Read for Source<'_> {
    fn read(&mut self, buf: &mut [u8]) -> io::Result<usize> {
        if self.reads == 0 {
            return Err(io::Error::from(ErrorKind::Other));
        }
        self.reads -= 1;
        let most = buf.len().min(self.most);
        self.bytes.read(&mut buf[..most])
    }
}

/// A writer that accepts one byte at a time, and fails after `room` bytes.
#[derive(Drop)]
struct Sink {
    bytes: Vec<u8>,
    room: usize,
}

impl Write for Sink {
    fn write(&mut self, buf: &[u8]) -> io::Result<usize> {
        if self.room == 0 || buf.is_empty() {
            return Err(io::Error::from(ErrorKind::Other));
        }
        self.room -= 1;
        self.bytes.write(&buf[..1])
    }

    fn flush(&mut self) -> io::Result<()> {
        Ok(())
    }
}

type Stream<'a> = StreamPair<Source<'a>, Sink>;

const ANY: usize = usize::MAX;

fn stream(alloc: Global, bytes: &[u8], most: usize, reads: usize, room: usize) -> Stream<'_> {
    let source = Source { bytes, most, reads };
    let sink = Sink {
        bytes: Vec::new(alloc),
        room,
    };
    StreamPair::new(source, sink)
}

fn feed(session: usize, size: usize) -> Asked {
    Asked::Feed { session, size }
}

fn end(session: usize) -> Asked {
    Asked::End { session }
}

// Returns whether exactly these bytes were written to a stream.
fn wrote(stream: &Stream, bytes: &[u8]) -> bool {
    stream.writer().bytes.as_slice() == bytes
}

// Without streams there are no passes and one flush.
#[test]
fn no_stream(rt: HostRuntime) {
    let alloc = rt.alloc();
    let mut core = Recorder::new(&rt, alloc, ANY);
    let mut streams: [Stream; 0] = [];
    let end = serve(&mut core, &mut streams);
    assert!(rt;
        end == ServeEnd {
            turns: 0,
            fault: None
        }
    );
    assert!(rt; core.was_asked(&[Asked::Flush]));
}

// One stream returns one byte for each read, the other all bytes at once. Each live session has one read in each pass.
#[test]
fn streams_are_read_in_turns(rt: HostRuntime) {
    let alloc = rt.alloc();
    let mut core = Recorder::new(&rt, alloc, ANY);
    let mut streams = [
        stream(alloc, b"ab", 1, ANY, ANY),
        stream(alloc, b"cde", 4_096, ANY, ANY),
    ];
    let done = serve(&mut core, &mut streams);
    assert!(rt;
        done == ServeEnd {
            turns: 3,
            fault: None
        }
    );
    assert!(rt;
        core.was_asked(&[
            feed(0, 1),
            feed(1, 3),
            Asked::Flush,
            feed(0, 1),
            end(1),
            Asked::Flush,
            end(0),
            Asked::Flush,
            Asked::Flush,
        ])
    );
    assert!(rt; wrote(&streams[0], &[4, 5]));
    assert!(rt; wrote(&streams[1], &[4]));
}

// A failed read ends its session. A failed write ends its own session, and later output for it is dropped.
#[test]
fn faults_end_their_session(rt: HostRuntime) {
    let alloc = rt.alloc();
    let mut core = Recorder::new(&rt, alloc, ANY);
    let mut streams = [
        stream(alloc, b"abcd", 1, 2, ANY),
        stream(alloc, b"efgh", 1, ANY, 1),
    ];
    let done = serve(&mut core, &mut streams);
    assert!(rt;
        done == ServeEnd {
            turns: 3,
            fault: None
        }
    );
    assert!(rt;
        core.was_asked(&[
            feed(0, 1),
            feed(1, 1),
            Asked::Flush,
            feed(0, 1),
            feed(1, 1),
            Asked::Flush,
            end(1),
            end(0),
            Asked::Flush,
            Asked::Flush,
        ])
    );
    assert!(rt; wrote(&streams[0], &[2, 4]));
    assert!(rt; wrote(&streams[1], &[2]));
}

// The core refuses its fourth step, which stops serving.
#[test]
fn a_refusal_of_the_core(rt: HostRuntime) {
    let alloc = rt.alloc();
    let mut core = Recorder::new(&rt, alloc, 3);
    let mut streams = [stream(alloc, b"ab", 1, ANY, ANY)];
    let done = serve(&mut core, &mut streams);
    assert!(rt;
        done == ServeEnd {
            turns: 2,
            fault: Some(ServeFault::Core(AllocError))
        }
    );
    assert!(rt; core.was_asked(&[feed(0, 1), Asked::Flush, feed(0, 1)]));
}

/// A client that sends two bytes, the second only after a reply to the first.
#[derive(Drop)]
struct Polite {
    sent: usize,
    replies: usize,
}

impl Duplex for Polite {
    ghost calls = { unknown_calls };

    fn receive(&mut self, buffer: &mut [u8]) -> Result<usize, StreamError> {
        if self.replies < self.sent {
            return Err(StreamError);
        }
        if self.sent >= 2 {
            return Ok(0);
        }
        self.sent += 1;
        Ok(buffer.len().min(1))
    }

    fn send(&mut self, bytes: &[u8]) -> Result<(), StreamError> {
        self.replies = self.replies.saturating_add(bytes.len());
        Ok(())
    }
}

// What waits is written before the reads of the next pass.
#[test]
fn replies_are_written_in_their_round(rt: HostRuntime) {
    let alloc = rt.alloc();
    let mut core = Recorder::new(&rt, alloc, ANY);
    let client = Polite {
        sent: 0,
        replies: 0,
    };
    let mut streams = [DuplexStream::new(client)];
    let done = serve(&mut core, &mut streams);
    assert!(rt;
        done == ServeEnd {
            turns: 3,
            fault: None
        }
    );
    assert!(rt;
        core.was_asked(&[
            feed(0, 1),
            Asked::Flush,
            feed(0, 1),
            Asked::Flush,
            end(0),
            Asked::Flush,
            Asked::Flush,
        ])
    );
}

/// A client that sends without end, and accepts whatever it is sent.
#[derive(Drop)]
struct Endless;

impl Duplex for Endless {
    ghost calls = { unknown_calls };

    fn receive(&mut self, buffer: &mut [u8]) -> Result<usize, StreamError> {
        Ok(buffer.len().min(1))
    }

    fn send(&mut self, _bytes: &[u8]) -> Result<(), StreamError> {
        Ok(())
    }
}

// When the limit of passes is reached, the session is ended.
#[test]
fn as_many_rounds_as_may_be(rt: HostRuntime) {
    let alloc = rt.alloc();
    let mut core = Recorder::new(&rt, alloc, ANY);
    let mut streams = [DuplexStream::new(Endless)];
    let done = serve(&mut core, &mut streams);
    assert!(rt;
        done == ServeEnd {
            turns: MAX_TURNS,
            fault: Some(ServeFault::ReadFault)
        }
    );
    assert!(rt; core.ended(0));
}
