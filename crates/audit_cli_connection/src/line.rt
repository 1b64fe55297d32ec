//! A connection on which a peer has a limited time for what it is asked, however it sends it.
use crate::frames::Place;
use std::cell::Cell;
use std::io::{self, ErrorKind, Read, Write};
use std::os::unix::net::UnixStream;
use std::time::{Clock, Duration};

/// For what the time of a connection is.
#[derive(Clone, Copy, PartialEq, Eq)]
pub enum Pace {
    /// For all replies to what was written at a time.
    Question,
    /// For each reply.
    Reply,
}

/// A connection. Each write up to its flush, and what is read after it by the pace, has a limited time, which begins
/// with the first call that waits for it.
#[derive(Drop)]
pub struct Line<'a, R> {
    rt: &'a R,
    stream: UnixStream,
    limit: Duration,
    pace: Pace,
    // When the time is over that runs, if one does.
    due: Cell<Option<Duration>>,
    place: Cell<Place>,
}

/// One of any number of ends at which a connection is read and written.
#[derive(Drop)]
pub struct LineEnd<'a, R>(&'a Line<'a, R>);

impl<'a, R: Clock> Line<'a, R> {
    ghost use Rattle.std.specs.Prelude.{◌≡◌};

    /// Limits the times of a connection.
    pub(crate) fn new(rt: &'a R, stream: UnixStream, limit: Duration, pace: Pace) -> Line<'a, R>
        ensures stream { result.stream ≡ stream }
        ensures limit { result.limit ≡ limit }
        ensures pace { result.pace ≡ pace }
    {
        Line {
            rt,
            stream,
            limit,
            pace,
            due: Cell::new(None),
            place: Cell::new(Place::Start),
        }
    }

    // What is left of the time that runs. One begins if none does. If none is left, the error is `TimedOut`.
    fn time_left(&self) -> io::Result<Duration> {
        let now = self.rt.monotonic()?;
        let due = match self.due.get() {
            Some(due) => due,
            None => now.saturating_add(self.limit),
        };
        self.due.set(Some(due));
        let left = due.saturating_sub(now);
        if left.is_zero() {
            return Err(io::Error::from(ErrorKind::TimedOut));
        }
        Ok(left)
    }

    // Another time begins with the next call.
    fn end_time(&self) {
        self.due.set(None);
    }

    fn went_by(&self, bytes: &[u8]) {
        let passed = self.place.get().after(bytes);
        self.place.set(passed.place);
        if passed.has_ended && self.pace == Pace::Reply {
            self.end_time();
        }
    }
}

impl<'a, R> LineEnd<'a, R> {
    /// An end of a connection.
    pub fn of(line: &'a Line<'a, R>) -> LineEnd<'a, R> {
        LineEnd(line)
    }
}

/// Nothing is known of the bytes.
impl<R: Clock> Read for LineEnd<'_, R> {
    fn read(&mut self, into: &mut [u8]) -> io::Result<usize> {
        let line = self.0;
        line.stream.set_read_timeout(Some(line.time_left()?))?;
        let mut stream = &line.stream;
        let taken = stream.read(into)?;
        line.went_by(&into[..taken]);
        Ok(taken)
    }
}

impl<R: Clock> Write for LineEnd<'_, R> {
    fn write(&mut self, bytes: &[u8]) -> io::Result<usize> {
        let line = self.0;
        line.stream.set_write_timeout(Some(line.time_left()?))?;
        let mut stream = &line.stream;
        stream.write(bytes)
    }

    fn flush(&mut self) -> io::Result<()> {
        self.0.end_time();
        Ok(())
    }
}
