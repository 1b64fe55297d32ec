//! The line that shows how far a long command is.
use audit_text::Shown;
use std::cell::Cell;
use std::fmt;
use std::io::{self, IsTerminal, Write};
use std::time::{Clock, Duration};

// How many milliseconds a file is read or written before there is a line.
const PATIENCE: u64 = 1000;

// The least time between two drawings, in milliseconds.
const PAUSE: u64 = 100;

// Moves the cursor to the start of its line, and erases the line.
const ERASE: &str = "\r\x1b[K";

/// What is done with a file.
#[derive(Clone, Copy, PartialEq, Eq)]
pub enum Motion {
    /// It is read.
    Reading,
    /// It is written.
    Writing,
}

/// A row of reads, or of writes, at rising places of a file.
#[derive(Clone, Copy)]
struct Span {
    motion: Motion,
    // The place of the first one.
    first: u64,
    // The place of the last one.
    last: u64,
    begun: Duration,
    drawn: Duration,
}

/// A line on standard error that shows how far a file is read or written. It is there only on a terminal, after a
/// second, and is drawn at most ten times a second. Whatever else is printed erases it.
#[derive(Drop)]
pub struct Progress<'r> {
    rt: &'r HostRuntime,
    is_shown: Cell<bool>,
    is_drawn: Cell<bool>,
    span: Cell<Option<Span>>,
}

impl<'r> Progress<'r> {
    /// Makes a line that isn't shown.
    pub fn new(rt: &'r HostRuntime) -> Progress<'r> {
        Progress {
            rt,
            is_shown: Cell::new(false),
            is_drawn: Cell::new(false),
            span: Cell::new(None),
        }
    }

    /// Shows the line from now on, if standard error is a terminal.
    pub fn show(&self) {
        self.is_shown.set(self.rt.stderr().is_terminal());
    }

    /// Whether the line is shown.
    pub fn is_shown(&self) -> bool {
        self.is_shown.get()
    }

    /// Notes that the file with this name is read or written up to a place. `total` is where it ends, if that is known.
    pub fn moved(&self, motion: Motion, name: &str, place: u64, total: Option<u64>) {
        let Ok(now) = self.rt.monotonic() else {
            return;
        };
        let span = self.span_at(motion, place, now);
        let is_due = now.saturating_sub(span.begun) >= Duration::from_millis(PATIENCE)
            && now.saturating_sub(span.drawn) >= Duration::from_millis(PAUSE);
        self.span.set(Some(Span {
            last: place,
            drawn: if is_due { now } else { span.drawn },
            ..span
        }));
        if is_due {
            self.draw(&span, name, place, total, now);
        }
    }

    // The row that a read or a write belongs to.
    fn span_at(&self, motion: Motion, place: u64, now: Duration) -> Span {
        match self.span.get() {
            Some(span) if span.motion == motion && span.last <= place => span,
            _ => Span {
                motion,
                first: place,
                last: place,
                begun: now,
                drawn: now,
            },
        }
    }

    fn draw(&self, span: &Span, name: &str, place: u64, total: Option<u64>, now: Duration) {
        let verb = match span.motion {
            Motion::Reading => "reading",
            Motion::Writing => "writing",
        };
        let mut messages = self.rt.stderr();
        let _ = write!(messages, "{ERASE}audit: {verb} {}: ", Shown(name));
        let rate = rate_of(
            place.saturating_sub(span.first),
            now.saturating_sub(span.begun),
        );
        let _ = match total {
            Some(total) if total > place => write!(
                messages,
                "{} of {} MB, {} MB/s, {} s left",
                Megabytes(place),
                Megabytes(total),
                Megabytes(rate),
                (total - place) / rate.max(1)
            ),
            _ => write!(
                messages,
                "{} MB, {} MB/s",
                Megabytes(place),
                Megabytes(rate)
            ),
        };
        let _ = messages.flush();
        self.is_drawn.set(true);
    }

    /// Erases the line, so that something else can be printed.
    pub fn erase(&self) {
        if self.is_drawn.get() {
            self.is_drawn.set(false);
            let _ = write!(self.rt.stderr(), "{ERASE}");
        }
    }
}

// Bytes a second.
fn rate_of(bytes: u64, time: Duration) -> u64 {
    let milliseconds = time.as_millis().max(1);
    let rate = u128::from(bytes) * 1000 / milliseconds;
    u64::try_from(rate).unwrap_or(u64::MAX)
}

/// A number of bytes, which is shown in millions with one decimal.
#[derive(Clone, Copy)]
struct Megabytes(u64);

impl fmt::Display for Megabytes {
    fn fmt<W: fmt::Write>(&self, f: &mut fmt::Formatter<W>) -> fmt::Result {
        let tenths = self.0 / 100_000;
        write!(f, "{}.{}", tenths / 10, tenths % 10)
    }
}

/// Standard error, for messages that erase the line first.
#[derive(Drop)]
pub struct Messages<'p, 'r> {
    progress: &'p Progress<'r>,
}

impl<'p, 'r> Messages<'p, 'r> {
    /// Makes a writer of messages.
    pub fn new(progress: &'p Progress<'r>) -> Messages<'p, 'r> {
        Messages { progress }
    }
}

impl Write for Messages<'_, '_> {
    fn write(&mut self, bytes: &[u8]) -> io::Result<usize> {
        self.progress.erase();
        self.progress.rt.stderr().write(bytes)
    }

    fn flush(&mut self) -> io::Result<()> {
        self.progress.rt.stderr().flush()
    }
}
