//! Times of work, compared with those of the part that it can't avoid.
use anyhow::Context;
use std::alloc::{AllocError, Global};
use std::io;
use std::rt::Clock;
use std::time::Instant;

/// A running stopwatch.
#[derive(Clone, Copy)]
pub struct Stopwatch {
    start: io::Result<Instant>,
}

impl Stopwatch {
    /// Starts a stopwatch. If the clock can't be read, `nanoseconds` returns the error.
    pub fn start<R: Clock>(rt: &R) -> Stopwatch {
        Stopwatch {
            start: Instant::now(rt),
        }
    }

    /// The nanoseconds since the start.
    pub fn nanoseconds<R: Clock>(self, rt: &R) -> anyhow::Result<u128> {
        Ok(self.start?.elapsed(rt)?.as_nanos())
    }
}

/// The nanoseconds of the whole work and of the unavoidable part alone, and a value that depends on the latter.
#[derive(Clone, Copy)]
pub struct Times {
    pub whole: u128,
    pub bare: u128,
    pub seen: u8,
}

impl Times {
    /// Longer than any time that is measured.
    pub const LONGEST: Times = Times {
        whole: u128::MAX,
        bare: u128::MAX,
        seen: 0,
    };

    /// No time at all.
    pub const ZERO: Times = Times {
        whole: 0,
        bare: 0,
        seen: 0,
    };

    /// Adds both times.
    pub fn plus(self, other: Times) -> Times {
        Times {
            whole: self.whole.saturating_add(other.whole),
            bare: self.bare.saturating_add(other.bare),
            seen: self.seen ^ other.seen,
        }
    }

    /// The shorter of both times.
    pub fn least(self, other: Times) -> Times {
        Times {
            whole: self.whole.min(other.whole),
            bare: self.bare.min(other.bare),
            seen: self.seen ^ other.seen,
        }
    }
}

/// The times of some rounds.
#[derive(Drop)]
pub struct Rounds {
    whole: Vec<u128>,
    bare: Vec<u128>,
    seen: u8,
}

impl Rounds {
    pub fn new(alloc: Global) -> Rounds {
        Rounds {
            whole: Vec::new(alloc),
            bare: Vec::new(alloc),
            seen: 0,
        }
    }

    pub fn push(&mut self, times: Times) -> Result<(), AllocError> {
        self.whole.push(times.whole)?;
        self.bare.push(times.bare)?;
        self.seen ^= times.seen;
        Ok(())
    }

    /// The mean of the rounds' whole times.
    pub fn mean(&self) -> u128 {
        let mut sum = 0u128;
        for time in &self.whole {
            sum = sum.saturating_add(*time);
        }
        sum.checked_div(self.whole.len() as u128).unwrap_or(0)
    }

    /// The tenth percentile of the rounds' times.
    pub fn low(mut self) -> anyhow::Result<Times> {
        Ok(Times {
            whole: low_time(&mut self.whole)?,
            bare: low_time(&mut self.bare)?,
            seen: self.seen,
        })
    }
}

// The tenth percentile of these times.
fn low_time(times: &mut Vec<u128>) -> anyhow::Result<u128> {
    times.sort()?;
    let place = times.len() / 10;
    times.get(place).copied().context("nothing was timed")
}
