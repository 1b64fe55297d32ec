//! A random list of steps over streams.
ghost use Rattle.audit_server.specs.Driving.{IsOfSession};

use crate::random::Random;
use audit_base::SESSIONS;
use audit_server::Step;

/// What is left of the streams, and how steps are drawn.
#[derive(Drop)]
pub struct Plan<'a> {
    random: Random,
    streams: &'a [Vec<u8>],
    given: [usize; SESSIONS],
    // One step in this many is a flush.
    flushes: u64,
}

impl<'a> Plan<'a> {
    pub fn new(random: Random, streams: &'a [Vec<u8>], flushes: u64) -> Plan<'a> {
        Plan {
            random,
            streams,
            given: [0; SESSIONS],
            flushes,
        }
    }

    /// The next step: a flush, the end of a session, or the next bytes of its stream.
    pub fn next_step(&mut self) -> Step<'a>
        ensures { IsOfSession result }
    {
        if self.random.below(self.flushes) == 0 {
            return Step::Flush;
        }
        let session = self.random.below(self.streams.len() as u64) as usize % SESSIONS;
        let streams = self.streams;
        let Some(stream) = streams.get(session) else {
            return Step::Flush;
        };
        let left = stream.get(self.given[session]..).unwrap_or(&[]);
        if left.is_empty() || self.random.below(40) == 0 {
            return Step::End { session };
        }
        let size = self.piece_size().min(left.len());
        self.given[session] = self.given[session].saturating_add(size);
        let piece = left.get(..size).unwrap_or(left);
        Step::Feed { session, piece }
    }

    fn piece_size(&mut self) -> usize {
        let most = match self.random.below(4) {
            0 => 8,
            1 => 100,
            2 => 3_000,
            _ => 40_000,
        };
        self.random.up_to(most) as usize
    }
}
