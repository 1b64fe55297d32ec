// Clients whose bytes come while others are read. The test sets what each read returns, and compares the steps that the
// core was asked to do, in order.
ghost use Rattle.audit_serve_passes.specs.Pairs.{unknown_calls};
ghost use Rattle.audit_serve_ready.specs.Door.{unknown_door};

use crate::recorder::{Asked, Recorder};
use audit_serve_passes::{Rights, StreamError};
use audit_serve_ready::{
    DEFAULT_BACKLOG, Departure, Door, Newcomer, Next, ReadyStream, serve_clients, vacant_slots,
};

/// How many bytes each of the first reads of a client's stream returns: none where nothing is there, zero at its end.
type Reads = [Option<usize>; 3];

#[derive(Drop)]
struct Client {
    reads: Reads,
    done: usize,
}

impl ReadyStream for Client {
    ghost calls = { unknown_calls };

    fn read_ready(&mut self, buffer: &mut [u8]) -> Option<Result<usize, StreamError>> {
        let given = self.reads.get(self.done).copied();
        self.done = self.done.saturating_add(1);
        match given {
            Some(Some(count)) => Some(Ok(buffer.len().min(count))),
            Some(None) | None => None,
        }
    }

    fn write_ready(&mut self, bytes: &[u8]) -> Result<usize, StreamError> {
        Ok(bytes.len())
    }
}

/// Clients that come after the first pass, and how many passes are left.
#[derive(Drop)]
struct Crowd {
    clients: [Reads; 3],
    came: usize,
    passes: usize,
}

impl Door for Crowd {
    ghost calls = { unknown_door };

    type Stream = Client;

    fn next_client(&mut self, _place: usize) -> Option<Newcomer<Client>> {
        let reads = self.clients.get(self.came).copied()?;
        self.came = self.came.saturating_add(1);
        let stream = Client { reads, done: 0 };
        let rights = Rights::all();
        Some(Newcomer { stream, rights })
    }

    fn dismisses(&mut self, _place: usize, _client: &Client) -> bool {
        false
    }

    fn gone(&mut self, _place: usize, _client: Client, _departure: Departure) {}

    fn lets_reply(&mut self) -> bool {
        true
    }

    fn asks_again(&mut self, _found: bool) -> bool {
        true
    }

    fn pause(&mut self, _moved: bool) -> Next {
        self.passes = self.passes.saturating_sub(1);
        if self.passes == 0 {
            Next::Stop
        } else {
            Next::Again
        }
    }
}

const EARLY: Reads = [Some(1), Some(2), Some(0)];

const LATE: Reads = [None, Some(3), Some(0)];

const SILENT: Reads = [None, None, None];

// The first pass ends the sessions of places without clients. In the next one the late client is asked again, since the
// early one has sent something, and one flush has both. Nobody is read twice in a pass.
#[test]
fn one_flush_has_what_comes_meanwhile(rt: HostRuntime) {
    let alloc = rt.alloc();
    let mut core = Recorder::new(&rt, alloc, usize::MAX);
    let mut slots = vacant_slots(alloc, 3).expect(&rt, "memory");
    let mut door = Crowd {
        clients: [LATE, EARLY, SILENT],
        came: 0,
        passes: 4,
    };
    assert!(rt; serve_clients(&mut core, &mut slots, &mut door, DEFAULT_BACKLOG).is_ok());
    assert!(rt;
        core.was_asked(&[
            Asked::End { session: 0 },
            Asked::End { session: 1 },
            Asked::End { session: 2 },
            Asked::Flush,
            Asked::Feed {
                session: 1,
                size: 1
            },
            Asked::Feed {
                session: 0,
                size: 3
            },
            Asked::Flush,
            Asked::End { session: 0 },
            Asked::Feed {
                session: 1,
                size: 2
            },
            Asked::Flush,
            Asked::End { session: 1 },
            Asked::Flush,
        ])
    );
}
