// Each test sets what a stream returns and accepts, and compares what each client receives and why it left.
ghost use Rattle.audit_serve_passes.specs.Pairs.{unknown_calls};
ghost use Rattle.audit_serve_ready.specs.Door.{unknown_door};

use crate::recorder::Recorder;
use audit_base::SESSIONS;
use audit_serve_passes::{Rights, StreamError};
use audit_serve_ready::{
    DEFAULT_BACKLOG, Departure, Door, Newcomer, Next, ReadyStream, finish_writing, serve_clients,
    vacant_slots,
};
use std::alloc::Global;

/// A client that sends a few bytes, one for each read, with nothing available at every other read, and accepts `room`
/// bytes.
#[derive(Drop)]
struct Client {
    left: usize,
    waits: bool,
    room: usize,
    taken: usize,
}

impl ReadyStream for Client {
    ghost calls = { unknown_calls };

    fn read_ready(&mut self, _buffer: &mut [u8]) -> Option<Result<usize, StreamError>> {
        self.waits = !self.waits;
        if self.waits {
            return None;
        }
        if self.left == 0 {
            return Some(Ok(0));
        }
        self.left -= 1;
        Some(Ok(1))
    }

    fn write_ready(&mut self, bytes: &[u8]) -> Result<usize, StreamError> {
        let count = bytes.len().min(self.room);
        self.room -= count;
        self.taken = self.taken.saturating_add(count);
        Ok(count)
    }
}

/// This number of clients arrive, each of which sends three bytes; the third one accepts nothing.
#[derive(Drop)]
struct Clients {
    coming: usize,
    came: usize,
    passes: usize,
    finished: usize,
    dismissed: usize,
    replies: usize,
}

impl Door for Clients {
    ghost calls = { unknown_door };

    type Stream = Client;

    fn next_client(&mut self, _place: usize) -> Option<Newcomer<Client>> {
        if self.came >= self.coming {
            return None;
        }
        self.came += 1;
        let room = if self.came == 3 { 0 } else { 100 };
        let stream = Client {
            left: 3,
            waits: false,
            room,
            taken: 0,
        };
        let rights = Rights::all();
        Some(Newcomer { stream, rights })
    }

    fn dismisses(&mut self, _place: usize, client: &Client) -> bool {
        self.passes > 100 && client.room == 0
    }

    fn gone(&mut self, _place: usize, client: Client, departure: Departure) {
        if departure == Departure::Finished {
            self.finished = self.finished.saturating_add(1);
        }
        if departure == Departure::Dismissed {
            self.dismissed = self.dismissed.saturating_add(1);
        }
        self.replies = self.replies.saturating_add(client.taken);
    }

    fn lets_reply(&mut self) -> bool {
        true
    }

    fn asks_again(&mut self, found: bool) -> bool {
        found
    }

    fn pause(&mut self, _moved: bool) -> Next {
        self.passes = self.passes.saturating_add(1);
        if self.passes > 200 {
            Next::Stop
        } else {
            Next::Again
        }
    }
}

// Each of 40 clients sends three bytes in passes of their own, and receives a reply of one byte to each. One accepts
// nothing, and is dismissed.
#[test]
fn clients_come_and_go(rt: HostRuntime) {
    let alloc: Global = rt.alloc();
    let mut core = Recorder::new(&rt, alloc, usize::MAX);
    let mut slots = vacant_slots(alloc, SESSIONS).expect(&rt, "memory");
    let mut door = Clients {
        coming: 40,
        came: 0,
        passes: 0,
        finished: 0,
        dismissed: 0,
        replies: 0,
    };
    assert!(rt; serve_clients(&mut core, &mut slots, &mut door, DEFAULT_BACKLOG).is_ok());
    finish_writing(&mut slots, &mut door);
    assert!(rt; door.finished == 39);
    assert!(rt; door.dismissed == 1);
    assert!(rt; door.replies == 117);
    assert!(rt; !slots[0].has_client());
}
