use audit_serve_door::{ROOM, Room};
use std::alloc::Global;
use std::io::{self, Write};
use std::net::Net;
use std::os::fd::RawFd;
use std::time::Duration;

// The descriptor of standard error.
const STANDARD_ERROR: RawFd = 2;

/// Messages that are written only if that doesn't wait. The others are left out, and counted in a line that follows
/// when there is room. As long as no room is watched, all are written at once.
#[derive(Drop)]
pub struct Sparing<'a, M> {
    messages: &'a mut M,
    room: Option<Room>,
    // What was written since the last line feed, or since that much of the line was passed on.
    piece: [u8; ROOM],
    count: usize,
    // Whether the line has begun to be passed on, and whether the rest of it is left out.
    has_begun: bool,
    is_cut: bool,
    left_out: u64,
}

impl<'a, M: Write> Sparing<'a, M> {
    /// Messages that are all written at once.
    pub fn new(messages: &'a mut M) -> Sparing<'a, M> {
        Sparing {
            messages,
            room: None,
            piece: [0; ROOM],
            count: 0,
            has_begun: false,
            is_cut: false,
            left_out: 0,
        }
    }

    /// Leaves out from now on what has no room on standard error. Errors are those of the system, and `OutOfMemory`.
    pub fn spare(&mut self, net: &impl Net, alloc: Global) -> io::Result<()> {
        self.room = Some(Room::new(net, alloc, STANDARD_ERROR)?);
        Ok(())
    }

    /// Says how many messages were left out, if there is room for that and there were some.
    pub fn report_left_out(&mut self) {
        let count = self.left_out;
        if count > 0 && self.has_room() {
            self.left_out = 0;
            let _ = writeln!(self.messages, "audit: messages left out: {count}");
        }
    }

    fn has_room(&mut self) -> bool {
        match &mut self.room {
            Some(room) => room.comes_within(Duration::ZERO),
            None => true,
        }
    }

    fn put(&mut self, byte: u8) {
        if let Some(place) = self.piece.get_mut(self.count) {
            *place = byte;
            self.count = self.count.saturating_add(1);
        }
        let is_end = byte == b'\n';
        if is_end || self.count >= ROOM {
            self.pass_on();
        }
        if is_end {
            self.has_begun = false;
            self.is_cut = false;
        }
    }

    // Writes the piece, or leaves it out with the rest of its line.
    fn pass_on(&mut self) {
        if !self.has_begun {
            self.report_left_out();
        }
        self.has_begun = true;
        if !self.is_cut && !self.has_room() {
            self.is_cut = true;
            self.left_out = self.left_out.saturating_add(1);
        }
        if !self.is_cut
            && let Some(piece) = self.piece.get(..self.count)
        {
            let _ = self.messages.write(piece);
        }
        self.count = 0;
    }
}

impl<M: Write> Write for Sparing<'_, M> {
    fn write(&mut self, bytes: &[u8]) -> io::Result<usize> {
        if self.room.is_none() {
            return self.messages.write(bytes);
        }
        for byte in bytes {
            self.put(*byte);
        }
        Ok(bytes.len())
    }

    fn flush(&mut self) -> io::Result<()> {
        if self.room.is_none() {
            return self.messages.flush();
        }
        Ok(())
    }
}
