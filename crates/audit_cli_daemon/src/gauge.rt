//! A look at how full a store is while it is served.
use crate::ending_door::EndingDoor;
use crate::marks::mark_passed;
use audit_serve_ready::{Departure, Door, Newcomer, Next};
use audit_text::Shown;
use std::cell::RefCell;
use std::io::{self, Read, Seek, SeekFrom, Write};

// Where a header has the first sector after the log, in a sector of 512 bytes. Its key isn't read.
const HEADER_LEN: u64 = 512;

const END_OFFSET: u64 = 40;

// A pass takes at most as many sectors: of each of 16 clients a piece of 4,096 bytes, in which an event has 11 at least,
// and the event that was begun before, of 65 sectors at most.
const PASS_SECTORS: u64 = 8_192;

// How many passes go by between two looks, far from the next mark and nearer to it.
const MANY_PASSES: u64 = 64;

const FEW_PASSES: u64 = 8;

/// Says once of each mark that a log passes that it did, and at the start of the highest one that it is above.
#[derive(Drop)]
pub struct Gauge<'n, 'a, 'b, F, M> {
    // The store's file, opened once more.
    file: F,
    name: &'n str,
    // How many sectors the log may fill, with those of the headers.
    most: u64,
    // The highest mark of which it was said.
    said: u64,
    // How many passes no mark can be passed in.
    passes: u64,
    messages: &'a RefCell<&'b mut M>,
}

impl<'n, 'a, 'b, F: Read + Seek, M: Write> Gauge<'n, 'a, 'b, F, M> {
    /// A gauge of the store in an open file, of which it reads two numbers at each look.
    pub fn new(
        file: F,
        name: &'n str,
        most: u64,
        messages: &'a RefCell<&'b mut M>,
    ) -> Gauge<'n, 'a, 'b, F, M> {
        Gauge {
            file,
            name,
            most,
            said: 0,
            passes: 0,
            messages,
        }
    }

    // Looks after a pass, unless no mark can have been passed.
    fn look(&mut self) {
        if self.passes > 0 {
            self.passes -= 1;
            return;
        }
        let Ok(taken) = self.taken() else {
            return;
        };
        if let Some(mark) = mark_passed(self.said, taken, self.most) {
            self.said = mark;
            self.print(mark, self.most.saturating_sub(taken));
        }
        self.passes = self.passes_without_mark(taken);
    }

    // In how many passes no further mark can be passed; few are enough to make the looks cheap.
    fn passes_without_mark(&self, taken: u64) -> u64 {
        for passes in [MANY_PASSES, FEW_PASSES] {
            let then = taken.saturating_add(passes * PASS_SECTORS);
            if mark_passed(self.said, then, self.most).is_none() {
                return passes;
            }
        }
        0
    }

    fn print(&mut self, mark: u64, left: u64) {
        let name = Shown(self.name);
        if let Ok(mut messages) = self.messages.try_borrow_mut() {
            let _ = writeln!(
                *messages,
                "audit: {name}: {mark} % of its sectors are taken, {left} are left for events"
            );
        }
    }

    // Where the log ends: of two headers the active one has the higher place, or both have the same.
    fn taken(&mut self) -> io::Result<u64> {
        let first = self.end_at(END_OFFSET)?;
        let second = self.end_at(HEADER_LEN + END_OFFSET)?;
        Ok(first.max(second))
    }

    fn end_at(&mut self, place: u64) -> io::Result<u64> {
        let mut bytes = [0; 8];
        self.file.seek(SeekFrom::Start(place))?;
        self.file.read_exact(&mut bytes)?;
        Ok(u64::from_be_bytes(bytes))
    }
}

/// A door behind which a gauge is read after each flush that can have passed a mark.
#[derive(Drop)]
pub struct GaugedDoor<'n, 'a, 'b, E, F, M> {
    door: E,
    gauge: Option<Gauge<'n, 'a, 'b, F, M>>,
}

impl<'n, 'a, 'b, E, F: Drop, M> GaugedDoor<'n, 'a, 'b, E, F, M> {
    ghost use Rattle.std.specs.Prelude.{◌≡◌};

    /// The door with this gauge, or without one.
    pub fn new(door: E, gauge: Option<Gauge<'n, 'a, 'b, F, M>>) -> GaugedDoor<'n, 'a, 'b, E, F, M>
        ensures { result.door ≡ door }
    {
        GaugedDoor { door, gauge }
    }

    /// The door alone.
    pub fn into_door(self) -> E
        ensures { result ≡ self.entry.door }
    {
        self.door
    }
}

impl<E: EndingDoor, F: Drop, M> EndingDoor for GaugedDoor<'_, '_, '_, E, F, M> {
    ghost ending = { λ gauged. E.ending gauged.door };

    fn begin_end(&mut self) {
        self.door.begin_end()
    }
}

impl<E: Door, F: Read + Seek, M: Write> Door for GaugedDoor<'_, '_, '_, E, F, M> {
    ghost use Rattle.audit_cli_daemon.specs.Gauged.{gauged_calls};

    ghost calls = { gauged_calls E.calls };

    type Stream = E::Stream;

    fn next_client(&mut self, place: usize) -> Option<Newcomer<E::Stream>> {
        self.door.next_client(place)
    }

    fn dismisses(&mut self, place: usize, client: &E::Stream) -> bool {
        self.door.dismisses(place, client)
    }

    fn asks_again(&mut self, found: bool) -> bool {
        self.door.asks_again(found)
    }

    fn lets_reply(&mut self) -> bool {
        if let Some(gauge) = &mut self.gauge {
            gauge.look();
        }
        self.door.lets_reply()
    }

    fn gone(&mut self, place: usize, client: E::Stream, departure: Departure) {
        self.door.gone(place, client, departure)
    }

    fn pause(&mut self, moved: bool) -> Next {
        self.door.pause(moved)
    }
}
