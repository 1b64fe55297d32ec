//! Reading ahead, over a file that counts its calls.

ghost use Rattle.std.specs.Prelude.{◌<◌};
ghost use Rattle.audit_disk.specs.OsFile.{unknown_file};

use super::{Step, expect, next, takes};
use audit_disk::{DeviceFault, FileDisk, SECTOR_SIZE, SectorFile, counted};
use std::alloc::Global;
use std::process::Abort;

const SECTORS: usize = 400;

// The content of sector 3 after a sync.
const SYNCED: u8 = b'x';

/// A file in memory whose sectors each consist of equal bytes. One sector can't be read, and each sync changes sector
/// 3.
#[derive(Drop)]
struct Patchy {
    bytes: [u8; SECTORS],
    bad: usize,
    reads: u64,
    rows: u64,
    failures: u64,
}

impl Patchy {
    fn give(&self, offset: u64, into: &mut [u8; SECTOR_SIZE]) -> Result<(), DeviceFault> {
        let at = (offset / SECTOR_SIZE as u64) as usize;
        if at >= SECTORS || at == self.bad {
            return Err(DeviceFault);
        }
        *into = [self.bytes[at]; SECTOR_SIZE];
        Ok(())
    }

    fn give_row(&self, offset: u64, into: &mut [[u8; SECTOR_SIZE]]) -> Result<(), DeviceFault> {
        let mut there = offset;
        for sector in into.iter_mut() {
            self.give(there, sector)?;
            there = there.saturating_add(SECTOR_SIZE as u64);
        }
        Ok(())
    }
}

impl SectorFile for Patchy {
    ghost file = { λ it. unknown_file it.failures };

    fn read_at(&mut self, offset: u64, into: &mut [u8; SECTOR_SIZE]) -> Result<(), DeviceFault> {
        self.reads = self.reads.saturating_add(1);
        let outcome = self.give(offset, into);
        counted(outcome, &mut self.failures)
    }

    fn read_row(&mut self, offset: u64, into: &mut [[u8; SECTOR_SIZE]]) -> Result<(), DeviceFault> {
        self.rows = self.rows.saturating_add(1);
        let outcome = self.give_row(offset, into);
        counted(outcome, &mut self.failures)
    }

    fn write_at(&mut self, offset: u64, bytes: &[u8; SECTOR_SIZE]) -> Result<(), DeviceFault> {
        let at = (offset / SECTOR_SIZE as u64) as usize;
        if at < SECTORS {
            self.bytes[at] = bytes[0];
        }
        Ok(())
    }

    fn sync(&mut self) -> Result<(), DeviceFault> {
        self.bytes[3] = SYNCED;
        Ok(())
    }
}

type Disk = FileDisk<Patchy>;

/// For each sector k the byte k modulo 251.
fn counted_bytes() -> [u8; SECTORS] {
    let mut bytes = [0; SECTORS];
    for at in 0..SECTORS {
        bytes[at] = (at % 251) as u8;
    }
    bytes
}

/// A device over a file whose sector k consists of bytes k modulo 251.
fn new_disk(rt: &impl Abort, alloc: Global, bad: usize) -> Disk {
    let file = Patchy {
        bytes: counted_bytes(),
        bad,
        reads: 0,
        rows: 0,
        failures: 0,
    };
    FileDisk::over(alloc, file, SECTORS as u64).expect(rt, "a device")
}

/// Reads the sectors and expects the file's contents.
fn expect_read(rt: &impl Abort, disk: &mut Disk, places: &[usize]) {
    for at in places {
        check!(rt; takes(rt, disk, Step::Found(*at as u64, (*at % 251) as u8)), *at);
    }
}

fn expect_calls(rt: &impl Abort, disk: Disk, reads: u64, rows: u64) {
    let file = disk.into_file();
    check!(rt; (file.reads, file.rows) == (reads, rows));
}

// The first two sectors are always read one by one; then rows of 2, 4, .. 128 sectors, another 128, and the last 16.
#[test]
fn reads_that_go_on_read_rows(rt: HostRuntime) {
    let mut disk = new_disk(&rt, rt.alloc(), SECTORS);
    for at in 0..SECTORS {
        expect_read(&rt, &mut disk, &[at]);
    }
    expect_read(&rt, &mut disk, &[0, 1, 0, 1]);
    expect_calls(&rt, disk, 6, 9);
}

#[test]
fn reads_elsewhere_read_one_sector_each(rt: HostRuntime) {
    let mut disk = new_disk(&rt, rt.alloc(), SECTORS);
    expect_read(&rt, &mut disk, &[7, 3, 399, 7, 5, 5]);
    for back in 0..SECTORS {
        expect_read(&rt, &mut disk, &[SECTORS - 1 - back]);
    }
    expect_calls(&rt, disk, 406, 0);
}

// The first read is of one sector, then there are rows from 11, 13 and 17 on. Rereads return the same, in any order.
#[test]
fn sectors_that_were_read_are_given_again(rt: HostRuntime) {
    let onwards = [10, 11, 12, 13, 14, 15, 16, 17];
    for (again, reads, rows) in [
        (&[] as &[usize], 1, 3),
        (&[24, 20, 17, 18, 24], 1, 3),
        (&[24, 20, 17, 18, 24, 16, 17, 25], 3, 4),
    ] {
        let mut disk = new_disk(&rt, rt.alloc(), SECTORS);
        expect_read(&rt, &mut disk, &onwards);
        expect_read(&rt, &mut disk, again);
        expect_calls(&rt, disk, reads, rows);
    }
}

#[test]
fn a_write_and_a_sync_drop_what_was_read(rt: HostRuntime) {
    let mut disk = new_disk(&rt, rt.alloc(), SECTORS);
    expect_read(&rt, &mut disk, &[1, 2]);
    let changes = [
        Step::Put(3, b'w'),
        Step::Found(3, b'w'),
        Step::Syncs,
        Step::Found(3, SYNCED),
    ];
    expect(&rt, &mut disk, &changes);
}

#[test]
fn a_bad_sector_spoils_no_other(rt: HostRuntime) {
    let mut disk = new_disk(&rt, rt.alloc(), 100);
    for at in 0..SECTORS as u64 {
        let found = Step::Found(at, (at % 251) as u8);
        let fails = Step::FindFails(at);
        check!(&rt; takes(&rt, &mut disk, if at == 100 { fails } else { found }), at);
    }
}

/// Reads from sector `at` up to, but not including, `end`.
fn expect_model(rt: &impl Abort, disk: &mut Disk, model: &[u8; SECTORS], at: usize, end: usize) {
    for (place, byte) in model.iter().enumerate().take(end).skip(at) {
        check!(rt; takes(rt, disk, Step::Found(place as u64, *byte)), place);
    }
}

/// A call on the device and on a plain list of its bytes: a write, a sync, or some consecutive reads from any place.
fn play(rt: &impl Abort, disk: &mut Disk, model: &mut [u8; SECTORS], seed: &mut u64) {
    let at = (next(seed) % SECTORS as u64) as usize;
    match next(seed) % 8 {
        0 => {
            let byte = (next(seed) % 256) as u8;
            check!(rt; takes(rt, disk, Step::Put(at as u64, byte)), at);
            model[at] = byte;
        }
        1 => {
            check!(rt; takes(rt, disk, Step::Syncs));
            model[3] = SYNCED;
        }
        _ => {
            let end = (at + (next(seed) % 32) as usize).min(SECTORS);
            expect_model(rt, disk, model, at, end);
        }
    }
}

#[test]
fn random_calls_give_what_a_plain_list_holds(rt: HostRuntime) {
    let mut disk = new_disk(&rt, rt.alloc(), SECTORS);
    let mut model = counted_bytes();
    let mut seed = 7;
    for _ in 0..2000 {
        play(&rt, &mut disk, &mut model, &mut seed);
    }
}
