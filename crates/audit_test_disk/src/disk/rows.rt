//! Writes that are kept and handed to the file as rows, over a file that counts its calls.

ghost use Rattle.audit_disk.specs.OsFile.{unknown_file};

use super::{Step, expect};
use audit_disk::{DeviceFault, FileDisk, SECTOR_SIZE, SectorFile, counted};
use std::alloc::Global;
use std::process::Abort;

/// A file of zero bytes that counts its writes. Rows fail if `refuses_rows` is set, and so does a write of one sector
/// at the offset `bad`.
#[derive(Drop)]
struct Tally {
    refuses_rows: bool,
    bad: u64,
    rows: u64,
    longest: usize,
    alone: u64,
    failures: u64,
}

impl SectorFile for Tally {
    ghost file = { λ it. unknown_file it.failures };

    fn read_at(&mut self, _offset: u64, into: &mut [u8; SECTOR_SIZE]) -> Result<(), DeviceFault> {
        *into = [0; SECTOR_SIZE];
        Ok(())
    }

    fn write_at(&mut self, offset: u64, _bytes: &[u8; SECTOR_SIZE]) -> Result<(), DeviceFault> {
        self.alone = self.alone.saturating_add(1);
        if offset == self.bad {
            return counted(Err(DeviceFault), &mut self.failures);
        }
        Ok(())
    }

    fn write_row(&mut self, _offset: u64, row: &[[u8; SECTOR_SIZE]]) -> Result<(), DeviceFault> {
        self.rows = self.rows.saturating_add(1);
        self.longest = self.longest.max(row.len());
        if self.refuses_rows {
            return counted(Err(DeviceFault), &mut self.failures);
        }
        Ok(())
    }

    fn sync(&mut self) -> Result<(), DeviceFault> {
        Ok(())
    }
}

fn new_disk(rt: &impl Abort, alloc: Global, refuses_rows: bool, bad: u64) -> FileDisk<Tally> {
    let file = Tally {
        refuses_rows,
        bad,
        rows: 0,
        longest: 0,
        alone: 0,
        failures: 0,
    };
    FileDisk::over(alloc, file, 400).expect(rt, "a device")
}

/// Expects these numbers of rows, of sectors in the longest one, and of writes of one sector.
fn expect_writes(rt: &impl Abort, disk: FileDisk<Tally>, rows: u64, longest: usize, alone: u64) {
    let file = disk.into_file();
    check!(rt; (file.rows, file.longest, file.alone) == (rows, longest, alone));
}

/// Writes `count` sectors from `first` on.
fn put_all(rt: &impl Abort, disk: &mut FileDisk<Tally>, first: u64, count: u64) {
    for at in first..first.saturating_add(count) {
        expect(rt, disk, &[Step::Put(at, b'e')]);
    }
}

// A store's batch of 64 sectors: the entries, and each header by itself.
#[test]
fn a_batch_is_a_row_and_two_headers(rt: HostRuntime) {
    let mut disk = new_disk(&rt, rt.alloc(), false, u64::MAX);
    put_all(&rt, &mut disk, 2, 64);
    let rest = [
        Step::Syncs,
        Step::Put(1, b'h'),
        Step::Syncs,
        Step::Put(0, b'h'),
        Step::Syncs,
        Step::Calls(69),
    ];
    expect(&rt, &mut disk, &rest);
    expect_writes(&rt, disk, 1, 64, 2);
}

// The 129th sector finds the row full.
#[test]
fn a_row_has_at_most_128_sectors(rt: HostRuntime) {
    let mut disk = new_disk(&rt, rt.alloc(), false, u64::MAX);
    put_all(&rt, &mut disk, 2, 130);
    expect(&rt, &mut disk, &[Step::Syncs]);
    expect_writes(&rt, disk, 2, 128, 0);
}

// Sectors 5 and 6 go before 9, those before 4, and that one before the sync. A write that nothing followed is lost.
#[test]
fn a_write_elsewhere_hands_the_row_over(rt: HostRuntime) {
    let mut disk = new_disk(&rt, rt.alloc(), false, u64::MAX);
    let writes = [
        Step::Put(5, b'a'),
        Step::Put(6, b'b'),
        Step::Put(9, b'c'),
        Step::Put(10, b'd'),
        Step::Put(11, b'e'),
        Step::Put(4, b'f'),
        Step::Syncs,
        Step::Put(20, b'g'),
    ];
    expect(&rt, &mut disk, &writes);
    expect_writes(&rt, disk, 3, 3, 0);
}

#[test]
fn a_read_hands_over_a_row_that_has_its_sector(rt: HostRuntime) {
    for (at, rows) in [(4, 0), (5, 1), (6, 1), (7, 0)] {
        let mut disk = new_disk(&rt, rt.alloc(), false, u64::MAX);
        expect(
            &rt,
            &mut disk,
            &[Step::Put(5, 0), Step::Put(6, 0), Step::Found(at, 0)],
        );
        expect_writes(&rt, disk, rows, if rows == 0 { 0 } else { 2 }, 0);
    }
}

// The row of three is refused and written sector by sector; then each write is made by itself.
#[test]
fn a_row_that_fails_is_written_sector_by_sector(rt: HostRuntime) {
    let mut disk = new_disk(&rt, rt.alloc(), true, 8 * 512);
    put_all(&rt, &mut disk, 5, 3);
    let rest = [
        Step::Syncs,
        Step::Put(9, b'x'),
        Step::PutFails(8, b'y'),
        Step::Put(10, b'z'),
        Step::Syncs,
        Step::Calls(8),
    ];
    expect(&rt, &mut disk, &rest);
    expect_writes(&rt, disk, 1, 3, 6);
}

// Sector 6 can't be written. The call that hands over its row fails, and so does every later one.
#[test]
fn a_row_that_fails_sector_by_sector_too_stops_the_device(rt: HostRuntime) {
    for last in [Step::SyncFails, Step::PutFails(9, b'x'), Step::FindFails(6)] {
        let mut disk = new_disk(&rt, rt.alloc(), true, 6 * 512);
        put_all(&rt, &mut disk, 5, 3);
        let rest = [
            last,
            Step::PutFails(20, b'y'),
            Step::FindFails(20),
            Step::SyncFails,
        ];
        expect(&rt, &mut disk, &rest);
        expect_writes(&rt, disk, 1, 3, 3);
    }
}
