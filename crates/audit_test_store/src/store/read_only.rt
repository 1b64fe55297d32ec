//! Stores on sectors that are only read.
ghost use Rattle.std.specs.Prelude.{◌≡◌, ◌<◌};

use super::stops::{batches_in, passed, run_to};
use super::*;
use audit_disk::{DeviceFault, ReadOnly, SectorSource};

fn opened_read_only<'a, S: SectorSource>(
    rt: &impl Abort,
    alloc: Global,
    source: &'a mut S,
) -> Store<ReadOnly<'a, S>> {
    match Store::open_read_only(alloc, source) {
        Ok(store) => store,
        Err(failed) => panic!(rt; "a store: {}", failed.error),
    }
}

// The error of an opening, if there is one.
fn refusal<S: SectorSource>(alloc: Global, source: &mut S) -> Option<StoreError> {
    match Store::open_read_only(alloc, source) {
        Ok(_) => None,
        Err(failed) => Some(failed.error),
    }
}

// After a stop at any call, even between the two headers, the store has the same answers and sectors as if the device
// had been opened. The device itself receives no call.
#[test]
fn a_run_stopped_after_each_call_read_only(rt: HostRuntime) {
    let alloc = rt.alloc();
    for round in 0..24 * 8 {
        let (calls, mask) = (round / 8, round % 8);
        let (disk, _) = run_to(&rt, alloc, calls);
        let mut left = crashed(&rt, alloc, &disk, mask);
        let batches = batches_in(&rt, opened_read_only(&rt, alloc, &mut left));
        check!(&rt; batches == passed(calls + mask / 2 % 2, [6, 13, 21]), calls, mask);
        check!(&rt; left.calls() == 0);
    }
}

// An append to a read-only store is kept beside its sectors, and is lost with it.
#[test]
fn an_append_that_is_not_kept(rt: HostRuntime) {
    let alloc = rt.alloc();
    let mut disk = store_of(&rt, alloc, 16, &[0, 5]).into_disk();
    append_beside(&rt, alloc, &mut disk);
    check!(&rt; count_read_only(&rt, alloc, &mut disk) == 2);
}

fn append_beside(rt: &impl Abort, alloc: Global, disk: &mut MemDisk) {
    let mut store = opened_read_only(rt, alloc, disk);
    let receipt = store
        .append(&batch(rt, alloc, 2, &[441]))
        .expect(rt, "an append");
    check!(rt; receipt.count == 3);
    check!(rt; answers(rt, &mut store) == answers(rt, &mut store_of(rt, alloc, 16, &[0, 5, 441])));
}

fn count_read_only(rt: &impl Abort, alloc: Global, disk: &mut MemDisk) -> u64 {
    opened_read_only(rt, alloc, disk).commitment().count
}

// Sectors of which one can't be read. They are never honest.
#[derive(Drop)]
struct Unreadable {
    disk: MemDisk,
    at: u64,
}

impl SectorSource for Unreadable {
    ghost use Rattle.audit_disk.specs.MemDisk.{disk_view};
    ghost use Rattle.audit_disk.specs.SectorSource.{source_of};
    ghost use Rattle.audit_store.specs.Dishonest.{dishonest};

    ghost source = { λ it. record (source_of (dishonest (disk_view it.disk))) { failed = Unit {0}; last_failed = Unit {0} } };

    fn sectors(&self) -> u64 {
        self.disk.sectors()
    }

    fn read_sector(&mut self, at: u64, into: &mut [u8; 512]) -> Result<(), DeviceFault> {
        if at == self.at {
            return Err(DeviceFault);
        }
        self.disk.read_sector(at, into)
    }
}

// Opening reads the headers and the log, which has three sectors, and nothing after it.
#[test]
fn a_sector_that_cannot_be_read(rt: HostRuntime) {
    let alloc = rt.alloc();
    for at in 0..8 {
        let disk = store_of(&rt, alloc, 8, &[0, 5, 400]).into_disk();
        let expected = if at < 5 {
            Some(StoreError::Device)
        } else {
            None
        };
        check!(&rt; refusal(alloc, &mut Unreadable { disk, at }) == expected, at);
    }
}

// Run with each allocation refused in turn, as in `memory`: an opening allocates nothing for the writes that it keeps
// after its first sync, so it is never refused with a device fault.
#[test]
fn a_growth_that_is_refused_read_only(rt: HostRuntime) {
    let alloc = rt.alloc();
    let (mut disk, _) = run_to(&rt, alloc, 6);
    let error = refusal(alloc, &mut disk);
    check!(&rt; matches!(error, None | Some(StoreError::Memory)));
}
