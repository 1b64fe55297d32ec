//! Stores in a file in memory that records its calls, a row as one of them, and is stopped after each.
ghost use Rattle.audit_disk.specs.OsFile.{unknown_file};

use super::stops::{batches, batches_in, passed};
use super::*;
use audit_disk::{DeviceFault, FileDisk, SECTOR_SIZE, SectorFile, counted};
use std::alloc::AllocError;

// A call of the file that changes it. Writes have the number of their first sector, and how many they are.
#[derive(Clone, Copy, PartialEq, Eq)]
enum Call {
    Row(u64, u64),
    Write(u64),
    Sync,
}

// A file in memory that makes `left` calls that change it, and records them; the calls after them fail and reach
// nothing. Of row number `torn` it writes the first sector, and then fails.
#[derive(Drop)]
struct Tape {
    disk: MemDisk,
    left: u64,
    torn: u64,
    rows: u64,
    made: Vec<Call>,
}

// No row of a file has this number.
const NONE: u64 = u64::MAX;

impl Tape {
    // Records a call that is still to be made.
    fn note(&mut self, call: Call) -> Result<(), DeviceFault> {
        if self.left == 0 || self.made.push(call).is_err() {
            return Err(DeviceFault);
        }
        self.left -= 1;
        Ok(())
    }

    fn put(&mut self, at: u64, bytes: &[u8; SECTOR_SIZE]) -> Result<(), DeviceFault> {
        if at >= self.disk.size() {
            return Err(DeviceFault);
        }
        self.disk.write(at, bytes)
    }

    fn put_alone(&mut self, at: u64, bytes: &[u8; SECTOR_SIZE]) -> Result<(), DeviceFault> {
        self.note(Call::Write(at))?;
        self.put(at, bytes)
    }

    fn put_row(&mut self, first: u64, row: &[[u8; SECTOR_SIZE]]) -> Result<(), DeviceFault> {
        self.note(Call::Row(first, row.len() as u64))?;
        let number = self.rows;
        self.rows = number.saturating_add(1);
        for (place, bytes) in row.iter().enumerate() {
            self.put(first.saturating_add(place as u64), bytes)?;
            if number == self.torn {
                return Err(DeviceFault);
            }
        }
        Ok(())
    }

    fn sync_all(&mut self) -> Result<(), DeviceFault> {
        self.note(Call::Sync)?;
        self.disk.sync()
    }
}

// Such a file, which counts its failed calls.
#[derive(Drop)]
struct Recorder {
    tape: Tape,
    failures: u64,
}

impl SectorFile for Recorder {
    ghost file = { λ it. unknown_file it.failures };

    fn read_at(&mut self, offset: u64, into: &mut [u8; SECTOR_SIZE]) -> Result<(), DeviceFault> {
        let at = offset / SECTOR_SIZE as u64;
        if at >= self.tape.disk.size() {
            return counted(Err(DeviceFault), &mut self.failures);
        }
        let outcome = self.tape.disk.read(at, into);
        counted(outcome, &mut self.failures)
    }

    fn write_at(&mut self, offset: u64, bytes: &[u8; SECTOR_SIZE]) -> Result<(), DeviceFault> {
        let outcome = self.tape.put_alone(offset / SECTOR_SIZE as u64, bytes);
        counted(outcome, &mut self.failures)
    }

    fn write_row(&mut self, offset: u64, row: &[[u8; SECTOR_SIZE]]) -> Result<(), DeviceFault> {
        let outcome = self.tape.put_row(offset / SECTOR_SIZE as u64, row);
        counted(outcome, &mut self.failures)
    }

    fn sync(&mut self) -> Result<(), DeviceFault> {
        let outcome = self.tape.sync_all();
        counted(outcome, &mut self.failures)
    }
}

type Disk = FileDisk<Recorder>;

fn disk_over(alloc: Global, disk: MemDisk, left: u64, torn: u64) -> Result<Disk, AllocError> {
    let sectors = disk.size();
    let tape = Tape {
        disk,
        left,
        torn,
        rows: 0,
        made: Vec::new(alloc),
    };
    FileDisk::over(alloc, Recorder { tape, failures: 0 }, sectors)
}

// Opens the store in what a crash left of a file in memory.
fn opened_in_rows(rt: &impl Abort, alloc: Global, disk: MemDisk) -> Store<Disk> {
    opened(
        rt,
        alloc,
        disk_over(alloc, disk, u64::MAX, NONE).expect(rt, "a disk"),
    )
}

// The calls that formatting makes.
const FORMATTED: u64 = 8;

// The file after a run that was stopped after `calls` calls, and how many batches were acknowledged.
fn run_in_rows(rt: &impl Abort, alloc: Global, calls: u64, torn: u64) -> (Tape, u64) {
    let left = calls.saturating_add(FORMATTED);
    let disk = disk_over(alloc, device(rt, alloc, 16), left, torn).expect(rt, "a disk");
    let mut store = formatted(rt, alloc, disk);
    let end = store.run(&batches(rt, alloc));
    let acknowledged = end.receipts.len() as u64;
    (store.into_disk().into_file().tape, acknowledged)
}

// What a run makes of three batches.
const RUN: [Call; 18] = [
    Call::Row(2, 3),
    Call::Sync,
    Call::Write(1),
    Call::Sync,
    Call::Write(0),
    Call::Sync,
    Call::Row(5, 2),
    Call::Sync,
    Call::Write(1),
    Call::Sync,
    Call::Write(0),
    Call::Sync,
    Call::Row(7, 3),
    Call::Sync,
    Call::Write(1),
    Call::Sync,
    Call::Write(0),
    Call::Sync,
];

#[test]
fn a_batch_is_a_row_and_two_headers(rt: HostRuntime) {
    let (file, acknowledged) = run_in_rows(&rt, rt.alloc(), u64::MAX, NONE);
    check!(&rt; acknowledged == 3);
    check!(&rt; file.made.get(FORMATTED as usize..) == Some(&RUN));
}

// Rows that are torn, none and that of each batch. Then the calls after which each batch is held, since its first
// header is synced, and those after which it is acknowledged. A torn row is written again sector by sector, and so are
// all batches after it.
const RUNS: [(u64, [u64; 3], [u64; 3]); 4] = [
    (NONE, [4, 10, 16], [6, 12, 18]),
    (1, [7, 14, 22], [9, 16, 24]),
    (2, [4, 12, 20], [6, 14, 22]),
    (3, [4, 10, 19], [6, 12, 21]),
];

// The commitment to the events of the first batches.
fn commitment_to(rt: &impl Abort, batches: u64) -> Commitment {
    let place = (batches % 4) as usize;
    Commitment {
        count: [0, 3, 5, 6][place],
        root: hash(rt, ROOTS[place]),
    }
}

// The roots of the events of no batch, of the first, of the first two and of all.
const ROOTS: [&str; 4] = [
    "0000000000000000000000000000000000000000000000000000000000000000",
    "0992ca942fc6165c51223458c340169633c58e240d1f269349e2f9d89fda2f55",
    "fd31dd0904d6c434648d4cc9f9a4d599594e6ce11835fff8fc7af623fa56e2f1",
    "53bdf1e8c20f53af0b053b7552c51d3ad4d0f14d28af9100f6f4a8e99343ebf1",
];

// Whether the device that a crash left opens as a store of the first `batches` batches. If `whole` is set, its whole
// state is compared, too.
fn holds(rt: &impl Abort, alloc: Global, left: MemDisk, batches: u64, whole: bool) -> bool {
    let store = opened_in_rows(rt, alloc, left);
    let same = store.commitment() == commitment_to(rt, batches);
    let found = if whole {
        batches_in(rt, store)
    } else {
        batches
    };
    same && found == batches
}

// Crashes with each pick of the sectors, and expects the batches that have their header. A header that isn't synced is
// in the second bit of the mask.
fn expect_held(rt: &impl Abort, alloc: Global, disk: &MemDisk, calls: u64, held: [u64; 3]) {
    for mask in 0..8 {
        let left = crashed(rt, alloc, disk, mask);
        let batches = passed(calls.saturating_add(mask / 2 % 2), held);
        check!(rt; holds(rt, alloc, left, batches, mask == calls % 8), calls, mask);
    }
}

fn expect_stopped(rt: &impl Abort, alloc: Global, torn: u64, held: [u64; 3], ends: [u64; 3]) {
    for calls in 0..=ends[2] {
        let (file, acknowledged) = run_in_rows(rt, alloc, calls, torn);
        check!(rt; acknowledged == passed(calls, ends), calls, torn);
        expect_held(rt, alloc, &file.disk, calls, held);
    }
}

#[test]
fn a_run_in_rows_stopped_after_each_call(rt: HostRuntime) {
    for (torn, held, ends) in &RUNS {
        expect_stopped(&rt, rt.alloc(), *torn, *held, *ends);
    }
}

// Opens what each pick of the sectors leaves, and expects this commitment.
fn expect_left(rt: &impl Abort, alloc: Global, disk: &MemDisk, wanted: &Commitment) {
    for mask in 0..8 {
        let store = opened_in_rows(rt, alloc, crashed(rt, alloc, disk, mask));
        check!(rt; store.commitment() == *wanted, mask);
    }
}

// Opens what a crash left, stopped after each call of the file, and expects the same commitment of what is left then.
// Returns how many calls the whole opening makes.
fn expect_repaired(
    rt: &impl Abort,
    alloc: Global,
    left: &MemDisk,
    torn: u64,
    wanted: &Commitment,
) -> u64 {
    for calls in 0..=20 {
        let again = disk_over(
            alloc,
            left.crash(alloc, &[]).expect(rt, "a device"),
            calls,
            torn,
        )
        .expect(rt, "a disk");
        let (disk, error) = after_opening(alloc, again);
        expect_left(rt, alloc, &disk.into_file().tape.disk, wanted);
        if error.is_none() {
            return calls;
        }
    }
    panic!(rt; "it isn't opened")
}

// A run in rows is stopped after some calls, and crashes with the picks of a mask. Then how many batches are left, and
// how many calls an opening makes: two syncs and a row of zeros, and a header and its sync if the headers differ. Last,
// the same if that row is torn, and written again sector by sector: nine after two batches, six after three.
const CRASHES: [(u64, u64, u64, u64, u64); 12] = [
    (13, 0, 2, 3, 12),
    (13, 1, 2, 3, 12),
    (13, 2, 2, 3, 12),
    (13, 3, 2, 3, 12),
    (13, 4, 2, 3, 12),
    (13, 5, 2, 3, 12),
    (13, 6, 2, 3, 12),
    (13, 7, 2, 3, 12),
    (15, 0, 2, 3, 12),
    (15, 2, 3, 5, 11),
    (17, 0, 3, 5, 11),
    (17, 1, 3, 3, 9),
];

#[test]
fn an_opening_in_rows_stopped_after_each_call(rt: HostRuntime) {
    let alloc = rt.alloc();
    for (calls, mask, batches, whole, torn) in &CRASHES {
        let (file, _) = run_in_rows(&rt, alloc, *calls, NONE);
        let left = crashed(&rt, alloc, &file.disk, *mask);
        let wanted = commitment_to(&rt, *batches);
        let made = expect_repaired(&rt, alloc, &left, NONE, &wanted);
        let again = expect_repaired(&rt, alloc, &left, 0, &wanted);
        check!(&rt; (made, again) == (*whole, *torn), *calls, *mask);
    }
}

// The root of 64 events without payload.
const ROOT_OF_64: &str = "2f6a3ac508b3abd803f988ea7431f393dbc3ec1bf7cc2ac8d2170d4ef7c3aa6a";

// Whether a store takes the 64 events, as its first.
fn takes_all(rt: &impl Abort, alloc: Global, store: Store<Disk>) -> bool {
    let mut store = store;
    let receipt = store
        .append(&batch(rt, alloc, 0, &[0; 64]))
        .expect(rt, "an append");
    receipt.first == 0 && receipt.root == hash(rt, ROOT_OF_64)
}

// Picks the sectors of the log that are left out of a row, or no other, and both old headers.
fn picks_of(rt: &impl Abort, alloc: Global, at: u64, others: bool) -> Vec<u64> {
    let mut picks = Vec::new(alloc);
    for sector in 0..70 {
        let chosen = (sector == at) != others;
        picks
            .push(if chosen && sector > 1 { 1 } else { 0 })
            .expect(rt, "memory");
    }
    picks
}

// A row of 64 sectors is written and not synced. A crash leaves one of them alone, or all but one, or all: none of the
// events is there, and what is left of them is no hindrance.
#[test]
fn each_sector_of_a_long_row(rt: HostRuntime) {
    let alloc = rt.alloc();
    let disk = disk_over(alloc, device(&rt, alloc, 70), FORMATTED + 1, NONE).expect(&rt, "a disk");
    let mut store = formatted(&rt, alloc, disk);
    let batch = batch(&rt, alloc, 0, &[0; 64]);
    check!(&rt; store.append(&batch).err() == Some(StoreError::Device));
    let file = store.into_disk().into_file().tape;
    check!(&rt; file.made.get(FORMATTED as usize..) == Some(&[Call::Row(2, 64)]));
    for round in 0..2 * 65 {
        let picks = picks_of(&rt, alloc, round / 2 + 2, round % 2 == 1);
        let left = opened_in_rows(
            &rt,
            alloc,
            file.disk.crash(alloc, &picks).expect(&rt, "a device"),
        );
        check!(&rt; left.commitment().count == 0 && takes_all(&rt, alloc, left), round);
    }
}
