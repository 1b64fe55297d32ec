use audit_disk::{
    DeviceFault, FailOnce, FileDisk, FileFault, Fuse, MemDisk, OsFile, SECTOR_SIZE, Sectors,
    publish, write_sectors,
};
use std::alloc::Global;
use std::env;
use std::fs::{self, File, OpenOptions};
use std::os::unix::fs::PermissionsExt;
use std::path::PathBuf;
use std::process::{self, Abort};

mod imagined;
mod reading_ahead;
mod rows;
mod system_files;

/// Writes a sector of equal bytes, and returns whether that succeeded.
fn put<D: Sectors>(rt: &impl Abort, disk: &mut D, at: u64, byte: u8) -> bool {
    check!(rt; at < disk.size());
    disk.write(at, &[byte; SECTOR_SIZE]).is_ok()
}

/// Reads a sector of equal bytes, and returns the byte.
fn found<D: Sectors>(rt: &impl Abort, disk: &mut D, at: u64) -> Result<u8, DeviceFault> {
    check!(rt; at < disk.size());
    let mut into = [0; SECTOR_SIZE];
    disk.read(at, &mut into)?;
    check!(rt; into == [into[0]; SECTOR_SIZE]);
    Ok(into[0])
}

/// A call on a device whose sectors each consist of equal bytes, or an inspection of it, with the expected result.
#[derive(Clone, Copy)]
enum Step {
    Size(u64),
    Calls(u64),
    Put(u64, u8),
    PutFails(u64, u8),
    Found(u64, u8),
    FindFails(u64),
    Syncs,
    SyncFails,
}

/// Takes a step, and returns whether the result was as expected.
fn takes<D: Sectors>(rt: &impl Abort, disk: &mut D, step: Step) -> bool {
    match step {
        Step::Size(sectors) => disk.size() == sectors,
        Step::Calls(calls) => disk.calls() == calls,
        Step::Put(at, byte) => put(rt, disk, at, byte),
        Step::PutFails(at, byte) => !put(rt, disk, at, byte),
        Step::Found(at, byte) => found(rt, disk, at) == Ok(byte),
        Step::FindFails(at) => found(rt, disk, at).is_err(),
        Step::Syncs => disk.sync().is_ok(),
        Step::SyncFails => disk.sync().is_err(),
    }
}

fn expect<D: Sectors>(rt: &impl Abort, disk: &mut D, steps: &[Step]) {
    for (place, step) in steps.iter().enumerate() {
        check!(rt; takes(rt, disk, *step), place);
    }
}

/// Takes the steps on the device that a crash with these picks leaves.
fn expect_left(rt: &impl Abort, alloc: Global, disk: &MemDisk, picks: &[u64], steps: &[Step]) {
    expect(
        rt,
        &mut disk.crash(alloc, picks).expect(rt, "a device"),
        steps,
    );
}

/// The content of sector 2 of three after a crash with each of these picks, if sector 1 was never written.
fn expect_picked(rt: &impl Abort, alloc: Global, disk: &MemDisk, cases: &[(&[u64], u8)]) {
    for (picks, byte) in cases {
        let steps = [Step::Found(2, *byte), Step::Found(1, 0), Step::Calls(0)];
        expect_left(rt, alloc, disk, picks, &steps);
    }
}

// Two writes to sector 2 of three, and what each pick leaves there, before and after a sync.
const BEFORE_SYNC: [(&[u64], u8); 5] = [
    (&[0, 0, 0], 0),
    (&[0, 0, 1], b'x'),
    (&[0, 0, 2], b'y'),
    (&[9, 9, 9], b'y'),
    (&[], 0),
];

const AFTER_SYNC: [(&[u64], u8); 2] = [(&[], b'y'), (&[0, 0, 1], b'y')];

#[test]
fn a_crash_leaves_what_its_picks_say(rt: HostRuntime) {
    let mut disk = MemDisk::new(rt.alloc(), 3).expect(&rt, "a device");
    let writes = [
        Step::Size(3),
        Step::Put(2, b'x'),
        Step::Put(2, b'y'),
        Step::Found(2, b'y'),
    ];
    expect(&rt, &mut disk, &writes);
    expect_picked(&rt, rt.alloc(), &disk, &BEFORE_SYNC);
    expect(&rt, &mut disk, &[Step::Syncs, Step::Calls(3)]);
    expect_picked(&rt, rt.alloc(), &disk, &AFTER_SYNC);
}

#[test]
fn a_device_begins_with_the_sectors_that_it_is_given(rt: HostRuntime) {
    let sectors = vec![in rt.alloc(); [7; SECTOR_SIZE]; 1].expect(&rt, "memory");
    expect(
        &rt,
        &mut MemDisk::from_sectors(rt.alloc(), &sectors).expect(&rt, "a device"),
        &[Step::Found(0, 7)],
    );
    expect(
        &rt,
        &mut MemDisk::from_sectors(rt.alloc(), &[]).expect(&rt, "a device"),
        &[Step::Size(0)],
    );
}

// The contents of three sectors after a crash with each of these picks.
fn expect_images(rt: &impl Abort, alloc: Global, disk: &MemDisk, cases: &[([u64; 3], [u8; 3])]) {
    for (picks, [first, second, third]) in cases {
        let steps = [
            Step::Found(0, *first),
            Step::Found(1, *second),
            Step::Found(2, *third),
        ];
        expect_left(rt, alloc, disk, picks, &steps);
    }
}

const SIX_IMAGES: [([u64; 3], [u8; 3]); 6] = [
    ([0, 0, 0], [0, 0, 0]),
    ([0, 0, 1], [0, 0, b'x']),
    ([0, 0, 2], [0, 0, b'y']),
    ([0, 1, 0], [0, b'z', 0]),
    ([0, 1, 1], [0, b'z', b'x']),
    ([0, 1, 2], [0, b'z', b'y']),
];

const ONE_IMAGE: [([u64; 3], [u8; 3]); 3] = [
    ([0, 0, 0], [0, b'z', b'y']),
    ([0, 1, 1], [0, b'z', b'y']),
    ([9, 9, 9], [0, b'z', b'y']),
];

// Two writes to sector 2 and one to sector 1, followed by a failed sync, leave six images. Each is selected by its
// picks. After a successful sync the content is the only image.
#[test]
fn six_images_of_three_writes_and_a_failed_sync(rt: HostRuntime) {
    let mut disk = FailOnce::new(MemDisk::new(rt.alloc(), 3).expect(&rt, "a device"), 3);
    let calls = [
        Step::Put(2, b'x'),
        Step::Put(2, b'y'),
        Step::Put(1, b'z'),
        Step::SyncFails,
    ];
    expect(&rt, &mut disk, &calls);
    let mut disk = disk.into_inner();
    expect_images(&rt, rt.alloc(), &disk, &SIX_IMAGES);
    expect(&rt, &mut disk, &[Step::Syncs]);
    expect_images(&rt, rt.alloc(), &disk, &ONE_IMAGE);
}

#[test]
fn a_fuse_lets_so_many_calls_pass(rt: HostRuntime) {
    let mut fuse = Fuse::new(MemDisk::new(rt.alloc(), 3).expect(&rt, "a device"), 1);
    let calls = [
        Step::Put(2, b'x'),
        Step::PutFails(2, b'y'),
        Step::FindFails(2),
        Step::SyncFails,
        Step::Size(3),
        Step::Calls(3),
    ];
    expect(&rt, &mut fuse, &calls);
    let mut disk = fuse.into_inner();
    expect(&rt, &mut disk, &[Step::Calls(1)]);
    expect_left(&rt, rt.alloc(), &disk, &[0, 0, 2], &[Step::Found(2, b'x')]);
    expect(&rt, &mut Fuse::new(disk, 0), &[Step::SyncFails]);
}

// Four calls, one of which fails, and the content of the first sector afterwards.
const FAILING: [([Step; 4], u8); 4] = [
    (
        [
            Step::PutFails(0, b'x'),
            Step::Found(0, 0),
            Step::Syncs,
            Step::Put(1, b'y'),
        ],
        0,
    ),
    (
        [
            Step::Put(0, b'x'),
            Step::FindFails(0),
            Step::Syncs,
            Step::Put(1, b'y'),
        ],
        b'x',
    ),
    (
        [
            Step::Put(0, b'x'),
            Step::Found(0, b'x'),
            Step::SyncFails,
            Step::Put(1, b'y'),
        ],
        b'x',
    ),
    (
        [
            Step::Put(0, b'x'),
            Step::Found(0, b'x'),
            Step::Syncs,
            Step::PutFails(1, b'y'),
        ],
        b'x',
    ),
];

#[test]
fn one_call_fails_and_no_other(rt: HostRuntime) {
    for (call, (steps, left)) in FAILING.iter().enumerate() {
        let mut disk = FailOnce::new(
            MemDisk::new(rt.alloc(), 3).expect(&rt, "a device"),
            call as u64,
        );
        expect(&rt, &mut disk, steps);
        expect(&rt, &mut disk, &[Step::Size(3), Step::Calls(3)]);
        expect(&rt, &mut disk.into_inner(), &[Step::Found(0, *left)]);
    }
}

/// A plain model of a device of four sectors of equal bytes.
#[derive(Clone, Copy)]
struct Model {
    synced: [u8; 4],
    content: [u8; 4],
    pending: [[u8; 16]; 4],
    counts: [usize; 4],
}

impl Model {
    fn write(&mut self, at: usize, byte: u8) {
        if at < 4 && self.counts[at] < 16 {
            self.pending[at][self.counts[at]] = byte;
            self.counts[at] += 1;
            self.content[at] = byte;
        }
    }

    fn sync(&mut self) {
        self.synced = self.content;
        self.counts = [0; 4];
    }

    fn left(&self, at: usize, pick: u64) -> u8 {
        if at >= 4 {
            return 0;
        }
        let last = self.counts[at].min(16);
        let chosen = (pick as usize).min(last);
        if chosen == 0 {
            self.synced[at]
        } else {
            self.pending[at][chosen - 1]
        }
    }
}

fn next(seed: &mut u64) -> u64 {
    *seed = seed
        .wrapping_mul(6_364_136_223_846_793_005)
        .wrapping_add(1_442_695_040_888_963_407);
    *seed >> 33
}

/// Sixteen calls, one of which may fail, on a device and on the model.
fn play(rt: &impl Abort, disk: &mut FailOnce<MemDisk>, model: &mut Model, seed: &mut u64) {
    for _ in 0..16 {
        let at = next(seed) % 4;
        let byte = (next(seed) % 256) as u8;
        if next(seed) % 8 == 0 {
            if disk.sync().is_ok() {
                model.sync();
            }
        } else if put(rt, disk, at, byte) {
            model.write(at as usize, byte);
        }
    }
}

fn new_model() -> Model {
    Model {
        synced: [0; 4],
        content: [0; 4],
        pending: [[0; 16]; 4],
        counts: [0; 4],
    }
}

fn next_picks(seed: &mut u64) -> [u64; 4] {
    [
        next(seed) % 4,
        next(seed) % 8,
        next(seed) % 2,
        next(seed) % 20,
    ]
}

/// Plays a script and crashes. Each sector must have the model's content.
fn expect_as_model(rt: &impl Abort, alloc: Global, seed: &mut u64) {
    let mut disk = FailOnce::new(
        MemDisk::new(alloc, 4).expect(rt, "a device"),
        next(seed) % 32,
    );
    let mut model = new_model();
    play(rt, &mut disk, &mut model, seed);
    let picks = next_picks(seed);
    let mut left = disk
        .into_inner()
        .crash(alloc, &picks)
        .expect(rt, "a device");
    for (at, pick) in picks.iter().enumerate() {
        let byte = model.left(at, *pick);
        check!(rt; takes(rt, &mut left, Step::Found(at as u64, byte)));
    }
}

#[test]
fn random_scripts_crash_as_a_plain_model_says(rt: HostRuntime) {
    let mut seed = 1;
    for _ in 0..1000 {
        expect_as_model(&rt, rt.alloc(), &mut seed);
    }
}

#[test]
fn ten_thousand_writes_and_a_crash(rt: HostRuntime) {
    let mut disk = MemDisk::new(rt.alloc(), 70).expect(&rt, "a device");
    for at in 0..10_000 {
        check!(&rt; put(&rt, &mut disk, at % 70, (at % 256) as u8));
    }
    expect(&rt, &mut disk, &[Step::Calls(10_000)]);
    let picks = vec![in rt.alloc(); 200; 70].expect(&rt, "memory");
    let last = [Step::Found(59, (9_999 % 256) as u8)];
    expect_left(&rt, rt.alloc(), &disk, &picks, &last);
}

/// Two sectors, of ones and of twos.
fn window(rt: &impl Abort, alloc: Global) -> Vec<[u8; SECTOR_SIZE]> {
    let mut sectors = Vec::new(alloc);
    sectors.push([1; SECTOR_SIZE]).expect(rt, "memory");
    sectors.push([2; SECTOR_SIZE]).expect(rt, "memory");
    sectors
}

/// Publishes the window at sector 2, marked by a 9 in sector 0, and returns whether that succeeded.
fn publishes<D: Sectors>(rt: &impl Abort, disk: &mut D, window: &[[u8; SECTOR_SIZE]]) -> bool {
    check!(rt; disk.size() == 4 && window.len() == 2);
    publish(disk, 2, window, 0, &[9; SECTOR_SIZE]).is_ok()
}

// How many calls are made, whether publishing succeeds, and what a crash then leaves.
const PUBLISHED: [(u64, bool, &[Step]); 6] = [
    (0, false, &[Step::Found(0, 0)]),
    (1, false, &[Step::Found(0, 0)]),
    (2, false, &[Step::Found(0, 0)]),
    (3, false, &[Step::Found(0, 0)]),
    (
        4,
        false,
        &[Step::Found(0, 9), Step::Found(2, 1), Step::Found(3, 2)],
    ),
    (
        5,
        true,
        &[Step::Found(0, 9), Step::Found(2, 1), Step::Found(3, 2)],
    ),
];

#[test]
fn a_window_is_published_whole_or_not_at_all(rt: HostRuntime) {
    let window = window(&rt, rt.alloc());
    for (calls, done, left) in &PUBLISHED {
        let mut disk = Fuse::new(MemDisk::new(rt.alloc(), 4).expect(&rt, "a device"), *calls);
        check!(&rt; publishes(&rt, &mut disk, &window) == *done);
        expect_left(&rt, rt.alloc(), &disk.into_inner(), &[1, 1, 1, 1], left);
    }
}

#[test]
fn sectors_are_written_in_a_row(rt: HostRuntime) {
    let window = window(&rt, rt.alloc());
    let mut disk = MemDisk::new(rt.alloc(), 4).expect(&rt, "a device");
    check!(&rt; disk.size() == 4 && window.len() == 2);
    write_sectors(&mut disk, 1, &window).expect(&rt, "a write");
    let written = [Step::Found(1, 1), Step::Found(2, 2), Step::Calls(2)];
    expect(&rt, &mut disk, &written);
}

#[test]
fn a_file_in_memory_keeps_its_sectors(rt: HostRuntime) {
    let mut disk = FileDisk::in_memory(rt.alloc(), 3).expect(&rt, "a device");
    let steps = [
        Step::Size(3),
        Step::Calls(0),
        Step::Put(1, b'x'),
        Step::Put(2, b'y'),
        Step::Syncs,
        Step::Found(1, b'x'),
        Step::Found(2, b'y'),
        Step::Found(0, 0),
        Step::Calls(3),
    ];
    expect(&rt, &mut disk, &steps);
}

/// The path of a file of this process in the temporary directory. No such file exists yet.
fn fresh_path(rt: &HostRuntime, judge: &impl Abort, name: &str) -> PathBuf {
    let mut path = env::temp_dir(rt).expect(judge, "a folder");
    let file = format!(in rt.alloc(); "{name}_{}", process::id(rt.process())).expect(
        judge, "memory",
    );
    path.push(file.as_str()).expect(judge, "memory");
    let _ = fs::remove_file(rt, path.as_str());
    path
}

/// How a device is made from a real file: by creating a file with a number of sectors, opening a whole file, opening
/// the first sectors of a file, or opening a file only to read it.
#[derive(Clone, Copy)]
enum Way {
    Create(u64),
    Open,
    InPlace(u64),
    ReadOnly,
}

fn made(rt: &HostRuntime, path: &str, way: Way) -> Result<FileDisk<OsFile<File>>, FileFault> {
    match way {
        Way::Create(sectors) => FileDisk::create(rt, rt.alloc(), path, sectors),
        Way::Open => FileDisk::open(rt, rt.alloc(), path),
        Way::InPlace(sectors) => FileDisk::open_in_place(rt, rt.alloc(), path, sectors),
        Way::ReadOnly => FileDisk::open_read_only(rt, rt.alloc(), path),
    }
}

/// Makes a device of the file, and takes the steps on it.
fn expect_made(rt: &HostRuntime, judge: &impl Abort, path: &str, way: Way, steps: &[Step]) {
    expect(
        judge,
        &mut made(rt, path, way).expect(judge, "a device"),
        steps,
    );
}

/// Expects that no device is made of the file.
fn expect_unmade(rt: &HostRuntime, judge: &impl Abort, path: &str, way: Way, fault: FileFault) {
    check!(judge; made(rt, path, way).err() == Some(fault));
}

#[test]
fn a_real_file_keeps_its_sectors(rt: HostRuntime) {
    let path = fresh_path(&rt, &rt, "audit_disk_device");
    let path = path.as_str();
    let written = [
        Step::Size(3),
        Step::Put(2, b'x'),
        Step::Syncs,
        Step::Calls(2),
    ];
    expect_made(&rt, &rt, path, Way::Create(3), &written);
    expect_unmade(&rt, &rt, path, Way::Create(3), FileFault::Io);
    expect_cut(&rt, &rt, path);
    expect_unmade(&rt, &rt, path, Way::Create(u64::MAX), FileFault::Length);
    fs::remove_file(&rt, path).expect(&rt, "a removal");
    expect_unmade(&rt, &rt, path, Way::Open, FileFault::Io);
    expect_unmade(&rt, &rt, "/", Way::Open, FileFault::Io);
}

/// Reads 300 sectors, of which those from `end` on are gone.
fn expect_rows<D: Sectors>(rt: &impl Abort, disk: &mut D, end: u64) {
    for at in 0..300 {
        let there = Step::Found(at, (at % 251) as u8);
        let gone = Step::FindFails(at);
        expect(rt, disk, &[if at < end { there } else { gone }]);
    }
}

// Reads consecutive sectors of a file that is truncated meanwhile. Those before its end are still found.
#[test]
fn a_real_file_is_read_in_rows(rt: HostRuntime) {
    let path = fresh_path(&rt, &rt, "audit_disk_rows");
    let path = path.as_str();
    let mut disk = made(&rt, path, Way::Create(300)).expect(&rt, "a new device");
    for at in 0..300 {
        expect(&rt, &mut disk, &[Step::Put(at, (at % 251) as u8)]);
    }
    expect_rows(&rt, &mut disk, 300);
    expect(&rt, &mut disk, &[Step::Syncs]);
    set_len(&rt, &rt, path, 512 * 200);
    expect_rows(&rt, &mut disk, 200);
    fs::remove_file(&rt, path).expect(&rt, "a removal");
}

/// Opens a file of three sectors, then truncates it to two of them, and to a length that no device has.
fn expect_cut(rt: &HostRuntime, judge: &impl Abort, path: &str) {
    expect_cut_while_open(rt, judge, path);
    set_len(rt, judge, path, 1025);
    expect_unmade(rt, judge, path, Way::Open, FileFault::Length);
    set_len(rt, judge, path, 1024);
    expect_made(rt, judge, path, Way::Open, &[Step::Size(2)]);
}

fn expect_cut_while_open(rt: &HostRuntime, judge: &impl Abort, path: &str) {
    let mut disk = made(rt, path, Way::Open).expect(judge, "a device");
    let kept = [
        Step::Size(3),
        Step::Calls(0),
        Step::Found(2, b'x'),
        Step::Found(1, 0),
    ];
    expect(judge, &mut disk, &kept);
    set_len(rt, judge, path, 1024);
    expect(judge, &mut disk, &[Step::FindFails(2)]);
}

fn set_len(rt: &HostRuntime, judge: &impl Abort, path: &str, len: u64) {
    let file = OpenOptions::new()
        .write(true)
        .open(rt, path)
        .expect(judge, "a file");
    file.set_len(len).expect(judge, "a length");
}

#[test]
fn a_file_that_cant_be_laid_out_leaves_nothing(rt: HostRuntime) {
    let path = fresh_path(&rt, &rt, "audit_disk_too_long");
    let path = path.as_str();
    expect_unmade(&rt, &rt, path, Way::Create(1 << 54), FileFault::Io);
    expect_unmade(&rt, &rt, path, Way::Open, FileFault::Io);
    expect_made(&rt, &rt, path, Way::Create(1), &[Step::Size(1)]);
    fs::remove_file(&rt, path).expect(&rt, "a removal");
}

// A system device that accepts writes but can't be synced.
#[test]
fn after_a_failed_sync_a_file_takes_no_call(rt: HostRuntime) {
    let mut options = OpenOptions::new();
    options.read(true).write(true);
    let file = options.open(&rt, "/dev/null").expect(&rt, "a file");
    let steps = [
        Step::Put(0, b'x'),
        Step::SyncFails,
        Step::PutFails(0, b'x'),
        Step::FindFails(0),
        Step::SyncFails,
        Step::Calls(4),
    ];
    let mut disk = FileDisk::over(rt.alloc(), OsFile::new(file), 1).expect(&rt, "a device");
    expect(&rt, &mut disk, &steps);
}

// Applies only if the file's mode binds the user: a superuser may write every file.
#[test]
fn a_file_that_may_only_be_read_takes_no_write(rt: HostRuntime) {
    let path = fresh_path(&rt, &rt, "audit_disk_read_only");
    let path = path.as_str();
    expect_made(&rt, &rt, path, Way::Create(1), &[]);
    expect_unwritten(&rt, &rt, path);
    expect_opened_as_allowed(&rt, &rt, path);
    fs::remove_file(&rt, path).expect(&rt, "a removal");
}

/// A file opened for reading only.
fn expect_unwritten(rt: &HostRuntime, judge: &impl Abort, path: &str) {
    let file = OpenOptions::new()
        .read(true)
        .open(rt, path)
        .expect(judge, "a file");
    let mut disk = FileDisk::over(rt.alloc(), OsFile::new(file), 1).expect(judge, "a device");
    let steps = [Step::PutFails(0, b'x'), Step::Found(0, 0), Step::Calls(1)];
    expect(judge, &mut disk, &steps);
}

/// A file whose mode allows only reading can be opened as a device only if this user may write it anyway.
fn expect_opened_as_allowed(rt: &HostRuntime, judge: &impl Abort, path: &str) {
    fs::set_permissions(rt, path, fs::Permissions::from_mode(0o444)).expect(judge, "permissions");
    let writable = OpenOptions::new().write(true).open(rt, path).is_ok();
    let fault = if writable { None } else { Some(FileFault::Io) };
    check!(judge; made(rt, path, Way::Open).err() == fault);
}
