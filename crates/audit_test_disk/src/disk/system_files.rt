//! Files as `PositionedFile`: their calls at offsets, their locks and their modes.

ghost use Rattle.audit_disk.specs.Positioned.{unknown_positioned};

use super::{Step, Way, expect, expect_made, expect_unmade, fresh_path, made, set_len};
use audit_disk::{
    FileDisk, FileFault, FileIdentity, MemDisk, MemFile, PositionedFile, SECTOR_SIZE, Sectors,
};
use std::alloc::Global;
use std::fs;
use std::io::{self, ErrorKind};
use std::os::unix::fs::PermissionsExt;
use std::process::Abort;

fn expect_measured(rt: &impl Abort, alloc: Global) {
    let disk = MemDisk::new(alloc, 3).expect(rt, "a device");
    let mut whole = FileDisk::over_whole(alloc, MemFile { disk }).expect(rt, "a device");
    let steps = [
        Step::Size(3),
        Step::Put(2, b'y'),
        Step::Put(1, b'x'),
        Step::Syncs,
        Step::Found(0, 0),
        Step::Found(1, b'x'),
        Step::Found(2, b'y'),
        Step::Calls(3),
    ];
    expect(rt, &mut whole, &steps);
    check!(rt; whole.size() == 3);
    let mut first = whole.with_sectors(2);
    let steps = [Step::Size(2), Step::Found(1, b'x'), Step::Calls(3)];
    expect(rt, &mut first, &steps);
}

fn expect_front(rt: &impl Abort, alloc: Global) {
    let disk = MemDisk::new(alloc, 3).expect(rt, "a device");
    let mut front = FileDisk::over_front(alloc, MemFile { disk }, 2).expect(rt, "a device");
    expect(rt, &mut front, &[Step::Size(2), Step::Put(1, b'x')]);
}

#[test]
fn a_file_in_memory_is_measured_and_keeps_its_sectors(rt: HostRuntime) {
    expect_measured(&rt, rt.alloc());
    expect_front(&rt, rt.alloc());
    let disk = MemDisk::new(rt.alloc(), 3).expect(&rt, "a device");
    let beyond = FileDisk::over_front(rt.alloc(), MemFile { disk }, 4).err();
    check!(&rt; beyond == Some(FileFault::TooSmall { sectors: 3 }));
}

/// A file of zero bytes. Writes, syncs, and reads at offset 1024 or later fail.
#[derive(Drop)]
struct Faulty {
    bytes: u64,
}

impl PositionedFile for Faulty {
    ghost positioned = { λ _. unknown_positioned };

    fn read_exact_at(&mut self, into: &mut [[u8; SECTOR_SIZE]], offset: u64) -> io::Result<()> {
        if offset >= 1024 {
            return Err(io::Error::from(ErrorKind::Other));
        }
        for sector in into.iter_mut() {
            *sector = [0; SECTOR_SIZE];
        }
        Ok(())
    }

    fn write_all_at(&mut self, _row: &[[u8; SECTOR_SIZE]], _offset: u64) -> io::Result<()> {
        Err(io::Error::from(ErrorKind::StorageFull))
    }

    fn sync_data(&mut self) -> io::Result<()> {
        Err(io::Error::from(ErrorKind::Other))
    }

    fn length(&mut self) -> io::Result<u64> {
        Ok(self.bytes)
    }
}

#[test]
fn a_failed_call_of_a_file_is_a_fault_of_its_device(rt: HostRuntime) {
    let mut disk = FileDisk::over_whole(rt.alloc(), Faulty { bytes: 2048 }).expect(&rt, "a device");
    let steps = [
        Step::Size(4),
        Step::Found(1, 0),
        Step::FindFails(2),
        Step::FindFails(3),
        Step::PutFails(0, b'x'),
        Step::Found(0, 0),
        Step::SyncFails,
        Step::FindFails(0),
        Step::Calls(2),
    ];
    expect(&rt, &mut disk, &steps);
    let ragged = FileDisk::over_whole(rt.alloc(), Faulty { bytes: 2049 }).err();
    check!(&rt; ragged == Some(FileFault::Length));
}

// How the file is held, and the fault of opening it only to be read meanwhile. The other ways find it in use.
#[test]
fn one_device_at_a_time_may_write_a_file(rt: HostRuntime) {
    let path = fresh_path(&rt, &rt, "audit_disk_lock");
    let path = path.as_str();
    let in_use = Some(FileFault::InUse);
    for (holder, reader) in [
        (Way::Create(2), in_use),
        (Way::Open, in_use),
        (Way::InPlace(1), in_use),
        (Way::ReadOnly, None),
    ] {
        expect_shut_out(&rt, &rt, path, holder, reader);
    }
    expect_made(&rt, &rt, path, Way::Open, &[]);
    fs::remove_file(&rt, path).expect(&rt, "a removal");
}

/// Opens the file while a device that was made of it in this way holds it.
fn expect_shut_out(
    rt: &HostRuntime,
    judge: &impl Abort,
    path: &str,
    holder: Way,
    reader: Option<FileFault>,
) {
    let in_use = Some(FileFault::InUse);
    let holder = made(rt, path, holder).expect(judge, "a device");
    let others = [
        (Way::Open, in_use),
        (Way::InPlace(1), in_use),
        (Way::ReadOnly, reader),
    ];
    for (place, (way, fault)) in others.iter().enumerate() {
        check!(judge; made(rt, path, *way).err() == *fault, place);
    }
    drop(holder);
}

#[test]
fn a_new_file_has_its_mode(rt: HostRuntime) {
    let path = fresh_path(&rt, &rt, "audit_disk_mode");
    let path = path.as_str();
    for mode in [0o600, 0o640, 0o666] {
        expect_mode(&rt, &rt, path, mode);
    }
    expect_identity(&rt, &rt, path);
    fs::remove_file(&rt, path).expect(&rt, "a removal");
}

/// Makes a file with the usual mode.
fn expect_identity(rt: &HostRuntime, judge: &impl Abort, path: &str) {
    let disk = made(rt, path, Way::Create(1)).expect(judge, "a new device");
    check!(judge; mode_of(rt, judge, path) == 0o600);
    let identity = disk.identity().expect(judge, "its identity");
    check!(judge; identity == identity_of(rt, judge, path));
    check!(judge; identity != identity_of(rt, judge, "/"));
}

fn mode_of(rt: &HostRuntime, judge: &impl Abort, path: &str) -> u32 {
    let metadata = fs::metadata(rt, path).expect(judge, "its metadata");
    metadata.permissions().mode() % 0o1000
}

fn identity_of(rt: &HostRuntime, judge: &impl Abort, path: &str) -> FileIdentity {
    FileIdentity::of(&fs::metadata(rt, path).expect(judge, "its metadata"))
}

/// Makes a file with this mode, and removes it.
fn expect_mode(rt: &HostRuntime, judge: &impl Abort, path: &str, mode: u32) {
    let disk = FileDisk::create_with_mode(rt, rt.alloc(), path, 1, mode);
    drop(disk.expect(judge, "a new device"));
    check!(judge; mode_of(rt, judge, path) == mode);
    fs::remove_file(rt, path).expect(judge, "a removal");
}

#[test]
fn a_file_is_opened_in_place_and_only_to_be_read(rt: HostRuntime) {
    let path = fresh_path(&rt, &rt, "audit_disk_place");
    let path = path.as_str();
    expect_made(&rt, &rt, path, Way::Create(3), &[]);
    set_len(&rt, &rt, path, 1700);
    expect_placed(&rt, &rt, path);
    let metadata = fs::metadata(&rt, path).expect(&rt, "its metadata");
    check!(&rt; metadata.len() == 1700);
    set_len(&rt, &rt, path, 1536);
    expect_only_read(&rt, &rt, path);
    expect_unmade(&rt, &rt, path, Way::ReadOnly, FileFault::Io);
    expect_unmade(&rt, &rt, "/", Way::ReadOnly, FileFault::Io);
}

fn expect_placed(rt: &HostRuntime, judge: &impl Abort, path: &str) {
    let beyond = FileFault::TooSmall { sectors: 3 };
    expect_unmade(rt, judge, path, Way::InPlace(4), beyond);
    let steps = [Step::Size(2), Step::Put(1, b'x'), Step::Syncs];
    expect_made(rt, judge, path, Way::InPlace(2), &steps);
}

/// The file is removed while the device is there.
fn expect_only_read(rt: &HostRuntime, judge: &impl Abort, path: &str) {
    let mut reading = made(rt, path, Way::ReadOnly).expect(judge, "a device");
    let steps = [
        Step::Size(3),
        Step::Found(1, b'x'),
        Step::PutFails(1, b'y'),
        Step::Found(1, b'x'),
    ];
    expect(judge, &mut reading, &steps);
    fs::remove_file(rt, path).expect(judge, "a removal");
}
