//! Devices in files of the operating system.
//!
//! Each device holds a lock on its file from before the first read or write until the device is dropped. A device that
//! may write holds an exclusive lock. For a block device further locks are held, which whoever opens it by another node
//! finds (see `guards`).
ghost use Rattle.std.specs.Prelude.{◌≡◌, ◌≢◌, ◌⊎◌, ◌*◌, ◌/◌, ◌%◌, ◌^◌, ◌<◌, ◌≤◌, ◌↔◌};
ghost use Rattle.std.specs.Prelude.{ℕ, List, IfOk, IfErr, OnOk, OnErr, IsErrOf, replicate, length};
ghost use Rattle.audit_base.specs.declared.limits.TheConstants.{SECTOR_SIZE};
ghost use Rattle.audit_disk.specs.FileDisk.{IsFreshFile, file_disk_view};
ghost use Rattle.audit_disk.specs.FileFacts.{IsOpenedAs, IsFrontOfOpened, IsWholeOpened, IsMadeDevice, KeepsPlace};
ghost use Rattle.audit_disk.specs.FileFacts.{IsLaidOut};
ghost use Rattle.audit_disk.specs.FileFaults.{IsLockingFault, IsMakingFault};
ghost use Rattle.audit_disk.specs.FileFaults.{IsMeasuringFault, IsFrontFault, IsOpeningFault, IsFrontOpeningFault};
ghost use Rattle.audit_disk.specs.Folder.{folder_of};
ghost use Rattle.audit_disk.specs.MemDisk.{IsFresh};
ghost use Rattle.audit_disk.specs.declared.guards.Hold.TheVariants.{Alone, Shared};
ghost use Rattle.audit_disk.specs.Positioned.{ShowsFront, IsUncalled};

use crate::guards::{Guards, Hold};
use crate::kept_row::KeptRow;
use crate::os_file::OsFile;
use crate::read_ahead::new_row;
use crate::{
    FileDisk, FileFault, FileIdentity, MemDisk, MemFile, PositionedFile, SECTOR_SIZE, SystemFile,
    SystemFiles,
};
use std::alloc::{AllocError, Global};
use std::path::Path;
use std::{fs, io};

/// The permissions of a file that only its owner may read and write.
pub const OWNER_ONLY: u32 = 0o600;

impl<F: SystemFile> FileDisk<OsFile<F>> {
    /// Creates a file of `sectors` zero sectors and locks it. From the start only its owner can open it (0600),
    /// whatever the umask is. An existing file isn't overwritten: that is a fault. A file that can't be locked, given
    /// its length or synced is removed again, if the system allows it. If memory is refused, no file is made.
    pub fn create<R: SystemFiles<File = F>>(
        rt: &R,
        alloc: Global,
        path: &str,
        sectors: u64,
    ) -> Result<FileDisk<OsFile<F>>, FileFault>
        ensures size { IfOk result (λ disk. (file_disk_view disk).size ≡ sectors) }
        ensures fresh { IfOk result IsFreshFile }
        ensures made { IfOk result (λ disk. IsMadeDevice F.facts F.positioned
            path.now OWNER_ONLY sectors (file_disk_view disk)) }
        ensures named { OnOk result (R.synced rt.now (folder_of path.now)) }
        ensures length { IsErrOf result FileFault.Length ↔ (2 ^ 64 ≤ SECTOR_SIZE * sectors) }
        ensures fault { IfErr result (IsMakingFault F.facts (R.failed rt.now) path.now) }
    {
        FileDisk::create_with_mode(rt, alloc, path, sectors, OWNER_ONLY)
    }

    /// Creates a file as `create` does, with the permission bits `mode`, for example `0o640`. The file is created for
    /// its owner only, and then given its mode. If the mode can't be set, that is a fault and the file is removed.
    pub fn create_with_mode<R: SystemFiles<File = F>>(
        rt: &R,
        alloc: Global,
        path: &str,
        sectors: u64,
        mode: u32,
    ) -> Result<FileDisk<OsFile<F>>, FileFault>
        ensures size { IfOk result (λ disk. (file_disk_view disk).size ≡ sectors) }
        ensures fresh { IfOk result IsFreshFile }
        ensures made { IfOk result (λ disk. IsMadeDevice F.facts F.positioned
            path.now mode sectors (file_disk_view disk)) }
        ensures named { OnOk result (R.synced rt.now (folder_of path.now)) }
        ensures length { IsErrOf result FileFault.Length ↔ (2 ^ 64 ≤ SECTOR_SIZE * sectors) }
        ensures fault { IfErr result (IsMakingFault F.facts (R.failed rt.now) path.now) }
    {
        let Some(length) = sectors.checked_mul(SECTOR_SIZE as u64) else {
            return Err(FileFault::Length);
        };
        let row = new_row(alloc)?;
        let kept = KeptRow::new(alloc)?;
        let mut file = rt.make_file(path, OWNER_ONLY)?;
        if let Err(fault) = take_and_lay_out(rt, &mut file, path, length, mode) {
            let _ = fs::remove_file(rt, path);
            return Err(fault);
        }
        Ok(FileDisk::with_rows(OsFile::new(file), sectors, row, kept))
    }

    /// Opens a file or a block device as a device. Its length must be a multiple of 512.
    pub fn open<R: SystemFiles<File = F>>(
        rt: &R,
        alloc: Global,
        path: &str,
    ) -> Result<FileDisk<OsFile<F>>, FileFault>
        ensures fresh { IfOk result IsFreshFile }
        ensures opened { IfOk result (λ disk. IsWholeOpened F.facts F.positioned
            Alone path.now (file_disk_view disk)) }
        ensures fault { IfErr result (IsOpeningFault F.facts F.positioned (R.failed rt.now) Alone path.now) }
    {
        FileDisk::over_whole_of(alloc, open_locked(rt, alloc, path, Hold::Alone)?)
    }

    /// Opens a file or a block device of at least `sectors` whole sectors, as a device of the first `sectors` of them.
    /// Its length isn't changed. If it has fewer sectors the fault is `TooSmall`.
    pub fn open_in_place<R: SystemFiles<File = F>>(
        rt: &R,
        alloc: Global,
        path: &str,
        sectors: u64,
    ) -> Result<FileDisk<OsFile<F>>, FileFault>
        ensures size { IfOk result (λ disk. (file_disk_view disk).size ≡ sectors) }
        ensures fresh { IfOk result IsFreshFile }
        ensures opened { IfOk result (λ disk. IsFrontOfOpened F.facts F.positioned
            Alone path.now (file_disk_view disk)) }
        ensures small { IfErr result (λ fault. (held : _) → fault ≡ FileFault.TooSmall held → held < sectors) }
        ensures fault { IfErr result (IsFrontOpeningFault F.facts F.positioned (R.failed rt.now) Alone path.now
            sectors) }
    {
        FileDisk::over_front_of(alloc, open_locked(rt, alloc, path, Hold::Alone)?, sectors)
    }

    /// Opens a file or a block device for reading only, so each write of the device fails. Others may have the file
    /// open for reading at the same time, but not for writing.
    pub fn open_read_only<R: SystemFiles<File = F>>(
        rt: &R,
        alloc: Global,
        path: &str,
    ) -> Result<FileDisk<OsFile<F>>, FileFault>
        ensures fresh { IfOk result IsFreshFile }
        ensures opened { IfOk result (λ disk. IsWholeOpened F.facts F.positioned
            Shared path.now (file_disk_view disk)) }
        ensures fault { IfErr result (IsOpeningFault F.facts F.positioned (R.failed rt.now) Shared path.now) }
    {
        FileDisk::over_whole_of(alloc, open_locked(rt, alloc, path, Hold::Shared)?)
    }

    /// Returns the identity of the device's file, from the metadata of the open file.
    pub fn identity(&self) -> io::Result<FileIdentity> {
        self.file().identity()
    }
}

impl<F: PositionedFile + Drop> FileDisk<OsFile<F>> {
    /// Makes a device over all of an open file, whose length must be a multiple of 512.
    pub fn over_whole(alloc: Global, file: F) -> Result<FileDisk<OsFile<F>>, FileFault>
        requires { IsUncalled (F.positioned file) }
        ensures fresh { IfOk result IsFreshFile }
        ensures front { IfOk result (λ disk. ShowsFront (F.positioned file) (file_disk_view disk)) }
        ensures whole { (F.positioned file).honest → IfOk result (λ disk.
            length (F.positioned file).bytes ≡ SECTOR_SIZE * (file_disk_view disk).size) }
        ensures length { (F.positioned file).honest → IsErrOf result FileFault.Length
            → length (F.positioned file).bytes % SECTOR_SIZE ≢ 0 }
        ensures fault { IfErr result (IsMeasuringFault F.positioned file) }
    {
        FileDisk::over_whole_of(alloc, Locked { file, guards: None })
    }

    // The same for a file that was locked.
    fn over_whole_of(alloc: Global, locked: Locked<F>) -> Result<FileDisk<OsFile<F>>, FileFault>
        requires { IsUncalled (F.positioned locked.file) }
        ensures fresh { IfOk result IsFreshFile }
        ensures front { IfOk result (λ disk. ShowsFront (F.positioned locked.file) (file_disk_view disk)) }
        ensures whole { (F.positioned locked.file).honest → IfOk result (λ disk.
            length (F.positioned locked.file).bytes ≡ SECTOR_SIZE * (file_disk_view disk).size) }
        ensures length { (F.positioned locked.file).honest → IsErrOf result FileFault.Length
            → length (F.positioned locked.file).bytes % SECTOR_SIZE ≢ 0 }
        ensures fault { IfErr result (IsMeasuringFault F.positioned locked.file) }
    {
        let Locked { mut file, guards } = locked;
        let sectors = whole_sectors(file.length()?)?;
        Ok(FileDisk::over(alloc, OsFile::guarded(file, guards), sectors)?)
    }

    /// Makes a device over the first `sectors` sectors of an open file, which must have that many whole sectors.
    pub fn over_front(
        alloc: Global,
        file: F,
        sectors: u64,
    ) -> Result<FileDisk<OsFile<F>>, FileFault>
        requires { IsUncalled (F.positioned file) }
        ensures size { IfOk result (λ disk. (file_disk_view disk).size ≡ sectors) }
        ensures fresh { IfOk result IsFreshFile }
        ensures front { IfOk result (λ disk. ShowsFront (F.positioned file) (file_disk_view disk)) }
        ensures small { IfErr result (λ fault. (held : _) → fault ≡ FileFault.TooSmall held → held < sectors) }
        ensures held { (F.positioned file).honest → IfErr result (λ fault. (held : _)
            → fault ≡ FileFault.TooSmall held → held ≡ length (F.positioned file).bytes / SECTOR_SIZE) }
        ensures fault { IfErr result (IsFrontFault F.positioned file sectors) }
    {
        FileDisk::over_front_of(alloc, Locked { file, guards: None }, sectors)
    }

    // The same for a file that was locked.
    fn over_front_of(
        alloc: Global,
        locked: Locked<F>,
        sectors: u64,
    ) -> Result<FileDisk<OsFile<F>>, FileFault>
        requires { IsUncalled (F.positioned locked.file) }
        ensures size { IfOk result (λ disk. (file_disk_view disk).size ≡ sectors) }
        ensures fresh { IfOk result IsFreshFile }
        ensures front { IfOk result (λ disk. ShowsFront (F.positioned locked.file) (file_disk_view disk)) }
        ensures small { IfErr result (λ fault. (held : _) → fault ≡ FileFault.TooSmall held → held < sectors) }
        ensures held { (F.positioned locked.file).honest → IfErr result (λ fault. (held : _)
            → fault ≡ FileFault.TooSmall held → held ≡ length (F.positioned locked.file).bytes / SECTOR_SIZE) }
        ensures fault { IfErr result (IsFrontFault F.positioned locked.file sectors) }
    {
        let Locked { mut file, guards } = locked;
        let held = file.length()? / SECTOR_SIZE as u64;
        if held < sectors {
            return Err(FileFault::TooSmall { sectors: held });
        }
        Ok(FileDisk::over(alloc, OsFile::guarded(file, guards), sectors)?)
    }
}

impl FileDisk<MemFile> {
    /// Makes a device of `sectors` zero sectors in a file in memory, for tests. It is honest.
    pub fn in_memory(alloc: Global, sectors: u64) -> Result<FileDisk<MemFile>, AllocError>
        requires { SECTOR_SIZE * sectors < 2 ^ 64 }

        ensures { IfOk result (λ disk. IsFresh (file_disk_view disk) (replicate sectors (replicate SECTOR_SIZE 0))) }
    {
        let disk = MemDisk::new(alloc, sectors)?;
        let row = new_row(alloc)?;
        let kept = KeptRow::new(alloc)?;
        Ok(FileDisk::with_rows(MemFile { disk }, sectors, row, kept))
    }
}

/// Returns how many sectors a file of this length has. The length must be a multiple of 512.
fn whole_sectors(length: u64) -> Result<u64, FileFault>
    ensures sectors { IfOk result (λ sectors. length ≡ SECTOR_SIZE * sectors) }
    ensures length { IsErrOf result FileFault.Length ↔ (length % SECTOR_SIZE ≢ 0) }
    ensures fault { IfErr result (λ fault. fault ≡ FileFault.Length) }
{
    if length % SECTOR_SIZE as u64 != 0 {
        return Err(FileFault::Length);
    }
    Ok(length / SECTOR_SIZE as u64)
}

/// An open file, and the locks on its storage besides its own.
#[derive(Drop)]
struct Locked<F> {
    file: F,
    guards: Option<Guards<F>>,
}

/// Opens an existing file or block device and locks it: for reading and writing if the lock is held alone, else for
/// reading. A pipe, a terminal or a socket is a fault, and isn't opened, since that might wait.
fn open_locked<R: SystemFiles<File = F>, F: SystemFile>(
    rt: &R,
    alloc: Global,
    path: &str,
    hold: Hold,
) -> Result<Locked<F>, FileFault>
    ensures opened { IfOk result (λ locked. IsOpenedAs hold path.now (F.facts locked.file)) }
    ensures uncalled { IfOk result (λ locked. IsUncalled (F.positioned locked.file)) }
    ensures fault { IfErr result (IsLockingFault F.facts (R.failed rt.now)) }
{
    let found = rt.look(path)?;
    rt.judge(&found, hold == Hold::Alone)?;
    let guards = Guards::of(rt, alloc, &found, hold)?;
    let file = match hold {
        Hold::Alone => rt.open_to_write(path)?,
        Hold::Shared => rt.open_to_read(path)?,
    };
    hold.take(&file)?;
    file.is_same(&found)?;
    Ok(Locked {
        file,
        guards: Some(guards),
    })
}

/// Locks a new file, sets its mode and length, and syncs the file and its name.
fn take_and_lay_out<R: SystemFiles<File = F>, F: SystemFile>(
    rt: &R,
    file: &mut F,
    path: &str,
    length: u64,
    mode: u32,
) -> Result<(), FileFault>
    requires made { (F.facts file.old).mode OWNER_ONLY }
    ensures locked { OnOk result (F.facts file.new).locked }
    ensures mode { OnOk result ((F.facts file.new).mode mode) }
    ensures laid_out { OnOk result ((F.facts file.new).laid_out length) }
    ensures kept { KeepsPlace (F.facts file.old) (F.facts file.new) }
    ensures bytes { OnOk result (IsLaidOut (F.positioned file.old) (F.positioned file.new) length result) }
    ensures named { OnOk result (R.synced rt.now (folder_of path.now)) }
    ensures fault { IfErr result (λ fault. ((fault ≡ FileFault.Io) × R.failed rt.now)
        ⊎ (((fault ≡ FileFault.Io) ⊎ (fault ≡ FileFault.InUse)) × (F.facts file.new).failed)) }
{
    file.try_lock()?;
    if mode != OWNER_ONLY {
        file.set_mode(mode)?;
    }
    file.lay_out(length)?;
    sync_name(rt, path)?;
    Ok(())
}

/// Syncs the name of a file, if its folder can be opened.
fn sync_name<R: SystemFiles>(rt: &R, path: &str) -> io::Result<()>
where
    R::File: SystemFile,
    ensures synced { OnOk result (R.synced rt.now (folder_of path.now)) }
    ensures failed { OnErr result (R.failed rt.now) }
{
    rt.sync_folder(folder_of(path))
}

/// Returns the folder that has the name of what is at a path.
fn folder_of(path: &str) -> &str
    ensures { result.now ≡ folder_of path.now }
{
    match Path::new(path).parent() {
        Some(folder) if !folder.as_str().is_empty() => folder.as_str(),
        _ => ".",
    }
}
