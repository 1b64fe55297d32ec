//! Stores in files.
ghost use Rattle.std.specs.Prelude.{◌≡◌, ◌≤◌, ℕ, List, true, false, Ok, Err, IfOk, IfErr, OnOk, IsTrue};
ghost use Rattle.audit_cli_base.specs.Blank.{IsBlankUpTo};
ghost use Rattle.audit_cli_base.specs.Faults.{IsNoWordFault, of_extending};
ghost use Rattle.audit_cli_base.specs.OpenedStore.{IsStoreOn, IsStoreAt, IsDeviceAt, IsReadDeviceAt};
ghost use Rattle.audit_cli_base.specs.OpenedStore.{IsExtendingFault};
ghost use Rattle.audit_disk.specs.FileDisk.{file_disk_view};
ghost use Rattle.audit_disk.specs.FileFacts.{IsMadeDevice};
ghost use Rattle.audit_disk.specs.Positioned.{IsUncalled, ShowsFront};
ghost use Rattle.audit_log.specs.Reads.{OnlyReads};
ghost use Rattle.audit_store.specs.Extending.{ExtendsCommitment, ExtendsGiven};
ghost use Rattle.audit_store.specs.ReadOnlyOpening.{at_rest};
ghost use Rattle.audit_store.specs.Store.{index_of};

use crate::fault::CommandError;
use crate::system_use::is_used_by_system;
use audit_base::are_zero;
use audit_disk::{
    FileDisk, FileFault, FileIdentity, OsFile, ReadOnly, SECTOR_SIZE, SectorSource, SystemFile,
    SystemFiles,
};
use audit_disk_model::{DeviceFault, Sectors};
use audit_log::MAX_SECTORS;
use audit_proof::Commitment;
use audit_store::{ExtendingError, Store, StoreError};
use std::alloc::Global;
use std::fs::{self, OpenFile};

/// How many sectors of a device are looked at before it is formatted: 1 MiB. File systems, partition tables and other
/// formats have their marks there.
const FRONT: u64 = 2048;

/// A store in an open file.
pub type FileStore<F> = Store<FileDisk<OsFile<F>>>;

/// A device in an open file.
pub type FileDevice<F> = FileDisk<OsFile<F>>;

/// What was opened, and its file's identity.
#[derive(Drop)]
pub struct Opened<S> {
    /// The store, or the device.
    pub content: S,
    /// The identity of the file, whatever its path names by now.
    pub identity: FileIdentity,
}

/// Opens the store in a file. Opening may write to the file, to repair what a crash left unfinished. While the store
/// is open no other program can open it. If another program has it open, the error is `InUse`, and nothing is read or
/// written.
pub fn open_store<F: SystemFiles>(
    rt: &F,
    alloc: Global,
    file: &str,
) -> Result<Opened<FileStore<F::File>>, CommandError>
where
    F::File: SystemFile,
    ensures cause { IfErr result IsNoWordFault }
    ensures at { IfOk result (λ opened. IsStoreAt F.File.facts F.File.positioned file.now opened.content) }
{
    let opened = repaired(alloc, open_bounded(rt, alloc, file)?)?;
    opened.content.wipe_stack();
    Ok(opened)
}

// Opens the store on a device. It is generic over the device, so that its proof needn't follow the release of a file's
// device at each way out. It isn't inlined, so that the copies of the key that it leaves on the stack are below its
// caller, which overwrites them.
#[inline(never)]
fn repaired<D: Sectors + Drop>(
    alloc: Global,
    opened: Opened<D>,
) -> Result<Opened<Store<D>>, CommandError>
    ensures cause { IfErr result IsNoWordFault }
    ensures on { IfOk result (λ store. IsStoreOn (D.view opened.content) store.content) }
{
    let Opened { content, identity } = opened;
    match Store::open(alloc, content) {
        Ok(store) => Ok(Opened {
            content: store,
            identity,
        }),
        Err(failed) => Err(CommandError::Refused(failed.error)),
    }
}

/// Opens the store in a file as [`open_store`] does, if its log extends the older commitment where one is given. If it
/// doesn't, the error is `OtherLog`: the file was read, and nothing was written.
pub fn open_store_extending<F: SystemFiles>(
    rt: &F,
    alloc: Global,
    file: &str,
    older: Option<Commitment>,
) -> Result<Opened<FileStore<F::File>>, CommandError>
where
    F::File: SystemFile,
    ensures cause { IfErr result IsNoWordFault }
    ensures at { IfOk result (λ opened. IsStoreAt F.File.facts F.File.positioned file.now opened.content) }
    ensures extends { IfOk result (λ opened. ExtendsGiven older (index_of opened.content).leaves) }
{
    let Some(older) = older else {
        return open_store(rt, alloc, file);
    };
    let opened = extending(alloc, open_bounded(rt, alloc, file)?, older)?;
    opened.content.wipe_stack();
    Ok(opened)
}

// Opens the store on a device if its log extends a commitment. It is no part of its caller for the reasons of
// `repaired`.
#[inline(never)]
fn extending<D: Sectors + Drop>(
    alloc: Global,
    opened: Opened<D>,
    older: Commitment,
) -> Result<Opened<Store<D>>, CommandError>
    ensures cause { IfErr result IsNoWordFault }
    ensures on { IfOk result (λ store. IsStoreOn (D.view opened.content) store.content) }
    ensures extends { IfOk result (λ store. ExtendsCommitment older (index_of store.content).leaves) }
    ensures fault { IfErr result (IsExtendingFault older (D.view opened.content)) }
{
    let Opened { content, identity } = opened;
    match Store::open_extending(alloc, content, older) {
        Ok(store) => Ok(Opened {
            content: store,
            identity,
        }),
        Err(failed) => Err(fault_of(older, failed.error)),
    }
}

fn fault_of(held: Commitment, error: ExtendingError) -> CommandError
    ensures fault { result ≡ of_extending held error }
    ensures cause { IsNoWordFault result }
{
    match error {
        ExtendingError::Refused(error) => CommandError::Refused(error),
        ExtendingError::OtherLog(own) => CommandError::OtherLog { held, own },
    }
}

/// Opens a file as a device that is only read, without permission to write. Other programs may read it meanwhile, but
/// none can change it. If another program has it open for writing, the error is `InUse`.
pub fn open_device_to_read<F: SystemFiles>(
    rt: &F,
    alloc: Global,
    file: &str,
) -> Result<Opened<FileDevice<F::File>>, CommandError>
where
    F::File: SystemFile,
    ensures cause { IfErr result IsNoWordFault }
    ensures at { IfOk result (λ opened. IsReadDeviceAt F.File.facts F.File.positioned file.now
        (file_disk_view opened.content)) }
{
    identified(FileDisk::open_read_only(rt, alloc, file)?)
}

/// Opens a file as `open_device_to_read` does, for the entries of a damaged store. Of a regular file whose length is no
/// whole number of sectors the rest after the last whole one is left out.
pub fn open_device_to_salvage<F: SystemFiles>(
    rt: &F,
    alloc: Global,
    file: &str,
) -> Result<Opened<FileDevice<F::File>>, CommandError>
where
    F::File: SystemFile,
    ensures cause { IfErr result IsNoWordFault }
    ensures at { IfOk result (λ opened. IsReadDeviceAt F.File.facts F.File.positioned file.now
        (file_disk_view opened.content)) }
{
    let found = fs::metadata(rt, file)?;
    if !found.is_file() || found.len() % SECTOR_SIZE as u64 == 0 {
        return open_device_to_read(rt, alloc, file);
    }
    whole_sectors_of(alloc, rt.open_to_read(file)?)
}

// A device of the whole sectors of an open file, which is locked as one that is only read.
fn whole_sectors_of<F: SystemFile + Drop>(
    alloc: Global,
    file: F,
) -> Result<Opened<FileDevice<F>>, CommandError>
    requires { IsUncalled (F.positioned file) }
    ensures cause { IfErr result IsNoWordFault }
    ensures at { (path : List ℕ) → (F.facts file).opened_to_read path
        → IfOk result (λ opened. IsReadDeviceAt F.facts F.positioned path (file_disk_view opened.content)) }
{
    lock_to_read(&file)?;
    let found = file.metadata()?;
    if !found.is_file() {
        return Err(CommandError::File);
    }
    let sectors = found.len() / SECTOR_SIZE as u64;
    identified(FileDisk::over_front(alloc, file, sectors)?)
}

// Locks a file against whoever writes it.
fn lock_to_read<F: SystemFile>(file: &F) -> Result<(), FileFault>
    ensures { OnOk result (F.facts file.now).locked_shared }
{
    file.try_lock_shared()?;
    Ok(())
}

/// Opens the store on a device that is only read. Repairs are made only in memory.
pub fn store_to_read<S: SectorSource>(
    alloc: Global,
    source: &mut S,
) -> Result<Store<ReadOnly<'_, S>>, CommandError>
    ensures cause { IfErr result IsNoWordFault }
    ensures on { IfOk result (IsStoreOn (at_rest (S.source source.old))) }
{
    match Store::open_read_only(alloc, source) {
        Ok(store) => Ok(store),
        Err(failed) => Err(CommandError::Refused(failed.error)),
    }
}

/// Makes a file of `sectors` zero sectors as a device, with these permissions. If something already exists there, the
/// error is `FileExists`, and it is neither changed nor opened.
pub fn make_device<F: SystemFiles>(
    rt: &F,
    alloc: Global,
    file: &str,
    sectors: u64,
    mode: u32,
) -> Result<FileDevice<F::File>, CommandError>
where
    F::File: SystemFile,
    ensures cause { IfErr result IsNoWordFault }
    ensures made { IfOk result (λ disk. IsMadeDevice F.File.facts F.File.positioned file.now mode sectors
        (file_disk_view disk)) }
    ensures size { IfOk result (λ disk. (file_disk_view disk).size ≡ sectors) }
{
    if fs::metadata(rt, file).is_ok() {
        return Err(CommandError::FileExists);
    }
    Ok(FileDisk::create_with_mode(rt, alloc, file, sectors, mode)?)
}

/// Opens all of an existing file or block device as a device to be formatted. Errors: `InUse` if another program has it
/// open as a store, or the system uses it; `TooSmall` if it has fewer than `sectors` sectors; `FileExists` if its first
/// MiB, or all of a shorter one, isn't zeros, unless `erase` is set.
pub fn device_in_place<F: SystemFiles>(
    rt: &F,
    alloc: Global,
    file: &str,
    sectors: u64,
    erase: bool,
) -> Result<FileDevice<F::File>, CommandError>
where
    F::File: SystemFile,
    ensures cause { IfErr result IsNoWordFault }
    ensures at { IfOk result (λ disk. IsDeviceAt F.File.facts F.File.positioned file.now (file_disk_view disk)) }
    ensures size { IfOk result (λ disk. sectors ≤ (file_disk_view disk).size) }
    ensures blank { erase ≡ false → IfOk result (λ disk. (file_disk_view disk).honest
        → IsBlankUpTo (file_disk_view disk) FRONT) }
{
    let Opened { content, identity } = open_bounded(rt, alloc, file)?;
    let used = is_used_by_system(rt, alloc, identity);
    free_device(content, used, sectors, erase)
}

// Returns a device if a store may be made on it.
fn free_device<D: Sectors + Drop>(
    mut disk: D,
    used: Result<bool, CommandError>,
    sectors: u64,
    erase: bool,
) -> Result<D, CommandError>
    ensures cause { IfErr used IsNoWordFault → IfErr result IsNoWordFault }
    ensures blank { erase ≡ false → (D.view disk).honest → IfOk result (λ _. IsBlankUpTo (D.view disk) FRONT) }
    ensures used { used ≡ Ok true → result ≡ Err CommandError.InUse }
    ensures reads { IfOk result (λ free. OnlyReads (D.view disk) (D.view free)) }
    ensures size { IfOk result (λ free. sectors ≤ (D.view free).size) }
{
    if used? {
        return Err(CommandError::InUse);
    }
    let size = disk.size();
    if size < sectors {
        return Err(CommandError::TooSmall { sectors: size });
    }
    if !erase && !is_blank(&mut disk)? {
        return Err(CommandError::FileExists);
    }
    Ok(disk)
}

// Opens a file as a device, limited to the sectors that a store can have.
fn open_bounded<F: SystemFiles>(
    rt: &F,
    alloc: Global,
    file: &str,
) -> Result<Opened<FileDevice<F::File>>, CommandError>
where
    F::File: SystemFile,
    ensures cause { IfErr result IsNoWordFault }
    ensures at { IfOk result (λ opened. IsDeviceAt F.File.facts F.File.positioned file.now
        (file_disk_view opened.content)) }
{
    identified(FileDisk::open(rt, alloc, file)?)
}

// A device with the identity of its file, limited to the sectors that a store can have.
fn identified<F: SystemFile>(disk: FileDevice<F>) -> Result<Opened<FileDevice<F>>, CommandError>
    ensures cause { IfErr result IsNoWordFault }
    ensures front { (file : _) → ShowsFront (F.positioned file) (file_disk_view disk)
        → IfOk result (λ opened. ShowsFront (F.positioned file) (file_disk_view opened.content)) }
{
    let identity = disk.identity()?;
    Ok(Opened {
        content: bounded(disk, identity),
        identity,
    })
}

// A block device may have more sectors than a store: the store then uses the first ones. A file has the size that it
// was made with.
fn bounded<F: SystemFile>(disk: FileDevice<F>, identity: FileIdentity) -> FileDevice<F>
    ensures { (file : _) → ShowsFront (F.positioned file) (file_disk_view disk)
        → ShowsFront (F.positioned file) (file_disk_view result) }
{
    let is_block = matches!(identity, FileIdentity::Block { .. });
    if is_block && disk.size() > MAX_SECTORS {
        disk.with_sectors(MAX_SECTORS)
    } else {
        disk
    }
}

// Whether the front of a device is zeros.
fn is_blank<D: Sectors>(disk: &mut D) -> Result<bool, DeviceFault>
    ensures blank { (D.view disk.old).honest
        → IfOk result (λ blank. IsTrue blank → IsBlankUpTo (D.view disk.old) FRONT) }
    ensures reads { OnlyReads (D.view disk.old) (D.view disk.new) }
{
    let mut sector = [0; SECTOR_SIZE];
    for at in 0..FRONT {
        if at >= disk.size() {
            return Ok(true);
        }
        disk.read(at, &mut sector)?;
        if !are_zero(&sector) {
            return Ok(false);
        }
    }
    Ok(true)
}
