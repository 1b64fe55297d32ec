ghost use Rattle.std.specs.Prelude.{◌≡◌, ◌+◌, ◌-◌, ◌*◌, ◌^◌, ◌<◌, ◌≤◌, length, unwrap_or};
ghost use Rattle.std.specs.Prelude.{true, Option, None};
ghost use Rattle.std.specs.Option.{is_some};
ghost use Rattle.audit_base.specs.declared.limits.TheConstants.{SECTOR_SIZE};
ghost use Rattle.audit_disk.specs.File.{IsUnusedFile};

use crate::counting::counted;
use crate::kept_row::KeptRow;
use crate::read_ahead::{ROW_SECTORS, ReadAhead, new_row};
use crate::{DeviceFault, SECTOR_SIZE, SectorFile, Sectors};
use std::alloc::{AllocError, Global};

/// Where the clock ends once each write is made by itself: the file then has counted at most a row's sectors twice.
const LAST_SINGLE: u64 = u64::MAX - ROW_SECTORS as u64;

/// A device in a file: sector k is at offset k * 512. It is honest if the file is. It reads ahead: a read that
/// continues where the last one ended reads a row of sectors, and any other call drops the row.
///
/// Consecutive writes are kept, and handed to the file as one row of up to 64 KiB: before a sync, before a read of a
/// sector that is kept, before a write elsewhere, and when the row is full. Sectors 0 and 1, a store's headers, are
/// written at once. A row that fails is written again sector by sector, and from then on every write is made by itself
/// and returns the file's result. A kept write is Ok before the file has it, so its failure is returned by the call
/// that hands over the row. Dropping the device loses what it keeps: no sync has confirmed it.
///
/// After a failed sync, and after a row that failed sector by sector too, every call fails, is counted, and doesn't
/// reach the file: the operating system may have dropped what was written, and let the next sync succeed.
#[derive(Drop)]
pub struct FileDisk<F: SectorFile> {
    file: ReadAhead<F>,
    sectors: u64,
    clock: u64,
    failures: u64,
    /// The clock after the first failed sync, or before the call whose row failed.
    failed_at: Option<u64>,
    /// What the file doesn't have yet; after a row that failed, that row.
    kept: KeptRow,
    /// The clock at which a row had failed and was written sector by sector.
    single_from: Option<u64>,
    ghost fits: { SECTOR_SIZE * sectors < 2 ^ 64 },
    ghost sized: { (F.file file.inner).honest → SECTOR_SIZE * sectors ≤ length (F.file file.inner).bytes },
    ghost row_sized: { (F.file file.inner).honest
        → SECTOR_SIZE * (kept.start + kept.count) ≤ length (F.file file.inner).bytes },
    ghost in_order: { unwrap_or failed_at clock ≤ clock },
    ghost split_in_order: { unwrap_or single_from (unwrap_or failed_at clock) ≤ unwrap_or failed_at clock },
    ghost row_in_order: { kept.count ≤ unwrap_or single_from (unwrap_or failed_at clock) },
    ghost in_range: { clock < 2 ^ 64 },
    ghost in_step: { (F.file file.inner).honest → failed_at ≡ None → single_from ≡ None
        → (F.file file.inner).moment + kept.count ≡ clock },
    ghost in_step_singly: { (F.file file.inner).honest → failed_at ≡ None → is_some single_from ≡ true
        → (F.file file.inner).moment ≡ clock + kept.count },
}

impl<F: SectorFile> FileDisk<F> {
    ghost use Rattle.std.specs.Prelude.{IsTrue, IsFalse, IsOk, IsErr, IfOk, Ok, OnOk, OnErr, is_err, [], false, min};
    ghost use Rattle.audit_disk_model.specs.View.{last_count};
    ghost use Rattle.audit_disk_model.specs.Calls.{IsRead, IsWrite, IsSync, HasRisen};
    ghost use Rattle.audit_disk.specs.File.{IsFileWrite, IsFileSync, ReadsFile};
    ghost use Rattle.audit_disk.specs.KeptRow.{IsEmptyRow};
    ghost use Rattle.audit_disk.specs.FileDisk.{file_disk_view, file_inside, file_of, has_stopped, waiting, end_of};
    ghost use Rattle.audit_disk.specs.FileDisk.{HasLostRow};
    ghost use Rattle.audit_disk.specs.FileDisk.{IsOverFile, IsFrontOf, PassesCalls, IsShut, CanKeep, IsElsewhere};
    ghost use Rattle.audit_disk.specs.FileView.{IsSameDevice, IsCallRefused};

    /// Makes a device over the first `sectors` sectors of a file, which must have at least that many. It allocates
    /// 64 KiB for reading ahead and 64 KiB for writes that are kept.
    pub fn over(alloc: Global, file: F, sectors: u64) -> Result<Self, AllocError>
    where
        F: Drop,
        requires unused { IsUnusedFile (F.file file) sectors }
        requires fits { SECTOR_SIZE * sectors < 2 ^ 64 }
        ensures { IfOk result (λ disk. IsOverFile disk file sectors) }
    {
        let row = new_row(alloc)?;
        let kept = KeptRow::new(alloc)?;
        Ok(FileDisk::with_rows(file, sectors, row, kept))
    }

    /// Makes a device as `over` does, in memory that is already allocated.
    pub(crate) fn with_rows(
        file: F,
        sectors: u64,
        row: Vec<[u8; SECTOR_SIZE]>,
        kept: KeptRow,
    ) -> Self
        requires unused { IsUnusedFile (F.file file) sectors }
        requires fits { SECTOR_SIZE * sectors < 2 ^ 64 }
        requires empty { IsEmptyRow kept }
        ensures { IsOverFile result file sectors }
    {
        FileDisk {
            file: ReadAhead::new(file, row),
            sectors,
            clock: 0,
            failures: 0,
            failed_at: None,
            kept,
            single_from: None,
        }
    }

    /// Returns the file, as the calls so far left it. Writes that are still kept are lost.
    pub fn into_file(self) -> F
        ensures { result ≡ file_inside self }
    {
        self.file.inner
    }

    /// Returns a device of the first `sectors` sectors of the same file. The clock, the count of failures, the file
    /// and what is kept are unchanged, and after a failed sync every call still fails.
    pub fn with_sectors(self, sectors: u64) -> Self
        requires { sectors ≤ (file_disk_view self).size }
        ensures front { IsFrontOf (file_disk_view result) (file_disk_view self) sectors }
        ensures file { file_inside result ≡ file_inside self }
        ensures stopped { has_stopped result ≡ has_stopped self }
    {
        FileDisk {
            file: self.file,
            sectors,
            clock: self.clock,
            failures: self.failures,
            failed_at: self.failed_at,
            kept: self.kept,
            single_from: self.single_from,
        }
    }

    /// Lends the file, read-only.
    pub(crate) fn file(&self) -> &F
        ensures { result.now ≡ file_inside self.now }
    {
        &self.file.inner
    }

    /// Returns whether a write or a sync would not reach the file.
    fn is_shut(&self) -> bool
        ensures shut { IsTrue result → IsShut self.now }
        ensures reaches { IsFalse result → PassesCalls self.now }
    {
        let end = match self.single_from {
            Some(_) => LAST_SINGLE,
            None => u64::MAX,
        };
        self.failed_at.is_some() || self.clock >= end
    }

    /// Refuses a write or a sync. From now on every call fails.
    fn refuse(&mut self) -> Result<(), DeviceFault>
        requires { IsShut self.old }
        ensures fails { IsErr result }
        ensures refused { IsCallRefused (file_disk_view self.old) (file_disk_view self.new) }
        ensures unseen { self.new.file ≡ self.old.file }
        ensures stopped { has_stopped self.new ≡ true }
    {
        self.failed_at = self.failed_at.or(Some(self.clock));
        self.clock = self.clock.saturating_add(1);
        counted(Err(DeviceFault), &mut self.failures)
    }

    /// Hands the row that is kept to the file, in one call. If that fails, it writes the sectors again, one call each.
    /// If that fails too, every later call fails.
    fn flush(&mut self) -> Result<(), DeviceFault>
        requires { has_stopped self.old ≡ false }
        ensures same { IsSameDevice (file_disk_view self.old) (file_disk_view self.new) }
        ensures working { has_stopped self.new ≡ is_err result }
        ensures done { OnOk result (waiting self.new ≡ []) }
        ensures passes { OnOk result (PassesCalls self.old → PassesCalls self.new) }
        ensures unneeded { waiting self.old ≡ [] → self.new.file ≡ self.old.file }
        ensures succeeds { waiting self.old ≡ [] → IsOk result }
        ensures fault { OnErr result (HasRisen (file_of self.old).failures (file_of self.new).failures) }
        ensures lost { OnErr result (HasLostRow self.old self.new) }
        ensures more { min (file_of self.old).failures last_count ≤ (file_of self.new).failures }
    {
        if self.single_from.is_some() || self.kept.count == 0 {
            return Ok(());
        }
        let offset = SECTOR_SIZE as u64 * self.kept.start;
        if self.file.write_row(offset, self.kept.sectors()).is_ok() {
            self.kept.clear();
            return Ok(());
        }
        if self.file.write_each(offset, self.kept.sectors()).is_ok() && self.clock < LAST_SINGLE {
            self.single_from = Some(self.clock);
            return Ok(());
        }
        self.failed_at = Some(self.clock);
        Err(DeviceFault)
    }

    /// Whether a write of the sector `at` can be kept now.
    fn can_keep(&self, at: u64) -> bool
        ensures { IsTrue result → CanKeep self.now at }
    {
        self.single_from.is_none() && self.kept.takes(at)
    }

    /// Whether the sector `at` is kept.
    fn keeps(&self, at: u64) -> bool
        ensures { IsFalse result → IsElsewhere self.now at }
    {
        self.single_from.is_none() && self.kept.has(at)
    }

    /// Keeps a write.
    fn keep(&mut self, at: u64, bytes: &[u8; SECTOR_SIZE])
        requires within { at < (file_disk_view self.old).size }
        requires passes { PassesCalls self.old }
        requires can { CanKeep self.old at }
        ensures write { IsWrite (file_disk_view self.old) (file_disk_view self.new) at bytes.now (Ok tt) }
        ensures file { self.new.file ≡ self.old.file }
        ensures working { has_stopped self.new ≡ false }
    {
        self.kept.keep(at, bytes);
        self.clock += 1;
    }

    /// Writes a sector to the file. The row must be empty.
    fn write_alone(&mut self, at: u64, bytes: &[u8; SECTOR_SIZE]) -> Result<(), DeviceFault>
        requires within { at < (file_disk_view self.old).size }
        requires passes { PassesCalls self.old }
        requires none { waiting self.old ≡ [] }
        ensures write { IsWrite (file_disk_view self.old) (file_disk_view self.new) at bytes.now result }
        ensures file { IsFileWrite (file_of self.old) (file_of self.new) (SECTOR_SIZE * at) bytes.now result }
        ensures working { has_stopped self.new ≡ false }
    {
        self.clock += 1;
        let outcome = self.file.write_at(SECTOR_SIZE as u64 * at, bytes);
        counted(outcome, &mut self.failures)
    }

    /// Syncs the file. The row must be empty. After an error every call fails.
    fn sync_alone(&mut self) -> Result<(), DeviceFault>
        requires passes { PassesCalls self.old }
        requires none { waiting self.old ≡ [] }
        ensures sync { IsSync (file_disk_view self.old) (file_disk_view self.new) result }
        ensures file { IsFileSync (file_of self.old) (file_of self.new) result }
        ensures stopped { has_stopped self.new ≡ is_err result }
        ensures handed { waiting self.new ≡ [] }
    {
        self.clock += 1;
        match self.file.sync() {
            Ok(()) => Ok(()),
            Err(fault) => {
                self.failed_at = Some(self.clock);
                counted(Err(fault), &mut self.failures)
            }
        }
    }

    /// Reads a sector that isn't kept.
    fn read_alone(&mut self, at: u64, into: &mut [u8; SECTOR_SIZE]) -> Result<(), DeviceFault>
        requires within { at < (file_disk_view self.old).size }
        requires working { has_stopped self.old ≡ false }
        requires apart { IsElsewhere self.old at }
        ensures read { IsRead (file_disk_view self.old) (file_disk_view self.new) at into.new result }
        ensures file { ReadsFile (file_of self.old) (file_of self.new) (SECTOR_SIZE * at) into.new result }
        ensures working { has_stopped self.new ≡ false }
    {
        let left = self.sectors - at;
        let outcome = self.file.read_at(SECTOR_SIZE as u64 * at, left, into);
        counted(outcome, &mut self.failures)
    }
}

impl<F: SectorFile> Sectors for FileDisk<F> {
    ghost use Rattle.std.specs.Prelude.{true, false, ◌||◌, is_err, OnErr, OnOk, []};
    ghost use Rattle.audit_disk_model.specs.Calls.{IsRead, IsWrite, IsSync, HasRisen};
    ghost use Rattle.audit_disk.specs.File.{ReadsFile, IsFileWrite, IsFileSync};
    ghost use Rattle.audit_disk.specs.FileDisk.{file_disk_view, file_of, has_stopped, waiting, HasLostRow};
    ghost use Rattle.audit_disk.specs.FileDisk.{PassesCalls, IsShut, IsKeptBack};

    ghost view = { file_disk_view };

    fn size(&self) -> u64 {
        self.sectors
    }

    fn calls(&self) -> u64 {
        self.clock
    }

    /// Ok returns what the file last returned for this sector, and nothing was written there since: a row that has the
    /// sector is handed over first. Errors: after a failed sync or row, or if a call of the file failed. A failed read
    /// doesn't stop the device: only a row does, which failed, and then one of its sectors by itself.
    fn read(&mut self, at: u64, into: &mut [u8; SECTOR_SIZE]) -> Result<(), DeviceFault>
        requires { at < (file_disk_view self.old).size }
        ensures read { IsRead (file_disk_view self.old) (file_disk_view self.new) at into.new result }
        ensures file { has_stopped self.old ≡ false
            → ReadsFile (file_of self.old) (file_of self.new) (SECTOR_SIZE * at) into.new result }
        ensures kept_back { has_stopped self.old ≡ true → IsKeptBack self.old self.new result }
        ensures stopped { has_stopped self.old ≡ true → has_stopped self.new ≡ true }
        ensures stops { has_stopped self.old ≡ false → has_stopped self.new ≡ true → HasLostRow self.old self.new }
        ensures working { OnOk result (has_stopped self.new ≡ false) }
    {
        if self.failed_at.is_some() {
            return counted(Err(DeviceFault), &mut self.failures);
        }
        if !self.keeps(at) {
            return self.read_alone(at, into);
        }
        if self.flush().is_err() {
            return counted(Err(DeviceFault), &mut self.failures);
        }
        self.read_alone(at, into)
    }

    /// Keeps the write, or writes to the file at offset 512 * `at` and returns its result. An error means that a call
    /// of the file failed, or that the device refuses calls: after a failed sync or row, or at the end of the clock
    /// (after a row that failed, 128 calls before it). If nothing is kept before and after it, the call is the file's.
    /// An error stops the device only if a row failed, and then one of its sectors by itself.
    fn write(&mut self, at: u64, bytes: &[u8; SECTOR_SIZE]) -> Result<(), DeviceFault>
        requires { at < (file_disk_view self.old).size }
        ensures write { IsWrite (file_disk_view self.old) (file_disk_view self.new) at bytes.now result }
        ensures file { PassesCalls self.old
            → OnErr result (HasRisen (file_of self.old).failures (file_of self.new).failures) }
        ensures alone { PassesCalls self.old → waiting self.old ≡ [] → waiting self.new ≡ []
            → IsFileWrite (file_of self.old) (file_of self.new) (SECTOR_SIZE * at) bytes.now result }
        ensures kept_back { IsShut self.old → IsKeptBack self.old self.new result }
        ensures stopped { has_stopped self.old ≡ true → has_stopped self.new ≡ true }
        ensures stops { PassesCalls self.old → has_stopped self.new ≡ true → HasLostRow self.old self.new }
        ensures working { OnOk result (has_stopped self.new ≡ false) }
    {
        if self.is_shut() {
            return self.refuse();
        }
        if self.can_keep(at) {
            self.keep(at, bytes);
            return Ok(());
        }
        if self.flush().is_err() {
            return self.refuse();
        }
        if self.can_keep(at) {
            self.keep(at, bytes);
            return Ok(());
        }
        self.write_alone(at, bytes)
    }

    /// Hands over what is kept, syncs the file and returns its result, unless the device refuses calls. If nothing is
    /// kept, the call is the file's. After an error every call fails.
    fn sync(&mut self) -> Result<(), DeviceFault>
        ensures sync { IsSync (file_disk_view self.old) (file_disk_view self.new) result }
        ensures file { PassesCalls self.old
            → OnErr result (HasRisen (file_of self.old).failures (file_of self.new).failures) }
        ensures alone { PassesCalls self.old → waiting self.old ≡ []
            → IsFileSync (file_of self.old) (file_of self.new) result }
        ensures handed { OnOk result (waiting self.new ≡ []) }
        ensures kept_back { IsShut self.old → IsKeptBack self.old self.new result }
        ensures stopped { has_stopped self.new ≡ (has_stopped self.old || is_err result) }
    {
        if self.is_shut() {
            return self.refuse();
        }
        if self.flush().is_err() {
            return self.refuse();
        }
        self.sync_alone()
    }
}
