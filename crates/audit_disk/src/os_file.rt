ghost use Rattle.std.specs.Prelude.{◌≡◌, ◌≤◌};
ghost use Rattle.audit_disk_model.specs.Calls.{CountsFailure};
ghost use Rattle.audit_disk.specs.Positioned.{AnswersAlike};

use crate::counting::counted;
use crate::guards::Guards;
use crate::{DeviceFault, FileIdentity, PositionedFile, SECTOR_SIZE, SectorFile, SystemFile};
use std::{io, slice};

/// An open file whose failed calls are counted. It is honest if the file below is.
#[derive(Drop)]
pub struct OsFile<F: PositionedFile> {
    file: F,
    failures: u64,
    // The locks that are held as long as the file is open, besides its own.
    guards: Option<Guards<F>>,
    ghost counted: { 1 ≤ failures → (F.positioned file).failed } by { Prim.hlevel ((F.positioned file).failed_once) },
}

impl<F: PositionedFile> OsFile<F> {
    ghost use Rattle.audit_disk.specs.OsFile.{file_below};

    /// Wraps a file, with no failed calls so far.
    pub fn new(file: F) -> Self
        ensures failures { result.failures ≡ 0 }
        ensures file { file_below result ≡ file }
    {
        OsFile::guarded(file, None)
    }

    /// Wraps a file and its further locks, with no failed calls so far.
    pub(crate) fn guarded(file: F, guards: Option<Guards<F>>) -> Self
        ensures failures { result.failures ≡ 0 }
        ensures file { file_below result ≡ file }
    {
        OsFile {
            file,
            failures: 0,
            guards,
        }
    }
}

impl<F: SystemFile> OsFile<F> {
    /// Returns the identity of the file.
    pub(crate) fn identity(&self) -> io::Result<FileIdentity> {
        Ok(FileIdentity::of(&self.file.metadata()?))
    }
}

// An error comes only from a call of the file below that failed, the last one.
impl<F: PositionedFile> SectorFile for OsFile<F> {
    ghost use Rattle.std.specs.Prelude.{OnErr, length};
    ghost use Rattle.audit_disk.specs.File.{IsSectorOffset, IsRowOffset};
    ghost use Rattle.audit_disk.specs.File.{IsFileRead, IsRowRead, IsFileWrite, IsRowWrite, IsFileSync};
    ghost use Rattle.audit_disk.specs.OsFile.{os_file_view, file_below};

    ghost file = { os_file_view };

    fn read_at(&mut self, offset: u64, into: &mut [u8; SECTOR_SIZE]) -> Result<(), DeviceFault>
        requires { IsSectorOffset (os_file_view self.old) offset }
        ensures read { IsFileRead (os_file_view self.old) (os_file_view self.new) offset into.new result }
        ensures cause { OnErr result (F.positioned (file_below self.new)).failed }
        ensures last { OnErr result (F.positioned (file_below self.new)).last_failed }
    {
        let outcome = self.file.read_exact_at(slice::from_mut(into), offset);
        counted_call(outcome, &mut self.failures)
    }

    fn read_row(&mut self, offset: u64, into: &mut [[u8; SECTOR_SIZE]]) -> Result<(), DeviceFault>
        requires { IsRowOffset (os_file_view self.old) offset (length into.old) }
        ensures read { IsRowRead (os_file_view self.old) (os_file_view self.new)
            offset (length into.old) into.new result }
        ensures cause { OnErr result (F.positioned (file_below self.new)).failed }
        ensures last { OnErr result (F.positioned (file_below self.new)).last_failed }
    {
        let outcome = self.file.read_exact_at(into, offset);
        counted_call(outcome, &mut self.failures)
    }

    fn write_at(&mut self, offset: u64, bytes: &[u8; SECTOR_SIZE]) -> Result<(), DeviceFault>
        requires { IsSectorOffset (os_file_view self.old) offset }
        ensures write { IsFileWrite (os_file_view self.old) (os_file_view self.new) offset bytes.now result }
        ensures cause { OnErr result (F.positioned (file_below self.new)).failed }
        ensures last { OnErr result (F.positioned (file_below self.new)).last_failed }
    {
        let outcome = self.file.write_all_at(slice::from_ref(bytes), offset);
        counted_call(outcome, &mut self.failures)
    }

    fn write_row(&mut self, offset: u64, row: &[[u8; SECTOR_SIZE]]) -> Result<(), DeviceFault>
        requires { IsRowOffset (os_file_view self.old) offset (length row.now) }
        ensures write { IsRowWrite (os_file_view self.old) (os_file_view self.new) offset row.now result }
        ensures cause { OnErr result (F.positioned (file_below self.new)).failed }
        ensures last { OnErr result (F.positioned (file_below self.new)).last_failed }
    {
        let outcome = self.file.write_all_at(row, offset);
        counted_call(outcome, &mut self.failures)
    }

    fn sync(&mut self) -> Result<(), DeviceFault>
        ensures sync { IsFileSync (os_file_view self.old) (os_file_view self.new) result }
        ensures cause { OnErr result (F.positioned (file_below self.new)).failed }
        ensures last { OnErr result (F.positioned (file_below self.new)).last_failed }
    {
        let outcome = self.file.sync_data();
        counted_call(outcome, &mut self.failures)
    }
}

/// Counts a failed call, and returns its result without the cause.
fn counted_call(outcome: io::Result<()>, failures: &mut u64) -> Result<(), DeviceFault>
    ensures result { AnswersAlike outcome result }
    ensures counts { CountsFailure failures.old failures.new outcome }
{
    match outcome {
        Ok(()) => Ok(()),
        Err(_) => counted(Err(DeviceFault), failures),
    }
}
