ghost use Rattle.std.specs.Prelude.{◌≡◌, ◌<◌, ◌≤◌, OnErr};
ghost use Rattle.audit_disk_model.specs.Calls.{CountsFailure};
ghost use Rattle.audit_disk.specs.ReadOnly.{IsReadThrough};
ghost use Rattle.audit_disk.specs.SectorSource.{IsSameSource};

use crate::block::Block;
use crate::call::Effect;
use crate::call_log::CallLog;
use crate::counting::counted;
use crate::last_written::last_written;
use crate::{DeviceFault, SECTOR_SIZE, SectorSource, Sectors};
use std::alloc::{AllocError, Global};

/// A device over a source that is only read. Writes and syncs are kept in memory and never reach the source; reads
/// return what was last written, or else the source's content. So a source can be inspected as if it were repaired.
///
/// It is honest if the source is: at the start it has the source's content, with nothing pending. Like any device it
/// counts its writes, its syncs and the calls that failed. If memory for a write or a sync is refused, the call fails
/// and isn't kept.
#[derive(Drop)]
pub struct ReadOnly<'a, S: SectorSource> {
    source: &'a mut S,
    log: CallLog,
}

impl<'a, S: SectorSource> ReadOnly<'a, S> {
    ghost use Rattle.std.specs.Prelude.{◌≤◌, OnOk};
    ghost use Rattle.audit_disk_model.specs.Moments.{IsUnused};
    ghost use Rattle.audit_disk.specs.ReadOnlyView.{read_only_view, source_under, spare_calls, IsFreshOver};

    /// Makes a device over a source. It allocates nothing.
    pub fn over(alloc: Global, source: &'a mut S) -> Self
        ensures source { source_under result ≡ source.old }
        ensures fresh { IsFreshOver (S.source source.old) (read_only_view S.source result) }
    {
        ReadOnly {
            source,
            log: CallLog::new(alloc),
        }
    }

    /// Reserves memory for `calls` more writes and syncs, so that they can be kept without allocating. Nothing else
    /// changes, even after an error.
    pub fn reserve(&mut self, calls: usize) -> Result<(), AllocError>
        ensures spare { OnOk result (calls ≤ spare_calls self.new) }
        ensures source { source_under self.new ≡ source_under self.old }
        ensures unused { IsUnused (read_only_view S.source self.old) (read_only_view S.source self.new) }
    {
        self.log.reserve(calls)
    }
}

impl<S: SectorSource> Sectors for ReadOnly<'_, S> {
    ghost use Rattle.std.specs.Prelude.{◌+◌, ◌≤◌, IsOk, OnErr};
    ghost use Rattle.audit_disk_model.specs.View.{last_count};
    ghost use Rattle.audit_disk_model.specs.Calls.{IsRead, IsWrite, IsSync};
    ghost use Rattle.audit_disk.specs.OverlayView.{overlay_view};
    ghost use Rattle.audit_disk.specs.ReadOnlyView.{read_only_view, source_under, spare_calls};

    ghost view = { λ disk. overlay_view (S.source disk.source.now) disk.log.calls.items disk.log.clock
        disk.log.failures disk.log.stamped disk.log.in_range };

    fn size(&self) -> u64 {
        self.source.sectors()
    }

    fn calls(&self) -> u64 {
        self.log.clock
    }

    /// It fails only if its read of the source does.
    fn read(&mut self, at: u64, into: &mut [u8; SECTOR_SIZE]) -> Result<(), DeviceFault>
        requires { at < (read_only_view S.source self.old).size }
        ensures read { IsRead (read_only_view S.source self.old) (read_only_view S.source self.new) at into.new result }
        ensures spare { spare_calls self.new ≡ spare_calls self.old }
        ensures cause { OnErr result (S.source (source_under self.new)).failed }
        ensures last { OnErr result (S.source (source_under self.new)).last_failed }
    {
        read_through(self.source, &mut self.log, at, into)
    }

    /// It fails only if memory is refused, or at the end of the clock.
    fn write(&mut self, at: u64, bytes: &[u8; SECTOR_SIZE]) -> Result<(), DeviceFault>
        requires { at < (read_only_view S.source self.old).size }
        ensures write { IsWrite (read_only_view S.source self.old)
            (read_only_view S.source self.new) at bytes.now result }
        ensures room { 0 < spare_calls self.old → (read_only_view S.source self.old).clock < last_count → IsOk result }
        ensures spare { spare_calls self.old ≤ spare_calls self.new + 1 }
    {
        let block = Block { bytes: *bytes };
        self.log.note(Effect::Write(at as usize, block))
    }

    /// It fails only if memory is refused, or at the end of the clock.
    fn sync(&mut self) -> Result<(), DeviceFault>
        ensures sync { IsSync (read_only_view S.source self.old) (read_only_view S.source self.new) result }
        ensures room { 0 < spare_calls self.old → (read_only_view S.source self.old).clock < last_count → IsOk result }
        ensures spare { spare_calls self.old ≤ spare_calls self.new + 1 }
    {
        self.log.note(Effect::Sync)
    }
}

// Reads what these calls last wrote to the sector, or else the source's content. A failed read is counted.
fn read_through<S: SectorSource>(
    source: &mut S,
    log: &mut CallLog,
    at: u64,
    into: &mut [u8; SECTOR_SIZE],
) -> Result<(), DeviceFault>
    requires { at < (S.source source.old).size }
    ensures read { IsReadThrough (S.source source.old) log.old.calls.items at into.new result }
    ensures same { IsSameSource (S.source source.old) (S.source source.new) }
    ensures counts { CountsFailure log.old.failures log.new.failures result }
    ensures calls { log.new.calls ≡ log.old.calls }
    ensures clock { log.new.clock ≡ log.old.clock }
    ensures more { log.old.failures ≤ log.new.failures }
    ensures cause { OnErr result (S.source source.new).failed }
    ensures last { OnErr result (S.source source.new).last_failed }
{
    if let Some(block) = last_written(&log.calls, at as usize) {
        let bytes = block.bytes;
        *into = bytes;
        return Ok(());
    }
    let outcome = source.read_sector(at, into);
    counted(outcome, &mut log.failures)
}
