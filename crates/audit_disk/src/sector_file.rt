ghost use Rattle.std.specs.Prelude.{length};
ghost use Rattle.audit_disk.specs.File.{FileView, IsSectorOffset, IsRowOffset};
ghost use Rattle.audit_disk.specs.File.{IsFileRead, IsRowRead, IsFileWrite, IsRowWrite, IsFileSync};

use crate::{DeviceFault, SECTOR_SIZE};

/// The calls of a file that a device needs: reading and writing whole sectors at multiples of their size, and syncing.
pub trait SectorFile {
    /// Everything that is known of the file.
    ghost file: { Self → FileView };

    /// Reads the sector at `offset`.
    fn read_at(&mut self, offset: u64, into: &mut [u8; SECTOR_SIZE]) -> Result<(), DeviceFault>
        requires { IsSectorOffset (file self.old) offset }
        ensures { IsFileRead (file self.old) (file self.new) offset into.new result };

    /// Reads consecutive sectors that start at `offset`. This counts as one read for each, up to the first that fails.
    fn read_row(&mut self, offset: u64, into: &mut [[u8; SECTOR_SIZE]]) -> Result<(), DeviceFault>
        requires { IsRowOffset (file self.old) offset (length into.old) }
        ensures { IsRowRead (file self.old) (file self.new) offset (length into.old) into.new result }
    {
        for k in 0..into.len() {
            self.read_at(offset + (SECTOR_SIZE * k) as u64, &mut into[k])?;
        }
        Ok(())
    }

    /// Writes one sector at `offset`.
    fn write_at(&mut self, offset: u64, bytes: &[u8; SECTOR_SIZE]) -> Result<(), DeviceFault>
        requires { IsSectorOffset (file self.old) offset }
        ensures { IsFileWrite (file self.old) (file self.new) offset bytes.now result };

    /// Writes consecutive sectors that start at `offset`. This counts as one write for each. After a fault each of
    /// them may or may not be written.
    fn write_row(&mut self, offset: u64, row: &[[u8; SECTOR_SIZE]]) -> Result<(), DeviceFault>
        requires { IsRowOffset (file self.old) offset (length row.now) }
        ensures { IsRowWrite (file self.old) (file self.new) offset row.now result }
    {
        let mut outcome = Ok(());
        for k in 0..row.len() {
            if self
                .write_at(offset + (SECTOR_SIZE * k) as u64, &row[k])
                .is_err()
            {
                outcome = Err(DeviceFault);
            }
        }
        outcome
    }

    /// Flushes to the medium what was written.
    fn sync(&mut self) -> Result<(), DeviceFault>
        ensures { IsFileSync (file self.old) (file self.new) result };
}

/// Writes consecutive sectors that start at `offset`, one call each, also after one that failed.
pub(crate) fn write_each<F: SectorFile>(
    file: &mut F,
    offset: u64,
    row: &[[u8; SECTOR_SIZE]],
) -> Result<(), DeviceFault>
    requires { IsRowOffset (F.file file.old) offset (length row.now) }
    ensures { IsRowWrite (F.file file.old) (F.file file.new) offset row.now result }
{
    let mut outcome = Ok(());
    for k in 0..row.len() {
        if file
            .write_at(offset + (SECTOR_SIZE * k) as u64, &row[k])
            .is_err()
        {
            outcome = Err(DeviceFault);
        }
    }
    outcome
}
