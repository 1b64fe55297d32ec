ghost use Rattle.audit_disk.specs.MemFileView.{joined_view};

use crate::{DeviceFault, MemDisk, SECTOR_SIZE, SectorFile, Sectors};

/// A file in memory, for tests: the concatenated sectors of a `MemDisk`. It is honest.
#[derive(Drop)]
pub struct MemFile {
    /// The device whose sectors are the file's bytes.
    pub disk: MemDisk,
}

impl SectorFile for MemFile {
    ghost use Rattle.std.specs.Prelude.{IsOk};
    ghost use Rattle.audit_disk.specs.File.{IsSectorOffset, IsFileRead};
    ghost use Rattle.audit_disk.specs.MemFileView.{mem_file_view};

    ghost file = { λ it. joined_view (⟦<MemDisk as Sectors>⟧.view it.disk) };

    fn read_at(&mut self, offset: u64, into: &mut [u8; SECTOR_SIZE]) -> Result<(), DeviceFault>
        requires { IsSectorOffset (mem_file_view self.old) offset }
        ensures read { IsFileRead (mem_file_view self.old) (mem_file_view self.new) offset into.new result }
        ensures succeeds { IsOk result }
    {
        self.disk.read(offset / SECTOR_SIZE as u64, into)
    }

    fn write_at(&mut self, offset: u64, bytes: &[u8; SECTOR_SIZE]) -> Result<(), DeviceFault> {
        self.disk.write(offset / SECTOR_SIZE as u64, bytes)
    }

    fn sync(&mut self) -> Result<(), DeviceFault> {
        self.disk.sync()
    }
}
