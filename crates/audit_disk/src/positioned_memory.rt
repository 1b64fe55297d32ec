//! A file in memory as a `PositionedFile`, which shows that honest ones exist.
ghost use Rattle.audit_disk.specs.MemFileView.{mem_file_view};
ghost use Rattle.audit_disk.specs.Positioned.{AnswersAlike};
ghost use Rattle.audit_disk.specs.Positioned.{uncounted};

use crate::{DeviceFault, MemFile, PositionedFile, SECTOR_SIZE, SectorFile};
use std::io::{self, ErrorKind};

impl PositionedFile for MemFile {
    ghost positioned = { λ it. uncounted (mem_file_view it) };

    fn read_exact_at(&mut self, into: &mut [[u8; SECTOR_SIZE]], offset: u64) -> io::Result<()> {
        as_system(self.read_row(offset, into))
    }

    fn write_all_at(&mut self, row: &[[u8; SECTOR_SIZE]], offset: u64) -> io::Result<()> {
        as_system(self.write_row(offset, row))
    }

    fn sync_data(&mut self) -> io::Result<()> {
        as_system(self.sync())
    }

    fn length(&mut self) -> io::Result<u64> {
        Ok(self.disk.byte_count())
    }
}

/// Converts a result to the system's type.
fn as_system(outcome: Result<(), DeviceFault>) -> io::Result<()>
    ensures { AnswersAlike outcome result }
{
    match outcome {
        Ok(()) => Ok(()),
        Err(DeviceFault) => Err(io::Error::from(ErrorKind::Other)),
    }
}
