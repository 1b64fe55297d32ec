ghost use Rattle.std.specs.Prelude.{length};
ghost use Rattle.audit_disk.specs.File.{IsRowOffset};
ghost use Rattle.audit_disk.specs.Positioned.{PositionedView, counted_file};
ghost use Rattle.audit_disk.specs.Positioned.{IsPositionedRead, IsPositionedWrite, IsPositionedSync, IsMeasured};

use crate::SECTOR_SIZE;
use std::io;

/// The calls of an open file that a device needs, as operating systems have them: reading and writing sectors at a
/// byte offset, syncing, and the length.
pub trait PositionedFile {
    /// Everything that is known of the file.
    ghost positioned: { Self → PositionedView };

    /// Reads consecutive sectors that start at `offset`. It is an error if not all of them can be read.
    fn read_exact_at(&mut self, into: &mut [[u8; SECTOR_SIZE]], offset: u64) -> io::Result<()>
        requires { IsRowOffset (counted_file (positioned self.old) 0) offset (length into.old) }
        ensures { IsPositionedRead (positioned self.old) (positioned self.new)
            offset (length into.old) into.new result };

    /// Writes consecutive sectors that start at `offset`. After an error each of them may or may not be written.
    fn write_all_at(&mut self, row: &[[u8; SECTOR_SIZE]], offset: u64) -> io::Result<()>
        requires { IsRowOffset (counted_file (positioned self.old) 0) offset (length row.now) }
        ensures { IsPositionedWrite (positioned self.old) (positioned self.new) offset row.now result };

    /// Flushes to the medium what was written.
    fn sync_data(&mut self) -> io::Result<()>
        ensures { IsPositionedSync (positioned self.old) (positioned self.new) result };

    /// Returns the length in bytes.
    fn length(&mut self) -> io::Result<u64>
        ensures { IsMeasured (positioned self.old) (positioned self.new) result };
}
