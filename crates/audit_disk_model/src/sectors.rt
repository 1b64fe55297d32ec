ghost use Rattle.std.specs.Prelude.{◌≡◌, ◌<◌};
ghost use Rattle.audit_disk_model.specs.View.{View};
ghost use Rattle.audit_disk_model.specs.Calls.{IsRead, IsWrite, IsSync};

use crate::{DeviceFault, SECTOR_SIZE};

/// A device of sectors. Its contract is the crash model.
///
/// A crash leaves in each sector its last synced content or any content written to it since. Sectors are written whole
/// and independently of one another. Clauses about bytes and images hold only for an honest device. Clauses about
/// sizes, clocks, counts of failures and the images of earlier moments hold for every device.
///
/// That a real disk is honest is a premise which no code can establish. Two parts of it aren't obvious. First, a
/// successful sync puts everything written on the medium, even if the file was reopened since. An operating system
/// that drops pages at a failed sync and lets a later one succeed breaks this (so a `FileDisk` makes no call after a
/// failed sync). Second, 512 bytes land whole and independently. On disks whose physical sectors have 4,096 bytes,
/// eight neighbours can be lost together.
pub trait Sectors {
    /// Everything that is known of the device.
    ghost view: { Self → View };

    /// Returns the number of sectors of the device.
    fn size(&self) -> u64
        ensures { result ≡ (view self.now).size };

    /// Returns the clock: how many writes and syncs have returned, including failed ones, up to 2^64 - 1.
    fn calls(&self) -> u64
        ensures { result ≡ (view self.now).clock };

    /// Reads one sector. After a fault the contents of `into` are unspecified.
    fn read(&mut self, at: u64, into: &mut [u8; SECTOR_SIZE]) -> Result<(), DeviceFault>
        requires { at < (view self.old).size }
        ensures { IsRead (view self.old) (view self.new) at into.new result };

    /// Writes one sector. It may reach the medium at any time up to the next sync. A write that failed may or may not
    /// reach it.
    fn write(&mut self, at: u64, bytes: &[u8; SECTOR_SIZE]) -> Result<(), DeviceFault>
        requires { at < (view self.old).size }
        ensures { IsWrite (view self.old) (view self.new) at bytes.now result };

    /// Flushes to the medium: after Ok, everything written is on it. After a fault, as much may be pending as before.
    fn sync(&mut self) -> Result<(), DeviceFault>
        ensures { IsSync (view self.old) (view self.new) result };
}
