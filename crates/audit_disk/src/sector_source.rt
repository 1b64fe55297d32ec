ghost use Rattle.std.specs.Prelude.{◌≡◌, ◌<◌, OnErr};
ghost use Rattle.audit_disk.specs.SectorSource.{SourceView, IsSourceRead, IsSameSource};

use crate::{DeviceFault, SECTOR_SIZE};

/// Sectors that are only read. No call writes or syncs, so nobody can change a source through a reference to it.
pub trait SectorSource {
    /// Everything that is known of the source.
    ghost source: { Self → SourceView };

    /// Returns the number of sectors.
    fn sectors(&self) -> u64
        ensures { result ≡ (source self.now).size };

    /// Reads one sector. After a fault the contents of `into` are unspecified.
    fn read_sector(&mut self, at: u64, into: &mut [u8; SECTOR_SIZE]) -> Result<(), DeviceFault>
        requires { at < (source self.old).size }
        ensures read { IsSourceRead (source self.old) at into.new result }
        ensures same { IsSameSource (source self.old) (source self.new) }
        ensures fails { OnErr result (source self.new).failed }
        ensures last { OnErr result (source self.new).last_failed };
}
