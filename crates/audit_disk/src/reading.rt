use crate::{DeviceFault, SECTOR_SIZE, SectorSource, Sectors};

/// A device that is only read. It is honest if the device is, with the device's content.
#[derive(Drop)]
pub struct Reading<D> {
    disk: D,
}

impl<D: Sectors> Reading<D> {
    ghost use Rattle.std.specs.Prelude.{◌≡◌};
    ghost use Rattle.audit_disk.specs.Reading.{device_read};

    /// Wraps a device, of which only reads are called from now on.
    pub fn new(disk: D) -> Reading<D>
        ensures { device_read result ≡ disk }
    {
        Reading { disk }
    }

    /// Gives the device back.
    pub fn into_device(self) -> D
        ensures { result ≡ device_read self }
    {
        self.disk
    }
}

impl<D: Sectors> SectorSource for Reading<D> {
    ghost use Rattle.std.specs.Prelude.{◌<◌, OnErr};
    ghost use Rattle.audit_disk_model.specs.Calls.{CountsFailure};
    ghost use Rattle.audit_disk.specs.Reading.{device_read};
    ghost use Rattle.audit_disk.specs.SectorSource.{source_of, IsSourceRead, IsSameSource};

    ghost source = { λ it. source_of (D.view it.disk) };

    fn sectors(&self) -> u64 {
        self.disk.size()
    }

    /// It fails exactly if the device counted a failure of its read.
    fn read_sector(&mut self, at: u64, into: &mut [u8; SECTOR_SIZE]) -> Result<(), DeviceFault>
        requires { at < (D.view (device_read self.old)).size }
        ensures read { IsSourceRead (source_of (D.view (device_read self.old))) at into.new result }
        ensures same { IsSameSource (source_of (D.view (device_read self.old)))
            (source_of (D.view (device_read self.new))) }
        ensures fails { OnErr result (source_of (D.view (device_read self.new))).failed }
        ensures last { OnErr result (source_of (D.view (device_read self.new))).last_failed }
        ensures counts { CountsFailure (D.view (device_read self.old)).failures
            (D.view (device_read self.new)).failures result }
    {
        self.disk.read(at, into)
    }
}
