ghost use Rattle.std.specs.Prelude.{◌≡◌, ◌-◌, ◌<◌};
ghost use Rattle.audit_disk_model.specs.View.{last_count};
ghost use Rattle.audit_disk_model.specs.Moments.{IsUnused, LooksLike};
ghost use Rattle.audit_disk_model.specs.Calls.{IsRead, IsWrite, IsSync};
ghost use Rattle.audit_disk.specs.Shifted.{MayMiss};
ghost use Rattle.audit_disk.specs.ShiftedView.{shifted};

use crate::gate::Gate;
use crate::{DeviceFault, SECTOR_SIZE, Sectors};

/// A device that stops after a number of device calls (writes and syncs), as at a crash. From then on every call
/// fails, including reads, and has no effect.
#[derive(Drop)]
pub struct Fuse<D: Sectors> {
    gate: Gate<D>,
    left: u64,
    ghost unmissed: { 0 < left → gate.missed ≡ 0 },
    ghost may_shut: { MayMiss gate.place gate.missed (D.view gate.inner).clock },
}

impl<D: Sectors> Fuse<D> {
    ghost use Rattle.audit_disk.specs.Fuse.{fuse_inner, fuse_view, calls_left};

    /// Wraps a device: `calls` writes and syncs reach it, and no call after them.
    pub fn new(inner: D, calls: u64) -> Self
        ensures inner { fuse_inner result ≡ inner }
        ensures unused { IsUnused (D.view inner) (fuse_view result) }
        ensures left { calls_left result ≡ calls }
    {
        Fuse {
            gate: Gate::new(inner),
            left: calls,
        }
    }

    /// Returns the device inside, as the calls left it.
    pub fn into_inner(self) -> D
        ensures inner { result ≡ fuse_inner self }
        ensures alike { LooksLike (fuse_view self) (D.view result) }
    {
        self.gate.into_inner()
    }
}

impl<D: Sectors> Sectors for Fuse<D> {
    ghost use Rattle.audit_disk.specs.Fuse.{fuse_inner, fuse_view, calls_left, is_intact};
    ghost use Rattle.audit_disk.specs.Passing.{PassesOn};

    ghost view = { λ fuse. shifted (D.view fuse.gate.inner) fuse.gate.place fuse.gate.missed fuse.gate.refused
        fuse.gate.in_step fuse.gate.fits };

    fn size(&self) -> u64 {
        self.gate.inner.size()
    }

    fn calls(&self) -> u64 {
        self.gate.calls()
    }

    fn read(&mut self, at: u64, into: &mut [u8; SECTOR_SIZE]) -> Result<(), DeviceFault>
        requires { at < (D.view (fuse_inner self.old)).size }
        ensures read { IsRead (fuse_view self.old) (fuse_view self.new) at into.new result }
        ensures passes { PassesOn (is_intact self.old)
            (IsRead (D.view (fuse_inner self.old)) (D.view (fuse_inner self.new)) at into.new result)
            (fuse_inner self.old) (fuse_inner self.new) result }
        ensures left { calls_left self.new ≡ calls_left self.old }
    {
        self.gate.read(self.left > 0, at, into)
    }

    fn write(&mut self, at: u64, bytes: &[u8; SECTOR_SIZE]) -> Result<(), DeviceFault>
        requires { at < (D.view (fuse_inner self.old)).size }
        ensures write { IsWrite (fuse_view self.old) (fuse_view self.new) at bytes.now result }
        ensures passes { PassesOn (is_intact self.old)
            ((fuse_view self.old).clock < last_count
            → IsWrite (D.view (fuse_inner self.old)) (D.view (fuse_inner self.new)) at bytes.now result)
            (fuse_inner self.old) (fuse_inner self.new) result }
        ensures left { calls_left self.new ≡ calls_left self.old - 1 }
    {
        let passes = self.left > 0;
        self.left = self.left.saturating_sub(1);
        self.gate.write(passes, at, bytes)
    }

    fn sync(&mut self) -> Result<(), DeviceFault>
        ensures sync { IsSync (fuse_view self.old) (fuse_view self.new) result }
        ensures passes { PassesOn (is_intact self.old)
            ((fuse_view self.old).clock < last_count
            → IsSync (D.view (fuse_inner self.old)) (D.view (fuse_inner self.new)) result)
            (fuse_inner self.old) (fuse_inner self.new) result }
        ensures left { calls_left self.new ≡ calls_left self.old - 1 }
    {
        let passes = self.left > 0;
        self.left = self.left.saturating_sub(1);
        self.gate.sync(passes)
    }
}
