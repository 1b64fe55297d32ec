ghost use Rattle.std.specs.Prelude.{◌≡◌, ◌<◌, IsSome};
ghost use Rattle.audit_disk_model.specs.View.{last_count};
ghost use Rattle.audit_disk_model.specs.Moments.{IsUnused, LooksLike};
ghost use Rattle.audit_disk_model.specs.Calls.{IsRead, IsWrite, IsSync};
ghost use Rattle.audit_disk.specs.ShiftedView.{shifted};
ghost use Rattle.audit_disk.specs.Countdown.{one_less, is_passing};
ghost use Rattle.audit_disk.specs.Passing.{PassesOn};

use crate::gate::Gate;
use crate::{DeviceFault, SECTOR_SIZE, Sectors};

/// A device of which one read, write or sync fails and has no effect. The calls before and after it pass.
#[derive(Drop)]
pub struct FailOnce<D: Sectors> {
    gate: Gate<D>,
    left: Option<u64>,
    ghost unmissed: { IsSome left → gate.missed ≡ 0 },
}

impl<D: Sectors> FailOnce<D> {
    ghost use Rattle.audit_disk.specs.FailOnce.{fail_once_inner, fail_once_view, calls_before};

    /// Wraps a device: `calls` calls pass, and the next one fails.
    pub fn new(inner: D, calls: u64) -> Self
        ensures inner { fail_once_inner result ≡ inner }
        ensures unused { IsUnused (D.view inner) (fail_once_view result) }
        ensures left { calls_before result ≡ Some calls }
    {
        FailOnce {
            gate: Gate::new(inner),
            left: Some(calls),
        }
    }

    /// Returns the device inside, as the calls left it.
    pub fn into_inner(self) -> D
        ensures inner { result ≡ fail_once_inner self }
        ensures alike { LooksLike (fail_once_view self) (D.view result) }
    {
        self.gate.into_inner()
    }
}

/// Counts a call, and returns whether it passes.
fn passes(left: &mut Option<u64>) -> bool
    ensures passes { result ≡ is_passing left.old }
    ensures left { left.new ≡ one_less left.old }
{
    match *left {
        Some(0) => {
            *left = None;
            false
        }
        Some(calls) => {
            *left = Some(calls - 1);
            true
        }
        None => true,
    }
}

impl<D: Sectors> Sectors for FailOnce<D> {
    ghost use Rattle.audit_disk.specs.FailOnce.{fail_once_inner, fail_once_view, calls_before};

    ghost view = { λ disk. shifted (D.view disk.gate.inner) disk.gate.place disk.gate.missed disk.gate.refused
        disk.gate.in_step disk.gate.fits };

    fn size(&self) -> u64 {
        self.gate.inner.size()
    }

    fn calls(&self) -> u64 {
        self.gate.calls()
    }

    fn read(&mut self, at: u64, into: &mut [u8; SECTOR_SIZE]) -> Result<(), DeviceFault>
        requires { at < (D.view (fail_once_inner self.old)).size }
        ensures read { IsRead (fail_once_view self.old) (fail_once_view self.new)
            at into.new result }
        ensures passes { PassesOn (is_passing (calls_before self.old))
            (IsRead (D.view (fail_once_inner self.old)) (D.view (fail_once_inner self.new)) at into.new result)
            (fail_once_inner self.old) (fail_once_inner self.new) result }
        ensures left { calls_before self.new ≡ one_less (calls_before self.old) }
    {
        let passes = passes(&mut self.left);
        self.gate.read(passes, at, into)
    }

    fn write(&mut self, at: u64, bytes: &[u8; SECTOR_SIZE]) -> Result<(), DeviceFault>
        requires { at < (D.view (fail_once_inner self.old)).size }
        ensures write { IsWrite (fail_once_view self.old)
            (fail_once_view self.new) at bytes.now result }
        ensures passes { PassesOn (is_passing (calls_before self.old))
            ((fail_once_view self.old).clock < last_count
            → IsWrite (D.view (fail_once_inner self.old)) (D.view (fail_once_inner self.new)) at bytes.now result)
            (fail_once_inner self.old) (fail_once_inner self.new) result }
        ensures left { calls_before self.new ≡ one_less (calls_before self.old) }
    {
        let passes = passes(&mut self.left);
        self.gate.write(passes, at, bytes)
    }

    fn sync(&mut self) -> Result<(), DeviceFault>
        ensures sync { IsSync (fail_once_view self.old) (fail_once_view self.new) result }
        ensures passes { PassesOn (is_passing (calls_before self.old))
            ((fail_once_view self.old).clock < last_count
            → IsSync (D.view (fail_once_inner self.old)) (D.view (fail_once_inner self.new)) result)
            (fail_once_inner self.old) (fail_once_inner self.new) result }
        ensures left { calls_before self.new ≡ one_less (calls_before self.old) }
    {
        let passes = passes(&mut self.left);
        self.gate.sync(passes)
    }
}
