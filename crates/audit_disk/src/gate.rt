ghost use Rattle.std.specs.Prelude.{◌≡◌, ◌+◌, ◌^◌, ◌<◌, ◌≤◌, IsTrue, IsFalse};
ghost use Rattle.audit_disk_model.specs.Calls.{HasRisen, IsRead, IsWrite, IsSync};
ghost use Rattle.audit_disk.specs.Passing.{PassesOn};

use crate::{DeviceFault, SECTOR_SIZE, Sectors};

/// A device behind a gate: a call is passed on, or it fails and doesn't reach the device.
#[derive(Drop)]
pub(crate) struct Gate<D: Sectors> {
    pub(crate) inner: D,
    /// The inner clock when the calls were missed.
    pub(crate) place: u64,
    /// How many writes and syncs didn't reach the device.
    pub(crate) missed: u64,
    /// How many failures the device didn't count.
    pub(crate) refused: u64,
    ghost in_step: { place ≤ (D.view inner).clock },
    ghost fits: { (D.view inner).clock + missed < 2 ^ 64 },
}

impl<D: Sectors> Gate<D> {
    ghost use Rattle.audit_disk.specs.Gate.{gate_view, MayShut, IsBelowEnd, Misses};

    pub(crate) fn new(inner: D) -> Self
        ensures inner { result.inner ≡ inner }
        ensures missed { result.missed ≡ 0 }
        ensures refused { result.refused ≡ 0 }
    {
        Gate {
            inner,
            place: 0,
            missed: 0,
            refused: 0,
        }
    }

    /// The clock, including the missed calls.
    pub(crate) fn calls(&self) -> u64
        ensures { result ≡ (D.view self.now.inner).clock + self.now.missed }
    {
        self.inner.calls() + self.missed
    }

    pub(crate) fn read(
        &mut self,
        passes: bool,
        at: u64,
        into: &mut [u8; SECTOR_SIZE],
    ) -> Result<(), DeviceFault>
        requires { at < (D.view self.old.inner).size }

        ensures read { IsRead (gate_view self.old) (gate_view self.new) at into.new result }
        ensures passes { PassesOn passes (IsRead (D.view self.old.inner) (D.view self.new.inner) at into.new result)
            self.old.inner self.new.inner result }
        ensures place { self.new.place ≡ self.old.place }
        ensures missed { self.new.missed ≡ self.old.missed }
    {
        if passes {
            return self.inner.read(at, into);
        }
        Err(self.refuse())
    }

    pub(crate) fn write(
        &mut self,
        passes: bool,
        at: u64,
        bytes: &[u8; SECTOR_SIZE],
    ) -> Result<(), DeviceFault>
        requires within { at < (D.view self.old.inner).size }
        requires may_shut { IsFalse passes → MayShut self.old }

        ensures write { IsWrite (gate_view self.old) (gate_view self.new) at bytes.now result }
        ensures passes { PassesOn passes
            (IsBelowEnd self.old → IsWrite (D.view self.old.inner) (D.view self.new.inner) at bytes.now result)
            self.old.inner self.new.inner result }
        ensures shut { IsFalse passes → MayShut self.new }
        ensures missed { IsTrue passes → self.new.missed ≡ self.old.missed }
    {
        if !passes {
            return Err(self.miss());
        }
        if self.calls() == u64::MAX {
            return Err(self.refuse());
        }
        self.inner.write(at, bytes)
    }

    pub(crate) fn sync(&mut self, passes: bool) -> Result<(), DeviceFault>
        requires { IsFalse passes → MayShut self.old }

        ensures sync { IsSync (gate_view self.old) (gate_view self.new) result }
        ensures passes { PassesOn passes
            (IsBelowEnd self.old → IsSync (D.view self.old.inner) (D.view self.new.inner) result)
            self.old.inner self.new.inner result }
        ensures shut { IsFalse passes → MayShut self.new }
        ensures missed { IsTrue passes → self.new.missed ≡ self.old.missed }
    {
        if !passes {
            return Err(self.miss());
        }
        if self.calls() == u64::MAX {
            return Err(self.refuse());
        }
        self.inner.sync()
    }

    /// Counts a failure that doesn't reach the device.
    fn refuse(&mut self) -> DeviceFault
        ensures inner { self.new.inner ≡ self.old.inner }
        ensures place { self.new.place ≡ self.old.place }
        ensures missed { self.new.missed ≡ self.old.missed }
        ensures refused { HasRisen self.old.refused self.new.refused }
        ensures more { self.old.refused ≤ self.new.refused }
    {
        self.refused = self.refused.saturating_add(1);
        DeviceFault
    }

    /// Counts a write or a sync that doesn't reach the device.
    fn miss(&mut self) -> DeviceFault
        requires { MayShut self.old }
        ensures inner { self.new.inner ≡ self.old.inner }
        ensures missed { Misses self.old self.new }
        ensures refused { HasRisen self.old.refused self.new.refused }
        ensures more { self.old.refused ≤ self.new.refused }
    {
        if self.calls() != u64::MAX {
            self.place = self.inner.calls();
            self.missed += 1;
        }
        self.refuse()
    }

    /// Returns the device inside, as the calls left it.
    pub(crate) fn into_inner(self) -> D
        ensures { result ≡ self.inner }
    {
        self.inner
    }
}
