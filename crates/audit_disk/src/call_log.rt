ghost use Rattle.std.specs.Prelude.{◌≡◌, ◌^◌, ◌<◌, ◌≤◌, [], OnOk, OnErr};
ghost use Rattle.audit_disk.specs.Memory.{latest};

use crate::DeviceFault;
use crate::call::{Call, Effect};
use std::alloc::{AllocError, Global};

/// The calls that reached the medium, the clock and the count of failures.
#[derive(Drop)]
pub(crate) struct CallLog {
    pub(crate) calls: Vec<Call>,
    pub(crate) clock: u64,
    pub(crate) failures: u64,
    ghost stamped: { latest calls.items ≤ clock },
    ghost in_range: { clock < 2 ^ 64 },
}

impl CallLog {
    ghost use Rattle.std.specs.Prelude.{◌+◌, IsOk};
    ghost use Rattle.audit_disk_model.specs.View.{last_count};
    ghost use Rattle.audit_disk.specs.CallLog.{Notes, RefusesCall, spare};

    pub(crate) fn new(alloc: Global) -> Self
        ensures calls { result.calls.items ≡ [] }
        ensures clock { result.clock ≡ 0 }
        ensures failures { result.failures ≡ 0 }
    {
        CallLog {
            calls: Vec::new(alloc),
            clock: 0,
            failures: 0,
        }
    }

    /// Reserves memory for `calls` more calls.
    pub(crate) fn reserve(&mut self, calls: usize) -> Result<(), AllocError>
        ensures calls { self.new.calls.items ≡ self.old.calls.items }
        ensures clock { self.new.clock ≡ self.old.clock }
        ensures failures { self.new.failures ≡ self.old.failures }
        ensures spare { OnOk result (calls ≤ spare self.new) }
    {
        self.calls.reserve(calls)
    }

    /// Records a call that is about to reach the medium. If the record can't grow, the call fails.
    pub(crate) fn note(&mut self, effect: Effect) -> Result<(), DeviceFault>
        ensures ok { OnOk result (Notes self.old self.new effect) }
        ensures err { OnErr result (RefusesCall self.old self.new) }
        ensures room { 0 < spare self.old → self.old.clock < last_count → IsOk result }
        ensures spare { spare self.old ≤ spare self.new + 1 }
    {
        if self.clock == u64::MAX {
            self.failures = self.failures.saturating_add(1);
            return Err(DeviceFault);
        }
        self.clock += 1;
        let call = Call {
            moment: self.clock,
            effect,
        };
        match self.calls.push(call) {
            Ok(()) => Ok(()),
            Err(_) => {
                self.failures = self.failures.saturating_add(1);
                Err(DeviceFault)
            }
        }
    }
}
