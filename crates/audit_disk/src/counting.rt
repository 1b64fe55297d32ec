ghost use Rattle.std.specs.Prelude.{◌≡◌, ◌≤◌};
ghost use Rattle.audit_disk_model.specs.Calls.{CountsFailure};

use crate::DeviceFault;

/// Counts a failed call of a device or a file, and returns its result. At its maximum the count stays.
pub fn counted(outcome: Result<(), DeviceFault>, failures: &mut u64) -> Result<(), DeviceFault>
    ensures result { result ≡ outcome }
    ensures counts { CountsFailure failures.old failures.new outcome }
    ensures more { failures.old ≤ failures.new }
{
    if outcome.is_err() {
        *failures = failures.saturating_add(1);
    }
    outcome
}
