//! Steps done in order.
ghost use Rattle.std.specs.Prelude.{◌≡◌, [], ◌∷◌, Err, OnOk, IfErr, map};
ghost use Rattle.std.specs.List.{AllByRecursion};
ghost use Rattle.audit_store.specs.declared.store_error.StoreError.TheVariants.{Broken, Device};
ghost use Rattle.audit_serve_passes.specs.Core.{no_bytes};
ghost use Rattle.audit_server_commit.specs.Serving.{IsDurablyServed};
ghost use Rattle.audit_server.specs.Running.{IsBrokenByDevice};
ghost use Rattle.audit_server.specs.Core.{committer_of, data_of, is_core_broken, IsSound, IsCoreUntouched, Refuses};
ghost use Rattle.audit_server.specs.Core.{HasDone};
ghost use Rattle.audit_server.specs.Driving.{step_data, step_done, steps_done, IsOfSession, IsStepRefused};
ghost use Rattle.audit_server.specs.Driving.{IsDriveStopped, broken_drive};

use crate::drive_fault::DriveFault;
use crate::feed_fault::FeedFault;
use crate::server_core::Core;
use crate::step::Step;
use audit_disk_model::Sectors;

/// Does these steps in order, and stops at the first one that is refused.
pub fn drive<D: Sectors>(core: &mut Core<D>, steps: &[Step]) -> Result<(), DriveFault>
    requires { AllByRecursion IsOfSession steps.now }
    // A core that has met a fault of the device does no step and refuses the first.
    ensures broken { is_core_broken core.old → (result ≡ broken_drive steps.now) × IsCoreUntouched core.old core.new }
    // Otherwise all steps were done, or those before one that was refused.
    ensures done { IsSound core.old → OnOk result (HasDone (map step_data steps.now) core.old core.new) }
    ensures stopped { IsSound core.old → IfErr result (λ fault. IsDriveStopped steps.now fault core.old core.new) }
    // Acknowledgements are durable even if a step was refused.
    ensures durable { IsDurablyServed (data_of core.old) (data_of core.new)
        (steps_done (map step_data steps.now) result) no_bytes }
    ensures device { IfErr result (λ fault. fault.error ≡ Device
        → IsBrokenByDevice (committer_of core.old) (committer_of core.new)) }
    ensures cause { IfErr result (λ fault. Refuses core.old core.new fault.error) }
{
    for number in 0..steps.len() {
        if let Err(fault) = do_step(core, &steps[number]) {
            return Err(DriveFault {
                step: number,
                taken: fault.taken,
                error: fault.error,
            });
        }
    }
    Ok(())
}

fn do_step<D: Sectors>(core: &mut Core<D>, step: &Step) -> Result<(), FeedFault>
    requires { IsOfSession step.now }
    ensures broken { is_core_broken core.old
        → (result ≡ Err (record { taken = 0; error = Broken })) × IsCoreUntouched core.old core.new }
    ensures done { IsSound core.old → OnOk result (HasDone (step_data step.now ∷ []) core.old core.new) }
    ensures refused { IsSound core.old
        → IfErr result (λ fault. IsStepRefused (step_data step.now) fault core.old core.new) }
    ensures durable { IsDurablyServed (data_of core.old) (data_of core.new) (step_done (step_data step.now) result)
        no_bytes }
    ensures device { IfErr result (λ fault. fault.error ≡ Device
        → IsBrokenByDevice (committer_of core.old) (committer_of core.new)) }
    ensures cause { IfErr result (λ fault. Refuses core.old core.new fault.error) }
{
    let done = match *step {
        Step::Feed { session, piece } => return core.feed(session, piece),
        Step::End { session } => core.end(session),
        Step::Flush => core.flush(),
    };
    match done {
        Ok(()) => Ok(()),
        Err(error) => Err(FeedFault { taken: 0, error }),
    }
}
