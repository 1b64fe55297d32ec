ghost use Rattle.std.specs.Prelude.{◌≤◌, length, IfErr, OnOk, OnErr};
ghost use Rattle.audit_base.specs.declared.limits.TheConstants.{SESSIONS};
ghost use Rattle.audit_serve_passes.specs.Steps.{a_flush};
ghost use Rattle.audit_serve_passes.specs.Core.{GoesBy};
ghost use Rattle.audit_serve_ready.specs.Rounds.{AnswersWaiting};

use crate::door::Door;
use crate::serving::finish_writing;
use crate::slot::Slot;
use crate::turns::write_turns;
use audit_serve_passes::SessionCore;

/// Answers what waits after serving was stopped by a refusal that left the core at work: it flushes, and if the door
/// lets replies leave, each client is sent what waits for it, and takes what is kept for it as in [`finish_writing`].
/// Nothing is read, and no client goes. If the core refuses the flush, no reply is written.
pub fn answer_waiting<C: SessionCore, D: Door>(
    core: &mut C,
    slots: &mut [Slot<D::Stream>],
    door: &mut D,
) -> Result<(), C::Error>
    requires { length slots.old ≤ SESSIONS }
    ensures answered { OnOk result (AnswersWaiting C.model D.Stream.calls D.calls door.old door.new core.old core.new
        slots.old slots.new) }
    ensures idle { OnOk result (C.model.Idle core.new) }
    ensures reaches { OnErr result (GoesBy C.model a_flush core.old core.new) }
    ensures refused { IfErr result (C.refuses core.old core.new) }
{
    core.flush()?;
    if door.lets_reply() {
        write_turns(core, slots);
    }
    finish_writing(slots, door);
    Ok(())
}
