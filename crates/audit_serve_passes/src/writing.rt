ghost use Rattle.std.specs.Prelude.{◌≡◌, ◌<◌, ◌≤◌, [], length, IfErr, OnOk, OnErr};
ghost use Rattle.audit_base.specs.declared.limits.TheConstants.{SESSIONS};
ghost use Rattle.audit_serve_passes.specs.Rounds.{AreEndsOfClosed, IsFlushAndEnds, IsInterrupted};
ghost use Rattle.audit_serve_passes.specs.Transition.{Transition, SessionTransition, Reached, SessionReached};
ghost use Rattle.audit_serve_passes.specs.Transition.{IsOutputTaken, IsEndOfClosed, AreTaken, IsFlushStep, closed_by};
ghost use Rattle.audit_serve_passes.specs.Transition.{IsRefusedIn};

use crate::session_core::SessionCore;
use crate::session_stream::SessionStream;

/// Writes a session's pending output to its stream. A fault ends the session, whose output is then dropped, now and
/// later.
fn write_turn<C: SessionCore, S: SessionStream>(
    core: &mut C,
    session: usize,
    stream: &mut S,
) -> Result<(), C::Error>
    requires { session < SESSIONS }
    ensures stopped { OnErr result (SessionReached C.model S.model session core.old core.new stream.old stream.new
        (λ calls. IsInterrupted (IsEndOfClosed session calls))) }
    ensures refused { IfErr result (C.refuses core.old core.new) }
    ensures done { OnOk result (SessionTransition C.model S.model session core.old core.new stream.old stream.new
        (IsOutputTaken C.model session core.old core.new)) }
{
    let output = core.take_output(session);
    if stream.is_closed() || stream.write_all(&output).is_ok() {
        return Ok(());
    }
    core.end(session)
}

/// Writes each session's pending output to its stream, in rising order.
pub fn write_turns<C: SessionCore, S: SessionStream>(
    core: &mut C,
    streams: &mut [S],
) -> Result<(), C::Error>
    requires { length streams.old ≤ SESSIONS }
    ensures stopped { OnErr result (Reached C.model S.model core.old core.new streams.old streams.new
        (λ calls. IsRefusedIn (length streams.old) (AreEndsOfClosed (closed_by calls)) calls)) }
    ensures refused { IfErr result (C.refuses core.old core.new) }
    ensures done { OnOk result (Transition C.model S.model core.old core.new streams.old streams.new
        (AreTaken C.model (length streams.old) core.old core.new)) }
{
    for session in 0..streams.len() {
        write_turn(core, session, &mut streams[session])?;
    }
    Ok(())
}

/// Flushes, then writes each session's pending output to its stream.
pub fn flush_and_write<C: SessionCore, S: SessionStream>(
    core: &mut C,
    streams: &mut [S],
) -> Result<(), C::Error>
    requires { length streams.old ≤ SESSIONS }
    ensures stopped { OnErr result (Reached C.model S.model core.old core.new streams.old streams.new
        (λ calls. IsRefusedIn (length streams.old) (IsFlushAndEnds (closed_by calls)) calls)) }
    ensures refused { IfErr result (C.refuses core.old core.new) }
    ensures done { OnOk result (Transition C.model S.model core.old core.new streams.old streams.new
        (IsFlushStep C.model (length streams.old) core.new)) }
{
    core.flush()?;
    write_turns(core, streams)
}
