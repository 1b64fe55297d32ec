ghost use Rattle.std.specs.Prelude.{◌≡◌, ◌<◌, ◌≤◌, [], length, IfErr, OnOk, OnErr};
ghost use Rattle.audit_base.specs.declared.limits.TheConstants.{SESSIONS};
ghost use Rattle.audit_serve_passes.specs.declared.limits.TheConstants.{MAX_PIECE};
ghost use Rattle.audit_serve_passes.specs.Rounds.{live_below, AreVisits, IsInterrupted};
ghost use Rattle.audit_serve_passes.specs.Transition.{Transition, SessionTransition, Reached, SessionReached};
ghost use Rattle.audit_serve_passes.specs.Transition.{IsOneVisit, AreVisitsBelow, IsRefusedIn};

use crate::session_core::SessionCore;
use crate::session_stream::SessionStream;

/// Visits a session: feeds it what one read of its stream returned. The end of the stream, or a fault, ends the
/// session.
fn read_turn<C: SessionCore, S: SessionStream>(
    core: &mut C,
    session: usize,
    stream: &mut S,
    buffer: &mut [u8],
) -> Result<(), C::Error>
    requires session { session < SESSIONS }
    requires room { 0 < length buffer.old }
    requires most { length buffer.old ≤ MAX_PIECE }
    ensures stopped { OnErr result (SessionReached C.model S.model session core.old core.new stream.old stream.new
        (λ calls. IsInterrupted (IsOneVisit session))) }
    ensures refused { IfErr result (C.refuses core.old core.new) }
    ensures done { OnOk result (SessionTransition C.model S.model session core.old core.new stream.old stream.new
        (λ calls. IsOneVisit session)) }
{
    match stream.read(buffer) {
        Ok(count) if count > 0 => core.feed(session, &buffer[..count]),
        _ => core.end(session),
    }
}

/// Visits each live session, in rising order.
pub fn read_turns<C: SessionCore, S: SessionStream>(
    core: &mut C,
    streams: &mut [S],
    buffer: &mut [u8],
) -> Result<(), C::Error>
    requires count { length streams.old ≤ SESSIONS }
    requires room { 0 < length buffer.old }
    requires most { length buffer.old ≤ MAX_PIECE }
    ensures stopped { OnErr result (Reached C.model S.model core.old core.new streams.old streams.new
        (IsRefusedIn (length streams.old)
        (AreVisits (live_below (length streams.old) (C.model.ended core.old []))))) }
    ensures refused { IfErr result (C.refuses core.old core.new) }
    ensures done { OnOk result (Transition C.model S.model core.old core.new streams.old streams.new
        (λ calls. AreVisitsBelow (length streams.old) (C.model.ended core.old []))) }
{
    for session in 0..streams.len() {
        if !core.ended(session) {
            read_turn(core, session, &mut streams[session], buffer)?;
        }
    }
    Ok(())
}
