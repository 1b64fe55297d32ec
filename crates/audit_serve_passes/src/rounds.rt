ghost use Rattle.std.specs.Prelude.{◌≡◌, ◌≢◌, ◌<◌, ◌≤◌, ◌+◌, ℕ, [], true, false, length, map, IfErr, OnOk, OnErr};
ghost use Rattle.audit_base.specs.declared.limits.TheConstants.{SESSIONS};
ghost use Rattle.audit_serve_passes.specs.declared.limits.TheConstants.{MAX_PIECE, MAX_TURNS};
ghost use Rattle.audit_serve_passes.specs.Steps.{an_end};
ghost use Rattle.audit_serve_passes.specs.Rounds.{live_below, IsPass, ArePasses, IsInterrupted, IsStoppedInPass};
ghost use Rattle.audit_serve_passes.specs.Transition.{Transition, CoreTransition, Reached, CoreReached, closed_by};
ghost use Rattle.audit_serve_passes.specs.Transition.{AreEndsBelow, AreEndsByCalls, IsRefusedIn};

use crate::limits::MAX_TURNS;
use crate::reading::read_turns;
use crate::session_core::SessionCore;
use crate::session_stream::SessionStream;
use crate::writing::flush_and_write;

/// Returns whether one of the first `count` sessions is still live.
pub fn has_live<C: SessionCore>(core: &C, count: usize) -> bool
    requires { count ≤ SESSIONS }
    ensures live { result ≡ true → live_below count (C.model.ended core.now []) ≢ [] }
    ensures none { result ≡ false → live_below count (C.model.ended core.now []) ≡ [] }
{
    for session in 0..count {
        if !core.ended(session) {
            return true;
        }
    }
    false
}

/// Ends each of the first `count` sessions that is still live.
pub fn end_live<C: SessionCore>(core: &mut C, count: usize) -> Result<(), C::Error>
    requires { count ≤ SESSIONS }
    ensures stopped { OnErr result (CoreReached C.model core.old core.new
        (IsInterrupted (λ steps. steps ≡ map an_end (live_below count (C.model.ended core.old []))))) }
    ensures refused { IfErr result (C.refuses core.old core.new) }
    ensures done { OnOk result (CoreTransition C.model core.old core.new
        (AreEndsBelow count (C.model.ended core.old []))) }
{
    for session in 0..count {
        if !core.ended(session) {
            core.end(session)?;
        }
    }
    Ok(())
}

/// Visits each live session, flushes, and writes what waits for each session to its stream.
fn serve_round<C: SessionCore, S: SessionStream>(
    core: &mut C,
    streams: &mut [S],
    buffer: &mut [u8],
) -> Result<(), C::Error>
    requires count { length streams.old ≤ SESSIONS }
    requires room { 0 < length buffer.old }
    requires most { length buffer.old ≤ MAX_PIECE }
    ensures stopped { OnErr result (Reached C.model S.model core.old core.new streams.old streams.new
        (λ calls. IsRefusedIn (length streams.old)
        (IsPass (length streams.old) (C.model.ended core.old []) (closed_by calls)) calls)) }
    ensures refused { IfErr result (C.refuses core.old core.new) }
    ensures done { OnOk result (Transition C.model S.model core.old core.new streams.old streams.new
        (λ calls. IsPass (length streams.old) (C.model.ended core.old []) (closed_by calls))) }
{
    read_turns(core, streams, buffer)?;
    flush_and_write(core, streams)
}

/// Serves passes as long as sessions are live, up to the limit of passes.
pub fn serve_passes<C: SessionCore, S: SessionStream>(
    core: &mut C,
    streams: &mut [S],
    buffer: &mut [u8],
    turns: &mut u64,
) -> Result<(), C::Error>
    requires count { length streams.old ≤ SESSIONS }
    requires room { 0 < length buffer.old }
    requires most { length buffer.old ≤ MAX_PIECE }
    ensures most { turns.new ≤ MAX_TURNS }
    ensures stopped { OnErr result (Reached C.model S.model core.old core.new streams.old streams.new
        (λ calls steps. IsStoppedInPass (length streams.old) (C.model.ended core.old) (closed_by calls) turns.new steps
        × AreEndsByCalls (length streams.old) calls steps)) }
    ensures refused { IfErr result (C.refuses core.old core.new) }
    ensures done { OnOk result (Transition C.model S.model core.old core.new streams.old streams.new
        (λ calls. ArePasses (length streams.old) (C.model.ended core.old) (closed_by calls) turns.new)) }
    // Sessions are still live only if the limit of passes was reached.
    ensures all { OnOk result (turns.new < MAX_TURNS
        → live_below (length streams.old) (C.model.ended core.new []) ≡ []) }
{
    *turns = 0;
    for round in 0..MAX_TURNS {
        if !has_live(core, streams.len()) {
            return Ok(());
        }
        *turns = round + 1;
        serve_round(core, streams, buffer)?;
    }
    Ok(())
}
