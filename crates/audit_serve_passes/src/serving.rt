ghost use Rattle.std.specs.Prelude.{◌≡◌, ◌<◌, ◌≤◌, [], true, false, length, IfOk, IfErr, OnOk, OnErr, None, Some};
ghost use Rattle.audit_base.specs.declared.limits.TheConstants.{SESSIONS};
ghost use Rattle.audit_serve_passes.specs.declared.limits.TheConstants.{MAX_PIECE, MAX_TURNS};
ghost use Rattle.audit_serve_passes.specs.declared.serve_end.ServeFault.TheVariants as fault;
ghost use Rattle.audit_serve_passes.specs.Transition.{Transition, EndsAs, Reached, IsServed, IsCut, IsStoppedBy};
ghost use Rattle.audit_serve_passes.specs.Transition.{AnySteps};

use crate::limits::MAX_PIECE;
use crate::rounds::{end_live, has_live, serve_passes};
use crate::serve_end::{ServeEnd, ServeFault};
use crate::session_core::SessionCore;
use crate::session_stream::SessionStream;
use crate::writing::flush_and_write;

/// Serves the sessions of these streams in passes until the last one has ended. The first stream is that of session 0.
///
/// A pass reads at most [`MAX_PIECE`] bytes from each live session, in rising order. Then the core flushes, and all
/// that waits for each session is written to its stream. The end of a stream, or a failed read, ends its session. So
/// does a failed write; all output for that session is then dropped, now and later. After the last session has ended
/// the core flushes once more, and what waits is written.
///
/// If sessions are still live after [`MAX_TURNS`](crate::MAX_TURNS) passes, each of them is ended, the core flushes
/// once more, and the fault is `ReadFault`. If the core refuses a step, serving stops immediately. Whatever happens,
/// the core did steps that feed it the bytes read, except those that a refused call may have lost.
pub fn serve<C: SessionCore, S: SessionStream>(
    core: &mut C,
    streams: &mut [S],
) -> ServeEnd<C::Error>
    requires { length streams.old ≤ SESSIONS }
    ensures most { result.turns ≤ MAX_TURNS }
    // Whatever happens, the core changed only by steps and `take_output`. The steps feed what the reads of each stream
    // returned, except bytes that a refused call lost. What was taken from a session's output was written to its
    // stream, or dropped after a failed write.
    ensures reaches { Reached C.model S.model core.old core.new streams.old streams.new AnySteps }
    // If a refusal stopped serving, what the core states about that refusal holds.
    ensures refused { (error : C.Error) → result.fault ≡ Some (fault.Core error) → C.refuses core.old core.new error }
    // The refused step was in the last pass, or after all passes.
    ensures stopped { (error : C.Error) → result.fault ≡ Some (fault.Core error)
        → Reached C.model S.model core.old core.new streams.old streams.new
        (IsStoppedBy C.model (length streams.old) result.turns core.old) }
    // Without a fault, whole passes were made until the last session had ended, followed by a flush. A session was
    // ended if and only if a read found the end of its stream or a call of the stream failed.
    ensures served { result.fault ≡ None → Transition C.model S.model core.old core.new streams.old streams.new
        (IsServed C.model (length streams.old) result.turns core.old core.new) }
    ensures cut { result.fault ≡ Some fault.ReadFault → (result.turns ≡ MAX_TURNS)
        × EndsAs C.model S.model core.old core.new streams.old streams.new
        (IsCut C.model (length streams.old) core.old core.new) }
{
    let mut turns = 0;
    let mut buffer = [0; MAX_PIECE];
    let fault = match serve_all(core, streams, &mut buffer, &mut turns) {
        Ok(false) => None,
        Ok(true) => Some(ServeFault::ReadFault),
        Err(error) => Some(ServeFault::Core(error)),
    };
    ServeEnd { turns, fault }
}

/// Serves until the end. Returns whether sessions were still live when the limit of passes was reached.
fn serve_all<C: SessionCore, S: SessionStream>(
    core: &mut C,
    streams: &mut [S],
    buffer: &mut [u8],
    turns: &mut u64,
) -> Result<bool, C::Error>
    requires count { length streams.old ≤ SESSIONS }
    requires room { 0 < length buffer.old }
    requires most { length buffer.old ≤ MAX_PIECE }
    ensures most { turns.new ≤ MAX_TURNS }
    ensures refused { IfErr result (C.refuses core.old core.new) }
    ensures stopped { OnErr result (Reached C.model S.model core.old core.new streams.old streams.new
        (IsStoppedBy C.model (length streams.old) turns.new core.old)) }
    ensures served { IfOk result (λ cut. cut ≡ false → Transition C.model S.model core.old core.new
        streams.old streams.new (IsServed C.model (length streams.old) turns.new core.old core.new)) }
    ensures cut { IfOk result (λ cut. cut ≡ true → (turns.new ≡ MAX_TURNS)
        × EndsAs C.model S.model core.old core.new streams.old streams.new
        (IsCut C.model (length streams.old) core.old core.new)) }
{
    serve_passes(core, streams, buffer, turns)?;
    let cut = has_live(core, streams.len());
    if cut {
        end_live(core, streams.len())?;
    }
    flush_and_write(core, streams)?;
    Ok(cut)
}
