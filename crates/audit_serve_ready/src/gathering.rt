//! Reading what clients send while others are read, so that one commit has it.
ghost use Rattle.std.specs.Prelude.{◌≡◌, ◌<◌, ◌≤◌, ℕ, List, true, false, length, slice_index_or};
ghost use Rattle.std.specs.Prelude.{IfOk, IfErr, OnOk, OnErr};
ghost use Rattle.audit_base.specs.declared.limits.TheConstants.{SESSIONS};
ghost use Rattle.audit_serve_passes.specs.Steps.{StepData};
ghost use Rattle.audit_serve_passes.specs.Streams.{StreamCall};
ghost use Rattle.audit_serve_ready.specs.Backlog.{OwesNothing, OwesOnlyAfterTurns, AreWithinBacklog, MayAsk};
ghost use Rattle.audit_serve_ready.specs.Backlog.{HasTakenRequest};
ghost use Rattle.audit_serve_ready.specs.Places.{slot_at, StopsAtPlaces};
ghost use Rattle.audit_serve_ready.specs.Reading.{TakesTurns, ReadsPlaces};
ghost use Rattle.audit_serve_ready.specs.Rounds.{AsksDoor};

use crate::door::Door;
use crate::limits::MAX_ASKED;
use crate::pass_bounds::{PassBounds, piece_for};
use crate::ready_stream::ReadyStream;
use crate::slot::Slot;
use crate::turns::{is_due, read_turns, turn_of};
use audit_base::SESSIONS;
use audit_serve_passes::{SessionCore, Share};

/// A mark for each session.
pub(crate) type Marks = [bool; SESSIONS];

// No pass makes more readings, whatever the door says.
const MAX_READINGS: usize = 1_024;

/// Whether a session is due that is marked as busy.
fn is_one_awaited<C: SessionCore>(core: &C, count: usize, busy: &Marks, had_turn: &Marks) -> bool
    requires { count ≤ SESSIONS }
{
    let mut is_awaited = false;
    for session in 0..count {
        is_awaited |= busy[session] && is_due(core, session, had_turn);
    }
    is_awaited
}

/// Whether a pass has what it is to commit.
fn is_gathered<D: Door>(door: &mut D, is_awaited: bool, moved: bool, found: bool) -> bool
    ensures { AsksDoor D.calls door.old door.new }
{
    !is_awaited || !moved || !door.asks_again(found)
}

/// Gives session `first` its turn, in which whatever it asks is within what all questions may have.
fn first_turn<C: SessionCore, S: ReadyStream + Drop>(
    core: &mut C,
    slots: &mut [Slot<S>],
    first: usize,
    had_turn: &mut Marks,
    bounds: PassBounds,
    questions: &mut Share,
) -> Result<bool, C::Error>
    requires { length slots.old ≤ SESSIONS }
    ensures stopped { OnErr result (StopsAtPlaces S.calls (C.model.DidStepsInPart core.old core.new)
        slots.old slots.new) }
    ensures refused { IfErr result (C.refuses core.old core.new) }
    ensures done { IfOk result (λ moved. TakesTurns C.model S.calls bounds.backlog questions.old.left questions.new.left
        moved (λ k. k ≡ first) had_turn.old had_turn.new core.old core.new slots.old slots.new) }
    ensures within { OwesOnlyAfterTurns C.model (length slots.old) had_turn.old core.old
        → AreWithinBacklog C.model bounds.backlog core.old slots.old
        → OnOk result (OwesOnlyAfterTurns C.model (length slots.old) had_turn.new core.new
        × AreWithinBacklog C.model bounds.backlog core.new slots.new) }
    ensures asked { questions.old.is_whole ≡ true → slice_index_or had_turn.old first true ≡ false
        → first < length slots.old → MayAsk C.model bounds.backlog first core.old (slot_at first slots.old)
        → OnOk result (HasTakenRequest C.model bounds.backlog first core.old
        (slot_at first slots.old) (slot_at first slots.new)
        × (slice_index_or had_turn.new first true ≡ true)) }
{
    if first < slots.len() {
        turn_of(core, slots, first, had_turn, bounds, questions)
    } else {
        Ok(false)
    }
}

/// Gives each live session one turn of reading, from session `first` on: something was read, or it was ended. While
/// some have had theirs and others that are marked as busy haven't, those that haven't are asked again, as long as the
/// door says so. The replies to all questions that are taken have [`MAX_ASKED`] bytes at most, or are those to one
/// question. Returns whether anything was taken or ended; if it was, those that had a turn are marked as busy
/// afterwards.
pub(crate) fn gather<C: SessionCore, D: Door>(
    core: &mut C,
    slots: &mut [Slot<D::Stream>],
    door: &mut D,
    backlog: usize,
    first: usize,
    busy: &mut Marks,
) -> Result<bool, C::Error>
    requires { length slots.old ≤ SESSIONS }
    ensures stopped { OnErr result (StopsAtPlaces D.Stream.calls (C.model.DidStepsInPart core.old core.new)
        slots.old slots.new) }
    ensures refused { IfErr result (C.refuses core.old core.new) }
    ensures done { IfOk result (λ moved. (steps : List StepData) × (calls : ℕ → List StreamCall)
        × ReadsPlaces C.model D.Stream.calls backlog moved steps calls core.old core.new slots.old slots.new) }
    ensures within { OwesNothing C.model (length slots.old) core.old
        → AreWithinBacklog C.model backlog core.old slots.old
        → OnOk result (AreWithinBacklog C.model backlog core.new slots.new) }
    ensures askings { AsksDoor D.calls door.old door.new }
    ensures asked { first < length slots.old → MayAsk C.model backlog first core.old (slot_at first slots.old)
        → OnOk result (HasTakenRequest C.model backlog first core.old
        (slot_at first slots.old) (slot_at first slots.new)) }
{
    let bounds = PassBounds {
        backlog,
        piece: piece_for(slots),
    };
    let mut questions = Share {
        left: MAX_ASKED,
        is_whole: true,
    };
    let mut had_turn = [false; SESSIONS];
    let mut found = first_turn(core, slots, first, &mut had_turn, bounds, &mut questions)?;
    let mut from = if first < slots.len() { 1 } else { 0 };
    let mut moved = false;
    for reading in 0..MAX_READINGS {
        let more = read_turns(
            core,
            slots,
            first,
            from,
            &mut had_turn,
            bounds,
            &mut questions,
        )?;
        found |= more;
        moved |= found;
        let is_awaited = is_one_awaited(core, slots.len(), busy, &had_turn);
        if is_gathered(door, is_awaited, moved, found) {
            break;
        }
        found = false;
        from = 0;
    }
    if moved {
        *busy = had_turn;
    }
    Ok(moved)
}
