ghost use Rattle.std.specs.Prelude.{◌≡◌, ◌≢◌, ◌⊎◌, ◌+◌, ◌<◌, ◌≤◌, ℕ, List, [], true, false, length, slice_index_or};
ghost use Rattle.std.specs.Prelude.{IfOk, IfErr, OnOk, OnErr, if◌then◌else◌};
ghost use Rattle.audit_base.specs.declared.limits.TheConstants.{SESSIONS};
ghost use Rattle.audit_serve_passes.specs.Streams.{StreamCall};
ghost use Rattle.audit_serve_passes.specs.Core.{bytes_for};
ghost use Rattle.audit_serve_passes.specs.Transition.{AreEmpty};
ghost use Rattle.audit_serve_ready.specs.declared.note.Note.TheVariants as note;
ghost use Rattle.audit_serve_ready.specs.declared.turns.Pass.{Pass};
ghost use Rattle.audit_serve_ready.specs.declared.turns.Turn.{Turn};
ghost use Rattle.audit_serve_ready.specs.Backlog.{OwesNothing, OwesOnlyAfterTurns, AreWithinBacklog, IsTurnWithin};
ghost use Rattle.audit_serve_ready.specs.Backlog.{MayAsk, HasTakenRequest, KeepsTurns, TakesTurn};
ghost use Rattle.audit_serve_ready.specs.Places.{slot_at, StopsAtPlace, StopsAtPlaces, WritesPlaces};
ghost use Rattle.audit_serve_ready.specs.Reading.{is_had, has_moved, turn_number, HasTurn, IsFedPiece, TakesTurns};
ghost use Rattle.audit_serve_ready.specs.Door.{DoorCall};
ghost use Rattle.audit_serve_ready.specs.Rounds.{IsJudgedByDoor, JudgesClients, ServesPass};
ghost use Rattle.audit_serve_ready.specs.Slot.{client_of, closed, is_shut, is_mute, kept_of, unread_of, IsPushed};

use crate::door::Door;
use crate::gathering::{Marks, gather};
use crate::note::Note;
use crate::pass_bounds::PassBounds;
use crate::ready_stream::ReadyStream;
use crate::slot::{Look, Slot};
use audit_serve_passes::{Allowance, SessionCore, Share};

/// What a pass came to.
#[derive(Clone, Copy, PartialEq, Eq)]
pub(crate) enum Pass {
    /// Nothing moved.
    Idle,
    /// Bytes moved, or a session ended.
    Moved,
    /// The door doesn't let replies leave. None did after the flush.
    Withheld,
}

/// What a turn of reading came to.
#[derive(Clone, Copy, PartialEq, Eq)]
pub(crate) enum Turn {
    /// Nothing was there.
    Idle,
    /// Bytes are there, but their replies have to wait.
    Held,
    /// Bytes were taken, or the session was ended.
    Moved,
}

impl Turn {
    ghost use Rattle.std.specs.Prelude.{◌≡◌};
    ghost use Rattle.audit_serve_ready.specs.Reading.{is_had, has_moved};

    /// Whether the session has had its turn, since something was there.
    fn is_had(self) -> bool
        ensures { result ≡ is_had self }
    {
        match self {
            Turn::Idle => false,
            Turn::Held | Turn::Moved => true,
        }
    }

    /// Whether bytes were taken, or the session was ended.
    fn has_moved(self) -> bool
        ensures { result ≡ has_moved self }
    {
        match self {
            Turn::Idle | Turn::Held => false,
            Turn::Moved => true,
        }
    }
}

/// Feeds a session what is unread or there of its client's bytes, as far as its share and the questions' allow. The end
/// of the stream, or a fault, ends the session, and so does a place that is shut.
fn read_turn<C: SessionCore, S: ReadyStream + Drop>(
    core: &mut C,
    session: usize,
    slot: &mut Slot<S>,
    bounds: PassBounds,
    questions: &mut Share,
) -> Result<Turn, C::Error>
    requires { session < SESSIONS }
    ensures stopped { OnErr result (StopsAtPlace S.calls (C.model.DidStepsInPart core.old core.new) session
        slot.old slot.new) }
    ensures refused { IfErr result (C.refuses core.old core.new) }
    ensures done { IfOk result (λ turn. HasTurn C.model S.calls bounds.backlog questions.old.left questions.new.left
        (has_moved turn) session (is_had turn) core.old core.new slot.old slot.new) }
    ensures within { OnOk result (IsTurnWithin C.model bounds.backlog session core.old core.new slot.old slot.new) }
    ensures idle { IfOk result (λ turn. is_had turn ≡ false → (core.new ≡ core.old) × (unread_of slot.old ≡ [])) }
    ensures asked { questions.old.is_whole ≡ true → MayAsk C.model bounds.backlog session core.old slot.old
        → OnOk result (HasTakenRequest C.model bounds.backlog session core.old slot.old slot.new) }
{
    if slot.is_shut() {
        core.end(session)?;
        return Ok(Turn::Moved);
    }
    match slot.look(bounds.piece) {
        Look::Nothing => Ok(Turn::Idle),
        Look::Over => {
            core.end(session)?;
            Ok(Turn::Moved)
        }
        Look::Bytes => feed_turn(core, session, slot, bounds.backlog, questions),
    }
}

/// Feeds a session the bytes that are unread, as far as its share and the questions' allow.
fn feed_turn<C: SessionCore, S: ReadyStream + Drop>(
    core: &mut C,
    session: usize,
    slot: &mut Slot<S>,
    backlog: usize,
    questions: &mut Share,
) -> Result<Turn, C::Error>
    requires session { session < SESSIONS }
    requires live { is_shut slot.old ≡ false }
    ensures stopped { OnErr result (StopsAtPlace S.calls (C.model.DidStepsInPart core.old core.new) session
        slot.old slot.new) }
    ensures refused { IfErr result (C.refuses core.old core.new) }
    ensures done { IfOk result (λ turn. IsFedPiece C.model S.calls backlog questions.old.left questions.new.left
        (has_moved turn) session core.old core.new slot.old slot.new) }
    ensures within { OnOk result (IsTurnWithin C.model backlog session core.old core.new slot.old slot.new) }
    ensures taken { IfOk result (λ turn. is_had turn ≡ true) }
    ensures asked { questions.old.is_whole ≡ true → MayAsk C.model backlog session core.old slot.old
        → OnOk result (HasTakenRequest C.model backlog session core.old slot.old slot.new) }
{
    let mut allowance = Allowance {
        session: slot.share(backlog),
        questions: *questions,
    };
    match core.feed_within(session, slot.unread(), &mut allowance) {
        Ok(taken) => {
            *questions = allowance.questions;
            slot.advance(taken);
            Ok(if taken > 0 { Turn::Moved } else { Turn::Held })
        }
        Err(error) => {
            slot.drop_unread();
            Err(error)
        }
    }
}

/// Whether a session is live and has not had its turn.
pub(crate) fn is_due<C: SessionCore>(core: &C, session: usize, had_turn: &Marks) -> bool
    requires { session < SESSIONS }
    ensures live { result ≡ true → C.model.ended core.now [] session ≡ false }
    ensures turn { result ≡ true → slice_index_or had_turn.now session true ≡ false }
    ensures due { slice_index_or had_turn.now session true ≡ false → C.model.ended core.now [] session ≡ false
        → result ≡ true }
{
    !had_turn[session] && !core.ended(session)
}

/// The session whose turn is the one with this number, if session `first` has the first turn of `count`.
fn session_of_turn(first: usize, number: usize, count: usize) -> usize
    requires some { number < count }
    requires few { count ≤ SESSIONS }
    ensures there { result < count }
    ensures number { turn_number first count result ≡ number }
{
    let place = first % count + number;
    if place < count { place } else { place - count }
}

/// Reads for a session if it is live and has not had its turn. If something was there, it has had its turn then.
/// Returns whether anything was taken or ended.
pub(crate) fn turn_of<C: SessionCore, S: ReadyStream + Drop>(
    core: &mut C,
    slots: &mut [Slot<S>],
    session: usize,
    had_turn: &mut Marks,
    bounds: PassBounds,
    questions: &mut Share,
) -> Result<bool, C::Error>
    requires count { length slots.old ≤ SESSIONS }
    requires there { session < length slots.old }
    ensures stopped { OnErr result (StopsAtPlaces S.calls (C.model.DidStepsInPart core.old core.new)
        slots.old slots.new) }
    ensures refused { IfErr result (C.refuses core.old core.new) }
    ensures done { IfOk result (λ moved. TakesTurns C.model S.calls bounds.backlog questions.old.left questions.new.left
        moved (λ k. k ≡ session) had_turn.old had_turn.new core.old core.new slots.old slots.new) }
    ensures within { OwesOnlyAfterTurns C.model (length slots.old) had_turn.old core.old
        → AreWithinBacklog C.model bounds.backlog core.old slots.old
        → OnOk result (OwesOnlyAfterTurns C.model (length slots.old) had_turn.new core.new
        × AreWithinBacklog C.model bounds.backlog core.new slots.new) }
    ensures kept { OnOk result (KeepsTurns had_turn.old had_turn.new slots.old slots.new) }
    ensures asked { questions.old.is_whole ≡ true → slice_index_or had_turn.old session true ≡ false
        → MayAsk C.model bounds.backlog session core.old (slot_at session slots.old)
        → OnOk result (HasTakenRequest C.model bounds.backlog session core.old
        (slot_at session slots.old) (slot_at session slots.new)
        × (slice_index_or had_turn.new session true ≡ true)) }
{
    if !is_due(core, session, had_turn) {
        return Ok(false);
    }
    let turn = read_turn(core, session, &mut slots[session], bounds, questions)?;
    had_turn[session] = turn.is_had();
    Ok(turn.has_moved())
}

/// Gives each live session its turn that has not had it, from turn number `from` on; turn number 0 is that of session
/// `first`. Returns whether anything was taken or ended.
pub(crate) fn read_turns<C: SessionCore, S: ReadyStream + Drop>(
    core: &mut C,
    slots: &mut [Slot<S>],
    first: usize,
    from: usize,
    had_turn: &mut Marks,
    bounds: PassBounds,
    questions: &mut Share,
) -> Result<bool, C::Error>
    requires { length slots.old ≤ SESSIONS }
    ensures stopped { OnErr result (StopsAtPlaces S.calls (C.model.DidStepsInPart core.old core.new)
        slots.old slots.new) }
    ensures refused { IfErr result (C.refuses core.old core.new) }
    ensures done { IfOk result (λ moved. TakesTurns C.model S.calls bounds.backlog questions.old.left questions.new.left moved
        (λ k. from ≤ turn_number first (length slots.old) k) had_turn.old had_turn.new core.old core.new
        slots.old slots.new) }
    ensures within { OwesOnlyAfterTurns C.model (length slots.old) had_turn.old core.old
        → AreWithinBacklog C.model bounds.backlog core.old slots.old
        → OnOk result (OwesOnlyAfterTurns C.model (length slots.old) had_turn.new core.new
        × AreWithinBacklog C.model bounds.backlog core.new slots.new) }
    ensures kept { OnOk result (KeepsTurns had_turn.old had_turn.new slots.old slots.new) }
{
    let count = slots.len();
    let mut found = false;
    for number in from..count {
        let session = session_of_turn(first, number, count);
        let taken = turn_of(core, slots, session, had_turn, bounds, questions)?;
        found |= taken;
    }
    Ok(found)
}

/// Keeps what waits for a session for its client, and writes what the client takes now. Returns whether it took bytes
/// or failed.
fn write_turn<C: SessionCore, S: ReadyStream + Drop>(
    core: &mut C,
    session: usize,
    slot: &mut Slot<S>,
) -> bool
    requires { session < SESSIONS }
    ensures done { (sent : List ℕ) × C.model.DidSteps core.old core.new [] (bytes_for session sent)
        × IsPushed S.calls result sent slot.old slot.new }
    ensures empty { C.model.output core.new session ≡ [] }
    ensures others { (other : ℕ) → (other ≡ session → ⊥)
        → C.model.output core.new other ≡ C.model.output core.old other }
    ensures idle { C.model.Idle core.old → C.model.Idle core.new }
    ensures kept { length (kept_of slot.new) ≤ length (kept_of slot.old) + length (C.model.output core.old session) }
    ensures unread { unread_of slot.new ≡ unread_of slot.old }
    ensures mute { is_mute slot.old ≡ true → is_mute slot.new ≡ true }
{
    let output = core.take_output(session);
    slot.send(output)
}

/// Does so for each session, in rising order.
pub(crate) fn write_turns<C: SessionCore, S: ReadyStream + Drop>(
    core: &mut C,
    slots: &mut [Slot<S>],
) -> bool
    requires { length slots.old ≤ SESSIONS }
    ensures done { (taken : ℕ → List ℕ) × (calls : ℕ → List StreamCall) × WritesPlaces S.calls
        (C.model.DidSteps core.old core.new) result (length slots.old) taken calls slots.old slots.new }
    ensures empty { AreEmpty C.model (length slots.old) core.new }
    ensures idle { C.model.Idle core.old → C.model.Idle core.new }
    ensures within { (backlog : ℕ) → C.model.Idle core.old → AreWithinBacklog C.model backlog core.old slots.old
        → AreWithinBacklog C.model backlog core.new slots.new }
    ensures unread { (k : ℕ) → unread_of (slot_at k slots.new) ≡ unread_of (slot_at k slots.old) }
    ensures mute { (k : ℕ) → is_mute (slot_at k slots.old) ≡ true → is_mute (slot_at k slots.new) ≡ true }
{
    let mut moved = false;
    for session in 0..slots.len() {
        moved |= write_turn(core, session, &mut slots[session]);
    }
    moved
}

/// Shuts the places of the clients that the door dismisses. The core does nothing.
pub(crate) fn dismiss<C: SessionCore, D: Door>(
    core: &C,
    slots: &mut [Slot<D::Stream>],
    door: &mut D,
)
    ensures within { (backlog : ℕ) → AreWithinBacklog C.model backlog core.now slots.old
        → AreWithinBacklog C.model backlog core.now slots.new }
    ensures each { (k : ℕ) → (slot_at k slots.new ≡ slot_at k slots.old) ⊎ (is_mute (slot_at k slots.new) ≡ true) }
    ensures judges { JudgesClients D.calls (length slots.old) door.old door.new slots.old slots.new }
{
    for place in 0..slots.len() {
        if is_dismissed(&slots[place], place, door) {
            slots[place].close(Note::Dismissed);
        }
    }
}

fn is_dismissed<D: Door>(slot: &Slot<D::Stream>, place: usize, door: &mut D) -> bool
    ensures { (told : List (DoorCall D.Stream)) × D.calls.DidCalls door.old door.new told
        × IsJudgedByDoor place (client_of slot.now) told slot.now (if result then closed note.Dismissed slot.now
        else slot.now) }
{
    match slot.client() {
        Some(client) => door.dismisses(place, client),
        None => false,
    }
}

/// A pass over the clients that are there: what they sent is gathered, from session `first` on, the core flushes, and
/// each session has its turn of writing. If the door doesn't let replies leave, nobody has. Returns what the pass came
/// to.
pub(crate) fn serve_present<C: SessionCore, D: Door>(
    core: &mut C,
    slots: &mut [Slot<D::Stream>],
    door: &mut D,
    backlog: usize,
    first: usize,
    busy: &mut Marks,
) -> Result<Pass, C::Error>
    requires { length slots.old ≤ SESSIONS }
    ensures stopped { OnErr result (StopsAtPlaces D.Stream.calls (C.model.DidStepsInPart core.old core.new)
        slots.old slots.new) }
    ensures refused { IfErr result (C.refuses core.old core.new) }
    ensures idle { OnOk result (C.model.Idle core.new) }
    ensures empty { IfOk result (λ pass. pass ≢ Pass.Withheld → AreEmpty C.model (length slots.old) core.new) }
    ensures within { OwesNothing C.model (length slots.old) core.old
        → AreWithinBacklog C.model backlog core.old slots.old
        → OnOk result (AreWithinBacklog C.model backlog core.new slots.new) }
    ensures turn { first < length slots.old
        → OnOk result (TakesTurn C.model backlog first core.old (slot_at first slots.old) (slot_at first slots.new)) }
    ensures pass { IfOk result (λ pass. pass ≢ Pass.Withheld → (served : ServesPass C.model D.Stream.calls D.calls
        backlog true first door.old door.new core.old core.new slots.old slots.new)
        × (pass ≡ Pass.Idle → (served.was_read ≡ false) × (served.was_written ≡ false))
        × (pass ≡ Pass.Moved → (served.was_read ≡ true) ⊎ (served.was_written ≡ true))) }
    ensures withheld { IfOk result (λ pass. pass ≡ Pass.Withheld → ServesPass C.model D.Stream.calls D.calls backlog
        false first door.old door.new core.old core.new slots.old slots.new) }
{
    dismiss(core, slots, door);
    let was_read = gather(core, slots, door, backlog, first, busy)?;
    core.flush()?;
    if !door.lets_reply() {
        return Ok(Pass::Withheld);
    }
    let was_written = write_turns(core, slots);
    Ok(if was_read | was_written {
        Pass::Moved
    } else {
        Pass::Idle
    })
}
