ghost use Rattle.std.specs.Prelude.{◌≡◌, ◌≢◌, ◌⊎◌, ◌<◌, ◌≤◌, ℕ, true, false, length, IfOk, IfErr, OnOk};
ghost use Rattle.audit_base.specs.declared.limits.TheConstants.{SESSIONS};
ghost use Rattle.audit_serve_ready.specs.declared.turns.Pass.{Pass};
ghost use Rattle.audit_serve_ready.specs.Backlog.{OwesNothing, AreWithinBacklog};
ghost use Rattle.audit_serve_ready.specs.declared.next.Next.TheVariants as next;
ghost use Rattle.audit_serve_ready.specs.Slot.{has_kept};
ghost use Rattle.audit_serve_ready.specs.Places.{slot_at, WritesOn, OffersKept};
ghost use Rattle.audit_serve_ready.specs.Clients.{next_first, ServesClients, StopsServing};
ghost use Rattle.audit_serve_ready.specs.Rounds.{IsWritten, ServesPass, ServesPlacesOnce, IsStill, IsMoving, IsRound};
ghost use Rattle.audit_serve_ready.specs.Rounds.{ServesUntilStopped};

use crate::clients::{let_go, let_in};
use crate::door::Door;
use crate::gathering::Marks;
use crate::next::Next;
use crate::ready_stream::ReadyStream;
use crate::slot::Slot;
use crate::turns::{Pass, serve_present};
use audit_base::SESSIONS;
use audit_serve_passes::SessionCore;

/// Serves clients as they come and go, until the door says to stop or lets no replies leave, or the core refuses a
/// step. The first place is that of session 0; a session whose place has no client is ended first.
///
/// A pass reads one piece from each client and feeds it to its session, up to the first request whose reply might be
/// more than the `backlog` has room for, or than the questions of a pass may ask for ([`MAX_ASKED`](crate::MAX_ASKED)):
/// the rest of the piece waits for a later pass. A piece has at most [`MAX_READ`](crate::MAX_READ) bytes, and less if
/// clients share them. A client that doesn't take its replies waits too: what is kept for it is at most the backlog, in
/// bytes, or one reply. The first turn goes round from pass to pass, and whoever has it has a question taken, however
/// many others ask. So that one commit has what comes meanwhile, the door may have clients that have sent nothing asked
/// again ([`Door::asks_again`]). Then the core flushes, and each client is sent what waits for it: what it doesn't take
/// is kept for it. If a write fails, the client's replies are dropped, but all that it sent is read. A client whose
/// session has ended goes when it has taken everything, and the next client gets its place and a session that begins
/// anew.
///
/// If the core refuses a step, serving stops at once, and the clients keep their places. Whatever happens, what was
/// fed to a client's session is what was read from its stream, except for a piece that a refused step may have lost.
pub fn serve_clients<C: SessionCore, D: Door>(
    core: &mut C,
    slots: &mut [Slot<D::Stream>],
    door: &mut D,
    backlog: usize,
) -> Result<(), C::Error>
    requires { length slots.old ≤ SESSIONS }
    // It went on in rounds until the door said to stop, or let no replies leave. In a round the clients that are there
    // are served in a pass, whoever is done goes, and each place that is free is offered to whoever comes next.
    ensures rounds { OnOk result (ServesUntilStopped C.model D.Stream.calls D.calls backlog door.old door.new
        core.old core.new slots.old slots.new) }
    // Passes, comings and goings led from the old core and places to the new.
    // After each pass nothing waits to be answered, and the session with the first turn takes a request, if it waits.
    ensures served { OnOk result ((next : ℕ)
        × ServesClients C.model D.Stream.calls backlog 0 next core.old core.new slots.old slots.new) }
    // If a step was refused, they led to the pass in which it was.
    ensures stopped { IfErr result (λ error. StopsServing C.model D.Stream.calls backlog
        (λ old new. C.refuses old new error) 0 core.old core.new slots.old slots.new) }
    // What is kept for a client and owed to its session is at most the backlog or one longest reply, if it was so at
    // the start and nothing was owed then.
    ensures within { OwesNothing C.model (length slots.old) core.old
        → AreWithinBacklog C.model backlog core.old slots.old
        → OnOk result (AreWithinBacklog C.model backlog core.new slots.new) }
{
    let mut busy = [false; SESSIONS];
    let mut first = 0;
    for round in 0..u64::MAX {
        let goes_on = serve_round(core, slots, door, backlog, first, &mut busy)?;
        first = next_first(first);
        if !goes_on {
            return Ok(());
        }
    }
    Ok(())
}

/// Serves a round: a pass, goings and comings, and a pause. Returns whether serving goes on. The door is asked unless
/// it withheld the replies.
fn serve_round<C: SessionCore, D: Door>(
    core: &mut C,
    slots: &mut [Slot<D::Stream>],
    door: &mut D,
    backlog: usize,
    first: usize,
    busy: &mut Marks,
) -> Result<bool, C::Error>
    requires { length slots.old ≤ SESSIONS }
    ensures served { OnOk result (ServesClients C.model D.Stream.calls backlog first (next_first first)
        core.old core.new slots.old slots.new) }
    ensures on { IfOk result (λ goes. goes ≡ true → IsRound C.model D.Stream.calls D.calls backlog next.Again first
        door.old door.new core.old core.new slots.old slots.new) }
    ensures over { IfOk result (λ goes. goes ≡ false → IsRound C.model D.Stream.calls D.calls backlog next.Stop first
        door.old door.new core.old core.new slots.old slots.new
        ⊎ ServesPass C.model D.Stream.calls D.calls backlog false first
        door.old door.new core.old core.new slots.old slots.new) }
    ensures stopped { IfErr result (λ error. StopsServing C.model D.Stream.calls backlog
        (λ old new. C.refuses old new error) first core.old core.new slots.old slots.new) }
    ensures within { OwesNothing C.model (length slots.old) core.old
        → AreWithinBacklog C.model backlog core.old slots.old
        → OnOk result (AreWithinBacklog C.model backlog core.new slots.new) }
    ensures owes { IfOk result (λ goes. goes ≡ true → OwesNothing C.model (length slots.old) core.new) }
{
    let pass = serve_pass(core, slots, door, backlog, first, busy)?;
    if pass == Pass::Withheld {
        return Ok(false);
    }
    let moved = pass == Pass::Moved;
    match door.pause(moved) {
        Next::Again => Ok(true),
        Next::Stop => Ok(false),
    }
}

/// The session that has the first turn in the next pass.
fn next_first(first: usize) -> usize
    ensures { result ≡ next_first first }
{
    if first < SESSIONS - 1 { first + 1 } else { 0 }
}

/// Serves a pass, lets clients go, and lets others in. Returns what it came to: it has moved if a client went or came.
fn serve_pass<C: SessionCore, D: Door>(
    core: &mut C,
    slots: &mut [Slot<D::Stream>],
    door: &mut D,
    backlog: usize,
    first: usize,
    busy: &mut Marks,
) -> Result<Pass, C::Error>
    requires { length slots.old ≤ SESSIONS }
    ensures served { OnOk result (ServesClients C.model D.Stream.calls backlog first (next_first first)
        core.old core.new slots.old slots.new) }
    ensures stopped { IfErr result (λ error. StopsServing C.model D.Stream.calls backlog
        (λ old new. C.refuses old new error) first core.old core.new slots.old slots.new) }
    ensures within { OwesNothing C.model (length slots.old) core.old
        → AreWithinBacklog C.model backlog core.old slots.old
        → OnOk result (AreWithinBacklog C.model backlog core.new slots.new) }
    ensures owes { IfOk result (λ pass. pass ≢ Pass.Withheld → OwesNothing C.model (length slots.old) core.new) }
    ensures once { IfOk result (λ pass. pass ≢ Pass.Withheld → (once : ServesPlacesOnce C.model D.Stream.calls D.calls
        backlog first door.old door.new core.old core.new slots.old slots.new)
        × (pass ≡ Pass.Idle → IsStill C.model D.Stream.calls D.calls backlog once)
        × (pass ≡ Pass.Moved → IsMoving C.model D.Stream.calls D.calls backlog once)) }
    ensures withheld { IfOk result (λ pass. pass ≡ Pass.Withheld → ServesPass C.model D.Stream.calls D.calls backlog
        false first door.old door.new core.old core.new slots.old slots.new) }
{
    let pass = serve_present(core, slots, door, backlog, first, busy)?;
    if pass == Pass::Withheld {
        return Ok(pass);
    }
    let gone = let_go(core, slots, door);
    let come = let_in(core, slots, door);
    Ok(if gone | come { Pass::Moved } else { pass })
}

/// Writes what is kept for the clients, as long as there is some and the door says to go on; nothing if the door lets
/// no replies leave. Nothing is read, and no client goes.
pub fn finish_writing<D: Door>(slots: &mut [Slot<D::Stream>], door: &mut D)
    ensures writes { WritesOn D.Stream.calls slots.old slots.new }
    // It ends when nothing is kept, or when the door says to stop; or the door let no replies leave.
    ensures written { IsWritten D.Stream.calls D.calls door.old door.new slots.old slots.new }
{
    if !door.lets_reply() {
        return;
    }
    for times in 0..u64::MAX {
        let moved = push_all(slots);
        if all_written(slots) {
            return;
        }
        match door.pause(moved) {
            Next::Again => {}
            Next::Stop => return,
        }
    }
}

fn push_all<S: ReadyStream + Drop>(slots: &mut [Slot<S>]) -> bool
    ensures { OffersKept S.calls slots.old slots.new }
{
    let mut moved = false;
    for place in 0..slots.len() {
        moved |= slots[place].push();
    }
    moved
}

fn all_written<S: ReadyStream + Drop>(slots: &[Slot<S>]) -> bool
    ensures { result ≡ true → (k : ℕ) → k < length slots.now → has_kept (slot_at k slots.now) ≡ false }
{
    for slot in slots {
        if slot.has_kept() {
            return false;
        }
    }
    true
}
