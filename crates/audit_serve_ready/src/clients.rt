ghost use Rattle.std.specs.Prelude.{◌≡◌, ◌≢◌, ◌⊎◌, ◌<◌, ◌≤◌, ℕ, List, [], ◌∷◌, true, false, length};
ghost use Rattle.audit_base.specs.declared.limits.TheConstants.{SESSIONS};
ghost use Rattle.audit_serve_passes.specs.Transition.{AreEmpty};
ghost use Rattle.audit_serve_ready.specs.Door.{DoorCall, a_parting};
ghost use Rattle.audit_serve_ready.specs.Slot.{vacant, client_of, has_client, noted_of, departure_for};
ghost use Rattle.audit_serve_ready.specs.Places.{slot_at};
ghost use Rattle.audit_serve_ready.specs.Backlog.{AreWithinBacklog};
ghost use Rattle.audit_serve_ready.specs.declared.newcomer.Newcomer.{Newcomer};
ghost use Rattle.audit_serve_ready.specs.Clients.{ClientChange, a_refusal, AreChanges};
ghost use Rattle.audit_serve_ready.specs.Rounds.{is_done, is_free, IsLetGo, IsLetIn, IsOfferAnswered, ChangesPlaces};
ghost use Rattle.audit_serve_ready.specs.Rounds.{HasTurnedAway};

use crate::departure::{Departure, departure_for};
use crate::door::Door;
use crate::ready_stream::ReadyStream;
use crate::slot::Slot;
use audit_serve_passes::SessionCore;

/// Whether a place has a client whose session has ended and for which nothing is kept.
fn may_go<C: SessionCore, S: ReadyStream + Drop>(core: &C, place: usize, slot: &Slot<S>) -> bool
    requires { place < SESSIONS }
    ensures { result ≡ is_done C.model place core.now slot.now }
{
    core.ended(place) && slot.has_client() && !slot.has_kept()
}

fn part_with<D: Door>(place: usize, slot: &mut Slot<D::Stream>, is_cut_off: bool, door: &mut D)
    ensures left { slot.new ≡ vacant }
    ensures told { has_client slot.old ≡ true → (client : D.Stream) × (client_of slot.old ≡ Some client)
        × D.calls.DidCalls door.old door.new
        (a_parting place client (departure_for is_cut_off (noted_of slot.old)) ∷ []) }
{
    if let Some((client, noted)) = slot.leave() {
        door.gone(place, client, departure_for(is_cut_off, noted));
    }
}

/// Lets each client go whose session has ended and for which nothing is kept. Returns whether one went.
pub(crate) fn let_go<C: SessionCore, D: Door>(
    core: &C,
    slots: &mut [Slot<D::Stream>],
    door: &mut D,
) -> bool
    requires count { length slots.old ≤ SESSIONS }
    requires empty { AreEmpty C.model (length slots.old) core.now }
    ensures went { (backlog first : ℕ) → ChangesPlaces C.model D.Stream.calls D.calls backlog (IsLetGo C.model)
        (length slots.old) first door.old door.new core.now core.now slots.old slots.new }
    ensures still { result ≡ false → slots.new ≡ slots.old }
    ensures moves { result ≡ true → slots.new ≢ slots.old }
    ensures none_done { (k : ℕ) → k < length slots.new → is_done C.model k core.now (slot_at k slots.new) ≡ false }
    ensures within { (backlog : ℕ) → AreWithinBacklog C.model backlog core.now slots.old
        → AreWithinBacklog C.model backlog core.now slots.new }
{
    let mut moved = false;
    for place in 0..slots.len() {
        if may_go(core, place, &slots[place]) {
            part_with(place, &mut slots[place], core.is_cut_off(place), door);
            moved = true;
        }
    }
    moved
}

/// Whether a place has no client, and its session has ended.
fn is_free<C: SessionCore, S: ReadyStream + Drop>(core: &C, place: usize, slot: &Slot<S>) -> bool
    requires { place < SESSIONS }
    ensures { result ≡ is_free C.model place core.now slot.now }
{
    core.ended(place) && !slot.has_client()
}

/// Lets the next client in, if one has come. Returns whether one has; it was turned away if memory was refused.
fn let_in_at<C: SessionCore, D: Door>(
    core: &mut C,
    place: usize,
    slots: &mut [Slot<D::Stream>],
    door: &mut D,
) -> bool
    requires count { length slots.old ≤ SESSIONS }
    requires within { place < length slots.old }
    requires ended { C.model.ended core.old [] place ≡ true }
    requires idle { C.model.Idle core.old }
    requires taken { C.model.output core.old place ≡ [] }
    requires vacant { has_client (slot_at place slots.old) ≡ false }
    ensures came { (told : List (DoorCall D.Stream)) × (changes : List (ClientChange D.Stream))
        × D.calls.DidCalls door.old door.new told × IsOfferAnswered place told changes
        × ((backlog first : ℕ) → AreChanges C.model D.Stream.calls backlog first changes core.old core.new
        slots.old slots.new)
        × (result ≡ false → changes ≡ [])
        × (result ≡ true → (has_client (slot_at place slots.new) ≡ true)
        ⊎ ((client : Newcomer D.Stream) × (changes ≡ a_refusal place client ∷ []))) }
    ensures still { result ≡ false → slots.new ≡ slots.old }
    ensures alone { (other : ℕ) → (other ≡ place → ⊥)
        → (C.model.ended core.new [] other ≡ C.model.ended core.old [] other)
        × (slot_at other slots.new ≡ slot_at other slots.old) }
    ensures idle { C.model.Idle core.new }
    ensures outputs { (other : ℕ) → C.model.output core.new other ≡ C.model.output core.old other }
    ensures within { (backlog : ℕ) → AreWithinBacklog C.model backlog core.old slots.old
        → AreWithinBacklog C.model backlog core.new slots.new }
{
    let Some(newcomer) = door.next_client(place) else {
        return false;
    };
    if core.reopen(place, newcomer.rights).is_err() {
        door.gone(place, newcomer.stream, Departure::Memory);
        return true;
    }
    slots[place].admit(newcomer.stream);
    true
}

/// Offers each place that is free to whoever comes next. Returns whether a client came or was turned away.
pub(crate) fn let_in<C: SessionCore, D: Door>(
    core: &mut C,
    slots: &mut [Slot<D::Stream>],
    door: &mut D,
) -> bool
    requires count { length slots.old ≤ SESSIONS }
    requires idle { C.model.Idle core.old }
    requires empty { AreEmpty C.model (length slots.old) core.old }
    ensures came { (backlog first : ℕ) → (comes : ChangesPlaces C.model D.Stream.calls D.calls backlog
        (IsLetIn C.model) (length slots.old) first door.old door.new core.old core.new slots.old slots.new)
        × (result ≡ false → HasTurnedAway (length slots.old) comes.changes → ⊥)
        × (result ≡ true → (slots.new ≢ slots.old) ⊎ HasTurnedAway (length slots.old) comes.changes) }
    ensures still { result ≡ false → slots.new ≡ slots.old }
    ensures idle { C.model.Idle core.new }
    ensures outputs { (other : ℕ) → C.model.output core.new other ≡ C.model.output core.old other }
    ensures within { (backlog : ℕ) → AreWithinBacklog C.model backlog core.old slots.old
        → AreWithinBacklog C.model backlog core.new slots.new }
{
    let mut moved = false;
    for place in 0..slots.len() {
        if is_free(core, place, &slots[place]) {
            moved |= let_in_at(core, place, slots, door);
        }
    }
    moved
}
