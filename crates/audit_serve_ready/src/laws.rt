//! Laws of serving, each the contract of a function that does nothing.
ghost use Rattle.std.specs.Prelude.{◌≡◌, ◌⊎◌, ℕ, ◌+◌, ◌*◌, ◌<◌, ◌≤◌, None, List, [], ◌∷◌, ◌++◌, true, false, length};
ghost use Rattle.std.specs.Prelude.{◌↔◌};
ghost use Rattle.audit_base.specs.declared.limits.TheConstants.{SESSIONS};
ghost use Rattle.audit_serve_passes.specs.Streams.{bytes_read};
ghost use Rattle.audit_serve_passes.specs.Core.{RequestKind, appending};
ghost use Rattle.audit_serve_ready.specs.declared.departure.Departure.{Departure};
ghost use Rattle.audit_serve_ready.specs.declared.departure.Departure.TheVariants.{CutOff};
ghost use Rattle.audit_serve_ready.specs.declared.newcomer.Newcomer.{Newcomer};
ghost use Rattle.audit_serve_ready.specs.Door.{a_parting};
ghost use Rattle.audit_serve_ready.specs.Slot.{SlotData, serving, kept_of, unread_of, has_client, has_kept, is_shut};
ghost use Rattle.audit_serve_ready.specs.Slot.{noted_of, departure_for};
ghost use Rattle.audit_serve_ready.specs.Places.{slot_at, IsServedAt};
ghost use Rattle.audit_serve_ready.specs.Clients.{ClientChange, a_coming, AreChanges};
ghost use Rattle.audit_serve_ready.specs.Stays.{steps_in, taken_in, calls_in, StaysAt};
ghost use Rattle.audit_serve_ready.specs.Turns.{passes_in, own_turns};
ghost use Rattle.audit_serve_ready.specs.Rounds.{ServesPass, IsHeard, ServesPlacesOnce, AreRounds, IsOfferAnswered};

use crate::door::Door;
use crate::ready_stream::ReadyStream;
use audit_serve_passes::SessionCore;

/// A client from its coming on, as long as it stays, whoever was in its place before and whoever comes and goes in the
/// others. All bytes that were fed to its session, and then those that it hasn't taken yet, are those that its own
/// stream gave, in order. All that was taken of its session's output was written to its own stream, or is kept for it,
/// or was dropped when it took no more replies.
pub fn a_client_is_served_from_its_coming<C: SessionCore, S: ReadyStream>()
    ensures { (k : ℕ) (client : Newcomer S) (changes : List (ClientChange S)) (old new : C)
        (before after : List (SlotData S)) (backlog first : ℕ)
        → AreChanges C.model S.calls backlog first (a_coming k client ∷ changes) old new before after
        → StaysAt k changes
        → IsServedAt S.calls k (steps_in changes) [] (taken_in k changes) (calls_in k changes)
        (serving client.stream [] [] None) (slot_at k after) }
{}

/// A session has the first turn once in as many passes as there are sessions, whoever comes and goes. Whoever has it
/// takes a request, or all that is unread, if its client is heard and the backlog has room
/// ([`serve_clients`](crate::serve_clients)). So the n-th question that was read and waits is taken within 16 n passes.
pub fn each_session_has_its_turn<S: ReadyStream>()
    ensures { (k n first : ℕ) (changes : List (ClientChange S)) → k < SESSIONS → first < SESSIONS
        → SESSIONS * n ≤ passes_in changes → n ≤ own_turns k first changes }
{}

/// Rounds of serving are passes, comings and goings, of which the first pass has session 0 first: as many passes as
/// there are rounds. So the laws above hold of them.
pub fn rounds_are_changes<C: SessionCore, D: Door>()
    ensures { (backlog rounds : ℕ) (was now : D) (old new : C) (before after : List (SlotData D.Stream))
        → AreRounds C.model D.Stream.calls D.calls backlog rounds was now old new before after
        → (changes : List (ClientChange D.Stream)) × (passes_in changes ≡ rounds)
        × AreChanges C.model D.Stream.calls backlog 0 changes old new before after }
{}

/// Each session that is live is heard in each pass whose replies leave, whatever the clients of the others do: its
/// client is asked for bytes, unless some are unread or the door dismissed it; its session takes them all, up to a
/// request that has to wait: one for whose reply its backlog has no room, or a question, if the longest replies to the
/// questions that were taken in the pass, and to itself, have more than [`MAX_ASKED`](crate::MAX_ASKED) bytes; whatever
/// is taken in the pass is answered in it, so that each append is committed or refused; and what is kept for the client
/// is offered to it.
pub fn each_pass_hears_each_client<C: SessionCore, D: Door>()
    ensures { (backlog first k : ℕ) (was now : D) (old new : C) (before after : List (SlotData D.Stream))
        (pass : ServesPass C.model D.Stream.calls D.calls backlog true first was now old new before after)
        → k < length before → C.model.ended old [] k ≡ false
        → IsHeard C.model D.Stream.calls D.calls backlog k first pass.turns (slot_at k pass.judged) (pass.reads k)
        (pass.writes k) old new (slot_at k before) (slot_at k after) }
{}

/// An append or a close that is at the front of a client's bytes is taken in the pass in which its last byte is read,
/// whatever the others ask, if nothing is kept for the client or its backlog has room for the reply, unless the door
/// dismisses the client; and what is taken in a pass is committed or refused in it. An append that isn't at the front
/// waits only behind a question that isn't taken, or for room in the client's own backlog
/// ([`each_pass_hears_each_client`]).
pub fn appends_in_front_are_taken<C: SessionCore, D: Door>()
    ensures { (backlog first k : ℕ) (was now : D) (old new : C) (before after : List (SlotData D.Stream))
        (later : List RequestKind)
        (pass : ServesPass C.model D.Stream.calls D.calls backlog true first was now old new before after)
        → k < length before → C.model.ended old [] k ≡ false → is_shut (slot_at k pass.judged) ≡ false
        → C.model.requests old k (unread_of (slot_at k pass.judged) ++ bytes_read (pass.reads k)) ≡ appending ∷ later
        → (kept_of (slot_at k pass.judged) ≡ [])
        ⊎ (length (kept_of (slot_at k pass.judged)) + C.model.acknowledgement ≤ backlog)
        → (fed : List ℕ) × (more : List RequestKind)
        × (unread_of (slot_at k pass.judged) ++ bytes_read (pass.reads k) ≡ fed ++ unread_of (slot_at k after))
        × (C.model.requests old k fed ≡ appending ∷ more) }
{}

/// Whoever is still there after the goings of a round has a session that goes on, or something is kept for it. Whoever
/// went was handed back as [`CutOff`](crate::Departure::CutOff) exactly if its session had ended by a request that its
/// rights don't allow, and else for what was noted in its place. And each place that was free after them was offered:
/// it has a client now, or nobody came, or memory was refused for whoever came.
pub fn whoever_is_done_goes<C: SessionCore, D: Door>()
    ensures goes { (backlog first k : ℕ) (was now : D) (old new : C) (before after : List (SlotData D.Stream))
        (once : ServesPlacesOnce C.model D.Stream.calls D.calls backlog first was now old new before after)
        → k < length once.left → C.model.ended once.mid [] k ≡ true → has_client (slot_at k once.left) ≡ true
        → has_kept (slot_at k once.left) ≡ true }
    ensures why { (backlog first k : ℕ) (was now : D) (old new : C) (before after : List (SlotData D.Stream))
        (once : ServesPlacesOnce C.model D.Stream.calls D.calls backlog first was now old new before after)
        (client : D.Stream) (why : Departure) → k < length once.present
        → once.goes.told k ≡ a_parting k client why ∷ []
        → (why ≡ departure_for (C.model.cut_off once.mid k) (noted_of (slot_at k once.present)))
        × ((why ≡ CutOff) ↔ (C.model.cut_off once.mid k ≡ true)) }
    ensures comes { (backlog first k : ℕ) (was now : D) (old new : C) (before after : List (SlotData D.Stream))
        (once : ServesPlacesOnce C.model D.Stream.calls D.calls backlog first was now old new before after)
        → k < length once.left → C.model.ended once.mid [] k ≡ true → has_client (slot_at k once.left) ≡ false
        → IsOfferAnswered k (once.comes.told k) (once.comes.changes k) }
{}
