//! Laws of rotations. Each function does nothing: its contract is the law.
ghost use Rattle.std.specs.Prelude.{◌≡◌, true, List, [], ◌∷◌};
ghost use Rattle.audit_chain.specs.Event.{EventData};
ghost use Rattle.audit_store_commit.specs.Origin.{Origin};
ghost use Rattle.audit_store.specs.Store.{active_header, Holds};
ghost use Rattle.audit_cli_rotate.specs.Links.{link_to, closed_events, IsFoundRotated};
ghost use Rattle.audit_cli_rotate.specs.Lines.{rotated_lines};

use audit_disk_model::Sectors;
use audit_store::Store;

/// What was rotated is found: a new store that holds the event with a closed log's last commitment, and nothing else.
pub fn rotated_logs_are_found<O: Sectors, N: Sectors>(old: &Store<O>, new: &Store<N>)
    ensures { (origin : Origin) → (active_header old.now).closed ≡ true
        → Holds new.now origin (link_to (active_header old.now) ∷ [])
        → IsFoundRotated origin.first_key (active_header old.now) (active_header new.now) }
{}

/// A rotation that is continued gives what it gives without an interruption. The old log ends with the closing event
/// once, whether it was closed now or before. The first event of the new store and the lines depend only on the events
/// that are held, so each run that succeeds links and writes the same.
pub fn continued_rotations_are_the_same<O: Sectors, P: Sectors, N: Sectors, M: Sectors>(
    old: &Store<O>,
    again: &Store<P>,
    new: &Store<N>,
    other: &Store<M>,
)
    ensures closing { (events : List EventData) → closed_events (closed_events events) ≡ closed_events events }
    ensures link { (origin : Origin) (events : List EventData) → Holds old.now origin events
        → Holds again.now origin events → link_to (active_header old.now) ≡ link_to (active_header again.now) }
    ensures lines { (origin made : Origin) (events first : List EventData) → Holds old.now origin events
        → Holds again.now origin events → Holds new.now made first → Holds other.now made first
        → rotated_lines (active_header old.now) (active_header new.now)
        ≡ rotated_lines (active_header again.now) (active_header other.now) }
{}
