//! Laws of the stores that commands open. Each function does nothing: its contract is the law.
ghost use Rattle.std.specs.Prelude.{◌≡◌, ◌⊎◌, ◌≤◌, ℕ, List, length, take};
ghost use Rattle.audit_chain.specs.Event.{EventData};
ghost use Rattle.audit_chain.specs.Entries.{log_entries};
ghost use Rattle.audit_proof.specs.Acceptance.{commitment_to};
ghost use Rattle.audit_proof.specs.declared.commitment.Commitment.{Commitment};
ghost use Rattle.audit_store_commit.specs.Origin.{Origin};
ghost use Rattle.audit_store.specs.Extending.{ExtendsCommitment};
ghost use Rattle.audit_store.specs.Store.{index_of, Holds};
ghost use Rattle.audit_proof.specs.TreesCollide.{TreesCollide};

use audit_disk_model::Sectors;
use audit_store::Store;

/// A store was opened under the commitment to some entries that were witnessed, and holds some events. Then it has at
/// least as many, and the first of them are those that were witnessed, or the texts of a node of both trees, at the same
/// place, differ and have one SHA-256. So no store that was put back from a copy is served, nor any that went on from
/// one to as many entries, unless SHA-256 collides.
pub fn stores_begin_with_what_was_witnessed<D: Sectors>(store: &Store<D>)
    ensures count { (older : Commitment) (witnessed : List (List ℕ)) (origin : Origin) (events : List EventData)
        → Holds store.now origin events → ExtendsCommitment older (index_of store.now).leaves
        → older ≡ commitment_to witnessed → length witnessed ≤ length events }
    ensures first { (older : Commitment) (witnessed : List (List ℕ)) (origin : Origin) (events : List EventData)
        → Holds store.now origin events → ExtendsCommitment older (index_of store.now).leaves
        → older ≡ commitment_to witnessed
        → (take older.count (log_entries origin.first_key events) ≡ witnessed)
        ⊎ TreesCollide (take older.count (log_entries origin.first_key events)) witnessed }
{}
