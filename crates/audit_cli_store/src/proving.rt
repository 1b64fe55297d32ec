//! Proofs about a store's history, as bytes.
ghost use Rattle.std.specs.Prelude.{◌≡◌, ◌≢◌, ◌⊎◌, ◌<◌, ◌≤◌, true, false, Err, List, length, vec_len, MatchResult, IfOk};
ghost use Rattle.std.specs.Prelude.{IfErr};
ghost use Rattle.audit_chain.specs.Event.{EventData};
ghost use Rattle.audit_store_commit.specs.Origin.{Origin};
ghost use Rattle.audit_proof.specs.ProofBytes.{member_in, increment_in};
ghost use Rattle.audit_store.specs.Recovered.{IsOfDeviceOrMemory};
ghost use Rattle.audit_store.specs.Queries.{IsProofOf, OnlyRead};
ghost use Rattle.audit_store.specs.Store.{device, active_header, is_broken, Holds};
ghost use Rattle.audit_cli_store.specs.Proofs.{member_of_log, increment_of_log, proof_of_log, AsksOutside};
ghost use Rattle.audit_cli_store.specs.Proofs.{IsDeviceOrMemory};
ghost use Rattle.audit_cli_store.specs.Salvaged.{CountsRefusal};
ghost use Rattle.audit_disk_model.specs.Calls.{HasRisen};
ghost use Rattle.audit_base.specs.declared.limits.TheConstants.{MAX_ENTRY, MAX_MEMBER_HASHES, MAX_INCREMENT_HASHES};
ghost use Rattle.audit_cli_base.specs.Faults.{IsNoWordFault};

use audit_cli_base::{CommandError, ProofRequest};
use audit_disk_model::Sectors;
use audit_proof::{IncrementProof, MemberProof, write_increment, write_member};
use audit_store::{Store, StoreError};
use std::alloc::Global;

/// Returns the bytes of a store's proof, or its refusal. Nothing is written to the device.
pub fn proof_bytes<D: Sectors>(
    alloc: Global,
    store: &mut Store<D>,
    asked: ProofRequest,
) -> Result<Vec<u8>, CommandError>
    ensures broken { is_broken store.old ≡ true → result ≡ Err (CommandError.Refused StoreError.Broken) }
    ensures outside { is_broken store.old ≡ false → AsksOutside asked (active_header store.old).count
        → result ≡ Err (CommandError.Refused StoreError.NoSuchVersion) }

    // The proof is about the events that the store holds, and only the device or memory can fail.
    ensures log { (origin : Origin) (events : List EventData) → Holds store.old origin events
        → (AsksOutside asked (length events) → ⊥)
        → MatchResult result (λ bytes. bytes.items ≡ proof_of_log origin.first_key events asked) IsDeviceOrMemory }
    ensures holds { (origin : Origin) (events : List EventData) → Holds store.old origin events
        → Holds store.new origin events }
    ensures cause { CountsRefusal (device store.old).failures (device store.new).failures result }
    ensures reads { OnlyRead store.old store.new }
    ensures words { IfErr result IsNoWordFault }
{
    match asked {
        ProofRequest::Member { index, count } => {
            let proof = member_proof(store, index, count)?;
            Ok(write_member(alloc, &proof)?)
        }
        ProofRequest::Increment { older, newer } => {
            let proof = increment_proof(store, older, newer)?;
            Ok(write_increment(alloc, &proof)?)
        }
    }
}

// The membership proof of an event, with its entry.
fn member_proof<D: Sectors>(
    store: &mut Store<D>,
    index: u64,
    count: u64,
) -> Result<MemberProof, StoreError>
    ensures few { IfOk result (λ proof. vec_len proof.hashes ≤ MAX_MEMBER_HASHES) }
    ensures short { IfOk result (λ proof. vec_len proof.entry ≤ MAX_ENTRY) }
    ensures broken { is_broken store.old ≡ true → result ≡ Err StoreError.Broken }
    ensures outside { is_broken store.old ≡ false → (count ≤ index) ⊎ ((active_header store.old).count < count)
        → result ≡ Err StoreError.NoSuchVersion }
    ensures log { (origin : Origin) (events : List EventData) → Holds store.old origin events
        → IfOk result (λ proof. member_in proof ≡ member_of_log origin.first_key events index count) }
    ensures fault { (origin : Origin) (events : List EventData) → Holds store.old origin events
        → index < count → count ≤ length events → IfErr result IsOfDeviceOrMemory }
    ensures holds { (origin : Origin) (events : List EventData) → Holds store.old origin events
        → Holds store.new origin events }
    ensures cause { result ≢ Err StoreError.Device → (device store.new).failures ≡ (device store.old).failures }
    ensures counted { result ≡ Err StoreError.Device
        → HasRisen (device store.old).failures (device store.new).failures }
    ensures reads { OnlyRead store.old store.new }
{
    let hashes = store.membership(index, count)?;
    let entry = store.entry(index)?;
    Ok(MemberProof {
        index,
        count,
        hashes,
        entry,
    })
}

// The incremental proof from the older to the newer count.
fn increment_proof<D: Sectors>(
    store: &Store<D>,
    older: u64,
    newer: u64,
) -> Result<IncrementProof, StoreError>
    ensures few { IfOk result (λ proof. vec_len proof.hashes ≤ MAX_INCREMENT_HASHES) }
    ensures outcome { IsProofOf (is_broken store.now)
        ((older ≡ 0) ⊎ (newer < older) ⊎ ((active_header store.now).count < newer)) result }
    ensures log { (origin : Origin) (events : List EventData) → Holds store.now origin events
        → IfOk result (λ proof. increment_in proof ≡ increment_of_log origin.first_key events older newer) }
{
    let hashes = store.incremental(older, newer)?;
    Ok(IncrementProof {
        older,
        newer,
        hashes,
    })
}
