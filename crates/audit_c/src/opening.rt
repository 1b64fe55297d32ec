//! The event of an inclusion proof, opened with the key of a receipt.
ghost use Rattle.std.specs.Prelude.{◌≡◌, ◌≢◌, ◌<◌, ◌≤◌, length, take, MatchOption};
ghost use Rattle.audit_base.specs.declared.limits.TheConstants.{MAX_PAYLOAD};
ghost use Rattle.audit_chain.specs.Keystream.{keystream, xor_bytes};
ghost use Rattle.audit_proof.specs.ProofBytes.{member_of};
ghost use Rattle.audit_link.specs.OpenedEntry.{IsSoleEntry, ReadsAs};
ghost use Rattle.audit_c.specs.Given.{given};
ghost use Rattle.audit_c.specs.Judged.{member_shown};
ghost use Rattle.audit_c.specs.Opened.{IsOpenedAnswer, IsMemberOpened};

use crate::answers::{BAD_PROOF, MISUSED, NOT_ACCEPTED, OK};
use crate::commitment::{GivenCommitment, commitment_of};
use crate::given_event::GivenEvent;
use crate::proof_views::{MemberView, member_view};
use crate::proofs::proves_entry;
use audit_base::{HASH_LEN, MAX_PAYLOAD};
use audit_chain::{apply_stream, read_entry};
use audit_proof::Commitment;

/// Checks the bytes of an inclusion proof under a commitment and, if it is accepted, hands out the event that its entry
/// reads as under the key of its keystream, as `audit check --key` does. A wrong key isn't noticed. The answers:
///
/// - `OK`: the event is in `event` and at the start of `payload`; `event.taken` is the length of the proof.
/// - `NOT_ACCEPTED`: the proof isn't of the commitment's count, or isn't accepted.
/// - `BAD_PROOF`: the bytes are no inclusion proof, or an accepted one of bytes that aren't one entry.
/// - `MISUSED`: `payload` has fewer than 32,696 bytes.
///
/// With any other answer than `OK` nothing is written.
#[unsafe(no_mangle)]
pub extern "C" fn audit_store_open_inclusion(
    proof: &[u8],
    commitment: &GivenCommitment,
    key: &[u8; HASH_LEN],
    event: &mut GivenEvent,
    payload: &mut [u8],
) -> u32
    ensures opened { MAX_PAYLOAD ≤ length payload.old
        → IsOpenedAnswer key.now (member_of proof.now) (given commitment.now) event.new payload.new result }
    ensures taken { result ≡ OK → event.new.taken ≡ length proof.now }
    ensures misused { length payload.old < MAX_PAYLOAD → result ≡ MISUSED }
    ensures stays { result ≢ OK → (event.new ≡ event.old) × (payload.new ≡ payload.old) }
{
    if payload.len() < MAX_PAYLOAD {
        return MISUSED;
    }
    match member_view(proof) {
        Some(view) => open_view(
            view,
            proof.len(),
            &commitment_of(commitment),
            key,
            event,
            payload,
        ),
        None => BAD_PROOF,
    }
}

// Opens the entry of a proof that takes this number of bytes.
fn open_view(
    view: MemberView<'_>,
    taken: usize,
    commitment: &Commitment,
    key: &[u8; HASH_LEN],
    event: &mut GivenEvent,
    payload: &mut [u8],
) -> u32
    requires room { MAX_PAYLOAD ≤ length payload.old }
    ensures opened { IsMemberOpened key.now (member_shown view.entry) commitment.now event.new payload.new result }
    ensures taken { result ≡ OK → event.new.taken ≡ taken }
    ensures stays { result ≢ OK → (event.new ≡ event.old) × (payload.new ≡ payload.old) }
{
    if !proves_entry(view, commitment) {
        return NOT_ACCEPTED;
    }
    let Some(opened) = open_alone(key, view.entry, payload) else {
        return BAD_PROOF;
    };
    event.taken = taken;
    event.size = opened.size;
    event.index = view.index;
    event.kind = opened.kind;
    OK
}

// The kind of an entry that was opened, and the length of its payload.
#[derive(Clone, Copy)]
struct Opened {
    kind: u32,
    size: usize,
}

// Opens the entry that these bytes are, if they are one and nothing else, into the start of `payload`.
fn open_alone(key: &[u8; HASH_LEN], entry: &[u8], payload: &mut [u8]) -> Option<Opened>
    requires room { MAX_PAYLOAD ≤ length payload.old }
    ensures { MatchOption result (¬ IsSoleEntry entry.now × (payload.new ≡ payload.old))
        (λ opened. (opened.size ≤ length payload.new)
        × ReadsAs key.now entry.now (record { kind = opened.kind; payload = take opened.size payload.new })) }
{
    let Ok(view) = read_entry(entry) else {
        return None;
    };
    if view.size() != entry.len() {
        return None;
    }
    let kind = view.kind();
    let size = decrypt(key, view.cipher(), payload);
    Some(Opened { kind, size })
}

// Decrypts a cipher into the start of `payload`, and returns its length.
fn decrypt(key: &[u8; HASH_LEN], cipher: &[u8], payload: &mut [u8]) -> usize
    requires room { length cipher.now ≤ length payload.old }
    ensures size { result ≡ length cipher.now }
    ensures opened { take result payload.new ≡ xor_bytes cipher.now (keystream key.now (length cipher.now)) }
    ensures long { length payload.new ≡ length payload.old }
{
    let place = &mut payload[..cipher.len()];
    place.copy_from_slice(cipher);
    apply_stream(key, place);
    cipher.len()
}
