//! Questions to a server, each answer checked under the commitment that the server gave before it.
ghost use Rattle.std.specs.Prelude.{◌≡◌, ◌≤◌, ◌⊎◌, ◌↔◌, ◌∷◌, [], ℕ, List, IsTrue, IfOk, IfErr, OnOk, OnErr, vec_len};
ghost use Rattle.audit_base.specs.declared.limits.TheConstants.{MAX_ENTRY, MAX_MEMBER_HASHES, MAX_INCREMENT_HASHES};
ghost use Rattle.audit_base.specs.Hashes.{AreHashes};
ghost use Rattle.sha2.specs.Sha256.{sha256};
ghost use Rattle.audit_proof.specs.Acceptance.{AcceptsMembership, AcceptsIncrement};
ghost use Rattle.audit_proof.specs.ProofBytes.{Member, Increment, member_bytes, increment_bytes};
ghost use Rattle.audit_wire.specs.declared.reply.Reply.{Reply};
ghost use Rattle.audit_wire.specs.declared.request.Request.{Request};
ghost use Rattle.audit_wire.specs.declared.request.Request.TheVariants as request;
ghost use Rattle.audit_wire.specs.declared.reply.Reply.TheVariants as reply;
ghost use Rattle.audit_wire_ask.specs.Asking.{not_due, AnswersMember, AnswersIncrement, AnswersEntry, IsOneEntry};
ghost use Rattle.audit_wire_ask.specs.Asking.{IsVouchedIn};
ghost use Rattle.audit_wire_ask.specs.Conversation.{Converses};
ghost use Rattle.audit_wire_ask.specs.Failing.{HasNoAnswer, IsNoAnswer, IsNewestReply};
ghost use Rattle.audit_wire_ask.specs.Failing.{IsClosingReply};
ghost use Rattle.audit_wire_ask.specs.Failing.{IsMemberReply, IsIncrementReply, FailsNewest, FailsClosing};
ghost use Rattle.audit_wire_ask.specs.Failing.{FailsJoining, FailsJoiningBy, FailsEntry, FailsMember};
ghost use Rattle.audit_wire_ask.specs.Failing.{FailsIncrement};

use crate::conversation::ask;
use crate::fault::ClientError;
use audit_base::Hash;
use audit_chain::read_entry;
use audit_proof::{
    Commitment, IncrementProof, MAX_ENTRY, MAX_INCREMENT_HASHES, MAX_MEMBER_HASHES, MemberProof,
    accepts_increment, accepts_member, root_of_membership, roots_of_increment, write_increment,
    write_member,
};
use audit_wire::{Reply, RequestView};
use std::alloc::Global;
use std::io::{Read, Write};

/// The tag of the request for the newest commitment. Each request of a connection has a tag of its own, so that no
/// reply is taken for another's.
pub const NEWEST_TAG: u32 = 1;

/// The tag of the request for what is asked.
pub const ASKED_TAG: u32 = 2;

/// The tag of the request for the increment to the newest commitment.
pub const JOIN_TAG: u32 = 3;

/// Asks for the newest commitment.
///
/// Errors of every question: `Refused` if the server refuses; `BadReply` if it sends anything but a reply that is due;
/// `Ended` and `TimedOut` if the connection ends or stays silent; `NotAccepted` if what it sends isn't accepted under
/// the commitment that it gave; `Memory`.
pub fn newest_commitment<W: Write, R: Read>(
    alloc: Global,
    to: &mut W,
    from: &mut R,
) -> Result<Commitment, ClientError>
    ensures done { IfOk result (λ newest. Converses (W.contents to.old) (W.contents to.new)
        (R.remaining from.old) (R.remaining from.new) (request.Commitment NEWEST_TAG ∷ [])
        (reply.Commitment NEWEST_TAG newest.count newest.root ∷ [])) }
    ensures fault { IfErr result (FailsNewest (W.contents to.old) (W.contents to.new) (R.remaining from.old)
        (R.remaining from.new)) }
{
    let given = ask(alloc, to, from, RequestView::Commitment { tag: NEWEST_TAG })?;
    let newest = newest_in(&given)?;
    Ok(newest)
}

fn newest_in(given: &Reply) -> Result<Commitment, ClientError>
    ensures found { IfOk result (λ newest. given.now ≡ reply.Commitment NEWEST_TAG newest.count newest.root) }
    ensures fault { IfErr result (IsNoAnswer NEWEST_TAG IsNewestReply given.now) }
{
    match given {
        Reply::Commitment { tag, count, root } if *tag == NEWEST_TAG => Ok(Commitment {
            count: *count,
            root: *root,
        }),
        other => Err(not_due(NEWEST_TAG, other)),
    }
}

/// Closes the log, and returns its last commitment, which the server acknowledged.
pub fn close_log<W: Write, R: Read>(
    alloc: Global,
    to: &mut W,
    from: &mut R,
) -> Result<Commitment, ClientError>
    ensures done { IfOk result (λ last. (index : ℕ) × Converses (W.contents to.old) (W.contents to.new)
        (R.remaining from.old) (R.remaining from.new) (request.Close ASKED_TAG ∷ [])
        (reply.Acknowledgement ASKED_TAG index last.count last.root ∷ [])) }
    ensures fault { IfErr result (FailsClosing (W.contents to.old) (W.contents to.new) (R.remaining from.old)
        (R.remaining from.new)) }
{
    let given = ask(alloc, to, from, RequestView::Close { tag: ASKED_TAG })?;
    let last = last_in(&given)?;
    Ok(last)
}

fn last_in(given: &Reply) -> Result<Commitment, ClientError>
    ensures found { IfOk result (λ last. (index : ℕ)
        × (given.now ≡ reply.Acknowledgement ASKED_TAG index last.count last.root)) }
    ensures fault { IfErr result (IsNoAnswer ASKED_TAG IsClosingReply given.now) }
{
    match given {
        Reply::Acknowledgement {
            tag,
            count,
            root,
            ..
        } if *tag == ASKED_TAG => Ok(Commitment {
            count: *count,
            root: *root,
        }),
        other => Err(not_due(ASKED_TAG, other)),
    }
}

/// Asks for the entry of an index. It is accepted as that entry under the newest commitment, and is one entry alone:
/// more than it, or less, is a bad reply.
pub fn entry_of<W: Write, R: Read>(
    alloc: Global,
    to: &mut W,
    from: &mut R,
    index: u64,
) -> Result<Vec<u8>, ClientError>
    ensures done { IfOk result (λ entry. (newest : Commitment) × AnswersEntry (W.contents to.old) (W.contents to.new)
        (R.remaining from.old) (R.remaining from.new) newest index entry.items) }
    ensures fault { IfErr result (FailsEntry (W.contents to.old) (W.contents to.new) (R.remaining from.old)
        (R.remaining from.new) index) }
{
    let newest = newest_commitment(alloc, to, from)?;
    let proof = ask_member(alloc, to, from, index, newest.count)?;
    if !accepts_member(&newest, index, &proof.entry, &proof.hashes) {
        return Err(ClientError::NotAccepted);
    }
    if !is_one_entry(&proof.entry) {
        return Err(ClientError::BadReply);
    }
    Ok(proof.entry)
}

// Whether bytes are those of one entry, and nothing else.
fn is_one_entry(bytes: &[u8]) -> bool
    ensures { IsTrue result ↔ IsOneEntry bytes.now }
{
    match read_entry(bytes) {
        Ok(entry) => entry.size() == bytes.len(),
        Err(_) => false,
    }
}

/// Asks for the membership (inclusion) proof of an entry under a count, and returns its bytes. The proof is accepted
/// under a commitment of that count for which the newest vouches.
pub fn member_proof<W: Write, R: Read>(
    alloc: Global,
    to: &mut W,
    from: &mut R,
    index: u64,
    count: u64,
) -> Result<Vec<u8>, ClientError>
    ensures done { IfOk result (λ bytes. (newest : Commitment) × (proof : Member) × (proof.index ≡ index)
        × (proof.count ≡ count) × (bytes.items ≡ member_bytes proof) × AnswersMember (W.contents to.old)
        (W.contents to.new) (R.remaining from.old) (R.remaining from.new) newest proof) }
    ensures fault { IfErr result (FailsMember (W.contents to.old) (W.contents to.new) (R.remaining from.old)
        (R.remaining from.new) index count) }
{
    let newest = newest_commitment(alloc, to, from)?;
    let proof = ask_member(alloc, to, from, index, count)?;
    let Some(root) = root_of_membership(count, index, &proof.entry, &proof.hashes) else {
        return Err(ClientError::NotAccepted);
    };
    vouch(alloc, to, from, &Commitment { count, root }, &newest)?;
    Ok(write_member(alloc, &proof)?)
}

/// Asks for the incremental (consistency) proof between two counts, and returns its bytes. The proof is accepted
/// between commitments of these counts, and the newest vouches for the newer of them.
pub fn increment_proof<W: Write, R: Read>(
    alloc: Global,
    to: &mut W,
    from: &mut R,
    older: u64,
    newer: u64,
) -> Result<Vec<u8>, ClientError>
    ensures done { IfOk result (λ bytes. (newest : Commitment) × (proof : Increment) × (proof.older ≡ older)
        × (proof.newer ≡ newer) × (bytes.items ≡ increment_bytes proof) × AnswersIncrement (W.contents to.old)
        (W.contents to.new) (R.remaining from.old) (R.remaining from.new) newest proof) }
    ensures fault { IfErr result (FailsIncrement (W.contents to.old) (W.contents to.new) (R.remaining from.old)
        (R.remaining from.new) older newer) }
{
    let newest = newest_commitment(alloc, to, from)?;
    let proof = ask_increment(alloc, to, from, ASKED_TAG, older, newer)?;
    let Some(roots) = roots_of_increment(older, newer, &proof.hashes) else {
        return Err(ClientError::NotAccepted);
    };
    let root = roots.1;
    vouch(alloc, to, from, &Commitment { count: newer, root }, &newest)?;
    Ok(write_increment(alloc, &proof)?)
}

// Asks whether the newest commitment vouches for another one: it is the same, or the server gives an increment between
// them that is accepted.
fn vouch<W: Write, R: Read>(
    alloc: Global,
    to: &mut W,
    from: &mut R,
    older: &Commitment,
    newest: &Commitment,
) -> Result<(), ClientError>
    ensures done { OnOk result (IsVouchedIn (W.contents to.old) (W.contents to.new) (R.remaining from.old)
        (R.remaining from.new) [] [] older.now newest.now) }
    ensures other { OnErr result (older.now ≡ newest.now → ⊥) }
    ensures fault { IfErr result (FailsJoining (W.contents to.old) (W.contents to.new) (R.remaining from.old)
        (R.remaining from.new) older.now newest.now) }
{
    if *older == *newest {
        return Ok(());
    }
    join(alloc, to, from, older, newest)
}

/// Asks for the increment from an older commitment to a newer one. The only success is that it is accepted.
pub fn join<W: Write, R: Read>(
    alloc: Global,
    to: &mut W,
    from: &mut R,
    older: &Commitment,
    newer: &Commitment,
) -> Result<(), ClientError>
    ensures done { OnOk result ((hashes : List (List ℕ)) × Converses (W.contents to.old) (W.contents to.new)
        (R.remaining from.old) (R.remaining from.new)
        (request.Incremental JOIN_TAG older.now.count newer.now.count ∷ [])
        (reply.Incremental JOIN_TAG hashes ∷ []) × AcceptsIncrement sha256 older.now newer.now hashes
        × AreHashes hashes) }
    ensures fault { IfErr result (FailsJoining (W.contents to.old) (W.contents to.new) (R.remaining from.old)
        (R.remaining from.new) older.now newer.now) }
{
    join_by(alloc, to, from, JOIN_TAG, older, newer)
}

/// The same, with a tag of its own.
pub fn join_by<W: Write, R: Read>(
    alloc: Global,
    to: &mut W,
    from: &mut R,
    own_tag: u32,
    older: &Commitment,
    newer: &Commitment,
) -> Result<(), ClientError>
    ensures done { OnOk result ((hashes : List (List ℕ)) × Converses (W.contents to.old) (W.contents to.new)
        (R.remaining from.old) (R.remaining from.new)
        (request.Incremental own_tag older.now.count newer.now.count ∷ [])
        (reply.Incremental own_tag hashes ∷ []) × AcceptsIncrement sha256 older.now newer.now hashes
        × AreHashes hashes) }
    ensures fault { IfErr result (FailsJoiningBy own_tag (W.contents to.old) (W.contents to.new)
        (R.remaining from.old) (R.remaining from.new) older.now newer.now) }
{
    let proof = ask_increment(alloc, to, from, own_tag, older.count, newer.count)?;
    if is_increment(older, newer, &proof.hashes) {
        Ok(())
    } else {
        Err(ClientError::NotAccepted)
    }
}

// Whether an increment is accepted. Its hashes have their length.
fn is_increment(older: &Commitment, newer: &Commitment, hashes: &[Hash]) -> bool
    ensures exact { IsTrue result ↔ AcceptsIncrement sha256 older.now newer.now hashes.now }
    ensures whole { AreHashes hashes.now }
{
    accepts_increment(older, newer, hashes)
}

// Asks for a membership proof, which isn't judged.
fn ask_member<W: Write, R: Read>(
    alloc: Global,
    to: &mut W,
    from: &mut R,
    index: u64,
    count: u64,
) -> Result<MemberProof, ClientError>
    ensures done { IfOk result (λ proof. Converses (W.contents to.old) (W.contents to.new)
        (R.remaining from.old) (R.remaining from.new) (request.Membership ASKED_TAG index count ∷ [])
        (reply.Membership ASKED_TAG proof.hashes.items proof.entry.items ∷ [])) }
    ensures index { IfOk result (λ proof. proof.index ≡ index) }
    ensures count { IfOk result (λ proof. proof.count ≡ count) }
    ensures few { IfOk result (λ proof. vec_len proof.hashes ≤ MAX_MEMBER_HASHES) }
    ensures short { IfOk result (λ proof. vec_len proof.entry ≤ MAX_ENTRY) }
    ensures fault { IfErr result (HasNoAnswer (W.contents to.old) (W.contents to.new)
        (R.remaining from.old) (R.remaining from.new) (request.Membership ASKED_TAG index count ∷ []) [] ASKED_TAG
        IsMemberReply) }
{
    let asked = RequestView::Membership {
        tag: ASKED_TAG,
        index,
        count,
    };
    let given = ask(alloc, to, from, asked)?;
    let parts = member_in(given)?;
    let (hashes, entry) = parts;
    Ok(MemberProof {
        index,
        count,
        hashes,
        entry,
    })
}

// The hashes and the entry of a membership proof.
fn member_in(given: Reply) -> Result<(Vec<Hash>, Vec<u8>), ClientError>
    ensures found { IfOk result (λ parts. given ≡ reply.Membership ASKED_TAG parts.0.items parts.1.items) }
    ensures few { IfOk result (λ parts. vec_len parts.0 ≤ MAX_MEMBER_HASHES) }
    ensures short { IfOk result (λ parts. vec_len parts.1 ≤ MAX_ENTRY) }
    ensures fault { IfErr result (IsNoAnswer ASKED_TAG IsMemberReply given) }
{
    match given {
        Reply::Membership { tag, hashes, entry } if tag == ASKED_TAG => {
            let (hashes, entry) = (hashes.into_vec(), entry.into_vec());
            if hashes.len() > MAX_MEMBER_HASHES || entry.len() > MAX_ENTRY {
                return Err(ClientError::BadReply);
            }
            Ok((hashes, entry))
        }
        other => Err(not_due(ASKED_TAG, &other)),
    }
}

// Asks for an incremental proof, which isn't judged.
pub(crate) fn ask_increment<W: Write, R: Read>(
    alloc: Global,
    to: &mut W,
    from: &mut R,
    own_tag: u32,
    older: u64,
    newer: u64,
) -> Result<IncrementProof, ClientError>
    ensures done { IfOk result (λ proof. Converses (W.contents to.old) (W.contents to.new)
        (R.remaining from.old) (R.remaining from.new) (request.Incremental own_tag older newer ∷ [])
        (reply.Incremental own_tag proof.hashes.items ∷ [])) }
    ensures older { IfOk result (λ proof. proof.older ≡ older) }
    ensures newer { IfOk result (λ proof. proof.newer ≡ newer) }
    ensures few { IfOk result (λ proof. vec_len proof.hashes ≤ MAX_INCREMENT_HASHES) }
    ensures fault { IfErr result (HasNoAnswer (W.contents to.old) (W.contents to.new)
        (R.remaining from.old) (R.remaining from.new) (request.Incremental own_tag older newer ∷ []) [] own_tag
        (IsIncrementReply own_tag)) }
{
    let asked = RequestView::Incremental {
        tag: own_tag,
        older,
        newer,
    };
    let given = ask(alloc, to, from, asked)?;
    let hashes = increment_in(own_tag, given)?;
    Ok(IncrementProof {
        older,
        newer,
        hashes,
    })
}

// The hashes of an incremental proof.
fn increment_in(own_tag: u32, given: Reply) -> Result<Vec<Hash>, ClientError>
    ensures found { IfOk result (λ hashes. given ≡ reply.Incremental own_tag hashes.items) }
    ensures few { IfOk result (λ hashes. vec_len hashes ≤ MAX_INCREMENT_HASHES) }
    ensures fault { IfErr result (IsNoAnswer own_tag (IsIncrementReply own_tag) given) }
{
    match given {
        Reply::Incremental { tag, hashes } if tag == own_tag => {
            let hashes = hashes.into_vec();
            if hashes.len() > MAX_INCREMENT_HASHES {
                return Err(ClientError::BadReply);
            }
            Ok(hashes)
        }
        other => Err(not_due(own_tag, &other)),
    }
}

/// The error for a reply that isn't the answer that is due: the server's refusal of this request, or else a bad reply.
pub fn not_due(own_tag: u32, given: &Reply) -> ClientError
    ensures { result ≡ not_due own_tag given.now }
{
    match given {
        Reply::Refused { tag, refusal } if *tag == own_tag => ClientError::Refused(*refusal),
        _ => ClientError::BadReply,
    }
}
