//! Reading replies, for clients.
ghost use Rattle.std.specs.Prelude.{◌≡◌, ◌^◌, ◌<◌, ℕ, List, ◌++◌, length, IfSome, MatchOption};
ghost use Rattle.audit_wire.specs.Frame.{frame};
ghost use Rattle.audit_wire.specs.Reply.{acknowledgement_in, commitment_reply_in, membership_reply_in};
ghost use Rattle.audit_wire.specs.Reply.{increment_reply_in, entry_reply_in, state_reply_in, place_reply_in};
ghost use Rattle.audit_wire.specs.Reply.{placed_reply_in, refused_in, reply_in, IsReadAs};

use crate::byte_list::ByteList;
use crate::fields::{
    AFTER_COMMITMENT, AFTER_ONE_BYTE, AFTER_ONE_NUMBER, AFTER_TAG, AFTER_TWO_NUMBERS,
    GENERATION_AT, KEY_AT, MARK_AT, SECTORS_AT, TAG_AT, VERSION_AT,
};
use crate::hash_list::HashList;
use crate::limits::LENGTH_BYTES;
use crate::refusal::Refusal;
use crate::reply::Reply;
use crate::reply_fault::ReplyError;
use crate::reply_kind::ReplyKind;
use audit_base::{
    HASH_LEN, MAX_ENTRY, MAX_INCREMENT_HASHES, MAX_MEMBER_HASHES, array_at, read_hashes, u16_at,
    u32_at, u64_at,
};
use std::alloc::Global;

/// Returns the body of the first frame and the bytes after that frame, or nothing if the first frame isn't complete
/// yet. It allocates nothing.
pub fn first_frame(bytes: &[u8]) -> Option<(&[u8], &[u8])>
    ensures found { IfSome result (λ parts. bytes.now ≡ frame parts.0.now ++ parts.1.now) }
    ensures size { IfSome result (λ parts. length parts.0.now < 2 ^ 16) }
    ensures only { (body rest : List ℕ) → length body < 2 ^ 16 → bytes.now ≡ frame body ++ rest
        → MatchOption result ⊥ (λ parts. (parts.0.now ≡ body) × (parts.1.now ≡ rest)) }
{
    if bytes.len() < LENGTH_BYTES {
        return None;
    }
    let size = u16::from_be_bytes([bytes[0], bytes[1]]) as usize;
    let (_, after) = bytes.split_at(LENGTH_BYTES);
    if after.len() < size {
        return None;
    }
    Some(after.split_at(size))
}

/// Reads the body of a frame as a reply. Errors: `Malformed` if and only if it isn't the body of a reply; `Memory` if
/// memory is refused for a reply's hashes or entry.
pub fn read_reply(alloc: Global, body: &[u8]) -> Result<Reply, ReplyError>
    ensures { IsReadAs (reply_in body.now) result }
{
    read_by_kind(alloc, body)
}

#[tactic(auto, unfolding(crate::specs::Reply::reply_in))]
fn read_by_kind(alloc: Global, body: &[u8]) -> Result<Reply, ReplyError>
    ensures { IsReadAs (reply_in body.now) result }
{
    let [first, fields @ ..] = body else {
        return Err(ReplyError::Malformed);
    };
    let Some(kind) = ReplyKind::from_byte(*first) else {
        return Err(ReplyError::Malformed);
    };
    match kind {
        ReplyKind::Acknowledgement => acknowledgement_of(fields),
        ReplyKind::Commitment => commitment_of(fields),
        ReplyKind::Membership => membership_of(alloc, fields),
        ReplyKind::Incremental => increment_of(alloc, fields),
        ReplyKind::Entry => entry_of(alloc, fields),
        ReplyKind::State => state_of(fields),
        ReplyKind::Place => place_of(fields),
        ReplyKind::Placed => placed_of(fields),
        ReplyKind::Refused => refused_of(fields),
    }
}

#[tactic(auto, unfolding(crate::specs::Reply::acknowledgement_in))]
fn acknowledgement_of(fields: &[u8]) -> Result<Reply, ReplyError>
    ensures { IsReadAs (acknowledgement_in fields.now) result }
{
    if fields.len() != AFTER_TWO_NUMBERS + HASH_LEN {
        return Err(ReplyError::Malformed);
    }
    Ok(Reply::Acknowledgement {
        tag: u32_at(fields, TAG_AT),
        index: u64_at(fields, AFTER_TAG),
        count: u64_at(fields, AFTER_ONE_NUMBER),
        root: *array_at(fields, AFTER_TWO_NUMBERS),
    })
}

#[tactic(auto, unfolding(crate::specs::Reply::commitment_reply_in))]
fn commitment_of(fields: &[u8]) -> Result<Reply, ReplyError>
    ensures { IsReadAs (commitment_reply_in fields.now) result }
{
    if fields.len() != AFTER_ONE_NUMBER + HASH_LEN {
        return Err(ReplyError::Malformed);
    }
    Ok(Reply::Commitment {
        tag: u32_at(fields, TAG_AT),
        count: u64_at(fields, AFTER_TAG),
        root: *array_at(fields, AFTER_ONE_NUMBER),
    })
}

#[tactic(auto, unfolding(crate::specs::Reply::membership_reply_in))]
fn membership_of(alloc: Global, fields: &[u8]) -> Result<Reply, ReplyError>
    ensures { IsReadAs (membership_reply_in fields.now) result }
{
    if fields.len() < AFTER_ONE_BYTE {
        return Err(ReplyError::Malformed);
    }
    let number = fields[AFTER_TAG] as usize;
    let (_, after) = fields.split_at(AFTER_ONE_BYTE);
    if number > MAX_MEMBER_HASHES || after.len() < HASH_LEN * number {
        return Err(ReplyError::Malformed);
    }
    let (_, entry) = after.split_at(HASH_LEN * number);
    if entry.len() > MAX_ENTRY {
        return Err(ReplyError::Malformed);
    }
    let Ok(hashes) = read_hashes(alloc, after, number) else {
        return Err(ReplyError::Memory);
    };
    let Ok(entry) = Vec::from_slice(alloc, entry) else {
        return Err(ReplyError::Memory);
    };
    Ok(Reply::Membership {
        tag: u32_at(fields, TAG_AT),
        hashes: HashList::from_vec(hashes),
        entry: ByteList::from_vec(entry),
    })
}

#[tactic(auto, unfolding(crate::specs::Reply::increment_reply_in))]
fn increment_of(alloc: Global, fields: &[u8]) -> Result<Reply, ReplyError>
    ensures { IsReadAs (increment_reply_in fields.now) result }
{
    if fields.len() < AFTER_ONE_BYTE {
        return Err(ReplyError::Malformed);
    }
    let number = fields[AFTER_TAG] as usize;
    let (_, after) = fields.split_at(AFTER_ONE_BYTE);
    if number > MAX_INCREMENT_HASHES || after.len() != HASH_LEN * number {
        return Err(ReplyError::Malformed);
    }
    let Ok(hashes) = read_hashes(alloc, after, number) else {
        return Err(ReplyError::Memory);
    };
    Ok(Reply::Incremental {
        tag: u32_at(fields, TAG_AT),
        hashes: HashList::from_vec(hashes),
    })
}

#[tactic(auto, unfolding(crate::specs::Reply::entry_reply_in))]
fn entry_of(alloc: Global, fields: &[u8]) -> Result<Reply, ReplyError>
    ensures { IsReadAs (entry_reply_in fields.now) result }
{
    if fields.len() < AFTER_TAG || fields.len() > AFTER_TAG + MAX_ENTRY {
        return Err(ReplyError::Malformed);
    }
    let (_, entry) = fields.split_at(AFTER_TAG);
    let Ok(entry) = Vec::from_slice(alloc, entry) else {
        return Err(ReplyError::Memory);
    };
    Ok(Reply::Entry {
        tag: u32_at(fields, TAG_AT),
        entry: ByteList::from_vec(entry),
    })
}

#[tactic(auto, unfolding(crate::specs::Reply::state_reply_in))]
fn state_of(fields: &[u8]) -> Result<Reply, ReplyError>
    ensures { IsReadAs (state_reply_in fields.now) result }
{
    if fields.len() != MARK_AT + 1 || fields[MARK_AT] > 1 {
        return Err(ReplyError::Malformed);
    }
    Ok(Reply::State {
        tag: u32_at(fields, TAG_AT),
        count: u64_at(fields, AFTER_TAG),
        root: *array_at(fields, AFTER_ONE_NUMBER),
        end: u64_at(fields, AFTER_COMMITMENT),
        sectors: u64_at(fields, SECTORS_AT),
        generation: u64_at(fields, GENERATION_AT),
        version: u16_at(fields, VERSION_AT),
        closed: fields[MARK_AT] == 1,
    })
}

#[tactic(auto, unfolding(crate::specs::Reply::place_reply_in))]
fn place_of(fields: &[u8]) -> Result<Reply, ReplyError>
    ensures { IsReadAs (place_reply_in fields.now) result }
{
    if fields.len() != AFTER_TWO_NUMBERS {
        return Err(ReplyError::Malformed);
    }
    Ok(Reply::Place {
        tag: u32_at(fields, TAG_AT),
        number: u64_at(fields, AFTER_TAG),
        count: u64_at(fields, AFTER_ONE_NUMBER),
    })
}

#[tactic(auto, unfolding(crate::specs::Reply::placed_reply_in))]
fn placed_of(fields: &[u8]) -> Result<Reply, ReplyError>
    ensures { IsReadAs (placed_reply_in fields.now) result }
{
    if fields.len() != KEY_AT + HASH_LEN {
        return Err(ReplyError::Malformed);
    }
    let index = u64_at(fields, AFTER_TAG);
    Ok(Reply::Placed {
        tag: u32_at(fields, TAG_AT),
        index,
        count: u64_at(fields, AFTER_ONE_NUMBER),
        root: *array_at(fields, AFTER_TWO_NUMBERS),
        key: *array_at(fields, KEY_AT),
    })
}

#[tactic(auto, unfolding(crate::specs::Reply::refused_in))]
fn refused_of(fields: &[u8]) -> Result<Reply, ReplyError>
    ensures { IsReadAs (refused_in fields.now) result }
{
    if fields.len() != AFTER_ONE_BYTE {
        return Err(ReplyError::Malformed);
    }
    match Refusal::from_code(fields[AFTER_TAG]) {
        Some(refusal) => Ok(Reply::Refused {
            tag: u32_at(fields, TAG_AT),
            refusal,
        }),
        None => Err(ReplyError::Malformed),
    }
}
