//! Replies, read from their frames. Nothing is copied.
ghost use Rattle.std.specs.Prelude.{◌≡◌, ◌+◌, ◌∷◌, length, option_map};
ghost use Rattle.audit_wire.specs.Reply.{reply_in, acknowledgement_in, commitment_reply_in, membership_reply_in};
ghost use Rattle.audit_wire.specs.Reply.{increment_reply_in, entry_reply_in, state_reply_in, place_reply_in};
ghost use Rattle.audit_wire.specs.Reply.{placed_reply_in, refused_in};
ghost use Rattle.audit_c.specs.Replied.{first_body, IsReplyRead, IsReplyFound};

use crate::answers::{MALFORMED, MORE, OK};
use crate::reply::GivenReply;
use audit_base::{
    HASH_LEN, MAX_ENTRY, MAX_INCREMENT_HASHES, MAX_MEMBER_HASHES, array_at, u16_at, u32_at, u64_at,
};
use audit_wire::Refusal;

/// Reads the reply at the start of the bytes. Returns `OK` with its fields, `MORE` if its frame isn't whole yet, and
/// `MALFORMED` if the frame is that of no reply; `reply` is then as it was.
#[unsafe(no_mangle)]
pub extern "C" fn audit_store_read_reply(bytes: &[u8], reply: &mut GivenReply) -> u32
    ensures { IsReplyRead (first_body bytes.now) reply.old reply.new result }
{
    let Some(body) = body_at_front(bytes) else {
        return MORE;
    };
    let Some(found) = reply_in(body) else {
        return MALFORMED;
    };
    *reply = found;
    OK
}

// The body of the first frame, if the frame is whole.
fn body_at_front(bytes: &[u8]) -> Option<&[u8]>
    ensures { option_map (λ body. body.now) result ≡ first_body bytes.now }
{
    let [high, low, after @ ..] = bytes else {
        return None;
    };
    let size = u16::from_be_bytes([*high, *low]) as usize;
    after.get(..size)
}

#[tactic(auto, unfolding(audit_wire::specs::Reply::reply_in))]
fn reply_in(body: &[u8]) -> Option<GivenReply>
    ensures { IsReplyFound body.now (reply_in body.now) result }
{
    let [kind, fields @ ..] = body else {
        return None;
    };
    match *kind {
        0x81 => acknowledgement_in(fields),
        0x82 => commitment_in(fields),
        0x83 => membership_in(fields),
        0x84 => increment_in(fields),
        0x85 => entry_in(fields),
        0x87 => state_in(fields),
        0x88 => place_in(fields),
        0x89 => placed_in(fields),
        0xff => refused_in(fields),
        _ => None,
    }
}

#[tactic(auto, unfolding(audit_wire::specs::Reply::acknowledgement_in, crate::specs::Replied::reply_of))]
fn acknowledgement_in(fields: &[u8]) -> Option<GivenReply>
    ensures { IsReplyFound (129 ∷ fields.now) (acknowledgement_in fields.now) result }
{
    if fields.len() != 52 {
        return None;
    }
    Some(GivenReply {
        index: u64_at(fields, 4),
        count: u64_at(fields, 12),
        root: *array_at(fields, 20),
        ..GivenReply::tagged(55, 0x81, u32_at(fields, 0))
    })
}

#[tactic(auto, unfolding(audit_wire::specs::Reply::commitment_reply_in, crate::specs::Replied::reply_of))]
fn commitment_in(fields: &[u8]) -> Option<GivenReply>
    ensures { IsReplyFound (130 ∷ fields.now) (commitment_reply_in fields.now) result }
{
    if fields.len() != 44 {
        return None;
    }
    Some(GivenReply {
        count: u64_at(fields, 4),
        root: *array_at(fields, 12),
        ..GivenReply::tagged(47, 0x82, u32_at(fields, 0))
    })
}

#[tactic(auto, unfolding(audit_wire::specs::Reply::membership_reply_in, crate::specs::Replied::reply_of))]
fn membership_in(fields: &[u8]) -> Option<GivenReply>
    ensures { IsReplyFound (131 ∷ fields.now) (membership_reply_in fields.now) result }
{
    if fields.len() < 5 {
        return None;
    }
    let number = fields[4] as usize;
    let length = 5 + HASH_LEN * number;
    if number > MAX_MEMBER_HASHES || fields.len() < length || fields.len() > length + MAX_ENTRY {
        return None;
    }
    Some(GivenReply {
        hashes: number as u32,
        ..GivenReply::tagged(3 + fields.len(), 0x83, u32_at(fields, 0))
    })
}

#[tactic(auto, unfolding(audit_wire::specs::Reply::increment_reply_in, crate::specs::Replied::reply_of))]
fn increment_in(fields: &[u8]) -> Option<GivenReply>
    ensures { IsReplyFound (132 ∷ fields.now) (increment_reply_in fields.now) result }
{
    if fields.len() < 5 {
        return None;
    }
    let number = fields[4] as usize;
    if number > MAX_INCREMENT_HASHES || fields.len() != 5 + HASH_LEN * number {
        return None;
    }
    Some(GivenReply {
        hashes: number as u32,
        ..GivenReply::tagged(3 + fields.len(), 0x84, u32_at(fields, 0))
    })
}

#[tactic(auto, unfolding(audit_wire::specs::Reply::entry_reply_in, crate::specs::Replied::reply_of))]
fn entry_in(fields: &[u8]) -> Option<GivenReply>
    ensures { IsReplyFound (133 ∷ fields.now) (entry_reply_in fields.now) result }
{
    if fields.len() < 4 || fields.len() > 4 + MAX_ENTRY {
        return None;
    }
    Some(GivenReply::tagged(3 + fields.len(), 0x85, u32_at(fields, 0)))
}

#[tactic(auto, unfolding(audit_wire::specs::Reply::state_reply_in, crate::specs::Replied::reply_of))]
fn state_in(fields: &[u8]) -> Option<GivenReply>
    ensures { IsReplyFound (135 ∷ fields.now) (state_reply_in fields.now) result }
{
    if fields.len() != 71 || fields[70] > 1 {
        return None;
    }
    Some(GivenReply {
        count: u64_at(fields, 4),
        root: *array_at(fields, 12),
        end: u64_at(fields, 44),
        sectors: u64_at(fields, 52),
        generation: u64_at(fields, 60),
        version: u32::from(u16_at(fields, 68)),
        closed: u32::from(fields[70]),
        ..GivenReply::tagged(74, 0x87, u32_at(fields, 0))
    })
}

#[tactic(auto, unfolding(audit_wire::specs::Reply::place_reply_in, crate::specs::Replied::reply_of))]
fn place_in(fields: &[u8]) -> Option<GivenReply>
    ensures { IsReplyFound (136 ∷ fields.now) (place_reply_in fields.now) result }
{
    if fields.len() != 20 {
        return None;
    }
    let number = u64_at(fields, 4);
    Some(GivenReply {
        index: number,
        count: u64_at(fields, 12),
        ..GivenReply::tagged(23, 0x88, u32_at(fields, 0))
    })
}

#[tactic(auto, unfolding(audit_wire::specs::Reply::placed_reply_in, crate::specs::Replied::reply_of))]
fn placed_in(fields: &[u8]) -> Option<GivenReply>
    ensures { IsReplyFound (137 ∷ fields.now) (placed_reply_in fields.now) result }
{
    if fields.len() != 84 {
        return None;
    }
    let index = u64_at(fields, 4);
    Some(GivenReply {
        index,
        count: u64_at(fields, 12),
        root: *array_at(fields, 20),
        ..GivenReply::tagged(87, 0x89, u32_at(fields, 0))
    })
}

#[tactic(auto, unfolding(audit_wire::specs::Reply::refused_in, crate::specs::Replied::reply_of))]
fn refused_in(fields: &[u8]) -> Option<GivenReply>
    ensures { IsReplyFound (255 ∷ fields.now) (refused_in fields.now) result }
{
    if fields.len() != 5 {
        return None;
    }
    let code = fields[4];
    Refusal::from_code(code)?;
    Some(GivenReply {
        code: u32::from(code),
        ..GivenReply::tagged(8, 0xff, u32_at(fields, 0))
    })
}
