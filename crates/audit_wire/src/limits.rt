//! The limits of the frames, in bytes. The limits of payloads, entries and proofs are the store's.

use audit_base::{HASH_LEN, MAX_ENTRY, MAX_INCREMENT_HASHES, MAX_MEMBER_HASHES, MAX_PAYLOAD};

/// The length field of a frame.
pub const LENGTH_BYTES: usize = 2;

/// The first byte, request tag and kind of an append, which precede its payload.
const APPEND_HEAD: usize = 9;

/// The longest body of a request: an append with the longest payload.
pub const MAX_BODY: usize = APPEND_HEAD + MAX_PAYLOAD;

/// The longest payload of a placed append, whose place takes 8 bytes of the longest body.
pub const MAX_PLACED_PAYLOAD: usize = MAX_PAYLOAD - 8;

/// The longest frame of a request, including its length field.
pub const MAX_FRAME: usize = LENGTH_BYTES + MAX_BODY;

/// The frame of every acknowledgement, including its length field.
pub const ACKNOWLEDGEMENT_FRAME: usize = 55;

/// The frame of every refusal, including its length field.
pub const REFUSAL_FRAME: usize = 8;

/// The frame of every commitment, including its length field.
pub const COMMITMENT_FRAME: usize = 47;

/// The frame of every state, including its length field.
pub const STATE_FRAME: usize = 74;

/// The frame of every place of a kind, including its length field.
pub const PLACE_FRAME: usize = 23;

/// The frame of every reply to a placed append that was appended, including its length field.
pub const PLACED_FRAME: usize = 87;

/// The length field, first byte and request tag of a reply.
const REPLY_HEAD: usize = LENGTH_BYTES + 5;

/// The longest frame of an entry, including its length field.
pub const MAX_ENTRY_FRAME: usize = REPLY_HEAD + MAX_ENTRY;

/// The longest frame of an incremental proof, including its length field.
pub const MAX_INCREMENT_FRAME: usize = REPLY_HEAD + 1 + HASH_LEN * MAX_INCREMENT_HASHES;

/// The longest frame of a membership proof with its entry, including its length field. No reply has a longer one.
pub const MAX_MEMBERSHIP_FRAME: usize = REPLY_HEAD + 1 + HASH_LEN * MAX_MEMBER_HASHES + MAX_ENTRY;
