//! The offsets of a body's fields, counted from after its first byte.
use audit_base::HASH_LEN;

/// The request tag.
pub(crate) const TAG_AT: usize = 0;

/// After the tag: a number, the kind of an append, the number of hashes, a code, or an entry.
pub(crate) const AFTER_TAG: usize = 4;

/// The payload of an append, after its kind.
pub(crate) const PAYLOAD_AT: usize = AFTER_TAG + 4;

/// The place of a placed append, after its kind.
pub(crate) const PLACE_AT: usize = AFTER_TAG + 4;

/// The payload of a placed append, after its place.
pub(crate) const PLACED_PAYLOAD_AT: usize = PLACE_AT + 8;

/// After one number.
pub(crate) const AFTER_ONE_NUMBER: usize = AFTER_TAG + 8;

/// After two numbers.
pub(crate) const AFTER_TWO_NUMBERS: usize = AFTER_ONE_NUMBER + 8;

/// After two numbers and a hash: the key of the entry, in the reply to a placed append.
pub(crate) const KEY_AT: usize = AFTER_TWO_NUMBERS + HASH_LEN;

/// After one number and a hash: the first sector after the log, in a state.
pub(crate) const AFTER_COMMITMENT: usize = AFTER_ONE_NUMBER + HASH_LEN;

/// The number of sectors in a state, after the first sector after the log.
pub(crate) const SECTORS_AT: usize = AFTER_COMMITMENT + 8;

/// The generation in a state.
pub(crate) const GENERATION_AT: usize = SECTORS_AT + 8;

/// The version in a state.
pub(crate) const VERSION_AT: usize = GENERATION_AT + 8;

/// The mark of a closed log in a state.
pub(crate) const MARK_AT: usize = VERSION_AT + 2;

/// After one byte: a proof's hashes follow their number, and nothing follows a code.
pub(crate) const AFTER_ONE_BYTE: usize = AFTER_TAG + 1;
