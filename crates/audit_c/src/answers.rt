//! What the exports return. The numbers from 12 on are those that the program prints.

/// Done, or accepted.
pub const OK: u32 = 0;

/// A proof is not accepted under the commitments.
pub const NOT_ACCEPTED: u32 = 1;

/// The bytes are not those of a proof.
pub const BAD_PROOF: u32 = 32;

/// The bytes end before what they begin with does.
pub const MORE: u32 = 2;

/// The bytes are not those of a reply.
pub const MALFORMED: u32 = 20;

/// A verifier isn't one that the exports made, or it has read too much, or a buffer is too short.
pub const MISUSED: u32 = 3;

/// The export ends within an entry.
pub const SHORT: u32 = 40;

/// All entries are valid, but the commitment isn't to them, or they are more than a log can have.
pub const WRONG_COMMITMENT: u32 = 44;

/// Bytes follow the entry that closes the log.
pub const BAD_CLOSE: u32 = 46;
