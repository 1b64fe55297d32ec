//! Foundations of the store's crates: the limits of its formats, SHA-256 digests, and reading and comparing bytes.
#![tactic(auto)]

mod bytes;
mod hash;
mod hashes;
pub mod laws;
mod limits;
mod wiping;

pub use bytes::{are_equal, are_zero, array_at, u16_at, u32_at, u64_at};
pub use hash::{Hash, is_same_hash};
pub use hashes::read_hashes;
pub use limits::{
    ENTRY_HEAD_LEN, ENTRY_OVERHEAD, FIRST_MAX_ENTRY, FIRST_MAX_ENTRY_SECTORS, FIRST_MAX_PAYLOAD,
    HASH_LEN, LAYERS, MAX_COUNT, MAX_DEPTH, MAX_ENTRY, MAX_ENTRY_SECTORS, MAX_INCREMENT_HASHES,
    MAX_MEMBER_HASHES, MAX_PAYLOAD, RESERVED_KIND, SECTOR_SIZE, SESSIONS,
};
pub use wiping::{reserve_and_wipe, wipe};
