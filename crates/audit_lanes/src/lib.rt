//! SHA-256 (FIPS 180-4) of four messages at once, in the four lanes of a vector.
//!
//! ```rust
//! use audit_lanes::{sha256_four, sha256_four_joined};
//! use sha2::{Digest, Sha256};
//!
//! let [first, ..] = sha256_four([b"abc", b"abd", b"abe", b"abf"]);
//! assert_eq!(rt; first, Sha256::digest("abc"));
//! let [leaf, ..] = sha256_four_joined(&[0], [b"a", b"b", b"c", b"d"], [b"", b"", b"", b""]);
//! assert_eq!(rt; leaf, Sha256::digest(b"\0a"));
//! ```
#![tactic(auto)]

mod compress;
mod four;
mod lanes;
mod message;
mod messages;
mod padding;
mod round;
mod states;
mod text;

pub use four::{sha256_four, sha256_four_in_pieces, sha256_four_joined};
