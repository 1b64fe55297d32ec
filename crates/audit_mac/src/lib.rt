//! HMAC-SHA-256: the keyed hash of RFC 2104 over the SHA-256 of FIPS 180-4.
//!
//! ```rust
//! use audit_mac::{Mac, hmac_sha256};
//!
//! let mut mac = Mac::new(b"Jefe");
//! mac.update(b"what do ya want ");
//! mac.update(b"for nothing?");
//! let tag: [u8; 32] = mac.finish();
//! assert_eq!(rt; tag, hmac_sha256(b"Jefe", b"what do ya want for nothing?"));
//! ```
#![tactic(auto)]

mod four;
mod mac;

pub use four::hmac_sha256_four;
pub use mac::{BLOCK_LEN, MAC_LEN, Mac, hmac_sha256};
