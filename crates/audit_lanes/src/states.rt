//! The hash values of four messages side by side (FIPS 180-4, section 5.3.3).

ghost use Rattle.std.specs.Prelude.{◌≡◌, ℕ, ◌<◌};
ghost use Rattle.sha2.specs.Sha256.{add_state, digest_bytes, initial_hash_256};
ghost use Rattle.audit_lanes.specs.Lanes.{lane};
ghost use Rattle.audit_lanes.specs.States.{hash_in_lane};

use crate::lanes::{add, splat};
use std::simd::u32x4;

const INITIAL_HASH: [u32; 8] = [
    0x6a09_e667,
    0xbb67_ae85,
    0x3c6e_f372,
    0xa54f_f53a,
    0x510e_527f,
    0x9b05_688c,
    0x1f83_d9ab,
    0x5be0_cd19,
];

/// Four hash values: each of the eight words has one lane for each.
#[derive(Clone, Copy)]
pub(crate) struct States {
    pub(crate) a: u32x4,
    pub(crate) b: u32x4,
    pub(crate) c: u32x4,
    pub(crate) d: u32x4,
    pub(crate) e: u32x4,
    pub(crate) f: u32x4,
    pub(crate) g: u32x4,
    pub(crate) h: u32x4,
}

impl States {
    /// The hash values before any block.
    pub(crate) fn initial() -> States
        ensures { (k : ℕ) → k < 4 → hash_in_lane result k ≡ initial_hash_256 }
    {
        States {
            a: splat(INITIAL_HASH[0]),
            b: splat(INITIAL_HASH[1]),
            c: splat(INITIAL_HASH[2]),
            d: splat(INITIAL_HASH[3]),
            e: splat(INITIAL_HASH[4]),
            f: splat(INITIAL_HASH[5]),
            g: splat(INITIAL_HASH[6]),
            h: splat(INITIAL_HASH[7]),
        }
    }

    /// The eight vectors.
    #[inline(always)]
    pub(crate) fn words(&self) -> [u32x4; 8]
        ensures { (k : ℕ) → k < 4 → lane k result ≡ hash_in_lane self.now k }
    {
        [
            self.a, self.b, self.c, self.d, self.e, self.f, self.g, self.h,
        ]
    }

    /// Adds the working variables after the rounds over a block.
    #[inline(always)]
    pub(crate) fn plus(&self, v: [u32x4; 8]) -> States
        ensures { (k : ℕ) → k < 4 → hash_in_lane result k ≡ add_state (hash_in_lane self.now k) (lane k v) }
    {
        States {
            a: add(self.a, v[0]),
            b: add(self.b, v[1]),
            c: add(self.c, v[2]),
            d: add(self.d, v[3]),
            e: add(self.e, v[4]),
            f: add(self.f, v[5]),
            g: add(self.g, v[6]),
            h: add(self.h, v[7]),
        }
    }

    /// The hash value in one lane, high byte first.
    pub(crate) fn digest(&self, k: usize) -> [u8; 32]
        requires { k < 4 }
        ensures { result ≡ digest_bytes (hash_in_lane self.now k) 8 }
    {
        digest_of(&self.words(), k)
    }
}

fn digest_of(words: &[u32x4; 8], k: usize) -> [u8; 32]
    requires { k < 4 }
    ensures { result ≡ digest_bytes (lane k words.now) 8 }
{
    let mut out = [0u8; 32];
    'words: for i in 0..8 {
        let word = words[i].to_array()[k];
        out[4 * i..4 * i + 4].copy_from_slice(&word.to_be_bytes());
    }
    out
}
