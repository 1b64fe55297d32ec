//! The padding of a message (FIPS 180-4, section 5.1.1).

ghost use Rattle.std.specs.Prelude.{◌≡◌, ◌+◌, ◌-◌, ◌≤◌, ◌++◌, drop, length, min, take};
ghost use Rattle.sha2.specs.Sha256.{padding};

use crate::message::BLOCK_LEN;
use crate::text::fill;
use std::marker::Model;

// One byte 0x80, at most 63 zeros, and the length in 8 bytes.
const LONGEST: usize = 72;

/// What is left of a padding.
#[derive(Drop)]
pub(crate) struct Padding {
    bytes: [u8; LONGEST],
    from: usize,
    to: usize,
}

impl Model for Padding {
    ghost use Rattle.std.specs.Prelude.{ℕ, List, ◌≤◌, drop, take};

    ghost Value = { List ℕ };

    ghost view = { λ padding. drop padding.from (take padding.to padding.bytes) };

    ghost invariant = { λ padding. (padding.from ≤ padding.to) × (padding.to ≤ 72) };
}

impl Padding {
    /// The padding of a message of `total` bytes.
    pub(crate) fn new(total: u64) -> Padding
        ensures { result ≡ padding total }
    {
        let zeros = (119 - (total % 64) as usize) % 64;
        let mut bytes = [0; LONGEST];
        bytes[0] = 0x80;
        let length = total.wrapping_mul(8).to_be_bytes();
        bytes[zeros + 1..zeros + 9].copy_from_slice(&length);
        Padding {
            bytes,
            from: 0,
            to: zeros + 9,
        }
    }

    /// Moves its front into a block, behind the bytes that this has.
    pub(crate) fn fill(&mut self, block: &mut [u8; BLOCK_LEN], used: usize)
        requires { used ≤ 64 }
        ensures filled { take (min 64 (used + length self.old)) block.new ≡ take 64 (take used block.old ++ self.old) }
        ensures rest { self.new ≡ drop (64 - used) self.old }
    {
        let (_, rest) = fill(block, used, &self.bytes[self.from..self.to]);
        self.from = self.to - rest.len();
    }
}
