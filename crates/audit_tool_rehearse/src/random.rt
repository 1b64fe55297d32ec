use rand_chacha::ChaCha20Rng;
use rand_core::SeedableRng;
use rand_core::utils::NextWord;

/// Pseudorandom numbers, the same everywhere for the same start.
#[derive(Drop)]
pub struct Random {
    source: Source,
}

#[derive(Drop)]
enum Source {
    // A linear congruential generator modulo 2^64, of which the upper 31 bits are used.
    Congruence(u64),
    // The words of ChaCha20.
    Cipher(ChaCha20Rng),
}

impl Random {
    pub fn new(start: u64) -> Random {
        Random {
            source: Source::Congruence(start),
        }
    }

    /// Draws from the words of ChaCha20, with a key of the number, lowest byte first, followed by zeros.
    pub fn of_cipher(number: u64) -> Random {
        let mut seed = [0; 32];
        seed[..8].copy_from_slice(&number.to_le_bytes());
        Random {
            source: Source::Cipher(ChaCha20Rng::from_seed(seed)),
        }
    }

    pub fn next(&mut self) -> u64 {
        match &mut self.source {
            Source::Congruence(state) => {
                *state = state
                    .wrapping_mul(6_364_136_223_846_793_005)
                    .wrapping_add(1_442_695_040_888_963_407);
                *state >> 33
            }
            Source::Cipher(words) => u64::from(words.next_word()),
        }
    }

    /// A number below `bound`, or 0 if that is 0.
    pub fn below(&mut self, bound: u64) -> u64 {
        self.next().checked_rem(bound).unwrap_or(0)
    }

    /// A number from 1 to `most`.
    pub fn up_to(&mut self, most: u64) -> u64 {
        self.below(most).saturating_add(1)
    }
}
