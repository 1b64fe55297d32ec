//! The ChaCha20 of a payload.
use rand_chacha::ChaCha20Rng;
use rand_core::SeedableRng;
use rand_core::utils::NextWord;

/// Computes the first `words` words of the keystream under a key made of the number, and returns a byte of their XOR.
pub fn keystream_of(number: u64, words: usize) -> u8 {
    let mut key = [0; 32];
    key[..8].copy_from_slice(&number.to_be_bytes());
    let mut stream = ChaCha20Rng::from_seed(key);
    let mut seen = 0;
    for _ in 0..words {
        seen ^= stream.next_word();
    }
    (seen & 0xff) as u8
}
