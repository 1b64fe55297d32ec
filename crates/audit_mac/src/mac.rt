ghost use Rattle.std.specs.Prelude.{◌≡◌, ℕ, ◌-◌, ◌≤◌, List, [], ◌++◌, length, map, drop, replicate, bit_xor};
ghost use Rattle.sha2.specs.Hashers.{Holds256};
ghost use Rattle.sha2.specs.Sha256.{sha256};
ghost use Rattle.audit_mac.specs.Hmac.{hmac, key_block};

use audit_base::HASH_LEN;
use sha2::{Digest, Sha256};

/// The block length of SHA-256 in bytes, to which HMAC pads its key.
pub const BLOCK_LEN: usize = 64;

/// The length of an HMAC-SHA-256 in bytes, the same as a digest's.
pub const MAC_LEN: usize = HASH_LEN;

/// The byte ipad of RFC 2104, section 2.
pub(crate) const INNER_PAD: u8 = 0x36;

/// The byte opad.
pub(crate) const OUTER_PAD: u8 = 0x5c;

/// An incremental HMAC-SHA-256 (RFC 2104). The key may have any length, and the text arrives in pieces of any length.
/// No call fails or allocates.
#[derive(Drop)]
pub struct Mac {
    inner: Sha256,
    outer: Sha256,
}

impl Mac {
    ghost use Rattle.audit_mac.specs.Taking.{HasTaken};

    /// Starts an HMAC under `key` with an empty text.
    pub fn new(key: &[u8]) -> Self
        ensures { HasTaken result key.now [] }
    {
        let block = padded_key(key);
        Mac {
            inner: hasher_of(&masked(&block, INNER_PAD)),
            outer: hasher_of(&masked(&block, OUTER_PAD)),
        }
    }

    /// Appends a piece to the text.
    pub fn update(&mut self, piece: &[u8])
        ensures { (key text : List ℕ) → HasTaken self.old key text → HasTaken self.new key (text ++ piece.now) }
    {
        self.inner.update(piece);
    }

    /// Returns the HMAC-SHA-256 of the whole text, in 32 bytes.
    pub fn finish(self) -> [u8; MAC_LEN]
        ensures { (key text : List ℕ) → HasTaken self key text → result ≡ hmac key text }
    {
        let Mac { inner, mut outer } = self;
        let digest = inner.finalize();
        outer.update(digest.as_slice());
        outer.finalize()
    }
}

/// Returns the HMAC-SHA-256 (RFC 2104) of a text under a key of any length, in 32 bytes. It never fails and allocates
/// nothing.
#[tactic(auto, unfolding(crate::specs::Hmac::hmac))]
pub fn hmac_sha256(key: &[u8], text: &[u8]) -> [u8; MAC_LEN]
    ensures { result ≡ hmac key.now text.now }
{
    let block = padded_key(key);
    let inner = digest_after(&masked(&block, INNER_PAD), text);
    digest_after(&masked(&block, OUTER_PAD), &inner)
}

// The SHA-256 of a block followed by a text.
fn digest_after(block: &[u8; BLOCK_LEN], text: &[u8]) -> [u8; HASH_LEN]
    ensures { result ≡ sha256 (block.now ++ text.now) }
{
    let mut hasher = hasher_of(block);
    hasher.update(text);
    hasher.finalize()
}

/// The key as one block: a key longer than a block is replaced by its digest, and the rest is zeros.
pub(crate) fn padded_key(key: &[u8]) -> [u8; BLOCK_LEN]
    ensures { result ≡ key_block key.now }
{
    if key.len() > BLOCK_LEN {
        zero_extended(&Sha256::digest(key))
    } else {
        zero_extended(key)
    }
}

fn zero_extended(key: &[u8]) -> [u8; BLOCK_LEN]
    requires { length key.now ≤ BLOCK_LEN }
    ensures { result ≡ key.now ++ replicate (BLOCK_LEN - length key.now) 0 }
{
    let mut block = zero_block();
    write_front(&mut block, key);
    block
}

fn zero_block() -> [u8; BLOCK_LEN]
    ensures { result ≡ replicate BLOCK_LEN 0 }
{
    [0; BLOCK_LEN]
}

fn write_front(block: &mut [u8], bytes: &[u8])
    requires { length bytes.now ≤ length block.old }
    ensures { block.new ≡ bytes.now ++ drop (length bytes.now) block.old }
{
    block[..bytes.len()].copy_from_slice(bytes);
}

/// The block with each byte xored with a pad.
pub(crate) fn masked(block: &[u8; BLOCK_LEN], pad: u8) -> [u8; BLOCK_LEN]
    ensures { result ≡ map (λ byte. bit_xor byte pad) block.now }
{
    let mut masked = *block;
    for byte in masked.iter_mut() {
        *byte ^= pad;
    }
    masked
}

fn hasher_of(block: &[u8; BLOCK_LEN]) -> Sha256
    ensures { Holds256 result block.now }
{
    let mut hasher = Sha256::new();
    hasher.update(block.as_slice());
    hasher
}
