ghost use Rattle.std.specs.Prelude.{◌≡◌, [], ◌∷◌, ◌++◌, map, bit_xor};
ghost use Rattle.std.specs.Simd.Lanes.{zip2};
ghost use Rattle.sha2.specs.Sha256.{sha256};
ghost use Rattle.audit_mac.specs.Hmac.{hmac};

use crate::mac::{BLOCK_LEN, INNER_PAD, MAC_LEN, OUTER_PAD, masked, padded_key};
use audit_base::HASH_LEN;
use audit_lanes::sha256_four_joined;

/// Returns the HMAC-SHA-256 (RFC 2104) of each of four texts, under the key at the same place, in their order. Texts of
/// the same length are hashed side by side, others one after another. It never fails and allocates nothing.
#[tactic(auto, unfolding(crate::specs::Hmac::hmac))]
pub fn hmac_sha256_four(keys: [&[u8]; 4], texts: [&[u8]; 4]) -> [[u8; MAC_LEN]; 4]
    ensures { result ≡ zip2 (λ key text. hmac key.now text.now) keys.entry texts.entry }
{
    let [a, b, c, d] = keys;
    let blocks = [padded_key(a), padded_key(b), padded_key(c), padded_key(d)];
    let [a, b, c, d] = texts;
    let [a, b, c, d] = digests_under(&blocks, INNER_PAD, a, b, c, d);
    digests_under(&blocks, OUTER_PAD, &a, &b, &c, &d)
}

// The SHA-256 of each key's block, with its bytes xored with a pad, followed by the text at its place.
fn digests_under<'a>(
    blocks: &[[u8; BLOCK_LEN]; 4],
    pad: u8,
    a: &'a [u8],
    b: &'a [u8],
    c: &'a [u8],
    d: &'a [u8],
) -> [[u8; HASH_LEN]; 4]
    ensures { result ≡ zip2 (λ block text. sha256 (map (λ byte. bit_xor byte pad) block ++ text))
        blocks.now (a.now ∷ b.now ∷ c.now ∷ d.now ∷ []) }
{
    let first = masked(&blocks[0], pad);
    let second = masked(&blocks[1], pad);
    let third = masked(&blocks[2], pad);
    let fourth = masked(&blocks[3], pad);
    sha256_four_joined(&[], [&first, &second, &third, &fourth], [a, b, c, d])
}
