//! Commitments as words of a command line.
ghost use Rattle.std.specs.Prelude.{◌≡◌};
ghost use Rattle.std.specs.Result.{result_ok};
ghost use Rattle.hex.specs.Hex.{decode_sized};
ghost use Rattle.audit_note.specs.CommitmentWord.{commitment_in_word};

use audit_base::{HASH_LEN, Hash};
use audit_proof::Commitment;
use audit_text::{number_in_text, split_at_first};
use hex::FromHex;

/// Decodes a commitment: its count in 1 to 20 decimal digits and below 2^64, a colon, and its root in 64 hex digits of
/// either case.
pub fn commitment_in_word(word: &[u8]) -> Option<Commitment>
    ensures { result ≡ commitment_in_word word.now }
{
    let (count, root) = split_at_first(word, b':');
    let count = number_in_text(count)?;
    let root = hash_of(root)?;
    Some(Commitment { count, root })
}

// The digest in these hex digits.
fn hash_of(digits: &[u8]) -> Option<Hash>
    ensures { result ≡ result_ok (decode_sized digits.now HASH_LEN) }
{
    match <[u8; HASH_LEN]>::from_hex(digits) {
        Ok(hash) => Some(hash),
        Err(_) => None,
    }
}
