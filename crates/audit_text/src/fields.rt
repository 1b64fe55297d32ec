//! Fields of a text: lines of a word, a space and a value.
ghost use Rattle.std.specs.Prelude.{◌≡◌, ◌≢◌, ◌++◌, ℕ, List, IfSome, MatchOption};
ghost use Rattle.std.specs.Fmt.{decimal};
ghost use Rattle.std.specs.Result.{result_ok};
ghost use Rattle.hex.specs.Hex.{decode_sized, encode_lower};
ghost use Rattle.audit_base.specs.declared.limits.TheConstants.{HASH_LEN};
ghost use Rattle.audit_text.specs.Fields.{field_line, Splits};

use crate::split::{split_at_first, split_line};
use audit_base::{HASH_LEN, Hash};
use hex::{FromHex, encode_to_slice};
use itoa::Buffer;

/// The value in the first line, and the bytes after the line.
pub fn field(text: &[u8]) -> (&[u8], &[u8])
    ensures { Splits text.now result.0.now result.1.now }
{
    let (line, rest) = split_line(text);
    let (_, value) = split_at_first(line, b' ');
    (value, rest)
}

/// What follows the line of this word and value, if the text begins with it.
pub fn after_line<'a>(text: &'a [u8], word: &[u8], value: &[u8]) -> Option<&'a [u8]>
    ensures found { IfSome result (λ rest. text.now ≡ field_line word.now value.now ++ rest.now) }
    ensures only { (rest : List ℕ) → text.now ≡ field_line word.now value.now ++ rest
        → MatchOption result ⊥ (λ found. found.now ≡ rest) }
{
    let after_word = after(text, word)?;
    let after_space = after(after_word, b" ")?;
    let after_value = after(after_space, value)?;
    let rest = after(after_value, b"\n")?;
    Some(rest)
}

// What follows these bytes, if the text begins with them.
fn after<'a>(text: &'a [u8], front: &[u8]) -> Option<&'a [u8]>
    ensures { MatchOption result ((rest : List ℕ) → text.now ≢ front.now ++ rest)
        (λ rest. text.now ≡ front.now ++ rest.now) }
{
    text.strip_prefix(front)
}

/// The hash in these hex digits, of either case.
pub fn hash_in(digits: &[u8]) -> Option<Hash>
    ensures { result ≡ result_ok (decode_sized digits.now HASH_LEN) }
{
    match <[u8; HASH_LEN]>::from_hex(digits) {
        Ok(hash) => Some(hash),
        Err(_) => None,
    }
}

/// A hash in lowercase hex digits.
pub fn digits_of(hash: &Hash) -> [u8; 64]
    ensures { result ≡ encode_lower hash.now }
{
    let mut digits = [0; 64];
    match encode_to_slice(hash.as_slice(), &mut digits) {
        Ok(()) => digits,
        Err(_) => digits,
    }
}

/// A number in decimal digits, in a buffer of the caller's.
pub fn decimal_of(buffer: &mut Buffer, number: u64) -> &[u8]
    ensures { result.now ≡ decimal number }
{
    buffer.format(number).as_bytes()
}
