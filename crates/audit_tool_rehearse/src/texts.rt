//! Words and bytes as text.
use anyhow::Context;
use hex::ToHex;
use sha2::{Digest, Sha256};
use std::alloc::Global;

// Up to this many bytes are shown in full.
const MOST_SHOWN: usize = 400;

pub fn number_of(word: &str) -> anyhow::Result<u64> {
    Ok(word.parse().context("a decimal number is wanted")?)
}

pub fn two_numbers(words: &str) -> anyhow::Result<(u64, u64)> {
    let (first, second) = words.split_once(' ').context("two numbers are wanted")?;
    Ok((number_of(first)?, number_of(second)?))
}

pub fn bytes_of(alloc: Global, word: &str) -> anyhow::Result<Vec<u8>> {
    Ok(hex::decode(alloc, word).context("hex digits are wanted")?)
}

/// The hex digits of a digest.
pub fn digest_text(alloc: Global, hasher: Sha256) -> anyhow::Result<String> {
    let digest: [u8; 32] = hasher.finalize();
    Ok(digest.encode_hex(alloc)?)
}

/// The hex digits of the bytes, or of their digest if there are many; `-` if there are none.
pub fn text_of(alloc: Global, bytes: &[u8]) -> anyhow::Result<String> {
    if bytes.is_empty() {
        return Ok(format!(in alloc; "-")?);
    }
    if bytes.len() <= MOST_SHOWN {
        return Ok(bytes.encode_hex(alloc)?);
    }
    let digest: [u8; 32] = Sha256::digest(bytes);
    let digits: String = digest.encode_hex(alloc)?;
    Ok(format!(in alloc; "{} bytes with digest {digits}", bytes.len())?)
}
