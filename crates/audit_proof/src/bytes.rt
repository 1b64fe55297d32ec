ghost use Rattle.std.specs.Prelude.{◌≡◌, ◌+◌, ◌*◌, ◌≤◌, ◌<◌, ◌∷◌, [], ◌++◌, length, IfSome, IfOk, OnOk, ◌^◌};
ghost use Rattle.std.specs.List.{concat};
ghost use Rattle.audit_base.specs.Hashes.{AreHashes};
ghost use Rattle.audit_proof.specs.ProofBytes.{number_bytes, head_of, proof_bytes};

use audit_base::{HASH_LEN, Hash, MAX_ENTRY, MAX_INCREMENT_HASHES, u64_at};
use std::alloc::{AllocError, Global};

/// The first byte of an encoded membership proof.
pub const MEMBER_MARK: u8 = 1;

/// The first byte of an encoded incremental proof.
pub const INCREMENT_MARK: u8 = 2;

/// The number of bytes before the hashes: the mark, two numbers, and the number of hashes in one byte.
pub const HEAD_LEN: usize = 18;

/// The fields between the mark and the hashes.
#[derive(Clone, Copy)]
pub struct Head {
    pub first: u64,
    pub second: u64,
    pub number: usize,
}

// A number as bytes.
fn number_to_bytes(number: u64) -> [u8; 8]
    ensures { result ≡ number_bytes number }
{
    number.to_be_bytes()
}

// The fields before the hashes, if the bytes begin with the mark.
pub fn read_head(mark: u8, bytes: &[u8]) -> Option<Head>
    ensures head { result ≡ head_of mark bytes.now }
    ensures long { IfSome result (λ _. HEAD_LEN ≤ length bytes.now) }
{
    if bytes.len() < HEAD_LEN {
        return None;
    }
    if bytes[0] != mark {
        return None;
    }
    Some(Head {
        first: u64_at(bytes, 1),
        second: u64_at(bytes, 9),
        number: bytes[17] as usize,
    })
}

// Appends hashes one after another.
fn push_hashes(bytes: &mut Vec<u8>, hashes: &[Hash]) -> Result<(), AllocError>
    ensures { OnOk result (bytes.new.items ≡ bytes.old.items ++ concat hashes.now) }
{
    for hash in hashes {
        bytes.extend_from_slice(hash)?;
    }
    Ok(())
}

// Adds the mark, the two numbers and the number of hashes.
fn push_head(
    bytes: &mut Vec<u8>,
    mark: u8,
    first: u64,
    second: u64,
    count: u8,
) -> Result<(), AllocError>
    ensures { OnOk result (bytes.new.items
        ≡ bytes.old.items ++ mark ∷ (number_bytes first ++ (number_bytes second ++ (count ∷ [])))) }
{
    bytes.push(mark)?;
    bytes.extend_from_slice(&number_to_bytes(first))?;
    bytes.extend_from_slice(&number_to_bytes(second))?;
    bytes.push(count)?;
    Ok(())
}

// The bytes of a proof.
pub fn write_proof(
    alloc: Global,
    mark: u8,
    first: u64,
    second: u64,
    hashes: &[Hash],
    after: &[u8],
) -> Result<Vec<u8>, AllocError>
    requires few { length hashes.now ≤ MAX_INCREMENT_HASHES }
    requires short { length after.now ≤ MAX_ENTRY }
    ensures ok { IfOk result (λ bytes. bytes.items ≡ proof_bytes mark first second hashes.now after.now) }
    ensures first { first < 2 ^ 64 }
    ensures second { second < 2 ^ 64 }
    ensures whole { AreHashes hashes.now }
{
    let mut bytes = Vec::with_capacity(alloc, HEAD_LEN + HASH_LEN * hashes.len() + after.len())?;
    push_head(&mut bytes, mark, first, second, hashes.len() as u8)?;
    push_hashes(&mut bytes, hashes)?;
    bytes.extend_from_slice(after)?;
    Ok(bytes)
}
