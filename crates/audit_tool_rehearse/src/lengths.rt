//! A request and a membership proof of each possible length.
use crate::streams::add_head;
use crate::texts::digest_text;
use anyhow::bail;
use audit_base::{MAX_ENTRY, MAX_MEMBER_HASHES, MAX_PAYLOAD};
use audit_proof::{MemberProof, read_member, write_member};
use audit_wire::{Request, read_request};
use sha2::{Digest, Sha256};
use std::alloc::{AllocError, Global};

/// Reads an append and a membership proof for each length of a payload, and prints a digest of what was read. It is an
/// error if one isn't read as it was written.
pub fn try_lengths<R: AllocGlobal + Print>(rt: &R) -> anyhow::Result<()> {
    let mut hasher = Sha256::new();
    for length in 0..=MAX_PAYLOAD as u64 {
        add_owned(rt.alloc(), length, &mut hasher)?;
        add_member(rt.alloc(), length, &mut hasher)?;
    }
    let digest = digest_text(rt.alloc(), hasher)?;
    println!(rt; "lengths {digest}")?;
    Ok(())
}

// Bytes of this number, each one more than the previous.
fn counting_bytes(alloc: Global, first: u64, length: u64) -> Result<Vec<u8>, AllocError> {
    let mut bytes = Vec::new(alloc);
    for place in 0..length {
        bytes.push((first.wrapping_add(place) & 0xff) as u8)?;
    }
    Ok(bytes)
}

// The append with a payload of this length, which is also its kind and tag.
fn frame_of(alloc: Global, length: u64) -> Result<Vec<u8>, AllocError> {
    let mut frame = Vec::new(alloc);
    let kind = (length & 0xffff_ffff) as u32;
    add_head(&mut frame, length.saturating_add(9), 1, length)?;
    frame.extend_from_slice(&kind.to_be_bytes())?;
    frame.extend_from_slice(&counting_bytes(alloc, length, length)?)?;
    Ok(frame)
}

// Adds the tag, kind and payload of the owned request.
fn add_owned(alloc: Global, length: u64, hasher: &mut Sha256) -> anyhow::Result<()> {
    let frame = frame_of(alloc, length)?;
    let body = frame.get(2..).unwrap_or(&[]);
    match read_request(body)?.own(alloc)? {
        Request::Append { tag, kind, payload } => {
            hasher.update(&tag.to_be_bytes());
            hasher.update(&kind.to_be_bytes());
            hasher.update(payload.as_slice());
            Ok(())
        }
        _ => bail!("an append of {length} bytes is read otherwise"),
    }
}

// A proof of the entry with a payload of this length.
fn proof_of(alloc: Global, length: u64) -> Result<MemberProof, AllocError> {
    let mut hashes = Vec::new(alloc);
    for place in 0..length % 25 {
        hashes.push([(place & 0xff) as u8; 32])?;
    }
    Ok(MemberProof {
        index: length,
        count: length.saturating_add(1),
        hashes,
        entry: counting_bytes(alloc, length, length.saturating_add(72))?,
    })
}

fn add_member(alloc: Global, length: u64, hasher: &mut Sha256) -> anyhow::Result<()> {
    let proof = proof_of(alloc, length)?;
    if proof.hashes.len() > MAX_MEMBER_HASHES || proof.entry.len() > MAX_ENTRY {
        bail!("a proof of {length} bytes is too large");
    }
    let bytes = write_member(alloc, &proof)?;
    if !is_same(&read_member(alloc, &bytes)?, &proof) {
        bail!("a proof of {length} bytes is read otherwise");
    }
    hasher.update(&bytes);
    Ok(())
}

fn is_same(one: &MemberProof, other: &MemberProof) -> bool {
    one.index == other.index
        && one.count == other.count
        && one.entry.as_slice() == other.entry.as_slice()
        && one.hashes.as_slice() == other.hashes.as_slice()
}
