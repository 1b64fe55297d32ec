//! Links as bytes.
ghost use Rattle.std.specs.Prelude.{◌≡◌, ◌↔◌, ◌+◌, ◌*◌, ◌≤◌, ◌++◌, ◌∷◌, List, ℕ, IsTrue, IfOk, IfErr, OnOk, MatchOption};
ghost use Rattle.std.specs.Prelude.{vec_len, length};
ghost use Rattle.std.specs.List.{concat};
ghost use Rattle.audit_base.specs.Hashes.{AreHashes};
ghost use Rattle.audit_link.specs.Links.{LinkData, IsLink, link_in};
ghost use Rattle.audit_link.specs.OpenedEntry.{IsSoleEntry};
ghost use Rattle.audit_link.specs.LinkBytes.{link_bytes, SpellsLink, IsUnreadLink};

use crate::link::{ClosingEntry, KeyedEntry, Link};
use crate::link_error::LinkError;
use crate::opening::is_entry;
use audit_base::{HASH_LEN, Hash, MAX_MEMBER_HASHES, are_equal, array_at, read_hashes};
use audit_chain::read_entry;
use std::alloc::{AllocError, Global};

/// The first byte of an encoded link.
pub const LINK_MARK: u8 = 3;

// The number of bytes before the hashes: the mark, and the number of hashes in one byte.
const HEAD_LEN: usize = 2;

// The number of bytes between the hashes and the entries: the link and the MAC of the closing entry, and two keys.
const MIDDLE_LEN: usize = 4 * HASH_LEN;

/// Encodes a link of at most `MAX_MEMBER_HASHES` hashes. The only error is that memory is refused.
#[tactic(auto, unfolding(crate::specs::LinkBytes::link_bytes))]
pub fn write_link(alloc: Global, link: &Link) -> Result<Vec<u8>, AllocError>
    requires { vec_len link.now.hashes ≤ MAX_MEMBER_HASHES }
    ensures { IfOk result (λ bytes. bytes.items ≡ link_bytes (link_in link.now)) }
{
    let mut bytes = Vec::new(alloc);
    bytes.push(LINK_MARK)?;
    bytes.push(link.hashes.len() as u8)?;
    push_hashes(&mut bytes, &link.hashes)?;
    bytes.extend_from_slice(&link.last.link)?;
    bytes.extend_from_slice(&link.last.tag)?;
    bytes.extend_from_slice(&link.first.key)?;
    bytes.extend_from_slice(&link.second.key)?;
    bytes.extend_from_slice(&link.first.entry)?;
    bytes.extend_from_slice(&link.second.entry)?;
    Ok(bytes)
}

fn push_hashes(bytes: &mut Vec<u8>, hashes: &[Hash]) -> Result<(), AllocError>
    ensures { OnOk result (bytes.new.items ≡ bytes.old.items ++ concat hashes.now) }
{
    for hash in hashes {
        bytes.extend_from_slice(hash)?;
    }
    Ok(())
}

/// Decodes a link. It judges nothing but the form: [`check_link`] judges what the link says. Errors: `BadLink` if the
/// bytes encode none, and nothing else; `Memory`.
///
/// [`check_link`]: crate::check_link
pub fn read_link(alloc: Global, bytes: &[u8]) -> Result<Link, LinkError>
    ensures read { IfOk result (λ link. SpellsLink bytes.now (link_in link)) }
    ensures fault { IfErr result (IsUnreadLink bytes.now) }
{
    let Some(link) = parse(alloc, bytes)? else {
        return Err(LinkError::BadLink);
    };
    if !is_link(&link) {
        return Err(LinkError::BadLink);
    }
    let again = write_link(alloc, &link)?;
    if !are_equal(&again, bytes) {
        return Err(LinkError::BadLink);
    }
    Ok(link)
}

fn is_link(link: &Link) -> bool
    ensures { IsTrue result ↔ IsLink (link_in link.now) }
{
    are_few(&link.hashes) && is_entry(&link.first.entry) && is_entry(&link.second.entry)
}

fn are_few(hashes: &[Hash]) -> bool
    ensures few { IsTrue result ↔ length hashes.now ≤ MAX_MEMBER_HASHES }
    ensures whole { AreHashes hashes.now }
{
    hashes.len() <= MAX_MEMBER_HASHES
}

// The link whose bytes these may be. Other bytes may have parts too.
fn parse(alloc: Global, bytes: &[u8]) -> Result<Option<Link>, AllocError>
    ensures { (link : LinkData) → SpellsLink bytes.now link
        → IfOk result (λ found. MatchOption found ⊥ (λ parts. link_in parts ≡ link)) }
{
    if bytes.len() < HEAD_LEN {
        return Ok(None);
    }
    let number = bytes[1] as usize;
    let body = &bytes[HEAD_LEN..];
    if body.len() < HASH_LEN * number + MIDDLE_LEN {
        return Ok(None);
    }
    let hashes = read_hashes(alloc, body, number)?;
    parse_rest(alloc, hashes, &body[HASH_LEN * number..])
}

// The link with these hashes, if these are the bytes after them.
fn parse_rest(alloc: Global, hashes: Vec<Hash>, rest: &[u8]) -> Result<Option<Link>, AllocError>
    requires { MIDDLE_LEN ≤ length rest.now }
    ensures { (link : LinkData) → IsLink link → hashes.items ≡ link.hashes
        → rest.now ≡ link.last.link ++ (link.last.tag ++ (link.first.key ++ (link.second.key
        ++ (link.first.entry ++ link.second.entry))))
        → IfOk result (λ found. MatchOption found ⊥ (λ parts. link_in parts ≡ link)) }
{
    let last = ClosingEntry {
        link: *array_at(rest, 0),
        tag: *array_at(rest, HASH_LEN),
    };
    let (first_key, second_key) = (*array_at(rest, 2 * HASH_LEN), *array_at(rest, 3 * HASH_LEN));
    let Some((first, second)) = split_entries(&rest[MIDDLE_LEN..]) else {
        return Ok(None);
    };
    let first = KeyedEntry {
        key: first_key,
        entry: Vec::from_slice(alloc, first)?,
    };
    let second = KeyedEntry {
        key: second_key,
        entry: Vec::from_slice(alloc, second)?,
    };
    Ok(Some(Link {
        hashes,
        last,
        first,
        second,
    }))
}

// The first entry of these bytes, and what follows it.
fn split_entries(bytes: &[u8]) -> Option<(&[u8], &[u8])>
    ensures { (first second : List ℕ) → IsSoleEntry first → bytes.now ≡ first ++ second
        → MatchOption result ⊥ (λ found. (found.0.now ≡ first) × (found.1.now ≡ second)) }
{
    match read_entry(bytes) {
        Ok(view) => {
            let size = view.size();
            if size <= bytes.len() {
                Some(bytes.split_at(size))
            } else {
                None
            }
        }
        Err(_) => None,
    }
}
