//! Links judged by a witness that holds the two commitments, and has no key.
ghost use Rattle.std.specs.Prelude.{◌≡◌, ◌↔◌, IsTrue, IfOk};
ghost use Rattle.audit_proof.specs.Acceptance.{commitment_to};
ghost use Rattle.audit_chain.specs.EventData.{EventData};
ghost use Rattle.audit_link.specs.Links.{link_in, keyed_in, closing_bytes, entries_in, commitment_event};
ghost use Rattle.audit_link.specs.Accepted.{AcceptsOldHalf, AcceptsNewHalf, IsLinkJudgment, AreCountsOf, SaysEvent};

use crate::counts::Counts;
use crate::link::{ClosingEntry, KeyedEntry, Link};
use crate::making::{LINK_KIND, commitment_payload};
use crate::opening::open_entry;
use crate::text::read_counts;
use audit_base::{RESERVED_KIND, are_equal, is_same_hash};
use audit_proof::{Commitment, accepts_member};
use audit_tree::{leaf_hash, pair_hash};
use std::alloc::{AllocError, Global};

/// What a witness says of a link.
#[derive(Clone, Copy, Debug, PartialEq, Eq)]
pub enum LinkJudgment {
    /// Both halves are so.
    Accepted,
    /// The last entry under the old commitment isn't this closing one.
    OldHalf,
    /// The new commitment isn't that of these two entries, or they don't read as the old commitment and as numbers of
    /// events by kind.
    NewHalf,
}

/// Judges a link under the old log's last commitment and the new log's commitment after its first two entries. The old
/// half is so if the last entry under the old commitment is the closing one of the link. The new half is so if the new
/// commitment is that of the link's two entries, and they read under their keys as the old commitment and as numbers of
/// events by kind. The only error is that memory is refused.
pub fn check_link(
    alloc: Global,
    link: &Link,
    old: &Commitment,
    new: &Commitment,
) -> Result<LinkJudgment, AllocError>
    ensures { IfOk result (IsLinkJudgment old.now new.now (link_in link.now)) }
{
    if !accepts_old_half(alloc, link, old)? {
        return Ok(LinkJudgment::OldHalf);
    }
    if !accepts_new_half(alloc, link, old, new)? {
        return Ok(LinkJudgment::NewHalf);
    }
    Ok(LinkJudgment::Accepted)
}

fn accepts_old_half(alloc: Global, link: &Link, old: &Commitment) -> Result<bool, AllocError>
    ensures { IfOk result (λ accepted. IsTrue accepted ↔ AcceptsOldHalf old.now (link_in link.now)) }
{
    if old.count == 0 {
        return Ok(false);
    }
    let entry = closing_bytes(alloc, &link.last)?;
    Ok(accepts_member(old, old.count - 1, &entry, &link.hashes))
}

// The entry that closed the old log.
#[tactic(auto, unfolding(audit_chain::specs::Entry::entry_bytes))]
fn closing_bytes(alloc: Global, last: &ClosingEntry) -> Result<Vec<u8>, AllocError>
    ensures { IfOk result (λ entry. entry.items ≡ closing_bytes last.now) }
{
    let mut entry = Vec::new(alloc);
    entry.extend_from_slice(&RESERVED_KIND.to_be_bytes())?;
    entry.extend_from_slice(&0u32.to_be_bytes())?;
    entry.extend_from_slice(&last.link)?;
    entry.extend_from_slice(&last.tag)?;
    Ok(entry)
}

fn accepts_new_half(
    alloc: Global,
    link: &Link,
    old: &Commitment,
    new: &Commitment,
) -> Result<bool, AllocError>
    ensures { IfOk result (λ accepted. IsTrue accepted ↔ AcceptsNewHalf old.now new.now (link_in link.now)) }
{
    if !is_same_commitment(&next_commitment(link), new) {
        return Ok(false);
    }
    if !says_commitment(alloc, &link.first, old)? {
        return Ok(false);
    }
    Ok(counts_in(alloc, link)?.is_some())
}

/// The new log's commitment after the two entries of a link. It takes no memory.
pub fn next_commitment(link: &Link) -> Commitment
    ensures { result ≡ commitment_to (entries_in (link_in link.now)) }
{
    Commitment {
        count: 2,
        root: pair_hash(
            &leaf_hash(&link.first.entry),
            &leaf_hash(&link.second.entry),
        ),
    }
}

fn is_same_commitment(one: &Commitment, other: &Commitment) -> bool
    ensures { IsTrue result ↔ (one.now ≡ other.now) }
{
    one.count == other.count && is_same_hash(&one.root, &other.root)
}

// Whether an entry reads as a commitment.
fn says_commitment(
    alloc: Global,
    keyed: &KeyedEntry,
    commitment: &Commitment,
) -> Result<bool, AllocError>
    ensures { IfOk result (λ said. IsTrue said ↔ SaysEvent (keyed_in keyed.now) (commitment_event commitment.now)) }
{
    let Some(opened) = open_entry(alloc, &keyed.entry, &keyed.key)? else {
        return Ok(false);
    };
    if opened.kind != LINK_KIND {
        return Ok(false);
    }
    let text = commitment_payload(alloc, commitment)?;
    Ok(are_equal(&opened.payload, &text))
}

/// The numbers of events by kind that a link says, whatever else it says: `None` if its second entry doesn't read as
/// some. The only error is that memory is refused.
pub fn counts_in(alloc: Global, link: &Link) -> Result<Option<Counts>, AllocError>
    ensures { IfOk result (AreCountsOf (link_in link.now).second) }
{
    let Some(opened) = open_entry(alloc, &link.second.entry, &link.second.key)? else {
        return Ok(None);
    };
    if opened.kind != LINK_KIND {
        return Ok(None);
    }
    let counts = read_counts(alloc, &opened.payload)?;
    Ok(counts)
}
