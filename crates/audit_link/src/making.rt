//! Links that are made.
ghost use Rattle.std.specs.Prelude.{◌≡◌, ◌∷◌, [], IfOk};
ghost use Rattle.audit_chain.specs.Entries.{log_entries};
ghost use Rattle.audit_proof.specs.Acceptance.{commitment_to};
ghost use Rattle.audit_link.specs.Counts.{AreCounts};
ghost use Rattle.audit_link.specs.Links.{link_in, link_between, keyed_in, keyed_entry, commitment_payload, commitment_event};
ghost use Rattle.audit_link.specs.Links.{counts_event};
ghost use Rattle.audit_link.specs.Accepted.{AcceptsLink, AcceptsOldHalf};

use crate::counts::Counts;
use crate::link::{ClosingEntry, KeyedEntry, Link};
use crate::text::counts_text;
use audit_base::Hash;
use audit_chain::{Event, FIRST_LINK, Key, seal_event};
use audit_proof::Commitment;
use audit_text::{push_hex, push_number};
use std::alloc::{AllocError, Global};

/// The kind of the events that link a log to the one before it.
pub const LINK_KIND: u32 = 0;

/// The first event of the log that goes on: its payload is the last commitment of the log before it as text,
/// `COUNT:ROOT`, the count in decimal digits and the root in 64 lower-case hex digits. The only error is that memory is
/// refused.
pub fn commitment_event(alloc: Global, last: &Commitment) -> Result<Event, AllocError>
    ensures { IfOk result (λ event. event ≡ commitment_event last.now) }
{
    let text = commitment_payload(alloc, last)?;
    made(text)
}

/// COUNT:ROOT.
pub(crate) fn commitment_payload(
    alloc: Global,
    commitment: &Commitment,
) -> Result<Vec<u8>, AllocError>
    ensures { IfOk result (λ text. text.items ≡ commitment_payload commitment.now) }
{
    let mut text = Vec::new(alloc);
    push_number(&mut text, b"", commitment.count)?;
    text.extend_from_slice(b":")?;
    push_hex(&mut text, &commitment.root)?;
    Ok(text)
}

/// The second event of the log that goes on: its payload is the text of the numbers of events by kind. The only error is
/// that memory is refused.
pub fn counts_event(alloc: Global, counts: &Counts) -> Result<Event, AllocError>
    ensures event { IfOk result (λ event. event ≡ counts_event counts.now) }
    ensures counts { IfOk result (λ _. AreCounts counts.now) }
{
    let text = counts_text(alloc, counts)?;
    made(text)
}

// An event with this payload, which isn't too long.
fn made(payload: Vec<u8>) -> Result<Event, AllocError>
    ensures { IfOk result (λ event. event ≡ record { kind = 0; payload = payload.items }) }
{
    match Event::from_vec(LINK_KIND, payload) {
        Ok(event) => Ok(event),
        Err(_) => Err(AllocError),
    }
}

/// Makes the link from a log that is closed, with this last commitment, to the log that begins with this key. `last` is
/// the entry that closes it, and `hashes` are those of its membership proof: they aren't judged, [`check_link`] does
/// that. `counts` are the numbers of events by kind. The only error is that memory is refused.
///
/// [`check_link`]: crate::check_link
pub fn make_link(
    alloc: Global,
    first_key: &Key,
    old: &Commitment,
    counts: &Counts,
    last: ClosingEntry,
    hashes: Vec<Hash>,
) -> Result<Link, AllocError>
    ensures made { IfOk result (λ link. link_in link ≡ link_between first_key.now old.now counts.now last hashes.items) }

    // It is accepted if its old half is so, under the commitment to the first two events of the new log.
    ensures accepted { IfOk result (λ link. AcceptsOldHalf old.now (link_in link) → AcceptsLink old.now
        (commitment_to (log_entries first_key.now (commitment_event old.now ∷ counts_event counts.now ∷ [])))
        (link_in link)) }
{
    let commitment = commitment_event(alloc, old)?;
    let first = seal_event(alloc, first_key, &FIRST_LINK, &commitment)?;
    let numbers = counts_event(alloc, counts)?;
    let second = seal_event(alloc, &first.next, &first.link, &numbers)?;
    Ok(Link {
        hashes,
        last,
        first: KeyedEntry {
            key: first_key.entry_key(LINK_KIND),
            entry: first.bytes,
        },
        second: KeyedEntry {
            key: first.next.entry_key(LINK_KIND),
            entry: second.bytes,
        },
    })
}
