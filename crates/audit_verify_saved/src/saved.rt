//! The parts of a state.
ghost use Rattle.std.specs.Prelude.{◌≡◌, ◌↔◌, true, false, IsTrue};
ghost use Rattle.audit_base.specs.Bytes.{zeros};
ghost use Rattle.audit_base.specs.declared.limits.TheConstants.{HASH_LEN};
ghost use Rattle.audit_chain.specs.Entries.{first_link};
ghost use Rattle.audit_verify.specs.State.{IsFitting};
ghost use Rattle.audit_verify_saved.specs.Saved.{shown};

use audit_base::{HASH_LEN, Hash, is_same_hash};
use audit_chain::FIRST_LINK;
use audit_tree::Frontier;

/// What the verification of a log continues from: the parts of a `State` of `audit_verify`.
#[derive(Drop)]
pub struct Saved {
    /// The key for the next entry, or 32 zero bytes if the log is closed.
    pub key: Hash,
    /// The link of the last entry, or 32 zero bytes if there is none.
    pub link: Hash,
    /// Whether the last entry closed the log.
    pub closed: bool,
    /// The frontier of the tree of the entries, which has their number.
    pub tree: Frontier,
}

/// Whether the parts fit each other.
pub(crate) fn is_fitting(saved: &Saved) -> bool
    ensures { IsTrue result ↔ IsFitting (shown saved.now) }
{
    let key = has_no_key_if_closed(&saved.key, saved.closed);
    let first = is_new_if_empty(saved.tree.count(), &saved.link, saved.closed);
    key && first
}

// Whether a closed log has no key.
fn has_no_key_if_closed(key: &Hash, closed: bool) -> bool
    ensures { IsTrue result ↔ (closed ≡ true → key.now ≡ zeros HASH_LEN) }
{
    !closed || is_same_hash(key, &[0; HASH_LEN])
}

// Whether a log without entries has no link and is open.
fn is_new_if_empty(count: u64, link: &Hash, closed: bool) -> bool
    ensures { IsTrue result ↔ (count ≡ 0 → (link.now ≡ first_link) × (closed ≡ false)) }
{
    count > 0 || (!closed && is_same_hash(link, &FIRST_LINK))
}
