//! The verification of an export, as C keeps it.
use audit_base::{HASH_LEN, LAYERS, MAX_COUNT, MAX_ENTRY};
use audit_tree::Frontier;

/// `audit_store_verifier`: where the verification of an export stands, and the bytes of the next entry so far.
#[repr(C)]
pub struct Verifier {
    /// The key for the next entry.
    pub key: [u8; HASH_LEN],
    /// The link of the last entry, or zeros.
    pub link: [u8; HASH_LEN],
    /// The frontier of the tree of the entries.
    pub nodes: [[u8; HASH_LEN]; LAYERS],
    /// The number of valid entries.
    pub count: u64,
    /// 1 if the last entry closed the log.
    pub closed: u32,
    /// The fault that ended the verification, or 0.
    pub fault: u32,
    /// How many bytes of the next entry are held.
    pub held: usize,
    /// These bytes.
    pub bytes: [u8; MAX_ENTRY],
}

impl Verifier {
    ghost use Rattle.std.specs.Prelude.{◌≡◌, ◌≤◌, ◌↔◌, [], IsTrue, MatchOption, min};
    ghost use Rattle.audit_base.specs.declared.limits.TheConstants.{MAX_COUNT, MAX_ENTRY};
    ghost use Rattle.audit_c.specs.Fed.{held_in};
    ghost use Rattle.audit_tree.specs.Frontier.{IsSized};

    /// The frontier of the tree of the entries, at most as many as a log can have. Nothing if there can't be such a
    /// one.
    pub(crate) fn tree(&self) -> Option<Frontier>
        ensures { MatchOption result (¬ IsSized (min self.now.count MAX_COUNT) self.now.nodes)
            (λ tree. tree ≡ record { count = min self.now.count MAX_COUNT; hashes = self.now.nodes }) }
    {
        Frontier::from_hashes(self.count.min(MAX_COUNT), &self.nodes)
    }

    /// Whether no byte of the next entry is held.
    pub(crate) fn is_between(&self) -> bool
        ensures { self.now.held ≤ MAX_ENTRY → (IsTrue result ↔ (held_in self.now ≡ [])) }
    {
        match self.bytes.get(..self.held) {
            Some(held) => held.is_empty(),
            None => false,
        }
    }
}
