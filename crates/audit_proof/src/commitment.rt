use audit_base::Hash;

/// What a log commits to: its number of entries, and the root of the history tree over them.
#[derive(Clone, Copy, Debug, PartialEq, Eq)]
pub struct Commitment {
    /// The number of entries.
    pub count: u64,
    /// The root: 32 zero bytes if there are no entries.
    pub root: Hash,
}
