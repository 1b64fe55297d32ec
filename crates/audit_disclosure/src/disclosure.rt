use audit_base::Hash;
use audit_tree::Frontier;

/// The key of an entry's keystream. It opens this entry, and no other key follows from it.
#[derive(Clone, Copy, Debug, Drop)]
pub struct DisclosedKey {
    /// The index of the entry.
    pub index: u64,
    /// The key.
    pub key: Hash,
}

/// Where an export begins that is judged without a key of its log.
#[derive(Drop)]
pub struct Start {
    /// The link of the last entry before it, or 32 zero bytes if there is none.
    pub link: Hash,
    /// The frontier of the tree of the entries before it, which has their number.
    pub tree: Frontier,
}

/// The keys of chosen entries of an export.
#[derive(Drop)]
pub struct Disclosure {
    /// Where the export begins.
    pub start: Start,
    /// The keys, in the order of their entries.
    pub keys: Vec<DisclosedKey>,
}
