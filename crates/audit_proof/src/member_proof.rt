use audit_base::Hash;

/// A membership proof with its entry.
#[derive(Debug, Drop)]
pub struct MemberProof {
    /// The entry's index.
    pub index: u64,
    /// The count under which it is proved.
    pub count: u64,
    /// The siblings on the path to the root, from the leaf upwards.
    pub hashes: Vec<Hash>,
    /// The entry.
    pub entry: Vec<u8>,
}
