use audit_base::Hash;

/// An incremental proof.
#[derive(Debug, Drop)]
pub struct IncrementProof {
    /// The older count.
    pub older: u64,
    /// The newer count.
    pub newer: u64,
    /// The largest full node that ends the older tree, and the siblings on its path to the newer root.
    pub hashes: Vec<Hash>,
}
