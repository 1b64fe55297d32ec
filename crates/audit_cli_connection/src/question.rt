//! Questions to a server.
use audit_cli_base::ProofRequest;

/// What is asked of a server.
#[derive(Clone, Copy)]
pub enum Question<'a> {
    /// The newest commitment.
    Commitment,
    /// The state of the store.
    State,
    /// How many events of this kind the log has.
    Place(u32),
    /// An entry or a proof, and the file for it.
    Evidence(Evidence, &'a str),
    /// All entries from an index on, and the file for them.
    Export(&'a str, u64),
    /// To close the log.
    Close,
}

/// What a server sends in one reply.
#[derive(Clone, Copy)]
pub enum Evidence {
    /// The entry of this index.
    Entry(u64),
    /// A proof.
    Proof(ProofRequest),
}
