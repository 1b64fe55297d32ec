use audit_proof::Commitment;

/// The state of a store, as its daemon says it. Nothing proves it: what a witness can hold against a server is the
/// commitment alone.
#[derive(Clone, Copy, Debug, PartialEq, Eq)]
pub struct StoreState {
    /// The newest commitment.
    pub commitment: Commitment,
    /// The first sector after the log.
    pub end: u64,
    /// How many sectors the device has.
    pub sectors: u64,
    /// The generation of the active header.
    pub generation: u64,
    /// The version of its format.
    pub version: u16,
    /// Whether the log is closed.
    pub closed: bool,
}
