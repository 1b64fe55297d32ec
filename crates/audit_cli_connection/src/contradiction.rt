use audit_proof::Commitment;
use audit_wire_ask::ClientError;

/// What a server gave, and a witness holds. At most one of the two is of the log that was sealed.
#[derive(Clone, Copy, Debug, PartialEq, Eq)]
pub struct Contradiction {
    /// What it is: `Shorter`, `OtherRoot` or `NotAccepted`.
    pub error: ClientError,
    /// The newest commitment that the witness holds.
    pub held: Commitment,
    /// The newest commitment that the server gave.
    pub given: Commitment,
    /// Whether it is kept beside the witness's file.
    pub is_kept: bool,
}
