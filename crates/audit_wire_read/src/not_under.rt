use audit_proof::Commitment;
use audit_wire_ask::Unseen;

/// Why the newest commitment wasn't taken by a reader under a witness.
#[derive(Clone, Copy, Debug, PartialEq, Eq)]
pub struct NotUnder {
    /// By which commitment it was judged: what the witness saw, or what the reader kept.
    pub held: Commitment,
    /// What is wrong with it, or why it wasn't had.
    pub unseen: Unseen,
}
