use audit_store::StoreError;

/// The place at which feeding a piece stopped, and the reason.
#[derive(Clone, Copy, Debug, Drop, PartialEq, Eq)]
pub struct FeedFault {
    /// How many bytes of the piece were taken. The rest may be fed again.
    pub taken: usize,
    /// Why the next byte wasn't taken.
    pub error: StoreError,
}
