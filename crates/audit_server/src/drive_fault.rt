use audit_store::StoreError;

/// The step at which a list of steps stopped, and the reason.
#[derive(Clone, Copy, Debug, Drop, PartialEq, Eq)]
pub struct DriveFault {
    /// How many steps were done. The next step was refused.
    pub step: usize,
    /// How many bytes of the refused step's piece were taken. It is 0 for an end or a flush.
    pub taken: usize,
    /// Why the step was refused.
    pub error: StoreError,
}
