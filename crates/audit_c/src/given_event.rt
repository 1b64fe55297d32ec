//! An event as C has it.

/// `audit_store_event`: an event of an export, beside its payload.
#[derive(Clone, Copy)]
#[repr(C)]
pub struct GivenEvent {
    /// How many bytes of the piece were taken.
    pub taken: usize,
    /// The length of the payload.
    pub size: usize,
    /// The index in the log.
    pub index: u64,
    /// The kind; that of an event that closes the log is `0xffffffff`.
    pub kind: u32,
}
