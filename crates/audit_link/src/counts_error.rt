use std::alloc::AllocError;
use thiserror::Error;

/// Why an event wasn't counted.
#[derive(Clone, Copy, Debug, Drop, PartialEq, Eq, Error)]
pub enum CountsError {
    /// The kind is the reserved one.
    #[error("the kind is reserved")]
    Reserved,
    /// There are `MAX_KINDS` other kinds.
    #[error("there are too many kinds")]
    TooManyKinds,
    /// The number of events of this kind would be 2^64.
    #[error("there are too many events")]
    TooManyEvents,
    /// Memory was refused.
    #[error("out of memory")]
    Memory,
}

impl From<AllocError> for CountsError {
    ghost use Rattle.std.specs.Prelude.{◌≡◌};
    ghost use Rattle.audit_link.specs.declared.counts_error.CountsError.TheVariants.{Memory};

    ghost from_gives = { λ _ fault. fault ≡ Memory };

    fn from(_: AllocError) -> Self {
        CountsError::Memory
    }
}
