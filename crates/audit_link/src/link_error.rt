use std::alloc::AllocError;
use thiserror::Error;

/// Why bytes couldn't be decoded as a link.
#[derive(Clone, Copy, Debug, Drop, PartialEq, Eq, Error)]
pub enum LinkError {
    /// The bytes aren't the encoding of a link.
    #[error("the bytes are not a link")]
    BadLink,
    /// Memory was refused.
    #[error("out of memory")]
    Memory,
}

impl From<AllocError> for LinkError {
    ghost use Rattle.std.specs.Prelude.{◌≡◌};
    ghost use Rattle.audit_link.specs.declared.link_error.LinkError.TheVariants.{Memory};

    ghost from_gives = { λ _ fault. fault ≡ Memory };

    fn from(_: AllocError) -> Self {
        LinkError::Memory
    }
}
