use std::alloc::AllocError;
use thiserror::Error;

/// Why a call of a tree failed.
#[derive(Clone, Copy, Debug, PartialEq, Eq, Error)]
pub enum TreeError {
    /// The tree holds `MAX_COUNT` leaves.
    #[error("the tree is full")]
    Full,
    /// Not `index < count`, or not `1 <= older <= newer`, or the tree has fewer leaves than that count.
    #[error("the tree has no such version")]
    NoSuchVersion,
    /// Memory was refused.
    #[error("out of memory")]
    Memory,
}

impl From<AllocError> for TreeError {
    ghost use Rattle.std.specs.Prelude.{◌≡◌};
    ghost use Rattle.audit_tree.specs.declared.error.TreeError.TheVariants.{Memory};

    ghost from_gives = { λ _ e. e ≡ Memory };

    fn from(_: AllocError) -> Self {
        TreeError::Memory
    }
}
