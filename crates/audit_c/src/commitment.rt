//! A commitment as C has it.
ghost use Rattle.std.specs.Prelude.{◌≡◌};
ghost use Rattle.audit_c.specs.Given.{given};

use audit_base::{HASH_LEN, Hash};
use audit_proof::Commitment;

/// `audit_store_commitment`: a number of entries, and the root of the history tree over them.
#[derive(Clone, Copy)]
#[repr(C)]
pub struct GivenCommitment {
    /// The number of entries.
    pub count: u64,
    /// The root: 32 zero bytes if there are no entries.
    pub root: [u8; HASH_LEN],
}

/// The same as the library has it.
pub(crate) fn commitment_of(commitment: &GivenCommitment) -> Commitment
    ensures { result ≡ given commitment.now }
{
    Commitment {
        count: commitment.count,
        root: commitment.root,
    }
}

/// The same as C has it.
pub(crate) fn given_of(commitment: Commitment) -> GivenCommitment
    ensures { given result ≡ commitment }
{
    let root = commitment.root;
    GivenCommitment {
        count: commitment.count,
        root,
    }
}
