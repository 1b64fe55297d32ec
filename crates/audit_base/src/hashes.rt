ghost use Rattle.std.specs.Prelude.{◌≡◌, ◌*◌, ◌≤◌, length, IfOk};
ghost use Rattle.audit_base.specs.Hashes.{first_hashes};

use crate::bytes::array_at;
use crate::hash::Hash;
use crate::limits::HASH_LEN;
use std::alloc::{AllocError, Global};

/// Reads `number` digests from the start of `bytes`. It fails only if memory for them is refused.
pub fn read_hashes(alloc: Global, bytes: &[u8], number: usize) -> Result<Vec<Hash>, AllocError>
    requires { HASH_LEN * number ≤ length bytes.now }
    ensures { IfOk result (λ hashes. hashes.items ≡ first_hashes number bytes.now) }
{
    let mut hashes = Vec::with_capacity(alloc, number)?;
    for place in 0..number {
        hashes.push_reserved(*array_at(bytes, HASH_LEN * place));
    }
    Ok(hashes)
}
