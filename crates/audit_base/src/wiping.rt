//! Overwriting bytes that held a key, before their memory is given back or used for something else. A compiler may leave
//! out writes whose result nobody uses: so each call returns a value that it read back, and its caller keeps this value
//! and passes it the next time.
ghost use Rattle.std.specs.Prelude.{◌≡◌, ◌+◌, ◌≤◌, length, vec_len, vec_capacity, IsOk, OnOk};
ghost use Rattle.audit_base.specs.Bytes.{zeros};

use std::alloc::{AllocError, Global};

/// Overwrites bytes with zeros. The returned value was read back from there, at the index `last` if there is one.
pub fn wipe(bytes: &mut [u8], last: u8) -> u8
    ensures { bytes.new ≡ zeros (length bytes.old) }
{
    bytes.fill(0);
    read_back(bytes, last)
}

// Returns the byte at an index that no compiler knows.
#[inline(never)]
fn read_back(bytes: &[u8], last: u8) -> u8 {
    match bytes.get(last as usize) {
        Some(byte) => *byte,
        None => last,
    }
}

/// Makes room for `more` bytes behind these, as `Vec::reserve` does. If they move to a larger buffer for that, the buffer
/// that they leave is overwritten with zeros. The only error is that memory is refused; nothing has changed then.
pub fn reserve_and_wipe(
    alloc: Global,
    bytes: &mut Vec<u8>,
    more: usize,
    last: u8,
) -> Result<u8, AllocError>
    ensures same { bytes.new.items ≡ bytes.old.items }
    ensures room { OnOk result (vec_len bytes.new + more ≤ vec_capacity bytes.new) }
    // Nothing is allocated if the capacity suffices, and capacity is never given back.
    ensures spare { vec_len bytes.old + more ≤ vec_capacity bytes.old → IsOk result × (bytes.new ≡ bytes.old) }
    ensures capacity { vec_capacity bytes.old ≤ vec_capacity bytes.new }
{
    let free = bytes.capacity() - bytes.len();
    if more <= free {
        return Ok(last);
    }
    let least = bytes.len().saturating_add(more);
    let wanted = bytes.capacity().saturating_mul(2).max(least);
    let mut larger = Vec::with_capacity(alloc, wanted)?;
    larger.extend_from_slice(bytes)?;
    let last = wipe(bytes, last);
    *bytes = larger;
    Ok(last)
}
