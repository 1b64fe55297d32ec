//! Big-endian numbers and fixed-length arrays read from byte slices, and comparisons of bytes.
ghost use Rattle.std.specs.Prelude.{◌≡◌, ◌+◌, ◌≤◌, ◌↔◌, length, take, drop, IsTrue, EachIndex, slice_index};
ghost use Rattle.std.specs.Int.{w16, w32, w64};
ghost use Rattle.audit_base.specs.Bytes.{number_at, zeros};

/// Returns the big-endian number in the two bytes at `place`.
pub fn u16_at(bytes: &[u8], place: usize) -> u16
    requires { place + 2 ≤ length bytes.now }
    ensures { result ≡ number_at w16 place bytes.now }
{
    u16::from_be_bytes(*array_at(bytes, place))
}

/// Returns the big-endian number in the four bytes at `place`.
pub fn u32_at(bytes: &[u8], place: usize) -> u32
    requires { place + 4 ≤ length bytes.now }
    ensures { result ≡ number_at w32 place bytes.now }
{
    u32::from_be_bytes(*array_at(bytes, place))
}

/// Returns the big-endian number in the eight bytes at `place`.
pub fn u64_at(bytes: &[u8], place: usize) -> u64
    requires { place + 8 ≤ length bytes.now }
    ensures { result ≡ number_at w64 place bytes.now }
{
    u64::from_be_bytes(*array_at(bytes, place))
}

/// Returns the `N` bytes at `place`.
pub fn array_at<const N: usize>(bytes: &[u8], place: usize) -> &[u8; N]
    requires { place + N ≤ length bytes.now }
    ensures { result.now ≡ take N (drop place bytes.now) }
{
    bytes[place..].first_chunk().unwrap()
}

/// Returns whether two byte strings are equal. The comparison may stop at the first difference: use `is_same_hash` for
/// digests and MACs.
pub fn are_equal(left: &[u8], right: &[u8]) -> bool
    ensures { IsTrue result ↔ (left.now ≡ right.now) }
{
    left == right
}

/// Returns whether all bytes are zero.
pub fn are_zero(bytes: &[u8]) -> bool
    ensures { IsTrue result ↔ (bytes.now ≡ zeros (length bytes.now)) }
{
    largest(bytes) == 0
}

// The largest byte, or zero if there are none. The loop has no early exit, so the compiler can vectorise it.
fn largest(bytes: &[u8]) -> u8
    ensures { (result ≡ 0) ↔ EachIndex bytes.now (λ k. slice_index bytes.now k ≡ 0) }
{
    let mut largest = 0;
    for byte in bytes {
        largest = largest.max(*byte);
    }
    largest
}
