//! Operations on four words at once. Each is the scalar operation in every lane.

ghost use Rattle.std.specs.Prelude.{◌≡◌, ℕ, ◌<◌, ◌/◌, ◌^◌, bit_and, bit_xor, slice_index};
ghost use Rattle.std.specs.Int.{w32, rotate_right};
ghost use Rattle.sha2.specs.Sha256.{add32, big_sigma0, big_sigma1, ch, maj, small_sigma0, small_sigma1};

use std::simd::u32x4;

#[inline(always)]
pub(crate) fn splat(word: u32) -> u32x4
    ensures { (k : ℕ) → k < 4 → slice_index result k ≡ word }
{
    u32x4::splat(word)
}

#[inline(always)]
pub(crate) fn add(x: u32x4, y: u32x4) -> u32x4
    ensures { (k : ℕ) → k < 4 → slice_index result k ≡ add32 (slice_index x k) (slice_index y k) }
{
    x + y
}

#[inline(always)]
fn and(x: u32x4, y: u32x4) -> u32x4
    ensures { (k : ℕ) → k < 4 → slice_index result k ≡ bit_and (slice_index x k) (slice_index y k) }
{
    x & y
}

#[inline(always)]
fn xor(x: u32x4, y: u32x4) -> u32x4
    ensures { (k : ℕ) → k < 4 → slice_index result k ≡ bit_xor (slice_index x k) (slice_index y k) }
{
    x ^ y
}

#[inline(always)]
fn shift_right(x: u32x4, by: u32) -> u32x4
    requires { by < 32 }
    ensures { (k : ℕ) → k < 4 → slice_index result k ≡ slice_index x k / 2 ^ by }
{
    x >> u32x4::splat(by)
}

#[inline(always)]
fn rotate_right(x: u32x4, by: u32) -> u32x4
    requires { (0 < by) × (by < 32) }
    ensures { (k : ℕ) → k < 4 → slice_index result k ≡ rotate_right w32 (slice_index x k) by }
{
    (x >> u32x4::splat(by)) | (x << u32x4::splat(32 - by))
}

// One operation fewer than the standard's form.
#[inline(always)]
pub(crate) fn ch(x: u32x4, y: u32x4, z: u32x4) -> u32x4
    ensures { (k : ℕ) → k < 4 → slice_index result k ≡ ch (slice_index x k) (slice_index y k) (slice_index z k) }
{
    xor(z, and(x, xor(y, z)))
}

// One round's `x ^ y` is the next round's `y ^ z`, so it is computed once.
#[inline(always)]
pub(crate) fn maj(x: u32x4, y: u32x4, z: u32x4) -> u32x4
    ensures { (k : ℕ) → k < 4 → slice_index result k ≡ maj (slice_index x k) (slice_index y k) (slice_index z k) }
{
    xor(y, and(xor(x, y), xor(y, z)))
}

#[inline(always)]
pub(crate) fn big_sigma0(x: u32x4) -> u32x4
    ensures { (k : ℕ) → k < 4 → slice_index result k ≡ big_sigma0 (slice_index x k) }
{
    xor(
        xor(rotate_right(x, 2), rotate_right(x, 13)),
        rotate_right(x, 22),
    )
}

#[inline(always)]
pub(crate) fn big_sigma1(x: u32x4) -> u32x4
    ensures { (k : ℕ) → k < 4 → slice_index result k ≡ big_sigma1 (slice_index x k) }
{
    xor(
        xor(rotate_right(x, 6), rotate_right(x, 11)),
        rotate_right(x, 25),
    )
}

#[inline(always)]
pub(crate) fn small_sigma0(x: u32x4) -> u32x4
    ensures { (k : ℕ) → k < 4 → slice_index result k ≡ small_sigma0 (slice_index x k) }
{
    xor(
        xor(rotate_right(x, 7), rotate_right(x, 18)),
        shift_right(x, 3),
    )
}

#[inline(always)]
pub(crate) fn small_sigma1(x: u32x4) -> u32x4
    ensures { (k : ℕ) → k < 4 → slice_index result k ≡ small_sigma1 (slice_index x k) }
{
    xor(
        xor(rotate_right(x, 17), rotate_right(x, 19)),
        shift_right(x, 10),
    )
}
