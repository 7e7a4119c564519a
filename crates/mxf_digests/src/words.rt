//! The functions of FIPS 180-4, section 4.1.2, on four words at once.
ghost use Rattle.sha2.specs.Sha256.{add32, big_sigma0, big_sigma1, ch, maj, small_sigma0, small_sigma1};
ghost use Rattle.std.specs.Int.{w32, rotate_right};
ghost use Rattle.std.specs.Prelude.{◌≡◌, ◌<◌, ◌/◌, ◌^◌, ℕ, slice_index};

use std::simd::u32x4;

/// The sums of words, with the carries dropped.
#[inline(always)]
pub(crate) fn add(x: u32x4, y: u32x4) -> u32x4
    ensures { (j : ℕ) → j < 4 → slice_index result j ≡ add32 (slice_index x j) (slice_index y j) }
{
    x + y
}

#[inline(always)]
fn rotate_right(x: u32x4, count: u32) -> u32x4
    requires low { 0 < count }
    requires high { count < 32 }
    ensures { (j : ℕ) → j < 4 → slice_index result j ≡ rotate_right w32 (slice_index x j) count }
{
    (x >> u32x4::splat(count)) | (x << u32x4::splat(32 - count))
}

#[inline(always)]
fn shift_right(x: u32x4, count: u32) -> u32x4
    requires { count < 32 }
    ensures { (j : ℕ) → j < 4 → slice_index result j ≡ slice_index x j / 2 ^ count }
{
    x >> u32x4::splat(count)
}

/// Ch, in one operation fewer than the standard's form.
#[inline(always)]
pub(crate) fn ch(x: u32x4, y: u32x4, z: u32x4) -> u32x4
    ensures { (j : ℕ) → j < 4
        → slice_index result j ≡ ch (slice_index x j) (slice_index y j) (slice_index z j) }
{
    z ^ (x & (y ^ z))
}

/// Maj. One round's `x ^ y` is the next round's `y ^ z`, so it is computed once.
#[inline(always)]
pub(crate) fn maj(x: u32x4, y: u32x4, z: u32x4) -> u32x4
    ensures { (j : ℕ) → j < 4
        → slice_index result j ≡ maj (slice_index x j) (slice_index y j) (slice_index z j) }
{
    y ^ ((x ^ y) & (y ^ z))
}

/// Σ0. Here and in the three below, nested rotations take fewer copies of `x` than the standard's form.
#[inline(always)]
pub(crate) fn big_sigma0(x: u32x4) -> u32x4
    ensures { (j : ℕ) → j < 4 → slice_index result j ≡ big_sigma0 (slice_index x j) }
{
    rotate_right(x ^ rotate_right(x ^ rotate_right(x, 9), 11), 2)
}

/// Σ1.
#[inline(always)]
pub(crate) fn big_sigma1(x: u32x4) -> u32x4
    ensures { (j : ℕ) → j < 4 → slice_index result j ≡ big_sigma1 (slice_index x j) }
{
    rotate_right(x ^ rotate_right(x ^ rotate_right(x, 14), 5), 6)
}

/// σ0.
#[inline(always)]
pub(crate) fn small_sigma0(x: u32x4) -> u32x4
    ensures { (j : ℕ) → j < 4 → slice_index result j ≡ small_sigma0 (slice_index x j) }
{
    rotate_right(x ^ rotate_right(x, 11), 7) ^ shift_right(x, 3)
}

/// σ1.
#[inline(always)]
pub(crate) fn small_sigma1(x: u32x4) -> u32x4
    ensures { (j : ℕ) → j < 4 → slice_index result j ≡ small_sigma1 (slice_index x j) }
{
    rotate_right(x ^ rotate_right(x, 2), 17) ^ shift_right(x, 10)
}
