//! Four words at once, and the functions of words (FIPS 180-4, 4.1.2) on them.
ghost use Rattle.std.specs.Prelude.{◌≡◌, ℕ, ◌<◌, ◌/◌, ◌^◌, slice_index, bit_and, bit_xor};
ghost use Rattle.std.specs.Int.{w32, bit_not, rotate_right};
ghost use Rattle.sha2.specs.Sha256.{add32, big_sigma0, big_sigma1, ch, maj, small_sigma0, small_sigma1};

use std::simd::u32x4;

/// The sums of words, lane by lane, with the carry dropped.
#[inline(always)]
pub(crate) fn add(x: u32x4, y: u32x4) -> u32x4
    ensures { (j : ℕ) → j < 4 → slice_index result j ≡ add32 (slice_index x j) (slice_index y j) }
{
    x + y
}

/// The sums of words and one word, lane by lane.
#[inline(always)]
pub(crate) fn add_word(x: u32x4, y: u32) -> u32x4
    ensures { (j : ℕ) → j < 4 → slice_index result j ≡ add32 (slice_index x j) y }
{
    x + u32x4::splat(y)
}

/// The bits that differ, lane by lane.
#[inline(always)]
fn xor(x: u32x4, y: u32x4) -> u32x4
    ensures { (j : ℕ) → j < 4 → slice_index result j ≡ bit_xor (slice_index x j) (slice_index y j) }
{
    x ^ y
}

/// The bits that both have, lane by lane.
#[inline(always)]
fn and(x: u32x4, y: u32x4) -> u32x4
    ensures { (j : ℕ) → j < 4 → slice_index result j ≡ bit_and (slice_index x j) (slice_index y j) }
{
    x & y
}

/// The bits that the first hasn't and the second has, lane by lane.
#[inline(always)]
fn and_not(x: u32x4, y: u32x4) -> u32x4
    ensures { (j : ℕ) → j < 4 → slice_index result j ≡ bit_and (bit_not w32 (slice_index x j)) (slice_index y j) }
{
    !x & y
}

/// Each word without its `by` low bits, moved down.
#[inline(always)]
fn shift(x: u32x4, by: u32) -> u32x4
    requires { by < 32 }
    ensures { (j : ℕ) → j < 4 → slice_index result j ≡ slice_index x j / 2 ^ by }
{
    x >> u32x4::splat(by)
}

/// Each word turned down by `by` bits.
#[inline(always)]
fn rotate(x: u32x4, by: u32) -> u32x4
    requires { (0 < by) × (by < 32) }
    ensures { (j : ℕ) → j < 4 → slice_index result j ≡ rotate_right w32 (slice_index x j) by }
{
    (x >> u32x4::splat(by)) | (x << u32x4::splat(32 - by))
}

/// Ch, lane by lane.
#[inline(always)]
pub(crate) fn choose(x: u32x4, y: u32x4, z: u32x4) -> u32x4
    ensures { (j : ℕ) → j < 4 → slice_index result j ≡ ch (slice_index x j) (slice_index y j) (slice_index z j) }
{
    let yes = and(x, y);
    let no = and_not(x, z);
    xor(yes, no)
}

/// Maj, lane by lane.
#[inline(always)]
pub(crate) fn majority(x: u32x4, y: u32x4, z: u32x4) -> u32x4
    ensures { (j : ℕ) → j < 4 → slice_index result j ≡ maj (slice_index x j) (slice_index y j) (slice_index z j) }
{
    let first = and(x, y);
    let second = and(x, z);
    let third = and(y, z);
    let both = xor(first, second);
    xor(both, third)
}

/// The upper case Σ 0, lane by lane.
#[inline(always)]
pub(crate) fn upper_sigma0(x: u32x4) -> u32x4
    ensures { (j : ℕ) → j < 4 → slice_index result j ≡ big_sigma0 (slice_index x j) }
{
    let first = rotate(x, 2);
    let second = rotate(x, 13);
    let third = rotate(x, 22);
    let both = xor(first, second);
    xor(both, third)
}

/// The upper case Σ 1, lane by lane.
#[inline(always)]
pub(crate) fn upper_sigma1(x: u32x4) -> u32x4
    ensures { (j : ℕ) → j < 4 → slice_index result j ≡ big_sigma1 (slice_index x j) }
{
    let first = rotate(x, 6);
    let second = rotate(x, 11);
    let third = rotate(x, 25);
    let both = xor(first, second);
    xor(both, third)
}

/// The lower case σ 0, lane by lane.
#[inline(always)]
pub(crate) fn lower_sigma0(x: u32x4) -> u32x4
    ensures { (j : ℕ) → j < 4 → slice_index result j ≡ small_sigma0 (slice_index x j) }
{
    let first = rotate(x, 7);
    let second = rotate(x, 18);
    let third = shift(x, 3);
    let both = xor(first, second);
    xor(both, third)
}

/// The lower case σ 1, lane by lane.
#[inline(always)]
pub(crate) fn lower_sigma1(x: u32x4) -> u32x4
    ensures { (j : ℕ) → j < 4 → slice_index result j ≡ small_sigma1 (slice_index x j) }
{
    let first = rotate(x, 17);
    let second = rotate(x, 19);
    let third = shift(x, 10);
    let both = xor(first, second);
    xor(both, third)
}
