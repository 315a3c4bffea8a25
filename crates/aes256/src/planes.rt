//! Eight blocks at once, as eight vectors of 16 bytes.
//!
//! Bit k of lane p of plane b is bit b of byte p of block k, so that one operation on a plane works on that bit of all
//! 128 bytes.
ghost use Rattle.std.specs.Prelude.{◌≡◌, ℕ, ◌<◌, slice_index, bit_and, bit_xor};
ghost use Rattle.aes256.specs.Planes.{bit_mask, byte_at};

use std::simd::prelude::*;

/// Eight blocks, bit by bit: plane b, `pb`, has bit b of each byte.
#[derive(Clone, Copy)]
pub struct Planes {
    pub(crate) p0: u8x16,
    pub(crate) p1: u8x16,
    pub(crate) p2: u8x16,
    pub(crate) p3: u8x16,
    pub(crate) p4: u8x16,
    pub(crate) p5: u8x16,
    pub(crate) p6: u8x16,
    pub(crate) p7: u8x16,
}

/// The sum of two vectors, lane by lane.
#[inline(always)]
pub(crate) fn xor(a: u8x16, b: u8x16) -> u8x16
    ensures { (p : ℕ) → p < 16 → slice_index result p ≡ bit_xor (slice_index a p) (slice_index b p) }
{
    a ^ b
}

/// The bits that two vectors share, lane by lane.
#[inline(always)]
pub(crate) fn and(a: u8x16, b: u8x16) -> u8x16
    ensures { (p : ℕ) → p < 16 → slice_index result p ≡ bit_and (slice_index a p) (slice_index b p) }
{
    a & b
}

/// The sum of two states: AddRoundKey (FIPS 197, 5.1.4) at each of the eight blocks.
#[inline(always)]
pub(crate) fn add(a: Planes, b: Planes) -> Planes
    ensures { (k p : ℕ) → p < 16 → byte_at result k p ≡ bit_xor (byte_at a k p) (byte_at b k p) }
{
    let q0 = xor(a.p0, b.p0);
    let q1 = xor(a.p1, b.p1);
    let q2 = xor(a.p2, b.p2);
    let q3 = xor(a.p3, b.p3);
    let q4 = xor(a.p4, b.p4);
    let q5 = xor(a.p5, b.p5);
    let q6 = xor(a.p6, b.p6);
    let q7 = xor(a.p7, b.p7);
    Planes {
        p0: q0,
        p1: q1,
        p2: q2,
        p3: q3,
        p4: q4,
        p5: q5,
        p6: q6,
        p7: q7,
    }
}

/// 255 at each lane whose byte has the bit, and 0 at the others.
#[inline(always)]
fn bit_mask(x: u8x16, bit: u8) -> u8x16
    requires { bit < 8 }
    ensures { (p : ℕ) → p < 16 → slice_index result p ≡ bit_mask (slice_index x p) bit }
{
    u8x16::splat(0) - ((x >> u8x16::splat(bit)) & u8x16::splat(1))
}

/// The planes of eight times the same block.
#[inline(always)]
pub(crate) fn spread(x: u8x16) -> Planes
    ensures { (k p : ℕ) → k < 8 → p < 16 → byte_at result k p ≡ slice_index x p }
{
    let q0 = bit_mask(x, 0);
    let q1 = bit_mask(x, 1);
    let q2 = bit_mask(x, 2);
    let q3 = bit_mask(x, 3);
    let q4 = bit_mask(x, 4);
    let q5 = bit_mask(x, 5);
    let q6 = bit_mask(x, 6);
    let q7 = bit_mask(x, 7);
    Planes {
        p0: q0,
        p1: q1,
        p2: q2,
        p3: q3,
        p4: q4,
        p5: q5,
        p6: q6,
        p7: q7,
    }
}
