//! From eight blocks to planes and back: the bits of each lane's eight bytes are transposed, in three steps that each
//! exchange one bit of the two indices.
ghost use Rattle.std.specs.Prelude.{◌≡◌, ℕ, ◌<◌, slice_index};
ghost use Rattle.aes256.specs.Planes.{bit_of, byte_at, lanes_at, swap_first, swap_second, turned};

use crate::planes::Planes;
use std::simd::prelude::*;

/// Exchanges the bits of a that have a 1 in their place with the bits of b that have none.
#[inline(always)]
fn swap1(a: u8x16, b: u8x16) -> (u8x16, u8x16)
    ensures first { (p : ℕ) → p < 16 → slice_index result.0 p ≡ swap_first 1 0x55 (slice_index a p) (slice_index b p) }
    ensures second { (p : ℕ) → p < 16 → slice_index result.1 p
        ≡ swap_second 1 0x55 (slice_index a p) (slice_index b p) }
    ensures first_small { (p : ℕ) → p < 16 → slice_index result.0 p < 256 }
    ensures second_small { (p : ℕ) → p < 16 → slice_index result.1 p < 256 }
{
    let t = ((a >> u8x16::splat(1)) ^ b) & u8x16::splat(0x55);
    (a ^ (t << u8x16::splat(1)), b ^ t)
}

/// The step of swaps at distance 1.
#[inline(always)]
fn stage1(s: Planes) -> Planes
    ensures bits { (p j k : ℕ) → p < 16 → j < 8 → k < 8 → bit_of k (slice_index (lanes_at result p) j)
        ≡ bit_of (turned 1 k j) (slice_index (lanes_at s p) (turned 1 j k)) }
    ensures small { (p j : ℕ) → p < 16 → j < 8 → slice_index (lanes_at result p) j < 256 }
{
    let q0 = swap1(s.p0, s.p1);
    let q2 = swap1(s.p2, s.p3);
    let q4 = swap1(s.p4, s.p5);
    let q6 = swap1(s.p6, s.p7);
    Planes {
        p0: q0.0,
        p1: q0.1,
        p2: q2.0,
        p3: q2.1,
        p4: q4.0,
        p5: q4.1,
        p6: q6.0,
        p7: q6.1,
    }
}

/// Exchanges the bits of a that have a 2 in their place with the bits of b that have none.
#[inline(always)]
fn swap2(a: u8x16, b: u8x16) -> (u8x16, u8x16)
    ensures first { (p : ℕ) → p < 16 → slice_index result.0 p ≡ swap_first 2 0x33 (slice_index a p) (slice_index b p) }
    ensures second { (p : ℕ) → p < 16 → slice_index result.1 p
        ≡ swap_second 2 0x33 (slice_index a p) (slice_index b p) }
    ensures first_small { (p : ℕ) → p < 16 → slice_index result.0 p < 256 }
    ensures second_small { (p : ℕ) → p < 16 → slice_index result.1 p < 256 }
{
    let t = ((a >> u8x16::splat(2)) ^ b) & u8x16::splat(0x33);
    (a ^ (t << u8x16::splat(2)), b ^ t)
}

/// The step of swaps at distance 2.
#[inline(always)]
fn stage2(s: Planes) -> Planes
    ensures bits { (p j k : ℕ) → p < 16 → j < 8 → k < 8 → bit_of k (slice_index (lanes_at result p) j)
        ≡ bit_of (turned 2 k j) (slice_index (lanes_at s p) (turned 2 j k)) }
    ensures small { (p j : ℕ) → p < 16 → j < 8 → slice_index (lanes_at result p) j < 256 }
{
    let q0 = swap2(s.p0, s.p2);
    let q1 = swap2(s.p1, s.p3);
    let q4 = swap2(s.p4, s.p6);
    let q5 = swap2(s.p5, s.p7);
    Planes {
        p0: q0.0,
        p1: q1.0,
        p2: q0.1,
        p3: q1.1,
        p4: q4.0,
        p5: q5.0,
        p6: q4.1,
        p7: q5.1,
    }
}

/// Exchanges the bits of a that have a 4 in their place with the bits of b that have none.
#[inline(always)]
fn swap4(a: u8x16, b: u8x16) -> (u8x16, u8x16)
    ensures first { (p : ℕ) → p < 16 → slice_index result.0 p ≡ swap_first 4 0x0f (slice_index a p) (slice_index b p) }
    ensures second { (p : ℕ) → p < 16 → slice_index result.1 p
        ≡ swap_second 4 0x0f (slice_index a p) (slice_index b p) }
    ensures first_small { (p : ℕ) → p < 16 → slice_index result.0 p < 256 }
    ensures second_small { (p : ℕ) → p < 16 → slice_index result.1 p < 256 }
{
    let t = ((a >> u8x16::splat(4)) ^ b) & u8x16::splat(0x0f);
    (a ^ (t << u8x16::splat(4)), b ^ t)
}

/// The step of swaps at distance 4.
#[inline(always)]
fn stage4(s: Planes) -> Planes
    ensures bits { (p j k : ℕ) → p < 16 → j < 8 → k < 8 → bit_of k (slice_index (lanes_at result p) j)
        ≡ bit_of (turned 4 k j) (slice_index (lanes_at s p) (turned 4 j k)) }
    ensures small { (p j : ℕ) → p < 16 → j < 8 → slice_index (lanes_at result p) j < 256 }
{
    let q0 = swap4(s.p0, s.p4);
    let q1 = swap4(s.p1, s.p5);
    let q2 = swap4(s.p2, s.p6);
    let q3 = swap4(s.p3, s.p7);
    Planes {
        p0: q0.0,
        p1: q1.0,
        p2: q2.0,
        p3: q3.0,
        p4: q0.1,
        p5: q1.1,
        p6: q2.1,
        p7: q3.1,
    }
}

/// The planes of eight blocks: vector k is block k.
#[inline(always)]
pub(crate) fn to_planes(blocks: Planes) -> Planes
    requires { (p j : ℕ) → p < 16 → j < 8 → slice_index (lanes_at blocks p) j < 256 }
    ensures { (k p : ℕ) → k < 8 → p < 16 → byte_at result k p ≡ slice_index (lanes_at blocks p) k }
{
    let one = stage1(blocks);
    let two = stage2(one);
    stage4(two)
}

/// The eight blocks of planes: vector k of the result is block k.
#[inline(always)]
pub(crate) fn to_blocks(s: Planes) -> Planes
    ensures { (k p : ℕ) → k < 8 → p < 16 → slice_index (lanes_at result p) k ≡ byte_at s k p }
{
    let one = stage1(s);
    let two = stage2(one);
    stage4(two)
}
