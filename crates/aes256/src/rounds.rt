//! The rounds of the cipher (FIPS 197, 5.1) on planes.
ghost use Rattle.std.specs.Prelude.{◌≡◌, ℕ, ◌<◌, List, slice_index, bit_xor};
ghost use Rattle.gf256.specs.Field.{product};
ghost use Rattle.aes256.specs.Cipher.{added, mix_columns, shift_rows, sub_bytes};
ghost use Rattle.aes256.specs.Planes.{IsBlock, IsRoundKey, byte_at, mixed_byte, next_row, shifted};

use crate::planes::{Planes, add, xor};
use crate::substitution::substitute;
use std::simd::prelude::*;

/// ShiftRows (FIPS 197, 5.1.2) on one plane.
#[inline(always)]
fn shift(x: u8x16) -> u8x16
    ensures { (p : ℕ) → p < 16 → slice_index result p ≡ slice_index x (shifted p) }
{
    x.swizzle([0, 5, 10, 15, 4, 9, 14, 3, 8, 13, 2, 7, 12, 1, 6, 11])
}

/// ShiftRows on all planes.
#[inline(always)]
fn shift_all(s: Planes) -> Planes
    ensures { (k p : ℕ) → p < 16 → byte_at result k p ≡ byte_at s k (shifted p) }
{
    let q0 = shift(s.p0);
    let q1 = shift(s.p1);
    let q2 = shift(s.p2);
    let q3 = shift(s.p3);
    let q4 = shift(s.p4);
    let q5 = shift(s.p5);
    let q6 = shift(s.p6);
    let q7 = shift(s.p7);
    Planes {
        p0: q0,
        p1: q1,
        p2: q2,
        p3: q3,
        p4: q4,
        p5: q5,
        p6: q6,
        p7: q7,
    }
}

/// ShiftRows, and then each byte from the row below, on one plane.
#[inline(always)]
fn shift_up(x: u8x16) -> u8x16
    ensures { (p : ℕ) → p < 16 → slice_index result p ≡ slice_index x (shifted (next_row p)) }
{
    x.swizzle([5, 10, 15, 0, 9, 14, 3, 4, 13, 2, 7, 8, 1, 6, 11, 12])
}

/// ShiftRows, and then each byte from the row below.
#[inline(always)]
fn shift_up_all(s: Planes) -> Planes
    ensures { (k p : ℕ) → p < 16 → byte_at result k p ≡ byte_at s k (shifted (next_row p)) }
{
    let q0 = shift_up(s.p0);
    let q1 = shift_up(s.p1);
    let q2 = shift_up(s.p2);
    let q3 = shift_up(s.p3);
    let q4 = shift_up(s.p4);
    let q5 = shift_up(s.p5);
    let q6 = shift_up(s.p6);
    let q7 = shift_up(s.p7);
    Planes {
        p0: q0,
        p1: q1,
        p2: q2,
        p3: q3,
        p4: q4,
        p5: q5,
        p6: q6,
        p7: q7,
    }
}

/// Each byte from two rows below, on one plane.
#[inline(always)]
fn up_two(x: u8x16) -> u8x16
    ensures { (p : ℕ) → p < 16 → slice_index result p ≡ slice_index x (next_row (next_row p)) }
{
    x.swizzle([2, 3, 0, 1, 6, 7, 4, 5, 10, 11, 8, 9, 14, 15, 12, 13])
}

/// Each byte from two rows below.
#[inline(always)]
fn up_two_all(s: Planes) -> Planes
    ensures { (k p : ℕ) → p < 16 → byte_at result k p ≡ byte_at s k (next_row (next_row p)) }
{
    let q0 = up_two(s.p0);
    let q1 = up_two(s.p1);
    let q2 = up_two(s.p2);
    let q3 = up_two(s.p3);
    let q4 = up_two(s.p4);
    let q5 = up_two(s.p5);
    let q6 = up_two(s.p6);
    let q7 = up_two(s.p7);
    Planes {
        p0: q0,
        p1: q1,
        p2: q2,
        p3: q3,
        p4: q4,
        p5: q5,
        p6: q6,
        p7: q7,
    }
}

/// The products of {02} and each byte.
#[inline(always)]
fn double(s: Planes) -> Planes
    ensures { (k p : ℕ) → p < 16 → byte_at result k p ≡ product 2 (byte_at s k p) }
{
    let q1 = xor(s.p0, s.p7);
    let q3 = xor(s.p2, s.p7);
    let q4 = xor(s.p3, s.p7);
    Planes {
        p0: s.p7,
        p1: q1,
        p2: s.p1,
        p3: q3,
        p4: q4,
        p5: s.p4,
        p6: s.p5,
        p7: s.p6,
    }
}

/// ShiftRows, MixColumns (FIPS 197, 5.1.3) and AddRoundKey.
#[inline(always)]
fn mix(s: Planes, key: Planes) -> Planes
    ensures { (k p : ℕ) → p < 16
        → byte_at result k p ≡ bit_xor (mixed_byte (λ q. byte_at s k (shifted q)) p) (byte_at key k p) }
{
    let own = shift_all(s);
    let below = shift_up_all(s);
    let both = add(own, below);
    let further = up_two_all(both);
    let others = add(below, further);
    let twice = double(both);
    let sum = add(others, twice);
    add(sum, key)
}

/// ShiftRows and AddRoundKey.
#[inline(always)]
fn finish(s: Planes, key: Planes) -> Planes
    ensures { (k p : ℕ) → p < 16
        → byte_at result k p ≡ bit_xor (byte_at s k (shifted p)) (byte_at key k p) }
{
    let own = shift_all(s);
    add(own, key)
}

/// One of the rounds 1 to 13 (FIPS 197, 5.1).
#[inline(always)]
pub(crate) fn round(s: Planes, key: Planes) -> Planes
    ensures { (k : ℕ) (state words : List ℕ) → k < 8 → IsBlock s k state → IsRoundKey key k words
        → IsBlock result k (added (mix_columns (shift_rows (sub_bytes state))) words) }
{
    let replaced = substitute(s);
    mix(replaced, key)
}

/// Round 14, which has no MixColumns (FIPS 197, 5.1).
#[inline(always)]
pub(crate) fn last_round(s: Planes, key: Planes) -> Planes
    ensures { (k : ℕ) (state words : List ℕ) → k < 8 → IsBlock s k state → IsRoundKey key k words
        → IsBlock result k (added (shift_rows (sub_bytes state)) words) }
{
    let replaced = substitute(s);
    finish(replaced, key)
}
