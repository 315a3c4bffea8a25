// Multiples of bytes added to bytes, sixteen lanes at a time.
ghost use Rattle.std.specs.Prelude.{◌≡◌, ℕ, ◌+◌, ◌*◌, ◌/◌, ◌%◌, ◌<◌, ◌≤◌, length, slice_index, bit_xor, EachIndex};
ghost use Rattle.gf256.specs.Field.{product};

use super::mul;
use std::simd::prelude::*;

// Writes the products of `c` and the numbers j · `by`, for each place j of `products`.
fn write_products(c: u8, by: u8, products: &mut [u8])
    requires places { length products.old ≡ 16 }
    requires bytes { by ≤ 16 }
    ensures { EachIndex products.new (λ j. slice_index products.new j ≡ product c (j * by)) }
{
    for j in 0..products.len() {
        products[j] = mul(c, j as u8 * by);
    }
}

// The products of `c` and the numbers j · `by` for j below 16.
fn sixteen_products(c: u8, by: u8) -> [u8; 16]
    requires { by ≤ 16 }
    ensures { (j : ℕ) → j < 16 → slice_index result j ≡ product c (j * by) }
{
    let mut products = [0; 16];
    write_products(c, by, &mut products);
    products
}

// Adds to each lane of `target` the product of a byte c and that lane of `source`: `low` has the products of c and the
// bytes below 16, and `high` those of c and their multiples by 16.
#[inline(always)]
fn add_products(low: u8x16, high: u8x16, source: u8x16, target: u8x16) -> u8x16
    ensures long { length result ≡ 16 }
    ensures lanes { (i : ℕ) → i < 16 → slice_index result i
        ≡ bit_xor (slice_index target i) (bit_xor (slice_index low (slice_index source i % 16))
        (slice_index high (slice_index source i / 16))) }
{
    target
        ^ (low.swizzle_dyn(source & u8x16::splat(15)) ^ high.swizzle_dyn(source >> u8x16::splat(4)))
}

// The same for sixteen bytes in memory.
fn add_sixteen(low: u8x16, high: u8x16, source: &[u8], target: &mut [u8])
    requires from { length source.now ≡ 16 }
    requires into { length target.old ≡ 16 }
    ensures { (i : ℕ) → i < 16 → slice_index target.new i
        ≡ bit_xor (slice_index target.old i) (bit_xor (slice_index low (slice_index source.now i % 16))
        (slice_index high (slice_index source.now i / 16))) }
{
    add_products(
        low,
        high,
        u8x16::from_slice(source),
        u8x16::from_slice(target),
    )
    .copy_to_slice(target);
}

// Adds the products of `c` and the bytes of `source` to those of `target`, one by one.
fn add_each(c: u8, source: &[u8], target: &mut [u8])
    requires { length source.now ≡ length target.old }
    ensures { EachIndex target.new (λ i. slice_index target.new i
        ≡ bit_xor (slice_index target.old i) (product c (slice_index source.now i))) }
{
    for i in 0..source.len() {
        target[i] ^= mul(c, source[i]);
    }
}

// Adds sixteen bytes in memory to sixteen others.
fn xor_sixteen(source: &[u8], target: &mut [u8])
    requires from { length source.now ≡ 16 }
    requires into { length target.old ≡ 16 }
    ensures { (i : ℕ) → i < 16 → slice_index target.new i
        ≡ bit_xor (slice_index target.old i) (slice_index source.now i) }
{
    (u8x16::from_slice(target) ^ u8x16::from_slice(source)).copy_to_slice(target);
}

// Adds the bytes of `source` to those of `target`.
fn xor_into(source: &[u8], target: &mut [u8])
    requires { length source.now ≡ length target.old }
    ensures { EachIndex target.new (λ i. slice_index target.new i
        ≡ bit_xor (slice_index target.old i) (product 1 (slice_index source.now i))) }
{
    let blocks = source.len() / 16;
    for i in 0..blocks {
        let start = i * 16;
        xor_sixteen(&source[start..start + 16], &mut target[start..start + 16]);
    }
    let rest = blocks * 16;
    add_each(1, &source[rest..], &mut target[rest..]);
}

/// Adds, byte by byte, the products of `c` and the bytes of `src` to the bytes of `dst`. Both have one length. Nothing
/// is looked up where `c` is 0 or 1.
pub fn mul_into(c: u8, src: &[u8], dst: &mut [u8])
    requires { length src.now ≡ length dst.old }
    ensures { EachIndex dst.new (λ i. slice_index dst.new i
        ≡ bit_xor (slice_index dst.old i) (product c (slice_index src.now i))) }
{
    if c == 0 {
        return;
    }
    if c == 1 {
        xor_into(src, dst);
        return;
    }
    let low = u8x16::from_array(sixteen_products(c, 1));
    let high = u8x16::from_array(sixteen_products(c, 16));
    let blocks = src.len() / 16;
    for i in 0..blocks {
        let start = i * 16;
        add_sixteen(
            low,
            high,
            &src[start..start + 16],
            &mut dst[start..start + 16],
        );
    }
    let rest = blocks * 16;
    add_each(c, &src[rest..], &mut dst[rest..]);
}
