//! The values of the polynomials that have given values at given points, column by column.

ghost use Rattle.std.specs.Prelude.{◌≡◌, ◌≢◌, ℕ, ◌+◌, ◌*◌, ◌<◌, length, slice_index, EachIndex, MatchOption};
ghost use Rattle.gf256.specs.Field.{product};
ghost use Rattle.reed_solomon.specs.Interpolation.{numerator, weight, column_value, ArePoints};

use gf256::{inv, mul, mul_into};

// The product of `at` + `points[s]` over each s but `skipped`.
fn numerator_of(points: &[u8], skipped: usize, at: u8) -> u8
    ensures { result ≡ numerator (λ t. slice_index points.now t) skipped (length points.now) at }
{
    let mut product = 1;
    for s in 0..points.len() {
        if s != skipped {
            product = mul(at ^ points[s], product);
        }
    }
    product
}

// How much of the value at `points[t]` is in the value at `at`.
fn weight_of(points: &[u8], t: usize, at: u8) -> u8
    requires within { t < length points.now }
    requires apart { ArePoints (length points.now) (λ t. slice_index points.now t) }
    ensures { result ≡ weight (λ t. slice_index points.now t) (length points.now) t at }
{
    mul(
        inv(numerator_of(points, t, points[t])),
        numerator_of(points, t, at),
    )
}

// Writes 0 into each byte.
fn clear(target: &mut [u8])
    ensures { EachIndex target.new (λ c. slice_index target.new c ≡ 0) }
{
    for byte in target.iter_mut() {
        *byte = 0;
    }
}

// Writes the products of `c` and the bytes of `source`.
fn write_multiple(c: u8, source: &[u8], target: &mut [u8])
    requires { length source.now ≡ length target.old }
    ensures { EachIndex target.new (λ i. slice_index target.new i ≡ product c (slice_index source.now i)) }
{
    if c == 1 {
        target.copy_from_slice(source);
        return;
    }
    clear(target);
    mul_into(c, source, target);
}

// Writes to `target`, for each column, the value at `at` of the polynomial that has the values at the points.
fn interpolate(points: &[u8], values: &[u8], width: usize, at: u8, target: &mut [u8])
    requires some { 0 < length points.now }
    requires whole { length values.now ≡ length points.now * width }
    requires room { length target.old ≡ width }
    requires apart { ArePoints (length points.now) (λ t. slice_index points.now t) }
    ensures { (c : ℕ) → c < width → slice_index target.new c ≡ column_value points.now values.now width at c }
{
    write_multiple(weight_of(points, 0, at), &values[..width], target);
    for t in 1..points.len() {
        mul_into(
            weight_of(points, t, at),
            &values[t * width..(t + 1) * width],
            target,
        );
    }
}

// Where `at` stands among the points.
pub(crate) fn place_of(points: &[u8], at: u8) -> Option<usize>
    ensures { MatchOption result ((t : ℕ) → t < length points.now
        → slice_index points.now t ≢ at) (λ t. (t < length points.now) × (slice_index points.now t ≡ at)) }
{
    for t in 0..points.len() {
        if points[t] == at {
            return Some(t);
        }
    }
    None
}

// The same as `interpolate`. At one of the points it copies that point's values.
fn evaluate(points: &[u8], values: &[u8], width: usize, at: u8, target: &mut [u8])
    requires some { 0 < length points.now }
    requires whole { length values.now ≡ length points.now * width }
    requires room { length target.old ≡ width }
    requires apart { ArePoints (length points.now) (λ t. slice_index points.now t) }
    ensures { (c : ℕ) → c < width → slice_index target.new c ≡ column_value points.now values.now width at c }
{
    match place_of(points, at) {
        Some(t) => target.copy_from_slice(&values[t * width..(t + 1) * width]),
        None => interpolate(points, values, width, at, target),
    }
}

// Writes to row j of `target`, for each j below `rows`, what `evaluate` writes at j.
pub(crate) fn evaluate_rows(points: &[u8], values: &[u8], width: usize, rows: u8, target: &mut [u8])
    requires some { 0 < length points.now }
    requires whole { length values.now ≡ length points.now * width }
    requires room { length target.old ≡ rows * width }
    requires apart { ArePoints (length points.now) (λ t. slice_index points.now t) }
    ensures { (j c : ℕ) → j < rows → c < width
        → slice_index target.new (j * width + c) ≡ column_value points.now values.now width j c }
{
    for j in 0..rows {
        let start = j as usize * width;
        evaluate(points, values, width, j, &mut target[start..start + width]);
    }
}
