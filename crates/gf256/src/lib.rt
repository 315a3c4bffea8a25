//! The field of 256 elements: a byte is a polynomial of degree below 8 over the field of two elements, bit i the
//! coefficient of x^i. A sum is `^`, and a product is taken modulo x^8 + x^4 + x^3 + x + 1 (0x11B), as in FIPS 197,
//! section 4.2.
#![tactic(auto)]

ghost use Rattle.std.specs.Prelude.{◌≡◌, ◌≢◌, ℕ, ◌+◌, ◌<◌, bit_xor, ◌⊎◌};
ghost use Rattle.gf256.specs.Field.{product, power, inverse};

mod generator;
mod multiple;

use generator::{exponential, logarithm};
pub use multiple::mul_into;

/// The product of two bytes.
pub fn mul(a: u8, b: u8) -> u8
    ensures { result ≡ product a b }
{
    if a == 0 || b == 0 {
        return 0;
    }
    exponential(logarithm(a) + logarithm(b))
}

/// The only byte whose product with `a` is 1.
pub fn inv(a: u8) -> u8
    requires { a ≢ 0 }
    ensures one { product a result ≡ 1 }
    ensures is { result ≡ inverse a }
{
    exponential(255 - logarithm(a))
}

/// The product of `e` factors `a`: 1 where `e` is 0, also for `a` 0.
pub fn pow(a: u8, e: u8) -> u8
    ensures { result ≡ power a e }
{
    if e == 0 {
        return 1;
    }
    if a == 0 {
        return 0;
    }
    exponential(logarithm(a) * e as usize % 255)
}

/// The laws of the field. It does nothing: its clauses are theorems on the product. Those without a bound hold of all
/// numbers, since the product reads the low eight bits of each.
pub fn field_laws()
    ensures byte { (a b : ℕ) → product a b < 256 }
    ensures commutative { (a b : ℕ) → product a b ≡ product b a }
    ensures associative { (a b c : ℕ) → product (product a b) c ≡ product a (product b c) }
    ensures distributive { (a b c : ℕ) → product a (bit_xor b c) ≡ bit_xor (product a b) (product a c) }
    ensures zero { (a : ℕ) → product 0 a ≡ 0 }
    ensures one { (a : ℕ) → a < 256 → product 1 a ≡ a }
    ensures inverses { (a : ℕ) → a < 256 → a ≢ 0 → product a (inverse a) ≡ 1 }
    ensures only_inverse { (a b : ℕ) → a < 256 → b < 256 → product a b ≡ 1 → b ≡ inverse a }
    ensures no_zero_divisors { (a b : ℕ) → a < 256 → b < 256 → product a b ≡ 0 → (a ≡ 0) ⊎ (b ≡ 0) }
{}
