//! AES-256 (FIPS 197, edition of 2001) and the mask that it makes of a key.
//!
//! `block` is the cipher of one block, and `mask::xor_mask` adds to a text the cipher texts of the counter blocks 0, 1,
//! 2 and so on. No call refuses, and none takes memory.
#![tactic(auto)]

mod cipher;
pub mod laws;
pub mod mask;
mod planes;
mod rounds;
mod schedule;
mod substitution;
mod transposition;

pub use cipher::{Key, block};
pub use gf256::{inv, mul, mul_into, pow};
