//! From a secret to its shares.

ghost use Rattle.std.specs.Prelude.{◌≡◌, ℕ, ◌+◌, ◌-◌, ◌*◌, ◌/◌, ◌<◌, ◌≤◌, ◌++◌, length, replicate, take, drop, OnOk, OnErr};
ghost use Rattle.reed_solomon.specs.CdBase.Lengths.{share_len_of};
ghost use Rattle.reed_solomon.specs.CdBase.Limits.{secret_limit};
ghost use Rattle.sha2.specs.Sha256.{sha256 as sha256_of};
ghost use Rattle.aes256.specs.Cipher.{added};
ghost use Rattle.reed_solomon.specs.Dispersal.{row};
ghost use Rattle.caont_rs.specs.Package.{masked, package_of, share};

use aes256::mask::xor_mask;
use reed_solomon::{Bytes, Coder, NoMemory, Shape, sha256, share_len};
use std::simd::prelude::*;

// The sum of two digests.
pub(crate) fn sum(a: &[u8; 32], b: &[u8; 32]) -> [u8; 32]
    ensures { result ≡ added a.now b.now }
{
    (u8x32::from_array(*a) ^ u8x32::from_array(*b)).to_array()
}

// Writes the secret and zero bytes behind it.
fn write_padded(secret: &[u8], text: &mut [u8])
    requires { length secret.now ≤ length text.old }
    ensures { text.new ≡ secret.now ++ replicate (length text.old - length secret.now) 0 }
{
    let (front, pad) = text.split_at_mut(secret.len());
    front.copy_from_slice(secret);
    pad.fill(0);
}

// Puts a padded text under the mask of its own hash, and writes the sum of its hash and its body's.
fn seal_text(text: &mut [u8], tail: &mut [u8])
    requires { length tail.old ≡ 32 }
    ensures body { text.new ≡ masked (sha256_of text.old) text.old }
    ensures tail { tail.new ≡ added (sha256_of text.old) (sha256_of text.new) }
{
    let key = sha256(text);
    xor_mask(&key.0, text);
    let digest = sha256(text);
    tail.copy_from_slice(&sum(&key.0, &digest.0));
}

// Writes the package of a secret, whose length is k times that of a share.
pub(crate) fn seal(shape: Shape, secret: &[u8], sealed: &mut [u8])
    requires { length sealed.old ≡ shape.k * share_len_of shape.k (length secret.now) }
    ensures { sealed.new ≡ package_of shape secret.now }
{
    let (text, tail) = sealed.split_at_mut(sealed.len() - 32);
    write_padded(secret, text);
    seal_text(text, tail);
}

// Writes the shares of a secret to the first n widths, by way of its package in the k widths behind them.
fn disperse_into(shape: Shape, secret: &[u8], width: usize, buffer: &mut [u8])
    requires width { width ≡ share_len_of shape.k (length secret.now) }
    requires room { length buffer.old ≡ shape.n * width + shape.k * width }
    ensures { (j : ℕ) → j < shape.n → row width j (take (shape.n * width) buffer.new) ≡ share shape j secret.now }
{
    let (shares, sealed) = buffer.split_at_mut(shape.n() as usize * width);
    seal(shape, secret, sealed);
    Coder::of(shape).encode(sealed, shares);
}

/// Disperses a secret of 1 to 16,384 bytes: `out` becomes its n shares, one after another, each of `share_len` bytes.
/// The shares are a function of the shape and the secret alone. For want of memory `out` is as before.
pub fn disperse(shape: Shape, secret: &[u8], out: &mut Bytes) -> Result<(), NoMemory>
    requires some { 1 ≤ length secret.now }
    requires few { length secret.now ≤ secret_limit }
    ensures whole { OnOk result (length out.new ≡ shape.n * share_len_of shape.k (length secret.now)) }
    ensures shares { OnOk result ((j : ℕ) → j < shape.n
        → row (share_len_of shape.k (length secret.now)) j out.new ≡ share shape j secret.now) }
    ensures err { OnErr result (out.new ≡ out.old) }
{
    let width = share_len(shape, secret.len() as u32) as usize;
    let shares = shape.n() as usize * width;
    let sealed = shape.k() as usize * width;
    out.resize(shares + sealed, 0)?;
    disperse_into(shape, secret, width, out.as_mut_slice());
    out.truncate(shares);
    Ok(())
}
