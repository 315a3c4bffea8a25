//! From shares back to a secret.

ghost use Rattle.std.specs.Prelude.{◌≡◌, ℕ, List, ◌+◌, ◌-◌, ◌*◌, ◌/◌, ◌<◌, ◌≤◌, ◌^◌, ◌++◌, ◌≢◌, ◌==◌, not, length, take, drop, position, OnOk, OnErr, IfErr, IfSome};
ghost use Rattle.reed_solomon.specs.CdBase.Lengths.{share_len_of};
ghost use Rattle.reed_solomon.specs.CdBase.Limits.{secret_limit};
ghost use Rattle.sha2.specs.Sha256.{sha256 as sha256_of};
ghost use Rattle.aes256.specs.Cipher.{added};
ghost use Rattle.reed_solomon.specs.Dispersal.{AreChoice};
ghost use Rattle.caont_rs.specs.Package.{masked};
ghost use Rattle.caont_rs.specs.Opening.{package_at, opened_package, opened_text, without_pad, opened, answer_of};

use crate::sealing::sum;
use aes256::mask::xor_mask;
use reed_solomon::{Bytes, Coder, Fp, NoMemory, Shape, sha256};

/// Why shares give no secret.
#[derive(Clone, Copy, Debug, PartialEq, Eq)]
pub enum RecoverErr {
    /// The hash of the padded text, `found`, isn't the one that the package names.
    BadSecret { named: Fp, found: Fp },
    /// The hash is right, and the byte of the pad at place `at` of the padded text, the first such, isn't zero.
    BadPad { at: u32, byte: u8 },
    /// Memory ran out.
    NoMemory,
}

impl From<NoMemory> for RecoverErr {
    ghost use Rattle.std.specs.Prelude.{◌≡◌};
    ghost use Rattle.caont_rs.specs.declared.opening.RecoverErr.TheVariants.{NoMemory as no_memory};

    ghost from_gives = { λ _ e. e ≡ no_memory };

    fn from(_error: NoMemory) -> RecoverErr {
        RecoverErr::NoMemory
    }
}

// Where the first byte stands that isn't zero.
fn first_nonzero(bytes: &[u8]) -> Option<usize>
    ensures within { IfSome result (λ place. place < length bytes.now) }
    ensures value { result ≡ position (λ byte. not (byte == 0)) bytes.now }
{
    bytes.iter().position(|byte| *byte != 0)
}

// Tests the pad of a text whose hash is right.
fn test_pad(secret_len: u32, text: &[u8]) -> Result<(), RecoverErr>
    requires within { secret_len ≤ length text.now }
    requires few { length text.now < 2 ^ 32 }
    ensures { without_pad secret_len text.now (position (λ byte. not (byte == 0)) (drop secret_len text.now))
        ≡ answer_of result (take secret_len text.now) }
{
    match first_nonzero(&text[secret_len as usize..]) {
        None => Ok(()),
        Some(place) => {
            let at = secret_len + place as u32;
            Err(RecoverErr::BadPad {
                at,
                byte: text[at as usize],
            })
        }
    }
}

// Takes the mask off a package's body, and tests what stands there.
fn open_text(secret_len: u32, text: &mut [u8], tail: &[u8; 32]) -> Result<(), RecoverErr>
    requires within { secret_len ≤ length text.old }
    requires few { length text.old < 2 ^ 32 }
    ensures { let h = added tail.now (sha256_of text.old) in let x = masked h text.old in
        (text.new ≡ x) × (opened_text secret_len h x ≡ answer_of result (take secret_len x)) }
{
    let digest = sha256(text);
    let named = Fp(sum(tail, &digest.0));
    xor_mask(&named.0, text);
    let found = sha256(text);
    if named != found {
        return Err(RecoverErr::BadSecret { named, found });
    }
    test_pad(secret_len, text)
}

// Opens a package in place.
fn open_package(secret_len: u32, sealed: &mut [u8]) -> Result<(), RecoverErr>
    requires within { secret_len + 32 ≤ length sealed.old }
    requires few { length sealed.old < 2 ^ 32 }
    ensures { opened_package secret_len sealed.old ≡ answer_of result (take secret_len sealed.new) }
{
    let (text, tail) = sealed.split_at_mut(sealed.len() - 32);
    let mut last = [0; 32];
    last.copy_from_slice(tail);
    open_text(secret_len, text, &last)
}

// Writes the package whose shares at the points are the given ones.
fn unite(shape: Shape, points: &[u8], shares: &[u8], sealed: &mut [u8])
    requires choice { AreChoice shape points.now }
    requires whole { length shares.now ≡ shape.k * (length shares.now / shape.k) }
    requires room { length sealed.old ≡ length shares.now }
    ensures { sealed.new ≡ package_at shape points.now shares.now }
{
    Coder::of(shape).decode(points, shares, sealed);
}

// Writes the package that the shares give, and opens it in place.
fn recover_into(
    shape: Shape,
    secret_len: u32,
    points: &[u8],
    shares: &[u8],
    sealed: &mut [u8],
) -> Result<(), RecoverErr>
    requires few { secret_len ≤ secret_limit }
    requires choice { AreChoice shape points.now }
    requires whole { length shares.now ≡ shape.k * share_len_of shape.k secret_len }
    requires room { length sealed.old ≡ length shares.now }
    ensures { opened shape secret_len points.now shares.now ≡ answer_of result (take secret_len sealed.new) }
{
    unite(shape, points, shares, sealed);
    open_package(secret_len, sealed)
}

/// Appends to `out` the secret of 1 to 16,384 bytes, `secret_len`, whose shares with the numbers `points` are given one
/// after another, each of `share_len` bytes. The points are k different numbers below n, in any order.
///
/// BadSecret comes exactly where the hash of the padded text isn't the one that the package names, and else BadPad
/// exactly where a byte of the pad isn't zero. After each Err, NoMemory too, `out` is as before.
pub fn recover(
    shape: Shape,
    secret_len: u32,
    points: &[u8],
    shares: &[u8],
    out: &mut Bytes,
) -> Result<(), RecoverErr>
    requires some { 1 ≤ secret_len }
    requires few { secret_len ≤ secret_limit }
    requires choice { AreChoice shape points.now }
    requires whole { length shares.now ≡ shape.k * share_len_of shape.k secret_len }
    ensures ok { OnOk result ((text : List ℕ) × (opened shape secret_len points.now shares.now ≡ Ok text)
        × (out.new ≡ out.old ++ text)) }
    ensures err { IfErr result (λ e. e ≢ RecoverErr.NoMemory → opened shape secret_len points.now shares.now ≡ Err e) }
    ensures kept { OnErr result (out.new ≡ out.old) }
{
    let before = out.len();
    let Some(long) = before.checked_add(shares.len()) else {
        return Err(RecoverErr::NoMemory);
    };
    out.resize(long, 0)?;
    let answer = recover_into(
        shape,
        secret_len,
        points,
        shares,
        &mut out.as_mut_slice()[before..],
    );
    match answer {
        Ok(()) => out.truncate(before + secret_len as usize),
        Err(_) => out.truncate(before),
    }
    answer
}
