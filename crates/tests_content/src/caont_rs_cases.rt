//! The dispersal beside another one, which was made in Python of hashlib's SHA-256, the AES-256 of the package
//! `cryptography`, and Lagrange's interpolation over bytes with products by shifts.

ghost use Rattle.std.specs.Prelude.{◌≡◌, ◌≤◌, length};

use caont_rs::{RecoverErr, disperse, name_package, name_share, recover, tag_of};
use cd_base::{Bytes, CloudNo, Fp, NoMemory, Shape, is_path, sha256, share_len};
use reed_solomon::are_choice;
use std::alloc::Global;
use std::test::Fail;

// n, k, the length of a secret whose byte i is (7 i + 3) % 251, and the first half of the SHA-256 of its n shares.
static DISPERSALS: [(u8, u8, usize, u128); 15] = [
    (4, 3, 1, 0x94962c08a5c03b459fdcb5727344768d),
    (4, 3, 2, 0x6f261599a5aa225e031eab70f1f950ea),
    (4, 3, 2048, 0xe67fda09f4cef30ae95078a8fea2205e),
    (4, 3, 8192, 0xd16499e46863f66c83bba987fb06d142),
    (4, 3, 16384, 0xb3adc1258cc64659f6230c6833e734a9),
    (3, 2, 1, 0x3e756585e918b07247efdc65f0cd7cee),
    (3, 2, 2, 0xdd4431c7c2050007bef936ae22803134),
    (3, 2, 2048, 0x9a4d26d1a4e59dcc42c09cfa112876ab),
    (3, 2, 8192, 0xf2a15db789de61bfc69e26eab0cbb33c),
    (3, 2, 16384, 0x8859c4306e36242864d1d0c8b78939ad),
    (16, 15, 1, 0x62a54ce9afcb7b94381c33fc0e718c5f),
    (16, 15, 2, 0x2503b888fb801c9015942bc01428c150),
    (16, 15, 2048, 0x650112b5102f43099353eec8d711da03),
    (16, 15, 8192, 0x6dac6eba206bf694369a2298a5643b7d),
    (16, 15, 16384, 0x5517d27d3b4057293fc380057a8bed57),
];

fn first_half(digest: Fp) -> u128 {
    let mut half = [0; 16];
    half.copy_from_slice(&digest.0[..16]);
    u128::from_be_bytes(half)
}

fn write_secret(target: &mut [u8]) {
    let mut next = 3u8;
    for byte in target.iter_mut() {
        *byte = next;
        next = if next < 244 { next + 7 } else { next - 244 };
    }
}

// The numbers of the last k clouds, the last one first, and their shares.
fn give_last(
    shape: Shape,
    width: usize,
    shares: &[u8],
    points: &mut Bytes,
    given: &mut Bytes,
) -> Result<(), NoMemory>
    requires { width ≤ 8208 }
{
    for place in 0..shape.k {
        let number = shape.n - 1 - place;
        points.push(number)?;
        let start = number as usize * width;
        if start + width <= shares.len() {
            given.extend(&shares[start..start + width])?;
        }
    }
    Ok(())
}

// Recovers a secret from the shares above the first n - k. No bytes where the lengths don't fit.
fn recover_last(
    shape: Shape,
    secret_len: u32,
    shares: &[u8],
    points: &mut Bytes,
    given: &mut Bytes,
    out: &mut Bytes,
) -> Result<(), RecoverErr>
    requires some { 1 ≤ secret_len }
    requires few { secret_len ≤ 16384 }
{
    let width = share_len(shape, secret_len) as usize;
    give_last(shape, width, shares, points, given)?;
    if given.len() == shape.k as usize * width && are_choice(shape, points.as_slice()) {
        recover(shape, secret_len, points.as_slice(), given.as_slice(), out)?;
    }
    Ok(())
}

// Whether the last shares give a secret back.
fn gives_back(alloc: Global, shape: Shape, secret: &[u8], shares: &[u8]) -> Result<bool, RecoverErr>
    requires some { 1 ≤ length secret.now }
    requires few { length secret.now ≤ 16384 }
{
    let mut points = Bytes::new(alloc);
    let mut given = Bytes::new(alloc);
    let mut out = Bytes::new(alloc);
    let len = secret.len() as u32;
    recover_last(shape, len, shares, &mut points, &mut given, &mut out)?;
    Ok(*out.as_slice() == *secret)
}

// Whether the shares of a secret have this digest, and give it back.
fn is_dispersed(
    alloc: Global,
    shape: Shape,
    secret: &[u8],
    half: u128,
    shares: &mut Bytes,
) -> Result<bool, RecoverErr> {
    if secret.len() < 1 || secret.len() > 16384 {
        return Ok(false);
    }
    disperse(shape, secret, shares)?;
    let same = first_half(sha256(shares.as_slice())) == half;
    Ok(same && gives_back(alloc, shape, secret, shares.as_slice())?)
}

type Row = (u8, u8, usize, u128);

fn is_row(alloc: Global, text: &[u8], row: Row, shares: &mut Bytes) -> Result<bool, RecoverErr> {
    let (n, k, len, half) = row;
    let Some(shape) = Shape::of(n, k) else {
        return Ok(false);
    };
    let (secret, _) = text.split_at(len.min(text.len()));
    is_dispersed(alloc, shape, secret, half, shares)
}

fn are_dispersed(alloc: Global, shares: &mut Bytes) -> Result<bool, RecoverErr> {
    let mut text = [0; 16384];
    write_secret(&mut text);
    let mut well = true;
    for row in &DISPERSALS {
        well = is_row(alloc, &text, *row, shares)? && well;
    }
    Ok(well)
}

#[test]
fn disperses(rt: HostRuntime) -> Result<(), Fail> {
    let mut shares = Bytes::new(rt.alloc());
    let well = are_dispersed(rt.alloc(), &mut shares);
    drop(shares);
    assert!(rt; well?);
    Ok(())
}

// The last bytes of the name share of the path a at cloud 3.
static NAME_SHARE: [u8; 11] = [
    0xb9, 0xdb, 0x83, 0x85, 0x7c, 0xd2, 0xe8, 0xfb, 0x86, 0x3a, 0x67,
];

// Whether a path has this tag, which is that of its package.
fn is_tagged(alloc: Global, shape: Shape, path: &[u8], out: &mut Bytes) -> Result<bool, NoMemory> {
    if !is_path(path) {
        return Ok(false);
    }
    let tag = tag_of(alloc, shape, path)?;
    name_package(shape, path, out)?;
    let half = first_half(Fp(tag.0));
    Ok(
        half == 0x5d68886a3c18c6681152c8912b098df2
            && first_half(sha256(out.as_slice())) == half
            && out.len() == 33,
    )
}

// Whether a name share, which is appended to the package, is this one.
fn is_named(alloc: Global, shape: Shape, path: &[u8], out: &mut Bytes) -> Result<bool, NoMemory> {
    let cloud = CloudNo(3);
    if !is_path(path) || cloud.0 >= shape.n {
        return Ok(false);
    }
    name_share(alloc, shape, cloud, path, out)?;
    Ok(out.len() == 44 && out.as_slice().ends_with(&NAME_SHARE))
}

fn has_names(alloc: Global, out: &mut Bytes) -> Result<bool, NoMemory> {
    let Some(shape) = Shape::of(4, 3) else {
        return Ok(false);
    };
    Ok(is_tagged(alloc, shape, b"a", out)? && is_named(alloc, shape, b"a", out)?)
}

#[test]
fn names(rt: HostRuntime) -> Result<(), Fail> {
    let mut out = Bytes::new(rt.alloc());
    let well = has_names(rt.alloc(), &mut out);
    drop(out);
    assert!(rt; well?);
    Ok(())
}
