//! Contents of requests.

use cd_base::{Bytes, Fp, NoMemory};
use std::alloc::Global;

fn low(number: usize) -> u8 {
    (number % 256) as u8
}

// A kind and a user.
fn headed(alloc: Global, kind: u8, user: u8) -> Result<Bytes, NoMemory> {
    let mut content = Bytes::new(alloc);
    content.extend(&[kind, 0, 0, 0, user])?;
    Ok(content)
}

// Appends a number of items.
fn put_count(content: &mut Bytes, count: usize) -> Result<(), NoMemory> {
    content.extend(&[low(count / 256), low(count)])
}

// Appends a share behind its length.
fn put_share(content: &mut Bytes, share: &[u8]) -> Result<(), NoMemory> {
    content.extend(&[0, 0, low(share.len() / 256), low(share.len())])?;
    content.extend(share)
}

/// A Put of these shares.
pub(crate) fn put_of(alloc: Global, user: u8, shares: &[&[u8]]) -> Result<Bytes, NoMemory> {
    let mut content = headed(alloc, 3, user)?;
    put_count(&mut content, shares.len())?;
    for share in shares {
        put_share(&mut content, share)?;
    }
    Ok(content)
}

/// A Put of so many shares of so many bytes, no two of them alike, numbered from the first number on.
pub(crate) fn put_many(
    alloc: Global,
    user: u8,
    first: usize,
    count: usize,
    len: usize,
) -> Result<Bytes, NoMemory> {
    let mut content = headed(alloc, 3, user)?;
    put_count(&mut content, count)?;
    for number in 0..count {
        let share = share_of(alloc, first.saturating_add(number), len)?;
        put_share(&mut content, share.as_slice())?;
    }
    Ok(content)
}

/// The share of that number in such a Put.
pub(crate) fn share_of(alloc: Global, number: usize, len: usize) -> Result<Bytes, NoMemory> {
    let mut share = Bytes::new(alloc);
    share.extend(&[low(number / 65_536), low(number / 256), low(number)])?;
    share.resize(len, 7)?;
    Ok(share)
}

/// A request of this kind (2 Query, 6 GetShares) for these fingerprints.
pub(crate) fn fps_of(alloc: Global, kind: u8, user: u8, fps: &[Fp]) -> Result<Bytes, NoMemory> {
    let mut content = headed(alloc, kind, user)?;
    put_count(&mut content, fps.len())?;
    for fp in fps {
        content.extend(&fp.0)?;
    }
    Ok(content)
}

// Appends a tag of 32 equal bytes, and a version.
fn put_key(content: &mut Bytes, tag: u8, version: usize) -> Result<(), NoMemory> {
    content.extend(&[tag; 32])?;
    content.extend(&[0, 0, 0, 0, 0, 0, low(version / 256), low(version)])
}

/// A Commit of a recipe.
pub(crate) fn commit_of(
    alloc: Global,
    user: u8,
    tag: u8,
    version: usize,
    recipe: &[u8],
) -> Result<Bytes, NoMemory> {
    let mut content = headed(alloc, 4, user)?;
    put_key(&mut content, tag, version)?;
    content.extend(recipe)?;
    Ok(content)
}

/// A GetRecipe.
pub(crate) fn recipe_request(
    alloc: Global,
    user: u8,
    tag: u8,
    version: usize,
) -> Result<Bytes, NoMemory> {
    let mut content = headed(alloc, 5, user)?;
    put_key(&mut content, tag, version)?;
    Ok(content)
}

/// A recipe whose name share is 11 times one byte, with a secret for each fingerprint: 2,048 bytes each, and the last one 1.
pub(crate) fn recipe_of(alloc: Global, name: u8, fps: &[Fp]) -> Result<Bytes, NoMemory> {
    let mut recipe = Bytes::new(alloc);
    recipe.extend(&[0, 1])?;
    recipe.resize(13, name)?;
    let count = fps.len();
    let len = count
        .saturating_sub(1)
        .saturating_mul(2_048)
        .saturating_add(count.min(1));
    recipe.extend(&[0, 0, 0, 0, 0, low(len / 65_536), low(len / 256), low(len)])?;
    recipe.extend(&[0, 0, low(count / 256), low(count)])?;
    for (place, fp) in fps.iter().enumerate() {
        recipe.extend(&fp.0)?;
        if place + 1 == count {
            recipe.extend(&[0, 0, 0, 1])?;
        } else {
            recipe.extend(&[0, 0, 8, 0])?;
        }
    }
    Ok(recipe)
}
