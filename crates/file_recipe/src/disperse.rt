//! Dispersing a file.

ghost use Rattle.std.specs.Prelude.{◌≡◌, ◌+◌, ◌*◌, ◌/◌, ◌≤◌, ◌<◌, ℕ, [], length, map, min, slice_range, OnOk, IfOk, ◌-◌, ◌%◌, ◌≢◌};
ghost use Rattle.std.specs.List.{range_with_len};
ghost use Rattle.rabin_chunker.specs.CdBase.Limits.{IsPath};
ghost use Rattle.caont_rs.specs.ReedSolomon.Dispersal.{row};
ghost use Rattle.rabin_chunker.specs.Cuts.{ends as ends_of_file};
ghost use Rattle.caont_rs.specs.Package.{share};
ghost use Rattle.recipe.specs.Spelling.{file_limit, item_limit};
ghost use Rattle.file_recipe.specs.Clouds.{cloud_file, files_from, dispersed};
ghost use Rattle.file_recipe.specs.Progress.{AreEndsOfParts, parts_behind, unshared, EachWithShare, EachWithSecrets, HasDigests};

use crate::{CloudFile, CloudFiles};
use caont_rs::{Fp, disperse};
use hash_lanes::sha256_of_four;
use rabin_chunker::{Bytes, Chunker, CloudNo, Ends, NoMemory, Shape, sha256, share_len};
use recipe::{ITEM_LIMIT, Items, Recipe};
use std::alloc::Global;

/// The ends of a file's secrets.
pub fn ends_of(alloc: Global, file: &[u8]) -> Result<Ends, NoMemory>
    requires { length file.now ≤ file_limit }
    ensures { IfOk result (λ cuts. cuts ≡ ends_of_file file.now) }
{
    let mut cuts = Ends::new(alloc);
    let mut chunker = Chunker::new();
    chunker.feed(file, &mut cuts)?;
    chunker.finish(&mut cuts)?;
    Ok(cuts)
}

// How many bytes the shares of a file's secrets have at one cloud, or a few more: the k-th part of the file's bytes and of
// 31 + k more for each of its secrets.
fn room_of(shape: Shape, file_len: usize, count: usize) -> usize
    requires { file_len ≤ file_limit }
    ensures { result ≡ (file_len + min count item_limit * (31 + shape.k)) / shape.k }
{
    let k = shape.k as usize;
    (file_len + count.min(ITEM_LIMIT) * (31 + k)) / k
}

// What a cloud has before the first secret, with room for as many.
fn unshared_file(
    alloc: Global,
    shape: Shape,
    path: &[u8],
    file: &[u8],
    name: &[u8],
    count: usize,
) -> Result<CloudFile, NoMemory>
    requires path { IsPath path.now }
    requires few { length file.now ≤ file_limit }
    ensures { IfOk result (λ f. (j : ℕ) → name.now ≡ share shape j path.now → f ≡ unshared shape j path.now file.now) }
{
    let mut name_share = Bytes::new(alloc);
    name_share.extend(name)?;
    let items = Items::with_capacity(alloc, count)?;
    let shares = Bytes::with_capacity(alloc, room_of(shape, file.len(), count))?;
    Ok(CloudFile {
        recipe: Recipe {
            name_len: path.len() as u16,
            name_share,
            file_len: file.len() as u64,
            items,
        },
        shares,
    })
}

// The shares of a path, of `width` bytes each, one after another.
#[derive(Clone, Copy)]
struct NameShares<'a> {
    width: usize,
    shares: &'a [u8],
}

// What the clouds from `first` on have before the first secret, by their shares of the path.
fn each_unshared(
    alloc: Global,
    shape: Shape,
    path: &[u8],
    file: &[u8],
    names: &NameShares<'_>,
    first: usize,
    clouds: usize,
    count: usize,
) -> Result<Vec<CloudFile>, NoMemory>
    requires path { IsPath path.now }
    requires few { length file.now ≤ file_limit }
    requires within { first + clouds ≤ shape.n }
    requires room { (first + clouds) * names.now.width ≤ length names.now.shares.now }
    requires names { (j : ℕ) → j < shape.n → row names.now.width j names.now.shares.now ≡ share shape j path.now }
    ensures { IfOk result (λ files. files.items
        ≡ map (λ j. unshared shape j path.now file.now) (range_with_len first clouds)) }
{
    let NameShares { width, shares } = *names;
    let mut files = Vec::with_capacity(alloc, clouds)?;
    for place in 0..clouds {
        let cloud = first + place;
        let name = &shares[cloud * width..cloud * width + width];
        let unshared = unshared_file(alloc, shape, path, file, name, count)?;
        files.push(unshared)?;
    }
    Ok(files)
}

/// What the clouds from `first` on have before the first secret.
pub fn unshared_files(
    alloc: Global,
    shape: Shape,
    path: &[u8],
    file: &[u8],
    first: usize,
    clouds: usize,
    count: usize,
) -> Result<Vec<CloudFile>, NoMemory>
    requires path { IsPath path.now }
    requires few { length file.now ≤ file_limit }
    requires within { first + clouds ≤ shape.n }
    ensures { IfOk result (λ files. files.items
        ≡ map (λ j. unshared shape j path.now file.now) (range_with_len first clouds)) }
{
    let mut names = Bytes::new(alloc);
    disperse(shape, path, &mut names)?;
    let width = share_len(shape, path.len() as u32) as usize;
    let names = names.as_slice();
    let name_shares = NameShares {
        width,
        shares: names,
    };
    each_unshared(alloc, shape, path, file, &name_shares, first, clouds, count)
}

// The share of a place, of those that lie one after another.
fn share_at(place: usize, width: usize, shares: &[u8]) -> &[u8]
    requires { (place + 1) * width ≤ length shares.now }
    ensures { result.now ≡ row width place shares.now }
{
    let start = place * width;
    &shares[start..start + width]
}

// The hashes of four shares from a place on, of those before `end`. What stands for a place from there on is another's.
fn four_digests(place: usize, end: usize, width: usize, shares: &[u8]) -> [[u8; 32]; 4]
    requires some { place < end }
    requires few { end ≤ 16 }
    requires room { end * width ≤ length shares.now }
    ensures { HasDigests width shares.now place end result }
{
    let last = end - 1;
    let first = share_at(place, width, shares);
    if place == last {
        let Fp(only) = sha256(first);
        return [only, only, only, only];
    }
    let second = share_at(place + 1, width, shares);
    let third = share_at(last.min(place + 2), width, shares);
    let fourth = share_at(last.min(place + 3), width, shares);
    sha256_of_four(first, second, third, fourth)
}

// The hashes of the four shares among which the one at a place is, the `done`-th of those before `end`.
fn digests_at(
    four: [[u8; 32]; 4],
    done: usize,
    place: usize,
    end: usize,
    width: usize,
    shares: &[u8],
) -> [[u8; 32]; 4]
    requires kept { done % 4 ≢ 0 → HasDigests width shares.now (place - done % 4) end four }
    requires some { place < end }
    requires few { end ≤ 16 }
    requires room { end * width ≤ length shares.now }
    ensures { HasDigests width shares.now (place - done % 4) end result }
{
    if done % 4 == 0 {
        four_digests(place, end, width, shares)
    } else {
        four
    }
}

// Gives the clouds from `first` on their shares of a secret, of those of all clouds, which lie one after another. The
// shares are as long as each other, and four are hashed at once.
fn add_shares(
    files: &mut [CloudFile],
    first: usize,
    secret_len: u32,
    width: usize,
    shares: &[u8],
) -> Result<(), NoMemory>
    requires few { first + length files.old ≤ 16 }
    requires room { (first + length files.old) * width ≤ length shares.now }
    ensures { OnOk result (EachWithShare first secret_len width shares.now files.old files.new) }
{
    let end = first + files.len();
    let mut four = [[0u8; 32]; 4];
    for place in 0..files.len() {
        let next = digests_at(four, place, first + place, end, width, shares);
        four = next;
        let share = share_at(first + place, width, shares);
        let digest = four[place % 4];
        let file = &mut files[place];
        file.add(secret_len, share, digest)?;
    }
    Ok(())
}

// A secret that ends at a place, of bytes of which the first is the file's at `base`.
fn part_at(part: &[u8], base: usize, start: usize, end: usize) -> &[u8]
    requires after { base ≤ start }
    requires some { start < end }
    requires within { end ≤ base + length part.now }
    ensures { result.now ≡ slice_range part.now (start - base) (end - base) }
{
    &part[start - base..end - base]
}

/// Disperses those secrets of a file that end at these places, and gives the clouds from `first` on their shares. The first of
/// the secrets begins at `base`, and so do the bytes.
pub fn add_secrets(
    alloc: Global,
    shape: Shape,
    part: &[u8],
    base: usize,
    ends: &[u64],
    first: usize,
    files: &mut [CloudFile],
) -> Result<(), NoMemory>
    requires ends { AreEndsOfParts (base + length part.now) base ends.now }
    requires clouds { first + length files.old ≤ shape.n }
    ensures { OnOk result (EachWithSecrets shape first (parts_behind base part.now base ends.now) files.old files.new) }
{
    let mut shares = Bytes::new(alloc);
    let mut start = base;
    for end in ends {
        let secret = part_at(part, base, start, *end as usize);
        disperse(shape, secret, &mut shares)?;
        let width = share_len(shape, secret.len() as u32) as usize;
        add_shares(files, first, secret.len() as u32, width, shares.as_slice())?;
        start = *end as usize;
    }
    Ok(())
}

// Disperses a file for so many clouds, from `first` on: each secret once, and a hash for the share of each of them.
fn disperse_from(
    alloc: Global,
    shape: Shape,
    path: &[u8],
    file: &[u8],
    first: usize,
    clouds: usize,
) -> Result<Vec<CloudFile>, NoMemory>
    requires path { IsPath path.now }
    requires few { length file.now ≤ file_limit }
    requires within { first + clouds ≤ shape.n }
    ensures { IfOk result (λ files. files.items ≡ files_from shape first clouds path.now file.now) }
{
    let ends = ends_of(alloc, file)?;
    let mut files = unshared_files(alloc, shape, path, file, first, clouds, ends.len())?;
    add_secrets(
        alloc,
        shape,
        file,
        0,
        ends.as_slice(),
        first,
        files.as_mut_slice(),
    )?;
    Ok(files)
}

/// Disperses a file of at most 67,108,864 bytes under its path: it is cut into secrets once, each secret is dispersed
/// once, and each cloud gets its shares and its recipe. They are a function of the shape, the path and the bytes alone.
///
/// The shares of a cloud are taken in one growth, of the k-th part of the file and a few bytes a secret.
pub fn disperse_file(
    alloc: Global,
    shape: Shape,
    path: &[u8],
    file: &[u8],
) -> Result<CloudFiles, NoMemory>
    requires path { IsPath path.now }
    requires few { length file.now ≤ file_limit }
    ensures { IfOk result (λ files. files ≡ dispersed shape path.now file.now) }
{
    let files = disperse_from(alloc, shape, path, file, 0, shape.n as usize)?;
    Ok(CloudFiles::of(files))
}

/// What one cloud gets of a file of at most 67,108,864 bytes: the same as `disperse_file` gives it. Each secret is
/// dispersed once, and of the shares only those of this cloud are kept and hashed: the k-th part of the file.
pub fn disperse_for(
    alloc: Global,
    shape: Shape,
    cloud: CloudNo,
    path: &[u8],
    file: &[u8],
) -> Result<CloudFile, NoMemory>
    requires cloud { cloud.0 < shape.n }
    requires path { IsPath path.now }
    requires few { length file.now ≤ file_limit }
    ensures { IfOk result (λ f. f ≡ cloud_file shape cloud.0 path.now file.now) }
{
    let mut files = disperse_from(alloc, shape, path, file, cloud.0 as usize, 1)?;
    match files.pop() {
        Some(file) => Ok(file),
        None => unreachable!(),
    }
}
