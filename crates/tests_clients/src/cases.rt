//! Replies of clouds that keep a file.

ghost use Rattle.std.specs.Prelude.{◌<◌, All, IsTrue};
ghost use Rattle.cd_base.specs.Numbers.{numbers_of};

use crate::Script;
use cd_base::{Bytes, CloudNo, Clouds, NoMemory, Shape, is_path, share_len};
use file_recipe::{CloudFile, CloudFiles, disperse_file};
use recipe::{Item, Recipe};
use std::alloc::Global;
use std::test::Fail;

/// Bytes in a list of their own.
pub(crate) fn bytes_of(alloc: Global, content: &[u8]) -> Result<Bytes, NoMemory> {
    let mut bytes = Bytes::new(alloc);
    bytes.extend(content)?;
    Ok(bytes)
}

/// So many bytes that differ.
pub(crate) fn content(alloc: Global, len: usize) -> Result<Bytes, NoMemory> {
    let mut file = Bytes::new(alloc);
    let mut state = 0x9E37_79B9_7F4A_7C15u64;
    for _ in 0..len {
        state ^= state << 13;
        state ^= state >> 7;
        state ^= state << 17;
        file.push((state % 256) as u8)?;
    }
    Ok(file)
}

/// What the clouds keep of a file.
pub(crate) fn kept(alloc: Global, shape: Shape, file: &[u8]) -> Result<CloudFiles, Fail> {
    let path = b"a";
    if !is_path(path) || file.len() > 67_108_864 {
        return Err(Fail::new("no such file"));
    }
    Ok(disperse_file(alloc, shape, path, file)?)
}

// The reply with a recipe.
fn recipe_reply(alloc: Global, shape: Shape, recipe: &Recipe) -> Result<Bytes, Fail> {
    if !recipe.fits(shape) {
        return Err(Fail::new("no recipe"));
    }
    let mut reply = bytes_of(alloc, &[0x87])?;
    recipe.write(&mut reply)?;
    Ok(reply)
}

// The bytes of a share's length in a store of this shape.
fn width_of(shape: Shape, item: &Item) -> Result<usize, Fail> {
    if item.secret_len == 0 || item.secret_len > 16_384 {
        return Err(Fail::new("no secret"));
    }
    Ok(share_len(shape, item.secret_len) as usize)
}

// Appends the share in front behind its length, and gives the others.
fn add_share<'a>(reply: &mut Bytes, shares: &'a [u8], len: usize) -> Result<&'a [u8], Fail> {
    if len > shares.len() {
        return Err(Fail::new("no share"));
    }
    let (share, more) = shares.split_at(len);
    reply.extend(&[0, 0, (len / 256 % 256) as u8, (len % 256) as u8])?;
    reply.extend(share)?;
    Ok(more)
}

// Appends all shares at a cloud, each behind its length.
fn add_shares(reply: &mut Bytes, shape: Shape, file: &CloudFile) -> Result<(), Fail> {
    let mut rest = file.shares.as_slice();
    for item in file.recipe.items.as_slice() {
        rest = add_share(reply, rest, width_of(shape, item)?)?;
    }
    Ok(())
}

// The reply with all shares at a cloud.
fn shares_reply(alloc: Global, shape: Shape, file: &CloudFile) -> Result<Bytes, Fail> {
    let count = file.recipe.items.len();
    let mut reply = bytes_of(
        alloc,
        &[0x89, (count / 256 % 256) as u8, (count % 256) as u8],
    )?;
    add_shares(&mut reply, shape, file)?;
    Ok(reply)
}

/// What is answered at an ask.
#[derive(Clone, Copy)]
pub(crate) enum Answer {
    /// The recipe at the cloud of this number, or its shares.
    Recipe(u8),
    Shares(u8),
    /// A content.
    Content(&'static [u8]),
}

fn file_of(files: &CloudFiles, cloud: u8) -> Result<&CloudFile, Fail> {
    match files.get(cloud as usize) {
        Some(file) => Ok(file),
        None => Err(Fail::new("no cloud")),
    }
}

fn reply_of(
    alloc: Global,
    shape: Shape,
    files: &CloudFiles,
    answer: Answer,
) -> Result<Bytes, Fail> {
    match answer {
        Answer::Recipe(cloud) => recipe_reply(alloc, shape, &file_of(files, cloud)?.recipe),
        Answer::Shares(cloud) => shares_reply(alloc, shape, file_of(files, cloud)?),
        Answer::Content(content) => Ok(bytes_of(alloc, content)?),
    }
}

// Appends a reply.
fn push(alloc: Global, link: &mut Script, files: &CloudFiles, answer: Answer) -> Result<(), Fail> {
    let reply = reply_of(alloc, link.shape(), files, answer)?;
    Ok(link.push(reply)?)
}

/// Appends these replies.
pub(crate) fn push_all(
    alloc: Global,
    link: &mut Script,
    files: &CloudFiles,
    answers: &[Answer],
) -> Result<(), Fail> {
    for answer in answers {
        push(alloc, link, files, *answer)?;
    }
    Ok(())
}

/// Appends the replies of these clouds to a restore of a file of at most 256 secrets: the recipes, and the shares where there are any.
pub(crate) fn push_clouds(
    alloc: Global,
    link: &mut Script,
    files: &CloudFiles,
    clouds: &[u8],
) -> Result<(), Fail> {
    for cloud in clouds {
        push(alloc, link, files, Answer::Recipe(*cloud))?;
    }
    for cloud in clouds {
        if file_of(files, *cloud)?.recipe.items.len() > 0 {
            push(alloc, link, files, Answer::Shares(*cloud))?;
        }
    }
    Ok(())
}

fn push_numbers(clouds: &mut Clouds, numbers: &[u8]) -> Result<(), Fail> {
    for number in numbers {
        let cloud = CloudNo(*number);
        if !clouds.can_push(cloud) {
            return Err(Fail::new("no such clouds"));
        }
        clouds.push(cloud)?;
    }
    Ok(())
}

/// The clouds of these numbers.
pub(crate) fn clouds_of(alloc: Global, numbers: &[u8]) -> Result<Clouds, Fail> {
    let mut clouds = Clouds::new(alloc);
    push_numbers(&mut clouds, numbers)?;
    Ok(clouds)
}

/// Whether each of these clouds has a number below n.
pub(crate) fn are_below(n: u8, clouds: &[CloudNo]) -> bool
    ensures { IsTrue result → All (λ cloud. cloud < n) (numbers_of clouds.now) }
{
    match clouds {
        [] => true,
        [cloud, more @ ..] => {
            if cloud.0 < n {
                are_below(n, more)
            } else {
                false
            }
        }
    }
}
