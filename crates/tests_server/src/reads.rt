//! How often a server reads an area of its cloud.

use crate::cloud::{Cloud, SMALL, TWO, WIDE};
use crate::replies::{COMMITTED, ONE_NEW, THREE_NEW};
use crate::requests::{commit_of, fps_of, put_of, recipe_of, recipe_request};
use cd_base::{Bytes, NoMemory, sha256};
use cd_edges::{Area, Shelf};
use std::alloc::Global;
use std::test::Fail;

const FIRST: &[u8] = b"first share";

const SECOND: &[u8] = b"other share";

const THIRD: &[u8] = b"third share";

// Room for seven records in the journal.
const ROOM: u64 = 5_000;

/// The kinds of replies: Recipe, Shares, Rotten.
const RECIPE: u8 = 0x87;

const SHARES: u8 = 0x89;

const ROTTEN: u8 = 0x8F;

// Whether the reply to a content has this kind, and takes so many reads of an area.
fn takes(cloud: &mut Cloud, content: Bytes, kind: u8, area: Area, reads: u64) -> bool {
    let before = cloud.shelf.reads(TWO, area);
    let is_kind = cloud.ask(content.as_slice()).starts_with(&[kind]);
    is_kind && cloud.shelf.reads(TWO, area).saturating_sub(before) == reads
}

// Whether a content has this reply.
fn gets(cloud: &mut Cloud, content: Bytes, reply: &[u8]) -> bool {
    cloud.ask(content.as_slice()) == reply
}

// Whether the cloud is opened again, with so many commands.
fn is_reopened(cloud: &mut Cloud, commands: u64) -> bool {
    cloud.reopen(false) == Ok(commands)
}

// A GetShares of the three.
fn get_three(alloc: Global) -> Result<Bytes, NoMemory> {
    fps_of(alloc, 6, 7, &[sha256(FIRST), sha256(SECOND), sha256(THIRD)])
}

// Whether the three are stored, and the cloud is opened again.
fn has_three(alloc: Global, cloud: &mut Cloud) -> Result<bool, NoMemory> {
    let stored = gets(cloud, put_of(alloc, 7, &[FIRST, SECOND, THIRD])?, THREE_NEW);
    Ok(stored && is_reopened(cloud, 1))
}

// Whether the three are read by one call, and by none when they are asked again; and by one behind a Put, which writes
// the container.
fn are_read_once(alloc: Global, cloud: &mut Cloud) -> Result<bool, NoMemory> {
    let well = has_three(alloc, cloud)?;
    let first = takes(cloud, get_three(alloc)?, SHARES, Area::Shares, 1);
    let second = takes(cloud, get_three(alloc)?, SHARES, Area::Shares, 0);
    let more = gets(cloud, put_of(alloc, 7, &[b"one more"])?, ONE_NEW);
    let third = takes(cloud, get_three(alloc)?, SHARES, Area::Shares, 1);
    Ok(well && first && second && more && third)
}

fn overwrites(cloud: &mut Cloud, share: &[u8]) -> bool {
    cloud.shelf.write(TWO, Area::Shares, 0, share).is_ok()
}

// Whether a share that another wrote over is Rotten, read twice; and given again once its bytes are back, though the
// container that is kept has the others.
fn is_read_again(alloc: Global, cloud: &mut Cloud) -> Result<bool, NoMemory> {
    let harmed = overwrites(cloud, SECOND);
    let rotten = takes(cloud, get_three(alloc)?, ROTTEN, Area::Shares, 2);
    let mended = overwrites(cloud, FIRST);
    let given = takes(cloud, get_three(alloc)?, SHARES, Area::Shares, 1);
    Ok(harmed && rotten && mended && given)
}

// Both, with an opening between them that forgets the containers.
fn are_read_so(alloc: Global, cloud: &mut Cloud) -> Result<bool, NoMemory> {
    let once = are_read_once(alloc, cloud)?;
    let opened = is_reopened(cloud, 2);
    Ok(once && opened && is_read_again(alloc, cloud)?)
}

#[test]
fn shares_of_one_container(rt: HostRuntime) -> Result<(), Fail> {
    let mut cloud = Cloud::make(rt.alloc(), SMALL, WIDE)?;
    let well = are_read_so(rt.alloc(), &mut cloud);
    drop(cloud);
    assert!(rt; well?);
    Ok(())
}

// A Commit of a version of a recipe of the first share.
fn commit(alloc: Global, version: usize) -> Result<Bytes, NoMemory> {
    let recipe = recipe_of(alloc, 5, &[sha256(FIRST)])?;
    commit_of(alloc, 7, 1, version, recipe.as_slice())
}

// Whether the versions 1 to 6 of a file are stored, by recipes of one length.
fn has_six(alloc: Global, cloud: &mut Cloud) -> Result<bool, NoMemory> {
    let mut well = gets(cloud, put_of(alloc, 7, &[FIRST])?, ONE_NEW);
    for version in 1..7 {
        well = gets(cloud, commit(alloc, version)?, COMMITTED) && well;
    }
    Ok(well)
}

// Whether an opening reads the six recipes by two calls: the first one alone, and with the second the five behind it.
fn are_read_ahead(cloud: &mut Cloud) -> bool {
    let before = cloud.shelf.reads(TWO, Area::Recipes);
    let opened = is_reopened(cloud, 7);
    opened && cloud.shelf.reads(TWO, Area::Recipes).saturating_sub(before) == 2
}

// Whether a recipe is read by one call, and by none when it is asked again.
fn is_read_once(alloc: Global, cloud: &mut Cloud) -> Result<bool, NoMemory> {
    let first = takes(
        cloud,
        recipe_request(alloc, 7, 1, 1)?,
        RECIPE,
        Area::Recipes,
        1,
    );
    let second = takes(
        cloud,
        recipe_request(alloc, 7, 1, 1)?,
        RECIPE,
        Area::Recipes,
        0,
    );
    Ok(first && second)
}

fn are_recipes_read_so(alloc: Global, cloud: &mut Cloud) -> Result<bool, NoMemory> {
    let well = has_six(alloc, cloud)?;
    let ahead = are_read_ahead(cloud);
    Ok(well && ahead && is_read_once(alloc, cloud)?)
}

#[test]
fn recipes_of_one_container(rt: HostRuntime) -> Result<(), Fail> {
    let mut cloud = Cloud::make(rt.alloc(), ROOM, WIDE)?;
    let well = are_recipes_read_so(rt.alloc(), &mut cloud);
    drop(cloud);
    assert!(rt; well?);
    Ok(())
}
