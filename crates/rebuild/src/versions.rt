//! One version, from the clouds that are read.

ghost use Rattle.std.specs.Prelude.{◌≡◌, ℕ, length, All, IsTrue, IfOk, IfErr, Ok, None, false};
ghost use Rattle.std.specs.List.{Contains};
ghost use Rattle.lane_steps.specs.CdBase.Limits.{IsPath};
ghost use Rattle.lane_steps.specs.CdBase.Numbers.{numbers_of};
ghost use Rattle.lane_steps.specs.Recipe.Spelling.{Fits};
ghost use Rattle.kept_files.specs.ReedSolomon.Dispersal.{AreChoice};
ghost use Rattle.kept_files.specs.RestoreJob.Asking.{HasAskedClouds, Leads, is_lost};
ghost use Rattle.kept_files.specs.RestoreJob.Refusals.{Names};
ghost use Rattle.rebuild.specs.Steps.{FindsTold, OpensCaused, OpensTold, ReadCauses, RefusedAs, UnnamedAs, VersionFits};
ghost use Rattle.rebuild.specs.Steps.{judged_by, skip_as};

use crate::SkipWhy;
use crate::naming::{NameErr, named};
use kept_files::{RestoreErr, fetch_version, restore_agreed};
use lane_steps::{Bytes, CloudNo, Link, Recipe, ReplyBuf, Shape, Tag, UserId, Version};
use std::alloc::Global;

/// What k clouds have under a key.
#[derive(Drop)]
pub enum FoundVersion {
    /// A version of a file: its path, and its bytes.
    Version { path: Bytes, file: Bytes },
    /// None, for this reason.
    Skipped(SkipWhy),
}

// A restore's error: a reason to skip the version, or one to stop.
fn refused(e: RestoreErr) -> Result<FoundVersion, RestoreErr>
    ensures { RefusedAs e result }
{
    match e {
        RestoreErr::Missing { cloud } => Ok(FoundVersion::Skipped(SkipWhy::Missing { cloud })),
        RestoreErr::RecipesDiffer {
            cloud_a,
            cloud_b,
            place,
        } => Ok(FoundVersion::Skipped(SkipWhy::RecipesDiffer {
            cloud_a,
            cloud_b,
            place,
        })),
        RestoreErr::ShareLength {
            cloud,
            secret,
            found,
            wanted,
        } => Ok(FoundVersion::Skipped(SkipWhy::ShareLength {
            cloud,
            secret,
            found,
            wanted,
        })),
        RestoreErr::BadSecret {
            secret,
            named,
            found,
        } => Ok(FoundVersion::Skipped(SkipWhy::BadSecret {
            secret,
            named,
            found,
        })),
        RestoreErr::BadPad { secret, at, byte } => {
            Ok(FoundVersion::Skipped(SkipWhy::BadPad { secret, at, byte }))
        }
        RestoreErr::Lost { .. } => Err(e),
        RestoreErr::CloudFault { .. } => Err(e),
        RestoreErr::CloudDamaged { .. } => Err(e),
        RestoreErr::CloudRotten { .. } => Err(e),
        RestoreErr::CloudNoMemory { .. } => Err(e),
        RestoreErr::Strange { .. } => Err(e),
        RestoreErr::BadShare { .. } => Err(e),
        RestoreErr::NoMemory => Err(e),
    }
}

// Why there is no path: a reason to skip the version, or want of memory.
fn unnamed(e: NameErr) -> Result<FoundVersion, RestoreErr>
    ensures named { UnnamedAs e result }
    ensures refusal { IfErr result (λ e. skip_as e ≡ None) }
    ensures fit { IfOk result VersionFits }
    ensures alone { IfErr result (Names (λ c. ⊥)) }
    ensures found { is_lost result ≡ false }
{
    match e {
        NameErr::Wrong(why) => Ok(FoundVersion::Skipped(why)),
        NameErr::NoMemory => Err(RestoreErr::NoMemory),
    }
}

// The file of recipes that agree, behind its path.
fn read_file<L: Link>(
    alloc: Global,
    link: &mut L,
    shape: Shape,
    user: UserId,
    clouds: &[CloudNo],
    recipes: &[Recipe],
    path: Bytes,
    reply: &mut ReplyBuf,
) -> Result<FoundVersion, RestoreErr>
    requires shape { L.tells.shape link.old ≡ shape }
    requires reached { (cloud : ℕ) → Contains (numbers_of clouds.now) cloud → IsTrue (L.tells.reaches link.old cloud) }
    requires choice { AreChoice shape (numbers_of clouds.now) }
    requires pairs { length clouds.now ≡ length recipes.now }
    requires fits { All (Fits shape) recipes.now }
    requires path { IsPath path }
    ensures asked { HasAskedClouds L.tells (numbers_of clouds.now) link.old link.new (is_lost result) }
    ensures told { (tag : Tag) (version : Version) → Leads L.tells (numbers_of clouds.now) link.old link.new
        (OpensCaused L.tells link.old shape user (tag, version) (numbers_of clouds.now) recipes.now result)
        (OpensTold shape user (tag, version) (numbers_of clouds.now) recipes.now (Ok path) result) }
    ensures named { IfErr result (Names (Contains (numbers_of clouds.now))) }
    ensures refusal { IfErr result (λ e. skip_as e ≡ None) }
    ensures fit { IfOk result VersionFits }
{
    let mut file = Bytes::new(alloc);
    let came = restore_agreed(alloc, link, shape, user, clouds, recipes, reply, &mut file);
    match came {
        Ok(()) => Ok(FoundVersion::Version { path, file }),
        Err(e) => refused(e),
    }
}

// What k clouds have under a key of which these are their recipes.
fn open_version<L: Link>(
    alloc: Global,
    link: &mut L,
    shape: Shape,
    user: UserId,
    tag: Tag,
    clouds: &[CloudNo],
    recipes: &[Recipe],
    reply: &mut ReplyBuf,
) -> Result<FoundVersion, RestoreErr>
    requires shape { L.tells.shape link.old ≡ shape }
    requires reached { (cloud : ℕ) → Contains (numbers_of clouds.now) cloud → IsTrue (L.tells.reaches link.old cloud) }
    requires choice { AreChoice shape (numbers_of clouds.now) }
    requires pairs { length clouds.now ≡ length recipes.now }
    requires fits { All (Fits shape) recipes.now }
    ensures asked { HasAskedClouds L.tells (numbers_of clouds.now) link.old link.new (is_lost result) }
    ensures told { (version : Version) → Leads L.tells (numbers_of clouds.now) link.old link.new
        (OpensCaused L.tells link.old shape user (tag, version) (numbers_of clouds.now) recipes.now result)
        (OpensTold shape user (tag, version) (numbers_of clouds.now) recipes.now
        (judged_by shape (tag, version) (numbers_of clouds.now) recipes.now) result) }
    ensures named { IfErr result (Names (Contains (numbers_of clouds.now))) }
    ensures refusal { IfErr result (λ e. skip_as e ≡ None) }
    ensures fit { IfOk result VersionFits }
{
    match named(alloc, shape, tag, clouds, recipes) {
        Ok(path) => read_file(alloc, link, shape, user, clouds, recipes, path, reply),
        Err(e) => unnamed(e),
    }
}

/// What k clouds have under a key: a version of a file, or why none. Each of them is asked for its recipe, up to the first
/// that is missing it; the recipes are compared; the path comes from the name shares; and then the file is read as by a
/// restore. An error is one that names no reason to skip.
pub fn find_version<L: Link>(
    alloc: Global,
    link: &mut L,
    shape: Shape,
    user: UserId,
    tag: Tag,
    version: Version,
    clouds: &[CloudNo],
    reply: &mut ReplyBuf,
) -> Result<FoundVersion, RestoreErr>
    requires shape { L.tells.shape link.old ≡ shape }
    requires reached { (cloud : ℕ) → Contains (numbers_of clouds.now) cloud → IsTrue (L.tells.reaches link.old cloud) }
    requires choice { AreChoice shape (numbers_of clouds.now) }
    ensures asked { HasAskedClouds L.tells (numbers_of clouds.now) link.old link.new (is_lost result) }
    ensures told { Leads L.tells (numbers_of clouds.now) link.old link.new (ReadCauses L.tells link.old result)
        (FindsTold shape user (tag, version) (numbers_of clouds.now) result) }
    ensures named { IfErr result (Names (Contains (numbers_of clouds.now))) }
    ensures refusal { IfErr result (λ e. skip_as e ≡ None) }
    ensures fit { IfOk result VersionFits }
{
    match fetch_version(alloc, link, shape, user, tag, version, clouds, reply) {
        Ok(recipes) => open_version(
            alloc,
            link,
            shape,
            user,
            tag,
            clouds,
            recipes.as_slice(),
            reply,
        ),
        Err(e) => refused(e),
    }
}
