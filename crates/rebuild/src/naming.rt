//! The path of a version, from the name shares of its recipes.

ghost use Rattle.std.specs.Prelude.{◌≡◌, ◌==◌, ◌*◌, ◌≤◌, ◌++◌, ◌∷◌, [], ℕ, List, None, MatchOption, length, position};
ghost use Rattle.std.specs.Prelude.{All, IfOk, OnOk, IfSome, ◌<◌};
ghost use Rattle.std.specs.List.{flat_map};
ghost use Rattle.lane_steps.specs.CdBase.Lengths.{share_len_of};
ghost use Rattle.lane_steps.specs.CdBase.Limits.{IsPath, path_limit};
ghost use Rattle.lane_steps.specs.CdBase.Numbers.{numbers_of};
ghost use Rattle.lane_steps.specs.CdBase.ids.Version.{Version};
ghost use Rattle.lane_steps.specs.CaontRs.Opening.{opened};
ghost use Rattle.lane_steps.specs.Recipe.Spelling.{Fits, item_limit};
ghost use Rattle.kept_files.specs.ReedSolomon.Dispersal.{AreChoice};
ghost use Rattle.rebuild.specs.Found.{name_judged, path_judged};
ghost use Rattle.kept_files.specs.RestoreJob.Restored.{differing};
ghost use Rattle.rebuild.specs.Steps.{ComparesAs, NameIs, NameOpens, judged_by, tested};

use crate::SkipWhy;
use kept_files::{RestoreErr, compare};
use lane_steps::{Bytes, CloudNo, Fp, NoMemory, Recipe, RecoverErr, Shape, Tag, recover, tag_of};
use std::alloc::Global;

/// Why recipes give no path.
#[derive(Clone, Copy)]
pub enum NameErr {
    /// What is wrong in what their name shares give.
    Wrong(SkipWhy),
    /// Memory ran out.
    NoMemory,
}

// Appends a recipe's share of the name.
fn push_share(shares: &mut Bytes, recipe: &Recipe) -> Result<(), NoMemory>
    ensures { OnOk result (shares.new ≡ shares.old ++ recipe.now.name_share) }
{
    shares.extend(recipe.name_share.as_slice())
}

// The shares of the name, one behind the other.
fn shares_of(alloc: Global, recipes: &[Recipe]) -> Result<Bytes, NoMemory>
    ensures { IfOk result (λ shares. shares ≡ flat_map (λ recipe. recipe.name_share) recipes.now) }
{
    let mut shares = Bytes::new(alloc);
    for recipe in recipes {
        push_share(&mut shares, recipe)?;
    }
    Ok(shares)
}

// What the shares of a name open to.
fn open_name(
    alloc: Global,
    shape: Shape,
    name_len: u16,
    points: &[u8],
    shares: &[u8],
) -> Result<Bytes, NameErr>
    requires some { 1 ≤ name_len }
    requires few { name_len ≤ path_limit }
    requires choice { AreChoice shape points.now }
    requires whole { length shares.now ≡ shape.k * share_len_of shape.k name_len }
    ensures opens { NameOpens (opened shape name_len points.now shares.now) result }
{
    let mut path = Bytes::new(alloc);
    match recover(shape, name_len as u32, points, shares, &mut path) {
        Ok(()) => Ok(path),
        Err(RecoverErr::BadSecret { named, found }) => {
            Err(NameErr::Wrong(SkipWhy::BadName { named, found }))
        }
        Err(RecoverErr::BadPad { at, byte }) => {
            Err(NameErr::Wrong(SkipWhy::BadNamePad { at, byte }))
        }
        Err(RecoverErr::NoMemory) => Err(NameErr::NoMemory),
    }
}

// Where the first zero byte stands.
fn first_zero(path: &[u8]) -> Option<usize>
    ensures within { IfSome result (λ place. place < length path.now) }
    ensures value { result ≡ position (λ byte. byte == 0) path.now }
{
    path.iter().position(|byte| *byte == 0)
}

// Whether a tag is that of a path.
fn test_tag(alloc: Global, shape: Shape, tag: Tag, path: &[u8]) -> Result<(), NameErr>
    requires path { IsPath path.now }
    ensures { (version : Version) → NameIs (path_judged shape (tag, version) path.now None) (tested path.now result) }
{
    let found = match tag_of(alloc, shape, path) {
        Ok(found) => found,
        Err(NoMemory) => return Err(NameErr::NoMemory),
    };
    if tag.0 == found.0 {
        Ok(())
    } else {
        Err(NameErr::Wrong(SkipWhy::BadName {
            named: Fp(tag.0),
            found: Fp(found.0),
        }))
    }
}

// Tests what the shares of a name gave: the first zero byte, and the tag.
fn test_path(alloc: Global, shape: Shape, tag: Tag, path: &[u8]) -> Result<(), NameErr>
    requires some { 1 ≤ length path.now }
    requires few { length path.now ≤ path_limit }
    ensures judges { (version : Version)
        → NameIs (path_judged shape (tag, version) path.now (position (λ byte. byte == 0) path.now))
        (tested path.now result) }
    ensures path { OnOk result (IsPath path.now) }
{
    match first_zero(path) {
        Some(at) => Err(NameErr::Wrong(SkipWhy::BadPath { at: at as u32 })),
        None => test_tag(alloc, shape, tag, path),
    }
}

// The path that the name shares of recipes give, or what is wrong in it.
fn path_of(
    alloc: Global,
    shape: Shape,
    tag: Tag,
    name_len: u16,
    points: &[u8],
    recipes: &[Recipe],
) -> Result<Bytes, NameErr>
    requires some { 1 ≤ name_len }
    requires few { name_len ≤ path_limit }
    requires choice { AreChoice shape points.now }
    requires whole { length (flat_map (λ recipe. recipe.name_share) recipes.now)
        ≡ shape.k * share_len_of shape.k name_len }
    ensures judges { (version : Version)
        → NameIs (name_judged shape (tag, version)
        (opened shape name_len points.now (flat_map (λ recipe. recipe.name_share) recipes.now))) result }
    ensures path { IfOk result IsPath }
{
    let shares = match shares_of(alloc, recipes) {
        Ok(shares) => shares,
        Err(NoMemory) => return Err(NameErr::NoMemory),
    };
    let path = match open_name(alloc, shape, name_len, points, shares.as_slice()) {
        Ok(path) => path,
        Err(e) => return Err(e),
    };
    match test_path(alloc, shape, tag, path.as_slice()) {
        Ok(()) => Ok(path),
        Err(e) => Err(e),
    }
}

// Compares recipes with the first one.
fn compared(
    cloud: CloudNo,
    recipe: &Recipe,
    clouds: &[CloudNo],
    recipes: &[Recipe],
) -> Result<(), NameErr>
    requires few { length recipe.now.items ≤ item_limit }
    requires pairs { length clouds.now ≡ length recipes.now }
    ensures { ComparesAs (differing cloud.0 recipe.now (numbers_of clouds.now) recipes.now) result }
{
    match compare(cloud, recipe, clouds, recipes) {
        Ok(()) => Ok(()),
        Err(
            RestoreErr::RecipesDiffer {
                cloud_a,
                cloud_b,
                place,
            },
        ) => Err(NameErr::Wrong(SkipWhy::RecipesDiffer {
            cloud_a,
            cloud_b,
            place,
        })),
        Err(_) => Err(NameErr::NoMemory),
    }
}

// The numbers of clouds, as the code takes them.
fn points_of(alloc: Global, clouds: &[CloudNo]) -> Result<Vec<u8>, NoMemory>
    ensures { IfOk result (λ points. points.items ≡ numbers_of clouds.now) }
{
    Ok(clouds.iter().map(|cloud| cloud.0).collect(alloc)?)
}

// The first cloud with its recipe, and the others.
fn first_of<'a>(
    clouds: &'a [CloudNo],
    recipes: &'a [Recipe],
) -> Option<(CloudNo, &'a Recipe, &'a [CloudNo], &'a [Recipe])>
    requires { length clouds.now ≡ length recipes.now }
    ensures clouds { MatchOption result (clouds.now ≡ []) (λ x. clouds.now ≡ x.0 ∷ x.2.now) }
    ensures recipes { MatchOption result (recipes.now ≡ []) (λ x. recipes.now ≡ x.1.now ∷ x.3.now) }
{
    match clouds {
        [] => None,
        [cloud, more @ ..] => match recipes {
            [] => None,
            [recipe, rest @ ..] => Some((*cloud, recipe, more, rest)),
        },
    }
}

/// The path of which k clouds have these recipes of a version with this tag, one for each, or what is wrong: the first
/// recipe that differs from the first one, and then what the name shares give.
pub fn named(
    alloc: Global,
    shape: Shape,
    tag: Tag,
    clouds: &[CloudNo],
    recipes: &[Recipe],
) -> Result<Bytes, NameErr>
    requires choice { AreChoice shape (numbers_of clouds.now) }
    requires pairs { length clouds.now ≡ length recipes.now }
    requires fits { All (Fits shape) recipes.now }
    ensures judges { (version : Version)
        → NameIs (judged_by shape (tag, version) (numbers_of clouds.now) recipes.now) result }
    ensures path { IfOk result IsPath }
{
    let Some((cloud, recipe, others, rest)) = first_of(clouds, recipes) else {
        return Err(NameErr::NoMemory);
    };
    match compared(cloud, recipe, others, rest) {
        Ok(()) => {}
        Err(e) => return Err(e),
    }
    let points = match points_of(alloc, clouds) {
        Ok(points) => points,
        Err(NoMemory) => return Err(NameErr::NoMemory),
    };
    path_of(alloc, shape, tag, recipe.name_len, &points, recipes)
}
