//! Restoring a version of a file.

ghost use Rattle.std.specs.Prelude.{◌≡◌, ◌+◌, ◌≤◌, ◌<◌, ℕ, List, length, take, All, IsTrue, IfOk, IfErr, OnOk, OnErr};
ghost use Rattle.std.specs.List.{Contains};
ghost use Rattle.user_dedup.specs.CdBase.Limits.{IsPath};
ghost use Rattle.user_dedup.specs.CdBase.Numbers.{numbers_of};
ghost use Rattle.user_dedup.specs.CdBase.ids.Tag.{Tag};
ghost use Rattle.user_dedup.specs.CdBase.ids.Version.{Version};
ghost use Rattle.caont_rs.specs.Package.{tag as tag_at};
ghost use Rattle.user_dedup.specs.Frames.Frames.{frame_limit};
ghost use Rattle.user_dedup.specs.Messages.request.Request.TheVariants as requests;
ghost use Rattle.user_dedup.specs.Messages.Requests.{IsRequest};
ghost use Rattle.user_dedup.specs.Recipe.Spelling.{Fits};
ghost use Rattle.caont_rs.specs.ReedSolomon.Dispersal.{AreChoice};
ghost use Rattle.restore_job.specs.Asking.{HasAskedClouds, Leads, LeadsAny, Readable, among, is_lost};
ghost use Rattle.restore_job.specs.Reading.{Ends, Restores};
ghost use Rattle.restore_job.specs.Brought.{Agree, AppendsSecrets, Brought};
ghost use Rattle.restore_job.specs.Exchanges.{AgreedRun, CloudExchange, Exchanged, LostSaid, RestorePassed, RestoreRun, RestoreSaid, Unlost};
ghost use Rattle.restore_job.specs.Refusals.{CausesAmong, Names, Shows};
ghost use Rattle.restore_job.specs.Restored.{agreed};
ghost use Rattle.restore_job.specs.Steps.{AgreedShown, BatchCaused, Grows, Ready, givens};

use crate::RestoreErr;
use crate::batch::restore_items;
use crate::comparing::compare;
use crate::fetching::{fetch_recipes, next_pair};
use crate::sources::Sources;
use crate::versions::version_request;
use caont_rs::tag_of;
use std::alloc::Global;
use user_dedup::{
    Bytes, CloudNo, Clouds, Link, NoMemory, Recipe, ReplyBuf, Shape, UserId, Version,
};

// The content of a request for the recipe of a version.
fn recipe_request(
    alloc: Global,
    shape: Shape,
    user: UserId,
    path: &[u8],
    version: Version,
) -> Result<Bytes, NoMemory>
    requires path { IsPath path.now }
    ensures asks { IfOk result
        (λ content. IsRequest content (requests.GetRecipe user (record { 0 = tag_at shape path.now }) version)) }
    ensures framed { IfOk result (λ content. (1 ≤ length content) × (length content ≤ frame_limit)) }
{
    let tag = tag_of(alloc, shape, path)?;
    version_request(alloc, user, tag, version)
}

// The numbers of clouds, as the code takes them.
fn points_of(alloc: Global, clouds: &[CloudNo]) -> Result<Vec<u8>, NoMemory>
    ensures { IfOk result (λ points. points.items ≡ numbers_of clouds.now) }
{
    Ok(clouds.iter().map(|cloud| cloud.0).collect(alloc)?)
}

/// Compares the recipes that k clouds have of a file, one for each cloud, with the first one, and appends the file to `out`
/// as a restore does. After an error a part of it may stand there, behind what stood before.
///
/// The errors are those of `restore` but Missing, each with its cause there. Of told clouds whose recipes these are, as
/// `fetch_version` gives them, the result is what their lists say.
pub fn restore_agreed<L: Link>(
    alloc: Global,
    link: &mut L,
    shape: Shape,
    user: UserId,
    clouds: &[CloudNo],
    recipes: &[Recipe],
    reply: &mut ReplyBuf,
    out: &mut Bytes,
) -> Result<(), RestoreErr>
    requires shape { L.tells.shape link.old ≡ shape }
    requires reached { (cloud : ℕ) → Contains (numbers_of clouds.now) cloud → IsTrue (L.tells.reaches link.old cloud) }
    requires choice { AreChoice shape (numbers_of clouds.now) }
    requires pairs { length clouds.now ≡ length recipes.now }
    requires fits { All (Fits shape) recipes.now }
    ensures asked { HasAskedClouds L.tells (numbers_of clouds.now) link.old link.new (is_lost result) }
    ensures told { (tag : Tag) (version : Version)
        → Leads L.tells (numbers_of clouds.now) link.old link.new
        (BatchCaused L.tells link.old shape user (tag, version) (numbers_of clouds.now) recipes.now result)
        (λ before after.
        Ready shape user (tag, version) (numbers_of clouds.now) recipes.now before
        → Ends (agreed shape (givens before (numbers_of clouds.now) recipes.now))
        (numbers_of clouds.now) result out.old out.new before after) }
    // So of any of the clouds, whatever the others are.
    ensures any { (tag : Tag) (version : Version)
        → LeadsAny L.tells (numbers_of clouds.now) link.old link.new
        (λ these. AgreedShown (among these L.tells) link.old shape user (tag, version) (numbers_of clouds.now)
        recipes.now result)
        (λ before after.
        Ready shape user (tag, version) (numbers_of clouds.now) recipes.now before
        → Ends (agreed shape (givens before (numbers_of clouds.now) recipes.now))
        (numbers_of clouds.now) result out.old out.new before after) }
    ensures named { IfErr result (Names (Contains (numbers_of clouds.now))) }
    ensures brought { OnOk result (Agree recipes.now
        × AppendsSecrets shape (numbers_of clouds.now) recipes.now out.old out.new) }
    ensures grows { Grows out.old out.new }
    ensures said { Unlost result ((log : List CloudExchange) × Exchanged L.tells L.talk link.old link.new log
        × AgreedRun shape user clouds.now recipes.now log out.old out.new result) }
    ensures beside { LostSaid L.talk link.old link.new result }
    ensures readable { Readable L.tells link.old link.new result }
{
    let Some((first, recipe, others, rest)) = next_pair(clouds, recipes) else {
        return Ok(());
    };
    match compare(first, recipe, others, rest) {
        Ok(()) => {}
        Err(e) => return Err(e),
    }
    let points = match points_of(alloc, clouds) {
        Ok(points) => points,
        Err(NoMemory) => return Err(RestoreErr::NoMemory),
    };
    let firsts = recipe.items.as_slice();
    let sources = Sources {
        clouds,
        points: &points,
        recipes,
    };
    match restore_items(alloc, link, shape, user, firsts, &sources, reply, out) {
        Ok(()) => Ok(()),
        Err(e) => Err(e),
    }
}

// Appends the file; after an error a part of it may stand there.
fn restore_into<L: Link>(
    alloc: Global,
    link: &mut L,
    shape: Shape,
    user: UserId,
    path: &[u8],
    version: Version,
    clouds: &[CloudNo],
    out: &mut Bytes,
) -> Result<(), RestoreErr>
    requires shape { L.tells.shape link.old ≡ shape }
    requires reached { (cloud : ℕ) → Contains (numbers_of clouds.now) cloud → IsTrue (L.tells.reaches link.old cloud) }
    requires choice { AreChoice shape (numbers_of clouds.now) }
    requires path { IsPath path.now }
    ensures asked { HasAskedClouds L.tells (numbers_of clouds.now) link.old link.new (is_lost result) }
    ensures restored { LeadsAny L.tells (numbers_of clouds.now) link.old link.new
        (λ these. Shows (among these L.tells) link.old shape user (record { 0 = tag_at shape path.now }, version)
        result)
        (Restores shape user (record { 0 = tag_at shape path.now }, version)
        (numbers_of clouds.now) result out.old out.new) }
    ensures named { IfErr result (Names (Contains (numbers_of clouds.now))) }
    ensures brought { OnOk result (Brought shape (numbers_of clouds.now) out.old out.new) }
    ensures grows { Grows out.old out.new }
    ensures said { Unlost result ((log : List CloudExchange) × Exchanged L.tells L.talk link.old link.new log
        × RestoreRun shape user (record { 0 = tag_at shape path.now }) version clouds.now log out.old out.new result) }
    ensures beside { LostSaid L.talk link.old link.new result }
    ensures readable { Readable L.tells link.old link.new result }
{
    let request = match recipe_request(alloc, shape, user, path, version) {
        Ok(request) => request,
        Err(NoMemory) => return Err(RestoreErr::NoMemory),
    };
    let mut reply = match ReplyBuf::make(alloc) {
        Ok(reply) => reply,
        Err(NoMemory) => return Err(RestoreErr::NoMemory),
    };
    match fetch_recipes(alloc, link, shape, clouds, request.as_slice(), &mut reply) {
        Ok(recipes) => match restore_agreed(
            alloc,
            link,
            shape,
            user,
            clouds,
            recipes.as_slice(),
            &mut reply,
            out,
        ) {
            Ok(()) => Ok(()),
            Err(e) => Err(e),
        },
        Err(e) => Err(e),
    }
}

/// Appends a version of a file to `out`, from k clouds, which the link reaches. After an error `out` is as before.
///
/// Each cloud is asked in order for its recipe, up to the first that refuses. The recipes are compared with the first
/// one. Then, 256 secrets at a time, each cloud is asked in order for its shares, of which first the length and then
/// the hash is looked at, and the secrets are opened in order.
///
/// Missing, CloudFault, CloudDamaged, CloudRotten and CloudNoMemory come where that cloud's reply was this; Lost only
/// where an ask was lost; Strange where a reply is none that a server gives to the request; the others where what came
/// is so.
pub fn restore<L: Link>(
    alloc: Global,
    link: &mut L,
    shape: Shape,
    user: UserId,
    path: &[u8],
    version: Version,
    clouds: &Clouds,
    out: &mut Bytes,
) -> Result<(), RestoreErr>
    requires shape { L.tells.shape link.old ≡ shape }
    requires reached { (cloud : ℕ) → Contains clouds.now cloud → IsTrue (L.tells.reaches link.old cloud) }
    requires count { length clouds.now ≡ shape.k }
    requires within { All (λ cloud. cloud < shape.n) clouds.now }
    requires path { IsPath path.now }

    // From all that any of the clouds stood for they went on, whatever the others are: only the named clouds were read,
    // and a refusal is what it says at the cloud that it names (`CausesAmong`), told or not. Where these hold all that
    // are named and the link tells all of those, the result is that of their lists as they stand after it, or a failed
    // device's, a lost ask's or want of memory.
    ensures restored { LeadsAny L.tells clouds.now link.old link.new
        (CausesAmong L.tells link.old shape user (record { 0 = tag_at shape path.now }, version) result)
        (Restores shape user (record { 0 = tag_at shape path.now }, version) clouds.now result out.old out.new) }

    // The other clouds stay, whatever these stand for. An ask is lost only where the link's count of losses rose, and never
    // where it tells that it loses nothing.
    ensures asked { HasAskedClouds L.tells clouds.now link.old link.new (is_lost result) }

    // A refusal names no other clouds.
    ensures named { IfErr result (Names (Contains clouds.now)) }

    // The appended bytes are what strings open to that have the fingerprints which recipes name that agree, told or not.
    ensures brought { OnOk result (Brought shape clouds.now out.old out.new) }
    ensures kept { OnErr result (out.new ≡ out.old) }

    // Over a link that tells its replies: what was asked and what came, in order, and the result by it. Nothing is said
    // where an ask was lost or memory ran out.
    ensures said { Unlost result
        (RestoreSaid L.talk link.old link.new shape user
        (record { 0 = tag_at shape path.now }) version clouds.now out.old out.new result) }

    // The same of what the link passed on, whatever it tells.
    ensures passed { Unlost result
        (RestorePassed L.tells L.talk link.old link.new shape user
        (record { 0 = tag_at shape path.now }) version clouds.now out.old out.new result) }

    // Where an ask was lost: with each other cloud exchanges were had, which say what is to come of it.
    ensures beside { LostSaid L.talk link.old link.new result }

    // Each other cloud's replies came and can be read, also where one cloud's is called lost or strange.
    ensures readable { Readable L.tells link.old link.new result }
{
    clouds.rises();
    let before = out.len();
    match restore_into(
        alloc,
        link,
        shape,
        user,
        path,
        version,
        clouds.as_slice(),
        out,
    ) {
        Ok(()) => Ok(()),
        Err(e) => {
            out.truncate(before);
            Err(e)
        }
    }
}
