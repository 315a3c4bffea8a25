//! The recipes of a version that is named by its tag.

ghost use Rattle.std.specs.Prelude.{◌≡◌, ◌≤◌, ℕ, List, length, All, IsTrue, IfOk, IfErr};
ghost use Rattle.std.specs.List.{Contains};
ghost use Rattle.user_dedup.specs.CdBase.Numbers.{numbers_of};
ghost use Rattle.user_dedup.specs.Frames.Frames.{frame_limit};
ghost use Rattle.user_dedup.specs.Messages.request.Request.TheVariants as requests;
ghost use Rattle.user_dedup.specs.Messages.Requests.{IsRequest};
ghost use Rattle.user_dedup.specs.Recipe.Spelling.{Fits};
ghost use Rattle.restore_job.specs.Asking.{HasAskedClouds, Leads, is_lost};
ghost use Rattle.restore_job.specs.Exchanges.{CloudExchange, Exchanged, RecipesSaid, Unlost};
ghost use Rattle.restore_job.specs.Refusals.{Names};
ghost use Rattle.restore_job.specs.Steps.{RecipesCaused, RecipesTold};

use crate::RestoreErr;
use crate::fetching::fetch_recipes;
use crate::recipes::Recipes;
use std::alloc::Global;
use user_dedup::{Bytes, CloudNo, Link, NoMemory, ReplyBuf, Request, Shape, Tag, UserId, Version};

/// The content of a request for the recipe of a version.
pub fn version_request(
    alloc: Global,
    user: UserId,
    tag: Tag,
    version: Version,
) -> Result<Bytes, NoMemory>
    ensures asks { IfOk result (λ content. IsRequest content (requests.GetRecipe user tag version)) }
    ensures framed { IfOk result (λ content. (1 ≤ length content) × (length content ≤ frame_limit)) }
{
    let mut content = Bytes::new(alloc);
    Request::GetRecipe { user, tag, version }.write(&mut content)?;
    Ok(content)
}

/// Asks clouds, in order, for their recipes of the version with this tag and number. Ok with one for each cloud, in
/// order; each is one of the shape, and they aren't compared. It ends at the first cloud that refuses.
///
/// Missing, CloudFault, CloudDamaged, CloudRotten and CloudNoMemory come where that cloud's reply was this; Lost only
/// where an ask was lost; Strange where a reply is none that a server gives to the request. No other error comes but
/// want of memory. The reply comes into `reply`; nothing is said of what is left there.
pub fn fetch_version<L: Link>(
    alloc: Global,
    link: &mut L,
    shape: Shape,
    user: UserId,
    tag: Tag,
    version: Version,
    clouds: &[CloudNo],
    reply: &mut ReplyBuf,
) -> Result<Recipes, RestoreErr>
    requires shape { L.tells.shape link.old ≡ shape }
    requires reached { (cloud : ℕ) → Contains (numbers_of clouds.now) cloud → IsTrue (L.tells.reaches link.old cloud) }

    // The other clouds stay, whatever these stand for. An ask is lost only where the link's count of losses rose, and never
    // where it tells that it loses nothing.
    ensures asked { HasAskedClouds L.tells (numbers_of clouds.now) link.old link.new (is_lost result) }

    // From all that the clouds stood for they went on: only these clouds were read. Of told clouds the recipes are those of
    // their lists; and a refusal is what it says at the cloud that it names, each told or not.
    ensures told { Leads L.tells (numbers_of clouds.now) link.old link.new
        (RecipesCaused L.tells link.old shape user (tag, version) (numbers_of clouds.now) result)
        (RecipesTold shape user (tag, version) (numbers_of clouds.now) result) }

    // A refusal names no other clouds.
    ensures named { IfErr result (Names (Contains (numbers_of clouds.now))) }
    ensures fits { IfOk result (All (Fits shape)) }
    ensures pairs { IfOk result (λ recipes. length recipes ≡ length clouds.now) }

    // What was asked and what came, in order, as the link passed it on, and the result by it.
    ensures said { Unlost result ((request : List ℕ) × IsRequest request (requests.GetRecipe user tag version)
        × ((log : List CloudExchange) × Exchanged L.tells L.talk link.old link.new log
        × RecipesSaid shape request clouds.now log result)) }
{
    let request = match version_request(alloc, user, tag, version) {
        Ok(request) => request,
        Err(NoMemory) => return Err(RestoreErr::NoMemory),
    };
    match fetch_recipes(alloc, link, shape, clouds, request.as_slice(), reply) {
        Ok(recipes) => Ok(recipes),
        Err(e) => Err(e),
    }
}
