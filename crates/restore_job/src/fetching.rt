//! Asking clouds for recipes and shares.

ghost use Rattle.std.specs.Prelude.{◌≡◌, ◌+◌, ◌≤◌, ◌<◌, ◌*◌, ℕ, [], ◌∷◌, ◌++◌, List, length, map, IsTrue, Ok, Err, All};
ghost use Rattle.std.specs.Prelude.{MatchOption, IfOk, IfErr, OnOk, OnErr};
ghost use Rattle.std.specs.List.{Contains};
ghost use Rattle.user_dedup.specs.CdBase.Lengths.{share_len_of};
ghost use Rattle.user_dedup.specs.CdBase.Numbers.{numbers_of};
ghost use Rattle.user_dedup.specs.CdBase.ids.Tag.{Tag};
ghost use Rattle.user_dedup.specs.CdBase.ids.Version.{Version};
ghost use Rattle.user_dedup.specs.Frames.Frames.{frame_limit};
ghost use Rattle.user_dedup.specs.MessageFields.Fingerprints.{batch_limit};
ghost use Rattle.user_dedup.specs.Messages.request.Request.{Request};
ghost use Rattle.user_dedup.specs.Messages.request.Request.TheVariants as requests;
ghost use Rattle.user_dedup.specs.Messages.Requests.{IsRequest};
ghost use Rattle.user_dedup.specs.Recipe.Spelling.{Fits, item_limit};
ghost use Rattle.sha2.specs.Sha256.{sha256 as sha256_of};
ghost use Rattle.user_dedup.specs.Link.{Asks, LeavesOthers, IsReading, exchange_of};
ghost use Rattle.user_dedup.specs.Owning.{fps_in};
ghost use Rattle.user_dedup.specs.Requests.{AsksOfStore};
ghost use Rattle.restore_job.specs.Asking.{HasAskedClouds, LeadsAny, Readable, among, is_lost};
ghost use Rattle.restore_job.specs.Brought.{HasShares};
ghost use Rattle.restore_job.specs.Refusals.{Names};
ghost use Rattle.restore_job.specs.Exchanges.{BatchSaid, CloudExchange, Exchanged, LostSaid, RecipeSaid, RecipesSaid};
ghost use Rattle.restore_job.specs.Exchanges.{SharesSaid, Unlost};
ghost use Rattle.restore_job.specs.Restored.{item_of};
ghost use Rattle.restore_job.specs.Steps.{AreItemsAt, BatchShown, BatchTold, Ready, ReadyAt, RecipeShown, RecipeTold};
ghost use Rattle.restore_job.specs.Steps.{RecipesShown, RecipesTold, SharesShown, SharesTold, given_of, givens};
ghost use Rattle.restore_job.specs.Steps.{room_of};

use crate::RestoreErr;
use crate::recipes::Recipes;
use crate::reply::{recipe_from, shares_from};
use crate::rooms::SecretRooms;
use crate::shares::take_shares;
use crate::sources::SecretBatch;
use std::alloc::Global;
use user_dedup::{
    Bytes, CloudNo, Fps, Item, Link, Lost, NoMemory, Recipe, ReplyBuf, Request, Shape, UserId,
};

// Asks a cloud.
fn ask<L: Link>(
    link: &mut L,
    cloud: CloudNo,
    request: &[u8],
    reply: &mut ReplyBuf,
) -> Result<(), RestoreErr>
    requires reached { IsTrue (L.tells.reaches link.old cloud.0) }
    requires some { 1 ≤ length request.now }
    requires framed { length request.now ≤ frame_limit }
    requires reading { IsReading request.now }
    ensures asked { HasAskedClouds L.tells (cloud.0 ∷ []) link.old link.new (is_lost result) }
    ensures exec { (r : Request) → AsksOfStore (L.tells.shape link.old) request.now r
        → Asks L.tells cloud.0 link.old r reply.new result link.new }
    ensures others { LeavesOthers L.tells cloud.0 link.old link.new }
    ensures lost { OnErr result (result ≡ Err (RestoreErr.Lost cloud)) }
    ensures spoken { OnOk result
        (Exchanged L.tells L.talk link.old link.new
        (record { cloud = cloud.0; request = request.now; reply = reply.new } ∷ [])) }
    ensures beside { LostSaid L.talk link.old link.new result }
    ensures passes { L.tells.passes link.old (exchange_of cloud.0 request.now result reply.new) link.new }
{
    match link.ask(cloud, request, reply) {
        Ok(()) => Ok(()),
        Err(Lost) => Err(RestoreErr::Lost { cloud }),
    }
}

// Asks a cloud for a recipe.
fn fetch_recipe<L: Link>(
    alloc: Global,
    link: &mut L,
    shape: Shape,
    cloud: CloudNo,
    request: &[u8],
    reply: &mut ReplyBuf,
) -> Result<Recipe, RestoreErr>
    requires shape { L.tells.shape link.old ≡ shape }
    requires reached { IsTrue (L.tells.reaches link.old cloud.0) }
    requires some { 1 ≤ length request.now }
    requires framed { length request.now ≤ frame_limit }
    requires reading { IsReading request.now }
    ensures asked { HasAskedClouds L.tells (cloud.0 ∷ []) link.old link.new (is_lost result) }
    ensures told { (user : UserId) (tag : Tag) (version : Version)
        → IsRequest request.now (requests.GetRecipe user tag version)
        → LeadsAny L.tells (cloud.0 ∷ []) link.old link.new
        (λ these. RecipeShown (among these L.tells) link.old shape user (tag, version) cloud.0 result)
        (λ before after. RecipeTold shape user (tag, version) cloud result (before cloud.0) (after cloud.0)) }
    ensures named { IfErr result (Names (λ c. c ≡ cloud.0)) }
    ensures fits { IfOk result (Fits shape) }
    ensures said { Unlost result ((x : CloudExchange) × Exchanged L.tells L.talk link.old link.new (x ∷ [])
        × RecipeSaid shape request.now cloud x result) }
    ensures beside { LostSaid L.talk link.old link.new result }
    ensures readable { Readable L.tells link.old link.new result }
{
    match ask(link, cloud, request, reply) {
        Ok(()) => recipe_from(alloc, shape, cloud, reply.content()),
        Err(e) => Err(e),
    }
}

// The first cloud and the others.
fn next_cloud(clouds: &[CloudNo]) -> Option<(CloudNo, &[CloudNo])>
    ensures { MatchOption result (clouds.now ≡ []) (λ x. clouds.now ≡ x.0 ∷ x.1.now) }
{
    match clouds {
        [] => None,
        [cloud, more @ ..] => Some((*cloud, more)),
    }
}

/// Asks clouds, in order, for the recipe that the request names, and appends what they answer. It ends at the first that refuses.
pub fn fetch_recipes<L: Link>(
    alloc: Global,
    link: &mut L,
    shape: Shape,
    clouds: &[CloudNo],
    request: &[u8],
    reply: &mut ReplyBuf,
) -> Result<Recipes, RestoreErr>
    requires shape { L.tells.shape link.old ≡ shape }
    requires reached { (cloud : ℕ) → Contains (numbers_of clouds.now) cloud → IsTrue (L.tells.reaches link.old cloud) }
    requires some { 1 ≤ length request.now }
    requires framed { length request.now ≤ frame_limit }
    requires reading { IsReading request.now }
    ensures asked { HasAskedClouds L.tells (numbers_of clouds.now) link.old link.new (is_lost result) }
    ensures told { (user : UserId) (tag : Tag) (version : Version)
        → IsRequest request.now (requests.GetRecipe user tag version)
        → LeadsAny L.tells (numbers_of clouds.now) link.old link.new
        (λ these. RecipesShown (among these L.tells) link.old shape user (tag, version) (numbers_of clouds.now) result)
        (λ before after. RecipesTold shape user (tag, version) (numbers_of clouds.now) result before after) }
    ensures named { IfErr result (Names (Contains (numbers_of clouds.now))) }
    ensures fits { IfOk result (All (Fits shape)) }
    ensures pairs { IfOk result (λ recipes. length recipes ≡ length clouds.now) }
    ensures said { Unlost result ((log : List CloudExchange) × Exchanged L.tells L.talk link.old link.new log
        × RecipesSaid shape request.now clouds.now log result) }
    ensures beside { LostSaid L.talk link.old link.new result }
    ensures readable { Readable L.tells link.old link.new result }
{
    let mut recipes = Recipes::new(alloc);
    let mut rest = clouds;
    'clouds: loop {
        let Some((cloud, more)) = next_cloud(rest) else {
            return Ok(recipes);
        };
        match fetch_recipe(alloc, link, shape, cloud, request, reply) {
            Ok(recipe) => match recipes.push(recipe) {
                Ok(()) => {}
                Err(NoMemory) => return Err(RestoreErr::NoMemory),
            },
            Err(e) => return Err(e),
        }
        rest = more;
    }
}

// Appends the fingerprint of an item.
fn push_fp(fps: &mut Fps, item: &Item) -> Result<(), NoMemory>
    ensures { OnOk result (fps.new ≡ fps.old ++ item.now.fp ∷ []) }
{
    fps.push(item.fp)
}

// The fingerprints of items.
fn fps_of(alloc: Global, items: &[Item]) -> Result<Fps, NoMemory>
    ensures { IfOk result (λ fps. fps ≡ fps_in items.now) }
{
    let mut fps = Fps::new(alloc);
    for item in items {
        push_fp(&mut fps, item)?;
    }
    Ok(fps)
}

// The content of a request for the shares of items.
fn shares_request(alloc: Global, user: UserId, items: &[Item]) -> Result<Bytes, NoMemory>
    requires some { 1 ≤ length items.now }
    requires few { length items.now ≤ batch_limit }
    requires items { AreItemsAt items.now }
    ensures asks { IfOk result (λ content. IsRequest content (requests.GetShares user (fps_in items.now))) }
    ensures framed { IfOk result (λ content. (1 ≤ length content) × (length content ≤ frame_limit)) }
{
    let fps = fps_of(alloc, items)?;
    let mut content = Bytes::new(alloc);
    Request::GetShares { user, fps }.write(&mut content)?;
    Ok(content)
}

// Asks a cloud for its shares of a batch of secrets, looks at them, and appends each in its room.
fn fetch_shares<L: Link>(
    alloc: Global,
    link: &mut L,
    batch: &SecretBatch<'_>,
    cloud: CloudNo,
    recipe: &Recipe,
    reply: &mut ReplyBuf,
    rooms: &mut SecretRooms,
) -> Result<(), RestoreErr>
    requires shape { L.tells.shape link.old ≡ batch.now.shape }
    requires reached { IsTrue (L.tells.reaches link.old cloud.0) }
    requires some { 1 ≤ batch.now.count }
    requires batch { batch.now.count ≤ batch_limit }
    requires firsts { batch.now.place + batch.now.count ≤ length batch.now.firsts.now }
    requires same { length recipe.now.items ≡ length batch.now.firsts.now }
    requires lens { AreItemsAt batch.now.firsts.now }
    requires items { AreItemsAt recipe.now.items }
    requires few { length batch.now.firsts.now ≤ item_limit }
    requires room { batch.now.count ≤ length rooms.old }
    ensures asked { HasAskedClouds L.tells (cloud.0 ∷ []) link.old link.new (is_lost result) }
    ensures told { (tag : Tag) (version : Version)
        → LeadsAny L.tells (cloud.0 ∷ []) link.old link.new
        (λ these. SharesShown (among these L.tells) link.old batch.now.shape batch.now.user (tag, version) cloud.0
        batch.now.firsts.now recipe.now result)
        (λ before after.
        ReadyAt batch.now.shape batch.now.user (tag, version) recipe.now (before cloud.0)
        → SharesTold batch.now.shape cloud batch.now.firsts.now (given_of (before cloud.0) cloud.0 recipe.now)
        batch.now.place batch.now.count result rooms.old rooms.new (before cloud.0) (after cloud.0)) }
    ensures named { IfErr result (Names (λ c. c ≡ cloud.0)) }
    ensures came { OnOk result ((j : ℕ) → j < batch.now.count
        → (s : List ℕ) × (sha256_of s ≡ (item_of recipe.now.items (batch.now.place + j)).fp.0)
        × (room_of rooms.new j ≡ room_of rooms.old j ++ s)) }
    ensures lens { OnOk result ((j : ℕ) → j < batch.now.count
        → length (room_of rooms.new j) ≡ length (room_of rooms.old j)
        + share_len_of batch.now.shape.k (item_of batch.now.firsts.now (batch.now.place + j)).secret_len) }
    ensures rooms { length rooms.new ≡ length rooms.old }
    ensures said { Unlost result ((x : CloudExchange) × Exchanged L.tells L.talk link.old link.new (x ∷ [])
        × SharesSaid batch.now.shape batch.now.user cloud batch.now.firsts.now recipe.now batch.now.place
        batch.now.count x rooms.old rooms.new result) }
    ensures beside { LostSaid L.talk link.old link.new result }
    ensures readable { Readable L.tells link.old link.new result }
{
    let items = recipe.items.as_slice();
    let asked = &items[batch.place..batch.place + batch.count];
    let request = match shares_request(alloc, batch.user, asked) {
        Ok(request) => request,
        Err(NoMemory) => return Err(RestoreErr::NoMemory),
    };
    match ask(link, cloud, request.as_slice(), reply) {
        Ok(()) => match shares_from(alloc, cloud, batch.count, reply.content()) {
            Ok(shares) => take_shares(
                batch.shape,
                cloud,
                batch.firsts,
                items,
                batch.place,
                batch.count,
                &shares,
                rooms,
            ),
            Err(e) => Err(e),
        },
        Err(e) => Err(e),
    }
}

/// The first cloud with its recipe, and the others.
pub fn next_pair<'a>(
    clouds: &'a [CloudNo],
    recipes: &'a [Recipe],
) -> Option<(CloudNo, &'a Recipe, &'a [CloudNo], &'a [Recipe])>
    requires { length clouds.now ≡ length recipes.now }
    ensures clouds { MatchOption result (clouds.now ≡ []) (λ x. clouds.now ≡ x.0 ∷ x.2.now) }
    ensures recipes { MatchOption result (recipes.now ≡ []) (λ x. recipes.now ≡ x.1.now ∷ x.3.now) }
{
    match clouds {
        [] => None,
        [cloud, more @ ..] => match recipes {
            [] => None,
            [recipe, rest @ ..] => Some((*cloud, recipe, more, rest)),
        },
    }
}

/// Asks clouds, in order, for their shares of a batch of secrets. It ends at the first that refuses.
pub fn fetch_batch<L: Link>(
    alloc: Global,
    link: &mut L,
    batch: &SecretBatch<'_>,
    clouds: &[CloudNo],
    recipes: &[Recipe],
    reply: &mut ReplyBuf,
    rooms: &mut SecretRooms,
) -> Result<(), RestoreErr>
    requires shape { L.tells.shape link.old ≡ batch.now.shape }
    requires reached { (cloud : ℕ) → Contains (numbers_of clouds.now) cloud → IsTrue (L.tells.reaches link.old cloud) }
    requires pairs { length clouds.now ≡ length recipes.now }
    requires some { 1 ≤ batch.now.count }
    requires batch { batch.now.count ≤ batch_limit }
    requires firsts { batch.now.place + batch.now.count ≤ length batch.now.firsts.now }
    requires same { All (λ recipe. length recipe.items ≡ length batch.now.firsts.now) recipes.now }
    requires lens { AreItemsAt batch.now.firsts.now }
    requires items { All (λ recipe. AreItemsAt recipe.items) recipes.now }
    requires few { length batch.now.firsts.now ≤ item_limit }
    requires room { batch.now.count ≤ length rooms.old }
    ensures asked { HasAskedClouds L.tells (numbers_of clouds.now) link.old link.new (is_lost result) }
    ensures told { (tag : Tag) (version : Version)
        → LeadsAny L.tells (numbers_of clouds.now) link.old link.new
        (λ these. BatchShown (among these L.tells) link.old batch.now.shape batch.now.user (tag, version)
        (numbers_of clouds.now) batch.now.firsts.now recipes.now result)
        (λ before after.
        Ready batch.now.shape batch.now.user (tag, version) (numbers_of clouds.now) recipes.now before
        → BatchTold batch.now.shape (numbers_of clouds.now) batch.now.firsts.now
        (givens before (numbers_of clouds.now) recipes.now) batch.now.place batch.now.count result rooms.old rooms.new
        before after) }
    ensures named { IfErr result (Names (Contains (numbers_of clouds.now))) }
    ensures came { OnOk result ((j : ℕ) → j < batch.now.count
        → HasShares recipes.now (batch.now.place + j) (room_of rooms.old j) (room_of rooms.new j)) }
    ensures lens { OnOk result ((j : ℕ) → j < batch.now.count
        → length (room_of rooms.new j) ≡ length (room_of rooms.old j) + length clouds.now
        * share_len_of batch.now.shape.k (item_of batch.now.firsts.now (batch.now.place + j)).secret_len) }
    ensures rooms { length rooms.new ≡ length rooms.old }
    ensures said { Unlost result ((log : List CloudExchange) × Exchanged L.tells L.talk link.old link.new log
        × BatchSaid batch.now.shape batch.now.user batch.now.firsts.now batch.now.place batch.now.count clouds.now
        recipes.now log rooms.old rooms.new result) }
    ensures beside { LostSaid L.talk link.old link.new result }
    ensures readable { Readable L.tells link.old link.new result }
{
    let Some((cloud, recipe, more, rest)) = next_pair(clouds, recipes) else {
        return Ok(());
    };
    match fetch_shares(alloc, link, batch, cloud, recipe, reply, rooms) {
        Ok(()) => {}
        Err(e) => return Err(e),
    }
    match fetch_batch(alloc, link, batch, more, rest, reply, rooms) {
        Ok(()) => Ok(()),
        Err(e) => Err(e),
    }
}
