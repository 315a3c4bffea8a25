//! A file's secrets, batch by batch.

ghost use Rattle.std.specs.Prelude.{◌≡◌, ◌++◌, ◌+◌, ◌≤◌, ◌<◌, ℕ, length, min, All, IsTrue, IfErr, OnOk, List};
ghost use Rattle.std.specs.List.{Contains};
ghost use Rattle.user_dedup.specs.CdBase.Numbers.{numbers_of};
ghost use Rattle.user_dedup.specs.CdBase.ids.Tag.{Tag};
ghost use Rattle.user_dedup.specs.CdBase.ids.Version.{Version};
ghost use Rattle.user_dedup.specs.MessageFields.Fingerprints.{batch_limit};
ghost use Rattle.user_dedup.specs.Recipe.Spelling.{item_limit};
ghost use Rattle.caont_rs.specs.ReedSolomon.Dispersal.{AreChoice};
ghost use Rattle.restore_job.specs.Asking.{HasAskedClouds, LeadsAny, Readable, among, is_lost};
ghost use Rattle.restore_job.specs.Reading.{Ends};
ghost use Rattle.restore_job.specs.Brought.{AreSecrets, Extends};
ghost use Rattle.restore_job.specs.Exchanges.{BatchRun, CloudExchange, Exchanged, ItemsRun, LostSaid, Unlost};
ghost use Rattle.restore_job.specs.Refusals.{Names};
ghost use Rattle.restore_job.specs.Restored.{batch_opened, items_opened};
ghost use Rattle.restore_job.specs.Steps.{AreItemsAt, BatchShown, Grows, Ready, givens};

use crate::RestoreErr;
use crate::fetching::fetch_batch;
use crate::opening::open_batch;
use crate::rooms::SecretRooms;
use crate::sources::{SecretBatch, Sources};
use std::alloc::Global;
use user_dedup::{BATCH_LIMIT, Bytes, Item, Link, ReplyBuf, Shape, UserId};

// How many secrets the next batch has, of so many that are left.
fn size_of(left: usize) -> usize
    ensures { result ≡ min batch_limit left }
{
    if left < BATCH_LIMIT {
        left
    } else {
        BATCH_LIMIT
    }
}

// Appends a batch of secrets: asks each cloud for its shares of them, and opens them.
fn restore_batch<L: Link>(
    alloc: Global,
    link: &mut L,
    batch: &SecretBatch<'_>,
    sources: &Sources<'_>,
    reply: &mut ReplyBuf,
    rooms: &mut SecretRooms,
    out: &mut Bytes,
) -> Result<(), RestoreErr>
    requires shape { L.tells.shape link.old ≡ batch.now.shape }
    requires reached { (cloud : ℕ) → Contains (numbers_of sources.now.clouds.now) cloud
        → IsTrue (L.tells.reaches link.old cloud) }
    requires choice { AreChoice batch.now.shape sources.now.points.now }
    requires points { sources.now.points.now ≡ numbers_of sources.now.clouds.now }
    requires pairs { length sources.now.clouds.now ≡ length sources.now.recipes.now }
    requires some { 1 ≤ batch.now.count }
    requires batch { batch.now.count ≤ batch_limit }
    requires firsts { batch.now.place + batch.now.count ≤ length batch.now.firsts.now }
    requires same { All (λ recipe. length recipe.items ≡ length batch.now.firsts.now) sources.now.recipes.now }
    requires lens { AreItemsAt batch.now.firsts.now }
    requires items { All (λ recipe. AreItemsAt recipe.items) sources.now.recipes.now }
    requires few { length batch.now.firsts.now ≤ item_limit }
    requires room { batch.now.count ≤ length rooms.old }
    ensures asked { HasAskedClouds L.tells (numbers_of sources.now.clouds.now) link.old link.new (is_lost result) }
    ensures told { (tag : Tag) (version : Version)
        → LeadsAny L.tells (numbers_of sources.now.clouds.now) link.old link.new
        (λ these. BatchShown (among these L.tells) link.old batch.now.shape batch.now.user (tag, version)
        (numbers_of sources.now.clouds.now) batch.now.firsts.now sources.now.recipes.now result)
        (λ before after.
        Ready batch.now.shape batch.now.user (tag, version)
        (numbers_of sources.now.clouds.now) sources.now.recipes.now before
        → Ends (batch_opened batch.now.shape batch.now.firsts.now
        (givens before (numbers_of sources.now.clouds.now) sources.now.recipes.now) batch.now.place batch.now.count)
        (numbers_of sources.now.clouds.now) result out.old out.new before after) }
    ensures named { IfErr result (Names (Contains (numbers_of sources.now.clouds.now))) }
    ensures brought { OnOk result (Extends batch.now.shape (numbers_of sources.now.clouds.now) batch.now.firsts.now
        sources.now.recipes.now batch.now.place (batch.now.place + batch.now.count) out.old out.new) }
    ensures grows { Grows out.old out.new }
    ensures rooms { length rooms.new ≡ length rooms.old }
    ensures said { Unlost result ((log : List CloudExchange) × Exchanged L.tells L.talk link.old link.new log
        × BatchRun batch.now.shape batch.now.user sources.now.clouds.now sources.now.points.now batch.now.firsts.now
        sources.now.recipes.now batch.now.place batch.now.count log out.old out.new result) }
    ensures beside { LostSaid L.talk link.old link.new result }
    ensures readable { Readable L.tells link.old link.new result }
{
    rooms.clear();
    match fetch_batch(
        alloc,
        link,
        batch,
        sources.clouds,
        sources.recipes,
        reply,
        rooms,
    ) {
        Ok(()) => match open_batch(
            batch.shape,
            sources.points,
            batch.firsts,
            batch.place,
            batch.count,
            rooms,
            out,
        ) {
            Ok(()) => Ok(()),
            Err(e) => Err(e),
        },
        Err(e) => Err(e),
    }
}

/// Appends the secrets of a file, whose items at the clouds stand in the recipes; after an error a part of them may stand there.
pub fn restore_items<L: Link>(
    alloc: Global,
    link: &mut L,
    shape: Shape,
    user: UserId,
    firsts: &[Item],
    sources: &Sources<'_>,
    reply: &mut ReplyBuf,
    out: &mut Bytes,
) -> Result<(), RestoreErr>
    requires shape { L.tells.shape link.old ≡ shape }
    requires reached { (cloud : ℕ) → Contains (numbers_of sources.now.clouds.now) cloud
        → IsTrue (L.tells.reaches link.old cloud) }
    requires choice { AreChoice shape sources.now.points.now }
    requires points { sources.now.points.now ≡ numbers_of sources.now.clouds.now }
    requires pairs { length sources.now.clouds.now ≡ length sources.now.recipes.now }
    requires same { All (λ recipe. length recipe.items ≡ length firsts.now) sources.now.recipes.now }
    requires lens { AreItemsAt firsts.now }
    requires items { All (λ recipe. AreItemsAt recipe.items) sources.now.recipes.now }
    requires few { length firsts.now ≤ item_limit }
    ensures asked { HasAskedClouds L.tells (numbers_of sources.now.clouds.now) link.old link.new (is_lost result) }
    ensures told { (tag : Tag) (version : Version)
        → LeadsAny L.tells (numbers_of sources.now.clouds.now) link.old link.new
        (λ these. BatchShown (among these L.tells) link.old shape user (tag, version)
        (numbers_of sources.now.clouds.now) firsts.now sources.now.recipes.now result)
        (λ before after.
        Ready shape user (tag, version) (numbers_of sources.now.clouds.now) sources.now.recipes.now before
        → Ends (items_opened shape firsts.now
        (givens before (numbers_of sources.now.clouds.now) sources.now.recipes.now))
        (numbers_of sources.now.clouds.now) result out.old out.new before after) }
    ensures named { IfErr result (Names (Contains (numbers_of sources.now.clouds.now))) }
    ensures brought { OnOk result ((file : List ℕ) × (out.new ≡ out.old ++ file)
        × AreSecrets shape (numbers_of sources.now.clouds.now) firsts.now sources.now.recipes.now
        (length firsts.now) file) }
    ensures grows { Grows out.old out.new }
    ensures said { Unlost result ((log : List CloudExchange) × Exchanged L.tells L.talk link.old link.new log
        × ItemsRun shape user sources.now.clouds.now sources.now.points.now firsts.now sources.now.recipes.now 0 log
        out.old out.new result) }
    ensures beside { LostSaid L.talk link.old link.new result }
    ensures readable { Readable L.tells link.old link.new result }
{
    let mut rooms = match SecretRooms::make(alloc, BATCH_LIMIT) {
        Ok(rooms) => rooms,
        Err(_) => return Err(RestoreErr::NoMemory),
    };
    let mut place = 0;
    while place < firsts.len() {
        let count = size_of(firsts.len() - place);
        let batch = SecretBatch {
            shape,
            user,
            firsts,
            place,
            count,
        };
        match restore_batch(alloc, link, &batch, sources, reply, &mut rooms, out) {
            Ok(()) => {}
            Err(e) => return Err(e),
        }
        place += count;
    }
    Ok(())
}
