//! A Commit.

ghost use Rattle.std.specs.Prelude.{◌≡◌, ◌≢◌, ◌<◌, ◌≤◌, ℕ, List, length, Some, None, OnOk};
ghost use Rattle.std.specs.FinMap.{get};
ghost use Rattle.server_reads.specs.CdBase.Limits.{recipe_limit};
ghost use Rattle.server_reads.specs.CdBase.rooms.Room.{Room};
ghost use Rattle.server_reads.specs.CdBase.rooms.Room.TheVariants as rooms;
ghost use Rattle.server_reads.specs.CdEdges.Disk.{Cloud};
ghost use Rattle.server_reads.specs.FileIndex.Files.{key_of};
ghost use Rattle.server_reads.specs.Messages.request.Request.TheVariants as requests;
ghost use Rattle.server_reads.specs.Messages.reply.Reply.TheVariants as replies;
ghost use Rattle.server_reads.specs.Messages.Replies.{IsReply};
ghost use Rattle.server_reads.specs.Recipe.Spelling.{IsRecipe, spelling};
ghost use Rattle.server_reads.specs.UserDedup.command.Command.{Command};
ghost use Rattle.server_reads.specs.UserDedup.Cloud.{fingerprint, user_view};
ghost use Rattle.server_reads.specs.UserDedup.Owning.{fps_in, first_lacking};
ghost use Rattle.server_reads.specs.UserDedup.Requests.{fps_of};
ghost use Rattle.cloud_store.specs.CloudAreas.Standing.{Chain};
ghost use Rattle.server_reads.specs.CloudMemory.Memory.{Remembers};
ghost use Rattle.server_reads.specs.CloudMemory.Rooms.{memory_of};
ghost use Rattle.server_reads.specs.CloudMemory.Sharing.{AreOwned};
ghost use Rattle.cloud_store.specs.Store.{Serves};
ghost use Rattle.cloud_store.specs.RecordBody.Spelling.{body_bytes};
ghost use Rattle.cloud_store.specs.Adding.{unstaged, KeepsOrGrows};
ghost use Rattle.server_reads.specs.Allowed.{Replies};
ghost use Rattle.server_commands.specs.Entering.{Commits, Enters};
ghost use Rattle.server_commands.specs.Executing.{IsStoreReady, Executes};
ghost use Rattle.server_commands.specs.Growing.{commit_record};
ghost use Rattle.server_commands.specs.Steps.{Calls, IsLeftSettled, DoesByList, GoesBehind, HasRecipeStaged, IsOfNew, by_recipe};
ghost use Rattle.server_commands.specs.Steps.{staging, IsAnsweredNew};

use crate::reading::read_entry;
use crate::refusing::refuse_long;
use cloud_store::{CloudStore, Unadded};
use server_reads::{
    BlobStop, Entry, Failed, Fp, RecipeView, ReplyBuf, Shelf, Tag, UserId, Version, VersionKey,
    sha256, write_committed, write_exists, write_full, write_lacking, write_rotten,
};

// The bytes of a Commit's body.
const COMMIT_LEN: u32 = 89;

// The reply by the recipe that is there.
fn put_compared(there: &[u8], recipe: &[u8], reply: &mut ReplyBuf)
    ensures { IsReply reply.new (by_recipe there.now recipe.now) }
{
    if there == recipe {
        write_committed(reply);
    } else {
        write_exists(reply);
    }
}

// A Commit of a version that has this entry: its recipe is read back and compared.
fn repeat<V: Shelf>(
    store: &mut CloudStore,
    shelf: &mut V,
    key: VersionKey,
    entry: &Entry,
    recipe: &[u8],
    buffer: &mut [u8],
    reply: &mut ReplyBuf,
) -> Result<(), Failed>
    requires ready { IsStoreReady store.old }
    requires there { get (memory_of store.old.memory).files (key_of key.user.0 key.tag.0 key.version.0)
        ≡ Some entry.now }
    requires owned { (list : List Command) → Remembers store.old.header.shape list (memory_of store.old.memory)
        → first_lacking (user_view store.old.header.shape list key.user).own
        (fps_of store.old.header.shape recipe.now) ≡ None }
    requires owns { AreOwned (memory_of store.old.memory).owners key.user (fps_of store.old.header.shape recipe.now) }
    requires buffer { recipe_limit ≤ length buffer.old }
    ensures does { Executes (shelf.new ≡ shelf.old) store.old store.new (V.cloud_at shelf.old) (V.cloud_at shelf.new)
        (V.faults shelf.old) (V.faults shelf.new) (requests.Commit key.user key.tag key.version recipe.now) reply.new
        result }
    ensures enters { OnOk result (Replies reply.new (Enters store.old.header (memory_of store.old.memory)
        (memory_of store.new.memory) (requests.Commit key.user key.tag key.version recipe.now))) }
{
    match read_entry(store, shelf, entry, buffer) {
        Ok(()) => {
            let (there, _) = buffer.split_at(entry.len as usize);
            put_compared(there, recipe, reply);
            Ok(())
        }
        Err(BlobStop::Failed) => {
            store.shut();
            Err(Failed)
        }
        Err(BlobStop::Rotten { named, found }) => {
            write_rotten(reply, named, found);
            Ok(())
        }
    }
}

// Stages a recipe where nothing is staged.
fn stage(store: &mut CloudStore, recipe: &[u8])
    requires ready { IsStoreReady store.old }
    requires few { length recipe.now ≤ recipe_limit }
    ensures staged { store.new ≡ staging store.old recipe.now }
    ensures has { HasRecipeStaged store.new recipe.now }
    ensures serves { (list : List Command) (c : Chain) (cloud : Cloud) → Serves list c store.old cloud
        → Serves list c store.new cloud }
{
    match store.stage_recipe(recipe) {
        Ok(_) => {}
        Err(_) => unreachable!(),
    }
}

// Adds the Commit of a recipe that is staged.
fn add_staged<V: Shelf>(
    store: &mut CloudStore,
    shelf: &mut V,
    key: VersionKey,
    fp: Fp,
    len: u32,
    recipe: &RecipeView<'_>,
    reply: &mut ReplyBuf,
) -> Result<(), Failed>
    requires staged { HasRecipeStaged store.old (spelling recipe.now) }
    requires recipe { IsRecipe store.old.header.shape (spelling recipe.now) recipe.now }
    requires fp { fingerprint (spelling recipe.now) ≡ fp }
    requires len { length (spelling recipe.now) ≡ len }
    requires some { 1 ≤ len }
    requires new { get (memory_of store.old.memory).files (key_of key.user.0 key.tag.0 key.version.0) ≡ None }
    requires owned { AreOwned (memory_of store.old.memory).owners key.user (fps_in recipe.now.items) }
    ensures leaves { IsLeftSettled store.old store.new result }
    ensures does { (list : List Command) (c : Chain)
        → Serves list c store.old (V.cloud_at shelf.old store.old.header.cloud.0)
        → IsAnsweredNew store.old.header list key.user key.tag key.version (spelling recipe.now)
        → DoesByList store.old store.new (V.cloud_at shelf.old store.old.header.cloud.0)
        (V.cloud_at shelf.new store.old.header.cloud.0) list
        (requests.Commit key.user key.tag key.version (spelling recipe.now)) reply.new result }
    ensures behind { KeepsOrGrows store.old
        (body_bytes (commit_record store.old key.user key.tag key.version (spelling recipe.now)))
        (V.cloud_at shelf.old store.old.header.cloud.0) (V.cloud_at shelf.new store.old.header.cloud.0) }
    ensures goes { GoesBehind store.old store.new
        (body_bytes (commit_record store.old key.user key.tag key.version (spelling recipe.now)))
        (V.cloud_at shelf.old store.old.header.cloud.0) (V.cloud_at shelf.new store.old.header.cloud.0)
        (IsReply reply.new replies.Committed) result }
    ensures some { OnOk result (Replies reply.new IsOfNew) }
    ensures commits { OnOk result (Replies reply.new (Commits store.old.header.rooms (memory_of store.old.memory)
        (memory_of store.new.memory) key.user key.tag key.version (fps_in recipe.now.items) (spelling recipe.now))) }
    ensures full { (room : Room) (used need limit : ℕ) → room ≢ rooms.Journal
        → OnOk result (IsReply reply.new (replies.Full room used need limit)
        → (shelf.new ≡ shelf.old) × (store.new ≡ unstaged store.old)) }
    ensures calls { Calls (V.cloud_at shelf.old) (V.cloud_at shelf.new) store.old.header.cloud.0 (V.faults shelf.old)
        (V.faults shelf.new) result }
{
    match store.add_commit(shelf, key.user, key.tag, key.version, fp, len, recipe) {
        Ok(()) => {
            write_committed(reply);
            Ok(())
        }
        Err(Unadded::Full(full)) => {
            write_full(reply, full.room, full.used, full.need, full.limit);
            Ok(())
        }
        Err(Unadded::Long) => {
            refuse_long(store, COMMIT_LEN, reply);
            Ok(())
        }
        Err(Unadded::Failed) => Err(Failed),
    }
}

// A Commit of a version that has no entry.
fn enter<V: Shelf>(
    store: &mut CloudStore,
    shelf: &mut V,
    key: VersionKey,
    recipe: &RecipeView<'_>,
    reply: &mut ReplyBuf,
) -> Result<(), Failed>
    requires ready { IsStoreReady store.old }
    requires recipe { IsRecipe store.old.header.shape (spelling recipe.now) recipe.now }
    requires new { get (memory_of store.old.memory).files (key_of key.user.0 key.tag.0 key.version.0) ≡ None }
    requires owned { AreOwned (memory_of store.old.memory).owners key.user (fps_in recipe.now.items) }
    requires lacks { (list : List Command) → Remembers store.old.header.shape list (memory_of store.old.memory)
        → first_lacking (user_view store.old.header.shape list key.user).own (fps_in recipe.now.items) ≡ None }
    ensures does { Executes (shelf.new ≡ shelf.old) store.old store.new (V.cloud_at shelf.old) (V.cloud_at shelf.new)
        (V.faults shelf.old) (V.faults shelf.new) (requests.Commit key.user key.tag key.version (spelling recipe.now))
        reply.new result }
    ensures enters { OnOk result (Replies reply.new (Enters store.old.header (memory_of store.old.memory)
        (memory_of store.new.memory) (requests.Commit key.user key.tag key.version (spelling recipe.now)))) }
{
    let bytes = recipe.bytes();
    let fp = sha256(bytes);
    let len = bytes.len() as u32;
    stage(store, bytes);
    add_staged(store, shelf, key, fp, len, recipe, reply)
}

/// Serves a Commit: a version of a user's file, whose recipe is of the store's shape. The reply becomes the content.
///
/// - Lacking names the place of the first item whose fingerprint the user doesn't own. No device is called then, and nothing
///   changes.
/// - Else, where the user has the version, its recipe is read back: Committed where it has the same bytes, and Exists
///   where it has others. Rotten comes where fewer bytes lie there than were kept, or others, whatever recipe is asked;
///   it names the fingerprint that was kept, and that of what was found. No area changes, and nothing that is remembered.
/// - Else Full names the first of the user's rooms that the command would pass, in the order files, recipes. No device is
///   called then, and nothing changes.
/// - Else the recipe is written and synced, and then the command's record, with a checkpoint before both where the journal has
///   no room: Committed, and the list has one command more.
///
/// Whatever the cloud has, the memory decides on Lacking, on Full of a room and on whether the version has an entry; behind
/// Committed of one that had none it is the one before with the command's record taken, and of one that had one the recipe has
/// the entry's fingerprint.
///
/// Full of the journal comes only over a cloud of which the store serves no list. Failed comes only where the cloud's count
/// of faults rose. The store is shut then, the cloud stands for the list without the command or with it, and nothing is known
/// of the content.
///
/// It asks for a buffer of 1,180,190 bytes at least, the most that a recipe has. It takes no memory but for the containers
/// that the log keeps, and goes on without where there is none for them.
pub fn commit<V: Shelf>(
    store: &mut CloudStore,
    shelf: &mut V,
    user: UserId,
    tag: &Tag,
    version: Version,
    recipe: &RecipeView<'_>,
    buffer: &mut [u8],
    reply: &mut ReplyBuf,
) -> Result<(), Failed>
    requires ready { IsStoreReady store.old }
    requires recipe { IsRecipe store.old.header.shape (spelling recipe.now) recipe.now }
    requires buffer { recipe_limit ≤ length buffer.old }
    ensures does { Executes (shelf.new ≡ shelf.old) store.old store.new (V.cloud_at shelf.old) (V.cloud_at shelf.new)
        (V.faults shelf.old) (V.faults shelf.new) (requests.Commit user tag.now version (spelling recipe.now)) reply.new
        result }
    ensures enters { OnOk result (Replies reply.new (Enters store.old.header (memory_of store.old.memory)
        (memory_of store.new.memory) (requests.Commit user tag.now version (spelling recipe.now)))) }
{
    match store.memory.first_unowned(user, recipe) {
        Some(place) => {
            write_lacking(reply, place);
            Ok(())
        }
        None => {
            let key = VersionKey {
                user,
                tag: *tag,
                version,
            };
            match store.memory.entry(user, tag, version) {
                Some(entry) => repeat(store, shelf, key, &entry, recipe.bytes(), buffer, reply),
                None => enter(store, shelf, key, recipe, reply),
            }
        }
    }
}
