//! A Delete.

ghost use Rattle.std.specs.Prelude.{◌≡◌, ◌<◌, ◌≤◌, ◌^◌, List, length, IsSome, Some, OnOk};
ghost use Rattle.std.specs.FinMap.{get};
ghost use Rattle.server_reads.specs.CdBase.Limits.{recipe_limit};
ghost use Rattle.server_reads.specs.FileIndex.Files.{key_of};
ghost use Rattle.server_reads.specs.Messages.request.Request.TheVariants as requests;
ghost use Rattle.server_reads.specs.Messages.reply.Reply.TheVariants as replies;
ghost use Rattle.server_reads.specs.Messages.Replies.{IsReply};
ghost use Rattle.server_reads.specs.UserDedup.command.Command.{Command};
ghost use Rattle.server_reads.specs.UserDedup.file_list.FileEntry.{FileEntry};
ghost use Rattle.server_reads.specs.UserDedup.Cloud.{user_view};
ghost use Rattle.server_reads.specs.UserDedup.Pages.{entry_at};
ghost use Rattle.cloud_store.specs.CloudAreas.Standing.{Chain};
ghost use Rattle.server_reads.specs.CloudMemory.Rooms.{memory_of};
ghost use Rattle.cloud_store.specs.RecordBody.Spelling as bodies;
ghost use Rattle.cloud_store.specs.RecordBody.Spelling.{body_bytes};
ghost use Rattle.cloud_store.specs.Store.{Serves};
ghost use Rattle.cloud_store.specs.Adding.{KeepsOrGrows};
ghost use Rattle.server_reads.specs.Allowed.{Replies};
ghost use Rattle.server_commands.specs.Entering.{Enters};
ghost use Rattle.server_commands.specs.Executing.{IsStoreReady, Executes};
ghost use Rattle.server_commands.specs.Steps.{Calls, IsLeftSettled, DoesByList, GoesBehind, IsOfDelete, Forgets};

use crate::reading::read_entry;
use crate::refusing::refuse_long;
use cloud_store::{CloudStore, Unadded};
use server_reads::{
    BlobStop, Entry, Failed, ReplyBuf, Shelf, Tag, UserId, Version, write_deleted, write_missing,
    write_rotten,
};

// The bytes of a Delete's body.
const DELETE_LEN: u32 = 45;

// Adds the Delete of an entry with this recipe.
fn forget<V: Shelf>(
    store: &mut CloudStore,
    shelf: &mut V,
    user: UserId,
    tag: Tag,
    version: Version,
    recipe: &[u8],
    reply: &mut ReplyBuf,
) -> Result<(), Failed>
    requires ready { IsStoreReady store.old }
    requires recipe { length recipe.now < 2 ^ 32 }
    requires there { IsSome (get (memory_of store.old.memory).files (key_of user.0 tag.0 version.0)) }
    ensures leaves { IsLeftSettled store.old store.new result }
    ensures does { (list : List Command) (c : Chain) (file : FileEntry)
        → Serves list c store.old (V.cloud_at shelf.old store.old.header.cloud.0)
        → entry_at (user_view store.old.header.shape list user).files (tag, version) ≡ Some file
        → file.recipe ≡ recipe.now
        → DoesByList store.old store.new (V.cloud_at shelf.old store.old.header.cloud.0)
        (V.cloud_at shelf.new store.old.header.cloud.0) list (requests.Delete user tag version) reply.new result }
    ensures behind { KeepsOrGrows store.old
        (body_bytes (bodies.Delete (record { user = user; tag = tag; version = version })))
        (V.cloud_at shelf.old store.old.header.cloud.0) (V.cloud_at shelf.new store.old.header.cloud.0) }
    ensures goes { GoesBehind store.old store.new
        (body_bytes (bodies.Delete (record { user = user; tag = tag; version = version })))
        (V.cloud_at shelf.old store.old.header.cloud.0) (V.cloud_at shelf.new store.old.header.cloud.0)
        (IsReply reply.new replies.Deleted) result }
    ensures some { OnOk result (Replies reply.new IsOfDelete) }
    ensures forgets { OnOk result (Replies reply.new (Forgets store.old.header.shape (memory_of store.old.memory)
        (memory_of store.new.memory) user (key_of user.0 tag.0 version.0) recipe.now)) }
    ensures calls { Calls (V.cloud_at shelf.old) (V.cloud_at shelf.new) store.old.header.cloud.0 (V.faults shelf.old)
        (V.faults shelf.new) result }
{
    match store.add_delete(shelf, user, tag, version, recipe) {
        Ok(()) => {
            write_deleted(reply);
            Ok(())
        }
        Err(Unadded::Full(_)) => unreachable!(),
        Err(Unadded::Long) => {
            refuse_long(store, DELETE_LEN, reply);
            Ok(())
        }
        Err(Unadded::Failed) => Err(Failed),
    }
}

// A Delete of a version that has this entry.
fn delete_entry<V: Shelf>(
    store: &mut CloudStore,
    shelf: &mut V,
    user: UserId,
    tag: Tag,
    version: Version,
    entry: &Entry,
    buffer: &mut [u8],
    reply: &mut ReplyBuf,
) -> Result<(), Failed>
    requires ready { IsStoreReady store.old }
    requires there { get (memory_of store.old.memory).files (key_of user.0 tag.0 version.0) ≡ Some entry.now }
    requires buffer { recipe_limit ≤ length buffer.old }
    ensures does { Executes (shelf.new ≡ shelf.old) store.old store.new (V.cloud_at shelf.old) (V.cloud_at shelf.new)
        (V.faults shelf.old) (V.faults shelf.new) (requests.Delete user tag version) reply.new result }
    ensures enters { OnOk result (Replies reply.new (Enters store.old.header (memory_of store.old.memory)
        (memory_of store.new.memory) (requests.Delete user tag version))) }
{
    match read_entry(store, shelf, entry, buffer) {
        Ok(()) => {
            let (recipe, _) = buffer.split_at(entry.len as usize);
            forget(store, shelf, user, tag, version, recipe, reply)
        }
        Err(BlobStop::Failed) => {
            store.shut();
            Err(Failed)
        }
        Err(BlobStop::Rotten { named, found }) => {
            write_rotten(reply, named, found);
            Ok(())
        }
    }
}

/// Serves a Delete of a version of a user's file. The reply becomes the content.
///
/// - Missing comes exactly where the user has no such version. No device is called then, and nothing changes.
/// - Else the entry's recipe is read back. Rotten comes where fewer bytes lie there than were kept, or others; it names the
///   fingerprint that was kept, and that of what was found. No area changes then, and nothing that is remembered.
/// - Else the command's record is written and synced, with a checkpoint before it where the journal has no room: Deleted, and
///   the list has one command more. The user owns each fingerprint no more that the recipe names and no entry left names.
///
/// Whatever the cloud has, Missing comes exactly where the memory has no such entry, and behind Deleted the memory is the one
/// before without it, and with a use less of what the recipe that was read names.
///
/// Full of the journal comes only over a cloud of which the store serves no list. Failed comes only where the cloud's count
/// of faults rose. The store is shut then, the cloud stands for the list without the command or with it, and nothing is known
/// of the content.
///
/// It asks for a buffer of 1,180,190 bytes at least, the most that a recipe has. It takes no memory but for the containers
/// that the log keeps, and goes on without where there is none for them.
pub fn delete<V: Shelf>(
    store: &mut CloudStore,
    shelf: &mut V,
    user: UserId,
    tag: &Tag,
    version: Version,
    buffer: &mut [u8],
    reply: &mut ReplyBuf,
) -> Result<(), Failed>
    requires ready { IsStoreReady store.old }
    requires buffer { recipe_limit ≤ length buffer.old }
    ensures does { Executes (shelf.new ≡ shelf.old) store.old store.new (V.cloud_at shelf.old) (V.cloud_at shelf.new)
        (V.faults shelf.old) (V.faults shelf.new) (requests.Delete user tag.now version) reply.new result }
    ensures enters { OnOk result (Replies reply.new (Enters store.old.header (memory_of store.old.memory)
        (memory_of store.new.memory) (requests.Delete user tag.now version))) }
{
    match store.memory.entry(user, tag, version) {
        Some(entry) => delete_entry(store, shelf, user, *tag, version, &entry, buffer, reply),
        None => {
            write_missing(reply);
            Ok(())
        }
    }
}
