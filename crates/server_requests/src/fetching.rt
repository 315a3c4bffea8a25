//! The reply to GetRecipe.

ghost use Rattle.std.specs.Prelude.{◌≡◌, ℕ, ◌≤◌, List, length, IsTrue, OnOk, OnErr};
ghost use Rattle.server_commands.specs.CdBase.Limits.{recipe_limit};
ghost use Rattle.server_commands.specs.CdBase.shape.Shape.{Shape};
ghost use Rattle.server_commands.specs.CdEdges.area.Area.TheVariants as areas;
ghost use Rattle.server_commands.specs.CdEdges.Disk.{reads};
ghost use Rattle.server_commands.specs.CdEdges.Shelf.{IsCall, HasFailed, KeepsCounts, Stays};
ghost use Rattle.server_commands.specs.ContainerLog.States.{Agrees};
ghost use Rattle.server_commands.specs.FileIndex.Files.{key_of};
ghost use Rattle.server_commands.specs.Messages.request.Request.TheVariants as requests;
ghost use Rattle.server_commands.specs.Messages.reply.Reply.{Reply};
ghost use Rattle.server_commands.specs.Messages.reply.Reply.TheVariants as replies;
ghost use Rattle.server_commands.specs.Messages.Replies.{reply_bytes, IsReply};
ghost use Rattle.server_commands.specs.UserDedup.command.Command.{Command};
ghost use Rattle.server_commands.specs.UserDedup.Dedup.{answer_over, IsSound};
ghost use Rattle.server_commands.specs.ServerReads.CloudMemory.Memory.{Remembers, Stand};
ghost use Rattle.server_commands.specs.ServerReads.CloudMemory.Rooms.{memory_of};
ghost use Rattle.server_commands.specs.ServerReads.Allowed.{Replies, RecipeReply};
ghost use Rattle.server_commands.specs.ServerReads.Found.{AreEntryBytes, HasNone, IsFoundRecipe};
ghost use Rattle.server_commands.specs.Entering.{RecipeBy};
ghost use Rattle.server_commands.specs.Executing.{IsStoreReady, Executes};
ghost use Rattle.server_requests.specs.Hashed.{IsHashed};
ghost use Rattle.server_requests.specs.Reading.{ReadsDisk};

use server_commands::{
    CloudDisk, CloudMemory, CloudNo, CloudStore, Failed, ReplyBuf, Shelf, Tag, UserId, Version,
    VersionKey, recipe,
};

// The same as `recipe`, by the disk.
fn recipe_on_disk<V: Shelf>(
    memory: &CloudMemory,
    disk: &mut CloudDisk,
    shelf: &mut V,
    cloud: CloudNo,
    key: VersionKey,
    buffer: &mut [u8],
    reply: &mut ReplyBuf,
) -> Result<(), Failed>
    requires area { disk.old.recipes.area ≡ areas.Recipes }
    requires buffer { recipe_limit ≤ length buffer.old }
    ensures value { IsTrue (V.cloud_at shelf.old cloud.0).told
        → Agrees disk.old.recipes ((V.cloud_at shelf.old cloud.0).now disk.old.recipes.area).read
        → (shape : Shape) (list : List Command) → IsSound shape cloud.0 list
        → Remembers shape list (memory_of memory.now)
        → Stand shape (reads (V.cloud_at shelf.old cloud.0).now areas.Shares)
        (reads (V.cloud_at shelf.old cloud.0).now areas.Recipes) list (memory_of memory.now)
        → OnOk result (reply.new ≡ reply_bytes
        (answer_over shape cloud.0 list (requests.GetRecipe key.user key.tag key.version)).reply) }
    ensures kind { OnOk result (Replies reply.new (RecipeReply
        (AreEntryBytes (memory_of memory.now) (key_of key.user.0 key.tag.0 key.version.0))
        (HasNone (memory_of memory.now) (key_of key.user.0 key.tag.0 key.version.0))
        (IsFoundRecipe (V.cloud_at shelf.old cloud.0) (memory_of memory.now)
        (key_of key.user.0 key.tag.0 key.version.0)))) }
    ensures hashed { (bytes : List ℕ) → OnOk result (IsReply reply.new (replies.Recipe bytes)
        → AreEntryBytes (memory_of memory.now) (key_of key.user.0 key.tag.0 key.version.0) bytes) }
    ensures untouched { OnOk result (IsReply reply.new replies.Missing
        → (shelf.new ≡ shelf.old) × (disk.new ≡ disk.old)) }
    ensures disk { ReadsDisk disk.old disk.new (V.cloud_at shelf.old cloud.0) (V.cloud_at shelf.new cloud.0) }
    ensures stays { Stays (V.cloud_at shelf.old cloud.0) (V.cloud_at shelf.new cloud.0) }
    ensures call { IsCall (V.cloud_at shelf.old) (V.cloud_at shelf.new) cloud.0 (V.faults shelf.old)
        (V.faults shelf.new) }
    ensures failed { OnErr result
        (HasFailed (V.cloud_at shelf.old cloud.0) (V.cloud_at shelf.new cloud.0) (V.faults shelf.old)
        (V.faults shelf.new)) }
    ensures uncounted { OnOk result
        (KeepsCounts (V.cloud_at shelf.old cloud.0) (V.cloud_at shelf.new cloud.0) (V.faults shelf.old)
        (V.faults shelf.new)) }
{
    recipe(memory, disk.recipes_mut(), shelf, cloud, key, buffer, reply)
}

/// Serves a GetRecipe. Where the device fails the store is shut.
pub(crate) fn send_recipe<V: Shelf>(
    store: &mut CloudStore,
    shelf: &mut V,
    user: UserId,
    tag: &Tag,
    version: Version,
    buffer: &mut [u8],
    reply: &mut ReplyBuf,
) -> Result<(), Failed>
    requires ready { IsStoreReady store.old }
    requires buffer { recipe_limit ≤ length buffer.old }
    ensures does { Executes (shelf.new ≡ shelf.old) store.old store.new (V.cloud_at shelf.old) (V.cloud_at shelf.new)
        (V.faults shelf.old) (V.faults shelf.new) (requests.GetRecipe user tag.now version) reply.new result }
    ensures hashed { (answer : Reply) → OnOk result (IsReply reply.new answer
        → IsHashed (memory_of store.old.memory) (requests.GetRecipe user tag.now version) answer) }
    ensures says { OnOk result (Replies reply.new
        (RecipeBy (memory_of store.old.memory) (key_of user.0 tag.now.0 version.0))) }
{
    let cloud = store.header.cloud;
    let key = VersionKey {
        user,
        tag: *tag,
        version,
    };
    match recipe_on_disk(
        &store.memory,
        &mut store.disk,
        shelf,
        cloud,
        key,
        buffer,
        reply,
    ) {
        Ok(()) => Ok(()),
        Err(Failed) => {
            store.shut();
            Err(Failed)
        }
    }
}
