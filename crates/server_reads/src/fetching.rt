//! The recipes of entries, and the reply to GetRecipe.

ghost use Rattle.std.specs.Prelude.{◌≡◌, ◌⊎◌, ℕ, ◌≤◌, ◌<◌, List, [], length, take, IsTrue, IsOk, IsErr, OnOk, OnErr};
ghost use Rattle.cloud_memory.specs.CdBase.Limits.{recipe_limit};
ghost use Rattle.cloud_memory.specs.CdBase.ids.Fp.{Fp};
ghost use Rattle.cloud_memory.specs.CdBase.shape.Shape.{Shape};
ghost use Rattle.cd_edges.specs.declared.area.Area.TheVariants as areas;
ghost use Rattle.cd_edges.specs.Disk.{Cloud, reads};
ghost use Rattle.cd_edges.specs.Shelf.{IsCall, HasFailed, KeepsCounts, Stays};
ghost use Rattle.cloud_memory.specs.ContainerLog.Laying.{Placed, IsAt};
ghost use Rattle.cloud_memory.specs.ContainerLog.States.{Agrees};
ghost use Rattle.cloud_memory.specs.FileIndex.Files.{key_of};
ghost use Rattle.messages.specs.declared.request.Request.TheVariants as requests;
ghost use Rattle.messages.specs.declared.reply.Reply.TheVariants as replies;
ghost use Rattle.messages.specs.Replies.{reply_bytes, IsReply};
ghost use Rattle.cloud_memory.specs.UserDedup.command.Command.{Command};
ghost use Rattle.cloud_memory.specs.UserDedup.Cloud.{fingerprint};
ghost use Rattle.cloud_memory.specs.UserDedup.Dedup.{answer_over, IsSound};
ghost use Rattle.cloud_memory.specs.Memory.{Remembers, Stand};
ghost use Rattle.cloud_memory.specs.Rooms.{memory_of};
ghost use Rattle.server_reads.specs.Allowed.{Replies, RecipeReply};
ghost use Rattle.server_reads.specs.Found.{IsOther, AreEntryBytes, HasNone, IsFoundRecipe, ReadsLog};
ghost use Rattle.server_reads.specs.Reading.{HasReadCloud, IfRotten};

use crate::blobs::{BlobStop, nothing_at, read_blob};
use cd_edges::{Failed, Shelf};
use cloud_memory::{CloudMemory, CloudNo, Entry, Log, RECIPE_LIMIT, Tag, UserId, Version};
use messages::{ReplyBuf, write_missing, write_recipe, write_rotten};

/// Names a version of a user's file.
#[derive(Clone, Copy)]
pub struct VersionKey {
    /// The user.
    pub user: UserId,
    /// The tag of the file's path.
    pub tag: Tag,
    /// The number of the version.
    pub version: Version,
}

// The same as `read_recipe`, of an entry that is no longer than the buffer.
fn read_front<V: Shelf>(
    log: &mut Log,
    shelf: &mut V,
    cloud: CloudNo,
    entry: &Entry,
    buffer: &mut [u8],
) -> Result<(), BlobStop>
    requires { entry.now.len ≤ length buffer.old }
    ensures hashed { OnOk result (fingerprint (take entry.now.len buffer.new) ≡ entry.now.fp) }
    ensures named { IfRotten result (λ named found. named ≡ entry.now.fp) }
    ensures found { IsTrue (V.cloud_at shelf.old cloud.0).told
        → IfRotten result (λ named found. IsOther
        ((V.cloud_at shelf.old cloud.0).now log.old.area).read entry.now.at entry.now.len named found) }
    ensures whole { IsTrue (V.cloud_at shelf.old cloud.0).told → (b : Placed) → b.place ≡ entry.now.at
        → length b.blob ≡ entry.now.len → fingerprint b.blob ≡ entry.now.fp
        → IsAt ((V.cloud_at shelf.old cloud.0).now log.old.area).read b → IfRotten result (λ named found. ⊥) }
    ensures blob { IsTrue (V.cloud_at shelf.old cloud.0).told
        → Agrees log.old ((V.cloud_at shelf.old cloud.0).now log.old.area).read
        → (b : Placed) → b.place ≡ entry.now.at → length b.blob ≡ entry.now.len → fingerprint b.blob ≡ entry.now.fp
        → IsAt ((V.cloud_at shelf.old cloud.0).now log.old.area).read b
        → OnOk result (take entry.now.len buffer.new ≡ b.blob) }
    ensures log { ReadsLog log.old log.new (V.cloud_at shelf.old cloud.0) (V.cloud_at shelf.new cloud.0) }
    ensures reads { HasReadCloud (V.cloud_at shelf.old) (V.cloud_at shelf.new) cloud.0 (V.faults shelf.old)
        (V.faults shelf.new) result }
{
    let (recipe, _) = buffer.split_at_mut(entry.len as usize);
    match read_blob(log, shelf, cloud, entry.at, &entry.fp, recipe) {
        Ok(()) => Ok(()),
        Err(stop) => Err(stop),
    }
}

/// Fills the front of the buffer, as many bytes as the entry's recipe has, with the recipe: by way of what the log keeps,
/// and, where that isn't it, from the device alone. Of an entry of a length that no recipe may have, less than one byte or
/// more than 1,180,190, nothing is found, and no device is called.
///
/// So Rotten comes exactly where fewer bytes lie on the device or their fingerprint is another than the entry's; it names
/// the entry's, and that of the bytes that lie there. Failed comes only where the cloud's count of faults rose. The
/// cloud's areas stay in any case, and of the log only the containers change that it keeps.
///
/// The log is that of the recipes. It asks for a buffer of 1,180,190 bytes at least.
pub fn read_recipe<V: Shelf>(
    log: &mut Log,
    shelf: &mut V,
    cloud: CloudNo,
    entry: &Entry,
    buffer: &mut [u8],
) -> Result<(), BlobStop>
    requires { recipe_limit ≤ length buffer.old }
    ensures fits { OnOk result ((1 ≤ entry.now.len) × (entry.now.len ≤ recipe_limit)) }
    ensures hashed { OnOk result (fingerprint (take entry.now.len buffer.new) ≡ entry.now.fp) }
    ensures named { IfRotten result (λ named found. named ≡ entry.now.fp) }
    ensures found { IsTrue (V.cloud_at shelf.old cloud.0).told → 1 ≤ entry.now.len → entry.now.len ≤ recipe_limit
        → IfRotten result (λ named found. IsOther
        ((V.cloud_at shelf.old cloud.0).now log.old.area).read entry.now.at entry.now.len named found) }
    ensures unfit { (entry.now.len < 1) ⊎ (recipe_limit < entry.now.len)
        → IfRotten result (λ named found. found ≡ fingerprint []) }
    ensures untouched { (entry.now.len < 1) ⊎ (recipe_limit < entry.now.len)
        → IsErr result × (shelf.new ≡ shelf.old) × (log.new ≡ log.old) }
    ensures whole { IsTrue (V.cloud_at shelf.old cloud.0).told → 1 ≤ entry.now.len → entry.now.len ≤ recipe_limit
        → (b : Placed) → b.place ≡ entry.now.at → length b.blob ≡ entry.now.len → fingerprint b.blob ≡ entry.now.fp
        → IsAt ((V.cloud_at shelf.old cloud.0).now log.old.area).read b → IfRotten result (λ named found. ⊥) }
    ensures blob { IsTrue (V.cloud_at shelf.old cloud.0).told
        → Agrees log.old ((V.cloud_at shelf.old cloud.0).now log.old.area).read
        → (b : Placed) → b.place ≡ entry.now.at → length b.blob ≡ entry.now.len → fingerprint b.blob ≡ entry.now.fp
        → IsAt ((V.cloud_at shelf.old cloud.0).now log.old.area).read b
        → OnOk result (take entry.now.len buffer.new ≡ b.blob) }
    ensures log { ReadsLog log.old log.new (V.cloud_at shelf.old cloud.0) (V.cloud_at shelf.new cloud.0) }
    ensures reads { HasReadCloud (V.cloud_at shelf.old) (V.cloud_at shelf.new) cloud.0 (V.faults shelf.old)
        (V.faults shelf.new) result }
{
    if 1 <= entry.len && entry.len <= RECIPE_LIMIT {
        match read_front(log, shelf, cloud, entry, buffer) {
            Ok(()) => Ok(()),
            Err(stop) => Err(stop),
        }
    } else {
        Err(nothing_at(&entry.fp))
    }
}

/// The reply to GetRecipe becomes the content. It is Missing where the memory has no entry of this version of the
/// user's file, and no device is called. Else it is Recipe, with the bytes read back and compared with the entry's
/// fingerprint; or Rotten where fewer bytes lie there than were kept, or others. Rotten names the entry's fingerprint,
/// and that of what was found at its place, whatever the memory has.
///
/// Over a told cloud whose areas have the list that the memory has, and with which the log agrees, it is the reply of that list.
/// Failed comes only where the cloud's count of faults rose; nothing is known of the content then. The cloud's areas stay in any
/// case. Of the log only the containers change that it keeps, and with Missing nothing.
///
/// It asks for the log of the recipes and a buffer of 1,180,190 bytes at least, the most that a recipe has. It takes no
/// memory but for the containers that the log keeps, and goes on without where there is none for them.
pub fn recipe<V: Shelf>(
    memory: &CloudMemory,
    log: &mut Log,
    shelf: &mut V,
    cloud: CloudNo,
    key: VersionKey,
    buffer: &mut [u8],
    reply: &mut ReplyBuf,
) -> Result<(), Failed>
    requires area { log.old.area ≡ areas.Recipes }
    requires buffer { recipe_limit ≤ length buffer.old }
    ensures value { IsTrue (V.cloud_at shelf.old cloud.0).told
        → Agrees log.old ((V.cloud_at shelf.old cloud.0).now log.old.area).read
        → (shape : Shape) (list : List Command) → IsSound shape cloud.0 list
        → Remembers shape list (memory_of memory.now)
        → Stand shape (reads (V.cloud_at shelf.old cloud.0).now areas.Shares)
        (reads (V.cloud_at shelf.old cloud.0).now areas.Recipes) list (memory_of memory.now)
        → OnOk result (reply.new ≡ reply_bytes
        (answer_over shape cloud.0 list (requests.GetRecipe key.user key.tag key.version)).reply) }
    ensures kind { OnOk result (Replies reply.new (RecipeReply
        (AreEntryBytes (memory_of memory.now) (key_of key.user.0 key.tag.0 key.version.0))
        (HasNone (memory_of memory.now) (key_of key.user.0 key.tag.0 key.version.0))
        (IsFoundRecipe (V.cloud_at shelf.old cloud.0) (memory_of memory.now)
        (key_of key.user.0 key.tag.0 key.version.0)))) }
    ensures hashed { (bytes : List ℕ) → OnOk result (IsReply reply.new (replies.Recipe bytes)
        → AreEntryBytes (memory_of memory.now) (key_of key.user.0 key.tag.0 key.version.0) bytes) }
    ensures missing { HasNone (memory_of memory.now) (key_of key.user.0 key.tag.0 key.version.0)
        → IsOk result × (shelf.new ≡ shelf.old) × (log.new ≡ log.old) × (reply.new ≡ reply_bytes replies.Missing) }
    ensures untouched { OnOk result (IsReply reply.new replies.Missing
        → HasNone (memory_of memory.now) (key_of key.user.0 key.tag.0 key.version.0)
        × (shelf.new ≡ shelf.old) × (log.new ≡ log.old)) }
    ensures log { ReadsLog log.old log.new (V.cloud_at shelf.old cloud.0) (V.cloud_at shelf.new cloud.0) }
    ensures stays { Stays (V.cloud_at shelf.old cloud.0) (V.cloud_at shelf.new cloud.0) }
    ensures call { IsCall (V.cloud_at shelf.old) (V.cloud_at shelf.new) cloud.0 (V.faults shelf.old)
        (V.faults shelf.new) }
    ensures failed { OnErr result
        (HasFailed (V.cloud_at shelf.old cloud.0) (V.cloud_at shelf.new cloud.0) (V.faults shelf.old)
        (V.faults shelf.new)) }
    ensures uncounted { OnOk result
        (KeepsCounts (V.cloud_at shelf.old cloud.0) (V.cloud_at shelf.new cloud.0) (V.faults shelf.old)
        (V.faults shelf.new)) }
{
    match memory.entry(key.user, &key.tag, key.version) {
        Some(entry) => match read_recipe(log, shelf, cloud, &entry, buffer) {
            Ok(()) => {
                let (recipe, _) = buffer.split_at(entry.len as usize);
                write_recipe(reply, recipe);
                Ok(())
            }
            Err(BlobStop::Failed) => Err(Failed),
            Err(BlobStop::Rotten { named, found }) => {
                write_rotten(reply, named, found);
                Ok(())
            }
        },
        None => {
            write_missing(reply);
            Ok(())
        }
    }
}
