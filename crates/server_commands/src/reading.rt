//! An entry's recipe, read by an open store.

ghost use Rattle.std.specs.Prelude.{◌≡◌, ◌⊎◌, ◌≤◌, ◌<◌, List, [], length, take, Some, OnOk, IsTrue};
ghost use Rattle.std.specs.FinMap.{get};
ghost use Rattle.server_reads.specs.CdBase.Limits.{recipe_limit};
ghost use Rattle.server_reads.specs.CdBase.ids.Tag.{Tag};
ghost use Rattle.server_reads.specs.CdBase.ids.UserId.{UserId};
ghost use Rattle.server_reads.specs.CdBase.ids.Version.{Version};
ghost use Rattle.server_reads.specs.ContainerLog.Laying.{Placed, IsAt};
ghost use Rattle.server_reads.specs.ContainerLog.States.{Agrees};
ghost use Rattle.server_reads.specs.FileIndex.key.FileKey.{FileKey};
ghost use Rattle.server_reads.specs.FileIndex.Files.{key_of};
ghost use Rattle.server_reads.specs.UserDedup.command.Command.{Command};
ghost use Rattle.server_reads.specs.UserDedup.Cloud.{fingerprint, user_view};
ghost use Rattle.cloud_store.specs.CloudAreas.Standing.{Chain};
ghost use Rattle.server_reads.specs.CloudMemory.Memory.{Memory};
ghost use Rattle.server_reads.specs.CloudMemory.Rooms.{memory_of};
ghost use Rattle.cloud_store.specs.Store.{IsSettled, Serves};
ghost use Rattle.server_reads.specs.Found.{IsOther, IsFoundRecipe, ReadsLog};
ghost use Rattle.server_reads.specs.Reading.{HasReadCloud, IfRotten};
ghost use Rattle.server_commands.specs.Steps.{HasOnlyReadRecipes, ReadsFile};

use cloud_store::{CloudDisk, CloudStore};
use server_reads::{BlobStop, CloudNo, Entry, Shelf, read_recipe};

// The same as `read_entry`, by the disk alone.
fn read_on_disk<V: Shelf>(
    disk: &mut CloudDisk,
    shelf: &mut V,
    cloud: CloudNo,
    entry: &Entry,
    buffer: &mut [u8],
) -> Result<(), BlobStop>
    requires { recipe_limit ≤ length buffer.old }
    ensures fits { OnOk result ((1 ≤ entry.now.len) × (entry.now.len ≤ recipe_limit)) }
    ensures hashed { OnOk result (fingerprint (take entry.now.len buffer.new) ≡ entry.now.fp) }
    ensures named { IfRotten result (λ named found. named ≡ entry.now.fp) }
    ensures found { IsTrue (V.cloud_at shelf.old cloud.0).told → 1 ≤ entry.now.len → entry.now.len ≤ recipe_limit
        → IfRotten result (λ named found. IsOther
        ((V.cloud_at shelf.old cloud.0).now disk.old.recipes.area).read entry.now.at entry.now.len named found) }
    ensures unfit { (entry.now.len < 1) ⊎ (recipe_limit < entry.now.len)
        → IfRotten result (λ named found. found ≡ fingerprint []) }
    ensures whole { IsTrue (V.cloud_at shelf.old cloud.0).told → 1 ≤ entry.now.len → entry.now.len ≤ recipe_limit
        → (b : Placed) → b.place ≡ entry.now.at → length b.blob ≡ entry.now.len → fingerprint b.blob ≡ entry.now.fp
        → IsAt ((V.cloud_at shelf.old cloud.0).now disk.old.recipes.area).read b
        → IfRotten result (λ named found. ⊥) }
    ensures blob { IsTrue (V.cloud_at shelf.old cloud.0).told
        → Agrees disk.old.recipes ((V.cloud_at shelf.old cloud.0).now disk.old.recipes.area).read
        → (b : Placed) → b.place ≡ entry.now.at → length b.blob ≡ entry.now.len → fingerprint b.blob ≡ entry.now.fp
        → IsAt ((V.cloud_at shelf.old cloud.0).now disk.old.recipes.area).read b
        → OnOk result (take entry.now.len buffer.new ≡ b.blob) }
    ensures log { ReadsLog disk.old.recipes disk.new.recipes (V.cloud_at shelf.old cloud.0)
        (V.cloud_at shelf.new cloud.0) }
    ensures same { disk.new ≡ record disk.old { recipes = disk.new.recipes } }
    ensures reads { HasReadCloud (V.cloud_at shelf.old) (V.cloud_at shelf.new) cloud.0 (V.faults shelf.old)
        (V.faults shelf.new) result }
{
    read_recipe(disk.recipes_mut(), shelf, cloud, entry, buffer)
}

/// Fills the front of the buffer with the recipe of an entry that the memory has, as `server_reads::read_recipe` does. By a list
/// that the store serves it is the recipe of the list's entry, and Rotten never comes. What the store serves stays.
pub(crate) fn read_entry<V: Shelf>(
    store: &mut CloudStore,
    shelf: &mut V,
    entry: &Entry,
    buffer: &mut [u8],
) -> Result<(), BlobStop>
    requires settled { IsSettled store.old }
    requires buffer { recipe_limit ≤ length buffer.old }
    ensures fits { OnOk result ((1 ≤ entry.now.len) × (entry.now.len ≤ recipe_limit)) }
    ensures hashed { OnOk result (fingerprint (take entry.now.len buffer.new) ≡ entry.now.fp) }
    ensures rotten { (m : Memory) (key : FileKey) → get m.files key ≡ Some entry.now
        → IfRotten result (IsFoundRecipe (V.cloud_at shelf.old store.old.header.cloud.0) m key) }
    ensures there { (list : List Command) (c : Chain) (user : UserId) (tag : Tag) (version : Version)
        → Serves list c store.old (V.cloud_at shelf.old store.old.header.cloud.0)
        → get (memory_of store.old.memory).files (key_of user.0 tag.0 version.0) ≡ Some entry.now
        → ReadsFile (user_view store.old.header.shape list user).files (tag, version)
        (take entry.now.len buffer.new) result }
    ensures store { HasOnlyReadRecipes store.old store.new (V.cloud_at shelf.old store.old.header.cloud.0)
        (V.cloud_at shelf.new store.old.header.cloud.0) }
    ensures reads { HasReadCloud (V.cloud_at shelf.old) (V.cloud_at shelf.new) store.old.header.cloud.0
        (V.faults shelf.old)
        (V.faults shelf.new) result }
{
    let cloud = store.header.cloud;
    read_on_disk(&mut store.disk, shelf, cloud, entry, buffer)
}
