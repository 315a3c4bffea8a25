//! A Delete.

ghost use Rattle.std.specs.Prelude.{◌+◌, ◌-◌, min};
ghost use Rattle.std.specs.Prelude.{◌≡◌, ◌<◌, ◌^◌, ℕ, List, [], ◌∷◌, ◌++◌, length, IsSome, Some, IsTrue, OnOk, OnErr};
ghost use Rattle.checkpoints.specs.CdEdges.Disk.{moment};
ghost use Rattle.checkpoints.specs.CloudDisk.Held.{flush_moments};
ghost use Rattle.checkpoints.specs.CloudDisk.Disk.{KeepsDiskOrGrows as GrowsBy, HasDiskGrown as DiskGrows};
ghost use Rattle.std.specs.FinMap.{get};
ghost use Rattle.checkpoints.specs.CdEdges.Shelf.{IsCall, HasFailed, KeepsCounts};
ghost use Rattle.checkpoints.specs.FileIndex.Files.{key_of};
ghost use Rattle.checkpoints.specs.RecordBody.Spelling as bodies;
ghost use Rattle.checkpoints.specs.RecordBody.Spelling.{body_bytes};
ghost use Rattle.checkpoints.specs.UserDedup.file_list.FileEntry.{FileEntry};
ghost use Rattle.checkpoints.specs.UserDedup.command.Command.{Command};
ghost use Rattle.checkpoints.specs.UserDedup.command.Command.TheVariants as commands;
ghost use Rattle.checkpoints.specs.CloudAreas.Standing.{Chain};
ghost use Rattle.checkpoints.specs.CloudDisk.Disk.{KeepsOrAdds};
ghost use Rattle.checkpoints.specs.CloudMemory.Rooms.{memory_of, HasRooms};
ghost use Rattle.checkpoints.specs.CommitJournal.journal.Stage.TheVariants.{AtEnd};
ghost use Rattle.checkpoints.specs.CommitJournal.Outcomes.{stage_after as journal_after};
ghost use Rattle.checkpoints.specs.JournalStart.rooms.UserRooms.{UserRooms};
ghost use Rattle.checkpoints.specs.UserDedup.Pages.{entry_at};
ghost use Rattle.checkpoints.specs.UserDedup.Requests.{fps_of};
ghost use Rattle.checkpoints.specs.UserDedup.Dedup.{IsSound};
ghost use Rattle.checkpoints.specs.UserDedup.Cloud.{user_view};
ghost use Rattle.checkpoints.specs.CloudAreas.Adding.{with_record};
ghost use Rattle.checkpoints.specs.CloudMemory.Memory.{Remembers};
ghost use Rattle.checkpoints.specs.CloudMemory.Steps.{without_entry};
ghost use Rattle.cloud_store.specs.Store.{IsOpen, IsSettled, Serves, FitsHalf};
ghost use Rattle.cloud_store.specs.Adding.{IsDelete, ServesMore, MadeFirst, NoneStaged};
ghost use Rattle.cloud_store.specs.Adding.{EndBehind, Unmoved, KeepsOrGrows, HasGrown};
ghost use Rattle.cloud_store.specs.Adding.{OnAdded, MatchFull, MatchFailed, NotLong, WhenLong, IsTooLong, stage_after};

use crate::room::have_room;
use crate::writing::add_record;
use crate::{CloudStore, Unadded};
use checkpoints::{CloudMemory, DeleteBody, Failed, Shelf, Unsettled, law_of_laying};
use recipe::{RecipeView, Shape, Tag, UserId, Version};

// The bytes of a Delete's body.
const DELETE_LEN: u32 = 45;

// Takes the version out of the memory, and what its recipe names.
fn forget(
    memory: &mut CloudMemory,
    shape: Shape,
    user: UserId,
    tag: &Tag,
    version: Version,
    recipe: &[u8],
)
    requires recipe { length recipe.now < 2 ^ 32 }
    requires there { IsSome (get (memory_of memory.old).files (key_of user.0 tag.now.0 version.0)) }
    ensures remembers { (cloud : ℕ) (list : List Command) (entry : FileEntry)
        → IsSound shape cloud list → Remembers shape list (memory_of memory.old)
        → entry_at (user_view shape list user).files (tag.now, version) ≡ Some entry → entry.recipe ≡ recipe.now
        → Remembers shape (list ++ commands.Delete user tag.now version ∷ []) (memory_of memory.new) }
    ensures taken { memory_of memory.new
        ≡ without_entry (fps_of shape recipe.now) user (key_of user.0 tag.now.0 version.0) (memory_of memory.old) }
    ensures rooms { (rooms : UserRooms) → HasRooms rooms memory.old → HasRooms rooms memory.new }
{
    match RecipeView::check(shape, recipe) {
        Ok(view) => memory.delete(user, tag, version, &view),
        Err(_) => memory.delete_entry(user, tag, version),
    }
}

// Adds the Delete where there is room for it.
fn add_roomy<V: Shelf>(
    store: &mut CloudStore,
    shelf: &mut V,
    user: UserId,
    tag: Tag,
    version: Version,
    recipe: &[u8],
) -> Result<(), Failed>
    requires settled { IsSettled store.old }
    requires open { IsOpen store.old }
    requires recipe { length recipe.now < 2 ^ 32 }
    requires there { IsSome (get (memory_of store.old.memory).files (key_of user.0 tag.0 version.0)) }
    requires fits { FitsHalf store.old 45 }
    ensures any_moment { (list : List Command) (c : Chain) (entry : FileEntry)
        → IsDelete list c store.old user tag version entry recipe.now (V.cloud_at shelf.old store.old.header.cloud.0)
        → KeepsOrAdds store.old.header list (commands.Delete user tag version)
        (V.cloud_at shelf.old store.old.header.cloud.0) (V.cloud_at shelf.new store.old.header.cloud.0) }
    ensures added { (list : List Command) (c : Chain) (entry : FileEntry)
        → IsDelete list c store.old user tag version entry recipe.now (V.cloud_at shelf.old store.old.header.cloud.0)
        → OnOk result (Serves (list ++ commands.Delete user tag version ∷ [])
        (with_record c (bodies.Delete (record { user = user; tag = tag; version = version })) []) store.new
        (V.cloud_at shelf.new store.old.header.cloud.0)) }
    ensures taken { memory_of store.new.memory
        ≡ without_entry (fps_of store.old.header.shape recipe.now) user
        (key_of user.0 tag.0 version.0) (memory_of store.old.memory) }
    ensures chain { GrowsBy store.old.disk (body_bytes (bodies.Delete
        (record { user = user; tag = tag; version = version })))
        (V.cloud_at shelf.old store.old.header.cloud.0) (V.cloud_at shelf.new store.old.header.cloud.0) }
    ensures grown { DiskGrows store.old.disk store.new.disk
        (body_bytes (bodies.Delete
        (record { user = user; tag = tag; version = version })))
        (V.cloud_at shelf.old store.old.header.cloud.0) (V.cloud_at shelf.new store.old.header.cloud.0) result }
    ensures ends { OnOk result (EndBehind store.old store.new) }
    ensures moments { IsTrue (V.cloud_at shelf.old store.old.header.cloud.0).told
        → OnOk result (moment (V.cloud_at shelf.new store.old.header.cloud.0)
        ≡ moment (V.cloud_at shelf.old store.old.header.cloud.0) + flush_moments store.old.disk.shares
        + flush_moments store.old.disk.recipes + 4) }
    ensures number { OnOk result (store.new.commands ≡ min (store.old.commands + 1) (2 ^ 64 - 1)) }
    ensures none { NoneStaged store.new }
    ensures settled { IsSettled store.new }
    ensures header { store.new.header ≡ store.old.header }
    ensures stage { store.new.disk.journal.stage ≡ journal_after AtEnd result }
    ensures call { IsCall (V.cloud_at shelf.old) (V.cloud_at shelf.new) store.old.header.cloud.0
        (V.faults shelf.old) (V.faults shelf.new) }
    ensures failed { OnErr result (HasFailed (V.cloud_at shelf.old store.old.header.cloud.0)
        (V.cloud_at shelf.new store.old.header.cloud.0) (V.faults shelf.old) (V.faults shelf.new)) }
    ensures uncounted { OnOk result (KeepsCounts (V.cloud_at shelf.old store.old.header.cloud.0)
        (V.cloud_at shelf.new store.old.header.cloud.0) (V.faults shelf.old) (V.faults shelf.new)) }
{
    law_of_laying();
    let shape = store.header.shape;
    forget(&mut store.memory, shape, user, &tag, version, recipe);
    let body = DeleteBody { user, tag, version };
    store.body.write_delete(&body);
    add_record(store, shelf)
}

impl CloudStore {
    /// Adds a Delete of a version that the user has as the list's next command: its entry goes, and each fingerprint that
    /// its recipe names loses a use for each item. `recipe` is the entry's recipe, as it was read; bytes that are no recipe
    /// name nothing.
    ///
    /// Where the Delete's record doesn't fit the journal, and only there, a checkpoint is made first, before any other area
    /// is written. Then the record is written and synced. Whenever a crash comes, and after `Failed` too, the cloud stands
    /// for the list, or for the list with the Delete; after Ok the store serves the list with the Delete. `Full` never
    /// comes. `Failed` comes only where the cloud's count of faults rose, and then the journal is shut. Nothing is staged
    /// afterwards. It takes no memory.
    pub fn add_delete<V: Shelf>(
        &mut self,
        shelf: &mut V,
        user: UserId,
        tag: Tag,
        version: Version,
        recipe: &[u8],
    ) -> Result<(), Unadded>
        requires settled { IsSettled self.old }
        requires open { IsOpen self.old }
        requires recipe { length recipe.now < 2 ^ 32 }
        requires there { IsSome (get (memory_of self.old.memory).files (key_of user.0 tag.0 version.0)) }

        // by each list that the store serves
        ensures any_moment { (list : List Command) (c : Chain) (entry : FileEntry)
            → IsDelete list c self.old user tag version entry recipe.now (V.cloud_at shelf.old self.old.header.cloud.0)
            → KeepsOrAdds self.old.header list (commands.Delete user tag version)
            (V.cloud_at shelf.old self.old.header.cloud.0) (V.cloud_at shelf.new self.old.header.cloud.0) }
        ensures added { (list : List Command) (c : Chain) (entry : FileEntry)
            → IsDelete list c self.old user tag version entry recipe.now (V.cloud_at shelf.old self.old.header.cloud.0)
            → OnAdded result (ServesMore list c self.old (commands.Delete user tag version)
            (bodies.Delete (record { user = user; tag = tag; version = version })) []
            self.new (V.cloud_at shelf.new self.old.header.cloud.0)) }
        ensures checkpoint_first { (list : List Command) (c : Chain) (entry : FileEntry)
            → IsDelete list c self.old user tag version entry recipe.now
            (V.cloud_at shelf.old self.old.header.cloud.0)
            → ¬ (FitsHalf self.old (length (body_bytes (bodies.Delete
            (record { user = user; tag = tag; version = version })))))
            → OnAdded result (MadeFirst list c self.old (commands.Delete user tag version)
            (V.cloud_at shelf.old self.old.header.cloud.0) (V.cloud_at shelf.new self.old.header.cloud.0)) }

        // whatever is known of the cloud
        ensures never_long { NotLong result }
        ensures never_full { MatchFull result (Unit {0}) (λ full. ⊥) }
        ensures taken { OnAdded result (memory_of self.new.memory
            ≡ without_entry (fps_of self.old.header.shape recipe.now) user
            (key_of user.0 tag.0 version.0) (memory_of self.old.memory)) }
        ensures chain { KeepsOrGrows self.old (body_bytes (bodies.Delete
            (record { user = user; tag = tag; version = version })))
            (V.cloud_at shelf.old self.old.header.cloud.0) (V.cloud_at shelf.new self.old.header.cloud.0) }
        ensures grown { OnAdded result (HasGrown self.old self.new
            (body_bytes (bodies.Delete
            (record { user = user; tag = tag; version = version })))
            (V.cloud_at shelf.old self.old.header.cloud.0) (V.cloud_at shelf.new self.old.header.cloud.0)) }
        ensures ends { OnAdded result (EndBehind self.old self.new) }
        ensures moments { IsTrue (V.cloud_at shelf.old self.old.header.cloud.0).told → FitsHalf self.old 45
            → OnAdded result (moment (V.cloud_at shelf.new self.old.header.cloud.0)
            ≡ moment (V.cloud_at shelf.old self.old.header.cloud.0) + flush_moments self.old.disk.shares
            + flush_moments self.old.disk.recipes + 4) }
        ensures number { OnAdded result (self.new.commands ≡ min (self.old.commands + 1) (2 ^ 64 - 1)) }
        ensures long { WhenLong result (IsTooLong self.old 45) }
        ensures unmoved { WhenLong result (Unmoved self.old self.new) }
        ensures none { NoneStaged self.new }
        ensures settled { IsSettled self.new }
        ensures header { self.new.header ≡ self.old.header }
        ensures stage { self.new.disk.journal.stage ≡ stage_after result }
        ensures call { IsCall (V.cloud_at shelf.old) (V.cloud_at shelf.new) self.old.header.cloud.0
            (V.faults shelf.old) (V.faults shelf.new) }
        ensures counts { MatchFailed result
            (KeepsCounts (V.cloud_at shelf.old self.old.header.cloud.0)
            (V.cloud_at shelf.new self.old.header.cloud.0) (V.faults shelf.old) (V.faults shelf.new))
            (HasFailed (V.cloud_at shelf.old self.old.header.cloud.0)
            (V.cloud_at shelf.new self.old.header.cloud.0) (V.faults shelf.old) (V.faults shelf.new)) }
    {
        match have_room(self, shelf, DELETE_LEN) {
            Ok(()) => {}
            Err(Unsettled::Long) => return Err(Unadded::Long),
            Err(Unsettled::Failed) => return Err(Unadded::Failed),
        }
        match add_roomy(self, shelf, user, tag, version, recipe) {
            Ok(()) => Ok(()),
            Err(Failed) => Err(Unadded::Failed),
        }
    }
}
