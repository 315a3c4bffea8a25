//! A Commit.

ghost use Rattle.std.specs.Prelude.{◌+◌, ◌-◌, ◌^◌, min};
ghost use Rattle.std.specs.Prelude.{◌≡◌, ◌≤◌, ℕ, List, [], ◌∷◌, ◌++◌, length, Some, None, IsTrue, OnOk, OnErr};
ghost use Rattle.recipe.specs.CdBase.Limits.{recipe_limit};
ghost use Rattle.checkpoints.specs.CdEdges.Disk.{Cloud, moment};
ghost use Rattle.checkpoints.specs.CloudDisk.Held.{flush_moments};
ghost use Rattle.checkpoints.specs.CloudDisk.Disk.{KeepsDiskOrGrows as GrowsBy, HasDiskGrown as DiskGrows};
ghost use Rattle.std.specs.FinMap.{get};
ghost use Rattle.checkpoints.specs.CdEdges.Shelf.{IsCall, HasFailed, KeepsCounts};
ghost use Rattle.checkpoints.specs.ContainerLog.Places.{place_of};
ghost use Rattle.checkpoints.specs.FileIndex.Files.{key_of};
ghost use Rattle.checkpoints.specs.RecordBody.Spelling as bodies;
ghost use Rattle.checkpoints.specs.RecordBody.Spelling.{body_bytes};
ghost use Rattle.checkpoints.specs.UserDedup.Owning.{fps_in};
ghost use Rattle.checkpoints.specs.UserDedup.command.Command.{Command};
ghost use Rattle.checkpoints.specs.UserDedup.command.Command.TheVariants as commands;
ghost use Rattle.checkpoints.specs.UserDedup.Spending.{full_for};
ghost use Rattle.checkpoints.specs.CloudAreas.Standing.{Chain};
ghost use Rattle.checkpoints.specs.CloudDisk.Disk.{KeepsOrAdds, regions_end};
ghost use Rattle.checkpoints.specs.CloudMemory.News.{seen};
ghost use Rattle.checkpoints.specs.CloudMemory.Rooms.{memory_of, full_commit};
ghost use Rattle.checkpoints.specs.CloudMemory.Sharing.{AreOwned};
ghost use Rattle.checkpoints.specs.CommitJournal.journal.Stage.TheVariants.{AtEnd};
ghost use Rattle.checkpoints.specs.CommitJournal.Outcomes.{stage_after as journal_after};
ghost use Rattle.checkpoints.specs.CloudAreas.Adding.{with_record};
ghost use Rattle.checkpoints.specs.CloudMemory.Steps.{with_commit};
ghost use Rattle.cloud_store.specs.Store.{IsOpen, IsSettled, Serves, FitsHalf};
ghost use Rattle.cloud_store.specs.Adding.{IsCommit, commit_body, ServesMore, MadeFirst, unstaged, NoneStaged};
ghost use Rattle.cloud_store.specs.Adding.{EndBehind, Unmoved, KeepsOrGrows, HasGrown};
ghost use Rattle.cloud_store.specs.Adding.{OnAdded, MatchFull, MatchFailed, NotLong, WhenLong, IsTooLong, stage_after};

use crate::room::have_room;
use crate::writing::add_record;
use crate::{CloudStore, Unadded};
use checkpoints::{Failed, Shelf, Unsettled, law_of_laying};
use recipe::{Fp, RecipeView, Tag, UserId, Version};

// The bytes of a Commit's body.
const COMMIT_LEN: u32 = 89;

// Adds the Commit where there is room for it.
fn add_roomy<V: Shelf>(
    store: &mut CloudStore,
    shelf: &mut V,
    user: UserId,
    tag: Tag,
    version: Version,
    fp: Fp,
    len: u32,
    recipe: &RecipeView<'_>,
) -> Result<(), Failed>
    requires settled { IsSettled store.old }
    requires open { IsOpen store.old }
    requires some { 1 ≤ len }
    requires short { len ≤ recipe_limit }
    requires new { get (memory_of store.old.memory).files (key_of user.0 tag.0 version.0) ≡ None }
    requires owned { AreOwned (memory_of store.old.memory).owners user (fps_in recipe.now.items) }
    requires room { full_commit store.old.header.rooms user (memory_of store.old.memory) len ≡ None }
    requires end { store.old.memory.recipes_end ≤ regions_end }
    requires fits { FitsHalf store.old 89 }
    ensures any_moment { (list : List Command) (c : Chain) (bytes : List ℕ)
        → IsCommit list c store.old user tag version fp len (fps_in recipe.now.items) bytes
        (V.cloud_at shelf.old store.old.header.cloud.0)
        → KeepsOrAdds store.old.header list (commands.Commit user tag version bytes)
        (V.cloud_at shelf.old store.old.header.cloud.0) (V.cloud_at shelf.new store.old.header.cloud.0) }
    ensures added { (list : List Command) (c : Chain) (bytes : List ℕ)
        → IsCommit list c store.old user tag version fp len (fps_in recipe.now.items) bytes
        (V.cloud_at shelf.old store.old.header.cloud.0)
        → OnOk result (Serves (list ++ commands.Commit user tag version bytes ∷ [])
        (with_record c (bodies.Commit (commit_body store.old user tag version fp len))
        (record { place = place_of store.old.memory.recipes_end len; blob = bytes } ∷ [])) store.new
        (V.cloud_at shelf.new store.old.header.cloud.0)) }
    ensures taken { memory_of store.new.memory
        ≡ with_commit (fps_in recipe.now.items) (commit_body store.old user tag version fp len)
        (memory_of store.old.memory) }
    ensures chain { GrowsBy store.old.disk (body_bytes (bodies.Commit (commit_body store.old user tag version fp len)))
        (V.cloud_at shelf.old store.old.header.cloud.0) (V.cloud_at shelf.new store.old.header.cloud.0) }
    ensures grown { DiskGrows store.old.disk store.new.disk
        (body_bytes (bodies.Commit (commit_body store.old user tag version fp len)))
        (V.cloud_at shelf.old store.old.header.cloud.0) (V.cloud_at shelf.new store.old.header.cloud.0) result }
    ensures ends { OnOk result (EndBehind store.old store.new) }
    ensures moments { IsTrue (V.cloud_at shelf.old store.old.header.cloud.0).told
        → OnOk result (moment (V.cloud_at shelf.new store.old.header.cloud.0)
        ≡ moment (V.cloud_at shelf.old store.old.header.cloud.0) + flush_moments store.old.disk.shares
        + flush_moments store.old.disk.recipes + 4) }
    ensures number { OnOk result (store.new.commands ≡ min (store.old.commands + 1) (2 ^ 64 - 1)) }
    ensures none { NoneStaged store.new }
    ensures settled { IsSettled store.new }
    ensures header { store.new.header ≡ store.old.header }
    ensures stage { store.new.disk.journal.stage ≡ journal_after AtEnd result }
    ensures call { IsCall (V.cloud_at shelf.old) (V.cloud_at shelf.new) store.old.header.cloud.0
        (V.faults shelf.old) (V.faults shelf.new) }
    ensures failed { OnErr result (HasFailed (V.cloud_at shelf.old store.old.header.cloud.0)
        (V.cloud_at shelf.new store.old.header.cloud.0) (V.faults shelf.old) (V.faults shelf.new)) }
    ensures uncounted { OnOk result (KeepsCounts (V.cloud_at shelf.old store.old.header.cloud.0)
        (V.cloud_at shelf.new store.old.header.cloud.0) (V.faults shelf.old) (V.faults shelf.new)) }
{
    law_of_laying();
    let rooms = store.header.rooms;
    match store
        .memory
        .add_commit(&rooms, user, tag, version, fp, len, recipe)
    {
        Ok(body) => store.body.write_commit(&body),
        Err(_) => unreachable!(),
    }
    add_record(store, shelf)
}

impl CloudStore {
    /// Adds a Commit of a version that the user doesn't have as the list's next command, where the user's rooms are wide
    /// enough. The user owns the fingerprints of the recipe's items; the recipe has this fingerprint and so many bytes, no more
    /// than 1,180,190, and is to be staged before.
    ///
    /// Where the Commit's record doesn't fit the journal, and only there, a checkpoint is made first, before any other area
    /// is written. Then the recipe is written and synced, and then the record. Whenever a crash comes, and after `Failed`
    /// too, the cloud stands for the list, or for the list with the Commit; after Ok the store serves the list with the
    /// Commit. `Full` names the first room that the Commit would pass, of files and recipes; nothing changes then but that
    /// nothing is staged, and no device call is made. `Failed` comes only where the cloud's count of faults rose, and then
    /// the journal is shut. Nothing is staged afterwards. It takes no memory.
    pub fn add_commit<V: Shelf>(
        &mut self,
        shelf: &mut V,
        user: UserId,
        tag: Tag,
        version: Version,
        fp: Fp,
        len: u32,
        recipe: &RecipeView<'_>,
    ) -> Result<(), Unadded>
        requires settled { IsSettled self.old }
        requires open { IsOpen self.old }
        requires some { 1 ≤ len }
        requires short { len ≤ recipe_limit }
        requires new { get (memory_of self.old.memory).files (key_of user.0 tag.0 version.0) ≡ None }
        requires owned { AreOwned (memory_of self.old.memory).owners user (fps_in recipe.now.items) }

        // by each list that the store serves
        ensures any_moment { (list : List Command) (c : Chain) (bytes : List ℕ)
            → IsCommit list c self.old user tag version fp len (fps_in recipe.now.items) bytes
            (V.cloud_at shelf.old self.old.header.cloud.0)
            → KeepsOrAdds self.old.header list (commands.Commit user tag version bytes)
            (V.cloud_at shelf.old self.old.header.cloud.0) (V.cloud_at shelf.new self.old.header.cloud.0) }
        ensures added { (list : List Command) (c : Chain) (bytes : List ℕ)
            → IsCommit list c self.old user tag version fp len (fps_in recipe.now.items) bytes
            (V.cloud_at shelf.old self.old.header.cloud.0)
            → OnAdded result (ServesMore list c self.old (commands.Commit user tag version bytes)
            (bodies.Commit (commit_body self.old user tag version fp len))
            (record { place = place_of self.old.memory.recipes_end len; blob = bytes } ∷ [])
            self.new (V.cloud_at shelf.new self.old.header.cloud.0)) }
        ensures checkpoint_first { (list : List Command) (c : Chain) (bytes : List ℕ)
            → IsCommit list c self.old user tag version fp len (fps_in recipe.now.items) bytes
            (V.cloud_at shelf.old self.old.header.cloud.0)
            → ¬ (FitsHalf self.old (length (body_bytes (bodies.Commit (commit_body self.old user tag version fp len)))))
            → OnAdded result (MadeFirst list c self.old (commands.Commit user tag version bytes)
            (V.cloud_at shelf.old self.old.header.cloud.0) (V.cloud_at shelf.new self.old.header.cloud.0)) }
        ensures full_list { (list : List Command) (c : Chain) (bytes : List ℕ)
            → IsCommit list c self.old user tag version fp len (fps_in recipe.now.items) bytes
            (V.cloud_at shelf.old self.old.header.cloud.0)
            → MatchFull result
            (full_for self.old.header.shape self.old.header.rooms list (commands.Commit user tag version bytes) ≡ None)
            (λ full. full_for self.old.header.shape self.old.header.rooms list (commands.Commit user tag version bytes)
            ≡ Some (seen full)) }

        // whatever is known of the cloud
        ensures never_long { NotLong result }
        ensures full { MatchFull result
            (full_commit self.old.header.rooms user (memory_of self.old.memory) len ≡ None)
            (λ full. full_commit self.old.header.rooms user (memory_of self.old.memory) len ≡ Some (seen full)) }
        ensures unadded { MatchFull result (Unit {0})
            (λ full. (self.new ≡ unstaged self.old) × (shelf.new ≡ shelf.old)) }
        ensures serves_still { MatchFull result (Unit {0}) (λ full. (list : List Command) (c : Chain) (cloud : Cloud)
            → Serves list c self.old cloud → Serves list c self.new cloud) }
        ensures taken { OnAdded result (memory_of self.new.memory
            ≡ with_commit (fps_in recipe.now.items) (commit_body self.old user tag version fp len)
            (memory_of self.old.memory)) }
        ensures chain { KeepsOrGrows self.old (body_bytes (bodies.Commit
            (commit_body self.old user tag version fp len)))
            (V.cloud_at shelf.old self.old.header.cloud.0) (V.cloud_at shelf.new self.old.header.cloud.0) }
        ensures grown { OnAdded result (HasGrown self.old self.new
            (body_bytes (bodies.Commit (commit_body self.old user tag version fp len)))
            (V.cloud_at shelf.old self.old.header.cloud.0) (V.cloud_at shelf.new self.old.header.cloud.0)) }
        ensures ends { OnAdded result (EndBehind self.old self.new) }
        ensures moments { IsTrue (V.cloud_at shelf.old self.old.header.cloud.0).told → FitsHalf self.old 89
            → OnAdded result (moment (V.cloud_at shelf.new self.old.header.cloud.0)
            ≡ moment (V.cloud_at shelf.old self.old.header.cloud.0) + flush_moments self.old.disk.shares
            + flush_moments self.old.disk.recipes + 4) }
        ensures number { OnAdded result (self.new.commands ≡ min (self.old.commands + 1) (2 ^ 64 - 1)) }
        ensures long { WhenLong result (IsTooLong self.old 89) }
        ensures unmoved { WhenLong result (Unmoved self.old self.new) }
        ensures none { NoneStaged self.new }
        ensures settled { IsSettled self.new }
        ensures header { self.new.header ≡ self.old.header }
        ensures stage { self.new.disk.journal.stage ≡ stage_after result }
        ensures call { IsCall (V.cloud_at shelf.old) (V.cloud_at shelf.new) self.old.header.cloud.0
            (V.faults shelf.old) (V.faults shelf.new) }
        ensures counts { MatchFailed result
            (KeepsCounts (V.cloud_at shelf.old self.old.header.cloud.0)
            (V.cloud_at shelf.new self.old.header.cloud.0) (V.faults shelf.old) (V.faults shelf.new))
            (HasFailed (V.cloud_at shelf.old self.old.header.cloud.0)
            (V.cloud_at shelf.new self.old.header.cloud.0) (V.faults shelf.old) (V.faults shelf.new)) }
    {
        let rooms = self.header.rooms;
        match self.memory.full_for_commit(&rooms, user, len) {
            Some(full) => {
                self.disk.unstage();
                return Err(Unadded::Full(full));
            }
            None => {}
        }
        match have_room(self, shelf, COMMIT_LEN) {
            Ok(()) => {}
            Err(Unsettled::Long) => return Err(Unadded::Long),
            Err(Unsettled::Failed) => return Err(Unadded::Failed),
        }
        match add_roomy(self, shelf, user, tag, version, fp, len, recipe) {
            Ok(()) => Ok(()),
            Err(Failed) => Err(Unadded::Failed),
        }
    }
}
