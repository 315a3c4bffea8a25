//! The laws of an open store, for the proofs of callers. The calls do nothing.

ghost use Rattle.std.specs.Prelude.{◌≡◌, ℕ, List, [], ◌∷◌, ◌++◌, length};
ghost use Rattle.recipe.specs.CdBase.ids.UserId.{UserId};
ghost use Rattle.checkpoints.specs.ContainerLog.Laying.{placed};
ghost use Rattle.checkpoints.specs.ContainerLog.Places.{place_of};
ghost use Rattle.checkpoints.specs.ContainerLog.States.{HasStaged};
ghost use Rattle.checkpoints.specs.UserDedup.Dedup.{IsSound};
ghost use Rattle.checkpoints.specs.UserDedup.command.Command.TheVariants as commands;
ghost use Rattle.checkpoints.specs.CloudMemory.rooms.New.{New};
ghost use Rattle.checkpoints.specs.CloudMemory.News.{AreOf, AreNewTo};
ghost use Rattle.checkpoints.specs.CloudMemory.Rooms.{memory_of};
ghost use Rattle.checkpoints.specs.CdEdges.Disk.{Cloud};
ghost use Rattle.checkpoints.specs.UserDedup.command.Command.{Command};
ghost use Rattle.checkpoints.specs.CloudAreas.Standing.{Chain};
ghost use Rattle.checkpoints.specs.CloudDisk.Disk.{IsReadThrough, Stages, shares_laid};
ghost use Rattle.cloud_store.specs.Adding.{IsPut, put_record, unplaced};
ghost use Rattle.cloud_store.specs.declared.store.CloudStore.{CloudStore};
ghost use Rattle.cloud_store.specs.Store.{IsSettled, EndsMeet, Serves};

/// Reads through the logs of a store, which keep other containers then, end nothing that it serves, and nothing else that
/// holds of it.
pub fn law_of_reads()
    ensures serves { (list : List Command) (c : Chain) (old new : CloudStore) (before after : Cloud)
        → Serves list c old before → new ≡ record old { disk = new.disk }
        → IsReadThrough old.disk new.disk before after → Serves list c new after }
    // whatever is known of the cloud
    ensures settled { (old new : CloudStore) → IsSettled old → new ≡ record old { disk = new.disk }
        → new.disk.journal ≡ old.disk.journal → new.disk.shares ≡ record old.disk.shares { kept = new.disk.shares.kept }
        → new.disk.recipes ≡ record old.disk.recipes { kept = new.disk.recipes.kept } → IsSettled new }
    ensures meet { (old new : CloudStore) → EndsMeet old → new ≡ record old { disk = new.disk }
        → new.disk.shares ≡ record old.disk.shares { kept = new.disk.shares.kept }
        → new.disk.recipes ≡ record old.disk.recipes { kept = new.disk.recipes.kept } → EndsMeet new }
{}

/// No call on another cloud, and no arming, ends what a store serves: it goes by what is told of its own cloud's areas alone.
pub fn law_of_areas()
    ensures { (list : List Command) (c : Chain) (s : CloudStore) (old new : Cloud) → new.told ≡ old.told
        → new.now ≡ old.now → Serves list c s old → Serves list c s new }
{}

/// A string that has no place yet is held as itself once its Put is there, and is laid at the log's end, in the order of the
/// Put's strings. So it is enough to stage those strings.
pub fn law_of_new_strings()
    ensures laid { (list : List Command) (c : Chain) (s : CloudStore) (cloud : Cloud) (user : UserId) (news : List New)
        (strings : List (List ℕ)) → Serves list c s cloud → AreOf news strings → AreNewTo (memory_of s.memory) user news
        → shares_laid list (commands.Put user strings) (put_record s user news)
        ≡ placed s.memory.shares_end (unplaced (memory_of s.memory).places strings) }
    ensures put { (list : List Command) (c : Chain) (s : CloudStore) (cloud : Cloud) (user : UserId) (news : List New)
        (strings : List (List ℕ)) → Serves list c s cloud → AreOf news strings → AreNewTo (memory_of s.memory) user news
        → IsSound s.header.shape s.header.cloud.0 (list ++ commands.Put user strings ∷ [])
        → HasStaged s.disk.shares (unplaced (memory_of s.memory).places strings) → HasStaged s.disk.recipes []
        → IsPut list c s user news strings cloud }
    // A recipe that is staged alone is staged for the place that a Commit's record gives it.
    ensures recipe { (list : List Command) (c : Chain) (s : CloudStore) (cloud : Cloud) (recipe : List ℕ) (len : ℕ)
        → Serves list c s cloud → length recipe ≡ len → HasStaged s.disk.recipes (recipe ∷ [])
        → Stages s.disk.recipes (record { place = place_of s.memory.recipes_end len; blob = recipe } ∷ []) }
{}
