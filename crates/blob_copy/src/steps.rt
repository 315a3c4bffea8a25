//! Copies of what is alive, a container after another.

ghost use Rattle.std.specs.Prelude.{◌≡◌, ◌≢◌, ◌≤◌, ◌<◌, ◌+◌, false, List, [], length, take, IsTrue, Option};
ghost use Rattle.compact_lists.specs.CdBase.Limits.{recipe_limit};
ghost use Rattle.fresh_checkpoints.specs.CdEdges.Disk.{Cloud, LeavesOnly, reads};
ghost use Rattle.fresh_checkpoints.specs.CdEdges.Shelf.{IsCall, HasFailed, KeepsCounts, Stays};
ghost use Rattle.record_laws.specs.ContainerLog.States.{HasStaged, in_area};
ghost use Rattle.record_laws.specs.FileIndex.key.Entry.{Entry};
ghost use Rattle.record_laws.specs.FileIndex.key.FileKey.{FileKey};
ghost use Rattle.compact_lists.specs.UserDedup.command.Command.{Command};
ghost use Rattle.fresh_checkpoints.specs.CloudAreas.Standing.{Chain};
ghost use Rattle.fresh_checkpoints.specs.Checkpoints.Settling.{KeepsList};
ghost use Rattle.fresh_checkpoints.specs.CloudMemory.Fitting.{AreSharePlaces, AreShort};
ghost use Rattle.fresh_checkpoints.specs.CloudMemory.Live.{IsEachLive};
ghost use Rattle.record_laws.specs.PoolMap.Slots.{IsListed};
ghost use Rattle.fresh_checkpoints.specs.CompactMemories.Kept.{live_sum, live_at, live_in, live_places, entries_in, live_entries};
ghost use Rattle.cloud_store.specs.Adding.{NoneStaged};
ghost use Rattle.cloud_store.specs.Store.{IsOpen, IsSettled, EndsMeet, Serves};
ghost use Rattle.blob_copy.specs.Answers.{MatchStep, MatchCopy, IfCopyRotten, MatchFault, NeverLong, NeverWrong};
ghost use Rattle.blob_copy.specs.Answers.{EitherWay, SomeRotten, stage_after};
ghost use Rattle.blob_copy.specs.Copies.{HasCopied, KeepsBeside, IsBeside, share_blob, entry_blob};
ghost use Rattle.blob_copy.specs.Runs.{HasRotten, CopiesTo, MayTear, all_end, behind_error};
ghost use Rattle.blob_copy.specs.Steps.{IsStep};
ghost use Rattle.blob_copy.specs.Copying.{IsCopyLaid, IsCopying, AreAllCopied, shares_so_far, entries_so_far};
ghost use Rattle.blob_copy.specs.declared.copying.Copying.{Copying as Progress};

use crate::staging::{copy_recipes, copy_shares};
use crate::{CopyErr, Copying};
use cloud_store::CloudStore;
use compact_lists::CloudNo;
use fresh_checkpoints::{CloudDisk, CloudMemory, REGION_LEN, Reclaimed, Shelf, live_sum};

/// Begins a copy: nothing is copied, and both logs end where the other region begins. What is staged is forgotten. No
/// command may be added until the copies are switched to or forgotten.
pub fn start(store: &mut CloudStore) -> Copying
    requires settled { IsSettled store.old }
    requires open { IsOpen store.old }
    ensures copying { (list : List Command) (c : Chain) (cloud : Cloud) → Serves list c store.old cloud
        → IsCopying list c store.new result cloud }
    ensures none { (result.place_slot ≡ 0) × (result.file_slot ≡ 0) }
    ensures laid { IsCopyLaid store.new result }
    ensures same { store.new ≡ record store.old { disk = store.new.disk } }
    ensures journal { store.new.disk.journal ≡ store.old.disk.journal }
    ensures settled { IsSettled store.new }
{
    let other = 1 - store.region;
    let begin = u64::from(other) * REGION_LEN;
    store.disk.reset(begin, begin);
    Copying {
        place_slot: 0,
        file_slot: 0,
    }
}

/// The bytes that are alive, each blob once, and how many shares no user owns: what a copy brings over, and what it drops.
pub fn sum(store: &CloudStore) -> Reclaimed
    ensures { result ≡ live_sum store.now.memory }
{
    live_sum(&store.memory)
}

// Whether some user owns a share in a slot from here on.
fn has_share(memory: &CloudMemory, from: u32) -> bool
    ensures { EitherWay result
        ((length (live_in memory.now.shares.owners (take from memory.now.shares.place_slots))
        < length (live_places memory.now)) × IsEachLive memory.now.shares)
        (live_in memory.now.shares.owners (take from memory.now.shares.place_slots) ≡ live_places memory.now) }
{
    for slot in from..memory.shares().place_slots() {
        match memory.live_share(slot) {
            Some(_) => return true,
            None => {}
        }
    }
    false
}

// Whether a slot from here on has an entry.
fn has_entry(memory: &CloudMemory, from: u32) -> bool
    ensures { EitherWay result
        ((length (entries_in (take from memory.now.files.slots)) < length (live_entries memory.now))
        × IsListed memory.now.files.files memory.now.files.slots)
        (entries_in (take from memory.now.files.slots) ≡ live_entries memory.now) }
{
    for slot in from..memory.files().slots() {
        match memory.live_file(slot) {
            Some(_) => return true,
            None => {}
        }
    }
    false
}

// Where a device failed the journal is shut.
fn shut_after(disk: &mut CloudDisk, error: &CopyErr)
    ensures { disk.new ≡ behind_error error.now disk.old }
{
    match error {
        CopyErr::Fault => disk.shut(),
        CopyErr::Rotten { .. } => {}
        CopyErr::Long => {}
    }
}

// The same as `copy_shares`, by the disk alone.
fn copy_shares_on_disk<V: Shelf>(
    memory: &CloudMemory,
    disk: &mut CloudDisk,
    shelf: &mut V,
    cloud: CloudNo,
    from: u32,
    buffer: &mut [u8],
) -> Result<u32, CopyErr>
    requires some { length (live_in memory.now.shares.owners (take from memory.now.shares.place_slots))
        < length (live_places memory.now) }
    requires fits { AreSharePlaces memory.now.shares.places }
    requires buffer { recipe_limit ≤ length buffer.old }
    requires none { HasStaged disk.old.shares [] }
    requires within { all_end (live_at memory.now.shares.owners) share_blob memory.now.shares.place_slots
        from disk.old.shares.end ≤ disk.old.shares.limit }
    ensures copied { MatchCopy result
        (λ to. CopiesTo (live_at memory.now.shares.owners) share_blob memory.now.shares.place_slots from to
        disk.old.shares disk.new.shares (V.cloud_at shelf.old cloud.0) (V.cloud_at shelf.new cloud.0))
        (disk.new.shares ≡ record disk.old.shares { kept = disk.new.shares.kept })
        (λ name found. (disk.new.shares ≡ disk.old.shares)
        × Stays (V.cloud_at shelf.old cloud.0) (V.cloud_at shelf.new cloud.0)
        × (IsTrue (V.cloud_at shelf.old cloud.0).told → HasRotten share_blob (live_places memory.now)
        (in_area disk.old.shares (V.cloud_at shelf.old cloud.0)) name found)) }
    ensures torn { IsTrue (V.cloud_at shelf.old cloud.0).told
        → MayTear disk.old.shares (all_end (live_at memory.now.shares.owners) share_blob
        memory.now.shares.place_slots from disk.old.shares.end)
        (V.cloud_at shelf.old cloud.0) (V.cloud_at shelf.new cloud.0) }
    ensures same { disk.new ≡ record disk.old { shares = disk.new.shares } }
    ensures buffer { length buffer.new ≡ length buffer.old }
    ensures call { IsCall (V.cloud_at shelf.old) (V.cloud_at shelf.new) cloud.0
        (V.faults shelf.old) (V.faults shelf.new) }
    ensures counts { MatchFault result
        (HasFailed (V.cloud_at shelf.old cloud.0) (V.cloud_at shelf.new cloud.0)
        (V.faults shelf.old) (V.faults shelf.new))
        (KeepsCounts (V.cloud_at shelf.old cloud.0) (V.cloud_at shelf.new cloud.0)
        (V.faults shelf.old) (V.faults shelf.new)) }
{
    copy_shares(memory, disk.shares_mut(), shelf, cloud, from, buffer)
}

// The same as `copy_recipes`, by the disk alone.
fn copy_recipes_on_disk<V: Shelf>(
    memory: &CloudMemory,
    disk: &mut CloudDisk,
    shelf: &mut V,
    cloud: CloudNo,
    from: u32,
    buffer: &mut [u8],
) -> Result<u32, CopyErr>
    requires some { length (entries_in (take from memory.now.files.slots)) < length (live_entries memory.now) }
    requires fits { AreShort memory.now.files.files }
    requires buffer { recipe_limit ≤ length buffer.old }
    requires none { HasStaged disk.old.recipes [] }
    requires within { all_end (λ (e : Option (FileKey × Entry)). e) entry_blob memory.now.files.slots
        from disk.old.recipes.end ≤ disk.old.recipes.limit }
    ensures copied { MatchCopy result
        (λ to. CopiesTo (λ (e : Option (FileKey × Entry)). e) entry_blob memory.now.files.slots from to
        disk.old.recipes disk.new.recipes (V.cloud_at shelf.old cloud.0) (V.cloud_at shelf.new cloud.0))
        (disk.new.recipes ≡ record disk.old.recipes { kept = disk.new.recipes.kept })
        (λ name found. (disk.new.recipes ≡ disk.old.recipes)
        × Stays (V.cloud_at shelf.old cloud.0) (V.cloud_at shelf.new cloud.0)
        × (IsTrue (V.cloud_at shelf.old cloud.0).told → HasRotten entry_blob (live_entries memory.now)
        (in_area disk.old.recipes (V.cloud_at shelf.old cloud.0)) name found)) }
    ensures torn { IsTrue (V.cloud_at shelf.old cloud.0).told
        → MayTear disk.old.recipes (all_end (λ (e : Option (FileKey × Entry)). e) entry_blob
        memory.now.files.slots from disk.old.recipes.end)
        (V.cloud_at shelf.old cloud.0) (V.cloud_at shelf.new cloud.0) }
    ensures same { disk.new ≡ record disk.old { recipes = disk.new.recipes } }
    ensures buffer { length buffer.new ≡ length buffer.old }
    ensures call { IsCall (V.cloud_at shelf.old) (V.cloud_at shelf.new) cloud.0
        (V.faults shelf.old) (V.faults shelf.new) }
    ensures counts { MatchFault result
        (HasFailed (V.cloud_at shelf.old cloud.0) (V.cloud_at shelf.new cloud.0)
        (V.faults shelf.old) (V.faults shelf.new))
        (KeepsCounts (V.cloud_at shelf.old cloud.0) (V.cloud_at shelf.new cloud.0)
        (V.faults shelf.old) (V.faults shelf.new)) }
{
    copy_recipes(memory, disk.recipes_mut(), shelf, cloud, from, buffer)
}

// Copies the next container of shares.
fn step_shares<V: Shelf>(
    store: &mut CloudStore,
    shelf: &mut V,
    copying: &mut Copying,
    buffer: &mut [u8],
) -> Result<bool, CopyErr>
    requires settled { IsSettled store.old }
    requires open { IsOpen store.old }
    requires laid { IsCopyLaid store.old copying.old }
    requires buffer { recipe_limit ≤ length buffer.old }
    requires some { length (shares_so_far store.old copying.old) < length (live_places store.old.memory) }
    requires each { IsEachLive store.old.memory.shares }
    ensures step { IsStep store.old store.new copying.old copying.new
        (V.cloud_at shelf.old store.old.header.cloud.0) (V.cloud_at shelf.new store.old.header.cloud.0) result }
    ensures not_done { result ≢ Ok false }
    ensures buffer { length buffer.new ≡ length buffer.old }
    ensures call { IsCall (V.cloud_at shelf.old) (V.cloud_at shelf.new) store.old.header.cloud.0
        (V.faults shelf.old) (V.faults shelf.new) }
    ensures counts { MatchFault result
        (HasFailed (V.cloud_at shelf.old store.old.header.cloud.0) (V.cloud_at shelf.new store.old.header.cloud.0)
        (V.faults shelf.old) (V.faults shelf.new))
        (KeepsCounts (V.cloud_at shelf.old store.old.header.cloud.0) (V.cloud_at shelf.new store.old.header.cloud.0)
        (V.faults shelf.old) (V.faults shelf.new)) }
{
    let cloud = store.header.cloud;
    match copy_shares_on_disk(
        &store.memory,
        &mut store.disk,
        shelf,
        cloud,
        copying.place_slot,
        buffer,
    ) {
        Ok(slot) => {
            copying.place_slot = slot;
            Ok(true)
        }
        Err(error) => {
            shut_after(&mut store.disk, &error);
            Err(error)
        }
    }
}

// Copies the next container of recipes.
fn step_recipes<V: Shelf>(
    store: &mut CloudStore,
    shelf: &mut V,
    copying: &mut Copying,
    buffer: &mut [u8],
) -> Result<bool, CopyErr>
    requires settled { IsSettled store.old }
    requires open { IsOpen store.old }
    requires laid { IsCopyLaid store.old copying.old }
    requires buffer { recipe_limit ≤ length buffer.old }
    requires some { length (entries_so_far store.old copying.old) < length (live_entries store.old.memory) }
    requires each { IsListed store.old.memory.files.files store.old.memory.files.slots }
    ensures step { IsStep store.old store.new copying.old copying.new
        (V.cloud_at shelf.old store.old.header.cloud.0) (V.cloud_at shelf.new store.old.header.cloud.0) result }
    ensures not_done { result ≢ Ok false }
    ensures buffer { length buffer.new ≡ length buffer.old }
    ensures call { IsCall (V.cloud_at shelf.old) (V.cloud_at shelf.new) store.old.header.cloud.0
        (V.faults shelf.old) (V.faults shelf.new) }
    ensures counts { MatchFault result
        (HasFailed (V.cloud_at shelf.old store.old.header.cloud.0) (V.cloud_at shelf.new store.old.header.cloud.0)
        (V.faults shelf.old) (V.faults shelf.new))
        (KeepsCounts (V.cloud_at shelf.old store.old.header.cloud.0) (V.cloud_at shelf.new store.old.header.cloud.0)
        (V.faults shelf.old) (V.faults shelf.new)) }
{
    let cloud = store.header.cloud;
    match copy_recipes_on_disk(
        &store.memory,
        &mut store.disk,
        shelf,
        cloud,
        copying.file_slot,
        buffer,
    ) {
        Ok(slot) => {
            copying.file_slot = slot;
            Ok(true)
        }
        Err(error) => {
            shut_after(&mut store.disk, &error);
            Err(error)
        }
    }
}

/// Copies more of what is alive, in the order of the slots: up to a container of shares while any is left, and then of
/// recipes. Each blob is read and hashed, and behind them all is one write and one sync. It answers whether any was left;
/// where none was, nothing changes and no device is called. The buffer has room for a recipe. It takes no memory.
///
/// `Rotten` comes exactly at the next blob that is alive and is short or hashes to another value than its name, and never
/// where the store knows a list: what was staged before it in this step is forgotten, and nothing changes. `Long` never
/// comes. Whenever a crash comes the cloud stands for the list as before, and nothing lies otherwise but in the region of
/// the copies, behind those that were made before.
pub fn step<V: Shelf>(
    store: &mut CloudStore,
    shelf: &mut V,
    copying: &mut Copying,
    buffer: &mut [u8],
) -> Result<bool, CopyErr>
    requires settled { IsSettled store.old }
    requires open { IsOpen store.old }
    requires laid { IsCopyLaid store.old copying.old }
    requires buffer { recipe_limit ≤ length buffer.old }

    // for each list that the store knows
    ensures any_moment { (list : List Command) (c : Chain)
        → IsCopying list c store.old copying.old (V.cloud_at shelf.old store.old.header.cloud.0)
        → KeepsList store.old.header list (V.cloud_at shelf.old store.old.header.cloud.0)
        (V.cloud_at shelf.new store.old.header.cloud.0) }
    ensures copying { (list : List Command) (c : Chain)
        → IsCopying list c store.old copying.old (V.cloud_at shelf.old store.old.header.cloud.0)
        → MatchFault result (Unit {0})
        (IsCopying list c store.new copying.new (V.cloud_at shelf.new store.old.header.cloud.0)) }
    ensures never_wrong { (list : List Command) (c : Chain)
        → IsCopying list c store.old copying.old (V.cloud_at shelf.old store.old.header.cloud.0)
        → NeverWrong result }

    // whatever is known of the cloud
    ensures copied { IsTrue (V.cloud_at shelf.old store.old.header.cloud.0).told
        → MatchStep result (HasCopied store.old copying.old copying.new
        (reads (V.cloud_at shelf.old store.old.header.cloud.0).now)
        (reads (V.cloud_at shelf.new store.old.header.cloud.0).now)) (Unit {0}) (Unit {0}) (Unit {0}) }
    ensures beside { IsTrue (V.cloud_at shelf.old store.old.header.cloud.0).told
        → MatchFault result (Unit {0}) (KeepsBeside store.old (V.cloud_at shelf.old store.old.header.cloud.0)
        (V.cloud_at shelf.new store.old.header.cloud.0)) }
    ensures images { IsTrue (V.cloud_at shelf.old store.old.header.cloud.0).told
        → LeavesOnly (V.cloud_at shelf.old store.old.header.cloud.0) (V.cloud_at shelf.new store.old.header.cloud.0)
        (IsBeside store.old (V.cloud_at shelf.old store.old.header.cloud.0)) }
    ensures fits { NeverLong result }
    ensures kept { IfCopyRotten result (λ named found. store.new ≡ store.old) }
    ensures stays { IfCopyRotten result (λ named found. Stays (V.cloud_at shelf.old store.old.header.cloud.0)
        (V.cloud_at shelf.new store.old.header.cloud.0)) }
    ensures step { MatchStep result
        (length (shares_so_far store.old copying.old) + length (entries_so_far store.old copying.old)
        < length (shares_so_far store.old copying.new) + length (entries_so_far store.old copying.new))
        (AreAllCopied store.old copying.new × (shelf.new ≡ shelf.old) × (store.new ≡ store.old)
        × (copying.new ≡ copying.old))
        (copying.new ≡ copying.old) (copying.new ≡ copying.old) }
    ensures slots { (copying.old.place_slot ≤ copying.new.place_slot)
        × (copying.old.file_slot ≤ copying.new.file_slot) }
    ensures laid { MatchFault result (Unit {0}) (IsCopyLaid store.new copying.new) }
    ensures rotten { IsTrue (V.cloud_at shelf.old store.old.header.cloud.0).told
        → IfCopyRotten result (SomeRotten store.old.memory
        (reads (V.cloud_at shelf.old store.old.header.cloud.0).now)) }
    ensures same { store.new ≡ record store.old { disk = store.new.disk } }
    ensures settled { IsSettled store.new }
    ensures stage { store.new.disk.journal.stage ≡ stage_after result }
    ensures buffer { length buffer.new ≡ length buffer.old }
    ensures call { IsCall (V.cloud_at shelf.old) (V.cloud_at shelf.new) store.old.header.cloud.0
        (V.faults shelf.old) (V.faults shelf.new) }
    ensures counts { MatchFault result
        (HasFailed (V.cloud_at shelf.old store.old.header.cloud.0) (V.cloud_at shelf.new store.old.header.cloud.0)
        (V.faults shelf.old) (V.faults shelf.new))
        (KeepsCounts (V.cloud_at shelf.old store.old.header.cloud.0) (V.cloud_at shelf.new store.old.header.cloud.0)
        (V.faults shelf.old) (V.faults shelf.new)) }
{
    if has_share(&store.memory, copying.place_slot) {
        return step_shares(store, shelf, copying, buffer);
    }
    if has_entry(&store.memory, copying.file_slot) {
        return step_recipes(store, shelf, copying, buffer);
    }
    Ok(false)
}

/// Forgets the copies: both logs end where the memory says again, and nothing is staged. What lies in the other region
/// stays there, and nothing names it.
pub fn forget(store: &mut CloudStore)
    requires settled { IsSettled store.old }
    requires open { IsOpen store.old }
    ensures serves { (list : List Command) (c : Chain) (copying : Progress) (cloud : Cloud)
        → IsCopying list c store.old copying cloud → Serves list c store.new cloud }
    ensures meet { EndsMeet store.new }
    ensures none { NoneStaged store.new }
    ensures same { store.new ≡ record store.old { disk = store.new.disk } }
    ensures journal { store.new.disk.journal ≡ store.old.disk.journal }
    ensures settled { IsSettled store.new }
{
    let shares = store.memory.shares_end();
    let recipes = store.memory.recipes_end();
    store.disk.reset(shares, recipes);
}
