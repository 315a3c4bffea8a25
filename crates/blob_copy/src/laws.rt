//! Laws of writes, for the proofs of callers. The calls do nothing.

ghost use Rattle.std.specs.Prelude.{◌≡◌, ◌⊎◌, ◌≤◌, ◌+◌, ℕ, List, All, length};
ghost use Rattle.fresh_checkpoints.specs.CdEdges.area.Area.TheVariants.{Shares, Recipes};
ghost use Rattle.fresh_checkpoints.specs.CdEdges.Disk.{Cloud, Image, LeavesOnly};
ghost use Rattle.fresh_checkpoints.specs.CdEdges.Shelf.{stable};
ghost use Rattle.record_laws.specs.ContainerLog.Laying.{Placed, IsAt};
ghost use Rattle.record_laws.specs.ContainerLog.States.{State, IsTorn, in_area, area_flushed};
ghost use Rattle.cloud_store.specs.CommitJournal.States as journals;
ghost use Rattle.compact_lists.specs.JournalStart.start.Header.{Header};
ghost use Rattle.compact_lists.specs.UserDedup.command.Command.{Command};
ghost use Rattle.fresh_checkpoints.specs.CloudAreas.Chains.{laid_shares};
ghost use Rattle.fresh_checkpoints.specs.CloudAreas.Placing.{region_start, greatest_end, shares_in, recipes_in, places_of};
ghost use Rattle.fresh_checkpoints.specs.CloudAreas.Standing.{Chain, region_in};
ghost use Rattle.fresh_checkpoints.specs.CloudDisk.Disk.{IsRead};
ghost use Rattle.fresh_checkpoints.specs.CloudDisk.Held.{AreBelow};
ghost use Rattle.fresh_checkpoints.specs.Checkpoints.Settling.{KeepsList};
ghost use Rattle.blob_copy.specs.Apart.{IsApart};

/// A blob in front of what a flush writes, or behind it, stays: once that is written, and whenever a crash comes, where
/// all of the log's area was on the disk.
pub fn law_of_writes_apart()
    ensures torn { (log : State) (old : Cloud) (image : Image) (b : Placed)
        → old.now log.area ≡ stable (in_area log old) → IsApart log.end log.staged b → IsAt (in_area log old) b
        → IsTorn log old image → IsAt (image log.area) b }
    ensures written { (log : State) (old new : Cloud) (b : Placed) → IsApart log.end log.staged b
        → IsAt (in_area log old) b → new.now log.area ≡ area_flushed log old → IsAt (in_area log new) b }
    // What ends in front of the log's end lies so, and what begins behind what is written.
    ensures below { (least end : ℕ) (bytes : List ℕ) (blobs : List Placed) → AreBelow least blobs → least ≤ end
        → All (IsApart end bytes) blobs }
    ensures behind { (least end : ℕ) (bytes : List ℕ) (blobs : List Placed)
        → All (λ (b : Placed). least ≤ b.place) blobs → end + length bytes ≤ least → All (IsApart end bytes) blobs }
    // So whenever a crash comes a cloud stands for its list, where all that its chain places lies so.
    ensures shares { (header : Header) (list : List Command) (c : Chain) (journal : journals.JournalState)
        (old new : Cloud)
        → IsRead header list c journal old → (log : State) → log.area ≡ Shares
        → All (IsApart log.end log.staged) (laid_shares list (shares_in c.records))
        → LeavesOnly old new (IsTorn log old) → KeepsList header list old new }
    ensures recipes { (header : Header) (list : List Command) (c : Chain) (journal : journals.JournalState)
        (old new : Cloud)
        → IsRead header list c journal old → (log : State) → log.area ≡ Recipes
        → All (IsApart log.end log.staged) c.recipes
        → LeavesOnly old new (IsTorn log old) → KeepsList header list old new }
{}

/// What a chain places lies apart from what is written behind all of it, or in front of its region. So does all of it from
/// copies in the other region.
pub fn law_of_other_regions()
    ensures shares { (header : Header) (list : List Command) (c : Chain) (journal : journals.JournalState)
        (cloud : Cloud)
        → IsRead header list c journal cloud → (end : ℕ) (bytes : List ℕ)
        → (greatest_end (region_start (region_in c)) (places_of (shares_in c.records)) ≤ end)
        ⊎ (end + length bytes ≤ region_start (region_in c))
        → All (IsApart end bytes) (laid_shares list (shares_in c.records)) }
    ensures recipes { (header : Header) (list : List Command) (c : Chain) (journal : journals.JournalState)
        (cloud : Cloud)
        → IsRead header list c journal cloud → (end : ℕ) (bytes : List ℕ)
        → (greatest_end (region_start (region_in c)) (recipes_in c.records) ≤ end)
        ⊎ (end + length bytes ≤ region_start (region_in c)) → All (IsApart end bytes) c.recipes }
{}
