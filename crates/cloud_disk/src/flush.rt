//! What is staged in the two logs, written.

ghost use Rattle.std.specs.Prelude.{◌≡◌, ◌≢◌, ℕ, ◌+◌, List, [], IsTrue, OnOk, OnErr};
ghost use Rattle.commit_journal.specs.CdEdges.area.Area.{Area};
ghost use Rattle.commit_journal.specs.CdEdges.Disk.{moment, LeavesOnly};
ghost use Rattle.commit_journal.specs.CdEdges.Shelf.{IsCall, HasFailed, KeepsCounts};
ghost use Rattle.cloud_areas.specs.ContainerLog.States.{HasStaged, staged_end, after_flush, KeepsEarlier};
ghost use Rattle.cloud_disk.specs.Held.{flush_moments, IsFlushed, KeepsBlobsSince, HasFlushed, KeepBoth, HaveFlushed};
ghost use Rattle.cloud_disk.specs.Held.{FlushBoth, KeepFronts, KeepsJournal};

use cloud_areas::Log;
use commit_journal::{Area, CloudNo, Failed, Shelf};

// Writes what is staged in a log.
fn flush_log<V: Shelf>(log: &mut Log, shelf: &mut V, cloud: CloudNo) -> Result<(), Failed>
    ensures any_moment { KeepsBlobsSince log.old (V.cloud_at shelf.old cloud.0) (V.cloud_at shelf.new cloud.0) }
    ensures earlier { IsTrue (V.cloud_at shelf.old cloud.0).told
        → LeavesOnly (V.cloud_at shelf.old cloud.0) (V.cloud_at shelf.new cloud.0)
        (KeepsEarlier log.old (V.cloud_at shelf.old cloud.0)) }
    ensures held { HasFlushed log.old log.new (V.cloud_at shelf.old cloud.0) (V.cloud_at shelf.new cloud.0) result }
    ensures whole { IsTrue (V.cloud_at shelf.old cloud.0).told
        → OnOk result (IsFlushed log.old ((V.cloud_at shelf.old cloud.0).now log.old.area)
        ((V.cloud_at shelf.new cloud.0).now log.old.area)) }
    ensures others { IsTrue (V.cloud_at shelf.old cloud.0).told
        → OnOk result ((other : Area) → other ≢ log.old.area
        → (V.cloud_at shelf.new cloud.0).now other ≡ (V.cloud_at shelf.old cloud.0).now other) }
    ensures moments { IsTrue (V.cloud_at shelf.old cloud.0).told
        → OnOk result (moment (V.cloud_at shelf.new cloud.0)
        ≡ moment (V.cloud_at shelf.old cloud.0) + flush_moments log.old) }
    ensures log { log.new ≡ after_flush log.old result }
    ensures none { HasStaged log.new [] }
    ensures call { IsCall (V.cloud_at shelf.old) (V.cloud_at shelf.new) cloud.0
        (V.faults shelf.old) (V.faults shelf.new) }
    ensures failed { OnErr result (HasFailed (V.cloud_at shelf.old cloud.0) (V.cloud_at shelf.new cloud.0)
        (V.faults shelf.old) (V.faults shelf.new)) }
    ensures uncounted { OnOk result (KeepsCounts (V.cloud_at shelf.old cloud.0) (V.cloud_at shelf.new cloud.0)
        (V.faults shelf.old) (V.faults shelf.new)) }
{
    log.flush(shelf, cloud)
}

// Writes what is staged in both logs, the shares first, and forgets all of it where that fails.
pub(crate) fn flush_both<V: Shelf>(
    shares: &mut Log,
    recipes: &mut Log,
    shelf: &mut V,
    cloud: CloudNo,
) -> Result<(), Failed>
    ensures any_moment { KeepBoth shares.old recipes.old
        (V.cloud_at shelf.old cloud.0) (V.cloud_at shelf.new cloud.0) }
    ensures fronts { KeepFronts shares.old recipes.old
        (V.cloud_at shelf.old cloud.0) (V.cloud_at shelf.new cloud.0) }
    ensures journal { KeepsJournal shares.old recipes.old
        (V.cloud_at shelf.old cloud.0) (V.cloud_at shelf.new cloud.0) result }
    ensures whole { FlushBoth shares.old recipes.old
        (V.cloud_at shelf.old cloud.0) (V.cloud_at shelf.new cloud.0) result }
    ensures held { HaveFlushed shares.old recipes.old shares.new recipes.new
        (V.cloud_at shelf.old cloud.0) (V.cloud_at shelf.new cloud.0) result }
    ensures moments { IsTrue (V.cloud_at shelf.old cloud.0).told
        → OnOk result (moment (V.cloud_at shelf.new cloud.0)
        ≡ moment (V.cloud_at shelf.old cloud.0) + flush_moments shares.old + flush_moments recipes.old) }
    ensures rooms { (shares.new.area ≡ shares.old.area) × (shares.new.limit ≡ shares.old.limit)
        × (recipes.new.area ≡ recipes.old.area) × (recipes.new.limit ≡ recipes.old.limit) }
    ensures ends { OnOk result ((shares.new.end ≡ staged_end shares.old)
        × (recipes.new.end ≡ staged_end recipes.old)) }
    ensures none { HasStaged shares.new [] × HasStaged recipes.new [] }
    ensures call { IsCall (V.cloud_at shelf.old) (V.cloud_at shelf.new) cloud.0
        (V.faults shelf.old) (V.faults shelf.new) }
    ensures failed { OnErr result (HasFailed (V.cloud_at shelf.old cloud.0) (V.cloud_at shelf.new cloud.0)
        (V.faults shelf.old) (V.faults shelf.new)) }
    ensures uncounted { OnOk result (KeepsCounts (V.cloud_at shelf.old cloud.0) (V.cloud_at shelf.new cloud.0)
        (V.faults shelf.old) (V.faults shelf.new)) }
{
    match flush_log(shares, shelf, cloud) {
        Ok(()) => flush_log(recipes, shelf, cloud),
        Err(Failed) => {
            recipes.unstage();
            Err(Failed)
        }
    }
}
