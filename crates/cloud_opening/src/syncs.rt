//! The syncs that an opening begins with, and whatever else is to find one image of each area.

ghost use Rattle.std.specs.Prelude.{IsTrue, OnOk, OnErr};
ghost use Rattle.cloud_disk.specs.CdEdges.Disk.{LeavesOnly, IsImage};
ghost use Rattle.cloud_disk.specs.CdEdges.Shelf.{IsCall, HasFailed, KeepsCounts};
ghost use Rattle.cloud_opening.specs.Synced.{AreSynced};

use cloud_disk::{Area, CloudNo, Failed, Shelf};

/// Syncs Journal, Shares and Recipes, in this order. A crash leaves no more than it might have left before.
pub fn sync_all<V: Shelf>(shelf: &mut V, cloud: CloudNo) -> Result<(), Failed>
    ensures any_moment { IsTrue (V.cloud_at shelf.old cloud.0).told
        → LeavesOnly (V.cloud_at shelf.old cloud.0) (V.cloud_at shelf.new cloud.0)
        (IsImage (V.cloud_at shelf.old cloud.0).now) }
    ensures synced { IsTrue (V.cloud_at shelf.old cloud.0).told
        → OnOk result (AreSynced (V.cloud_at shelf.old cloud.0) (V.cloud_at shelf.new cloud.0)) }
    ensures call { IsCall (V.cloud_at shelf.old) (V.cloud_at shelf.new) cloud.0 (V.faults shelf.old)
        (V.faults shelf.new) }
    ensures failed { OnErr result
        (HasFailed (V.cloud_at shelf.old cloud.0) (V.cloud_at shelf.new cloud.0) (V.faults shelf.old)
        (V.faults shelf.new)) }
    ensures uncounted { OnOk result
        (KeepsCounts (V.cloud_at shelf.old cloud.0) (V.cloud_at shelf.new cloud.0) (V.faults shelf.old)
        (V.faults shelf.new)) }
{
    shelf.sync(cloud, Area::Journal)?;
    shelf.sync(cloud, Area::Shares)?;
    shelf.sync(cloud, Area::Recipes)?;
    Ok(())
}
