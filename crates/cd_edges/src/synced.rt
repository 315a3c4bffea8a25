//! A write, and a sync of it.
ghost use Rattle.std.specs.Prelude.{◌≡◌, ◌≢◌, ◌+◌, IsTrue, OnOk, OnErr};
ghost use Rattle.cd_edges.specs.declared.area.Area.{Area};
ghost use Rattle.cd_edges.specs.Disk.{LeavesOnly, IsAtArea, MayLeave, moment, overwritten};
ghost use Rattle.cd_edges.specs.Shelf.{IsCall, HasFailed, KeepsCounts, wrote, stable};

use crate::{Area, Failed, Shelf};
use cd_base::CloudNo;

/// Writes the bytes at the place and makes sure of them, by one write and one sync of the area.
///
/// Whenever a crash comes it leaves of this area what it may leave after the write, and of the others what it might have
/// left before. After Ok the area is as it reads, a crash leaves it so, and the cloud's moment is higher by two, one for each
/// call. `Failed` comes where the write or the sync failed; the sync isn't tried after a failed write.
pub fn write_synced<S: Shelf>(
    shelf: &mut S,
    cloud: CloudNo,
    area: Area,
    at: u64,
    bytes: &[u8],
) -> Result<(), Failed>
    ensures any_moment { IsTrue (S.cloud_at shelf.old cloud.0).told
        → LeavesOnly (S.cloud_at shelf.old cloud.0) (S.cloud_at shelf.new cloud.0)
        (IsAtArea (S.cloud_at shelf.old cloud.0).now area
        (MayLeave (wrote ((S.cloud_at shelf.old cloud.0).now area) at bytes.now))) }

    ensures written { IsTrue (S.cloud_at shelf.old cloud.0).told → OnOk result ((S.cloud_at shelf.new cloud.0).now area
        ≡ stable (overwritten ((S.cloud_at shelf.old cloud.0).now area).read at bytes.now)) }

    ensures others { IsTrue (S.cloud_at shelf.old cloud.0).told → OnOk result ((other : Area) → other ≢ area
        → (S.cloud_at shelf.new cloud.0).now other ≡ (S.cloud_at shelf.old cloud.0).now other) }

    ensures moments { IsTrue (S.cloud_at shelf.old cloud.0).told
        → OnOk result (moment (S.cloud_at shelf.new cloud.0) ≡ moment (S.cloud_at shelf.old cloud.0) + 2) }

    ensures call { IsCall (S.cloud_at shelf.old) (S.cloud_at shelf.new) cloud.0 (S.faults shelf.old)
        (S.faults shelf.new) }
    ensures failed { OnErr result (HasFailed (S.cloud_at shelf.old cloud.0) (S.cloud_at shelf.new cloud.0)
        (S.faults shelf.old) (S.faults shelf.new)) }
    ensures uncounted { OnOk result (KeepsCounts (S.cloud_at shelf.old cloud.0) (S.cloud_at shelf.new cloud.0)
        (S.faults shelf.old) (S.faults shelf.new)) }
{
    shelf.write(cloud, area, at, bytes)?;
    shelf.sync(cloud, area)?;
    Ok(())
}
