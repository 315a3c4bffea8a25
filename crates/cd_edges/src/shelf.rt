//! The clouds' areas.
ghost use Rattle.std.specs.Prelude.{◌≡◌, ◌≢◌, ℕ, ◌≤◌, length, IsTrue, IfOk, OnOk, OnErr};
ghost use Rattle.cd_edges.specs.Causes.{HasCause};
ghost use Rattle.cd_edges.specs.Disk.{Cloud, IsImage, reads};
ghost use Rattle.cd_edges.specs.Shelf.{IsCall, HasFailed, KeepsCounts, Stays, Writes, Syncs, Refreshes, Arms, ReadsFrom};

use crate::{Area, Failed};
use cd_base::CloudNo;

/// Clouds of three areas each. A shelf may tell what they hold, and what a crash may leave of them.
///
/// A write is certain once a sync of its area answered Ok. Until then a crash leaves any bytes in the ranges written
/// since the last Ok sync and past the length at that sync, and any length between that length and the greatest written
/// end; every other byte stays. The three areas are left independently of one another.
///
/// Each call on a cloud leaves all that is told of the other clouds as it was. Failures are counted for each cloud and in
/// all; a count stays at its last value, 18,446,744,073,709,551,615. A call answers `Failed` only where its cloud's
/// count and the count in all rose, and Ok only where both stayed. Every number of a cloud has counts.
pub trait Shelf {
    /// What is told of each cloud, by its number.
    ghost cloud_at: { Self → ℕ → Cloud };

    /// How many calls failed in all.
    ghost faults: { Self → ℕ };

    /// Names the place in which the clouds lie, and makes it where it isn't there. It changes nothing that is told of a
    /// cloud; a failure raises the count in all alone.
    fn root(&mut self, name: &str) -> Result<(), Failed>
        ensures stays { (number : ℕ) → cloud_at self.new number ≡ cloud_at self.old number }
        ensures cause { HasCause (faults self.old) (faults self.new) result };

    /// How many bytes the area has. Whatever it answers, areas, moment and arming stay.
    fn len(&mut self, cloud: CloudNo, area: Area) -> Result<u64, Failed>
        ensures len { IsTrue (cloud_at self.old cloud.0).told
            → IfOk result (λ len. len ≡ length ((cloud_at self.old cloud.0).now area).read) }
        ensures stays { Stays (cloud_at self.old cloud.0) (cloud_at self.new cloud.0) }
        ensures call { IsCall (cloud_at self.old) (cloud_at self.new) cloud.0 (faults self.old) (faults self.new) }
        ensures failed { OnErr result (HasFailed (cloud_at self.old cloud.0) (cloud_at self.new cloud.0)
            (faults self.old) (faults self.new)) }
        ensures uncounted { OnOk result (KeepsCounts (cloud_at self.old cloud.0) (cloud_at self.new cloud.0)
            (faults self.old) (faults self.new)) };

    /// Puts what the area has from place `at` in front of `out`: the lesser of `out.len()` and what there is, nothing at
    /// or past the end. Whatever it answers, areas, moment and arming stay.
    fn read(&mut self, cloud: CloudNo, area: Area, at: u64, out: &mut [u8]) -> Result<usize, Failed>
        ensures bound { IfOk result (λ count. count ≤ length out.new) }
        ensures bytes { IsTrue (cloud_at self.old cloud.0).told
            → IfOk result (λ count. ReadsFrom ((cloud_at self.old cloud.0).now area).read at count out.new) }
        ensures stays { Stays (cloud_at self.old cloud.0) (cloud_at self.new cloud.0) }
        ensures call { IsCall (cloud_at self.old) (cloud_at self.new) cloud.0 (faults self.old) (faults self.new) }
        ensures failed { OnErr result (HasFailed (cloud_at self.old cloud.0) (cloud_at self.new cloud.0)
            (faults self.old) (faults self.new)) }
        ensures uncounted { OnOk result (KeepsCounts (cloud_at self.old cloud.0) (cloud_at self.new cloud.0)
            (faults self.old) (faults self.new)) };

    /// Puts the bytes at place `at`, over what is there and past the end, with zeros in a gap before it. After `Failed`
    /// the written range and what lies past the old end may hold any bytes, and the cloud reads as one image that a
    /// crash then may leave.
    fn write(&mut self, cloud: CloudNo, area: Area, at: u64, bytes: &[u8]) -> Result<(), Failed>
        ensures write { IsTrue (cloud_at self.old cloud.0).told
            → Writes (cloud_at self.old cloud.0) (cloud_at self.new cloud.0) area at bytes.now result }
        ensures call { IsCall (cloud_at self.old) (cloud_at self.new) cloud.0 (faults self.old) (faults self.new) }
        ensures failed { OnErr result (HasFailed (cloud_at self.old cloud.0) (cloud_at self.new cloud.0)
            (faults self.old) (faults self.new)) }
        ensures uncounted { OnOk result (KeepsCounts (cloud_at self.old cloud.0) (cloud_at self.new cloud.0)
            (faults self.old) (faults self.new)) };

    /// Makes what the area reads the one image that a crash leaves of it. After `Failed` the ranges written since the
    /// last Ok sync still count as written, and the cloud reads as one image that a crash then may leave.
    fn sync(&mut self, cloud: CloudNo, area: Area) -> Result<(), Failed>
        ensures sync { IsTrue (cloud_at self.old cloud.0).told
            → Syncs (cloud_at self.old cloud.0) (cloud_at self.new cloud.0) area result }
        ensures call { IsCall (cloud_at self.old) (cloud_at self.new) cloud.0 (faults self.old) (faults self.new) }
        ensures failed { OnErr result (HasFailed (cloud_at self.old cloud.0) (cloud_at self.new cloud.0)
            (faults self.old) (faults self.new)) }
        ensures uncounted { OnOk result (KeepsCounts (cloud_at self.old cloud.0) (cloud_at self.new cloud.0)
            (faults self.old) (faults self.new)) };

    /// Makes the cloud's three areas empty, which a crash leaves so, and disarms it. After `Failed` it is as before.
    fn fresh(&mut self, cloud: CloudNo) -> Result<(), Failed>
        ensures fresh { IsTrue (cloud_at self.old cloud.0).told
            → Refreshes (cloud_at self.old cloud.0) (cloud_at self.new cloud.0) result }
        ensures call { IsCall (cloud_at self.old) (cloud_at self.new) cloud.0 (faults self.old) (faults self.new) }
        ensures failed { OnErr result (HasFailed (cloud_at self.old cloud.0) (cloud_at self.new cloud.0)
            (faults self.old) (faults self.new)) }
        ensures uncounted { OnOk result (KeepsCounts (cloud_at self.old cloud.0) (cloud_at self.new cloud.0)
            (faults self.old) (faults self.new)) };

    /// Cuts a later write or sync of the cloud, the one of this number counted from 1: a cut write puts its first `keep`
    /// bytes, all of them where `keep` is larger, a cut sync does nothing, and either answers `Failed`. The cloud is
    /// disarmed then. 0 calls disarm it at once. Where the count of armings stands at its last value this does nothing.
    fn arm(&mut self, cloud: CloudNo, calls: u32, keep: u32)
        ensures arms { Arms (cloud_at self.old cloud.0) (cloud_at self.new cloud.0) calls keep }
        ensures others { (other : ℕ) → other ≢ cloud.0 → cloud_at self.new other ≡ cloud_at self.old other }
        ensures total { faults self.new ≡ faults self.old };

    /// What a told cloud reads is one of its images.
    ghost reads_image: { (shelf : Self) (number : ℕ) → IsTrue (cloud_at shelf number).told →
        IsImage (cloud_at shelf number).now (reads (cloud_at shelf number).now) };
}
