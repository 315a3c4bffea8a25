//! A checkpoint, from its first gate to its last.

ghost use Rattle.std.specs.Prelude.{◌≡◌, ◌≢◌, ℕ, ◌+◌, ◌≤◌, List, length, IsTrue, OnOk, OnErr};
ghost use Rattle.cloud_disk.specs.CdEdges.Shelf.{IsCall, HasFailed, KeepsCounts};
ghost use Rattle.cloud_disk.specs.JournalStart.Ranges.{IsHeader};
ghost use Rattle.cloud_disk.specs.CommitJournal.Leaving.{OtherAreasStay};
ghost use Rattle.cloud_disk.specs.CommitJournal.journal.Stage.TheVariants.{AtEnd};
ghost use Rattle.cloud_disk.specs.CommitJournal.States.{state_of};
ghost use Rattle.cloud_disk.specs.CommitJournal.Outcomes.{stage_after};
ghost use Rattle.checkpoints.specs.Laying.{records_len, KeepsOrSettles, HasSettled};

use crate::CheckpointRecords;
use cloud_disk::{Failed, Header, Journal, Shelf};
use cloud_memory::{BodyBuf, CloudNo};

/// What a checkpoint says of itself.
#[derive(Clone, Copy)]
pub struct CheckpointHead {
    /// How many commands it stands for.
    pub commands: u64,
    /// How many records it has.
    pub count: u32,
    /// The region where its blobs lie: 0 or 1.
    pub region: u8,
}

/// Puts a checkpoint with this head and these records in the place of a journal's chain: begins it in the half that
/// isn't current, lays each record, and settles it.
///
/// Whenever a crash comes, the journal has its chain, or the checkpoint's; after Ok it has the checkpoint's, and records may be
/// added behind it. Failed comes only where the cloud's count of faults rose, and then the journal is shut. It takes no memory.
pub fn lay_checkpoint<V: Shelf, R: CheckpointRecords>(
    journal: &mut Journal,
    shelf: &mut V,
    cloud: CloudNo,
    header: &Header,
    head: CheckpointHead,
    records: &mut R,
    buffer: &mut BodyBuf,
) -> Result<(), Failed>
    requires at_end { (state_of journal.old).stage ≡ AtEnd }
    requires header { IsHeader header.now }
    requires format { header.now.format ≡ 2 }
    requires region { head.region ≤ 1 }
    requires ready { R.is_ready records.old }
    requires count { length (R.to_come records.old) ≡ head.count }
    requires room { 63 + records_len (R.to_come records.old) ≤ (state_of journal.old).limit }

    ensures any_moment { KeepsOrSettles (state_of journal.old) header.now head.commands head.count head.region
        (R.to_come records.old) (V.cloud_at shelf.old cloud.0) (V.cloud_at shelf.new cloud.0) }
    ensures settled { HasSettled (state_of journal.old) (state_of journal.new) header.now
        head.commands head.count head.region (R.to_come records.old) (V.cloud_at shelf.old cloud.0)
        (V.cloud_at shelf.new cloud.0) result }
    ensures others { OtherAreasStay (V.cloud_at shelf.old cloud.0) (V.cloud_at shelf.new cloud.0) result }
    ensures stage { (state_of journal.new).stage ≡ stage_after AtEnd result }
    ensures gate { OnOk result ((state_of journal.new).current.gate + 1 ≡ 63 + records_len (R.to_come records.old)) }
    ensures limit { (state_of journal.new).limit ≡ (state_of journal.old).limit }
    ensures call { IsCall (V.cloud_at shelf.old) (V.cloud_at shelf.new) cloud.0
        (V.faults shelf.old) (V.faults shelf.new) }
    ensures failed { OnErr result (HasFailed (V.cloud_at shelf.old cloud.0) (V.cloud_at shelf.new cloud.0)
        (V.faults shelf.old) (V.faults shelf.new)) }
    ensures uncounted { OnOk result (KeepsCounts (V.cloud_at shelf.old cloud.0) (V.cloud_at shelf.new cloud.0)
        (V.faults shelf.old) (V.faults shelf.new)) }
{
    let CheckpointHead {
        commands,
        count,
        region,
    } = head;
    journal.turn(shelf, cloud, header, commands, count, region)?;
    for _i in 0..count {
        records.write_next(buffer);
        journal.lay(shelf, cloud, buffer.as_slice())?;
    }
    journal.settle(shelf, cloud)
}
