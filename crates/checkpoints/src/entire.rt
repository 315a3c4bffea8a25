//! A checkpoint of a disk.

ghost use Rattle.std.specs.Prelude.{◌≡◌, ℕ, ◌+◌, ◌≤◌, List, length, IsTrue, OnOk, OnErr};
ghost use Rattle.cloud_disk.specs.CdEdges.Shelf.{IsCall, HasFailed, KeepsCounts};
ghost use Rattle.cloud_memory.specs.ContainerLog.Laying.{Placed};
ghost use Rattle.cloud_disk.specs.JournalStart.Ranges.{IsHeader};
ghost use Rattle.cloud_disk.specs.CommitJournal.Leaving.{OtherAreasStay};
ghost use Rattle.cloud_disk.specs.CommitJournal.journal.Stage.TheVariants.{AtEnd};
ghost use Rattle.cloud_disk.specs.CommitJournal.Outcomes.{stage_after};
ghost use Rattle.cloud_memory.specs.UserDedup.command.Command.{Command};
ghost use Rattle.cloud_disk.specs.CloudAreas.Standing.{Chain};
ghost use Rattle.cloud_disk.specs.Disk.{IsOn};
ghost use Rattle.checkpoints.specs.Laying.{records_len, KeepsOrSettles, HasSettled};
ghost use Rattle.checkpoints.specs.Settling.{checkpoint_of, IsSummed, KeepsList, KeepsOthers};

use crate::{CheckpointHead, CheckpointRecords, lay_checkpoint};
use cloud_disk::{CloudDisk, Failed, Header, Shelf};
use cloud_memory::{BodyBuf, CloudNo};

/// Puts a checkpoint with this head and these records in the place of the chain of a cloud's journal. Where the
/// checkpoint says the list that the chain says, the cloud stands for it whenever a crash comes, and after Ok the disk
/// stands for it by the checkpoint's chain. Whatever the records say, each image since has the chain that was there or
/// the checkpoint's, and after Ok the checkpoint's. No area but the journal is written.
///
/// Failed comes only where the cloud's count of faults rose, and then the journal is shut. The logs are as they were. It takes
/// no memory.
pub fn checkpoint<V: Shelf, R: CheckpointRecords>(
    disk: &mut CloudDisk,
    shelf: &mut V,
    cloud: CloudNo,
    header: &Header,
    head: CheckpointHead,
    records: &mut R,
    buffer: &mut BodyBuf,
) -> Result<(), Failed>
    requires at_end { disk.old.journal.stage ≡ AtEnd }
    requires header { IsHeader header.now }
    requires format { header.now.format ≡ 2 }
    requires region { head.region ≤ 1 }
    requires ready { R.is_ready records.old }
    requires count { length (R.to_come records.old) ≡ head.count }
    requires room { 63 + records_len (R.to_come records.old) ≤ disk.old.journal.limit }

    ensures any_moment { (list : List Command) (c : Chain) (recipes : List Placed)
        → IsSummed header.now list c
        (checkpoint_of c header.now head.commands head.count head.region (R.to_come records.old) recipes)
        disk.old (V.cloud_at shelf.old cloud.0)
        → KeepsList header.now list (V.cloud_at shelf.old cloud.0) (V.cloud_at shelf.new cloud.0) }
    ensures only_journal { (list : List Command) (c : Chain) (recipes : List Placed)
        → IsSummed header.now list c
        (checkpoint_of c header.now head.commands head.count head.region (R.to_come records.old) recipes)
        disk.old (V.cloud_at shelf.old cloud.0)
        → KeepsOthers (V.cloud_at shelf.old cloud.0) (V.cloud_at shelf.new cloud.0) }
    ensures settled { (list : List Command) (c : Chain) (recipes : List Placed)
        → IsSummed header.now list c
        (checkpoint_of c header.now head.commands head.count head.region (R.to_come records.old) recipes)
        disk.old (V.cloud_at shelf.old cloud.0)
        → OnOk result (IsOn header.now list
        (checkpoint_of c header.now head.commands head.count head.region (R.to_come records.old) recipes)
        disk.new (V.cloud_at shelf.new cloud.0)) }
    // whatever the records say
    ensures chain { KeepsOrSettles disk.old.journal header.now head.commands head.count head.region
        (R.to_come records.old) (V.cloud_at shelf.old cloud.0) (V.cloud_at shelf.new cloud.0) }
    ensures taken { HasSettled disk.old.journal disk.new.journal header.now head.commands head.count head.region
        (R.to_come records.old)
        (V.cloud_at shelf.old cloud.0) (V.cloud_at shelf.new cloud.0) result }
    ensures others { OtherAreasStay (V.cloud_at shelf.old cloud.0) (V.cloud_at shelf.new cloud.0) result }
    ensures stage { disk.new.journal.stage ≡ stage_after AtEnd result }
    ensures gate { OnOk result (disk.new.journal.current.gate + 1 ≡ 63 + records_len (R.to_come records.old)) }
    ensures limit { disk.new.journal.limit ≡ disk.old.journal.limit }
    ensures logs { (disk.new.shares ≡ disk.old.shares) × (disk.new.recipes ≡ disk.old.recipes) }
    ensures call { IsCall (V.cloud_at shelf.old) (V.cloud_at shelf.new) cloud.0
        (V.faults shelf.old) (V.faults shelf.new) }
    ensures failed { OnErr result (HasFailed (V.cloud_at shelf.old cloud.0) (V.cloud_at shelf.new cloud.0)
        (V.faults shelf.old) (V.faults shelf.new)) }
    ensures uncounted { OnOk result (KeepsCounts (V.cloud_at shelf.old cloud.0) (V.cloud_at shelf.new cloud.0)
        (V.faults shelf.old) (V.faults shelf.new)) }
{
    lay_checkpoint(
        disk.journal_mut(),
        shelf,
        cloud,
        header,
        head,
        records,
        buffer,
    )
}
