//! The journal of a cloud whose areas are synced first.

ghost use Rattle.std.specs.Prelude.{◌≡◌, ◌≤◌, IsTrue, OnOk};
ghost use Rattle.cloud_disk.specs.CdEdges.Shelf.{IsCall, HasFailed, KeepsCounts};
ghost use Rattle.cloud_disk.specs.JournalStart.Ranges.{IsHeader};
ghost use Rattle.cloud_disk.specs.JournalStart.Spelling.{region_of};
ghost use Rattle.cloud_disk.specs.CommitJournal.journal.Stage.TheVariants.{Reading};
ghost use Rattle.cloud_disk.specs.CommitJournal.States.{state_of};
ghost use Rattle.cloud_disk.specs.CommitJournal.Openings.{OnFault, HasBegun};
ghost use Rattle.cloud_disk.specs.CommitJournal.Outcomes.{stage_after};
ghost use Rattle.cloud_opening.specs.Starts.{IsStarted};

use crate::syncs::sync_all;
use cloud_disk::{CloudNo, Failed, Header, Journal, OpenErr, Shelf};

/// Syncs the three areas, and then opens the journal, or begins it where no half is begun and `begin` is true. After an Err the
/// journal is shut.
pub(crate) fn open_journal<V: Shelf>(
    journal: &mut Journal,
    shelf: &mut V,
    cloud: CloudNo,
    header: &Header,
    begin: bool,
) -> Result<(), OpenErr>
    requires { IsHeader header.now }
    ensures started { IsTrue (V.cloud_at shelf.old cloud.0).told
        → IsStarted header.now begin (V.cloud_at shelf.old cloud.0) (V.cloud_at shelf.new cloud.0)
        (state_of journal.new) result }
    ensures begins { IsTrue begin → HasBegun result }
    ensures small { OnOk result (region_of (state_of journal.new).start.checkpoint ≤ 1) }
    ensures stage { (state_of journal.new).stage ≡ stage_after Reading result }
    ensures limit { (state_of journal.new).limit ≡ (state_of journal.old).limit }
    ensures call { IsCall (V.cloud_at shelf.old) (V.cloud_at shelf.new) cloud.0 (V.faults shelf.old)
        (V.faults shelf.new) }
    ensures counts { OnFault result
        (HasFailed (V.cloud_at shelf.old cloud.0) (V.cloud_at shelf.new cloud.0) (V.faults shelf.old)
        (V.faults shelf.new))
        (KeepsCounts (V.cloud_at shelf.old cloud.0) (V.cloud_at shelf.new cloud.0) (V.faults shelf.old)
        (V.faults shelf.new)) }
{
    match sync_all(shelf, cloud) {
        Ok(()) => journal.open(shelf, cloud, header, begin),
        Err(Failed) => {
            journal.shut();
            Err(OpenErr::Fault)
        }
    }
}
