//! The journal of format 1, found and opened.

ghost use Rattle.std.specs.Prelude.{◌≡◌, ◌<◌, IsTrue, Ok};
ghost use Rattle.fresh_checkpoints.specs.CdEdges.area.Area.{Area};
ghost use Rattle.fresh_checkpoints.specs.CdEdges.Disk.{LeavesOnly, IsImage};
ghost use Rattle.fresh_checkpoints.specs.CdEdges.Shelf.{IsCall, HasFailed, KeepsCounts, Stays};
ghost use Rattle.cloud_opening.specs.CommitJournal.journal.Stage.TheVariants as Stage;
ghost use Rattle.cloud_opening.specs.CommitJournal.Openings.{IsSynced};
ghost use Rattle.cloud_opening.specs.CommitJournal.States.{state_of};
ghost use Rattle.cloud_opening.specs.Synced.{AreSynced};
ghost use Rattle.store_migration.specs.Answers.{OnMigrateFault, IfNoMemory};
ghost use Rattle.store_migration.specs.Finding.{FoundAs, OpenedAs};
ghost use Rattle.store_migration.specs.Steps.{stage_after};

use crate::MigrateErr;
use crate::errors::{unfound, unopened};
use crate::headers::{header_one, is_new};
use cloud_opening::{Journal, sync_all};
use fresh_checkpoints::{CloudNo, Failed, Shape, Shelf};

// The current half, if its start isn't one of format 2 of this cloud. The journal is shut then.
fn find_old<V: Shelf>(
    journal: &mut Journal,
    shelf: &mut V,
    cloud: CloudNo,
    shape: Shape,
) -> Result<u8, MigrateErr>
    ensures found { IsTrue (V.cloud_at shelf.old cloud.0).told
        → FoundAs shape cloud ((V.cloud_at shelf.old cloud.0).now Area.Journal).read result }
    ensures memory { IfNoMemory result ⊥ }
    ensures stage { (state_of journal.new).stage ≡ Stage.Shut }
    ensures limit { (state_of journal.new).limit ≡ (state_of journal.old).limit }
    ensures stays { Stays (V.cloud_at shelf.old cloud.0) (V.cloud_at shelf.new cloud.0) }
    ensures call { IsCall (V.cloud_at shelf.old) (V.cloud_at shelf.new) cloud.0 (V.faults shelf.old)
        (V.faults shelf.new) }
    ensures counts { OnMigrateFault result
        (HasFailed (V.cloud_at shelf.old cloud.0) (V.cloud_at shelf.new cloud.0) (V.faults shelf.old)
        (V.faults shelf.new))
        (KeepsCounts (V.cloud_at shelf.old cloud.0) (V.cloud_at shelf.new cloud.0) (V.faults shelf.old)
        (V.faults shelf.new)) }
{
    match journal.find(shelf, cloud) {
        Ok(found) => {
            if is_new(&found.start.header, shape, cloud) {
                Err(MigrateErr::Already)
            } else {
                Ok(found.half)
            }
        }
        Err(error) => Err(unfound(error)),
    }
}

// Opens the journal of format 1 whose current half was found. After an Err the journal is shut.
fn open_found<V: Shelf>(
    journal: &mut Journal,
    half: u8,
    shelf: &mut V,
    cloud: CloudNo,
    shape: Shape,
) -> Result<u8, MigrateErr>
    requires cloud { cloud.0 < shape.n }
    ensures opened { IsTrue (V.cloud_at shelf.old cloud.0).told
        → IsSynced ((V.cloud_at shelf.old cloud.0).now Area.Journal)
        → FoundAs shape cloud ((V.cloud_at shelf.old cloud.0).now Area.Journal).read (Ok half)
        → OpenedAs shape cloud (state_of journal.new) ((V.cloud_at shelf.old cloud.0).now Area.Journal) result }
    ensures memory { IfNoMemory result ⊥ }
    ensures stage { (state_of journal.new).stage ≡ stage_after Stage.Reading result }
    ensures limit { (state_of journal.new).limit ≡ (state_of journal.old).limit }
    ensures stays { Stays (V.cloud_at shelf.old cloud.0) (V.cloud_at shelf.new cloud.0) }
    ensures call { IsCall (V.cloud_at shelf.old) (V.cloud_at shelf.new) cloud.0 (V.faults shelf.old)
        (V.faults shelf.new) }
    ensures counts { OnMigrateFault result
        (HasFailed (V.cloud_at shelf.old cloud.0) (V.cloud_at shelf.new cloud.0) (V.faults shelf.old)
        (V.faults shelf.new))
        (KeepsCounts (V.cloud_at shelf.old cloud.0) (V.cloud_at shelf.new cloud.0) (V.faults shelf.old)
        (V.faults shelf.new)) }
{
    match journal.open(shelf, cloud, &header_one(shape, cloud), false) {
        Ok(()) => Ok(half),
        Err(error) => Err(unopened(error)),
    }
}

// Opens the journal of format 1, where it was synced. Answers which half is the current one. After an Err the journal is shut.
fn open_synced<V: Shelf>(
    journal: &mut Journal,
    shelf: &mut V,
    cloud: CloudNo,
    shape: Shape,
) -> Result<u8, MigrateErr>
    requires cloud { cloud.0 < shape.n }
    ensures opened { IsTrue (V.cloud_at shelf.old cloud.0).told
        → IsSynced ((V.cloud_at shelf.old cloud.0).now Area.Journal)
        → OpenedAs shape cloud (state_of journal.new) ((V.cloud_at shelf.old cloud.0).now Area.Journal) result }
    ensures memory { IfNoMemory result ⊥ }
    ensures stage { (state_of journal.new).stage ≡ stage_after Stage.Reading result }
    ensures limit { (state_of journal.new).limit ≡ (state_of journal.old).limit }
    ensures stays { Stays (V.cloud_at shelf.old cloud.0) (V.cloud_at shelf.new cloud.0) }
    ensures call { IsCall (V.cloud_at shelf.old) (V.cloud_at shelf.new) cloud.0 (V.faults shelf.old)
        (V.faults shelf.new) }
    ensures counts { OnMigrateFault result
        (HasFailed (V.cloud_at shelf.old cloud.0) (V.cloud_at shelf.new cloud.0) (V.faults shelf.old)
        (V.faults shelf.new))
        (KeepsCounts (V.cloud_at shelf.old cloud.0) (V.cloud_at shelf.new cloud.0) (V.faults shelf.old)
        (V.faults shelf.new)) }
{
    match find_old(journal, shelf, cloud, shape) {
        Ok(half) => open_found(journal, half, shelf, cloud, shape),
        Err(error) => Err(error),
    }
}

/// Syncs the three areas, and opens the journal of format 1. Answers which half is the current one. After an Err the journal is
/// shut.
pub(crate) fn open_old<V: Shelf>(
    journal: &mut Journal,
    shelf: &mut V,
    cloud: CloudNo,
    shape: Shape,
) -> Result<u8, MigrateErr>
    requires cloud { cloud.0 < shape.n }
    ensures any_moment { IsTrue (V.cloud_at shelf.old cloud.0).told
        → LeavesOnly (V.cloud_at shelf.old cloud.0) (V.cloud_at shelf.new cloud.0)
        (IsImage (V.cloud_at shelf.old cloud.0).now) }
    ensures synced { IsTrue (V.cloud_at shelf.old cloud.0).told → OnMigrateFault result (Unit {0})
        (AreSynced (V.cloud_at shelf.old cloud.0) (V.cloud_at shelf.new cloud.0)) }
    ensures opened { IsTrue (V.cloud_at shelf.old cloud.0).told
        → OpenedAs shape cloud (state_of journal.new) ((V.cloud_at shelf.new cloud.0).now Area.Journal) result }
    ensures memory { IfNoMemory result ⊥ }
    ensures stage { (state_of journal.new).stage ≡ stage_after Stage.Reading result }
    ensures limit { (state_of journal.new).limit ≡ (state_of journal.old).limit }
    ensures call { IsCall (V.cloud_at shelf.old) (V.cloud_at shelf.new) cloud.0 (V.faults shelf.old)
        (V.faults shelf.new) }
    ensures counts { OnMigrateFault result
        (HasFailed (V.cloud_at shelf.old cloud.0) (V.cloud_at shelf.new cloud.0) (V.faults shelf.old)
        (V.faults shelf.new))
        (KeepsCounts (V.cloud_at shelf.old cloud.0) (V.cloud_at shelf.new cloud.0) (V.faults shelf.old)
        (V.faults shelf.new)) }
{
    match sync_all(shelf, cloud) {
        Ok(()) => open_synced(journal, shelf, cloud, shape),
        Err(Failed) => {
            journal.shut();
            Err(MigrateErr::Fault)
        }
    }
}
