//! A journal of format 1 that is read into the memory.

ghost use Rattle.std.specs.Prelude.{◌≡◌, ◌<◌, ◌≤◌, [], List, length, IsTrue, IsOk, IfOk, Ok, OnOk, OnErr};
ghost use Rattle.fresh_checkpoints.specs.CdBase.Limits.{recipe_limit};
ghost use Rattle.fresh_checkpoints.specs.CdEdges.area.Area.{Area};
ghost use Rattle.fresh_checkpoints.specs.CdEdges.Disk.{LeavesOnly, IsImage, reads};
ghost use Rattle.fresh_checkpoints.specs.CdEdges.Shelf.{IsCall, HasFailed, KeepsCounts, Stays};
ghost use Rattle.fresh_checkpoints.specs.JournalHalves.Journals.{Where};
ghost use Rattle.cloud_opening.specs.CommitJournal.journal.Stage.TheVariants as Stage;
ghost use Rattle.cloud_opening.specs.CommitJournal.States.{state_of, IsJournalReading, IsJournalEnded};
ghost use Rattle.cloud_opening.specs.JournalStart.Ranges.{usual_rooms};
ghost use Rattle.cloud_opening.specs.UserDedup.command.Command.{Command};
ghost use Rattle.fresh_checkpoints.specs.CloudMemory.Fitting.{FitsRecords};
ghost use Rattle.fresh_checkpoints.specs.CloudMemory.Rooms.{memory_of};
ghost use Rattle.first_laws.specs.FirstRecords.Limits.{HasFirstRooms};
ghost use Rattle.large_users.specs.MigrationModel.Migrating.{MayBeMigrated};
ghost use Rattle.cloud_opening.specs.Steps.{HasChainEnded};
ghost use Rattle.cloud_opening.specs.Synced.{AreSynced};
ghost use Rattle.store_migration.specs.Answers.{OnMigrateFault, IfNoMemory};
ghost use Rattle.store_migration.specs.Exact.{ReadsOld, users_most};
ghost use Rattle.store_migration.specs.Finding.{OpenedAs};
ghost use Rattle.store_migration.specs.Reading.{IsReadFirst};
ghost use Rattle.store_migration.specs.Steps.{past_err, stage_after, HasReadAll, IsOfFirstRecords, IsReadWholeOne};
ghost use Rattle.store_migration.specs.Steps.{LoadsAs};

use crate::finding::open_old;
use crate::records::take_all;
use crate::{MigrateErr, OldErr};
use cloud_opening::{Journal, UserRooms};
use first_laws::{CloudMemory, Ground};
use fresh_checkpoints::{Area, CloudNo, Failed, HALF_LEN, Shape, Shelf};

// The first place of the recipes' end in a start's record.
const RECIPES_END: u64 = 33;

// What is known before the records.
fn survey<V: Shelf>(shelf: &mut V, cloud: CloudNo, shape: Shape) -> Result<Ground, Failed>
    ensures known { IfOk result (λ ground. (ground.shape ≡ shape) × (ground.rooms ≡ usual_rooms)
        × (ground.region ≡ 0)) }
    ensures lengths { IsTrue (V.cloud_at shelf.old cloud.0).told → IfOk result (λ ground.
        (ground.shares_len ≡ length ((V.cloud_at shelf.old cloud.0).now Area.Shares).read)
        × (ground.recipes_len ≡ length ((V.cloud_at shelf.old cloud.0).now Area.Recipes).read)) }
    ensures stays { Stays (V.cloud_at shelf.old cloud.0) (V.cloud_at shelf.new cloud.0) }
    ensures call { IsCall (V.cloud_at shelf.old) (V.cloud_at shelf.new) cloud.0 (V.faults shelf.old)
        (V.faults shelf.new) }
    ensures failed { OnErr result
        (HasFailed (V.cloud_at shelf.old cloud.0) (V.cloud_at shelf.new cloud.0) (V.faults shelf.old)
        (V.faults shelf.new)) }
    ensures uncounted { OnOk result
        (KeepsCounts (V.cloud_at shelf.old cloud.0) (V.cloud_at shelf.new cloud.0) (V.faults shelf.old)
        (V.faults shelf.new)) }
{
    let shares_len = shelf.len(cloud, Area::Shares)?;
    let recipes_len = shelf.len(cloud, Area::Recipes)?;
    Ok(Ground {
        shape,
        rooms: UserRooms::usual(),
        region: 0,
        shares_len,
        recipes_len,
    })
}

// The damage of the recipes' end in the start of a half.
fn past_end(half: u8, end: u64) -> OldErr
    ensures { result ≡ past_err half end }
{
    OldErr::Damaged {
        at: u64::from(half) * HALF_LEN + RECIPES_END,
        byte: end.to_be_bytes()[0],
    }
}

// Takes the records behind the journal's start into a memory of no commands. After an Err the journal is shut.
fn load<V: Shelf>(
    journal: &mut Journal,
    memory: &mut CloudMemory,
    ground: &Ground,
    half: u8,
    shelf: &mut V,
    cloud: CloudNo,
    buffer: &mut [u8],
) -> Result<(), MigrateErr>
    requires reading { (state_of journal.old).stage ≡ Stage.Reading }
    requires rooms { HasFirstRooms memory.old }
    requires users { length memory.old.spent ≡ users_most }
    requires buffer { recipe_limit ≤ length buffer.old }
    ensures exact { IsTrue (V.cloud_at shelf.old cloud.0).told → (w : Where)
        → IsJournalReading (state_of journal.old) ((V.cloud_at shelf.old cloud.0).now Area.Journal) w → w.bodies ≡ []
        → LoadsAs ground.now half ((V.cloud_at shelf.old cloud.0).now Area.Recipes).read
        ((V.cloud_at shelf.old cloud.0).now Area.Journal) (state_of journal.old) (memory_of memory.new) result }
    ensures ended { IsTrue (V.cloud_at shelf.old cloud.0).told → (w : Where)
        → IsJournalReading (state_of journal.old) ((V.cloud_at shelf.old cloud.0).now Area.Journal) w → w.bodies ≡ []
        → OnOk result (HasChainEnded (state_of journal.new) ((V.cloud_at shelf.old cloud.0).now Area.Journal) w) }
    ensures fit { OnOk result (FitsRecords (memory_of memory.new)) }
    ensures rooms { HasFirstRooms memory.new }
    ensures users { OnOk result (length memory.new.spent ≡ users_most) }
    ensures stage { (state_of journal.new).stage ≡ stage_after Stage.AtEnd result }
    ensures limit { (state_of journal.new).limit ≡ (state_of journal.old).limit }
    ensures kind { IsOfFirstRecords result }
    ensures stays { Stays (V.cloud_at shelf.old cloud.0) (V.cloud_at shelf.new cloud.0) }
    ensures call { IsCall (V.cloud_at shelf.old) (V.cloud_at shelf.new) cloud.0 (V.faults shelf.old)
        (V.faults shelf.new) }
    ensures counts { OnMigrateFault result
        (HasFailed (V.cloud_at shelf.old cloud.0) (V.cloud_at shelf.new cloud.0) (V.faults shelf.old)
        (V.faults shelf.new))
        (KeepsCounts (V.cloud_at shelf.old cloud.0) (V.cloud_at shelf.new cloud.0) (V.faults shelf.old)
        (V.faults shelf.new)) }
{
    let end = journal.start().recipes_end();
    if ground.recipes_len < end {
        journal.shut();
        return Err(MigrateErr::Open(past_end(half, end)));
    }
    memory.clear_behind(end);
    take_all(journal, memory, ground, shelf, cloud, buffer)
}

// Reads the journal that was opened. After an Err it is shut.
fn read_opened<V: Shelf>(
    journal: &mut Journal,
    memory: &mut CloudMemory,
    half: u8,
    shelf: &mut V,
    cloud: CloudNo,
    shape: Shape,
    buffer: &mut [u8],
) -> Result<(), MigrateErr>
    requires reading { (state_of journal.old).stage ≡ Stage.Reading }
    requires rooms { HasFirstRooms memory.old }
    requires users { length memory.old.spent ≡ users_most }
    requires buffer { recipe_limit ≤ length buffer.old }
    ensures exact { IsTrue (V.cloud_at shelf.old cloud.0).told
        → OpenedAs shape cloud (state_of journal.old) ((V.cloud_at shelf.old cloud.0).now Area.Journal) (Ok half)
        → OnMigrateFault result (Unit {0})
        (ReadsOld shape cloud (reads (V.cloud_at shelf.old cloud.0).now) (memory_of memory.new) result) }
    ensures read { IsTrue (V.cloud_at shelf.old cloud.0).told
        → OpenedAs shape cloud (state_of journal.old) ((V.cloud_at shelf.old cloud.0).now Area.Journal) (Ok half)
        → OnOk result (HasReadAll shape cloud (state_of journal.new) (memory_of memory.new)
        (V.cloud_at shelf.old cloud.0)) }
    ensures fit { OnOk result (FitsRecords (memory_of memory.new)) }
    ensures rooms { HasFirstRooms memory.new }
    ensures unspent { OnOk result (length memory.new.spent ≡ users_most) }
    ensures memory { IfNoMemory result ⊥ }
    ensures stage { (state_of journal.new).stage ≡ stage_after Stage.AtEnd result }
    ensures limit { (state_of journal.new).limit ≡ (state_of journal.old).limit }
    ensures stays { Stays (V.cloud_at shelf.old cloud.0) (V.cloud_at shelf.new cloud.0) }
    ensures call { IsCall (V.cloud_at shelf.old) (V.cloud_at shelf.new) cloud.0 (V.faults shelf.old)
        (V.faults shelf.new) }
    ensures counts { OnMigrateFault result
        (HasFailed (V.cloud_at shelf.old cloud.0) (V.cloud_at shelf.new cloud.0) (V.faults shelf.old)
        (V.faults shelf.new))
        (KeepsCounts (V.cloud_at shelf.old cloud.0) (V.cloud_at shelf.new cloud.0) (V.faults shelf.old)
        (V.faults shelf.new)) }
{
    match survey(shelf, cloud, shape) {
        Ok(ground) => load(journal, memory, &ground, half, shelf, cloud, buffer),
        Err(Failed) => {
            journal.shut();
            Err(MigrateErr::Fault)
        }
    }
}

// Syncs the three areas, and reads the cloud's journal of format 1 into the memory. After an Err the journal is shut.
fn read_journal<V: Shelf>(
    journal: &mut Journal,
    memory: &mut CloudMemory,
    shelf: &mut V,
    cloud: CloudNo,
    shape: Shape,
    buffer: &mut [u8],
) -> Result<(), MigrateErr>
    requires cloud { cloud.0 < shape.n }
    requires rooms { HasFirstRooms memory.old }
    requires users { length memory.old.spent ≡ users_most }
    requires buffer { recipe_limit ≤ length buffer.old }
    ensures any_moment { IsTrue (V.cloud_at shelf.old cloud.0).told
        → LeavesOnly (V.cloud_at shelf.old cloud.0) (V.cloud_at shelf.new cloud.0)
        (IsImage (V.cloud_at shelf.old cloud.0).now) }
    ensures synced { IsTrue (V.cloud_at shelf.old cloud.0).told → OnMigrateFault result (Unit {0})
        (AreSynced (V.cloud_at shelf.old cloud.0) (V.cloud_at shelf.new cloud.0)) }
    // whatever the bytes of the areas are
    ensures exact { IsTrue (V.cloud_at shelf.old cloud.0).told → OnMigrateFault result (Unit {0})
        (ReadsOld shape cloud (reads (V.cloud_at shelf.old cloud.0).now) (memory_of memory.new) result) }
    ensures read { IsTrue (V.cloud_at shelf.old cloud.0).told → OnOk result
        (IsReadWholeOne shape cloud (state_of journal.new) (memory_of memory.new) (V.cloud_at shelf.new cloud.0)) }
    ensures ended { IsTrue (V.cloud_at shelf.old cloud.0).told → OnOk result ((w : Where)
        × IsJournalEnded (state_of journal.new) ((V.cloud_at shelf.new cloud.0).now Area.Journal) w) }
    ensures fit { OnOk result (FitsRecords (memory_of memory.new)) }
    ensures rooms { HasFirstRooms memory.new }
    ensures unspent { OnOk result (length memory.new.spent ≡ users_most) }
    ensures buffer { length buffer.new ≡ length buffer.old }
    ensures memory { IfNoMemory result ⊥ }
    ensures stage { (state_of journal.new).stage ≡ stage_after Stage.AtEnd result }
    ensures limit { (state_of journal.new).limit ≡ (state_of journal.old).limit }
    ensures call { IsCall (V.cloud_at shelf.old) (V.cloud_at shelf.new) cloud.0 (V.faults shelf.old)
        (V.faults shelf.new) }
    ensures counts { OnMigrateFault result
        (HasFailed (V.cloud_at shelf.old cloud.0) (V.cloud_at shelf.new cloud.0) (V.faults shelf.old)
        (V.faults shelf.new))
        (KeepsCounts (V.cloud_at shelf.old cloud.0) (V.cloud_at shelf.new cloud.0) (V.faults shelf.old)
        (V.faults shelf.new)) }
{
    match open_old(journal, shelf, cloud, shape) {
        Ok(half) => read_opened(journal, memory, half, shelf, cloud, shape, buffer),
        Err(error) => Err(error),
    }
}

/// Syncs the three areas, and reads the cloud's journal of format 1 into the memory. After an Err the journal is shut.
pub(crate) fn read_old<V: Shelf>(
    journal: &mut Journal,
    memory: &mut CloudMemory,
    shelf: &mut V,
    cloud: CloudNo,
    shape: Shape,
    buffer: &mut [u8],
) -> Result<(), MigrateErr>
    requires cloud { cloud.0 < shape.n }
    requires rooms { HasFirstRooms memory.old }
    requires users { length memory.old.spent ≡ users_most }
    requires buffer { recipe_limit ≤ length buffer.old }
    ensures any_moment { IsTrue (V.cloud_at shelf.old cloud.0).told
        → LeavesOnly (V.cloud_at shelf.old cloud.0) (V.cloud_at shelf.new cloud.0)
        (IsImage (V.cloud_at shelf.old cloud.0).now) }
    ensures synced { IsTrue (V.cloud_at shelf.old cloud.0).told → OnMigrateFault result (Unit {0})
        (AreSynced (V.cloud_at shelf.old cloud.0) (V.cloud_at shelf.new cloud.0)) }
    // whatever the bytes of the areas are
    ensures exact { IsTrue (V.cloud_at shelf.old cloud.0).told → OnMigrateFault result (Unit {0})
        (ReadsOld shape cloud (reads (V.cloud_at shelf.old cloud.0).now) (memory_of memory.new) result) }
    // by each list that the cloud stands for in format 1
    ensures read { (list : List Command) → MayBeMigrated shape cloud list (V.cloud_at shelf.old cloud.0)
        → OnMigrateFault result (Unit {0}) (OnOk result
        (IsReadFirst shape cloud list (state_of journal.new) (memory_of memory.new) (V.cloud_at shelf.new cloud.0))) }
    ensures whole { (list : List Command) → MayBeMigrated shape cloud list (V.cloud_at shelf.old cloud.0)
        → OnMigrateFault result (Unit {0}) (IsOk result) }
    ensures ended { IsTrue (V.cloud_at shelf.old cloud.0).told → OnOk result ((w : Where)
        × IsJournalEnded (state_of journal.new) ((V.cloud_at shelf.new cloud.0).now Area.Journal) w) }
    ensures fit { OnOk result (FitsRecords (memory_of memory.new)) }
    ensures rooms { HasFirstRooms memory.new }
    ensures unspent { OnOk result (length memory.new.spent ≡ users_most) }
    ensures buffer { length buffer.new ≡ length buffer.old }
    ensures memory { IfNoMemory result ⊥ }
    ensures stage { (state_of journal.new).stage ≡ stage_after Stage.AtEnd result }
    ensures limit { (state_of journal.new).limit ≡ (state_of journal.old).limit }
    ensures call { IsCall (V.cloud_at shelf.old) (V.cloud_at shelf.new) cloud.0 (V.faults shelf.old)
        (V.faults shelf.new) }
    ensures counts { OnMigrateFault result
        (HasFailed (V.cloud_at shelf.old cloud.0) (V.cloud_at shelf.new cloud.0) (V.faults shelf.old)
        (V.faults shelf.new))
        (KeepsCounts (V.cloud_at shelf.old cloud.0) (V.cloud_at shelf.new cloud.0) (V.faults shelf.old)
        (V.faults shelf.new)) }
{
    read_journal(journal, memory, shelf, cloud, shape, buffer)
}
