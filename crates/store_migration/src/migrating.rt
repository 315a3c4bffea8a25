//! The migration of a cloud.

ghost use Rattle.std.specs.Prelude.{◌≡◌, ◌<◌, ◌≤◌, ◌+◌, ℕ, List, IsTrue, IfOk, OnOk};
ghost use Rattle.fresh_checkpoints.specs.CdBase.ids.CloudNo.{CloudNo as OneCloud};
ghost use Rattle.fresh_checkpoints.specs.CdBase.shape.Shape.{Shape as OfStore};
ghost use Rattle.fresh_checkpoints.specs.CdEdges.area.Area.TheVariants.{Journal as OfJournal};
ghost use Rattle.fresh_checkpoints.specs.CdEdges.Disk.{Image, Cloud, IsImage, LeavesOnly, reads};
ghost use Rattle.fresh_checkpoints.specs.CdEdges.Shelf.{IsCall, HasFailed, KeepsCounts};
ghost use Rattle.cloud_opening.specs.JournalStart.Ranges.{AreRooms, IsHeader};
ghost use Rattle.cloud_opening.specs.JournalStart.start.Header.{Header as Heading};
ghost use Rattle.fresh_checkpoints.specs.JournalHalves.Halves.{half_limit};
ghost use Rattle.fresh_checkpoints.specs.JournalHalves.Journals.{Where};
ghost use Rattle.cloud_opening.specs.CommitJournal.journal.Stage.TheVariants as Stage;
ghost use Rattle.cloud_opening.specs.CommitJournal.States as journals;
ghost use Rattle.cloud_opening.specs.SpentTable.Spent.{Spent as Row};
ghost use Rattle.cloud_opening.specs.UserDedup.command.Command.{Command};
ghost use Rattle.cloud_opening.specs.UserDedup.Compact.{compact};
ghost use Rattle.cloud_opening.specs.UserDedup.Dedup.{IsSound};
ghost use Rattle.fresh_checkpoints.specs.CloudAreas.Standing.{Chain, StandsFor};
ghost use Rattle.fresh_checkpoints.specs.CloudMemory.Fitting.{FitsRecords};
ghost use Rattle.fresh_checkpoints.specs.CloudMemory.Memory.{Remembers};
ghost use Rattle.fresh_checkpoints.specs.CloudMemory.Rooms.{memory_of};
ghost use Rattle.fresh_checkpoints.specs.Checkpoints.Known.{AreListed};
ghost use Rattle.fresh_checkpoints.specs.Checkpoints.Laying.{records_len};
ghost use Rattle.fresh_checkpoints.specs.Checkpoints.Records.{records_of};
ghost use Rattle.fresh_checkpoints.specs.CompactMemories.Kept.{IsCompacted, commands_in};
ghost use Rattle.fresh_checkpoints.specs.CompactMemories.Tables.{with_table};
ghost use Rattle.fresh_checkpoints.specs.Fresh.{IsNextMemory};
ghost use Rattle.fresh_checkpoints.specs.Switching.{IsReadOne, IsMigrating};
ghost use Rattle.cloud_opening.specs.Synced.{AreSynced, BeginsSynced};
ghost use Rattle.large_users.specs.MigrationModel.Migrating.{MayBeMigrated, EachBegunOne, IsBetween};
ghost use Rattle.large_users.specs.MigrationModel.Migrating as model;
ghost use Rattle.store_migration.specs.Answers.{MigratedAs, OnMigrateFault, IfAnswered, IfRefused, IfNoMemory};
ghost use Rattle.store_migration.specs.Exact.{Migrates};
ghost use Rattle.store_migration.specs.Judging.{MemoryJudgedAs, JudgedBy, SettledAs, TakenOverAs, MomentsGoOn};
ghost use Rattle.store_migration.specs.Kit.{HasFirst, IsKit};
ghost use Rattle.store_migration.specs.Left.{checkpoint_for, HasEitherPlace, IsLaidFrom, IfLaid, IsLeftBy};
ghost use Rattle.store_migration.specs.Reading.{IsReadFirst};
ghost use Rattle.store_migration.specs.declared.errors.MigrateErr.TheVariants as why;

use crate::MigrateErr;
use crate::headers::header_two;
use crate::kit::Kit;
use crate::reading::read_old;
use cloud_opening::{Header, UserRooms};
use fresh_checkpoints::{
    CheckpointSpace, CloudMemory, CloudNo, NextList, NoMemory, Shape, Shelf, commands_of_compact,
    lay_fresh, make_compact,
};
use large_users::laws::{law_of_compacted_fits, law_of_compacted_room};
use large_users::{TooLarge, first_too_large};
use std::alloc::Global;

// The slots of a memory's tables list what they have.
fn slots_list(memory: &CloudMemory)
    ensures { AreListed memory.now }
{
    let _ = memory.shares().place_at(0);
    let _ = memory.shares().owner_at(0);
    let _ = memory.files().entry_at(0);
}

// Takes out of the memory what no user owns. Answers how many commands the rest has.
fn take_out(memory: &mut CloudMemory) -> u64
    requires first { HasFirst memory.old }
    requires fit { FitsRecords (memory_of memory.old) }
    ensures number { result ≡ commands_in (memory_of memory.old) }
    ensures compacted { IsCompacted memory.old (memory_of memory.new) }
    ensures listed { AreListed memory.old }
    ensures first { HasFirst memory.new }
    ensures fit { FitsRecords (memory_of memory.new) }
{
    slots_list(memory);
    law_of_compacted_fits();
    let commands = commands_of_compact(memory);
    make_compact(memory);
    commands
}

// A user that keeps too much, as an answer.
fn refusal(large: TooLarge) -> MigrateErr
    ensures { result ≡ why.TooLarge large.user large.room large.used large.limit }
{
    MigrateErr::TooLarge {
        user: large.user,
        room: large.room,
        used: large.used,
        limit: large.limit,
    }
}

// Takes out of the memory what no user owns, and says which user keeps too much, if one does. Else the rest is the
// memory of the compact list, whose checkpoint a half has room for; answers how many commands it has.
fn judge(memory: &mut CloudMemory, rooms: &UserRooms) -> Result<u64, MigrateErr>
    requires rooms { AreRooms rooms.now }
    requires first { HasFirst memory.old }
    requires fit { FitsRecords (memory_of memory.old) }
    ensures judged { MemoryJudgedAs rooms.now (memory_of memory.old) result }
    ensures compacted { OnOk result (IsCompacted memory.old (memory_of memory.new)) }
    ensures by_list { (shape : OfStore) (cloud : ℕ) (list : List Command) (table : List Row) → IsSound shape cloud list
        → Remembers shape list (with_table table (memory_of memory.old)) → JudgedBy shape rooms.now list result }
    ensures next { (shape : OfStore) (cloud : OneCloud) (list : List Command) (journal : journals.JournalState)
        (at : Cloud)
        → IsReadFirst shape cloud list journal (memory_of memory.old) at
        → IfOk result (λ commands. IsNextMemory (model.header_two shape cloud rooms.now) (compact shape list) commands 0
        memory.new at) }
    ensures short { OnOk result (63 + records_len (records_of memory.new) ≤ half_limit rooms.now) }
    ensures first { HasFirst memory.new }
    ensures fit { FitsRecords (memory_of memory.new) }
{
    let commands = take_out(memory);
    law_of_compacted_room();
    match first_too_large(memory, rooms) {
        Some(large) => Err(refusal(large)),
        None => Ok(commands),
    }
}

// Puts a checkpoint of the memory in the place of the journal's chain. Answers how many commands it has.
fn settle<V: Shelf>(
    kit: &mut Kit,
    shelf: &mut V,
    cloud: CloudNo,
    header: &Header,
    commands: u64,
) -> Result<u64, MigrateErr>
    requires at_end { (journals.state_of kit.old.journal).stage ≡ Stage.AtEnd }
    requires limit { (journals.state_of kit.old.journal).limit ≡ half_limit header.now.rooms }
    requires header { IsHeader header.now }
    requires format { header.now.format ≡ 2 }
    requires first { HasFirst kit.old.memory }
    requires fit { FitsRecords (memory_of kit.old.memory) }
    requires short { 63 + records_len (records_of kit.old.memory) ≤ half_limit header.now.rooms }
    ensures any_moment { (one : Heading) (list other : List Command) (c : Chain)
        → IsReadOne one list c (journals.state_of kit.old.journal) (V.cloud_at shelf.old cloud.0)
        → IsNextMemory header.now other commands 0 kit.old.memory (V.cloud_at shelf.old cloud.0)
        → LeavesOnly (V.cloud_at shelf.old cloud.0) (V.cloud_at shelf.new cloud.0)
        (IsMigrating one list header.now other) }
    ensures migrated { (one : Heading) (list other : List Command) (c : Chain)
        → IsReadOne one list c (journals.state_of kit.old.journal) (V.cloud_at shelf.old cloud.0)
        → IsNextMemory header.now other commands 0 kit.old.memory (V.cloud_at shelf.old cloud.0)
        → OnOk result ((image : Image) → IsImage (V.cloud_at shelf.new cloud.0).now image
        → StandsFor image header.now other) }
    ensures settled { SettledAs commands result }
    ensures goes_on { IsTrue (V.cloud_at shelf.old cloud.0).told → (w : Where)
        → journals.IsJournalEnded (journals.state_of kit.old.journal) ((V.cloud_at shelf.old cloud.0).now OfJournal) w
        → MomentsGoOn (V.cloud_at shelf.old cloud.0) (V.cloud_at shelf.new cloud.0) }
    ensures laid { IsTrue (V.cloud_at shelf.old cloud.0).told → (w : Where)
        → journals.IsJournalEnded (journals.state_of kit.old.journal) ((V.cloud_at shelf.old cloud.0).now OfJournal) w
        → HasEitherPlace w (checkpoint_for header.now commands kit.old.memory w) (V.cloud_at shelf.old cloud.0)
        (V.cloud_at shelf.new cloud.0) result }
    ensures call { IsCall (V.cloud_at shelf.old) (V.cloud_at shelf.new) cloud.0 (V.faults shelf.old)
        (V.faults shelf.new) }
    ensures counts { OnMigrateFault result
        (HasFailed (V.cloud_at shelf.old cloud.0) (V.cloud_at shelf.new cloud.0) (V.faults shelf.old)
        (V.faults shelf.new))
        (KeepsCounts (V.cloud_at shelf.old cloud.0) (V.cloud_at shelf.new cloud.0) (V.faults shelf.old)
        (V.faults shelf.new)) }
{
    let next = NextList {
        commands,
        region: 0,
    };
    let space = CheckpointSpace {
        chains: &mut kit.chains,
        marks: &mut kit.marks,
        buffer: &mut kit.body,
    };
    let laid = lay_fresh(
        &kit.memory,
        next,
        &mut kit.journal,
        shelf,
        cloud,
        header,
        space,
    );
    match laid {
        Ok(()) => Ok(commands),
        // what no room refuses is never too long
        Err(_) => Err(MigrateErr::Fault),
    }
}

// With the journal read into the memory: refuses where a user keeps too much, and else puts a checkpoint of what is
// kept in the chain's place. Answers how many commands it has.
fn take_over<V: Shelf>(
    kit: &mut Kit,
    shelf: &mut V,
    cloud: CloudNo,
    shape: Shape,
    rooms: &UserRooms,
) -> Result<u64, MigrateErr>
    requires cloud { cloud.0 < shape.n }
    requires rooms { AreRooms rooms.now }
    requires first { HasFirst kit.old.memory }
    requires fit { FitsRecords (memory_of kit.old.memory) }
    requires at_end { (journals.state_of kit.old.journal).stage ≡ Stage.AtEnd }
    requires limit { (journals.state_of kit.old.journal).limit ≡ half_limit rooms.now }
    ensures any_moment { (list : List Command)
        → IsReadFirst shape cloud list (journals.state_of kit.old.journal) (memory_of kit.old.memory)
        (V.cloud_at shelf.old cloud.0)
        → EachBegunOne (model.header_one shape cloud) list (V.cloud_at shelf.old cloud.0)
        → LeavesOnly (V.cloud_at shelf.old cloud.0) (V.cloud_at shelf.new cloud.0)
        (IsBetween shape cloud rooms.now list) }
    ensures migrated { (list : List Command)
        → IsReadFirst shape cloud list (journals.state_of kit.old.journal) (memory_of kit.old.memory)
        (V.cloud_at shelf.old cloud.0)
        → MigratedAs shape cloud rooms.now list (V.cloud_at shelf.new cloud.0) result }
    ensures taken_over { TakenOverAs rooms.now (memory_of kit.old.memory) result }
    ensures goes_on { IsTrue (V.cloud_at shelf.old cloud.0).told → (w : Where)
        → journals.IsJournalEnded (journals.state_of kit.old.journal) ((V.cloud_at shelf.old cloud.0).now OfJournal) w
        → MomentsGoOn (V.cloud_at shelf.old cloud.0) (V.cloud_at shelf.new cloud.0) }
    ensures laid { IsTrue (V.cloud_at shelf.old cloud.0).told → (w : Where)
        → journals.IsJournalEnded (journals.state_of kit.old.journal) ((V.cloud_at shelf.old cloud.0).now OfJournal) w
        → IfLaid result (IsLaidFrom (model.header_two shape cloud rooms.now) kit.old.memory w
        (V.cloud_at shelf.old cloud.0) (V.cloud_at shelf.new cloud.0) result) }
    ensures spared { IfRefused result (shelf.new ≡ shelf.old) }
    ensures call { IsCall (V.cloud_at shelf.old) (V.cloud_at shelf.new) cloud.0 (V.faults shelf.old)
        (V.faults shelf.new) }
    ensures counts { OnMigrateFault result
        (HasFailed (V.cloud_at shelf.old cloud.0) (V.cloud_at shelf.new cloud.0) (V.faults shelf.old)
        (V.faults shelf.new))
        (KeepsCounts (V.cloud_at shelf.old cloud.0) (V.cloud_at shelf.new cloud.0) (V.faults shelf.old)
        (V.faults shelf.new)) }
{
    match judge(&mut kit.memory, rooms) {
        Ok(commands) => settle(
            kit,
            shelf,
            cloud,
            &header_two(shape, cloud, rooms),
            commands,
        ),
        Err(error) => Err(error),
    }
}

// Migrates the cloud, with all memory taken.
fn migrate_with<V: Shelf>(
    kit: &mut Kit,
    shelf: &mut V,
    cloud: CloudNo,
    shape: Shape,
    rooms: &UserRooms,
) -> Result<u64, MigrateErr>
    requires cloud { cloud.0 < shape.n }
    requires rooms { AreRooms rooms.now }
    requires kit { IsKit rooms.now kit.old }
    ensures any_moment { (list : List Command) → MayBeMigrated shape cloud list (V.cloud_at shelf.old cloud.0)
        → LeavesOnly (V.cloud_at shelf.old cloud.0) (V.cloud_at shelf.new cloud.0)
        (IsBetween shape cloud rooms.now list) }
    ensures migrated { (list : List Command) → MayBeMigrated shape cloud list (V.cloud_at shelf.old cloud.0)
        → MigratedAs shape cloud rooms.now list (V.cloud_at shelf.new cloud.0) result }
    ensures exact { IsTrue (V.cloud_at shelf.old cloud.0).told → IfAnswered result
        (Migrates shape cloud rooms.now (reads (V.cloud_at shelf.old cloud.0).now) result) }
    ensures spared { IsTrue (V.cloud_at shelf.old cloud.0).told → IfRefused result
        (AreSynced (V.cloud_at shelf.old cloud.0) (V.cloud_at shelf.new cloud.0)) }
    ensures synced_first { IsTrue (V.cloud_at shelf.old cloud.0).told → IfAnswered result
        (BeginsSynced (V.cloud_at shelf.old cloud.0) (V.cloud_at shelf.new cloud.0)) }
    ensures left { IsTrue (V.cloud_at shelf.old cloud.0).told
        → IsLeftBy shape cloud rooms.now (V.cloud_at shelf.old cloud.0) (V.cloud_at shelf.new cloud.0) result }
    ensures memory { IfNoMemory result ⊥ }
    ensures call { IsCall (V.cloud_at shelf.old) (V.cloud_at shelf.new) cloud.0 (V.faults shelf.old)
        (V.faults shelf.new) }
    ensures counts { OnMigrateFault result
        (HasFailed (V.cloud_at shelf.old cloud.0) (V.cloud_at shelf.new cloud.0) (V.faults shelf.old)
        (V.faults shelf.new))
        (KeepsCounts (V.cloud_at shelf.old cloud.0) (V.cloud_at shelf.new cloud.0) (V.faults shelf.old)
        (V.faults shelf.new)) }
{
    match read_old(
        &mut kit.journal,
        &mut kit.memory,
        shelf,
        cloud,
        shape,
        kit.recipe.as_mut_slice(),
    ) {
        Ok(()) => take_over(kit, shelf, cloud, shape, rooms),
        Err(error) => Err(error),
    }
}

/// Takes a cloud of format 1 over into format 2, with these rooms; answers how many commands what is kept has. Its
/// three areas are synced first, and its journal is read; then a checkpoint of what is kept is written into the half
/// of the journal that isn't current. No other area is written. All memory is taken before the first device call.
///
/// For each list that the cloud stands for in format 1, it stands for the list, or in format 2 for its compact list,
/// whenever a crash comes, and after Ok for the compact list alone. Where no device call fails and there is memory,
/// the bytes of the areas give the answer:
///
/// - `Open(NotBegun)`, `Open(Damaged)`: of the halves' starts, as for an opening.
/// - `Already`: the current half has a start of format 2, of this shape and this cloud, whatever its rooms are.
/// - `Open(OtherStore)`: the current half has another header than that of format 1 of this cloud.
/// - `Open(Damaged)`: the start says that recipes end past their area (the first place of that field); or a record is
///   damaged, as `first_records` says, or the chain ends before all records of its checkpoint.
/// - `Open(RoomsTooSmall)`: a record passes a room that format 1 had.
/// - `TooLarge`: the least user that keeps more than it may, and its first room of owners, shares, recipes and files.
///
/// Whatever a told cloud stands for, Shares and Recipes are only read and synced: each image since is as before, or the journal
/// has the chain that was read or, whole, the checkpoint of what its records leave without what no user owns; after Ok it has
/// the checkpoint (`left`).
///
/// After `NoMemory` nothing was done, and after any other of these the three syncs were made and nothing else.
/// `Fault` comes only where the cloud's count of faults rose: the cloud is as it was, or migrated.
pub fn migrate<V: Shelf>(
    alloc: Global,
    shelf: &mut V,
    cloud: CloudNo,
    shape: Shape,
    rooms: UserRooms,
) -> Result<u64, MigrateErr>
    requires cloud { cloud.0 < shape.n }
    requires rooms { AreRooms rooms }

    // by each list that the cloud stands for in format 1
    ensures any_moment { (list : List Command) → MayBeMigrated shape cloud list (V.cloud_at shelf.old cloud.0)
        → LeavesOnly (V.cloud_at shelf.old cloud.0) (V.cloud_at shelf.new cloud.0) (IsBetween shape cloud rooms list) }
    ensures migrated { (list : List Command) → MayBeMigrated shape cloud list (V.cloud_at shelf.old cloud.0)
        → MigratedAs shape cloud rooms list (V.cloud_at shelf.new cloud.0) result }

    // whatever the bytes of the areas are
    ensures exact { IsTrue (V.cloud_at shelf.old cloud.0).told → IfAnswered result
        (Migrates shape cloud rooms (reads (V.cloud_at shelf.old cloud.0).now) result) }
    ensures spared { IsTrue (V.cloud_at shelf.old cloud.0).told → IfRefused result
        (AreSynced (V.cloud_at shelf.old cloud.0) (V.cloud_at shelf.new cloud.0)) }
    ensures synced_first { IsTrue (V.cloud_at shelf.old cloud.0).told → IfAnswered result
        (BeginsSynced (V.cloud_at shelf.old cloud.0) (V.cloud_at shelf.new cloud.0)) }
    ensures left { IsTrue (V.cloud_at shelf.old cloud.0).told
        → IsLeftBy shape cloud rooms (V.cloud_at shelf.old cloud.0) (V.cloud_at shelf.new cloud.0) result }
    ensures undone { IfNoMemory result (shelf.new ≡ shelf.old) }
    ensures call { IsCall (V.cloud_at shelf.old) (V.cloud_at shelf.new) cloud.0 (V.faults shelf.old)
        (V.faults shelf.new) }
    ensures counts { OnMigrateFault result
        (HasFailed (V.cloud_at shelf.old cloud.0) (V.cloud_at shelf.new cloud.0) (V.faults shelf.old)
        (V.faults shelf.new))
        (KeepsCounts (V.cloud_at shelf.old cloud.0) (V.cloud_at shelf.new cloud.0) (V.faults shelf.old)
        (V.faults shelf.new)) }
{
    match Kit::make(alloc, &rooms) {
        Ok(kit) => {
            let mut kit = kit;
            migrate_with(&mut kit, shelf, cloud, shape, &rooms)
        }
        Err(NoMemory) => Err(MigrateErr::NoMemory),
    }
}
