//! The records of a journal of format 1, taken into the memory one after another.

ghost use Rattle.std.specs.Prelude.{◌≡◌, ◌≤◌, ◌<◌, ◌+◌, ◌^◌, [], length, take, drop, nat_lt, is_ok, IsTrue, OnOk, if◌then◌else◌};
ghost use Rattle.fresh_checkpoints.specs.CdBase.Limits.{recipe_limit};
ghost use Rattle.fresh_checkpoints.specs.CdEdges.area.Area.{Area};
ghost use Rattle.fresh_checkpoints.specs.CdEdges.Shelf.{IsCall, HasFailed, KeepsCounts, Stays};
ghost use Rattle.cloud_opening.specs.JournalHalves.Records.{IsJournalBody};
ghost use Rattle.fresh_checkpoints.specs.JournalHalves.Journals.{Where};
ghost use Rattle.cloud_opening.specs.JournalStart.Spelling.{records_of};
ghost use Rattle.cloud_opening.specs.CommitJournal.journal.Stage.TheVariants as Stage;
ghost use Rattle.cloud_opening.specs.CommitJournal.States.{state_of, IsJournalReading};
ghost use Rattle.fresh_checkpoints.specs.CloudMemory.Fitting.{FitsRecords};
ghost use Rattle.fresh_checkpoints.specs.CloudMemory.Rooms.{memory_of};
ghost use Rattle.first_laws.specs.FirstRecords.Limits.{HasFirstRooms};
ghost use Rattle.store_migration.specs.Answers.{OnMigrateFault};
ghost use Rattle.store_migration.specs.Exact.{old_err};
ghost use Rattle.store_migration.specs.Steps.{FirstBodyAs, IsFirstOneAs, NextFirstAs, AllFirstRecordsAs};
ghost use Rattle.store_migration.specs.Steps.{IsOfFirstRecords, OnRecordTaken, stage_of};
ghost use Rattle.store_migration.specs.Steps.{stage_after};
ghost use Rattle.store_migration.specs.declared.errors.MigrateErr.TheVariants.{Open};

use crate::recipes::{front, read_at};
use crate::{MigrateErr, OldErr};
use cloud_opening::{Journal, RecordErr};
use first_laws::{CloudMemory, Damage, FirstErr, Ground, recipe_of, take};
use fresh_checkpoints::{CloudNo, Failed, Place, Shelf};

// Why a record isn't taken.
fn untaken(error: FirstErr) -> MigrateErr
    ensures { result ≡ Open (old_err error) }
{
    match error {
        FirstErr::Damaged(Damage { at, byte }) => MigrateErr::Open(OldErr::Damaged { at, byte }),
        FirstErr::RoomsTooSmall { room, limit, at } => {
            MigrateErr::Open(OldErr::RoomsTooSmall { room, limit, at })
        }
    }
}

// Takes the record that was read last, with these bytes where its recipe lies. After an Err the journal is shut.
fn take_body(
    journal: &mut Journal,
    memory: &mut CloudMemory,
    ground: &Ground,
    inside: bool,
    read: &[u8],
) -> Result<(), MigrateErr>
    requires rooms { HasFirstRooms memory.old }
    requires body { IsJournalBody (state_of journal.old).current.body }
    requires place { 5 ≤ (state_of journal.old).current.body_at }
    requires end { (state_of journal.old).current.body_at + length (state_of journal.old).current.body < 2 ^ 64 }
    requires read { length read.now < 2 ^ 32 }
    ensures judged { FirstBodyAs ground.now inside read.now (memory_of memory.old)
        (state_of journal.old).current.body_at
        (state_of journal.old).current.body (memory_of memory.new) result }
    ensures rooms { HasFirstRooms memory.new }
    ensures unspent { OnOk result (memory.new.spent ≡ memory.old.spent) }
    ensures fit { FitsRecords (memory_of memory.old) → OnOk result (FitsRecords (memory_of memory.new)) }
    ensures journal { state_of journal.new ≡ record
        (state_of journal.old) { stage = (if is_ok result then (state_of journal.old).stage else Stage.Shut) } }
    ensures kind { IsOfFirstRecords result }
{
    match take(
        memory,
        ground,
        inside,
        journal.body(),
        journal.body_at(),
        read,
    ) {
        Ok(()) => Ok(()),
        Err(error) => {
            journal.shut();
            Err(untaken(error))
        }
    }
}

// Takes the record that was read last with what lies at this place of the area of recipes. After an Err the journal is shut.
fn take_read<V: Shelf>(
    journal: &mut Journal,
    memory: &mut CloudMemory,
    ground: &Ground,
    inside: bool,
    shelf: &mut V,
    cloud: CloudNo,
    place: Place,
    buffer: &mut [u8],
) -> Result<(), MigrateErr>
    requires rooms { HasFirstRooms memory.old }
    requires body { IsJournalBody (state_of journal.old).current.body }
    requires place { 5 ≤ (state_of journal.old).current.body_at }
    requires end { (state_of journal.old).current.body_at + length (state_of journal.old).current.body < 2 ^ 64 }
    requires room { place.len ≤ length buffer.old }
    ensures judged { IsTrue (V.cloud_at shelf.old cloud.0).told → OnMigrateFault result (Unit {0})
        (FirstBodyAs ground.now inside
        (take place.len (drop place.at ((V.cloud_at shelf.old cloud.0).now Area.Recipes).read))
        (memory_of memory.old) (state_of journal.old).current.body_at (state_of journal.old).current.body
        (memory_of memory.new) result) }
    ensures rooms { HasFirstRooms memory.new }
    ensures unspent { OnOk result (memory.new.spent ≡ memory.old.spent) }
    ensures fit { FitsRecords (memory_of memory.old) → OnOk result (FitsRecords (memory_of memory.new)) }
    ensures journal { state_of journal.new ≡ record
        (state_of journal.old) { stage = (if is_ok result then (state_of journal.old).stage else Stage.Shut) } }
    ensures kind { IsOfFirstRecords result }
    ensures buffer { length buffer.new ≡ length buffer.old }
    ensures stays { Stays (V.cloud_at shelf.old cloud.0) (V.cloud_at shelf.new cloud.0) }
    ensures call { IsCall (V.cloud_at shelf.old) (V.cloud_at shelf.new) cloud.0 (V.faults shelf.old)
        (V.faults shelf.new) }
    ensures counts { OnMigrateFault result
        (HasFailed (V.cloud_at shelf.old cloud.0) (V.cloud_at shelf.new cloud.0) (V.faults shelf.old)
        (V.faults shelf.new))
        (KeepsCounts (V.cloud_at shelf.old cloud.0) (V.cloud_at shelf.new cloud.0) (V.faults shelf.old)
        (V.faults shelf.new)) }
{
    match read_at(shelf, cloud, &place, buffer) {
        Ok(count) => take_body(journal, memory, ground, inside, front(buffer, count)),
        Err(Failed) => {
            journal.shut();
            Err(MigrateErr::Fault)
        }
    }
}

// Takes the record that was read last: first what lies where its recipe is to lie is read, if its checks ask for it. After an
// Err the journal is shut.
fn take_record<V: Shelf>(
    journal: &mut Journal,
    memory: &mut CloudMemory,
    ground: &Ground,
    inside: bool,
    shelf: &mut V,
    cloud: CloudNo,
    buffer: &mut [u8],
) -> Result<(), MigrateErr>
    requires rooms { HasFirstRooms memory.old }
    requires body { IsJournalBody (state_of journal.old).current.body }
    requires place { 5 ≤ (state_of journal.old).current.body_at }
    requires end { (state_of journal.old).current.body_at + length (state_of journal.old).current.body < 2 ^ 64 }
    requires buffer { recipe_limit ≤ length buffer.old }
    ensures judged { IsTrue (V.cloud_at shelf.old cloud.0).told → OnMigrateFault result (Unit {0})
        (IsFirstOneAs ground.now inside ((V.cloud_at shelf.old cloud.0).now Area.Recipes).read
        (memory_of memory.old) (state_of journal.old).current.body_at (state_of journal.old).current.body
        (memory_of memory.new) result) }
    ensures rooms { HasFirstRooms memory.new }
    ensures unspent { OnOk result (memory.new.spent ≡ memory.old.spent) }
    ensures fit { FitsRecords (memory_of memory.old) → OnOk result (FitsRecords (memory_of memory.new)) }
    ensures journal { state_of journal.new ≡ record
        (state_of journal.old) { stage = (if is_ok result then (state_of journal.old).stage else Stage.Shut) } }
    ensures kind { IsOfFirstRecords result }
    ensures buffer { length buffer.new ≡ length buffer.old }
    ensures stays { Stays (V.cloud_at shelf.old cloud.0) (V.cloud_at shelf.new cloud.0) }
    ensures call { IsCall (V.cloud_at shelf.old) (V.cloud_at shelf.new) cloud.0 (V.faults shelf.old)
        (V.faults shelf.new) }
    ensures counts { OnMigrateFault result
        (HasFailed (V.cloud_at shelf.old cloud.0) (V.cloud_at shelf.new cloud.0) (V.faults shelf.old)
        (V.faults shelf.new))
        (KeepsCounts (V.cloud_at shelf.old cloud.0) (V.cloud_at shelf.new cloud.0) (V.faults shelf.old)
        (V.faults shelf.new)) }
{
    match recipe_of(memory, ground, inside, journal.body()) {
        Some(place) => match take_read(
            journal, memory, ground, inside, shelf, cloud, place, buffer,
        ) {
            Ok(()) => Ok(()),
            Err(error) => Err(error),
        },
        None => take_body(journal, memory, ground, inside, &[]),
    }
}

// Takes the next record into the memory: true. False where the gate is closed behind all records of the checkpoint. `inside` says
// whether that record is one of them. After an Err the journal is shut.
fn take_next<V: Shelf>(
    journal: &mut Journal,
    memory: &mut CloudMemory,
    ground: &Ground,
    inside: bool,
    shelf: &mut V,
    cloud: CloudNo,
    buffer: &mut [u8],
) -> Result<bool, MigrateErr>
    requires reading { (state_of journal.old).stage ≡ Stage.Reading }
    requires rooms { HasFirstRooms memory.old }
    requires buffer { recipe_limit ≤ length buffer.old }
    ensures exact { IsTrue (V.cloud_at shelf.old cloud.0).told → (w : Where)
        → IsJournalReading (state_of journal.old) ((V.cloud_at shelf.old cloud.0).now Area.Journal) w
        → inside ≡ nat_lt (length w.bodies) (records_of w.start.checkpoint)
        → NextFirstAs ground.now ((V.cloud_at shelf.old cloud.0).now Area.Recipes).read
        ((V.cloud_at shelf.old cloud.0).now Area.Journal) w (state_of journal.old) (memory_of memory.old)
        (state_of journal.new) (memory_of memory.new) result }
    ensures rooms { HasFirstRooms memory.new }
    ensures unspent { OnOk result (memory.new.spent ≡ memory.old.spent) }
    ensures fit { FitsRecords (memory_of memory.old) → OnOk result (FitsRecords (memory_of memory.new)) }
    ensures gate { OnRecordTaken result
        ((state_of journal.old).current.gate + 6 ≤ (state_of journal.new).current.gate) }
    ensures stage { (state_of journal.new).stage ≡ stage_of result }
    ensures start { (state_of journal.new).start ≡ (state_of journal.old).start }
    ensures limit { (state_of journal.new).limit ≡ (state_of journal.old).limit }
    ensures kind { IsOfFirstRecords result }
    ensures buffer { length buffer.new ≡ length buffer.old }
    ensures stays { Stays (V.cloud_at shelf.old cloud.0) (V.cloud_at shelf.new cloud.0) }
    ensures call { IsCall (V.cloud_at shelf.old) (V.cloud_at shelf.new) cloud.0 (V.faults shelf.old)
        (V.faults shelf.new) }
    ensures counts { OnMigrateFault result
        (HasFailed (V.cloud_at shelf.old cloud.0) (V.cloud_at shelf.new cloud.0) (V.faults shelf.old)
        (V.faults shelf.new))
        (KeepsCounts (V.cloud_at shelf.old cloud.0) (V.cloud_at shelf.new cloud.0) (V.faults shelf.old)
        (V.faults shelf.new)) }
{
    match journal.next(shelf, cloud) {
        Ok(true) => match take_record(journal, memory, ground, inside, shelf, cloud, buffer) {
            Ok(()) => Ok(true),
            Err(error) => Err(error),
        },
        Ok(false) => Ok(false),
        Err(RecordErr::Damaged { at, byte }) => {
            Err(MigrateErr::Open(OldErr::Damaged { at, byte }))
        }
        Err(RecordErr::Failed) => Err(MigrateErr::Fault),
    }
}

/// Takes each record behind the start into the memory. After an Err the journal is shut.
pub(crate) fn take_all<V: Shelf>(
    journal: &mut Journal,
    memory: &mut CloudMemory,
    ground: &Ground,
    shelf: &mut V,
    cloud: CloudNo,
    buffer: &mut [u8],
) -> Result<(), MigrateErr>
    requires reading { (state_of journal.old).stage ≡ Stage.Reading }
    requires rooms { HasFirstRooms memory.old }
    requires buffer { recipe_limit ≤ length buffer.old }
    ensures exact { IsTrue (V.cloud_at shelf.old cloud.0).told → (w : Where)
        → IsJournalReading (state_of journal.old) ((V.cloud_at shelf.old cloud.0).now Area.Journal) w → w.bodies ≡ []
        → AllFirstRecordsAs ground.now ((V.cloud_at shelf.old cloud.0).now Area.Recipes).read
        ((V.cloud_at shelf.old cloud.0).now Area.Journal) w (state_of journal.old) (memory_of memory.old)
        (state_of journal.new) (memory_of memory.new) result }
    ensures rooms { HasFirstRooms memory.new }
    ensures unspent { OnOk result (memory.new.spent ≡ memory.old.spent) }
    ensures fit { FitsRecords (memory_of memory.old) → OnOk result (FitsRecords (memory_of memory.new)) }
    ensures stage { (state_of journal.new).stage ≡ stage_after Stage.AtEnd result }
    ensures start { (state_of journal.new).start ≡ (state_of journal.old).start }
    ensures limit { (state_of journal.new).limit ≡ (state_of journal.old).limit }
    ensures kind { IsOfFirstRecords result }
    ensures stays { Stays (V.cloud_at shelf.old cloud.0) (V.cloud_at shelf.new cloud.0) }
    ensures call { IsCall (V.cloud_at shelf.old) (V.cloud_at shelf.new) cloud.0 (V.faults shelf.old)
        (V.faults shelf.new) }
    ensures counts { OnMigrateFault result
        (HasFailed (V.cloud_at shelf.old cloud.0) (V.cloud_at shelf.new cloud.0) (V.faults shelf.old)
        (V.faults shelf.new))
        (KeepsCounts (V.cloud_at shelf.old cloud.0) (V.cloud_at shelf.new cloud.0) (V.faults shelf.old)
        (V.faults shelf.new)) }
{
    let of_checkpoint = u64::from(journal.records());
    let mut records: u64 = 0;
    while take_next(
        journal,
        memory,
        ground,
        records < of_checkpoint,
        shelf,
        cloud,
        buffer,
    )? {
        records += 1;
    }
    Ok(())
}
