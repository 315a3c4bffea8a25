//! The records of a journal, taken into the memory one after another.

ghost use Rattle.std.specs.Prelude.{◌≡◌, ◌+◌, ◌≤◌, ◌<◌, ◌^◌, [], length, take, drop, nat_lt, is_ok, if◌then◌else◌};
ghost use Rattle.std.specs.Prelude.{IsTrue, MatchResult, OnOk, Ok, Err};
ghost use Rattle.cloud_disk.specs.CdBase.Limits.{recipe_limit};
ghost use Rattle.cloud_disk.specs.CdEdges.area.Area.{Area};
ghost use Rattle.cloud_disk.specs.CdEdges.Shelf.{IsCall, HasFailed, KeepsCounts, Stays};
ghost use Rattle.cloud_disk.specs.JournalHalves.Records.{IsJournalBody};
ghost use Rattle.cloud_disk.specs.CommitJournal.journal.Stage.{Stage};
ghost use Rattle.cloud_disk.specs.CommitJournal.Openings.{OnFault};
ghost use Rattle.cloud_disk.specs.CommitJournal.Outcomes.{stage_after};
ghost use Rattle.cloud_disk.specs.CommitJournal.States.{state_of, IsJournalReading};
ghost use Rattle.cloud_disk.specs.JournalStart.Spelling.{records_of};
ghost use Rattle.cloud_disk.specs.JournalHalves.Journals.{Where};
ghost use Rattle.record_laws.specs.RecordChecks.CloudMemory.Rooms.{memory_of, HasRooms};
ghost use Rattle.record_laws.specs.RecordChecks.Judging.{Judges};
ghost use Rattle.record_laws.specs.RecordChecks.Noting.{IsNoted};
ghost use Rattle.cloud_opening.specs.Steps.{BodyAs, OneAs, NextAs, AllRecordsAs, IsTraced, IsOfRecords, OnTrue};
ghost use Rattle.cloud_opening.specs.Steps.{stage_of};
ghost use Rattle.cloud_opening.specs.Windows.{ShowsWindow};

use crate::window::Window;
use cloud_disk::{Area, CloudNo, Failed, Journal, OpenErr, Place, RecordErr, Shelf};
use record_laws::{CloudMemory, Damage, Ground, Taking, recipe_of, take};

// Whose records are taken, and by what each is judged.
#[derive(Clone, Copy)]
struct Judging<'a> {
    // The cloud.
    cloud: CloudNo,
    // What is known of the store before its records.
    ground: &'a Ground,
    // Whether the next record is one of the checkpoint.
    inside: bool,
}

// Takes the record with this body, which begins at a place of the journal, with these bytes where its recipe lies.
fn take_bytes(
    memory: &mut CloudMemory,
    taking: &mut Taking,
    ground: &Ground,
    inside: bool,
    body: &[u8],
    at: u64,
    read: &[u8],
) -> Result<(), Damage>
    requires rooms { HasRooms ground.now.rooms memory.old }
    requires body { IsJournalBody body.now }
    requires place { 5 ≤ at }
    requires end { at + length body.now < 2 ^ 64 }
    requires read { length read.now < 2 ^ 32 }
    ensures judged { MatchResult result
        (λ _. Judges ground.now inside read.now taking.old.spent (memory_of memory.old) at body.now
        (Ok (memory_of memory.new)))
        (λ damage. Judges ground.now inside read.now taking.old.spent (memory_of memory.old) at body.now
        (Err damage)) }
    ensures noted { OnOk result (IsNoted at body.now (memory_of memory.old) taking.old taking.new) }
    ensures traced { IsTraced ground.now (memory_of memory.old) taking.old
        → OnOk result (IsTraced ground.now (memory_of memory.new) taking.new) }
    ensures rooms { HasRooms ground.now.rooms memory.new }
{
    match take(memory, taking, ground, inside, body, at, read) {
        Ok(()) => Ok(()),
        Err(damage) => Err(damage),
    }
}

// Takes the record that was read last, with these bytes where its recipe lies. After an Err the journal is shut.
fn take_body(
    journal: &mut Journal,
    memory: &mut CloudMemory,
    taking: &mut Taking,
    ground: &Ground,
    inside: bool,
    read: &[u8],
) -> Result<(), OpenErr>
    requires rooms { HasRooms ground.now.rooms memory.old }
    requires body { IsJournalBody (state_of journal.old).current.body }
    requires place { 5 ≤ (state_of journal.old).current.body_at }
    requires end { (state_of journal.old).current.body_at + length (state_of journal.old).current.body < 2 ^ 64 }
    requires read { length read.now < 2 ^ 32 }
    ensures judged { BodyAs ground.now inside read.now (memory_of memory.old) taking.old
        (state_of journal.old).current.body_at (state_of journal.old).current.body
        (memory_of memory.new) taking.new result }
    ensures traced { IsTraced ground.now (memory_of memory.old) taking.old
        → OnOk result (IsTraced ground.now (memory_of memory.new) taking.new) }
    ensures rooms { HasRooms ground.now.rooms memory.new }
    ensures journal { state_of journal.new ≡ record
        (state_of journal.old) { stage = (if is_ok result then (state_of journal.old).stage else Stage.Shut) } }
{
    match take_bytes(
        memory,
        taking,
        ground,
        inside,
        journal.body(),
        journal.body_at(),
        read,
    ) {
        Ok(()) => Ok(()),
        Err(damage) => {
            journal.shut();
            Err(OpenErr::Damaged {
                at: damage.at,
                byte: damage.byte,
            })
        }
    }
}

// Takes the record that was read last with what lies at this place of the area of recipes. After an Err the journal is shut.
fn take_read<V: Shelf>(
    journal: &mut Journal,
    memory: &mut CloudMemory,
    taking: &mut Taking,
    judging: &Judging<'_>,
    shelf: &mut V,
    place: Place,
    window: &mut Window,
    buffer: &mut [u8],
) -> Result<(), OpenErr>
    requires rooms { HasRooms judging.now.ground.now.rooms memory.old }
    requires body { IsJournalBody (state_of journal.old).current.body }
    requires place { 5 ≤ (state_of journal.old).current.body_at }
    requires end { (state_of journal.old).current.body_at + length (state_of journal.old).current.body < 2 ^ 64 }
    requires shows { ShowsWindow (V.cloud_at shelf.old judging.now.cloud.0) window.old buffer.old }
    requires room { place.len ≤ length buffer.old }
    ensures judged { IsTrue (V.cloud_at shelf.old judging.now.cloud.0).told → OnFault result (Unit {0})
        (BodyAs judging.now.ground.now judging.now.inside
        (take place.len (drop place.at ((V.cloud_at shelf.old judging.now.cloud.0).now Area.Recipes).read))
        (memory_of memory.old) taking.old (state_of journal.old).current.body_at (state_of journal.old).current.body
        (memory_of memory.new) taking.new result) }
    ensures traced { IsTraced judging.now.ground.now (memory_of memory.old) taking.old
        → OnOk result (IsTraced judging.now.ground.now (memory_of memory.new) taking.new) }
    ensures rooms { HasRooms judging.now.ground.now.rooms memory.new }
    ensures journal { state_of journal.new ≡ record
        (state_of journal.old) { stage = (if is_ok result then (state_of journal.old).stage else Stage.Shut) } }
    ensures kind { IsOfRecords result }
    ensures shows { ShowsWindow (V.cloud_at shelf.new judging.now.cloud.0) window.new buffer.new }
    ensures stays { Stays (V.cloud_at shelf.old judging.now.cloud.0) (V.cloud_at shelf.new judging.now.cloud.0) }
    ensures call { IsCall (V.cloud_at shelf.old) (V.cloud_at shelf.new) judging.now.cloud.0 (V.faults shelf.old)
        (V.faults shelf.new) }
    ensures counts { OnFault result
        (HasFailed (V.cloud_at shelf.old judging.now.cloud.0) (V.cloud_at shelf.new judging.now.cloud.0)
        (V.faults shelf.old) (V.faults shelf.new))
        (KeepsCounts (V.cloud_at shelf.old judging.now.cloud.0) (V.cloud_at shelf.new judging.now.cloud.0)
        (V.faults shelf.old) (V.faults shelf.new)) }
{
    match window.look(shelf, judging.cloud, &place, buffer) {
        Ok(part) => take_body(
            journal,
            memory,
            taking,
            judging.ground,
            judging.inside,
            part.of(buffer),
        ),
        Err(Failed) => {
            journal.shut();
            Err(OpenErr::Fault)
        }
    }
}

// Takes the record that was read last: first what lies where its recipe is to lie is read, if its checks ask for it. After an
// Err the journal is shut.
fn take_record<V: Shelf>(
    journal: &mut Journal,
    memory: &mut CloudMemory,
    taking: &mut Taking,
    judging: &Judging<'_>,
    shelf: &mut V,
    window: &mut Window,
    buffer: &mut [u8],
) -> Result<(), OpenErr>
    requires rooms { HasRooms judging.now.ground.now.rooms memory.old }
    requires body { IsJournalBody (state_of journal.old).current.body }
    requires place { 5 ≤ (state_of journal.old).current.body_at }
    requires end { (state_of journal.old).current.body_at + length (state_of journal.old).current.body < 2 ^ 64 }
    requires buffer { recipe_limit ≤ length buffer.old }
    requires shows { ShowsWindow (V.cloud_at shelf.old judging.now.cloud.0) window.old buffer.old }
    ensures judged { IsTrue (V.cloud_at shelf.old judging.now.cloud.0).told → OnFault result (Unit {0})
        (OneAs judging.now.ground.now judging.now.inside
        ((V.cloud_at shelf.old judging.now.cloud.0).now Area.Recipes).read
        (memory_of memory.old) taking.old (state_of journal.old).current.body_at (state_of journal.old).current.body
        (memory_of memory.new) taking.new result) }
    ensures traced { IsTraced judging.now.ground.now (memory_of memory.old) taking.old
        → OnOk result (IsTraced judging.now.ground.now (memory_of memory.new) taking.new) }
    ensures rooms { HasRooms judging.now.ground.now.rooms memory.new }
    ensures journal { state_of journal.new ≡ record
        (state_of journal.old) { stage = (if is_ok result then (state_of journal.old).stage else Stage.Shut) } }
    ensures kind { IsOfRecords result }
    ensures buffer { length buffer.new ≡ length buffer.old }
    ensures shows { ShowsWindow (V.cloud_at shelf.new judging.now.cloud.0) window.new buffer.new }
    ensures stays { Stays (V.cloud_at shelf.old judging.now.cloud.0) (V.cloud_at shelf.new judging.now.cloud.0) }
    ensures call { IsCall (V.cloud_at shelf.old) (V.cloud_at shelf.new) judging.now.cloud.0 (V.faults shelf.old)
        (V.faults shelf.new) }
    ensures counts { OnFault result
        (HasFailed (V.cloud_at shelf.old judging.now.cloud.0) (V.cloud_at shelf.new judging.now.cloud.0)
        (V.faults shelf.old) (V.faults shelf.new))
        (KeepsCounts (V.cloud_at shelf.old judging.now.cloud.0) (V.cloud_at shelf.new judging.now.cloud.0)
        (V.faults shelf.old) (V.faults shelf.new)) }
{
    match recipe_of(memory, judging.ground, judging.inside, journal.body()) {
        Some(place) => match take_read(
            journal, memory, taking, judging, shelf, place, window, buffer,
        ) {
            Ok(()) => Ok(()),
            Err(error) => Err(error),
        },
        None => take_body(journal, memory, taking, judging.ground, judging.inside, &[]),
    }
}

// Takes the next record into the memory: true. False where the gate is closed behind all records of the checkpoint. After
// an Err the journal is shut.
fn take_next<V: Shelf>(
    journal: &mut Journal,
    memory: &mut CloudMemory,
    taking: &mut Taking,
    judging: &Judging<'_>,
    shelf: &mut V,
    window: &mut Window,
    buffer: &mut [u8],
) -> Result<bool, OpenErr>
    requires reading { (state_of journal.old).stage ≡ Stage.Reading }
    requires rooms { HasRooms judging.now.ground.now.rooms memory.old }
    requires buffer { recipe_limit ≤ length buffer.old }
    requires shows { ShowsWindow (V.cloud_at shelf.old judging.now.cloud.0) window.old buffer.old }
    ensures exact { IsTrue (V.cloud_at shelf.old judging.now.cloud.0).told → (w : Where)
        → IsJournalReading (state_of journal.old) ((V.cloud_at shelf.old judging.now.cloud.0).now Area.Journal) w
        → judging.now.inside ≡ nat_lt (length w.bodies) (records_of w.start.checkpoint)
        → NextAs judging.now.ground.now ((V.cloud_at shelf.old judging.now.cloud.0).now Area.Recipes).read
        ((V.cloud_at shelf.old judging.now.cloud.0).now Area.Journal) w
        (state_of journal.old) (memory_of memory.old) taking.old
        (state_of journal.new) (memory_of memory.new) taking.new result }
    ensures traced { IsTraced judging.now.ground.now (memory_of memory.old) taking.old
        → OnOk result (IsTraced judging.now.ground.now (memory_of memory.new) taking.new) }
    ensures rooms { HasRooms judging.now.ground.now.rooms memory.new }
    ensures gate { OnTrue result ((state_of journal.old).current.gate + 6 ≤ (state_of journal.new).current.gate) }
    ensures stage { (state_of journal.new).stage ≡ stage_of result }
    ensures start { (state_of journal.new).start ≡ (state_of journal.old).start }
    ensures limit { (state_of journal.new).limit ≡ (state_of journal.old).limit }
    ensures kind { IsOfRecords result }
    ensures buffer { length buffer.new ≡ length buffer.old }
    ensures shows { ShowsWindow (V.cloud_at shelf.new judging.now.cloud.0) window.new buffer.new }
    ensures stays { Stays (V.cloud_at shelf.old judging.now.cloud.0) (V.cloud_at shelf.new judging.now.cloud.0) }
    ensures call { IsCall (V.cloud_at shelf.old) (V.cloud_at shelf.new) judging.now.cloud.0 (V.faults shelf.old)
        (V.faults shelf.new) }
    ensures counts { OnFault result
        (HasFailed (V.cloud_at shelf.old judging.now.cloud.0) (V.cloud_at shelf.new judging.now.cloud.0)
        (V.faults shelf.old) (V.faults shelf.new))
        (KeepsCounts (V.cloud_at shelf.old judging.now.cloud.0) (V.cloud_at shelf.new judging.now.cloud.0)
        (V.faults shelf.old) (V.faults shelf.new)) }
{
    match journal.next(shelf, judging.cloud) {
        Ok(true) => match take_record(journal, memory, taking, judging, shelf, window, buffer) {
            Ok(()) => Ok(true),
            Err(error) => Err(error),
        },
        Ok(false) => Ok(false),
        Err(RecordErr::Damaged { at, byte }) => Err(OpenErr::Damaged { at, byte }),
        Err(RecordErr::Failed) => Err(OpenErr::Fault),
    }
}

/// Takes each record behind the start into the memory, and answers how many there are. After an Err the journal is shut.
pub(crate) fn take_all<V: Shelf>(
    journal: &mut Journal,
    memory: &mut CloudMemory,
    taking: &mut Taking,
    ground: &Ground,
    shelf: &mut V,
    cloud: CloudNo,
    buffer: &mut [u8],
) -> Result<u64, OpenErr>
    requires reading { (state_of journal.old).stage ≡ Stage.Reading }
    requires rooms { HasRooms ground.now.rooms memory.old }
    requires buffer { recipe_limit ≤ length buffer.old }
    ensures exact { IsTrue (V.cloud_at shelf.old cloud.0).told → (w : Where)
        → IsJournalReading (state_of journal.old) ((V.cloud_at shelf.old cloud.0).now Area.Journal) w → w.bodies ≡ []
        → AllRecordsAs ground.now ((V.cloud_at shelf.old cloud.0).now Area.Recipes).read
        ((V.cloud_at shelf.old cloud.0).now Area.Journal) w (state_of journal.old) (memory_of memory.old) taking.old
        (state_of journal.new) (memory_of memory.new) taking.new result }
    ensures traced { IsTraced ground.now (memory_of memory.old) taking.old
        → OnOk result (IsTraced ground.now (memory_of memory.new) taking.new) }
    ensures rooms { HasRooms ground.now.rooms memory.new }
    ensures stage { (state_of journal.new).stage ≡ stage_after Stage.AtEnd result }
    ensures start { (state_of journal.new).start ≡ (state_of journal.old).start }
    ensures limit { (state_of journal.new).limit ≡ (state_of journal.old).limit }
    ensures kind { IsOfRecords result }
    ensures stays { Stays (V.cloud_at shelf.old cloud.0) (V.cloud_at shelf.new cloud.0) }
    ensures call { IsCall (V.cloud_at shelf.old) (V.cloud_at shelf.new) cloud.0 (V.faults shelf.old)
        (V.faults shelf.new) }
    ensures counts { OnFault result
        (HasFailed (V.cloud_at shelf.old cloud.0) (V.cloud_at shelf.new cloud.0) (V.faults shelf.old)
        (V.faults shelf.new))
        (KeepsCounts (V.cloud_at shelf.old cloud.0) (V.cloud_at shelf.new cloud.0) (V.faults shelf.old)
        (V.faults shelf.new)) }
{
    let of_checkpoint = u64::from(journal.records());
    let mut window = Window::new();
    let mut records: u64 = 0;
    while take_next(
        journal,
        memory,
        taking,
        &Judging {
            cloud,
            ground,
            inside: records < of_checkpoint,
        },
        shelf,
        &mut window,
        buffer,
    )? {
        records += 1;
    }
    Ok(records)
}
