//! A journal that is opened, and read into an empty memory.

ghost use Rattle.std.specs.Prelude.{◌≡◌, ◌≤◌, ℕ, [], length, is_ok, if◌then◌else◌, List, IsTrue, IfOk, OnOk, OnErr};
ghost use Rattle.cloud_disk.specs.CdBase.Limits.{recipe_limit};
ghost use Rattle.cloud_disk.specs.CdEdges.area.Area.{Area};
ghost use Rattle.cloud_disk.specs.CdEdges.Disk.{reads};
ghost use Rattle.cloud_disk.specs.CdEdges.Shelf.{IsCall, HasFailed, KeepsCounts, Stays};
ghost use Rattle.cloud_disk.specs.JournalStart.Spelling.{region_of};
ghost use Rattle.cloud_disk.specs.JournalHalves.Journals.{Where};
ghost use Rattle.cloud_disk.specs.CommitJournal.journal.Stage.{Stage};
ghost use Rattle.cloud_disk.specs.CommitJournal.Openings.{OnFault};
ghost use Rattle.cloud_disk.specs.CommitJournal.Outcomes.{stage_after};
ghost use Rattle.cloud_disk.specs.CommitJournal.States.{state_of, IsJournalReading, IsJournalEnded};
ghost use Rattle.record_laws.specs.RecordChecks.CloudMemory.Fitting.{FitsRecords};
ghost use Rattle.record_laws.specs.RecordChecks.CloudMemory.Rooms.{memory_of, HasRooms};
ghost use Rattle.record_laws.specs.RecordChecks.CloudMemory.Steps.{begun};
ghost use Rattle.record_laws.specs.RecordChecks.Noting.{nothing_noted};
ghost use Rattle.cloud_opening.specs.Roomy.{IsRoomy};
ghost use Rattle.cloud_opening.specs.Exact.{ReplaysAll, Closes, number_behind};
ghost use Rattle.cloud_opening.specs.Steps.{From, HasChainEnded, IsTraced, IsOfRecords};

use crate::ends::{close, number_of};
use crate::records::take_all;
use cloud_disk::{Area, CloudNo, Failed, Header, Journal, OpenErr, Shelf};
use record_laws::{CloudMemory, Ground, Taking};

// What is known before the records, whose blobs lie in this region.
fn survey<V: Shelf>(
    shelf: &mut V,
    cloud: CloudNo,
    header: &Header,
    region: u8,
) -> Result<Ground, Failed>
    ensures known { IfOk result (λ ground. (ground.shape ≡ header.now.shape) × (ground.rooms ≡ header.now.rooms)
        × (ground.region ≡ region)) }
    ensures lengths { IsTrue (V.cloud_at shelf.old cloud.0).told → IfOk result (λ ground.
        (ground.shares_len ≡ length ((V.cloud_at shelf.old cloud.0).now Area.Shares).read)
        × (ground.recipes_len ≡ length ((V.cloud_at shelf.old cloud.0).now Area.Recipes).read)) }
    ensures stays { Stays (V.cloud_at shelf.old cloud.0) (V.cloud_at shelf.new cloud.0) }
    ensures call { IsCall (V.cloud_at shelf.old) (V.cloud_at shelf.new) cloud.0 (V.faults shelf.old)
        (V.faults shelf.new) }
    ensures failed { OnErr result
        (HasFailed (V.cloud_at shelf.old cloud.0) (V.cloud_at shelf.new cloud.0) (V.faults shelf.old)
        (V.faults shelf.new)) }
    ensures uncounted { OnOk result
        (KeepsCounts (V.cloud_at shelf.old cloud.0) (V.cloud_at shelf.new cloud.0) (V.faults shelf.old)
        (V.faults shelf.new)) }
{
    let shares_len = shelf.len(cloud, Area::Shares)?;
    let recipes_len = shelf.len(cloud, Area::Recipes)?;
    Ok(Ground {
        shape: header.shape,
        rooms: header.rooms,
        region,
        shares_len,
        recipes_len,
    })
}

// Looks where the records end, of which there are so many. After an Err the journal is shut.
fn finish(
    journal: &mut Journal,
    memory: &CloudMemory,
    taking: &Taking,
    ground: &Ground,
    records: u64,
) -> Result<u64, OpenErr>
    requires { IsTraced ground.now (memory_of memory.now) taking.now }
    ensures closes { Closes ground.now (memory_of memory.now) taking.now
        (number_behind (state_of journal.old).start records) result }
    ensures journal { state_of journal.new ≡ record
        (state_of journal.old) { stage = (if is_ok result then (state_of journal.old).stage else Stage.Shut) } }
    ensures kind { IsOfRecords result }
    ensures unfailed { OnFault result ⊥ (Unit {0}) }
{
    let number = number_of(journal.start(), records);
    match close(memory, taking, ground, number) {
        Ok(number) => Ok(number),
        Err(error) => {
            journal.shut();
            Err(error)
        }
    }
}

// Takes the records behind the start into a memory of no commands, and looks where they end. After an Err the journal is shut.
fn read_records<V: Shelf>(
    journal: &mut Journal,
    memory: &mut CloudMemory,
    ground: &Ground,
    shelf: &mut V,
    cloud: CloudNo,
    buffer: &mut [u8],
) -> Result<u64, OpenErr>
    requires reading { (state_of journal.old).stage ≡ Stage.Reading }
    requires rooms { HasRooms ground.now.rooms memory.old }
    requires begun { memory_of memory.old ≡ begun ground.now.rooms.users ground.now.region }
    requires buffer { recipe_limit ≤ length buffer.old }
    ensures exact { IsTrue (V.cloud_at shelf.old cloud.0).told → (w : Where)
        → IsJournalReading (state_of journal.old) ((V.cloud_at shelf.old cloud.0).now Area.Journal) w → w.bodies ≡ []
        → OnFault result (Unit {0})
        (From ground.now ((V.cloud_at shelf.old cloud.0).now Area.Recipes).read
        ((V.cloud_at shelf.old cloud.0).now Area.Journal) (memory_of memory.new) (state_of journal.old) 0
        (begun ground.now.rooms.users ground.now.region) nothing_noted result) }
    ensures ended { IsTrue (V.cloud_at shelf.old cloud.0).told → (w : Where)
        → IsJournalReading (state_of journal.old) ((V.cloud_at shelf.old cloud.0).now Area.Journal) w → w.bodies ≡ []
        → OnOk result (HasChainEnded (state_of journal.new) ((V.cloud_at shelf.old cloud.0).now Area.Journal) w) }
    ensures fit { OnOk result (FitsRecords (memory_of memory.new)) }
    ensures roomy { OnOk result (IsRoomy ground.now.rooms ground.now.region (memory_of memory.new)) }
    ensures start { (state_of journal.new).start ≡ (state_of journal.old).start }
    ensures rooms { HasRooms ground.now.rooms memory.new }
    ensures stage { (state_of journal.new).stage ≡ stage_after Stage.AtEnd result }
    ensures limit { (state_of journal.new).limit ≡ (state_of journal.old).limit }
    ensures kind { IsOfRecords result }
    ensures stays { Stays (V.cloud_at shelf.old cloud.0) (V.cloud_at shelf.new cloud.0) }
    ensures call { IsCall (V.cloud_at shelf.old) (V.cloud_at shelf.new) cloud.0 (V.faults shelf.old)
        (V.faults shelf.new) }
    ensures counts { OnFault result
        (HasFailed (V.cloud_at shelf.old cloud.0) (V.cloud_at shelf.new cloud.0) (V.faults shelf.old)
        (V.faults shelf.new))
        (KeepsCounts (V.cloud_at shelf.old cloud.0) (V.cloud_at shelf.new cloud.0) (V.faults shelf.old)
        (V.faults shelf.new)) }
{
    let mut taking = Taking::new();
    match take_all(journal, memory, &mut taking, ground, shelf, cloud, buffer) {
        Ok(records) => finish(journal, memory, &taking, ground, records),
        Err(error) => Err(error),
    }
}

/// Forgets what was remembered, and takes the records behind the journal's start into the memory. Answers how many commands there
/// are. After an Err the journal is shut.
pub(crate) fn load<V: Shelf>(
    journal: &mut Journal,
    memory: &mut CloudMemory,
    shelf: &mut V,
    cloud: CloudNo,
    header: &Header,
    buffer: &mut [u8],
) -> Result<u64, OpenErr>
    requires reading { (state_of journal.old).stage ≡ Stage.Reading }
    requires small { region_of (state_of journal.old).start.checkpoint ≤ 1 }
    requires rooms { HasRooms header.now.rooms memory.old }
    requires buffer { recipe_limit ≤ length buffer.old }
    ensures exact { IsTrue (V.cloud_at shelf.old cloud.0).told → (w : Where)
        → IsJournalReading (state_of journal.old) ((V.cloud_at shelf.old cloud.0).now Area.Journal) w → w.bodies ≡ []
        → OnFault result (Unit {0})
        (ReplaysAll header.now w.half w.start (reads (V.cloud_at shelf.old cloud.0).now)
        (memory_of memory.new) result) }
    ensures ended { IsTrue (V.cloud_at shelf.old cloud.0).told → (w : Where)
        → IsJournalReading (state_of journal.old) ((V.cloud_at shelf.old cloud.0).now Area.Journal) w → w.bodies ≡ []
        → OnOk result (HasChainEnded (state_of journal.new) ((V.cloud_at shelf.old cloud.0).now Area.Journal) w) }
    ensures fit { OnOk result (FitsRecords (memory_of memory.new)) }
    ensures roomy { OnOk result (IsRoomy header.now.rooms (region_of (state_of journal.old).start.checkpoint)
        (memory_of memory.new)) }
    ensures start { (state_of journal.new).start ≡ (state_of journal.old).start }
    ensures rooms { HasRooms header.now.rooms memory.new }
    ensures stage { (state_of journal.new).stage ≡ stage_after Stage.AtEnd result }
    ensures limit { (state_of journal.new).limit ≡ (state_of journal.old).limit }
    ensures kind { IsOfRecords result }
    ensures stays { Stays (V.cloud_at shelf.old cloud.0) (V.cloud_at shelf.new cloud.0) }
    ensures call { IsCall (V.cloud_at shelf.old) (V.cloud_at shelf.new) cloud.0 (V.faults shelf.old)
        (V.faults shelf.new) }
    ensures counts { OnFault result
        (HasFailed (V.cloud_at shelf.old cloud.0) (V.cloud_at shelf.new cloud.0) (V.faults shelf.old)
        (V.faults shelf.new))
        (KeepsCounts (V.cloud_at shelf.old cloud.0) (V.cloud_at shelf.new cloud.0) (V.faults shelf.old)
        (V.faults shelf.new)) }
{
    let region = journal.region();
    memory.clear(region);
    match survey(shelf, cloud, header, region) {
        Ok(ground) => read_records(journal, memory, &ground, shelf, cloud, buffer),
        Err(Failed) => {
            journal.shut();
            Err(OpenErr::Fault)
        }
    }
}
