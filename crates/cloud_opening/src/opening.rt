//! The opening of a cloud.

ghost use Rattle.std.specs.Prelude.{◌≡◌, ◌≤◌, ℕ, List, [], length, IsTrue, IfOk, OnOk, OnErr};
ghost use Rattle.cloud_disk.specs.CdBase.Limits.{recipe_limit};
ghost use Rattle.cloud_disk.specs.CdEdges.Disk.{reads};
ghost use Rattle.cloud_disk.specs.CdEdges.Shelf.{IsCall, HasFailed, KeepsCounts};
ghost use Rattle.cloud_disk.specs.ContainerLog.States.{HasStaged};
ghost use Rattle.cloud_disk.specs.JournalStart.Ranges.{IsHeader};
ghost use Rattle.cloud_disk.specs.JournalStart.Spelling.{region_of};
ghost use Rattle.cloud_disk.specs.JournalHalves.Halves.{half_limit};
ghost use Rattle.cloud_disk.specs.CommitJournal.journal.Stage.{Stage};
ghost use Rattle.cloud_disk.specs.CommitJournal.Openings.{OnFault, HasBegun};
ghost use Rattle.cloud_disk.specs.CommitJournal.Outcomes.{stage_after};
ghost use Rattle.cloud_disk.specs.CommitJournal.States.{state_of};
ghost use Rattle.cloud_disk.specs.Disk.{ended_at};
ghost use Rattle.record_laws.specs.RecordChecks.CloudMemory.Fitting.{FitsRecords};
ghost use Rattle.record_laws.specs.RecordChecks.CloudMemory.Rooms.{memory_of, HasRooms};
ghost use Rattle.cloud_opening.specs.Exact.{Opens};
ghost use Rattle.cloud_opening.specs.Roomy.{IsRoomy};
ghost use Rattle.cloud_opening.specs.Spared.{Spares, KeepsLists, IsReadWhole, IsFor, IsLoaded, MayBegin, IsOkOrFault};
ghost use Rattle.cloud_opening.specs.Steps.{IsListFound};
ghost use Rattle.record_laws.specs.Leaving.{MayHold};
ghost use Rattle.cloud_disk.specs.CdEdges.area.Area.{Area};
ghost use Rattle.cloud_disk.specs.UserDedup.command.Command.{Command};
ghost use Rattle.cloud_disk.specs.UserDedup.Cloud.{counted};
ghost use Rattle.cloud_disk.specs.CloudAreas.Standing.{StandsFor};

use crate::journal::open_journal;
use crate::loading::load;
use cloud_disk::{
    CloudDisk, CloudNo, Header, Journal, OpenErr, Shelf, law_of_numbers, law_of_standing,
};
use record_laws::CloudMemory;
use record_laws::taking::{law_of_fronts, law_of_lawful_records};

// Opens the journal of synced areas or begins it, and takes each record into the memory. After an Err the journal is shut.
fn open_all<V: Shelf>(
    journal: &mut Journal,
    memory: &mut CloudMemory,
    shelf: &mut V,
    cloud: CloudNo,
    header: &Header,
    begin: bool,
    buffer: &mut [u8],
) -> Result<u64, OpenErr>
    requires header { IsHeader header.now }
    requires rooms { HasRooms header.now.rooms memory.old }
    requires buffer { recipe_limit ≤ length buffer.old }
    ensures kept { IsTrue (V.cloud_at shelf.old cloud.0).told
        → KeepsLists header.now (V.cloud_at shelf.old cloud.0) (V.cloud_at shelf.new cloud.0) }
    ensures spares { IsTrue (V.cloud_at shelf.old cloud.0).told
        → Spares header.now begin (V.cloud_at shelf.old cloud.0) (V.cloud_at shelf.new cloud.0) result }
    ensures exact { IsTrue (V.cloud_at shelf.old cloud.0).told → OnFault result (Unit {0})
        (Opens header.now begin (reads (V.cloud_at shelf.old cloud.0).now) (memory_of memory.new) result) }
    ensures read { IsTrue (V.cloud_at shelf.old cloud.0).told
        → IfOk result (λ commands. IsReadWhole header.now (state_of journal.new) (memory_of memory.new) commands
        (V.cloud_at shelf.new cloud.0)) }
    ensures stands { IsTrue (V.cloud_at shelf.old cloud.0).told → (list : List Command)
        → StandsFor (reads (V.cloud_at shelf.old cloud.0).now) header.now list
        → OnOk result (StandsFor (reads (V.cloud_at shelf.new cloud.0).now) header.now list) }
    ensures found { IsTrue (V.cloud_at shelf.old cloud.0).told → (list : List Command)
        → StandsFor (reads (V.cloud_at shelf.old cloud.0).now) header.now list → MayHold header.now list
        → (state_of journal.old).limit ≡ half_limit header.now.rooms
        → IfOk result (λ commands. IsListFound header.now list (state_of journal.new) (memory_of memory.new) commands
        (V.cloud_at shelf.new cloud.0)) }
    ensures whole { IsTrue (V.cloud_at shelf.old cloud.0).told → (list : List Command)
        → StandsFor (reads (V.cloud_at shelf.old cloud.0).now) header.now list → MayHold header.now list
        → MayBegin ((V.cloud_at shelf.old cloud.0).now Area.Journal).read begin → IsOkOrFault result }
    ensures fit { OnOk result (FitsRecords (memory_of memory.new)) }
    ensures roomy { OnOk result (IsRoomy header.now.rooms (region_of (state_of journal.new).start.checkpoint)
        (memory_of memory.new)) }
    ensures small { OnOk result (region_of (state_of journal.new).start.checkpoint ≤ 1) }
    ensures begins { IsTrue begin → HasBegun result }
    ensures rooms { HasRooms header.now.rooms memory.new }
    ensures stage { (state_of journal.new).stage ≡ stage_after Stage.AtEnd result }
    ensures limit { (state_of journal.new).limit ≡ (state_of journal.old).limit }
    ensures call { IsCall (V.cloud_at shelf.old) (V.cloud_at shelf.new) cloud.0 (V.faults shelf.old)
        (V.faults shelf.new) }
    ensures counts { OnFault result
        (HasFailed (V.cloud_at shelf.old cloud.0) (V.cloud_at shelf.new cloud.0) (V.faults shelf.old)
        (V.faults shelf.new))
        (KeepsCounts (V.cloud_at shelf.old cloud.0) (V.cloud_at shelf.new cloud.0) (V.faults shelf.old)
        (V.faults shelf.new)) }
{
    law_of_standing();
    law_of_numbers();
    law_of_fronts();
    law_of_lawful_records();
    match open_journal(journal, shelf, cloud, header, begin) {
        Ok(()) => load(journal, memory, shelf, cloud, header, buffer),
        Err(error) => Err(error),
    }
}

/// Opens the cloud: syncs Journal, Shares and Recipes in this order, finds the current half of the journal, or begins
/// half 0 where no half is begun and `begin` is true, and takes each record of its chain into the memory, which forgets
/// what it had. Answers how many commands there are: those before the checkpoint that the chain begins with, and one
/// for each record behind it, as far as 64 bits reach. `recipe` is a buffer of at least 1,180,190 bytes: what lies
/// where a record's recipe is to lie is read into it, and with it some of what lies behind.
///
/// Whatever the areas hold, damaged or another store's: a crash at any moment leaves what it might have left before,
/// and the areas read as that too, but where a journal is begun: there it may leave no half begun, or half 0 with this
/// header alone. A begun journal is never written: after any answer but Fault the three syncs were made, and nothing
/// else.
///
/// Whenever a crash comes, and after an Err too, each image of the cloud stands for one of the lists that the images
/// stood for before. After Ok the journal is at its end and the logs end where the memory says, with nothing staged;
/// each share that the memory has has from 1 to 8,208 bytes, and each recipe a byte; nobody has spent more than it may, and
/// both logs end within what was spent, whatever the cloud tells. After an Err the journal is shut and the logs are as they
/// were: only `reopen` may be called. It takes no memory.
///
/// Where no device call fails, the bytes of the areas give the answer, and one alone (`laws::law_of_openings`). Places
/// are those of the area Journal, from 0.
///
/// - `Fault`: a device call failed. It comes only where the cloud's count of faults rose.
/// - `NotBegun`: no half is begun, the area has so many bytes, and `begin` is false, of untold clouds too. Only the three
///   syncs were made.
/// - `OtherStore`: the current half begins with another header than the asked one; `at` is the place of that
///   header.
/// - `Damaged`: the start of a begun half is damaged, or both have one epoch, as `commit_journal` says; or a record
///   behind the current start is, as `Journal::next` says of its frame and `record_checks::take` of its body; or the
///   chain ends before all records of its checkpoint, at the first byte of their number in the start; or, after the
///   last record, the shares or else the recipes end further on than what was spent allows, at the first byte of the
///   place of the first blob that ends there. Each record before was taken.
pub fn reopen<V: Shelf>(
    disk: &mut CloudDisk,
    memory: &mut CloudMemory,
    shelf: &mut V,
    cloud: CloudNo,
    header: &Header,
    begin: bool,
    recipe: &mut [u8],
) -> Result<u64, OpenErr>
    requires header { IsHeader header.now }
    requires rooms { HasRooms header.now.rooms memory.old }
    requires recipe { recipe_limit ≤ length recipe.old }

    ensures kept { IsTrue (V.cloud_at shelf.old cloud.0).told
        → KeepsLists header.now (V.cloud_at shelf.old cloud.0) (V.cloud_at shelf.new cloud.0) }
    ensures spares { IsTrue (V.cloud_at shelf.old cloud.0).told
        → Spares header.now begin (V.cloud_at shelf.old cloud.0) (V.cloud_at shelf.new cloud.0) result }
    ensures exact { IsTrue (V.cloud_at shelf.old cloud.0).told → OnFault result (Unit {0})
        (Opens header.now begin (reads (V.cloud_at shelf.old cloud.0).now) (memory_of memory.new) result) }
    ensures read { IsTrue (V.cloud_at shelf.old cloud.0).told
        → IfOk result (λ commands. IsReadWhole header.now disk.new.journal (memory_of memory.new) commands
        (V.cloud_at shelf.new cloud.0)) }
    ensures loaded { IsTrue (V.cloud_at shelf.old cloud.0).told → IsFor header.now disk.old → (list : List Command)
        → StandsFor (reads (V.cloud_at shelf.old cloud.0).now) header.now list → MayHold header.now list
        → IfOk result (λ commands. (commands ≡ counted list)
        × IsLoaded header.now list disk.new (memory_of memory.new) (V.cloud_at shelf.new cloud.0)) }
    ensures whole { IsTrue (V.cloud_at shelf.old cloud.0).told → (list : List Command)
        → StandsFor (reads (V.cloud_at shelf.old cloud.0).now) header.now list → MayHold header.now list
        → MayBegin ((V.cloud_at shelf.old cloud.0).now Area.Journal).read begin → IsOkOrFault result }

    ensures shares { OnOk result (disk.new.shares ≡ ended_at (memory_of memory.new).shares_end disk.old.shares) }
    ensures recipes { OnOk result (disk.new.recipes ≡ ended_at (memory_of memory.new).recipes_end disk.old.recipes) }
    ensures none { OnOk result (HasStaged disk.new.shares [] × HasStaged disk.new.recipes []) }
    ensures logs { OnErr result ((disk.new.shares ≡ disk.old.shares) × (disk.new.recipes ≡ disk.old.recipes)) }
    ensures fit { OnOk result (FitsRecords (memory_of memory.new)) }
    ensures roomy { OnOk result (IsRoomy header.now.rooms (region_of disk.new.journal.start.checkpoint)
        (memory_of memory.new)) }
    ensures small { OnOk result (region_of disk.new.journal.start.checkpoint ≤ 1) }
    ensures begins { IsTrue begin → HasBegun result }
    ensures rooms { HasRooms header.now.rooms memory.new }
    ensures stage { disk.new.journal.stage ≡ stage_after Stage.AtEnd result }
    ensures limit { disk.new.journal.limit ≡ disk.old.journal.limit }
    ensures call { IsCall (V.cloud_at shelf.old) (V.cloud_at shelf.new) cloud.0 (V.faults shelf.old)
        (V.faults shelf.new) }
    ensures counts { OnFault result
        (HasFailed (V.cloud_at shelf.old cloud.0) (V.cloud_at shelf.new cloud.0) (V.faults shelf.old)
        (V.faults shelf.new))
        (KeepsCounts (V.cloud_at shelf.old cloud.0) (V.cloud_at shelf.new cloud.0) (V.faults shelf.old)
        (V.faults shelf.new)) }
{
    let journal = disk.journal_mut();
    match open_all(journal, memory, shelf, cloud, header, begin, recipe) {
        Ok(commands) => {
            disk.reset(memory.shares_end(), memory.recipes_end());
            Ok(commands)
        }
        Err(error) => Err(error),
    }
}
