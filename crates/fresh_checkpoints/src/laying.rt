//! A checkpoint of a memory in the place of a chain, whatever that chain says.

ghost use Rattle.std.specs.Prelude.{◌≡◌, ◌<◌, ◌≤◌, ◌+◌, ℕ, List, length, All, OnOk};
ghost use Rattle.cloud_disk.specs.CdEdges.Disk.{LeavesOnly};
ghost use Rattle.cloud_disk.specs.CdEdges.Shelf.{IsCall, HasFailed, KeepsCounts};
ghost use Rattle.cloud_disk.specs.JournalHalves.Halves.{half_limit};
ghost use Rattle.cloud_disk.specs.JournalStart.Ranges.{IsHeader};
ghost use Rattle.cloud_disk.specs.JournalStart.start.Header.{Header as OfStore};
ghost use Rattle.cloud_disk.specs.CommitJournal.Leaving.{OtherAreasStay};
ghost use Rattle.cloud_disk.specs.CommitJournal.journal.Stage.TheVariants.{AtEnd};
ghost use Rattle.cloud_disk.specs.CommitJournal.States.{state_of};
ghost use Rattle.cloud_disk.specs.UserDedup.command.Command.{Command};
ghost use Rattle.cloud_disk.specs.CloudAreas.Standing.{Chain};
ghost use Rattle.cloud_disk.specs.Disk.{IsRead};
ghost use Rattle.compact_memories.specs.Checkpoints.Laying.{records_len, KeepsOrSettles, HasSettled};
ghost use Rattle.compact_memories.specs.Checkpoints.Marked.{slots_limit};
ghost use Rattle.compact_memories.specs.Checkpoints.Records.{coming, records_of};
ghost use Rattle.compact_memories.specs.Checkpoints.Ready.{IsReadyToWrite};
ghost use Rattle.compact_memories.specs.Checkpoints.Known.{checkpoint_in, CountsWithin, stage_behind};
ghost use Rattle.compact_memories.specs.Checkpoints.Known.{IfFailed, UnlessFailed, IfLong, UnlessLong};
ghost use Rattle.compact_memories.specs.CloudMemory.Rooms.{memory_of, HasRooms};
ghost use Rattle.compact_memories.specs.CloudMemory.Fitting.{FitsRecords};
ghost use Rattle.cloud_disk.specs.RecordBody.Spelling.{FitsBody};
ghost use Rattle.fresh_checkpoints.specs.Fresh.{IsNextMemory};
ghost use Rattle.fresh_checkpoints.specs.Switching.{IsReadOne, StandsForOneOf, IsMigrating};

use cloud_disk::{BodyBuf, CloudNo, Header, Journal, Shelf, law_of_checkpoints};
use compact_memories::{
    CheckpointHead, CheckpointSpace, CloudMemory, MemoryRecords, Unsettled, lay_checkpoint,
};

/// The list that takes a chain's place.
#[derive(Clone, Copy)]
pub struct NextList {
    /// How many commands it has.
    pub commands: u64,
    /// The region where its blobs lie: 0 or 1.
    pub region: u8,
}

// How many records are still to come, where they fit so many bytes behind a start's 63. It writes each into the buffer.
fn fresh_count(records: &mut MemoryRecords<'_>, limit: u64, buffer: &mut BodyBuf) -> Option<u32>
    requires ready { IsReadyToWrite records.old.shares.now records.old.files.now records.old.spent.now
        records.old.chains.now records.old.marks.now records.old.at }
    requires few { limit < 4294967296 }
    ensures count { CountsWithin (coming records.old.shares.now records.old.files.now records.old.spent.now
        records.old.at) limit result }
    ensures fit { All FitsBody (coming records.old.shares.now records.old.files.now records.old.spent.now
        records.old.at) }
{
    let mut len: u64 = 63;
    let mut count: u32 = 0;
    'each: while records.write_one(buffer) {
        len = len.saturating_add(buffer.len() as u64 + 5);
        count = count.saturating_add(1);
    }
    if len <= limit { Some(count) } else { None }
}

/// Puts a checkpoint of a memory in the place of the chain of a cloud's journal, whatever that chain says. Where the
/// cloud stands for a list by that chain, and the memory is that of another list, sound, within the rooms, and
/// standing in the areas as they are, the cloud stands for the one list or for the other whenever a crash comes; after
/// Ok the journal was read to the end of the checkpoint's chain, and the cloud stands for the other list. The same
/// holds where the chain is one of format 1.
///
/// `Long` comes exactly where the records are longer than a half may be, and then nothing has changed. Those of a memory
/// with the header's rooms never are, nor those of a list within its rooms. `Failed` comes only where the cloud's count of
/// faults rose, and then the journal is shut. The memory is as it was, and no area but the journal is written. It takes no
/// memory.
pub fn lay_fresh<V: Shelf>(
    memory: &CloudMemory,
    next: NextList,
    journal: &mut Journal,
    shelf: &mut V,
    cloud: CloudNo,
    header: &Header,
    space: CheckpointSpace<'_>,
) -> Result<(), Unsettled>
    requires at_end { (state_of journal.old).stage ≡ AtEnd }
    requires limit { (state_of journal.old).limit ≡ half_limit header.now.rooms }
    requires header { IsHeader header.now }
    requires format { header.now.format ≡ 2 }
    requires region { next.region ≤ 1 }
    requires fit { FitsRecords (memory_of memory.now) }
    requires users { length memory.now.spent ≤ 256 }
    requires slots { length memory.now.shares.place_slots ≤ slots_limit }

    // where the cloud stands for a list by the chain
    ensures any_moment { (one : OfStore) (list other : List Command) (c : Chain)
        → IsRead one list c (state_of journal.old) (V.cloud_at shelf.old cloud.0)
        → IsNextMemory header.now other next.commands next.region memory.now (V.cloud_at shelf.old cloud.0)
        → LeavesOnly (V.cloud_at shelf.old cloud.0) (V.cloud_at shelf.new cloud.0)
        (StandsForOneOf one list header.now other) }
    ensures settled { (one : OfStore) (list other : List Command) (c : Chain)
        → IsRead one list c (state_of journal.old) (V.cloud_at shelf.old cloud.0)
        → IsNextMemory header.now other next.commands next.region memory.now (V.cloud_at shelf.old cloud.0)
        → OnOk result (IsRead header.now other
        (checkpoint_in header.now other c next.commands next.region memory.now)
        (state_of journal.new) (V.cloud_at shelf.new cloud.0)) }
    // where it does in format 1
    ensures migrating { (one : OfStore) (list other : List Command) (c : Chain)
        → IsReadOne one list c (state_of journal.old) (V.cloud_at shelf.old cloud.0)
        → IsNextMemory header.now other next.commands next.region memory.now (V.cloud_at shelf.old cloud.0)
        → LeavesOnly (V.cloud_at shelf.old cloud.0) (V.cloud_at shelf.new cloud.0)
        (IsMigrating one list header.now other) }
    ensures migrated { (one : OfStore) (list other : List Command) (c : Chain)
        → IsReadOne one list c (state_of journal.old) (V.cloud_at shelf.old cloud.0)
        → IsNextMemory header.now other next.commands next.region memory.now (V.cloud_at shelf.old cloud.0)
        → OnOk result (IsRead header.now other
        (checkpoint_in header.now other c next.commands next.region memory.now)
        (state_of journal.new) (V.cloud_at shelf.new cloud.0)) }
    ensures short { (other : List Command)
        → IsNextMemory header.now other next.commands next.region memory.now (V.cloud_at shelf.old cloud.0)
        → 63 + records_len (records_of memory.now) ≤ (state_of journal.old).limit }
    ensures never_long { HasRooms header.now.rooms memory.now → IfLong result ⊥ }
    ensures long { IfLong result ((state_of journal.old).limit < 63 + records_len (records_of memory.now)) }
    ensures fits { UnlessLong result (63 + records_len (records_of memory.now) ≤ (state_of journal.old).limit) }
    ensures same { IfLong result ((state_of journal.new ≡ state_of journal.old) × (shelf.new ≡ shelf.old)) }
    // whatever the chain and the records say
    ensures chain { KeepsOrSettles (state_of journal.old) header.now next.commands
        (length (records_of memory.now)) next.region (records_of memory.now)
        (V.cloud_at shelf.old cloud.0) (V.cloud_at shelf.new cloud.0) }
    ensures taken { HasSettled (state_of journal.old) (state_of journal.new) header.now next.commands
        (length (records_of memory.now)) next.region (records_of memory.now)
        (V.cloud_at shelf.old cloud.0) (V.cloud_at shelf.new cloud.0) result }
    ensures others { OtherAreasStay (V.cloud_at shelf.old cloud.0) (V.cloud_at shelf.new cloud.0) result }
    ensures stage { (state_of journal.new).stage ≡ stage_behind result }
    ensures gate { OnOk result ((state_of journal.new).current.gate + 1 ≡ 63 + records_len (records_of memory.now)) }
    ensures limit { (state_of journal.new).limit ≡ (state_of journal.old).limit }
    ensures call { IsCall (V.cloud_at shelf.old) (V.cloud_at shelf.new) cloud.0
        (V.faults shelf.old) (V.faults shelf.new) }
    ensures failed { IfFailed result (HasFailed (V.cloud_at shelf.old cloud.0) (V.cloud_at shelf.new cloud.0)
        (V.faults shelf.old) (V.faults shelf.new)) }
    ensures uncounted { UnlessFailed result (KeepsCounts (V.cloud_at shelf.old cloud.0) (V.cloud_at shelf.new cloud.0)
        (V.faults shelf.old) (V.faults shelf.new)) }
{
    let CheckpointSpace {
        chains,
        marks,
        buffer,
    } = space;
    let limit = journal.limit();
    law_of_checkpoints();
    let _ = memory.shares().place_at(0);
    let _ = memory.shares().owner_at(0);
    let _ = memory.files().entry_at(0);
    chains.chain(memory);
    let mut records = MemoryRecords::of(memory, chains, marks);
    let count = match fresh_count(&mut records, limit, buffer) {
        Some(count) => count,
        None => return Err(Unsettled::Long),
    };
    let mut records = MemoryRecords::of(memory, chains, marks);
    let head = CheckpointHead {
        commands: next.commands,
        count,
        region: next.region,
    };
    let laid = lay_checkpoint(journal, shelf, cloud, header, head, &mut records, buffer);
    match laid {
        Ok(()) => {}
        Err(_) => return Err(Unsettled::Failed),
    }
    Ok(())
}
