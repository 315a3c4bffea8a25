//! A checkpoint of a memory in the place of the journal's chain.

ghost use Rattle.std.specs.Prelude.{◌≡◌, ◌<◌, ◌≤◌, ◌+◌, ℕ, List, length, All, OnOk};
ghost use Rattle.cloud_disk.specs.CdEdges.Disk.{Cloud};
ghost use Rattle.cloud_disk.specs.CdEdges.Shelf.{IsCall, HasFailed, KeepsCounts};
ghost use Rattle.cloud_disk.specs.JournalHalves.Halves.{half_limit};
ghost use Rattle.cloud_disk.specs.JournalStart.Ranges.{IsHeader};
ghost use Rattle.cloud_disk.specs.CommitJournal.Leaving.{OtherAreasStay};
ghost use Rattle.cloud_disk.specs.CommitJournal.journal.Stage.TheVariants.{AtEnd};
ghost use Rattle.cloud_memory.specs.UserDedup.command.Command.{Command};
ghost use Rattle.cloud_disk.specs.CloudAreas.Standing.{Chain};
ghost use Rattle.checkpoints.specs.Laying.{records_len, longest_record, KeepsOrSettles, HasSettled};
ghost use Rattle.checkpoints.specs.Marked.{slots_limit};
ghost use Rattle.checkpoints.specs.Settling.{KeepsList, KeepsOthers};
ghost use Rattle.checkpoints.specs.Records.{coming, records_of};
ghost use Rattle.cloud_memory.specs.Rooms.{memory_of, HasRooms};
ghost use Rattle.cloud_memory.specs.Fitting.{FitsRecords};
ghost use Rattle.checkpoints.specs.Ready.{IsReadyToWrite};
ghost use Rattle.checkpoints.specs.Known.{IsDiskKnown, HasCheckpoint, CountsWithin, stage_behind};
ghost use Rattle.checkpoints.specs.Known.{IfFailed, UnlessFailed, IfLong, UnlessLong};
ghost use Rattle.cloud_memory.specs.RecordBody.Spelling.{Body, FitsBody, body_bytes};

use crate::tally::count_surely;
use crate::{CheckpointHead, Marks, MemoryRecords, OwnerChains, checkpoint};
use cloud_disk::{CloudDisk, Header, Shelf, law_of_checkpoints, law_of_places};
use cloud_memory::{BodyBuf, CloudMemory, CloudNo};

/// Why there is no checkpoint.
#[derive(Clone, Copy)]
pub enum Unsettled {
    /// The records are longer than a half of the journal may be. Nothing was done.
    Long,
    /// A device failed. The journal is shut.
    Failed,
}

/// Room that a checkpoint of a memory takes while it is made. Nothing is said of what is left there.
pub struct CheckpointSpace<'a> {
    /// For the chains of the owners' slots.
    pub chains: &'a mut OwnerChains,
    /// For the marks of what was written.
    pub marks: &'a mut Marks,
    /// For one record's body.
    pub buffer: &'a mut BodyBuf,
}

// How many records are still to come, where they fit so many bytes behind a start's 63. It writes each into the buffer.
fn count_written(records: &mut MemoryRecords<'_>, limit: u64, buffer: &mut BodyBuf) -> Option<u32>
    requires ready { IsReadyToWrite records.old.shares.now records.old.files.now records.old.spent.now
        records.old.chains.now records.old.marks.now records.old.at }
    requires few { limit < 4294967296 }
    ensures count { CountsWithin (coming records.old.shares.now records.old.files.now records.old.spent.now
        records.old.at) limit result }
    ensures fit { All FitsBody (coming records.old.shares.now records.old.files.now records.old.spent.now
        records.old.at) }
{
    let mut len: u64 = 63;
    let mut count: u32 = 0;
    'each: while records.write_one(buffer) {
        len = len.saturating_add(buffer.len() as u64 + 5);
        count = count.saturating_add(1);
    }
    if len <= limit { Some(count) } else { None }
}

// How many records are still to come, where they fit so many bytes behind a start's 63. Only where it isn't sure without
// they are written into the buffer.
fn count_within(records: &mut MemoryRecords<'_>, limit: u64, buffer: &mut BodyBuf) -> Option<u32>
    requires ready { IsReadyToWrite records.old.shares.now records.old.files.now records.old.spent.now
        records.old.chains.now records.old.marks.now records.old.at }
    requires few { limit < 4294967296 }
    ensures count { CountsWithin (coming records.old.shares.now records.old.files.now records.old.spent.now
        records.old.at) limit result }
    ensures fit { All FitsBody (coming records.old.shares.now records.old.files.now records.old.spent.now
        records.old.at) }
{
    let sure = count_surely(
        records.shares,
        records.files,
        records.spent,
        records.chains,
        records.marks,
        &records.at,
        limit,
    );
    match sure {
        Some(count) => Some(count),
        None => count_written(records, limit, buffer),
    }
}

/// Puts a checkpoint of a memory, which stands for so many commands and whose blobs lie in this region, in the place of the
/// chain of a cloud's journal. Where the memory is that of the list that the disk stands for, and is placed by the chain, the
/// cloud stands for the list whenever a crash comes; after Ok the disk stands for it by the checkpoint's chain, and the memory
/// is placed by its records. Whatever the records say, each image since has the chain that was there or the checkpoint's, and
/// after Ok the checkpoint's.
///
/// Behind the records there is room for one more, whichever it is. `Long` comes exactly where the records are longer than a
/// half may be, and then nothing has changed. Those of a memory with the header's rooms never are, nor those of a list within
/// its rooms. `Failed` comes only where the cloud's count of faults rose, and then the journal is shut. The memory and the
/// logs are as they were, and no area but the journal is written. It takes no memory.
pub fn checkpoint_of_memory<V: Shelf>(
    memory: &CloudMemory,
    disk: &mut CloudDisk,
    shelf: &mut V,
    cloud: CloudNo,
    header: &Header,
    commands: u64,
    region: u8,
    space: CheckpointSpace<'_>,
) -> Result<(), Unsettled>
    requires at_end { disk.old.journal.stage ≡ AtEnd }
    requires limit { disk.old.journal.limit ≡ half_limit header.now.rooms }
    requires header { IsHeader header.now }
    requires format { header.now.format ≡ 2 }
    requires region { region ≤ 1 }
    requires fit { FitsRecords (memory_of memory.now) }
    requires users { length memory.now.spent ≤ 256 }
    requires slots { length memory.now.shares.place_slots ≤ slots_limit }

    ensures any_moment { (list : List Command) (c : Chain)
        → IsDiskKnown header.now list c commands region memory.now disk.old (V.cloud_at shelf.old cloud.0)
        → KeepsList header.now list (V.cloud_at shelf.old cloud.0) (V.cloud_at shelf.new cloud.0) }
    ensures only_journal { (list : List Command) (c : Chain)
        → IsDiskKnown header.now list c commands region memory.now disk.old (V.cloud_at shelf.old cloud.0)
        → KeepsOthers (V.cloud_at shelf.old cloud.0) (V.cloud_at shelf.new cloud.0) }
    ensures settled { (list : List Command) (c : Chain)
        → IsDiskKnown header.now list c commands region memory.now disk.old (V.cloud_at shelf.old cloud.0)
        → OnOk result (HasCheckpoint header.now list c commands region memory.now
        disk.new (V.cloud_at shelf.new cloud.0)) }
    ensures short { (list : List Command) (c : Chain)
        → IsDiskKnown header.now list c commands region memory.now disk.old (V.cloud_at shelf.old cloud.0)
        → 63 + records_len (records_of memory.now) ≤ disk.old.journal.limit }
    ensures roomy { (list : List Command) (c : Chain) (body : Body)
        → IsDiskKnown header.now list c commands region memory.now disk.old (V.cloud_at shelf.old cloud.0)
        → FitsBody body
        → 63 + records_len (records_of memory.now) + (length (body_bytes body) + 5) ≤ disk.old.journal.limit }
    ensures never_long { HasRooms header.now.rooms memory.now → IfLong result ⊥ }
    ensures room { HasRooms header.now.rooms memory.now
        → 63 + records_len (records_of memory.now) + longest_record ≤ disk.old.journal.limit }
    ensures long { IfLong result (disk.old.journal.limit < 63 + records_len (records_of memory.now)) }
    ensures fits { UnlessLong result (63 + records_len (records_of memory.now) ≤ disk.old.journal.limit) }
    ensures same { IfLong result ((disk.new ≡ disk.old) × (shelf.new ≡ shelf.old)) }
    // whatever the records say
    ensures chain { KeepsOrSettles disk.old.journal header.now commands (length (records_of memory.now)) region
        (records_of memory.now) (V.cloud_at shelf.old cloud.0) (V.cloud_at shelf.new cloud.0) }
    ensures taken { HasSettled disk.old.journal disk.new.journal header.now commands (length
        (records_of memory.now)) region
        (records_of memory.now) (V.cloud_at shelf.old cloud.0) (V.cloud_at shelf.new cloud.0) result }
    ensures others { OtherAreasStay (V.cloud_at shelf.old cloud.0) (V.cloud_at shelf.new cloud.0) result }
    ensures stage { disk.new.journal.stage ≡ stage_behind result }
    ensures gate { OnOk result (disk.new.journal.current.gate + 1 ≡ 63 + records_len (records_of memory.now)) }
    ensures limit { disk.new.journal.limit ≡ disk.old.journal.limit }
    ensures logs { (disk.new.shares ≡ disk.old.shares) × (disk.new.recipes ≡ disk.old.recipes) }
    ensures call { IsCall (V.cloud_at shelf.old) (V.cloud_at shelf.new) cloud.0
        (V.faults shelf.old) (V.faults shelf.new) }
    ensures failed { IfFailed result (HasFailed (V.cloud_at shelf.old cloud.0) (V.cloud_at shelf.new cloud.0)
        (V.faults shelf.old) (V.faults shelf.new)) }
    ensures uncounted { UnlessFailed result (KeepsCounts (V.cloud_at shelf.old cloud.0) (V.cloud_at shelf.new cloud.0)
        (V.faults shelf.old) (V.faults shelf.new)) }
{
    let CheckpointSpace {
        chains,
        marks,
        buffer,
    } = space;
    let limit = disk.journal().limit();
    law_of_checkpoints();
    law_of_places();
    let _ = memory.shares().place_at(0);
    let _ = memory.shares().owner_at(0);
    let _ = memory.files().entry_at(0);
    chains.chain(memory);
    let mut records = MemoryRecords::of(memory, chains, marks);
    let count = match count_within(&mut records, limit, buffer) {
        Some(count) => count,
        None => return Err(Unsettled::Long),
    };
    let mut records = MemoryRecords::of(memory, chains, marks);
    let head = CheckpointHead {
        commands,
        count,
        region,
    };
    let laid = checkpoint(disk, shelf, cloud, header, head, &mut records, buffer);
    match laid {
        Ok(()) => {}
        Err(_) => return Err(Unsettled::Failed),
    }
    Ok(())
}
