//! The laws of a memory without what is dead, for the proofs of callers. The calls do nothing.

ghost use Rattle.std.specs.Prelude.{◌≤◌, ◌+◌};
ghost use Rattle.migration_model.specs.JournalHalves.Halves.{half_limit};
ghost use Rattle.compact_memories.specs.JournalStart.rooms.UserRooms.{UserRooms};
ghost use Rattle.compact_memories.specs.CloudMemory.cloud.CloudMemory.{CloudMemory};
ghost use Rattle.compact_memories.specs.CloudMemory.Fitting.{FitsRecords};
ghost use Rattle.compact_memories.specs.CloudMemory.Memory.{Memory};
ghost use Rattle.compact_memories.specs.CloudMemory.Rooms.{memory_of};
ghost use Rattle.compact_memories.specs.Checkpoints.Known.{AreListed};
ghost use Rattle.compact_memories.specs.Checkpoints.Laying.{records_len};
ghost use Rattle.compact_memories.specs.Checkpoints.Records.{records_of};
ghost use Rattle.compact_memories.specs.Kept.{IsCompacted};
ghost use Rattle.large_users.specs.Large.{IsNonePassed, AreSized};

/// What isn't dead fits records as before: lengths of shares and of recipes, and a place for each fingerprint that some
/// user owns.
pub fn law_of_compacted_fits()
    ensures { (old : CloudMemory) (new : Memory) → AreListed old → FitsRecords (memory_of old) → IsCompacted old new
        → FitsRecords new }
{}

/// Where no user keeps more than the rooms allow, the records of the memory without what is dead are short enough for a
/// half, whatever rooms that memory has itself. It takes no list: so they are of a memory that was read from a journal
/// that nobody wrote.
pub fn law_of_compacted_room()
    ensures { (rooms : UserRooms) (old memory : CloudMemory) → IsCompacted old (memory_of memory)
        → IsNonePassed rooms (memory_of old) → AreSized memory
        → 63 + records_len (records_of memory) ≤ half_limit rooms }
{}
